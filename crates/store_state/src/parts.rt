//! Which segments and blocks of a list a commit leaves in it, and which it makes loose.

ghost use Rattle.std.specs.Prelude.{◌≡◌, ◌≤◌, ◌<◌, ◌+◌, ◌++◌, ◌∷◌, [], List, length, map, filter, not, drop};
ghost use Rattle.std.specs.Vec.{vec_len, vec_capacity};
ghost use Rattle.block_list.specs.declared.body.SegmentRef.{SegmentRef};
ghost use Rattle.block_list.specs.declared.body.BlockRef.{BlockRef};
ghost use Rattle.store_model.specs.State.{is_among};
ghost use Rattle.store_model.specs.After.{released, staying};
ghost use Rattle.store_state.specs.Edited.{HaveStayed, released_by};
ghost use Rattle.store_state.specs.Listed.{segment_of};
ghost use Rattle.store_state.specs.Parted.{inside, outside};

use crate::listing::NewSegment;
use crate::room::{fill, put};
use block_list::{BlockRef, SegmentRef};

// The segments with a new one, and the files of those that go then; or the segments as they are.
pub(crate) fn part_all_segments(
    now: &[SegmentRef],
    new: Option<NewSegment>,
    segments: &mut Vec<SegmentRef>,
    loose: &mut Vec<u32>,
)
    requires segments { length now.now + 1 ≤ vec_capacity segments.now }
    requires loose { vec_len loose.now + length now.now ≤ vec_capacity loose.now }
    ensures stay { HaveStayed new now.now segments.new.items }
    ensures go { loose.new.items ≡ loose.old.items ++ released_by new now.now }
    ensures loose_len { vec_len loose.new ≤ vec_len loose.old + length now.now }
    ensures loose_room { vec_capacity loose.old ≤ vec_capacity loose.new }
{
    match new {
        None => fill(segments, now),
        Some(added) => part_segments(now, added.segment, added.floor, segments, loose),
    }
}

// Of the segments and a last one those that stay with a floor, and the files of the others.
fn part_segments(
    now: &[SegmentRef],
    last: SegmentRef,
    floor: u64,
    segments: &mut Vec<SegmentRef>,
    loose: &mut Vec<u32>,
)
    requires segments { length now.now + 1 ≤ vec_capacity segments.now }
    requires loose { vec_len loose.now + length now.now ≤ vec_capacity loose.now }
    ensures stay { map segment_of segments.new.items
        ≡ staying floor (map segment_of (now.now ++ last ∷ [])) }
    ensures go { loose.new.items
        ≡ loose.old.items ++ released floor (map segment_of (now.now ++ last ∷ [])) }
    ensures loose_len { vec_len loose.new ≤ vec_len loose.old + length now.now }
    ensures loose_room { vec_capacity loose.old ≤ vec_capacity loose.new }
{
    segments.clear();
    for at in 0..now.len() {
        let next = follower(now, last, at);
        part_segment(now[at], next, floor, segments, loose);
    }
    put(segments, last);
}

// What stands after a position.
fn follower(now: &[SegmentRef], last: SegmentRef, at: usize) -> SegmentRef
    requires { at < length now.now }
    ensures { drop (at + 1) now.now ++ last ∷ []
        ≡ result ∷ drop 1 (drop (at + 1) now.now ++ last ∷ []) }
{
    if at + 1 < now.len() {
        return now[at + 1];
    }
    last
}

// Puts a segment, and the file of one that is released, where they belong.
fn part_segment(
    segment: SegmentRef,
    next: SegmentRef,
    floor: u64,
    segments: &mut Vec<SegmentRef>,
    loose: &mut Vec<u32>,
)
    requires segments { vec_len segments.now + 1 ≤ vec_capacity segments.now }
    requires loose { vec_len loose.now + 1 ≤ vec_capacity loose.now }
    ensures stay { (rest : List SegmentRef) →
        map segment_of segments.new.items ++ staying floor (map segment_of (next ∷ rest))
        ≡ map segment_of segments.old.items
        ++ staying floor (map segment_of (segment ∷ next ∷ rest)) }
    ensures go { (rest : List SegmentRef) →
        loose.new.items ++ released floor (map segment_of (next ∷ rest))
        ≡ loose.old.items ++ released floor (map segment_of (segment ∷ next ∷ rest)) }
    ensures segments_len { vec_len segments.new ≤ vec_len segments.old + 1 }
    ensures segments_room { vec_capacity segments.old ≤ vec_capacity segments.new }
    ensures loose_len { vec_len loose.new ≤ vec_len loose.old + 1 }
    ensures loose_room { vec_capacity loose.old ≤ vec_capacity loose.new }
{
    if next.first <= floor {
        put(loose, segment.file);
    } else {
        put(segments, segment);
    }
}

// The blocks outside of files, and the files of the others.
pub(crate) fn part_blocks(
    now: &[BlockRef],
    files: &[u32],
    blocks: &mut Vec<BlockRef>,
    loose: &mut Vec<u32>,
)
    requires blocks { length now.now + 1 ≤ vec_capacity blocks.now }
    requires loose { vec_len loose.now + length now.now ≤ vec_capacity loose.now }
    ensures stay { blocks.new.items ≡ outside files.now now.now }
    ensures go { loose.new.items ≡ loose.old.items ++ inside files.now now.now }
    ensures room { vec_len blocks.new + 1 ≤ vec_capacity blocks.new }
    ensures loose_len { vec_len loose.new ≤ vec_len loose.old + length now.now }
    ensures loose_room { vec_capacity loose.old ≤ vec_capacity loose.new }
{
    blocks.clear();
    for block in now {
        part_block(*block, files, blocks, loose);
    }
}

// Puts a block, or its file, where it belongs.
fn part_block(block: BlockRef, files: &[u32], blocks: &mut Vec<BlockRef>, loose: &mut Vec<u32>)
    requires blocks { vec_len blocks.now + 1 ≤ vec_capacity blocks.now }
    requires loose { vec_len loose.now + 1 ≤ vec_capacity loose.now }
    ensures stay { blocks.new.items ≡ blocks.old.items ++ outside files.now (block ∷ []) }
    ensures go { loose.new.items ≡ loose.old.items ++ inside files.now (block ∷ []) }
    ensures blocks_len { vec_len blocks.new ≤ vec_len blocks.old + 1 }
    ensures blocks_room { vec_capacity blocks.old ≤ vec_capacity blocks.new }
    ensures loose_len { vec_len loose.new ≤ vec_len loose.old + 1 }
    ensures loose_room { vec_capacity loose.old ≤ vec_capacity loose.new }
{
    if is_in(block.file, files) {
        put(loose, block.file);
    } else {
        put(blocks, block);
    }
}

pub(crate) fn is_in(file: u32, files: &[u32]) -> bool
    ensures { result ≡ is_among file files.now }
{
    files.iter().any(|other| *other == file)
}
