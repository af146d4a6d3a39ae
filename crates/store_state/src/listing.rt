//! What a commit makes of a store's list: one edit of it. Nothing here takes memory but `ListRoom::after`, which a job that
//! begins calls, so that its commit finds room.

ghost use Rattle.std.specs.Prelude.{◌≡◌, ◌≤◌, ◌+◌, ◌++◌, length, IfOk};
ghost use Rattle.std.specs.Vec.{vec_len, vec_capacity};
ghost use Rattle.store_state.specs.Edited.{IsEdited, edit_of, floor_with, one_of};
ghost use Rattle.store_state.specs.Listed.{floor_from};
ghost use Rattle.store_state.specs.Loose.{flush_part};

use crate::parts::{part_all_segments, part_blocks};
use crate::room::{fill, put, put_some};
use block_list::{BlockRef, ListBody, SegmentRef};
use span_types::{Memory, Seq};
use std::alloc::Global;

/// A list doesn't name more files than there are numbers for.
pub const MOST_LISTED: usize = 4_294_967_296;

/// The files of an open flush.
#[derive(Clone, Copy, Debug)]
pub struct FlushFiles {
    /// Its block's.
    pub block: u32,
    /// Its new segment's.
    pub segment: u32,
}

/// A segment that comes last in a list, and the floor that the list has then: segments whose follower begins at or below it go.
#[derive(Clone, Copy, Debug)]
pub struct NewSegment {
    /// The segment.
    pub segment: SegmentRef,
    /// The floor: the least number of a push of which a row may wait outside of blocks.
    pub floor: u64,
}

/// What a commit changes of a list. A flush brings a block and a segment, a compaction a block in the place of others, and a
/// reclaim neither: it names fewer loose files.
#[derive(Clone, Copy, Debug)]
pub struct ListEdit<'l, 'j> {
    /// The next file number that is given out.
    pub next_file: u32,
    /// Files that are neither blocks nor segments, and perhaps not empty: the list names these, and those that it makes loose.
    pub loose: &'l [u32],
    /// The files of the blocks that go.
    pub joined: &'j [u32],
    /// A block that comes last.
    pub block: Option<BlockRef>,
    /// A segment that comes last.
    pub segment: Option<NewSegment>,
    /// The files of a flush that stays open. The list names them as loose.
    pub flush: Option<FlushFiles>,
    /// The file of a compaction that stays open. The list names it as loose.
    pub compaction: Option<u32>,
}

/// Room for a list.
#[derive(Debug, Drop)]
pub struct ListRoom {
    /// For its blocks.
    pub blocks: Vec<BlockRef>,
    /// For its segments.
    pub segments: Vec<SegmentRef>,
    /// For its loose files.
    pub loose: Vec<u32>,
}

impl ListRoom {
    /// Room for each list that two edits may make after this one, while so many files are loose.
    pub fn after(alloc: Global, list: &ListBody, loose: usize) -> Result<ListRoom, Memory>
        ensures blocks { IfOk result
            (λ room. length list.now.blocks + 2 ≤ vec_capacity room.blocks) }
        ensures segments { IfOk result
            (λ room. length list.now.segments + 2 ≤ vec_capacity room.segments) }
        ensures loose { IfOk result (λ room.
            loose + length list.now.segments + length list.now.blocks + 4
            ≤ vec_capacity room.loose) }
        ensures few_blocks { IfOk result (λ room. length list.now.blocks ≤ 4294967296) }
        ensures few_segments { IfOk result (λ room. length list.now.segments ≤ 4294967296) }
        ensures few_loose { IfOk result (λ room. loose ≤ 4294967296) }
    {
        let (blocks, segments) = (list.blocks.len(), list.segments.len());
        if blocks > MOST_LISTED || segments > MOST_LISTED || loose > MOST_LISTED {
            return Err(Memory);
        }
        let loose = Vec::with_capacity(alloc, loose + segments + blocks + 4)?;
        let blocks = Vec::with_capacity(alloc, blocks + 2)?;
        let segments = Vec::with_capacity(alloc, segments + 2)?;
        Ok(ListRoom {
            blocks,
            segments,
            loose,
        })
    }
}

/// The list after this one by an edit, in room that was taken for it.
pub fn edited(list: &ListBody, edit: ListEdit<'_, '_>, room: ListRoom) -> ListBody
    requires blocks { length list.now.blocks + 1 ≤ vec_capacity room.blocks }
    requires segments { length list.now.segments + 1 ≤ vec_capacity room.segments }
    requires loose { length edit.loose.now + length list.now.blocks + length list.now.segments
        + length (flush_part edit.flush) + length (one_of edit.compaction)
        ≤ vec_capacity room.loose }
    ensures { IsEdited list.now (edit_of edit.entry) result }
{
    let ListRoom {
        blocks,
        segments,
        loose,
    } = room;
    let (mut blocks, mut segments, mut loose) = (blocks, segments, loose);
    fill(&mut loose, edit.loose);
    part_blocks(list.blocks.as_slice(), edit.joined, &mut blocks, &mut loose);
    put_some(&mut blocks, edit.block);
    part_all_segments(
        list.segments.as_slice(),
        edit.segment,
        &mut segments,
        &mut loose,
    );
    put_flush(&mut loose, edit.flush);
    put_some(&mut loose, edit.compaction);
    ListBody {
        generation: list.generation.wrapping_add(1),
        next_file: edit.next_file,
        floor: new_floor(edit.segment, list.floor),
        segments: Seq::of(segments),
        blocks: Seq::of(blocks),
        loose: Seq::of(loose),
    }
}

// The floor with a new segment, or as it is.
fn new_floor(new: Option<NewSegment>, floor: u64) -> u64
    ensures { result ≡ floor_with new floor }
{
    match new {
        None => floor,
        Some(segment) => segment.floor,
    }
}

/// The floor from the history's length and the least number that waits.
pub fn floor_of(count: u64, least: Option<u64>) -> u64
    ensures { result ≡ floor_from count least }
{
    match least {
        None => count,
        Some(number) => number.min(count),
    }
}

// Adds the files of an open flush.
fn put_flush(loose: &mut Vec<u32>, flush: Option<FlushFiles>)
    requires { vec_len loose.now + length (flush_part flush) ≤ vec_capacity loose.now }
    ensures items { loose.new.items ≡ loose.old.items ++ flush_part flush }
    ensures len { vec_len loose.new ≡ vec_len loose.old + length (flush_part flush) }
    ensures room { vec_capacity loose.old ≤ vec_capacity loose.new }
{
    if let Some(files) = flush {
        put(loose, files.block);
        put(loose, files.segment);
    }
}
