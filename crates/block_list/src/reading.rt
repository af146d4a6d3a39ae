//! Reading a slot, bytes to a list: its fields are read and tested in the order of the bytes, for `loading`.

ghost use Rattle.std.specs.Prelude.{length, ◌≡◌, ◌||◌, ◌%◌, ℕ, List, [], ◌++◌, Some, None, Option, map, nat_eq, not, true, false, Ok, Err, IfOk, IfSome, IfErr, OnOk, ◌∷◌, ◌==◌};
ghost use Rattle.std.specs.List.{list_any};
ghost use Rattle.block_list.specs.Fronts.{size_in, is_to_clear};
ghost use Rattle.block_list.specs.Reading.{GivesAt, read8, read32, read64, tag_at, generation_at, count_at, head_at, file_at, first_number_at, segment_ref_at, segments_at, level_at, rows_at, block_at, blocks_at, loose_at, list_body_at, slot_at, is_vacant, GivesSlot, are_neighbours, goes_on, tag, offset_of, SameFiles, WithFile};

use crate::{BlockList, BlockRef, FileList, ListBody, SegmentList, SegmentRef};
use byte_fields::{FieldError, Reader};
use span_types::Memory;
use std::alloc::Global;
use std::collections::HashSet;
use std::marker::Model;

/// Where a slot breaks, or `None` if memory ran out.
pub type Break = Option<u64>;

/// The fixed fields of a list.
#[derive(Clone, Copy, Debug, PartialEq, Eq)]
struct Head {
    generation: u8,
    next_file: u32,
    floor: u64,
    segments: u32,
    blocks: u32,
    loose: u32,
}

/// `TSL1`, as a number of four bytes, little-endian.
const TAG: u32 = 827_085_652;

#[tactic(auto, unfolding(crate::specs::Reading::read8))]
fn number8(reader: &mut Reader<'_>) -> Result<u8, Break>
    ensures { GivesAt (λ x. x) result reader.new (read8 reader.old) }
{
    match reader.byte() {
        Ok(number) => Ok(number),
        Err(error) => Err(break_of(error)),
    }
}

#[tactic(auto, unfolding(crate::specs::Reading::read32))]
fn number32(reader: &mut Reader<'_>) -> Result<u32, Break>
    ensures { GivesAt (λ x. x) result reader.new (read32 reader.old) }
{
    match reader.fixed32() {
        Ok(number) => Ok(number),
        Err(error) => Err(break_of(error)),
    }
}

#[tactic(auto, unfolding(crate::specs::Reading::read64))]
fn number64(reader: &mut Reader<'_>) -> Result<u64, Break>
    ensures { GivesAt (λ x. x) result reader.new (read64 reader.old) }
{
    match reader.fixed64() {
        Ok(number) => Ok(number),
        Err(error) => Err(break_of(error)),
    }
}

/// Where a field breaks.
fn break_of(error: FieldError) -> Break
    ensures { IfSome result (λ at. at ≡ offset_of error) }
{
    match error {
        FieldError::Short { at } => Some(at),
        FieldError::NotShortest { at } | FieldError::NotText { at } => Some(at),
        FieldError::Memory => None,
    }
}

#[tactic(auto, unfolding(crate::specs::Reading::tag_at))]
fn read_tag(reader: &mut Reader<'_>) -> Result<u32, Break>
    ensures { GivesAt (λ x. x) result reader.new (tag_at reader.old) }
{
    let at = reader.at();
    let number = number32(reader)?;
    if number != TAG {
        return Err(Some(at));
    }
    Ok(number)
}

/// The generation of the slot of that number. It is the successor of the other list's, or that one is its own.
#[tactic(auto, unfolding(crate::specs::Reading::generation_at))]
fn read_generation(reader: &mut Reader<'_>, slot: u8, other: Option<u8>) -> Result<u8, Break>
    ensures { GivesAt (λ x. x) result reader.new (generation_at slot other reader.old) }
{
    let at = reader.at();
    let generation = number8(reader)?;
    if generation % 2 != slot || !are_neighbours(generation, other) {
        return Err(Some(at));
    }
    Ok(generation)
}

fn are_neighbours(generation: u8, other: Option<u8>) -> bool
    ensures { result ≡ are_neighbours generation other }
{
    match other {
        None => true,
        Some(other) => generation == other.wrapping_add(1) || other == generation.wrapping_add(1),
    }
}

#[tactic(auto, unfolding(crate::specs::Reading::count_at))]
fn read_count(reader: &mut Reader<'_>) -> Result<u32, Break>
    ensures { GivesAt (λ x. x) result reader.new (count_at reader.old) }
{
    let at = reader.at();
    let count = number32(reader)?;
    if count == 0 {
        return Err(Some(at));
    }
    Ok(count)
}

#[tactic(auto, unfolding(crate::specs::Reading::head_at))]
fn read_head(reader: &mut Reader<'_>, slot: u8, other: Option<u8>) -> Result<Head, Break>
    ensures { GivesAt (λ x. x) result reader.new (head_at slot other reader.old) }
{
    read_tag(reader)?;
    let generation = read_generation(reader, slot, other)?;
    let next_file = number32(reader)?;
    let floor = number64(reader)?;
    let segments = read_count(reader)?;
    let blocks = number32(reader)?;
    let loose = number32(reader)?;
    Ok(Head {
        generation,
        next_file,
        floor,
        segments,
        blocks,
        loose,
    })
}

/// A file that was given out and that isn't named yet. It is named then.
#[tactic(auto, unfolding(crate::specs::Reading::file_at))]
fn read_file(reader: &mut Reader<'_>, seen: &mut HashSet<u32>, next_file: u32) -> Result<u32, Break>
    ensures reads { GivesAt (λ x. x) result reader.new
        (file_at next_file seen.old.keys reader.old) }
    ensures named { IfOk result (λ file. WithFile file seen.old.keys seen.new.keys) }
{
    let at = reader.at();
    let file = number32(reader)?;
    if file < 2 || file >= next_file {
        return Err(Some(at));
    }
    match seen.insert(file) {
        Ok(true) => Ok(file),
        Ok(false) => Err(Some(at)),
        Err(_) => Err(None),
    }
}

#[tactic(auto, unfolding(crate::specs::Reading::first_number_at))]
fn read_first(
    reader: &mut Reader<'_>,
    floor: u64,
    is_last: bool,
    before: Option<u64>,
) -> Result<u64, Break>
    ensures { GivesAt (λ x. x) result reader.new (first_number_at floor is_last before reader.old) }
{
    let at = reader.at();
    let first = number64(reader)?;
    let low = is_last && first < floor;
    if first > u64::from(u32::MAX) || !goes_on(floor, before, first) || low {
        return Err(Some(at));
    }
    Ok(first)
}

/// Whether a segment's first number fits the floor, where it is the first segment, or doesn't fall.
fn goes_on(floor: u64, before: Option<u64>, first: u64) -> bool
    ensures { result ≡ goes_on floor before first }
{
    match before {
        None => first <= floor,
        Some(before) => before <= first,
    }
}

#[tactic(auto, unfolding(crate::specs::Reading::segment_ref_at))]
fn read_segment(
    reader: &mut Reader<'_>,
    seen: &mut HashSet<u32>,
    head: Head,
    is_last: bool,
    before: Option<u64>,
) -> Result<SegmentRef, Break>
    ensures reads { GivesAt (λ x. x) result reader.new
        (segment_ref_at head.next_file head.floor is_last before seen.old.keys reader.old) }
    ensures named { IfOk result (λ segment. WithFile segment.file seen.old.keys seen.new.keys) }
{
    let file = read_file(reader, seen, head.next_file)?;
    let first = read_first(reader, head.floor, is_last, before)?;
    Ok(SegmentRef { file, first })
}

#[tactic(auto, unfolding(crate::specs::Reading::level_at))]
fn read_level(reader: &mut Reader<'_>) -> Result<u8, Break>
    ensures { GivesAt (λ x. x) result reader.new (level_at reader.old) }
{
    let at = reader.at();
    let level = number8(reader)?;
    if level > 63 {
        return Err(Some(at));
    }
    Ok(level)
}

#[tactic(auto, unfolding(crate::specs::Reading::rows_at))]
fn read_rows(reader: &mut Reader<'_>) -> Result<u32, Break>
    ensures { GivesAt (λ x. x) result reader.new (rows_at reader.old) }
{
    let at = reader.at();
    let rows = number32(reader)?;
    if rows == 0 || rows > 1_048_576 {
        return Err(Some(at));
    }
    Ok(rows)
}

#[tactic(auto, unfolding(crate::specs::Reading::block_at))]
fn read_block(
    reader: &mut Reader<'_>,
    seen: &mut HashSet<u32>,
    head: Head,
) -> Result<BlockRef, Break>
    ensures reads { GivesAt (λ x. x) result reader.new
        (block_at head.next_file seen.old.keys reader.old) }
    ensures named { IfOk result (λ block. WithFile block.file seen.old.keys seen.new.keys) }
{
    let file = read_file(reader, seen, head.next_file)?;
    let level = read_level(reader)?;
    let rows = read_rows(reader)?;
    Ok(BlockRef { file, level, rows })
}

/// The segments, whose number is known. No file is named before them.
fn read_segments(
    alloc: Global,
    reader: &mut Reader<'_>,
    seen: &mut HashSet<u32>,
    head: Head,
) -> Result<Vec<SegmentRef>, Break>
    requires { SameFiles seen.old.keys [] }
    ensures reads { GivesAt (λ v. v.items) result reader.new
        (segments_at head.next_file head.floor head.segments None [] reader.old) }
    ensures named { IfOk result
        (λ v. SameFiles seen.new.keys (map (λ segment. segment.file) v.items)) }
{
    let mut segments = Vec::new(alloc);
    let mut before = None;
    for index in 0..head.segments {
        let is_last = index + 1 == head.segments;
        let segment = read_segment(reader, seen, head, is_last, before)?;
        before = Some(segment.first);
        keep(&mut segments, segment)?;
    }
    Ok(segments)
}

/// The blocks, whose number is known.
fn read_blocks(
    alloc: Global,
    reader: &mut Reader<'_>,
    seen: &mut HashSet<u32>,
    head: Head,
) -> Result<Vec<BlockRef>, Break>
    ensures reads { GivesAt (λ v. v.items) result reader.new
        (blocks_at head.next_file seen.old.keys head.blocks [] reader.old) }
    ensures named { IfOk result
        (λ v. SameFiles seen.new.keys (seen.old.keys ++ map (λ block. block.file) v.items)) }
{
    let mut blocks = Vec::new(alloc);
    for _index in 0..head.blocks {
        let block = read_block(reader, seen, head)?;
        keep(&mut blocks, block)?;
    }
    Ok(blocks)
}

/// The loose files, whose number is known.
fn read_loose(
    alloc: Global,
    reader: &mut Reader<'_>,
    seen: &mut HashSet<u32>,
    head: Head,
) -> Result<Vec<u32>, Break>
    ensures { GivesAt (λ v. v.items) result reader.new
        (loose_at head.next_file seen.old.keys head.loose [] reader.old) }
{
    let mut loose = Vec::new(alloc);
    for _index in 0..head.loose {
        let file = read_file(reader, seen, head.next_file)?;
        keep(&mut loose, file)?;
    }
    Ok(loose)
}

/// Puts an item at the end.
fn keep<T: Drop>(items: &mut Vec<T>, item: T) -> Result<(), Break>
    ensures ok { OnOk result (items.new.items ≡ items.old.items ++ item ∷ []) }
    ensures err { IfErr result (λ at. at ≡ None) }
{
    match items.push(item) {
        Ok(()) => Ok(()),
        Err(_) => Err(None),
    }
}

/// A list after an open gate.
#[tactic(auto, unfolding(crate::specs::Reading::list_body_at))]
fn read_list(
    alloc: Global,
    reader: &mut Reader<'_>,
    slot: u8,
    other: Option<u8>,
) -> Result<ListBody, Break>
    ensures { GivesAt (λ x. x) result reader.new (list_body_at slot other reader.old) }
{
    let head = read_head(reader, slot, other)?;
    let mut seen = HashSet::new(alloc);
    let segments = read_segments(alloc, reader, &mut seen, head)?;
    let blocks = read_blocks(alloc, reader, &mut seen, head)?;
    let loose = read_loose(alloc, reader, &mut seen, head)?;
    Ok(ListBody {
        generation: head.generation,
        next_file: head.next_file,
        floor: head.floor,
        segments: SegmentList::of(segments),
        blocks: BlockList::of(blocks),
        loose: FileList::of(loose),
    })
}

/// How many bytes a slot's list takes, by these bytes, which are its first 30.
#[tactic(auto, using(crate::proofs::Fronts::count_taken))]
pub fn list_size(alloc: Global, head: &[u8]) -> Result<u64, Break>
    requires { length head.now ≡ 30 }
    ensures { IfOk result (λ size. size ≡ size_in head.now) }
{
    let mut reader = Reader::starting_at(alloc, head, 18);
    let segments = number32(&mut reader)?;
    let blocks = number32(&mut reader)?;
    let loose = number32(&mut reader)?;
    Ok(30 + 12 * u64::from(segments) + 9 * u64::from(blocks) + 4 * u64::from(loose))
}

/// Whether a slot is vacant, though long enough for a list.
pub fn is_to_clear(bytes: &[u8]) -> bool
    ensures { result ≡ is_to_clear bytes.now }
{
    is_vacant(bytes) && bytes.len() >= 30
}

/// Whether a slot holds no list.
pub fn is_vacant(bytes: &[u8]) -> bool
    ensures { result ≡ is_vacant bytes.now }
{
    match bytes {
        [1, ..] => bytes.len() < 30,
        _ => true,
    }
}

/// What the slot of that number holds, beside a list of that generation in the other one.
#[tactic(auto, unfolding(crate::specs::Reading::slot_at))]
pub fn read_slot(
    alloc: Global,
    bytes: &[u8],
    slot: u8,
    other: Option<u8>,
) -> Result<Option<ListBody>, Break>
    ensures { GivesSlot result (slot_at slot other bytes.now) }
{
    if is_vacant(bytes) {
        return Ok(None);
    }
    let mut reader = Reader::new(alloc, bytes);
    number8(&mut reader)?;
    let list = read_list(alloc, &mut reader, slot, other)?;
    Ok(Some(list))
}
