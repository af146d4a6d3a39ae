//! Segments by their bytes, worked out by hand.

use crate::batches::{
    EXTENDED, EXTENDED_SAY, NOTHING_MORE, Record, TWO_RESOURCES, TWO_RESOURCES_SAY, TWO_SPANS,
    TWO_SPANS_SAY, UNLINKED, UNLINKED_SAY, are_found,
};
use disk_model::{Device, MemDisk, write_through};
use head_log::{LogError, Numbered, NumberedBatch, Prepared, Segment, append, create, scan};
use span_types::{Batch, Calls};
use std::alloc::{AllocError, Global};
use std::test::Fail;

/// A segment after one batch without spans.
const ONE_EMPTY: [u8; 20] = [1, 1, 9, 0, 0, 0, 0, 0, 0, 0, 0, 0, 0, 0, 0, 0, 0, 0, 0, 0];

/// `ONE_EMPTY` with a body of ten bytes, in which the count of runs is not in its shortest form.
const LONG_COUNT: [u8; 21] = [
    1, 1, 10, 0, 0, 0, 0, 0, 0, 0, 0, 0, 0, 0, 0, 0, 0, 0, 0x80, 0, 0,
];

/// A segment's file, the number of its first record, how many it has, and where its last commit byte stands.
type Fields = (u32, u64, u64, u64);

fn fields_of(segment: &Segment) -> Fields {
    (segment.file, segment.first, segment.count, segment.gate)
}

/// Whether a record that has the segment's next number was appended.
fn append_next(disk: &mut MemDisk, segment: &mut Segment, entry: &Prepared) -> bool {
    let next = segment.first.checked_add(segment.count);
    if next != Some(entry.number()) || entry.number() >= 4_294_967_295 {
        return false;
    }
    append(disk, segment, entry).is_ok()
}

fn adds(
    alloc: Global,
    disk: &mut MemDisk,
    segment: &mut Segment,
    number: u64,
    batch: &Batch,
) -> bool {
    match Prepared::of(alloc, number, batch) {
        Ok(entry) => append_next(disk, segment, &entry),
        Err(_) => false,
    }
}

/// Writes a segment in file 2 from this number on. None where that fails.
fn write(alloc: Global, disk: &mut MemDisk, first: u64, entries: &Numbered) -> Option<Fields> {
    create(disk, 2).ok()?;
    let mut segment = Segment::fresh(2, first);
    let mut added = true;
    for entry in entries.as_slice() {
        added &= adds(alloc, disk, &mut segment, entry.number, &entry.batch);
    }
    added.then_some(fields_of(&segment))
}

/// Whether file 2 has just these bytes, fewer than 512.
fn has_bytes(disk: &mut MemDisk, bytes: &[u8]) -> bool {
    let mut block = [0; 512];
    match Device::read(disk, 2, 0, &mut block) {
        Ok(count) => block.get(..count) == Some(bytes),
        Err(_) => false,
    }
}

/// Whether these entries are written as these bytes, and the segment has these fields then.
fn is_written(alloc: Global, entries: &Numbered, bytes: &[u8], fields: Fields) -> bool {
    let mut disk = MemDisk::empty(alloc);
    write(alloc, &mut disk, fields.1, entries) == Some(fields)
        && has_bytes(&mut disk, bytes)
        && disk.starved() == 0
}

/// What a scan of a segment of these bytes finds from this number on.
fn scanned(alloc: Global, bytes: &[u8], first: u64) -> Result<(Segment, Numbered), LogError> {
    let mut disk = MemDisk::empty(alloc);
    match write_through(&mut disk, 2, 0, bytes) {
        Ok(()) => scan(alloc, &mut disk, 2, first),
        Err(_) => Err(LogError::Memory),
    }
}

/// A segment of one record that has this body, of fewer than 256 bytes.
fn segment_of(alloc: Global, body: &[u8]) -> Result<Vec<u8>, AllocError> {
    let mut bytes = Vec::new(alloc);
    bytes.extend_from_slice(&[1, 1, body.len().min(255) as u8, 0, 0, 0, 0, 0, 0, 0])?;
    bytes.extend_from_slice(body)?;
    bytes.push(0)?;
    Ok(bytes)
}

/// Numbers and records.
static WHOLE: [(u64, Record); 5] = [
    (0, (&[0; 9], &[])),
    (7, (&TWO_SPANS, &TWO_SPANS_SAY)),
    (7, (&TWO_RESOURCES, &TWO_RESOURCES_SAY)),
    (7, (&EXTENDED, &EXTENDED_SAY)),
    (7, (&UNLINKED, &UNLINKED_SAY)),
];

/// Whether a segment of the record is read as its batch, and that is written as the same segment.
fn goes_both_ways(alloc: Global, number: u64, record: Record) -> bool {
    let fields = (2, number, 1, (record.0.len() as u64).saturating_add(10));
    match segment_of(alloc, record.0) {
        Ok(bytes) => is_read_and_written(alloc, bytes.as_slice(), fields, record),
        Err(_) => false,
    }
}

fn is_read_and_written(alloc: Global, bytes: &[u8], fields: Fields, record: Record) -> bool {
    match scanned(alloc, bytes, fields.1) {
        Ok((segment, found)) => {
            fields_of(&segment) == fields
                && are_found(&found, fields.1, &[record])
                && is_written(alloc, &found, bytes, fields)
        }
        Err(_) => false,
    }
}

#[test]
fn batches_both_ways(rt: HostRuntime) {
    for (row, (number, record)) in WHOLE.iter().enumerate() {
        assert!(rt; goes_both_ways(rt.alloc(), *number, *record), "row {row}");
    }
}

/// What a scan of these bytes says: how many records there are, or where it breaks, at 2^64 - 1 for other causes.
fn outcome(alloc: Global, bytes: &[u8]) -> Result<usize, u64> {
    match scanned(alloc, bytes, 7) {
        Ok((_, batches)) => Ok(batches.len()),
        Err(LogError::NotLog { at, .. }) => Err(at),
        Err(_) => Err(u64::MAX),
    }
}

/// So many bytes of a segment from a place on are this one; and what a scan says then.
type Change = (usize, usize, u8, Result<usize, u64>);

const EXTENDED_CHANGES: [Change; 12] = [
    (0, 0, 0, Ok(1)),
    // A form that there is not, and bits between the number and the form.
    (17, 1, 2, Err(10)),
    (17, 1, 255, Err(10)),
    (14, 1, 1, Err(10)),
    (16, 1, 1, Err(10)),
    // The form 0: what follows the span's attributes is not read.
    (17, 1, 0, Err(76)),
    // An event more, in whose attributes stands no kind of value, and a name that is not UTF-8.
    (76, 1, 2, Err(110)),
    (86, 1, 0xff, Err(85)),
    // A link whose trace is zeros, and one whose span is.
    (89, 16, 0, Err(89)),
    (105, 8, 0, Err(105)),
    // No link, though there are bytes, and an attribute of it, though there are none.
    (88, 1, 0, Err(89)),
    (113, 1, 1, Err(114)),
];

const TWO_RESOURCES_CHANGES: [Change; 20] = [
    (0, 0, 0, Ok(1)),
    // A gate that is not 1 ends the segment.
    (1, 1, 2, Ok(0)),
    (1, 1, 255, Ok(0)),
    (154, 1, 2, Ok(1)),
    // A text that is not UTF-8 breaks at its length, and so does one that passes the body's end.
    (55, 1, 0xff, Err(54)),
    (132, 1, 0x28, Err(130)),
    (151, 1, 100, Err(151)),
    // An id of zeros breaks at its first byte; a parent's first byte stands after the one that says that there is one.
    (29, 16, 0, Err(29)),
    (113, 8, 0, Err(113)),
    (122, 8, 0, Err(122)),
    (121, 1, 2, Err(121)),
    // A kind, a status, a kind of value and a truth that there is not.
    (133, 1, 6, Err(133)),
    (150, 1, 3, Err(150)),
    (78, 1, 3, Err(78)),
    (84, 1, 2, Err(84)),
    // A whole number that is not in its shortest form.
    (80, 1, 0, Err(79)),
    // The key `n` again, which breaks at its length.
    (82, 1, b'n', Err(81)),
    // The second resource equal to the first, which breaks at its count of attributes.
    (89, 1, 1, Err(85)),
    // A run more than there is, and one less.
    (18, 1, 3, Err(154)),
    (18, 1, 1, Err(85)),
];

/// The body of a record under the number 7, how many bytes of its segment there are, and its changes.
static CHANGED: [(&[u8], usize, &[Change]); 5] = [
    (&EXTENDED, 115, &EXTENDED_CHANGES),
    // The form 1 without event and link, also where bytes follow its last field, and where the file ends within it.
    (
        &NOTHING_MORE,
        79,
        &[(0, 0, 0, Err(10)), (2, 1, 69, Err(10))],
    ),
    (&NOTHING_MORE, 77, &[(2, 1, 69, Err(77))]),
    (&TWO_RESOURCES, 155, &TWO_RESOURCES_CHANGES),
    // The second scope equal to the first, which breaks at the length of its name.
    (&TWO_SPANS, 140, &[(80, 1, b'a', Err(79))]),
];

/// The segment of a record with this body, of which so many bytes are left, and changed.
fn changed(alloc: Global, body: &[u8], len: usize, change: &Change) -> Result<Vec<u8>, AllocError> {
    let mut bytes = segment_of(alloc, body)?;
    bytes.truncate(len);
    for old in bytes.iter_mut().skip(change.0).take(change.1) {
        *old = change.2;
    }
    Ok(bytes)
}

fn breaks(alloc: Global, body: &[u8], len: usize, change: &Change) -> bool {
    match changed(alloc, body, len, change) {
        Ok(bytes) => outcome(alloc, bytes.as_slice()) == change.3,
        Err(_) => false,
    }
}

/// The place of the first change of which something else is said.
fn stray(alloc: Global, body: &[u8], len: usize, changes: &[Change]) -> Option<usize> {
    for change in changes {
        if !breaks(alloc, body, len, change) {
            return Some(change.0);
        }
    }
    None
}

#[test]
fn broken_in_one_place(rt: HostRuntime) {
    for (body, len, changes) in &CHANGED {
        let place = stray(rt.alloc(), body, *len, changes);
        assert!(rt; place.is_none(), "{len} {place:?}");
    }
}

/// Whether an image of a segment that was stopped while a second record was added may have so many records. The gate is
/// written by the third call: until then no image has the new record, and after the fourth each has it.
fn may_have(calls: u64, pick: u64, count: Option<usize>) -> bool {
    match (calls, pick) {
        (0..=2, _) => count == Some(1),
        // What was synced, and a gate that is 0.
        (3, 0 | 3) => count == Some(1),
        // What is held, and a gate that is 1.
        (3, 1 | 2) => count == Some(2),
        (3, _) => count == Some(1) || count == Some(2),
        _ => count == Some(2),
    }
}

/// The records of a segment from the number 0 on.
static BOTH: [Record; 2] = [
    (&TWO_SPANS, &TWO_SPANS_SAY),
    (&TWO_RESOURCES, &TWO_RESOURCES_SAY),
];

/// How many of their batches were found, the first ones.
fn count_of(found: &Numbered) -> Option<usize> {
    let records = BOTH.get(..found.len())?;
    are_found(found, 0, records).then_some(records.len())
}

fn count_in(alloc: Global, image: MemDisk) -> Option<usize> {
    let mut image = image;
    match scan(alloc, &mut image, 2, 0) {
        Ok((_, found)) => count_of(&found),
        Err(_) => None,
    }
}

fn may_leave(alloc: Global, disk: &MemDisk, calls: u64) -> bool {
    let mut same = true;
    for pick in 0..16 {
        same &= match disk.image(pick) {
            Ok(image) => may_have(calls, pick, count_in(alloc, image)),
            Err(_) => false,
        };
    }
    same
}

/// The batch of a record with this body.
fn batch_of(alloc: Global, body: &[u8]) -> Option<NumberedBatch> {
    let bytes = segment_of(alloc, body).ok()?;
    match scanned(alloc, bytes.as_slice(), 7) {
        Ok((_, found)) => found.into_vec().pop(),
        Err(_) => None,
    }
}

/// Adds the batch of a record with this body under this number.
fn adds_record(
    alloc: Global,
    disk: &mut MemDisk,
    segment: &mut Segment,
    number: u64,
    body: &[u8],
) -> bool {
    match batch_of(alloc, body) {
        Some(entry) => adds(alloc, disk, segment, number, &entry.batch),
        None => false,
    }
}

/// Writes the first record, and then the second one to a disk that stops after so many calls: whether that succeeds.
/// None if the first one isn't written.
fn adds_both(alloc: Global, disk: &mut MemDisk, calls: u64) -> Option<bool> {
    create(disk, 2).ok()?;
    let mut segment = Segment::fresh(2, 0);
    if !adds_record(alloc, disk, &mut segment, 0, &TWO_SPANS) {
        return None;
    }
    disk.stop_after(calls);
    Some(adds_record(alloc, disk, &mut segment, 1, &TWO_RESOURCES))
}

fn stops(alloc: Global, calls: u64) -> bool {
    let mut disk = MemDisk::empty(alloc);
    adds_both(alloc, &mut disk, calls) == Some(calls == 4)
        && may_leave(alloc, &disk, calls)
        && disk.starved() == 0
}

#[test]
fn stopped_after_each_call(rt: HostRuntime) {
    for calls in 0..5 {
        assert!(rt; stops(rt.alloc(), calls), "after {calls}");
    }
}

/// Why a segment isn't read whose disk fails at the first call.
fn fault(alloc: Global) -> Result<Option<LogError>, Fail> {
    let calls = Calls::of(Vec::from_array(alloc, [1])?);
    let mut disk = MemDisk::empty(alloc);
    write_through(&mut disk, 2, 0, &ONE_EMPTY)?;
    disk.fail_at(calls);
    Ok(scan(alloc, &mut disk, 2, 0).err())
}

#[test]
fn why_a_segment_is_not_read(rt: HostRuntime) -> Result<(), Fail> {
    let long = LogError::NotLog { file: 2, at: 18 };
    assert!(rt; scanned(rt.alloc(), &LONG_COUNT, 0).err() == Some(long));
    assert!(rt; fault(rt.alloc())? == Some(LogError::Fault));
    Ok(())
}

/// A segment that holds `TWO_SPANS` from its byte 10 on, and after it the record of a batch without spans.
fn two_records(alloc: Global) -> Result<Vec<u8>, AllocError> {
    let mut bytes = Vec::new(alloc);
    bytes.extend_from_slice(&[1, 1, 129, 0, 0, 0, 0, 0, 0, 0])?;
    bytes.extend_from_slice(&TWO_SPANS)?;
    bytes.extend_from_slice(&[1, 9, 0, 0, 0, 0, 0, 0, 0, 8, 0, 0, 0, 0, 0, 0, 0, 0, 0])?;
    Ok(bytes)
}

/// What a scan of these two records says where the lowest bit of the byte at the place is another one.
fn other_bit(place: u8) -> Result<usize, u64> {
    match place {
        // The version.
        0 => Err(0),
        // A closed gate ends the segment.
        1 => Ok(0),
        139 => Ok(1),
        // An open one at the end has no record.
        157 => Err(158),
        // A body of a byte less: its last field doesn't fit.
        2 => Err(138),
        140 => Err(156),
        // A longer body has bytes after its last span.
        3..=9 => Err(139),
        141..=147 => Err(157),
        // Not the next number.
        10..=16 => Err(10),
        148..=154 => Err(148),
        // The form 1: what follows the first span is an event, in whose attributes a key stands again; no span is
        // extended.
        17 => Err(115),
        155 => Err(148),
        // No run, though there are bytes; a run more, though there are none.
        18 => Err(19),
        26 => Err(139),
        156 => Err(157),
        // No run of a scope has no span.
        31 => Err(31),
        83 => Err(83),
        19..=138 => other_bit_of_spans(place),
        _ => Ok(2),
    }
}

/// The same within the two spans, their resource and their scopes.
fn other_bit_of_spans(place: u8) -> Result<usize, u64> {
    match place {
        // No attribute: the key's length is the count of scopes, its letter the length of a name of 115 bytes, and at
        // the end there is no count of spans.
        19 => Err(139),
        // A key without letters: its letter is a kind of value.
        20 => Err(21),
        // A whole number: the letters are a count of scopes and the length of a name of 107 bytes, after which stand no
        // version, no attributes and no spans.
        22 => Err(135),
        // A text of three bytes: the scope's letter is the length of a name of 97 bytes, after which there are six
        // spans, but no room for a trace.
        23 => Err(129),
        // A scope's name without letters: its letter is the length of a version, which is too long for the second scope
        // and of 97 bytes for the first.
        27 => Err(127),
        79 => Err(80),
        // A version of one byte, or an attribute: a key ends within the trace, whose next byte is no kind of value.
        29 => Err(42),
        30 => Err(33),
        81 => Err(94),
        82 => Err(85),
        // A parent, for whom the bytes from the name on are taken: the second trace has a list of attributes, and in
        // the second id stands a truth that is 2.
        56 => Err(106),
        // A name without letters: its letter is the kind.
        57 => Err(58),
        117 => Err(118),
        // A message of one byte: the second scope's letter is the length of a key, which is too long.
        77 => Err(80),
        // An attribute, in the second scope's place: the next scope stands in the trace, and in the id a truth that is
        // 2.
        78 => Err(107),
        // No parent: its bytes are the name, the kind and the start, and the end's first byte is the status.
        108 => Err(128),
        // Not a status.
        136 => Err(136),
        // A message, or an attribute, after the end.
        137 | 138 => Err(139),
        // A letter, an id, a kind, a moment or the first status: another span.
        _ => Ok(2),
    }
}

/// Whether a scan of the first so many bytes of two records breaks at their end, and one of all finds both.
fn is_cut(alloc: Global, len: usize) -> bool {
    let told = if len < 158 { Err(len as u64) } else { Ok(2) };
    match two_records(alloc) {
        Ok(bytes) => outcome(alloc, bytes.as_slice().get(..len).unwrap_or(&[])) == told,
        Err(_) => false,
    }
}

/// Two records where the lowest bit of the byte at the place is another one.
fn with_other_bit(alloc: Global, place: usize) -> Result<Vec<u8>, AllocError> {
    let mut bytes = two_records(alloc)?;
    if let Some(byte) = bytes.get_mut(place) {
        *byte ^= 1;
    }
    Ok(bytes)
}

/// Whether a segment has these bytes again where it is written anew from what was scanned.
fn is_written_again(alloc: Global, bytes: &[u8]) -> bool {
    match scanned(alloc, bytes, 7) {
        Ok((segment, found)) => is_written(alloc, &found, bytes, fields_of(&segment)),
        Err(_) => false,
    }
}

/// Whether a scan of two records says what it has to, where the lowest bit of the byte at the place is another one; and
/// whether they are written again so, where it finds both.
fn is_told(alloc: Global, place: u8) -> bool {
    match with_other_bit(alloc, usize::from(place)) {
        Ok(bytes) => is_outcome(alloc, bytes.as_slice(), other_bit(place)),
        Err(_) => false,
    }
}

fn is_outcome(alloc: Global, bytes: &[u8], told: Result<usize, u64>) -> bool {
    outcome(alloc, bytes) == told && (told != Ok(2) || is_written_again(alloc, bytes))
}

#[test]
fn cut_at_each_length_and_changed_at_each_byte(rt: HostRuntime) {
    for len in 0..159 {
        assert!(rt; is_cut(rt.alloc(), len), "{len}");
    }
    for place in 0..158 {
        assert!(rt; is_told(rt.alloc(), place), "at {place}");
    }
}
