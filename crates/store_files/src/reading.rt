//! Opening: the segments that the list names, to rows in memory.

ghost use Rattle.std.specs.Prelude.{◌≡◌, ◌≤◌, ◌+◌, ◌++◌, ℕ, List, Err, IsTrue, IfOk, OnOk};
ghost use Rattle.std.specs.List.{Contains};
ghost use Rattle.span_types.specs.declared.spans.Span.{Span};
ghost use Rattle.disk_model.specs.Calls.{CountsFault};
ghost use Rattle.disk_model.specs.Images.{bytes_of};
ghost use Rattle.disk_model.specs.Crash.{OnlyBytes, Untouched};
ghost use Rattle.head_log.specs.Entries.{entries};
ghost use Rattle.head_log.specs.Scanning.{segment_at};
ghost use Rattle.block_list.specs.Body.{MeetsRules};
ghost use Rattle.block_list.specs.declared.body.SegmentRef.{SegmentRef};
ghost use Rattle.store_images.specs.Stored.{first_number};
ghost use Rattle.store_files.specs.LogReading.{tail_of, SegmentRead, LogRead, LogBreaks};
ghost use Rattle.store_files.specs.declared.error.OpenError.TheVariants.{Fault, NotStore};

use crate::error::OpenError;
use block_list::{ListBody, SegmentRef};
use disk_model::Device;
use head_log::{LogError, NumberedBatch, Segment, scan};
use std::alloc::Global;

/// The last segment of a list's log, as it is written on, and the batches of all its segments, which are made to last and read one
/// after another.
///
/// A segment that is malformed, or that doesn't lead to the next one's first number, is refused at that place.
pub fn read_log<D: Device>(
    alloc: Global,
    disk: &mut D,
    list: &ListBody,
) -> Result<(Segment, Vec<NumberedBatch>), OpenError>
    requires { MeetsRules list.now }
    ensures read { IfOk result (λ log. (batches : List (List Span))
        × (log.1.items ≡ entries (first_number list.now) batches)
        × LogRead (IsTrue (D.tells disk.old)) (D.held disk.old) list.now.segments
        (first_number list.now) batches (tail_of log.0)) }
    ensures few { IfOk result (λ log. log.0.first + log.0.count ≤ 4294967295) }
    // Each segment then has one image.
    ensures lies { IsTrue (D.tells disk.old)
        → OnOk result ((x : SegmentRef) → Contains list.now.segments x
        → OnlyBytes x.file (bytes_of (D.held disk.old) x.file) (D.may_leave disk.new)) }
    ensures not_store { IsTrue (D.tells disk.old) → (file at : ℕ) → result ≡ Err (NotStore file at)
        → LogBreaks (D.held disk.old) list.now.segments (first_number list.now) file at }
    ensures untouched { Untouched D.tells D.held D.may_leave D.moment D.left_since disk.old disk.new }
    ensures counted { CountsFault D.Device.own 0 Fault disk.old disk.new result }
{
    let segments = list.segments.as_slice();
    let mut batches = Vec::new(alloc);
    let mut last = add_segment(alloc, disk, &segments[0], &mut batches)?;
    for at in 1..segments.len() {
        let segment = &segments[at];
        if segment.first != last.first + last.count {
            return Err(OpenError::NotStore {
                file: last.file,
                at: last.gate,
            });
        }
        last = add_segment(alloc, disk, segment, &mut batches)?;
    }
    Ok((last, batches))
}

// Makes what a segment holds last, reads it, and puts its batches after those that were read before.
fn add_segment<D: Device>(
    alloc: Global,
    disk: &mut D,
    segment: &SegmentRef,
    batches: &mut Vec<NumberedBatch>,
) -> Result<Segment, OpenError>
    requires { segment.now.first ≤ 4294967295 }
    ensures read { IfOk result (λ found. (mine : List (List Span))
        × (batches.new.items ≡ batches.old.items ++ entries segment.now.first mine)
        × SegmentRead (IsTrue (D.tells disk.old))
        (bytes_of (D.held disk.old) segment.now.file) segment.now mine found) }
    ensures lies { IsTrue (D.tells disk.old) → OnOk result
        (OnlyBytes segment.now.file (bytes_of (D.held disk.old) segment.now.file)
        (D.may_leave disk.new)) }
    ensures malformed { IsTrue (D.tells disk.old) → (file at : ℕ) → result ≡ Err (NotStore file at)
        → (file ≡ segment.now.file)
        × (segment_at segment.now.first (bytes_of (D.held disk.old) segment.now.file) ≡ Err at) }
    ensures untouched { Untouched D.tells D.held D.may_leave D.moment D.left_since disk.old disk.new }
    ensures counted { CountsFault D.Device.own 0 Fault disk.old disk.new result }
{
    let Ok(()) = disk.sync(segment.file) else {
        return Err(OpenError::Fault);
    };
    match scan(alloc, disk, segment.file, segment.first) {
        Ok((found, entries)) => {
            let mut entries = entries.into_vec();
            match batches.append(&mut entries) {
                Ok(()) => Ok(found),
                Err(_) => Err(OpenError::Memory),
            }
        }
        Err(LogError::Fault) => Err(OpenError::Fault),
        Err(LogError::NotLog { file, at }) => Err(OpenError::NotStore { file, at }),
        Err(LogError::Memory) => Err(OpenError::Memory),
    }
}
