//! A segment that is written: making an empty one, and adding a record to it. A push's batch is durable once `append`
//! says `Ok`.

ghost use Rattle.std.specs.Prelude.{◌≡◌, ℕ, ◌+◌, ◌<◌, ◌≤◌, ◌^◌, List, [], ◌∷◌, ◌++◌, length, IsTrue, OnOk, OnErr};
ghost use Rattle.disk_model.specs.Images.{bytes_of, Besides};
ghost use Rattle.disk_model.specs.Calls.{Calls};
ghost use Rattle.disk_model.specs.Crash.{OnlyBytes, RunInFile};
ghost use Rattle.head_log.specs.Records.{HasBodies, SegmentIsEither, framed};
ghost use Rattle.head_log.specs.Stands.{IsBatchBody, SegmentHolds, SegmentKeepsEither};
ghost use Rattle.span_types.specs.declared.spans.Span.{Span};

use crate::Prepared;
use disk_model::{Device, write_through};
use span_types::Failed;

/// The gate of a record that counts.
const OPEN: u8 = 1;

/// What a segment without records is: a version, and a gate that isn't open.
const EMPTY: [u8; 2] = [1, 0];

/// A segment of the log that can be written on.
#[derive(Debug, Drop)]
pub struct Segment {
    /// The file.
    pub file: u32,
    /// The number of the first record.
    pub first: u64,
    /// How many records there are.
    pub count: u64,
    /// Where in the file the next record begins: the byte that is its gate, and is closed so far.
    pub gate: u64,
    ghost near: { gate < 2 ^ 63 },
}

impl Segment {
    /// The segment that `create` made of a file, if its first record is to have this number.
    pub fn fresh(file: u32, first: u64) -> Segment
        ensures { (result.file ≡ file) × (result.first ≡ first) × (result.count ≡ 0)
            × (result.gate ≡ 1) }
    {
        Segment {
            file,
            first,
            count: 0,
            gate: 1,
        }
    }
}

/// Turns a file into a segment without records, whatever it held. What is written lasts before `Ok` is answered.
pub fn create<D: Device>(disk: &mut D, file: u32) -> Result<(), Failed>
    // At `Ok` every image holds the empty segment, whose first record may have any number.
    ensures empty { (first : ℕ) → IsTrue (D.tells disk.old)
        → OnOk result (SegmentHolds first [] 1 (bytes_of (D.held disk.new) file)
        × OnlyBytes file (bytes_of (D.held disk.new) file) (D.may_leave disk.new)) }
    ensures bytes { IsTrue (D.tells disk.old)
        → OnOk result (bytes_of (D.held disk.new) file ≡ 1 ∷ 0 ∷ []) }

    // Whatever a crash leaves of this file, it leaves every other file as it was.
    ensures any_moment { RunInFile D.moment D.left_since D.may_leave file (λ bytes. Unit {0})
        (λ bytes. Unit {0}) disk.old disk.new }
    ensures besides { IsTrue (D.tells disk.old) → Besides file (D.held disk.old) (D.held disk.new) }

    ensures counted { Calls D.Device.own 3 2 disk.old disk.new result }
{
    disk.cut(file, 0)?;
    write_through(disk, file, 0, &EMPTY)
}

/// Adds a record to a segment: its text is made to last, and then its gate, so that a crash can't open a gate before a
/// body that didn't get through. Its memory was taken when the record was prepared.
///
/// A refused call leaves `seg` as it was; the file may then hold the record or not, so no further record is to be
/// added to it before it is scanned again.
pub fn append<D: Device>(disk: &mut D, seg: &mut Segment, entry: &Prepared) -> Result<(), Failed>
    requires number { entry.now.number ≡ seg.old.first + seg.old.count }
    requires limit { entry.now.number < 4294967295 }

    // The file stands for these batches whatever a crash leaves of it, with its closed gate where the segment says.
    // Then it stands for them, with or without the new one, whenever a crash comes in the call.
    ensures any_moment { (batches : List (List Span)) (spans : List Span) (known : List ℕ)
        → IsTrue (D.tells disk.old)
        → OnlyBytes seg.old.file known (D.may_leave disk.old)
        → SegmentHolds seg.old.first batches seg.old.gate known
        → length batches ≡ seg.old.count → IsBatchBody entry.now.number spans entry.now.body
        → RunInFile D.moment D.left_since D.may_leave seg.old.file
        (SegmentKeepsEither seg.old.first batches spans)
        (SegmentKeepsEither seg.old.first batches spans) disk.old disk.new }

    // After an `Ok` nothing but the batches and the new one can be left, and the segment counts it.
    ensures acknowledged { (batches : List (List Span)) (spans : List Span) (known : List ℕ)
        → IsTrue (D.tells disk.old)
        → OnlyBytes seg.old.file known (D.may_leave disk.old)
        → SegmentHolds seg.old.first batches seg.old.gate known
        → length batches ≡ seg.old.count → IsBatchBody entry.now.number spans entry.now.body
        → OnOk result (SegmentHolds seg.old.first (batches ++ spans ∷ []) seg.new.gate
        (bytes_of (D.held disk.new) seg.old.file)
        × OnlyBytes seg.old.file (bytes_of (D.held disk.new) seg.old.file) (D.may_leave disk.new)) }
    ensures shown { OnOk result ((seg.new.file ≡ seg.old.file) × (seg.new.first ≡ seg.old.first)
        × (seg.new.count ≡ seg.old.count + 1)) }
    ensures gate { OnOk result (seg.new.gate ≡ seg.old.gate + 9 + length entry.now.body) }
    ensures stays { OnErr result (seg.new ≡ seg.old) }

    // Over any disk, whatever the file held: the other files stay as they were.
    ensures any_file { RunInFile D.moment D.left_since D.may_leave seg.old.file (λ bytes. Unit {0})
        (λ bytes. Unit {0}) disk.old disk.new }
    ensures besides { IsTrue (D.tells disk.old)
        → Besides seg.old.file (D.held disk.old) (D.held disk.new) }

    ensures counted { Calls D.Device.own 4
        (seg.old.gate + 10 + length entry.now.body) disk.old disk.new result }
{
    let text = entry.text();
    append_record(disk, seg.file, seg.gate, text)?;
    seg.gate += text.len() as u64;
    seg.count += 1;
    Ok(())
}

/// Adds a record to the bytes of a segment: first what stands after the gate, the next gate among it, and once that
/// lasts the gate. Until then the gate on the disk is closed, so that it doesn't matter what a crash leaves of the
/// body.
fn append_record<D: Device>(disk: &mut D, file: u32, gate: u64, text: &[u8]) -> Result<(), Failed>
    requires { gate < 2 ^ 63 }

    // Whenever a crash comes, the earlier records are there, with or without the new one.
    ensures any_moment { (bodies : List (List ℕ)) (body known : List ℕ) → IsTrue (D.tells disk.old)
        → text.now ≡ framed body → length body < 2 ^ 64
        → OnlyBytes file known (D.may_leave disk.old) → HasBodies bodies gate known
        → RunInFile D.moment D.left_since D.may_leave file (SegmentIsEither bodies body)
        (SegmentIsEither bodies body) disk.old disk.new }

    // After an `Ok` the new one can't be lost.
    ensures acknowledged { (bodies : List (List ℕ)) (body known : List ℕ)
        → IsTrue (D.tells disk.old) → text.now ≡ framed body → length body < 2 ^ 64
        → OnlyBytes file known (D.may_leave disk.old) → HasBodies bodies gate known
        → OnOk result (HasBodies (bodies ++ body ∷ []) (gate + length text.now)
        (bytes_of (D.held disk.new) file)
        × OnlyBytes file (bytes_of (D.held disk.new) file) (D.may_leave disk.new)) }

    ensures near { OnOk result (gate + length text.now < 2 ^ 63) }
    ensures any_file { RunInFile D.moment D.left_since D.may_leave file (λ bytes. Unit {0})
        (λ bytes. Unit {0}) disk.old disk.new }
    ensures besides { IsTrue (D.tells disk.old) → Besides file (D.held disk.old) (D.held disk.new) }
    ensures counted { Calls D.Device.own 4 (gate + 1 + length text.now) disk.old disk.new result }
{
    write_through(disk, file, gate + 1, text)?;
    write_through(disk, file, gate, &[OPEN])
}
