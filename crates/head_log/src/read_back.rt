//! Reading a segment back, as a store is opened: a file off a disk, and its bytes to batches by `records`.

ghost use Rattle.std.specs.Prelude.{◌≡◌, ◌<◌, ◌≤◌, ◌+◌, ◌-◌, ◌++◌, ℕ, All, List, min, take, drop, IsTrue, IfOk, OnErr, IsErrOf, length};
ghost use Rattle.disk_model.specs.Images.{bytes_of, SameBytes};
ghost use Rattle.disk_model.specs.Calls.{CountsFault};
ghost use Rattle.disk_model.specs.Crash.{Untouched};
ghost use Rattle.span_types.specs.declared.spans.Span.{Span};
ghost use Rattle.head_log.specs.Entries.{entries};
ghost use Rattle.head_log.specs.Outcomes.{IsAt, Scans, Recalls};
ghost use Rattle.head_log.specs.Stands.{SegmentHolds};
ghost use Rattle.head_log.specs.declared.read_back.LogError.TheVariants as errors;
ghost use Rattle.head_log.specs.declared.read_back.Unread.TheVariants as unread;

use crate::numbered::Numbered;
use crate::records::read_segment;
use crate::segment::Segment;
use disk_model::Device;
use span_fields::Break;
use span_types::Failed;
use std::alloc::{AllocError, Global};
use thiserror::Error;

/// Why a segment could not be read.
#[derive(Clone, Copy, Debug, PartialEq, Eq, Error)]
pub enum LogError {
    /// A call of the disk failed.
    #[error("the disk failed")]
    Fault,
    /// The file is no segment: its bytes break the grammar first at this place.
    #[error("file {file} is no log segment: it breaks at {at}")]
    NotLog { file: u32, at: u64 },
    /// Out of memory.
    #[error("memory")]
    Memory,
}

/// Why a file could not be read.
#[derive(Clone, Copy, Debug, PartialEq, Eq)]
pub enum Unread {
    /// A call of the disk failed.
    Fault,
    /// Out of memory.
    Memory,
}

impl From<Failed> for Unread {
    ghost use Rattle.head_log.specs.declared.read_back.Unread.TheVariants as unread;

    ghost from_gives = { λ _ e. e ≡ unread.Fault };

    fn from(_error: Failed) -> Unread {
        Unread::Fault
    }
}

impl From<AllocError> for Unread {
    ghost use Rattle.head_log.specs.declared.read_back.Unread.TheVariants as unread;

    ghost from_gives = { λ _ e. e ≡ unread.Memory };

    fn from(_error: AllocError) -> Unread {
        Unread::Memory
    }
}

/// How many bytes one call of the disk reads.
const BLOCK: usize = 16_384;

/// The batches of a segment whose first record has the number `first`, and the segment as it is to be written on.
///
/// Where the bytes stand for batches, as `append` leaves them, exactly these are answered, and what is answered is
/// what the bytes stand for. A file that the grammar does not allow is `NotLog` at the first place where it breaks.
/// The file is read in blocks, in time that is linear in its bytes. No number that it holds says how much memory is
/// taken before as many bytes are there.
pub fn scan<D: Device>(
    alloc: Global,
    disk: &mut D,
    file: u32,
    first: u64,
) -> Result<(Segment, Numbered), LogError>
    ensures reads { IsTrue (D.tells disk.old)
        → Scans file first (bytes_of (D.held disk.old) file) result }
    ensures kept { IsTrue (D.tells disk.old) → (batches : List (List Span)) (gate : ℕ)
        → SegmentHolds first batches gate (bytes_of (D.held disk.old) file)
        → Recalls first batches gate result }
    ensures stands { IsTrue (D.tells disk.old)
        → IfOk result (λ x. (batches : List (List Span)) × (x.1 ≡ entries first batches)
        × SegmentHolds first batches x.0.gate (bytes_of (D.held disk.old) file)) }

    // The answer has this form over a disk that doesn't show its bytes too.
    ensures named { IfOk result (λ x. IsAt x.0 file first (length x.1)) }
    ensures numbered { IfOk result
        (λ x. (batches : List (List Span)) × (x.1 ≡ entries first batches)) }
    ensures below { IfOk result (λ x. All (λ entry. entry.number < 4294967295) x.1) }

    // A fault is answered just where a call failed, and it was the last one.
    ensures counted { CountsFault D.Device.own 0 errors.Fault disk.old disk.new result }
    ensures untouched { Untouched D.tells D.held D.may_leave D.moment D.left_since disk.old disk.new }
{
    let bytes = match read_file(alloc, disk, file) {
        Ok(bytes) => bytes,
        Err(Unread::Fault) => return Err(LogError::Fault),
        Err(Unread::Memory) => return Err(LogError::Memory),
    };
    match read_segment(alloc, bytes.as_slice(), first) {
        Ok((batches, gate)) => {
            let segment = Segment {
                file,
                first,
                count: batches.len() as u64,
                gate,
            };
            Ok((segment, Numbered::of(batches)))
        }
        Err(Break::At(at)) => Err(LogError::NotLog { file, at }),
        Err(Break::Memory) => Err(LogError::Memory),
    }
}

/// All bytes of a file.
fn read_file<D: Device>(alloc: Global, disk: &mut D, file: u32) -> Result<Vec<u8>, Unread>
    ensures bytes { IsTrue (D.tells disk.old)
        → IfOk result (λ v. v.items ≡ bytes_of (D.held disk.old) file) }
    ensures counted { CountsFault D.Device.own 0 unread.Fault disk.old disk.new result }
    ensures untouched { Untouched D.tells D.held D.may_leave D.moment D.left_since disk.old disk.new }
{
    let mut bytes = Vec::new(alloc);
    let mut block = [0; BLOCK];
    for _ in 0..u64::MAX {
        if read_more(disk, file, &mut bytes, &mut block)? == 0 {
            return Ok(bytes);
        }
    }
    Err(Unread::Memory)
}

/// Reads the bytes after those that were read, as many as the block holds, and answers how many they are.
fn read_more<D: Device>(
    disk: &mut D,
    file: u32,
    bytes: &mut Vec<u8>,
    block: &mut [u8],
) -> Result<usize, Unread>
    ensures bytes { IsTrue (D.tells disk.old)
        → IfOk result (λ n. bytes.new.items ≡ bytes.old.items
        ++ take n (drop (length bytes.old.items) (bytes_of (D.held disk.old) file))) }
    ensures count { IsTrue (D.tells disk.old)
        → IfOk result (λ n.
        n ≡ min (length block.old)
        (length (bytes_of (D.held disk.old) file) - length bytes.old.items)) }
    ensures counted { CountsFault D.Device.own 0 unread.Fault disk.old disk.new result }
    ensures untouched { Untouched D.tells D.held D.may_leave D.moment D.left_since disk.old disk.new }
{
    let count = disk.read(file, bytes.len() as u64, block)?;
    bytes.extend_from_slice(&block[..count])?;
    Ok(count)
}
