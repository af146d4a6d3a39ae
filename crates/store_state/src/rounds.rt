//! How a round of a flush or of a compaction ends.

ghost use Rattle.std.specs.Prelude.{◌≡◌};
ghost use Rattle.store_state.specs.Rounds.{begin_cause, write_cause};

use crate::{BeginError, WriteError};
use thiserror::Error;

/// Why a round was refused.
#[derive(Clone, Copy, Debug, PartialEq, Eq, Error)]
pub enum Refusal {
    /// A write, a cut or a sync failed since opening; the disk had counted so many faults after it.
    #[error("read-only faults={faults}")]
    ReadOnly { faults: u64 },
    /// A job of this kind is open, under this number.
    #[error("busy job={job}")]
    Busy { job: u64 },
    /// No file numbers are left for a job; this is the next one.
    #[error("files-spent next={next}")]
    FilesSpent { next: u32 },
    /// A device call of the round failed.
    #[error("disk-fault")]
    Fault,
    /// Out of memory.
    #[error("memory")]
    Memory,
    /// A block that was to be joined breaks its format at this byte of its file.
    #[error("not-block file={file} at={at}")]
    NotBlock { file: u32, at: u64 },
}

/// How a round ended.
#[derive(Clone, Copy, Debug, PartialEq, Eq)]
pub enum Round {
    /// So many blocks were written or joined, and the block that is listed has so many rows.
    Did { blocks: u32, rows: u32 },
    /// There was nothing to do.
    Nothing,
    /// A call was refused, memory ran out, or a block isn't one.
    Refused(Refusal),
}

/// Whether a task goes on after a step.
#[derive(Clone, Copy, Debug, PartialEq, Eq)]
pub enum Step {
    /// It does.
    More,
    /// Its round has ended.
    Ended(Round),
}

/// Why a round is refused whose job wasn't begun.
pub fn begin_cause(error: BeginError) -> Refusal
    ensures { result ≡ begin_cause error }
{
    match error {
        BeginError::ReadOnly { faults } => Refusal::ReadOnly { faults },
        BeginError::Busy { job } => Refusal::Busy { job },
        BeginError::FilesSpent { next } => Refusal::FilesSpent { next },
        BeginError::Fault => Refusal::Fault,
        BeginError::Memory => Refusal::Memory,
    }
}

/// Why a round is refused whose write or commit was refused.
pub fn write_cause(error: WriteError) -> Refusal
    ensures { result ≡ write_cause error }
{
    match error {
        WriteError::ReadOnly { faults } => Refusal::ReadOnly { faults },
        WriteError::Fault => Refusal::Fault,
    }
}
