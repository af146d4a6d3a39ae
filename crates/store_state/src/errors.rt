//! Why a call was refused.

use thiserror::Error;

/// Why a push was refused.
#[derive(Clone, Copy, Debug, PartialEq, Eq, Error)]
pub enum PushError {
    /// With the batch more than 262,144 rows would be held outside of blocks; so many are held now.
    #[error("live-full held={held}")]
    LiveFull { held: u64 },
    /// The history has 4,294,967,295 entries.
    #[error("store-full pushes={pushes}")]
    StoreFull { pushes: u64 },
    /// A write, a cut or a sync failed since opening; the disk had counted so many faults after it.
    #[error("read-only faults={faults}")]
    ReadOnly { faults: u64 },
    /// A device call of this call failed.
    #[error("disk-fault")]
    Fault,
    /// Out of memory.
    #[error("memory")]
    Memory,
}

/// Why no job was begun.
#[derive(Clone, Copy, Debug, PartialEq, Eq, Error)]
pub enum BeginError {
    /// A write, a cut or a sync failed since opening; the disk had counted so many faults after it.
    #[error("read-only faults={faults}")]
    ReadOnly { faults: u64 },
    /// A job of this kind is open, under this number.
    #[error("busy job={job}")]
    Busy { job: u64 },
    /// No file numbers are left for a job; this is the next one.
    #[error("files-spent next={next}")]
    FilesSpent { next: u32 },
    /// A device call of this call failed.
    #[error("disk-fault")]
    Fault,
    /// Out of memory.
    #[error("memory")]
    Memory,
}

/// Why a job's write or commit was refused.
#[derive(Clone, Copy, Debug, PartialEq, Eq, Error)]
pub enum WriteError {
    /// A write, a cut or a sync failed since opening; the disk had counted so many faults after it.
    #[error("read-only faults={faults}")]
    ReadOnly { faults: u64 },
    /// A device call of this call failed.
    #[error("disk-fault")]
    Fault,
}

/// Why loose files weren't emptied.
#[derive(Clone, Copy, Debug, PartialEq, Eq, Error)]
pub enum ReclaimError {
    /// A write, a cut or a sync failed since opening; the disk had counted so many faults after it.
    #[error("read-only faults={faults}")]
    ReadOnly { faults: u64 },
    /// A device call of this call failed.
    #[error("disk-fault")]
    Fault,
    /// Out of memory.
    #[error("memory")]
    Memory,
}
