//! Why a query could not be answered: what `client_run` makes a refusal of.

use thiserror::Error;

/// Why a query could not be answered. The look is given back all the same.
#[derive(Clone, Copy, Debug, PartialEq, Eq, Error)]
pub enum QueryError {
    /// A page read of this query failed.
    #[error("disk-fault")]
    Fault,
    /// The pages of a pinned block are no block; `at` is the first malformed byte of a stripe that was read, or 0 if
    /// the block's index names rows that no stripe has.
    #[error("not-block file={file} at={at}")]
    NotBlock { file: u32, at: u64 },
    /// Out of memory.
    #[error("memory")]
    Memory,
}
