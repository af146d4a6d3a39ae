//! Why bytes are no part of a block.

use thiserror::Error;

/// Why a part of a block could not be read.
#[derive(Clone, Copy, Debug, PartialEq, Eq, Error)]
pub enum FormatError {
    /// The bytes break the format of a block; `at` is the first byte in the file of the first field that does.
    #[error("no block, at {at}")]
    NotBlock { at: u64 },
    /// Out of memory.
    #[error("memory")]
    Memory,
}
