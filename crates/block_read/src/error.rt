//! Why a block could not be read.

use thiserror::Error;

/// Why a block could not be read.
#[derive(Clone, Copy, Debug, PartialEq, Eq, Error)]
pub enum ReadError {
    /// A page could not be read.
    #[error("fault")]
    Fault,
    /// The bytes of the file are no block; `at` is the first byte of the first field that is malformed.
    #[error("no block in file {file}, at {at}")]
    NotBlock { file: u32, at: u64 },
    /// Out of memory.
    #[error("memory")]
    Memory,
}
