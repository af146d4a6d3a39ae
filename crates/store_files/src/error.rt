//! Why a store was not opened.

use thiserror::Error;

/// Why a store was not opened.
#[derive(Clone, Copy, Debug, PartialEq, Eq, Error)]
pub enum OpenError {
    /// A call of the disk failed.
    #[error("disk-fault")]
    Fault,
    /// The file's bytes are not those of a store: they are malformed at this byte.
    #[error("not-store file={file} at={at}")]
    NotStore { file: u32, at: u64 },
    /// Out of memory.
    #[error("memory")]
    Memory,
}
