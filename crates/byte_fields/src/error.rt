//! Why a field could not be read: what a reader of a format makes its own refusal of.

use thiserror::Error;

/// What is wrong with a field. Places are bytes of the whole input, counted from 0.
#[derive(Clone, Copy, Debug, PartialEq, Eq, Error)]
pub enum FieldError {
    /// The bytes end within the field; `at` is their number.
    #[error("the bytes end within a field, at {at}")]
    Short { at: u64 },
    /// A number is not in its shortest form, or has more than 64 bits; `at` is its first byte.
    #[error("a number is not in its shortest form, at {at}")]
    NotShortest { at: u64 },
    /// A text is not UTF-8; `at` is the first byte of its length.
    #[error("a text is not UTF-8, at {at}")]
    NotText { at: u64 },
    /// Out of memory.
    #[error("memory")]
    Memory,
}
