//! Why a text is no query: what the parser answers, with the place.

use thiserror::Error;

/// Why a text is refused. Places count bytes from the start of the text.
#[derive(Clone, Copy, Debug, PartialEq, Eq, Error)]
pub enum ParseError {
    /// A byte that begins no token, or the backslash of an unknown escape.
    #[error("no token begins at byte {at}")]
    BadChar {
        /// The byte's place.
        at: u64,
    },
    /// A token that no production allows there.
    #[error("unexpected token at byte {at}")]
    Unexpected {
        /// The token's first byte.
        at: u64,
    },
    /// A string that doesn't end, or a text that ends before its query does.
    #[error("unended at byte {at}")]
    Unended {
        /// The string's first quote, or the text's length.
        at: u64,
    },
    /// A number or a duration of 2^63 or more.
    #[error("number out of range at byte {at}")]
    NumberRange {
        /// The token's first byte.
        at: u64,
    },
    /// A bare decimal, or a duration that isn't a whole number of nanoseconds.
    #[error("fraction at byte {at}")]
    FractionLiteral {
        /// The token's first byte.
        at: u64,
    },
    /// A text of more than 8,192 bytes.
    #[error("query of {length} bytes is too long")]
    TooLong {
        /// The text's length in bytes.
        length: u64,
    },
    /// The 65th construct that is open at one place: an open parenthesis, a unary operator or `^`.
    #[error("nested too deep at byte {at}")]
    TooDeep {
        /// The token's first byte.
        at: u64,
    },
    /// Memory ran out.
    #[error("out of memory")]
    Memory,
}
