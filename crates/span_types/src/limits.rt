//! The limits that several crates keep, each in one place.

/// How many spans one push has at most.
pub const MOST_SPANS: u64 = 16_384;

/// How many bytes one line of input has at most, its line feed not counted.
pub const MOST_LINE_BYTES: u64 = 16_777_216;

/// How many bytes the text of a query has at most.
pub const MOST_QUERY_BYTES: u64 = 8_192;
