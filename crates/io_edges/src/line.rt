//! A line's bytes, and what a reader of lines answers.

ghost use Rattle.std.specs.Prelude.{◌≡◌};
ghost use Rattle.io_edges.specs.Lines.{ends_in_return, without_return};

use span_types::Bytes;
use thiserror::Error;

const RETURN: u8 = 13;

/// Bytes that are meant as text and may be no UTF-8.
pub type Text8 = Bytes;

// Takes a carriage return off the end.
pub(crate) fn drop_return(line: &mut Text8)
    ensures { line.new ≡ without_return line.old }
{
    if ends_in_return(line.as_slice()) {
        line.truncate(line.len() - 1);
    }
}

// Whether the last byte is a carriage return.
pub(crate) fn ends_in_return(bytes: &[u8]) -> bool
    ensures { result ≡ ends_in_return bytes.now }
{
    match bytes {
        [] => false,
        [.., last] => *last == RETURN,
    }
}

/// What a reader of lines answers.
#[derive(Debug, Drop)]
pub enum Line {
    /// A line's bytes, without its line feed and without a carriage return before that.
    Whole(Text8),
    /// A line of more bytes than a line may have, which aren't kept.
    TooLong {
        /// How many bytes the line has, counted as those of a whole line are.
        length: u64,
    },
    /// The source is at its end, and every line was answered.
    End,
    /// As many bytes were taken as a reader takes, and the next line isn't ended by them.
    Spent {
        /// How many bytes were taken.
        taken: u64,
    },
}

/// Why a reader of lines has no answer.
#[derive(Clone, Copy, Debug, PartialEq, Eq, Error)]
pub enum LineError {
    /// The source failed.
    #[error("fault")]
    Fault,
    /// Out of memory.
    #[error("memory")]
    Memory,
}
