//! Why a query is refused for its kinds or its patterns, and why a pattern isn't made.

ghost use Rattle.std.specs.Prelude.{◌≡◌};
ghost use Rattle.traceql_types.specs.declared.errors.TypeError.TheVariants.{Memory as NoMemory};

use span_types::Memory;
use thiserror::Error;

/// Why a query is refused. Places count bytes from the start of the query's text. Of several refusals the one of the
/// earliest place is given, and of several at one place the one that stands first here.
#[derive(Clone, Copy, Debug, PartialEq, Eq, Error)]
pub enum TypeError {
    /// A comparison whose sides don't go together, or a `nil` that isn't compared.
    #[error("kinds clash at byte {at}")]
    KindClash {
        /// The first byte of the comparison's operator, or of the `nil`.
        at: u64,
    },
    /// An operand of a known kind that is no truth, where a truth is wanted.
    #[error("no truth at byte {at}")]
    NotTruth {
        /// The operand's first byte.
        at: u64,
    },
    /// A division in an aggregate's argument.
    #[error("division in an aggregate at byte {at}")]
    DivisionInAggregate {
        /// The place of the `/`.
        at: u64,
    },
    /// An operand of a known kind that is no number, where a number is wanted.
    #[error("no number at byte {at}")]
    NotNumber {
        /// The operand's first byte.
        at: u64,
    },
    /// A text that is no pattern.
    #[error("no pattern at byte {at}")]
    BadPattern {
        /// The first byte of the pattern's string.
        at: u64,
    },
    /// A pattern that was refused for its size.
    #[error("pattern too big at byte {at}")]
    PatternTooBig {
        /// The first byte of the pattern's string.
        at: u64,
    },
    /// Memory ran out.
    #[error("out of memory")]
    Memory,
}

impl From<Memory> for TypeError {
    ghost from_gives = { λ _ e. e ≡ NoMemory };

    fn from(_memory: Memory) -> TypeError {
        TypeError::Memory
    }
}

/// Why a pattern isn't made.
#[derive(Clone, Copy, Debug, PartialEq, Eq, Error)]
pub enum MakeError {
    /// The text is no pattern, or one that nests too deep.
    #[error("no pattern")]
    Syntax,
    /// The maker refused it for its size.
    #[error("refused")]
    Refused,
    /// Memory ran out.
    #[error("out of memory")]
    Memory,
}
