//! Why reading stops: what each reading function answers in place of a tree.

ghost use Rattle.traceql_parse.specs.declared.stop.Stop.TheVariants as stop;
ghost use Rattle.std.specs.Prelude.{◌≡◌};

use span_types::Memory;
use std::alloc::{AllocError, AllocFailed};
use traceql_tokens::Token;

/// Why reading stops at a token, or at the end.
#[derive(Clone, Copy, Debug, PartialEq, Eq)]
pub enum Cause {
    /// The tokens end, and what is read doesn't.
    Unfinished,
    /// No production allows the token there.
    Unexpected,
    /// A production allows the token there, but for its fault.
    Faulty,
    /// One construct more would be open than may be.
    TooDeep,
}

/// Memory ran out, or the tokens from these on are refused.
#[derive(Drop)]
pub enum Stop<'a> {
    /// Memory ran out.
    Memory,
    /// Why, and the tokens from the refused one on.
    Refused(Cause, &'a [Token]),
}

impl From<Memory> for Stop<'_> {
    ghost from_gives = { λ _ e. e ≡ stop.Memory };

    fn from(_error: Memory) -> Self {
        Stop::Memory
    }
}

impl From<AllocError> for Stop<'_> {
    ghost from_gives = { λ _ e. e ≡ stop.Memory };

    fn from(_error: AllocError) -> Self {
        Stop::Memory
    }
}

impl<T: Drop> From<AllocFailed<T>> for Stop<'_> {
    ghost from_gives = { λ _ e. e ≡ stop.Memory };

    fn from(_error: AllocFailed<T>) -> Self {
        Stop::Memory
    }
}
