//! Why a line isn't read.

ghost use Rattle.std.specs.Prelude.{◌≡◌, ◌∷◌, List, []};
ghost use Rattle.otlp_spans.specs.declared.errors.OtlpError.TheVariants.{Memory as NoMemory};
ghost use Rattle.otlp_spans.specs.declared.errors.Stop.TheVariants.{Memory as StopsForMemory, Wrong};
ghost use Rattle.otlp_spans.specs.declared.paths.Step.{Step};

use crate::paths::{Path, Step};
use span_types::{Memory, Text};
use std::alloc::{AllocError, AllocFailed, Global};
use thiserror::Error;

/// Why a line isn't read. They are tested in this order, and memory may be wanted at any moment.
#[derive(Debug, Drop, Error)]
pub enum OtlpError {
    /// The bytes are no JSON.
    #[error("not JSON")]
    NotJson,
    /// A part of the line has the wrong form.
    #[error("not a trace request at {}", path.as_str())]
    NotRequest {
        /// Where the first such part stands, as `$.resourceSpans[0].scopeSpans`.
        path: Text,
    },
    /// The line has more than 16,384 span objects.
    #[error("{spans} spans")]
    TooMany {
        /// How many it has, at most 2^64 - 1.
        spans: u64,
    },
    /// Out of memory.
    #[error("memory")]
    Memory,
}

impl From<Memory> for OtlpError {
    ghost from_gives = { λ _ e. e ≡ NoMemory };

    fn from(_memory: Memory) -> OtlpError {
        OtlpError::Memory
    }
}

impl From<AllocError> for OtlpError {
    ghost from_gives = { λ _ e. e ≡ NoMemory };

    fn from(_error: AllocError) -> OtlpError {
        OtlpError::Memory
    }
}

impl<T: Drop> From<AllocFailed<T>> for OtlpError {
    ghost from_gives = { λ _ e. e ≡ NoMemory };

    fn from(_error: AllocFailed<T>) -> OtlpError {
        OtlpError::Memory
    }
}

/// Why the walk over a line's value stops.
#[derive(Debug, Drop)]
pub(crate) enum Stop {
    /// A part has the wrong form, at this path from the value that is read.
    Wrong(Path),
    /// Out of memory.
    Memory,
}

impl Stop {
    /// The value itself has the wrong form.
    pub(crate) fn here(alloc: Global) -> Stop
        ensures { result ≡ Wrong [] }
    {
        Stop::Wrong(Path::here(alloc))
    }

    /// The same, seen from the value in which the one that is read stands.
    pub(crate) fn behind(self, step: Step) -> Stop
        ensures wrong { (path : List Step) → result ≡ Wrong path
            → (inner : List Step) × (self ≡ Wrong inner) × (path ≡ step ∷ inner) }
    {
        match self {
            Stop::Wrong(path) => match path.behind(step) {
                Ok(path) => Stop::Wrong(path),
                Err(Memory) => Stop::Memory,
            },
            Stop::Memory => Stop::Memory,
        }
    }
}

impl From<Memory> for Stop {
    ghost from_gives = { λ _ e. e ≡ StopsForMemory };

    fn from(_memory: Memory) -> Stop {
        Stop::Memory
    }
}

impl From<AllocError> for Stop {
    ghost from_gives = { λ _ e. e ≡ StopsForMemory };

    fn from(_error: AllocError) -> Stop {
        Stop::Memory
    }
}

impl<T: Drop> From<AllocFailed<T>> for Stop {
    ghost from_gives = { λ _ e. e ≡ StopsForMemory };

    fn from(_error: AllocFailed<T>) -> Stop {
        Stop::Memory
    }
}
