//! A line that isn't ended yet: its bytes so far, or once it is too long only how many they are.

ghost use Rattle.std.specs.Prelude.{◌≡◌, ℕ, ◌+◌, ◌^◌, ◌<◌, ◌≤◌, List, [], ◌++◌, length, IsTrue, ◌↔◌, OnOk, OnErr};
ghost use Rattle.io_edges.specs.Lines.{without_return, line_limit};
ghost use Rattle.io_edges.specs.Reader.{IsBegun, IsSound, begun_len, IsLineOf, IsWithinLimits, Reader, WouldAsk};

use crate::line::{Line, Text8, drop_return, ends_in_return};
use span_types::{MOST_LINE_BYTES, Memory};
use std::alloc::Global;

// How many bytes a line may have.
const LINE_LIMIT: usize = MOST_LINE_BYTES as usize;

/// What was taken of a line that isn't ended.
#[derive(Debug, Drop)]
pub(crate) enum Begun {
    /// Its bytes so far.
    Kept(Text8),
    /// It is too long, whatever follows: only what its answer needs is kept.
    Dropped { length: u64, returns: bool },
}

impl Begun {
    // No byte of a line.
    pub(crate) fn new(alloc: Global) -> Begun
        ensures { result ≡ Begun.Kept [] }
    {
        Begun::Kept(Text8::none(alloc))
    }

    // Adds the next bytes of the line. Out of memory what was begun stands.
    pub(crate) fn add(&mut self, bytes: &[u8]) -> Result<(), Memory>
        requires sound { IsSound self.old }
        requires fits { begun_len self.old + length bytes.now < 2 ^ 63 }
        ensures sound { IsSound self.new }
        ensures ok { OnOk result ((piece : List ℕ) → IsBegun self.old piece
            → IsBegun self.new (piece ++ bytes.now)) }
        ensures len { OnOk result (begun_len self.new ≡ begun_len self.old + length bytes.now) }
        ensures err { OnErr result (self.new ≡ self.old) }
    {
        if bytes.is_empty() {
            return Ok(());
        }
        match self {
            Begun::Kept(text) if text.len() + bytes.len() <= LINE_LIMIT + 1 =>
                text.extend_from_slice(bytes),
            Begun::Kept(text) => {
                let length = (text.len() + bytes.len()) as u64;
                *self = Begun::Dropped {
                    length,
                    returns: ends_in_return(bytes),
                };
                Ok(())
            }
            Begun::Dropped { length, returns } => {
                *length += bytes.len() as u64;
                *returns = ends_in_return(bytes);
                Ok(())
            }
        }
    }

    // Whether no byte of a line was taken.
    pub(crate) fn is_empty(&self) -> bool
        requires { IsSound self.now }
        ensures { IsTrue result ↔ (begun_len self.now ≡ 0) }
    {
        match self {
            Begun::Kept(text) => text.len() == 0,
            Begun::Dropped { .. } => false,
        }
    }

    // The line, which ends here.
    pub(crate) fn finish(self) -> Line
        requires { IsSound self }
        ensures line { (piece : List ℕ) → IsBegun self piece
            → IsLineOf result (without_return piece) }
        ensures limits { (now : ℕ) → IsWithinLimits result now }
        ensures ended { (now : Reader) → WouldAsk result now }
    {
        match self {
            Begun::Kept(mut text) => {
                drop_return(&mut text);
                if text.len() > LINE_LIMIT {
                    let length = text.len() as u64;
                    Line::TooLong { length }
                } else {
                    Line::Whole(text)
                }
            }
            Begun::Dropped { length, returns } => Line::TooLong {
                length: if returns { length - 1 } else { length },
            },
        }
    }
}
