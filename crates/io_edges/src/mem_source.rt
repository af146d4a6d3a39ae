//! A source in memory, for tests and for proofs: it shows its bytes, and fails at the calls that it was told to.

ghost use Rattle.std.specs.Prelude.{◌≡◌, ◌≤◌, ◌↔◌, length, take, min, is_some, is_ok, if◌then◌else◌, IfOk, IsErr, OnErr, Contains, Some};
ghost use Rattle.std.specs.Io.KnownBytes.{ReadConsumes};
ghost use Rattle.span_types.specs.Faults.{Rose};
ghost use Rattle.io_edges.specs.Memory.{one_more};

use crate::devices::Source;
use span_types::{Bytes, Calls, Failed};
use std::marker::Model;

/// A source over bytes in memory. It fails exactly at the listed calls, counted from 1.
#[derive(Debug, Drop)]
pub struct MemSource {
    bytes: Bytes,
    at: usize,
    failing: Calls,
    calls: u64,
    faults: u64,
}

impl Model for MemSource {
    ghost use Rattle.std.specs.Prelude.{◌≤◌, length, drop};
    ghost use Rattle.io_edges.specs.Memory.{SourceState};

    ghost Value = { SourceState };

    ghost view = { λ s. record {
      left = drop s.at s.bytes;
      failing = s.failing;
      calls = s.calls;
      faults = s.faults;
    } };

    ghost invariant = { λ s. s.at ≤ length s.bytes };
}

impl MemSource {
    /// A source of these bytes, whose calls fail where their number is listed.
    pub fn new(bytes: Bytes, failing: Calls) -> MemSource
        ensures { result ≡ record { left = bytes; failing = failing; calls = 0; faults = 0 } }
    {
        MemSource {
            bytes,
            at: 0,
            failing,
            calls: 0,
            faults: 0,
        }
    }
}

impl Source for MemSource {
    ghost left = { λ s. Some s.left };

    ghost faults = { λ s. s.faults };

    fn take(&mut self, buf: &mut [u8]) -> Result<usize, Failed>
        ensures within { IfOk result (λ count. count ≤ length buf.new) }
        ensures bytes { ReadConsumes (Some self.old.left) (Some self.new.left) result buf.new }
        ensures tells { is_some (Some self.new.left) ≡ is_some (Some self.old.left) }
        ensures counted { self.old.faults ≤ self.new.faults }
        ensures failed { OnErr result (Rose self.old.faults self.new.faults) }

        // It fails exactly at a listed call, and takes nothing there.
        ensures listed { IsErr result ↔ Contains self.old.failing self.new.calls }
        ensures numbered { self.new.calls ≡ one_more self.old.calls }
        ensures same_list { self.new.failing ≡ self.old.failing }
        ensures kept { OnErr result (self.new.left ≡ self.old.left) }
        ensures by_one { self.new.faults
            ≡ (if is_ok result then self.old.faults else one_more self.old.faults) }

        // It gives as much as there is room for.
        ensures full { IfOk result (λ count. count ≡ min (length self.old.left) (length buf.old)) }
    {
        self.calls = self.calls.saturating_add(1);
        if self.failing.as_slice().contains(&self.calls) {
            self.faults = self.faults.saturating_add(1);
            return Err(Failed);
        }
        let count = copy_front(&self.bytes.as_slice()[self.at..], buf);
        self.at += count;
        Ok(count)
    }
}

// Copies as much of the front of `from` as `to` has room for, and gives the number of bytes.
fn copy_front(from: &[u8], to: &mut [u8]) -> usize
    ensures count { result ≡ min (length from.now) (length to.old) }
    ensures front { take result to.new ≡ take result from.now }
{
    let count = from.len().min(to.len());
    to[..count].copy_from_slice(&from[..count]);
    count
}
