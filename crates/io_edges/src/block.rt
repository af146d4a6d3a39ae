//! The buffer between a source and the lines: bytes that were taken at once and not looked at yet.

ghost use Rattle.std.specs.Prelude.{◌≡◌, ◌+◌, ◌<◌, ◌≤◌, [], length, vec_len, take, drop, is_some, IfOk, OnOk, OnErr, IsErrOf};
ghost use Rattle.std.specs.Io.KnownBytes.{Consumes, IsAtEnd, Keeps};
ghost use Rattle.span_types.specs.Faults.{Rose};
ghost use Rattle.io_edges.specs.Reader.{IsFilled};
ghost use Rattle.io_edges.specs.Lines.{taken_limit};

use crate::devices::Source;
use crate::line::LineError;
use span_types::{Failed, Memory};
use std::alloc::Global;
use std::marker::Model;

// How many bytes are taken in all.
pub(crate) const TAKEN_LIMIT: u64 = 1_099_511_627_776;

/// What filling an empty block gave.
#[derive(Clone, Copy, Debug, PartialEq, Eq)]
pub(crate) enum Fill {
    /// At least one byte.
    Bytes,
    /// No byte, since the source is at its end.
    AtEnd,
    /// No byte, and none was asked for, since as many were taken as are ever taken.
    AllTaken,
}

/// Bytes of a source that weren't looked at yet, in a buffer that is used again and again.
#[derive(Debug, Drop)]
pub(crate) struct Block {
    // Empty before the first filling, and of `size` bytes after it.
    bytes: Vec<u8>,
    // How many bytes are asked for at once.
    size: usize,
    from: usize,
    to: usize,
    taken: u64,
}

impl Model for Block {
    ghost use Rattle.std.specs.Prelude.{◌≡◌, ◌-◌, ◌<◌, ◌≤◌, length, take, drop};
    ghost use Rattle.io_edges.specs.Lines.{taken_limit};
    ghost use Rattle.io_edges.specs.Buffered.{Buffered};

    ghost Value = { Buffered };

    ghost view = { λ b. record { pending = take (b.to - b.from) (drop b.from b.bytes.items); taken = b.taken } };

    ghost invariant = { λ b. (b.from ≤ b.to) × (b.to ≤ length b.bytes.items) × (0 < b.size)
        × (b.taken ≤ taken_limit) };
}

impl Block {
    // An empty block that asks for so many bytes at once.
    pub(crate) fn new(alloc: Global, size: usize) -> Block
        requires { 0 < size }
        ensures { result ≡ record { pending = []; taken = 0 } }
    {
        Block {
            bytes: Vec::new(alloc),
            size,
            from: 0,
            to: 0,
            taken: 0,
        }
    }

    // The bytes that weren't looked at.
    pub(crate) fn pending(&self) -> &[u8]
        ensures { result.now ≡ self.now.pending }
    {
        &self.bytes.as_slice()[self.from..self.to]
    }

    // How many bytes were taken in all.
    pub(crate) fn taken(&self) -> u64
        ensures value { result ≡ self.now.taken }
        ensures limited { result ≤ taken_limit }
    {
        self.taken
    }

    // Goes past the first `count` of them.
    pub(crate) fn pass(&mut self, count: usize)
        requires { count ≤ length self.old.pending }
        ensures pending { self.new.pending ≡ drop count self.old.pending }
        ensures taken { self.new.taken ≡ self.old.taken }
    {
        self.from += count;
    }

    // Takes the next bytes of the source into a block that has none.
    pub(crate) fn fill<S: Source>(&mut self, source: &mut S) -> Result<Fill, LineError>
        requires { self.old.pending ≡ [] }
        ensures filled { IfOk result
            (λ fill. IsFilled fill self.new.pending self.new.taken (S.left source.new)) }
        ensures none { OnErr result (self.new.pending ≡ []) }
        ensures took { Consumes (S.left source.old) (S.left source.new) self.new.pending }
        ensures count { self.new.taken ≡ self.old.taken + length self.new.pending }
        ensures limited { self.new.taken ≤ taken_limit }
        ensures tells { is_some (S.left source.new) ≡ is_some (S.left source.old) }
        ensures counted { S.faults source.old ≤ S.faults source.new }
        ensures asked { IsErrOf result LineError.Fault → self.new.taken < taken_limit }
        ensures fault { IsErrOf result LineError.Fault
            → Rose (S.faults source.old) (S.faults source.new) }
    {
        self.from = 0;
        self.to = 0;
        let room = TAKEN_LIMIT - self.taken;
        if room == 0 {
            return Ok(Fill::AllTaken);
        }
        match make_room(&mut self.bytes, self.size) {
            Ok(()) => {}
            Err(Memory) => return Err(LineError::Memory),
        }
        match take_front(source, self.bytes.as_mut_slice(), room) {
            Ok(0) => Ok(Fill::AtEnd),
            Ok(count) => {
                self.to = count;
                self.taken += count as u64;
                Ok(Fill::Bytes)
            }
            Err(Failed) => Err(LineError::Fault),
        }
    }
}

// Makes the buffer at its first use.
fn make_room(bytes: &mut Vec<u8>, size: usize) -> Result<(), Memory>
    requires { 0 < size }
    ensures { OnOk result (0 < vec_len bytes.new) }
{
    if bytes.as_slice().is_empty() {
        bytes.resize(size, 0)?;
    }
    Ok(())
}

// Takes the next bytes of the source to the front of the buffer, and no more than there is room for.
fn take_front<S: Source>(source: &mut S, bytes: &mut [u8], room: u64) -> Result<usize, Failed>
    requires asks { 0 < length bytes.old }
    requires room { 0 < room }
    ensures within { IfOk result (λ count. (count ≤ room) × (count ≤ length bytes.new)) }
    ensures took { IfOk result
        (λ count. Consumes (S.left source.old) (S.left source.new) (take count bytes.new)) }
    ensures end { IfOk result (λ count. count ≡ 0 → IsAtEnd (S.left source.new)) }
    ensures kept { OnErr result (Keeps (S.left source.old) (S.left source.new)) }
    ensures tells { is_some (S.left source.new) ≡ is_some (S.left source.old) }
    ensures counted { S.faults source.old ≤ S.faults source.new }
    ensures failed { OnErr result (Rose (S.faults source.old) (S.faults source.new)) }
{
    let asked = room.min(bytes.len() as u64) as usize;
    let count = source.take(&mut bytes[..asked])?;
    Ok(count)
}
