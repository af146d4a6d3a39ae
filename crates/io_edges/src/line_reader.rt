//! Makes lines of a source's bytes. A session and an ingest read their input by it.

ghost use Rattle.std.specs.Prelude.{◌≡◌, ◌≢◌, ◌+◌, ◌<◌, ◌≤◌, ℕ, List, Option, [], ◌++◌, length, slice_index, is_some, EachIndex, IfSome, IfNone, IfOk, OnErr, IsErrOf, Some};
ghost use Rattle.span_types.specs.Faults.{Rose};
ghost use Rattle.std.specs.Io.KnownBytes.{Consumes};
ghost use Rattle.io_edges.specs.Lines.{taken_limit};
ghost use Rattle.io_edges.specs.Reader.{Answers, ComesNearer, EndsByFeed, EndsInput, Holds, HoldsNoFeed, IsFilled, IsToRead, IsWithinLimits, TakesBytes, WouldAsk, to_come};

use crate::begun::Begun;
use crate::block::{Block, Fill, TAKEN_LIMIT};
use crate::devices::Source;
use crate::line::{Line, LineError};
use span_types::Memory;
use std::alloc::Global;
use std::marker::Model;
use std::mem;

const LINE_FEED: u8 = 10;

// How many bytes are asked for at once.
const USUAL_SIZE: usize = 65_536;

// How many bytes are asked for at once where many lines are to be at hand.
const LARGE_SIZE: usize = 4_194_304;

/// Reads a source line by line. A line ends at a line feed, byte 10, or at the end of input; one carriage return, byte
/// 13, at its end isn't part of it.
#[derive(Debug)]
pub struct LineReader {
    alloc: Global,
    block: Block,
    begun: Begun,
}

impl Model for LineReader {
    ghost use Rattle.std.specs.Prelude.{◌+◌, ◌≤◌, length};
    ghost use Rattle.io_edges.specs.Lines.{taken_limit};
    ghost use Rattle.io_edges.specs.Reader.{Reader, IsSound, begun_len};

    ghost Value = { Reader };

    ghost view = { λ r. record { begun = r.begun; pending = r.block.pending; taken = r.block.taken } };

    ghost invariant = { λ r. IsSound r.begun
        × (begun_len r.begun + length r.block.pending ≤ r.block.taken)
        × (r.block.taken ≤ taken_limit) };
}

impl Drop for LineReader {
    fn drop(self) {
        let LineReader {
            alloc: _,
            block: _,
            begun: _,
        } = self;
    }
}

impl LineReader {
    /// A reader that took nothing.
    pub fn new(alloc: Global) -> LineReader
        ensures to_read { (text : List ℕ) → IsToRead result (Some text) text }
        ensures taken { result.taken ≡ 0 }
    {
        LineReader::asking(alloc, USUAL_SIZE)
    }

    /// A reader that took nothing and asks for 4,194,304 bytes at once, so that many lines may be at hand.
    pub fn for_many(alloc: Global) -> LineReader
        ensures to_read { (text : List ℕ) → IsToRead result (Some text) text }
        ensures taken { result.taken ≡ 0 }
    {
        LineReader::asking(alloc, LARGE_SIZE)
    }

    // A reader that took nothing and asks for so many bytes at once.
    fn asking(alloc: Global, size: usize) -> LineReader
        requires { 0 < size }
        ensures to_read { (text : List ℕ) → IsToRead result (Some text) text }
        ensures taken { result.taken ≡ 0 }
    {
        LineReader {
            alloc,
            block: Block::new(alloc, size),
            begun: Begun::new(alloc),
        }
    }

    /// The next line of the source.
    ///
    /// A line has at most 16,777,216 bytes; a longer one is taken to its end, counted and not kept. A reader takes at
    /// most 1,099,511,627,776 bytes in all, and answers `Line::Spent` where it would ask for another.
    ///
    /// # Errors
    ///
    /// `LineError::Fault` where the source failed; every line that was ended by then was answered. `LineError::Memory`
    /// where memory ran out. After either the text that is still to be read stands, so a later call goes on where this
    /// one was.
    pub fn next<S: Source>(&mut self, source: &mut S) -> Result<Line, LineError>
        // Where the source shows its bytes, the answer is about the text that is still to be read as lines.
        ensures line { IfOk result (λ line. (text : List ℕ)
            → IsToRead self.old (S.left source.old) text
            → Answers line text (IsToRead self.new (S.left source.new))) }
        ensures stands { OnErr result ((text : List ℕ) → IsToRead self.old (S.left source.old) text
            → IsToRead self.new (S.left source.new) text) }

        // Wherever the bytes come from, the limits hold, and each line that is answered leaves fewer bytes to come.
        ensures limits { IfOk result (λ line. IsWithinLimits line self.new.taken) }
        ensures spent { IfOk result (λ line. WouldAsk line self.new) }
        ensures nearer { IfOk result
            (λ line. ComesNearer line (to_come self.old) (to_come self.new)) }
        ensures took { TakesBytes (S.left source.old)
            (S.left source.new) self.old.taken self.new.taken }
        ensures limited { self.new.taken ≤ taken_limit }
        ensures tells { is_some (S.left source.new) ≡ is_some (S.left source.old) }

        // A fault is the source's, and comes only where a byte may be asked for.
        ensures counted { S.faults source.old ≤ S.faults source.new }
        ensures asked { IsErrOf result LineError.Fault → self.new.taken < taken_limit }
        ensures waiting { IsErrOf result LineError.Fault → HoldsNoFeed self.new }
        ensures fault { IsErrOf result LineError.Fault
            → Rose (S.faults source.old) (S.faults source.new) }
    {
        'lines: loop {
            match self.scan() {
                Ok(Some(line)) => return Ok(line),
                Ok(None) => {}
                Err(Memory) => return Err(LineError::Memory),
            }
            match self.refill(source) {
                Ok(Fill::Bytes) => {}
                Ok(Fill::AtEnd) => return Ok(self.last_line()),
                Ok(Fill::AllTaken) => return Ok(Line::Spent { taken: TAKEN_LIMIT }),
                Err(error) => return Err(error),
            }
        }
    }

    /// The next line, if the bytes that were taken already end it. No source is asked.
    ///
    /// # Errors
    ///
    /// Out of memory. The reader stands.
    pub fn at_hand(&mut self) -> Result<Option<Line>, Memory>
        // Whatever remains in the source, the answer is about the text that is still to be read as lines.
        ensures line { IfOk result (λ found. IfSome found (λ line. (left : Option (List ℕ))
            (text : List ℕ)
            → IsToRead self.old left text → Answers line text (IsToRead self.new left))) }
        ensures none { IfOk result (λ found. IfNone found ((left : Option (List ℕ))
            (text : List ℕ) → IsToRead self.old left text → IsToRead self.new left text)) }
        ensures limits { IfOk result
            (λ found. IfSome found (λ line. IsWithinLimits line self.new.taken)) }
        ensures nearer { IfOk result
            (λ found. IfSome found (λ _. to_come self.new < to_come self.old)) }
        ensures as_far { IfOk result (λ found. IfNone found (to_come self.new ≡ to_come self.old)) }
        ensures taken { self.new.taken ≡ self.old.taken }
        ensures stands { OnErr result (self.new ≡ self.old) }
    {
        self.scan()
    }

    // Looks for the end of a line in the pending bytes, and where there is none adds them to the line that is begun.
    // Out of memory the reader stands.
    fn scan(&mut self) -> Result<Option<Line>, Memory>
        ensures line { IfOk result (λ found. IfSome found
            (λ line. (held : List ℕ) → Holds self.old held → EndsByFeed held line self.new)) }
        ensures limits { IfOk result
            (λ found. IfSome found (λ line. IsWithinLimits line self.new.taken)) }
        ensures ended { IfOk result (λ found. IfSome found (λ line. WouldAsk line self.new)) }
        ensures nearer { IfOk result
            (λ found. IfSome found (λ _. to_come self.new < to_come self.old)) }
        ensures looked_at { IfOk result (λ found. IfNone found (self.new.pending ≡ [])) }
        ensures kept { IfOk result
            (λ found. IfNone found ((held : List ℕ) → Holds self.old held → Holds self.new held)) }
        ensures as_far { IfOk result (λ found. IfNone found (to_come self.new ≡ to_come self.old)) }
        ensures taken { self.new.taken ≡ self.old.taken }
        ensures limited { self.new.taken ≤ taken_limit }
        ensures stands { OnErr result (self.new ≡ self.old) }
    {
        let pending = self.block.pending();
        match find_feed(pending) {
            Some(at) => {
                self.begun.add(&pending[..at])?;
                self.block.pass(at + 1);
                let begun = mem::replace(&mut self.begun, Begun::new(self.alloc));
                Ok(Some(begun.finish()))
            }
            None => {
                let count = pending.len();
                self.begun.add(pending)?;
                self.block.pass(count);
                Ok(None)
            }
        }
    }

    // Takes the next bytes of the source, where none is pending.
    fn refill<S: Source>(&mut self, source: &mut S) -> Result<Fill, LineError>
        requires { self.old.pending ≡ [] }
        ensures filled { IfOk result
            (λ fill. IsFilled fill self.new.pending self.new.taken (S.left source.new)) }
        ensures none { OnErr result (self.new.pending ≡ []) }
        ensures begun { self.new.begun ≡ self.old.begun }
        ensures took { Consumes (S.left source.old) (S.left source.new) self.new.pending }
        ensures count { self.new.taken ≡ self.old.taken + length self.new.pending }
        ensures limited { self.new.taken ≤ taken_limit }
        ensures tells { is_some (S.left source.new) ≡ is_some (S.left source.old) }
        ensures counted { S.faults source.old ≤ S.faults source.new }
        ensures asked { IsErrOf result LineError.Fault → self.new.taken < taken_limit }
        ensures fault { IsErrOf result LineError.Fault
            → Rose (S.faults source.old) (S.faults source.new) }
    {
        self.block.fill(source)
    }

    // What is to be answered at the end of input.
    fn last_line(&mut self) -> Line
        requires { self.old.pending ≡ [] }
        ensures line { (held : List ℕ) → Holds self.old held → EndsInput result held }
        ensures limits { self.old.taken < taken_limit → IsWithinLimits result self.new.taken }
        ensures none { Holds self.new [] }
        ensures ended { WouldAsk result self.new }
        ensures nearer { ComesNearer result (to_come self.old) (to_come self.new) }
        ensures taken { self.new.taken ≡ self.old.taken }
    {
        if self.begun.is_empty() {
            return Line::End;
        }
        let begun = mem::replace(&mut self.begun, Begun::new(self.alloc));
        begun.finish()
    }
}

// The place of the first line feed.
fn find_feed(bytes: &[u8]) -> Option<usize>
    ensures within { IfSome result (λ at. at < length bytes.now) }
    ensures found { IfSome result (λ at. slice_index bytes.now at ≡ 10) }
    ensures first { IfSome result (λ at. (k : ℕ) → k < at → slice_index bytes.now k ≢ 10) }
    ensures absent { IfNone result (EachIndex bytes.now (λ k. slice_index bytes.now k ≢ 10)) }
{
    bytes.iter().position(|byte| *byte == LINE_FEED)
}
