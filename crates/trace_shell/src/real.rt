//! The adapters over the real standard streams. They show none of their bytes: what a terminal, a pipe or a file gives
//! and takes can't be proved.

ghost use Rattle.std.specs.Prelude.{◌≡◌, ◌≤◌, ℕ, List, None, IfOk, OnOk, OnErr, is_some, length};
ghost use Rattle.std.specs.Io.KnownBytes.{Appends, ReadConsumes};
ghost use Rattle.span_types.specs.Faults.{Rose};
ghost use Rattle.io_edges.specs.Devices.{AppendsPrefix};
ghost use Rattle.trace_shell.specs.Real.{reader_of, writer_of};

use io_edges::{Sink, Source};
use span_types::Failed;
use std::io::{Read, Write};

/// A source over a reader of the system, as standard input.
#[derive(Debug, Drop)]
pub struct StdinSource<R> {
    reader: R,
    faults: u64,
}

impl<R: Read> StdinSource<R> {
    /// A source that takes from the reader.
    pub fn new(reader: R) -> StdinSource<R>
        ensures { result.faults ≡ 0 }
    {
        StdinSource { reader, faults: 0 }
    }
}

impl<R: Read> Source for StdinSource<R> {
    ghost left = { λ _. None };

    ghost faults = { λ s. s.faults };

    fn take(&mut self, buf: &mut [u8]) -> Result<usize, Failed>
        ensures within { IfOk result (λ count. count ≤ length buf.new) }
        ensures bytes { ReadConsumes None None result buf.new }
        ensures tells { is_some {T = List ℕ} None ≡ is_some {T = List ℕ} None }
        ensures counted { self.old.faults ≤ self.new.faults }
        ensures failed { OnErr result (Rose self.old.faults self.new.faults) }

        // What is taken is what the reader gives.
        ensures reads { ReadConsumes (R.remaining (reader_of self.old))
            (R.remaining (reader_of self.new)) result buf.new }
    {
        match self.reader.read(buf) {
            Ok(count) => Ok(count),
            Err(_) => {
                self.faults = self.faults.saturating_add(1);
                Err(Failed)
            }
        }
    }
}

/// A sink over a writer of the system, as standard output.
#[derive(Debug, Drop)]
pub struct StdoutSink<W> {
    writer: W,
    faults: u64,
}

impl<W: Write> StdoutSink<W> {
    /// A sink that gives to the writer.
    pub fn new(writer: W) -> StdoutSink<W>
        ensures { result.faults ≡ 0 }
    {
        StdoutSink { writer, faults: 0 }
    }
}

impl<W: Write> Sink for StdoutSink<W> {
    ghost taken = { λ _. None };

    ghost faults = { λ s. s.faults };

    fn put(&mut self, bytes: &[u8]) -> Result<(), Failed>
        ensures whole { OnOk result (Appends None None bytes.now) }
        ensures part { OnErr result (AppendsPrefix None None bytes.now) }
        ensures tells { is_some {T = List ℕ} None ≡ is_some {T = List ℕ} None }
        ensures counted { self.old.faults ≤ self.new.faults }
        ensures failed { OnErr result (Rose self.old.faults self.new.faults) }

        // What is put is given to the writer, whole where the call is Ok.
        ensures writes { OnOk result
            (Appends (W.contents (writer_of self.old))
            (W.contents (writer_of self.new)) bytes.now) }
    {
        match self.writer.write_all(bytes) {
            Ok(()) => Ok(()),
            Err(_) => {
                self.faults = self.faults.saturating_add(1);
                Err(Failed)
            }
        }
    }
}
