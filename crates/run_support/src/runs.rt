//! Runs of the program's words over devices in memory.

use disk_model::MemDisk;
use io_edges::{FixedClock, Gate, MemSink, MemSource, OpenGate};
use span_types::{Bytes, Calls, Memory, Moments};
use std::alloc::Global;
use std::sync::Wait;
use std::thread::Threads;
use trace_shell::{Ended, run};
use traceql_types::RegexMaker;

/// The calls of the source and of the sink that fail, counted from 1.
#[derive(Clone, Copy)]
pub struct Failing<'a> {
    /// Those of the source.
    pub source: &'a [u64],
    /// Those of the sink.
    pub sink: &'a [u64],
}

/// No call fails.
pub const FINE: Failing<'static> = Failing {
    source: &[],
    sink: &[],
};

/// What a run came to.
#[derive(Drop)]
pub struct Played {
    /// What it wrote.
    pub text: Bytes,
    /// The exit status.
    pub status: u8,
    /// The disk as the run handed it back.
    pub disk: MemDisk,
    /// How many calls of the sink and of the disk failed because memory ran out.
    pub starved: u64,
}

impl Played {
    /// Whether it wrote just that, ended with that status, and no device ran out of memory.
    pub fn is(&self, text: &str, status: u8) -> bool {
        self.text.as_slice() == text.as_bytes() && self.status == status && self.starved == 0
    }
}

/// A list of calls.
pub fn calls(alloc: Global, numbers: &[u64]) -> Result<Calls, Memory> {
    Ok(Calls::of(Vec::from_slice(alloc, numbers)?))
}

/// The words of a command line.
pub fn all_words(alloc: Global, words: &[&str]) -> Result<Vec<String>, Memory> {
    let mut all = Vec::new(alloc);
    for word in words {
        all.push(String::from_str(alloc, word)?)?;
    }
    Ok(all)
}

/// A source of these bytes, no call of which fails.
pub fn source_of(alloc: Global, input: &str) -> Result<MemSource, Memory> {
    let bytes = Bytes::of(Vec::from_slice(alloc, input.as_bytes())?);
    Ok(MemSource::new(bytes, calls(alloc, &[])?))
}

/// Runs the words over an input on a disk, at these moments of the clock.
pub fn play<R: Threads + Wait + Sync>(
    rt: &R,
    alloc: Global,
    disk: MemDisk,
    words: &[&str],
    input: &str,
    failing: Failing<'_>,
    moments: &[u64],
) -> Result<Played, Memory> {
    play_through(rt, alloc, disk, words, input, failing, moments, &OpenGate)
}

/// The same through a gate, whose points the run passes.
pub fn play_through<R: Threads + Wait + Sync, G: Gate>(
    rt: &R,
    alloc: Global,
    disk: MemDisk,
    words: &[&str],
    input: &str,
    failing: Failing<'_>,
    moments: &[u64],
    gate: &G,
) -> Result<Played, Memory> {
    let words = all_words(alloc, words)?;
    let bytes = Bytes::of(Vec::from_slice(alloc, input.as_bytes())?);
    let mut source = MemSource::new(bytes, calls(alloc, failing.source)?);
    let mut sink = MemSink::new(alloc, calls(alloc, failing.sink)?);
    let moments = Moments::of(Vec::from_slice(alloc, moments)?);
    let Ended { status, disk } = run(
        rt,
        alloc,
        words.as_slice(),
        &mut source,
        &mut sink,
        disk,
        &mut FixedClock::new(moments),
        &mut RegexMaker::new(alloc),
        gate,
    );
    let starved = sink.starved().saturating_add(disk.starved());
    Ok(Played {
        text: Bytes::of(Vec::from_slice(alloc, sink.taken())?),
        status,
        disk,
        starved,
    })
}
