//! The outside as a program sees it: a source of bytes, a sink for bytes, a clock and a gate, their stand-ins in
//! memory, and the reader that makes lines of a source's bytes.
//!
//! A device counts its faults. A failure that it answers is one that it has counted, so a layer above that hands a
//! failure on can show the device's count for it.
//!
//! - The traits: `devices`. Their stand-ins in memory: `mem_source`, `mem_sink`, `fixed_clock`.
//! - Bytes to lines: `line_reader`, over `block` (bytes that weren't looked at yet) and `begun` (a line that isn't
//!   ended); `line` is what it answers.
//!
//! The entry point is `LineReader::next`, whose promise is in `specs/Reader.antt`.
#![tactic(auto)]

mod begun;
mod block;
mod devices;
mod fixed_clock;
mod line;
mod line_reader;
mod mem_sink;
mod mem_source;

pub use devices::{Clock, Gate, OpenGate, Sink, Source};
pub use fixed_clock::FixedClock;
pub use line::{Line, LineError, Text8};
pub use line_reader::LineReader;
pub use mem_sink::MemSink;
pub use mem_source::MemSource;
