//! The write-ahead log: batches of spans as numbered records of a segment.
//!
//! - Writing, spans to bytes: `prepared` (a record before its write, by `writing`, `groups` and `bodies`), `segment`
//!   (puts it into the file).
//! - Reading, bytes to spans: `read_back` (a file off a disk), `records` (gates and lengths), `bodies`, by `groups`
//!   and `reading` (the spans).
//! - `numbered` is what reading gives. `laws` holds theorems: what is written is read, and nothing else.
//!
//! The entry points are `create`, `append` and `scan`; their promises are `SegmentKeepsEither` of `specs/Stands.antt`
//! and `Scans` of `specs/Outcomes.antt`. `docs/LOG-FORMAT.md` has the bytes.
#![tactic(auto)]

mod bodies;
mod groups;
mod laws;
mod numbered;
mod prepared;
mod read_back;
mod reading;
mod records;
mod segment;
mod writing;

pub use laws::{encoded_is_read, entries_of_lists, one_meaning, read_is_encoded};
pub use numbered::{Numbered, NumberedBatch};
pub use prepared::Prepared;
pub use read_back::{LogError, scan};
pub use segment::{Segment, append, create};
