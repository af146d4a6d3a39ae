//! What a client's requests are answered by a store's port, and lists of events that are run on one.
//!
//! - Requests, the program's way: `answer`, by calls of the port, of `query_fanout`, `flusher` and `compactor`.
//! - Lists of events, which only tests run: `events`, over `event` (events and replies as values), `taken` (the looks
//!   of a run), `tasks` (its flush and its compaction) and `own_files` (what it asks of a port).
//! - `laws` holds theorems: what calls make of a core.
//!
//! The entry points are `answer_request`, whose promise is `HasReplied` of `specs/Answers.antt`, and `run_events`,
//! whose promise is `HasRun` of `specs/EventRuns.antt`. Both speak of the calls that were made on the port
//! (`specs/Calls.antt`); `specs/CoreRuns.antt` says what calls make of a store over a disk.
#![tactic(auto)]

mod answer;
mod event;
mod events;
mod laws;
mod own_files;
mod taken;
mod tasks;

pub use answer::answer_request;
pub use event::{Event, EventReply, Events, Replies, Seen};
pub use events::run_events;
pub use laws::{calls_are_steps, jobs_of_a_core_have_own_files, looks_have_their_own_pins};
pub use own_files::OwnFiles;
