//! Queries over one look: its rows, and those of the blocks that it pins.
//!
//! - A look-up: `trace`. A search: `searching` takes the look and gives it back, and `rounds` goes through the look's
//!   rows and all blocks.
//! - What a search picks: `picks` in the look's rows, `scans` in the blocks, each gone through as far as `reach` says;
//!   `waits` keeps picks that aren't taken yet.
//! - What it answers: `taking`, a few picks at a time in the order of `turns`, over the rows in memory (`own`) and
//!   those of the blocks. Many traces are evaluated in threads; all else is done in the caller's.
//! - Reading blocks: `blocks`, over `pinned`, by which an open look's blocks are a source of pages.
//! - `error` is why a query fails. `laws` holds theorems: the few at a time answer what all rows would.
//!
//! The entry points are `find_trace` and `search`, whose promise is `HasAsked` of `specs/Queries.antt`: each answer
//! tells the first occurrences of all rows of the history that the port knows afterwards, as it was at the answer's
//! count. `specs/Bounds.antt` says how many pages a look-up and a search may read.
#![tactic(auto)]

mod blocks;
mod error;
mod laws;
mod own;
mod picks;
mod pinned;
mod reach;
mod rounds;
mod scans;
mod searching;
mod taking;
mod trace;
mod turns;
mod waits;

pub use error::QueryError;
pub use laws::{taken_answer_the_whole, takes_more};
pub use searching::{Asked, SearchAnswer, search};
pub use trace::{TraceAnswer, find_trace};
