//! What a search answers over rows in memory.
//!
//! - `search` has the entry point, `answer`: `traces` gives the traces in the range, `ranking` their order, and
//!   `results` evaluates them in that order until there are enough.
//! - `best` keeps the best results so far, for a caller that has the rows of a few traces at a time, as `query_fanout`
//!   has.
//! - `bounds` says how much is shown; `threads` says that rows and results may go to another thread.
//! - `laws` holds theorems: how the answers of parts are joined.
//!
//! What `answer` promises is `IsAnswer` of `specs/Answers.antt`. The calls that it is made of stand by themselves, so
//! that traces that come from elsewhere, or are looked at in several threads, are answered by the same ones.
#![tactic(auto)]

mod best;
mod bounds;
mod laws;
mod ranking;
mod results;
mod search;
mod threads;
mod traces;

pub use best::Best;
pub use bounds::Bounds;
pub use laws::{
    first_of_parts, first_stays, one_answer_each, parts_answer_the_whole, picked_answer_the_whole,
};
pub use ranking::rank_traces;
pub use results::first_results;
pub use search::answer;
pub use threads::rows_and_results_cross;
pub use traces::{TraceInRange, traces_in_range};
