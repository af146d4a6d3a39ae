//! A search's traces, evaluated in threads.
//!
//! - `search` has the entry point of a search, `answer`: the traces in the range, ranked, and evaluated in `windows`
//!   until there are as many results as are shown.
//! - `lists` has `evaluate_all`: each of several lists of rows, by itself.
//! - `parts` is what both share: how a list is cut, and how what is made of its parts is joined.
//!
//! What they promise are the clauses of `search_answer`, with one thread or with many: the answers of the traces, in
//! the traces' order. No thread waits for a lock, and each has what searches for the query's patterns for itself.
#![tactic(auto)]

mod lists;
mod parts;
mod search;
mod windows;

pub use lists::{RowLists, evaluate_all};
pub use search::answer;
pub use windows::first_results;
