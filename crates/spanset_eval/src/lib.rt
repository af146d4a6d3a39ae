//! What a query makes of a trace: which spans it selects, what its stages leave of them, and which traces come first.
//!
//! - `outcome` has the entry points, `evaluate_rows` and `evaluate`, which go through the steps below in this order.
//! - Selecting: `select` (an expression over spansets), by `filter` and `relate` (structural operators); spans are
//!   marked (`marks`).
//! - Stages: `stages`, on spansets as `groups`, by `parts` (`by`) and `amounts` (aggregates and what they are compared
//!   with).
//! - Showing: `show` makes `results` of what is left. `ranking` orders those of several traces; `series` is what a
//!   metrics query answers.
//! - `laws` holds theorems.
//!
//! What a query answers of a trace is defined in `specs/Outcomes.antt`; `docs/TRACEQL.md` has it in words.
#![tactic(auto)]

mod amounts;
mod filter;
mod groups;
mod laws;
mod marks;
mod outcome;
mod parts;
mod ranking;
mod relate;
mod results;
mod select;
mod series;
mod show;
mod stages;

pub use laws::{least_and_greatest, split_is_a_partition};
pub use outcome::{evaluate, evaluate_rows};
pub use ranking::rank;
pub use results::{Hit, Hits, Results, SetResult, Sets, TraceResult};
pub use series::{Count, Counts, Series, SeriesList};
