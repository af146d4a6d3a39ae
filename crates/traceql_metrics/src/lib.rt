//! How many spans that a search finds begin in each bucket of time.
//!
//! `making` has the entry point, `series`: from a search's results to series. `found` sorts spansets by their values
//! of `by`, `counting` counts moments into `steps`, and `telling` makes rates of counts.
//!
//! Which series these are is defined in `specs/Series.antt`; `docs/TRACEQL.md` has it in words.
#![tactic(auto)]

mod counting;
mod found;
mod making;
mod steps;
mod telling;

pub use making::series;
pub use steps::{MOST_BUCKETS, buckets};
