//! Runs of neighbouring spans that come from one resource, or from one scope. The log and the JSON of a trace both
//! name a resource once a run.
#![tactic(auto)]

mod origins;
mod runs;

pub use origins::{HasSpan, Origin};
pub use runs::first_run;
