//! The rows of one trace among others.
//!
//! Contracts of looks, blocks, queries and merges speak of them by `rows_of_trace` of `specs/Traces.antt`. The
//! function of `traces` makes them; tests alone call it.
#![tactic(auto)]

mod traces;

pub use traces::rows_of;
