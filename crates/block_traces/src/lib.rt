//! The rows of several traces of a block, found in one walk over its stripes.
//!
//! The entry point is `rows_of_traces`; `specs/Batches.antt` says which rows these are, and how many pages may be read
//! for them. `walk` goes from stripe to stripe, `kept` adds the rows of the traces that a stripe has.
#![tactic(auto)]

mod batches;
mod kept;
mod walk;

pub use batches::rows_of_traces;
