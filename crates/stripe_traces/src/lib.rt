//! Those rows of a stripe that are of some traces.
//!
//! The entry point is `traces_of_stripe`, in `traces`; `specs/Wanted.antt` says which rows these are. `marks` finds
//! them by the column of traces. Of each further column `choices` reads the values of these rows, and passes over the
//! others by `passes`; `columns` puts the columns together, and `cells` makes the rows. `block_read` reads the rows of
//! a look-up by it.
#![tactic(auto)]

mod cells;
mod choices;
mod columns;
mod marks;
mod passes;
mod traces;

pub use traces::{StripeTraces, traces_of_stripe};
