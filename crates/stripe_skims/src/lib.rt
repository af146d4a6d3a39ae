//! Passing over a stripe without making its rows, if it is sure that it can be read.
//!
//! - The entry point is `skim`, in `sketches`: some columns of a whole stripe. `cells` lists the columns, each of
//!   which `columns` keeps or passes over.
//! - For any that pass over a stripe: `walks` goes from its texts to its rows and leaves the columns to a [`Walk`], as
//!   that of `stripe_traces`.
//! - Single values: `items`, `passes` and `attributes` pass over values of a kind.
//! - `order` is the order of rows by a sketch of them.
//!
//! `block_read` checks blocks by it.
#![tactic(auto)]

mod attributes;
mod cells;
mod columns;
mod items;
mod order;
mod passes;
mod sketches;
mod walks;

pub use items::{Dropped, Pass, pass_items, pass_list};
pub use order::{RowKey, is_before, key};
pub use passes::{AttrLists, Events, Links, References, stamps_of};
pub use sketches::{Sketch, skim};
pub use walks::{Walk, go_over};
