//! Rows whose spans are borrowed.
#![tactic(auto)]

mod refs;

pub use refs::{RowRef, refs_of};
