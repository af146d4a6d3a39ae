//! Compactions: blocks of one level become one block of the next, without the repeats of spans.
//!
//! A round is one begin, the pages of the blocks that are joined, the new block's pieces in order, and the commit, one
//! event of a port a step. All is proved of any port by the contracts of `Port` alone.
#![tactic(auto)]

mod building;
mod joining;
mod merge;
mod reading;
mod task;

pub use merge::{RowLists, merge_rows};
pub use task::{CompactTask, compact_round};
