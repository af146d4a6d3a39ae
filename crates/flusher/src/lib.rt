//! Flushes: rows that wait in memory become a block, one event of a port a step.
//!
//! A round is one begin, the block's pieces in order, and the commit. The block is built outside of the store's calls, in the step of
//! its first piece. All is proved of any port by the contracts of `FlushPort` alone.
#![tactic(auto)]

mod building;
mod pieces;
mod task;

pub use pieces::piece;
pub use task::{FlushTask, flush_round};
