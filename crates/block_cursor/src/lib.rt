//! A block that is held as its checked bytes, and a cursor over its rows: a stripe of them is in memory at once.
#![tactic(auto)]

mod block;
mod cursor;

pub use block::{ReadBlock, checked};
pub use cursor::RowsLeft;
