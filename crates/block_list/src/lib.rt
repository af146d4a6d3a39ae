//! The list of segments, blocks and loose files of a store: two slots, of which one counts, at every crash.
//!
//! - Writing, a list to bytes: `prepared` makes the bytes, `committing` puts them into a slot and opens its gate.
//! - Reading, bytes to a list: `loading` reads both slots off a disk and gives the list that counts; `reading` tests
//!   the fields of one slot.
//! - `body` is what a list says, and `error` why there is none. `laws` holds theorems.
//!
//! The entry points are `load` (`specs/Loading.antt`), `prepare` and `commit` (`specs/Commit.antt`).
//! `docs/LIST-FORMAT.md` has the bytes.
#![tactic(auto)]

mod body;
mod committing;
mod error;
mod laws;
mod loading;
mod prepared;
mod reading;

pub use body::{BlockList, BlockRef, FileList, ListBody, SegmentList, SegmentRef};
pub use committing::{commit, lay, open_gate};
pub use error::ListError;
pub use laws::{held_list_is_read, next_may_be_laid, size_of_text, stays_ready};
pub use loading::{load, next_generation};
pub use prepared::{PreparedList, prepare, prepare_any};
