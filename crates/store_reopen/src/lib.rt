//! A store that is closed and opened again while its program runs, as after a fault of its disk.
//!
//! `Store::reopen` does it, and `specs/Reopened.antt` says what it leaves. `laws` says how a history goes on over reopenings
//! (`specs/Through.antt`); nothing of it runs.
#![tactic(auto)]

mod laws;
mod store;

pub use laws::{a_history_goes_on, a_reopened_store_goes_on, an_open_store_keeps_its_history};
pub use store::Store;
