//! The store over a disk: its events, each of which is a step of the store's model, and what a crash may leave at any moment.
//!
//! - What a core is: `store` (a core), `state` (its memory), `jobs` and `room` (open jobs and the memory of their commits), `since`
//!   (the moment of its opening, for contracts alone).
//! - Opening, from disk to memory: `opening` has the entry point, `reviving` puts the log's rows in place, `new_store` makes a new
//!   store. What is read, and what is freed, is in `store_files` below.
//! - Events, from memory to disk: `events` (pushes and looks; `admit` refuses), `cutting`, `flushing` and `committing`, `compacting`,
//!   `reclaiming`; `next_list` makes the lists of commits.
//! - Pages of blocks, from disk to a caller: `pages`.
//! - `port` is a core as a port, and `laws` has theorems.
//!
//! `specs/Cores.antt` says what a core stands for, `specs/Events.antt` what one event makes of it.
#![tactic(auto)]

mod admit;
mod committing;
mod compacting;
mod cutting;
mod events;
mod flushing;
mod jobs;
mod laws;
mod new_store;
mod next_list;
mod opening;
mod pages;
mod port;
mod reclaiming;
mod reviving;
mod room;
mod since;
mod state;
mod store;

pub use jobs::{Jobs, OpenCompaction, OpenFlush};
pub use laws::{entries_of_an_image, images_since_opening};
pub use new_store::{make_store, open_new};
pub use port::{a_core_keeps_its_blocks, a_shown_core_is_a_port, an_event_is_a_call};
pub use room::CommitRoom;
pub use since::Since;
pub use state::CoreState;
pub use store::Core;
