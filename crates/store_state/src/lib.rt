//! The calls of a store: the traits `LookPort`, `FlushPort` and `Port`, whose contracts say of each call what it makes of all
//! that a port shows.
//!
//! - The calls: `port`; what they give out, `jobs`; why they refuse, `errors`; how a round ends, `rounds`.
//! - What a store needs to carry them out, on lists alone: `choice` (which blocks are joined), `listing` (an edit of the list, with
//!   `parts` and `room`). Nothing here touches a disk.
//! - `laws` has theorems.
//!
//! The machine that a port shows is that of `store_model`; `specs/Meaning.antt` says what a port shows and what one call does to
//! it.
#![tactic(auto)]

mod choice;
mod errors;
mod jobs;
mod laws;
mod listing;
mod parts;
mod port;
mod room;
mod rounds;

pub use choice::choose;
pub use errors::{BeginError, PushError, ReclaimError, WriteError};
pub use jobs::{CompactJob, FlushJob, JobFile, Look, Pin};
pub use laws::{
    a_choice_is_few, a_list_parts_blocks_as_the_machine, a_step_tells_what_is_learnt,
    the_floor_is_the_least_that_waits,
};
pub use listing::{FlushFiles, ListEdit, ListRoom, MOST_LISTED, NewSegment, edited, floor_of};
pub use port::{FlushPort, LookPort, Port};
pub use rounds::{Refusal, Round, Step, begin_cause, write_cause};
