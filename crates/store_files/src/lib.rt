//! The files of a store on its disk: an opening reads them, jobs make them, pins name them, and what nothing needs is emptied.
//!
//! - Reading: `blocks` the blocks that a list names, `reading` the segments of its log; `error` says why a store isn't opened.
//! - Making: `making` makes the two files of a flush.
//! - Pins: `pins` has their numbers and the files that they name.
//! - Emptying: `loose` empties loose files and commits the list without them, `left` empties what jobs left after the list's last file.
//!
//! `specs/BlockReading.antt` and `LogReading.antt` say what was read and where bytes break, `Loose.antt` what may be emptied.
#![tactic(auto)]

mod blocks;
mod error;
mod left;
mod loose;
mod making;
mod pins;
mod reading;

pub use blocks::read_blocks;
pub use error::OpenError;
pub use loose::{commit_without, empty_loose};
pub use making::make_files;
pub use pins::{free_number, give_back, pinned_files, take_files, take_number};
pub use reading::read_log;
