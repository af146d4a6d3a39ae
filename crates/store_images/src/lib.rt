//! What an image of the disk stores: the rows and the length of a history, by its list, its blocks and its log.
//!
//! Nothing here runs. The definitions stand in `specs/` (`Stored` is the one to begin with), and each function here is
//! a law about them: its contract is the law.
#![tactic(auto)]

mod laws;

pub use laws::{
    a_committed_compaction_agrees, a_committed_compaction_stands, a_committed_flush_agrees,
    a_committed_flush_stands, loaded_keeps_stored, one_stored_list, steps_that_keep,
};
