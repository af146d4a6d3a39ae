//! A look that is taken among calls of a port tells the history at the look, whatever calls come before its blocks are
//! read.
//!
//! Nothing here runs: each function is a law, and its contract is the law.
#![tactic(auto)]

mod laws;

pub use laws::{
    a_look_among_calls_is_kept, a_look_among_events_tells_its_history,
    a_look_of_a_run_tells_its_history, events_write_own_pieces,
};
