//! Call histories of a port: the calls of several seats in their one order, with laws. Definitions and laws; nothing here runs.
#![tactic(auto)]

mod laws;

pub use laws::{
    calls_go_on, counts_never_fall, entries_are_calls, entries_come_in_parts,
    entries_grow_the_history, legal_entries_make_the_history, one_more_entry,
};
