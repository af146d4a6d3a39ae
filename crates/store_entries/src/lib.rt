//! What the history of a store is made of: [`Entry`], of which a push adds one.
//!
//! Nothing makes a [`Entry::Forget`] yet. The laws about histories are proved for both kinds of entry.
#![tactic(auto)]

mod entry;

pub use entry::Entry;
