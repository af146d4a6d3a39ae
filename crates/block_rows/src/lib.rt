//! What rows and header say of a block beside its stripes: its form, its trace ids, its index and Bloom filters, and
//! its information.
//!
//! `block_build` writes a block by it, and `block_read` tests a block that it read, so that both mean the same.
#![tactic(auto)]

mod form;
mod info;
mod tail;

pub use form::{form_of, ids_of};
pub use info::{index_page, info_of};
pub use tail::{Tail, tail_of};
