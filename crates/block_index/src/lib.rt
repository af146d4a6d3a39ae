//! The index of a block by trace id, and its Bloom filters.
//!
//! - Writing, from the ids of a block's rows: `index` (`index_pages`) and `bloom` (`bloom_pages`), both over
//!   `entries`, one for each trace.
//! - Reading one page: `search` (`find_in_page`) and `bloom` (`may_hold`).
//! - `hash` gives the bits of a filter. `laws` holds theorems: what these say is so of the rows.
//!
//! What the bytes mean is in `specs/Index.antt` and `specs/Bloom.antt`; `docs/BLOCK-FORMAT.md` has them with examples.
#![tactic(auto)]

mod bloom;
mod entries;
mod hash;
mod index;
mod laws;
mod search;

pub use bloom::{bloom_pages, may_hold};
pub use hash::fnv1a;
pub use index::index_pages;
pub use laws::{entries_tell_rows, filters_hold_their_traces, pages_find_their_traces};
pub use search::{Found, find_in_page};
