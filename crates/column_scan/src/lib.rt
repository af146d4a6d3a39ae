//! Which traces a search has to look at.
//!
//! A query's hint is a range and, if the query asks for one, a text. Each trace that the query answers has a span that
//! holds the text or, without a text, starts in the range. Its sieve is the hint and what its filter asks of a span's
//! kind, its status and how long it took, which are tested on columns: that span meets these as well. So the spans
//! that are sifted pick the traces, in memory and in each block by itself, and no others are looked at.
//!
//! - What a query asks of single spans: `query` gives its hint (`hints`), `members` its sieve (`sieves`); `sifters`
//!   are sieves ready to test spans.
//! - What is picked: `picks` among spans; `scans` in a block's stripes, a few at a time, and `blocks` in a whole
//!   block.
//! - One stripe: `parts`. Before a row is made of it, `texts` tests the texts that it begins with, and `glanced` its
//!   first columns (`columns`).
//! - `laws` holds theorems: no trace that a query answers is left out.
//!
//! The entry points are `sieve`, `picks_of_spans` and `scan_stripes`. `specs/Sieves.antt` says what a sieve is,
//! `specs/Candidates.antt` what is picked.
#![tactic(auto)]

mod blocks;
mod columns;
mod glanced;
mod hints;
mod laws;
mod members;
mod parts;
mod picks;
mod query;
mod scans;
mod sieves;
mod sifters;
mod texts;

pub use blocks::{candidates, picks_of_block};
pub use hints::Hint;
pub use laws::{answered_is_picked, answers_hold_the_text, columns_tell};
pub use members::sieve;
pub use picks::{Pick, in_order, picks_of_spans};
pub use query::hint;
pub use scans::{Progress, scan_stripes};
pub use sieves::Sieve;
pub use sifters::Sifter;
