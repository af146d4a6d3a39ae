//! What is known of a block beside its bytes: where its parts stand, and what its stripes hold.
//!
//! The layers below the store read and write blocks by it, and the layers above hand it on.
#![tactic(auto)]

mod info;
mod limits;

pub use info::{BlockInfo, Infos, SharedInfo, StripeInfo, Stripes};
pub use limits::{MOST_BLOCK_ROWS, MOST_PAGES, MOST_STRIPES, PAGE_BYTES, PAGE_SIZE, STRIPE_ROWS};
