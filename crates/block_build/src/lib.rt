//! Building a block: whole pages of bytes that stand for rows, and the information that describes them.
//!
//! - The entry points: `building` (a block of rows that are there) and `builder` (row by row).
//! - In this order: `order` (first occurrences, by `ticket`s), `rows` (what rows tell of their block), `draft` (stripes, index and
//!   filters, without a header), `placing` (the header, and where the stripes stand after it).
//!
//! `docs/BLOCK-FORMAT.md` has the bytes; what they stand for is in `block_format/specs/Blocks.antt`.
#![tactic(auto)]

mod builder;
mod building;
mod draft;
mod order;
mod placing;
mod rows;
mod ticket;

pub use builder::Builder;
pub use building::{BuiltBlock, build, build_refs};
