//! Columnar blocks: their headers, written and read, and what the bytes of a whole block stand for.
//!
//! `header` writes, header to bytes; `header_reading` reads, bytes to header. `block_build` and `block_read` call
//! them. `header_laws` and `block_laws` hold theorems.
//!
//! What the bytes of a block stand for is defined in `specs/Blocks.antt`; `docs/BLOCK-FORMAT.md` has it in words.
#![tactic(auto)]

mod block_laws;
mod header;
mod header_laws;
mod header_reading;

pub use block_laws::{a_block_has_rows, one_block, one_info};
pub use block_stripes::{FormatError, can_be_stripe, read_stripe, write_stripe};
pub use header::{Header, write_header};
pub use header_laws::{header_is_pages, held_header_is_read, one_header, read_header_is_held};
pub use header_reading::read_header;
