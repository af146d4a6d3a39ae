//! Fields of bytes: numbers and texts as files keep them, written and read.
//!
//! Fixed numbers are little-endian. A `var` is unsigned LEB128 in its shortest form, and a `zigzag` is the `var` of
//! twice the number, or of one less than twice its distance from 0 if it is negative. A text is the `var` of its
//! length in bytes, and then its UTF-8 bytes. Each value has one encoding, and each encoding is that of one value.
//!
//! - Writing: `writer`.
//! - Reading: `reader`, over `cursor` (a place in the bytes) and `number` (groups of seven bits); `error` says what is
//!   wrong.
//! - `laws` holds a theorem: an encoding is that of one value, whatever follows it.
//!
//! The encodings are defined in `specs/Spelling.antt`, reading in `specs/Reading.antt`. Log, list and blocks are made
//! of these fields.
#![tactic(auto)]

mod cursor;
mod error;
mod laws;
mod number;
mod reader;
mod writer;

pub use error::FieldError;
pub use laws::one_value;
pub use reader::Reader;
pub use writer::Writer;
