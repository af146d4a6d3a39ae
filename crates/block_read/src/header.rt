//! The header of a block's file.

ghost use Rattle.std.specs.Prelude.{◌≡◌, IfOk};
ghost use Rattle.byte_fields.specs.Breaks.{Answers};
ghost use Rattle.block_format.specs.Headers.{CanBeHeader};
ghost use Rattle.block_read.specs.BlockReadings.{front_pages, header_of};

use crate::file::{each_fits, part};
use block_format::{FormatError, Header, read_header, read_header_is_held};
use byte_fields::Break;
use std::alloc::Global;

/// The header that the bytes of a file begin with.
#[tactic(auto, unfolding(crate::specs::BlockReadings::header_of))]
pub fn header(alloc: Global, bytes: &[u8]) -> Result<Header, Break>
    ensures answers { Answers (λ x. x) result (header_of bytes.now) }
    ensures rules { IfOk result (λ header. CanBeHeader header) }
{
    let front = part(bytes, 0, front_pages(bytes));
    read_header_is_held();
    each_fits(front);
    match read_header(alloc, front) {
        Ok(header) => Ok(header),
        Err(FormatError::NotBlock { at }) => Err(Break::At(at)),
        Err(FormatError::Memory) => Err(Break::Memory),
    }
}

/// How many pages the header has by its own field, or 1 where that can't be.
fn front_pages(bytes: &[u8]) -> u64
    ensures { result ≡ front_pages bytes.now }
{
    if bytes.len() < 8 {
        return 1;
    }
    let pages = u32::from_le_bytes([bytes[4], bytes[5], bytes[6], bytes[7]]);
    if 1 <= pages && pages <= 33 {
        return u64::from(pages);
    }
    1
}
