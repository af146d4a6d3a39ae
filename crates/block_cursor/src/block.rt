//! The bytes of a block, which are checked once, and the rows of each of its stripes.

ghost use Rattle.std.specs.Prelude.{◌≡◌, ◌*◌, ◌≤◌, IfOk, drop, length, take, true};
ghost use Rattle.span_fields.specs.Breaks.{Answers};
ghost use Rattle.block_format.specs.Blocks.{BlockHolds, form_of_rows};
ghost use Rattle.block_stripes.specs.StripeReadings.{ascend};
ghost use Rattle.block_read.specs.Answers.{made_of};
ghost use Rattle.block_read.specs.BlockReadings.{listed_at};
ghost use Rattle.block_read.specs.Files.{part_of};

use block_info::{BlockInfo, PAGE_BYTES};
use block_read::check_bytes;
use block_stripes::{held_is_read, read_stripe};
use span_fields::Break;
use span_types::{Bytes, Memory, Row};
use std::alloc::Global;
use std::marker::Model;

/// The bytes of a block that were checked. Contracts see its rows, which aren't in memory.
#[derive(Drop)]
pub struct ReadBlock {
    bytes: Bytes,
    info: BlockInfo,
}

impl Model for ReadBlock {
    ghost use Rattle.std.specs.Prelude.{List};
    ghost use Rattle.span_types.specs.declared.spans.Row.{Row};
    ghost use Rattle.block_format.specs.Blocks.{BlockHasInfo};
    ghost use Rattle.block_cursor.specs.Wholes.{rows_in};

    ghost Value = { List Row };

    ghost view = { λ b. rows_in b.bytes };

    ghost invariant = { λ b. BlockHasInfo b.info b.bytes (rows_in b.bytes) };
}

/// The block that these bytes are, where its list entry says so many rows.
///
/// [`Break::At`] comes exactly where they are no such block, at the first byte where they are malformed.
pub fn checked(alloc: Global, bytes: Bytes, rows: u32) -> Result<ReadBlock, Break>
    ensures answers { Answers (λ x. x) result
        (made_of (λ block. block.rows) (listed_at rows bytes)) }
    ensures counted { IfOk result (λ block. length block ≡ rows) }
    ensures holds { IfOk result (λ block. BlockHolds bytes block) }
{
    let info = check_bytes(alloc, 0, 0, rows, bytes.as_slice())?;
    Ok(ReadBlock { bytes, info })
}

impl ReadBlock {
    /// Its form: 2 where a row has an event or a link, else 1.
    pub fn form(&self) -> u8
        ensures { result ≡ form_of_rows self.now }
    {
        self.info.form
    }

    /// The rows of the stripe with this number, none after the last stripe.
    pub fn stripe(&self, alloc: Global, number: usize) -> Result<Vec<Row>, Memory>
        ensures { IfOk result (λ rows. rows.items ≡ take 256 (drop (256 * number) self.now)) }
    {
        let stripes = self.info.stripes.as_slice();
        if number >= stripes.len() {
            return Ok(Vec::new(alloc));
        }
        held_is_read();
        let entry = &stripes[number];
        let part = part(self.bytes.as_slice(), entry.page, entry.pages);
        match read_stripe(alloc, part, 0, self.info.form) {
            Ok(rows) => Ok(rows.into_vec()),
            Err(_) => Err(Memory),
        }
    }

    /// What its rows promise: there are 1,048,576 at most, in block order. It does nothing.
    pub fn are_its_rows(&self)
        ensures order { ascend self.now ≡ true }
        ensures few { length self.now ≤ 1048576 }
    {
        let _ = &self.info;
    }
}

/// So many pages of these bytes from that page on, or what is there of them.
fn part(bytes: &[u8], page: u64, pages: u64) -> &[u8]
    ensures part { result.now ≡ part_of page pages bytes.now }
    ensures fits { length result.now ≤ length bytes.now }
{
    let first = page.saturating_mul(PAGE_BYTES).min(bytes.len() as u64) as usize;
    let rest = &bytes[first..];
    let size = pages.saturating_mul(PAGE_BYTES).min(rest.len() as u64) as usize;
    &rest[..size]
}
