//! The stripes of a block, each read by itself.

ghost use Rattle.std.specs.Prelude.{◌≡◌, ◌+◌, ◌*◌, ◌^◌, ◌<◌, IfOk, IsTrue, List, None, Ok, drop, false};
ghost use Rattle.span_types.specs.declared.spans.Row.{Row};
ghost use Rattle.span_fields.specs.Breaks.{Answers};
ghost use Rattle.block_format.specs.Blocks.{StripeHasEntry};
ghost use Rattle.block_read.specs.Answers.{RoseAtMost, is_fault, is_unread};
ghost use Rattle.block_read.specs.BlockReadings.{stripe_of};
ghost use Rattle.block_read.specs.Files.{first_bytes, part_of};
ghost use Rattle.block_read.specs.Lookups.{Finds, FindsTraces, IsInFile};
ghost use Rattle.block_read.specs.PageReads.{OnlyReads};
ghost use Rattle.stripe_traces.specs.Wanted.{AreInOrder, rows_of_traces};

use crate::file::{Unread, bytes_from};
use crate::kept::keep;
use crate::stripes::stripe;
use crate::{Pages, ReadError};
use block_info::{PAGE_BYTES, StripeInfo};
use span_fields::Break;
use span_types::{Row, Rows, TraceId};
use std::alloc::Global;
use stripe_traces::{StripeTraces, traces_of_stripe};

/// Those rows of a stripe of a block that are of these traces, whose ids ascend, and the trace of the stripe's last row.
///
/// [`ReadError::NotBlock`] comes only if the pages are no such stripe.
pub fn traces_of_part<P: Pages>(
    alloc: Global,
    pages: &mut P,
    block: u32,
    form: u8,
    entry: &StripeInfo,
    ids: &[TraceId],
) -> Result<StripeTraces, ReadError>
    requires ready { P.ready pages.old block }
    requires near { entry.now.page + entry.now.pages < 2 ^ 52 }
    requires in_order { AreInOrder ids.now }
    ensures answers { IsTrue (P.tells pages.old) → (rows : List Row)
        → StripeHasEntry form entry.now
        (part_of entry.now.page entry.now.pages (P.held pages.old block)) rows
        → FindsTraces ids.now rows result }
    ensures of_traces { IfOk result
        (λ found. rows_of_traces ids.now found.rows.items ≡ found.rows.items) }
    ensures its_file { IsInFile block result }
    ensures reads { RoseAtMost entry.now.pages (P.reads pages.old) (P.reads pages.new) }
    ensures only { OnlyReads P.tells P.held P.faults P.ready P.went P.name pages.old
        (is_fault result) pages.new }
{
    match stripe_bytes(alloc, pages, block, entry) {
        Ok(bytes) => traces_of_bytes(alloc, block, form, entry, bytes.as_slice(), ids),
        Err(Unread::Fault) => Err(ReadError::Fault),
        Err(Unread::Memory) => Err(ReadError::Memory),
    }
}

/// The same of the bytes of a stripe's pages. The other rows are made only if the stripe isn't read without them.
fn traces_of_bytes(
    alloc: Global,
    block: u32,
    form: u8,
    entry: &StripeInfo,
    bytes: &[u8],
    ids: &[TraceId],
) -> Result<StripeTraces, ReadError>
    requires near { entry.now.page + entry.now.pages < 2 ^ 52 }
    requires in_order { AreInOrder ids.now }
    ensures answers { (rows : List Row) → StripeHasEntry form entry.now bytes.now rows
        → FindsTraces ids.now rows result }
    ensures of_traces { IfOk result
        (λ found. rows_of_traces ids.now found.rows.items ≡ found.rows.items) }
    ensures its_file { IsInFile block result }
    ensures no_fault { is_fault result ≡ false }
{
    if let Some(found) = traces_of_stripe(alloc, bytes, form == 2, entry, ids) {
        return Ok(found);
    }
    match rows_of_bytes(alloc, block, form, entry, bytes) {
        Ok(rows) => match keep(alloc, rows, ids) {
            Ok(found) => Ok(found),
            Err(_) => Err(ReadError::Memory),
        },
        Err(e) => Err(e),
    }
}

/// The rows that the bytes of a stripe's pages stand for by its entry.
///
/// [`ReadError::NotBlock`] comes only if they are no such stripe.
pub fn rows_of_bytes(
    alloc: Global,
    block: u32,
    form: u8,
    entry: &StripeInfo,
    bytes: &[u8],
) -> Result<Rows, ReadError>
    requires near { entry.now.page + entry.now.pages < 2 ^ 52 }
    ensures answers { (rows : List Row) → stripe_of form entry.now None bytes.now ≡ Ok rows
        → Finds rows result }
    ensures its_file { IsInFile block result }
    ensures no_fault { is_fault result ≡ false }
{
    match stripe_rows(alloc, form, entry, bytes) {
        Ok(rows) => Ok(Rows::of(rows)),
        Err(Break::At(at)) => Err(ReadError::NotBlock {
            file: block,
            at: (entry.page * PAGE_BYTES).saturating_add(at.min(bytes.len() as u64)),
        }),
        Err(Break::Memory) => Err(ReadError::Memory),
    }
}

/// The bytes of a stripe's pages, each of which is read once.
pub fn stripe_bytes<P: Pages>(
    alloc: Global,
    pages: &mut P,
    block: u32,
    entry: &StripeInfo,
) -> Result<Vec<u8>, Unread>
    requires ready { P.ready pages.old block }
    requires near { entry.now.page + entry.now.pages < 2 ^ 52 }
    ensures bytes { IsTrue (P.tells pages.old) → IfOk result (λ bytes. bytes.items
        ≡ first_bytes (4096 * entry.now.pages)
        (drop (4096 * entry.now.page) (P.held pages.old block))) }
    ensures reads { RoseAtMost entry.now.pages (P.reads pages.old) (P.reads pages.new) }
    ensures only { OnlyReads P.tells P.held P.faults P.ready P.went P.name pages.old
        (is_unread result) pages.new }
{
    bytes_from(alloc, pages, block, entry.page, PAGE_BYTES * entry.pages)
}

/// The rows that the bytes of a stripe stand for by its entry. Offsets are counted from the first of these bytes.
pub fn stripe_rows(
    alloc: Global,
    form: u8,
    entry: &StripeInfo,
    part: &[u8],
) -> Result<Vec<Row>, Break>
    ensures { Answers (λ x. x.items) result (stripe_of form entry.now None part.now) }
{
    stripe(alloc, part, form, entry, &None)
}
