//! The rows of a trace, of the stripes where they are.

ghost use Rattle.std.specs.Prelude.{◌≡◌, ◌+◌, ◌*◌, ◌/◌, ◌^◌, ◌<◌, ◌++◌, IfOk, IsTrue, List, OnOk};
ghost use Rattle.std.specs.Int.{div_ceil};
ghost use Rattle.span_types.specs.declared.spans.Row.{Row};
ghost use Rattle.rows_by_trace.specs.Traces.{rows_of_trace};
ghost use Rattle.block_format.specs.Blocks.{StripeHasEntry};
ghost use Rattle.block_read.specs.Answers.{RoseAtMost, is_fault};
ghost use Rattle.block_read.specs.Files.{part_of};
ghost use Rattle.block_read.specs.Lookups.{Adds, Finds, HasTrace, IsInFile, pages_with};
ghost use Rattle.block_read.specs.PageReads.{OnlyReads};

use crate::parts::traces_of_part;
use crate::stripes::add;
use crate::{Pages, ReadError};
use block_info::{BlockInfo, StripeInfo};
use span_types::{Row, Rows, TraceId};
use std::alloc::Global;

/// The rows of a trace, of which the block has so many from that one on. Only the stripes with these rows are read.
///
/// [`ReadError::NotBlock`] comes as in [`traces_of_part`], or at 0 if the block has no such rows.
pub fn rows_at<P: Pages>(
    alloc: Global,
    pages: &mut P,
    block: u32,
    info: &BlockInfo,
    id: TraceId,
    first: u32,
    count: u32,
) -> Result<Rows, ReadError>
    requires { P.ready pages.old block }
    ensures answers { IsTrue (P.tells pages.old) → (rows : List Row)
        → HasTrace info.now (P.held pages.old block) id first count rows
        → Finds (rows_of_trace id rows) result }
    ensures of_trace { IfOk result (λ rows. rows_of_trace id rows ≡ rows) }
    ensures reads { IsTrue (P.tells pages.old) → (rows : List Row)
        → HasTrace info.now (P.held pages.old block) id first count rows
        → RoseAtMost (pages_with id info.now.stripes rows) (P.reads pages.old) (P.reads pages.new) }
    ensures its_file { IsInFile block result }
    ensures only { OnlyReads P.tells P.held P.faults P.ready P.went P.name pages.old
        (is_fault result) pages.new }
{
    let stripes = info.stripes.as_slice();
    let (from, to) = stripes_of(first, count);
    if to > stripes.len() {
        return Err(ReadError::NotBlock { file: block, at: 0 });
    }
    let mut found = Vec::new(alloc);
    for number in from..to {
        add_stripe(
            alloc,
            pages,
            block,
            info.form,
            &stripes[number],
            id,
            &mut found,
        )?;
    }
    Ok(Rows::of(found))
}

/// The numbers of the first stripe that has one of so many rows from that one on, and of the first stripe after them:
/// each stripe but the last has 256 rows.
pub fn stripes_of(first: u32, count: u32) -> (usize, usize)
    ensures from { result.0 ≡ first / 256 }
    ensures to { result.1 ≡ div_ceil (first + count) 256 }
{
    let end = u64::from(first) + u64::from(count);
    (first as usize / 256, end.div_ceil(256) as usize)
}

/// Adds the rows of the trace that a stripe has.
fn add_stripe<P: Pages>(
    alloc: Global,
    pages: &mut P,
    block: u32,
    form: u8,
    entry: &StripeInfo,
    id: TraceId,
    found: &mut Vec<Row>,
) -> Result<(), ReadError>
    requires ready { P.ready pages.old block }
    requires near { entry.now.page + entry.now.pages < 2 ^ 52 }
    ensures answers { IsTrue (P.tells pages.old) → (rows : List Row)
        → StripeHasEntry form entry.now
        (part_of entry.now.page entry.now.pages (P.held pages.old block)) rows
        → Adds (rows_of_trace id rows) found.old.items found.new.items result }
    ensures of_trace { OnOk result (rows_of_trace id found.old.items ≡ found.old.items
        → rows_of_trace id found.new.items ≡ found.new.items) }
    ensures its_file { IsInFile block result }
    ensures reads { RoseAtMost entry.now.pages (P.reads pages.old) (P.reads pages.new) }
    ensures only { OnlyReads P.tells P.held P.faults P.ready P.went P.name pages.old
        (is_fault result) pages.new }
{
    match traces_of_part(alloc, pages, block, form, entry, &[id]) {
        Ok(part) => match add(found, part.rows) {
            Ok(()) => Ok(()),
            Err(_) => Err(ReadError::Memory),
        },
        Err(e) => Err(e),
    }
}
