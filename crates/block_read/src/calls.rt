//! The entry points: `trace_rows` and `check_bytes`, which the program calls, and `all_rows` and `check_block`, which tests do.

ghost use Rattle.std.specs.Prelude.{◌≡◌, ◌*◌, ◌≤◌, ℕ, IfOk, IsTrue, List};
ghost use Rattle.std.specs.Int.{div_ceil};
ghost use Rattle.rows_by_trace.specs.Traces.{rows_of_trace};
ghost use Rattle.span_fields.specs.Breaks.{Answers};
ghost use Rattle.span_types.specs.declared.spans.Row.{Row};
ghost use Rattle.block_format.specs.Blocks.{BlockHasInfo};
ghost use Rattle.block_format.specs.Headers.{CanBeHeader};
ghost use Rattle.block_read.specs.Answers.{AnswersOf, FailsByFault, RoseAtMost, StaysSame, is_fault, made_of};
ghost use Rattle.block_read.specs.Lookups.{Finds, IsInFile, most_pages};
ghost use Rattle.block_read.specs.PageReads.{HasRead};
ghost use Rattle.block_read.specs.BlockReadings.{block_at, info_read, listed_at};
ghost use Rattle.block_read.specs.Files.{first_bytes};

use crate::block::block_of;
use crate::checking::listed_info;
use crate::file::{Unread, bytes_from};
use crate::lookup::find_trace;
use crate::traces::rows_at;
use crate::{Pages, ReadError};
use block_info::{BlockInfo, PAGE_BYTES};
use span_fields::Break;
use span_types::{Rows, TraceId};
use std::alloc::Global;

/// All rows of a block, in block order. It has as many pages as its information says, and each is read once.
///
/// [`ReadError::NotBlock`] comes exactly where these pages are no block, at the first byte of the file where they are
/// malformed.
pub fn all_rows<P: Pages>(
    alloc: Global,
    pages: &mut P,
    block: u32,
    info: &BlockInfo,
) -> Result<Rows, ReadError>
    requires { P.ready pages.old block }
    ensures answers { IsTrue (P.tells pages.old) → AnswersOf (λ x. x) block result
        (made_of (λ b. b.rows)
        (block_at (first_bytes (4096 * info.now.pages) (P.held pages.old block)))) }
    ensures its_file { IsInFile block result }
    ensures reads { RoseAtMost info.now.pages (P.reads pages.old) (P.reads pages.new) }
    ensures read { HasRead P.went pages.old (is_fault result) pages.new }
    ensures ready { (other : ℕ) → P.ready pages.old other → P.ready pages.new other }
    ensures named { P.name pages.new ≡ P.name pages.old }
    ensures stays { StaysSame P.tells P.held pages.old pages.new }
    ensures later { P.faults pages.old ≤ P.faults pages.new }
    ensures cause { FailsByFault (P.faults pages.old) (P.faults pages.new) result }
{
    match bytes_from(alloc, pages, block, 0, PAGE_BYTES * info.pages) {
        Ok(bytes) => match block_of(alloc, bytes.as_slice()) {
            Ok(found) => Ok(found.rows),
            Err(Break::At(at)) => Err(ReadError::NotBlock { file: block, at }),
            Err(Break::Memory) => Err(ReadError::Memory),
        },
        Err(Unread::Fault) => Err(ReadError::Fault),
        Err(Unread::Memory) => Err(ReadError::Memory),
    }
}

/// The rows of a trace in a block, in block order, by the block's filters, its index and the stripes that hold the trace.
///
/// Of a block that the information describes no more pages are read in all than one of the filters, as many of the index
/// as the number of its pages has binary digits, and those of the stripes that hold the trace. Of other pages it may give
/// any rows of the trace, or answer [`ReadError::NotBlock`]; no clause says at which offset.
pub fn trace_rows<P: Pages>(
    alloc: Global,
    pages: &mut P,
    block: u32,
    info: &BlockInfo,
    id: TraceId,
) -> Result<Rows, ReadError>
    requires { P.ready pages.old block }
    ensures answers { IsTrue (P.tells pages.old) → (rows : List Row)
        → BlockHasInfo info.now (P.held pages.old block) rows
        → Finds (rows_of_trace id rows) result }
    ensures of_trace { IfOk result (λ rows. rows_of_trace id rows ≡ rows) }
    ensures reads { IsTrue (P.tells pages.old) → (rows : List Row)
        → BlockHasInfo info.now (P.held pages.old block) rows
        → RoseAtMost (most_pages info.now id rows) (P.reads pages.old) (P.reads pages.new) }
    ensures its_file { IsInFile block result }
    ensures read { HasRead P.went pages.old (is_fault result) pages.new }
    ensures ready { (other : ℕ) → P.ready pages.old other → P.ready pages.new other }
    ensures named { P.name pages.new ≡ P.name pages.old }
    ensures stays { StaysSame P.tells P.held pages.old pages.new }
    ensures later { P.faults pages.old ≤ P.faults pages.new }
    ensures cause { FailsByFault (P.faults pages.old) (P.faults pages.new) result }
{
    match find_trace(pages, block, info, id) {
        Ok(Some((first, count))) => rows_at(alloc, pages, block, info, id, first, count),
        Ok(None) => Ok(Rows::none(alloc)),
        Err(_) => Err(ReadError::Fault),
    }
}

/// The information of the block that the first `length` bytes of a file are, by its level, where its list entry says so
/// many rows. Each of the pages of these bytes is read once.
///
/// [`ReadError::NotBlock`] comes exactly where these bytes are no such block, at the first byte where they are
/// malformed.
pub fn check_block<P: Pages>(
    alloc: Global,
    pages: &mut P,
    block: u32,
    level: u8,
    rows: u32,
    length: u64,
) -> Result<BlockInfo, ReadError>
    requires { P.ready pages.old block }
    ensures answers { IsTrue (P.tells pages.old) → AnswersOf (λ x. x) block result
        (made_of (info_read block level)
        (listed_at rows (first_bytes length (P.held pages.old block)))) }
    ensures its_file { IsInFile block result }
    ensures reads { RoseAtMost (div_ceil length 4096) (P.reads pages.old) (P.reads pages.new) }
    ensures read { HasRead P.went pages.old (is_fault result) pages.new }
    ensures ready { (other : ℕ) → P.ready pages.old other → P.ready pages.new other }
    ensures named { P.name pages.new ≡ P.name pages.old }
    ensures stays { StaysSame P.tells P.held pages.old pages.new }
    ensures later { P.faults pages.old ≤ P.faults pages.new }
    ensures cause { FailsByFault (P.faults pages.old) (P.faults pages.new) result }
{
    match bytes_from(alloc, pages, block, 0, length) {
        Ok(bytes) => match check_bytes(alloc, block, level, rows, bytes.as_slice()) {
            Ok(info) => Ok(info),
            Err(Break::At(at)) => Err(ReadError::NotBlock { file: block, at }),
            Err(Break::Memory) => Err(ReadError::Memory),
        },
        Err(Unread::Fault) => Err(ReadError::Fault),
        Err(Unread::Memory) => Err(ReadError::Memory),
    }
}

/// The information of the block that these bytes are, by its file and its level, where its list entry says so many rows.
///
/// [`Break::At`] comes exactly where they are no such block, at the first byte where they are malformed.
pub fn check_bytes(
    alloc: Global,
    block: u32,
    level: u8,
    rows: u32,
    bytes: &[u8],
) -> Result<BlockInfo, Break>
    ensures answers { Answers (λ x. x) result
        (made_of (info_read block level) (listed_at rows bytes.now)) }
    ensures named { IfOk result
        (λ info. (info.file ≡ block) × (info.level ≡ level) × (info.rows ≡ rows)) }
    // The bytes stand for rows that it describes.
    ensures described { IfOk result
        (λ info. (found : List Row) × BlockHasInfo info bytes.now found) }
{
    listed_info(alloc, bytes, block, level, rows)
}
