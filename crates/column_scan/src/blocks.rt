//! A block at once: the traces that have sifted spans, all stripes in one go. `scans` does the same in parts, as a
//! search does it.

ghost use Rattle.std.specs.Prelude.{◌≡◌, IfOk, IsTrue, List, map};
ghost use Rattle.span_types.specs.declared.spans.Row.{Row};
ghost use Rattle.block_format.specs.Blocks.{BlockHasInfo};
ghost use Rattle.block_read.specs.Answers.{RoseAtMost, is_fault};
ghost use Rattle.block_read.specs.Lookups.{IsInFile};
ghost use Rattle.block_read.specs.PageReads.{OnlyReads};
ghost use Rattle.column_scan.specs.Candidates.{AreCandidates, spans_of};
ghost use Rattle.column_scan.specs.Scans.{FindsFit, scanned_pages};
ghost use Rattle.column_scan.specs.Sieves.{AreSifted};

use crate::scans::scan_stripes;
use crate::sifters::Sifter;
use crate::{Hint, Pick, Sieve, in_order};
use block_info::BlockInfo;
use block_read::{Pages, ReadError};
use span_types::{Ids, Memory, TraceId, TryCopy};
use std::alloc::Global;

/// The ids of the traces that have a hinted row in a block, each once, in ascending order. It reads as
/// [`picks_of_block`] does, with the same errors.
pub fn candidates<P: Pages>(
    alloc: Global,
    pages: &mut P,
    block: u32,
    info: &BlockInfo,
    hint: &Hint,
) -> Result<Ids, ReadError>
    requires { P.ready pages.old block }
    ensures answers { IsTrue (P.tells pages.old) → (rows : List Row)
        → BlockHasInfo info.now (P.held pages.old block) rows
        → FindsFit (AreCandidates hint.now (spans_of rows)) result }
    ensures its_file { IsInFile block result }
    ensures reads { RoseAtMost (scanned_pages hint.now info.now.stripes)
        (P.reads pages.old) (P.reads pages.new) }
    ensures only { OnlyReads P.tells P.held P.faults P.ready P.went P.name
        pages.old (is_fault result) pages.new }
{
    let Ok(copy) = hint.copy() else {
        return Err(ReadError::Memory);
    };
    match picks_of_block(alloc, pages, block, info, &Sieve::by_hint(alloc, copy)) {
        Ok(picks) => match traces_of(alloc, picks.as_slice()) {
            Ok(traces) => Ok(Ids::of(traces)),
            Err(_) => Err(ReadError::Memory),
        },
        Err(e) => Err(e),
    }
}

// The traces of picks, in their order.
fn traces_of(alloc: Global, picks: &[Pick]) -> Result<Vec<TraceId>, Memory>
    ensures { IfOk result (λ traces. traces.items ≡ map (λ p. p.trace) picks.now) }
{
    let mut traces = Vec::new(alloc);
    for pick in picks {
        traces.push(pick.trace)?;
    }
    Ok(traces)
}

/// The traces that have a sifted row in a block, each once, in ascending order.
///
/// With a text each stripe is read, without one those of which a moment can be in the range, each page once.
/// [`ReadError::NotBlock`] comes only if the pages are no block that the information describes, at the first byte of
/// the file where a stripe is malformed whose rows had to be made. A malformed stripe may be passed over.
pub fn picks_of_block<P: Pages>(
    alloc: Global,
    pages: &mut P,
    block: u32,
    info: &BlockInfo,
    sieve: &Sieve<'_>,
) -> Result<Vec<Pick>, ReadError>
    requires { P.ready pages.old block }
    ensures answers { IsTrue (P.tells pages.old) → (rows : List Row)
        → BlockHasInfo info.now (P.held pages.old block) rows
        → FindsFit (λ picks. AreSifted sieve.now (spans_of rows) picks.items) result }
    ensures its_file { IsInFile block result }
    ensures reads { RoseAtMost (scanned_pages sieve.now.hint info.now.stripes)
        (P.reads pages.old) (P.reads pages.new) }
    ensures only { OnlyReads P.tells P.held P.faults P.ready P.went P.name
        pages.old (is_fault result) pages.new }
{
    let Ok(mut sifter) = Sifter::of(alloc, sieve) else {
        return Err(ReadError::Memory);
    };
    let mut picks = Vec::new(alloc);
    scan_stripes(alloc, pages, block, info, 0, &mut sifter, None, &mut picks)?;
    match in_order(alloc, picks) {
        Ok(all) => Ok(all),
        Err(_) => Err(ReadError::Memory),
    }
}
