//! A scan of a block's stripes that stops and goes on.

ghost use Rattle.std.specs.Prelude.{◌≡◌, ◌*◌, ◌<◌, ◌≤◌, ◌++◌, IfOk, IfSome, IsSome, IsTrue, List, drop, false, length, take, true};
ghost use Rattle.span_types.specs.declared.spans.Row.{Row};
ghost use Rattle.block_format.specs.Blocks.{BlockHasInfo};
ghost use Rattle.block_read.specs.Answers.{RoseAtMost, is_fault};
ghost use Rattle.block_read.specs.Lookups.{IsInFile};
ghost use Rattle.block_read.specs.PageReads.{OnlyReads};
ghost use Rattle.column_scan.specs.Candidates.{HaveLatest, spans_of};
ghost use Rattle.column_scan.specs.Scans.{FindsFit, PartsRows, gone_through, is_enough, rows_between, scanned_pages};
ghost use Rattle.column_scan.specs.Sieves.{sifted_picks};

use crate::Pick;
use crate::parts::add_stripe;
use crate::sifters::Sifter;
use block_info::BlockInfo;
use block_read::{Pages, ReadError};
use span_types::TraceId;
use std::alloc::Global;

/// How far a block is gone through.
#[derive(Clone, Copy, Debug, PartialEq, Eq)]
pub struct Progress {
    /// The number of its next stripe.
    pub next: usize,
    /// The trace of the last row of the stripe before, if something of that one's rows was read.
    pub last: Option<TraceId>,
}

/// Adds the traces that have a sifted row in the stripes from one on, in the order of the rows, until there are enough
/// picks or no stripe is left. Without `most` there are never enough.
///
/// It reads as [`picks_of_block`](crate::picks_of_block) does, with the same errors. If it stops before the last
/// stripe, the trace is given up to which all rows are gone through, unless there were enough picks before.
pub fn scan_stripes<P: Pages>(
    alloc: Global,
    pages: &mut P,
    block: u32,
    info: &BlockInfo,
    from: usize,
    sifter: &mut Sifter<'_, '_>,
    most: Option<usize>,
    picks: &mut Vec<Pick>,
) -> Result<Progress, ReadError>
    requires { P.ready pages.old block }
    ensures answers { IsTrue (P.tells pages.old) → (rows : List Row)
        → BlockHasInfo info.now (P.held pages.old block) rows
        → FindsFit (λ progress. HaveLatest (picks.old.items ++ sifted_picks sifter.old
        (spans_of (rows_between from progress.next rows))) picks.new.items) result }
    ensures last { IsTrue (P.tells pages.old) → (rows : List Row)
        → BlockHasInfo info.now (P.held pages.old block) rows
        → IfOk result (λ progress. IfSome progress.last (λ id.
        PartsRows id (take (256 * progress.next) rows) (drop (256 * progress.next) rows))) }
    ensures onward { IfOk result (λ progress. from ≤ progress.next) }
    ensures some { IfOk result (λ progress. is_enough most (length picks.old.items) ≡ false
        → from < length info.now.stripes → from < progress.next) }
    ensures ends { IfOk result (λ progress. progress.next < length info.now.stripes
        → is_enough most (length picks.new.items) ≡ true) }
    ensures known { IfOk result (λ progress. from < progress.next
        → progress.next < length info.now.stripes → IsSome progress.last) }
    ensures same { sifter.new ≡ sifter.old }
    ensures its_file { IsInFile block result }
    ensures reads { RoseAtMost
        (scanned_pages sifter.old.hint (gone_through from result info.now.stripes))
        (P.reads pages.old) (P.reads pages.new) }
    ensures only { OnlyReads P.tells P.held P.faults P.ready P.went P.name
        pages.old (is_fault result) pages.new }
{
    let stripes = info.stripes.as_slice();
    let mut next = from;
    let mut last = None;
    'scan: while next < stripes.len() && !is_enough(most, picks.len()) {
        last = add_stripe(
            alloc,
            pages,
            block,
            info.form,
            &stripes[next],
            sifter,
            picks,
        )?;
        next += 1;
    }
    Ok(Progress { next, last })
}

// Whether so many picks are enough.
fn is_enough(most: Option<usize>, count: usize) -> bool
    ensures { result ≡ is_enough most count }
{
    match most {
        Some(most) => most <= count,
        None => false,
    }
}
