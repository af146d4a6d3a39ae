//! Picks that were found and not yet taken.

ghost use Rattle.std.specs.Prelude.{◌≡◌, ◌++◌, All, Contains, IfOk, false, filter, not, true};
ghost use Rattle.column_scan.specs.Candidates.{Ascend, IsCovered};
ghost use Rattle.query_fanout.specs.Rounds.{AreInBatches, AreParted, all_waiting, is_below, waiting};

use crate::reach::{Reach, is_below};
use column_scan::{Pick, in_order};
use span_types::Memory;
use std::alloc::Global;

/// Picks that were found at once. They ascend by trace, and those before `next` were taken.
#[derive(Drop)]
pub(crate) struct Batch {
    pub(crate) picks: Vec<Pick>,
    pub(crate) next: usize,
}

/// Picks that are parted: those that are taken, and those that go on waiting.
#[derive(Drop)]
pub(crate) struct Parted {
    pub(crate) few: Vec<Pick>,
    pub(crate) left: Vec<Batch>,
}

/// A batch of picks, but for those of traces that are gone through.
pub(crate) fn batch_of(alloc: Global, picks: Vec<Pick>, gone: Reach) -> Result<Batch, Memory>
    ensures ascend { IfOk result (λ batch. Ascend batch.picks.items) }
    ensures whole { IfOk result (λ batch. All (λ p. is_below gone p.trace ≡ false
        → IsCovered (waiting batch) p) picks.items) }
    ensures only { IfOk result (λ batch. All (Contains picks.items) (waiting batch)) }
    ensures above { IfOk result
        (λ batch. All (λ p. is_below gone p.trace ≡ false) (waiting batch)) }
{
    let all = in_order(alloc, picks)?;
    let picks = above(alloc, all.as_slice(), gone)?;
    Ok(Batch { picks, next: 0 })
}

// The picks of traces that aren't gone through.
fn above(alloc: Global, picks: &[Pick], gone: Reach) -> Result<Vec<Pick>, Memory>
    ensures { IfOk result
        (λ kept. kept.items ≡ filter (λ p. not (is_below gone p.trace)) picks.now) }
{
    let mut kept = Vec::new(alloc);
    for pick in picks {
        if !is_below(gone, pick.trace) {
            kept.push(*pick)?;
        }
    }
    Ok(kept)
}

/// Parts picks at a bound. Of each batch only its first ones are looked at.
pub(crate) fn part(alloc: Global, batches: Vec<Batch>, bound: Reach) -> Result<Parted, Memory>
    requires { AreInBatches batches.items }
    ensures parted { IfOk result (λ p.
        AreParted bound (all_waiting batches.items) p.few.items (all_waiting p.left.items)) }
    ensures batches { IfOk result (λ p. AreInBatches p.left.items) }
{
    let mut few = Vec::new(alloc);
    let mut left = Vec::new(alloc);
    for batch in batches {
        let rest = take_below(batch, bound, &mut few)?;
        if rest.next < rest.picks.len() {
            left.push(rest)?;
        }
    }
    Ok(Parted { few, left })
}

// Adds the picks of a batch that are below a bound, and leaves the others.
fn take_below(batch: Batch, bound: Reach, few: &mut Vec<Pick>) -> Result<Batch, Memory>
    requires { Ascend batch.picks.items }
    ensures same { IfOk result (λ rest.
        few.new.items ++ waiting rest ≡ few.old.items ++ waiting batch) }
    ensures ascend { IfOk result (λ rest. Ascend rest.picks.items) }
    ensures below { IfOk result (λ rest. All (λ p. is_below bound p.trace ≡ true) few.old.items
        → All (λ p. is_below bound p.trace ≡ true) few.new.items) }
    ensures above { IfOk result (λ rest. All (λ p. is_below bound p.trace ≡ false) (waiting rest)) }
{
    let mut next = batch.next;
    while next < batch.picks.len() && is_below(bound, batch.picks[next].trace) {
        few.push(batch.picks[next])?;
        next += 1;
    }
    Ok(Batch {
        picks: batch.picks,
        next,
    })
}
