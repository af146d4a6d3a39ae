//! The traces that have sifted spans, of spans in memory; and lists of picks in order, each trace once.

ghost use Rattle.std.specs.Prelude.{◌≡◌, ◌++◌, [], ◌∷◌, All, IfOk, OnOk, map, true};
ghost use Rattle.std.specs.List.Sorted.{IsPermutation, IsSorted};
ghost use Rattle.column_scan.specs.Candidates.{Ascend, HaveLatest, pick_of};
ghost use Rattle.column_scan.specs.Picking.{is_not_after, later_of, pick_cmp};
ghost use Rattle.column_scan.specs.Sieves.{AreSifted, sifted_picks};

use crate::Sieve;
use crate::sifters::Sifter;
use span_types::{Memory, Span, TraceId};
use std::alloc::Global;
use std::cmp::Ordering;

/// A trace that has a sifted span.
#[derive(Clone, Copy, Debug, PartialEq, Eq)]
pub struct Pick {
    /// The trace.
    pub trace: TraceId,
    /// The latest start among its sifted spans, in nanoseconds since 1970.
    pub latest: u64,
}

/// The traces that have a sifted span, each once, in ascending order. The one error is out of memory.
pub fn picks_of_spans(
    alloc: Global,
    sieve: &Sieve<'_>,
    spans: &[&Span],
) -> Result<Vec<Pick>, Memory>
    ensures { IfOk result (λ picks.
        AreSifted sieve.now (map (λ s. s.now) spans.now) picks.items) }
{
    let mut sifter = Sifter::of(alloc, sieve)?;
    let mut picks = Vec::new(alloc);
    for span in spans {
        add_sifted(&mut sifter, span, &mut picks)?;
    }
    let all = in_order(alloc, picks)?;
    Ok(all)
}

// Adds the trace of a span that is sifted.
pub(crate) fn add_sifted(
    sifter: &mut Sifter<'_, '_>,
    span: &Span,
    picks: &mut Vec<Pick>,
) -> Result<(), Memory>
    ensures found { OnOk result (HaveLatest
        (picks.old.items ++ sifted_picks sifter.old (span.now ∷ [])) picks.new.items) }
    ensures same { sifter.new ≡ sifter.old }
{
    if sifter.holds(span)? {
        add(picks, pick_of(span))?;
    }
    Ok(())
}

// What a span picks if it is sifted.
fn pick_of(span: &Span) -> Pick
    ensures { result ≡ pick_of span.now }
{
    Pick {
        trace: span.trace,
        latest: span.start,
    }
}

/// Each trace of these once, in ascending order, with the latest moment that they give it. The one error is want of
/// memory.
pub fn in_order(alloc: Global, picks: Vec<Pick>) -> Result<Vec<Pick>, Memory>
    ensures latest { IfOk result (λ all. HaveLatest picks.items all.items) }
    ensures ascending { IfOk result (λ all. Ascend all.items) }
{
    let ranked = sorted(picks);
    let mut all = Vec::new(alloc);
    for pick in ranked.as_slice() {
        add(&mut all, *pick)?;
    }
    Ok(all)
}

// The picks in order of trace.
fn sorted(picks: Vec<Pick>) -> Vec<Pick>
    ensures same { IsPermutation picks.items result.items }
    ensures sorted { IsSorted pick_cmp result.items }
{
    let mut ranked = picks;
    ranked.sort_unstable_by(by_trace);
    ranked
}

// Which of two picks comes first.
fn by_trace(a: &Pick, b: &Pick) -> Ordering
    ensures { result ≡ pick_cmp a.now b.now }
{
    a.trace.cmp(&b.trace)
}

// Adds a pick. If it is of the last one's trace the later of the two stays.
pub(crate) fn add(picks: &mut Vec<Pick>, pick: Pick) -> Result<(), Memory>
    ensures latest { OnOk result (HaveLatest (picks.old.items ++ pick ∷ []) picks.new.items) }
    ensures order { OnOk result (Ascend picks.old.items
        → All (λ p. is_not_after p pick ≡ true) picks.old.items → Ascend picks.new.items) }
{
    let Some(last) = picks.pop() else {
        picks.push(pick)?;
        return Ok(());
    };
    if by_trace(&last, &pick).is_eq() {
        picks.push(later(last, pick))?;
        return Ok(());
    }
    picks.push(last)?;
    picks.push(pick)?;
    Ok(())
}

// The later of two.
fn later(a: Pick, b: Pick) -> Pick
    ensures { result ≡ later_of a b }
{
    if a.latest < b.latest { b } else { a }
}
