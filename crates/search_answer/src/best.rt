//! The best results so far, where results are made a few traces at a time.

ghost use Rattle.std.specs.Prelude.{◌≡◌, ◌≤◌, [], ◌∷◌, ◌++◌, IfOk, false, length};
ghost use Rattle.spanset_eval.specs.Ranking.{AreFirst};
ghost use Rattle.spanset_eval.specs.declared.results.TraceResult.{TraceResult as AnyResult};
ghost use Rattle.search_answer.specs.Best.{NoneGoesBefore};
ghost use Rattle.search_answer.specs.Keeping.{may_come, ranks_after};

use span_types::{Memory, TraceId};
use spanset_eval::{Results, TraceResult, rank};
use std::alloc::Global;
use std::marker::Model;

/// The first of all results that were added, at most so many.
#[derive(Drop)]
pub struct Best {
    limit: u32,
    kept: Results,
}

impl Model for Best {
    ghost use Rattle.std.specs.Prelude.{length, ◌≤◌};
    ghost use Rattle.std.specs.List.Sorted.{IsSorted};
    ghost use Rattle.spanset_eval.specs.Ranking.{rank_cmp};
    ghost use Rattle.search_answer.specs.Keeping.{BestParts};

    ghost Value = { BestParts };

    ghost view = { λ b. record { limit = b.limit; kept = b.kept } };

    ghost invariant = { λ b. (length b.kept ≤ b.limit) × IsSorted rank_cmp b.kept };
}

impl Best {
    /// No results yet, of which so many are kept.
    pub fn new(alloc: Global, limit: u32) -> Best
        ensures { result ≡ record { limit = limit; kept = [] } }
    {
        Best {
            limit,
            kept: Results::none(alloc),
        }
    }

    /// The best of these and of more results. The one error is out of memory.
    pub fn with(self, alloc: Global, more: Results) -> Result<Best, Memory>
        ensures limit { IfOk result (λ best. best.limit ≡ self.limit) }
        ensures first { IfOk result (λ best. AreFirst (self.kept ++ more) self.limit best.kept) }
    {
        let all = joined(self.kept, more)?;
        let kept = rank(alloc, all, self.limit)?;
        Ok(Best {
            limit: self.limit,
            kept,
        })
    }

    /// Whether a result of the trace that starts at that moment, in nanoseconds since 1970, or earlier can come among
    /// the best.
    pub fn may_take(&self, trace: TraceId, latest: u64) -> bool
        ensures is { result ≡ may_come self.now trace latest }
        ensures full { result ≡ false → length self.now.kept ≡ self.now.limit }
        ensures kept_out { result ≡ false → (r : AnyResult) → r.trace ≡ trace → r.start ≤ latest
            → NoneGoesBefore self.now.kept (r ∷ []) }
    {
        if self.kept.len() < self.limit as usize {
            return true;
        }
        match self.kept.as_slice().last() {
            None => false,
            Some(last) => !ranks_after(trace, latest, last),
        }
    }

    /// The best results, in their order.
    pub fn into_results(self) -> Results
        ensures { result ≡ self.kept }
    {
        self.kept
    }
}

// The results of two lists.
fn joined(results: Results, more: Results) -> Result<Results, Memory>
    ensures { IfOk result (λ all. all ≡ results ++ more) }
{
    let mut all = results.into_vec();
    let mut more = more.into_vec();
    all.append(&mut more)?;
    Ok(Results::of(all))
}

// Whether each result of the trace that starts at that moment or earlier ranks after this one.
fn ranks_after(trace: TraceId, latest: u64, best: &TraceResult) -> bool
    ensures { result ≡ ranks_after trace latest best.now }
{
    latest < best.start || (best.start == latest && best.trace.cmp(&trace).is_lt())
}
