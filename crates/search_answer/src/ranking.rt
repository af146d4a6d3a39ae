//! In which order a search shows traces.

ghost use Rattle.std.specs.Prelude.{◌≡◌};
ghost use Rattle.std.specs.List.Sorted.{IsPermutation, IsSorted};
ghost use Rattle.search_answer.specs.InRange.{trace_rank_cmp};

use crate::TraceInRange;
use std::cmp::Ordering;

// Which of two traces comes first.
fn in_order(a: &TraceInRange<'_>, b: &TraceInRange<'_>) -> Ordering
    ensures { result ≡ trace_rank_cmp a.now b.now }
{
    b.start.cmp(&a.start).then(a.trace.cmp(&b.trace))
}

/// The traces in the order in which a search shows them: the latest start first, and of one start by trace id. A
/// trace's result has its start and its id, so results that are made in this order need no ranking. It takes no
/// memory.
pub fn rank_traces<'r>(traces: Vec<TraceInRange<'r>>) -> Vec<TraceInRange<'r>>
    ensures same { IsPermutation traces.entry.items result.items }
    ensures sorted { IsSorted trace_rank_cmp result.items }
{
    let mut ranked = traces;
    ranked.sort_unstable_by(in_order);
    ranked
}
