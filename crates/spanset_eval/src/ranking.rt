//! Which results come first, when those of several traces stand together.

ghost use Rattle.std.specs.Prelude.{◌≡◌, IfOk};
ghost use Rattle.spanset_eval.specs.Ranking.{AreFirst, rank_cmp};

use crate::{Results, TraceResult};
use span_types::Memory;
use std::alloc::Global;
use std::cmp::Ordering;

// Which of two results comes first.
fn in_order(a: &TraceResult, b: &TraceResult) -> Ordering
    ensures { result ≡ rank_cmp a.now b.now }
{
    b.start.cmp(&a.start).then(a.trace.cmp(&b.trace))
}

/// The first results, at most so many: those that start latest, and of one start those of the least trace id.
pub fn rank(_alloc: Global, results: Results, limit: u32) -> Result<Results, Memory>
    ensures { IfOk result (AreFirst results limit) }
{
    let mut results = results.into_vec();
    results.sort_by(in_order)?;
    results.truncate(limit as usize);
    Ok(Results::of(results))
}
