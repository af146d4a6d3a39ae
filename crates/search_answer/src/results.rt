//! The results of traces that were ranked: each is evaluated in turn, until as many have a result as are asked for.

ghost use Rattle.std.specs.Prelude.{◌≡◌, All, IfOk};
ghost use Rattle.span_tree.specs.Nodes.{IsOneTrace};
ghost use Rattle.traceql_syntax.specs.Trees.{query_tree};
ghost use Rattle.traceql_value.specs.EvalContexts.{matchers_patterns};
ghost use Rattle.search_answer.specs.InRange.{rows_of_each};
ghost use Rattle.search_answer.specs.Parts.{AreFirstAnswers};

use crate::traces::extend;
use crate::{Bounds, TraceInRange};
use span_types::Memory;
use spanset_eval::{TraceResult, evaluate_rows};
use std::alloc::Global;
use traceql_types::Checked;
use traceql_value::Matchers;

/// The results of the first `limit` of these traces of which the query answers something, in their order, with the
/// first `spans_per_set` spans of each spanset. No trace after them is evaluated, and none twice.
///
/// The matchers are those of the query's patterns. The one error is out of memory.
pub fn first_results(
    alloc: Global,
    checked: &Checked,
    matchers: Matchers<'_>,
    bounds: Bounds,
    traces: &[TraceInRange<'_>],
) -> Result<Vec<TraceResult>, Memory>
    requires one { All (λ t. IsOneTrace t.rows.now) traces.now }
    requires patterns { matchers_patterns matchers ≡ checked.now.patterns }
    ensures { IfOk result (λ found. AreFirstAnswers checked.now.patterns
        (query_tree checked.now.query) bounds (rows_of_each traces.now) found.items) }
{
    let mut matchers = matchers;
    let mut found = Vec::new(alloc);
    for trace in traces {
        if found.len() >= bounds.limit as usize {
            return Ok(found);
        }
        let most = bounds.spans_per_set as usize;
        let (more, same) = evaluate_rows(alloc, checked, matchers, trace.rows, most);
        matchers = same;
        extend(&mut found, more?)?;
    }
    Ok(found)
}
