//! The entry point: rows to the answer of a search, all at once. `query_fanout` calls it for the rows of a few traces
//! at a time.

ghost use Rattle.std.specs.Prelude.{List, IfOk};
ghost use Rattle.span_types.specs.First.{IsFirstOf};
ghost use Rattle.span_types.specs.declared.spans.Row.{Row};
ghost use Rattle.search_answer.specs.Answers.{IsAnswerTo};

use crate::{Bounds, first_results, rank_traces, traces_in_range};
use moment_range::Range;
use span_types::{Memory, Row};
use spanset_eval::Results;
use std::alloc::Global;
use traceql_types::Checked;
use traceql_value::Matchers;

/// What a search shows: one result for each trace of which a span starts in the range and of which the query answers
/// something; of these the first `limit`, the latest start first and of one start by trace id; and of each spanset the
/// first `spans_per_set` spans.
///
/// The rows are first occurrences in block order. The traces in the range are ranked before any is evaluated, and are
/// then evaluated in that order, each once and whole, until there are as many results as are shown: so a trace of
/// which nothing is shown costs no copy, and one that comes after the last result no evaluation. What searches for the
/// query's patterns is made once. The one error is out of memory.
pub fn answer(
    alloc: Global,
    checked: &Checked,
    range: Range,
    bounds: Bounds,
    rows: &[Row],
) -> Result<Results, Memory>
    requires { (all : List Row) × IsFirstOf all rows.now }
    ensures { IfOk result (IsAnswerTo checked.now range bounds rows.now) }
{
    let found = traces_in_range(alloc, range, rows)?;
    let traces = rank_traces(found);
    let matchers = Matchers::of(alloc, checked)?;
    let results = first_results(alloc, checked, matchers, bounds, traces.as_slice())?;
    Ok(Results::of(results))
}
