//! A search over rows in memory, its traces evaluated in threads.

ghost use Rattle.std.specs.Prelude.{List, IfOk};
ghost use Rattle.span_types.specs.First.{IsFirstOf};
ghost use Rattle.span_types.specs.declared.spans.Row.{Row};
ghost use Rattle.search_answer.specs.Answers.{IsAnswerTo};

use crate::first_results;
use moment_range::Range;
use search_answer::{Bounds, rank_traces, traces_in_range};
use span_types::{Memory, Row};
use spanset_eval::Results;
use std::alloc::Global;
use std::thread::Threads;
use traceql_types::Checked;

/// What a search shows: just what `search_answer::answer` gives, with its traces evaluated in threads.
///
/// The rows are first occurrences in block order. The traces in the range are ranked before any is evaluated, and are
/// then evaluated in that order, each once and whole, until there are as many results as are shown. The one error is
/// out of memory.
pub fn answer<R: Threads + Sync>(
    rt: &R,
    alloc: Global,
    checked: &Checked,
    range: Range,
    bounds: Bounds,
    rows: &[Row],
) -> Result<Results, Memory>
    requires { (all : List Row) × IsFirstOf all rows.now }
    ensures { IfOk result (IsAnswerTo checked.now range bounds rows.now) }
{
    let found = traces_in_range(alloc, range, rows)?;
    let traces = rank_traces(found);
    let results = first_results(rt, alloc, checked, bounds, traces.as_slice())?;
    Ok(Results::of(results))
}
