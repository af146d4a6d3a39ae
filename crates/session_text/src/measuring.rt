//! What a metrics query's line asks, from its parts: the query is parsed, gets a stage `by` if it splits, is checked,
//! and its patterns are made.

ghost use Rattle.std.specs.Prelude.{◌≡◌, ◌<◌, ◌≤◌, ℕ, List, IfOk, IfErr};
ghost use Rattle.traceql_metrics.specs.Series.{bucket_count, most_buckets};
ghost use Rattle.traceql_syntax.specs.Refusals.{IsMetricsRefusal};
ghost use Rattle.traceql_syntax.specs.Trees.{metrics_tree, query_tree};
ghost use Rattle.traceql_types.specs.Makers.{RefusesOnly};
ghost use Rattle.session_text.specs.Searches.{IsMetricsQuery, IsNoQuery, IsRun, MeasuresLine};
ghost use Rattle.session_text.specs.Parsed.{steps_parsed};

use crate::metrics_line::MetricsLine;
use crate::searching::{fitted, of_parse};
use crate::{Metrics, Refusal};
use span_types::Memory;
use std::alloc::Global;
use traceql_parse::parse_metrics;
use traceql_syntax::{MetricsQuery, Query};
use traceql_types::PatternMaker;

/// The query that is run for a metrics query.
#[derive(Drop)]
struct RunQuery {
    /// The query, with the stage `by` after it if its spans are split.
    query: Query,
    /// Whether a rate for a second is shown.
    rate: bool,
}

/// The metrics query that a text is.
fn metrics_query_of(alloc: Global, text: &str) -> Result<MetricsQuery, Refusal>
    ensures query { IfOk result (λ m. IsMetricsQuery text.now (metrics_tree m)) }
    ensures refused { IfErr result (IsNoQuery IsMetricsRefusal text.now) }
{
    match parse_metrics(alloc, text) {
        Ok(asked) => Ok(asked),
        Err(error) => Err(of_parse(error)),
    }
}

/// The query that is run for the text of a metrics query.
fn run_query_of(alloc: Global, text: &str) -> Result<RunQuery, Refusal>
    ensures query { IfOk result (λ found. IsRun text.now found.rate (query_tree found.query)) }
    ensures refused { IfErr result (IsNoQuery IsMetricsRefusal text.now) }
{
    let asked = metrics_query_of(alloc, text)?;
    let rate = asked.rate;
    match asked.into_query() {
        Ok(query) => Ok(RunQuery { query, rate }),
        Err(Memory) => Err(Refusal::Memory),
    }
}

/// The metrics query that a line asks for.
pub(crate) fn metrics<P: PatternMaker>(
    alloc: Global,
    line: MetricsLine<'_>,
    maker: &mut P,
) -> Result<Metrics, Refusal>
    requires ordered { line.start < line.end }
    requires stepped { 0 < line.step }
    requires few { bucket_count line.start line.end line.step ≤ most_buckets }
    ensures { (refused : List (List ℕ)) × RefusesOnly P.makes maker.old maker.new refused
        × MeasuresLine (steps_parsed line.entry) refused result }
{
    let found = run_query_of(alloc, line.query)?;
    let checked = fitted(alloc, found.query, maker)?;
    Ok(Metrics {
        checked,
        rate: found.rate,
        start: line.start,
        end: line.end,
        step: line.step,
    })
}
