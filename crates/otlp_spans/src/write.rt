//! Writing a trace.

ghost use Rattle.std.specs.Prelude.{◌≡◌, ◌<◌, ◌≤◌, [], ◌∷◌, All, IfOk, Ok, OnOk, Some, length, map};
ghost use Rattle.serde_json.specs.View.{view};
ghost use Rattle.otlp_spans.specs.Json.{json_of};
ghost use Rattle.span_runs.specs.Runs.{as_run, of_one, runs};
ghost use Rattle.span_types.specs.declared.limits.TheConstants.{MOST_SPANS};
ghost use Rattle.otlp_spans.specs.Fits.{FitsResourceRun, FitsScopeRun, FitsSpan, FitsTrace};
ghost use Rattle.otlp_spans.specs.Reading.{reading_of};
ghost use Rattle.otlp_spans.specs.Writing.{list_json, resource_spans_json, scope_spans_json, span_json, spans_in, trace_json, trace_text};

use crate::values::{list, resource, scope};
use serde_json::{Value, json};
use span_runs::{Origin, first_run};
use span_types::{Memory, Resource, Row, Rows, Scope, Text};
use std::alloc::Global;

/// The text of a trace: an OTLP/JSON request of the rows' spans in their order, as compact JSON with ascending keys.
///
/// Neighbouring rows of one resource share a member of `resourceSpans`, and in it neighbours of one scope share a member of
/// `scopeSpans`. Rows that others separate don't. Ids are lower-case hexadecimal digits, with an
/// empty text for no parent. Moments and whole-number attributes are decimal texts, and kind and status code are numbers.
/// A span has `events` and `links` only where it has some.
///
/// The rows of a trace come in order of start, then span id; they are written as they stand. No rows give
/// `{"resourceSpans":[]}`, which [`read_line`](crate::read_line) reads as no spans. At most 16,384 rows are read
/// back from the text as they were. The one error is out of memory.
#[tactic(auto, unfolding(crate::specs::Writing::trace_text))]
pub fn write_trace(alloc: Global, rows: &Rows) -> Result<Text, Memory>
    ensures text { IfOk result (λ t. t ≡ trace_text (spans_in rows.now)) }
    ensures json { IfOk result (λ t. json_of t ≡ Some (trace_json (spans_in rows.now))) }
    ensures reads_back { length rows.now ≤ MOST_SPANS
        → IfOk result (λ t. reading_of t
        ≡ Ok (record { spans = spans_in rows.now; rejected = 0; skipped = 0 })) }
{
    let value = trace(alloc, rows.as_slice())?;
    Ok(Text::of(value.to_string(alloc)?))
}

/// A trace's value.
#[tactic(auto, unfolding(crate::specs::Writing::trace_json))]
fn trace(alloc: Global, rows: &[Row]) -> Result<Value, Memory>
    ensures json { IfOk result (λ v. view v ≡ trace_json (spans_in rows.now)) }
    ensures fits { OnOk result (FitsTrace (spans_in rows.now)) }
{
    let list = run_list::<Resource>(alloc, rows)?;
    Ok(json!(in alloc; {"resourceSpans": list})?)
}

/// What a run of spans of one resource, or of one scope, is in JSON.
trait RunJson: Origin {
    ghost use Rattle.std.specs.Prelude.{List};
    ghost use Rattle.serde_json.specs.Data.{Data};
    ghost use Rattle.span_types.specs.declared.spans.Span.{Span};

    ghost json: { Span × List Span → Data };

    ghost Fits: { Span × List Span → Type 0 };

    /// The value of a run.
    fn run(alloc: Global, rows: &[Row]) -> Result<Value, Memory>
        requires { 0 < length rows.now }
        ensures json { IfOk result (λ v. view v ∷ [] ≡ map json (as_run (spans_in rows.now))) }
        ensures fits { OnOk result (All Fits (as_run (spans_in rows.now))) };
}

/// The list of the runs.
fn run_list<O: RunJson>(alloc: Global, rows: &[Row]) -> Result<Value, Memory>
    ensures json { IfOk result
        (λ v. view v ≡ list_json O.json (runs (of_one O.eq O.of) (spans_in rows.now))) }
    ensures fits { OnOk result (All O.Fits (runs (of_one O.eq O.of) (spans_in rows.now))) }
{
    let mut values = Vec::new(alloc);
    let mut rest = rows;
    while !rest.is_empty() {
        let (run, later) = first_run::<O, Row>(rest);
        values.push(O::run(alloc, run)?)?;
        rest = later;
    }
    Ok(Value::from(values))
}

impl RunJson for Resource {
    ghost json = { resource_spans_json };

    ghost Fits = { FitsResourceRun };

    #[tactic(auto, unfolding(crate::specs::Writing::resource_spans_json))]
    fn run(alloc: Global, rows: &[Row]) -> Result<Value, Memory> {
        let first = &rows[0];
        let resource = resource(alloc, first.span.resource.get())?;
        let list = run_list::<Scope>(alloc, rows)?;
        Ok(json!(in alloc; {"resource": resource, "scopeSpans": list})?)
    }
}

impl RunJson for Scope {
    ghost json = { scope_spans_json };

    ghost Fits = { FitsScopeRun };

    #[tactic(auto, unfolding(crate::specs::Writing::scope_spans_json))]
    fn run(alloc: Global, rows: &[Row]) -> Result<Value, Memory> {
        let first = &rows[0];
        let scope = scope(alloc, first.span.scope.get())?;
        let spans = spans(alloc, rows)?;
        Ok(json!(in alloc; {"scope": scope, "spans": spans})?)
    }
}

/// The spans of rows.
#[tactic(auto, using(crate::proofs::ReadsBackFits::rows_json))]
fn spans(alloc: Global, rows: &[Row]) -> Result<Value, Memory>
    ensures json { IfOk result (λ v. view v ≡ list_json span_json (spans_in rows.now)) }
    ensures fit { OnOk result (All (λ row. FitsSpan row.span) rows.now) }
{
    list(alloc, rows)
}
