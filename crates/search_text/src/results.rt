//! Writing a search's results, results to JSON.

ghost use Rattle.std.specs.Prelude.{◌≡◌, IfOk, OnOk, codes, decimal};
ghost use Rattle.hex.specs.Hex.{encode_lower};
ghost use Rattle.serde_json.specs.Data.{put, string};
ghost use Rattle.serde_json.specs.View.{members_view, view};
ghost use Rattle.search_text.specs.Results.{hit_json, list_json, result_json, results_json, results_text, set_json, text_json};

use crate::Texts;
use crate::values::{hit, nanos, text_or_null, values};
use serde_json::{Map, Value, json};
use span_types::{Memory, Text};
use spanset_eval::{Hit, Results, SetResult, TraceResult};
use std::alloc::Global;

/// The text of a search's results, as compact JSON with ascending keys: an object whose member `traces` has an object
/// for each trace, in the order in which they stand.
///
/// `fields` are the query's selected fields, printed. Each span shows them beside what they are for it, one for one.
/// The one error is out of memory.
#[tactic(auto, unfolding(crate::specs::Results::results_text))]
pub fn write_results(alloc: Global, fields: &Texts, results: &Results) -> Result<Text, Memory>
    ensures { IfOk result (λ text. text ≡ results_text fields.now results.now) }
{
    let value = traces(alloc, fields.as_slice(), results.as_slice())?;
    Ok(Text::of(value.to_string(alloc)?))
}

/// The whole object, whose one member is the list of traces.
#[tactic(auto, unfolding(crate::specs::Results::results_json))]
fn traces(alloc: Global, fields: &[Text], results: &[TraceResult]) -> Result<Value, Memory>
    ensures { IfOk result (λ v. view v ≡ results_json fields.now results.now) }
{
    let mut list = Vec::new(alloc);
    for found in results {
        list.push(trace(alloc, fields, found)?)?;
    }
    Ok(json!(in alloc; {"traces": Value::from(list)})?)
}

/// Puts a trace's duration and its root's name and service into its object.
fn put_trace_first(
    alloc: Global,
    object: &mut Map<String, Value>,
    found: &TraceResult,
) -> Result<(), Memory>
    ensures { OnOk result (members_view object.new.entries
        ≡ put (codes "rootService") (text_json found.now.root_service)
        (put (codes "rootName") (text_json found.now.root_name)
        (put (codes "durationNanos") (string (decimal found.now.duration))
        (members_view object.old.entries)))) }
{
    let duration = nanos(alloc, found.duration)?;
    let name = text_or_null(alloc, &found.root_name)?;
    let service = text_or_null(alloc, &found.root_service)?;
    serde_json::put(object, alloc, "durationNanos", Value::from(duration))?;
    serde_json::put(object, alloc, "rootName", name)?;
    serde_json::put(object, alloc, "rootService", service)?;
    Ok(())
}

/// Puts a trace's spansets, start and id into its object.
fn put_trace_second(
    alloc: Global,
    object: &mut Map<String, Value>,
    fields: &[Text],
    found: &TraceResult,
) -> Result<(), Memory>
    ensures { OnOk result (members_view object.new.entries
        ≡ put (codes "traceId") (string (encode_lower found.now.trace.0))
        (put (codes "startTimeUnixNano") (string (decimal found.now.start))
        (put (codes "spanSets") (list_json (set_json fields.now) found.now.sets)
        (members_view object.old.entries)))) }
{
    let sets = sets(alloc, fields, found.sets.as_slice())?;
    let start = nanos(alloc, found.start)?;
    let id = hex::encode(alloc, found.trace.0.as_slice())?;
    serde_json::put(object, alloc, "spanSets", sets)?;
    serde_json::put(object, alloc, "startTimeUnixNano", Value::from(start))?;
    serde_json::put(object, alloc, "traceId", Value::from(id))?;
    Ok(())
}

/// A trace, and what is left of it.
#[tactic(auto, unfolding(crate::specs::Results::result_json))]
fn trace(alloc: Global, fields: &[Text], found: &TraceResult) -> Result<Value, Memory>
    ensures { IfOk result (λ v. view v ≡ result_json fields.now found.now) }
{
    let mut object = Map::new(alloc);
    put_trace_first(alloc, &mut object, found)?;
    put_trace_second(alloc, &mut object, fields, found)?;
    Ok(Value::from(object))
}

/// The spansets that are left of a trace.
fn sets(alloc: Global, fields: &[Text], sets: &[SetResult]) -> Result<Value, Memory>
    ensures { IfOk result (λ v. view v ≡ list_json (set_json fields.now) sets.now) }
{
    let mut list = Vec::new(alloc);
    for found in sets {
        list.push(set(alloc, fields, found)?)?;
    }
    Ok(Value::from(list))
}

/// A spanset.
#[tactic(auto, unfolding(crate::specs::Results::set_json))]
fn set(alloc: Global, fields: &[Text], found: &SetResult) -> Result<Value, Memory>
    ensures { IfOk result (λ v. view v ≡ set_json fields.now found.now) }
{
    let by = values(alloc, found.by.as_slice())?;
    let spans = hits(alloc, fields, found.spans.as_slice())?;
    Ok(json!(in alloc; {"by": by, "matched": found.matched, "spans": spans})?)
}

/// The spans of a spanset that are shown.
fn hits(alloc: Global, fields: &[Text], spans: &[Hit]) -> Result<Value, Memory>
    ensures { IfOk result (λ v. view v ≡ list_json (hit_json fields.now) spans.now) }
{
    let mut list = Vec::new(alloc);
    for span in spans {
        list.push(hit(alloc, fields, span)?)?;
    }
    Ok(Value::from(list))
}
