//! The JSON values of what a query finds: numbers, texts, and a span that is shown.

ghost use Rattle.std.specs.Prelude.{◌≡◌, IfOk, OnOk, codes, decimal, string_bytes};
ghost use Rattle.std.specs.Fmt.{signed_decimal};
ghost use Rattle.std.specs.List.{zip};
ghost use Rattle.hex.specs.Hex.{encode_lower};
ghost use Rattle.serde_json.specs.Data.{put, string};
ghost use Rattle.serde_json.specs.View.{members_view, view};
ghost use Rattle.search_text.specs.Results.{field_json, fraction_text, hit_json, list_json, number_json, text_json, value_json};

use serde_json::{Map, Value as Json, json};
use span_types::{Memory, Text};
use spanset_eval::Hit;
use std::alloc::Global;
use traceql_print::{kind_word, status_word};
use traceql_value::{Ratio, Value};

/// A whole number as a decimal text.
fn whole(alloc: Global, number: i64) -> Result<String, Memory>
    ensures { IfOk result (λ s. string_bytes s ≡ signed_decimal number) }
{
    Ok(number.to_string(alloc)?)
}

/// A count of nanoseconds as a decimal text.
pub(crate) fn nanos(alloc: Global, nanos: u64) -> Result<String, Memory>
    ensures { IfOk result (λ s. string_bytes s ≡ decimal nanos) }
{
    Ok(nanos.to_string(alloc)?)
}

/// A fraction: its numerator with its sign, a slash and its denominator.
fn fraction(alloc: Global, number: Ratio) -> Result<String, Memory>
    ensures { IfOk result (λ s. string_bytes s ≡ fraction_text number) }
{
    let numerator = number.numerator();
    let denominator = number.denominator();
    Ok(format!(in alloc; "{numerator}/{denominator}")?)
}

/// A number.
#[tactic(auto, unfolding(crate::specs::Results::number_json))]
fn number(alloc: Global, number: Ratio) -> Result<Json, Memory>
    ensures { IfOk result (λ v. view v ≡ number_json number) }
{
    if number.denominator() == 1 {
        let digits = whole(alloc, number.numerator())?;
        return Ok(json!(in alloc; {"intValue": digits})?);
    }
    let digits = fraction(alloc, number)?;
    Ok(json!(in alloc; {"ratioValue": digits})?)
}

/// What a field expression is for a span.
#[tactic(auto, unfolding(crate::specs::Results::value_json))]
fn value(alloc: Global, value: &Value) -> Result<Json, Memory>
    ensures { IfOk result (λ v. view v ≡ value_json value.now) }
{
    match value {
        Value::Nil => Ok(Json::Null),
        Value::Truth(truth) => Ok(json!(in alloc; {"boolValue": *truth})?),
        Value::Number(ratio) => number(alloc, *ratio),
        Value::Text(text) => Ok(json!(in alloc; {"stringValue": text.as_str()})?),
        Value::Status(code) => Ok(json!(in alloc; {"statusValue": status_word(*code).text()})?),
        Value::Kind(kind) => Ok(json!(in alloc; {"kindValue": kind_word(*kind).text()})?),
    }
}

/// Values in order.
pub(crate) fn values(alloc: Global, list: &[Value]) -> Result<Json, Memory>
    ensures { IfOk result (λ v. view v ≡ list_json value_json list.now) }
{
    let mut values = Vec::new(alloc);
    for item in list {
        values.push(value(alloc, item)?)?;
    }
    Ok(Json::from(values))
}

/// A text, and null for what is none.
pub(crate) fn text_or_null(alloc: Global, value: &Value) -> Result<Json, Memory>
    ensures { IfOk result (λ v. view v ≡ text_json value.now) }
{
    match value {
        Value::Text(text) => Ok(Json::try_from_str(alloc, text.as_str())?),
        _ => Ok(Json::Null),
    }
}

/// A selected field and what it is for a span.
#[tactic(auto, unfolding(crate::specs::Results::field_json))]
fn field(alloc: Global, name: &Text, found: &Value) -> Result<Json, Memory>
    ensures { IfOk result (λ v. view v ≡ field_json (name.now, found.now)) }
{
    let value = value(alloc, found)?;
    Ok(json!(in alloc; {"key": name.as_str(), "value": value})?)
}

/// The selected fields and what they are for a span, one for one.
fn fields(alloc: Global, names: &[Text], found: &[Value]) -> Result<Json, Memory>
    ensures { IfOk result (λ v. view v ≡ list_json field_json (zip names.now found.now)) }
{
    let mut values = Vec::new(alloc);
    for i in 0..names.len().min(found.len()) {
        values.push(field(alloc, &names[i], &found[i])?)?;
    }
    Ok(Json::from(values))
}

/// Puts a span's fields, duration and name into its object.
fn put_hit_first(
    alloc: Global,
    object: &mut Map<String, Json>,
    names: &[Text],
    hit: &Hit,
) -> Result<(), Memory>
    ensures { OnOk result (members_view object.new.entries
        ≡ put (codes "name") (string hit.now.name)
        (put (codes "durationNanos") (string (decimal hit.now.duration))
        (put (codes "attributes") (list_json field_json (zip names.now hit.now.fields))
        (members_view object.old.entries)))) }
{
    let attributes = fields(alloc, names, hit.fields.as_slice())?;
    let duration = nanos(alloc, hit.duration)?;
    let name = Json::try_from_str(alloc, hit.name.as_str())?;
    serde_json::put(object, alloc, "attributes", attributes)?;
    serde_json::put(object, alloc, "durationNanos", Json::from(duration))?;
    serde_json::put(object, alloc, "name", name)?;
    Ok(())
}

/// Puts a span's id and start into its object.
fn put_hit_second(alloc: Global, object: &mut Map<String, Json>, hit: &Hit) -> Result<(), Memory>
    ensures { OnOk result (members_view object.new.entries
        ≡ put (codes "startTimeUnixNano") (string (decimal hit.now.start))
        (put (codes "spanId") (string (encode_lower hit.now.id.0))
        (members_view object.old.entries))) }
{
    let id = hex::encode(alloc, hit.id.0.as_slice())?;
    let start = nanos(alloc, hit.start)?;
    serde_json::put(object, alloc, "spanId", Json::from(id))?;
    serde_json::put(object, alloc, "startTimeUnixNano", Json::from(start))?;
    Ok(())
}

/// A span.
#[tactic(auto, unfolding(crate::specs::Results::hit_json))]
pub(crate) fn hit(alloc: Global, names: &[Text], hit: &Hit) -> Result<Json, Memory>
    ensures { IfOk result (λ v. view v ≡ hit_json names.now hit.now) }
{
    let mut object = Map::new(alloc);
    put_hit_first(alloc, &mut object, names, hit)?;
    put_hit_second(alloc, &mut object, hit)?;
    Ok(Json::from(object))
}
