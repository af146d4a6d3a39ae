//! The JSON values of spans and what they hold.

ghost use Rattle.std.specs.Prelude.{◌≡◌, ◌<◌, ◌^◌, All, FitsSigned, IfOk, IfSome, OnOk, codes, decimal, string_bytes};
ghost use Rattle.std.specs.Fmt.{signed_decimal};
ghost use Rattle.std.specs.Int.{w64};
ghost use Rattle.hex.specs.Hex.{encode_lower};
ghost use Rattle.serde_json.specs.Data.{number, put, string, unsigned};
ghost use Rattle.serde_json.specs.View.{members_view, view};
ghost use Rattle.span_types.specs.Numbers.{kind_number};
ghost use Rattle.span_types.specs.Promises.{AreNames};
ghost use Rattle.otlp_spans.specs.Fits.{AreBytes, AreFit, FitsAttr, FitsEvent, FitsLink, FitsSpan, FitsValue, put_some};
ghost use Rattle.otlp_spans.specs.Writing.{attr_json, event_json, link_json, list_json, parent_text, resource_json, scope_json, span_json, status_json, value_json};

use serde_json::{Map, Value, json};
use span_types::{
    Attr, AttrValue, Attrs, Memory, Resource, Row, Scope, Span, SpanEvent, SpanId, SpanLink,
    StatusCode, TraceId,
};
use std::alloc::Global;

/// A whole number as a decimal text.
fn whole(alloc: Global, number: i64) -> Result<String, Memory>
    ensures text { IfOk result (λ s. string_bytes s ≡ signed_decimal number) }
    ensures fits { OnOk result (FitsSigned w64 number) }
{
    Ok(number.to_string(alloc)?)
}

/// A moment as a decimal text.
fn moment(alloc: Global, nanos: u64) -> Result<String, Memory>
    ensures text { IfOk result (λ s. string_bytes s ≡ decimal nanos) }
    ensures fits { OnOk result (nanos < 2 ^ 64) }
{
    Ok(nanos.to_string(alloc)?)
}

/// A trace's id in lower-case hexadecimal digits.
fn trace_id(alloc: Global, id: TraceId) -> Result<String, Memory>
    ensures text { IfOk result (λ s. string_bytes s ≡ encode_lower id.0) }
    ensures fits { OnOk result (AreBytes 16 id.0) }
{
    Ok(hex::encode(alloc, id.0.as_slice())?)
}

/// A span's id in lower-case hexadecimal digits.
fn span_id(alloc: Global, id: SpanId) -> Result<String, Memory>
    ensures text { IfOk result (λ s. string_bytes s ≡ encode_lower id.0) }
    ensures fits { OnOk result (AreBytes 8 id.0) }
{
    Ok(hex::encode(alloc, id.0.as_slice())?)
}

/// An attribute's value: a text, a whole number as a decimal text, or a truth.
#[tactic(auto, unfolding(crate::specs::Writing::value_json))]
fn attr_value(alloc: Global, value: &AttrValue) -> Result<Value, Memory>
    ensures json { IfOk result (λ v. view v ≡ value_json value.now) }
    ensures fits { OnOk result (FitsValue value.now) }
{
    match value {
        AttrValue::Text(text) => Ok(json!(in alloc; {"stringValue": text.as_str()})?),
        AttrValue::Whole(number) => {
            let digits = whole(alloc, *number)?;
            Ok(json!(in alloc; {"intValue": digits})?)
        }
        AttrValue::Truth(truth) => Ok(json!(in alloc; {"boolValue": *truth})?),
    }
}

/// What has a JSON value.
pub(crate) trait ToJson {
    ghost use Rattle.serde_json.specs.Data.{Data};

    ghost json: { Self → Data };

    ghost Fits: { Self → Type 0 };

    /// The value.
    fn json(&self, alloc: Global) -> Result<Value, Memory>
        ensures value { IfOk result (λ v. view v ≡ json self.now) }
        ensures fits { OnOk result (Fits self.now) };
}

/// The list of the values of items.
pub(crate) fn list<T: ToJson>(alloc: Global, items: &[T]) -> Result<Value, Memory>
    ensures value { IfOk result (λ v. view v ≡ list_json T.json items.now) }
    ensures fit { OnOk result (All T.Fits items.now) }
{
    let mut values = Vec::new(alloc);
    for item in items {
        values.push(item.json(alloc)?)?;
    }
    Ok(Value::from(values))
}

/// Puts the list of the values of items into an object, where there is an item.
fn put_some<T: ToJson>(
    alloc: Global,
    object: &mut Map<String, Value>,
    name: &str,
    items: &[T],
) -> Result<(), Memory>
    ensures json { OnOk result (members_view object.new.entries
        ≡ put_some name.now T.json items.now (members_view object.old.entries)) }
    ensures fit { OnOk result (All T.Fits items.now) }
{
    let values = list(alloc, items)?;
    if !items.is_empty() {
        serde_json::put(object, alloc, name, values)?;
    }
    Ok(())
}

impl ToJson for Attr {
    ghost json = { attr_json };

    ghost Fits = { FitsAttr };

    #[tactic(auto, unfolding(crate::specs::Writing::attr_json))]
    fn json(&self, alloc: Global) -> Result<Value, Memory> {
        let value = attr_value(alloc, &self.value)?;
        Ok(json!(in alloc; {"key": self.key.as_str(), "value": value})?)
    }
}

/// A list of attributes.
fn attributes(alloc: Global, attrs: &Attrs) -> Result<Value, Memory>
    ensures json { IfOk result (λ v. view v ≡ list_json attr_json attrs.now) }
    ensures fit { OnOk result (AreFit attrs.now) }
{
    attrs.keys_differ();
    list(alloc, attrs.as_slice())
}

impl ToJson for SpanEvent {
    ghost json = { event_json };

    ghost Fits = { FitsEvent };

    #[tactic(auto, unfolding(crate::specs::Writing::event_json))]
    fn json(&self, alloc: Global) -> Result<Value, Memory> {
        let attributes = attributes(alloc, &self.attrs)?;
        let time = moment(alloc, self.time)?;
        Ok(
            json!(in alloc; {"attributes": attributes, "name": self.name.as_str(), "timeUnixNano": time})?,
        )
    }
}

impl ToJson for SpanLink {
    ghost json = { link_json };

    ghost Fits = { FitsLink };

    #[tactic(auto, unfolding(crate::specs::Writing::link_json))]
    fn json(&self, alloc: Global) -> Result<Value, Memory> {
        let attributes = attributes(alloc, &self.attrs)?;
        let span = span_id(alloc, self.span)?;
        let trace = trace_id(alloc, self.trace)?;
        Ok(json!(in alloc; {"attributes": attributes, "spanId": span, "traceId": trace})?)
    }
}

/// A resource.
#[tactic(auto, unfolding(crate::specs::Writing::resource_json))]
pub(crate) fn resource(alloc: Global, resource: &Resource) -> Result<Value, Memory>
    ensures json { IfOk result (λ v. view v ≡ resource_json resource.now) }
    ensures fits { OnOk result (AreFit resource.now.attrs) }
{
    let attributes = attributes(alloc, &resource.attrs)?;
    Ok(json!(in alloc; {"attributes": attributes})?)
}

/// A scope.
#[tactic(auto, unfolding(crate::specs::Writing::scope_json))]
pub(crate) fn scope(alloc: Global, scope: &Scope) -> Result<Value, Memory>
    ensures json { IfOk result (λ v. view v ≡ scope_json scope.now) }
    ensures fits { OnOk result (AreFit scope.now.attrs) }
{
    let attributes = attributes(alloc, &scope.attrs)?;
    let name = scope.name.as_str();
    let version = scope.version.as_str();
    Ok(json!(in alloc; {"attributes": attributes, "name": name, "version": version})?)
}

/// A status.
#[tactic(auto, unfolding(crate::specs::Writing::status_json))]
fn status(alloc: Global, code: StatusCode, message: &str) -> Result<Value, Memory>
    ensures { IfOk result (λ v. view v ≡ status_json code message.now) }
{
    Ok(json!(in alloc; {"code": code.number(), "message": message})?)
}

/// A parent's id, and the empty text where there is none.
fn parent(alloc: Global, parent: Option<SpanId>) -> Result<String, Memory>
    ensures text { IfOk result (λ s. string_bytes s ≡ parent_text parent) }
    ensures fits { OnOk result (IfSome parent (λ p. AreBytes 8 p.0)) }
{
    match parent {
        None => Ok(String::new(alloc)),
        Some(id) => span_id(alloc, id),
    }
}

/// Puts a span's attributes, end and events into its object.
fn put_first(alloc: Global, object: &mut Map<String, Value>, span: &Span) -> Result<(), Memory>
    ensures attrs { OnOk result (AreFit span.now.attrs) }
    ensures end { OnOk result (span.now.end < 2 ^ 64) }
    ensures events { OnOk result (All FitsEvent span.now.events) }
    ensures json { OnOk result (members_view object.new.entries
        ≡ put_some (codes "events") event_json span.now.events
        (put (codes "endTimeUnixNano") (string (decimal span.now.end))
        (put (codes "attributes") (list_json attr_json span.now.attrs)
        (members_view object.old.entries)))) }
{
    let attributes = attributes(alloc, &span.attrs)?;
    let end = moment(alloc, span.end)?;
    serde_json::put(object, alloc, "attributes", attributes)?;
    serde_json::put(object, alloc, "endTimeUnixNano", Value::from(end))?;
    put_some(alloc, object, "events", span.events.as_slice())
}

/// Puts a span's kind, links and name into its object.
fn put_second(alloc: Global, object: &mut Map<String, Value>, span: &Span) -> Result<(), Memory>
    ensures links { OnOk result (All FitsLink span.now.links) }
    ensures json { OnOk result (members_view object.new.entries
        ≡ put (codes "name") (string span.now.name)
        (put_some (codes "links") link_json span.now.links
        (put (codes "kind") (number (unsigned (kind_number span.now.kind)))
        (members_view object.old.entries)))) }
{
    let name = Value::try_from_str(alloc, span.name.as_str())?;
    serde_json::put(object, alloc, "kind", Value::from(span.kind.number()))?;
    put_some(alloc, object, "links", span.links.as_slice())?;
    serde_json::put(object, alloc, "name", name)?;
    Ok(())
}

/// Puts a span's parent, id and start into its object.
fn put_third(alloc: Global, object: &mut Map<String, Value>, span: &Span) -> Result<(), Memory>
    ensures parent { OnOk result (IfSome span.now.parent (λ p. AreBytes 8 p.0)) }
    ensures id { OnOk result (AreBytes 8 span.now.id.0) }
    ensures start { OnOk result (span.now.start < 2 ^ 64) }
    ensures json { OnOk result (members_view object.new.entries
        ≡ put (codes "startTimeUnixNano") (string (decimal span.now.start))
        (put (codes "spanId") (string (encode_lower span.now.id.0))
        (put (codes "parentSpanId") (string (parent_text span.now.parent))
        (members_view object.old.entries)))) }
{
    let parent = parent(alloc, span.parent)?;
    let id = span_id(alloc, span.id)?;
    let start = moment(alloc, span.start)?;
    serde_json::put(object, alloc, "parentSpanId", Value::from(parent))?;
    serde_json::put(object, alloc, "spanId", Value::from(id))?;
    serde_json::put(object, alloc, "startTimeUnixNano", Value::from(start))?;
    Ok(())
}

/// Puts a span's status and trace into its object.
fn put_last(alloc: Global, object: &mut Map<String, Value>, span: &Span) -> Result<(), Memory>
    ensures trace { OnOk result (AreBytes 16 span.now.trace.0) }
    ensures names { OnOk result (AreNames span.now.trace span.now.id span.now.parent) }
    ensures json { OnOk result (members_view object.new.entries
        ≡ put (codes "traceId") (string (encode_lower span.now.trace.0))
        (put (codes "status") (status_json span.now.status span.now.message)
        (members_view object.old.entries))) }
{
    let status = status(alloc, span.status, span.message.as_str())?;
    let trace = trace_id(alloc, span.trace)?;
    serde_json::put(object, alloc, "status", status)?;
    serde_json::put(object, alloc, "traceId", Value::from(trace))?;
    Ok(())
}

impl ToJson for Row {
    ghost json = { λ row. span_json row.span };

    ghost Fits = { λ row. FitsSpan row.span };

    /// That of its span.
    #[tactic(auto, unfolding(crate::specs::Writing::span_json))]
    fn json(&self, alloc: Global) -> Result<Value, Memory> {
        let span = &self.span;
        let mut object = Map::new(alloc);
        put_first(alloc, &mut object, span)?;
        put_second(alloc, &mut object, span)?;
        put_third(alloc, &mut object, span)?;
        put_last(alloc, &mut object, span)?;
        Ok(Value::from(object))
    }
}
