//! What fields are for a span: attributes, and the values of which `trace` makes intrinsics, looked at where they
//! stand.

ghost use Rattle.std.specs.Prelude.{◌≡◌, IfOk, option_map};
ghost use Rattle.traceql_value.specs.ValueRef.{ref_value};
ghost use Rattle.traceql_value.specs.Spans.{attr_named, value_named, attribute_of, span_nanos, text_or_nil};
ghost use Rattle.traceql_value.specs.Values.{attr_value, whole_number, unless_empty};
ghost use Rattle.hex.specs.Hex.{encode_lower};

use crate::value_ref::ValueRef;
use crate::{Ratio, Value};
use span_types::{Attr, AttrValue, Memory, Span, Text};
use std::alloc::Global;
use traceql_tokens::AttributeScope;

/// A whole number, none from 2^63 on.
pub(crate) fn whole_number<'s>(number: u64) -> ValueRef<'s>
    ensures { ref_value result ≡ whole_number number }
{
    if number < 1 << 63 {
        ValueRef::Number(Ratio::whole(number as i64))
    } else {
        ValueRef::Nil
    }
}

// The value of an attribute.
fn attr_value(value: &AttrValue) -> ValueRef<'_>
    ensures { ref_value result ≡ attr_value value.now }
{
    match value {
        AttrValue::Text(text) => ValueRef::Text(text.as_str()),
        AttrValue::Whole(number) => ValueRef::Number(Ratio::whole(*number)),
        AttrValue::Truth(truth) => ValueRef::Truth(*truth),
    }
}

/// The value of the attribute of this name.
pub(crate) fn attr_named<'s>(attrs: &'s [Attr], name: &str) -> Option<&'s AttrValue>
    ensures { option_map (λ v. v.now) result ≡ attr_named name.now attrs.now }
{
    for attr in attrs {
        if attr.key.as_str() == name {
            return Some(&attr.value);
        }
    }
    None
}

// What an attribute is, and nil where there is none of this name.
fn value_named<'s>(attrs: &'s [Attr], name: &str) -> ValueRef<'s>
    ensures { ref_value result ≡ value_named name.now attrs.now }
{
    match attr_named(attrs, name) {
        Some(value) => attr_value(value),
        None => ValueRef::Nil,
    }
}

// What an attribute of the span or else of its resource is.
fn any_named<'s>(span: &'s Span, name: &str) -> ValueRef<'s>
    ensures { ref_value result ≡ attribute_of AttributeScope.Any name.now span.now }
{
    match attr_named(span.attrs.as_slice(), name) {
        Some(value) => attr_value(value),
        None => value_named(span.resource.get().attrs.as_slice(), name),
    }
}

/// What an attribute is, looked for where its prefix says.
pub(crate) fn attribute<'s>(scope: AttributeScope, name: &str, span: &'s Span) -> ValueRef<'s>
    ensures { ref_value result ≡ attribute_of scope name.now span.now }
{
    match scope {
        AttributeScope::Any => any_named(span, name),
        AttributeScope::Span => value_named(span.attrs.as_slice(), name),
        AttributeScope::Resource => value_named(span.resource.get().attrs.as_slice(), name),
        AttributeScope::Instrumentation => value_named(span.scope.get().attrs.as_slice(), name),
    }
}

/// How long a span took; nothing where it ended before it began.
pub(crate) fn span_nanos(span: &Span) -> u64
    ensures { result ≡ span_nanos span.now }
{
    span.end.saturating_sub(span.start)
}

/// A text that may be absent.
pub(crate) fn unless_empty(text: &Text) -> ValueRef<'_>
    ensures { ref_value result ≡ unless_empty text.now }
{
    if text.is_empty() {
        ValueRef::Nil
    } else {
        ValueRef::Text(text.as_str())
    }
}

/// A text, and nil for what is no text.
pub(crate) fn text_or_nil<'s>(value: Option<&'s AttrValue>) -> ValueRef<'s>
    ensures { ref_value result ≡ text_or_nil (option_map (λ v. v.now) value.entry) }
{
    match value {
        Some(AttrValue::Text(text)) => ValueRef::Text(text.as_str()),
        _ => ValueRef::Nil,
    }
}

/// An id in hexadecimal, in lower case.
pub(crate) fn hexadecimal<'s>(alloc: Global, id: &[u8]) -> Result<ValueRef<'s>, Memory>
    ensures { IfOk result (λ v. ref_value v ≡ Value.Text (encode_lower id.now)) }
{
    Ok(ValueRef::Made(Text::of(hex::encode(alloc, id)?)))
}
