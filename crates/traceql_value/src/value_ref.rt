//! Values that are looked at where they stand: what evaluating works on, so that no text is copied for a test.

ghost use Rattle.std.specs.Prelude.{◌≡◌, IfOk};
ghost use Rattle.traceql_value.specs.Values.{kind_rank, value_cmp, whole_of};
ghost use Rattle.traceql_value.specs.ValueRef.{ref_value};

use crate::order::{text_order, truth_number};
use crate::{Ratio, Value};
use span_types::{Memory, SpanKind, StatusCode, Text, TryCopy};
use std::alloc::Global;
use std::cmp::Ordering;

/// A value whose text mostly stands elsewhere: in a span or in a query.
#[derive(Drop)]
pub enum ValueRef<'s> {
    /// No value.
    Nil,
    /// A truth.
    Truth(bool),
    /// A number.
    Number(Ratio),
    /// A text that stands elsewhere.
    Text(&'s str),
    /// A text that was made on the way.
    Made(Text),
    /// How a span ended.
    Status(StatusCode),
    /// A span's role.
    Kind(SpanKind),
}

// Which kind of value stands first.
fn kind_rank(value: &ValueRef<'_>) -> u8
    ensures { result ≡ kind_rank (ref_value value.now) }
{
    match value {
        ValueRef::Nil => 0,
        ValueRef::Truth(_) => 1,
        ValueRef::Number(_) => 2,
        ValueRef::Text(_) | ValueRef::Made(_) => 3,
        ValueRef::Status(_) => 4,
        ValueRef::Kind(_) => 5,
    }
}

impl<'s> ValueRef<'s> {
    /// A value of its own, to be looked at.
    pub(crate) fn of(value: Value) -> ValueRef<'s>
        ensures { ref_value result ≡ value }
    {
        match value {
            Value::Nil => ValueRef::Nil,
            Value::Truth(truth) => ValueRef::Truth(truth),
            Value::Number(number) => ValueRef::Number(number),
            Value::Text(text) => ValueRef::Made(text),
            Value::Status(status) => ValueRef::Status(status),
            Value::Kind(kind) => ValueRef::Kind(kind),
        }
    }

    /// The value as one of its own: a text that stands elsewhere is copied.
    pub(crate) fn into_value(self, alloc: Global) -> Result<Value, Memory>
        ensures { IfOk result (λ v. v ≡ ref_value self.entry) }
    {
        match self {
            ValueRef::Nil => Ok(Value::Nil),
            ValueRef::Truth(truth) => Ok(Value::Truth(truth)),
            ValueRef::Number(number) => Ok(Value::Number(number)),
            ValueRef::Text(text) => Ok(Value::Text(Text::of(String::from_str(alloc, text)?))),
            ValueRef::Made(text) => Ok(Value::Text(text)),
            ValueRef::Status(status) => Ok(Value::Status(status)),
            ValueRef::Kind(kind) => Ok(Value::Kind(kind)),
        }
    }

    /// A value of its own that equals this one: its text is copied.
    pub fn to_value(&self, alloc: Global) -> Result<Value, Memory>
        ensures { IfOk result (λ v. v ≡ ref_value self.now) }
    {
        match self {
            ValueRef::Nil => Ok(Value::Nil),
            ValueRef::Truth(truth) => Ok(Value::Truth(*truth)),
            ValueRef::Number(number) => Ok(Value::Number(*number)),
            ValueRef::Text(text) => Ok(Value::Text(Text::of(String::from_str(alloc, text)?))),
            ValueRef::Made(text) => Ok(Value::Text(text.copy()?)),
            ValueRef::Status(status) => Ok(Value::Status(*status)),
            ValueRef::Kind(kind) => Ok(Value::Kind(*kind)),
        }
    }

    /// The number, where the value is a whole one.
    pub fn whole(&self) -> Option<i64>
        ensures { result ≡ whole_of (ref_value self.now) }
    {
        match self {
            ValueRef::Number(number) if number.denominator() == 1 => Some(number.numerator()),
            _ => None,
        }
    }

    /// Which of two values stands first: nil, then false and true, numbers, texts by their bytes, statuses and roles.
    /// It is a total order, so values can be sorted by it.
    pub fn order(&self, other: &ValueRef<'_>) -> Ordering
        ensures { result ≡ value_cmp (ref_value self.now) (ref_value other.now) }
    {
        match (self, other) {
            (ValueRef::Truth(a), ValueRef::Truth(b)) => truth_number(*a).cmp(&truth_number(*b)),
            (ValueRef::Number(a), ValueRef::Number(b)) => a.compare(*b),
            (ValueRef::Text(a), ValueRef::Text(b)) => text_order(a, b),
            (ValueRef::Text(a), ValueRef::Made(b)) => text_order(a, b.as_str()),
            (ValueRef::Made(a), ValueRef::Text(b)) => text_order(a.as_str(), b),
            (ValueRef::Made(a), ValueRef::Made(b)) => text_order(a.as_str(), b.as_str()),
            (ValueRef::Status(a), ValueRef::Status(b)) => a.number().cmp(&b.number()),
            (ValueRef::Kind(a), ValueRef::Kind(b)) => a.number().cmp(&b.number()),
            _ => kind_rank(self).cmp(&kind_rank(other)),
        }
    }
}
