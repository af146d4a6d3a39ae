//! The order of values, in which `by` splits and series are sorted.

ghost use Rattle.std.specs.Prelude.{◌≡◌};
ghost use Rattle.std.specs.Cmp.Lexicographic.{slice_cmp};
ghost use Rattle.std.specs.Ordering.{nat_cmp};
ghost use Rattle.traceql_value.specs.ValueRef.{ref_value};
ghost use Rattle.traceql_value.specs.Values.{truth_number, value_cmp};

use crate::Value;
use crate::value_ref::ValueRef;
use std::cmp::Ordering;

/// The order of two texts by their bytes.
pub(crate) fn text_order(left: &str, right: &str) -> Ordering
    ensures { result ≡ slice_cmp nat_cmp left.now right.now }
{
    left.cmp(right)
}

/// `false` before `true`.
pub(crate) fn truth_number(truth: bool) -> u8
    ensures { result ≡ truth_number truth }
{
    if truth { 1 } else { 0 }
}

impl Value {
    /// The value, looked at where it stands.
    pub fn by_ref(&self) -> ValueRef<'_>
        ensures { ref_value result ≡ self.now }
    {
        match self {
            Value::Nil => ValueRef::Nil,
            Value::Truth(truth) => ValueRef::Truth(*truth),
            Value::Number(number) => ValueRef::Number(*number),
            Value::Text(text) => ValueRef::Text(text.as_str()),
            Value::Status(status) => ValueRef::Status(*status),
            Value::Kind(kind) => ValueRef::Kind(*kind),
        }
    }

    /// Which of two values stands first, as [`ValueRef::order`] says.
    pub fn order(&self, other: &Value) -> Ordering
        ensures { result ≡ value_cmp self.now other.now }
    {
        self.by_ref().order(&other.by_ref())
    }
}
