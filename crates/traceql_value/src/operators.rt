//! What operators make of values: comparisons, arithmetic and logic, of operands that are evaluated.

ghost use Rattle.std.specs.Prelude.{◌≡◌, Bool, IfSome};
ghost use Rattle.traceql_value.specs.Meaning.{tests_nil, apply_binary, decide_by_left};
ghost use Rattle.traceql_value.specs.ValueRef.{ref_value};
ghost use Rattle.traceql_value.specs.Values.{number_or_nil, is_true, is_nil, accepts, accepts_equal, compares, arithmetic, compute_number, combine_values, apply_unary};

use crate::order::text_order;
use crate::value_ref::ValueRef;
use crate::{Ratio, Value};
use std::cmp::Ordering;
use traceql_syntax::{BinaryOp, Comparison, UnaryOp};

// A number, or none where it is outside of the bounds.
fn number_or_nil(number: Option<Ratio>) -> Value
    ensures { result ≡ number_or_nil number }
{
    match number {
        None => Value::Nil,
        Some(number) => Value::Number(number),
    }
}

/// Whether a value is `true`.
pub(crate) fn is_true(value: &ValueRef<'_>) -> bool
    ensures { result ≡ is_true (ref_value value.now) }
{
    match value {
        ValueRef::Truth(truth) => *truth,
        _ => false,
    }
}

// Whether there is no value.
fn is_nil(value: &ValueRef<'_>) -> bool
    ensures { result ≡ is_nil (ref_value value.now) }
{
    match value {
        ValueRef::Nil => true,
        _ => false,
    }
}

/// Whether a comparison is true of what stands in this order.
pub fn accepts(op: Comparison, order: Ordering) -> bool
    ensures { result ≡ accepts op order }
{
    match op {
        Comparison::Equal => order.is_eq(),
        Comparison::NotEqual => order.is_ne(),
        Comparison::Less => order.is_lt(),
        Comparison::AtMost => order.is_le(),
        Comparison::Greater => order.is_gt(),
        Comparison::AtLeast => order.is_ge(),
    }
}

// Whether a comparison is true of what is only equal or not.
fn accepts_equal(op: Comparison, same: bool) -> bool
    ensures { result ≡ accepts_equal op same }
{
    match op {
        Comparison::Equal => same,
        Comparison::NotEqual => !same,
        Comparison::Less | Comparison::AtMost | Comparison::Greater | Comparison::AtLeast => false,
    }
}

// Whether a comparison of two values is true.
fn compares(op: Comparison, left: &ValueRef<'_>, right: &ValueRef<'_>) -> bool
    ensures { result ≡ compares op (ref_value left.now) (ref_value right.now) }
{
    match (left, right) {
        (ValueRef::Truth(a), ValueRef::Truth(b)) => accepts_equal(op, *a == *b),
        (ValueRef::Number(a), ValueRef::Number(b)) => accepts(op, a.compare(*b)),
        (ValueRef::Text(a), ValueRef::Text(b)) => accepts(op, text_order(a, b)),
        (ValueRef::Text(a), ValueRef::Made(b)) => accepts(op, text_order(a, b.as_str())),
        (ValueRef::Made(a), ValueRef::Text(b)) => accepts(op, text_order(a.as_str(), b)),
        (ValueRef::Made(a), ValueRef::Made(b)) => accepts(op, text_order(a.as_str(), b.as_str())),
        (ValueRef::Status(a), ValueRef::Status(b)) => accepts_equal(op, *a == *b),
        (ValueRef::Kind(a), ValueRef::Kind(b)) => accepts_equal(op, *a == *b),
        _ => false,
    }
}

// What an arithmetic operator makes of two numbers.
fn compute_number(op: BinaryOp, left: Ratio, right: Ratio) -> Option<Ratio>
    ensures { result ≡ compute_number op left right }
{
    match op {
        BinaryOp::Or | BinaryOp::And | BinaryOp::Compare(_) => None,
        BinaryOp::Add => left.add(right),
        BinaryOp::Subtract => left.sub(right),
        BinaryOp::Multiply => left.mul(right),
        BinaryOp::Divide => left.div(right),
        BinaryOp::Remainder => left.rem(right),
        BinaryOp::Power => left.pow(right),
    }
}

// What an arithmetic operator gives: nil where an operand is no number.
fn arithmetic(op: BinaryOp, left: &ValueRef<'_>, right: &ValueRef<'_>) -> Value
    ensures { result ≡ arithmetic (compute_number op) (ref_value left.now) (ref_value right.now) }
{
    match (left, right) {
        (ValueRef::Number(a), ValueRef::Number(b)) => number_or_nil(compute_number(op, *a, *b)),
        _ => Value::Nil,
    }
}

// What an operator gives that is no comparison with the literal `nil`.
fn combine_values(op: BinaryOp, left: &ValueRef<'_>, right: &ValueRef<'_>) -> Value
    ensures { result ≡ combine_values op (ref_value left.now) (ref_value right.now) }
{
    match op {
        BinaryOp::Or => Value::Truth(is_true(left) || is_true(right)),
        BinaryOp::And => Value::Truth(is_true(left) && is_true(right)),
        BinaryOp::Compare(comparison) => Value::Truth(compares(comparison, left, right)),
        BinaryOp::Add
        | BinaryOp::Subtract
        | BinaryOp::Multiply
        | BinaryOp::Divide
        | BinaryOp::Remainder
        | BinaryOp::Power => arithmetic(op, left, right),
    }
}

// What a comparison with the literal `nil` gives of the other operand.
fn tests_nil(op: Comparison, value: &ValueRef<'_>) -> bool
    ensures { result ≡ tests_nil op (ref_value value.now) }
{
    match op {
        Comparison::Equal => is_nil(value),
        Comparison::NotEqual => !is_nil(value),
        Comparison::Less | Comparison::AtMost | Comparison::Greater | Comparison::AtLeast => false,
    }
}

/// What `&&` and `||` give by their left side alone: the right side doesn't matter then.
pub(crate) fn decide_by_left(op: BinaryOp, left: &ValueRef<'_>) -> Option<bool>
    ensures decision { result ≡ decide_by_left op (ref_value left.now) }
    ensures value { IfSome result (λ truth. (nil_left nil_right : Bool) (right : Value)
        → apply_binary op nil_left nil_right (ref_value left.now) right ≡ Value.Truth truth) }
{
    match op {
        BinaryOp::And if !is_true(left) => Some(false),
        BinaryOp::Or if is_true(left) => Some(true),
        _ => None,
    }
}

/// What a binary operator gives, where the operands may be the literal `nil`.
pub(crate) fn apply_binary(
    op: BinaryOp,
    nil_left: bool,
    nil_right: bool,
    left: &ValueRef<'_>,
    right: &ValueRef<'_>,
) -> Value
    ensures { result ≡ apply_binary op nil_left nil_right (ref_value left.now)
        (ref_value right.now) }
{
    match (op, nil_left, nil_right) {
        (BinaryOp::Compare(comparison), true, _) => Value::Truth(tests_nil(comparison, right)),
        (BinaryOp::Compare(comparison), false, true) => Value::Truth(tests_nil(comparison, left)),
        _ => combine_values(op, left, right),
    }
}

/// What a unary operator gives.
pub(crate) fn apply_unary(op: UnaryOp, value: &ValueRef<'_>) -> Value
    ensures { result ≡ apply_unary op (ref_value value.now) }
{
    match (op, value) {
        (UnaryOp::Negate, ValueRef::Number(number)) => number_or_nil(number.neg()),
        (UnaryOp::Not, ValueRef::Truth(truth)) => Value::Truth(!*truth),
        _ => Value::Nil,
    }
}
