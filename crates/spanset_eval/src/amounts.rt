//! Aggregates of numbers, exactly, and their comparisons: the stages that ask `count`, `min`, `max`, `avg` or `sum`.

ghost use Rattle.std.specs.Prelude.{◌≡◌, ◌<◌, ◌++◌, pos, ◌*ℤ◌, ◌+ℤ◌, IfOk, OnOk};
ghost use Rattle.std.specs.Option.{option_to_list};
ghost use Rattle.traceql_value.specs.EvalContexts.{IsSame};
ghost use Rattle.spanset_eval.specs.InContext.{aggregate_in, numbers_in, threshold_in};
ghost use Rattle.spanset_eval.specs.Stages.{amount_cmp, amount_of, amounts_compare, greatest_of, least_of, signed, total_of};

use crate::filter;
use span_types::Memory;
use std::cmp::Ordering;
use traceql_syntax::{Aggregate, AggregateOp, Comparison, FieldExpr, Threshold};
use traceql_value::{EvalContext, accepts};

/// An exact number, as a quotient: the bottom is at least 1.
#[derive(Clone, Copy)]
pub struct Amount {
    /// What is divided.
    pub top: i128,
    /// By what.
    pub bottom: u64,
}

// A whole number is a quotient too, so that averages and numbers compare alike.
fn whole(top: i128) -> Amount
    ensures { result ≡ record { top = top; bottom = 1 } }
{
    Amount { top, bottom: 1 }
}

// The numbers that the argument has for the members: what has none is left out, and no text is copied.
fn numbers<'a>(
    context: &mut EvalContext<'_, 'a>,
    expr: &'a FieldExpr,
    members: &[usize],
) -> Result<Vec<i64>, Memory>
    ensures numbers { IfOk result (λ numbers.
        numbers.items ≡ numbers_in context.old expr.now members.now) }
    ensures context { IsSame context.old context.new }
{
    let mut numbers = Vec::new(context.alloc());
    for position in members {
        let value = filter::value_at(context, expr, *position)?;
        add_number(&mut numbers, value.whole())?;
    }
    Ok(numbers)
}

// Adds a number, if there is one.
fn add_number(numbers: &mut Vec<i64>, more: Option<i64>) -> Result<(), Memory>
    ensures { OnOk result (numbers.new.items ≡ numbers.old.items ++ option_to_list more) }
{
    if let Some(number) = more {
        numbers.push(number)?;
    }
    Ok(())
}

// The sum of all numbers: fewer than 2^64 of 64 bits fit in 128.
fn total(numbers: &[i64]) -> i128
    ensures { result ≡ total_of numbers.now }
{
    let mut total = 0;
    for number in numbers {
        total += i128::from(*number);
    }
    total
}

// The least of a number and others.
fn least(first: i64, others: &[i64]) -> i64
    ensures { result ≡ least_of first others.now }
{
    let mut best = first;
    for number in others {
        if *number < best {
            best = *number;
        }
    }
    best
}

// The greatest of a number and others.
fn greatest(first: i64, others: &[i64]) -> i64
    ensures { result ≡ greatest_of first others.now }
{
    let mut best = first;
    for number in others {
        if *number > best {
            best = *number;
        }
    }
    best
}

// What an aggregate makes of numbers, if there are any.
fn amount_from(op: AggregateOp, numbers: &[i64]) -> Option<Amount>
    ensures { result ≡ amount_of op numbers.now }
{
    let [first, others @ ..] = numbers else {
        return None;
    };
    match op {
        AggregateOp::Average => Some(Amount {
            top: total(numbers),
            bottom: numbers.len() as u64,
        }),
        AggregateOp::Least => Some(whole(i128::from(least(*first, others)))),
        AggregateOp::Greatest => Some(whole(i128::from(greatest(*first, others)))),
        AggregateOp::Sum => Some(whole(total(numbers))),
    }
}

// An aggregate over the members; none where none of them has a number.
fn aggregate<'a>(
    context: &mut EvalContext<'_, 'a>,
    aggregate: &'a Aggregate,
    members: &[usize],
) -> Result<Option<Amount>, Memory>
    ensures amount { IfOk result (λ amount.
        amount ≡ aggregate_in context.old aggregate.now members.now) }
    ensures context { IsSame context.old context.new }
{
    match aggregate {
        Aggregate::Count => Ok(Some(whole(members.len() as i128))),
        Aggregate::Of(op, argument) => {
            let numbers = numbers(context, &argument.expr, members)?;
            Ok(amount_from(*op, numbers.as_slice()))
        }
    }
}

// A number of 64 bits without sign and a minus fit 128 bits with sign.
fn signed(negative: bool, number: u64) -> i128
    ensures { result ≡ signed negative number }
{
    if negative {
        -i128::from(number)
    } else {
        i128::from(number)
    }
}

// What an aggregate is compared with.
fn threshold<'a>(
    context: &mut EvalContext<'_, 'a>,
    threshold: &'a Threshold,
    members: &[usize],
) -> Result<Option<Amount>, Memory>
    ensures amount { IfOk result (λ amount.
        amount ≡ threshold_in context.old threshold.now members.now) }
    ensures context { IsSame context.old context.new }
{
    match threshold {
        Threshold::Aggregate(other) => aggregate(context, other, members),
        Threshold::Number {
            negative,
            value,
            ..
        } => Ok(Some(whole(signed(*negative, *value)))),
        Threshold::Duration {
            negative,
            nanos,
            ..
        } => Ok(Some(whole(signed(*negative, *nanos)))),
    }
}

// An amount as a whole number and what remains of it.
#[derive(Clone, Copy)]
struct Divided {
    whole: i128,
    rest: u64,
}

// The quotient is rounded down, so that what remains isn't negative.
fn divide(amount: Amount) -> Divided
    requires { 0 < amount.bottom }
    ensures is { amount.top ≡ result.whole *ℤ pos amount.bottom +ℤ pos result.rest }
    ensures rest { result.rest < amount.bottom }
{
    let over = i128::from(amount.bottom);
    Divided {
        whole: amount.top.div_euclid(over),
        rest: amount.top.rem_euclid(over) as u64,
    }
}

// Which of two amounts is less, exactly: whole quotients first, and of equal ones what remains of each.
fn compare(a: Amount, b: Amount) -> Ordering
    requires some_a { 0 < a.bottom }
    requires some_b { 0 < b.bottom }
    ensures { result ≡ amount_cmp a b }
{
    let former = divide(a);
    let latter = divide(b);
    let rest = u128::from(former.rest) * u128::from(b.bottom);
    let other = u128::from(latter.rest) * u128::from(a.bottom);
    former.whole.cmp(&latter.whole).then(rest.cmp(&other))
}

/// Whether the comparison of an aggregate over the members is true. It is false where a side has no number.
pub fn is_true<'a>(
    context: &mut EvalContext<'_, 'a>,
    left: &'a Aggregate,
    op: Comparison,
    right: &'a Threshold,
    members: &[usize],
) -> Result<bool, Memory>
    ensures answer { IfOk result (λ b. b ≡ amounts_compare op
        (aggregate_in context.old left.now members.now)
        (threshold_in context.old right.now members.now)) }
    ensures context { IsSame context.old context.new }
{
    let left = aggregate(context, left, members)?;
    let right = threshold(context, right, members)?;
    Ok(amounts_compare(op, left, right))
}

// Whether a comparison of two amounts is true; it is false where one is missing.
fn amounts_compare(op: Comparison, left: Option<Amount>, right: Option<Amount>) -> bool
    requires left_some { (a : Amount) → left ≡ Some a → 0 < a.bottom }
    requires right_some { (a : Amount) → right ≡ Some a → 0 < a.bottom }
    ensures { result ≡ amounts_compare op left right }
{
    match (left, right) {
        (Some(a), Some(b)) => accepts(op, compare(a, b)),
        _ => false,
    }
}
