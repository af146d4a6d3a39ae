//! What an expression is for a span; its texts stay where they stand.

ghost use Rattle.std.specs.Prelude.{◌≡◌, IfOk, reverse};
ghost use Rattle.traceql_syntax.specs.Trees.{tree};
ghost use Rattle.traceql_value.specs.Chains.{Chains};
ghost use Rattle.traceql_value.specs.Meaning.{apply_binary, literal_value, is_literal_nil, value_of};
ghost use Rattle.traceql_value.specs.ValueRef.{ref_value};

use crate::fields::whole_number;
use crate::matchers::Matchers;
use crate::operators::{apply_binary, apply_unary, decide_by_left};
use crate::trace::{Trace, field};
use crate::value_ref::ValueRef;
use span_types::{Memory, Span};
use std::alloc::Global;
use traceql_syntax::{BinaryOp, FieldExpr, Literal};

/// How many operators, each the left operand of the next, are evaluated by recursion. The others of a longer chain,
/// and a query's text has room for thousands, are kept in a list: so a chain needs no more stack than this many.
pub(crate) const RECURSION: u32 = 32;

/// A binary operator whose left operand is evaluated.
#[derive(Clone, Copy)]
pub(crate) struct Pending<'s> {
    /// The operator.
    pub(crate) op: BinaryOp,
    /// Whether its left operand is the literal `nil`.
    pub(crate) nil_left: bool,
    /// Its right operand.
    pub(crate) right: &'s FieldExpr,
}

// The value of a literal.
fn literal_value(literal: &Literal) -> ValueRef<'_>
    ensures { ref_value result ≡ literal_value literal.now }
{
    match literal {
        Literal::Text(text) => ValueRef::Text(text.as_str()),
        Literal::Number(number) => whole_number(*number),
        Literal::Duration(nanos) => whole_number(*nanos),
        Literal::Truth(truth) => ValueRef::Truth(*truth),
        Literal::Nil => ValueRef::Nil,
        Literal::Status(status) => ValueRef::Status(*status),
        Literal::Kind(kind) => ValueRef::Kind(*kind),
    }
}

// Whether an expression is the literal `nil`.
fn is_literal_nil(expr: &FieldExpr) -> bool
    ensures { result ≡ is_literal_nil (tree expr.now) }
{
    match expr {
        FieldExpr::Literal { literal, .. } => match literal {
            Literal::Nil => true,
            _ => false,
        },
        _ => false,
    }
}

/// What an expression is for a span. So many operators may be evaluated by recursion on their left operands.
#[cycle(evaluate)]
#[tactic(auto, unfolding(crate::specs::Meaning::value_of))]
pub(crate) fn evaluate<'s>(
    alloc: Global,
    trace: &Trace<'s>,
    matchers: &mut Matchers<'_>,
    expr: &'s FieldExpr,
    span: &'s Span,
    recursion: u32,
) -> Result<ValueRef<'s>, Memory>
    ensures value { IfOk result (λ v.
        ref_value v ≡ value_of matchers.old.patterns.now trace.now.rows.now span.now
        (tree expr.now)) }
    ensures same { matchers.new.patterns.now ≡ matchers.old.patterns.now }
{
    match expr {
        FieldExpr::Literal { literal, .. } => Ok(literal_value(literal)),
        FieldExpr::Field { field: asked, .. } => field(alloc, asked, trace, span),
        FieldExpr::Unary { op, operand, .. } => {
            let value = evaluate(alloc, trace, matchers, &operand.expr, span, recursion)?;
            Ok(ValueRef::of(apply_unary(*op, &value)))
        }
        FieldExpr::Binary {
            op,
            left,
            right,
            ..
        } => {
            let value = evaluate_left(alloc, trace, matchers, &left.expr, span, recursion)?;
            let pending = Pending {
                op: *op,
                nil_left: is_literal_nil(&left.expr),
                right: &right.expr,
            };
            finish(alloc, trace, matchers, pending, value, span, recursion)
        }
        FieldExpr::Match {
            negated,
            left,
            pattern_at,
            pattern,
            ..
        } => {
            let value = evaluate(alloc, trace, matchers, &left.expr, span, recursion)?;
            let truth = matchers.matched(*pattern_at, pattern.as_str(), *negated, &value);
            Ok(ValueRef::Truth(truth))
        }
    }
}

// What a left operand is: by one recursion more, where there may be one, and else by a list.
#[cycle(evaluate)]
fn evaluate_left<'s>(
    alloc: Global,
    trace: &Trace<'s>,
    matchers: &mut Matchers<'_>,
    expr: &'s FieldExpr,
    span: &'s Span,
    recursion: u32,
) -> Result<ValueRef<'s>, Memory>
    ensures value { IfOk result (λ v.
        ref_value v ≡ value_of matchers.old.patterns.now trace.now.rows.now span.now
        (tree expr.now)) }
    ensures same { matchers.new.patterns.now ≡ matchers.old.patterns.now }
{
    match recursion.checked_sub(1) {
        Some(recursion) => evaluate(alloc, trace, matchers, expr, span, recursion),
        None => evaluate_chain(alloc, trace, matchers, expr, span),
    }
}

// What an operator gives, whose left operand is this value. Its right operand is evaluated where the left one alone
// doesn't say it.
#[cycle(evaluate)]
fn finish<'s>(
    alloc: Global,
    trace: &Trace<'s>,
    matchers: &mut Matchers<'_>,
    pending: Pending<'s>,
    left: ValueRef<'s>,
    span: &'s Span,
    recursion: u32,
) -> Result<ValueRef<'s>, Memory>
    ensures value { IfOk result
        (λ v. ref_value v ≡ apply_binary pending.entry.op pending.entry.nil_left
        (is_literal_nil (tree pending.entry.right.now)) (ref_value left.entry)
        (value_of matchers.old.patterns.now trace.now.rows.now span.now
        (tree pending.entry.right.now))) }
    ensures same { matchers.new.patterns.now ≡ matchers.old.patterns.now }
{
    let Pending {
        op,
        nil_left,
        right,
    } = pending;
    if let Some(truth) = decide_by_left(op, &left) {
        return Ok(ValueRef::Truth(truth));
    }
    let value = evaluate(alloc, trace, matchers, right, span, recursion)?;
    let nil_right = is_literal_nil(right);
    Ok(ValueRef::of(apply_binary(op, nil_left, nil_right, &left, &value)))
}

// The first operand of a chain of operators, and what is left to do then, the innermost operator last.
fn unchain<'s>(
    alloc: Global,
    expr: &'s FieldExpr,
) -> Result<(&'s FieldExpr, Vec<Pending<'s>>), Memory>
    ensures { IfOk result (λ r. Chains (tree r.0.now) (reverse r.1.items) (tree expr.now)) }
{
    let mut pending = Vec::new(alloc);
    let mut first = expr;
    'down: while let FieldExpr::Binary {
        op,
        left,
        right,
        ..
    } = first
    {
        pending.push(Pending {
            op: *op,
            nil_left: is_literal_nil(&left.expr),
            right: &right.expr,
        })?;
        first = &left.expr;
    }
    Ok((first, pending))
}

// What an expression is, whose operators are kept in a list as far as each is the left operand of the next.
#[cycle(evaluate)]
fn evaluate_chain<'s>(
    alloc: Global,
    trace: &Trace<'s>,
    matchers: &mut Matchers<'_>,
    expr: &'s FieldExpr,
    span: &'s Span,
) -> Result<ValueRef<'s>, Memory>
    ensures value { IfOk result (λ v.
        ref_value v ≡ value_of matchers.old.patterns.now trace.now.rows.now span.now
        (tree expr.now)) }
    ensures same { matchers.new.patterns.now ≡ matchers.old.patterns.now }
{
    let (first, pending) = unchain(alloc, expr)?;
    let mut pending = pending;
    let mut value = evaluate(alloc, trace, matchers, first, span, 0)?;
    'up: while let Some(outer) = pending.pop() {
        value = finish(alloc, trace, matchers, outer, value, span, 0)?;
    }
    Ok(value)
}
