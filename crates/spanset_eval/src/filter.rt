//! Filters, and what expressions are, for the spans of a trace by their positions: the step from a span's value to
//! marks and members.

ghost use Rattle.std.specs.Prelude.{◌≡◌, length, map, filter, IfOk};
ghost use Rattle.traceql_value.specs.EvalContexts.{context_rows, IsSame};
ghost use Rattle.traceql_value.specs.ValueRef.{ref_value};
ghost use Rattle.spanset_eval.specs.InContext.{filters_row, filters_position, filters_span, value_in};

use crate::groups::Positions;
use span_types::{Marks, Memory, Span};
use traceql_syntax::{FieldExpr, Operand};
use traceql_value::{EvalContext, ValueRef};

// Whether the filter keeps a span: its condition is true of the span, or it has none.
fn filter_span(
    context: &mut EvalContext<'_, '_>,
    condition: &Option<Operand>,
    span: &Span,
) -> Result<bool, Memory>
    ensures kept { IfOk result (λ b. b ≡ filters_span context.old condition.now span.now) }
    ensures context { IsSame context.old context.new }
{
    match condition {
        None => Ok(true),
        Some(operand) => context.is_so(&operand.expr, span),
    }
}

// Whether the filter keeps the span at a position; it doesn't where there is none.
fn filter_position(
    context: &mut EvalContext<'_, '_>,
    condition: &Option<Operand>,
    position: usize,
) -> Result<bool, Memory>
    ensures kept { IfOk result (λ b. b ≡ filters_position context.old condition.now position) }
    ensures context { IsSame context.old context.new }
{
    match context.rows().get(position) {
        None => Ok(false),
        Some(row) => filter_span(context, condition, &row.span),
    }
}

/// Marks on the spans of the trace that the filter keeps, one for each row.
pub fn filter_rows(
    context: &mut EvalContext<'_, '_>,
    condition: &Option<Operand>,
) -> Result<Marks, Memory>
    ensures marks { IfOk result (λ marks.
        marks ≡ map (filters_row context.old condition.now) (context_rows context.old)) }
    ensures context { IsSame context.old context.new }
{
    let rows = context.rows();
    let mut marks = Vec::with_capacity(context.alloc(), rows.len())?;
    for row in rows {
        marks.push(filter_span(context, condition, &row.span)?)?;
    }
    Ok(Marks::of(marks))
}

/// The members that the filter keeps, in the same order.
pub fn filter_members(
    context: &mut EvalContext<'_, '_>,
    condition: &Option<Operand>,
    members: &[usize],
) -> Result<Positions, Memory>
    ensures kept { IfOk result (λ kept.
        kept ≡ filter (filters_position context.old condition.now) members.now) }
    ensures context { IsSame context.old context.new }
{
    let mut kept = Vec::new(context.alloc());
    for position in members {
        if filter_position(context, condition, *position)? {
            kept.push(*position)?;
        }
    }
    Ok(Positions::of(kept))
}

/// What the expression is for the span at a position, looked at where it stands; nil where there is no span.
pub fn value_at<'a>(
    context: &mut EvalContext<'_, 'a>,
    expr: &'a FieldExpr,
    position: usize,
) -> Result<ValueRef<'a>, Memory>
    ensures value { IfOk result (λ v. ref_value v ≡ value_in context.old expr.now position) }
    ensures context { IsSame context.old context.new }
{
    match context.rows().get(position) {
        None => Ok(ValueRef::Nil),
        Some(row) => context.evaluate(expr, &row.span),
    }
}
