//! Writing field expressions, filters and expressions over spansets: trees to tokens.

ghost use Rattle.std.specs.Prelude.{◌≡◌, OnOk};
ghost use Rattle.traceql_syntax.specs.Trees.{tree, placed_option, set_tree};
ghost use Rattle.traceql_print.specs.Kinds as kinds;
ghost use Rattle.traceql_print.specs.Printer.{put_all};

use crate::printer::Printer;
use crate::signs::{binary_sign, match_sign, set_sign, unary_sign};
use span_types::Memory;
use traceql_syntax::{FieldExpr, Operand, SpansetExpr};
use traceql_tokens::Sign;

/// Whether an expression is an operator between two operands, or a match with a pattern.
fn is_binary(expr: &FieldExpr) -> bool
    ensures { result ≡ kinds.is_binary (tree expr.now) }
{
    matches!(expr, FieldExpr::Binary { .. } | FieldExpr::Match { .. })
}

/// Writes an operand, in parentheses where it is binary itself.
#[cycle(exprs)]
fn write_operand(printer: &mut Printer, operand: &Operand) -> Result<(), Memory>
    ensures { OnOk result
        (printer.new ≡ put_all printer.old
        (kinds.operand (kinds.is_binary (tree operand.now.expr))
        (kinds.expr_kinds (tree operand.now.expr)))) }
{
    if !is_binary(&operand.expr) {
        return write_expr(printer, &operand.expr);
    }
    printer.sign(Sign::OpenParen)?;
    write_expr(printer, &operand.expr)?;
    printer.sign(Sign::CloseParen)
}

/// Writes an expression.
#[cycle(exprs)]
pub(crate) fn write_expr(printer: &mut Printer, expr: &FieldExpr) -> Result<(), Memory>
    ensures { OnOk result (printer.new ≡ put_all printer.old (kinds.expr_kinds (tree expr.now))) }
{
    match expr {
        FieldExpr::Literal { literal, .. } => printer.literal(literal),
        FieldExpr::Field { field, .. } => printer.field(field),
        FieldExpr::Unary { op, operand, .. } => {
            printer.sign(unary_sign(*op))?;
            write_operand(printer, operand)
        }
        FieldExpr::Binary {
            op,
            left,
            right,
            ..
        } => {
            write_operand(printer, left)?;
            printer.sign(binary_sign(*op))?;
            write_operand(printer, right)
        }
        FieldExpr::Match {
            negated,
            left,
            pattern,
            ..
        } => {
            write_operand(printer, left)?;
            printer.sign(match_sign(*negated))?;
            printer.string(pattern.as_str())
        }
    }
}

/// Writes what stands in the braces of a filter.
fn write_condition(printer: &mut Printer, condition: &Option<Operand>) -> Result<(), Memory>
    ensures { OnOk result
        (printer.new ≡ put_all printer.old (kinds.condition_kinds (placed_option condition.now))) }
{
    match condition {
        Some(operand) => write_expr(printer, &operand.expr),
        None => Ok(()),
    }
}

/// Writes a filter with its braces.
pub(crate) fn write_filter(printer: &mut Printer, condition: &Option<Operand>) -> Result<(), Memory>
    ensures { OnOk result
        (printer.new ≡ put_all printer.old (kinds.filter_kinds (placed_option condition.now))) }
{
    printer.sign(Sign::OpenBrace)?;
    write_condition(printer, condition)?;
    printer.sign(Sign::CloseBrace)
}

/// Whether an expression over spansets is an operator between two.
fn is_join(spansets: &SpansetExpr) -> bool
    ensures { result ≡ kinds.is_join (set_tree spansets.now) }
{
    matches!(spansets, SpansetExpr::Join { .. })
}

/// Writes an operand between spansets, in parentheses where it is an operator between spansets itself.
#[cycle(sets)]
fn write_set_operand(printer: &mut Printer, operand: &SpansetExpr) -> Result<(), Memory>
    ensures { OnOk result
        (printer.new ≡ put_all printer.old
        (kinds.operand (kinds.is_join (set_tree operand.now))
        (kinds.set_kinds (set_tree operand.now)))) }
{
    if !is_join(operand) {
        return write_set(printer, operand);
    }
    printer.sign(Sign::OpenParen)?;
    write_set(printer, operand)?;
    printer.sign(Sign::CloseParen)
}

/// Writes an expression over spansets.
#[cycle(sets)]
pub(crate) fn write_set(printer: &mut Printer, spansets: &SpansetExpr) -> Result<(), Memory>
    ensures { OnOk result
        (printer.new ≡ put_all printer.old (kinds.set_kinds (set_tree spansets.now))) }
{
    match spansets {
        SpansetExpr::Filter { condition, .. } => write_filter(printer, condition),
        SpansetExpr::Join {
            op,
            left,
            right,
            ..
        } => {
            write_set_operand(printer, left)?;
            printer.sign(set_sign(*op))?;
            write_set_operand(printer, right)
        }
    }
}
