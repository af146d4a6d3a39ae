//! The sieve of a query: from its tree to those members of its filter that columns can answer.

ghost use Rattle.std.specs.Prelude.{◌≡◌, ◌++◌, [], IfOk, OnOk, if◌then◌else◌};
ghost use Rattle.traceql_syntax.specs.Trees.{placed_option, query_tree, set_tree, tree};
ghost use Rattle.column_scan.specs.Sieves.{column_members, filter_members, has_all_moments, hints_the_kept, if_columns, is_column, reads_columns, set_members, sieve_of};
ghost use Rattle.column_scan.specs.Sifting.{trees_of};

use crate::query::{hint, sides};
use crate::{Hint, Sieve};
use moment_range::Range;
use span_types::Memory;
use std::alloc::Global;
use traceql_syntax::{Field, FieldExpr, Operand, SpansetExpr};
use traceql_tokens::Intrinsic;
use traceql_types::Checked;

/// The sieve of a query that is searched for in a range: its hint and, if one filter is all that spans are selected
/// by, those members of that filter's chain of `&&` that ask for a span's kind, its status and its duration alone.
/// Without a text, and with moments out of the range, there are no members: the span that the filter keeps needn't be
/// the one that starts in the range. The one error is out of memory.
pub fn sieve<'q>(alloc: Global, checked: &'q Checked, range: Range) -> Result<Sieve<'q>, Memory>
    ensures { IfOk result
        (λ s. s ≡ sieve_of checked.now.patterns (query_tree checked.now.query) range) }
{
    let hint = hint(checked, range)?;
    let members = kept_members(alloc, &hint, &checked.query.spansets)?;
    Ok(Sieve {
        hint,
        checked: Some(checked),
        members,
    })
}

// The members of an expression over spansets, if the span that a filter keeps is one of those that the hint asks for.
fn kept_members<'q>(
    alloc: Global,
    hint: &Hint,
    spansets: &'q SpansetExpr,
) -> Result<Vec<&'q FieldExpr>, Memory>
    ensures { IfOk result (λ members. trees_of members.items
        ≡ (if hints_the_kept hint.now then set_members (set_tree spansets.now) else [])) }
{
    if hints_the_kept(hint) {
        return set_members(alloc, spansets);
    }
    Ok(Vec::new(alloc))
}

// Whether the span that a filter keeps is one of those that the hint asks for.
fn hints_the_kept(hint: &Hint) -> bool
    ensures { result ≡ hints_the_kept hint.now }
{
    hint.text.is_some() || has_all_moments(hint.range)
}

// Whether the search has neither start nor end: then whatever span a filter keeps is hinted.
fn has_all_moments(range: Range) -> bool
    ensures { result ≡ has_all_moments range }
{
    range.from == 0 && range.until.is_none()
}

// An operator between spansets has none: which of its sides a span has to meet isn't asked here.
fn set_members<'q>(alloc: Global, spansets: &'q SpansetExpr) -> Result<Vec<&'q FieldExpr>, Memory>
    ensures { IfOk result
        (λ members. trees_of members.items ≡ set_members (set_tree spansets.now)) }
{
    match spansets {
        SpansetExpr::Filter { condition, .. } => filter_members(alloc, condition),
        SpansetExpr::Join { .. } => Ok(Vec::new(alloc)),
    }
}

// A filter without a condition has none.
fn filter_members<'q>(
    alloc: Global,
    condition: &'q Option<Operand>,
) -> Result<Vec<&'q FieldExpr>, Memory>
    ensures { IfOk result
        (λ members. trees_of members.items ≡ filter_members (placed_option condition.now)) }
{
    match condition {
        None => Ok(Vec::new(alloc)),
        Some(operand) => column_members(alloc, &operand.expr),
    }
}

// The members of a chain of `&&`, which groups from the left. It needs no stack, and finds the last member first.
fn column_members<'q>(alloc: Global, expr: &'q FieldExpr) -> Result<Vec<&'q FieldExpr>, Memory>
    ensures { IfOk result (λ members. trees_of members.items ≡ column_members (tree expr.now)) }
{
    let mut members = Vec::new(alloc);
    let mut first = expr;
    'down: while let Some((left, right)) = sides(first) {
        add_columns(right, &mut members)?;
        first = left;
    }
    add_columns(first, &mut members)?;
    members.reverse();
    Ok(members)
}

// Adds a member, if it asks for columns alone.
fn add_columns<'q>(expr: &'q FieldExpr, members: &mut Vec<&'q FieldExpr>) -> Result<(), Memory>
    ensures { OnOk result
        (trees_of members.new.items ≡ trees_of members.old.items ++ if_columns (tree expr.now)) }
{
    if reads_columns(expr) {
        members.push(expr)?;
    }
    Ok(())
}

// Whether an expression asks for columns alone.
fn reads_columns(expr: &FieldExpr) -> bool
    ensures { result ≡ reads_columns (tree expr.now) }
{
    match expr {
        FieldExpr::Literal { .. } => true,
        FieldExpr::Field { field, .. } => is_column(field),
        FieldExpr::Unary { operand, .. } => reads_columns(&operand.expr),
        FieldExpr::Binary { left, right, .. } => {
            reads_columns(&left.expr) && reads_columns(&right.expr)
        }
        FieldExpr::Match { left, .. } => reads_columns(&left.expr),
    }
}

// Whether a field is the kind, the status or the duration of a span.
fn is_column(field: &Field) -> bool
    ensures { result ≡ is_column field.now }
{
    matches!(
        field,
        Field::Intrinsic(
            Intrinsic::Status
                | Intrinsic::SpanStatus
                | Intrinsic::Kind
                | Intrinsic::SpanKind
                | Intrinsic::Duration
                | Intrinsic::SpanDuration
        )
    )
}
