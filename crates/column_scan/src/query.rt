//! The hint of a query: from its tree to a range and a text.

ghost use Rattle.std.specs.Prelude.{◌≡◌, ◌++◌, ◌<◌, IfOk, MatchOption};
ghost use Rattle.std.specs.Option.{option_map, option_or};
ghost use Rattle.traceql_syntax.specs.Trees.{placed_option, query_tree, set_tree, tree};
ghost use Rattle.traceql_value.specs.Chains.{tree_size};
ghost use Rattle.column_scan.specs.Candidates.{hint_of};
ghost use Rattle.column_scan.specs.Sieves.{column_members, if_columns};
ghost use Rattle.column_scan.specs.Hints.{asked_text, both_text, chain_text, field_in, filter_text, is_conjunction, is_equality, literal_in, member_text, set_text, tells_text, text_of};

use crate::Hint;
use moment_range::Range;
use span_types::{Memory, Text, TryCopy};
use traceql_syntax::{BinaryOp, Comparison, Field, FieldExpr, Literal, Operand, SpansetExpr};
use traceql_tokens::{AttributeScope, Intrinsic};
use traceql_types::Checked;

/// The hint of a query that is searched for in a range. It has a text if one filter is all that spans are selected by,
/// and in that filter's chain of `&&` a member asks for a name, or for an attribute of the span or of its resource, to
/// be equal to a string: the first such string. The one error is out of memory.
pub fn hint(checked: &Checked, range: Range) -> Result<Hint, Memory>
    ensures { IfOk result (λ h. h ≡ hint_of (query_tree checked.now.query) range) }
{
    let text = copy_of(set_text(&checked.query.spansets))?;
    Ok(Hint { range, text })
}

// A copy of a text, if there is one.
pub(crate) fn copy_of(text: Option<&Text>) -> Result<Option<Text>, Memory>
    ensures { IfOk result (λ copy. copy ≡ option_map (λ t. t.now) text.entry) }
{
    match text {
        None => Ok(None),
        Some(text) => Ok(Some(text.copy()?)),
    }
}

// The text of an expression over spansets.
fn set_text(spansets: &SpansetExpr) -> Option<&Text>
    ensures { option_map (λ t. t.now) result ≡ set_text (set_tree spansets.now) }
{
    match spansets {
        SpansetExpr::Filter { condition, .. } => filter_text(condition),
        SpansetExpr::Join { .. } => None,
    }
}

// A filter without a condition asks for none.
fn filter_text(condition: &Option<Operand>) -> Option<&Text>
    ensures { option_map (λ t. t.now) result ≡ filter_text (placed_option condition.now) }
{
    match condition {
        None => None,
        Some(operand) => chain_text(&operand.expr),
    }
}

// The first text among the members of a chain of `&&`, which groups from the left. It needs no stack.
fn chain_text(expr: &FieldExpr) -> Option<&Text>
    ensures { option_map (λ t. t.now) result ≡ chain_text (tree expr.now) }
{
    let mut first = expr;
    let mut found = None;
    'down: while let Some((left, right)) = sides(first) {
        found = first_of(member_text(right), found);
        first = left;
    }
    first_of(member_text(first), found)
}

// The two sides of a `&&`: a chain up to it, and the member after it.
pub(crate) fn sides(expr: &FieldExpr) -> Option<(&FieldExpr, &FieldExpr)>
    ensures text { MatchOption result (chain_text (tree expr.now) ≡ member_text (tree expr.now))
        (λ p. (chain_text (tree expr.now)
        ≡ option_or (chain_text (tree p.0.now)) (member_text (tree p.1.now)))
        × (tree_size (tree p.0.now) < tree_size (tree expr.now))) }
    ensures members { MatchOption result
        (column_members (tree expr.now) ≡ if_columns (tree expr.now))
        (λ p. column_members (tree expr.now)
        ≡ column_members (tree p.0.now) ++ if_columns (tree p.1.now)) }
{
    match expr {
        FieldExpr::Binary {
            op,
            left,
            right,
            ..
        } if is_conjunction(*op) => Some((&left.expr, &right.expr)),
        _ => None,
    }
}

// The first of two texts that is there.
fn first_of<'q>(text: Option<&'q Text>, other: Option<&'q Text>) -> Option<&'q Text>
    ensures { option_map (λ t. t.now) result
        ≡ option_or (option_map (λ t. t.now) text.entry) (option_map (λ t. t.now) other.entry) }
{
    match text {
        Some(_) => text,
        None => other,
    }
}

// The text of a member, if it says that a field is equal to a text.
fn member_text(expr: &FieldExpr) -> Option<&Text>
    ensures { option_map (λ t. t.now) result ≡ member_text (tree expr.now) }
{
    match expr {
        FieldExpr::Binary {
            op,
            left,
            right,
            ..
        } if is_equality(*op) => both_text(&left.expr, &right.expr),
        _ => None,
    }
}

// The text that a field is asked to be equal to, if the sides are a field and a literal.
fn both_text<'q>(left: &FieldExpr, right: &'q FieldExpr) -> Option<&'q Text>
    ensures { option_map (λ t. t.now) result
        ≡ both_text (field_in (tree left.now)) (literal_in (tree right.now)) }
{
    match (left, right) {
        (FieldExpr::Field { field, .. }, FieldExpr::Literal { literal, .. }) => {
            asked_text(field, literal)
        }
        _ => None,
    }
}

// The literal's text, if a span that has a text in this field holds it.
fn asked_text<'q>(field: &Field, literal: &'q Literal) -> Option<&'q Text>
    ensures { option_map (λ t. t.now) result ≡ asked_text field.now literal.now }
{
    if tells_text(field) {
        return text_of(literal);
    }
    None
}

// Other literals than texts make no hint, since a hint tests texts alone.
fn text_of(literal: &Literal) -> Option<&Text>
    ensures { option_map (λ t. t.now) result ≡ text_of literal.now }
{
    match literal {
        Literal::Text(text) => Some(text),
        _ => None,
    }
}

// Whether a span that has a text in this field holds it.
fn tells_text(field: &Field) -> bool
    ensures { result ≡ tells_text field.now }
{
    match field {
        Field::Attribute(AttributeScope::Instrumentation, _) => false,
        Field::Attribute(_, _) => true,
        Field::Intrinsic(Intrinsic::Name | Intrinsic::SpanName) => true,
        Field::Intrinsic(_) => false,
    }
}

// Whether the operator is `=`.
fn is_equality(op: BinaryOp) -> bool
    ensures { result ≡ is_equality op }
{
    matches!(op, BinaryOp::Compare(Comparison::Equal))
}

// Whether the operator is `&&`.
fn is_conjunction(op: BinaryOp) -> bool
    ensures { result ≡ is_conjunction op }
{
    matches!(op, BinaryOp::And)
}
