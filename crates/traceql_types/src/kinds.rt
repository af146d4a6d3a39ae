//! What is known of an expression's kind.

ghost use Rattle.std.specs.Prelude.{◌≡◌};
ghost use Rattle.traceql_syntax.specs.Trees.{tree};
ghost use Rattle.traceql_types.specs.Kinds.{kind_of_literal, kind_of_field, kind_of_intrinsic, kind_of, kind_of_binary, kind_of_unary, clashes, same_kind, differ, has_no_order, is_order};

use traceql_syntax::{BinaryOp, Comparison, Field, FieldExpr, Literal, UnaryOp};
use traceql_tokens::Intrinsic;

/// What is known of the kind of an expression's value before any span is looked at.
#[derive(Clone, Copy, Debug, PartialEq, Eq)]
pub enum Kind {
    /// Nothing: an attribute may have a value of any kind.
    Open,
    /// The literal `nil`, which is of no kind.
    Nil,
    /// A text.
    Text,
    /// A number or a duration.
    Number,
    /// A truth.
    Truth,
    /// A span's status.
    Status,
    /// A span's kind.
    SpanKind,
}

// A duration is a number, of nanoseconds.
fn literal_kind(literal: &Literal) -> Kind
    ensures { result ≡ kind_of_literal literal.now }
{
    match literal {
        Literal::Text(_) => Kind::Text,
        Literal::Number(_) | Literal::Duration(_) => Kind::Number,
        Literal::Truth(_) => Kind::Truth,
        Literal::Nil => Kind::Nil,
        Literal::Status(_) => Kind::Status,
        Literal::Kind(_) => Kind::SpanKind,
    }
}

// An intrinsic has the one kind of all its values; ids are texts of hexadecimal digits.
fn intrinsic_kind(intrinsic: Intrinsic) -> Kind
    ensures { result ≡ kind_of_intrinsic intrinsic }
{
    match intrinsic {
        Intrinsic::Status | Intrinsic::SpanStatus => Kind::Status,
        Intrinsic::Kind | Intrinsic::SpanKind => Kind::SpanKind,
        Intrinsic::Duration
        | Intrinsic::SpanDuration
        | Intrinsic::TraceDuration
        | Intrinsic::TraceColonDuration => Kind::Number,
        Intrinsic::Name
        | Intrinsic::SpanName
        | Intrinsic::StatusMessage
        | Intrinsic::SpanStatusMessage
        | Intrinsic::SpanId
        | Intrinsic::TraceId
        | Intrinsic::SpanParentId
        | Intrinsic::RootName
        | Intrinsic::TraceRootName
        | Intrinsic::RootServiceName
        | Intrinsic::TraceRootService
        | Intrinsic::InstrumentationName
        | Intrinsic::InstrumentationVersion => Kind::Text,
    }
}

// An attribute has whatever kind was sent, so nothing is known of it.
fn field_kind(field: &Field) -> Kind
    ensures { result ≡ kind_of_field field.now }
{
    match field {
        Field::Attribute(_, _) => Kind::Open,
        Field::Intrinsic(intrinsic) => intrinsic_kind(*intrinsic),
    }
}

// The kind of what a unary operator gives.
fn unary_kind(op: UnaryOp) -> Kind
    ensures { result ≡ kind_of_unary op }
{
    match op {
        UnaryOp::Negate => Kind::Number,
        UnaryOp::Not => Kind::Truth,
    }
}

// The kind of what a binary operator gives.
fn binary_kind(op: BinaryOp) -> Kind
    ensures { result ≡ kind_of_binary op }
{
    match op {
        BinaryOp::Or | BinaryOp::And | BinaryOp::Compare(_) => Kind::Truth,
        BinaryOp::Add
        | BinaryOp::Subtract
        | BinaryOp::Multiply
        | BinaryOp::Divide
        | BinaryOp::Remainder
        | BinaryOp::Power => Kind::Number,
    }
}

// The kind of an expression.
pub(crate) fn expr_kind(expr: &FieldExpr) -> Kind
    ensures { result ≡ kind_of (tree expr.now) }
{
    match expr {
        FieldExpr::Literal { literal, .. } => literal_kind(literal),
        FieldExpr::Field { field, .. } => field_kind(field),
        FieldExpr::Unary { op, .. } => unary_kind(*op),
        FieldExpr::Binary { op, .. } => binary_kind(*op),
        FieldExpr::Match { .. } => Kind::Truth,
    }
}

// Whether two kinds are the same one.
fn is_same(left: Kind, right: Kind) -> bool
    ensures { result ≡ same_kind left right }
{
    match (left, right) {
        (Kind::Text, Kind::Text)
        | (Kind::Number, Kind::Number)
        | (Kind::Truth, Kind::Truth)
        | (Kind::Status, Kind::Status)
        | (Kind::SpanKind, Kind::SpanKind) => true,
        _ => false,
    }
}

// Whether both kinds are known and they aren't the same.
fn are_different(left: Kind, right: Kind) -> bool
    ensures { result ≡ differ left right }
{
    match (left, right) {
        (Kind::Open, _) | (_, Kind::Open) => false,
        _ => !is_same(left, right),
    }
}

// Whether no value of this kind is less than another.
fn is_unordered(kind: Kind) -> bool
    ensures { result ≡ has_no_order kind }
{
    match kind {
        Kind::Truth | Kind::Status | Kind::SpanKind => true,
        Kind::Open | Kind::Nil | Kind::Text | Kind::Number => false,
    }
}

// Whether the comparison asks for an order.
fn asks_order(op: Comparison) -> bool
    ensures { result ≡ is_order op }
{
    match op {
        Comparison::Equal | Comparison::NotEqual => false,
        Comparison::Less | Comparison::AtMost | Comparison::Greater | Comparison::AtLeast => true,
    }
}

// Whether a comparison of these kinds clashes.
pub(crate) fn is_clash(op: Comparison, left: Kind, right: Kind) -> bool
    ensures { result ≡ clashes op left right }
{
    match (left, right) {
        (Kind::Nil, Kind::Nil) => true,
        (Kind::Nil, _) | (_, Kind::Nil) => asks_order(op),
        _ => {
            let unordered = is_unordered(left) || is_unordered(right);
            are_different(left, right) || (asks_order(op) && unordered)
        }
    }
}
