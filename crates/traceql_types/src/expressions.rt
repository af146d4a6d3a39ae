//! What an expression is refused for its kinds, from its parts up: the earliest refusal stands.

ghost use Rattle.std.specs.Prelude.{◌≡◌, List, ◌++◌, IsTrue, ◌↔◌};
ghost use Rattle.traceql_syntax.specs.Trees.{tree, placed};
ghost use Rattle.traceql_types.specs.declared.errors.TypeError.{TypeError as Refusal};
ghost use Rattle.traceql_types.specs.Order.{Precedes, IsFirstOf};
ghost use Rattle.traceql_types.specs.Refusals.{stray_nil, unless_truth, unless_number, unless_text, clash, as_truth, as_number, under_unary, under_binary, under_match, expr_refusals, own_division, divisions};

use crate::TypeError;
use crate::kinds::{Kind, expr_kind, is_clash};
use traceql_syntax::{BinaryOp, Comparison, FieldExpr, Literal, Operand, UnaryOp};

impl TypeError {
    ghost use Rattle.traceql_types.specs.Order.{place, number};

    // Where the refusal stands; being out of memory stands before the text.
    pub(crate) fn place(self) -> u64
        ensures { result ≡ place self }
    {
        match self {
            TypeError::KindClash { at }
            | TypeError::NotTruth { at }
            | TypeError::DivisionInAggregate { at }
            | TypeError::NotNumber { at }
            | TypeError::BadPattern { at }
            | TypeError::PatternTooBig { at } => at,
            TypeError::Memory => 0,
        }
    }

    // Which of several refusals at one place goes first: the one with the smallest number.
    fn number(self) -> u8
        ensures { result ≡ number self }
    {
        match self {
            TypeError::KindClash { .. } => 1,
            TypeError::NotTruth { .. } => 2,
            TypeError::DivisionInAggregate { .. } => 3,
            TypeError::NotNumber { .. } => 4,
            TypeError::BadPattern { .. } => 5,
            TypeError::PatternTooBig { .. } => 6,
            TypeError::Memory => 7,
        }
    }

    // Whether this refusal stands at an earlier place than the other, or goes before it at the same place.
    pub(crate) fn precedes(self, other: TypeError) -> bool
        ensures { IsTrue result ↔ Precedes self other }
    {
        let (place, later) = (self.place(), other.place());
        place < later || (place == later && self.number() <= other.number())
    }
}

// The earlier of two refusals.
pub(crate) fn earlier(left: Option<TypeError>, right: Option<TypeError>) -> Option<TypeError>
    ensures { (xs ys : List Refusal) → IsFirstOf xs left → IsFirstOf ys right
        → IsFirstOf (xs ++ ys) result }
{
    match (left, right) {
        (None, _) => right,
        (_, None) => left,
        (Some(a), Some(b)) => { if a.precedes(b) { left } else { right } }
    }
}

// `nil` where it isn't compared.
pub(crate) fn nil_refusal(expr: &FieldExpr) -> Option<TypeError>
    ensures { result ≡ stray_nil (tree expr.now) }
{
    match expr {
        FieldExpr::Literal {
            at,
            literal: Literal::Nil,
        } => Some(TypeError::KindClash { at: *at }),
        _ => None,
    }
}

// A known kind other than truth.
fn truth_refusal(at: u64, kind: Kind) -> Option<TypeError>
    ensures { result ≡ unless_truth at kind }
{
    match kind {
        Kind::Open | Kind::Nil | Kind::Truth => None,
        Kind::Text | Kind::Number | Kind::Status | Kind::SpanKind => {
            Some(TypeError::NotTruth { at })
        }
    }
}

// A known kind other than number.
fn number_refusal(at: u64, kind: Kind) -> Option<TypeError>
    ensures { result ≡ unless_number at kind }
{
    match kind {
        Kind::Open | Kind::Nil | Kind::Number => None,
        Kind::Text | Kind::Truth | Kind::Status | Kind::SpanKind => {
            Some(TypeError::NotNumber { at })
        }
    }
}

// A known kind other than text.
fn text_refusal(at: u64, kind: Kind) -> Option<TypeError>
    ensures { result ≡ unless_text at kind }
{
    match kind {
        Kind::Open | Kind::Nil | Kind::Text => None,
        Kind::Number | Kind::Truth | Kind::Status | Kind::SpanKind => {
            Some(TypeError::KindClash { at })
        }
    }
}

// A comparison whose sides don't go together.
fn clash_refusal(at: u64, op: Comparison, left: Kind, right: Kind) -> Option<TypeError>
    ensures { result ≡ clash at op left right }
{
    if is_clash(op, left, right) {
        Some(TypeError::KindClash { at })
    } else {
        None
    }
}

// What an operand itself is refused for where a truth is wanted.
pub(crate) fn refused_as_truth(operand: &Operand) -> Option<TypeError>
    ensures { IsFirstOf (as_truth (placed operand.now)) result }
{
    let kind = expr_kind(&operand.expr);
    earlier(nil_refusal(&operand.expr), truth_refusal(operand.at, kind))
}

// What an operand itself is refused for where a number is wanted.
pub(crate) fn refused_as_number(operand: &Operand) -> Option<TypeError>
    ensures { IsFirstOf (as_number (placed operand.now)) result }
{
    let kind = expr_kind(&operand.expr);
    earlier(nil_refusal(&operand.expr), number_refusal(operand.at, kind))
}

// What the operand of a unary operator is refused for.
fn unary_refusal(op: UnaryOp, operand: &Operand) -> Option<TypeError>
    ensures { IsFirstOf (under_unary op (placed operand.now)) result }
{
    match op {
        UnaryOp::Negate => refused_as_number(operand),
        UnaryOp::Not => refused_as_truth(operand),
    }
}

// What a binary operator and its operands are refused for.
fn binary_refusal(at: u64, op: BinaryOp, left: &Operand, right: &Operand) -> Option<TypeError>
    ensures { IsFirstOf (under_binary at op (placed left.now) (placed right.now)) result }
{
    match op {
        BinaryOp::Or | BinaryOp::And => earlier(refused_as_truth(left), refused_as_truth(right)),
        BinaryOp::Compare(comparison) => clash_refusal(
            at,
            comparison,
            expr_kind(&left.expr),
            expr_kind(&right.expr),
        ),
        BinaryOp::Add
        | BinaryOp::Subtract
        | BinaryOp::Multiply
        | BinaryOp::Divide
        | BinaryOp::Remainder
        | BinaryOp::Power => earlier(refused_as_number(left), refused_as_number(right)),
    }
}

// What a match with a pattern is refused for, besides its pattern.
fn match_refusal(at: u64, left: &Operand) -> Option<TypeError>
    ensures { IsFirstOf (under_match at (tree left.now.expr)) result }
{
    let kind = expr_kind(&left.expr);
    earlier(nil_refusal(&left.expr), text_refusal(at, kind))
}

// The earliest refusal of the parts of an expression.
pub(crate) fn expr_refusal(expr: &FieldExpr) -> Option<TypeError>
    ensures { IsFirstOf (expr_refusals (tree expr.now)) result }
{
    match expr {
        FieldExpr::Literal { .. } | FieldExpr::Field { .. } => None,
        FieldExpr::Unary { op, operand, .. } => {
            earlier(unary_refusal(*op, operand), expr_refusal(&operand.expr))
        }
        FieldExpr::Binary {
            at,
            op,
            left,
            right,
        } => {
            let own = binary_refusal(*at, *op, left, right);
            let on_left = earlier(own, expr_refusal(&left.expr));
            earlier(on_left, expr_refusal(&right.expr))
        }
        FieldExpr::Match { at, left, .. } => {
            earlier(match_refusal(*at, left), expr_refusal(&left.expr))
        }
    }
}

// A division at this place, where the operator is one.
fn division_refusal(at: u64, op: BinaryOp) -> Option<TypeError>
    ensures { result ≡ own_division at op }
{
    match op {
        BinaryOp::Divide => Some(TypeError::DivisionInAggregate { at }),
        _ => None,
    }
}

// The earliest division in an expression.
pub(crate) fn division(expr: &FieldExpr) -> Option<TypeError>
    ensures { IsFirstOf (divisions (tree expr.now)) result }
{
    match expr {
        FieldExpr::Literal { .. } | FieldExpr::Field { .. } => None,
        FieldExpr::Unary { operand, .. } => division(&operand.expr),
        FieldExpr::Binary {
            at,
            op,
            left,
            right,
        } => {
            let on_left = earlier(division_refusal(*at, *op), division(&left.expr));
            earlier(on_left, division(&right.expr))
        }
        FieldExpr::Match { left, .. } => division(&left.expr),
    }
}
