//! Which sign or word each operator and literal is written with.

ghost use Rattle.std.specs.Prelude.{◌≡◌};
ghost use Rattle.traceql_print.specs.Signs as signs;

use span_types::{SpanKind, StatusCode};
use traceql_syntax::{AggregateOp, BinaryOp, Comparison, Relation, Side, SpansetOp, UnaryOp};
use traceql_tokens::{Sign, Word};

/// The sign of a unary operator.
pub(crate) fn unary_sign(op: UnaryOp) -> Sign
    ensures { result ≡ signs.unary_sign op }
{
    match op {
        UnaryOp::Negate => Sign::Minus,
        UnaryOp::Not => Sign::Bang,
    }
}

/// The sign of a comparison.
pub(crate) fn comparison_sign(op: Comparison) -> Sign
    ensures { result ≡ signs.comparison_sign op }
{
    match op {
        Comparison::Equal => Sign::Equal,
        Comparison::NotEqual => Sign::BangEqual,
        Comparison::Less => Sign::Less,
        Comparison::AtMost => Sign::LessEqual,
        Comparison::Greater => Sign::Greater,
        Comparison::AtLeast => Sign::GreaterEqual,
    }
}

/// The sign of a binary operator.
pub(crate) fn binary_sign(op: BinaryOp) -> Sign
    ensures { result ≡ signs.binary_sign op }
{
    match op {
        BinaryOp::Or => Sign::BarBar,
        BinaryOp::And => Sign::AmpAmp,
        BinaryOp::Compare(comparison) => comparison_sign(comparison),
        BinaryOp::Add => Sign::Plus,
        BinaryOp::Subtract => Sign::Minus,
        BinaryOp::Multiply => Sign::Star,
        BinaryOp::Divide => Sign::Slash,
        BinaryOp::Remainder => Sign::Percent,
        BinaryOp::Power => Sign::Caret,
    }
}

/// The sign of a match with a pattern, or of its opposite.
pub(crate) fn match_sign(negated: bool) -> Sign
    ensures { result ≡ signs.match_sign negated }
{
    if negated {
        Sign::BangTilde
    } else {
        Sign::EqualTilde
    }
}

/// The sign of a relation without prefix.
fn plain_sign(relation: Relation) -> Sign
    ensures { result ≡ signs.related_sign relation Side.Right }
{
    match relation {
        Relation::Child => Sign::Greater,
        Relation::Descendant => Sign::GreaterGreater,
        Relation::Parent => Sign::Less,
        Relation::Ancestor => Sign::LessLess,
        Relation::Sibling => Sign::Tilde,
    }
}

/// The sign of a relation with the prefix `!`.
fn unrelated_sign(relation: Relation) -> Sign
    ensures { result ≡ signs.related_sign relation Side.Unrelated }
{
    match relation {
        Relation::Child => Sign::BangGreater,
        Relation::Descendant => Sign::BangGreaterGreater,
        Relation::Parent => Sign::BangLess,
        Relation::Ancestor => Sign::BangLessLess,
        Relation::Sibling => Sign::BangTilde,
    }
}

/// The sign of a relation with the prefix `&`.
fn both_sign(relation: Relation) -> Sign
    ensures { result ≡ signs.related_sign relation Side.Both }
{
    match relation {
        Relation::Child => Sign::AmpGreater,
        Relation::Descendant => Sign::AmpGreaterGreater,
        Relation::Parent => Sign::AmpLess,
        Relation::Ancestor => Sign::AmpLessLess,
        Relation::Sibling => Sign::AmpTilde,
    }
}

/// The sign of an operator between spansets.
pub(crate) fn set_sign(op: SpansetOp) -> Sign
    ensures { result ≡ signs.set_sign op }
{
    match op {
        SpansetOp::And => Sign::AmpAmp,
        SpansetOp::Or => Sign::BarBar,
        SpansetOp::Related(relation, Side::Right) => plain_sign(relation),
        SpansetOp::Related(relation, Side::Unrelated) => unrelated_sign(relation),
        SpansetOp::Related(relation, Side::Both) => both_sign(relation),
    }
}

/// The word of an aggregate with an argument.
pub(crate) fn aggregate_word(op: AggregateOp) -> Word
    ensures { result ≡ signs.aggregate_word op }
{
    match op {
        AggregateOp::Average => Word::Avg,
        AggregateOp::Least => Word::Min,
        AggregateOp::Greatest => Word::Max,
        AggregateOp::Sum => Word::Sum,
    }
}

/// The word of a truth: `true` or `false`.
pub(crate) fn truth_word(truth: bool) -> Word
    ensures { result ≡ signs.truth_word truth }
{
    if truth { Word::True } else { Word::False }
}

/// The word of a status: `unset`, `ok` or `error`, as a query names it and a reply shows it.
pub fn status_word(status: StatusCode) -> Word
    ensures { result ≡ signs.status_word status }
{
    match status {
        StatusCode::Unset => Word::Unset,
        StatusCode::Fine => Word::Fine,
        StatusCode::Error => Word::Error,
    }
}

/// The word of a span kind: `unspecified`, `internal`, `server`, `client`, `producer` or `consumer`, as a query names
/// it and a reply shows it.
pub fn kind_word(kind: SpanKind) -> Word
    ensures { result ≡ signs.kind_word kind }
{
    match kind {
        SpanKind::Unspecified => Word::Unspecified,
        SpanKind::Internal => Word::Internal,
        SpanKind::Server => Word::Server,
        SpanKind::Client => Word::Client,
        SpanKind::Producer => Word::Producer,
        SpanKind::Consumer => Word::Consumer,
    }
}
