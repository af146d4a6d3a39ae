//! What one token stands for: a literal, a field, a pattern, or a number after a comparison of an aggregate.

ghost use Rattle.std.specs.Prelude.{◌≡◌, IfOk};
ghost use Rattle.traceql_syntax.specs.Tables as tables;
ghost use Rattle.traceql_syntax.specs.Trees.{placed, threshold_tree};
ghost use Rattle.traceql_parse.specs.Descent.{field_at, leaf_at, measure_at, quoted_at};
ghost use Rattle.traceql_parse.specs.Reading.{Gives, blame, expect};
ghost use Rattle.traceql_tokens.specs.Tokens.{mended};

use crate::stop::{Cause, Stop};
use span_types::{Memory, SpanKind, StatusCode, Text, TryCopy};
use traceql_syntax::{Field, FieldExpr, Literal, Operand, Threshold};
use traceql_tokens::{Class, Token, TokenKind, Word};

/// The literal that a word is.
fn literal_of_word(word: Word) -> Option<Literal>
    ensures { result ≡ tables.literal_word word }
{
    match word {
        Word::True => Some(Literal::Truth(true)),
        Word::False => Some(Literal::Truth(false)),
        Word::Nil => Some(Literal::Nil),
        Word::Error => Some(Literal::Status(StatusCode::Error)),
        Word::Fine => Some(Literal::Status(StatusCode::Fine)),
        Word::Unset => Some(Literal::Status(StatusCode::Unset)),
        Word::Server => Some(Literal::Kind(SpanKind::Server)),
        Word::Client => Some(Literal::Kind(SpanKind::Client)),
        Word::Producer => Some(Literal::Kind(SpanKind::Producer)),
        Word::Consumer => Some(Literal::Kind(SpanKind::Consumer)),
        Word::Internal => Some(Literal::Kind(SpanKind::Internal)),
        Word::Unspecified => Some(Literal::Kind(SpanKind::Unspecified)),
        _ => None,
    }
}

/// The literal that a token is.
fn literal(kind: &TokenKind) -> Result<Option<Literal>, Memory>
    ensures { IfOk result (λ o. o ≡ tables.literal_of kind.now) }
{
    match kind {
        TokenKind::Quoted(text) => Ok(Some(Literal::Text(text.copy()?))),
        TokenKind::Number(number) => Ok(Some(Literal::Number(*number))),
        TokenKind::Duration(nanos) => Ok(Some(Literal::Duration(*nanos))),
        TokenKind::Keyword(word) => Ok(literal_of_word(*word)),
        _ => Ok(None),
    }
}

/// The field that a token is.
fn field(kind: &TokenKind) -> Result<Option<Field>, Memory>
    ensures { IfOk result (λ o. o ≡ tables.field_of kind.now) }
{
    match kind {
        TokenKind::Named(scope, name) => Ok(Some(Field::Attribute(*scope, name.copy()?))),
        TokenKind::Builtin(intrinsic) => Ok(Some(Field::Intrinsic(*intrinsic))),
        _ => Ok(None),
    }
}

/// Why a token that is no literal and no field is refused: for its fault, where it would be one without it.
fn blame_leaf(at: u64, kind: &TokenKind) -> Cause
    ensures { leaf_at at kind.now ≡ None → result ≡ blame (leaf_at at (mended kind.now)) }
{
    match kind {
        TokenKind::Broken(_, _) => Cause::Faulty,
        _ => Cause::Unexpected,
    }
}

/// A literal or a field.
pub fn read_leaf<'a>(tokens: &'a [Token]) -> Result<(Operand, &'a [Token]), Stop<'a>>
    ensures { Gives (λ x. (placed x.0, x.1.now)) result (expect leaf_at tokens.now) }
{
    let Some((first, rest)) = tokens.split_first() else {
        return Err(Stop::Refused(Cause::Unfinished, tokens));
    };
    let at = first.at;
    if let Some(literal) = literal(&first.kind)? {
        let expr = FieldExpr::Literal { at, literal };
        return Ok((Operand { at, expr }, rest));
    }
    if let Some(field) = field(&first.kind)? {
        let expr = FieldExpr::Field { at, field };
        return Ok((Operand { at, expr }, rest));
    }
    Err(Stop::Refused(blame_leaf(at, &first.kind), tokens))
}

/// A pattern and its place.
pub fn read_pattern<'a>(tokens: &'a [Token]) -> Result<(u64, Text, &'a [Token]), Stop<'a>>
    ensures { Gives (λ x. ((x.0, x.1), x.2.now)) result (expect quoted_at tokens.now) }
{
    let Some((first, rest)) = tokens.split_first() else {
        return Err(Stop::Refused(Cause::Unfinished, tokens));
    };
    match &first.kind {
        TokenKind::Quoted(text) => Ok((first.at, text.copy()?, rest)),
        TokenKind::Broken(Class::Quoted, _) => Err(Stop::Refused(Cause::Faulty, tokens)),
        _ => Err(Stop::Refused(Cause::Unexpected, tokens)),
    }
}

/// A field.
pub fn read_field<'a>(tokens: &'a [Token]) -> Result<(Field, &'a [Token]), Stop<'a>>
    ensures { Gives (λ x. (x.0, x.1.now)) result (expect field_at tokens.now) }
{
    let Some((first, rest)) = tokens.split_first() else {
        return Err(Stop::Refused(Cause::Unfinished, tokens));
    };
    match &first.kind {
        TokenKind::Named(scope, name) => Ok((Field::Attribute(*scope, name.copy()?), rest)),
        TokenKind::Builtin(intrinsic) => Ok((Field::Intrinsic(*intrinsic), rest)),
        TokenKind::Broken(Class::Attribute, _) => Err(Stop::Refused(Cause::Faulty, tokens)),
        _ => Err(Stop::Refused(Cause::Unexpected, tokens)),
    }
}

/// A number or a duration at the front, with its place and the sign that stood before it, and the tokens after it.
pub fn read_measure<'a>(
    negative: bool,
    tokens: &'a [Token],
) -> Result<(Threshold, &'a [Token]), Stop<'a>>
    ensures { Gives (λ x. (threshold_tree x.0, x.1.now)) result
        (expect (measure_at negative) tokens.now) }
{
    let Some((first, rest)) = tokens.split_first() else {
        return Err(Stop::Refused(Cause::Unfinished, tokens));
    };
    match first.kind {
        TokenKind::Number(value) => {
            Ok((
                Threshold::Number {
                    at: first.at,
                    negative,
                    value,
                },
                rest,
            ))
        }
        TokenKind::Duration(nanos) => {
            Ok((
                Threshold::Duration {
                    at: first.at,
                    negative,
                    nanos,
                },
                rest,
            ))
        }
        TokenKind::Broken(Class::Number | Class::Duration, _) => {
            Err(Stop::Refused(Cause::Faulty, tokens))
        }
        _ => Err(Stop::Refused(Cause::Unexpected, tokens)),
    }
}
