//! What the first token is: a delimiter, an operator of a level, the word of a stage. The other files choose by it how
//! they read on.

ghost use Rattle.std.specs.Prelude.{◌≡◌, is_some, option_map, if◌then◌else◌, Some, None};
ghost use Rattle.traceql_syntax.specs.declared.field.Level.TheVariants as level;
ghost use Rattle.traceql_syntax.specs.Tables as tables;
ghost use Rattle.traceql_parse.specs.Descent.{aggregate_word_of, by_word, item_sign_of, stage_sign_of, tail_of, word_stage};
ghost use Rattle.traceql_parse.specs.Metrics.{stage_next};
ghost use Rattle.traceql_parse.specs.Reading.{Gives, StopsAt, begins, delimits, expect_sign, next_sign, next_word, refusal_of};

use crate::stop::{Cause, Stop};
use traceql_syntax::{
    AggregateOp, BinaryOp, Comparison, Level, Relation, Side, SpansetLevel, SpansetOp, UnaryOp,
};
use traceql_tokens::{Sign, Token, TokenKind, Word};

/// A sign that separates or encloses, or that one rule asks for by itself.
#[derive(Clone, Copy, Debug, PartialEq, Eq)]
pub enum Delimiter {
    OpenParen,
    CloseParen,
    OpenBrace,
    CloseBrace,
    Comma,
    Bar,
    Caret,
    Minus,
}

/// What stands between the operands of a level: an operator, or one that takes a pattern.
#[derive(Clone, Copy, Debug, PartialEq, Eq)]
pub enum ItemSign {
    Operator(BinaryOp),
    /// Whether the operator is `!~`.
    Pattern(bool),
}

/// The word of an aggregate.
#[derive(Clone, Copy, Debug, PartialEq, Eq)]
pub enum AggregateWord {
    Count,
    Of(AggregateOp),
}

/// Which stage a word begins: every other word is left to the comparison of aggregates.
#[derive(Clone, Copy, Debug, PartialEq, Eq)]
pub enum StageSign {
    By,
    Coalesce,
    Select,
    Compare,
}

/// Whether a sign is this delimiter.
fn is_delimiter(wanted: Delimiter, sign: Sign) -> bool
    ensures { delimits wanted sign ≡ (if result then Some tt else None) }
{
    match wanted {
        Delimiter::OpenParen => matches!(sign, Sign::OpenParen),
        Delimiter::CloseParen => matches!(sign, Sign::CloseParen),
        Delimiter::OpenBrace => matches!(sign, Sign::OpenBrace),
        Delimiter::CloseBrace => matches!(sign, Sign::CloseBrace),
        Delimiter::Comma => matches!(sign, Sign::Comma),
        Delimiter::Bar => matches!(sign, Sign::Bar),
        Delimiter::Caret => matches!(sign, Sign::Caret),
        Delimiter::Minus => matches!(sign, Sign::Minus),
    }
}

/// The refusal of the first token, or of the end.
pub fn refused(tokens: &[Token]) -> Stop<'_>
    ensures { StopsAt result (refusal_of tokens.now) }
{
    if tokens.is_empty() {
        Stop::Refused(Cause::Unfinished, tokens)
    } else {
        Stop::Refused(Cause::Unexpected, tokens)
    }
}

/// The first token, where it is a sign, and the tokens after it.
fn first_sign(tokens: &[Token]) -> Option<(u64, Sign, &[Token])>
    ensures { option_map (λ x. ((x.0, x.1), x.2.now)) result ≡ next_sign Some tokens.now }
{
    match tokens {
        [first, rest @ ..] => match first.kind {
            TokenKind::Mark(sign) => Some((first.at, sign, rest)),
            _ => None,
        },
        [] => None,
    }
}

/// Whether the tokens begin with this delimiter.
pub fn begins_with(wanted: Delimiter, tokens: &[Token]) -> bool
    ensures { result ≡ begins wanted tokens.now }
{
    match first_sign(tokens) {
        Some((_, sign, _)) => is_delimiter(wanted, sign),
        None => false,
    }
}

/// The place of this delimiter, with which the tokens have to begin, and the tokens after it.
pub fn take_delimiter<'a>(
    wanted: Delimiter,
    tokens: &'a [Token],
) -> Result<(u64, &'a [Token]), Stop<'a>>
    ensures { Gives (λ x. ((x.0, tt), x.1.now)) result (expect_sign (delimits wanted) tokens.now) }
{
    match first_sign(tokens) {
        Some((at, sign, rest)) if is_delimiter(wanted, sign) => Ok((at, rest)),
        _ => Err(refused(tokens)),
    }
}

/// The unary operator of a sign.
fn unary_of(sign: Sign) -> Option<UnaryOp>
    ensures { result ≡ tables.prefix_sign sign }
{
    match sign {
        Sign::Minus => Some(UnaryOp::Negate),
        Sign::Bang => Some(UnaryOp::Not),
        _ => None,
    }
}

/// The comparison of a sign.
fn comparison_of(sign: Sign) -> Option<Comparison>
    ensures { result ≡ tables.comparison_sign sign }
{
    match sign {
        Sign::Equal => Some(Comparison::Equal),
        Sign::BangEqual => Some(Comparison::NotEqual),
        Sign::Less => Some(Comparison::Less),
        Sign::LessEqual => Some(Comparison::AtMost),
        Sign::Greater => Some(Comparison::Greater),
        Sign::GreaterEqual => Some(Comparison::AtLeast),
        _ => None,
    }
}

/// The operator of a sign among `*`, `/` and `%`.
fn product_of(sign: Sign) -> Option<BinaryOp>
    ensures { result ≡ tables.product_sign sign }
{
    match sign {
        Sign::Star => Some(BinaryOp::Multiply),
        Sign::Slash => Some(BinaryOp::Divide),
        Sign::Percent => Some(BinaryOp::Remainder),
        _ => None,
    }
}

/// The operator of a sign among `+` and `-`.
fn sum_of(sign: Sign) -> Option<BinaryOp>
    ensures { result ≡ tables.sum_sign sign }
{
    match sign {
        Sign::Plus => Some(BinaryOp::Add),
        Sign::Minus => Some(BinaryOp::Subtract),
        _ => None,
    }
}

/// The operator of a sign among `&&` and `||`.
fn choice_of(sign: Sign) -> Option<BinaryOp>
    ensures { result ≡ tables.choice_sign sign }
{
    match sign {
        Sign::AmpAmp => Some(BinaryOp::And),
        Sign::BarBar => Some(BinaryOp::Or),
        _ => None,
    }
}

/// Whether a sign asks for a match with a pattern, and whether it negates.
fn pattern_of(sign: Sign) -> Option<bool>
    ensures { result ≡ tables.pattern_sign sign }
{
    match sign {
        Sign::EqualTilde => Some(false),
        Sign::BangTilde => Some(true),
        _ => None,
    }
}

/// What a sign is at the level of comparisons: an operator with a pattern, or a comparison.
fn compared(sign: Sign) -> Option<ItemSign>
    ensures { result ≡ item_sign_of level.Comparison sign }
{
    match pattern_of(sign) {
        Some(negated) => Some(ItemSign::Pattern(negated)),
        None => match comparison_of(sign) {
            Some(op) => Some(ItemSign::Operator(BinaryOp::Compare(op))),
            None => None,
        },
    }
}

/// What a sign is at a level.
fn item_of(level: Level, sign: Sign) -> Option<ItemSign>
    ensures { result ≡ item_sign_of level sign }
{
    let op = match level {
        Level::Product => product_of(sign)?,
        Level::Sum => sum_of(sign)?,
        Level::Comparison => return compared(sign),
        Level::Choice => choice_of(sign)?,
    };
    Some(ItemSign::Operator(op))
}

/// The structural operator of a sign.
fn structure_of(sign: Sign) -> Option<SpansetOp>
    ensures { result ≡ tables.structure_sign sign }
{
    let (relation, side) = match sign {
        Sign::Greater => (Relation::Child, Side::Right),
        Sign::GreaterGreater => (Relation::Descendant, Side::Right),
        Sign::Less => (Relation::Parent, Side::Right),
        Sign::LessLess => (Relation::Ancestor, Side::Right),
        Sign::Tilde => (Relation::Sibling, Side::Right),
        Sign::BangGreater => (Relation::Child, Side::Unrelated),
        Sign::BangGreaterGreater => (Relation::Descendant, Side::Unrelated),
        Sign::BangLess => (Relation::Parent, Side::Unrelated),
        Sign::BangLessLess => (Relation::Ancestor, Side::Unrelated),
        Sign::BangTilde => (Relation::Sibling, Side::Unrelated),
        Sign::AmpGreater => (Relation::Child, Side::Both),
        Sign::AmpGreaterGreater => (Relation::Descendant, Side::Both),
        Sign::AmpLess => (Relation::Parent, Side::Both),
        Sign::AmpLessLess => (Relation::Ancestor, Side::Both),
        Sign::AmpTilde => (Relation::Sibling, Side::Both),
        _ => return None,
    };
    Some(SpansetOp::Related(relation, side))
}

/// The operator between spansets of a level that a sign is.
fn set_of(level: SpansetLevel, sign: Sign) -> Option<SpansetOp>
    ensures { result ≡ tables.set_sign level sign }
{
    match level {
        SpansetLevel::Structure => structure_of(sign),
        SpansetLevel::Union => match sign {
            Sign::AmpAmp => Some(SpansetOp::And),
            Sign::BarBar => Some(SpansetOp::Or),
            _ => None,
        },
    }
}

/// A unary operator at the front.
pub fn first_unary(tokens: &[Token]) -> Option<(u64, UnaryOp, &[Token])>
    ensures { option_map (λ x. ((x.0, x.1), x.2.now)) result
        ≡ next_sign tables.prefix_sign tokens.now }
{
    let (at, sign, rest) = first_sign(tokens)?;
    Some((at, unary_of(sign)?, rest))
}

/// A comparison, with which the tokens have to begin: its place, and the tokens after it.
pub fn take_comparison<'a>(tokens: &'a [Token]) -> Result<(u64, Comparison, &'a [Token]), Stop<'a>>
    ensures { Gives (λ x. ((x.0, x.1), x.2.now)) result
        (expect_sign tables.comparison_sign tokens.now) }
{
    match first_comparison(tokens) {
        Some((at, op, rest)) => Ok((at, op, rest)),
        None => Err(refused(tokens)),
    }
}

/// A comparison at the front: its place, and the tokens after it.
fn first_comparison(tokens: &[Token]) -> Option<(u64, Comparison, &[Token])>
    ensures { option_map (λ x. ((x.0, x.1), x.2.now)) result
        ≡ next_sign tables.comparison_sign tokens.now }
{
    let (at, sign, rest) = first_sign(tokens)?;
    Some((at, comparison_of(sign)?, rest))
}

/// An operator of this level at the front.
pub fn first_item(level: Level, tokens: &[Token]) -> Option<(u64, ItemSign, &[Token])>
    ensures { option_map (λ x. ((x.0, x.1), x.2.now)) result
        ≡ next_sign (item_sign_of level) tokens.now }
{
    let (at, sign, rest) = first_sign(tokens)?;
    Some((at, item_of(level, sign)?, rest))
}

/// Whether an operator of this level stands at the front.
pub fn goes_on(level: Level, tokens: &[Token]) -> bool
    ensures { result ≡ is_some (next_sign (item_sign_of level) tokens.now) }
{
    match first_sign(tokens) {
        Some((_, sign, _)) => item_of(level, sign).is_some(),
        None => false,
    }
}

/// Whether an operator between spansets of this level stands at the front.
pub fn set_goes_on(level: SpansetLevel, tokens: &[Token]) -> bool
    ensures { result ≡ is_some (next_sign (tables.set_sign level) tokens.now) }
{
    match first_sign(tokens) {
        Some((_, sign, _)) => set_of(level, sign).is_some(),
        None => false,
    }
}

/// An operator between spansets of this level at the front.
pub fn first_set_op(level: SpansetLevel, tokens: &[Token]) -> Option<(u64, SpansetOp, &[Token])>
    ensures { option_map (λ x. ((x.0, x.1), x.2.now)) result
        ≡ next_sign (tables.set_sign level) tokens.now }
{
    let (at, sign, rest) = first_sign(tokens)?;
    Some((at, set_of(level, sign)?, rest))
}

/// The aggregate that a word begins.
fn aggregate_of(word: Word) -> Option<AggregateWord>
    ensures { result ≡ aggregate_word_of word }
{
    match word {
        Word::Count => Some(AggregateWord::Count),
        Word::Avg => Some(AggregateWord::Of(AggregateOp::Average)),
        Word::Min => Some(AggregateWord::Of(AggregateOp::Least)),
        Word::Max => Some(AggregateWord::Of(AggregateOp::Greatest)),
        Word::Sum => Some(AggregateWord::Of(AggregateOp::Sum)),
        _ => None,
    }
}

/// The word of an aggregate at the front.
pub fn first_aggregate(tokens: &[Token]) -> Option<(u64, AggregateWord, &[Token])>
    ensures { option_map (λ x. ((x.0, x.1), x.2.now)) result
        ≡ next_word aggregate_word_of tokens.now }
{
    match tokens {
        [first, rest @ ..] => match first.kind {
            TokenKind::Keyword(word) => Some((first.at, aggregate_of(word)?, rest)),
            _ => None,
        },
        [] => None,
    }
}

/// Whether the word of an aggregate stands at the front.
pub fn begins_aggregate(tokens: &[Token]) -> bool
    ensures { result ≡ is_some (next_word aggregate_word_of tokens.now) }
{
    match tokens {
        [first, ..] => match first.kind {
            TokenKind::Keyword(word) => aggregate_of(word).is_some(),
            _ => false,
        },
        [] => false,
    }
}

/// The stage that a word begins.
fn stage_of(word: Word) -> StageSign
    ensures { result ≡ word_stage word }
{
    match word {
        Word::By => StageSign::By,
        Word::Coalesce => StageSign::Coalesce,
        Word::Select => StageSign::Select,
        _ => StageSign::Compare,
    }
}

/// Which stage the first token begins, where it is no filter.
pub fn first_stage(tokens: &[Token]) -> StageSign
    ensures { result ≡ stage_sign_of tokens.now }
{
    match tokens {
        [first, ..] => match first.kind {
            TokenKind::Keyword(word) => stage_of(word),
            _ => StageSign::Compare,
        },
        [] => StageSign::Compare,
    }
}

/// The tokens after the first.
pub fn after_first(tokens: &[Token]) -> &[Token]
    ensures { result.now ≡ tail_of tokens.now }
{
    match tokens {
        [_, rest @ ..] => rest,
        [] => tokens,
    }
}

/// Whether the word `by` stands at the front.
pub fn begins_by(tokens: &[Token]) -> bool
    ensures { result ≡ is_some (next_word by_word tokens.now) }
{
    match tokens {
        [first, ..] => matches!(first.kind, TokenKind::Keyword(Word::By)),
        [] => false,
    }
}

/// Whether a word ends a metrics query, and then whether it asks for a rate.
fn metrics_of(word: Word) -> Option<bool>
    ensures { result ≡ tables.metrics_word word }
{
    match word {
        Word::Rate => Some(true),
        Word::CountOverTime => Some(false),
        _ => None,
    }
}

/// The word at the front that ends a metrics query.
pub fn first_metrics(tokens: &[Token]) -> Option<(u64, bool, &[Token])>
    ensures { option_map (λ x. ((x.0, x.1), x.2.now)) result
        ≡ next_word tables.metrics_word tokens.now }
{
    match tokens {
        [first, rest @ ..] => match first.kind {
            TokenKind::Keyword(word) => Some((first.at, metrics_of(word)?, rest)),
            _ => None,
        },
        [] => None,
    }
}

/// Whether another token than a word that ends a metrics query stands at the front.
pub fn stage_follows(tokens: &[Token]) -> bool
    ensures { result ≡ stage_next tokens.now }
{
    match tokens {
        [first, ..] => match first.kind {
            TokenKind::Keyword(word) => metrics_of(word).is_none(),
            _ => true,
        },
        [] => false,
    }
}
