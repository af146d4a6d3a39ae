//! Stages and queries.
//!
//! `inner` is how many constructs may be opened inside the parentheses that a stage opens.

ghost use Rattle.std.specs.Prelude.{◌≡◌, ◌<◌};
ghost use Rattle.traceql_syntax.specs.Trees.{aggregate_tree, placed, query_tree, set_tree, stage_tree, threshold_tree};
ghost use Rattle.traceql_parse.specs.Descent.{aggregate_at, all_sets, comma_field, compare, enclosed, fields, nothing, piped, query, signed, stage, threshold, whole, worded};
ghost use Rattle.traceql_parse.specs.Reading.{Gives};

use crate::leaf::{read_field, read_measure};
use crate::lookahead::{
    AggregateWord, Delimiter, StageSign, after_first, begins_aggregate, begins_with,
    first_aggregate, first_stage, refused, take_comparison, take_delimiter,
};
use crate::spanset::{read_braces, read_sets, read_whole};
use crate::stop::Stop;
use std::alloc::Global;
use traceql_syntax::{
    Aggregate, Field, Fields, Operand, Query, SpansetExpr, SpansetLevel, Stage, Stages, Threshold,
};
use traceql_tokens::Token;

/// An expression in parentheses.
#[tactic(auto, unfolding(crate::specs::Descent::enclosed))]
pub fn read_enclosed<'a>(
    alloc: Global,
    tokens: &'a [Token],
    inner: u32,
) -> Result<(Operand, &'a [Token]), Stop<'a>>
    ensures { Gives (λ x. (placed x.0, x.1.now)) result (enclosed (whole inner) tokens.now) }
{
    let (_, rest) = take_delimiter(Delimiter::OpenParen, tokens)?;
    let (operand, rest) = read_whole(alloc, rest, inner)?;
    let (_, rest) = take_delimiter(Delimiter::CloseParen, rest)?;
    Ok((operand, rest))
}

/// Parentheses with nothing in them, and the tokens after them.
pub fn read_empty_parens(tokens: &[Token]) -> Result<&[Token], Stop<'_>>
    ensures { Gives (λ x. (tt, x.now)) result (enclosed nothing tokens.now) }
{
    let (_, rest) = take_delimiter(Delimiter::OpenParen, tokens)?;
    let (_, rest) = take_delimiter(Delimiter::CloseParen, rest)?;
    Ok(rest)
}

/// An aggregate: `count ( )`, or a word and its argument in parentheses.
#[tactic(auto, unfolding(crate::specs::Descent::aggregate_at))]
fn read_aggregate<'a>(
    alloc: Global,
    tokens: &'a [Token],
    inner: u32,
) -> Result<(Aggregate, &'a [Token]), Stop<'a>>
    ensures { Gives (λ x. (aggregate_tree x.0, x.1.now)) result (aggregate_at inner tokens.now) }
{
    match first_aggregate(tokens) {
        Some((_, AggregateWord::Count, rest)) => {
            let rest = read_empty_parens(rest)?;
            Ok((Aggregate::Count, rest))
        }
        Some((_, AggregateWord::Of(op), rest)) => {
            let (argument, rest) = read_enclosed(alloc, rest, inner)?;
            Ok((Aggregate::Of(op, argument), rest))
        }
        None => Err(refused(tokens)),
    }
}

/// A number or a duration, with or without a minus.
#[tactic(auto, unfolding(crate::specs::Descent::signed))]
fn read_signed<'a>(tokens: &'a [Token]) -> Result<(Threshold, &'a [Token]), Stop<'a>>
    ensures { Gives (λ x. (threshold_tree x.0, x.1.now)) result (signed tokens.now) }
{
    if begins_with(Delimiter::Minus, tokens) {
        let (_, rest) = take_delimiter(Delimiter::Minus, tokens)?;
        read_measure(true, rest)
    } else {
        read_measure(false, tokens)
    }
}

/// What an aggregate is compared with: an aggregate, or a number or duration.
#[tactic(auto, unfolding(crate::specs::Descent::threshold))]
fn read_threshold<'a>(
    alloc: Global,
    tokens: &'a [Token],
    inner: u32,
) -> Result<(Threshold, &'a [Token]), Stop<'a>>
    ensures { Gives (λ x. (threshold_tree x.0, x.1.now)) result (threshold inner tokens.now) }
{
    if !begins_aggregate(tokens) {
        return read_signed(tokens);
    }
    let (aggregate, rest) = read_aggregate(alloc, tokens, inner)?;
    Ok((Threshold::Aggregate(aggregate), rest))
}

/// An aggregate, a comparison, and what it is compared with.
#[tactic(auto, unfolding(crate::specs::Descent::compare))]
fn read_compare<'a>(
    alloc: Global,
    tokens: &'a [Token],
    inner: u32,
) -> Result<(Stage, &'a [Token]), Stop<'a>>
    ensures { Gives (λ x. (stage_tree x.0, x.1.now)) result (compare inner tokens.now) }
{
    let (left, rest) = read_aggregate(alloc, tokens, inner)?;
    let (at, op, rest) = take_comparison(rest)?;
    let (right, rest) = read_threshold(alloc, rest, inner)?;
    Ok((
        Stage::Compare {
            left,
            at,
            op,
            right,
        },
        rest,
    ))
}

/// A comma and a field.
#[tactic(auto, unfolding(crate::specs::Descent::comma_field))]
fn read_comma_field<'a>(tokens: &'a [Token]) -> Result<(Field, &'a [Token]), Stop<'a>>
    ensures { Gives (λ x. (x.0, x.1.now)) result (comma_field tokens.now) }
{
    let (_, rest) = take_delimiter(Delimiter::Comma, tokens)?;
    read_field(rest)
}

/// Fields with a comma between them, one at least.
#[tactic(auto, using(crate::proofs::StageLoops::more_fields_stops, crate::proofs::StageLoops::more_fields_fails, crate::proofs::StageLoops::more_fields_steps, crate::proofs::StageLoops::comma_field_smaller), unfolding(crate::specs::Descent::fields))]
fn read_fields<'a>(alloc: Global, tokens: &'a [Token]) -> Result<(Fields, &'a [Token]), Stop<'a>>
    ensures { Gives (λ x. (x.0, x.1.now)) result (fields tokens.now) }
{
    let (field, mut rest) = read_field(tokens)?;
    let mut list = Vec::new(alloc);
    list.push(field)?;
    'items: while begins_with(Delimiter::Comma, rest) {
        let (field, after) = read_comma_field(rest)?;
        list.push(field)?;
        rest = after;
    }
    Ok((Fields::of(list), rest))
}

/// The fields of a `select`, in parentheses.
fn read_select<'a>(alloc: Global, tokens: &'a [Token]) -> Result<(Fields, &'a [Token]), Stop<'a>>
    ensures { Gives (λ x. (x.0, x.1.now)) result (enclosed fields tokens.now) }
{
    let (_, rest) = take_delimiter(Delimiter::OpenParen, tokens)?;
    let (list, rest) = read_fields(alloc, rest)?;
    let (_, rest) = take_delimiter(Delimiter::CloseParen, rest)?;
    Ok((list, rest))
}

/// The stage that begins with this word.
fn read_worded<'a>(
    alloc: Global,
    sign: StageSign,
    tokens: &'a [Token],
    inner: u32,
) -> Result<(Stage, &'a [Token]), Stop<'a>>
    ensures { Gives (λ x. (stage_tree x.0, x.1.now)) result (worded inner sign tokens.now) }
{
    let behind = after_first(tokens);
    match sign {
        StageSign::By => {
            let (by, rest) = read_enclosed(alloc, behind, inner)?;
            Ok((Stage::By(by), rest))
        }
        StageSign::Coalesce => {
            let rest = read_empty_parens(behind)?;
            Ok((Stage::Coalesce, rest))
        }
        StageSign::Select => {
            let (list, rest) = read_select(alloc, behind)?;
            Ok((Stage::Select(list), rest))
        }
        StageSign::Compare => read_compare(alloc, tokens, inner),
    }
}

/// A stage: a filter, or one that begins with a word.
#[tactic(auto, unfolding(crate::specs::Descent::stage))]
pub fn read_stage<'a>(
    alloc: Global,
    tokens: &'a [Token],
    inner: u32,
) -> Result<(Stage, &'a [Token]), Stop<'a>>
    requires { inner < 4294967295 }
    ensures { Gives (λ x. (stage_tree x.0, x.1.now)) result (stage inner tokens.now) }
{
    if begins_with(Delimiter::OpenBrace, tokens) {
        let (at, condition, rest) = read_braces(alloc, tokens, inner + 1)?;
        return Ok((Stage::Filter { at, condition }, rest));
    }
    read_worded(alloc, first_stage(tokens), tokens, inner)
}

/// A bar and a stage.
#[tactic(auto, unfolding(crate::specs::Descent::piped))]
fn read_piped<'a>(
    alloc: Global,
    tokens: &'a [Token],
    inner: u32,
) -> Result<(Stage, &'a [Token]), Stop<'a>>
    requires { inner < 4294967295 }
    ensures { Gives (λ x. (stage_tree x.0, x.1.now)) result (piped inner tokens.now) }
{
    let (_, rest) = take_delimiter(Delimiter::Bar, tokens)?;
    read_stage(alloc, rest, inner)
}

/// An expression over spansets, of the loosest level.
#[tactic(auto, unfolding(crate::specs::Descent::all_sets))]
pub fn read_all_sets<'a>(
    alloc: Global,
    tokens: &'a [Token],
    depth: u32,
) -> Result<(SpansetExpr, &'a [Token]), Stop<'a>>
    ensures { Gives (λ x. (set_tree x.0, x.1.now)) result (all_sets depth tokens.now) }
{
    read_sets(alloc, SpansetLevel::Union, tokens, depth)
}

/// A query, inside whose stages' parentheses so many constructs may be opened, and one more elsewhere.
#[tactic(auto, using(crate::proofs::StageLoops::more_stages_stops, crate::proofs::StageLoops::more_stages_fails, crate::proofs::StageLoops::more_stages_steps, crate::proofs::StageLoops::piped_smaller), unfolding(crate::specs::Descent::query))]
pub fn read_query<'a>(
    alloc: Global,
    tokens: &'a [Token],
    inner: u32,
) -> Result<(Query, &'a [Token]), Stop<'a>>
    requires { inner < 4294967295 }
    ensures { Gives (λ x. (query_tree x.0, x.1.now)) result (query inner tokens.now) }
{
    let (spansets, mut rest) = read_all_sets(alloc, tokens, inner + 1)?;
    let mut list = Vec::new(alloc);
    'items: while begins_with(Delimiter::Bar, rest) {
        let (stage, after) = read_piped(alloc, rest, inner)?;
        list.push(stage)?;
        rest = after;
    }
    let stages = Stages::of(list);
    Ok((Query { spansets, stages }, rest))
}
