//! Expressions over spansets.
//!
//! `depth` is how many constructs may still be opened.

ghost use Rattle.std.specs.Prelude.{◌≡◌, IfOk};
ghost use Rattle.traceql_syntax.specs.Trees.{placed, placed_option, set_tree};
ghost use Rattle.traceql_parse.specs.Code.{SetEnters, set_item_tree};
ghost use Rattle.traceql_parse.specs.Descent.{braces, condition, part, set_item, set_join, set_operand_of, set_parens, sets, sets_below, whole};
ghost use Rattle.traceql_parse.specs.Reading.{Gives};

use crate::field::read_level;
use crate::lookahead::{
    Delimiter, begins_with, first_set_op, refused, set_goes_on, take_delimiter,
};
use crate::stop::{Cause, Stop};
use std::alloc::{AllocError, Global};
use std::boxed::Box;
use traceql_syntax::{Level, Operand, SpansetExpr, SpansetLevel, SpansetOp};
use traceql_tokens::Token;

/// An operator between spansets and what stands on its right.
#[derive(Drop)]
pub struct SetItem {
    pub at: u64,
    pub op: SpansetOp,
    pub right: SpansetExpr,
}

/// A whole field expression.
#[tactic(auto, unfolding(crate::specs::Descent::whole))]
pub fn read_whole<'a>(
    alloc: Global,
    tokens: &'a [Token],
    depth: u32,
) -> Result<(Operand, &'a [Token]), Stop<'a>>
    ensures { Gives (λ x. (placed x.0, x.1.now)) result (whole depth tokens.now) }
{
    read_level(alloc, Level::Choice, tokens, depth)
}

/// What stands in braces, and the closing one.
#[tactic(auto, unfolding(crate::specs::Descent::condition))]
fn read_condition<'a>(
    alloc: Global,
    tokens: &'a [Token],
    depth: u32,
) -> Result<(Option<Operand>, &'a [Token]), Stop<'a>>
    ensures { Gives (λ x. (placed_option x.0, x.1.now)) result (condition depth tokens.now) }
{
    if begins_with(Delimiter::CloseBrace, tokens) {
        let (_, rest) = take_delimiter(Delimiter::CloseBrace, tokens)?;
        return Ok((None, rest));
    }
    let (operand, rest) = read_whole(alloc, tokens, depth)?;
    let (_, rest) = take_delimiter(Delimiter::CloseBrace, rest)?;
    Ok((Some(operand), rest))
}

/// Braces, with their place and what stands in them.
#[tactic(auto, unfolding(crate::specs::Descent::braces))]
pub fn read_braces<'a>(
    alloc: Global,
    tokens: &'a [Token],
    depth: u32,
) -> Result<(u64, Option<Operand>, &'a [Token]), Stop<'a>>
    ensures { Gives (λ x. ((x.0, placed_option x.1), x.2.now)) result (braces depth tokens.now) }
{
    let (at, rest) = take_delimiter(Delimiter::OpenBrace, tokens)?;
    let (condition, rest) = read_condition(alloc, rest, depth)?;
    Ok((at, condition, rest))
}

/// How many constructs may be opened inside one more, which begins at the first of these tokens.
#[tactic(auto, using(crate::proofs::SetDepth::sets_below_none, crate::proofs::SetDepth::sets_below_some))]
fn set_entered<'a>(depth: u32, tokens: &'a [Token]) -> Result<u32, Stop<'a>>
    ensures { SetEnters depth tokens.now result }
{
    match depth.checked_sub(1) {
        Some(inner) => Ok(inner),
        None => Err(Stop::Refused(Cause::TooDeep, tokens)),
    }
}

/// A spanset with an operator and the spanset on its right.
fn set_joined(alloc: Global, left: SpansetExpr, item: SetItem) -> Result<SpansetExpr, AllocError>
    ensures { IfOk result (λ e. set_tree e ≡ set_join (set_tree left) (set_item_tree item)) }
{
    let SetItem { at, op, right } = item;
    let left = Box::new(alloc, left)?;
    let right = Box::new(alloc, right)?;
    Ok(SpansetExpr::Join {
        at,
        op,
        left,
        right,
    })
}

/// An expression over spansets in parentheses.
#[tactic(auto, unfolding(crate::specs::Descent::set_parens))]
#[cycle(spansets)]
fn read_set_parens<'a>(
    alloc: Global,
    tokens: &'a [Token],
    depth: u32,
) -> Result<(SpansetExpr, &'a [Token]), Stop<'a>>
    ensures { Gives (λ x. (set_tree x.0, x.1.now)) result
        (set_parens (sets_below depth) tokens.now) }
{
    let (_, inside) = take_delimiter(Delimiter::OpenParen, tokens)?;
    let inner = set_entered(depth, tokens)?;
    let (spansets, rest) = read_sets(alloc, SpansetLevel::Union, inside, inner)?;
    let (_, rest) = take_delimiter(Delimiter::CloseParen, rest)?;
    Ok((spansets, rest))
}

/// A filter, or an expression over spansets in parentheses.
#[tactic(auto, unfolding(crate::specs::Descent::part))]
#[cycle(spansets)]
fn read_part<'a>(
    alloc: Global,
    tokens: &'a [Token],
    depth: u32,
) -> Result<(SpansetExpr, &'a [Token]), Stop<'a>>
    ensures { Gives (λ x. (set_tree x.0, x.1.now)) result
        (part depth (sets_below depth) tokens.now) }
{
    if begins_with(Delimiter::OpenParen, tokens) {
        return read_set_parens(alloc, tokens, depth);
    }
    let (at, condition, rest) = read_braces(alloc, tokens, depth)?;
    Ok((SpansetExpr::Filter { at, condition }, rest))
}

/// What stands between the operators of a level.
#[tactic(auto, unfolding(crate::specs::Descent::set_operand_of, crate::specs::Descent::sets))]
#[cycle(spansets)]
fn read_set_operand<'a>(
    alloc: Global,
    level: SpansetLevel,
    tokens: &'a [Token],
    depth: u32,
) -> Result<(SpansetExpr, &'a [Token]), Stop<'a>>
    ensures { Gives (λ x. (set_tree x.0, x.1.now)) result
        (set_operand_of depth (sets_below depth) level tokens.now) }
{
    match level {
        SpansetLevel::Structure => read_part(alloc, tokens, depth),
        SpansetLevel::Union => read_sets(alloc, SpansetLevel::Structure, tokens, depth),
    }
}

/// An operator between spansets and the spanset on its right.
#[tactic(auto, unfolding(crate::specs::Descent::set_item))]
#[cycle(spansets)]
fn read_set_item<'a>(
    alloc: Global,
    level: SpansetLevel,
    tokens: &'a [Token],
    depth: u32,
) -> Result<(SetItem, &'a [Token]), Stop<'a>>
    ensures { Gives (λ x. (set_item_tree x.0, x.1.now)) result
        (set_item level (set_operand_of depth (sets_below depth) level) tokens.now) }
{
    match first_set_op(level, tokens) {
        Some((at, op, rest)) => {
            let (right, rest) = read_set_operand(alloc, level, rest, depth)?;
            Ok((SetItem { at, op, right }, rest))
        }
        None => Err(refused(tokens)),
    }
}

/// An expression over spansets of this level: operands with the level's operators between them, grouped from the left.
#[tactic(auto, using(crate::proofs::SetLoops::set_more_stops, crate::proofs::SetLoops::set_more_fails, crate::proofs::SetLoops::set_more_steps, crate::proofs::SetLoops::set_item_smaller), unfolding(crate::specs::Descent::sets))]
#[cycle(spansets)]
pub fn read_sets<'a>(
    alloc: Global,
    level: SpansetLevel,
    tokens: &'a [Token],
    depth: u32,
) -> Result<(SpansetExpr, &'a [Token]), Stop<'a>>
    ensures { Gives (λ x. (set_tree x.0, x.1.now)) result
        (sets depth (sets_below depth) level tokens.now) }
{
    let (mut left, mut rest) = read_set_operand(alloc, level, tokens, depth)?;
    'items: while set_goes_on(level, rest) {
        let (item, after) = read_set_item(alloc, level, rest, depth)?;
        left = set_joined(alloc, left, item)?;
        rest = after;
    }
    Ok((left, rest))
}
