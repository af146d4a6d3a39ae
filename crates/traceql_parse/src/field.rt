//! Field expressions, by descent from the loosest level to the tightest.
//!
//! `depth` is how many constructs may still be opened.

ghost use Rattle.std.specs.Prelude.{◌≡◌, IfOk};
ghost use Rattle.traceql_syntax.specs.Trees.{placed};
ghost use Rattle.traceql_parse.specs.Descent.{atom, below, grouped, item, join, operand_of, parens, powered, prefix, prefixed, raised, exponent};
ghost use Rattle.traceql_parse.specs.Code.{Enters, item_tree};
ghost use Rattle.traceql_parse.specs.Reading.{Gives};

use crate::leaf::{read_leaf, read_pattern};
use crate::lookahead::{
    Delimiter, ItemSign, begins_with, first_item, first_unary, goes_on, refused, take_delimiter,
};
use crate::stop::{Cause, Stop};
use span_types::{Memory, Text};
use std::alloc::{AllocError, Global};
use std::boxed::Box;
use traceql_syntax::{BinaryOp, FieldExpr, Level, Operand, UnaryOp};
use traceql_tokens::Token;

/// An operator of a level and what stands on its right.
#[derive(Drop)]
pub enum Item {
    Operator {
        at: u64,
        op: BinaryOp,
        right: Operand,
    },
    Pattern {
        at: u64,
        negated: bool,
        pattern_at: u64,
        pattern: Text,
    },
}

/// How many constructs may be opened inside one more, which begins at the first of these tokens.
#[tactic(auto, using(crate::proofs::Ranks::below_none, crate::proofs::Ranks::below_some))]
fn entered<'a>(depth: u32, tokens: &'a [Token]) -> Result<u32, Stop<'a>>
    ensures { Enters depth tokens.now result }
{
    match depth.checked_sub(1) {
        Some(inner) => Ok(inner),
        None => Err(Stop::Refused(Cause::TooDeep, tokens)),
    }
}

/// An operand with an operator of a level and what stands on its right.
fn joined(alloc: Global, left: Operand, item: Item) -> Result<Operand, AllocError>
    ensures { IfOk result (λ o. placed o ≡ join (placed left) (item_tree item)) }
{
    let first = left.at;
    let left = Box::new(alloc, left)?;
    match item {
        Item::Operator { at, op, right } => {
            let right = Box::new(alloc, right)?;
            Ok(Operand {
                at: first,
                expr: FieldExpr::Binary {
                    at,
                    op,
                    left,
                    right,
                },
            })
        }
        Item::Pattern {
            at,
            negated,
            pattern_at,
            pattern,
        } => {
            Ok(Operand {
                at: first,
                expr: FieldExpr::Match {
                    at,
                    negated,
                    left,
                    pattern_at,
                    pattern,
                },
            })
        }
    }
}

/// A whole expression in parentheses; its place is that of the opening one.
#[tactic(auto, unfolding(crate::specs::Descent::parens))]
#[cycle(fields)]
fn read_parens<'a>(
    alloc: Global,
    tokens: &'a [Token],
    depth: u32,
) -> Result<(Operand, &'a [Token]), Stop<'a>>
    ensures { Gives (λ x. (placed x.0, x.1.now)) result (parens (below depth) tokens.now) }
{
    let (at, inside) = take_delimiter(Delimiter::OpenParen, tokens)?;
    let inner = entered(depth, tokens)?;
    let (operand, rest) = read_level(alloc, Level::Choice, inside, inner)?;
    let (_, rest) = take_delimiter(Delimiter::CloseParen, rest)?;
    Ok((
        Operand {
            at,
            expr: operand.expr,
        },
        rest,
    ))
}

/// A literal, a field or an expression in parentheses.
#[tactic(auto, unfolding(crate::specs::Descent::atom))]
#[cycle(fields)]
fn read_atom<'a>(
    alloc: Global,
    tokens: &'a [Token],
    depth: u32,
) -> Result<(Operand, &'a [Token]), Stop<'a>>
    ensures { Gives (λ x. (placed x.0, x.1.now)) result (atom (below depth) tokens.now) }
{
    if begins_with(Delimiter::OpenParen, tokens) {
        read_parens(alloc, tokens, depth)
    } else {
        read_leaf(tokens)
    }
}

/// An atom with the unary operators before it.
#[tactic(auto, unfolding(crate::specs::Descent::prefixed, crate::specs::Descent::prefix))]
#[cycle(fields)]
fn read_prefixed<'a>(
    alloc: Global,
    tokens: &'a [Token],
    depth: u32,
) -> Result<(Operand, &'a [Token]), Stop<'a>>
    ensures { Gives (λ x. (placed x.0, x.1.now)) result (prefixed (below depth) tokens.now) }
{
    match first_unary(tokens) {
        Some((at, op, rest)) => {
            let inner = entered(depth, tokens)?;
            let (operand, rest) = read_prefixed(alloc, rest, inner)?;
            let operand = Box::new(alloc, operand)?;
            Ok((
                Operand {
                    at,
                    expr: FieldExpr::Unary { at, op, operand },
                },
                rest,
            ))
        }
        None => read_atom(alloc, tokens, depth),
    }
}

/// A `^` and the power on its right, which groups from the right.
#[tactic(auto, unfolding(crate::specs::Descent::exponent))]
#[cycle(fields)]
fn read_exponent<'a>(
    alloc: Global,
    tokens: &'a [Token],
    depth: u32,
) -> Result<(u64, Operand, &'a [Token]), Stop<'a>>
    ensures { Gives (λ x. ((x.0, placed x.1), x.2.now)) result (exponent (below depth) tokens.now) }
{
    let (at, rest) = take_delimiter(Delimiter::Caret, tokens)?;
    let inner = entered(depth, tokens)?;
    let (right, rest) = read_power(alloc, rest, inner)?;
    Ok((at, right, rest))
}

/// A prefixed expression, and `^` with its exponent where one follows.
#[tactic(auto, unfolding(crate::specs::Descent::powered))]
#[cycle(fields)]
fn read_power<'a>(
    alloc: Global,
    tokens: &'a [Token],
    depth: u32,
) -> Result<(Operand, &'a [Token]), Stop<'a>>
    ensures { Gives (λ x. (placed x.0, x.1.now)) result (powered (below depth) tokens.now) }
{
    let (left, rest) = read_prefixed(alloc, tokens, depth)?;
    if !begins_with(Delimiter::Caret, rest) {
        return Ok((left, rest));
    }
    let (at, right, rest) = read_exponent(alloc, rest, depth)?;
    let operand = joined(
        alloc,
        left,
        Item::Operator {
            at,
            op: BinaryOp::Power,
            right,
        },
    )?;
    Ok((operand, rest))
}

/// What stands between the operators of a level: an expression of the next tighter one.
#[tactic(auto, unfolding(crate::specs::Descent::operand_of, crate::specs::Descent::grouped))]
#[cycle(fields)]
fn read_operand<'a>(
    alloc: Global,
    level: Level,
    tokens: &'a [Token],
    depth: u32,
) -> Result<(Operand, &'a [Token]), Stop<'a>>
    ensures { Gives (λ x. (placed x.0, x.1.now)) result
        (operand_of (below depth) level tokens.now) }
{
    match level {
        Level::Product => read_power(alloc, tokens, depth),
        Level::Sum => read_level(alloc, Level::Product, tokens, depth),
        Level::Comparison => read_level(alloc, Level::Sum, tokens, depth),
        Level::Choice => read_level(alloc, Level::Comparison, tokens, depth),
    }
}

/// An operator of a level and what stands on its right: an operand, or a pattern.
#[tactic(auto, unfolding(crate::specs::Descent::item))]
#[cycle(fields)]
fn read_item<'a>(
    alloc: Global,
    level: Level,
    tokens: &'a [Token],
    depth: u32,
) -> Result<(Item, &'a [Token]), Stop<'a>>
    ensures { Gives (λ x. (item_tree x.0, x.1.now)) result
        (item level (operand_of (below depth) level) tokens.now) }
{
    match first_item(level, tokens) {
        Some((at, ItemSign::Operator(op), rest)) => {
            let (right, rest) = read_operand(alloc, level, rest, depth)?;
            Ok((Item::Operator { at, op, right }, rest))
        }
        Some((at, ItemSign::Pattern(negated), rest)) => {
            let (pattern_at, pattern, rest) = read_pattern(rest)?;
            Ok((
                Item::Pattern {
                    at,
                    negated,
                    pattern_at,
                    pattern,
                },
                rest,
            ))
        }
        None => Err(refused(tokens)),
    }
}

/// An expression of this level: operands with the level's operators between them, grouped from the left.
#[tactic(auto, using(crate::proofs::Loops::more_stops, crate::proofs::Loops::more_fails, crate::proofs::Loops::more_steps, crate::proofs::Loops::item_smaller), unfolding(crate::specs::Descent::grouped))]
#[cycle(fields)]
pub fn read_level<'a>(
    alloc: Global,
    level: Level,
    tokens: &'a [Token],
    depth: u32,
) -> Result<(Operand, &'a [Token]), Stop<'a>>
    ensures { Gives (λ x. (placed x.0, x.1.now)) result (grouped (below depth) level tokens.now) }
{
    let (mut left, mut rest) = read_operand(alloc, level, tokens, depth)?;
    'items: while goes_on(level, rest) {
        let (item, after) = read_item(alloc, level, rest, depth)?;
        left = joined(alloc, left, item)?;
        rest = after;
    }
    Ok((left, rest))
}
