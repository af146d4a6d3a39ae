//! Metrics queries: how they are read, and from a text to its metrics query, or to why it has none.
//!
//! The words that end a metrics query are words in no other place. So a stage is read wherever none of them stands.

ghost use Rattle.std.specs.Prelude.{◌≡◌, ◌<◌, ◌≤◌, ℕ, List, length, Ok, Err, IfOk, IfErr, MatchResult};
ghost use Rattle.traceql_syntax.specs.Refusals.{DEPTH, IsMetricsRefusal, ReadsMetrics};
ghost use Rattle.traceql_syntax.specs.Trees.{MetricsTree, metrics_tree, placed_option, query_tree, stage_tree};
ghost use Rattle.traceql_parse.specs.Metrics.{counting, metrics, query_bar, splitting, stage_bar};
ghost use Rattle.traceql_parse.specs.Outcome.{Answers, outcome};
ghost use Rattle.traceql_parse.specs.Reading.{Gives};

use crate::lookahead::{
    Delimiter, after_first, begins_by, first_metrics, refused, stage_follows, take_delimiter,
};
use crate::stage::{read_all_sets, read_empty_parens, read_enclosed, read_stage};
use crate::stop::{Cause, Stop};
use crate::text::{INNER_DEPTH, refused_at};
use span_types::MOST_QUERY_BYTES;
use std::alloc::Global;
use traceql_syntax::{MetricsQuery, Operand, ParseError, Query, Stage, Stages};
use traceql_tokens::{Token, metrics_tokens};

/// A stage and the bar after it.
#[tactic(auto, unfolding(crate::specs::Metrics::stage_bar))]
fn read_stage_bar<'a>(
    alloc: Global,
    tokens: &'a [Token],
    inner: u32,
) -> Result<(Stage, &'a [Token]), Stop<'a>>
    requires { inner < 4294967295 }
    ensures { Gives (λ x. (stage_tree x.0, x.1.now)) result (stage_bar inner tokens.now) }
{
    let (stage, rest) = read_stage(alloc, tokens, inner)?;
    let (_, rest) = take_delimiter(Delimiter::Bar, rest)?;
    Ok((stage, rest))
}

/// A query and the bar after it, up to the word that ends a metrics query.
#[tactic(auto, using(crate::proofs::MetricsLoops::stages_before_stops, crate::proofs::MetricsLoops::stages_before_fails, crate::proofs::MetricsLoops::stages_before_steps, crate::proofs::MetricsLoops::stage_bar_smaller), unfolding(crate::specs::Metrics::query_bar))]
fn read_query_bar<'a>(
    alloc: Global,
    tokens: &'a [Token],
    inner: u32,
) -> Result<(Query, &'a [Token]), Stop<'a>>
    requires { inner < 4294967295 }
    ensures { Gives (λ x. (query_tree x.0, x.1.now)) result (query_bar inner tokens.now) }
{
    let (spansets, rest) = read_all_sets(alloc, tokens, inner + 1)?;
    let (_, mut rest) = take_delimiter(Delimiter::Bar, rest)?;
    let mut list = Vec::new(alloc);
    'items: while stage_follows(rest) {
        let (stage, after) = read_stage_bar(alloc, rest, inner)?;
        list.push(stage)?;
        rest = after;
    }
    let stages = Stages::of(list);
    Ok((Query { spansets, stages }, rest))
}

/// The word that ends a metrics query, and its parentheses: whether it asks for a rate.
#[tactic(auto, unfolding(crate::specs::Metrics::counting))]
fn read_counting(tokens: &[Token]) -> Result<(bool, &[Token]), Stop<'_>>
    ensures { Gives (λ x. (x.0, x.1.now)) result (counting tokens.now) }
{
    match first_metrics(tokens) {
        Some((_, rate, rest)) => {
            let rest = read_empty_parens(rest)?;
            Ok((rate, rest))
        }
        None => Err(refused(tokens)),
    }
}

/// `by` and an expression in parentheses, where the word stands there.
#[tactic(auto, unfolding(crate::specs::Metrics::splitting))]
fn read_splitting<'a>(
    alloc: Global,
    tokens: &'a [Token],
    inner: u32,
) -> Result<(Option<Operand>, &'a [Token]), Stop<'a>>
    ensures { Gives (λ x. (placed_option x.0, x.1.now)) result (splitting inner tokens.now) }
{
    if !begins_by(tokens) {
        return Ok((None, tokens));
    }
    let (by, rest) = read_enclosed(alloc, after_first(tokens), inner)?;
    Ok((Some(by), rest))
}

/// A metrics query, inside whose parentheses so many constructs may be opened, and one more elsewhere.
#[tactic(auto, unfolding(crate::specs::Metrics::metrics))]
fn read_metrics<'a>(
    alloc: Global,
    tokens: &'a [Token],
    inner: u32,
) -> Result<(MetricsQuery, &'a [Token]), Stop<'a>>
    requires { inner < 4294967295 }
    ensures { Gives (λ x. (metrics_tree x.0, x.1.now)) result (metrics inner tokens.now) }
{
    let (query, rest) = read_query_bar(alloc, tokens, inner)?;
    let (rate, rest) = read_counting(rest)?;
    let (by, rest) = read_splitting(alloc, rest, inner)?;
    Ok((MetricsQuery { query, rate, by }, rest))
}

/// The metrics query that a list of tokens is, all of it; the text has this length.
fn parse_tokens(alloc: Global, tokens: &[Token], length: u64) -> Result<MetricsQuery, ParseError>
    ensures { Answers metrics_tree result (outcome length (metrics 63 tokens.now)) }
{
    match read_metrics(alloc, tokens, INNER_DEPTH) {
        Ok((query, rest)) => {
            if rest.is_empty() {
                Ok(query)
            } else {
                Err(refused_at(Cause::Unexpected, length, rest))
            }
        }
        Err(Stop::Memory) => Err(ParseError::Memory),
        Err(Stop::Refused(cause, rest)) => Err(refused_at(cause, length, rest)),
    }
}

/// The metrics query that a text is, each of its parts with its place.
///
/// What a metrics query is, the grammar of `traceql_syntax` says; the limits and the order of faults are those of
/// [`crate::parse`]. Out of memory there may be neither.
pub fn parse_metrics(alloc: Global, text: &str) -> Result<MetricsQuery, ParseError>
    ensures too_long { MOST_QUERY_BYTES < length text.now →
        result ≡ Err (ParseError.TooLong (length text.now)) }
    // What is read is in the grammar, within the limits.
    ensures found { IfOk result (λ m.
        (length text.now ≤ MOST_QUERY_BYTES) × ReadsMetrics DEPTH text.now (metrics_tree m)) }
    // What is in the grammar within the limits is read, unless memory ran out.
    ensures complete { (m : MetricsTree) → length text.now ≤ MOST_QUERY_BYTES
        → ReadsMetrics DEPTH text.now m →
        MatchResult result (λ p. metrics_tree p ≡ m) (λ e. e ≡ ParseError.Memory) }
    // A refusal is that of the earliest place, with its cause.
    ensures refused { IfErr result (λ e. IsMetricsRefusal text.now e) }
{
    let length = text.len() as u64;
    if length > MOST_QUERY_BYTES {
        return Err(ParseError::TooLong { length });
    }
    let Ok(list) = metrics_tokens(alloc, text) else {
        return Err(ParseError::Memory);
    };
    parse_tokens(alloc, list.as_slice(), length)
}

/// A text is at most one metrics query: a law of the grammar, which `parse_metrics` rests on.
pub fn one_metrics_query()
    ensures { (text : List ℕ) (l m : MetricsTree) (d e : ℕ) → ReadsMetrics d text l
        → ReadsMetrics e text m → l ≡ m }
{}
