//! The entry point for queries: from a text to its query, or to why it has none.

ghost use Rattle.std.specs.Prelude.{◌≡◌, ◌<◌, ◌≤◌, ℕ, List, length, Ok, Err, IfOk, IfErr, MatchResult};
ghost use Rattle.traceql_syntax.specs.Depth.{query_nesting};
ghost use Rattle.traceql_syntax.specs.Refusals.{DEPTH, IsRefusal, Means, Reads};
ghost use Rattle.traceql_syntax.specs.Refusals as refusals;
ghost use Rattle.traceql_syntax.specs.Trees.{QueryTree, bare_query, query_tree};
ghost use Rattle.traceql_parse.specs.Descent as read;
ghost use Rattle.traceql_parse.specs.Outcome.{Answers, error_of, outcome, token_error};

use crate::stage::read_query;
use crate::stop::{Cause, Stop};
use span_types::MOST_QUERY_BYTES;
use std::alloc::Global;
use traceql_syntax::{ParseError, Query};
use traceql_tokens::{Fault, Token, TokenKind, tokens};

/// How many constructs may be open inside the parentheses of a stage: 64 in all.
pub const INNER_DEPTH: u32 = 63;

/// The refusal of a token for its fault.
fn fault_error(at: u64, fault: Fault) -> ParseError
    ensures { result ≡ refusals.fault_error at fault }
{
    match fault {
        Fault::NumberRange => ParseError::NumberRange { at },
        Fault::FractionLiteral => ParseError::FractionLiteral { at },
        Fault::Unended { at } => ParseError::Unended { at },
        Fault::UnknownEscape { at } => ParseError::BadChar { at },
    }
}

/// The refusal of a token for a cause.
fn refused_token(cause: Cause, at: u64, kind: &TokenKind) -> ParseError
    ensures { result ≡ token_error cause at kind.now }
{
    match kind {
        TokenKind::Unknown => ParseError::BadChar { at },
        TokenKind::Broken(_, fault) => match cause {
            Cause::Faulty => fault_error(at, *fault),
            Cause::TooDeep => ParseError::TooDeep { at },
            _ => ParseError::Unexpected { at },
        },
        _ => match cause {
            Cause::TooDeep => ParseError::TooDeep { at },
            _ => ParseError::Unexpected { at },
        },
    }
}

/// The refusal of the first of these tokens, or of the end of a text of this length.
pub fn refused_at(cause: Cause, length: u64, rest: &[Token]) -> ParseError
    ensures { result ≡ error_of cause length rest.now }
{
    match rest {
        [first, ..] => refused_token(cause, first.at, &first.kind),
        [] => ParseError::Unended { at: length },
    }
}

/// The query that a list of tokens is, all of it; the text has this length.
fn parse_tokens(alloc: Global, tokens: &[Token], length: u64) -> Result<Query, ParseError>
    ensures { Answers query_tree result (outcome length (read.query 63 tokens.now)) }
{
    match read_query(alloc, tokens, INNER_DEPTH) {
        Ok((query, rest)) => {
            if rest.is_empty() {
                Ok(query)
            } else {
                Err(refused_at(Cause::Unexpected, length, rest))
            }
        }
        Err(Stop::Memory) => Err(ParseError::Memory),
        Err(Stop::Refused(cause, rest)) => Err(refused_at(cause, length, rest)),
    }
}

/// The query that a text is, each of its parts with its place.
///
/// What a query is, the grammar of `traceql_syntax` says. Two limits come on top: 64 constructs that are open inside
/// of one another, and [`MOST_QUERY_BYTES`] bytes. Of several faults the one that a reader meets first is reported.
/// Out of memory there may be neither.
pub fn parse(alloc: Global, text: &str) -> Result<Query, ParseError>
    ensures too_long { MOST_QUERY_BYTES < length text.now →
        result ≡ Err (ParseError.TooLong (length text.now)) }
    // What is read is in the grammar, within the limits.
    ensures found { IfOk result (λ q.
        (length text.now ≤ MOST_QUERY_BYTES) × Reads DEPTH text.now (query_tree q)) }
    // What is in the grammar within the limits is read, unless memory ran out.
    ensures complete { (q : QueryTree) → length text.now ≤ MOST_QUERY_BYTES
        → Reads DEPTH text.now q →
        MatchResult result (λ p. query_tree p ≡ q) (λ e. e ≡ ParseError.Memory) }
    // The same without places: a text that means a query within the limits is read as an equal one.
    ensures means { IfOk result (λ q. Means text.now (query_tree q)) }
    // A refusal is that of the earliest place, with its cause.
    ensures refused { IfErr result (λ e. IsRefusal text.now e) }
{
    let length = text.len() as u64;
    if length > MOST_QUERY_BYTES {
        return Err(ParseError::TooLong { length });
    }
    let Ok(list) = tokens(alloc, text) else {
        return Err(ParseError::Memory);
    };
    parse_tokens(alloc, list.as_slice(), length)
}

/// A text is at most one query: a law of the grammar, which `parse` rests on.
pub fn one_query()
    ensures one { (text : List ℕ) (p q : QueryTree) (d e : ℕ) → Reads d text p → Reads e text q
        → p ≡ q }
    // Without places and without limits: two queries that a text means are equal.
    ensures equal { (text : List ℕ) (p q : QueryTree) → Means text p → Means text q
        → bare_query p ≡ bare_query q }
{}

/// What `parse` counts against its limit of depth is how deep the text nests in the grammar: a law of the grammar.
pub fn depth_is_nesting()
    // What is read within a limit nests no deeper.
    ensures within { (depth : ℕ) (text : List ℕ) (q : QueryTree) (r : Reads depth text q) →
        query_nesting r.spelled ≤ depth }
    // What nests no deeper than a limit is read within it.
    ensures enough { (d depth : ℕ) (text : List ℕ) (q : QueryTree) (r : Reads d text q) →
        query_nesting r.spelled ≤ depth → Reads depth text q }
{}
