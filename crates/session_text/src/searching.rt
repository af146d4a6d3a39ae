//! What a search's line asks, from its parts: the query is parsed and checked, and its patterns made.

ghost use Rattle.std.specs.Prelude.{◌≡◌, ℕ, List, [], IfOk, IfErr, MatchResult};
ghost use Rattle.traceql_syntax.specs.Refusals.{IsRefusal};
ghost use Rattle.traceql_syntax.specs.Trees.{query_tree};
ghost use Rattle.traceql_types.specs.Asked.{asked_patterns};
ghost use Rattle.traceql_types.specs.Checks.{Ascends};
ghost use Rattle.traceql_types.specs.Makers.{RefusesOnly};
ghost use Rattle.session_text.specs.Searches.{IsMisfit, IsNoQuery, IsQuery, ReadsSearch, of_check, of_parse};
ghost use Rattle.session_text.specs.Parsed.{parts_parsed};

use crate::options::SearchLine;
use crate::{KindFault, QueryFault, Refusal, Search};
use std::alloc::Global;
use traceql_parse::parse;
use traceql_syntax::{ParseError, Query};
use traceql_types::{Checked, PatternMaker, TypeError, check};

/// The refusal of a text that is no query.
pub(crate) fn of_parse(error: ParseError) -> Refusal
    ensures { result ≡ of_parse error }
{
    match error {
        ParseError::BadChar { at } => Refusal::BadQuery(QueryFault::BadChar { at }),
        ParseError::Unexpected { at } => Refusal::BadQuery(QueryFault::Unexpected { at }),
        ParseError::Unended { at } => Refusal::BadQuery(QueryFault::Unended { at }),
        ParseError::NumberRange { at } => Refusal::BadQuery(QueryFault::NumberRange { at }),
        ParseError::FractionLiteral { at } => {
            Refusal::BadQuery(QueryFault::FractionLiteral { at })
        }
        ParseError::TooLong { length } => Refusal::BadQuery(QueryFault::TooLong { length }),
        ParseError::TooDeep { at } => Refusal::BadQuery(QueryFault::TooDeep { at }),
        ParseError::Memory => Refusal::Memory,
    }
}

/// The refusal of a query for its kinds or its patterns.
fn of_check(error: TypeError) -> Refusal
    ensures { result ≡ of_check error }
{
    match error {
        TypeError::KindClash { at } => Refusal::BadType(KindFault::KindClash { at }),
        TypeError::NotTruth { at } => Refusal::BadType(KindFault::NotTruth { at }),
        TypeError::DivisionInAggregate { at } => {
            Refusal::BadType(KindFault::DivisionInAggregate { at })
        }
        TypeError::NotNumber { at } => Refusal::BadType(KindFault::NotNumber { at }),
        TypeError::BadPattern { at } => Refusal::BadPattern { at },
        TypeError::PatternTooBig { at } => Refusal::PatternTooBig { at },
        TypeError::Memory => Refusal::Memory,
    }
}

/// The query that a text is.
fn query_of(alloc: Global, text: &str) -> Result<Query, Refusal>
    ensures query { IfOk result (λ q. IsQuery text.now (query_tree q)) }
    ensures refused { IfErr result (IsNoQuery IsRefusal text.now) }
{
    match parse(alloc, text) {
        Ok(query) => Ok(query),
        Err(error) => Err(of_parse(error)),
    }
}

/// A query with its patterns, if its kinds fit and they can be made.
pub(crate) fn fitted<P: PatternMaker>(
    alloc: Global,
    query: Query,
    maker: &mut P,
) -> Result<Checked, Refusal>
    requires { Ascends (asked_patterns (query_tree query)) }
    ensures { (refused : List (List ℕ)) × RefusesOnly P.makes maker.old maker.new refused
        × MatchResult result (λ checked. (checked.query ≡ query) × (refused ≡ []))
        (IsMisfit (query_tree query) refused) }
{
    match check(alloc, query, maker) {
        Ok(checked) => Ok(checked),
        Err(error) => Err(of_check(error)),
    }
}

/// The search that a line asks for.
pub(crate) fn search<P: PatternMaker>(
    alloc: Global,
    line: SearchLine<'_>,
    maker: &mut P,
) -> Result<Search, Refusal>
    ensures { (refused : List (List ℕ)) × RefusesOnly P.makes maker.old maker.new refused
        × ReadsSearch (parts_parsed line.entry) refused result }
{
    let query = query_of(alloc, line.query)?;
    let checked = fitted(alloc, query, maker)?;
    Ok(Search {
        checked,
        range: line.range,
        limit: line.limit,
        spans_per_set: line.spans_per_set,
    })
}
