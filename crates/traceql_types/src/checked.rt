//! The entry point: kinds and patterns of a query at once.

ghost use Rattle.std.specs.Prelude.{◌≡◌, ℕ, List, [], IfOk, IfErr, MatchResult, IsTrue, ◌↔◌, IsSomeAnd};
ghost use Rattle.traceql_syntax.specs.Trees.{query_tree};
ghost use Rattle.traceql_types.specs.Asked.{asked_patterns};
ghost use Rattle.traceql_types.specs.Checks.{Ascends, AreMade, AskedUpTo, Blames, ComesAfterMade, GoesFirst, HasCause, made_calls};
ghost use Rattle.traceql_types.specs.Makers.{Call, CallsLead, RefusesOnly, WasRefused, refused_in};
ghost use Rattle.traceql_types.specs.Order.{Precedes};
ghost use Rattle.traceql_types.specs.Shown.{shown};
ghost use Rattle.traceql_types.specs.Refusals.{kind_refusals};
ghost use Rattle.traceql_types.specs.Steps.{GoesNoneBefore, Step};

use crate::asked::{Asked, patterns_of};
use crate::queries::query_refusal;
use crate::{MakeError, Pattern, PatternMaker, Patterns, TypeError};
use span_types::Memory;
use std::alloc::Global;
use traceql_syntax::Query;

/// A query whose kinds fit, with its patterns: one for each `=~` and `!~`, in the text's order, which shows that
/// operator's string.
#[derive(Drop)]
pub struct Checked {
    /// The query.
    pub query: Query,
    /// Its patterns.
    pub patterns: Patterns,
    ghost fits: { kind_refusals (query_tree query) ≡ [] },
    ghost made: { AreMade (asked_patterns (query_tree query)) patterns },
}

// Whether a refusal was found that goes before any for a pattern at this place.
fn goes_before(first: Option<TypeError>, at: u64) -> bool
    ensures { IsTrue result ↔ IsSomeAnd first (λ e. Precedes e (TypeError.BadPattern at)) }
{
    match first {
        None => false,
        Some(found) => found.precedes(TypeError::BadPattern { at }),
    }
}

// Makes the next pattern, unless a refusal goes before any of it, and gives the refusal that goes first now.
fn make_next<P: PatternMaker>(
    maker: &mut P,
    asked: Asked<'_>,
    first: Option<TypeError>,
    made: &mut Vec<Pattern>,
) -> Result<Option<TypeError>, Memory>
    ensures step { (calls : List Call) × CallsLead P.makes maker.old calls maker.new
        × MatchResult result
        (λ now. Step (shown asked.entry) first made.old.items now made.new.items calls)
        (λ _. GoesNoneBefore first asked.entry.at × (refused_in calls ≡ [])) }
{
    if goes_before(first, asked.at) {
        return Ok(first);
    }
    match maker.make(asked.text.as_str()) {
        Ok(pattern) => {
            made.push(pattern)?;
            Ok(first)
        }
        Err(MakeError::Syntax) => Ok(Some(TypeError::BadPattern { at: asked.at })),
        Err(MakeError::Refused) => Ok(Some(TypeError::PatternTooBig { at: asked.at })),
        Err(MakeError::Memory) => Err(Memory),
    }
}

// Makes the patterns of a query, in the text's order, as long as no refusal goes before theirs.
fn make_all<P: PatternMaker>(
    alloc: Global,
    query: &Query,
    maker: &mut P,
) -> Result<Patterns, TypeError>
    ensures fits { IfOk result (λ patterns. kind_refusals (query_tree query.now) ≡ []) }
    ensures made { IfOk result (AreMade (asked_patterns (query_tree query.now))) }
    ensures cause { IfErr result (HasCause (query_tree query.now)
        (WasRefused P.makes maker.old maker.new)) }
    ensures first { IfErr result (GoesFirst (query_tree query.now)) }
    ensures after_made { IfErr result (ComesAfterMade (query_tree query.now)) }
    ensures asked { (calls : List Call) × CallsLead P.makes maker.old calls maker.new
        × MatchResult result (λ patterns. calls ≡ made_calls patterns)
        (λ e. AskedUpTo (query_tree query.now) e calls) }
{
    let asked = patterns_of(alloc, query)?;
    let mut first = query_refusal(query);
    let mut made = Vec::new(alloc);
    for pattern in asked.as_slice() {
        first = make_next(maker, *pattern, first, &mut made)?;
    }
    match first {
        None => Ok(Patterns::of(made)),
        Some(refusal) => Err(refusal),
    }
}

/// Tests the kinds of a query and makes its patterns. Of several refusals the one of the earliest place is given,
/// whether it is for kinds or for a pattern. The maker is asked for the patterns in the text's order, up to the first
/// that it refuses, and for none after a refusal.
pub fn check<P: PatternMaker>(
    alloc: Global,
    query: Query,
    maker: &mut P,
) -> Result<Checked, TypeError>
    ensures query { IfOk result (λ c. c.query ≡ query) }
    ensures fits { IfOk result (λ c. kind_refusals (query_tree query) ≡ []) }
    ensures made { IfOk result (λ c. AreMade (asked_patterns (query_tree query)) c.patterns) }
    ensures cause { IfErr result (HasCause (query_tree query)
        (WasRefused P.makes maker.old maker.new)) }
    ensures first { IfErr result (GoesFirst (query_tree query)) }
    ensures after_made { IfErr result (ComesAfterMade (query_tree query)) }
    // The maker was asked for just the patterns before the refusal, in the text's order, and for the refused one.
    ensures asked { (calls : List Call) × CallsLead P.makes maker.old calls maker.new
        × MatchResult result (λ c. calls ≡ made_calls c.patterns)
        (λ e. AskedUpTo (query_tree query) e calls) }
    // And it refused just the pattern that is blamed for its size, if one is.
    ensures blamed { (refused : List (List ℕ)) × RefusesOnly P.makes maker.old maker.new refused
        × (Ascends (asked_patterns (query_tree query))
        → MatchResult result (λ c. refused ≡ []) (Blames (query_tree query) refused)) }
{
    let patterns = make_all(alloc, &query, maker)?;
    Ok(Checked { query, patterns })
}
