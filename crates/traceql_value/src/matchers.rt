//! A query's patterns, ready to search.

ghost use Rattle.std.specs.Prelude.{◌≡◌, ℕ, List, ◌++◌, ◌∷◌, [], Some, IfOk, OnOk, not, if◌then◌else◌};
ghost use Rattle.traceql_syntax.specs.Trees.{query_tree};
ghost use Rattle.traceql_types.specs.Asked.{asked_patterns};
ghost use Rattle.traceql_types.specs.Checks.{Ascends};
ghost use Rattle.traceql_value.specs.Meaning.{matches, matched};
ghost use Rattle.traceql_value.specs.Matchers.{all_known, found_at, is_search_of, last_number, number_at, number_of, AreSearches, EachSearchesFor, SearchFor};
ghost use Rattle.traceql_value.specs.ValueRef.{ref_value};

use crate::value_ref::ValueRef;
use regex::Matcher;
use span_types::Memory;
use std::alloc::Global;
use std::collections::BTreeMap;
use traceql_syntax::Query;
use traceql_types::{Checked, Pattern, patterns_of};

/// What searches for the pattern of a string.
#[derive(Drop)]
pub(crate) struct Search<'a> {
    /// The string.
    pub(crate) string: &'a str,
    /// The search.
    pub(crate) matcher: Matcher<'a>,
}

/// A query's patterns, and what searches for each string of them: made once for a query, and lent to one trace's
/// context after another.
///
/// A match's search is found by the place of its string in the query. A tree that isn't the query's, or that was made
/// by hand and has two strings at one place, may lead to another string's search: then it is found by its string.
#[derive(Drop)]
pub struct Matchers<'a> {
    pub(crate) patterns: &'a [Pattern],
    pub(crate) searches: Vec<Search<'a>>,
    pub(crate) numbers: BTreeMap<&'a str, usize>,
    pub(crate) places: BTreeMap<u64, usize>,
    ghost tied: { SearchFor (all_known searches.items) numbers patterns.now },
    ghost each: { EachSearchesFor (all_known searches.items) patterns.now },
}

// Adds what searches for a pattern's string, unless there is a search for it.
fn add_search<'a>(
    alloc: Global,
    pattern: &'a Pattern,
    searches: &mut Vec<Search<'a>>,
    numbers: &mut BTreeMap<&'a str, usize>,
) -> Result<(), Memory>
    ensures { OnOk result ((ps : List Pattern)
        → AreSearches ps (all_known searches.old.items) numbers.old
        → AreSearches (ps ++ pattern.now ∷ []) (all_known searches.new.items) numbers.new) }
{
    let string = pattern.as_str();
    if numbers.contains_key(string) {
        return Ok(());
    }
    let matcher = pattern.matcher(alloc)?;
    numbers.insert(string, searches.len())?;
    searches.push(Search { string, matcher })?;
    Ok(())
}

// The number of the search to which each place of the query leads: that of the last string there.
fn places_of(
    alloc: Global,
    query: &Query,
    numbers: &BTreeMap<&str, usize>,
) -> Result<BTreeMap<u64, usize>, Memory>
    ensures { IfOk result (λ places. (at : ℕ) → number_at places at
        ≡ last_number (number_of numbers.now) (asked_patterns (query_tree query.now)) at) }
{
    let asked = patterns_of(alloc, query)?;
    let mut places = BTreeMap::new(alloc);
    for pattern in asked.as_slice() {
        if let Some(number) = numbers.get(pattern.text.as_str()) {
            places.insert(pattern.at, *number)?;
        }
    }
    Ok(places)
}

// Whether the search of this number finds a match in a text; it doesn't where there are fewer searches.
fn is_match_at(searches: &mut Vec<Search<'_>>, number: usize, text: &str) -> bool
    ensures found { result ≡ found_at (all_known searches.old.items) (Some number) text.now }
    ensures same { all_known searches.new.items ≡ all_known searches.old.items }
{
    if number >= searches.len() {
        return false;
    }
    searches[number].matcher.is_match(text)
}

// Whether the search of this number, if there is one, finds a match in a text.
fn is_match(searches: &mut Vec<Search<'_>>, number: Option<usize>, text: &str) -> bool
    ensures found { result ≡ found_at (all_known searches.old.items) number text.now }
    ensures same { all_known searches.new.items ≡ all_known searches.old.items }
{
    match number {
        Some(number) => is_match_at(searches, number, text),
        None => false,
    }
}

impl<'a> Matchers<'a> {
    ghost use Rattle.traceql_value.specs.EvalContexts.{matchers_patterns, AreFoundByPlace};

    /// Makes what searches for a query's patterns: one search for each string, however often the query asks for it. In
    /// a query whose patterns stand in the text's order, as in every one that was parsed, each is found by its place.
    pub fn of(alloc: Global, checked: &'a Checked) -> Result<Matchers<'a>, Memory>
        ensures patterns { IfOk result (λ s. matchers_patterns s ≡ checked.now.patterns) }
        ensures placed { IfOk result (λ s. Ascends (asked_patterns (query_tree checked.now.query))
            → AreFoundByPlace s (asked_patterns (query_tree checked.now.query))) }
    {
        let patterns = checked.patterns.as_slice();
        let mut searches = Vec::new(alloc);
        let mut numbers = BTreeMap::new(alloc);
        for pattern in patterns {
            add_search(alloc, pattern, &mut searches, &mut numbers)?;
        }
        let places = places_of(alloc, &checked.query, &numbers)?;
        Ok(Matchers {
            patterns,
            searches,
            numbers,
            places,
        })
    }

    // Whether the search of this number is this string's.
    fn is_search_of(&self, number: usize, string: &str) -> bool
        ensures { result ≡ is_search_of (all_known self.now.searches.items) number string.now }
    {
        match self.searches.get(number) {
            Some(search) => search.string == string,
            None => false,
        }
    }

    // The number of the search for the string that stands at this place of the query: the one to which the place
    // leads, and else, where that is another string's, the one to which the string leads.
    fn number_of(&self, at: u64, string: &str) -> Option<usize>
        ensures { (text : List ℕ) → found_at (all_known self.now.searches.items) result text
            ≡ matches self.now.patterns.now string.now text }
    {
        match self.places.get(&at) {
            Some(number) if self.is_search_of(*number, string) => Some(*number),
            _ => self.numbers.get(string).copied(),
        }
    }

    // Whether a text matches, or doesn't where that is asked for.
    fn matches(&mut self, at: u64, string: &str, negated: bool, text: &str) -> bool
        ensures value { result
            ≡ (if negated then not
            (matches self.old.patterns.now string.now text.now) else matches self.old.patterns.now string.now text.now) }
        ensures same { self.new.patterns.now ≡ self.old.patterns.now }
    {
        let number = self.number_of(at, string);
        is_match(&mut self.searches, number, text) != negated
    }

    /// What a match with the pattern whose string stands at this place gives, or its opposite: what is no text neither
    /// matches nor differs.
    pub(crate) fn matched(
        &mut self,
        at: u64,
        string: &str,
        negated: bool,
        value: &ValueRef<'_>,
    ) -> bool
        ensures value { result
            ≡ matched self.old.patterns.now string.now negated (ref_value value.now) }
        ensures same { self.new.patterns.now ≡ self.old.patterns.now }
    {
        match value {
            ValueRef::Text(text) => self.matches(at, string, negated, text),
            ValueRef::Made(text) => self.matches(at, string, negated, text.as_str()),
            ValueRef::Nil
            | ValueRef::Truth(_)
            | ValueRef::Number(_)
            | ValueRef::Status(_)
            | ValueRef::Kind(_) => false,
        }
    }
}
