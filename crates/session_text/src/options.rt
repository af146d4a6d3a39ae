//! The options of a search's line, and its query.

ghost use Rattle.std.specs.Prelude.{◌≡◌, ℕ, List, Option, Result, codes, option_map};
ghost use Rattle.std.specs.Char.{is_ascii_digit};
ghost use Rattle.std.specs.List.{list_all};
ghost use Rattle.otlp_spans.specs.Fields.{moment_of};
ghost use Rattle.session_text.specs.Lines.{first_part, other_parts};
ghost use Rattle.session_text.specs.Options.{behind, count_of, if_count, option_first, search_parts, time_of, timestamp_of};
ghost use Rattle.session_text.specs.Parsed.{left_parsed, line_parsed, option_parsed};

use jiff::Timestamp;
use moment_range::Range;

/// How many traces, and how many spans of a spanset, an option may ask for at most.
const MOST: u64 = 1000;

/// How many traces are shown if no option says it.
const LIMIT: u32 = 20;

/// How many spans of a spanset are shown if no option says it.
const SPANS_PER_SET: u32 = 3;

/// What a search's line says.
#[derive(Drop)]
pub(crate) struct SearchLine<'a> {
    /// How many traces are shown at most.
    pub(crate) limit: u32,
    /// How many spans of a spanset are shown at most.
    pub(crate) spans_per_set: u32,
    /// A trace counts of which a span starts in this range.
    pub(crate) range: Range,
    /// The text of the query.
    pub(crate) query: &'a str,
}

/// What a search's line says, of which this is left after `search`. An error is the place of the first part that can't
/// stand there, and the line's length where the query is missing.
#[tactic(auto, unfolding(crate::specs::Options::search_parts))]
pub(crate) fn search_parts<'a>(length: u64, left: Option<&'a str>) -> Result<SearchLine<'a>, u64>
    ensures { line_parsed result ≡ search_parts length (left_parsed left.entry) }
{
    let (limit, left) = count_first("limit=", length, left)?;
    let (spans_per_set, left) = count_first("spss=", length, left)?;
    let (start, left) = time_first("start=", length, left)?;
    let (until, left) = time_first("end=", length, left)?;
    let Some(query) = left else {
        return Err(length);
    };
    let from = start.unwrap_or(0);
    Ok(SearchLine {
        limit: limit.unwrap_or(LIMIT),
        spans_per_set: spans_per_set.unwrap_or(SPANS_PER_SET),
        range: Range { from, until },
        query,
    })
}

/// An option with a count that may stand first in what is left, and what is left then.
#[tactic(auto, unfolding(crate::specs::Options::option_first))]
fn count_first<'a>(
    name: &str,
    length: u64,
    left: Option<&'a str>,
) -> Result<(Option<u32>, Option<&'a str>), u64>
    ensures { option_parsed result
        ≡ option_first count_of name.now length (left_parsed left.entry) }
{
    let Some(text) = left else {
        return Ok((None, None));
    };
    let (part, more) = split_text(text);
    let Some(value) = behind(name, part) else {
        return Ok((None, Some(text)));
    };
    match count(value) {
        Some(found) => Ok((Some(found), more)),
        None => Err(length.saturating_sub(text.len() as u64)),
    }
}

/// An option with a time that may stand first in what is left, and what is left then.
#[tactic(auto, unfolding(crate::specs::Options::option_first))]
pub(crate) fn time_first<'a>(
    name: &str,
    length: u64,
    left: Option<&'a str>,
) -> Result<(Option<u64>, Option<&'a str>), u64>
    ensures { option_parsed result ≡ option_first time_of name.now length (left_parsed left.entry) }
{
    let Some(text) = left else {
        return Ok((None, None));
    };
    let (part, more) = split_text(text);
    let Some(value) = behind(name, part) else {
        return Ok((None, Some(text)));
    };
    match time(value) {
        Some(found) => Ok((Some(found), more)),
        None => Err(length.saturating_sub(text.len() as u64)),
    }
}

/// The first part, and what follows the space after it.
pub(crate) fn split_text(text: &str) -> (&str, Option<&str>)
    ensures first { result.0.now ≡ first_part text.now }
    ensures others { left_parsed result.1 ≡ other_parts text.now }
{
    match text.split_once(' ') {
        Some((part, more)) => (part, Some(more)),
        None => (text, None),
    }
}

/// What follows a name at the beginning of a text.
pub(crate) fn behind<'a>(name: &str, text: &'a str) -> Option<&'a str>
    ensures { left_parsed result ≡ behind name.now text.now }
{
    text.strip_prefix(name)
}

/// Whether each byte is a decimal digit.
fn all_digits(text: &str) -> bool
    ensures { result ≡ list_all is_ascii_digit text.now }
{
    text.as_bytes().iter().all(|b| b.is_ascii_digit())
}

/// Decimal digits alone, of a number below 2^64.
pub(crate) fn digits(text: &str) -> Option<u64>
    ensures { result ≡ moment_of text.now }
{
    if !all_digits(text) {
        return None;
    }
    text.parse::<u64>().ok()
}

/// A number from 1 to 1,000.
fn if_count(number: u64) -> Option<u32>
    ensures { result ≡ if_count number }
{
    if number == 0 || number > MOST {
        return None;
    }
    Some(number as u32)
}

/// A count: decimal digits of a number from 1 to 1,000.
fn count(text: &str) -> Option<u32>
    ensures { result ≡ count_of text.now }
{
    if_count(digits(text)?)
}

/// The moment of a text that is read as a timestamp.
#[tactic(auto, unfolding(crate::specs::Options::timestamp_of))]
fn timestamp(text: &str) -> Option<u64>
    ensures { result ≡ timestamp_of text.now }
{
    match text.parse::<Timestamp>() {
        Ok(timestamp) => u64::try_from(timestamp.as_nanosecond()).ok(),
        Err(_) => None,
    }
}

/// A time: decimal digits of its nanoseconds, or a timestamp.
fn time(text: &str) -> Option<u64>
    ensures { result ≡ time_of text.now }
{
    match digits(text) {
        Some(nanos) => Some(nanos),
        None => timestamp(text),
    }
}
