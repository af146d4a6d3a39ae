//! The options of a metrics query's line, and its query.

ghost use Rattle.std.specs.Prelude.{◌≡◌, ◌<◌, IfOk, IfSome, Some, codes};
ghost use Rattle.session_text.specs.MetricsLines.{if_step, end_above, metrics_parts, needed, place_of, step_of, there};
ghost use Rattle.session_text.specs.Options.{option_first, time_of};
ghost use Rattle.session_text.specs.Parsed.{needed_parsed, left_parsed, metrics_parsed, option_parsed};

use crate::options::{behind, digits, split_text, time_first};

/// What a metrics query's line says.
#[derive(Drop)]
pub(crate) struct MetricsLine<'a> {
    /// The first moment that counts.
    pub(crate) start: u64,
    /// The moment after the last one that counts.
    pub(crate) end: u64,
    /// How long a bucket is.
    pub(crate) step: u64,
    /// The text of the query.
    pub(crate) query: &'a str,
}

/// What a metrics query's line says, of which this is left after `metrics`. An error is the place of the first part
/// that can't stand there, and the line's length where a part is missing.
#[tactic(auto, unfolding(crate::specs::MetricsLines::metrics_parts))]
pub(crate) fn metrics_parts<'a>(length: u64, left: Option<&'a str>) -> Result<MetricsLine<'a>, u64>
    ensures line { metrics_parsed result ≡ metrics_parts length (left_parsed left.entry) }
    ensures ordered { IfOk result (λ line. line.start < line.end) }
    ensures stepped { IfOk result (λ line. 0 < line.step) }
{
    let (start, left) = needed_time("start=", length, left)?;
    let at = place_of(length, left);
    let found = needed_time("end=", length, left)?;
    let (end, left) = end_above(start, at, found)?;
    let (step, left) = needed_step(length, left)?;
    let Some(query) = left else {
        return Err(length);
    };
    Ok(MetricsLine {
        start,
        end,
        step,
        query,
    })
}

/// A time that must stand first in what is left, and what is left then.
#[tactic(auto, unfolding(crate::specs::MetricsLines::needed))]
fn needed_time<'a>(
    name: &str,
    length: u64,
    left: Option<&'a str>,
) -> Result<(u64, Option<&'a str>), u64>
    ensures { needed_parsed result ≡ needed time_of name.now length (left_parsed left.entry) }
{
    let (found, more) = time_first(name, length, left)?;
    there(length, found, more)
}

/// The step that must stand first in what is left, and what is left then.
#[tactic(auto, unfolding(crate::specs::MetricsLines::needed))]
fn needed_step<'a>(length: u64, left: Option<&'a str>) -> Result<(u64, Option<&'a str>), u64>
    ensures given { needed_parsed result ≡ needed step_of (codes "step=") length (left_parsed left.entry) }
    ensures stepped { IfOk result (λ given. 0 < given.0) }
{
    let (found, more) = step_first(length, left)?;
    there(length, found, more)
}

/// The step that may stand first in what is left, and what is left then.
#[tactic(auto, unfolding(crate::specs::Options::option_first))]
fn step_first<'a>(length: u64, left: Option<&'a str>) -> Result<(Option<u64>, Option<&'a str>), u64>
    ensures read { option_parsed result ≡ option_first step_of (codes "step=") length (left_parsed left.entry) }
    ensures stepped { IfOk result (λ read. IfSome read.0 (λ n. 0 < n)) }
{
    let Some(text) = left else {
        return Ok((None, None));
    };
    let (part, more) = split_text(text);
    let Some(value) = behind("step=", part) else {
        return Ok((None, Some(text)));
    };
    match step(value) {
        Some(found) => Ok((Some(found), more)),
        None => Err(length.saturating_sub(text.len() as u64)),
    }
}

/// An option that must stand there, where this was read.
fn there<'a>(
    length: u64,
    found: Option<u64>,
    left: Option<&'a str>,
) -> Result<(u64, Option<&'a str>), u64>
    ensures given { needed_parsed result ≡ there length found (left_parsed left.entry) }
    ensures same { IfOk result (λ given. found ≡ Some given.0) }
{
    match found {
        Some(value) => Ok((value, left)),
        None => Err(place_of(length, left)),
    }
}

/// Where what is left of a line of this length begins.
fn place_of(length: u64, left: Option<&str>) -> u64
    ensures { result ≡ place_of length (left_parsed left.entry) }
{
    match left {
        Some(text) => length.saturating_sub(text.len() as u64),
        None => length,
    }
}

/// The end, if it is above the start.
#[tactic(auto, unfolding(crate::specs::MetricsLines::end_above))]
fn end_above<'a>(
    start: u64,
    at: u64,
    end: (u64, Option<&'a str>),
) -> Result<(u64, Option<&'a str>), u64>
    ensures end { needed_parsed result ≡ end_above start at (end.entry.0, left_parsed end.entry.1) }
    ensures above { IfOk result (λ end. start < end.0) }
{
    if start < end.0 {
        return Ok(end);
    }
    Err(at)
}

/// A number from 1 on.
fn if_step(number: u64) -> Option<u64>
    ensures step { result ≡ if_step number }
    ensures some { IfSome result (λ n. 0 < n) }
{
    if number == 0 {
        return None;
    }
    Some(number)
}

/// A step: decimal digits of a number from 1 to 2^64 - 1.
fn step(text: &str) -> Option<u64>
    ensures step { result ≡ step_of text.now }
    ensures some { IfSome result (λ n. 0 < n) }
{
    if_step(digits(text)?)
}
