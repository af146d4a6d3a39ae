//! Reading a line: bytes to what it asks, or why it is refused. The first word decides which part is read how.

ghost use Rattle.std.specs.Prelude.{◌≡◌, ◌⊎◌, ℕ, List, IfOk, Err, Ok, Some, None, option_map, length};
ghost use Rattle.traceql_types.specs.Makers.{RefusesOnly};
ghost use Rattle.session_text.specs.declared.refusal.Refusal.TheVariants.{Memory};
ghost use Rattle.session_text.specs.Lines.{first_part, other_parts};
ghost use Rattle.session_text.specs.MetricsLines.{metrics_parts};
ghost use Rattle.session_text.specs.Options.{search_parts};
ghost use Rattle.session_text.specs.Requests.{Answers, AsksAt, AsksPush, HasFewSpans, alone, is_reopen, line_of, metrics_with, other_line, push_with, search_with, trace_with, with_id};
ghost use Rattle.session_text.specs.Parsed.{left_parsed};

use crate::measuring::metrics;
use crate::metrics_line::metrics_parts;
use crate::options::{search_parts, split_text};
use crate::searching::search;
use crate::{Refusal, Request};
use otlp_spans::{OtlpError, read_line, read_trace_id};
use span_types::{MOST_LINE_BYTES, TraceId};
use std::alloc::Global;
use traceql_metrics::{MOST_BUCKETS, buckets};
use traceql_types::PatternMaker;

/// How many bytes a line may have.
const LINE_LIMIT: usize = MOST_LINE_BYTES as usize;

/// How many bytes stand before what is pushed: the word `push` and a space.
const PUSH_WORD: u64 = 5;

/// What a line asks that was read at this moment, in nanoseconds, or why it is refused.
///
/// - `push JSON`: what the JSON gives, or why it gives nothing. The JSON is the rest of the line.
/// - `trace ID`: an ID is 32 hexadecimal digits of either case that aren't all zeros.
/// - `search [limit=n] [spss=n] [start=T] [end=T] QUERY`: a search. The options stand in this order, each n is a number
///   from 1 to 1,000 and each T a count of nanoseconds or a timestamp. The QUERY is the rest of the line. The maker
///   makes its patterns.
/// - `metrics start=T end=T step=n QUERY`: a metrics query. The options all stand there in this order, the end is
///   above the start, n is a number from 1 on, and there are at most 1,000 buckets. The QUERY is the rest of the line.
/// - `cut`, `cutall`, `flush`, `compact`, `reclaim`: a cut at the moment, a cut of all, a flush, a compaction, and the
///   emptying of loose files. Nothing stands after the word.
///
/// One space stands between the parts. A line that is none of these is refused at the first byte of the first part that
/// can't stand there, and at its length where a part is missing. A line that isn't UTF-8 is refused at its first byte,
/// unless its first part is `push`: then its JSON is none. A line of more than 16,777,216 bytes is too long.
/// `Memory` comes wherever an allocation is refused.
#[tactic(auto, unfolding(crate::specs::Requests::line_of))]
pub fn read_request<P: PatternMaker>(
    alloc: Global,
    line: &[u8],
    moment: u64,
    maker: &mut P,
) -> Result<Request, Refusal>
    // The maker refused just the pattern that the line is refused for, if it is for a pattern's size.
    ensures asked { (refused : List (List ℕ)) × RefusesOnly P.makes maker.old maker.new refused
        × AsksAt moment line.now refused result }
    ensures few { IfOk result (λ request. HasFewSpans request) }
{
    if line.len() > LINE_LIMIT {
        return Err(Refusal::TooLong {
            length: line.len() as u64,
        });
    }
    let (word, rest) = split(line);
    if word == b"push".as_slice() {
        return push_with(alloc, moment, line.len() as u64, rest);
    }
    match std::str::from_utf8(line) {
        Ok(text) => asked_by(alloc, text, moment, maker),
        Err(_) => Err(Refusal::BadRequest { at: 0 }),
    }
}

/// Whether a line is the one by which a session closes its store and opens it again: the word `reopen` alone.
pub fn is_reopen(line: &[u8]) -> bool
    ensures { result ≡ is_reopen line.now }
{
    line == b"reopen".as_slice()
}

/// What a line of a source asks whose lines are pushed, read at this moment, in nanoseconds: what the request `push`,
/// one space and the line asks, or why that is refused. A line of more than 16,777,216 bytes, these alone counted, is
/// too long. `Memory` comes wherever an allocation is refused.
pub fn read_push(alloc: Global, line: &[u8], moment: u64) -> Result<Request, Refusal>
    ensures asked { AsksPush moment line.now result }
    ensures few { IfOk result (λ request. HasFewSpans request) }
{
    if line.len() > LINE_LIMIT {
        return Err(Refusal::TooLong {
            length: line.len() as u64,
        });
    }
    push_with(alloc, moment, PUSH_WORD + line.len() as u64, Some(line))
}

/// The first part, and what follows the space after it.
fn split(line: &[u8]) -> (&[u8], Option<&[u8]>)
    ensures first { result.0.now ≡ first_part line.now }
    ensures others { option_map (λ s. s.now) result.1 ≡ other_parts line.now }
{
    for i in 0..line.len() {
        if line[i] == b' ' {
            return (&line[..i], Some(&line[i + 1..]));
        }
    }
    (line, None)
}

/// What a line of UTF-8 asks that was read at this moment, is no push and is not too long.
fn asked_by<P: PatternMaker>(
    alloc: Global,
    line: &str,
    moment: u64,
    maker: &mut P,
) -> Result<Request, Refusal>
    ensures asked { (refused : List (List ℕ)) × RefusesOnly P.makes maker.old maker.new refused
        × Answers (other_line moment (first_part line.now) line.now
        (other_parts line.now)) refused result }
    ensures few { IfOk result (λ request. HasFewSpans request) }
{
    let (word, rest) = split_text(line);
    match word {
        "trace" => trace_with(line.len() as u64, rest),
        "search" => search_with(alloc, line.len() as u64, rest, maker),
        "metrics" => metrics_with(alloc, line.len() as u64, rest, maker),
        "cut" => alone(word, rest, Request::Cut { moment }),
        "cutall" => alone(word, rest, Request::CutAll),
        "flush" => alone(word, rest, Request::Flush),
        "compact" => alone(word, rest, Request::Compact),
        "reclaim" => alone(word, rest, Request::Reclaim),
        _ => Err(Refusal::BadRequest { at: 0 }),
    }
}

/// A push at this moment, in a line of this length.
fn push_with(
    alloc: Global,
    moment: u64,
    length: u64,
    rest: Option<&[u8]>,
) -> Result<Request, Refusal>
    ensures asked { (result ≡ push_with moment length (option_map (λ s. s.now) rest.entry))
        ⊎ (result ≡ Err Memory) }
    ensures few { IfOk result (λ request. HasFewSpans request) }
{
    let Some(json) = rest else {
        return Err(Refusal::BadRequest { at: length });
    };
    match read_line(alloc, json) {
        Ok(reading) => Ok(Request::Push { reading, moment }),
        Err(OtlpError::NotJson) => Err(Refusal::BadJson),
        Err(OtlpError::NotRequest { path }) => Err(Refusal::BadOtlp { path }),
        Err(OtlpError::TooMany { spans }) => Err(Refusal::TooMany { spans }),
        Err(OtlpError::Memory) => Err(Refusal::Memory),
    }
}

/// A look-up, in a line of this length.
fn trace_with(length: u64, rest: Option<&str>) -> Result<Request, Refusal>
    ensures asked { result ≡ trace_with length (left_parsed rest.entry) }
    ensures few { IfOk result (λ request. HasFewSpans request) }
{
    let Some(rest) = rest else {
        return Err(Refusal::BadRequest { at: length });
    };
    let (part, more) = split_text(rest);
    let Some(id) = read_trace_id(part.as_bytes()) else {
        return Err(Refusal::BadRequest { at: 6 });
    };
    match more {
        None => Ok(Request::Trace(id)),
        Some(_) => Err(Refusal::BadRequest {
            at: 7 + part.len() as u64,
        }),
    }
}

/// What a word asks that stands alone.
fn alone(word: &str, rest: Option<&str>, request: Request) -> Result<Request, Refusal>
    requires { HasFewSpans request }
    ensures asked { result ≡ alone word.now (left_parsed rest.entry) request }
    ensures few { IfOk result (λ asked. HasFewSpans asked) }
{
    match rest {
        None => Ok(request),
        Some(_) => Err(Refusal::BadRequest {
            at: word.len() as u64 + 1,
        }),
    }
}

/// A search, in a line of this length.
fn search_with<P: PatternMaker>(
    alloc: Global,
    length: u64,
    rest: Option<&str>,
    maker: &mut P,
) -> Result<Request, Refusal>
    ensures asked { (refused : List (List ℕ)) × RefusesOnly P.makes maker.old maker.new refused
        × Answers (search_with (search_parts length (left_parsed rest.entry))) refused result }
    ensures few { IfOk result (λ request. HasFewSpans request) }
{
    let line = match search_parts(length, rest) {
        Ok(line) => line,
        Err(at) => return Err(Refusal::BadRequest { at }),
    };
    let found = search(alloc, line, maker)?;
    Ok(Request::Search(found))
}

/// A metrics query, in a line of this length.
fn metrics_with<P: PatternMaker>(
    alloc: Global,
    length: u64,
    rest: Option<&str>,
    maker: &mut P,
) -> Result<Request, Refusal>
    ensures asked { (refused : List (List ℕ)) × RefusesOnly P.makes maker.old maker.new refused
        × Answers (metrics_with (metrics_parts length (left_parsed rest.entry))) refused result }
    ensures few { IfOk result (λ request. HasFewSpans request) }
{
    let line = match metrics_parts(length, rest) {
        Ok(line) => line,
        Err(at) => return Err(Refusal::BadRequest { at }),
    };
    let count = buckets(line.start, line.end, line.step);
    if count > MOST_BUCKETS {
        return Err(Refusal::TooManyBuckets { count });
    }
    let found = metrics(alloc, line, maker)?;
    Ok(Request::Metrics(found))
}
