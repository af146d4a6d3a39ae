//! The texts and numbers that are a span's ids, times, kind and status code.

ghost use Rattle.std.specs.Prelude.{◌≡◌, option_map};
ghost use Rattle.std.specs.Char.{is_ascii_digit};
ghost use Rattle.std.specs.List.{list_all};
ghost use Rattle.serde_json.specs.View.{view};
ghost use Rattle.span_types.specs.Promises.{all_zero};
ghost use Rattle.otlp_spans.specs.Fields.{after_minus, code_named, code_of, int_of, kind_named, kind_of, minus_of, moment_of, parent_of, plus_of, signed_of, span_id_of, trace_id_of, whole_of};

use hex::FromHex;
use serde_json::Value;
use span_types::{SpanId, SpanKind, StatusCode, TraceId};

fn all_zeros(bytes: &[u8]) -> bool
    ensures { result ≡ all_zero bytes.now }
{
    bytes.iter().all(|b| *b == 0)
}

/// A trace's id: 32 hexadecimal digits of either case, not all zeros.
pub fn read_trace_id(digits: &[u8]) -> Option<TraceId>
    ensures { result ≡ trace_id_of digits.now }
{
    let trace = <[u8; 16] as FromHex>::from_hex(digits).ok()?;
    if all_zeros(&trace) {
        None
    } else {
        Some(TraceId(trace))
    }
}

/// The same of a text.
pub(crate) fn trace_id(text: &str) -> Option<TraceId>
    ensures { result ≡ trace_id_of text.now }
{
    read_trace_id(text.as_bytes())
}

/// A span's id: 16 hexadecimal digits of either case, not all zeros.
pub(crate) fn span_id(text: &str) -> Option<SpanId>
    ensures { result ≡ span_id_of text.now }
{
    let id = <[u8; 8] as FromHex>::from_hex(text).ok()?;
    if all_zeros(&id) {
        None
    } else {
        Some(SpanId(id))
    }
}

/// A parent's id: empty or 16 hexadecimal digits of either case. Sixteen zeros are no parent.
pub(crate) fn parent(text: &str) -> Option<Option<SpanId>>
    ensures { result ≡ parent_of text.now }
{
    if text.is_empty() {
        return Some(None);
    }
    let parent = <[u8; 8] as FromHex>::from_hex(text).ok()?;
    if all_zeros(&parent) {
        Some(None)
    } else {
        Some(Some(SpanId(parent)))
    }
}

fn all_digits(text: &str) -> bool
    ensures { result ≡ list_all is_ascii_digit text.now }
{
    text.as_bytes().iter().all(|b| b.is_ascii_digit())
}

/// A moment in nanoseconds: decimal digits alone, without a sign, below 2^64.
pub(crate) fn moment(text: &str) -> Option<u64>
    ensures { result ≡ moment_of text.now }
{
    if !all_digits(text) {
        return None;
    }
    text.parse::<u64>().ok()
}

/// The negative of a number, where 64 signed bits hold it.
fn minus(number: u64) -> Option<i64>
    ensures { result ≡ minus_of number }
{
    i64::try_from(-i128::from(number)).ok()
}

/// The number, where 64 signed bits hold it.
fn plus(number: u64) -> Option<i64>
    ensures { result ≡ plus_of number }
{
    i64::try_from(number).ok()
}

/// What follows a minus at the beginning of a text.
fn after_minus(text: &str) -> Option<&str>
    ensures { option_map (λ s. s.now) result ≡ after_minus text.now }
{
    text.strip_prefix('-')
}

/// A whole number of 64 signed bits: decimal digits, with or without a minus before them.
fn signed(text: &str) -> Option<i64>
    ensures { result ≡ signed_of text.now }
{
    match after_minus(text) {
        Some(digits) => minus(moment(digits)?),
        None => plus(moment(text)?),
    }
}

/// A JSON number that is a whole number from 0 to 2^64 - 1, or a text of its digits.
#[tactic(auto, unfolding(crate::specs::Fields::whole_of))]
pub(crate) fn whole(value: &Value) -> Option<u64>
    ensures { result ≡ whole_of (view value.now) }
{
    match value.as_str() {
        Some(text) => moment(text),
        None => value.as_u64(),
    }
}

/// The same of 64 signed bits.
#[tactic(auto, unfolding(crate::specs::Fields::int_of))]
pub(crate) fn int(value: &Value) -> Option<i64>
    ensures { result ≡ int_of (view value.now) }
{
    match value.as_str() {
        Some(text) => signed(text),
        None => value.as_i64(),
    }
}

/// The kind that has this name in OTLP.
fn kind_named(name: &str) -> Option<SpanKind>
    ensures { result ≡ kind_named name.now }
{
    match name {
        "SPAN_KIND_UNSPECIFIED" => Some(SpanKind::Unspecified),
        "SPAN_KIND_INTERNAL" => Some(SpanKind::Internal),
        "SPAN_KIND_SERVER" => Some(SpanKind::Server),
        "SPAN_KIND_CLIENT" => Some(SpanKind::Client),
        "SPAN_KIND_PRODUCER" => Some(SpanKind::Producer),
        "SPAN_KIND_CONSUMER" => Some(SpanKind::Consumer),
        _ => None,
    }
}

/// A kind: its number, or its name. Everything else counts as unspecified.
pub(crate) fn kind(value: &Value) -> SpanKind
    ensures { result ≡ kind_of (view value.now) }
{
    let numbered = whole(value).and_then(SpanKind::numbered);
    let named = value.as_str().and_then(kind_named);
    numbered.or(named).unwrap_or(SpanKind::Unspecified)
}

/// The status code that has this name in OTLP.
fn code_named(name: &str) -> Option<StatusCode>
    ensures { result ≡ code_named name.now }
{
    match name {
        "STATUS_CODE_UNSET" => Some(StatusCode::Unset),
        "STATUS_CODE_OK" => Some(StatusCode::Fine),
        "STATUS_CODE_ERROR" => Some(StatusCode::Error),
        _ => None,
    }
}

/// A status code: its number, or its name. Everything else counts as unset.
pub(crate) fn code(value: &Value) -> StatusCode
    ensures { result ≡ code_of (view value.now) }
{
    let numbered = whole(value).and_then(StatusCode::numbered);
    let named = value.as_str().and_then(code_named);
    numbered.or(named).unwrap_or(StatusCode::Unset)
}
