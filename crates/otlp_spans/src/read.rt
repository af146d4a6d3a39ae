//! Reading a line.

ghost use Rattle.std.specs.Prelude.{◌≡◌, ◌⊎◌, ◌≤◌, ℕ, length, All, IfOk, IfErr, List, Ok, Err, Some, None};
ghost use Rattle.serde_json.specs.Data.{Data};
ghost use Rattle.serde_json.specs.View.{view};
ghost use Rattle.otlp_spans.specs.Forms.{path_text};
ghost use Rattle.otlp_spans.specs.Json.{json_of};
ghost use Rattle.otlp_spans.specs.Reading.{IsReadable, NoJson, TooManySpans, WrongForm, counted, objects_of, reading_of, skipped_of, spans_of};
ghost use Rattle.otlp_spans.specs.Walk.{Adds};
ghost use Rattle.otlp_spans.specs.declared.errors.OtlpError.TheVariants.{Memory, NotJson, NotRequest, TooMany};
ghost use Rattle.otlp_spans.specs.declared.paths.Step.{Step};

use crate::OtlpError;
use crate::errors::Stop;
use crate::gathering::{Gathered, gather};
use serde_json::Value;
use span_types::{Batch, MOST_SPANS, Spans, Text};
use std::alloc::Global;

/// What a line gives: its spans, and how much of it was left out.
#[derive(Debug, Drop)]
pub struct Reading {
    /// The spans that aren't rejected, in the order of the line. There are at most 16,384.
    pub batch: Batch,
    /// How many span objects were rejected.
    pub rejected: u32,
    /// How many attributes, events and links were skipped, at most 2^32 - 1.
    pub skipped: u32,
}

/// The spans of a line of OTLP/JSON, which is one `ExportTraceServiceRequest`.
///
/// The line is read as JSON. Members that aren't named here are ignored, and a member that is null is as if it weren't
/// there. These have a form, and are tested in this order, depth first and lists by index:
///
/// - the line is an object, and `resourceSpans` a list of objects;
/// - of each of these `resource` is an object with `attributes`, then `scopeSpans` a list of objects;
/// - of each of those `scope` is an object with the texts `name` and `version`, then `attributes`, and after it `spans`
///   is a list of objects;
/// - of a span `name` is a text, then `kind` a number or a text, `status` an object with the text `message` and then
///   `code`, a number or a text, then `attributes`, then `events` a list of objects, each with the text `name` and then
///   `attributes`, and last `links` a list of objects with `attributes`;
/// - `attributes` are a list of objects everywhere, whose `key` is a text.
///
/// A span is rejected, and counted, where `traceId` isn't a text of 32 hexadecimal digits of either case that aren't all
/// zeros, or `spanId` one of 16, where `parentSpanId` is there and neither empty nor a text of 16 such digits, or where
/// `startTimeUnixNano` or `endTimeUnixNano` isn't a whole number below 2^64, as a JSON number or a text of its digits.
/// Sixteen zeros are no parent.
///
/// An attribute is kept where its `value` has exactly one of OTLP's seven kinds of value and this is a text, a truth or a
/// whole number of 64 signed bits; else it is skipped, and counted. Of a key the first attribute that is kept stays. An
/// event is kept where its `timeUnixNano` is absent, which is 0, or such a whole number as a span's times; a link where its
/// `traceId` and `spanId` are valid. Else it is skipped, and counts as one. Of a rejected span nothing counts as skipped.
///
/// [`OtlpError`] has the errors in the order in which they are tested. `Memory` comes wherever memory is wanted and not
/// given.
#[tactic(auto, unfolding(crate::specs::Reading::reading_of))]
pub fn read_line(alloc: Global, line: &[u8]) -> Result<Reading, OtlpError>
    ensures ok { IfOk result
        (λ r. reading_of line.now
        ≡ Ok (record { spans = r.batch.spans; rejected = r.rejected; skipped = r.skipped })) }
    ensures not_json { IfErr result (λ e. e ≡ NotJson → reading_of line.now ≡ Err NoJson) }
    ensures not_request { IfErr result (λ e. (text : List ℕ) → e ≡ NotRequest text
        → (path : List Step) × (text ≡ path_text path)
        × (reading_of line.now ≡ Err (WrongForm path))) }
    ensures too_many { IfErr result (λ e. (spans : ℕ) → e ≡ TooMany spans
        → reading_of line.now ≡ Err (TooManySpans spans)) }
    ensures most { IfOk result (λ r. length r.batch.spans ≤ MOST_SPANS) }
    ensures readable { IfOk result (λ r. All IsReadable r.batch.spans) }
{
    let value = read_json(alloc, line)?;
    match gather(alloc, value) {
        Ok(gathered) => counted(gathered),
        Err(Stop::Wrong(path)) => Err(OtlpError::NotRequest {
            path: path.text(alloc)?,
        }),
        Err(Stop::Memory) => Err(OtlpError::Memory),
    }
}

/// A line's JSON value.
#[tactic(auto, unfolding(crate::specs::Json::json_of))]
fn read_json(alloc: Global, line: &[u8]) -> Result<Value, OtlpError>
    ensures ok { IfOk result (λ v. json_of line.now ≡ Some (view v)) }
    ensures not_json { IfErr result (λ e. e ≡ NotJson → json_of line.now ≡ None) }
    ensures causes { IfErr result (λ e. (e ≡ NotJson) ⊎ (e ≡ Memory)) }
{
    match Value::from_slice(alloc, line) {
        Ok(value) => Ok(value),
        Err(error) => if error.is_memory() {
            Err(OtlpError::Memory)
        } else {
            Err(OtlpError::NotJson)
        },
    }
}

/// What was gathered, where there aren't too many spans.
fn counted(gathered: Gathered) -> Result<Reading, OtlpError>
    requires { gathered.objects ≤ MOST_SPANS → length gathered.spans.items ≤ MOST_SPANS }
    ensures ok { IfOk result (λ r. (d : Data) → gathered.spans.items ≡ spans_of d
        → Adds 0 gathered.objects (objects_of d) → Adds 0 gathered.skipped (skipped_of d)
        → counted d ≡ Ok (record { spans = r.batch.spans; rejected = r.rejected; skipped = r.skipped })) }
    ensures spans { IfOk result
        (λ r. (r.batch.spans ≡ gathered.spans.items) × (gathered.objects ≤ MOST_SPANS)) }
    ensures too_many { IfErr result (λ e. (d : Data) → Adds 0 gathered.objects (objects_of d)
        → (spans : ℕ) × (e ≡ TooMany spans) × (counted d ≡ Err (TooManySpans spans))) }
{
    let objects = gathered.objects;
    if objects > MOST_SPANS {
        return Err(OtlpError::TooMany { spans: objects });
    }
    let accepted = gathered.spans.len() as u64;
    let rejected = objects.saturating_sub(accepted);
    Ok(Reading {
        rejected: rejected as u32,
        skipped: gathered.skipped.min(u64::from(u32::MAX)) as u32,
        batch: Batch {
            spans: Spans::of(gathered.spans),
        },
    })
}
