//! The ids and times of spans, for which a span may be rejected.

ghost use Rattle.std.specs.Prelude.{◌≡◌, option_map};
ghost use Rattle.serde_json.specs.View.{view};
ghost use Rattle.otlp_spans.specs.Reading.{ids_of, parent_from, span_in, trace_in};

use crate::fields::{parent, span_id, trace_id, whole};
use crate::json::found;
use crate::paths::Member;
use serde_json::Value;
use span_types::{SpanId, TraceId};

/// The five members for which a span may be rejected.
#[derive(Clone, Copy, Debug)]
pub struct SpanIds {
    /// The trace.
    pub trace: TraceId,
    /// The span within the trace.
    pub id: SpanId,
    /// The span that caused it, where there is one.
    pub parent: Option<SpanId>,
    /// When it began, in nanoseconds since 1970.
    pub start: u64,
    /// When it ended, in nanoseconds since 1970.
    pub end: u64,
}

/// The trace's id that an object has.
pub(crate) fn trace_in(value: &Value) -> Option<TraceId>
    ensures { result ≡ trace_in (view value.now) }
{
    trace_id(found(value, Member::TraceId)?.as_str()?)
}

/// The span's id that an object has.
pub(crate) fn span_in(value: &Value) -> Option<SpanId>
    ensures { result ≡ span_in (view value.now) }
{
    span_id(found(value, Member::SpanId)?.as_str()?)
}

/// The parent: none where the member is absent.
fn parent_from(value: Option<&Value>) -> Option<Option<SpanId>>
    ensures { result ≡ parent_from (option_map (λ v. view v.now) value.entry) }
{
    match value {
        Some(value) => parent(value.as_str()?),
        None => Some(None),
    }
}

/// The ids and times of a span that is accepted; nothing where the span is rejected.
#[tactic(auto, unfolding(crate::specs::Reading::ids_of))]
pub(crate) fn read_ids(value: &Value) -> Option<SpanIds>
    ensures { result ≡ ids_of (view value.now) }
{
    let trace = trace_in(value)?;
    let id = span_in(value)?;
    let parent = parent_from(found(value, Member::ParentSpanId))?;
    let start = whole(found(value, Member::StartTime)?)?;
    let end = whole(found(value, Member::EndTime)?)?;
    Some(SpanIds {
        trace,
        id,
        parent,
        start,
        end,
    })
}
