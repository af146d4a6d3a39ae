//! A trace, with what is computed once for it, and what intrinsics are for its spans.

ghost use Rattle.std.specs.Prelude.{◌≡◌, IfOk, IfSome, option_map};
ghost use Rattle.std.specs.Option.{option_map_or};
ghost use Rattle.hex.specs.Hex.{encode_lower};
ghost use Rattle.std.proofs.Props.{props};
ghost use Rattle.traceql_value.specs.Summaries.{IsSummaryOf};
ghost use Rattle.traceql_value.specs.ValueRef.{ref_value};
ghost use Rattle.traceql_value.specs.Spans.{root_of, root_name, service_of, root_service, start_of, trace_nanos, intrinsic_of, field_of_span};

use crate::Value;
use crate::fields::{
    attr_named, attribute, hexadecimal, span_nanos, text_or_nil, unless_empty, whole_number,
};
use crate::value_ref::ValueRef;
use crate::whole::{earliest, latest, root_of};
use span_types::{AttrValue, Memory, Row, Span, SpanId};
use std::alloc::Global;
use traceql_syntax::Field;
use traceql_tokens::Intrinsic;

/// What is computed from all rows of a trace.
#[derive(Clone, Copy)]
pub(crate) struct Summary<'a> {
    /// The root.
    pub(crate) root: Option<&'a Row>,
    /// The attribute in which the root's resource names its service.
    pub(crate) service: Option<&'a AttrValue>,
    /// The earliest start, in nanoseconds since 1970.
    pub(crate) start: u64,
    /// How many nanoseconds the trace lasts.
    pub(crate) nanos: u64,
}

/// The rows of a trace, and its summary if that was computed: else each part of it is computed where it is asked for.
#[derive(Drop)]
pub(crate) struct Trace<'a> {
    pub(crate) rows: &'a [Row],
    pub(crate) summary: Option<Summary<'a>>,
    ghost summed: { IfSome summary (IsSummaryOf rows.now) } by { Prim.hlevel props },
}

// The attribute in which the root's resource names its service.
fn service_of<'a>(root: Option<&'a Row>) -> Option<&'a AttrValue>
    ensures { option_map (λ v. v.now) result ≡ service_of (option_map (λ r. r.now) root.entry) }
{
    let resource = root?.span.resource.get();
    attr_named(resource.attrs.as_slice(), "service.name")
}

// How many nanoseconds a trace lasts.
fn trace_nanos(rows: &[Row]) -> u64
    ensures { result ≡ trace_nanos rows.now }
{
    let end = latest(rows);
    end.saturating_sub(earliest(end, rows))
}

// What is computed from all rows of a trace.
fn summary_of(rows: &[Row]) -> Summary<'_>
    ensures { IsSummaryOf rows.now result }
{
    let end = latest(rows);
    let start = earliest(end, rows);
    let root = root_of(rows);
    Summary {
        root,
        service: service_of(root),
        start,
        nanos: end.saturating_sub(start),
    }
}

impl<'a> Trace<'a> {
    /// The trace of these rows, with its summary: for the values of many spans.
    pub(crate) fn of(rows: &'a [Row]) -> Trace<'a>
        ensures { result.rows.now ≡ rows.now }
    {
        Trace {
            rows,
            summary: Some(summary_of(rows)),
        }
    }

    /// The trace of these rows, of which nothing is computed before it is asked for: for one value.
    pub(crate) fn unread(rows: &'a [Row]) -> Trace<'a>
        ensures { result.rows.now ≡ rows.now }
    {
        Trace {
            rows,
            summary: None,
        }
    }

    // The root.
    fn root(&self) -> Option<&'a Row>
        ensures { option_map (λ r. r.now) result ≡ root_of self.now.rows.now }
    {
        match self.summary {
            Some(summary) => summary.root,
            None => root_of(self.rows),
        }
    }

    // The attribute in which the root's resource names its service.
    fn service(&self) -> Option<&'a AttrValue>
        ensures { option_map (λ v. v.now) result ≡ service_of (root_of self.now.rows.now) }
    {
        match self.summary {
            Some(summary) => summary.service,
            None => service_of(root_of(self.rows)),
        }
    }

    /// When the trace starts, in nanoseconds since 1970.
    pub(crate) fn start(&self) -> u64
        ensures { result ≡ start_of self.now.rows.now }
    {
        match self.summary {
            Some(summary) => summary.start,
            None => earliest(latest(self.rows), self.rows),
        }
    }

    /// How many nanoseconds the trace lasts.
    pub(crate) fn nanos(&self) -> u64
        ensures { result ≡ trace_nanos self.now.rows.now }
    {
        match self.summary {
            Some(summary) => summary.nanos,
            None => trace_nanos(self.rows),
        }
    }

    /// The name of the root.
    pub(crate) fn root_name(&self) -> ValueRef<'a>
        ensures { ref_value result ≡ root_name self.now.rows.now }
    {
        match self.root() {
            Some(root) => ValueRef::Text(root.span.name.as_str()),
            None => ValueRef::Nil,
        }
    }

    /// What the root's resource calls its service.
    pub(crate) fn root_service(&self) -> ValueRef<'a>
        ensures { ref_value result ≡ root_service self.now.rows.now }
    {
        text_or_nil(self.service())
    }
}

// What an intrinsic that is an id is, in hexadecimal.
fn parent_id<'s>(alloc: Global, parent: &Option<SpanId>) -> Result<ValueRef<'s>, Memory>
    ensures { IfOk result (λ v.
        ref_value v ≡ option_map_or (λ p. Value.Text (encode_lower p.0)) parent.now Value.Nil) }
{
    match parent {
        Some(parent) => hexadecimal(alloc, parent.0.as_slice()),
        None => Ok(ValueRef::Nil),
    }
}

// What an intrinsic is for a span in its trace.
fn intrinsic<'s>(
    alloc: Global,
    intrinsic: Intrinsic,
    trace: &Trace<'s>,
    span: &'s Span,
) -> Result<ValueRef<'s>, Memory>
    ensures { IfOk result (λ v. ref_value v ≡ intrinsic_of intrinsic trace.now.rows.now span.now) }
{
    Ok(match intrinsic {
        Intrinsic::Name | Intrinsic::SpanName => ValueRef::Text(span.name.as_str()),
        Intrinsic::Status | Intrinsic::SpanStatus => ValueRef::Status(span.status),
        Intrinsic::StatusMessage | Intrinsic::SpanStatusMessage => {
            ValueRef::Text(span.message.as_str())
        }
        Intrinsic::Kind | Intrinsic::SpanKind => ValueRef::Kind(span.kind),
        Intrinsic::Duration | Intrinsic::SpanDuration => whole_number(span_nanos(span)),
        Intrinsic::SpanId => hexadecimal(alloc, span.id.0.as_slice())?,
        Intrinsic::TraceId => hexadecimal(alloc, span.trace.0.as_slice())?,
        Intrinsic::SpanParentId => parent_id(alloc, &span.parent)?,
        Intrinsic::TraceDuration | Intrinsic::TraceColonDuration => whole_number(trace.nanos()),
        Intrinsic::RootName | Intrinsic::TraceRootName => trace.root_name(),
        Intrinsic::RootServiceName | Intrinsic::TraceRootService => trace.root_service(),
        Intrinsic::InstrumentationName => unless_empty(&span.scope.get().name),
        Intrinsic::InstrumentationVersion => unless_empty(&span.scope.get().version),
    })
}

/// What a field is for a span in its trace.
#[tactic(auto, unfolding(crate::specs::Spans::field_of_span))]
pub(crate) fn field<'s>(
    alloc: Global,
    field: &Field,
    trace: &Trace<'s>,
    span: &'s Span,
) -> Result<ValueRef<'s>, Memory>
    ensures { IfOk result (λ v. ref_value v ≡ field_of_span field.now trace.now.rows.now span.now) }
{
    match field {
        Field::Attribute(scope, name) => Ok(attribute(*scope, name.as_str(), span)),
        Field::Intrinsic(asked) => intrinsic(alloc, *asked, trace, span),
    }
}
