//! Spans that clients push: ten in a row are of one trace, and each has an id of its own.

ghost use Rattle.std.specs.Prelude.{None};
ghost use Rattle.span_types.specs.Promises.{AreNames};

use otlp_spans::Reading;
use session_text::Request;
use span_types::{
    Attrs, Batch, Key, Memory, Resource, Scope, Seq, SharedResource, SharedScope, Span, SpanId,
    SpanKind, Spans, StatusCode, Text, TraceId,
};
use std::alloc::Global;

/// So many of a client's spans in a row are of one trace.
pub(crate) const TRACE_SPANS: u16 = 10;

// The key of a client's span with this number.
fn key(client: u8, number: u16) -> Key
    ensures { AreNames result.trace result.span None }
{
    let [a, b] = number.to_be_bytes();
    let [c, d] = (number / TRACE_SPANS).to_be_bytes();
    Key {
        trace: TraceId([1, 0, 0, 0, 0, 0, 0, 0, 0, 0, 0, 0, 0, client, c, d]),
        span: SpanId([1, 0, 0, 0, 0, client, a, b]),
    }
}

fn text(alloc: Global) -> Result<Text, Memory> {
    Ok(Text::of(String::from_str(alloc, "")?))
}

fn resource(alloc: Global) -> Result<SharedResource, Memory> {
    let attrs = Attrs::none(alloc);
    SharedResource::of(alloc, Resource { attrs })
}

fn scope(alloc: Global) -> Result<SharedScope, Memory> {
    let name = text(alloc)?;
    let version = text(alloc)?;
    let attrs = Attrs::none(alloc);
    SharedScope::of(
        alloc,
        Scope {
            name,
            version,
            attrs,
        },
    )
}

fn span(alloc: Global, key: Key) -> Result<Span, Memory>
    requires { AreNames key.trace key.span None }
{
    let name = text(alloc)?;
    let message = text(alloc)?;
    let resource = resource(alloc)?;
    let scope = scope(alloc)?;
    Ok(Span {
        trace: key.trace,
        id: key.span,
        parent: None,
        name,
        kind: SpanKind::Server,
        start: 1,
        end: 2,
        status: StatusCode::Unset,
        message,
        attrs: Attrs::none(alloc),
        resource,
        scope,
        events: Seq::none(alloc),
        links: Seq::none(alloc),
    })
}

fn batch(alloc: Global, one: Span) -> Option<Batch> {
    let spans = Vec::from_array(alloc, [one]).ok()?;
    if spans.len() > 1 {
        return None;
    }
    Some(Batch {
        spans: Spans::of(spans),
    })
}

// A push of a client's span with this number alone.
pub(crate) fn push(alloc: Global, client: u8, number: u16) -> Option<Request> {
    let one = span(alloc, key(client, number)).ok()?;
    let batch = batch(alloc, one)?;
    Some(Request::Push {
        reading: Reading {
            batch,
            rejected: 0,
            skipped: 0,
        },
        moment: 7,
    })
}

// A look-up of the trace that a client's span with this number is of.
pub(crate) fn ask(client: u8, number: u16) -> Request {
    Request::Trace(key(client, number).trace)
}
