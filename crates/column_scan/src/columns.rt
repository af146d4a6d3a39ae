//! What columns of a fixed width say of a span: a thin span that has these columns and nothing else, to test a filter
//! on.

ghost use Rattle.column_scan.specs.Sifting.{HasColumns};

use span_types::{
    Attrs, Memory, Resource, Scope, Seq, SharedResource, SharedScope, Span, SpanId, SpanKind,
    StatusCode, Text, TraceId,
};
use std::alloc::Global;

/// What columns of a fixed width tell of a span.
#[derive(Clone, Copy)]
pub(crate) struct Columns {
    /// Whose side it is.
    pub(crate) kind: SpanKind,
    /// How it ended.
    pub(crate) status: StatusCode,
    /// When it began, in nanoseconds since 1970.
    pub(crate) start: u64,
    /// When it ended, in nanoseconds since 1970.
    pub(crate) end: u64,
}

/// A span with nothing but ids, to be filled.
pub(crate) fn thin_span(alloc: Global) -> Result<Span, Memory> {
    let resource = Resource {
        attrs: Attrs::none(alloc),
    };
    let scope = Scope {
        name: empty(alloc),
        version: empty(alloc),
        attrs: Attrs::none(alloc),
    };
    let resource = SharedResource::of(alloc, resource)?;
    let scope = SharedScope::of(alloc, scope)?;
    Ok(Span {
        trace: TraceId([1; 16]),
        id: SpanId([1; 8]),
        parent: None,
        name: empty(alloc),
        kind: SpanKind::Unspecified,
        start: 0,
        end: 0,
        status: StatusCode::Unset,
        message: empty(alloc),
        attrs: Attrs::none(alloc),
        resource,
        scope,
        events: Seq::none(alloc),
        links: Seq::none(alloc),
    })
}

// A text without bytes.
fn empty(alloc: Global) -> Text {
    Text::of(String::new(alloc))
}

/// Gives a span other columns.
pub(crate) fn fill(span: &mut Span, columns: Columns)
    ensures { HasColumns span.new columns }
{
    span.kind = columns.kind;
    span.status = columns.status;
    span.start = columns.start;
    span.end = columns.end;
}
