//! Rows by numbers: what is said of a row, and the row of which it is said.

ghost use Rattle.std.specs.Prelude.{◌≡◌, false};
ghost use Rattle.span_types.specs.Promises.{all_zero};

use span_types::{
    Attrs, Events, Links, Memory, Place, Resource, Row, Scope, Shared, SharedResource, SharedScope,
    Span, SpanId, SpanKind, StatusCode, Text, TraceId, TryCopy,
};
use std::alloc::Global;

/// What is said of a row: the numbers of its trace and of its span, its start, and its place.
#[derive(Clone, Copy, Debug, PartialEq, Eq)]
pub(crate) struct Said {
    pub(crate) trace: u64,
    pub(crate) span: u64,
    pub(crate) start: u64,
    pub(crate) push: u64,
    pub(crate) position: u32,
}

/// The trace with this number. Traces are in the order of their numbers.
pub(crate) fn trace(number: u64) -> TraceId
    ensures { all_zero result.0 ≡ false }
{
    let [a, b, c, d, e, f, g, h] = number.to_be_bytes();
    TraceId([1, 0, 0, 0, 0, 0, 0, 0, a, b, c, d, e, f, g, h])
}

/// The span with this number, which is below 2^56. Spans are in the order of their numbers too.
pub(crate) fn span(number: u64) -> SpanId
    ensures { all_zero result.0 ≡ false }
{
    let [_, b, c, d, e, f, g, h] = number.to_be_bytes();
    SpanId([1, b, c, d, e, f, g, h])
}

/// The resource and the scope of all rows, of which nothing is said.
#[derive(Drop)]
pub(crate) struct Owners {
    resource: SharedResource,
    scope: SharedScope,
}

impl Owners {
    pub(crate) fn new(alloc: Global) -> Result<Owners, Memory> {
        let attrs = Attrs::none(alloc);
        let resource = Shared::of(alloc, Resource { attrs })?;
        let scope = Scope {
            name: no_text(alloc),
            version: no_text(alloc),
            attrs: Attrs::none(alloc),
        };
        let scope = Shared::of(alloc, scope)?;
        Ok(Owners { resource, scope })
    }

    /// A row of which nothing else is said.
    pub(crate) fn row(&self, alloc: Global, said: &Said) -> Result<Row, Memory> {
        let resource = self.resource.copy()?;
        let scope = self.scope.copy()?;
        Ok(row_of(alloc, said, resource, scope))
    }
}

fn no_text(alloc: Global) -> Text {
    Text::of(String::new(alloc))
}

fn row_of(alloc: Global, said: &Said, resource: SharedResource, scope: SharedScope) -> Row {
    let span = Span {
        trace: trace(said.trace),
        id: span(said.span),
        parent: None,
        name: no_text(alloc),
        kind: SpanKind::Unspecified,
        start: said.start,
        end: 0,
        status: StatusCode::Unset,
        message: no_text(alloc),
        attrs: Attrs::none(alloc),
        resource,
        scope,
        events: Events::none(alloc),
        links: Links::none(alloc),
    };
    let place = Place {
        number: said.push,
        position: said.position,
    };
    Row { place, span }
}

/// What is said of a row.
pub(crate) fn said_of(row: &Row) -> Said {
    Said {
        trace: number_of_trace(row.span.trace),
        span: number_of_span(row.span.id),
        start: row.span.start,
        push: row.place.number,
        position: row.place.position,
    }
}

fn number_of_trace(id: TraceId) -> u64 {
    let [_, _, _, _, _, _, _, _, a, b, c, d, e, f, g, h] = id.0;
    u64::from_be_bytes([a, b, c, d, e, f, g, h])
}

fn number_of_span(id: SpanId) -> u64 {
    let [_, b, c, d, e, f, g, h] = id.0;
    u64::from_be_bytes([0, b, c, d, e, f, g, h])
}
