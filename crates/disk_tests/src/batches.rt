//! Batches and the bodies of their records, worked out by hand.

use head_log::Numbered;
use span_types::{
    AttrValue, Attrs, Batch, Events, Links, Scope, Span, SpanId, SpanKind, StatusCode, TraceId,
};

/// The body of a record, and what its spans say.
pub(crate) type Record = (&'static [u8], &'static [Says]);

/// What a span says. Its scope has no attributes, and neither have its events and its links.
pub(crate) struct Says {
    id: SpanId,
    parent: Option<SpanId>,
    name: &'static str,
    kind: SpanKind,
    start: u64,
    end: u64,
    status: StatusCode,
    message: &'static str,
    attrs: &'static [(&'static str, Value)],
    resource: &'static [(&'static str, Value)],
    /// The name and the version.
    scope: (&'static str, &'static str),
    /// Time and name of each.
    events: &'static [(u64, &'static str)],
    links: &'static [(TraceId, SpanId)],
}

#[derive(Clone, Copy)]
enum Value {
    Text(&'static str),
    Whole(i64),
    Truth(bool),
}

/// The trace of all spans.
const TRACE: TraceId = TraceId([9; 16]);

const FIRST: SpanId = SpanId([1; 8]);

const SECOND: SpanId = SpanId([2; 8]);

/// The body of two spans of one resource and two scopes, under the number 7, worked out by hand.
pub(crate) const TWO_SPANS: [u8; 129] = [
    // the number, and one run of a resource with one attribute
    7, 0, 0, 0, 0, 0, 0, 0, 1, 1, 1, b's', 0, 2, b'o', b'k', 2,
    // the scope `a`, without a version and attributes, and its one span
    1, b'a', 0, 0, 1, 9, 9, 9, 9, 9, 9, 9, 9, 9, 9, 9, 9, 9, 9, 9, 9, 1, 1, 1, 1, 1, 1, 1, 1, 0, 1,
    b'x', 2, 5, 0, 0, 0, 0, 0, 0, 0, 6, 0, 0, 0, 0, 0, 0, 0, 1, 0, 0,
    // the scope `b`, and its one span, which has a parent and no attributes
    1, b'b', 0, 0, 1, 9, 9, 9, 9, 9, 9, 9, 9, 9, 9, 9, 9, 9, 9, 9, 9, 2, 2, 2, 2, 2, 2, 2, 2, 1, 1,
    1, 1, 1, 1, 1, 1, 1, 1, b'y', 0, 5, 0, 0, 0, 0, 0, 0, 0, 6, 0, 0, 0, 0, 0, 0, 0, 2, 0, 0,
];

/// What its spans say.
pub(crate) const TWO_SPANS_SAY: [Says; 2] = [
    Says {
        id: FIRST,
        parent: None,
        name: "x",
        kind: SpanKind::Server,
        start: 5,
        end: 6,
        status: StatusCode::Fine,
        message: "",
        attrs: &[],
        resource: &[("s", Value::Text("ok"))],
        scope: ("a", ""),
        events: &[],
        links: &[],
    },
    Says {
        id: SECOND,
        parent: Some(FIRST),
        name: "y",
        kind: SpanKind::Unspecified,
        start: 5,
        end: 6,
        status: StatusCode::Error,
        message: "",
        attrs: &[],
        resource: &[("s", Value::Text("ok"))],
        scope: ("b", ""),
        events: &[],
        links: &[],
    },
];

/// The body of two spans of two resources, under the number 7, worked out by hand.
pub(crate) const TWO_RESOURCES: [u8; 144] = [
    // the number, and two runs
    7, 0, 0, 0, 0, 0, 0, 0, 2, // the resource whose `r` is -1, and its one scope, of which nothing is said
    1, 1, b'r', 1, 1, 1, 0, 0, 0,
    // its one span, which has no parent, and whose attributes are -150 and true
    1, 9, 9, 9, 9, 9, 9, 9, 9, 9, 9, 9, 9, 9, 9, 9, 9, 1, 1, 1, 1, 1, 1, 1, 1, 0, 1, b'x', 2, 5, 0,
    0, 0, 0, 0, 0, 0, 6, 0, 0, 0, 0, 0, 0, 0, 1, 0, 2, 1, b'n', 1, 0xab, 2, 1, b't', 2, 1,
    // the resource whose `r` is 1, and its one scope, `c` of the version `2`
    1, 1, b'r', 1, 2, 1, 1, b'c', 1, b'2', 0,
    // its one span, which has a parent, the name `é` and the message `m`
    1, 9, 9, 9, 9, 9, 9, 9, 9, 9, 9, 9, 9, 9, 9, 9, 9, 2, 2, 2, 2, 2, 2, 2, 2, 1, 1, 1, 1, 1, 1, 1,
    1, 1, 2, 0xc3, 0xa9, 5, 7, 0, 0, 0, 0, 0, 0, 0, 8, 0, 0, 0, 0, 0, 0, 0, 2, 1, b'm', 0,
];

/// What its spans say.
pub(crate) const TWO_RESOURCES_SAY: [Says; 2] = [
    Says {
        id: FIRST,
        parent: None,
        name: "x",
        kind: SpanKind::Server,
        start: 5,
        end: 6,
        status: StatusCode::Fine,
        message: "",
        attrs: &[("n", Value::Whole(-150)), ("t", Value::Truth(true))],
        resource: &[("r", Value::Whole(-1))],
        scope: ("", ""),
        events: &[],
        links: &[],
    },
    Says {
        id: SECOND,
        parent: Some(FIRST),
        name: "é",
        kind: SpanKind::Consumer,
        start: 7,
        end: 8,
        status: StatusCode::Error,
        message: "m",
        attrs: &[],
        resource: &[("r", Value::Whole(1))],
        scope: ("c", "2"),
        events: &[],
        links: &[],
    },
];

/// The body of one span under the number 7, worked out by hand: it has an event `e` at time 5, and a link.
pub(crate) const EXTENDED: [u8; 104] = [
    // the number and the form 1, one run of the resource whose `r` is 1, and its one scope, of which nothing is said
    7, 0, 0, 0, 0, 0, 0, 1, 1, 1, 1, b'r', 1, 2, 1, 0, 0, 0, // its one span
    1, 9, 9, 9, 9, 9, 9, 9, 9, 9, 9, 9, 9, 9, 9, 9, 9, 1, 1, 1, 1, 1, 1, 1, 1, 0, 1, b'x', 2, 5, 0,
    0, 0, 0, 0, 0, 0, 6, 0, 0, 0, 0, 0, 0, 0, 1, 0, 0, // its event
    1, 5, 0, 0, 0, 0, 0, 0, 0, 1, b'e', 0, // and its link
    1, 8, 8, 8, 8, 8, 8, 8, 8, 8, 8, 8, 8, 8, 8, 8, 8, 3, 3, 3, 3, 3, 3, 3, 3, 0,
];

/// What its spans say.
pub(crate) const EXTENDED_SAY: [Says; 1] = [Says {
    id: FIRST,
    parent: None,
    name: "x",
    kind: SpanKind::Server,
    start: 5,
    end: 6,
    status: StatusCode::Fine,
    message: "",
    attrs: &[],
    resource: &[("r", Value::Whole(1))],
    scope: ("", ""),
    events: &[(5, "e")],
    links: &[(TraceId([8; 16]), SpanId([3; 8]))],
}];

/// The same without the link: the body ends with the count of links.
pub(crate) const UNLINKED: [u8; 79] = [
    7, 0, 0, 0, 0, 0, 0, 1, 1, 1, 1, b'r', 1, 2, 1, 0, 0, 0, 1, 9, 9, 9, 9, 9, 9, 9, 9, 9, 9, 9, 9,
    9, 9, 9, 9, 1, 1, 1, 1, 1, 1, 1, 1, 0, 1, b'x', 2, 5, 0, 0, 0, 0, 0, 0, 0, 6, 0, 0, 0, 0, 0, 0,
    0, 1, 0, 0, 1, 5, 0, 0, 0, 0, 0, 0, 0, 1, b'e', 0, 0,
];

/// What its spans say.
pub(crate) const UNLINKED_SAY: [Says; 1] = [Says {
    id: FIRST,
    parent: None,
    name: "x",
    kind: SpanKind::Server,
    start: 5,
    end: 6,
    status: StatusCode::Fine,
    message: "",
    attrs: &[],
    resource: &[("r", Value::Whole(1))],
    scope: ("", ""),
    events: &[(5, "e")],
    links: &[],
}];

/// The body of a span without events and links, which says that it has the form 1.
pub(crate) const NOTHING_MORE: [u8; 68] = [
    7, 0, 0, 0, 0, 0, 0, 1, 1, 1, 1, b'r', 1, 2, 1, 0, 0, 0, 1, 9, 9, 9, 9, 9, 9, 9, 9, 9, 9, 9, 9,
    9, 9, 9, 9, 1, 1, 1, 1, 1, 1, 1, 1, 0, 1, b'x', 2, 5, 0, 0, 0, 0, 0, 0, 0, 6, 0, 0, 0, 0, 0, 0,
    0, 1, 0, 0, 0, 0,
];

fn is_value(value: &AttrValue, wanted: Value) -> bool {
    match value {
        AttrValue::Text(text) => match wanted {
            Value::Text(word) => text.as_str() == word,
            _ => false,
        },
        AttrValue::Whole(number) => match wanted {
            Value::Whole(wanted) => *number == wanted,
            _ => false,
        },
        AttrValue::Truth(truth) => match wanted {
            Value::Truth(wanted) => *truth == wanted,
            _ => false,
        },
    }
}

fn are_attrs(attrs: &Attrs, wanted: &[(&str, Value)]) -> bool {
    let mut same = attrs.len() == wanted.len();
    for (attr, (key, value)) in attrs.as_slice().iter().zip(wanted) {
        same &= attr.key.as_str() == *key && is_value(&attr.value, *value);
    }
    same
}

fn is_scope(scope: &Scope, wanted: (&str, &str)) -> bool {
    scope.name.as_str() == wanted.0 && scope.version.as_str() == wanted.1 && scope.attrs.len() == 0
}

fn are_events(events: &Events, wanted: &[(u64, &str)]) -> bool {
    let mut same = events.len() == wanted.len();
    for (event, (time, name)) in events.as_slice().iter().zip(wanted) {
        same &= event.time == *time && event.name.as_str() == *name && event.attrs.len() == 0;
    }
    same
}

fn are_links(links: &Links, wanted: &[(TraceId, SpanId)]) -> bool {
    let mut same = links.len() == wanted.len();
    for (link, (trace, span)) in links.as_slice().iter().zip(wanted) {
        same &= link.trace == *trace && link.span == *span && link.attrs.len() == 0;
    }
    same
}

/// Whether the span is that one, with its texts.
fn is_named(span: &Span, says: &Says) -> bool {
    (span.trace, span.id, span.parent) == (TRACE, says.id, says.parent)
        && span.name.as_str() == says.name
        && span.message.as_str() == says.message
}

fn is_span(span: &Span, says: &Says) -> bool {
    is_named(span, says)
        && (span.kind, span.start, span.end, span.status)
            == (says.kind, says.start, says.end, says.status)
        && are_attrs(&span.attrs, says.attrs)
        && are_attrs(&span.resource.get().attrs, says.resource)
        && is_scope(span.scope.get(), says.scope)
        && are_events(&span.events, says.events)
        && are_links(&span.links, says.links)
}

fn is_batch(batch: &Batch, spans: &[Says]) -> bool {
    let mut same = batch.spans.len() == spans.len();
    for (span, says) in batch.spans.as_slice().iter().zip(spans) {
        same &= is_span(span, says);
    }
    same
}

/// Whether the batches of these records, with numbers from this one on, are what was found.
pub(crate) fn are_found(found: &Numbered, first: u64, records: &[Record]) -> bool {
    let mut same = found.len() == records.len();
    let mut number = first;
    for (entry, record) in found.as_slice().iter().zip(records) {
        same &= entry.number == number && is_batch(&entry.batch, record.1);
        number = number.saturating_add(1);
    }
    same
}
