//! Spans with their events and links, batches of them, and rows.

ghost use Rattle.std.specs.Prelude.{◌≡◌, IfOk};
ghost use Rattle.span_types.specs.Keys.{span_key};
ghost use Rattle.span_types.specs.Numbers.{code_number, code_numbered, kind_number, kind_numbered};

use crate::{
    Attrs, Key, Memory, Place, Seq, SharedResource, SharedScope, SpanId, Text, TraceId, TryCopy,
};
use std::marker::Model;

/// Whose side of an operation a span is, as OTLP's `SpanKind`, numbered from 0 in this order.
#[derive(Clone, Copy, Debug, PartialEq, Eq, PartialOrd, Ord, Hash)]
pub enum SpanKind {
    /// 0: nothing is said.
    Unspecified,
    /// 1: an operation within an application.
    Internal,
    /// 2: the server's side of a call.
    Server,
    /// 3: the client's side of a call.
    Client,
    /// 4: a message was sent.
    Producer,
    /// 5: a message was taken.
    Consumer,
}

impl SpanKind {
    /// The number.
    pub fn number(self) -> u8
        ensures { result ≡ kind_number self }
    {
        match self {
            SpanKind::Unspecified => 0,
            SpanKind::Internal => 1,
            SpanKind::Server => 2,
            SpanKind::Client => 3,
            SpanKind::Producer => 4,
            SpanKind::Consumer => 5,
        }
    }

    /// The kind that has the number.
    pub fn numbered(number: u64) -> Option<SpanKind>
        ensures { result ≡ kind_numbered number }
    {
        match number {
            0 => Some(SpanKind::Unspecified),
            1 => Some(SpanKind::Internal),
            2 => Some(SpanKind::Server),
            3 => Some(SpanKind::Client),
            4 => Some(SpanKind::Producer),
            5 => Some(SpanKind::Consumer),
            _ => None,
        }
    }
}

/// How a span ended, as OTLP's `Status.StatusCode`, numbered from 0 in this order.
#[derive(Clone, Copy, Debug, PartialEq, Eq, PartialOrd, Ord, Hash)]
pub enum StatusCode {
    /// 0: nothing is said.
    Unset,
    /// 1: it succeeded, OTLP's `STATUS_CODE_OK`.
    Fine,
    /// 2: it failed.
    Error,
}

impl StatusCode {
    /// The number.
    pub fn number(self) -> u8
        ensures { result ≡ code_number self }
    {
        match self {
            StatusCode::Unset => 0,
            StatusCode::Fine => 1,
            StatusCode::Error => 2,
        }
    }

    /// The code that has the number.
    pub fn numbered(number: u64) -> Option<StatusCode>
        ensures { result ≡ code_numbered number }
    {
        match number {
            0 => Some(StatusCode::Unset),
            1 => Some(StatusCode::Fine),
            2 => Some(StatusCode::Error),
            _ => None,
        }
    }
}

/// Something that happened during a span, as OTLP's `Span.Event`: an exception, for one.
#[derive(Debug, Drop)]
pub struct SpanEvent {
    /// When it happened, in nanoseconds since 1970; 0 where nothing is said.
    pub time: u64,
    /// What happened.
    pub name: Text,
    /// What is said of it.
    pub attrs: Attrs,
}

impl TryCopy for SpanEvent {
    fn copy(&self) -> Result<SpanEvent, Memory> {
        let name = self.name.copy()?;
        let attrs = self.attrs.copy()?;
        Ok(SpanEvent {
            time: self.time,
            name,
            attrs,
        })
    }
}

/// The events of a span, in the order in which they came.
pub type Events = Seq<SpanEvent>;

/// A pointer to another span, of any trace, as OTLP's `Span.Link`. Its ids each have a byte that isn't zero.
#[derive(Debug, Drop)]
pub struct SpanLink {
    /// The other span's trace.
    pub trace: TraceId,
    /// The other span within its trace.
    pub span: SpanId,
    /// What is said of the link.
    pub attrs: Attrs,
}

impl Model for SpanLink {
    ghost use Rattle.std.specs.Prelude.{None};
    ghost use Rattle.span_types.specs.LinkParts.{LinkParts};
    ghost use Rattle.span_types.specs.Promises.{AreNames};

    ghost Value = { LinkParts };

    ghost view = { λ l. record { trace = l.trace; span = l.span; attrs = l.attrs } };

    ghost invariant = { λ l. AreNames l.trace l.span None };

    ghost inverse = { λ l. record { trace = l.trace; span = l.span; attrs = l.attrs } };
}

impl TryCopy for SpanLink {
    fn copy(&self) -> Result<SpanLink, Memory> {
        let attrs = self.attrs.copy()?;
        Ok(SpanLink {
            trace: self.trace,
            span: self.span,
            attrs,
        })
    }
}

/// The links of a span, in the order in which they came.
pub type Links = Seq<SpanLink>;

/// One span. Its ids, and its parent's, each have a byte that isn't zero.
#[derive(Debug, Drop)]
pub struct Span {
    /// The trace.
    pub trace: TraceId,
    /// The span within the trace.
    pub id: SpanId,
    /// The span that caused it, where there is one.
    pub parent: Option<SpanId>,
    /// What was done.
    pub name: Text,
    /// Whose side it is.
    pub kind: SpanKind,
    /// When it began, in nanoseconds since 1970.
    pub start: u64,
    /// When it ended, in nanoseconds since 1970. It may be before the start.
    pub end: u64,
    /// How it ended.
    pub status: StatusCode,
    /// What is said of how it ended.
    pub message: Text,
    /// What is said of it.
    pub attrs: Attrs,
    /// Its source.
    pub resource: SharedResource,
    /// The instrumentation that made it.
    pub scope: SharedScope,
    /// What happened during it.
    pub events: Events,
    /// The spans that it points to.
    pub links: Links,
}

impl Model for Span {
    ghost use Rattle.span_types.specs.SpanParts.{SpanParts};
    ghost use Rattle.span_types.specs.Promises.{AreNames};

    ghost Value = { SpanParts };

    ghost view = { λ s. record { trace = s.trace; id = s.id; parent = s.parent; name = s.name; kind = s.kind; start = s.start; end = s.end; status = s.status; message = s.message; attrs = s.attrs; resource = s.resource; scope = s.scope; events = s.events; links = s.links } };

    ghost invariant = { λ s. AreNames s.trace s.id s.parent };

    ghost inverse = { λ s. record { trace = s.trace; id = s.id; parent = s.parent; name = s.name; kind = s.kind; start = s.start; end = s.end; status = s.status; message = s.message; attrs = s.attrs; resource = s.resource; scope = s.scope; events = s.events; links = s.links } };
}

impl TryCopy for Span {
    /// The resource and the scope are shared and not copied.
    fn copy(&self) -> Result<Span, Memory> {
        let name = self.name.copy()?;
        let message = self.message.copy()?;
        let attrs = self.attrs.copy()?;
        let resource = self.resource.copy()?;
        let scope = self.scope.copy()?;
        let events = self.events.copy()?;
        let links = self.links.copy()?;
        Ok(Span {
            trace: self.trace,
            id: self.id,
            parent: self.parent,
            name,
            kind: self.kind,
            start: self.start,
            end: self.end,
            status: self.status,
            message,
            attrs,
            resource,
            scope,
            events,
            links,
        })
    }
}

impl Span {
    /// What makes two spans the same span.
    pub fn key(&self) -> Key
        ensures { result ≡ span_key self.now }
    {
        Key {
            trace: self.trace,
            span: self.id,
        }
    }
}

/// A list of spans.
pub type Spans = Seq<Span>;

/// The spans of one push, in the order in which they came: no more than [`MOST_SPANS`](crate::MOST_SPANS).
#[derive(Debug, Drop)]
pub struct Batch {
    /// The spans.
    pub spans: Spans,
}

impl Model for Batch {
    ghost use Rattle.std.specs.Prelude.{length, ◌≤◌};
    ghost use Rattle.span_types.specs.BatchParts.{BatchParts};
    ghost use Rattle.span_types.specs.declared.limits.TheConstants.{MOST_SPANS};

    ghost Value = { BatchParts };

    ghost view = { λ b. record { spans = b.spans } };

    ghost invariant = { λ b. length b.spans ≤ MOST_SPANS };

    ghost inverse = { λ b. record { spans = b.spans } };
}

impl TryCopy for Batch {
    fn copy(&self) -> Result<Batch, Memory> {
        let spans = self.spans.copy()?;
        Ok(Batch { spans })
    }
}

/// A span and the place where it came in.
#[derive(Debug, Drop)]
pub struct Row {
    /// Where the span came in.
    pub place: Place,
    /// The span.
    pub span: Span,
}

impl TryCopy for Row {
    fn copy(&self) -> Result<Row, Memory> {
        let span = self.span.copy()?;
        Ok(Row {
            place: self.place,
            span,
        })
    }
}

/// A list of rows.
pub type Rows = Seq<Row>;
