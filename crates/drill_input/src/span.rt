//! A drawn span, made of its numbers.

ghost use Rattle.std.specs.Prelude.{◌≡◌, ◌<◌, ◌≤◌, ◌^◌, ◌++◌, IfOk, decimal, false};
ghost use Rattle.span_types.specs.Promises.{all_zero};
ghost use Rattle.drill_input.specs.Drill.{IsInRange, attr_of, span_number, span_of};

use span_types::{
    Attr, AttrValue, Attrs, Events, Links, Memory, SharedResource, SharedScope, Span, SpanId,
    SpanKind, StatusCode, Text, TraceId, TryCopy,
};
use std::alloc::{AllocError, Global};

/// What the spans of a line share.
#[derive(Debug, Drop)]
pub struct Origin {
    /// Their trace.
    pub trace: TraceId,
    /// Their resource, a service.
    pub resource: SharedResource,
    /// Their scope, which is empty.
    pub scope: SharedScope,
    /// When the first span begins, in nanoseconds since 1970.
    pub start: u64,
}

/// What is drawn for one span.
#[derive(Clone, Copy, Debug)]
pub struct Drawn {
    /// Its parent, where it has one.
    pub parent: Option<SpanId>,
    /// The number of its name.
    pub name: u64,
    /// Whose side it is.
    pub kind: SpanKind,
    /// How it ended.
    pub status: StatusCode,
    /// How long it took, in nanoseconds.
    pub duration: u64,
    /// The number of its HTTP status code.
    pub code: u64,
}

/// The id that is a number, high byte first.
#[tactic(auto, unfolding(crate::specs::Drill::span_number), using(crate::proofs::NameLemmas::number_named))]
pub(crate) fn span_number(number: u64) -> SpanId
    requires low { 0 < number }
    requires high { number ≤ 8 }
    ensures is { result ≡ span_number number }
    ensures named { all_zero result.0 ≡ false }
{
    SpanId(number.to_be_bytes())
}

/// A text that ends with a number.
pub(crate) fn numbered(alloc: Global, name: &str, number: u64) -> Result<Text, AllocError>
    ensures { IfOk result (λ t. t ≡ name.now ++ decimal number) }
{
    Ok(Text::of(format!(in alloc; "{name}{number}")?))
}

/// A list of one attribute.
pub(crate) fn attr(alloc: Global, key: &str, value: AttrValue) -> Result<Attrs, Memory>
    ensures { IfOk result (λ attrs. attrs ≡ attr_of key.now value) }
{
    let key = Text::of(String::from_str(alloc, key)?);
    let mut attrs = Vec::new(alloc);
    attrs.push(Attr { key, value })?;
    Ok(Attrs::of(attrs))
}

/// Span `j` of a line, from 0.
#[tactic(auto, unfolding(crate::specs::Drill::span_of))]
pub(crate) fn span(alloc: Global, origin: &Origin, j: u64, drawn: &Drawn) -> Result<Span, Memory>
    requires few { j < 8 }
    requires named { all_zero origin.now.trace.0 ≡ false }
    requires early { origin.now.start < 2 ^ 63 }
    requires in_range { IsInRange drawn.now }
    ensures { IfOk result (λ s. s ≡ span_of origin.now j drawn.now) }
{
    let name = numbered(alloc, "op-", drawn.name)?;
    let code = AttrValue::Whole(200 + 100 * drawn.code as i64);
    let attrs = attr(alloc, "http.status_code", code)?;
    let resource = origin.resource.copy()?;
    let scope = origin.scope.copy()?;
    let start = origin.start + 1_000 * j;
    Ok(Span {
        trace: origin.trace,
        id: span_number(j + 1),
        parent: drawn.parent,
        name,
        kind: drawn.kind,
        start,
        end: start + drawn.duration,
        status: drawn.status,
        message: Text::of(String::new(alloc)),
        attrs,
        resource,
        scope,
        events: Events::none(alloc),
        links: Links::none(alloc),
    })
}
