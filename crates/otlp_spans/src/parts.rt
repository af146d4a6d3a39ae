//! Reading the parts of a span.

ghost use Rattle.std.specs.Prelude.{◌≡◌, option_map, IfOk, List, Option, None};
ghost use Rattle.std.specs.Option.{option_map_or};
ghost use Rattle.serde_json.specs.Data.{Data};
ghost use Rattle.serde_json.specs.View.{view};
ghost use Rattle.span_types.specs.Promises.{AreNames};
ghost use Rattle.span_types.specs.declared.spans.StatusCode.TheVariants.{Unset};
ghost use Rattle.otlp_spans.specs.Attributes.{attrs_in, text_in};
ghost use Rattle.otlp_spans.specs.Fields.{code_of};
ghost use Rattle.otlp_spans.specs.Forms.{first_in_field, first_wrong, found, status_form};
ghost use Rattle.otlp_spans.specs.Reading.{events_in, kind_in, links_in, skipped_in, span_with, status_code_in, status_message_in};
ghost use Rattle.otlp_spans.specs.Walk.{Adds, StopsAt, labels_wrong, rest_wrong};
ghost use Rattle.otlp_spans.specs.declared.paths.Member.TheVariants as m;
ghost use Rattle.otlp_spans.specs.declared.paths.Step.{Step};

use crate::attributes::attributes_from;
use crate::errors::Stop;
use crate::fields::{code, kind};
use crate::ids::SpanIds;
use crate::json::{found, members_of, number_or_text, owned, taken, text_in, text_or_empty};
use crate::lists::kept_from;
use crate::paths::{Member, Step};
use serde_json::Value;
use span_types::{
    Attrs, Events, Links, Memory, SharedResource, SharedScope, Span, SpanEvent, SpanKind, SpanLink,
    StatusCode, Text, TryCopy,
};
use std::alloc::Global;

/// How a span ended.
#[derive(Drop)]
pub(crate) struct Status {
    pub(crate) code: StatusCode,
    pub(crate) message: Text,
}

/// The status that a value is.
fn status_of(alloc: Global, value: &Value) -> Result<Status, Stop>
    ensures code { IfOk result
        (λ s. s.code ≡ option_map_or code_of (found m.Code (view value.now)) Unset) }
    ensures message { IfOk result (λ s. s.message ≡ text_in m.Message (view value.now)) }
    ensures right { IfOk result (λ _. first_wrong status_form (view value.now) ≡ None) }
    ensures wrong { StopsAt result (first_wrong status_form (view value.now)) }
{
    if !value.is_object() {
        return Err(Stop::here(alloc));
    }
    let message = text_in(alloc, value, Member::Message)?;
    let found = number_or_text(alloc, value, Member::Code)?;
    let code = found.map_or(StatusCode::Unset, code);
    Ok(Status {
        code,
        message: owned(alloc, message)?,
    })
}

/// A span's status: unset, with an empty message, where it is absent.
fn status_in(alloc: Global, value: &Value) -> Result<Status, Stop>
    ensures code { IfOk result (λ s. s.code ≡ status_code_in (view value.now)) }
    ensures message { IfOk result (λ s. s.message ≡ status_message_in (view value.now)) }
    ensures right { IfOk result
        (λ _. first_in_field m.Status status_form (view value.now) ≡ None) }
    ensures wrong { StopsAt result (first_in_field m.Status status_form (view value.now)) }
{
    let Some(found) = found(value, Member::Status) else {
        return Ok(Status {
            code: StatusCode::Unset,
            message: Text::of(String::new(alloc)),
        });
    };
    match status_of(alloc, found) {
        Ok(status) => Ok(status),
        Err(stop) => Err(stop.behind(Step::Of(Member::Status))),
    }
}

/// A span's kind and status.
#[derive(Drop)]
pub(crate) struct SpanLabels {
    pub(crate) kind: SpanKind,
    pub(crate) status: Status,
}

/// A span's kind and status, where its name is a text or absent.
pub(crate) fn read_labels(alloc: Global, value: &Value) -> Result<SpanLabels, Stop>
    ensures kind { IfOk result (λ l. l.kind ≡ kind_in (view value.now)) }
    ensures code { IfOk result (λ l. l.status.code ≡ status_code_in (view value.now)) }
    ensures message { IfOk result (λ l. l.status.message ≡ status_message_in (view value.now)) }
    ensures right { IfOk result
        (λ _. (rest : Option (List Step)) → labels_wrong (view value.now) rest ≡ rest) }
    ensures wrong { (rest : Option (List Step))
        → StopsAt result (labels_wrong (view value.now) rest) }
{
    let _ = text_in(alloc, value, Member::Name)?;
    let found = number_or_text(alloc, value, Member::Kind)?;
    let kind = found.map_or(SpanKind::Unspecified, kind);
    let status = status_in(alloc, value)?;
    Ok(SpanLabels { kind, status })
}

/// The members of a span that are kept as they are, where they are there and aren't null.
#[derive(Drop)]
struct SpanParts {
    name: Option<Value>,
    attributes: Option<Value>,
    events: Option<Value>,
    links: Option<Value>,
}

/// Those members of a value. The rest of it is dropped.
fn take_parts(alloc: Global, value: Value) -> SpanParts
    ensures name { option_map view result.name ≡ found m.Name (view value) }
    ensures attributes { option_map view result.attributes ≡ found m.Attributes (view value) }
    ensures events { option_map view result.events ≡ found m.Events (view value) }
    ensures links { option_map view result.links ≡ found m.Links (view value) }
{
    let mut members = members_of(alloc, value);
    let one = taken(&mut members, Member::Name);
    let two = taken(&mut members, Member::Attributes);
    let three = taken(&mut members, Member::Events);
    let four = taken(&mut members, Member::Links);
    SpanParts {
        name: one,
        attributes: two,
        events: three,
        links: four,
    }
}

/// A span's name, attributes, events and links, and how much of these lists is skipped, at most 2^64 - 1.
#[derive(Drop)]
pub(crate) struct SpanRest {
    pub(crate) name: Text,
    pub(crate) attrs: Attrs,
    pub(crate) events: Events,
    pub(crate) links: Links,
    pub(crate) skipped: u64,
}

#[tactic(auto, unfolding(crate::specs::Reading::skipped_in))]
pub(crate) fn read_rest(alloc: Global, value: Value) -> Result<SpanRest, Stop>
    ensures name { IfOk result (λ r. r.name ≡ text_in m.Name (view value)) }
    ensures attrs { IfOk result (λ r. r.attrs ≡ attrs_in (view value)) }
    ensures events { IfOk result (λ r. r.events ≡ events_in (view value)) }
    ensures links { IfOk result (λ r. r.links ≡ links_in (view value)) }
    ensures skipped { IfOk result (λ r. Adds 0 r.skipped (skipped_in (view value))) }
    ensures right { IfOk result (λ _. rest_wrong (view value) ≡ None) }
    ensures wrong { StopsAt result (rest_wrong (view value)) }
{
    let parts = take_parts(alloc, value);
    let attributes = attributes_from(alloc, parts.attributes)?;
    let events = kept_from::<SpanEvent>(alloc, parts.events, Member::Events)?;
    let links = kept_from::<SpanLink>(alloc, parts.links, Member::Links)?;
    let skipped = attributes
        .skipped
        .saturating_add(events.skipped)
        .saturating_add(links.skipped);
    Ok(SpanRest {
        name: text_or_empty(alloc, parts.name),
        attrs: attributes.attrs,
        events: Events::of(events.items),
        links: Links::of(links.items),
        skipped,
    })
}

/// The span that has these ids and these parts.
#[tactic(auto, unfolding(crate::specs::Reading::span_with))]
pub(crate) fn span_with(
    resource: &SharedResource,
    scope: &SharedScope,
    ids: SpanIds,
    labels: SpanLabels,
    rest: SpanRest,
) -> Result<Span, Memory>
    requires { AreNames ids.trace ids.id ids.parent }
    ensures { IfOk result (λ s. (d : Data)
        → rest.name ≡ text_in m.Name d → labels.kind ≡ kind_in d
        → labels.status.code ≡ status_code_in d → labels.status.message ≡ status_message_in d
        → rest.attrs ≡ attrs_in d → rest.events ≡ events_in d → rest.links ≡ links_in d
        → s ≡ span_with resource.now scope.now d ids) }
{
    Ok(Span {
        trace: ids.trace,
        id: ids.id,
        parent: ids.parent,
        name: rest.name,
        kind: labels.kind,
        start: ids.start,
        end: ids.end,
        status: labels.status.code,
        message: labels.status.message,
        attrs: rest.attrs,
        resource: resource.copy()?,
        scope: scope.copy()?,
        events: rest.events,
        links: rest.links,
    })
}
