//! Reading events and links.

ghost use Rattle.otlp_spans.specs.Attributes.{skipped_attrs};
ghost use Rattle.otlp_spans.specs.Forms.{event_form, link_form};
ghost use Rattle.otlp_spans.specs.Reading.{event_of, event_time, link_of};
ghost use Rattle.std.specs.Prelude.{◌≡◌};
ghost use Rattle.serde_json.specs.View.{view};

use crate::attributes::attributes_from;
use crate::errors::Stop;
use crate::fields::whole;
use crate::ids::{span_in, trace_in};
use crate::json::{found, take_one, take_two, text_from};
use crate::lists::{Item, ListItem};
use crate::paths::Member;
use serde_json::Value;
use span_types::{SpanEvent, SpanLink};
use std::alloc::Global;

/// An event's moment: 0 where it is absent.
fn event_time(value: &Value) -> Option<u64>
    ensures { result ≡ event_time (view value.now) }
{
    match found(value, Member::TimeUnixNano) {
        Some(time) => whole(time),
        None => Some(0),
    }
}

impl ListItem for SpanEvent {
    ghost form = { event_form };

    ghost of = { event_of };

    ghost inside = { skipped_attrs };

    #[tactic(auto, unfolding(crate::specs::Reading::event_of))]
    fn read(alloc: Global, value: Value) -> Result<Item<SpanEvent>, Stop> {
        if !value.is_object() {
            return Err(Stop::here(alloc));
        }
        let time = event_time(&value);
        let parts = take_two(alloc, value, Member::Name, Member::Attributes);
        let name = text_from(alloc, parts.first, Member::Name)?;
        let attributes = attributes_from(alloc, parts.second)?;
        let Some(time) = time else {
            return Ok(Item {
                kept: None,
                skipped: 1,
            });
        };
        let event = SpanEvent {
            time,
            name,
            attrs: attributes.attrs,
        };
        Ok(Item {
            kept: Some(event),
            skipped: attributes.skipped,
        })
    }
}

impl ListItem for SpanLink {
    ghost form = { link_form };

    ghost of = { link_of };

    ghost inside = { skipped_attrs };

    #[tactic(auto, unfolding(crate::specs::Reading::link_of))]
    fn read(alloc: Global, value: Value) -> Result<Item<SpanLink>, Stop> {
        if !value.is_object() {
            return Err(Stop::here(alloc));
        }
        let trace = trace_in(&value);
        let span = span_in(&value);
        let attributes = attributes_from(alloc, take_one(alloc, value, Member::Attributes))?;
        let (Some(trace), Some(span)) = (trace, span) else {
            return Ok(Item {
                kept: None,
                skipped: 1,
            });
        };
        let link = SpanLink {
            trace,
            span,
            attrs: attributes.attrs,
        };
        Ok(Item {
            kept: Some(link),
            skipped: attributes.skipped,
        })
    }
}
