//! The rows of a line.

ghost use Rattle.std.specs.Prelude.{◌≡◌, ◌<◌, ◌≤◌, ◌^◌, IfOk, false, map};
ghost use Rattle.span_types.specs.Promises.{all_zero};
ghost use Rattle.drill_input.specs.Drill.{drawn_span, drawn_spans, drill_spans, origin_of};

use crate::drawing::{below, draw_numbers, draw_trace, seeded};
use crate::span::{Origin, attr, numbered, span};
use rand_xoshiro::Xoshiro256PlusPlus;
use span_types::{
    AttrValue, Attrs, Memory, Place, Resource, Row, Rows, Scope, SharedResource, SharedScope, Text,
    TraceId,
};
use std::alloc::Global;

/// The rows of a line.
#[tactic(auto, unfolding(crate::specs::Drill::drill_spans, crate::specs::Drill::drawn_line))]
pub(crate) fn draw_line(alloc: Global, seed: u64, index: u32) -> Result<Rows, Memory>
    ensures { IfOk result (λ rows. map (λ row. row.span) rows ≡ drill_spans seed index) }
{
    let mut words = seeded(seed, index);
    let trace = draw_trace(&mut words);
    let service = below(&mut words, 3);
    let count = 1 + below(&mut words, 8);
    let origin = origin(alloc, trace, service, index)?;
    let rows = draw_rows(alloc, &origin, count, &mut words)?;
    Ok(rows)
}

/// What the spans of a line share.
#[tactic(auto, unfolding(crate::specs::Drill::origin_of))]
fn origin(alloc: Global, trace: TraceId, service: u64, index: u32) -> Result<Origin, Memory>
    ensures is { IfOk result (λ o. o ≡ origin_of trace service index) }
    ensures early { IfOk result (λ o. o.start < 2 ^ 63) }
{
    let service = AttrValue::Text(numbered(alloc, "svc-", service)?);
    let attrs = attr(alloc, "service.name", service)?;
    let scope = Scope {
        name: Text::of(String::new(alloc)),
        version: Text::of(String::new(alloc)),
        attrs: Attrs::none(alloc),
    };
    Ok(Origin {
        trace,
        resource: SharedResource::of(alloc, Resource { attrs })?,
        scope: SharedScope::of(alloc, scope)?,
        start: 1_700_000_000_000_000_000 + 1_000_000 * u64::from(index),
    })
}

/// The row of span `j`.
#[tactic(auto, unfolding(crate::specs::Drill::drawn_span))]
fn draw_row(
    alloc: Global,
    origin: &Origin,
    j: u64,
    words: &mut Xoshiro256PlusPlus,
) -> Result<Row, Memory>
    requires few { j < 8 }
    requires named { all_zero origin.now.trace.0 ≡ false }
    requires early { origin.now.start < 2 ^ 63 }
    ensures { IfOk result (λ row. (row.span, words.new) ≡ drawn_span origin.now j words.old) }
{
    let drawn = draw_numbers(words, j);
    let span = span(alloc, origin, j, &drawn)?;
    let place = Place {
        number: 0,
        position: j as u32,
    };
    Ok(Row { place, span })
}

/// The rows of so many spans.
fn draw_rows(
    alloc: Global,
    origin: &Origin,
    count: u64,
    words: &mut Xoshiro256PlusPlus,
) -> Result<Rows, Memory>
    requires few { count ≤ 8 }
    requires named { all_zero origin.now.trace.0 ≡ false }
    requires early { origin.now.start < 2 ^ 63 }
    ensures { IfOk result
        (λ rows. (map (λ row. row.span) rows, words.new)
        ≡ drawn_spans origin.now 0 count words.old) }
{
    let mut rows = Vec::new(alloc);
    for j in 0..count {
        rows.push(draw_row(alloc, origin, j, words)?)?;
    }
    Ok(Rows::of(rows))
}
