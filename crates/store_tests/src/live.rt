//! What waits in memory, played against lists that were worked out by hand.

ghost use Rattle.std.specs.Prelude.{None};
ghost use Rattle.span_types.specs.Promises.{AreNames};

use live_traces::{Live, Runs};
use span_types::{
    Attrs, Batch, Key, MOST_SPANS, Memory, Place, Resource, Rows, Scope, Seq, SharedResource,
    SharedScope, Span, SpanId, SpanKind, Spans, StatusCode, Text, TraceId, TryCopy,
};
use std::alloc::Global;

// Keys of two traces: of the latter one span, of the former three.
const LATTER: Key = Key {
    trace: TraceId([2; 16]),
    span: SpanId([1; 8]),
};

const ONE: Key = Key {
    trace: TraceId([1; 16]),
    span: SpanId([1; 8]),
};

const TWO: Key = Key {
    trace: TraceId([1; 16]),
    span: SpanId([2; 8]),
};

pub(crate) const SECOND: u64 = 1_000_000_000;

fn text(alloc: Global) -> Text {
    Text::of(String::new(alloc))
}

fn resource(alloc: Global) -> Result<SharedResource, Memory> {
    let attrs = Attrs::none(alloc);
    SharedResource::of(alloc, Resource { attrs })
}

fn scope(alloc: Global) -> Result<SharedScope, Memory> {
    let name = text(alloc);
    let version = text(alloc);
    let attrs = Attrs::none(alloc);
    SharedScope::of(
        alloc,
        Scope {
            name,
            version,
            attrs,
        },
    )
}

fn span(alloc: Global, key: Key) -> Result<Span, Memory>
    requires { AreNames key.trace key.span None }
{
    let resource = resource(alloc)?;
    let scope = scope(alloc)?;
    Ok(Span {
        trace: key.trace,
        id: key.span,
        parent: None,
        name: text(alloc),
        kind: SpanKind::Server,
        start: 1,
        end: 2,
        status: StatusCode::Unset,
        message: text(alloc),
        attrs: Attrs::none(alloc),
        resource,
        scope,
        events: Seq::none(alloc),
        links: Seq::none(alloc),
    })
}

// A batch of the latter trace's span and a span of the former trace.
pub(crate) fn both(alloc: Global) -> Result<Batch, Memory> {
    let latter = span(alloc, LATTER)?;
    let former = span(alloc, ONE)?;
    let spans = Vec::from_array(alloc, [latter, former])?;
    Ok(Batch {
        spans: Spans::of(spans),
    })
}

// A batch of another span of the former trace.
pub(crate) fn another(alloc: Global) -> Result<Batch, Memory> {
    let former = span(alloc, TWO)?;
    let spans = Vec::from_array(alloc, [former])?;
    Ok(Batch {
        spans: Spans::of(spans),
    })
}

// Adds a copy of the span.
fn add_copy(one: &Span, spans: &mut Vec<Span>) -> Result<(), Memory> {
    let copy = one.copy()?;
    spans.push(copy)?;
    Ok(())
}

fn copies(alloc: Global, one: &Span, count: usize) -> Result<Vec<Span>, Memory> {
    let mut spans = Vec::new(alloc);
    for _ in 0..count {
        add_copy(one, &mut spans)?;
    }
    Ok(spans)
}

// The spans as a batch; more than a batch may have are refused.
fn batch_of(spans: Vec<Span>) -> Result<Batch, Memory> {
    if spans.len() as u64 > MOST_SPANS {
        return Err(Memory);
    }
    Ok(Batch {
        spans: Spans::of(spans),
    })
}

// A batch of so many spans, all of which have one key.
pub(crate) fn many(alloc: Global, count: usize) -> Result<Batch, Memory> {
    let one = span(alloc, ONE)?;
    let spans = copies(alloc, &one, count)?;
    batch_of(spans)
}

pub(crate) fn push(live: &mut Live, number: u64, batch: Batch, moment: u64) -> Result<(), Memory> {
    match live.reserve(number, batch) {
        Ok(ready) => {
            live.add(ready, moment);
            Ok(())
        }
        Err(_) => Err(Memory),
    }
}

fn is_at(place: Place, at: &(u64, u32)) -> bool {
    place.number == at.0 && place.position == at.1
}

pub(crate) fn are_at(rows: &Rows, places: &[(u64, u32)]) -> bool {
    let mut same = rows.len() == places.len();
    for (row, place) in rows.as_slice().iter().zip(places) {
        same &= is_at(row.place, place);
    }
    same
}

// Whether the rows in memory, in their order, are those of these places.
pub(crate) fn has_rows(alloc: Global, runs: &Runs, places: &[(u64, u32)]) -> Result<bool, Memory> {
    let rows = runs.refs(alloc)?;
    let mut same = rows.len() == places.len();
    for (row, place) in rows.as_slice().iter().zip(places) {
        same &= is_at(row.place(), place);
    }
    Ok(same)
}

// Whether all that waits is at these places, those of the flush and of the head first.
fn holds(alloc: Global, live: &Live, places: &[(u64, u32)]) -> Result<bool, Memory> {
    let runs = live.runs()?;
    has_rows(alloc, &runs, places)
}

// Whether the rows of a trace are at these places.
fn is_found(live: &Live, trace: TraceId, places: &[(u64, u32)]) -> Result<bool, Memory> {
    let rows = live.runs()?.rows_of(trace)?;
    Ok(are_at(&rows, places))
}

// Whether a cut at this moment moves so many rows.
fn moves(live: &mut Live, moment: u64, count: u64) -> bool {
    live.cut_idle(moment) == Ok(count)
}

fn moves_all(live: &mut Live, count: u64) -> bool {
    live.cut_all() == Ok(count)
}

fn cuts(alloc: Global, live: &mut Live) -> Result<bool, Memory> {
    push(live, 0, both(alloc)?, 10 * SECOND)?;
    push(live, 1, another(alloc)?, 15 * SECOND)?;
    let mut same = moves(live, 20 * SECOND - 1, 0);
    same &= moves(live, 20 * SECOND, 1);
    same &= holds(alloc, live, &[(0, 0), (0, 1), (1, 0)])?;
    push(live, 2, both(alloc)?, 16 * SECOND)?;
    same &= moves(live, 26 * SECOND - 1, 0);
    same &= is_found(live, ONE.trace, &[(0, 1), (1, 0), (2, 1)])?;
    same &= moves_all(live, 4);
    same &= holds(alloc, live, &[(0, 0), (0, 1), (1, 0), (2, 1), (2, 0)])?;
    same &= is_found(live, LATTER.trace, &[(0, 0), (2, 0)])?;
    Ok(same && live.held() == 5)
}

#[test]
fn a_cut_moves_idle_traces_and_then_all(rt: HostRuntime) -> Result<(), Memory> {
    let mut live = Live::new(rt.alloc());
    assert!(rt; cuts(rt.alloc(), &mut live)?);
    Ok(())
}

// Whether a flush takes these rows, and this is then the least number that waits. One that is open is given up before.
fn takes(
    alloc: Global,
    live: &mut Live,
    most: u32,
    places: &[(u64, u32)],
    least: u64,
) -> Result<bool, Memory> {
    live.undo_flush();
    let taken = live.take_head(most)?;
    let same = has_rows(alloc, &taken, places)?;
    Ok(same && live.least_number() == Some(least))
}

fn flushes(alloc: Global, live: &mut Live) -> Result<bool, Memory> {
    push(live, 3, both(alloc)?, 0)?;
    let mut same = moves_all(live, 2);
    same &= takes(alloc, live, 1, &[(3, 1)], 3)?;
    live.undo_flush();
    same &= holds(alloc, live, &[(3, 1), (3, 0)])?;
    push(live, 4, another(alloc)?, 0)?;
    same &= takes(alloc, live, 2, &[(3, 1), (3, 0)], 4)?;
    live.end_flush();
    same &= holds(alloc, live, &[(4, 0)])?;
    Ok(same && live.held() == 1)
}

#[test]
fn a_flush_ends_or_its_rows_go_back(rt: HostRuntime) -> Result<(), Memory> {
    let mut live = Live::new(rt.alloc());
    assert!(rt; flushes(rt.alloc(), &mut live)?);
    Ok(())
}
