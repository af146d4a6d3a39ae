//! The rows of a push by trace.

ghost use Rattle.std.specs.Prelude.{◌≡◌, ℕ, ◌<◌, length, slice_index_or, IfOk};
ghost use Rattle.live_traces.specs.Rows.{ChunkParts, chunk_rows, no_span};
ghost use Rattle.live_traces.specs.Order.{AreSpotsOf, IsOrderOf};

use crate::group::{OfTrace, sort_by_trace};
use span_types::{Batch, Memory, TraceId};
use std::alloc::Global;

/// Where a row of a trace stands: its position in the push, counted from 0.
#[derive(Clone, Copy)]
pub(crate) struct Spot {
    pub(crate) trace: TraceId,
    pub(crate) at: u32,
}

impl OfTrace for Spot {
    ghost trace_of = { λ spot. spot.trace };

    fn trace(&self) -> TraceId {
        self.trace
    }
}

/// Where the rows of each trace stand in a push, in order of trace.
pub(crate) fn order_of(alloc: Global, batch: &Batch) -> Result<Vec<Spot>, Memory>
    ensures { IfOk result (λ order. (c : ChunkParts) → c.spans ≡ batch.now.spans
        → IsOrderOf order.items (chunk_rows c)) }
{
    let mut order = spots_in(alloc, batch)?;
    sort_by_trace(&mut order)?;
    Ok(order)
}

// Where the rows of a push stand, in their order.
fn spots_in(alloc: Global, batch: &Batch) -> Result<Vec<Spot>, Memory>
    ensures { IfOk result (λ spots. (c : ChunkParts) → c.spans ≡ batch.now.spans
        → AreSpotsOf (chunk_rows c) spots.items (chunk_rows c)) }
{
    let mut spots = Vec::new(alloc);
    let count = batch.spans.len() as u32;
    for at in 0..count {
        let trace = trace_at(batch, at);
        spots.push(Spot { trace, at })?;
    }
    Ok(spots)
}

// The trace of a span.
fn trace_at(batch: &Batch, at: u32) -> TraceId
    requires { at < length batch.now.spans }
    ensures { result ≡ (slice_index_or batch.now.spans at no_span).trace }
{
    let spans = batch.spans.as_slice();
    let span = &spans[at as usize];
    span.trace
}
