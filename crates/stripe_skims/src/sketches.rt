//! The entry point: a stripe's bytes to a sketch of it, what is told of its rows, which aren't made.

ghost use Rattle.std.specs.Prelude.{◌≡◌, IfSome};
ghost use Rattle.block_stripes.specs.StripeReadings.{stripe_at};
ghost use Rattle.stripe_skims.specs.Sketches.{SketchesAll};

use crate::cells::Told;
use crate::order::ascends;
use crate::walks::go_over;
use span_types::{SpanId, SpanKind, StatusCode, TraceId};
use std::alloc::Global;

/// What is told of a stripe: of each row, in their order, the columns of a fixed width, and whether a row has events
/// or links.
#[derive(Drop)]
pub struct Sketch {
    /// The ids of the rows' traces.
    pub traces: Vec<TraceId>,
    /// The ids of the spans.
    pub spans: Vec<SpanId>,
    /// Their kinds.
    pub kinds: Vec<SpanKind>,
    /// When they start, in nanoseconds since 1970.
    pub starts: Vec<u64>,
    /// When they end, in nanoseconds since 1970.
    pub ends: Vec<u64>,
    /// How they ended.
    pub statuses: Vec<StatusCode>,
    /// Whether a row has events or links.
    pub rich: bool,
}

/// What is told of a stripe, in form 1, or in form 2, which has events and links. None says nothing: the stripe is
/// malformed, or memory ran out. Memory is taken for texts, resources and scopes, and for what a sketch tells.
pub fn skim(alloc: Global, bytes: &[u8], extended: bool) -> Option<Sketch>
    ensures { IfSome result (λ sketch. SketchesAll (stripe_at extended bytes.now) sketch) }
{
    let sketch = go_over(alloc, bytes, extended, &Told)?;
    if !ascends(&sketch) {
        return None;
    }
    Some(sketch)
}
