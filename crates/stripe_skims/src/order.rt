//! The order of rows by what is told of them.

ghost use Rattle.std.specs.Prelude.{◌≡◌, IfSome, IsTrue, List, Some, map, slice_get, true};
ghost use Rattle.span_types.specs.declared.spans.Row.{Row};
ghost use Rattle.block_stripes.specs.StripeReadings.{ascend};
ghost use Rattle.stripe_skims.specs.Sketches.{IsSketch, is_before, key_of};

use crate::sketches::Sketch;
use span_types::{SpanId, TraceId};

/// What block order looks at in a row.
#[derive(Clone, Copy)]
pub struct RowKey {
    /// The trace.
    pub trace: TraceId,
    /// When the span starts, in nanoseconds since 1970.
    pub start: u64,
    /// The span.
    pub span: SpanId,
}

/// The key of the row with this number, where there is one.
pub fn key(sketch: &Sketch, index: usize) -> Option<RowKey>
    ensures { IfSome result (λ key. (rows : List Row) → IsSketch rows sketch.now
        → slice_get (map key_of rows) index ≡ Some key) }
{
    let traces = sketch.traces.as_slice();
    let starts = sketch.starts.as_slice();
    let spans = sketch.spans.as_slice();
    if index >= traces.len() || index >= starts.len() || index >= spans.len() {
        return None;
    }
    Some(RowKey {
        trace: traces[index],
        start: starts[index],
        span: spans[index],
    })
}

/// Whether a row comes before the other in block order, by their keys.
pub fn is_before(a: &RowKey, b: &RowKey) -> bool
    ensures { result ≡ is_before a.now b.now }
{
    let trace = a.trace.cmp(&b.trace);
    let start = a.start.cmp(&b.start);
    let order = trace.then(start.then(a.span.cmp(&b.span)));
    order.is_lt()
}

/// Whether each row follows the row before it in block order. False says nothing.
pub fn ascends(sketch: &Sketch) -> bool
    ensures { IsTrue result → (rows : List Row) → IsSketch rows sketch.now → ascend rows ≡ true }
{
    let count = sketch.starts.as_slice().len();
    if count == 0 {
        return false;
    }
    let Some(first) = key(sketch, 0) else {
        return false;
    };
    let mut before = first;
    for index in 0..count - 1 {
        let Some(next) = key(sketch, index + 1) else {
            return false;
        };
        if !is_before(&before, &next) {
            return false;
        }
        before = next;
    }
    true
}
