//! What the first columns of a stripe tell.

use span_types::{SpanKind, StatusCode, TraceId};

/// What the first columns of a stripe tell of its rows, in their order.
#[derive(Drop)]
pub struct Glance {
    /// The ids of the rows' traces.
    pub traces: Vec<TraceId>,
    /// The spans' kinds.
    pub kinds: Vec<SpanKind>,
    /// When they start, in nanoseconds since 1970.
    pub starts: Vec<u64>,
    /// When they end, in nanoseconds since 1970.
    pub ends: Vec<u64>,
    /// How they ended.
    pub statuses: Vec<StatusCode>,
}
