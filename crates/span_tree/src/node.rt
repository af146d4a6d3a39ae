//! What the relations see of a span. All else of a row stays out of a tree.

use span_types::SpanId;

/// A span as the relations see it: its id, and its parent's where it names one.
#[derive(Clone, Copy, Debug, PartialEq, Eq)]
pub struct Node {
    /// The span's id.
    pub id: SpanId,
    /// The id that the span names as its parent's.
    pub parent: Option<SpanId>,
}
