//! Ids of traces and spans, the key that makes two spans the same, and the place of a row in the order of pushes.

/// A trace's id: 16 bytes, ordered by their bytes. An id of zeros alone names no trace.
#[derive(Clone, Copy, Debug, PartialEq, Eq, PartialOrd, Ord, Hash)]
pub struct TraceId(pub [u8; 16]);

/// A span's id within its trace: 8 bytes, ordered by their bytes. An id of zeros alone names no span.
#[derive(Clone, Copy, Debug, PartialEq, Eq, PartialOrd, Ord, Hash)]
pub struct SpanId(pub [u8; 8]);

/// What makes two spans the same span: the ids of the trace and of the span.
#[derive(Clone, Copy, Debug, PartialEq, Eq, PartialOrd, Ord, Hash)]
pub struct Key {
    /// The trace.
    pub trace: TraceId,
    /// The span within it.
    pub span: SpanId,
}

/// Where a span came in: the number of its push and its position in that push, both counted from 0.
#[derive(Clone, Copy, Debug, PartialEq, Eq, PartialOrd, Ord, Hash)]
pub struct Place {
    /// The push.
    pub number: u64,
    /// The span's position in it.
    pub position: u32,
}
