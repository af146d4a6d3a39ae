//! What a search answers, as types: traces, their spansets, and the spans that are shown.

use span_types::{Seq, SpanId, Text, TraceId};
use traceql_value::{Value, Values};

/// A span that a query selects.
#[derive(Drop)]
pub struct Hit {
    /// The span's id.
    pub id: SpanId,
    /// Its name.
    pub name: Text,
    /// When it began, in nanoseconds since 1970.
    pub start: u64,
    /// How long it took, in nanoseconds; 0 where it ended before it began.
    pub duration: u64,
    /// What the query's selected fields are for it, in the text's order.
    pub fields: Values,
}

/// A spanset that a query leaves of a trace.
#[derive(Drop)]
pub struct SetResult {
    /// The values by which it was split off, in the order of the stages since the last `coalesce()`.
    pub by: Values,
    /// How many spans it has.
    pub matched: u64,
    /// Its spans, by start and then id; the first of them where not all are shown.
    pub spans: Hits,
}

/// What a query answers of a trace.
#[derive(Drop)]
pub struct TraceResult {
    /// The trace.
    pub trace: TraceId,
    /// The name of its root, or nil.
    pub root_name: Value,
    /// The service of its root, or nil.
    pub root_service: Value,
    /// Its earliest start, in nanoseconds since 1970.
    pub start: u64,
    /// From there to its latest moment, in nanoseconds.
    pub duration: u64,
    /// What is left of it.
    pub sets: Sets,
}

/// Spans that a query selects, by start and then id.
pub type Hits = Seq<Hit>;

/// Spansets, in order.
pub type Sets = Seq<SetResult>;

/// Results of a search.
pub type Results = Seq<TraceResult>;
