//! What a line may ask, as `reading` gives it and `client_run` answers it.

ghost use Rattle.std.specs.Prelude.{◌<◌, ◌≤◌};
ghost use Rattle.traceql_metrics.specs.Series.{bucket_count, most_buckets};

use moment_range::Range;
use otlp_spans::Reading;
use span_types::TraceId;
use traceql_types::Checked;

/// What a line asks.
#[derive(Drop)]
pub enum Request {
    /// `push JSON`: these spans are to be kept.
    Push {
        /// The spans, and what was left out.
        reading: Reading,
        /// When the line was read, in nanoseconds.
        moment: u64,
    },
    /// `trace ID`: the spans of this trace are to be shown.
    Trace(TraceId),
    /// `search .. QUERY`: the traces of which the query leaves something are to be shown.
    Search(Search),
    /// `metrics .. QUERY`: how many spans that the query finds begin in each bucket of time is to be shown.
    Metrics(Metrics),
    /// `cut`: the traces to which nothing came for some time are to be moved to the head.
    Cut {
        /// When the line was read, in nanoseconds.
        moment: u64,
    },
    /// `cutall`: all live traces are to be moved to the head.
    CutAll,
    /// `flush`: a block is to be made of rows that wait in the head.
    Flush,
    /// `compact`: blocks of one level are to be joined into one of the next.
    Compact,
    /// `reclaim`: the loose files that no pin names are to be emptied.
    Reclaim,
}

/// A search.
#[derive(Drop)]
pub struct Search {
    /// The query, whose kinds fit, with its patterns.
    pub checked: Checked,
    /// A trace counts of which a span starts in this range.
    pub range: Range,
    /// How many traces are shown at most, from 1 to 1,000.
    pub limit: u32,
    /// How many spans of a spanset are shown at most, from 1 to 1,000.
    pub spans_per_set: u32,
}

/// A metrics query, with at most 1,000 buckets.
#[derive(Drop)]
pub struct Metrics {
    /// The query whose spans are counted, with the stage `by` after it if they are split. Its kinds fit, and it has
    /// its patterns.
    pub checked: Checked,
    /// Whether a rate for a second is shown and not the count itself.
    pub rate: bool,
    /// The first moment that counts.
    pub start: u64,
    /// The moment after the last one that counts.
    pub end: u64,
    /// How long a bucket is; the last one ends with the range.
    pub step: u64,
    ghost ordered: { start < end },
    ghost stepped: { 0 < step },
    ghost few: { bucket_count start end step ≤ most_buckets },
}
