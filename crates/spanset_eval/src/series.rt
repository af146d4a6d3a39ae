//! What a metrics query answers, as types: counts over steps of time. `traceql_metrics` makes them of a search's
//! results.

use span_types::Seq;
use traceql_value::Values;

/// What is told of one bucket: a fraction in lowest terms, whose denominator isn't 0.
#[derive(Clone, Copy, Debug, PartialEq, Eq)]
pub struct Count {
    /// What stands above.
    pub numerator: u128,
    /// What stands below.
    pub denominator: u64,
}

/// Counts of neighbouring buckets, the earliest first.
pub type Counts = Seq<Count>;

/// The counts of the spans that have the same values of `by`.
#[derive(Drop)]
pub struct Series {
    /// The values, one for each `by` of the query since its last `coalesce()`.
    pub by: Values,
    /// What is told of each bucket.
    pub values: Counts,
}

/// Series, in the order of their values.
pub type SeriesList = Seq<Series>;
