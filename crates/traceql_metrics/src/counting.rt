//! Counting: how many moments are in each bucket.

ghost use Rattle.std.specs.Prelude.{◌≡◌, ◌≤◌, ◌<◌, ℕ, IfOk, length, count_by, slice_index};
ghost use Rattle.traceql_metrics.specs.Series.{bucket_count, most_buckets, is_in_bucket};

use crate::steps::{TimeSteps, buckets};
use span_types::Memory;
use std::alloc::Global;

/// How many of the moments are in each bucket, the earliest first.
pub(crate) fn counts_of(
    alloc: Global,
    moments: &[u64],
    steps: TimeSteps,
) -> Result<Vec<u64>, Memory>
    requires order { steps.start < steps.end }
    requires some { 0 < steps.step }
    requires few { bucket_count steps.start steps.end steps.step ≤ most_buckets }
    ensures one_each { IfOk result
        (λ counts. length counts.items ≡ bucket_count steps.start steps.end steps.step) }
    ensures each { IfOk result (λ counts. (i : ℕ) → i < length counts.items
        → slice_index counts.items i
        ≡ count_by (is_in_bucket steps.start steps.end steps.step i) moments.now) }
{
    let count = buckets(steps.start, steps.end, steps.step) as usize;
    let mut counts = vec![in alloc; 0u64; count]?;
    for moment in moments {
        if steps.hold(*moment) {
            let bucket = ((*moment - steps.start) / steps.step) as usize;
            counts[bucket] += 1;
        }
    }
    Ok(counts)
}
