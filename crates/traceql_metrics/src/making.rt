//! The series of a metrics query: from what a search found to counts. `client_run` calls it.

ghost use Rattle.std.specs.Prelude.{◌≡◌, ◌≤◌, ◌<◌, ◌++◌, IfOk, OnOk, map};
ghost use Rattle.std.specs.List.{flat_map};
ghost use Rattle.traceql_metrics.specs.Series.{bucket_count, most_buckets, starts_of, AreSeries, HasCounts};

use crate::counting::counts_of;
use crate::found::{Found, group_of, heads_of, sets_in_order};
use crate::steps::TimeSteps;
use crate::telling::told_of;
use span_types::{Memory, TryCopy};
use spanset_eval::{Hit, Results, Series, SeriesList};
use std::alloc::Global;

/// How many of the spans that were found begin in each step from a start to below an end: a series for each list of
/// values of `by` under which one begins there. The one error is out of memory. The spansets are sorted once; else
/// each span and each count is gone through a few times.
pub fn series(
    alloc: Global,
    results: &Results,
    start: u64,
    end: u64,
    step: u64,
    rate: bool,
) -> Result<SeriesList, Memory>
    requires order { start < end }
    requires some { 0 < step }
    requires few { bucket_count start end step ≤ most_buckets }
    ensures { IfOk result (AreSeries results.now start end step rate) }
{
    let steps = TimeSteps { start, end, step };
    let found = sets_in_order(alloc, results, steps)?;
    let heads = heads_of(alloc, found.as_slice())?;
    let mut all = Vec::with_capacity(alloc, heads.len())?;
    for head in heads.as_slice() {
        let group = group_of(found.as_slice(), head);
        all.push(series_of(alloc, head, group, steps, rate)?)?;
    }
    Ok(SeriesList::of(all))
}

// The series of the spansets that have the values of one of them.
fn series_of(
    alloc: Global,
    head: &Found<'_>,
    group: &[Found<'_>],
    steps: TimeSteps,
    rate: bool,
) -> Result<Series, Memory>
    requires order { steps.start < steps.end }
    requires some { 0 < steps.step }
    requires few { bucket_count steps.start steps.end steps.step ≤ most_buckets }
    ensures by { IfOk result (λ series. series.by ≡ head.now.by) }
    ensures values { IfOk result (λ series.
        HasCounts (flat_map starts_of group.now) steps.start steps.end steps.step rate series.values) }
{
    let moments = moments_of(alloc, group)?;
    let counts = counts_of(alloc, moments.as_slice(), steps)?;
    let values = told_of(alloc, counts.as_slice(), steps.step, rate)?;
    let by = head.set.by.copy()?;
    Ok(Series { by, values })
}

// When the spans of the spansets began.
fn moments_of(alloc: Global, group: &[Found<'_>]) -> Result<Vec<u64>, Memory>
    ensures { IfOk result (λ moments. moments.items ≡ flat_map starts_of group.now) }
{
    let mut moments = Vec::new(alloc);
    for found in group {
        add_starts(found.set.spans.as_slice(), &mut moments)?;
    }
    Ok(moments)
}

// Adds when spans began.
fn add_starts(hits: &[Hit], moments: &mut Vec<u64>) -> Result<(), Memory>
    ensures { OnOk result
        (moments.new.items ≡ moments.old.items ++ map (λ hit. hit.start) hits.now) }
{
    for hit in hits {
        moments.push(hit.start)?;
    }
    Ok(())
}
