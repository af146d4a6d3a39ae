//! Spansets in order of their values of `by`, so that those of one series are neighbours.

ghost use Rattle.std.specs.Prelude.{◌≡◌, ◌++◌, IfOk, OnOk, filter};
ghost use Rattle.std.specs.List.{dedup};
ghost use Rattle.std.specs.List.Sorted.{IsPermutation, IsSortedByKey};
ghost use Rattle.traceql_metrics.specs.Series.{begins_in, has_values, sets_of, values_cmp};
ghost use Rattle.traceql_metrics.specs.Grouping.{by_of, same_values};

use crate::steps::TimeSteps;
use span_types::Memory;
use spanset_eval::{Results, SetResult};
use std::alloc::Global;
use std::cmp::Ordering;
use std::marker::Model;
use traceql_value::Value;

/// A spanset, looked at where it stands.
#[derive(Drop)]
pub(crate) struct Found<'r> {
    pub(crate) set: &'r SetResult,
}

impl<'r> Model for Found<'r> {
    ghost use Rattle.spanset_eval.specs.declared.results.SetResult.{SetResult};

    ghost Value = { SetResult };

    ghost view = { λ f. f.set.now };
}

/// The spansets of which a span began in the range, in order of their values.
pub(crate) fn sets_in_order<'r>(
    alloc: Global,
    results: &'r Results,
    steps: TimeSteps,
) -> Result<Vec<Found<'r>>, Memory>
    ensures same { IfOk result (λ found.
        IsPermutation (filter (begins_in steps.start steps.end)
        (sets_of results.now)) found.items) }
    ensures sorted { IfOk result (λ found. IsSortedByKey by_of values_cmp found.items) }
{
    let mut found = sets_in_range(alloc, results, steps)?;
    found.sort_unstable_by(in_order);
    Ok(found)
}

// The spansets of which a span began in the range.
fn sets_in_range<'r>(
    alloc: Global,
    results: &'r Results,
    steps: TimeSteps,
) -> Result<Vec<Found<'r>>, Memory>
    ensures { IfOk result
        (λ found. found.items ≡ filter (begins_in steps.start steps.end) (sets_of results.now)) }
{
    let mut found = Vec::new(alloc);
    for trace in results.as_slice() {
        add_those_in_range(trace.sets.as_slice(), steps, &mut found)?;
    }
    Ok(found)
}

// Adds the spansets of which a span began in the range.
fn add_those_in_range<'r>(
    sets: &'r [SetResult],
    steps: TimeSteps,
    found: &mut Vec<Found<'r>>,
) -> Result<(), Memory>
    ensures { OnOk result
        (found.new.items ≡ found.old.items ++ filter (begins_in steps.start steps.end) sets.now) }
{
    for set in sets {
        if begins_in(set, steps) {
            found.push(Found { set })?;
        }
    }
    Ok(())
}

// Whether one of its spans began in the range.
fn begins_in(set: &SetResult, steps: TimeSteps) -> bool
    ensures { result ≡ begins_in steps.start steps.end set.now }
{
    set.spans.as_slice().iter().any(|hit| steps.hold(hit.start))
}

// Which of two spansets comes first.
fn in_order(a: &Found<'_>, b: &Found<'_>) -> Ordering
    ensures { result ≡ values_cmp a.now.by b.now.by }
{
    order(a.set.by.as_slice(), b.set.by.as_slice())
}

// Which of two lists of values comes first: the first pair that differs decides.
fn order(left: &[Value], right: &[Value]) -> Ordering
    ensures { result ≡ values_cmp left.now right.now }
{
    let common = left.len().min(right.len());
    for i in 0..common {
        let order = left[i].order(&right[i]);
        if order.is_ne() {
            return order;
        }
    }
    left.len().cmp(&right.len())
}

/// One of each neighbours that have the same values.
pub(crate) fn heads_of<'r>(alloc: Global, found: &[Found<'r>]) -> Result<Vec<Found<'r>>, Memory>
    ensures { IfOk result (λ heads. heads.items ≡ dedup same_values found.now) }
{
    let mut heads = copies_of(alloc, found)?;
    heads.dedup_by(|a, b| in_order(a, b).is_eq());
    Ok(heads)
}

// The same ones again.
fn copies_of<'r>(alloc: Global, found: &[Found<'r>]) -> Result<Vec<Found<'r>>, Memory>
    ensures { IfOk result (λ copies. copies.items ≡ found.now) }
{
    let mut copies = Vec::with_capacity(alloc, found.len())?;
    for one in found {
        copies.push(Found { set: one.set })?;
    }
    Ok(copies)
}

/// The spansets that have the values of one of them, which are neighbours. It costs the logarithm of their number.
pub(crate) fn group_of<'f, 'r>(found: &'f [Found<'r>], head: &Found<'r>) -> &'f [Found<'r>]
    requires { IsSortedByKey by_of values_cmp found.now }
    ensures { result.now ≡ filter (has_values head.now.by) found.now }
{
    let from = found.partition_point(|one| in_order(one, head).is_lt());
    let to = found.partition_point(|one| in_order(one, head).is_le());
    let (upto, _) = found.split_at(to);
    let (_, group) = upto.split_at(from);
    group
}
