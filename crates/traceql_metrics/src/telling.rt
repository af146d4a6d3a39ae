//! What a series tells of each bucket: a count, or a rate for a second as a fraction.

ghost use Rattle.std.specs.Prelude.{◌≡◌, ◌<◌, IfOk};
ghost use Rattle.std.specs.List.{AllZip};
ghost use Rattle.traceql_metrics.specs.Series.{IsRate, IsCount};

use span_types::Memory;
use spanset_eval::{Count, Counts};
use std::alloc::Global;
use traceql_value::common_divisor;

// A second, in nanoseconds.
const SECOND: u128 = 1_000_000_000;

/// What is shown of each bucket.
pub(crate) fn told_of(
    alloc: Global,
    counts: &[u64],
    step: u64,
    rate: bool,
) -> Result<Counts, Memory>
    requires { 0 < step }
    ensures { IfOk result (AllZip (IsCount rate step) counts.now) }
{
    let mut values = Vec::with_capacity(alloc, counts.len())?;
    for count in counts {
        values.push(told(*count, step, rate))?;
    }
    Ok(Counts::of(values))
}

// What is shown of a bucket of so many spans.
fn told(count: u64, step: u64, rate: bool) -> Count
    requires { 0 < step }
    ensures { IsCount rate step count result }
{
    if rate {
        rate_of(count, step)
    } else {
        Count {
            numerator: count.into(),
            denominator: 1,
        }
    }
}

// So many in a step, as a rate for a second in lowest terms.
fn rate_of(count: u64, step: u64) -> Count
    requires { 0 < step }
    ensures { IsRate step count result }
{
    let numerator = u128::from(count) * SECOND;
    let denominator = u128::from(step);
    let common = common_divisor(numerator, denominator);
    Count {
        numerator: numerator / common,
        denominator: (denominator / common) as u64,
    }
}
