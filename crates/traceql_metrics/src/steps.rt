//! Steps of time, and how many buckets a range has.

ghost use Rattle.std.specs.Prelude.{◌≡◌, ◌≤◌, ◌<◌};
ghost use Rattle.traceql_metrics.specs.Series.{bucket_count, is_between};

/// The most buckets that a query may ask for.
pub const MOST_BUCKETS: u64 = 1000;

/// Steps of one length, from a start to below an end. All are in nanoseconds.
#[derive(Clone, Copy)]
pub(crate) struct TimeSteps {
    pub(crate) start: u64,
    pub(crate) end: u64,
    pub(crate) step: u64,
}

impl TimeSteps {
    // Whether a moment is in the range of all steps.
    pub(crate) fn hold(self, moment: u64) -> bool
        ensures { result ≡ is_between self.start self.end moment }
    {
        self.start <= moment && moment < self.end
    }
}

/// How many steps there are from a start to below an end, the last of which may be cut short.
pub fn buckets(start: u64, end: u64, step: u64) -> u64
    requires order { start ≤ end }
    requires some { 0 < step }
    ensures { result ≡ bucket_count start end step }
{
    (end - start).div_ceil(step)
}
