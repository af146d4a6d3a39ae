//! Ranges of moments, with a first moment and perhaps an end.

ghost use Rattle.std.specs.Prelude.{◌≡◌};
ghost use Rattle.moment_range.specs.Ranges.{is_within};

/// The moments from one on, and before another where there is one. Moments are nanoseconds since 1970.
#[derive(Clone, Copy, Debug, PartialEq, Eq)]
pub struct Range {
    /// The first moment.
    pub from: u64,
    /// The first moment after the range, where it ends.
    pub until: Option<u64>,
}

impl Range {
    /// Whether a moment is in the range.
    pub fn holds(&self, moment: u64) -> bool
        ensures { result ≡ is_within self.now moment }
    {
        match self.until {
            None => self.from <= moment,
            Some(until) => self.from <= moment && moment < until,
        }
    }
}
