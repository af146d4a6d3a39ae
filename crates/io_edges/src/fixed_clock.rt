//! A clock in memory, for tests and for proofs: it shows its moments.

ghost use Rattle.std.specs.Prelude.{◌≡◌, Some};
ghost use Rattle.std.specs.Option.{option_map, ForSome};
ghost use Rattle.io_edges.specs.Devices.{first_moment, later_moments};

use crate::devices::Clock;
use span_types::Moments;
use std::marker::Model;

/// A clock of given moments, in nanoseconds: it gives them in order and then the last one again and again, and 0 where
/// the list is empty.
#[derive(Debug, Drop)]
pub struct FixedClock {
    moments: Moments,
    at: usize,
}

impl Model for FixedClock {
    ghost use Rattle.std.specs.Prelude.{◌≤◌, List, ℕ, length, drop};

    ghost Value = { List ℕ };

    ghost view = { λ c. drop c.at c.moments };

    ghost invariant = { λ c. c.at ≤ length c.moments };
}

impl FixedClock {
    /// A clock that is to give these moments.
    pub fn new(moments: Moments) -> FixedClock
        ensures { result ≡ moments }
    {
        FixedClock { moments, at: 0 }
    }
}

impl Clock for FixedClock {
    ghost moments = { λ c. Some c };

    fn now(&mut self) -> u64
        ensures moment { result ≡ first_moment self.old }
        ensures later { self.new ≡ later_moments self.old }
    {
        match &self.moments.as_slice()[self.at..] {
            [] => 0,
            [last] => *last,
            [first, ..] => {
                let moment = *first;
                self.at += 1;
                moment
            }
        }
    }
}
