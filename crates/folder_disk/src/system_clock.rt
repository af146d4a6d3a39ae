//! The system's clock.

ghost use Rattle.std.specs.Prelude.{◌≡◌, ◌<◌, ◌≤◌, ◌^◌, List, ℕ, None, IfOk, OnErr};
ghost use Rattle.std.specs.Option.{option_map, ForSome};
ghost use Rattle.std.specs.Duration.{as_nanos};
ghost use Rattle.io_edges.specs.Devices.{first_moment, later_moments};
ghost use Rattle.folder_disk.specs.Folder.{last_moment};

use io_edges::Clock;
use std::io;
use std::time::Duration;

/// The time of the system in nanoseconds since 1970. It tells no moments: a system's clock may be set, backwards too.
#[derive(Debug, Drop)]
pub struct SystemClock<R> {
    rt: R,
    last: u64,
}

impl<R: std::time::Clock> SystemClock<R> {
    /// A clock that asks this runtime. Before the system has answered, its last moment is 0.
    pub fn new(rt: R) -> SystemClock<R>
        ensures { last_moment result ≡ 0 }
    {
        SystemClock { rt, last: 0 }
    }
}

impl<R: std::time::Clock> Clock for SystemClock<R> {
    ghost moments = { λ _. None };

    /// The system's moment, or the last one where it answers none.
    fn now(&mut self) -> u64
        ensures moment { ForSome {T = List ℕ} None (λ told. result ≡ first_moment told) }
        ensures later { None ≡ option_map later_moments None }

        // The moment that it gives is the one that it keeps.
        ensures kept { result ≡ last_moment self.new }
    {
        self.last = moment_after(self.last, self.rt.since_1970());
        self.last
    }
}

/// The moment that a clock gives whose last one was this, where the system answers so. A time whose nanoseconds don't
/// fit in 64 bits, from the year 2554 on, counts as no answer.
fn moment_after(last: u64, answer: io::Result<Duration>) -> u64
    ensures told { IfOk answer (λ time. as_nanos time < 2 ^ 64 → result ≡ as_nanos time) }
    ensures too_late { IfOk answer (λ time. 2 ^ 64 ≤ as_nanos time → result ≡ last) }
    ensures none { OnErr answer (result ≡ last) }
{
    match answer {
        Ok(time) => u64::try_from(time.as_nanos()).unwrap_or(last),
        Err(_) => last,
    }
}
