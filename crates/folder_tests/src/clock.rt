//! The system's clock, over the system and over a runtime whose answers are given.

use folder_disk::SystemClock;
use io_edges::Clock;
use std::cell::Cell;
use std::io;
use std::test::Fail;
use std::time::Duration;

/// The start of the year 2020, in nanoseconds since 1970.
const YEAR_2020: u64 = 1_577_836_800_000_000_000;

/// A runtime whose clock is at this moment, or at none.
#[derive(Drop)]
struct Told(Cell<Option<Duration>>);

impl std::time::Clock for Told {
    fn monotonic(&self) -> io::Result<Duration> {
        Err(io::Error::from(io::ErrorKind::Unsupported))
    }

    fn since_1970(&self) -> io::Result<Duration> {
        self.0
            .get()
            .ok_or(io::Error::from(io::ErrorKind::Unsupported))
    }
}

#[test]
fn the_systems_clock_is_past_2020(rt: HostRuntime) -> Result<(), Fail> {
    let mut clock = SystemClock::new(rt);
    assert!(rt; clock.now() > YEAR_2020);
    Ok(())
}

#[test]
fn a_clock_without_an_answer_gives_its_last_moment(rt: HostRuntime) -> Result<(), Fail> {
    let told = Told(Cell::new(None));
    let mut clock = SystemClock::new(&told);
    let max = Duration::from_nanos(u64::MAX);
    let moments = [
        (None, 0),
        (Some(Duration::new(3, 4)), 3_000_000_004),
        (None, 3_000_000_004),
        (Some(Duration::from_nanos(7)), 7),
        (Some(max.saturating_add(Duration::from_nanos(1))), 7),
        (Some(max), u64::MAX),
    ];
    for (answer, want) in moments {
        told.0.set(answer);
        assert_eq!(rt; clock.now(), want);
    }
    Ok(())
}
