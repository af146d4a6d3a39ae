//! The units of durations, with their texts and their nanoseconds.

ghost use Rattle.std.specs.Prelude.{◌≡◌};
ghost use Rattle.traceql_tokens.specs.Fixed.{unit_text, unit_nanos};

/// A unit of durations.
#[derive(Clone, Copy, Debug, PartialEq, Eq)]
pub enum TimeUnit {
    /// Nanoseconds, `ns`.
    Nanos,
    /// Microseconds, `us`.
    Micros,
    /// Milliseconds, `ms`.
    Millis,
    /// Seconds, `s`.
    Seconds,
    /// Minutes, `m`.
    Minutes,
    /// Hours, `h`.
    Hours,
}

impl TimeUnit {
    /// How the unit is written.
    pub fn text(self) -> &'static str
        ensures { result.now ≡ unit_text self }
    {
        match self {
            TimeUnit::Nanos => "ns",
            TimeUnit::Micros => "us",
            TimeUnit::Millis => "ms",
            TimeUnit::Seconds => "s",
            TimeUnit::Minutes => "m",
            TimeUnit::Hours => "h",
        }
    }

    /// Its nanoseconds.
    pub fn nanos(self) -> u64
        ensures { result ≡ unit_nanos self }
    {
        match self {
            TimeUnit::Nanos => 1,
            TimeUnit::Micros => 1_000,
            TimeUnit::Millis => 1_000_000,
            TimeUnit::Seconds => 1_000_000_000,
            TimeUnit::Minutes => 60_000_000_000,
            TimeUnit::Hours => 3_600_000_000_000,
        }
    }
}
