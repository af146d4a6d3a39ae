//! How far all blocks are gone through, as a trace: picks below it can be taken.

ghost use Rattle.std.specs.Prelude.{◌≡◌};
ghost use Rattle.query_fanout.specs.Rounds.{goes_to, is_below, reach_of};

use span_types::TraceId;

/// The traces up to which all is gone through.
#[derive(Clone, Copy, Drop)]
pub(crate) enum Reach {
    /// None of them.
    Nothing,
    /// Those below this one.
    Upto(TraceId),
    /// All.
    Whole,
}

/// Whether a trace is among them.
pub(crate) fn is_below(reach: Reach, id: TraceId) -> bool
    ensures { result ≡ is_below reach id }
{
    match reach {
        Reach::Nothing => false,
        Reach::Upto(bound) => id.cmp(&bound).is_lt(),
        Reach::Whole => true,
    }
}

/// Whether the first goes no further than the second.
pub(crate) fn goes_to(reach: Reach, other: Reach) -> bool
    ensures { result ≡ goes_to reach other }
{
    match (reach, other) {
        (Reach::Nothing, _) => true,
        (Reach::Upto(_), Reach::Nothing) => false,
        (Reach::Upto(bound), Reach::Upto(other)) => bound.cmp(&other).is_le(),
        (_, Reach::Whole) => true,
        (Reach::Whole, _) => false,
    }
}

/// Up to the trace of the last row, if it is known.
pub(crate) fn reach_of(last: Option<TraceId>) -> Reach
    ensures { result ≡ reach_of last }
{
    match last {
        Some(id) => Reach::Upto(id),
        None => Reach::Nothing,
    }
}
