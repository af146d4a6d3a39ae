//! The first run of a list, and what comes after it.

ghost use Rattle.std.specs.Prelude.{◌≡◌, ◌<◌, ◌++◌, length, map};
ghost use Rattle.span_runs.specs.Runs.{as_run, of_one, runs};

use crate::{HasSpan, Origin};

/// The first run of items whose spans come from one `O`, and the items after it. The longest such run is meant.
pub fn first_run<O: Origin, H: HasSpan>(items: &[H]) -> (&[H], &[H])
    requires { 0 < length items.now }
    ensures some { 0 < length result.0.now }
    ensures whole { items.now ≡ result.0.now ++ result.1.now }
    ensures runs { runs (of_one O.eq O.of) (map H.span items.now)
        ≡ as_run (map H.span result.0.now) ++ runs (of_one O.eq O.of) (map H.span result.1.now) }
{
    let mut n = 1;
    while n < items.len() && are_of_one::<O, H>(&items[n - 1], &items[n]) {
        n += 1;
    }
    items.split_at(n)
}

/// Whether two items' spans come from one `O`.
fn are_of_one<O: Origin, H: HasSpan>(a: &H, b: &H) -> bool
    ensures { result ≡ of_one O.eq O.of (H.span a.now) (H.span b.now) }
{
    *O::of(a.span()) == *O::of(b.span())
}
