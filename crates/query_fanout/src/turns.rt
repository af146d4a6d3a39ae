//! In which order picks are taken: those of late moments first, some at a time.

ghost use Rattle.std.specs.Prelude.{◌≡◌, ◌++◌, ◌<◌, ◌≤◌, All, IfOk, OnOk, filter, length, nat_le, nat_lt};
ghost use Rattle.std.specs.List.{flat_map};
ghost use Rattle.std.specs.List.Sorted.{IsPermutation};
ghost use Rattle.column_scan.specs.Candidates.{Ascend};

use column_scan::Pick;
use span_types::Memory;
use std::alloc::Global;

// How many are taken at a time.
const FEW: usize = 2048;

// How many late picks there are for each result that is asked for: not each picked trace has a result.
const LATE_FOR_EACH: usize = 8;

/// The late picks, of which there are some more than results are asked for, and the early ones.
pub(crate) fn two_parts(
    alloc: Global,
    picks: Vec<Pick>,
    limit: u32,
) -> Result<(Vec<Pick>, Vec<Pick>), Memory>
    requires { Ascend picks.items }
    ensures same { IfOk result
        (λ parts. IsPermutation picks.items (parts.0.items ++ parts.1.items)) }
    ensures late { IfOk result (λ parts. Ascend parts.0.items) }
    ensures early { IfOk result (λ parts. Ascend parts.1.items) }
{
    let moment = late_moment(alloc, picks.as_slice(), limit)?;
    let late = late_ones(alloc, picks.as_slice(), moment)?;
    let early = early_ones(alloc, picks.as_slice(), moment)?;
    Ok((late, early))
}

// Those that aren't before a moment.
fn late_ones(alloc: Global, picks: &[Pick], moment: u64) -> Result<Vec<Pick>, Memory>
    ensures { IfOk result (λ late. late.items ≡ filter (λ p. nat_le moment p.latest) picks.now) }
{
    let mut late = Vec::new(alloc);
    for pick in picks {
        if moment <= pick.latest {
            late.push(*pick)?;
        }
    }
    Ok(late)
}

// Those that are before it.
fn early_ones(alloc: Global, picks: &[Pick], moment: u64) -> Result<Vec<Pick>, Memory>
    ensures { IfOk result (λ early. early.items ≡ filter (λ p. nat_lt p.latest moment) picks.now) }
{
    let mut early = Vec::new(alloc);
    for pick in picks {
        if pick.latest < moment {
            early.push(*pick)?;
        }
    }
    Ok(early)
}

// A moment at or above which so many picks are for each result that is asked for, if there are so many. Whatever it
// is, the same results are found.
fn late_moment(alloc: Global, picks: &[Pick], limit: u32) -> Result<u64, Memory> {
    let mut moments = Vec::with_capacity(alloc, picks.len())?;
    for pick in picks {
        moments.push(pick.latest)?;
    }
    moments.sort_unstable();
    let early = moments.len().saturating_sub(LATE_FOR_EACH * limit as usize);
    match moments.as_slice().get(early) {
        Some(moment) => Ok(*moment),
        None => Ok(0),
    }
}

/// The picks in the order in which they are taken, at most 2,048 at a time.
pub(crate) fn in_turns<'p>(
    alloc: Global,
    late: &'p [Pick],
    early: &'p [Pick],
) -> Result<Vec<&'p [Pick]>, Memory>
    requires late { Ascend late.now }
    requires early { Ascend early.now }
    ensures same { IfOk result
        (λ turns. flat_map (λ few. few.now) turns.items ≡ late.now ++ early.now) }
    ensures ascend { IfOk result (λ turns. All (λ few. Ascend few.now) turns.items) }
{
    let mut turns = Vec::new(alloc);
    add_turns(&mut turns, late)?;
    add_turns(&mut turns, early)?;
    Ok(turns)
}

// How many are taken of these.
fn few_of(rest: &[Pick]) -> usize
    requires { 0 < length rest.now }
    ensures some { 0 < result }
    ensures there { result ≤ length rest.now }
{
    rest.len().min(FEW)
}

// Adds picks, at most 2,048 at a time.
fn add_turns<'p>(turns: &mut Vec<&'p [Pick]>, picks: &'p [Pick]) -> Result<(), Memory>
    requires before { All (λ few. Ascend few.now) turns.old.items }
    requires picks { Ascend picks.now }
    ensures same { OnOk result (flat_map (λ few. few.now) turns.new.items
        ≡ flat_map (λ few. few.now) turns.old.items ++ picks.now) }
    ensures ascend { OnOk result (All (λ few. Ascend few.now) turns.new.items) }
{
    let mut rest = picks;
    while !rest.is_empty() {
        let (few, others) = rest.split_at(few_of(rest));
        turns.push(few)?;
        rest = others;
    }
    Ok(())
}
