//! A search in rounds: it goes through all blocks side by side, in order of traces.

ghost use Rattle.std.specs.Prelude.{◌≡◌, ◌++◌, ◌<◌, IfOk, List, false, length, slice_index_or, true};
ghost use Rattle.span_types.specs.declared.spans.Row.{Row as AnyRow};
ghost use Rattle.store_state.specs.Given.{look_of};
ghost use Rattle.store_state.specs.Meaning.{IsOpen};
ghost use Rattle.query_fanout.specs.Bounds.{SearchReads};
ghost use Rattle.query_fanout.specs.Reading.{BlocksRead};
ghost use Rattle.query_fanout.specs.Rounds.{AllReach, AnswersRows, AreInBatches, GoesFrom, IsBegun, IsFound, IsLeast, IsParted, IsWell, PicksOf, all_steps, goes_to, is_all};
ghost use Rattle.query_fanout.specs.declared.scans.Scan.{Scan as AnyScan};
ghost use Rattle.query_fanout.specs.Taking.{asked_hint, asked_sieve};

use crate::laws::taken_answer_the_whole;
use crate::own::Own;
use crate::reach::{Reach, goes_to};
use crate::scans::{Found, Scan, go_on, least, scans_of};
use crate::taking::take_picks;
use crate::waits::{Batch, batch_of, part};
use crate::{Asked, QueryError};
use column_scan::{Pick, Sifter, in_order};
use search_answer::Best;
use span_types::Memory;
use std::alloc::Global;
use std::thread::Threads;
use store_state::{FlushPort, Look};

/// How far a search has come: all picks of traces that are gone through were taken, and these are the best results of
/// them.
#[derive(Drop)]
pub(crate) struct Rounds<'l> {
    pub(crate) scans: Vec<Scan<'l>>,
    pub(crate) waits: Vec<Batch>,
    pub(crate) gone: Reach,
    pub(crate) best: Best,
}

/// Goes through all blocks until all picks are taken, and those of the look's rows as well.
///
/// A block's rows ascend by trace. So once each block is gone through up to some trace, all picks below the least of
/// these traces are there, and are taken. A round needs memory for its own picks, the picks that wait, and the rows of
/// a few traces.
pub(crate) fn take_rounds<R: Threads + Sync, P: FlushPort>(
    rt: &R,
    alloc: Global,
    port: &mut P,
    look: &Look,
    own: &Own,
    asked: &Asked,
    sifter: &mut Sifter<'_, '_>,
    picks: Vec<Pick>,
) -> Result<Best, QueryError>
    requires open { IsOpen P.meaning port.old (look_of look.now) }
    requires sieve { sifter.old ≡ asked_sieve asked.now }
    requires picks { (seen : List AnyRow)
        × PicksOf (asked_sieve asked.now) seen own.now picks.items }
    ensures { (seen : List AnyRow) → PicksOf (asked_sieve asked.now) seen own.now picks.items
        → BlocksRead P.meaning look.now look.now.pin.blocks
        (λ rows best. AnswersRows asked.now (own.now ++ rows) best)
        (λ rows best. AnswersRows asked.now (own.now ++ rows) best)
        (SearchReads (asked_hint asked.now) seen look.now.pin.blocks) port.old result port.new }
{
    taken_answer_the_whole();
    let mut rounds = match begin(alloc, look, asked, picks) {
        Ok(rounds) => rounds,
        Err(Memory) => return Err(QueryError::Memory),
    };
    while let Some(at) = least(rounds.scans.as_slice()) {
        let next = one_round(rt, alloc, port, look, own, asked, sifter, at, rounds)?;
        rounds = next;
    }
    let all = take_gone(rt, alloc, port, look, own, asked, Reach::Whole, rounds)?;
    Ok(all.best)
}

// No block is gone through, and the picks of the look's rows are there.
fn begin<'l>(
    alloc: Global,
    look: &'l Look,
    asked: &Asked,
    picks: Vec<Pick>,
) -> Result<Rounds<'l>, Memory>
    ensures { IfOk result (λ rounds. IsBegun look.now asked.now picks.items rounds) }
{
    let scans = scans_of(alloc, look)?;
    let own = batch_of(alloc, picks, Reach::Nothing)?;
    let mut waits = Vec::new(alloc);
    waits.push(own)?;
    Ok(Rounds {
        scans,
        waits,
        gone: Reach::Nothing,
        best: Best::new(alloc, asked.limit),
    })
}

// All picks are taken up to where the scan is that has come least far, and it goes on.
fn one_round<'l, R: Threads + Sync, P: FlushPort>(
    rt: &R,
    alloc: Global,
    port: &mut P,
    look: &Look,
    own: &Own,
    asked: &Asked,
    sifter: &mut Sifter<'_, '_>,
    at: usize,
    rounds: Rounds<'l>,
) -> Result<Rounds<'l>, QueryError>
    requires open { IsOpen P.meaning port.old (look_of look.now) }
    requires well { IsWell look.now rounds }
    requires least { IsLeast rounds.scans.items at }
    requires sieve { sifter.old ≡ asked_sieve asked.now }
    ensures goes { GoesFrom P.meaning look.now own.now asked.now port.old rounds.entry result port.new }
    ensures fewer { IfOk result
        (λ new. all_steps new.scans.items < all_steps rounds.entry.scans.items) }
    ensures sifter { sifter.new ≡ sifter.old }
{
    let bound = rounds.scans[at].upto;
    let taken = take_gone(rt, alloc, port, look, own, asked, bound, rounds)?;
    go_on_at(alloc, port, look, own, asked, sifter, at, taken)
}

// The picks that wait below a bound are taken, if all scans have come so far.
fn take_gone<'l, R: Threads + Sync, P: FlushPort>(
    rt: &R,
    alloc: Global,
    port: &mut P,
    look: &Look,
    own: &Own,
    asked: &Asked,
    bound: Reach,
    rounds: Rounds<'l>,
) -> Result<Rounds<'l>, QueryError>
    requires open { IsOpen P.meaning port.old (look_of look.now) }
    requires well { IsWell look.now rounds }
    requires reach { AllReach bound rounds.scans.items }
    ensures goes { GoesFrom P.meaning look.now own.now asked.now port.old rounds.entry result port.new }
    ensures well { IfOk result (λ new. IsWell look.now new) }
    ensures scans { IfOk result (λ new. new.scans ≡ rounds.entry.scans) }
    ensures gone { IfOk result (λ new. goes_to bound new.gone ≡ true) }
    ensures open { IsOpen P.meaning port.new (look_of look.now) }
{
    if !goes_to(rounds.gone, bound) {
        return Ok(rounds);
    }
    let (picks, left) = match part_in_order(alloc, rounds.waits, bound) {
        Ok(parted) => parted,
        Err(Memory) => return Err(QueryError::Memory),
    };
    let best = take_picks(rt, alloc, port, look, own, asked, picks, rounds.best)?;
    Ok(Rounds {
        scans: rounds.scans,
        waits: left,
        gone: bound,
        best,
    })
}

// The picks that wait below a bound, each trace once, in order, and the others.
fn part_in_order(
    alloc: Global,
    waits: Vec<Batch>,
    bound: Reach,
) -> Result<(Vec<Pick>, Vec<Batch>), Memory>
    requires { AreInBatches waits.items }
    ensures parted { IfOk result (λ p. IsParted bound waits.items p.0.items p.1.items) }
    ensures batches { IfOk result (λ p. AreInBatches p.1.items) }
{
    let parted = part(alloc, waits, bound)?;
    let picks = in_order(alloc, parted.few)?;
    Ok((picks, parted.left))
}

// A scan goes on, and what it finds waits.
fn go_on_at<'l, P: FlushPort>(
    alloc: Global,
    port: &mut P,
    look: &Look,
    own: &Own,
    asked: &Asked,
    sifter: &mut Sifter<'_, '_>,
    at: usize,
    rounds: Rounds<'l>,
) -> Result<Rounds<'l>, QueryError>
    requires open { IsOpen P.meaning port.old (look_of look.now) }
    requires well { IsWell look.now rounds }
    requires low { at < length rounds.scans.items }
    requires sieve { sifter.old ≡ asked_sieve asked.now }
    ensures goes { GoesFrom P.meaning look.now own.now asked.now port.old rounds.entry result port.new }
    ensures fewer { IfOk result (λ new. (d : AnyScan)
        → is_all (slice_index_or rounds.entry.scans.items at d).upto ≡ false
        → all_steps new.scans.items < all_steps rounds.entry.scans.items) }
    ensures sifter { sifter.new ≡ sifter.old }
{
    let found = go_on(alloc, port, look, sifter, rounds.scans[at])?;
    match with_found(alloc, at, rounds, found) {
        Ok(next) => Ok(next),
        Err(Memory) => Err(QueryError::Memory),
    }
}

// What was found waits, but for picks of traces that are gone through.
fn with_found<'l>(
    alloc: Global,
    at: usize,
    rounds: Rounds<'l>,
    found: Found<'l>,
) -> Result<Rounds<'l>, Memory>
    requires well { AreInBatches rounds.waits.items }
    requires low { at < length rounds.scans.items }
    ensures { IfOk result (λ new. IsFound at found.entry rounds.entry new) }
{
    let batch = batch_of(alloc, found.picks, rounds.gone)?;
    let mut waits = rounds.waits;
    waits.push(batch)?;
    let mut scans = rounds.scans;
    scans[at] = found.scan;
    Ok(Rounds {
        scans,
        waits,
        gone: rounds.gone,
        best: rounds.best,
    })
}
