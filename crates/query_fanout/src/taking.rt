//! Picked traces are answered a few at a time, and the best results are kept.

ghost use Rattle.std.specs.Prelude.{◌≡◌, ◌++◌, All, IfOk, List, map};
ghost use Rattle.std.specs.List.{flat_map};
ghost use Rattle.span_types.specs.declared.spans.Row.{Row as AnyRow};
ghost use Rattle.store_state.specs.Given.{look_of};
ghost use Rattle.store_state.specs.Meaning.{IsOpen};
ghost use Rattle.stripe_traces.specs.Wanted.{AreInOrder};
ghost use Rattle.column_scan.specs.Candidates.{Ascend};
ghost use Rattle.query_fanout.specs.Reading.{AreOfTraces, AtMost, BlocksRead, look_ups};
ghost use Rattle.query_fanout.specs.Searching.{AnswersTheirs, AnswersWith, TakenTheirs, TakenWith, TakesTheirs, TakesWith, TookTheirs, TookWith};
ghost use Rattle.query_fanout.specs.Taking.{AreApart, open_picks, traces_of};

use crate::blocks::{OfBlock, of_blocks};
use crate::laws::takes_more;
use crate::own::Own;
use crate::trace::joined_firsts;
use crate::turns::{in_turns, two_parts};
use crate::{Asked, QueryError};
use block_info::BlockInfo;
use block_read::{Pages, ReadError};
use block_traces::rows_of_traces;
use column_scan::Pick;
use search_answer::{Best, Bounds};
use span_types::{Memory, Row, Rows, TraceId};
use std::alloc::Global;
use std::thread::Threads;
use store_state::{FlushPort, Look};
use trace_fanout::answer;

// The rows of several traces, whose ids ascend.
#[derive(Drop)]
struct Traces<'i>(&'i [TraceId]);

impl<'i> OfBlock for Traces<'i> {
    ghost use Rattle.std.specs.Prelude.{refl};
    ghost use Rattle.stripe_traces.specs.Wanted.{AreInOrder};
    ghost use Rattle.block_traces.specs.Batches.{pages_for_each};
    ghost use Rattle.query_fanout.specs.Reading.{AreOfTraces, AreTheirs};
    ghost use Rattle.query_fanout.specs.Joined.{of_traces_both, theirs_both};

    type Item = Row;

    ghost can = { λ s. AreInOrder s.0.now };

    ghost some = { λ s. AreTheirs s.0.now };

    ghost fits = { λ s. AreOfTraces s.0.now };

    ghost most = { λ s info rows. pages_for_each info s.0.now rows };

    fn of_block<G: Pages>(
        &self,
        alloc: Global,
        pages: &mut G,
        block: u32,
        info: &BlockInfo,
    ) -> Result<Rows, ReadError> {
        rows_of_traces(alloc, pages, block, info, self.0)
    }

    ghost none = { λ s. ((refl, refl), refl) };

    ghost both = { λ s a b x y. (theirs_both s.0.now a b x y, of_traces_both s.0.now a b x y) };
}

/// Picks are taken: those of late moments first, a few at a time. What is kept are the best of the results so far and
/// of theirs.
pub(crate) fn take_picks<R: Threads + Sync, P: FlushPort>(
    rt: &R,
    alloc: Global,
    port: &mut P,
    look: &Look,
    own: &Own,
    asked: &Asked,
    picks: Vec<Pick>,
    best: Best,
) -> Result<Best, QueryError>
    requires open { IsOpen P.meaning port.old (look_of look.now) }
    requires ascend { Ascend picks.items }
    ensures { BlocksRead P.meaning look.now look.now.pin.blocks
        (TookTheirs asked.now own.now picks.items best)
        (TookWith asked.now own.now picks.items best)
        (AtMost (look_ups (traces_of picks.items) look.now.pin.blocks)) port.old result port.new }
{
    match two_parts(alloc, picks, asked.limit) {
        Ok((late, early)) => {
            take_parts(
                rt,
                alloc,
                port,
                look,
                own,
                asked,
                late.as_slice(),
                early.as_slice(),
                best,
            )
        }
        Err(Memory) => Err(QueryError::Memory),
    }
}

// The same of picks in two parts.
fn take_parts<R: Threads + Sync, P: FlushPort>(
    rt: &R,
    alloc: Global,
    port: &mut P,
    look: &Look,
    own: &Own,
    asked: &Asked,
    late: &[Pick],
    early: &[Pick],
    best: Best,
) -> Result<Best, QueryError>
    requires open { IsOpen P.meaning port.old (look_of look.now) }
    requires late { Ascend late.now }
    requires early { Ascend early.now }
    requires apart { AreApart (late.now ++ early.now) }
    ensures { BlocksRead P.meaning look.now look.now.pin.blocks
        (TookTheirs asked.now own.now (late.now ++ early.now) best)
        (TookWith asked.now own.now (late.now ++ early.now) best)
        (AtMost (look_ups (traces_of
        (late.now ++ early.now)) look.now.pin.blocks)) port.old result port.new }
{
    let turns = match in_turns(alloc, late, early) {
        Ok(turns) => turns,
        Err(_) => return Err(QueryError::Memory),
    };
    take_each(rt, alloc, port, look, own, asked, turns.as_slice(), best)
}

// Each few picks in turn are taken.
fn take_each<R: Threads + Sync, P: FlushPort>(
    rt: &R,
    alloc: Global,
    port: &mut P,
    look: &Look,
    own: &Own,
    asked: &Asked,
    turns: &[&[Pick]],
    best: Best,
) -> Result<Best, QueryError>
    requires open { IsOpen P.meaning port.old (look_of look.now) }
    requires ascend { All (λ few. Ascend few.now) turns.now }
    requires apart { AreApart (flat_map (λ few. few.now) turns.now) }
    ensures { BlocksRead P.meaning look.now look.now.pin.blocks
        (TakenTheirs asked.now own.now (map (λ few. few.now) turns.now) best)
        (TakenWith asked.now own.now (map (λ few. few.now) turns.now) best)
        (AtMost (look_ups (traces_of (flat_map (λ few. few.now) turns.now)) look.now.pin.blocks))
        port.old result port.new }
{
    takes_more();
    let mut best = best;
    for few in turns {
        let next = take_few(rt, alloc, port, look, own, asked, few, best)?;
        best = next;
    }
    Ok(best)
}

// A few picks are taken: the traces of which a result can still come among the best are answered. If there are none, no
// block is gone through.
fn take_few<R: Threads + Sync, P: FlushPort>(
    rt: &R,
    alloc: Global,
    port: &mut P,
    look: &Look,
    own: &Own,
    asked: &Asked,
    few: &[Pick],
    best: Best,
) -> Result<Best, QueryError>
    requires open { IsOpen P.meaning port.old (look_of look.now) }
    requires ascend { Ascend few.now }
    ensures { BlocksRead P.meaning look.now look.now.pin.blocks
        (TakesTheirs asked.now own.now few.now best) (TakesWith asked.now own.now few.now best)
        (AtMost (look_ups (traces_of few.now) look.now.pin.blocks)) port.old result port.new }
{
    let ids = match open_traces(alloc, few, &best) {
        Ok(ids) => ids,
        Err(Memory) => return Err(QueryError::Memory),
    };
    if ids.is_empty() {
        return Ok(best);
    }
    answer_traces(rt, alloc, port, look, own, asked, ids.as_slice(), best)
}

// The traces of the picks of which a result can still come among the best.
fn open_traces(alloc: Global, few: &[Pick], best: &Best) -> Result<Vec<TraceId>, Memory>
    ensures { IfOk result (λ ids. ids.items ≡ traces_of (open_picks best.now few.now)) }
{
    let mut ids = Vec::new(alloc);
    for pick in few {
        if best.may_take(pick.trace, pick.latest) {
            ids.push(pick.trace)?;
        }
    }
    Ok(ids)
}

// Traces are answered over the rows of an open look and of its blocks. No rows are kept but theirs.
fn answer_traces<R: Threads + Sync, P: FlushPort>(
    rt: &R,
    alloc: Global,
    port: &mut P,
    look: &Look,
    own: &Own,
    asked: &Asked,
    ids: &[TraceId],
    best: Best,
) -> Result<Best, QueryError>
    requires open { IsOpen P.meaning port.old (look_of look.now) }
    requires in_order { AreInOrder ids.now }
    ensures { BlocksRead P.meaning look.now look.now.pin.blocks
        (AnswersTheirs asked.now own.now ids.now best) (AnswersWith asked.now own.now ids.now best)
        (AtMost (look_ups ids.now look.now.pin.blocks)) port.old result port.new }
{
    match of_blocks(alloc, port, look, &Traces(ids)) {
        Ok(found) => match answer_rows(rt, alloc, own, asked, ids, found, best) {
            Ok(best) => Ok(best),
            Err(Memory) => Err(QueryError::Memory),
        },
        Err(error) => Err(error),
    }
}

// Traces are answered over their rows in memory, and those elsewhere: in threads, if they are many.
fn answer_rows<R: Threads + Sync>(
    rt: &R,
    alloc: Global,
    own: &Own,
    asked: &Asked,
    ids: &[TraceId],
    found: Rows,
    best: Best,
) -> Result<Best, Memory>
    requires in_order { AreInOrder ids.now }
    ensures { IfOk result (λ new. (rows : List AnyRow) → AreOfTraces ids.now rows found
        → AnswersWith asked.now own.now ids.now best rows new) }
{
    let theirs = own.rows_of(alloc, ids)?;
    let firsts = joined_firsts(alloc, theirs, found)?;
    let bounds = Bounds {
        limit: asked.limit,
        spans_per_set: asked.spans_per_set,
    };
    let checked = &asked.checked;
    let more = answer(rt, alloc, checked, asked.range, bounds, firsts.as_slice())?;
    let kept = best.with(alloc, more)?;
    Ok(kept)
}
