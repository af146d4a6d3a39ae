//! What seats do, and what they are told.

ghost use Rattle.std.specs.Prelude.{List};
ghost use Rattle.store_model.specs.Holds.{Hold};

use crate::found::{Found, read_all};
use crate::spans::{Batches, batch};
use compactor::compact_round;
use flusher::flush_round;
use shared_store::PortSeat;
use span_types::{Batch, Memory};
use std::alloc::Global;
use std::sync::Wait;
use store_state::{BeginError, FlushPort, LookPort, Port, PushError, ReclaimError, Round};

// What a seat does in turn.
#[derive(Clone, Copy)]
pub(crate) enum Step {
    Push,
    Cut,
    CutAll,
    // Begins a flush.
    Begin,
    // A round of the flusher.
    Flush,
    // A round of the compactor.
    Compact,
    Reclaim,
    // A look, of which all is read before it is given back.
    Look,
}

// What it is told.
#[derive(Clone, Copy, PartialEq, Eq)]
pub(crate) enum Said {
    // The number of a push.
    Number(u64),
    NotPushed(PushError),
    // How many rows a cut moved.
    Moved(u64),
    // The number of a flush that began.
    Job(u64),
    NotBegun(BeginError),
    Flushed(Round),
    Compacted(Round),
    // How many files were emptied.
    Emptied(u64),
    NotEmptied(ReclaimError),
    // The length of the history at a look.
    Shown(u64),
    // Nothing, or that memory is out.
    Nothing,
}

// A step, so often.
pub(crate) type Steps = (Step, u16);

// What a seat does: steps, all of them so often, and what its batches have.
#[derive(Clone, Copy)]
pub(crate) struct Plan {
    pub(crate) steps: &'static [Steps],
    pub(crate) times: u16,
    pub(crate) batches: Batches,
}

pub(crate) fn plan_of(steps: &'static [Steps], times: u16, batches: Batches) -> Plan {
    Plan {
        steps,
        times,
        batches,
    }
}

// What it was told, in order, what its looks showed, and whether all this found room.
#[derive(Drop)]
pub(crate) struct Log {
    pub(crate) said: Vec<Said>,
    pub(crate) looks: Vec<Found>,
    pub(crate) pushes: u16,
    pub(crate) whole: bool,
}

impl Log {
    fn nothing(alloc: Global) -> Log {
        Log {
            said: Vec::new(alloc),
            looks: Vec::new(alloc),
            pushes: 0,
            whole: true,
        }
    }

    fn add(&mut self, said: Said) {
        self.whole &= self.said.push(said).is_ok();
    }

    fn add_look(&mut self, look: Option<Found>) -> Said {
        let Some(look) = look else {
            return Said::Nothing;
        };
        let as_of = look.as_of;
        self.whole &= self.looks.push(look).is_ok();
        Said::Shown(as_of)
    }
}

const SECOND: u64 = 1_000_000_000;

// The moment of the push after so many others.
fn moment(before: u16) -> u64 {
    u64::from(before) * SECOND
}

fn push<P: LookPort>(port: &mut P, batch: Result<Batch, Memory>, moment: u64) -> Said {
    let Ok(batch) = batch else {
        return Said::Nothing;
    };
    match port.push(batch, moment) {
        Ok(number) => Said::Number(number),
        Err(error) => Said::NotPushed(error),
    }
}

fn moved(answer: Result<u64, Memory>) -> Said {
    match answer {
        Ok(rows) => Said::Moved(rows),
        Err(_) => Said::Nothing,
    }
}

fn begins<P: FlushPort>(port: &mut P) -> Said {
    match port.begin_flush() {
        Ok(Some(job)) => Said::Job(job.out.number),
        Ok(None) => Said::Nothing,
        Err(error) => Said::NotBegun(error),
    }
}

fn reclaims<P: Port>(port: &mut P) -> Said {
    match port.reclaim() {
        Ok(files) => Said::Emptied(files),
        Err(error) => Said::NotEmptied(error),
    }
}

// Takes a step.
fn take<P: Port>(alloc: Global, port: &mut P, step: Step, batches: Batches, log: &mut Log) -> Said
    requires { (held : List Hold) × P.meaning.holds port.old held }
{
    let before = log.pushes;
    match step {
        Step::Push => {
            log.pushes = before.wrapping_add(1);
            push(port, batch(alloc, batches, before), moment(before))
        }
        Step::Cut => moved(port.cut(moment(before))),
        Step::CutAll => moved(port.cut_all()),
        Step::Begin => begins(port),
        Step::Flush => Said::Flushed(flush_round(alloc, port)),
        Step::Compact => Said::Compacted(compact_round(alloc, port)),
        Step::Reclaim => reclaims(port),
        Step::Look => log.add_look(read_all(alloc, port)),
    }
}

// Takes a step so often.
fn repeat<Q: Port, R: Wait>(
    alloc: Global,
    seat: &mut PortSeat<'_, Q, R>,
    steps: Steps,
    batches: Batches,
    log: &mut Log,
) {
    for _ in 0..steps.1 {
        let said = take(alloc, seat, steps.0, batches, log);
        log.add(said);
    }
}

// Takes all steps once.
fn turn<Q: Port, R: Wait>(
    alloc: Global,
    seat: &mut PortSeat<'_, Q, R>,
    plan: &Plan,
    log: &mut Log,
) {
    for steps in plan.steps {
        repeat(alloc, seat, *steps, plan.batches, log);
    }
}

// What a seat is told that follows a plan.
pub(crate) fn follow<Q: Port, R: Wait>(
    alloc: Global,
    seat: &mut PortSeat<'_, Q, R>,
    plan: &Plan,
) -> Log {
    let mut log = Log::nothing(alloc);
    for _ in 0..plan.times {
        turn(alloc, seat, plan, &mut log);
    }
    log
}
