//! A flush, one event a step.

ghost use Rattle.std.specs.Prelude.{◌≡◌, ◌+◌, ◌-◌, ◌^◌, ◌<◌, ◌≤◌, List, length};
ghost use Rattle.store_model.specs.Holds.{Hold};
ghost use Rattle.store_state.specs.Given.{flush_of};
ghost use Rattle.store_state.specs.Made.{AreMade, Call};
ghost use Rattle.store_state.specs.Meaning.{IsOpen};
ghost use Rattle.store_state.specs.declared.rounds.Round.TheVariants.{Refused};
ghost use Rattle.flusher.specs.Rounds.{IsFlushRound};
ghost use Rattle.flusher.specs.Phases.{task_of};
ghost use Rattle.flusher.specs.Tasks.{Answers, Ended, Failing, Fits, Fresh, HasBegun, IsWriting, OneEvent, Begun, Steps, Writing, steps_left};

use crate::building::{Block, build_block};
use crate::pieces::piece;
use block_info::SharedInfo;
use std::alloc::Global;
use std::marker::Model;
use std::mem;
use store_state::{FlushJob, FlushPort, Refusal, Round, Step, begin_cause, write_cause};

// How far a flush is, with what it has in hand.
#[derive(Drop)]
pub(crate) enum Phase {
    Fresh,
    Begun(FlushJob),
    Writing(FlushJob, Block),
    Failing(FlushJob, Refusal),
    Ended(Round),
}

/// A flush, one event of a port a step.
#[derive(Drop)]
pub struct FlushTask {
    alloc: Global,
    phase: Phase,
}

impl Model for FlushTask {
    ghost use Rattle.flusher.specs.Tasks.{Task};
    ghost use Rattle.flusher.specs.Phases.{task_of};

    ghost Value = { Task };

    ghost view = { λ t. task_of t.phase };
}

impl FlushTask {
    /// A flush that has made no event.
    pub fn new(alloc: Global) -> FlushTask
        ensures { result ≡ Fresh }
    {
        FlushTask {
            alloc,
            phase: Phase::Fresh,
        }
    }

    /// Makes the next event of the round. After its end it makes none and answers the same end again.
    ///
    /// All steps of a task are made on one port, or on those that stand for it, so that the job stays open.
    pub fn step<P: FlushPort>(&mut self, port: &mut P) -> Step
        requires { Fits P.meaning self.old port.old }
        ensures steps { Steps P.meaning self.old port.old self.new port.new }
        ensures fits { Fits P.meaning self.new port.new }
        ensures left { steps_left self.new ≤ steps_left self.old - 1 }
        ensures answers { Answers result self.new }
    {
        let phase = mem::replace(&mut self.phase, Phase::Ended(Round::Nothing));
        self.phase = advance(self.alloc, phase, port);
        match self.phase {
            Phase::Ended(round) => Step::Ended(round),
            _ => Step::More,
        }
    }
}

fn advance<P: FlushPort>(alloc: Global, phase: Phase, port: &mut P) -> Phase
    requires { Fits P.meaning (task_of phase) port.old }
    ensures steps { Steps P.meaning (task_of phase) port.old (task_of result) port.new }
    ensures fits { Fits P.meaning (task_of result) port.new }
    ensures left { steps_left (task_of result) ≤ steps_left (task_of phase) - 1 }
{
    match phase {
        Phase::Fresh => begin(port),
        Phase::Begun(job) => open(alloc, job, port),
        Phase::Writing(job, block) => go_on(job, block, port),
        Phase::Failing(job, why) => give_up(job, why, port),
        Phase::Ended(round) => Phase::Ended(round),
    }
}

// Begins the round.
fn begin<P: FlushPort>(port: &mut P) -> Phase
    requires { (held : List Hold) × P.meaning.holds port.old held }
    ensures steps { OneEvent P.meaning Fresh port.old (task_of result) port.new }
    ensures fits { Fits P.meaning (task_of result) port.new }
    ensures left { steps_left (task_of result) ≤ 2 ^ 64 + 4 }
{
    match port.begin_flush() {
        Ok(Some(job)) => Phase::Begun(job),
        Ok(None) => Phase::Ended(Round::Nothing),
        Err(error) => Phase::Ended(Round::Refused(begin_cause(error))),
    }
}

// Builds the block and writes its first piece, or gives the job up.
fn open<P: FlushPort>(alloc: Global, job: FlushJob, port: &mut P) -> Phase
    requires { HasBegun P.meaning job port.old }
    ensures steps { OneEvent P.meaning (Begun job) port.old (task_of result) port.new }
    ensures fits { Fits P.meaning (task_of result) port.new }
    ensures left { steps_left (task_of result) ≤ 2 ^ 64 + 3 }
{
    match build_block(alloc, &job) {
        Ok(block) => start(job, block, port),
        Err(_) => give_up_begun(job, port),
    }
}

// Gives a job up, since there is no memory.
fn give_up_begun<P: FlushPort>(job: FlushJob, port: &mut P) -> Phase
    requires { IsOpen P.meaning port.old (flush_of job) }
    ensures steps { OneEvent P.meaning (Begun job) port.old (task_of result) port.new }
    ensures fits { Fits P.meaning (task_of result) port.new }
    ensures left { steps_left (task_of result) ≡ 0 }
{
    port.drop_flush(job);
    Phase::Ended(Round::Refused(Refusal::Memory))
}

// Makes the first event of a block that is built.
fn start<P: FlushPort>(job: FlushJob, block: Block, port: &mut P) -> Phase
    requires is_writing { IsWriting P.meaning job block.bytes block.info port.old }
    requires at_start { job.out.written ≡ 0 }
    ensures steps { OneEvent P.meaning (Begun job) port.old (task_of result) port.new }
    ensures fits { Fits P.meaning (task_of result) port.new }
    ensures left { steps_left (task_of result) ≤ 2 ^ 64 + 3 }
{
    go_on(job, block, port)
}

// Writes the next piece, or lists the block that is written.
fn go_on<P: FlushPort>(job: FlushJob, block: Block, port: &mut P) -> Phase
    requires { IsWriting P.meaning job block.bytes block.info port.old }
    ensures steps { OneEvent P.meaning (Writing job block.bytes block.info) port.old
        (task_of result) port.new }
    ensures fits { Fits P.meaning (task_of result) port.new }
    ensures left { steps_left (task_of result) ≤ length block.bytes - job.out.written + 1 }
    ensures near { length block.bytes < 2 ^ 64 }
{
    if job.out.written < block.bytes.len() as u64 {
        write(job, block, port)
    } else {
        commit(job, block, port)
    }
}

// Writes the next piece.
fn write<P: FlushPort>(job: FlushJob, block: Block, port: &mut P) -> Phase
    requires is_writing { IsWriting P.meaning job block.bytes block.info port.old }
    requires more { job.out.written < length block.bytes }
    ensures steps { OneEvent P.meaning (Writing job block.bytes block.info) port.old
        (task_of result) port.new }
    ensures fits { Fits P.meaning (task_of result) port.new }
    ensures left { steps_left (task_of result) ≤ length block.bytes - job.out.written + 1 }
{
    let mut job = job;
    let from = job.out.written as usize;
    match port.write_piece(&mut job.out, piece(block.bytes.as_slice(), from)) {
        Ok(()) => Phase::Writing(job, block),
        Err(error) => Phase::Failing(job, write_cause(error)),
    }
}

// Lists the block, which is written.
fn commit<P: FlushPort>(job: FlushJob, block: Block, port: &mut P) -> Phase
    requires is_writing { IsWriting P.meaning job block.bytes block.info port.old }
    requires whole { job.out.written ≡ length block.bytes }
    ensures steps { OneEvent P.meaning (Writing job block.bytes block.info) port.old
        (task_of result) port.new }
    ensures fits { Fits P.meaning (task_of result) port.new }
    ensures left { steps_left (task_of result) ≡ 0 }
{
    let rows = rows_of(&block.info);
    match port.commit_flush(job, block.info) {
        Ok(()) => Phase::Ended(Round::Did { blocks: 1, rows }),
        Err(error) => Phase::Ended(Round::Refused(write_cause(error))),
    }
}

fn rows_of(info: &SharedInfo) -> u32
    ensures { result ≡ info.now.rows }
{
    info.get().rows
}

// Gives a job up.
fn give_up<P: FlushPort>(job: FlushJob, why: Refusal, port: &mut P) -> Phase
    requires { IsOpen P.meaning port.old (flush_of job) }
    ensures steps { OneEvent P.meaning (Failing job why) port.old (task_of result) port.new }
    ensures fits { Fits P.meaning (task_of result) port.new }
    ensures left { steps_left (task_of result) ≡ 0 }
{
    port.drop_flush(job);
    Phase::Ended(Round::Refused(why))
}

/// Flushes rows that wait in the head: one whole round, which says what it did or why it was refused.
///
/// The port says what is open in it, as each port does.
pub fn flush_round<P: FlushPort>(alloc: Global, port: &mut P) -> Round
    requires { (held : List Hold) × P.meaning.holds port.old held }
    ensures { (calls : List Call) × AreMade P.meaning port.old calls port.new
        × IsFlushRound calls result }
{
    let mut task = FlushTask::new(alloc);
    loop {
        match task.step(port) {
            Step::Ended(round) => return round,
            Step::More => {}
        }
    }
}
