//! A compaction, one event a step.

ghost use Rattle.std.specs.Prelude.{◌≡◌, ◌+◌, ◌-◌, ◌*◌, ◌^◌, ◌<◌, ◌≤◌, [], IsTrue, List, length};
ghost use Rattle.store_state.specs.declared.rounds.Round.TheVariants.{Did};
ghost use Rattle.store_model.specs.Holds.{Hold};
ghost use Rattle.store_state.specs.Given.{compact_of};
ghost use Rattle.store_state.specs.Made.{AreMade, Call};
ghost use Rattle.store_state.specs.Meaning.{IsOpen};
ghost use Rattle.compactor.specs.Rounds.{FoundBlocks, IsCompactRound};
ghost use Rattle.compactor.specs.Phases.{task_of};
ghost use Rattle.compactor.specs.Tasks.{Answers, FindsBlocks, Fits, IsReading, IsWriting, OneEvent, Steps, steps_left};
ghost use Rattle.compactor.specs.Tasks.Task.{Ended, Failing, Fresh, Reading, Writing};

use crate::building::{Block, build_block};
use crate::reading::{Progress, current, fail, file_of, turn};
use block_info::SharedInfo;
use block_read::described_block_is_read;
use flusher::piece;
use std::alloc::Global;
use std::marker::Model;
use std::mem;
use store_state::{
    CompactJob, Port, Refusal, Round, Step, a_choice_is_few, begin_cause, write_cause,
};

// How far a compaction is, with what it has in hand.
#[derive(Drop)]
pub(crate) enum Phase {
    Fresh,
    Reading(Progress),
    Writing(CompactJob, Block),
    Failing(CompactJob, Refusal),
    Ended(Round),
}

/// A compaction, one event of a port a step.
#[derive(Drop)]
pub struct CompactTask {
    alloc: Global,
    phase: Phase,
}

impl Model for CompactTask {
    ghost use Rattle.compactor.specs.Tasks.{Task};
    ghost use Rattle.compactor.specs.Phases.{task_of};

    ghost Value = { Task };

    ghost view = { λ t. task_of t.phase };
}

impl CompactTask {
    /// A compaction that has made no event.
    pub fn new(alloc: Global) -> CompactTask
        ensures { result ≡ Fresh }
    {
        CompactTask {
            alloc,
            phase: Phase::Fresh,
        }
    }

    /// Makes the next event of the round. After its end it makes none and answers the same end again.
    ///
    /// All steps of a task are made on one port, or on those that stand for it, so that the job stays open. Where the port
    /// tells its bytes no block is found to be malformed.
    pub fn step<P: Port>(&mut self, port: &mut P) -> Step
        requires { Fits P.meaning self.old port.old }
        ensures steps { Steps P.meaning self.old port.old self.new port.new }
        ensures fits { Fits P.meaning self.new port.new }
        ensures found { FindsBlocks P.meaning self.old port.old
            → FindsBlocks P.meaning self.new port.new }
        ensures left { steps_left self.new ≤ steps_left self.old - 1 }
        ensures answers { Answers result self.new }
    {
        let phase = mem::replace(&mut self.phase, Phase::Ended(Round::Nothing));
        self.phase = advance(self.alloc, phase, port);
        match self.phase {
            Phase::Ended(round) => Step::Ended(round),
            _ => Step::More,
        }
    }
}

fn advance<P: Port>(alloc: Global, phase: Phase, port: &mut P) -> Phase
    requires { Fits P.meaning (task_of phase) port.old }
    ensures steps { Steps P.meaning (task_of phase) port.old (task_of result) port.new }
    ensures fits { Fits P.meaning (task_of result) port.new }
    ensures found { FindsBlocks P.meaning (task_of phase) port.old
        → FindsBlocks P.meaning (task_of result) port.new }
    ensures left { steps_left (task_of result) ≤ steps_left (task_of phase) - 1 }
{
    match phase {
        Phase::Fresh => begin(alloc, port),
        Phase::Reading(reading) => read_or_join(alloc, reading, port),
        Phase::Writing(job, block) => go_on(job, block, port),
        Phase::Failing(job, why) => give_up(job, why, port),
        Phase::Ended(round) => Phase::Ended(round),
    }
}

// Begins the round.
fn begin<P: Port>(alloc: Global, port: &mut P) -> Phase
    requires { (held : List Hold) × P.meaning.holds port.old held }
    ensures steps { OneEvent P.meaning Fresh port.old (task_of result) port.new }
    ensures fits { Fits P.meaning (task_of result) port.new }
    ensures found { FindsBlocks P.meaning (task_of result) port.new }
    ensures left { steps_left (task_of result) ≤ 6 * 2 ^ 64 + 4 }
{
    a_choice_is_few();
    match port.begin_compact() {
        Ok(Some(job)) => unread(alloc, job),
        Ok(None) => Phase::Ended(Round::Nothing),
        Err(error) => Phase::Ended(Round::Refused(begin_cause(error))),
    }
}

// A job of which nothing is read.
fn unread(alloc: Global, job: CompactJob) -> Phase
    ensures { task_of result ≡ Reading job [] 0 [] }
{
    Phase::Reading(Progress {
        job,
        parts: Vec::new(alloc),
        pages: 0,
        bytes: Vec::new(alloc),
    })
}

// Reads a page of a block, or makes the first event of the new block once all are read.
fn read_or_join<P: Port>(alloc: Global, reading: Progress, port: &mut P) -> Phase
    requires { IsReading P.meaning reading.job reading.parts.items reading.pages reading.bytes.items
        port.old }
    ensures steps { OneEvent P.meaning
        (Reading reading.job reading.parts.items reading.pages reading.bytes.items)
        port.old (task_of result) port.new }
    ensures fits { Fits P.meaning (task_of result) port.new }
    ensures found { FindsBlocks P.meaning
        (Reading reading.job reading.parts.items reading.pages reading.bytes.items)
        port.old → FindsBlocks P.meaning (task_of result) port.new }
    ensures left { steps_left (task_of result)
        ≤ (length reading.job.pin.blocks - length reading.parts.items) * 2 ^ 64
        + (2 ^ 64 - reading.pages)
        + 2 ^ 64 + 3 }
{
    if reading.parts.len() < reading.job.pin.blocks.len() {
        read(alloc, reading, port)
    } else {
        join(alloc, reading, port)
    }
}

// Reads the next page of a block.
fn read<P: Port>(alloc: Global, reading: Progress, port: &mut P) -> Phase
    requires is_reading { IsReading P.meaning reading.job reading.parts.items reading.pages reading.bytes.items
        port.old }
    requires more { length reading.parts.items < length reading.job.pin.blocks }
    ensures steps { OneEvent P.meaning
        (Reading reading.job reading.parts.items reading.pages reading.bytes.items)
        port.old (task_of result) port.new }
    ensures fits { Fits P.meaning (task_of result) port.new }
    ensures found { FindsBlocks P.meaning
        (Reading reading.job reading.parts.items reading.pages reading.bytes.items)
        port.old → FindsBlocks P.meaning (task_of result) port.new }
    ensures left { steps_left (task_of result)
        ≤ (length reading.job.pin.blocks - length reading.parts.items) * 2 ^ 64
        + (2 ^ 64 - reading.pages)
        + 2 ^ 64 + 3 }
{
    described_block_is_read();
    let mut page = [0; 4096];
    let block = current(&reading);
    let file = file_of(block);
    match port.read_page(&reading.job.pin, file, reading.pages, &mut page) {
        Ok(()) => turn(alloc, reading, &page),
        Err(_) => fail(reading, Refusal::Fault),
    }
}

// Builds the new block and writes its first piece, or gives the job up.
fn join<P: Port>(alloc: Global, reading: Progress, port: &mut P) -> Phase
    requires is_reading { IsReading P.meaning reading.job reading.parts.items reading.pages reading.bytes.items
        port.old }
    requires whole { length reading.job.pin.blocks ≤ length reading.parts.items }
    ensures steps { OneEvent P.meaning
        (Reading reading.job reading.parts.items reading.pages reading.bytes.items)
        port.old (task_of result) port.new }
    ensures fits { Fits P.meaning (task_of result) port.new }
    ensures found { FindsBlocks P.meaning (task_of result) port.new }
    ensures left { steps_left (task_of result) ≤ 2 ^ 64 + 3 }
{
    let Progress { job, parts, .. } = reading;
    match build_block(alloc, parts, job.out.file, job.level) {
        Ok(block) => go_on(job, block, port),
        Err(_) => give_up(job, Refusal::Memory, port),
    }
}

// Writes the next piece, or lists the block that is written.
fn go_on<P: Port>(job: CompactJob, block: Block, port: &mut P) -> Phase
    requires { IsWriting P.meaning job block.bytes block.info port.old }
    ensures steps { OneEvent P.meaning (Writing job block.bytes block.info) port.old
        (task_of result) port.new }
    ensures fits { Fits P.meaning (task_of result) port.new }
    ensures found { FindsBlocks P.meaning (task_of result) port.new }
    ensures left { steps_left (task_of result) ≤ length block.bytes - job.out.written + 1 }
    ensures near { length block.bytes < 2 ^ 64 }
{
    if job.out.written < block.bytes.len() as u64 {
        write(job, block, port)
    } else {
        commit(job, block, port)
    }
}

// Writes the next piece.
fn write<P: Port>(job: CompactJob, block: Block, port: &mut P) -> Phase
    requires is_writing { IsWriting P.meaning job block.bytes block.info port.old }
    requires more { job.out.written < length block.bytes }
    ensures steps { OneEvent P.meaning (Writing job block.bytes block.info) port.old
        (task_of result) port.new }
    ensures fits { Fits P.meaning (task_of result) port.new }
    ensures found { FindsBlocks P.meaning (task_of result) port.new }
    ensures left { steps_left (task_of result) ≤ length block.bytes - job.out.written + 1 }
{
    let mut job = job;
    let from = job.out.written as usize;
    match port.write_piece(&mut job.out, piece(block.bytes.as_slice(), from)) {
        Ok(()) => Phase::Writing(job, block),
        Err(error) => Phase::Failing(job, write_cause(error)),
    }
}

// Lists the new block, which is written.
fn commit<P: Port>(job: CompactJob, block: Block, port: &mut P) -> Phase
    requires is_writing { IsWriting P.meaning job block.bytes block.info port.old }
    requires whole { job.out.written ≡ length block.bytes }
    ensures steps { OneEvent P.meaning (Writing job block.bytes block.info) port.old
        (task_of result) port.new }
    ensures fits { Fits P.meaning (task_of result) port.new }
    ensures found { FindsBlocks P.meaning (task_of result) port.new }
    ensures left { steps_left (task_of result) ≡ 0 }
{
    let done = done_of(&job, &block.info);
    match port.commit_compact(job, block.info) {
        Ok(()) => Phase::Ended(done),
        Err(error) => Phase::Ended(Round::Refused(write_cause(error))),
    }
}

// What was done once the block is listed.
fn done_of(job: &CompactJob, info: &SharedInfo) -> Round
    requires { length job.now.pin.blocks < 2 ^ 32 }
    ensures { result ≡ Did (length job.now.pin.blocks) info.now.rows }
{
    Round::Did {
        blocks: job.pin.blocks.len() as u32,
        rows: info.get().rows,
    }
}

// Gives a job up.
fn give_up<P: Port>(job: CompactJob, why: Refusal, port: &mut P) -> Phase
    requires { IsOpen P.meaning port.old (compact_of job) }
    ensures steps { OneEvent P.meaning (Failing job why) port.old (task_of result) port.new }
    ensures fits { Fits P.meaning (task_of result) port.new }
    ensures found { FindsBlocks P.meaning (Failing job why) port.old
        → FindsBlocks P.meaning (task_of result) port.new }
    ensures left { steps_left (task_of result) ≡ 0 }
{
    port.drop_compact(job);
    Phase::Ended(Round::Refused(why))
}

/// Joins the blocks that are to be joined next: one whole round, which says what it did or why it was refused.
///
/// It asks that the port says what is open in it. Where the port tells its bytes no block is found to be malformed.
pub fn compact_round<P: Port>(alloc: Global, port: &mut P) -> Round
    requires { (held : List Hold) × P.meaning.holds port.old held }
    ensures made { (calls : List Call) × AreMade P.meaning port.old calls port.new
        × IsCompactRound calls result }
    ensures told { IsTrue (P.meaning.tells port.old) → FoundBlocks result }
{
    let mut task = CompactTask::new(alloc);
    loop {
        match task.step(port) {
            Step::Ended(round) => return round,
            Step::More => {}
        }
    }
}
