//! Live rows, the head, and the rows of an open flush.

ghost use Rattle.std.specs.Prelude.{◌≡◌, ◌+◌, ◌++◌, [], List, length, take, drop, filter, not, true, IfOk, IfErr, OnOk, OnErr};
ghost use Rattle.span_types.specs.declared.spans.Row.{Row};
ghost use Rattle.store_model.specs.History.{batch_rows};
ghost use Rattle.store_model.specs.State.{live_rows};
ghost use Rattle.store_model.specs.Cut.{is_idle, AreMoved};
ghost use Rattle.store_model.specs.After.{arrived};
ghost use Rattle.live_traces.specs.Rows.{chunk_rows, push_rows, run_rows};
ghost use Rattle.live_traces.specs.Parts.{HasRoom, arrivals_of, goes, least_number, least_with, live_of, lower};

use crate::chunk::{Chunk, SharedRow};
use crate::cut::{add_run, in_order, parts};
use crate::rest::Rest;
use crate::run::Run;
use crate::runs::Runs;
use span_types::{Batch, Memory, TryCopy};
use std::alloc::Global;
use std::marker::Model;
use std::mem;

// Rows of a push that remained live after a cut, with its moment.
#[derive(Drop)]
pub(crate) struct Entry {
    pub(crate) run: Rest,
    pub(crate) moment: u64,
}

// A push since the last cut, with its moment.
#[derive(Drop)]
pub(crate) struct Arrival {
    pub(crate) chunk: Chunk,
    pub(crate) moment: u64,
}

/// A push for which room was made, which contracts see as its number and its spans.
#[derive(Drop)]
pub struct Ready {
    chunk: Chunk,
}

impl Model for Ready {
    ghost use Rattle.live_traces.specs.Rows.{ChunkParts};

    ghost Value = { ChunkParts };

    ghost view = { λ r. r.chunk };
}

/// Rows that are in no block yet: live ones, those of the head, and those of an open flush. Rows are shared and never copied.
#[derive(Drop)]
pub struct Live {
    entries: Vec<Entry>,
    arrivals: Vec<Arrival>,
    // How many rows are live.
    count: usize,
    // The runs of the open flush, and after them those of the head.
    kept: Vec<Run>,
    // How many rows they have.
    kept_rows: usize,
    // How many of the runs are the flush's, and how many rows those have.
    flushing: usize,
    flush_rows: usize,
}

impl Model for Live {
    ghost use Rattle.std.specs.Prelude.{take, drop, ◌+◌, ◌-◌, ◌++◌};
    ghost use Rattle.std.specs.Vec.{vec_len, vec_capacity};
    ghost use Rattle.live_traces.specs.Rows.{run_rows};
    ghost use Rattle.live_traces.specs.Parts.{LiveParts, live_of, arrivals_of};
    ghost use Rattle.live_traces.specs.Whole.{AreWhole};

    ghost Value = { LiveParts };

    ghost view = { λ l. record { live = live_of l.entries.items ++ arrivals_of l.arrivals.items; head = run_rows (drop l.flushing l.kept.items); flushing = run_rows (take l.flushing l.kept.items); spare = vec_capacity l.arrivals - vec_len l.arrivals; room = 18446744073709551615 - (l.count + l.kept_rows) } };

    ghost invariant = { λ l. AreWhole l.entries.items l.arrivals.items l.count l.kept.items l.kept_rows l.flushing l.flush_rows };
}

impl Live {
    /// No rows of any kind.
    pub fn new(alloc: Global) -> Live
        ensures { (result.live ≡ []) × (result.head ≡ []) × (result.flushing ≡ []) }
    {
        let entries = Vec::new(alloc);
        let arrivals = Vec::new(alloc);
        let kept = Vec::new(alloc);
        Live {
            entries,
            arrivals,
            count: 0,
            kept,
            kept_rows: 0,
            flushing: 0,
            flush_rows: 0,
        }
    }

    /// Makes room for a push. Out of memory, the batch is handed back.
    pub fn reserve(&mut self, number: u64, batch: Batch) -> Result<Ready, (Memory, Batch)>
        ensures ready { IfOk result (λ ready. (ready.number ≡ number) × (ready.spans ≡ batch.spans)
            × HasRoom self.new (length ready.spans)) }
        ensures refused { IfErr result (λ e. e.1 ≡ batch) }
        ensures same { (self.new.live ≡ self.old.live) × (self.new.head ≡ self.old.head)
            × (self.new.flushing ≡ self.old.flushing) }
    {
        let alloc = *self.kept.allocator();
        let held = self.count + self.kept_rows;
        if batch.spans.len() > usize::MAX - held {
            return Err((Memory, batch));
        }
        match self.arrivals.reserve(1) {
            Ok(()) => {}
            Err(_) => return Err((Memory, batch)),
        }
        match Chunk::of(alloc, number, batch) {
            Ok(chunk) => Ok(Ready { chunk }),
            Err(batch) => Err((Memory, batch)),
        }
    }

    /// Adds the rows of a push with its moment, for which room was made since anything was added. It takes no memory.
    pub fn add(&mut self, ready: Ready, moment: u64)
        requires { HasRoom self.now (length ready.spans) }
        ensures added { self.new.live
            ≡ self.old.live ++ arrived moment (batch_rows ready.number ready.spans) }
        ensures same { (self.new.head ≡ self.old.head) × (self.new.flushing ≡ self.old.flushing) }
        ensures spent { self.new.spare + 1 ≡ self.old.spare }
    {
        let chunk = ready.chunk;
        let more = chunk.len() as usize;
        self.arrivals.push_reserved(Arrival { chunk, moment });
        self.count += more;
    }

    /// Drops the rows of the flush. It takes no memory.
    #[tactic(auto, using(crate::proofs::LiveRows::both_lengths))]
    pub fn end_flush(&mut self)
        ensures gone { self.new.flushing ≡ [] }
        ensures same { (self.new.live ≡ self.old.live) × (self.new.head ≡ self.old.head) }
    {
        let flushed = mem::replace(&mut self.flushing, 0);
        let rows = mem::replace(&mut self.flush_rows, 0);
        let rest = self.kept.len() - flushed;
        self.kept.rotate_left(flushed);
        self.kept.truncate(rest);
        self.kept_rows -= rows;
    }

    /// Puts the rows of the flush back in front of the head. It takes no memory.
    pub fn undo_flush(&mut self)
        ensures gone { self.new.flushing ≡ [] }
        ensures back { self.new.head ≡ self.old.flushing ++ self.old.head }
        ensures same { self.new.live ≡ self.old.live }
    {
        self.flushing = 0;
        self.flush_rows = 0;
    }

    /// How many rows there are in all three parts, repeats among them.
    #[tactic(auto, using(crate::proofs::LiveRows::both_lengths))]
    pub fn held(&self) -> u64
        ensures { result ≡ length self.now.flushing + length self.now.head + length self.now.live }
    {
        (self.count + self.kept_rows) as u64
    }

    /// How many rows the head has.
    #[tactic(auto, using(crate::proofs::LiveRows::both_lengths))]
    pub fn head_len(&self) -> u64
        ensures { result ≡ length self.now.head }
    {
        (self.kept_rows - self.flush_rows) as u64
    }

    /// Takes the first rows of the head for a flush.
    pub fn take_head(&mut self, most: u32) -> Result<Runs, Memory>
        requires { self.now.flushing ≡ [] }
        ensures taken { IfOk result
            (λ rows. (rows ≡ take most self.old.head) × (self.new.flushing ≡ rows)
            × (self.new.head ≡ drop most self.old.head)) }
        ensures refused { OnErr result
            ((self.new.flushing ≡ []) × (self.new.head ≡ self.old.head)) }
        ensures same { self.new.live ≡ self.old.live }
    {
        let alloc = *self.kept.allocator();
        let most = most as usize;
        let (front, back) = split_runs(alloc, self.kept.as_slice(), most)?;
        let runs = copies_of_runs(alloc, front.as_slice())?;
        let size = front.len();
        self.kept = joined(front, back)?;
        self.flushing = size;
        self.flush_rows = self.kept_rows.min(most);
        Ok(Runs::of(runs, Vec::new(alloc), Vec::new(alloc)))
    }

    /// Moves all live rows to the head, by trace and then place, and answers how many.
    pub fn cut_all(&mut self) -> Result<u64, Memory>
        ensures moved { IfOk result
            (λ count. (moved : List Row) × AreMoved (λ entry. true) self.old.live moved
            × (count ≡ length moved) × (self.new.head ≡ self.old.head ++ moved)
            × (self.new.live ≡ filter (λ entry. not true) self.old.live)) }
        ensures refused { OnErr result
            ((self.new.live ≡ self.old.live) × (self.new.head ≡ self.old.head)) }
        ensures same { self.new.flushing ≡ self.old.flushing }
    {
        let count = self.cut(None)?;
        Ok(count)
    }

    /// Moves the traces to the head that had no push for ten seconds before the moment, by trace and then place, and answers
    /// how many rows it moved.
    pub fn cut_idle(&mut self, moment: u64) -> Result<u64, Memory>
        ensures moved { IfOk result (λ count. (moved : List Row)
            × AreMoved (is_idle moment self.old.live) self.old.live moved
            × (count ≡ length moved) × (self.new.head ≡ self.old.head ++ moved)
            × (self.new.live ≡ filter
            (λ entry. not (is_idle moment self.old.live entry)) self.old.live)) }
        ensures refused { OnErr result
            ((self.new.live ≡ self.old.live) × (self.new.head ≡ self.old.head)) }
        ensures same { self.new.flushing ≡ self.old.flushing }
    {
        let count = self.cut(Some(moment))?;
        Ok(count)
    }

    // Moves the live rows that go.
    fn cut(&mut self, idle: Option<u64>) -> Result<u64, Memory>
        ensures moved { IfOk result
            (λ count. (moved : List Row) × AreMoved (goes idle self.old.live) self.old.live moved
            × (count ≡ length moved) × (self.new.head ≡ self.old.head ++ moved)
            × (self.new.live ≡ filter
            (λ entry. not (goes idle self.old.live entry)) self.old.live)) }
        ensures refused { OnErr result
            ((self.new.live ≡ self.old.live) × (self.new.head ≡ self.old.head)) }
        ensures same { self.new.flushing ≡ self.old.flushing }
    {
        let alloc = *self.kept.allocator();
        let entries = self.entries.as_slice();
        let (moved, stay) = parts(alloc, entries, self.arrivals.as_slice(), idle)?;
        let moved = in_order(moved);
        let count = moved.len();
        add_run(alloc, &mut self.kept, moved)?;
        self.entries = stay;
        self.arrivals.truncate(0);
        self.count -= count;
        self.kept_rows += count;
        Ok(count as u64)
    }

    /// All rows: those of the flush, of the head, then the live ones. It costs the number of runs, and copies no span.
    pub fn runs(&self) -> Result<Runs, Memory>
        ensures { IfOk result
            (λ runs. runs ≡ self.now.flushing ++ self.now.head ++ live_rows self.now.live) }
    {
        let alloc = *self.kept.allocator();
        let runs = copies_of_runs(alloc, self.kept.as_slice())?;
        let rests = rests_of(alloc, self.entries.as_slice())?;
        let pushes = pushes_of(alloc, self.arrivals.as_slice())?;
        Ok(Runs::of(runs, rests, pushes))
    }

    /// The least number of a push among the rows of the head and the live ones; none where there are none.
    pub fn least_number(&self) -> Option<u64>
        ensures { result ≡ least_number (self.now.head ++ live_rows self.now.live) }
    {
        let (_, head) = self.kept.as_slice().split_at(self.flushing);
        let least = least_of_runs(None, head);
        let least = least_of_entries(least, self.entries.as_slice());
        least_of_arrivals(least, self.arrivals.as_slice())
    }
}

// Two lists of runs: the first has so many rows, or all that there are, and the second has the others.
fn split_runs(alloc: Global, runs: &[Run], most: usize) -> Result<(Vec<Run>, Vec<Run>), Memory>
    ensures { IfOk result (λ parts. (run_rows parts.0.items ≡ take most (run_rows runs.now))
        × (run_rows parts.1.items ≡ drop most (run_rows runs.now))) }
{
    let mut front = Vec::new(alloc);
    let mut back = Vec::new(alloc);
    let mut left = most;
    for run in runs {
        let size = run.len().min(left);
        let (first, others) = run.split(size)?;
        put_run(&mut front, first)?;
        put_run(&mut back, others)?;
        left -= size;
    }
    Ok((front, back))
}

// Adds a run that has rows.
fn put_run(runs: &mut Vec<Run>, run: Run) -> Result<(), Memory>
    ensures { OnOk result (run_rows runs.new.items ≡ run_rows runs.old.items ++ run) }
{
    if run.len() == 0 {
        return Ok(());
    }
    runs.push(run)?;
    Ok(())
}

// All runs of two lists.
fn joined(front: Vec<Run>, back: Vec<Run>) -> Result<Vec<Run>, Memory>
    ensures { IfOk result (λ all. all.items ≡ front.items ++ back.items) }
{
    let mut front = front;
    let mut back = back;
    front.append(&mut back)?;
    Ok(front)
}

// The same runs again.
fn copies_of_runs(alloc: Global, runs: &[Run]) -> Result<Vec<Run>, Memory>
    ensures { IfOk result (λ all. all.items ≡ runs.now) }
{
    let mut all = Vec::new(alloc);
    for run in runs {
        all.push(run.copy()?)?;
    }
    Ok(all)
}

// The rows of entries.
fn rests_of(alloc: Global, entries: &[Entry]) -> Result<Vec<Rest>, Memory>
    ensures { IfOk result (λ rests. run_rows rests.items ≡ live_rows (live_of entries.now)) }
{
    let mut rests = Vec::new(alloc);
    for entry in entries {
        let run = entry.run.copy()?;
        rests.push(run)?;
    }
    Ok(rests)
}

// The pushes of arrivals.
fn pushes_of(alloc: Global, arrivals: &[Arrival]) -> Result<Vec<Chunk>, Memory>
    ensures { IfOk result
        (λ pushes. push_rows pushes.items ≡ live_rows (arrivals_of arrivals.now)) }
{
    let mut pushes = Vec::new(alloc);
    for arrival in arrivals {
        let chunk = arrival.chunk.copy()?;
        pushes.push(chunk)?;
    }
    Ok(pushes)
}

// The lesser of a number and one that was found before.
fn lower_of(found: Option<u64>, number: u64) -> Option<u64>
    ensures { result ≡ lower found number }
{
    match found {
        None => Some(number),
        Some(found) => Some(found.min(number)),
    }
}

// The least number among rows, and one that was found before.
fn least_of_rows(found: Option<u64>, rows: &[SharedRow]) -> Option<u64>
    ensures { result ≡ least_with found rows.now }
{
    let mut least = found;
    for row in rows {
        least = lower_of(least, row.place().number);
    }
    least
}

// The same among runs.
fn least_of_runs(found: Option<u64>, runs: &[Run]) -> Option<u64>
    ensures { result ≡ least_with found (run_rows runs.now) }
{
    let mut least = found;
    for run in runs {
        least = least_of_rows(least, run.as_slice());
    }
    least
}

// The same among entries.
fn least_of_entries(found: Option<u64>, entries: &[Entry]) -> Option<u64>
    ensures { result ≡ least_with found (live_rows (live_of entries.now)) }
{
    let mut least = found;
    for entry in entries {
        least = least_of_rows(least, entry.run.as_slice());
    }
    least
}

// The same among pushes, whose rows have one number each.
fn least_of_arrivals(found: Option<u64>, arrivals: &[Arrival]) -> Option<u64>
    ensures { result ≡ least_with found (live_rows (arrivals_of arrivals.now)) }
{
    let mut least = found;
    for arrival in arrivals {
        least = least_of_chunk(least, &arrival.chunk);
    }
    least
}

// The same among the rows of one push.
fn least_of_chunk(found: Option<u64>, chunk: &Chunk) -> Option<u64>
    ensures { result ≡ least_with found (chunk_rows chunk.now) }
{
    if chunk.len() == 0 {
        return found;
    }
    lower_of(found, chunk.place(0).number)
}
