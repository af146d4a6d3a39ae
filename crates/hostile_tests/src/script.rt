//! Stores over a disk, played by a script: each is opened, played and closed in one function.

ghost use Rattle.std.specs.Prelude.{List};
ghost use Rattle.store_model.specs.Holds.{Hold};

use crate::spans::{TRACE, are_of, batch};
use compactor::compact_round;
use disk_model::{Device, MemDisk};
use flusher::flush_round;
use query_fanout::{QueryError, TraceAnswer, find_trace};
use std::alloc::Global;
use store_core::{Core, a_shown_core_is_a_port};
use store_files::OpenError;
use store_state::{FlushPort, LookPort, Port, Round};

/// A step of a script, which is answered as it is without faults, or otherwise.
#[derive(Clone, Copy)]
pub(crate) enum Step {
    /// The push of this number.
    Push(u8),
    /// All rows go to a block: the one row that waits.
    Flush,
    /// Two blocks of one row each become one.
    Compact,
    /// Four loose files are emptied.
    Reclaim,
    /// A look-up of the trace finds this.
    Finds(Found),
}

/// Each push goes to a block of its own, and these to one.
pub(crate) const WORKED: [Step; 5] = [
    Step::Push(0),
    Step::Flush,
    Step::Push(1),
    Step::Flush,
    Step::Compact,
];

/// How a script went.
#[derive(Clone, Copy)]
pub(crate) struct Played {
    /// How many pushes were acknowledged.
    pub(crate) acknowledged: u64,
    /// Whether each step was answered as it is without faults.
    pub(crate) is_fine: bool,
}

fn pushes<P: LookPort>(alloc: Global, port: &mut P, number: u8) -> bool
    ensures { ((held : List Hold) × P.meaning.holds port.old held) →
        (held : List Hold) × P.meaning.holds port.new held }
{
    match batch(alloc, number) {
        Ok(batch) => port.push(batch, 6) == Ok(u64::from(number)),
        Err(_) => false,
    }
}

fn flushes<P: Port>(alloc: Global, port: &mut P) -> bool
    requires { (held : List Hold) × P.meaning.holds port.old held }
    ensures { (held : List Hold) × P.meaning.holds port.new held }
{
    let _moved = port.cut_all();
    let round = flush_round(alloc, port);
    round == Round::Did { blocks: 1, rows: 1 }
}

fn joins<P: Port>(alloc: Global, port: &mut P) -> bool
    requires { (held : List Hold) × P.meaning.holds port.old held }
    ensures { (held : List Hold) × P.meaning.holds port.new held }
{
    let round = compact_round(alloc, port);
    round == Round::Did { blocks: 2, rows: 2 }
}

fn reclaims<P: Port>(port: &mut P) -> bool
    requires { (held : List Hold) × P.meaning.holds port.old held }
    ensures { (held : List Hold) × P.meaning.holds port.new held }
{
    let emptied = port.reclaim();
    emptied == Ok(4)
}

// Whether a step is answered as it is without faults.
fn play<P: Port>(alloc: Global, port: &mut P, step: Step) -> bool
    requires { (held : List Hold) × P.meaning.holds port.old held }
    ensures { (held : List Hold) × P.meaning.holds port.new held }
{
    match step {
        Step::Push(number) => pushes(alloc, port, number),
        Step::Flush => flushes(alloc, port),
        Step::Compact => joins(alloc, port),
        Step::Reclaim => reclaims(port),
        Step::Finds(found) => looked_up(alloc, port) == found,
    }
}

fn plays<P: Port>(alloc: Global, port: &mut P, steps: &[Step]) -> Played
    requires { (held : List Hold) × P.meaning.holds port.old held }
    ensures { (held : List Hold) × P.meaning.holds port.new held }
{
    let mut acknowledged = 0u64;
    let mut is_fine = true;
    for step in steps {
        let fine = play(alloc, port, *step);
        let is_push = matches!(step, Step::Push(_));
        acknowledged = acknowledged.saturating_add(u64::from(fine && is_push));
        is_fine &= fine;
    }
    Played {
        acknowledged,
        is_fine,
    }
}

/// How a script goes in the store that a disk holds, none if it isn't opened, and the disk.
pub(crate) fn played_on<D: Device>(alloc: Global, disk: D, steps: &[Step]) -> (Option<Played>, D) {
    match Core::open_store(alloc, disk, 7) {
        Ok(core) => {
            let mut core = core;
            a_shown_core_is_a_port(&core);
            let played = plays(alloc, &mut core, steps);
            (Some(played), core.close())
        }
        Err((_, disk)) => (None, disk),
    }
}

/// Whether the store was opened, and each step was answered as it is without faults.
pub(crate) fn is_fine(played: Option<Played>) -> bool {
    matches!(played, Some(Played { is_fine: true, .. }))
}

/// The disk of a new store after these steps. None if one of them is answered otherwise.
pub(crate) fn made(alloc: Global, steps: &[Step]) -> Option<MemDisk> {
    let (played, disk) = played_on(alloc, MemDisk::empty(alloc), steps);
    is_fine(played).then_some(disk)
}

/// What a look-up of the trace finds.
#[derive(Clone, Copy, PartialEq, Eq)]
pub(crate) enum Found {
    /// So many entries, of each of which it has the row.
    Entries(u64),
    /// That the disk has no store: a file is malformed at this byte.
    NotStore { file: u32, at: u64 },
    /// That a block is none: its file is malformed at this byte.
    NotBlock { file: u32, at: u64 },
    /// Something else.
    Other,
}

// What is told by an answer.
fn told_by(answer: &TraceAnswer) -> Found {
    if are_of(&answer.rows, answer.as_of) {
        Found::Entries(answer.as_of)
    } else {
        Found::Other
    }
}

// What is told by the answer to a look-up, or by its refusal.
fn told(answer: Result<TraceAnswer, QueryError>) -> Found {
    match answer {
        Ok(answer) => told_by(&answer),
        Err(QueryError::NotBlock { file, at }) => Found::NotBlock { file, at },
        Err(_) => Found::Other,
    }
}

// What a look-up of the trace finds in an open store.
fn looked_up<P: FlushPort>(alloc: Global, port: &mut P) -> Found
    requires { (held : List Hold) × P.meaning.holds port.old held }
    ensures { (held : List Hold) × P.meaning.holds port.new held }
{
    let answer = find_trace(alloc, port, TRACE);
    told(answer)
}

/// What a look-up finds in the store that a disk holds, or why it isn't opened, and the disk.
pub(crate) fn found_on<D: Device>(alloc: Global, disk: D) -> (Found, D) {
    match Core::open_store(alloc, disk, 7) {
        Ok(core) => {
            let mut core = core;
            a_shown_core_is_a_port(&core);
            let found = looked_up(alloc, &mut core);
            (found, core.close())
        }
        Err((OpenError::NotStore { file, at }, disk)) => (Found::NotStore { file, at }, disk),
        Err((_, disk)) => (Found::Other, disk),
    }
}
