//! The top call: what `main` runs. It reads the words, does what they say, and ends with a status; the disk is handed
//! back.

ghost use Rattle.std.specs.Prelude.{true, false, ◌≡◌, ◌≢◌, ◌⊎◌, List, [], map, string_bytes, ℕ, IsTrue};
ghost use Rattle.std.specs.Process.{exit_status};
ghost use Rattle.client_scripts.specs.Served.{AllBlameNone};
ghost use Rattle.command_words.specs.Commands.{Command, Spells};
ghost use Rattle.command_words.specs.Numbers.{word_faults};
ghost use Rattle.command_words.specs.Spelling.{begins_to_serve};
ghost use Rattle.session_meaning.specs.Runs.{IsRunOf, Outcome, TakesNothing, edges};
ghost use Rattle.session_meaning.specs.ServedRuns.{RecoversServed, Served, ServesAs};
ghost use Rattle.session_meaning.specs.Statuses.{status_of};
ghost use Rattle.session_meaning.specs.Stops.{FindsBytes, Recovers};
ghost use Rattle.store_core.specs.Opening.{LeavesAlone, StoreBreaks};
ghost use Rattle.store_images.specs.Stored.{IsSoundImage};
ghost use Rattle.traceql_types.specs.Makers.{RefusesOnly};

use crate::dispatch::dispatch;
use crate::serving::serve_words;
use command_words::asks_to_serve;
use disk_model::Device;
use io_edges::{Clock, Gate, Sink, Source};
use std::alloc::Global;
use std::process::ExitCode;
use std::sync::Wait;
use std::thread::Threads;
use traceql_types::PatternMaker;

/// How a run ended, and the disk that it was given.
#[derive(Debug)]
pub struct Ended<D> {
    /// The program's exit status.
    pub status: u8,
    /// The disk.
    pub disk: D,
}

/// The exit code of a program that ended so. The disk is let go.
pub fn exit_code<D: Drop>(ended: Ended<D>) -> ExitCode
    ensures { exit_status result ≡ ended.status }
{
    let Ended {
        status,
        disk: _disk,
    } = ended;
    ExitCode::from(status)
}

/// Does what the words of the command line say on the store of the disk: `session` answers each line of the source, and
/// at each line `reopen` closes the store and opens it again; `ingest` pushes each line and keeps the store up; `drill`
/// pushes lines that it makes from a seed, keeps the store up and searches it; `trace ID` answers the one line
/// `trace ID`, and `search QUERY` with its options the one line that these make. The store is opened at the clock's first
/// moment, in nanoseconds, and a new one is made on a disk that has none; the clock is then asked once for each line that
/// has bytes. The disk is handed back as the store left it. No right to wait is needed; the words of `serve`, which needs
/// one, are for `run` alone.
pub fn run_alone<
    R: Threads + Sync,
    S: Source,
    K: Sink,
    D: Device,
    C: Clock,
    P: PatternMaker,
    G: Gate,
>(
    rt: &R,
    alloc: Global,
    words: &[String],
    source: &mut S,
    sink: &mut K,
    disk: D,
    clock: &mut C,
    patterns: &mut P,
    gate: &G,
) -> Ended<D>
    requires { begins_to_serve (map string_bytes words.now) ≡ false }
    // What the words ask was done, the maker refused what the outcome says, and the status tells how it ended. Queries
    // tell of all rows outside of blocks; what they find in blocks isn't said. Where the disk shows its bytes, whatever
    // they are, an opening again is refused for bytes that break and that a crash may have left since the run began, and
    // if the store is closed for them at the end, the disk that is handed back holds them.
    ensures ran { (o : Outcome) × RefusesOnly P.makes patterns.old patterns.new o.refused
        × IsRunOf false (map string_bytes words.now) o
        (edges S.left S.faults K.taken K.faults C.moments D.Device.own source.old sink.old clock.old disk)
        (edges S.left S.faults K.taken K.faults C.moments D.Device.own source.new sink.new clock.new result.disk)
        × (result.status ≡ status_of o.ending) × FindsBytes D.Device.own disk result.disk o }
    // Over a disk whose bytes are shown and are a store's: it was done from what they store on, queries tell of all
    // that was pushed, wherever it lies, and what is stored as the disk is handed back, also if each of its calls failed
    // from some on, holds every push that was accepted by then; at any other moment it is a front of that. If the store
    // still writes at the end, and no opening failed in a
    // call of the disk since it was last open, what upkeep was told to have done stands on the disk.
    ensures recovers { IsTrue (D.tells disk) → IsSoundImage (D.held disk)
        → (o : Outcome) × RefusesOnly P.makes patterns.old patterns.new o.refused
        × IsRunOf true (map string_bytes words.now) o
        (edges S.left S.faults K.taken K.faults C.moments D.Device.own source.old sink.old clock.old disk)
        (edges S.left S.faults K.taken K.faults C.moments D.Device.own source.new sink.new clock.new result.disk)
        × (result.status ≡ status_of o.ending) × Recovers D.Device.own disk result.disk o }
    // Nothing is done for faulty words: those at which `clap` finds a fault, or with a number out of its range.
    ensures nothing_done { word_faults (map string_bytes words.now) ≢ []
        → (source.new ≡ source.old) × (sink.new ≡ sink.old) × (result.disk ≡ disk)
        × (clock.new ≡ clock.old)
        × (patterns.new ≡ patterns.old) }
    // Bytes that break, and so aren't opened, are left alone unless a call of the disk failed as they were read: at
    // most a vacant slot of the list is cut to its first byte.
    ensures left { IsTrue (D.tells disk) → (file at : ℕ) → StoreBreaks (D.held disk) file at
        → result.status ≢ 4
        → LeavesAlone D.Device.own disk result.disk }
    // Where the disk failed as the store was opened, or its bytes broke, nothing was taken of the source.
    ensures unread { (result.status ≡ 4) ⊎ (result.status ≡ 5) → source.new ≡ source.old }
    // A command that answers one line alone takes nothing of the source, and nor does a drill.
    ensures alone { (c : Command) → TakesNothing c → Spells (map string_bytes words.now) c
        → source.new ≡ source.old }
{
    let (ending, disk) = dispatch(rt, alloc, words, source, sink, disk, clock, patterns, gate);
    Ended {
        status: ending.status(),
        disk,
    }
}

/// The top call. Words that begin with `serve` answer several clients at once: all lines of the source are read first,
/// each `c request` for client `c`; the clients' scripts are then answered over one store, each on a thread of its own,
/// beside two that keep the store up; and the replies are written client by client. Each line that has bytes and each
/// request of upkeep asks the clock once. All other words do what `run_alone` does.
pub fn run<
    R: Threads + Wait + Sync,
    S: Source,
    K: Sink,
    D: Device + Drop + Send,
    C: Clock,
    P: PatternMaker,
    G: Gate,
>(
    rt: &R,
    alloc: Global,
    words: &[String],
    source: &mut S,
    sink: &mut K,
    disk: D,
    clock: &mut C,
    patterns: &mut P,
    gate: &G,
) -> Ended<D>
    // What the words ask was done, the maker refused what the outcome says, and the status tells how it ended: clients
    // were served, or one was. Queries tell of all rows outside of blocks; what they find in blocks isn't said. If the
    // disk shows its bytes, whatever they are, no request of several clients is told of a block that it is none. Then,
    // for one client, an opening again is refused for bytes that break and that a crash may have left since the run
    // began, and if the store is closed for them at the end, the disk that is handed back holds them.
    ensures ran { ((o : Outcome) × RefusesOnly P.makes patterns.old patterns.new o.refused
        × IsRunOf false (map string_bytes words.now) o
        (edges S.left S.faults K.taken K.faults C.moments D.Device.own source.old sink.old clock.old disk)
        (edges S.left S.faults K.taken K.faults C.moments D.Device.own source.new sink.new clock.new result.disk)
        × (result.status ≡ status_of o.ending) × FindsBytes D.Device.own disk result.disk o)
        ⊎ ((s : Served) × RefusesOnly P.makes patterns.old patterns.new s.refused
        × ServesAs false (map string_bytes words.now) s
        (edges S.left S.faults K.taken K.faults C.moments D.Device.own source.old sink.old clock.old disk)
        (edges S.left S.faults K.taken K.faults C.moments D.Device.own source.new sink.new clock.new result.disk)
        × (result.status ≡ status_of s.ending)
        × (IsTrue (D.tells disk) → AllBlameNone s.scripts s.answers)) }
    // Over a disk whose bytes are shown and are a store's: it was done from what they store on, queries tell of all
    // that was pushed, wherever it lies, and what is stored as the disk is handed back, also if each of its calls failed
    // from some on, holds every push that was accepted by then; at any other moment it is a front of that. If the store
    // still writes at the end, and no opening failed in a
    // call of the disk since it was last open, what upkeep was told to have done stands on the disk.
    ensures recovers { IsTrue (D.tells disk) → IsSoundImage (D.held disk)
        → ((o : Outcome) × RefusesOnly P.makes patterns.old patterns.new o.refused
        × IsRunOf true (map string_bytes words.now) o
        (edges S.left S.faults K.taken K.faults C.moments D.Device.own source.old sink.old clock.old disk)
        (edges S.left S.faults K.taken K.faults C.moments D.Device.own source.new sink.new clock.new result.disk)
        × (result.status ≡ status_of o.ending) × Recovers D.Device.own disk result.disk o)
        ⊎ ((s : Served) × RefusesOnly P.makes patterns.old patterns.new s.refused
        × ServesAs true (map string_bytes words.now) s
        (edges S.left S.faults K.taken K.faults C.moments D.Device.own source.old sink.old clock.old disk)
        (edges S.left S.faults K.taken K.faults C.moments D.Device.own source.new sink.new clock.new result.disk)
        × (result.status ≡ status_of s.ending) × RecoversServed D.Device.own disk result.disk s) }
    // Nothing is done for faulty words: those at which `clap` finds a fault, or with a number out of its range.
    ensures nothing_done { word_faults (map string_bytes words.now) ≢ []
        → (source.new ≡ source.old) × (sink.new ≡ sink.old) × (result.disk ≡ disk)
        × (clock.new ≡ clock.old)
        × (patterns.new ≡ patterns.old) }
    // Bytes that break, and so aren't opened, are left alone unless a call of the disk failed as they were read: at
    // most a vacant slot of the list is cut to its first byte.
    ensures left { IsTrue (D.tells disk) → (file at : ℕ) → StoreBreaks (D.held disk) file at
        → result.status ≢ 4
        → LeavesAlone D.Device.own disk result.disk }
    // Where the disk failed as the store was opened, or its bytes broke, nothing was taken of the source.
    ensures unread { (result.status ≡ 4) ⊎ (result.status ≡ 5) → source.new ≡ source.old }
    // A command that answers one line alone takes nothing of the source, and nor does a drill.
    ensures alone { (c : Command) → TakesNothing c → Spells (map string_bytes words.now) c
        → source.new ≡ source.old }
{
    if !asks_to_serve(words) {
        return run_alone(rt, alloc, words, source, sink, disk, clock, patterns, gate);
    }
    let (ending, disk) = serve_words(rt, alloc, words, source, sink, disk, clock, patterns, gate);
    Ended {
        status: ending.status(),
        disk,
    }
}
