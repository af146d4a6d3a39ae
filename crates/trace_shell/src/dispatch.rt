//! What the words of the command line say is done, on the store of a disk.

ghost use Rattle.std.specs.Prelude.{true, false, ◌≡◌, ◌≢◌, List, Option, [], map, string_bytes, ℕ, IsTrue};
ghost use Rattle.command_words.specs.Commands.{Command, Spells, command_of};
ghost use Rattle.command_words.specs.Numbers.{word_faults};
ghost use Rattle.command_words.specs.Spelling.{begins_to_serve};
ghost use Rattle.io_edges.specs.Lines.{taken_limit};
ghost use Rattle.io_edges.specs.Reader.{TakesBytes};
ghost use Rattle.span_types.specs.Faults.{Rose};
ghost use Rattle.store_core.specs.Opening.{LeavesAlone, StoreBreaks};
ghost use Rattle.store_core.specs.Port.{port_of};
ghost use Rattle.store_images.specs.Stored.{IsSoundImage};
ghost use Rattle.store_model.specs.Holds.{Hold};
ghost use Rattle.session_text.specs.declared.reply.Reply.{Reply};
ghost use Rattle.session_meaning.specs.Act.{Act};
ghost use Rattle.session_meaning.specs.declared.ending.Ending.TheVariants.{NotOpened, ReadFault, Spent, WriteFault};
ghost use Rattle.session_meaning.specs.Runs.{IsForOne, IsPastOpening, IsRunOf, Outcome, TakesNothing, edges};
ghost use Rattle.session_meaning.specs.Stops.{FindsBytes, Recovers};
ghost use Rattle.traceql_types.specs.Makers.{RefusesOnly};
ghost use Rattle.trace_shell.specs.Turn.{CameOver, HasDone, IsRefusedStore};

use crate::drilling::drill;
use crate::ingesting::ingest;
use crate::session::{one_line, session};
use command_words::{Asked, WordsError, read_words};
use disk_model::Device;
use io_edges::{Clock, Gate, Sink, Source};
use session_meaning::Ending;
use session_text::{Refusal, Reply, write_reply};
use span_types::{Failed, Memory};
use std::alloc::Global;
use std::thread::Threads;
use store_core::Core;
use store_files::OpenError;
use store_reopen::Store;
use traceql_types::PatternMaker;

/// Does what the words say that ask for one client, and tells how it ended. The disk is handed back.
pub(crate) fn dispatch<
    R: Threads + Sync,
    S: Source,
    K: Sink,
    D: Device,
    C: Clock,
    P: PatternMaker,
    G: Gate,
>(
    rt: &R,
    alloc: Global,
    words: &[String],
    source: &mut S,
    sink: &mut K,
    disk: D,
    clock: &mut C,
    patterns: &mut P,
    gate: &G,
) -> (Ending, D)
    requires { begins_to_serve (map string_bytes words.now) ≡ false }
    ensures ran { (o : Outcome) × (o.ending ≡ result.0)
        × RefusesOnly P.makes patterns.old patterns.new o.refused
        × IsRunOf false (map string_bytes words.now) o
        (edges S.left S.faults K.taken K.faults C.moments D.Device.own source.old sink.old clock.old disk)
        (edges S.left S.faults K.taken K.faults C.moments D.Device.own source.new sink.new clock.new result.1)
        × FindsBytes D.Device.own disk result.1 o }
    ensures recovers { IsTrue (D.tells disk) → IsSoundImage (D.held disk)
        → (o : Outcome) × (o.ending ≡ result.0)
        × RefusesOnly P.makes patterns.old patterns.new o.refused
        × IsRunOf true (map string_bytes words.now) o
        (edges S.left S.faults K.taken K.faults C.moments D.Device.own source.old sink.old clock.old disk)
        (edges S.left S.faults K.taken K.faults C.moments D.Device.own source.new sink.new clock.new result.1)
        × Recovers D.Device.own disk result.1 o }
    ensures nothing_done { word_faults (map string_bytes words.now) ≢ []
        → (source.new ≡ source.old) × (sink.new ≡ sink.old) × (result.1 ≡ disk)
        × (clock.new ≡ clock.old)
        × (patterns.new ≡ patterns.old) }
    ensures left { IsTrue (D.tells disk) → (file at : ℕ) → StoreBreaks (D.held disk) file at
        → result.0 ≢ NotOpened
        → LeavesAlone D.Device.own disk result.1 }
    ensures unread { (IsPastOpening result.0 → ⊥) → source.new ≡ source.old }
    ensures alone { (c : Command) → TakesNothing c → Spells (map string_bytes words.now) c
        → source.new ≡ source.old }
{
    match read_words(alloc, words) {
        Ok(asked) => on_store(rt, alloc, asked, source, sink, disk, clock, patterns, gate),
        Err(WordsError::Refused) => (Ending::BadWords, disk),
        Err(WordsError::Memory) => (Ending::Starved, disk),
    }
}

// Opens the store of the disk, does what is asked, and closes it.
fn on_store<R: Threads + Sync, S: Source, K: Sink, D: Device, C: Clock, P: PatternMaker, G: Gate>(
    rt: &R,
    alloc: Global,
    asked: Asked,
    source: &mut S,
    sink: &mut K,
    disk: D,
    clock: &mut C,
    patterns: &mut P,
    gate: &G,
) -> (Ending, D)
    requires { IsForOne (command_of asked) }
    ensures ran { (o : Outcome) × (o.ending ≡ result.0)
        × RefusesOnly P.makes patterns.old patterns.new o.refused
        × HasDone false (command_of asked) o
        (edges S.left S.faults K.taken K.faults C.moments D.Device.own source.old sink.old clock.old disk)
        (edges S.left S.faults K.taken K.faults C.moments D.Device.own source.new sink.new clock.new result.1)
        × FindsBytes D.Device.own disk result.1 o }
    ensures recovers { IsTrue (D.tells disk) → IsSoundImage (D.held disk)
        → (o : Outcome) × (o.ending ≡ result.0)
        × RefusesOnly P.makes patterns.old patterns.new o.refused
        × HasDone true (command_of asked) o
        (edges S.left S.faults K.taken K.faults C.moments D.Device.own source.old sink.old clock.old disk)
        (edges S.left S.faults K.taken K.faults C.moments D.Device.own source.new sink.new clock.new result.1)
        × Recovers D.Device.own disk result.1 o }
    ensures left { IsTrue (D.tells disk) → (file at : ℕ) → StoreBreaks (D.held disk) file at
        → result.0 ≢ NotOpened
        → LeavesAlone D.Device.own disk result.1 }
    ensures unread { (IsPastOpening result.0 → ⊥) → source.new ≡ source.old }
    ensures alone { TakesNothing (command_of asked) → source.new ≡ source.old }
{
    let moment = clock.now();
    match Core::open_store(alloc, disk, moment) {
        Ok(core) => {
            let (ending, store) = do_asked(
                rt, alloc, asked, source, sink, core, clock, patterns, gate,
            );
            (ending, store.into_disk())
        }
        Err((error, disk)) => (refuse_store(alloc, sink, error), disk),
    }
}

// Does what is asked over a core that was opened. A session may close it; the others don't.
fn do_asked<R: Threads + Sync, S: Source, K: Sink, D: Device, C: Clock, P: PatternMaker, G: Gate>(
    rt: &R,
    alloc: Global,
    asked: Asked,
    source: &mut S,
    sink: &mut K,
    core: Core<D>,
    clock: &mut C,
    patterns: &mut P,
    gate: &G,
) -> (Ending, Store<D>)
    requires holds { (held : List Hold) × (port_of D.Device.own).holds core held }
    requires one { IsForOne (command_of asked) }
    ensures came { (acts : List Act) × (replies : List Reply) × (blamed : List (List ℕ))
        × RefusesOnly P.makes patterns.old patterns.new blamed
        × CameOver (command_of asked) D.Device.own core result.1 (S.left source.old)
        (K.taken sink.old) (C.moments clock.old)
        (S.left source.new) (K.taken sink.new) (C.moments clock.new) result.0 acts replies blamed }
    ensures write_fault { result.0 ≡ WriteFault → Rose (K.faults sink.old) (K.faults sink.new) }
    ensures read_fault { result.0 ≡ ReadFault → Rose (S.faults source.old) (S.faults source.new) }
    ensures spent { result.0 ≡ Spent
        → TakesBytes (S.left source.old) (S.left source.new) 0 taken_limit }
    ensures endings { IsPastOpening result.0 }
    ensures alone { TakesNothing (command_of asked) → source.new ≡ source.old }
{
    match asked {
        Asked::Session => session(
            rt,
            alloc,
            source,
            sink,
            Store::Open(core),
            clock,
            patterns,
            gate,
        ),
        Asked::Serve { .. } => unreachable!(),
        Asked::Ingest => {
            let mut core = core;
            let ending = ingest(rt, alloc, source, sink, &mut core, clock, gate);
            (ending, Store::Open(core))
        }
        Asked::Drill { seed, traces } => {
            let mut core = core;
            let ending = drill(
                rt, alloc, sink, &mut core, clock, patterns, gate, seed, traces,
            );
            (ending, Store::Open(core))
        }
        Asked::Alone { line } => {
            let mut core = core;
            let ending = one_line(
                rt,
                alloc,
                sink,
                &mut core,
                clock,
                patterns,
                gate,
                line.as_str().as_bytes(),
            );
            (ending, Store::Open(core))
        }
    }
}

// Tells why the store wasn't opened where its bytes are no store's, and how the run ends.
pub(crate) fn refuse_store<K: Sink>(alloc: Global, sink: &mut K, error: OpenError) -> Ending
    ensures told { IsRefusedStore error result (K.taken sink.old) (K.taken sink.new) }
    ensures write_fault { result ≡ WriteFault → Rose (K.faults sink.old) (K.faults sink.new) }
{
    let (file, at) = match error {
        OpenError::Fault => return Ending::NotOpened,
        OpenError::Memory => return Ending::Starved,
        OpenError::NotStore { file, at } => (file, at),
    };
    let text = match write_reply(alloc, &Reply::Refused(Refusal::NotStore { file, at })) {
        Ok(text) => text,
        Err(Memory) => return Ending::Starved,
    };
    match sink.put(text.as_str().as_bytes()) {
        Ok(()) => Ending::NotStore { file, at },
        Err(Failed) => Ending::WriteFault,
    }
}
