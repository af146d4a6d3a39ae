//! A session: the lines of a source are answered in order over a store, each reply written before the next line is read.
//! The line `reopen` closes the store and opens it again.

ghost use Rattle.std.specs.Prelude.{false, ◌≡◌, ◌⊎◌, ◌<◌, ◌≤◌, ℕ, List, [], ◌∷◌, ◌++◌, Option, Some, None, Result, IfSome, IfNone, length};
ghost use Rattle.span_types.specs.Faults.{Rose};
ghost use Rattle.io_edges.specs.Lines.{taken_limit};
ghost use Rattle.io_edges.specs.Reader.{TakesBytes, to_come};
ghost use Rattle.store_files.specs.declared.error.OpenError.{OpenError};
ghost use Rattle.store_model.specs.Holds.{Hold};
ghost use Rattle.store_reopen.specs.Reopened.{Reopens, disk_of};
ghost use Rattle.session_text.specs.declared.reply.Reply.{Reply};
ghost use Rattle.session_text.specs.Items.{Item};
ghost use Rattle.session_text.specs.Requests.{AsksAt};
ghost use Rattle.session_meaning.specs.declared.ending.Ending.TheVariants.{Answered, ReadFault, Refused, Spent, Starved, WriteFault};
ghost use Rattle.session_meaning.specs.Act.{Act, ComesTo};
ghost use Rattle.session_meaning.specs.Asked.{AsksNext, ComesToNext, after_moment};
ghost use Rattle.session_meaning.specs.Over.{AreDoneOver, IsDoneOver, reopened_reply};
ghost use Rattle.session_meaning.specs.Progress.{HasAnsweredOne};
ghost use Rattle.session_meaning.specs.Runs.{IsPastOpening};
ghost use Rattle.session_meaning.specs.Session.{EndsAlone, is_for_memory, is_refusal};
ghost use Rattle.traceql_types.specs.Makers.{RefusesOnly};
ghost use Rattle.trace_shell.specs.Turn.{Came, HasGiven, IsAt, IsHeld, Turned, ending_of, refused_long, tally_with};

use client_run::answer_request;
use disk_model::Device;
use io_edges::{Clock, Gate, Line, LineError, LineReader, Sink, Source};
use session_meaning::Ending;
use session_text::{Refusal, Reply, is_reopen, read_request, write_reply};
use span_types::{Failed, Memory};
use std::alloc::Global;
use std::thread::Threads;
use store_files::OpenError;
use store_reopen::Store;
use store_state::{Port, Refusal as Cause};
use traceql_types::PatternMaker;

/// Which client a session is: there is no other one.
pub(crate) const CLIENT: u32 = 0;

/// Which refusals are among the replies so far.
#[derive(Clone, Copy, Debug)]
pub(crate) struct Tally {
    /// One for another cause than memory.
    refused: bool,
    /// One for memory.
    starved: bool,
}

impl Tally {
    // None is among no replies.
    pub(crate) fn new() -> Tally
        ensures { result ≡ record { refused = false; starved = false } }
    {
        Tally {
            refused: false,
            starved: false,
        }
    }

    // A session that had a refusal ends with another status, so each reply is looked at once.
    pub(crate) fn add(&mut self, reply: &Reply)
        ensures { self.new ≡ tally_with self.old reply.now }
    {
        self.refused = self.refused || is_refusal(reply);
        self.starved = self.starved || is_for_memory(reply);
    }

    // How a session ends whose input was read to its end.
    pub(crate) fn ending(&self) -> Ending
        ensures { result ≡ ending_of self.now }
    {
        if self.refused {
            Ending::Refused
        } else if self.starved {
            Ending::Starved
        } else {
            Ending::Answered
        }
    }
}

// Whether a reply is a refusal for another cause than memory.
pub(crate) fn is_refusal(reply: &Reply) -> bool
    ensures { result ≡ is_refusal reply.now }
{
    match reply {
        Reply::Refused(Refusal::Memory) => false,
        Reply::Refused(Refusal::Round(Cause::Memory)) => false,
        Reply::Refused(_) => true,
        _ => false,
    }
}

// Whether a reply is a refusal for memory.
pub(crate) fn is_for_memory(reply: &Reply) -> bool
    ensures { result ≡ is_for_memory reply.now }
{
    match reply {
        Reply::Refused(Refusal::Memory) => true,
        Reply::Refused(Refusal::Round(Cause::Memory)) => true,
        _ => false,
    }
}

/// Answers the lines of the source in order over a store, and writes each reply before it reads the next line. The
/// clock is asked once for each line that has bytes. The line `reopen` closes the store and opens it again; while it is
/// closed no other line is read. The store is handed back, open or closed.
pub(crate) fn session<
    R: Threads + Sync,
    S: Source,
    K: Sink,
    D: Device,
    C: Clock,
    P: PatternMaker,
    G: Gate,
>(
    rt: &R,
    alloc: Global,
    source: &mut S,
    sink: &mut K,
    store: Store<D>,
    clock: &mut C,
    patterns: &mut P,
    gate: &G,
) -> (Ending, Store<D>)
    requires { IsHeld D.Device.own store }
    ensures ran { (acts : List Act) × (replies : List Reply) × (blamed : List (List ℕ))
        × RefusesOnly P.makes patterns.old patterns.new blamed
        × AreDoneOver D.Device.own store acts replies result.1
        × ((text before : List ℕ) → S.left source.old ≡ Some text → K.taken sink.old ≡ Some before
        → Came (C.moments clock.old) text before (S.left source.new) (K.taken sink.new)
        (C.moments clock.new) result.0
        acts replies blamed) }
    ensures write_fault { result.0 ≡ WriteFault → Rose (K.faults sink.old) (K.faults sink.new) }
    ensures read_fault { result.0 ≡ ReadFault → Rose (S.faults source.old) (S.faults source.new) }
    ensures spent { result.0 ≡ Spent
        → TakesBytes (S.left source.old) (S.left source.new) 0 taken_limit }
    ensures endings { IsPastOpening result.0 }
{
    let mut reader = LineReader::new(alloc);
    let mut tally = Tally::new();
    let mut store = store;
    'lines: loop {
        let (ended, later) = next_line(
            rt,
            alloc,
            &mut reader,
            source,
            &mut tally,
            sink,
            store,
            clock,
            patterns,
            gate,
        );
        store = later;
        if let Some(ending) = ended {
            return (ending, store);
        }
    }
}

/// Answers one line over a store's port, and nothing else. The clock is asked once.
pub(crate) fn one_line<R: Threads + Sync, K: Sink, Q: Port, C: Clock, P: PatternMaker, G: Gate>(
    rt: &R,
    alloc: Global,
    sink: &mut K,
    port: &mut Q,
    clock: &mut C,
    patterns: &mut P,
    gate: &G,
    line: &[u8],
) -> Ending
    requires { (held : List Hold) × Q.meaning.holds port.old held }
    ensures told { (item : Item) × (reply : Reply) × (blamed : List (List ℕ))
        × RefusesOnly P.makes patterns.old patterns.new blamed
        × HasAnsweredOne Q.meaning port.old item reply port.new
        × AsksNext (C.moments clock.old) line.now blamed item
        × ((before : List ℕ) → K.taken sink.old ≡ Some before
        → EndsAlone result before reply (K.taken sink.new)) }
    ensures clock { C.moments clock.new ≡ after_moment (C.moments clock.old) }
    ensures write_fault { result ≡ WriteFault → Rose (K.faults sink.old) (K.faults sink.new) }
    ensures endings { (result ≡ WriteFault)
        ⊎ ((result ≡ Answered) ⊎ ((result ≡ Refused) ⊎ (result ≡ Starved))) }
{
    let mut tally = Tally::new();
    let moment = clock.now();
    let reply = answer(rt, alloc, port, patterns, gate, line, moment);
    match write(alloc, &mut tally, sink, &reply) {
        Some(ending) => ending,
        None => tally.ending(),
    }
}

// Reads the next line, answers it and writes the reply. Gives how the session ends, where it does.
fn next_line<R: Threads + Sync, S: Source, K: Sink, D: Device, C: Clock, P: PatternMaker, G: Gate>(
    rt: &R,
    alloc: Global,
    reader: &mut LineReader,
    source: &mut S,
    tally: &mut Tally,
    sink: &mut K,
    store: Store<D>,
    clock: &mut C,
    patterns: &mut P,
    gate: &G,
) -> (Option<Ending>, Store<D>)
    requires { IsHeld D.Device.own store }
    ensures turned { (more : List (List ℕ)) × RefusesOnly P.makes patterns.old patterns.new more
        × (done : List Act) × (given : List Reply)
        × AreDoneOver D.Device.own store done given result.1
        × ((told : Option (List ℕ)) (text before : List ℕ) (acts : List Act)
        (replies : List Reply) (blamed : List (List ℕ))
        → IsAt told text before (S.left source.old) (K.taken sink.old)
        (C.moments clock.old) reader.old tally.old
        acts replies blamed
        → Turned told text before (S.left source.new) (K.taken sink.new)
        (C.moments clock.new) reader.new tally.new
        (acts ++ done) (replies ++ given) (blamed ++ more) result.0) }
    ensures held { IsHeld D.Device.own result.1 }
    ensures nearer { IfNone result.0 (to_come reader.new < to_come reader.old) }
    ensures source_counted { S.faults source.old ≤ S.faults source.new }
    ensures sink_counted { K.faults sink.old ≤ K.faults sink.new }
    ensures write_fault { IfSome result.0 (λ ending. ending ≡ WriteFault
        → Rose (K.faults sink.old) (K.faults sink.new)) }
    ensures read_fault { IfSome result.0 (λ ending. ending ≡ ReadFault
        → Rose (S.faults source.old) (S.faults source.new)) }
    ensures took { TakesBytes (S.left source.old)
        (S.left source.new) reader.old.taken reader.new.taken }
    ensures spent { IfSome result.0 (λ ending. ending ≡ Spent → reader.new.taken ≡ taken_limit) }
    ensures endings { IfSome result.0 IsPastOpening }
{
    let line = match reader.next(source) {
        Ok(line) => line,
        Err(LineError::Fault) => return (Some(Ending::ReadFault), store),
        Err(LineError::Memory) => return (Some(Ending::Starved), store),
    };
    match line {
        Line::Whole(bytes) => answer_line(
            rt,
            alloc,
            tally,
            sink,
            store,
            clock,
            patterns,
            gate,
            bytes.as_slice(),
        ),
        Line::TooLong { length } => {
            let ended = refuse_line(alloc, tally, sink, &store, clock, length);
            (ended, store)
        }
        Line::End => (Some(tally.ending()), store),
        Line::Spent { .. } => (Some(Ending::Spent), store),
    }
}

// Answers a line and writes the reply. A line without bytes gets none, and the clock isn't asked for it.
fn answer_line<R: Threads + Sync, K: Sink, D: Device, C: Clock, P: PatternMaker, G: Gate>(
    rt: &R,
    alloc: Global,
    tally: &mut Tally,
    sink: &mut K,
    store: Store<D>,
    clock: &mut C,
    patterns: &mut P,
    gate: &G,
    line: &[u8],
) -> (Option<Ending>, Store<D>)
    requires { IsHeld D.Device.own store }
    ensures empty { line.now ≡ []
        → (result.0 ≡ None) × (result.1 ≡ store) × (tally.new ≡ tally.old)
        × (sink.new ≡ sink.old) × (clock.new ≡ clock.old) × (patterns.new ≡ patterns.old) }
    ensures answered { 0 < length line.now
        → (more : List (List ℕ)) × RefusesOnly P.makes patterns.old patterns.new more
        × (act : Act) × (reply : Reply) × IsDoneOver D.Device.own act store reply result.1
        × ComesToNext (C.moments clock.old) line.now more act
        × (C.moments clock.new ≡ after_moment (C.moments clock.old))
        × HasGiven (K.taken sink.old) (K.taken sink.new) tally.old tally.new reply result.0 }
    ensures held { IsHeld D.Device.own result.1 }
    ensures sink_counted { K.faults sink.old ≤ K.faults sink.new }
    ensures write_fault { IfSome result.0 (λ ending. ending ≡ WriteFault
        → Rose (K.faults sink.old) (K.faults sink.new)) }
    ensures endings { IfSome result.0 (λ ending. (ending ≡ WriteFault) ⊎ (ending ≡ Starved)) }
{
    if line.is_empty() {
        return (None, store);
    }
    let moment = clock.now();
    let (reply, store) = act_on(rt, alloc, store, patterns, gate, line, moment);
    let ended = write(alloc, tally, sink, &reply);
    (ended, store)
}

// Does what a line says that was read at this moment, in nanoseconds.
fn act_on<R: Threads + Sync, D: Device, P: PatternMaker, G: Gate>(
    rt: &R,
    alloc: Global,
    store: Store<D>,
    patterns: &mut P,
    gate: &G,
    line: &[u8],
    moment: u64,
) -> (Reply, Store<D>)
    requires { IsHeld D.Device.own store }
    ensures done { (more : List (List ℕ)) × RefusesOnly P.makes patterns.old patterns.new more
        × (act : Act) × ComesTo moment line.now more act
        × IsDoneOver D.Device.own act store result.0 result.1 }
    ensures held { IsHeld D.Device.own result.1 }
{
    if is_reopen(line) {
        return reopen(alloc, store, moment);
    }
    match store {
        Store::Open(core) => {
            let mut core = core;
            let reply = answer(rt, alloc, &mut core, patterns, gate, line, moment);
            (reply, Store::Open(core))
        }
        Store::Closed(disk) => (Reply::Refused(Refusal::Closed), Store::Closed(disk)),
    }
}

// Closes the store and opens it again.
fn reopen<D: Device>(alloc: Global, store: Store<D>, moment: u64) -> (Reply, Store<D>)
    ensures done { (again : Result ℕ OpenError) × (result.0 ≡ reopened_reply again)
        × Reopens D.Device.own (disk_of store) moment result.1 again }
    ensures held { IsHeld D.Device.own result.1 }
{
    let (store, again) = store.reopen(alloc, moment);
    let reply = reopened(again);
    (reply, store)
}

// What a reopening is told.
fn reopened(again: Result<u64, OpenError>) -> Reply
    ensures { result ≡ reopened_reply again }
{
    match again {
        Ok(entries) => Reply::Reopened { entries },
        Err(OpenError::Fault) => Reply::Refused(Refusal::DiskFault),
        Err(OpenError::NotStore { file, at }) => Reply::Refused(Refusal::NotStore { file, at }),
        Err(OpenError::Memory) => Reply::Refused(Refusal::Memory),
    }
}

// Refuses a line of so many bytes, which are too many, and writes the reply. In a closed store it isn't read, like any
// other.
fn refuse_line<K: Sink, D: Device, C: Clock>(
    alloc: Global,
    tally: &mut Tally,
    sink: &mut K,
    store: &Store<D>,
    clock: &mut C,
    length: u64,
) -> Option<Ending>
    ensures given { HasGiven (K.taken sink.old) (K.taken sink.new) tally.old tally.new
        (refused_long store.now length) result }
    ensures clock { C.moments clock.new ≡ after_moment (C.moments clock.old) }
    ensures sink_counted { K.faults sink.old ≤ K.faults sink.new }
    ensures write_fault { IfSome result (λ ending. ending ≡ WriteFault
        → Rose (K.faults sink.old) (K.faults sink.new)) }
    ensures endings { IfSome result (λ ending. (ending ≡ WriteFault) ⊎ (ending ≡ Starved)) }
{
    // A line that is refused unread takes a moment of the clock like any other.
    let _moment = clock.now();
    let reply = refused_long(store, length);
    write(alloc, tally, sink, &reply)
}

// How a line of so many bytes, which are too many, is refused.
fn refused_long<D: Device>(store: &Store<D>, length: u64) -> Reply
    ensures { result ≡ refused_long store.now length }
{
    match store {
        Store::Open(_) => Reply::Refused(Refusal::TooLong { length }),
        Store::Closed(_) => Reply::Refused(Refusal::Closed),
    }
}

// Answers a line that was read at this moment, in nanoseconds.
pub(crate) fn answer<R: Threads + Sync, Q: Port, P: PatternMaker, G: Gate>(
    rt: &R,
    alloc: Global,
    port: &mut Q,
    patterns: &mut P,
    gate: &G,
    line: &[u8],
    moment: u64,
) -> Reply
    requires { (held : List Hold) × Q.meaning.holds port.old held }
    // The maker refused just the pattern that the reply blames for its size, if it blames one.
    ensures { (more : List (List ℕ)) × RefusesOnly P.makes patterns.old patterns.new more
        × (item : Item) × AsksAt moment line.now more item
        × HasAnsweredOne Q.meaning port.old item result port.new }
{
    match read_request(alloc, line, moment, patterns) {
        Ok(request) => answer_request(rt, alloc, port, request, CLIENT, gate),
        Err(why) => Reply::Refused(why),
    }
}

// Writes a reply. Gives how the session ends, where it can't be written.
pub(crate) fn write<K: Sink>(
    alloc: Global,
    tally: &mut Tally,
    sink: &mut K,
    reply: &Reply,
) -> Option<Ending>
    ensures given { HasGiven (K.taken sink.old)
        (K.taken sink.new) tally.old tally.new reply.now result }
    ensures sink_counted { K.faults sink.old ≤ K.faults sink.new }
    ensures write_fault { IfSome result (λ ending. ending ≡ WriteFault
        → Rose (K.faults sink.old) (K.faults sink.new)) }
    ensures endings { IfSome result (λ ending. (ending ≡ WriteFault) ⊎ (ending ≡ Starved)) }
{
    let text = match write_reply(alloc, reply) {
        Ok(text) => text,
        Err(Memory) => return Some(Ending::Starved),
    };
    tally.add(reply);
    match sink.put(text.as_str().as_bytes()) {
        Ok(()) => None,
        Err(Failed) => Some(Ending::WriteFault),
    }
}
