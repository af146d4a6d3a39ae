//! An ingest: the lines of a source are pushed in order over a store's core, as requests in OTLP/JSON. Those that are at
//! hand together are read in threads, and then pushed one by one. The store is kept small in between, and flushed,
//! compacted and rid of its loose files at the end. Each reply is written before anything else is asked.

ghost use Rattle.std.specs.Prelude.{◌≡◌, ◌⊎◌, ◌≤◌, ◌<◌, ◌-◌, ◌++◌, ℕ, List, [], ◌∷◌, Bool, true, false, Option, Some, None, Ok, IfSome, IfOk, IfErr, if◌then◌else◌};
ghost use Rattle.span_types.specs.Faults.{Rose};
ghost use Rattle.io_edges.specs.Lines.{taken_limit};
ghost use Rattle.io_edges.specs.Reader.{IsToRead, TakesBytes, to_come};
ghost use Rattle.line_windows.specs.Windows.{AreNextLines, AreOf, IsOf, pushed_at};
ghost use Rattle.store_core.specs.Port.{port_of};
ghost use Rattle.store_model.specs.Holds.{Hold};
ghost use Rattle.session_text.specs.declared.reply.Reply.{Reply};
ghost use Rattle.session_text.specs.declared.request.Request.{Request};
ghost use Rattle.session_text.specs.declared.request.Request.TheVariants.{Compact as AsksCompact, CutAll as AsksCutAll, Flush as AsksFlush, Reclaim as AsksReclaim};
ghost use Rattle.session_text.specs.Items.{Item};
ghost use Rattle.session_text.specs.Requests.{AsksPush};
ghost use Rattle.session_meaning.specs.declared.ending.Ending.TheVariants.{Answered, ReadFault, Refused, Spent, Starved, WriteFault};
ghost use Rattle.session_meaning.specs.Duties.{Duty, ask as to_ask, at_the_end, compact_all as to_compact_all, from_lines, keep_small as to_keep_small, most_rounds};
ghost use Rattle.session_meaning.specs.Ingest.{is_joined};
ghost use Rattle.session_meaning.specs.Progress.{HasAnsweredOne, HasAnsweredOver, FollowsOver};
ghost use Rattle.session_meaning.specs.Runs.{IsPastOpening};
ghost use Rattle.trace_shell.specs.Turn.{CameByLines};
ghost use Rattle.trace_shell.specs.Ingesting.{HasAsked, HasPushed, HasReadTo, HaveGiven, IsReadingAt, IsStopped, Leaves, ReadOn, ended_by, ending_in, stopped_in, turn_of};

use crate::session::{CLIENT, Tally, write};
use client_run::answer_request;
use disk_model::Device;
use io_edges::{Clock, Gate, Line, LineError, LineReader, Sink, Source};
use line_windows::{WindowLine, given, read_all, too_long, whole, window_from};
use otlp_spans::Reading;
use session_meaning::Ending;
use session_text::{Refusal, Reply, Request, read_push};
use std::alloc::Global;
use std::thread::Threads;
use store_core::Core;

/// So many rows outside of blocks are many: half of what a store holds. They are flushed before the next line is read.
const MANY_ROWS: u64 = 131_072;

/// How often blocks are joined at most. No store joins them so often, since each time it takes a number for a file.
const MOST_ROUNDS: u32 = 4_294_967_295;

/// What comes after a line was read.
pub(crate) enum After {
    /// The next line.
    Line,
    /// The end: there is no line any more.
    End,
    /// Nothing: the run ends so.
    Ending(Ending),
}

/// Pushes the lines of the source in order to a core. Before the first line and after each push all rows are cut and
/// flushed where 131,072 rows or more are held outside of blocks; and at the end all are, blocks are compacted as long
/// as any are joined, and loose files are emptied. Each reply is written before anything else is asked of the core, and
/// before the source is asked for more. The clock is asked once for each line that has bytes.
pub(crate) fn ingest<R: Threads + Sync, S: Source, K: Sink, D: Device, C: Clock, G: Gate>(
    rt: &R,
    alloc: Global,
    source: &mut S,
    sink: &mut K,
    core: &mut Core<D>,
    clock: &mut C,
    gate: &G,
) -> Ending
    requires { (held : List Hold) × (port_of D.Device.own).holds core.old held }
    ensures ran { (items : List Item) × (replies : List Reply)
        × HasAnsweredOver (port_of D.Device.own) core.old items replies core.new
        × ((text before : List ℕ) → S.left source.old ≡ Some text → K.taken sink.old ≡ Some before
        → CameByLines (λ todo rest.
        FollowsOver D.Device.own todo (C.moments clock.old) core.old items replies
        core.new rest
        (C.moments clock.new)) text before (S.left source.new) (K.taken sink.new) result replies) }
    ensures write_fault { result ≡ WriteFault → Rose (K.faults sink.old) (K.faults sink.new) }
    ensures read_fault { result ≡ ReadFault → Rose (S.faults source.old) (S.faults source.new) }
    ensures spent { result ≡ Spent
        → TakesBytes (S.left source.old) (S.left source.new) 0 taken_limit }
    ensures endings { IsPastOpening result }
{
    let mut tally = Tally::new();
    if let Some(ending) = keep_small(rt, alloc, &mut tally, sink, core, gate) {
        return ending;
    }
    match push_all(rt, alloc, source, &mut tally, sink, core, clock, gate) {
        Some(early) => early,
        None => finish(rt, alloc, &mut tally, sink, core, gate),
    }
}

// Pushes all lines of the source, and keeps the store small after each. Gives how the run ends, where it ends before
// they are all pushed.
fn push_all<R: Threads + Sync, S: Source, K: Sink, D: Device, C: Clock, G: Gate>(
    rt: &R,
    alloc: Global,
    source: &mut S,
    tally: &mut Tally,
    sink: &mut K,
    core: &mut Core<D>,
    clock: &mut C,
    gate: &G,
) -> Option<Ending>
    requires { (held : List Hold) × (port_of D.Device.own).holds core.old held }
    ensures pushed { (items : List Item) × (replies : List Reply) × (stopped : Option Ending)
        × HasAsked D.Device.own core.old core.new (K.taken sink.old)
        (K.taken sink.new) tally.old tally.new items
        replies stopped
        × IsStopped result stopped
        × ((text : List ℕ) → S.left source.old ≡ Some text → (pushed : List (List ℕ))
        × ((later : List (List ℕ))
        → Leaves D.Device.own core.old core.new (from_lines (pushed ++ later))
        (from_lines later)
        (C.moments clock.old) (C.moments clock.new) items replies stopped)
        × HasReadTo result text pushed (S.left source.new)) }
    ensures sink_counted { K.faults sink.old ≤ K.faults sink.new }
    ensures write_fault { IfSome result (λ ending. ending ≡ WriteFault
        → Rose (K.faults sink.old) (K.faults sink.new)) }
    ensures read_fault { IfSome result (λ ending. ending ≡ ReadFault → Rose (S.faults source.old)
        (S.faults source.new)) }
    ensures spent { IfSome result (λ ending. ending ≡ Spent
        → TakesBytes (S.left source.old) (S.left source.new) 0
        taken_limit) }
    ensures endings { IfSome result IsPastOpening }
{
    let mut reader = LineReader::for_many(alloc);
    'lines: loop {
        match push_next(
            rt,
            alloc,
            &mut reader,
            source,
            tally,
            sink,
            core,
            clock,
            gate,
        ) {
            After::Line => {}
            After::End => return None,
            After::Ending(ending) => return Some(ending),
        }
    }
}

// Reads the next line and those after it that are at hand, and pushes them one after another.
fn push_next<R: Threads + Sync, S: Source, K: Sink, D: Device, C: Clock, G: Gate>(
    rt: &R,
    alloc: Global,
    reader: &mut LineReader,
    source: &mut S,
    tally: &mut Tally,
    sink: &mut K,
    core: &mut Core<D>,
    clock: &mut C,
    gate: &G,
) -> After
    requires { (held : List Hold) × (port_of D.Device.own).holds core.old held }
    ensures pushed { (items : List Item) × (replies : List Reply) × (stopped : Option Ending)
        × HasAsked D.Device.own core.old core.new (K.taken sink.old)
        (K.taken sink.new) tally.old tally.new items
        replies stopped
        × IsStopped (ending_in result) stopped
        × ((text : List ℕ) (pushed : List (List ℕ))
        → IsReadingAt text pushed (S.left source.old) reader.old
        → (asked : List (List ℕ))
        × ((later : List (List ℕ))
        → Leaves D.Device.own core.old core.new (from_lines (asked ++ later))
        (from_lines later)
        (C.moments clock.old) (C.moments clock.new) items replies stopped)
        × ReadOn result text (pushed ++ asked) (S.left source.new) reader.new) }
    ensures nearer { result ≡ After.Line → to_come reader.new < to_come reader.old }
    ensures source_counted { S.faults source.old ≤ S.faults source.new }
    ensures sink_counted { K.faults sink.old ≤ K.faults sink.new }
    ensures write_fault { IfSome (ending_in result) (λ ending. ending ≡ WriteFault
        → Rose (K.faults sink.old)
        (K.faults sink.new)) }
    ensures read_fault { IfSome (ending_in result) (λ ending. ending ≡ ReadFault
        → Rose (S.faults source.old)
        (S.faults source.new)) }
    ensures took { TakesBytes (S.left source.old)
        (S.left source.new) reader.old.taken reader.new.taken }
    ensures spent { IfSome (ending_in result) (λ ending. ending ≡ Spent
        → reader.new.taken ≡ taken_limit) }
    ensures endings { IfSome (ending_in result) IsPastOpening }
{
    let line = match reader.next(source) {
        Ok(line) => line,
        Err(LineError::Fault) => return After::Ending(Ending::ReadFault),
        Err(LineError::Memory) => return After::Ending(Ending::Starved),
    };
    match line {
        Line::Whole(bytes) => {
            let first = whole(bytes);
            go_on(push_from(rt, alloc, reader, first, tally, sink, core, clock, gate))
        }
        Line::TooLong { length } => {
            let first = too_long(length);
            go_on(push_from(rt, alloc, reader, first, tally, sink, core, clock, gate))
        }
        Line::End => After::End,
        Line::Spent { .. } => After::Ending(Ending::Spent),
    }
}

// What comes after a line that was done with: the next one, unless the run ends.
fn go_on(ended: Option<Ending>) -> After
    ensures is { result ≡ turn_of ended }
    ensures ending { ending_in result ≡ ended }
{
    match ended {
        Some(ending) => After::Ending(ending),
        None => After::Line,
    }
}

// Pushes a line that was read, and those after it that the reader has at hand. They are read in threads first.
fn push_from<R: Threads + Sync, K: Sink, D: Device, C: Clock, G: Gate>(
    rt: &R,
    alloc: Global,
    reader: &mut LineReader,
    first: WindowLine,
    tally: &mut Tally,
    sink: &mut K,
    core: &mut Core<D>,
    clock: &mut C,
    gate: &G,
) -> Option<Ending>
    requires { (held : List Hold) × (port_of D.Device.own).holds core.old held }
    ensures pushed { (items : List Item) × (replies : List Reply)
        × HasAsked D.Device.own core.old core.new (K.taken sink.old)
        (K.taken sink.new) tally.old tally.new items
        replies result
        × ((line : List ℕ) (left : Option (List ℕ)) (text : List ℕ) → IsOf line first
        → IsToRead reader.old left text → (more : List (List ℕ))
        × AreNextLines text more (IsToRead reader.new left)
        × HasPushed D.Device.own core.old core.new (C.moments clock.old) (C.moments clock.new)
        items replies result (line ∷ more)) }
    ensures taken { reader.new.taken ≡ reader.old.taken }
    ensures nearer { to_come reader.new ≤ to_come reader.old }
    ensures sink_counted { K.faults sink.old ≤ K.faults sink.new }
    ensures write_fault { IfSome result (λ ending. ending ≡ WriteFault
        → Rose (K.faults sink.old) (K.faults sink.new)) }
    ensures endings { IfSome result (λ ending. (ending ≡ WriteFault) ⊎ (ending ≡ Starved)) }
{
    match window_from(alloc, reader, first) {
        Ok(window) => {
            let lines = read_in_threads(rt, alloc, window);
            push_window(rt, alloc, tally, sink, core, clock, gate, lines)
        }
        // Out of memory for a window the line is pushed alone.
        Err(line) => push_line(rt, alloc, tally, sink, core, clock, gate, line),
    }
}

// The lines of a window, read in threads.
fn read_in_threads<R: Threads + Sync>(
    rt: &R,
    alloc: Global,
    window: Vec<WindowLine>,
) -> Vec<WindowLine>
    ensures { (lines : List (List ℕ)) → AreOf lines window.items → AreOf lines result.items }
{
    let mut read = window;
    read_all(rt, alloc, read.as_mut_slice());
    read
}

// Pushes the lines of a window, until the run ends.
fn push_window<R: Threads + Sync, K: Sink, D: Device, C: Clock, G: Gate>(
    rt: &R,
    alloc: Global,
    tally: &mut Tally,
    sink: &mut K,
    core: &mut Core<D>,
    clock: &mut C,
    gate: &G,
    window: Vec<WindowLine>,
) -> Option<Ending>
    requires { (held : List Hold) × (port_of D.Device.own).holds core.old held }
    ensures pushed { (items : List Item) × (replies : List Reply)
        × HasAsked D.Device.own core.old core.new (K.taken sink.old)
        (K.taken sink.new) tally.old tally.new items
        replies result
        × ((lines : List (List ℕ)) → AreOf lines window.items
        → HasPushed D.Device.own core.old core.new (C.moments clock.old) (C.moments clock.new)
        items replies result lines) }
    ensures sink_counted { K.faults sink.old ≤ K.faults sink.new }
    ensures write_fault { IfSome result (λ ending. ending ≡ WriteFault
        → Rose (K.faults sink.old) (K.faults sink.new)) }
    ensures endings { IfSome result (λ ending. (ending ≡ WriteFault) ⊎ (ending ≡ Starved)) }
{
    for line in window {
        if let Some(ending) = push_line(rt, alloc, tally, sink, core, clock, gate, line) {
            return Some(ending);
        }
    }
    None
}

// Pushes a line, writes the reply and keeps the store small. A line without bytes gets no reply, and nothing is done
// for it.
fn push_line<R: Threads + Sync, K: Sink, D: Device, C: Clock, G: Gate>(
    rt: &R,
    alloc: Global,
    tally: &mut Tally,
    sink: &mut K,
    core: &mut Core<D>,
    clock: &mut C,
    gate: &G,
    line: WindowLine,
) -> Option<Ending>
    requires { (held : List Hold) × (port_of D.Device.own).holds core.old held }
    ensures pushed { (items : List Item) × (replies : List Reply)
        × HasAsked D.Device.own core.old core.new (K.taken sink.old)
        (K.taken sink.new) tally.old tally.new items
        replies result
        × ((bytes : List ℕ) (later : List (List ℕ)) → IsOf bytes line
        → Leaves D.Device.own core.old core.new (from_lines (bytes ∷ later))
        (from_lines later)
        (C.moments clock.old) (C.moments clock.new) items replies result) }
    ensures sink_counted { K.faults sink.old ≤ K.faults sink.new }
    ensures write_fault { IfSome result (λ ending. ending ≡ WriteFault
        → Rose (K.faults sink.old) (K.faults sink.new)) }
    ensures endings { IfSome result (λ ending. (ending ≡ WriteFault) ⊎ (ending ≡ Starved)) }
{
    match given(alloc, line) {
        Some(given) => {
            // A line that is refused takes a moment of the clock like any other.
            let moment = clock.now();
            let reply = push_given(rt, alloc, core, gate, given, moment);
            end_line(rt, alloc, tally, sink, core, gate, &reply)
        }
        None => None,
    }
}

// Pushes what a line gives at this moment, in nanoseconds.
fn push_given<R: Threads + Sync, D: Device, G: Gate>(
    rt: &R,
    alloc: Global,
    core: &mut Core<D>,
    gate: &G,
    given: Result<Reading, Refusal>,
    moment: u64,
) -> Reply
    requires { (held : List Hold) × (port_of D.Device.own).holds core.old held }
    ensures { HasAnsweredOne (port_of D.Device.own) core.old (pushed_at moment given)
        result core.new }
{
    match given {
        Ok(reading) => {
            let request = Request::Push { reading, moment };
            answer_request(rt, alloc, core, request, CLIENT, gate)
        }
        Err(why) => Reply::Refused(why),
    }
}

// Pushes what a line holds that was read at this moment, in nanoseconds.
pub(crate) fn push<R: Threads + Sync, D: Device, G: Gate>(
    rt: &R,
    alloc: Global,
    core: &mut Core<D>,
    gate: &G,
    line: &[u8],
    moment: u64,
) -> Reply
    requires { (held : List Hold) × (port_of D.Device.own).holds core.old held }
    ensures { (item : Item) × AsksPush moment line.now item
        × HasAnsweredOne (port_of D.Device.own) core.old item
        result core.new }
{
    match read_push(alloc, line, moment) {
        Ok(request) => answer_request(rt, alloc, core, request, CLIENT, gate),
        Err(why) => Reply::Refused(why),
    }
}

// Writes the reply to a line, and keeps the store small.
fn end_line<R: Threads + Sync, K: Sink, D: Device, G: Gate>(
    rt: &R,
    alloc: Global,
    tally: &mut Tally,
    sink: &mut K,
    core: &mut Core<D>,
    gate: &G,
    reply: &Reply,
) -> Option<Ending>
    requires { (held : List Hold) × (port_of D.Device.own).holds core.old held }
    ensures ended { (items : List Item) × (replies : List Reply)
        × HasAnsweredOver (port_of D.Device.own) core.old items replies core.new
        × HaveGiven (K.taken sink.old) (K.taken sink.new) tally.old tally.new
        (reply.now ∷ replies) result
        × ((later : List (List ℕ)) (told : Option (List ℕ)) → Leaves D.Device.own core.old core.new
        (to_keep_small ∷ from_lines later) (from_lines later) told told items replies result) }
    ensures sink_counted { K.faults sink.old ≤ K.faults sink.new }
    ensures write_fault { IfSome result (λ ending. ending ≡ WriteFault
        → Rose (K.faults sink.old) (K.faults sink.new)) }
    ensures endings { IfSome result (λ ending. (ending ≡ WriteFault) ⊎ (ending ≡ Starved)) }
{
    match write(alloc, tally, sink, reply) {
        Some(ending) => Some(ending),
        None => keep_small(rt, alloc, tally, sink, core, gate),
    }
}

// Cuts and flushes all rows where many are held.
fn keep_small<R: Threads + Sync, K: Sink, D: Device, G: Gate>(
    rt: &R,
    alloc: Global,
    tally: &mut Tally,
    sink: &mut K,
    core: &mut Core<D>,
    gate: &G,
) -> Option<Ending>
    requires { (held : List Hold) × (port_of D.Device.own).holds core.old held }
    ensures kept { (items : List Item) × (replies : List Reply)
        × HasAsked D.Device.own core.old core.new (K.taken sink.old)
        (K.taken sink.new) tally.old tally.new items
        replies result
        × ((later : List (List ℕ)) (told : Option (List ℕ)) → Leaves D.Device.own core.old core.new
        (to_keep_small ∷ from_lines later) (from_lines later) told told items replies result) }
    ensures sink_counted { K.faults sink.old ≤ K.faults sink.new }
    ensures write_fault { IfSome result (λ ending. ending ≡ WriteFault
        → Rose (K.faults sink.old) (K.faults sink.new)) }
    ensures endings { IfSome result (λ ending. (ending ≡ WriteFault) ⊎ (ending ≡ Starved)) }
{
    if core.held_now() < MANY_ROWS {
        return None;
    }
    cut_and_flush(rt, alloc, tally, sink, core, gate)
}

// Moves all rows to the head, and makes a block of them.
fn cut_and_flush<R: Threads + Sync, K: Sink, D: Device, G: Gate>(
    rt: &R,
    alloc: Global,
    tally: &mut Tally,
    sink: &mut K,
    core: &mut Core<D>,
    gate: &G,
) -> Option<Ending>
    requires { (held : List Hold) × (port_of D.Device.own).holds core.old held }
    ensures made { (items : List Item) × (replies : List Reply)
        × HasAsked D.Device.own core.old core.new (K.taken sink.old)
        (K.taken sink.new) tally.old tally.new items
        replies result
        × ((later : List Duty) (told : Option (List ℕ)) → Leaves D.Device.own core.old core.new
        (to_ask AsksCutAll ∷ to_ask AsksFlush ∷ later) later told told items replies result) }
    ensures sink_counted { K.faults sink.old ≤ K.faults sink.new }
    ensures write_fault { IfSome result (λ ending. ending ≡ WriteFault
        → Rose (K.faults sink.old) (K.faults sink.new)) }
    ensures endings { IfSome result (λ ending. (ending ≡ WriteFault) ⊎ (ending ≡ Starved)) }
{
    match ask(rt, alloc, tally, sink, core, gate, Request::CutAll) {
        Some(ending) => Some(ending),
        None => ask(rt, alloc, tally, sink, core, gate, Request::Flush),
    }
}

// What is done at the end of the source. Gives how the run ends.
fn finish<R: Threads + Sync, K: Sink, D: Device, G: Gate>(
    rt: &R,
    alloc: Global,
    tally: &mut Tally,
    sink: &mut K,
    core: &mut Core<D>,
    gate: &G,
) -> Ending
    requires { (held : List Hold) × (port_of D.Device.own).holds core.old held }
    ensures finished { (items : List Item) × (replies : List Reply) × (stopped : Option Ending)
        × HasAsked D.Device.own core.old core.new (K.taken sink.old)
        (K.taken sink.new) tally.old tally.new items
        replies stopped
        × (result ≡ ended_by stopped tally.new)
        × ((told : Option (List ℕ))
        → Leaves D.Device.own core.old core.new at_the_end [] told told items replies
        stopped) }
    ensures write_fault { result ≡ WriteFault → Rose (K.faults sink.old) (K.faults sink.new) }
    ensures endings { (result ≡ WriteFault)
        ⊎ ((result ≡ Answered) ⊎ ((result ≡ Refused) ⊎ (result ≡ Starved))) }
{
    match keep_up(rt, alloc, tally, sink, core, gate) {
        Some(ending) => ending,
        None => tally.ending(),
    }
}

// Cuts and flushes all rows, joins blocks, and empties loose files.
fn keep_up<R: Threads + Sync, K: Sink, D: Device, G: Gate>(
    rt: &R,
    alloc: Global,
    tally: &mut Tally,
    sink: &mut K,
    core: &mut Core<D>,
    gate: &G,
) -> Option<Ending>
    requires { (held : List Hold) × (port_of D.Device.own).holds core.old held }
    ensures made { (items : List Item) × (replies : List Reply)
        × HasAsked D.Device.own core.old core.new (K.taken sink.old)
        (K.taken sink.new) tally.old tally.new items
        replies result
        × ((told : Option (List ℕ))
        → Leaves D.Device.own core.old core.new at_the_end [] told told items replies
        result) }
    ensures sink_counted { K.faults sink.old ≤ K.faults sink.new }
    ensures write_fault { IfSome result (λ ending. ending ≡ WriteFault
        → Rose (K.faults sink.old) (K.faults sink.new)) }
    ensures endings { IfSome result (λ ending. (ending ≡ WriteFault) ⊎ (ending ≡ Starved)) }
{
    match cut_and_flush(rt, alloc, tally, sink, core, gate) {
        Some(ending) => Some(ending),
        None => compact_and_reclaim(rt, alloc, tally, sink, core, gate),
    }
}

// Joins blocks, and empties loose files.
fn compact_and_reclaim<R: Threads + Sync, K: Sink, D: Device, G: Gate>(
    rt: &R,
    alloc: Global,
    tally: &mut Tally,
    sink: &mut K,
    core: &mut Core<D>,
    gate: &G,
) -> Option<Ending>
    requires { (held : List Hold) × (port_of D.Device.own).holds core.old held }
    ensures made { (items : List Item) × (replies : List Reply)
        × HasAsked D.Device.own core.old core.new (K.taken sink.old)
        (K.taken sink.new) tally.old tally.new items
        replies result
        × ((told : Option (List ℕ)) → Leaves D.Device.own core.old core.new
        (to_compact_all most_rounds ∷ to_ask AsksReclaim ∷ []) [] told told items replies result) }
    ensures sink_counted { K.faults sink.old ≤ K.faults sink.new }
    ensures write_fault { IfSome result (λ ending. ending ≡ WriteFault
        → Rose (K.faults sink.old) (K.faults sink.new)) }
    ensures endings { IfSome result (λ ending. (ending ≡ WriteFault) ⊎ (ending ≡ Starved)) }
{
    match compact_all(rt, alloc, tally, sink, core, gate) {
        Some(ending) => Some(ending),
        None => ask(rt, alloc, tally, sink, core, gate, Request::Reclaim),
    }
}

// Compacts as long as blocks are joined.
fn compact_all<R: Threads + Sync, K: Sink, D: Device, G: Gate>(
    rt: &R,
    alloc: Global,
    tally: &mut Tally,
    sink: &mut K,
    core: &mut Core<D>,
    gate: &G,
) -> Option<Ending>
    requires { (held : List Hold) × (port_of D.Device.own).holds core.old held }
    ensures made { (items : List Item) × (replies : List Reply)
        × HasAsked D.Device.own core.old core.new (K.taken sink.old)
        (K.taken sink.new) tally.old tally.new items
        replies result
        × ((asked : Request) (later : List Duty) (told : Option (List ℕ))
        → Leaves D.Device.own core.old core.new
        (to_compact_all most_rounds ∷ to_ask asked ∷ later)
        (to_ask asked ∷ later) told told items replies result) }
    ensures sink_counted { K.faults sink.old ≤ K.faults sink.new }
    ensures write_fault { IfSome result (λ ending. ending ≡ WriteFault
        → Rose (K.faults sink.old) (K.faults sink.new)) }
    ensures endings { IfSome result (λ ending. (ending ≡ WriteFault) ⊎ (ending ≡ Starved)) }
{
    'rounds: for _ in 0..MOST_ROUNDS {
        match compact_once(rt, alloc, tally, sink, core, gate) {
            Ok(true) => {}
            Ok(false) => return None,
            Err(ending) => return Some(ending),
        }
    }
    None
}

// Compacts once and writes the reply. Gives whether blocks were joined, or how the run ends.
fn compact_once<R: Threads + Sync, K: Sink, D: Device, G: Gate>(
    rt: &R,
    alloc: Global,
    tally: &mut Tally,
    sink: &mut K,
    core: &mut Core<D>,
    gate: &G,
) -> Result<bool, Ending>
    requires { (held : List Hold) × (port_of D.Device.own).holds core.old held }
    ensures made { (reply : Reply)
        × HasAsked D.Device.own core.old core.new (K.taken sink.old)
        (K.taken sink.new) tally.old tally.new
        (Ok AsksCompact ∷ []) (reply ∷ []) (stopped_in result)
        × IfOk result (λ joined. joined ≡ is_joined reply)
        × ((times : ℕ) (later : List Duty) (told : Option (List ℕ)) → 0 < times
        → Leaves D.Device.own core.old core.new
        (to_compact_all times ∷ later)
        (if is_joined reply then to_compact_all (times - 1) ∷ later else later) told told
        (Ok AsksCompact ∷ []) (reply ∷ []) (stopped_in result)) }
    ensures sink_counted { K.faults sink.old ≤ K.faults sink.new }
    ensures write_fault { IfErr result (λ ending. ending ≡ WriteFault
        → Rose (K.faults sink.old) (K.faults sink.new)) }
    ensures endings { IfErr result (λ ending. (ending ≡ WriteFault) ⊎ (ending ≡ Starved)) }
{
    let reply = answer_request(rt, alloc, core, Request::Compact, CLIENT, gate);
    match write(alloc, tally, sink, &reply) {
        Some(ending) => Err(ending),
        None => Ok(is_joined(&reply)),
    }
}

// Whether blocks were joined.
pub(crate) fn is_joined(reply: &Reply) -> bool
    ensures { result ≡ is_joined reply.now }
{
    matches!(reply, Reply::Compacted { .. })
}

// Asks this of the core and writes the reply.
fn ask<R: Threads + Sync, K: Sink, D: Device, G: Gate>(
    rt: &R,
    alloc: Global,
    tally: &mut Tally,
    sink: &mut K,
    core: &mut Core<D>,
    gate: &G,
    request: Request,
) -> Option<Ending>
    requires { (held : List Hold) × (port_of D.Device.own).holds core.old held }
    ensures made { (items : List Item) × (replies : List Reply)
        × HasAsked D.Device.own core.old core.new (K.taken sink.old)
        (K.taken sink.new) tally.old tally.new items
        replies result
        × ((later : List Duty) (told : Option (List ℕ)) → Leaves D.Device.own core.old core.new
        (to_ask request ∷ later) later told told items replies result) }
    ensures sink_counted { K.faults sink.old ≤ K.faults sink.new }
    ensures write_fault { IfSome result (λ ending. ending ≡ WriteFault
        → Rose (K.faults sink.old) (K.faults sink.new)) }
    ensures endings { IfSome result (λ ending. (ending ≡ WriteFault) ⊎ (ending ≡ Starved)) }
{
    let reply = answer_request(rt, alloc, core, request, CLIENT, gate);
    write(alloc, tally, sink, &reply)
}
