//! A drill: so many lines that are made from a seed are pushed over a store's core, all rows are cut and flushed after
//! each 64th and after the last, blocks are compacted, loose files emptied, and three searches asked. Replies are
//! counted, and nothing is written before the end: then the counts, and the replies to the searches.

ghost use Rattle.std.specs.Prelude.{◌≡◌, ◌⊎◌, ◌+◌, ◌<◌, ◌≤◌, ◌++◌, ℕ, List, [], ◌∷◌, true, false, codes, length, map, Ok, IfErr, IfOk, MatchResult, OnErr, OnOk, string_bytes};
ghost use Rattle.std.specs.Io.KnownBytes.{Appends};
ghost use Rattle.io_edges.specs.Devices.{AppendsPrefix};
ghost use Rattle.span_types.specs.Faults.{Rose};
ghost use Rattle.store_core.specs.Port.{port_of};
ghost use Rattle.store_model.specs.Holds.{Hold};
ghost use Rattle.session_text.specs.declared.reply.Reply.{Reply};
ghost use Rattle.session_text.specs.declared.request.Request.TheVariants.{Compact as AsksCompact, Reclaim as AsksReclaim};
ghost use Rattle.session_text.specs.Items.{Item};
ghost use Rattle.session_text.specs.Replies.{reply_text};
ghost use Rattle.session_text.specs.Requests.{AsksAt, is_reopen};
ghost use Rattle.session_meaning.specs.declared.ending.Ending.TheVariants.{Answered, Refused, Starved, WriteFault};
ghost use Rattle.session_meaning.specs.Act.Act.{Ask};
ghost use Rattle.session_meaning.specs.Asked.{AreAsked, IsNextMoment, after_lines, after_moment};
ghost use Rattle.session_meaning.specs.Drill.{CameThrough, LinesMade, accepted_of, as_one, drill_searches, drilled_text, is_flushed_after, pushes_of, upkeep_after};
ghost use Rattle.session_meaning.specs.Ingest.{AreJoined, is_joined};
ghost use Rattle.session_meaning.specs.Progress.{HasAnsweredOver};
ghost use Rattle.session_meaning.specs.Session.{is_for_memory, is_refusal, reply_texts};
ghost use Rattle.traceql_types.specs.Makers.{RefusesOnly};
ghost use Rattle.trace_shell.specs.Drilling.{CountsOne, EndsCounted, HasMade, HasTold, all_texts, found_replies};

use crate::ingesting::{is_joined, push};
use crate::session::{CLIENT, answer, is_for_memory, is_refusal};
use client_run::answer_request;
use disk_model::Device;
use drill_input::make_line;
use io_edges::{Clock, Gate, Sink};
use session_meaning::Ending;
use session_text::{Reply, Request, write_reply};
use span_types::{Failed, Memory, Text};
use std::alloc::{AllocError, Global};
use std::thread::Threads;
use store_core::Core;
use traceql_types::PatternMaker;

/// After so many lines all rows are cut and flushed.
const LINES_A_FLUSH: u32 = 64;

/// How often blocks are joined at most. No store joins them so often, since each time it takes a number for a file.
const MOST_ROUNDS: u32 = 4_294_967_295;

/// What the replies of a drill are counted as. No count goes past 2^64 - 1.
#[derive(Clone, Copy, Debug)]
pub(crate) struct Counts {
    /// Accepted pushes.
    pushes: u64,
    /// Their spans.
    accepted: u64,
    /// Refusals for another cause than memory.
    refused: u64,
    /// Refusals for memory.
    starved: u64,
}

impl Counts {
    // Those of no replies.
    fn new() -> Counts
        ensures { result ≡ record { pushes = 0; accepted = 0; refused = 0; starved = 0 } }
    {
        Counts {
            pushes: 0,
            accepted: 0,
            refused: 0,
            starved: 0,
        }
    }

    // Each reply is counted once.
    fn add(&mut self, reply: &Reply)
        ensures { CountsOne self.old self.new reply.now }
    {
        self.pushes = self.pushes.saturating_add(pushes_of(reply));
        self.accepted = self.accepted.saturating_add(accepted_of(reply));
        self.refused = self.refused.saturating_add(refusals_of(reply));
        self.starved = self.starved.saturating_add(starved_of(reply));
    }

    // How a drill ends that wrote all.
    fn ending(&self) -> Ending
        ensures { EndsCounted result self.now }
    {
        if self.refused > 0 {
            Ending::Refused
        } else if self.starved > 0 {
            Ending::Starved
        } else {
            Ending::Answered
        }
    }

    // The line of the counts.
    fn text(self, alloc: Global) -> Result<String, AllocError>
        ensures { IfOk result (λ text. string_bytes text
            ≡ drilled_text self.pushes self.accepted self.refused self.starved) }
    {
        let Counts {
            pushes,
            accepted,
            refused,
            starved,
        } = self;
        format!(in alloc;
            "ok drill pushes={pushes} accepted={accepted} refused={refused} memory={starved}\n"
        )
    }
}

// Whether a reply is to an accepted push, as a number.
fn pushes_of(reply: &Reply) -> u64
    ensures { result ≡ pushes_of reply.now }
{
    match reply {
        Reply::Pushed { .. } => 1,
        _ => 0,
    }
}

// The accepted spans of a push.
fn accepted_of(reply: &Reply) -> u64
    ensures { result ≡ accepted_of reply.now }
{
    match reply {
        Reply::Pushed { accepted, .. } => *accepted,
        _ => 0,
    }
}

// Whether a reply is a refusal for another cause than memory, as a number.
fn refusals_of(reply: &Reply) -> u64
    ensures { result ≡ as_one (is_refusal reply.now) }
{
    if is_refusal(reply) { 1 } else { 0 }
}

// Whether a reply is a refusal for memory, as a number.
fn starved_of(reply: &Reply) -> u64
    ensures { result ≡ as_one (is_for_memory reply.now) }
{
    if is_for_memory(reply) { 1 } else { 0 }
}

/// The replies to the three searches.
#[derive(Drop)]
pub(crate) struct Found {
    /// Traces with a span that failed.
    errors: Reply,
    /// Traces of more than four spans.
    large: Reply,
    /// Client spans below server spans.
    crossing: Reply,
}

/// Pushes the lines of this seed, so many, to a core, keeps the store up and searches it, and writes the counts of all
/// replies and the replies to the searches. Nothing is written before all is asked. The clock is asked once for each
/// line that is pushed and for each search.
pub(crate) fn drill<R: Threads + Sync, K: Sink, D: Device, C: Clock, P: PatternMaker, G: Gate>(
    rt: &R,
    alloc: Global,
    sink: &mut K,
    core: &mut Core<D>,
    clock: &mut C,
    patterns: &mut P,
    gate: &G,
    seed: u64,
    traces: u32,
) -> Ending
    requires { (held : List Hold) × (port_of D.Device.own).holds core.old held }
    ensures ran { (items : List Item) × (replies : List Reply) × (blamed : List (List ℕ))
        × RefusesOnly P.makes patterns.old patterns.new blamed
        × HasAnsweredOver (port_of D.Device.own) core.old items replies core.new
        × CameThrough seed traces result (C.moments clock.old) items replies blamed
        (C.moments clock.new) (K.taken sink.old) (K.taken sink.new) }
    ensures write_fault { result ≡ WriteFault → Rose (K.faults sink.old) (K.faults sink.new) }
    ensures endings { (result ≡ WriteFault)
        ⊎ ((result ≡ Answered) ⊎ ((result ≡ Refused) ⊎ (result ≡ Starved))) }
{
    let mut counts = Counts::new();
    let Ok(()) = push_all(rt, alloc, &mut counts, core, clock, gate, seed, traces) else {
        return Ending::Starved;
    };
    compact_all(rt, alloc, &mut counts, core, gate);
    let _emptied = ask(rt, alloc, &mut counts, core, gate, Request::Reclaim);
    let found = search_all(rt, alloc, &mut counts, core, clock, patterns, gate);
    tell(alloc, sink, counts, &found)
}

// Pushes all lines, with the upkeep that is due after each. It stops where memory runs out for a line.
fn push_all<R: Threads + Sync, D: Device, C: Clock, G: Gate>(
    rt: &R,
    alloc: Global,
    counts: &mut Counts,
    core: &mut Core<D>,
    clock: &mut C,
    gate: &G,
    seed: u64,
    traces: u32,
) -> Result<(), Memory>
    requires { (held : List Hold) × (port_of D.Device.own).holds core.old held }
    ensures { (items : List Item) × (replies : List Reply)
        × HasMade D.Device.own core.old core.new counts.old counts.new items replies
        × MatchResult result
        (λ _. LinesMade seed traces 0 traces (C.moments clock.old) items (C.moments clock.new))
        (λ _. (count : ℕ) × (count < traces)
        × LinesMade seed traces 0 count (C.moments clock.old) items (C.moments clock.new)) }
{
    for index in 0..traces {
        push_made(rt, alloc, counts, core, clock, gate, seed, traces, index)?;
    }
    Ok(())
}

// Pushes one line, and cuts and flushes all rows where that is due. Nothing is asked where memory runs out for the line.
fn push_made<R: Threads + Sync, D: Device, C: Clock, G: Gate>(
    rt: &R,
    alloc: Global,
    counts: &mut Counts,
    core: &mut Core<D>,
    clock: &mut C,
    gate: &G,
    seed: u64,
    traces: u32,
    index: u32,
) -> Result<(), Memory>
    requires holds { (held : List Hold) × (port_of D.Device.own).holds core.old held }
    requires below { index < traces }
    ensures made { IfOk result (λ _. (items : List Item) × (replies : List Reply)
        × HasMade D.Device.own core.old core.new counts.old counts.new items replies
        × LinesMade seed traces index 1 (C.moments clock.old) items (C.moments clock.new)) }
    ensures none { IfErr result (λ _. (core.new ≡ core.old) × (counts.new ≡ counts.old)
        × (clock.new ≡ clock.old)) }
{
    let line = make_line(alloc, seed, index)?;
    let moment = clock.now();
    let reply = push(rt, alloc, core, gate, line.as_str().as_bytes(), moment);
    counts.add(&reply);
    settle(rt, alloc, counts, core, gate, traces, index);
    Ok(())
}

// Cuts and flushes all rows, where that is due after a line.
fn settle<R: Threads + Sync, D: Device, G: Gate>(
    rt: &R,
    alloc: Global,
    counts: &mut Counts,
    core: &mut Core<D>,
    gate: &G,
    traces: u32,
    index: u32,
)
    requires holds { (held : List Hold) × (port_of D.Device.own).holds core.old held }
    requires below { index < traces }
    ensures { (replies : List Reply) × HasMade D.Device.own core.old core.new counts.old counts.new
        (upkeep_after index traces) replies }
{
    if !is_due(traces, index) {
        return;
    }
    let _cut = ask(rt, alloc, counts, core, gate, Request::CutAll);
    let _flushed = ask(rt, alloc, counts, core, gate, Request::Flush);
}

// Whether all rows are cut and flushed after the line with this index.
fn is_due(traces: u32, index: u32) -> bool
    requires { index < traces }
    ensures { result ≡ is_flushed_after index traces }
{
    (index + 1) % LINES_A_FLUSH == 0 || index + 1 == traces
}

// Compacts as long as blocks are joined.
fn compact_all<R: Threads + Sync, D: Device, G: Gate>(
    rt: &R,
    alloc: Global,
    counts: &mut Counts,
    core: &mut Core<D>,
    gate: &G,
)
    requires { (held : List Hold) × (port_of D.Device.own).holds core.old held }
    ensures { (compactions : List Item) × (joined : List Reply) × (last : Reply)
        × HasMade D.Device.own core.old core.new counts.old counts.new
        (compactions ++ Ok AsksCompact ∷ []) (joined ++ last ∷ [])
        × AreJoined compactions joined × (length joined ≡ length compactions)
        × ((is_joined last ≡ false) ⊎ (length compactions ≡ 4294967294)) }
{
    let mut joins = compact_once(rt, alloc, counts, core, gate);
    'rounds: for _ in 1..MOST_ROUNDS {
        if !joins {
            return;
        }
        joins = compact_once(rt, alloc, counts, core, gate);
    }
}

// Compacts once, and tells whether blocks were joined.
fn compact_once<R: Threads + Sync, D: Device, G: Gate>(
    rt: &R,
    alloc: Global,
    counts: &mut Counts,
    core: &mut Core<D>,
    gate: &G,
) -> bool
    requires { (held : List Hold) × (port_of D.Device.own).holds core.old held }
    ensures { (reply : Reply) × (result ≡ is_joined reply)
        × HasMade D.Device.own core.old core.new counts.old counts.new (Ok AsksCompact ∷ [])
        (reply ∷ []) }
{
    let reply = ask(rt, alloc, counts, core, gate, Request::Compact);
    is_joined(&reply)
}

// Asks this of the core, and counts the reply.
fn ask<R: Threads + Sync, D: Device, G: Gate>(
    rt: &R,
    alloc: Global,
    counts: &mut Counts,
    core: &mut Core<D>,
    gate: &G,
    request: Request,
) -> Reply
    requires { (held : List Hold) × (port_of D.Device.own).holds core.old held }
    ensures { HasMade D.Device.own core.old core.new counts.old counts.new (Ok request ∷ [])
        (result ∷ []) }
{
    let reply = answer_request(rt, alloc, core, request, CLIENT, gate);
    counts.add(&reply);
    reply
}

// Asks the three searches.
fn search_all<R: Threads + Sync, D: Device, C: Clock, P: PatternMaker, G: Gate>(
    rt: &R,
    alloc: Global,
    counts: &mut Counts,
    core: &mut Core<D>,
    clock: &mut C,
    patterns: &mut P,
    gate: &G,
) -> Found
    requires { (held : List Hold) × (port_of D.Device.own).holds core.old held }
    ensures { (items : List Item) × (blamed : List (List ℕ))
        × RefusesOnly P.makes patterns.old patterns.new blamed
        × HasMade D.Device.own core.old core.new counts.old counts.new items
        (found_replies result)
        × AreAsked drill_searches (C.moments clock.old) (map Ask items) blamed
        × (C.moments clock.new ≡ after_lines drill_searches (C.moments clock.old)) }
{
    let errors = search(
        rt,
        alloc,
        counts,
        core,
        clock,
        patterns,
        gate,
        b"search { status = error }",
    );
    let large = search(
        rt,
        alloc,
        counts,
        core,
        clock,
        patterns,
        gate,
        b"search { } | count() > 4",
    );
    let crossing = search(
        rt,
        alloc,
        counts,
        core,
        clock,
        patterns,
        gate,
        b"search { kind = server } >> { kind = client }",
    );
    Found {
        errors,
        large,
        crossing,
    }
}

// Asks one line, and counts the reply.
fn search<R: Threads + Sync, D: Device, C: Clock, P: PatternMaker, G: Gate>(
    rt: &R,
    alloc: Global,
    counts: &mut Counts,
    core: &mut Core<D>,
    clock: &mut C,
    patterns: &mut P,
    gate: &G,
    line: &[u8],
) -> Reply
    requires { (held : List Hold) × (port_of D.Device.own).holds core.old held }
    ensures asked { (item : Item) × (more : List (List ℕ))
        × RefusesOnly P.makes patterns.old patterns.new more
        × HasMade D.Device.own core.old core.new counts.old counts.new (item ∷ []) (result ∷ [])
        × (moment : ℕ) × IsNextMoment (C.moments clock.old) moment
        × AsksAt moment line.now more item }
    ensures clock { C.moments clock.new ≡ after_moment (C.moments clock.old) }
{
    let moment = clock.now();
    let reply = answer(rt, alloc, core, patterns, gate, line, moment);
    counts.add(&reply);
    reply
}

// The four texts of a drill.
#[derive(Drop)]
struct Texts {
    report: String,
    errors: Text,
    large: Text,
    crossing: Text,
}

// Writes the counts and what was found, and tells how the run ends. Nothing is written where memory runs out for a text.
fn tell<K: Sink>(alloc: Global, sink: &mut K, counts: Counts, found: &Found) -> Ending
    ensures told { HasTold result counts (found_replies found.now) (K.taken sink.old)
        (K.taken sink.new) }
    ensures write_fault { result ≡ WriteFault → Rose (K.faults sink.old) (K.faults sink.new) }
    ensures endings { (result ≡ WriteFault)
        ⊎ ((result ≡ Answered) ⊎ ((result ≡ Refused) ⊎ (result ≡ Starved))) }
{
    let Ok(texts) = texts_of(alloc, counts, found) else {
        return Ending::Starved;
    };
    match put_all(sink, &texts) {
        Ok(()) => counts.ending(),
        Err(Failed) => Ending::WriteFault,
    }
}

// The texts of the counts and of what was found.
fn texts_of(alloc: Global, counts: Counts, found: &Found) -> Result<Texts, Memory>
    ensures report { IfOk result (λ t. string_bytes t.report
        ≡ drilled_text counts.pushes counts.accepted counts.refused counts.starved) }
    ensures errors { IfOk result (λ t. t.errors ≡ reply_text found.now.errors) }
    ensures large { IfOk result (λ t. t.large ≡ reply_text found.now.large) }
    ensures crossing { IfOk result (λ t. t.crossing ≡ reply_text found.now.crossing) }
{
    let report = counts.text(alloc)?;
    let errors = write_reply(alloc, &found.errors)?;
    let large = write_reply(alloc, &found.large)?;
    let crossing = write_reply(alloc, &found.crossing)?;
    Ok(Texts {
        report,
        errors,
        large,
        crossing,
    })
}

// Writes the texts, each by one put.
fn put_all<K: Sink>(sink: &mut K, texts: &Texts) -> Result<(), Failed>
    ensures whole { OnOk result (Appends (K.taken sink.old) (K.taken sink.new) (all_texts texts.now)) }
    ensures part { OnErr result (AppendsPrefix (K.taken sink.old) (K.taken sink.new)
        (all_texts texts.now)) }
    ensures failed { OnErr result (Rose (K.faults sink.old) (K.faults sink.new)) }
{
    sink.put(texts.report.as_str().as_bytes())?;
    sink.put(texts.errors.as_str().as_bytes())?;
    sink.put(texts.large.as_str().as_bytes())?;
    sink.put(texts.crossing.as_str().as_bytes())
}
