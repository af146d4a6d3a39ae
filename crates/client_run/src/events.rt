//! Running lists of events on a port, one after another, for tests: rounds of flush and compaction go on step by step
//! between other events.

ghost use Rattle.std.specs.Prelude.{◌≡◌, List, Option, IfOk, OnErr};
ghost use Rattle.store_model.specs.Holds.{Hold};
ghost use Rattle.store_state.specs.declared.jobs.Look.{Look as Given};
ghost use Rattle.client_run.specs.declared.event.Event.TheVariants.{Push, Cut, CutAll, FlushStep, CompactStep, Look as TakeLook, Page, Done, Reclaim};
ghost use Rattle.client_run.specs.Calls.{Looks};
ghost use Rattle.client_run.specs.declared.tasks.Tasks.{Tasks};
ghost use Rattle.client_run.specs.EventRuns.{HasRun, HasRunFirst};
ghost use Rattle.client_run.specs.Taken.{HasAnswered, IsReady, MayHaveAnswered, looks_of};

use crate::event::{Event, EventReply, Events, Replies, Seen};
use crate::own_files::OwnFiles;
use crate::taken::{end_look, look_with};
use crate::tasks::{Tasks, no_steps};
use compactor::CompactTask;
use flusher::FlushTask;
use span_types::{Batch, Bytes, Memory, Row, Rows, TryCopy};
use std::alloc::Global;
use store_state::{FlushPort, Look, LookPort, Port, Step};

/// Runs events on a port, one after another, and gives one reply for each.
///
/// An event on a look that isn't open, or on a block that its look's pin doesn't name, is answered `Idle`, and
/// nothing is done. The steps of flushes are made for one task after another, and so are those of compactions. Out of
/// memory the events so far have happened. The looks that aren't given back keep their pins, and a flush or a
/// compaction that isn't at its end stays open.
///
/// Where the port shows its bytes, and knows a history as the run begins, no step finds a block to be malformed.
pub fn run_events<P: OwnFiles>(
    alloc: Global,
    port: &mut P,
    events: &Events,
) -> Result<Replies, Memory>
    requires { (held : List Hold) × P.meaning.holds port.old held }
    ensures ran { IfOk result (λ replies. HasRun P.meaning port.old events.now replies port.new) }
    ensures stopped { OnErr result (HasRunFirst P.meaning port.old events.now port.new) }
{
    let mut looks = Vec::new(alloc);
    let mut tasks = no_steps(alloc);
    let mut replies = Vec::new(alloc);
    let all = events.as_slice();
    for event in all {
        let reply = run_event(alloc, port, &mut looks, &mut tasks, event)?;
        replies.push(reply)?;
    }
    Ok(Replies::of(replies))
}

// Runs an event on a port.
fn run_event<P: OwnFiles>(
    alloc: Global,
    port: &mut P,
    looks: &mut Vec<Option<Look>>,
    tasks: &mut Tasks,
    event: &Event,
) -> Result<EventReply, Memory>
    requires { IsReady P.meaning port.old (looks_of looks.old.items) tasks.old }
    ensures answered { IfOk result (λ reply.
        HasAnswered P.meaning port.old (looks_of looks.old.items) tasks.old event.now reply
        port.new (looks_of looks.new.items) tasks.new) }
    ensures stopped { OnErr result
        (MayHaveAnswered P.meaning port.old
        (looks_of looks.old.items) tasks.old event.now port.new) }
{
    match event {
        Event::Push { batch, moment } => push(port, batch, *moment),
        Event::Cut { moment } => Ok(cut(port, *moment)),
        Event::CutAll => Ok(cut_all(port)),
        Event::FlushStep => Ok(flush_step(alloc, port, tasks)),
        Event::CompactStep => Ok(compact_step(alloc, port, tasks)),
        Event::Look => take_look(port, looks),
        Event::Page { look, block, page } => {
            read_page(alloc, port, looks.as_slice(), *look, *block, *page)
        }
        Event::Done { look } => Ok(give_back(port, looks, *look)),
        Event::Reclaim => Ok(reclaim(port)),
    }
}

// Pushes a copy of a batch.
fn push<P: LookPort>(port: &mut P, batch: &Batch, moment: u64) -> Result<EventReply, Memory>
    ensures answered { (looks : Looks) (tasks : Tasks) → IsReady P.meaning port.old looks tasks →
        IfOk result (λ reply.
        HasAnswered P.meaning port.old looks tasks
        (Push batch.now moment) reply port.new looks tasks) }
    ensures stopped { OnErr result (port.new ≡ port.old) }
{
    let batch = batch.copy()?;
    Ok(EventReply::Pushed(port.push(batch, moment)))
}

// Moves the idle traces to the head.
fn cut<P: FlushPort>(port: &mut P, moment: u64) -> EventReply
    ensures { (looks : Looks) (tasks : Tasks) → IsReady P.meaning port.old looks tasks →
        HasAnswered P.meaning port.old looks tasks (Cut moment) result port.new looks tasks }
{
    EventReply::Cut(port.cut(moment))
}

// Moves all live traces to the head.
fn cut_all<P: FlushPort>(port: &mut P) -> EventReply
    ensures { (looks : Looks) (tasks : Tasks) → IsReady P.meaning port.old looks tasks →
        HasAnswered P.meaning port.old looks tasks CutAll result port.new looks tasks }
{
    EventReply::CutAll(port.cut_all())
}

// Makes the next step of the flush. After the end of a round stands a flush that has made none.
fn flush_step<P: OwnFiles>(alloc: Global, port: &mut P, tasks: &mut Tasks) -> EventReply
    requires { (looks : Looks) × IsReady P.meaning port.old looks tasks.old }
    ensures { (items : List (Option Given))
        → IsReady P.meaning port.old (looks_of items) tasks.old →
        HasAnswered P.meaning port.old (looks_of items) tasks.old FlushStep result port.new
        (looks_of items) tasks.new }
{
    port.jobs_have_own_files();
    match tasks.flush.step(port) {
        Step::Ended(round) => {
            tasks.flush = FlushTask::new(alloc);
            EventReply::Stepped(Step::Ended(round))
        }
        Step::More => EventReply::Stepped(Step::More),
    }
}

// Makes the next step of the compaction. After the end of a round stands a compaction that has made none.
fn compact_step<P: OwnFiles>(alloc: Global, port: &mut P, tasks: &mut Tasks) -> EventReply
    requires { (looks : Looks) × IsReady P.meaning port.old looks tasks.old }
    ensures { (items : List (Option Given))
        → IsReady P.meaning port.old (looks_of items) tasks.old →
        HasAnswered P.meaning port.old (looks_of items) tasks.old CompactStep result port.new
        (looks_of items)
        tasks.new }
{
    port.jobs_have_own_files();
    match tasks.compaction.step(port) {
        Step::Ended(round) => {
            tasks.compaction = CompactTask::new(alloc);
            EventReply::Stepped(Step::Ended(round))
        }
        Step::More => EventReply::Stepped(Step::More),
    }
}

// Takes a look.
fn take_look<P: LookPort>(port: &mut P, looks: &mut Vec<Option<Look>>) -> Result<EventReply, Memory>
    ensures answered { (tasks : Tasks)
        → IsReady P.meaning port.old (looks_of looks.old.items) tasks →
        IfOk result (λ reply.
        HasAnswered P.meaning port.old (looks_of looks.old.items) tasks TakeLook reply
        port.new (looks_of looks.new.items) tasks) }
    ensures stopped { (tasks : Tasks)
        → IsReady P.meaning port.old (looks_of looks.old.items) tasks →
        OnErr result (MayHaveAnswered P.meaning port.old
        (looks_of looks.old.items) tasks TakeLook port.new) }
{
    let look = match port.look() {
        Ok(look) => look,
        Err(error) => return Ok(EventReply::Looked(Err(error))),
    };
    let seen = Seen {
        as_of: look.as_of,
        rows: copies(*looks.allocator(), &look)?,
    };
    looks.push(Some(look))?;
    Ok(EventReply::Looked(Ok(seen)))
}

// Copies of the rows of a look.
fn copies(alloc: Global, look: &Look) -> Result<Rows, Memory>
    ensures { IfOk result (λ rows. rows ≡ look.now.rows) }
{
    let mut rows = Vec::new(alloc);
    let refs = look.rows.refs(alloc)?;
    let all = refs.as_slice();
    for row in all {
        let place = row.place();
        let span = row.span().copy()?;
        rows.push(Row { place, span })?;
    }
    Ok(Rows::of(rows))
}

// Reads a page of a block that the pin of a look names, where the look is open and its pin names it.
fn read_page<P: FlushPort>(
    alloc: Global,
    port: &mut P,
    looks: &[Option<Look>],
    number: u64,
    block: u32,
    page: u64,
) -> Result<EventReply, Memory>
    requires { (tasks : Tasks) × IsReady P.meaning port.old (looks_of looks.now) tasks }
    ensures answered { (tasks : Tasks) → IsReady P.meaning port.old (looks_of looks.now) tasks →
        IfOk result (λ reply.
        HasAnswered P.meaning port.old (looks_of looks.now) tasks (Page number block page) reply
        port.new (looks_of looks.now) tasks) }
    ensures stopped { (tasks : Tasks) → IsReady P.meaning port.old (looks_of looks.now) tasks →
        OnErr result (MayHaveAnswered P.meaning port.old (looks_of looks.now) tasks
        (Page number block page) port.new) }
{
    let Some(look) = look_with(looks, number, block) else {
        return Ok(EventReply::Idle);
    };
    let mut buf = [0; 4096];
    match port.read_page(&look.pin, block, page, &mut buf) {
        Ok(()) => Ok(EventReply::Paged(Ok(page_bytes(alloc, &buf)?))),
        Err(error) => Ok(EventReply::Paged(Err(error))),
    }
}

// A copy of a page: the port filled a buffer of the caller's, and a reply has bytes of its own.
fn page_bytes(alloc: Global, page: &[u8]) -> Result<Bytes, Memory>
    ensures { IfOk result (λ bytes. bytes ≡ page.now) }
{
    let bytes = page.to_vec(alloc)?;
    Ok(Bytes::of(bytes))
}

// Gives a look back, where it is open.
fn give_back<P: LookPort>(port: &mut P, looks: &mut Vec<Option<Look>>, number: u64) -> EventReply
    requires { (tasks : Tasks) × IsReady P.meaning port.old (looks_of looks.old.items) tasks }
    ensures { (tasks : Tasks) → IsReady P.meaning port.old (looks_of looks.old.items) tasks →
        HasAnswered P.meaning port.old (looks_of looks.old.items) tasks (Done number) result
        port.new (looks_of looks.new.items) tasks }
{
    match end_look(looks, number) {
        Some(look) => {
            port.done(look);
            EventReply::Ended
        }
        None => EventReply::Idle,
    }
}

// Empties the loose files that no pin names.
fn reclaim<P: Port>(port: &mut P) -> EventReply
    ensures { (looks : Looks) (tasks : Tasks) → IsReady P.meaning port.old looks tasks →
        HasAnswered P.meaning port.old looks tasks Reclaim result port.new looks tasks }
{
    EventReply::Reclaimed(port.reclaim())
}
