//! Seats of one store, and the threads in which they follow their plans.

ghost use Rattle.std.specs.Prelude.{◌≡◌, ◌≤◌, ◌+◌, List, [], IfSome};
ghost use Rattle.shared_store.specs.Apart.{IsUnshared};
ghost use Rattle.shared_store.specs.Idle.{IsOf};
ghost use Rattle.shared_store.specs.Seats.{seat_meaning};
ghost use Rattle.store_core.specs.Port.{port_of};
ghost use Rattle.store_model.specs.Holds.{Hold};
ghost use Rattle.store_state.specs.Given.{flush_of, look_of};
ghost use Rattle.store_state.specs.Meaning.{IsOpen};

use crate::found::{Found, read_all, shown};
use crate::spans::Batches;
use crate::steps::{Log, Plan, Steps, follow, plan_of};
use disk_model::{Device, MemDisk};
use shared_store::{PortSeat, PortTicket, SharedPort, a_core_crosses, a_core_is_unshared};
use span_types::Rows;
use std::alloc::Global;
use std::sync::Wait;
use std::thread;
use std::thread::Threads;
use store_core::{Core, a_shown_core_is_a_port};
use store_state::{FlushJob, FlushPort, Look, LookPort, Port};

// The store that a disk holds, in which nothing is open. None where it isn't opened.
pub(crate) fn opened<D: Device>(alloc: Global, disk: D) -> Option<Core<D>>
    ensures { IfSome result (λ core. (port_of D.Device.own).holds core []) }
{
    match Core::open_store(alloc, disk, 7) {
        Ok(core) => {
            a_shown_core_is_a_port(&core);
            Some(core)
        }
        Err(_) => None,
    }
}

// The right to a seat, and the right to a new one.
pub(crate) fn two<Q: LookPort, R>(
    rt: &R,
    store: &SharedPort<Q>,
    ticket: PortTicket<Q>,
) -> (PortTicket<Q>, PortTicket<Q>)
    requires here { IsOf store.now ticket }
    requires parts { 2 ≤ ticket.known.parts }
    ensures here { IsOf store.now result.0 × IsOf store.now result.1 }
    ensures parts { result.0.known.parts + 1 ≡ ticket.known.parts }
{
    match PortSeat::enter(rt, store, ticket).split() {
        Ok((first, second)) => (first.leave(), second.leave()),
        Err(_) => unreachable!(),
    }
}

// The right to a seat that is made of two.
fn one<Q: LookPort, R>(
    rt: &R,
    store: &SharedPort<Q>,
    first: PortTicket<Q>,
    second: PortTicket<Q>,
) -> PortTicket<Q>
    requires first { IsOf store.now first }
    requires second { IsOf store.now second }
    ensures { IsOf store.now result }
{
    let other = PortSeat::enter(rt, store, second);
    PortSeat::enter(rt, store, first).join(other).leave()
}

// What a seat is told that follows a plan and is left then.
fn follow_at<Q: Port, R: Wait>(
    rt: &R,
    alloc: Global,
    store: &SharedPort<Q>,
    ticket: PortTicket<Q>,
    plan: Plan,
) -> Log
    requires { IsOf store.now ticket }
{
    let mut seat = PortSeat::enter(rt, store, ticket);
    let log = follow(alloc, &mut seat, &plan);
    let _left = seat.leave();
    log
}

// The rights to two seats, and what they do, each in a thread of its own.
#[derive(Drop)]
struct Pair<Q: LookPort> {
    first: (PortTicket<Q>, Plan),
    second: (PortTicket<Q>, Plan),
}

fn follow_both<Q: Port + Send, R: Threads + Wait + Sync>(
    rt: &R,
    alloc: Global,
    store: &SharedPort<Q>,
    pair: Pair<Q>,
) -> (Log, Log)
    requires { IsOf store.now pair.first.0 × IsOf store.now pair.second.0 }
{
    let Pair { first, second } = pair;
    let (first, one) = first;
    let (second, other) = second;
    thread::join(
        rt,
        move ||
            requires { IsOf store.now first }
        { follow_at(rt, alloc, store, first, one) },
        move ||
            requires { IsOf store.now second }
        { follow_at(rt, alloc, store, second, other) },
    )
}

// What a third seat holds meanwhile.
#[derive(Clone, Copy)]
pub(crate) enum Host {
    Nothing,
    // A flush, which is given up then.
    Flush,
    // A look, which is given back then.
    Look,
    // A look, whose seat is dropped then.
    DroppedLook,
}

// What seats do: the host before it holds something, two seats meanwhile, and the last one once nothing is held.
#[derive(Clone, Copy)]
pub(crate) struct Plans {
    pub(crate) host: Host,
    pub(crate) before: Plan,
    pub(crate) first: Plan,
    pub(crate) second: Plan,
    pub(crate) last: Plan,
}

// What they are told. What is held shows the same before and after the two seats.
#[derive(Drop)]
pub(crate) struct Logs {
    pub(crate) before: Log,
    pub(crate) first: Log,
    pub(crate) second: Log,
    pub(crate) last: Log,
    pub(crate) same: bool,
}

// What two seats are told, and whether what is held shows the same before and after.
type Beside = ((Log, Log), bool);

// Gives a flush up once two seats have followed their plans.
fn beside_flush<Q: Port + Send, R: Threads + Wait + Sync>(
    rt: &R,
    alloc: Global,
    store: &SharedPort<Q>,
    host: &mut PortSeat<'_, Q, R>,
    pair: Pair<Q>,
    job: FlushJob,
) -> Beside
    requires open { IsOpen (seat_meaning Q.meaning) host.old (flush_of job) }
    requires pair { IsOf store.now pair.first.0 × IsOf store.now pair.second.0 }
{
    let logs = follow_both(rt, alloc, store, pair);
    host.drop_flush(job);
    (logs, true)
}

fn are_same(one: &Rows, other: &Rows) -> bool {
    let mut same = one.len() == other.len();
    for (a, b) in one.as_slice().iter().zip(other.as_slice()) {
        same &= a.place == b.place && a.span.key() == b.span.key();
    }
    same
}

// Whether both are there, with some row, and the same.
fn are_shown(one: &Option<Rows>, other: &Option<Rows>) -> bool {
    match (one, other) {
        (Some(one), Some(other)) => one.len() > 0 && are_same(one, other),
        _ => false,
    }
}

// Reads a look before and after two seats have followed their plans, and gives it back or drops it.
fn beside_look<Q: Port + Send, R: Threads + Wait + Sync>(
    rt: &R,
    alloc: Global,
    store: &SharedPort<Q>,
    host: &mut PortSeat<'_, Q, R>,
    pair: Pair<Q>,
    look: Look,
    gives_back: bool,
) -> Beside
    requires open { IsOpen (seat_meaning Q.meaning) host.old (look_of look) }
    requires pair { IsOf store.now pair.first.0 × IsOf store.now pair.second.0 }
{
    let before = shown(alloc, host, &look);
    let logs = follow_both(rt, alloc, store, pair);
    let after = shown(alloc, host, &look);
    if gives_back {
        host.done(look);
    }
    (logs, are_shown(&before, &after))
}

fn beside_a_flush<Q: Port + Send, R: Threads + Wait + Sync>(
    rt: &R,
    alloc: Global,
    store: &SharedPort<Q>,
    host: &mut PortSeat<'_, Q, R>,
    pair: Pair<Q>,
) -> Option<Beside>
    requires { IsOf store.now pair.first.0 × IsOf store.now pair.second.0 }
{
    match host.begin_flush() {
        Ok(Some(job)) => Some(beside_flush(rt, alloc, store, host, pair, job)),
        _ => None,
    }
}

fn beside_a_look<Q: Port + Send, R: Threads + Wait + Sync>(
    rt: &R,
    alloc: Global,
    store: &SharedPort<Q>,
    host: &mut PortSeat<'_, Q, R>,
    pair: Pair<Q>,
    gives_back: bool,
) -> Option<Beside>
    requires { IsOf store.now pair.first.0 × IsOf store.now pair.second.0 }
{
    match host.look() {
        Ok(look) => Some(beside_look(rt, alloc, store, host, pair, look, gives_back)),
        Err(_) => None,
    }
}

// What two seats are told beside what the host holds. None where it holds nothing, though it should.
fn beside<Q: Port + Send, R: Threads + Wait + Sync>(
    rt: &R,
    alloc: Global,
    store: &SharedPort<Q>,
    host: &mut PortSeat<'_, Q, R>,
    pair: Pair<Q>,
    what: Host,
) -> Option<Beside>
    requires { IsOf store.now pair.first.0 × IsOf store.now pair.second.0 }
{
    match what {
        Host::Nothing => Some((follow_both(rt, alloc, store, pair), true)),
        Host::Flush => beside_a_flush(rt, alloc, store, host, pair),
        Host::Look => beside_a_look(rt, alloc, store, host, pair, true),
        Host::DroppedLook => beside_a_look(rt, alloc, store, host, pair, false),
    }
}

// The same, with what the host is told before.
fn hosted<Q: Port + Send, R: Threads + Wait + Sync>(
    rt: &R,
    alloc: Global,
    store: &SharedPort<Q>,
    host: PortTicket<Q>,
    pair: Pair<Q>,
    plans: &Plans,
) -> (Log, Option<Beside>)
    requires host { IsOf store.now host }
    requires pair { IsOf store.now pair.first.0 × IsOf store.now pair.second.0 }
{
    let mut seat = PortSeat::enter(rt, store, host);
    let before = follow(alloc, &mut seat, &plans.before);
    let beside = beside(rt, alloc, store, &mut seat, pair, plans.host);
    let _left = seat.leave();
    (before, beside)
}

// What seats of a port are told, and the port that they leave. The last seat is made of two. None out of memory, or where the host holds
// nothing, though it should.
fn shared_by<Q: Port + Drop + Send, R: Threads + Wait + Sync>(
    rt: &R,
    alloc: Global,
    port: Q,
    plans: &Plans,
) -> Option<(Logs, Q)>
    requires unshared { IsUnshared Q.meaning }
    requires untouched { Q.meaning.holds port [] }
    ensures { IfSome result (λ r. (held : List Hold) × Q.meaning.holds r.1 held) }
{
    let (store, ticket) = SharedPort::new(alloc, port).ok()?;
    let (ticket, host) = two(rt, &store, ticket);
    let (ticket, first) = two(rt, &store, ticket);
    let (ticket, second) = two(rt, &store, ticket);
    let (ticket, last) = two(rt, &store, ticket);
    let (ticket, spare) = two(rt, &store, ticket);
    let pair = Pair {
        first: (first, plans.first),
        second: (second, plans.second),
    };
    let (before, beside) = hosted(rt, alloc, &store, host, pair, plans);
    let last = one(rt, &store, last, spare);
    let last = follow_at(rt, alloc, &store, last, plans.last);
    let port = store.close(rt, ticket);
    let ((first, second), same) = beside?;
    let logs = Logs {
        before,
        first,
        second,
        last,
        same,
    };
    Some((logs, port))
}

// What seats are told of the store that a disk holds, what it shows once they are gone, and its disk.
#[derive(Drop)]
pub(crate) struct Played<D: Drop> {
    pub(crate) logs: Logs,
    pub(crate) closed: Found,
    pub(crate) disk: D,
}

fn shared<D: Device + Drop + Send, R: Threads + Wait + Sync>(
    rt: &R,
    alloc: Global,
    disk: D,
    plans: &Plans,
) -> Option<Played<D>> {
    let core = opened(alloc, disk)?;
    a_core_is_unshared(&core);
    a_core_crosses(&core);
    let (logs, core) = shared_by(rt, alloc, core, plans)?;
    let mut core = core;
    let closed = read_all(alloc, &mut core);
    let disk = core.close();
    let closed = closed?;
    Some(Played { logs, closed, disk })
}

// The same over a disk in memory.
pub(crate) fn play_out<R: Threads + Wait + Sync>(
    rt: &R,
    alloc: Global,
    disk: MemDisk,
    plans: &Plans,
) -> Option<Played<MemDisk>> {
    shared(rt, alloc, disk, plans)
}

// What the store that a disk holds shows. None where it isn't opened or read.
pub(crate) fn found_in<D: Device>(alloc: Global, disk: D) -> Option<Found> {
    let mut core = opened(alloc, disk)?;
    read_all(alloc, &mut core)
}

static NOTHING: [Steps; 0] = [];

// A seat that does nothing.
pub(crate) fn idle() -> Plan {
    plan_of(&NOTHING, 0, Batches::Empty)
}
