//! Eight threads that wait for one turn again and again.

ghost use Rattle.std.specs.Prelude.{◌≡◌, ◌≤◌, ◌+◌, []};
ghost use Rattle.shared_store.specs.Apart.{IsUnshared};
ghost use Rattle.shared_store.specs.Idle.{IsOf};

use crate::seats::{opened, two};
use disk_model::{Device, MemDisk};
use shared_store::{PortSeat, PortTicket, SharedPort, a_core_crosses, a_core_is_unshared};
use std::alloc::Global;
use std::sync::Wait;
use std::test::Fail;
use std::thread;
use std::thread::Threads;
use store_state::LookPort;

// How often each thread asks.
const TURNS: u64 = 125_000;

// Asks so often how many rows are held, and answers how often none were.
fn asks<P: LookPort>(port: &mut P) -> u64 {
    let mut none = 0u64;
    for _ in 0..TURNS {
        if port.held() == 0 {
            none = none.wrapping_add(1);
        }
    }
    none
}

fn asks_at<Q: LookPort, R: Wait>(rt: &R, store: &SharedPort<Q>, ticket: PortTicket<Q>) -> u64
    requires { IsOf store.now ticket }
{
    let mut seat = PortSeat::enter(rt, store, ticket);
    let none = asks(&mut seat);
    let _left = seat.leave();
    none
}

// The rights to two seats.
#[derive(Drop)]
struct Both<Q: LookPort>(PortTicket<Q>, PortTicket<Q>);

// Both threads ask.
fn two_ask<Q: LookPort + Send, R: Threads + Wait + Sync>(
    rt: &R,
    store: &SharedPort<Q>,
    tickets: Both<Q>,
) -> u64
    requires { IsOf store.now tickets.0 × IsOf store.now tickets.1 }
{
    let Both(one, other) = tickets;
    let (first, second) = thread::join(
        rt,
        move ||
            requires { IsOf store.now one }
        { asks_at(rt, store, one) },
        move ||
            requires { IsOf store.now other }
        { asks_at(rt, store, other) },
    );
    first.wrapping_add(second)
}

// Four threads ask.
fn four_ask<Q: LookPort + Send, R: Threads + Wait + Sync>(
    rt: &R,
    store: &SharedPort<Q>,
    one: Both<Q>,
    other: Both<Q>,
) -> u64
    requires one { IsOf store.now one.0 × IsOf store.now one.1 }
    requires other { IsOf store.now other.0 × IsOf store.now other.1 }
{
    let (first, second) = thread::join(
        rt,
        move ||
            requires { IsOf store.now one.0 × IsOf store.now one.1 }
        { two_ask(rt, store, one) },
        move ||
            requires { IsOf store.now other.0 × IsOf store.now other.1 }
        { two_ask(rt, store, other) },
    );
    first.wrapping_add(second)
}

// The right to a seat, and the rights to two new ones.
fn three<Q: LookPort, R>(
    rt: &R,
    store: &SharedPort<Q>,
    ticket: PortTicket<Q>,
) -> (PortTicket<Q>, Both<Q>)
    requires here { IsOf store.now ticket }
    requires parts { 3 ≤ ticket.known.parts }
    ensures here { IsOf store.now result.0 × IsOf store.now result.1.0 × IsOf store.now result.1.1 }
    ensures parts { result.0.known.parts + 2 ≡ ticket.known.parts }
{
    let (ticket, one) = two(rt, store, ticket);
    let (ticket, other) = two(rt, store, ticket);
    (ticket, Both(one, other))
}

// Eight threads ask at a port, and one more seat takes it out. None out of memory.
fn eight_ask<Q: LookPort + Drop + Send, R: Threads + Wait + Sync>(
    rt: &R,
    alloc: Global,
    port: Q,
) -> Option<u64>
    requires unshared { IsUnshared Q.meaning }
    requires untouched { Q.meaning.holds port [] }
{
    let (store, ticket) = SharedPort::new(alloc, port).ok()?;
    let (ticket, a) = three(rt, &store, ticket);
    let (ticket, b) = three(rt, &store, ticket);
    let (ticket, c) = three(rt, &store, ticket);
    let (ticket, d) = three(rt, &store, ticket);
    let shared = &store;
    let (first, second) = thread::join(
        rt,
        move ||
            requires one { IsOf shared.now a.0 × IsOf shared.now a.1 }
            requires other { IsOf shared.now b.0 × IsOf shared.now b.1 }
        { four_ask(rt, shared, a, b) },
        move ||
            requires one { IsOf shared.now c.0 × IsOf shared.now c.1 }
            requires other { IsOf shared.now d.0 × IsOf shared.now d.1 }
        { four_ask(rt, shared, c, d) },
    );
    let _port = store.close(rt, ticket);
    Some(first.wrapping_add(second))
}

fn asked_in<D: Device + Drop + Send, R: Threads + Wait + Sync>(
    rt: &R,
    alloc: Global,
    disk: D,
) -> Option<u64> {
    let core = opened(alloc, disk)?;
    a_core_is_unshared(&core);
    a_core_crosses(&core);
    eight_ask(rt, alloc, core)
}

fn asked<R: Threads + Wait + Sync>(rt: &R, alloc: Global) -> Option<u64> {
    asked_in(rt, alloc, MemDisk::empty(alloc))
}

// A wake that is lost leaves a thread asleep, and this without an end.
#[test]
fn each_of_eight_threads_gets_its_turns(rt: HostRuntime) -> Result<(), Fail> {
    let alloc = rt.alloc();
    assert_eq!(rt; asked(&rt, alloc), Some(8 * TURNS));
    Ok(())
}
