//! Several clients over one store, each on a thread of its own.

ghost use Rattle.std.specs.Prelude.{◌≡◌, ◌^◌, ◌<◌, ◌≤◌, [], List, IfOk, OnErr, vec_len, vec_capacity};
ghost use Rattle.std.specs.Thread.{IsSend, IsSync};
ghost use Rattle.store_core.specs.Port.{port_of};
ghost use Rattle.port_history.specs.Entries.{Entry};
ghost use Rattle.shared_store.specs.Apart.{IsUnshared};
ghost use Rattle.shared_store.specs.Idle.{IsOf};
ghost use Rattle.shared_store.specs.Over.{AreCallsOf};
ghost use Rattle.shared_store.specs.Rule.{one_less, split_off};
ghost use Rattle.shared_store.specs.Seats.{seat_meaning, stand_of};
ghost use Rattle.client_scripts.specs.Scripts.{HasAnswered};
ghost use Rattle.client_scripts.specs.Served.{HasServed};
ghost use Rattle.client_scripts.specs.Stages.{HaveRun, IsOneOf, KnowsOneLength, MayRun};

use crate::script::{Answered, Script, answer_script};
use disk_model::Device;
use io_edges::Gate;
use shared_store::{PortSeat, PortTicket, SharedPort, a_core_crosses, a_core_is_unshared};
use span_types::Memory;
use std::alloc::Global;
use std::sync::Wait;
use std::thread;
use std::thread::Threads;
use store_core::Core;
use store_state::{LookPort, Port};

/// The scripts of several clients. The number of a client is the place of its script, counted from 0.
pub type Scripts = Vec<Script>;

/// Answers the scripts of several clients over one store, each over a seat of its own and on a thread of its own; the caller waits for
/// all of them. If no thread can be made a script is run by the caller.
///
/// All memory for this is taken before the first thread starts, and if there is none the core comes back as it was. A script that runs
/// out of memory later ends there, and the others go on.
pub fn run_scripts<D: Device + Drop + Send, R: Threads + Wait + Sync, G: Gate>(
    rt: &R,
    alloc: Global,
    core: Core<D>,
    scripts: Scripts,
    gate: &G,
) -> (Core<D>, Result<Vec<Answered>, Memory>)
    requires holds { (port_of D.Device.own).holds core [] }
    requires few { vec_len scripts ≤ 2 ^ 31 }
    ensures served { IfOk result.1 (λ answers. (entries : List Entry) × AreCallsOf D.Device.own core entries result.0
        × HasServed (port_of D.Device.own) core entries scripts.items answers.items result.0) }
    ensures refused { OnErr result.1 (result.0 ≡ core) }
{
    a_core_is_unshared(&core);
    a_core_crosses(&core);
    serve(rt, alloc, core, scripts, gate)
}

// The same over any port.
fn serve<R: Threads + Wait + Sync, Q: Port + Drop + Send, G: Gate>(
    rt: &R,
    alloc: Global,
    port: Q,
    scripts: Scripts,
    gate: &G,
) -> (Q, Result<Vec<Answered>, Memory>)
    requires unshared { IsUnshared Q.meaning }
    requires untouched { Q.meaning.holds port [] }
    requires length { KnowsOneLength Q.meaning port }
    requires few { vec_len scripts ≤ 2 ^ 31 }
    ensures served { IfOk result.1 (λ answers. (entries : List Entry)
        × HasServed Q.meaning port entries scripts.items answers.items result.0) }
    ensures refused { OnErr result.1 (result.0 ≡ port) }
{
    let Ok(answers) = Vec::with_capacity(alloc, scripts.len()) else {
        return (port, Err(Memory));
    };
    match SharedPort::new(alloc, port) {
        Ok((store, ticket)) => {
            let (ticket, answers) = run_all(rt, alloc, &store, ticket, scripts, answers, gate);
            (store.close(rt, ticket), Ok(answers))
        }
        Err((memory, port)) => (port, Err(memory)),
    }
}

// The right to a seat that goes on, and the right to a new one.
fn two<Q: LookPort, R>(
    rt: &R,
    store: &SharedPort<Q>,
    ticket: PortTicket<Q>,
) -> (PortTicket<Q>, PortTicket<Q>)
    requires here { IsOf store.now ticket }
    requires parts { 2 ≤ ticket.known.parts }
    ensures first { result.0 ≡ stand_of ticket.table (one_less ticket.known) }
    ensures second { result.1 ≡ stand_of ticket.table (split_off ticket.known) }
{
    match PortSeat::enter(rt, store, ticket).split() {
        Ok((first, second)) => (first.leave(), second.leave()),
        Err(_) => unreachable!(),
    }
}

// The right to a seat that is made of two.
fn one<Q: LookPort, R>(
    rt: &R,
    store: &SharedPort<Q>,
    first: PortTicket<Q>,
    second: PortTicket<Q>,
) -> PortTicket<Q>
    requires first { IsOf store.now first }
    requires second { IsOf store.now second }
    ensures { IsOneOf first second result }
{
    let other = PortSeat::enter(rt, store, second);
    PortSeat::enter(rt, store, first).join(other).leave()
}

// Answers a script over a seat that is left then.
fn run_one<R: Threads + Wait + Sync, Q: Port, G: Gate>(
    rt: &R,
    alloc: Global,
    store: &SharedPort<Q>,
    ticket: PortTicket<Q>,
    script: Script,
    client: u32,
    gate: &G,
) -> (PortTicket<Q>, Answered)
    requires here { IsOf store.now ticket }
    requires client { client < 2 ^ 31 }
    ensures { HasAnswered (seat_meaning Q.meaning) ticket script result.1 result.0 }
{
    let mut seat = PortSeat::enter(rt, store, ticket);
    let answered = answer_script(rt, alloc, &mut seat, script, client, gate);
    (seat.leave(), answered)
}

// Answers a script on a thread of its own, while the caller does the rest. If no thread can be made the caller answers it too.
fn beside<Q: Port + Send, R: Threads + Wait + Sync, G: Gate, F: FnOnce() -> T, T>(
    rt: &R,
    alloc: Global,
    store: &SharedPort<Q>,
    ticket: PortTicket<Q>,
    script: Script,
    client: u32,
    gate: &G,
    rest: F,
) -> ((PortTicket<Q>, Answered), T)
    requires here { IsOf store.now ticket }
    requires client { client < 2 ^ 31 }
    requires rest { F.pre rest }
    ensures first { HasAnswered (seat_meaning Q.meaning) ticket script result.0.1 result.0.0 }
    ensures second { F.post rest result.1 }
{
    thread::join(
        rt,
        move || -> (PortTicket<Q>, Answered)
            requires { IsSync R.row × IsSend Q.row × IsSync G.row × IsOf store.now ticket × (client < 2 ^ 31) }
            ensures { HasAnswered (seat_meaning Q.meaning) ticket script result.1 result.0 }
        { run_one(rt, alloc, store, ticket, script, client, gate) },
        rest,
    )
}

// Answers all scripts, each on a thread of its own, the last one first off. The tickets of their seats are made one with this one.
fn run_all<R: Threads + Wait + Sync, Q: Port + Send, G: Gate>(
    rt: &R,
    alloc: Global,
    store: &SharedPort<Q>,
    ticket: PortTicket<Q>,
    scripts: Scripts,
    answers: Vec<Answered>,
    gate: &G,
) -> (PortTicket<Q>, Vec<Answered>)
    requires here { IsOf store.now ticket }
    requires fresh { ticket.known.seen.names ≡ [] }
    requires parts { vec_len scripts < ticket.known.parts }
    requires few { vec_len scripts ≤ 2 ^ 31 }
    requires room { vec_len scripts ≤ vec_capacity answers }
    requires empty { answers.items ≡ [] }
    ensures ran { HaveRun Q.meaning ticket scripts.items result.1.items result.0 }
    ensures room { vec_capacity answers ≤ vec_capacity result.1 }
{
    let mut scripts = scripts;
    let Some(last) = scripts.pop() else {
        return (ticket, answers);
    };
    let client = scripts.len() as u32;
    let (ticket, mine) = two(rt, store, ticket);
    let ((mine, answered), (ticket, answers)) = beside(
        rt,
        alloc,
        store,
        mine,
        last,
        client,
        gate,
        move || -> (PortTicket<Q>, Vec<Answered>)
            requires { MayRun store.now ticket scripts answers }
            ensures { HaveRun Q.meaning ticket scripts.items result.1.items result.0 × (vec_capacity answers ≤ vec_capacity result.1) }
        { run_all(rt, alloc, store, ticket, scripts, answers, gate) },
    );
    let mut answers = answers;
    let Ok(()) = answers.push(answered) else {
        unreachable!()
    };
    (one(rt, store, ticket, mine), answers)
}
