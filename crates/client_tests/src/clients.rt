//! Clients that push and look up beside each other: two, and eight that ask 2,000 lines each.

ghost use Rattle.std.specs.Prelude.{[], IfSome};
ghost use Rattle.store_core.specs.Port.{port_of};

use crate::spans::{TRACE_SPANS, ask, push};
use client_scripts::{Answered, Script, Scripts, run_scripts};
use disk_model::{Device, MemDisk};
use io_edges::{Gate, OpenGate};
use session_text::Reply;
use std::alloc::Global;
use std::sync::{Barrier, Wait};
use std::test::Fail;
use std::thread::Threads;
use store_core::{Core, a_shown_core_is_a_port};

// So many clients, and how often each of them pushes a span and looks a trace up.
#[derive(Clone, Copy)]
struct Load {
    clients: u8,
    times: u16,
}

const TWO: Load = Load {
    clients: 2,
    times: 50,
};

// Each of them asks 2,000 lines.
const EIGHT: Load = Load {
    clients: 8,
    times: 1000,
};

// The store that a disk holds, in which nothing is open. None where it isn't opened.
fn opened<D: Device>(alloc: Global, disk: D) -> Option<Core<D>>
    ensures { IfSome result (λ core. (port_of D.Device.own).holds core []) }
{
    match Core::open_store(alloc, disk, 7) {
        Ok(core) => {
            a_shown_core_is_a_port(&core);
            Some(core)
        }
        Err(_) => None,
    }
}

// The client after this one, round and round.
fn next_of(load: Load, client: u8) -> u8 {
    let next = client.wrapping_add(1);
    if next < load.clients { next } else { 0 }
}

// What a client asks: after each push for the trace that the next client is at.
fn script(alloc: Global, load: Load, client: u8) -> Option<Script> {
    let other = next_of(load, client);
    let mut items = Vec::new(alloc);
    for number in 0..load.times {
        let one = push(alloc, client, number)?;
        items.push(Ok(one)).ok()?;
        items.push(Ok(ask(other, number))).ok()?;
    }
    Some(Script::of(items))
}

// What each client asks.
fn scripts(alloc: Global, load: Load) -> Option<Scripts> {
    let mut all = Vec::new(alloc);
    for client in 0..load.clients {
        all.push(script(alloc, load, client)?).ok()?;
    }
    Some(all)
}

// The place of a client's push in the list of all of them, client by client.
fn place(load: Load, client: u8, number: u16) -> usize {
    let before = usize::from(client).wrapping_mul(usize::from(load.times));
    before.wrapping_add(usize::from(number))
}

// The numbers that a client's pushes were given, if each second reply is that of a push.
fn add_numbers(numbers: &mut Vec<u64>, replies: &[Reply]) -> Option<()> {
    for pair in replies.chunks(2) {
        let Some(Reply::Pushed { number, .. }) = pair.first() else {
            return None;
        };
        numbers.push(*number).ok()?;
    }
    Some(())
}

// Whether these are the numbers from 0 on, each once.
fn are_all(alloc: Global, numbers: &[u64]) -> Option<bool> {
    let mut given = Vec::new(alloc);
    given.resize(numbers.len(), false).ok()?;
    for number in numbers {
        let is = given.as_mut_slice().get_mut(*number as usize)?;
        *is = true;
    }
    Some(given.as_slice().iter().all(|is| *is))
}

// How many spans a trace has that has so many pushes before it: those of its pushes that have a lower number.
fn spans_of(load: Load, numbers: &[u64], client: u8, number: u16, as_of: u64) -> Option<usize> {
    let first = place(load, client, number.wrapping_sub(number % TRACE_SPANS));
    let last = first.wrapping_add(usize::from(TRACE_SPANS));
    let pushes = numbers.get(first..last)?;
    let mut spans = 0usize;
    for one in pushes {
        if *one < as_of {
            spans = spans.wrapping_add(1);
        }
    }
    Some(spans)
}

// Whether a client's replies stand in the one history that the numbers of all pushes make: each covers what the client was told before,
// and a look-up shows just the spans of the pushes that it covers.
fn stand(load: Load, numbers: &[u64], client: u8, replies: &[Reply]) -> Option<bool> {
    let other = next_of(load, client);
    let mut known = 0u64;
    let mut number = 0u16;
    let mut all = true;
    for pair in replies.chunks(2) {
        let own = *numbers.get(place(load, client, number))?;
        let Some(Reply::Traced { as_of, rows }) = pair.last() else {
            return None;
        };
        all &= known <= own && own < *as_of;
        all &= spans_of(load, numbers, other, number, *as_of)? == rows.len();
        known = *as_of;
        number = number.wrapping_add(1);
    }
    Some(all)
}

// Whether each client was answered all that it asked, and all that they were answered stands in one history.
fn stand_together(alloc: Global, load: Load, answers: &[Answered]) -> Option<bool> {
    let lines = usize::from(load.times).wrapping_mul(2);
    let mut all = answers.len() == usize::from(load.clients);
    let mut numbers = Vec::new(alloc);
    for answered in answers {
        all &= !answered.starved && answered.replies.len() == lines;
        add_numbers(&mut numbers, answered.replies.as_slice())?;
    }
    let mut client = 0u8;
    for answered in answers {
        all &= stand(
            load,
            numbers.as_slice(),
            client,
            answered.replies.as_slice(),
        )?;
        client = client.wrapping_add(1);
    }
    Some(all && are_all(alloc, numbers.as_slice())?)
}

// Answers clients that pass the gate after each push, and tells whether all stands in one history.
fn answered<R: Threads + Wait + Sync, G: Gate>(
    rt: &R,
    alloc: Global,
    load: Load,
    gate: &G,
) -> Option<bool> {
    let all = scripts(alloc, load)?;
    if all.len() > 16 {
        return None;
    }
    let core = opened(alloc, MemDisk::empty(alloc))?;
    let (core, answers) = run_scripts(rt, alloc, core, all, gate);
    let _disk = core.close();
    let answers = answers.ok()?;
    stand_together(alloc, load, answers.as_slice())
}

#[test]
fn two_clients_are_answered_of_one_history(rt: HostRuntime) -> Result<(), Fail> {
    assert_eq!(rt; answered(&rt, rt.alloc(), TWO, &OpenGate), Some(true));
    Ok(())
}

#[test]
fn eight_clients_are_answered_of_one_history(rt: HostRuntime) -> Result<(), Fail> {
    assert_eq!(rt; answered(&rt, rt.alloc(), EIGHT, &OpenGate), Some(true));
    Ok(())
}

// A gate at which two clients wait for each other.
#[derive(Drop)]
struct Meeting<'a, R: Wait + Sync> {
    rt: &'a R,
    both: Barrier,
}

impl<R: Wait + Sync> Gate for Meeting<'_, R> {
    fn pass(&self, _point: u32) {
        let _last = self.both.wait(self.rt);
    }
}

// After each push a client waits until the other one has pushed as often: if the scripts were answered one after the
// other, this wouldn't end.
#[test]
fn two_clients_are_at_work_at_once(rt: HostRuntime) -> Result<(), Fail> {
    let meeting = Meeting {
        rt: &rt,
        both: Barrier::new(2),
    };
    assert_eq!(rt; answered(&rt, rt.alloc(), TWO, &meeting), Some(true));
    Ok(())
}
