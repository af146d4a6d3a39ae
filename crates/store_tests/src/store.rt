//! Stores over a disk in memory, played call by call: each is opened, played and closed in one function, and no other
//! one holds a store.

use crate::live::{another, both, many};
use disk_model::{Device, MemDisk};
use span_types::{Batch, Calls, Memory, Spans};
use std::alloc::Global;
use store_core::Core;
use store_files::OpenError;
use store_state::{LookPort, PushError};

// What a push answers.
pub(crate) type Answer = Result<u64, PushError>;

// A call of a store, and what it answers.
#[derive(Clone, Copy)]
pub(crate) enum Step {
    // A push of a span of each of two traces.
    Both(Answer),
    // A push of another span of the former trace.
    Another(Answer),
    // A push of a batch without spans.
    Empty(Answer),
    // So many pushes of as many spans as a batch may have, numbered from 0.
    Full(u64),
    Held(u64),
    // A look at so many pushes.
    Pushes(u64),
}

fn push<P: LookPort>(port: &mut P, batch: Result<Batch, Memory>) -> Answer {
    match batch {
        Ok(batch) => port.push(batch, 6),
        Err(_) => Err(PushError::Memory),
    }
}

fn empty(alloc: Global) -> Batch {
    Batch {
        spans: Spans::none(alloc),
    }
}

fn takes_full<P: LookPort>(alloc: Global, port: &mut P, count: u64) -> bool {
    let mut same = true;
    for number in 0..count {
        same &= push(port, many(alloc, 16_384)) == Ok(number);
    }
    same
}

// How many pushes a look shows; none out of memory.
fn pushes_shown<P: LookPort>(port: &mut P) -> Option<u64> {
    match port.look() {
        Ok(look) => Some(look.as_of),
        Err(_) => None,
    }
}

// Whether the step is answered so.
fn play<P: LookPort>(alloc: Global, port: &mut P, step: Step) -> bool {
    match step {
        Step::Both(answer) => push(port, both(alloc)) == answer,
        Step::Another(answer) => push(port, another(alloc)) == answer,
        Step::Empty(answer) => push(port, Ok(empty(alloc))) == answer,
        Step::Full(count) => takes_full(alloc, port, count),
        Step::Held(rows) => port.held() == rows,
        Step::Pushes(count) => pushes_shown(port) == Some(count),
    }
}

// Whether each step is answered so.
fn plays<P: LookPort>(alloc: Global, port: &mut P, steps: &[Step]) -> bool {
    let mut same = true;
    for step in steps {
        same &= play(alloc, port, *step);
    }
    same
}

// What goes wrong with a disk, counted in its calls from then on.
#[derive(Clone, Copy)]
pub(crate) enum Upset {
    // The call of that number fails, counted from 1.
    Fails(u64),
    // All calls after so many fail.
    Stops(u64),
}

// A disk that may be upset. False is out of memory.
pub(crate) trait Upsets: Device {
    fn upset(&mut self, alloc: Global, upset: Upset) -> bool;
}

impl Upsets for MemDisk {
    fn upset(&mut self, alloc: Global, upset: Upset) -> bool {
        match upset {
            Upset::Stops(calls) => {
                self.stop_after(calls);
                true
            }
            Upset::Fails(call) => match Vec::from_array(alloc, [call]) {
                Ok(calls) => {
                    self.fail_at(Calls::of(calls));
                    true
                }
                Err(_) => false,
            },
        }
    }
}

// A disk that counts its reads.
pub(crate) trait CountsReads: Device {
    fn reads_made(&self) -> u64;
}

impl CountsReads for MemDisk {
    fn reads_made(&self) -> u64 {
        self.reads()
    }
}

// Opens a disk, plays the steps and closes the store again: whether each step is answered so, and the disk.
pub(crate) fn played<D: Device>(alloc: Global, disk: D, steps: &[Step]) -> (bool, D) {
    match Core::open_store(alloc, disk, 7) {
        Ok(core) => {
            let mut core = core;
            let same = plays(alloc, &mut core, steps);
            (same, core.close())
        }
        Err((_, disk)) => (false, disk),
    }
}

// How many pushes a look at the store shows that a disk holds, and the disk.
pub(crate) fn counted<D: Device>(alloc: Global, disk: D) -> (Option<u64>, D) {
    match Core::open_store(alloc, disk, 7) {
        Ok(core) => {
            let mut core = core;
            let count = pushes_shown(&mut core);
            (count, core.close())
        }
        Err((_, disk)) => (None, disk),
    }
}

// What a push of a batch without spans is answered by the store that a disk holds, or why it isn't opened; and the
// disk.
pub(crate) fn first_answer<D: Device>(alloc: Global, disk: D) -> (Result<Answer, OpenError>, D) {
    match Core::open_store(alloc, disk, 7) {
        Ok(core) => {
            let mut core = core;
            let answer = push(&mut core, Ok(empty(alloc)));
            (Ok(answer), core.close())
        }
        Err((error, disk)) => (Err(error), disk),
    }
}

// Whether a push gets this number, and is found when the store is opened again.
fn goes_on<D: Device>(alloc: Global, disk: D, number: u64) -> bool {
    let (answered, disk) = played(alloc, disk, &[Step::Another(Ok(number))]);
    let (found, _) = counted(alloc, disk);
    answered && found == Some(number.saturating_add(1))
}

// How many pushes an image opens with, if it is written on.
pub(crate) fn pushes_in(alloc: Global, disk: &MemDisk, pick: u64) -> Result<Option<u64>, Memory> {
    let (count, image) = counted(alloc, disk.image(pick)?);
    Ok(match count {
        Some(number) if goes_on(alloc, image, number) => Some(number),
        _ => None,
    })
}
