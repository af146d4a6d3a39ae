//! Thousands of rounds of two seats on two threads, against a history of one thread.

use crate::found::Found;
use crate::history::{Firsts, all_show, firsts_of, goes_on, history_of, shows};
use crate::seats::{Host, Logs, Plans, Played, found_in, idle, play_out};
use crate::spans::{EVEN, ODD};
use crate::steps::{Log, Said, Step, Steps, plan_of};
use disk_model::MemDisk;
use std::alloc::Global;
use std::sync::Wait;
use std::test::Fail;
use std::thread::Threads;
use store_state::{Refusal, Round};

static FIRST: [Steps; 10] = [
    (Step::Push, 23),
    (Step::Cut, 1),
    (Step::Push, 17),
    (Step::Flush, 1),
    (Step::Push, 31),
    (Step::CutAll, 1),
    (Step::Flush, 1),
    (Step::Compact, 1),
    (Step::Look, 1),
    (Step::Reclaim, 1),
];

static SECOND: [Steps; 9] = [
    (Step::Push, 19),
    (Step::CutAll, 1),
    (Step::Push, 11),
    (Step::Flush, 1),
    (Step::Push, 13),
    (Step::Look, 1),
    (Step::Push, 9),
    (Step::Compact, 1),
    (Step::Reclaim, 1),
];

fn two_thousand() -> Plans {
    Plans {
        host: Host::Nothing,
        before: idle(),
        first: plan_of(&FIRST, 14, EVEN),
        second: plan_of(&SECOND, 20, ODD),
        last: idle(),
    }
}

// How many blocks a step made, and how many it joined.
fn blocks_of(said: Said) -> (u64, u64) {
    match said {
        Said::Flushed(Round::Did { blocks, .. }) => (u64::from(blocks), 0),
        Said::Compacted(Round::Did { blocks, .. }) => (1, u64::from(blocks)),
        _ => (0, 0),
    }
}

// Whether a step was refused, but for a round since another one of its kind was open.
fn is_refused(said: Said) -> bool {
    match said {
        Said::Flushed(Round::Refused(why)) | Said::Compacted(Round::Refused(why)) => {
            !matches!(why, Refusal::Busy { .. })
        }
        Said::NotPushed(_) | Said::NotEmptied(_) | Said::Nothing => true,
        _ => false,
    }
}

// Whether no step of a seat was refused so.
fn goes_well(log: &Log) -> bool {
    let mut right = log.whole;
    for said in log.said.as_slice() {
        right &= !is_refused(*said);
    }
    right
}

// How many blocks a seat made, and how many it joined.
fn all_blocks_of(log: &Log) -> (u64, u64) {
    let mut made = 0u64;
    let mut joined = 0u64;
    for said in log.said.as_slice() {
        let more = blocks_of(*said);
        made = made.saturating_add(more.0);
        joined = joined.saturating_add(more.1);
    }
    (made, joined)
}

// Whether two seats left so many blocks.
fn leave(logs: &Logs, blocks: usize) -> bool {
    let first = all_blocks_of(&logs.first);
    let second = all_blocks_of(&logs.second);
    let made = first.0.saturating_add(second.0);
    let joined = first.1.saturating_add(second.1);
    made == joined.saturating_add(blocks as u64)
}

// Whether what two seats were told and shown, and what they leave, is that of one history.
fn is_one_history(firsts: &Firsts, pushes: u64, logs: &Logs, ends: &[Found]) -> bool {
    let mut right = goes_well(&logs.first) && goes_well(&logs.second);
    right &= goes_on(&logs.first) && goes_on(&logs.second);
    right &= all_show(firsts, &logs.first) && all_show(firsts, &logs.second);
    for end in ends {
        right &= end.as_of == pushes && shows(firsts, end);
        right &= leave(logs, end.blocks);
    }
    right
}

// The same, of a run of both and of its store once it is opened again.
fn make_one_history<R: Threads + Wait + Sync>(rt: &R, alloc: Global) -> Option<bool> {
    let played = play_out(rt, alloc, MemDisk::empty(alloc), &two_thousand())?;
    let Played { logs, closed, disk } = played;
    let again = found_in(alloc, disk)?;
    let history = history_of(alloc, (&logs.first, EVEN), (&logs.second, ODD))?;
    let firsts = firsts_of(alloc, history.as_slice()).ok()?;
    let all = history.len() == 14 * 71 + 20 * 52;
    Some(all && is_one_history(&firsts, history.len() as u64, &logs, &[closed, again]))
}

#[test]
fn two_seats_make_one_history(rt: HostRuntime) -> Result<(), Fail> {
    assert_eq!(rt; make_one_history(&rt, rt.alloc()), Some(true));
    Ok(())
}
