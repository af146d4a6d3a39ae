//! Cuts and flushes in whole sessions: what is idle, what a malformed block and spent numbers of files are answered,
//! and what a stopped flush leaves.

use crate::filled::{check, filled};
use disk_model::{Device, MemDisk, cut_through, write_through};
use run_support::{FINE, calls_to_open, disk_of, play, session_on};
use std::process::Abort;
use std::sync::Wait;
use std::thread::Threads;

static MOMENTS: [u64; 4] = [0, 0, 9_999_999_999, 10_000_000_000];

// A trace is idle when ten seconds have passed since its last push, to the nanosecond.
#[test]
fn a_cut_moves_what_is_idle(rt: HostRuntime) {
    let alloc = rt.alloc();
    let input = filled(alloc, "$x\ncut\ncut\n").expect(&rt, "memory");
    let wanted = filled(alloc, "$0ok cut moved=0\nok cut moved=1\n").expect(&rt, "memory");
    let disk = MemDisk::empty(alloc);
    let played = play(
        &rt,
        alloc,
        disk,
        &["session"],
        input.as_str(),
        FINE,
        &MOMENTS,
    );
    assert!(&rt; played.expect(&rt, "memory").is(wanted.as_str(), 0));
}

// What a session with a push and a flush leaves of an empty disk that stops after so many calls, and its status.
fn flushed<R: Threads + Wait + Sync + Abort + AllocGlobal>(rt: &R, calls: u64) -> (MemDisk, u8) {
    let input = filled(rt.alloc(), "$x\ncutall\nflush\n").expect(rt, "memory");
    let mut disk = MemDisk::empty(rt.alloc());
    disk.stop_after(calls);
    let played = session_on(rt, rt.alloc(), &mut disk, input.as_str()).expect(rt, "memory");
    (disk, played.status)
}

// A byte of the block, what becomes of it, and what the next session writes.
static BROKEN: [(u64, u8, &str); 3] = [
    (0, 55, "refused not-store file=3 at=0\n"),
    (12, 2, "refused not-store file=3 at=12\n"),
    (16_384, 0, "refused not-store file=3 at=16384\n"),
];

// The block is file 3.
#[test]
fn a_block_that_is_malformed_is_told(rt: HostRuntime) {
    let (mut disk, _) = flushed(&rt, u64::MAX);
    assert!(&rt; disk.len(3) == Ok(16_384));
    for (at, byte, wanted) in &BROKEN {
        let mut broken = disk.image(1).expect(&rt, "memory");
        write_through(&mut broken, 3, *at, &[*byte]).expect(&rt, "a disk");
        check(&rt, &mut broken, "$look", (*wanted, 5));
    }
    cut_through(&mut disk, 3, 16_383).expect(&rt, "a disk");
    check(
        &rt,
        &mut disk,
        "$look",
        ("refused not-store file=3 at=16383\n", 5),
    );
}

// The next file, what a session with a flush writes, and its status.
static SPENT: [(u32, &str, u8); 2] = [
    (
        4_294_967_294,
        "$0ok cutall moved=1\nrefused files-spent next=4294967294\nok trace as_of=1 spans=1 $trace\n",
        7,
    ),
    (
        4_294_967_293,
        "$0ok cutall moved=1\nok flush rows=1\nok trace as_of=1 spans=1 $trace\n",
        0,
    ),
];

#[test]
fn file_numbers_may_be_spent(rt: HostRuntime) {
    for (next_file, wanted, status) in &SPENT {
        let mut disk = disk_of(rt.alloc(), *next_file, 0).expect(&rt, "a disk");
        check(
            &rt,
            &mut disk,
            "$x\ncutall\nflush\n$look\n",
            (*wanted, *status),
        );
    }
}

// Asserts that a session finds the pushed span in each of four images of a disk.
fn check_kept<R: Threads + Wait + Sync + Abort + AllocGlobal>(rt: &R, disk: &MemDisk) {
    for pick in 0..4 {
        let mut image = disk.image(pick).expect(rt, "memory");
        check(
            rt,
            &mut image,
            "$look",
            ("ok trace as_of=1 spans=1 $trace\n", 0),
        );
    }
}

#[test]
fn a_stopped_flush_loses_nothing(rt: HostRuntime) {
    let opening = calls_to_open(&rt, rt.alloc()).expect(&rt, "memory");
    let pushed = opening.saturating_add(4);
    let mut ended = false;
    // A flush makes fewer than 40 calls.
    for made in 0..40 {
        let (disk, status) = flushed(&rt, pushed.saturating_add(made));
        check_kept(&rt, &disk);
        ended |= status == 0;
    }
    assert!(&rt; ended);
}
