//! What is durable: sessions on disks whose calls fail, and on what a stopped session leaves.

use crate::filled::{check, filled};
use disk_model::{MemDisk, write_through};
use run_support::{PUSH_X, calls, calls_to_open, disk_of, session_on};
use std::process::Abort;
use std::sync::Wait;
use std::thread::Threads;

const SEARCH: &str = "search { .none = 1 }\n";

const NO_PUSH: &str = "ok search as_of=0 traces=0 {\"traces\":[]}\n";

const ONE_PUSH: &str = "ok search as_of=1 traces=0 {\"traces\":[]}\n";

// An empty disk of which one call fails.
fn failing(rt: &(impl Abort + AllocGlobal), call: u64) -> MemDisk {
    let mut disk = MemDisk::empty(rt.alloc());
    disk.fail_at(calls(rt.alloc(), &[call]).expect(rt, "memory"));
    disk
}

// The status of a session with one push and a search on an empty disk of which one call fails.
fn status_at<R: Threads + Wait + Sync + Abort + AllocGlobal>(rt: &R, call: u64) -> u8 {
    let input = filled(rt.alloc(), "$x\nsearch { .none = 1 }\n").expect(rt, "memory");
    let mut disk = failing(rt, call);
    session_on(rt, rt.alloc(), &mut disk, input.as_str())
        .expect(rt, "memory")
        .status
}

// A call after the opening, and the status where it fails.
static CALLS: [(u64, u8); 5] = [(1, 7), (2, 7), (3, 7), (4, 7), (5, 0)];

#[test]
fn a_push_makes_four_calls_of_the_disk(rt: HostRuntime) {
    let opening = calls_to_open(&rt, rt.alloc()).expect(&rt, "memory");
    assert!(&rt; opening > 0);
    for (call, status) in &CALLS {
        let got = status_at(&rt, opening.saturating_add(*call));
        assert!(&rt; got == *status, "{call}");
    }
}

#[test]
fn a_store_whose_disk_failed_is_read_only(rt: HostRuntime) {
    let opening = calls_to_open(&rt, rt.alloc()).expect(&rt, "memory");
    let lines = "$x\n$y\nsearch { .none = 1 }\n";
    let wanted =
        "refused disk-fault\nrefused read-only faults=1\nok search as_of=0 traces=0 {\"traces\":[]}\n";
    for call in 3..=4 {
        let mut disk = failing(&rt, opening.saturating_add(call));
        check(&rt, &mut disk, lines, (wanted, 7));
    }
}

// What a session with one push leaves of an empty disk that stops after so many calls.
fn stopped_after<R: Threads + Wait + Sync + Abort + AllocGlobal>(rt: &R, made: u64) -> MemDisk {
    let mut disk = MemDisk::empty(rt.alloc());
    disk.stop_after(made);
    let played = session_on(rt, rt.alloc(), &mut disk, PUSH_X);
    assert!(rt; played.is_ok(), "memory");
    disk
}

// Whether an image of the disk is opened by a session that finds no push, or one.
fn finds<R: Threads + Wait + Sync + Abort + AllocGlobal>(
    rt: &R,
    disk: &MemDisk,
    pick: u64,
    wanted: (bool, bool),
) -> bool {
    let mut image = disk.image(pick).expect(rt, "memory");
    let played = session_on(rt, rt.alloc(), &mut image, SEARCH).expect(rt, "memory");
    (wanted.0 && played.is(NO_PUSH, 0)) || (wanted.1 && played.is(ONE_PUSH, 0))
}

// The same of all images of what a session leaves that stops after so many calls.
fn check_images<R: Threads + Wait + Sync + Abort + AllocGlobal>(
    rt: &R,
    made: u64,
    wanted: (bool, bool),
) {
    let disk = stopped_after(rt, made);
    for pick in 0..8 {
        assert!(rt; finds(rt, &disk, pick, wanted), "{made} {pick}");
    }
}

// So many calls after the opening: whether the push may be missing, and whether it may be there.
static AFTER: [(u64, (bool, bool)); 5] = [
    (0, (true, false)),
    (1, (true, false)),
    (2, (true, false)),
    (3, (true, true)),
    (4, (false, true)),
];

#[test]
fn whatever_a_stopped_run_leaves_is_opened(rt: HostRuntime) {
    let opening = calls_to_open(&rt, rt.alloc()).expect(&rt, "memory");
    for (made, wanted) in &AFTER {
        check_images(&rt, opening.saturating_add(*made), *wanted);
    }
    for made in 0..opening {
        check_images(&rt, made, (true, false));
    }
}

// A segment with a record of ten bytes, in which the count of runs (byte 18) is not in its shortest form.
static BAD_RECORD: [u8; 21] = [
    1, 1, 10, 0, 0, 0, 0, 0, 0, 0, 0, 0, 0, 0, 0, 0, 0, 0, 0x80, 0, 0,
];

// The next file and the first number of the list, and what a session with one push writes, with its status.
static LISTS: [(u32, u64, &str, u8); 4] = [
    (3, 0, "$0", 0),
    (
        3,
        4_294_967_295,
        "refused store-full pushes=4294967295\n",
        7,
    ),
    (2, 0, "refused not-store file=0 at=30\n", 5),
    (3, 4_294_967_296, "refused not-store file=0 at=34\n", 5),
];

#[test]
fn bytes_that_are_no_list_are_told(rt: HostRuntime) {
    for (next_file, number, wanted, status) in &LISTS {
        let mut disk = disk_of(rt.alloc(), *next_file, *number).expect(&rt, "a disk");
        check(&rt, &mut disk, "$x\n", (*wanted, *status));
    }
}

#[test]
fn bytes_that_are_no_log_are_told(rt: HostRuntime) {
    let mut disk = disk_of(rt.alloc(), 3, 0).expect(&rt, "a disk");
    write_through(&mut disk, 2, 0, &BAD_RECORD).expect(&rt, "a disk");
    check(
        &rt,
        &mut disk,
        "$x\n",
        ("refused not-store file=2 at=18\n", 5),
    );
}
