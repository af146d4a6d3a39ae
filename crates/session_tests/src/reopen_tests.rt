//! The line `reopen`: what it and the lines after it are told, on disks whose calls fail, with exact bytes.

use disk_model::MemDisk;
use run_support::{PUSH_X, calls, calls_to_open, session_on, writes};
use span_types::Memory;
use std::alloc::{AllocError, Global};
use std::process::Abort;
use std::sync::Wait;
use std::thread::Threads;

/// A push of `PUSH_X` stands for `$x`.
fn filled(alloc: Global, text: &str) -> Result<String, AllocError> {
    String::from_str(alloc, text)?.replace(alloc, "$x", PUSH_X)
}

// An empty disk of which these calls fail.
fn failing(rt: &(impl Abort + AllocGlobal), numbers: &[u64]) -> MemDisk {
    let mut disk = MemDisk::empty(rt.alloc());
    disk.fail_at(calls(rt.alloc(), numbers).expect(rt, "memory"));
    disk
}

// Asserts what a session over these lines writes on the disk, and its status.
fn check<R: Threads + Wait + Sync + Abort + AllocGlobal>(
    rt: &R,
    disk: &mut MemDisk,
    lines: &str,
    wanted: (&str, u8),
) {
    let input = filled(rt.alloc(), lines).expect(rt, "memory");
    let is_told = writes(rt, rt.alloc(), disk, input.as_str(), wanted).expect(rt, "memory");
    assert!(rt; is_told, "{lines}");
}

// How many calls of the disk a session over these lines makes, where this call fails.
fn calls_of<R: Threads + Wait + Sync + Abort + AllocGlobal>(
    rt: &R,
    lines: &str,
    call: u64,
) -> Result<u64, Memory> {
    let input = filled(rt.alloc(), lines)?;
    let mut disk = failing(rt, &[call]);
    session_on(rt, rt.alloc(), &mut disk, input.as_str())?;
    Ok(disk.calls())
}

#[test]
fn a_store_that_is_well_is_opened_again(rt: HostRuntime) {
    let lines = "$x\nreopen\nsearch { .none = 1 }\nreopen\nflush\ncutall\nflush\nreopen\nflush\n";
    let wanted = "ok push 0 accepted=1 rejected=0 skipped=0\nok reopen entries=1\n\
        ok search as_of=1 traces=0 {\"traces\":[]}\nok reopen entries=1\nok flush nothing\n\
        ok cutall moved=1\nok flush rows=1\nok reopen entries=1\nok flush nothing\n";
    check(&rt, &mut failing(&rt, &[]), lines, (wanted, 0));
}

#[test]
fn a_push_that_was_not_written_is_not_found(rt: HostRuntime) {
    let opening = calls_to_open(&rt, rt.alloc()).expect(&rt, "memory");
    let lines = "$x\n$x\nsearch { }\nreopen\n$x\n";
    let wanted = "refused disk-fault\nrefused read-only faults=1\n\
        ok search as_of=0 traces=0 {\"traces\":[]}\nok reopen entries=0\n\
        ok push 0 accepted=1 rejected=0 skipped=0\n";
    let mut disk = failing(&rt, &[opening.saturating_add(3)]);
    check(&rt, &mut disk, lines, (wanted, 7));
}

#[test]
fn a_push_that_was_written_is_found(rt: HostRuntime) {
    let opening = calls_to_open(&rt, rt.alloc()).expect(&rt, "memory");
    let lines = "$x\nreopen\npush {}\n";
    let wanted = "refused disk-fault\nok reopen entries=1\n\
        ok push 1 accepted=0 rejected=0 skipped=0\n";
    let mut disk = failing(&rt, &[opening.saturating_add(4)]);
    check(&rt, &mut disk, lines, (wanted, 7));
}

#[test]
fn a_closed_store_reads_no_line(rt: HostRuntime) {
    let fault = calls_to_open(&rt, rt.alloc())
        .expect(&rt, "memory")
        .saturating_add(4);
    let so_far = "$x\nreopen\npush {}\n";
    let made = calls_of(&rt, so_far, fault).expect(&rt, "memory");
    let lines = "$x\nreopen\npush {}\nreopen\nsearch { }\nno line\n\nreopen\n";
    let wanted = "refused disk-fault\nok reopen entries=1\n\
        ok push 1 accepted=0 rejected=0 skipped=0\nrefused disk-fault\nrefused closed\n\
        refused closed\nok reopen entries=2\n";
    let mut disk = failing(&rt, &[fault, made.saturating_add(1)]);
    check(&rt, &mut disk, lines, (wanted, 7));
}

// Lines that are no `reopen`, and how they are refused.
#[test]
fn only_the_word_alone_opens_again(rt: HostRuntime) {
    let lines = "reopen \nreopen x\nReopen\n reopen\n";
    let wanted = "refused bad-request at=0\nrefused bad-request at=0\nrefused bad-request at=0\n\
        refused bad-request at=0\n";
    check(&rt, &mut failing(&rt, &[]), lines, (wanted, 7));
}

#[test]
fn each_call_of_a_reopening_may_fail(rt: HostRuntime) {
    let never = 1_000_000;
    let before = calls_of(&rt, "$x\n", never).expect(&rt, "memory");
    let after = calls_of(&rt, "$x\nreopen\n", never).expect(&rt, "memory");
    assert!(&rt; before < after);
    let wanted = "ok push 0 accepted=1 rejected=0 skipped=0\nrefused disk-fault\n\
        refused closed\nok reopen entries=1\n";
    for call in before..after {
        let mut disk = failing(&rt, &[call.saturating_add(1)]);
        check(&rt, &mut disk, "$x\nreopen\n$x\nreopen\n", (wanted, 7));
    }
}
