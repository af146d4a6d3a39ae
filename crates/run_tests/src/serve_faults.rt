//! A call of the disk fails as clients are answered: whose call it is, that client is told.

use disk_model::MemDisk;
use run_support::{FINE, LOOK_A1, PUSH_X, PUSH_Y, Played, calls, calls_to_open, play};
use std::process::Abort;
use std::sync::Wait;
use std::thread::Threads;

const TWO: &[&str] = &["serve", "--clients", "2"];

// Serves two clients over an empty disk whose first call after the opening fails: it is one of the first push.
fn serve<R: Threads + Wait + Sync + Abort + AllocGlobal>(rt: &R, input: &str) -> Played {
    let alloc = rt.alloc();
    let opening = calls_to_open(rt, alloc).expect(rt, "memory");
    let mut disk = MemDisk::empty(alloc);
    disk.fail_at(calls(alloc, &[opening.saturating_add(1)]).expect(rt, "memory"));
    play(rt, alloc, disk, TWO, input, FINE, &[]).expect(rt, "memory")
}

/// The client that pushes is told, in whichever order they are answered, and the one that asks is answered.
const ASKED: &str =
    "0 refused disk-fault\n1 ok trace as_of=0 spans=0 {\"resourceSpans\":[]}\n1 ok search as_of=0 traces=0 {\"traces\":[]}\n";

#[test]
fn a_query_beside_a_failed_push_is_answered(rt: HostRuntime) {
    let input = format!(in rt.alloc(); "0 {PUSH_X}\n1 {LOOK_A1}\n1 search {{ }}\n");
    let played = serve(&rt, input.expect(&rt, "memory").as_str());
    assert!(&rt; played.is(ASKED, 7));
}

/// Whoever comes first is told of the fault, and the other that the store writes no more.
static EITHER: [&str; 2] = [
    "0 refused disk-fault\n1 refused read-only faults=1\n",
    "0 refused read-only faults=1\n1 refused disk-fault\n",
];

#[test]
fn one_of_two_pushes_fails_and_the_other_is_told(rt: HostRuntime) {
    let input = format!(in rt.alloc(); "0 {PUSH_X}\n1 {PUSH_Y}\n");
    let played = serve(&rt, input.expect(&rt, "memory").as_str());
    let mut told = false;
    for text in &EITHER {
        told |= played.is(text, 7);
    }
    assert!(&rt; told);
}
