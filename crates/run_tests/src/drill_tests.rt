//! Drills: what a run of one prints, twice the same, and words that are refused.

use disk_model::MemDisk;
use run_support::{FINE, Failing, Played, calls, calls_to_open, play};
use std::process::Abort;
use std::sync::Wait;
use std::thread::Threads;

/// What the words of a drill print first: the sum of the spans is that of the lines of `tools/drill-line`.
static DRILLS: [(&[&str], &str); 2] = [
    (
        &["drill", "--seed", "7", "--traces", "200"],
        "ok drill pushes=200 accepted=931 refused=0 memory=0\nok search as_of=200 traces=20 {",
    ),
    (
        &["drill", "--traces=200", "--seed=7"],
        "ok drill pushes=200 accepted=931 refused=0 memory=0\nok search as_of=200 traces=20 {",
    ),
];

/// The words of a larger one, and what they print first.
static LARGE: (&[&str], &str) = (
    &["drill", "--seed", "1", "--traces", "2000"],
    "ok drill pushes=2000 accepted=9046 refused=0 memory=0\nok search as_of=2000 traces=20 {",
);

/// Words that are no drill.
static REFUSED: [&[&str]; 3] = [
    &["drill", "--seed", "x", "--traces", "1"],
    &["drill", "--seed", "7", "--traces", "100001"],
    &[],
];

/// What a drill of three traces prints if the disk fails at the first push: that one, two as read-only, and a flush, a
/// compaction and an emptying of loose files likewise.
const READ_ONLY: &str =
    "ok drill pushes=0 accepted=0 refused=6 memory=0\nok search as_of=0 traces=0 {\"traces\":[]}\nok search as_of=0 traces=0 {\"traces\":[]}\nok search as_of=0 traces=0 {\"traces\":[]}\n";

/// The line of the counts of three traces.
const THREE: &str = "ok drill pushes=3 accepted=10 refused=0 memory=0\n";

// Runs the words on a disk.
fn run_on<R: Threads + Wait + Sync + Abort + AllocGlobal>(
    rt: &R,
    disk: MemDisk,
    words: &[&str],
    failing: Failing<'_>,
) -> Played {
    play(rt, rt.alloc(), disk, words, "", failing, &[]).expect(rt, "memory")
}

// Runs the words on an empty disk.
fn run_on_empty<R: Threads + Wait + Sync + Abort + AllocGlobal>(rt: &R, words: &[&str]) -> Played {
    run_on(rt, MemDisk::empty(rt.alloc()), words, FINE)
}

// Whether two runs of the words print the same, and this first.
fn prints_twice<R: Threads + Wait + Sync + Abort + AllocGlobal>(
    rt: &R,
    words: &[&str],
    front: &str,
) -> bool {
    let one = run_on_empty(rt, words);
    let two = run_on_empty(rt, words);
    one.status == 0
        && two.status == 0
        && one.text.as_slice() == two.text.as_slice()
        && one.text.as_slice().starts_with(front.as_bytes())
}

#[test]
fn twice_the_same(rt: HostRuntime) {
    for (words, front) in &DRILLS {
        assert!(&rt; prints_twice(&rt, words, front));
    }
}

#[test]
fn two_thousand_twice_the_same(rt: HostRuntime) {
    let (words, front) = LARGE;
    assert!(&rt; prints_twice(&rt, words, front));
}

#[test]
fn refused_words(rt: HostRuntime) {
    for words in &REFUSED {
        let refused = run_on_empty(&rt, words);
        assert!(&rt; refused.is("", 2));
    }
}

#[test]
fn a_drill_goes_on_after_a_fault(rt: HostRuntime) {
    let opening = calls_to_open(&rt, rt.alloc()).expect(&rt, "memory");
    let mut disk = MemDisk::empty(rt.alloc());
    disk.fail_at(calls(rt.alloc(), &[opening.saturating_add(1)]).expect(&rt, "memory"));
    let words: &[&str] = &["drill", "--seed", "7", "--traces", "3"];
    let played = run_on(&rt, disk, words, FINE);
    assert!(&rt; played.is(READ_ONLY, 7));
}

#[test]
fn a_drill_ends_where_the_sink_fails(rt: HostRuntime) {
    let failing = Failing {
        source: &[],
        sink: &[2],
    };
    let words: &[&str] = &["drill", "--seed", "7", "--traces", "3"];
    let played = run_on(&rt, MemDisk::empty(rt.alloc()), words, failing);
    assert!(&rt; played.is(THREE, 1));
}
