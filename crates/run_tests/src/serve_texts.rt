//! What a run writes where one client asks, or none is answered.

use disk_model::MemDisk;
use run_support::{FINE, Failing, LOOK_A1, PUSH_X, TRACE_X, play};
use std::process::Abort;
use std::sync::Wait;
use std::thread::Threads;

// Runs the words over an input on an empty disk, and asserts what is written and the status.
fn check<R: Threads + Wait + Sync + Abort + AllocGlobal>(
    rt: &R,
    words: &[&str],
    input: &str,
    failing: Failing<'_>,
    wanted: (&str, u8),
) {
    let disk = MemDisk::empty(rt.alloc());
    let played = play(rt, rt.alloc(), disk, words, input, failing, &[]).expect(rt, "memory");
    assert!(rt; played.is(wanted.0, wanted.1), "at {input}");
}

#[test]
fn a_line_of_another_client_is_refused(rt: HostRuntime) {
    check(
        &rt,
        &["serve", "--clients", "1"],
        "0 push {}\n1 push {}\n",
        FINE,
        (
            "0 ok push 0 accepted=0 rejected=0 skipped=0\n0 refused bad-request at=0\n",
            7,
        ),
    );
}

#[test]
fn one_client_has_a_session(rt: HostRuntime) {
    let alloc = rt.alloc();
    let input = format!(in alloc; "0 {LOOK_A1}\n0 {PUSH_X}\r\n\n0 {LOOK_A1}\n0 cutall\n0 flush");
    let wanted = format!(in alloc;
        "0 ok trace as_of=0 spans=0 {{\"resourceSpans\":[]}}\n0 ok push 0 accepted=1 rejected=0 skipped=0\n0 ok trace as_of=1 spans=1 {TRACE_X}\n0 ok cutall moved=1\n0 ok flush rows=1\n"
    );
    let input = input.expect(&rt, "memory");
    let wanted = wanted.expect(&rt, "memory");
    check(
        &rt,
        &["serve", "--clients=1"],
        input.as_str(),
        FINE,
        (wanted.as_str(), 0),
    );
}

#[test]
fn upkeep_of_an_empty_store_does_nothing(rt: HostRuntime) {
    let words = ["serve", "--rounds", "2", "--clients", "1"];
    let wanted =
        "1 ok cut moved=0\n1 ok flush nothing\n1 ok cut moved=0\n1 ok flush nothing\n2 ok compact nothing\n2 ok reclaim files=0\n2 ok compact nothing\n2 ok reclaim files=0\n";
    check(&rt, &words, "", FINE, (wanted, 0));
    check(&rt, &["serve", "--clients", "16"], "\n\r\n", FINE, ("", 0));
}

/// Lines that are no client's.
const NOBODY: &str =
    "0\n0push {}\n00 push {}\n+0 push {}\n-1 push {}\n 0 push {}\n2 push {}\n10 push {}\n19 push {}\n99999999999999999999 push {}\npush {}\n";

#[test]
fn lines_are_refused_with_their_places(rt: HostRuntime) {
    let alloc = rt.alloc();
    let refused = "0 refused bad-request at=0\n";
    let eleven = refused.repeat(alloc, 11).expect(&rt, "memory");
    let words = ["serve", "--clients", "2"];
    check(&rt, &words, NOBODY, FINE, (eleven.as_str(), 7));
    check(&rt, &words, "0 reopen\n", FINE, (refused, 7));
    check(
        &rt,
        &words,
        "1 trace 00\n1 pull\n0 trace\n1 \n",
        FINE,
        (
            "0 refused bad-request at=5\n1 refused bad-request at=6\n1 refused bad-request at=0\n1 refused bad-request at=0\n",
            7,
        ),
    );
    let spaces = " ".repeat(alloc, 16_777_208).expect(&rt, "memory");
    let line = format!(in alloc; "1 push {{}}{spaces}").expect(&rt, "memory");
    let long = ("0 refused too-long length=16777217\n", 7);
    check(&rt, &words, line.as_str(), FINE, long);
}

#[test]
fn faulty_words_are_refused(rt: HostRuntime) {
    let input = "0 push {}\n";
    let refused = ("", 2);
    check(&rt, &["serve"], input, FINE, refused);
    check(&rt, &["serve", "--rounds", "1"], input, FINE, refused);
    check(&rt, &["serve", "--clients", "0"], input, FINE, refused);
    check(&rt, &["serve", "--clients", "17"], input, FINE, refused);
    check(&rt, &["serve", "--clients", "01"], input, FINE, refused);
    check(&rt, &["serve", "--clients", "1", "x"], input, FINE, refused);
    let many = ["serve", "--clients", "1", "--rounds", "1001"];
    check(&rt, &many, input, FINE, refused);
    let twice = ["serve", "--clients", "1", "--clients", "2"];
    check(&rt, &twice, input, FINE, refused);
    check(
        &rt,
        &["--", "serve", "--clients", "1"],
        input,
        FINE,
        refused,
    );
}

/// The first call of the source fails.
const NO_SOURCE: Failing<'static> = Failing {
    source: &[1],
    sink: &[],
};

/// The second call of the source fails, after all lines were read.
const SOURCE_ENDS: Failing<'static> = Failing {
    source: &[2],
    sink: &[],
};

/// The second call of the sink fails.
const SINK_ENDS: Failing<'static> = Failing {
    source: &[],
    sink: &[2],
};

#[test]
fn a_failing_device_ends_the_run(rt: HostRuntime) {
    let words = ["serve", "--clients", "1"];
    let input = "0 push {}\n0 push {}\n";
    check(&rt, &words, input, NO_SOURCE, ("", 3));
    check(&rt, &words, input, SOURCE_ENDS, ("", 3));
    let first = ("0 ok push 0 accepted=0 rejected=0 skipped=0\n", 1);
    check(&rt, &words, input, SINK_ENDS, first);
}
