//! Ingests: what whole runs print, and what later ones find.

use disk_model::MemDisk;
use run_support::{
    FINE, Failing, PUSH_X, PUSH_Y, PUSHED_0, Played, TRACE_X, calls, calls_to_open, play,
};
use std::alloc::{AllocError, Global};
use std::process::Abort;
use std::sync::Wait;
use std::thread::Threads;

// Short words of tables, and what they stand for: pushes, which begin with the word of a session's line, and replies.
static WORDS: [(&str, &str); 6] = [
    ("$push_x", PUSH_X),
    ("$push_y", PUSH_Y),
    ("$0", PUSHED_0),
    ("$1", "ok push 1 accepted=1 rejected=0 skipped=0\n"),
    ("$trace", TRACE_X),
    (
        "$nothing",
        "ok cutall moved=0\nok flush nothing\nok compact nothing\nok reclaim files=0\n",
    ),
];

// A text with what its words stand for. A `%` drops the word that begins the line after it.
fn filled(alloc: Global, text: &str) -> Result<String, AllocError> {
    let mut all = String::from_str(alloc, text)?;
    for (word, meaning) in &WORDS {
        all = all.replace(alloc, *word, meaning)?;
    }
    all.replace(alloc, "%push ", "")
}

// Runs the words over an input on a disk, asserts what is written and the status, and gives the disk back.
fn check<R: Threads + Wait + Sync + Abort + AllocGlobal>(
    rt: &R,
    disk: MemDisk,
    words: &[&str],
    input: &str,
    failing: Failing<'_>,
    wanted: (&str, u8),
) -> MemDisk {
    let played = play(rt, rt.alloc(), disk, words, input, failing, &[]).expect(rt, "memory");
    assert!(rt; played.is(wanted.0, wanted.1));
    let Played { disk, .. } = played;
    disk
}

// The words of a run, its lines, the calls that fail, what it writes, and the status.
type Run = (
    &'static [&'static str],
    &'static str,
    Failing<'static>,
    &'static str,
    u8,
);

fn check_run<R: Threads + Wait + Sync + Abort + AllocGlobal>(
    rt: &R,
    disk: MemDisk,
    run: &Run,
) -> MemDisk {
    let (words, lines, failing, wanted, status) = run;
    let input = filled(rt.alloc(), lines).expect(rt, "memory");
    let wanted = filled(rt.alloc(), wanted).expect(rt, "memory");
    check(
        rt,
        disk,
        words,
        input.as_str(),
        *failing,
        (wanted.as_str(), *status),
    )
}

const INGEST: &[&str] = &["ingest"];

// The first call of the source fails, and the second one.
const SOURCE_1: Failing<'static> = Failing {
    source: &[1],
    sink: &[],
};

const SOURCE_2: Failing<'static> = Failing {
    source: &[2],
    sink: &[],
};

// A call of the sink fails.
const SINK_1: Failing<'static> = Failing {
    source: &[],
    sink: &[1],
};

const SINK_2: Failing<'static> = Failing {
    source: &[],
    sink: &[2],
};

const SINK_3: Failing<'static> = Failing {
    source: &[],
    sink: &[3],
};

const SINK_4: Failing<'static> = Failing {
    source: &[],
    sink: &[4],
};

const SINK_5: Failing<'static> = Failing {
    source: &[],
    sink: &[5],
};

const BOTH: &str =
    "$0$1ok cutall moved=2\nok flush rows=1\nok compact nothing\nok reclaim files=1\n";

// Ingests, each on an empty disk.
static ALONE: [Run; 12] = [
    (INGEST, "", FINE, "$nothing", 0),
    (INGEST, "\n\n", FINE, "$nothing", 0),
    (INGEST, "%$push_x\n%$push_y\n", FINE, BOTH, 0),
    (INGEST, "%$push_x\n%$push_y", FINE, BOTH, 0),
    // Lines without bytes get no reply, and the word of a session's line is no JSON.
    (
        INGEST,
        "\n\r\n%$push_x\r\n$push_x\n\n",
        FINE,
        "$0refused bad-json\nok cutall moved=1\nok flush rows=1\nok compact nothing\nok reclaim files=1\n",
        7,
    ),
    // What is written before a call of the sink that fails.
    (INGEST, "%$push_x\n", SINK_1, "", 1),
    (INGEST, "%$push_x\n", SINK_2, "$0", 1),
    (INGEST, "%$push_x\n", SINK_3, "$0ok cutall moved=1\n", 1),
    (
        INGEST,
        "%$push_x\n",
        SINK_4,
        "$0ok cutall moved=1\nok flush rows=1\n",
        1,
    ),
    (
        INGEST,
        "%$push_x\n",
        SINK_5,
        "$0ok cutall moved=1\nok flush rows=1\nok compact nothing\n",
        1,
    ),
    // Where the source fails nothing is done for its end.
    (INGEST, "%$push_x\n", SOURCE_1, "", 3),
    (INGEST, "%$push_x\n", SOURCE_2, "$0", 3),
];

#[test]
fn lines_are_pushed_and_the_store_is_kept_up(rt: HostRuntime) {
    for run in &ALONE {
        let _disk = check_run(&rt, MemDisk::empty(rt.alloc()), run);
    }
}

// Blocks of several ingests are joined, and a look-up of a later run tells the first copy.
static SERIES: [Run; 3] = [
    (
        INGEST,
        "%$push_x",
        FINE,
        "$0ok cutall moved=1\nok flush rows=1\nok compact nothing\nok reclaim files=1\n",
        0,
    ),
    (
        INGEST,
        "%$push_y",
        FINE,
        "$1ok cutall moved=1\nok flush rows=1\nok compact blocks=2 rows=1\nok compact nothing\nok reclaim files=3\n",
        0,
    ),
    (
        &["trace", "000000000000000000000000000000a1"],
        "",
        FINE,
        "ok trace as_of=2 spans=1 $trace\n",
        0,
    ),
];

#[test]
fn blocks_of_several_ingests_are_joined(rt: HostRuntime) {
    let mut disk = MemDisk::empty(rt.alloc());
    for run in &SERIES {
        disk = check_run(&rt, disk, run);
    }
}

// How many spaces follow a request without spans, how it is replied, and the status.
static LENGTHS: [(usize, &str, u8); 2] = [
    (
        16_777_214,
        "ok push 0 accepted=0 rejected=0 skipped=0\n$nothing",
        0,
    ),
    (16_777_215, "refused too-long length=16777217\n$nothing", 7),
];

#[test]
fn the_limit_counts_the_line_alone(rt: HostRuntime) {
    for (count, wanted, status) in &LENGTHS {
        let spaces = " ".repeat(rt.alloc(), *count).expect(&rt, "memory");
        let line = format!(in rt.alloc(); "{{}}{spaces}").expect(&rt, "memory");
        let text = filled(rt.alloc(), wanted).expect(&rt, "memory");
        let told = (text.as_str(), *status);
        let disk = MemDisk::empty(rt.alloc());
        let _disk = check(&rt, disk, INGEST, line.as_str(), FINE, told);
    }
}

// A span, which stands many times in a line: rows of it count, repeats as well, and a block of them has one row.
const SPAN: &str =
    r#"{"traceId":"000000000000000000000000000000a1","spanId":"00000000000000b1","startTimeUnixNano":1,"endTimeUnixNano":1}"#;

// Eight lines of 16,384 spans, after this word each, and a last line.
fn eight_lines(alloc: Global, word: &str, last: &str) -> Result<String, AllocError> {
    let comma = format!(in alloc; "{SPAN},")?;
    let spans = comma.repeat(alloc, 16_383)?;
    let line = format!(in alloc;
        "{word}{{\"resourceSpans\":[{{\"scopeSpans\":[{{\"spans\":[{spans}{SPAN}]}}]}}]}}\n"
    )?;
    let mut lines = line.repeat(alloc, 8)?;
    lines.push_str(last)?;
    Ok(lines)
}

// The replies to these lines, and what follows them.
fn eight_replies(alloc: Global, rest: &str) -> Result<String, AllocError> {
    let mut replies = String::new(alloc);
    for number in 0..8 {
        write!(
            replies,
            "ok push {number} accepted=16384 rejected=0 skipped=0\n"
        )?;
    }
    replies.push_str(rest)?;
    Ok(replies)
}

const LAST: &str =
    "ok cutall moved=131072\nok flush rows=1\nok push 8 accepted=0 rejected=0 skipped=0\n\
     ok cutall moved=0\nok flush nothing\nok compact nothing\nok reclaim files=1\n";

const REFUSED: &str =
    "ok cutall moved=131072\nrefused disk-fault\nrefused read-only faults=1\nok cutall moved=0\n\
     refused read-only faults=1\nok cutall moved=0\nrefused read-only faults=1\nrefused read-only faults=1\n\
     refused read-only faults=1\n";

// Ingests eight lines and a ninth one.
fn ingest_nine<R: Threads + Wait + Sync + Abort + AllocGlobal>(
    rt: &R,
    disk: MemDisk,
    rest: &str,
    status: u8,
) {
    let input = eight_lines(rt.alloc(), "", "{}\n").expect(rt, "memory");
    let wanted = eight_replies(rt.alloc(), rest).expect(rt, "memory");
    let _disk = check(
        rt,
        disk,
        INGEST,
        input.as_str(),
        FINE,
        (wanted.as_str(), status),
    );
}

#[test]
fn many_rows_are_flushed_before_the_next_line(rt: HostRuntime) {
    ingest_nine(&rt, MemDisk::empty(rt.alloc()), LAST, 0);
}

// The flush between the eighth line and the ninth fails, and from then on all is refused but cuts.
#[test]
fn a_refused_flush_stops_no_line(rt: HostRuntime) {
    let mut disk = MemDisk::empty(rt.alloc());
    // A push makes four calls of the disk, and a cut none.
    let opening = calls_to_open(&rt, rt.alloc()).expect(&rt, "memory");
    let flush = opening.saturating_add(33);
    disk.fail_at(calls(rt.alloc(), &[flush]).expect(&rt, "memory"));
    ingest_nine(&rt, disk, REFUSED, 7);
}

#[test]
fn rows_of_earlier_runs_are_flushed_before_the_first_line(rt: HostRuntime) {
    let lines = eight_lines(rt.alloc(), "push ", "").expect(&rt, "memory");
    let replies = eight_replies(rt.alloc(), "").expect(&rt, "memory");
    let disk = MemDisk::empty(rt.alloc());
    let told = (replies.as_str(), 0);
    let disk = check(&rt, disk, &["session"], lines.as_str(), FINE, told);
    let kept =
        "ok cutall moved=131072\nok flush rows=1\nok cutall moved=0\nok flush nothing\nok compact nothing\nok reclaim files=1\n";
    let _disk = check(&rt, disk, INGEST, "", FINE, (kept, 0));
}
