//! A span that was pushed twice: its later copy, in another block or in memory, makes no match, hides none, and ranks
//! no trace.

use disk_model::MemDisk;
use run_support::session_on;
use span_types::Memory;
use std::alloc::Global;
use std::process::Abort;
use std::sync::Wait;
use std::thread::Threads;

/// A push of the span b1 of a trace, which is given by its last byte. Its status is `ok` if it is named `old`, else
/// `error`.
fn push(alloc: Global, trace: &str, name: &str, start: u64, end: u64) -> Result<String, Memory> {
    let status = if name == "old" { 1 } else { 2 };
    Ok(format!(in alloc;
        "push {{\"resourceSpans\":[{{\"scopeSpans\":[{{\"spans\":[{{\"traceId\":\"000000000000000000000000000000{trace}\",\
         \"spanId\":\"00000000000000b1\",\"parentSpanId\":\"\",\"name\":\"{name}\",\"status\":{{\"code\":{status}}},\"startTimeUnixNano\":\"{start}\",\
         \"endTimeUnixNano\":\"{end}\"}}]}}]}}]}}\n"
    )?)
}

/// What a search shows of the trace a1, of which the first push counts.
const OLD: &str =
    r#"ok search as_of=3 traces=1 {"traces":[{"durationNanos":"10","rootName":"old","rootService":null,"spanSets":[{"by":[],"matched":1,"spans":[{"attributes":[],"durationNanos":"10","name":"old","spanId":"00000000000000b1","startTimeUnixNano":"100"}]}],"startTimeUnixNano":"100","traceId":"000000000000000000000000000000a1"}]}"#;

const NOTHING: &str = r#"ok search as_of=3 traces=0 {"traces":[]}"#;

/// Searches, and what each is to be answered. The trace a2 starts at 80, between the first copy's start and the later
/// one's.
static SEARCHES: [(&str, &str); 8] = [
    ("search limit=1 { }", OLD),
    ("search { name = \"new\" }", NOTHING),
    ("search { name = \"old\" }", OLD),
    (
        "search start=1970-01-01T00:00:00.00000004Z end=1970-01-01T00:00:00.00000006Z { }",
        NOTHING,
    ),
    ("search start=1970-01-01T00:00:00.0000001Z { }", OLD),
    ("search { status = ok }", OLD),
    ("search { status = error && name != \"y\" }", NOTHING),
    (
        "search { status = ok && duration = 10ns && name = \"old\" }",
        OLD,
    ),
];

// What becomes of the first copy, of the later one, and in the end.
static PLACES: [[&str; 3]; 4] = [
    ["cutall\nflush\n", "cutall\nflush\n", ""],
    ["cutall\nflush\n", "", ""],
    ["cutall\nflush\n", "cutall\n", ""],
    ["cutall\nflush\n", "cutall\nflush\n", "compact\n"],
];

/// The pushes of both copies and of the other trace, with what becomes of each.
fn stored(alloc: Global, places: &[&str; 3]) -> Result<String, Memory> {
    let [first, later, end] = places;
    let old = push(alloc, "a1", "old", 100, 110)?;
    let new = push(alloc, "a1", "new", 50, 60)?;
    let other = push(alloc, "a2", "y", 80, 90)?;
    Ok(format!(in alloc; "{old}{first}{new}{later}{other}{end}")?)
}

/// Compares what a search after these lines is answered with what is expected of it.
fn check<R: Threads + Wait + Sync + Abort + AllocGlobal>(
    rt: &R,
    stored: &str,
    search: &str,
    wanted: &str,
) {
    let input = format!(in rt.alloc(); "{stored}{search}\n").expect(rt, "memory");
    let mut disk = MemDisk::empty(rt.alloc());
    let played = session_on(rt, rt.alloc(), &mut disk, input.as_str()).expect(rt, "memory");
    let replies = std::str::from_utf8(played.text.as_slice()).expect(rt, "a text");
    assert!(rt;
        replies.lines().last() == Some(wanted),
        "{search} after {stored}"
    );
}

#[test]
fn a_later_copy_counts_for_nothing(rt: HostRuntime) {
    for places in &PLACES {
        let stored = stored(rt.alloc(), places).expect(&rt, "memory");
        for (search, wanted) in &SEARCHES {
            check(&rt, stored.as_str(), search, wanted);
        }
    }
}
