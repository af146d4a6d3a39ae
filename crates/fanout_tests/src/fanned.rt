//! Searches whose traces are evaluated in threads, worked out by hand.
//!
//! There are 400 traces, and the one with the greatest number starts last. So the traces from 400 down to 337 are in
//! the first window, those down to 81 in the second, and the others in the third.

use crate::traces::{names_of, query_of, rows_of};
use moment_range::Range;
use search_answer::Bounds;
use span_types::first_rows;
use std::alloc::{AllocError, Global};
use std::thread::Threads;
use trace_fanout::answer;

const TRACES: u32 = 400;

// All moments.
const ALWAYS: Range = Range {
    from: 0,
    until: None,
};

// A query, how many traces are shown, and the names of their spans.
type Case = (&'static str, u32, &'static str);

static CASES: [Case; 9] = [
    ("{ name =~ \"3|40|290\" }", 0, ""),
    ("{ name =~ \"3|40|290\" }", 1, "290 "),
    ("{ name =~ \"3|40|290\" }", 2, "290 40 "),
    ("{ name =~ \"3|40|290\" }", 20, "290 40 3 "),
    (
        "{ name =~ \"400|337|336|81|80|1\" }",
        20,
        "400 337 336 81 80 1 ",
    ),
    (
        "{ name =~ \"400|337|336|81|80|1\" }",
        5,
        "400 337 336 81 80 ",
    ),
    (
        "{ name =~ \"20.\" }",
        20,
        "209 208 207 206 205 204 203 202 201 200 ",
    ),
    ("{ name =~ \"20.\" }", 3, "209 208 207 "),
    ("{ name = \"x\" }", 20, ""),
];

// What a search shows of the traces.
fn searched<R: Threads + Sync>(rt: &R, alloc: Global, text: &str, limit: u32) -> Option<String> {
    let checked = query_of(alloc, text)?;
    let rows = rows_of(alloc, TRACES)?;
    let firsts = first_rows(alloc, rows).ok()?;
    let bounds = Bounds {
        limit,
        spans_per_set: 20,
    };
    let found = answer(rt, alloc, &checked, ALWAYS, bounds, firsts.as_slice()).ok()?;
    names_of(alloc, &found).ok()
}

// Whether a search shows these names.
fn shows<R: Threads + Sync>(rt: &R, alloc: Global, text: &str, limit: u32, names: &str) -> bool {
    match searched(rt, alloc, text, limit) {
        Some(shown) => shown.as_str() == names,
        None => false,
    }
}

#[test]
fn windows_show_the_first_results(rt: HostRuntime) {
    for (text, limit, names) in &CASES {
        assert!(&rt;
            shows(&rt, rt.alloc(), text, *limit, names),
            "{text}, {limit}"
        );
    }
}

// As many parentheses as may be open.
const DEEP: usize = 64;

// A filter whose condition stands in parentheses.
fn deep(alloc: Global, condition: &str) -> Result<String, AllocError> {
    let open = "(".repeat(alloc, DEEP)?;
    let close = ")".repeat(alloc, DEEP)?;
    format!(in alloc; "{{{open}{condition}{close}}}")
}

#[test]
fn threads_have_stack_for_a_deep_query(rt: HostRuntime) {
    let text = deep(rt.alloc(), "name=\"7\"").expect(&rt, "memory");
    assert!(&rt;
        shows(&rt, rt.alloc(), text.as_str(), 20, "7 "),
        "a deep query"
    );
}
