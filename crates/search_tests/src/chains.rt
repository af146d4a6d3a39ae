//! Long chains of operators on a small stack.

use crate::lines::{ALL, ALWAYS, query_of, results_of};
use std::alloc::{AllocError, Global};
use std::thread::Builder;
use traceql_print::print_query;

/// How much stack a thread gets here, in bytes.
const STACK: usize = 1 << 20;

/// A trace of one span.
const LINE: &str =
    r#"{"resourceSpans":[{"scopeSpans":[{"spans":[{"traceId":"000000000000000000000000000000d1","spanId":"0000000000000001","parentSpanId":"","name":"a","startTimeUnixNano":"1","endTimeUnixNano":"2","attributes":[{"key":"v","value":{"intValue":"1"}}]}]}]}]}"#;

/// Queries that find the span: how each begins, what comes again and again, how many times, and how it ends.
static CHAINS: [(&str, &str, usize, &str); 6] = [
    ("{.v ", "+1", 4_000, "=4001}"),
    ("{} | by(.v ", "-1", 4_000, ")"),
    ("{.v=1", "&&true", 1_300, "}"),
    ("{}", "&&{}", 2_000, ""),
    ("{}", "||{}", 2_000, ""),
    ("{}", "!>{}", 2_000, ""),
];

// Whether a query is printed.
fn is_printed(alloc: Global, text: &str) -> bool {
    match query_of(alloc, text) {
        Some(checked) => print_query(alloc, &checked.query).is_ok(),
        None => false,
    }
}

// Whether a query finds one trace. It is read, checked, answered, printed and dropped here.
fn finds_one(alloc: Global, text: &str) -> bool {
    match results_of(alloc, text, ALWAYS, ALL, &[LINE]) {
        Some(results) => results.len() == 1 && is_printed(alloc, text),
        None => false,
    }
}

// A chain as one text.
fn chain(
    alloc: Global,
    first: &str,
    more: &str,
    times: usize,
    end: &str,
) -> Result<String, AllocError> {
    let middle = more.repeat(alloc, times)?;
    format!(in alloc; "{first}{middle}{end}")
}

#[test]
fn chains_need_little_stack(rt: HostRuntime) {
    let alloc = rt.alloc();
    for (first, more, times, end) in &CHAINS {
        let text = chain(alloc, first, more, *times, end).expect(&rt, "memory");
        let small = Builder::new().stack_size(STACK);
        let thread = small.spawn(&rt, move || finds_one(alloc, text.as_str()));
        let found = thread.expect(&rt, "a thread").join(&rt);
        assert!(&rt; found, "the chain of {more}");
    }
}
