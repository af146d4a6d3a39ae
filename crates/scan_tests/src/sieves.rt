//! What a sieve picks among three spans, each of its own trace: what is asked of kind, status and duration alone
//! counts.

use crate::blocks::{Failure, rows_of};
use column_scan::{Pick, picks_of_spans, sieve};
use moment_range::Range;
use span_types::Span;
use std::alloc::Global;
use traceql_parse::parse;
use traceql_types::{RegexMaker, check};

/// A server's span that failed, 1 to 11 ns; a client's that went well, 2 to 7 ns; and one that says neither and ends
/// before it starts.
const SPANS: &str =
    r#"{"traceId":"000000000000000000000000000000a1","spanId":"00000000000000b1","name":"a","kind":2,"status":{"code":2},"startTimeUnixNano":"1","endTimeUnixNano":"11"},
{"traceId":"000000000000000000000000000000a2","spanId":"00000000000000b1","name":"b","kind":3,"status":{"code":1},"startTimeUnixNano":"2","endTimeUnixNano":"7"},
{"traceId":"000000000000000000000000000000a3","spanId":"00000000000000b1","name":"c","startTimeUnixNano":"3","endTimeUnixNano":"2"}"#;

/// Queries, the first moment of the range, and the last bytes of the traces that are picked.
static PICKED: [(&str, u64, &[u8]); 21] = [
    ("{ }", 0, &[0xa1, 0xa2, 0xa3]),
    ("{ status = error }", 0, &[0xa1]),
    ("{ span:status != error }", 0, &[0xa2, 0xa3]),
    ("{ kind = server || kind = client }", 0, &[0xa1, 0xa2]),
    ("{ duration >= 5ns }", 0, &[0xa1, 0xa2]),
    ("{ duration + 1ns > 10ns }", 0, &[0xa1]),
    ("{ !(status = error) }", 0, &[0xa2, 0xa3]),
    ("{ status = error && .x = 1 }", 0, &[0xa1]),
    ("{ .x = 1 && status = error }", 0, &[0xa1]),
    ("{ .x = 1 || status = error }", 0, &[0xa1, 0xa2, 0xa3]),
    ("{ duration > 1ns && kind != server && .x = 1 }", 0, &[0xa2]),
    ("{ duration > 1h }", 0, &[]),
    ("{ duration = 0ns && status = unset }", 0, &[0xa3]),
    ("{ status = error && name = \"b\" }", 0, &[]),
    ("{ status = ok && name = \"b\" }", 0, &[0xa2]),
    ("{ traceDuration > 1h }", 0, &[0xa1, 0xa2, 0xa3]),
    ("{ status = error } && { }", 0, &[0xa1, 0xa2, 0xa3]),
    ("{ status = error } >> { }", 0, &[0xa1, 0xa2, 0xa3]),
    // A span that starts in the range need not be the one that the filter keeps.
    ("{ status = error }", 2, &[0xa2, 0xa3]),
    ("{ status = error && name = \"a\" }", 2, &[0xa1]),
    ("{ 1h > duration }", 0, &[0xa1, 0xa2, 0xa3]),
];

/// The picks of a query among the spans.
fn picks_of(alloc: Global, spans: &[&Span], query: &str, from: u64) -> Result<Vec<Pick>, Failure> {
    let Ok(query) = parse(alloc, query) else {
        return Err("the query is not read");
    };
    let mut maker = RegexMaker::new(alloc);
    let Ok(checked) = check(alloc, query, &mut maker) else {
        return Err("the query is refused");
    };
    let range = Range { from, until: None };
    let Ok(asked) = sieve(alloc, &checked, range) else {
        return Err("no memory");
    };
    picks_of_spans(alloc, &asked, spans).map_err(|_| "no memory")
}

/// Whether picks are of the traces whose ids end in these bytes.
fn are_of(picks: &[Pick], wanted: &[u8]) -> bool {
    for (pick, last) in picks.iter().zip(wanted) {
        if pick.trace.0[15] != *last {
            return false;
        }
    }
    picks.len() == wanted.len()
}

#[test]
fn what_a_filter_asks_of_columns_picks_traces(rt: HostRuntime) {
    let rows = rows_of(rt.alloc(), SPANS, 0).expect(&rt, "spans");
    let mut spans = Vec::new(rt.alloc());
    for row in rows.as_slice() {
        spans.push(&row.span).expect(&rt, "memory");
    }
    for (query, from, wanted) in &PICKED {
        let picks = picks_of(rt.alloc(), spans.as_slice(), query, *from).expect(&rt, query);
        assert!(&rt; are_of(picks.as_slice(), wanted), "{query}");
    }
}
