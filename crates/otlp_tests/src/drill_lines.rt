//! Lines with their exact bytes. `tools/drill-line` wrote them, which shares no code with the crate: it has the generator and
//! its seeding from their published algorithms, and the layout of the JSON from the pages.

use drill_input::make_line;

/// Seed 6 and index 0: two spans.
const TWO_SPANS: &str =
    r#"{"resourceSpans":[{"resource":{"attributes":[{"key":"service.name","value":{"stringValue":"svc-2"}}]},"scopeSpans":[{"scope":{"attributes":[],"name":"","version":""},"spans":[{"attributes":[{"key":"http.status_code","value":{"intValue":"300"}}],"endTimeUnixNano":"1700000000000008758","kind":0,"name":"op-4","parentSpanId":"","spanId":"0000000000000001","startTimeUnixNano":"1700000000000000000","status":{"code":1,"message":""},"traceId":"b3b28636f65c149ea52eb1f94669466f"},{"attributes":[{"key":"http.status_code","value":{"intValue":"200"}}],"endTimeUnixNano":"1700000000000015582","kind":5,"name":"op-0","parentSpanId":"0000000000000001","spanId":"0000000000000002","startTimeUnixNano":"1700000000000001000","status":{"code":0,"message":""},"traceId":"b3b28636f65c149ea52eb1f94669466f"}]}]}]}"#;

/// The largest seed and index 1, whose sum is 0 again: three spans that begin a millisecond later than those of index 0.
const OF_SUM_ZERO: &str =
    r#"{"resourceSpans":[{"resource":{"attributes":[{"key":"service.name","value":{"stringValue":"svc-1"}}]},"scopeSpans":[{"scope":{"attributes":[],"name":"","version":""},"spans":[{"attributes":[{"key":"http.status_code","value":{"intValue":"500"}}],"endTimeUnixNano":"1700000000001070553","kind":0,"name":"op-4","parentSpanId":"","spanId":"0000000000000001","startTimeUnixNano":"1700000000001000000","status":{"code":2,"message":""},"traceId":"53175d61490b23df61da6f3dc380d507"},{"attributes":[{"key":"http.status_code","value":{"intValue":"400"}}],"endTimeUnixNano":"1700000000001720520","kind":0,"name":"op-0","parentSpanId":"0000000000000001","spanId":"0000000000000002","startTimeUnixNano":"1700000000001001000","status":{"code":0,"message":""},"traceId":"53175d61490b23df61da6f3dc380d507"},{"attributes":[{"key":"http.status_code","value":{"intValue":"200"}}],"endTimeUnixNano":"1700000000001323889","kind":3,"name":"op-0","parentSpanId":"0000000000000002","spanId":"0000000000000003","startTimeUnixNano":"1700000000001002000","status":{"code":1,"message":""},"traceId":"53175d61490b23df61da6f3dc380d507"}]}]}]}"#;

/// Seed 18446744073709551609 and the last index, whose sum passes 2^64 too: four spans.
const OF_LAST_INDEX: &str =
    r#"{"resourceSpans":[{"resource":{"attributes":[{"key":"service.name","value":{"stringValue":"svc-1"}}]},"scopeSpans":[{"scope":{"attributes":[],"name":"","version":""},"spans":[{"attributes":[{"key":"http.status_code","value":{"intValue":"400"}}],"endTimeUnixNano":"1704294967295284767","kind":1,"name":"op-4","parentSpanId":"","spanId":"0000000000000001","startTimeUnixNano":"1704294967295000000","status":{"code":1,"message":""},"traceId":"4fb3d455ea963b15373c755689f67985"},{"attributes":[{"key":"http.status_code","value":{"intValue":"400"}}],"endTimeUnixNano":"1704294967295786507","kind":4,"name":"op-0","parentSpanId":"0000000000000001","spanId":"0000000000000002","startTimeUnixNano":"1704294967295001000","status":{"code":2,"message":""},"traceId":"4fb3d455ea963b15373c755689f67985"},{"attributes":[{"key":"http.status_code","value":{"intValue":"300"}}],"endTimeUnixNano":"1704294967295634835","kind":3,"name":"op-3","parentSpanId":"0000000000000002","spanId":"0000000000000003","startTimeUnixNano":"1704294967295002000","status":{"code":1,"message":""},"traceId":"4fb3d455ea963b15373c755689f67985"},{"attributes":[{"key":"http.status_code","value":{"intValue":"400"}}],"endTimeUnixNano":"1704294967295643727","kind":5,"name":"op-4","parentSpanId":"0000000000000001","spanId":"0000000000000004","startTimeUnixNano":"1704294967295003000","status":{"code":2,"message":""},"traceId":"4fb3d455ea963b15373c755689f67985"}]}]}]}"#;

/// Seeds and indices, and their lines.
static LINES: [(u64, u32, &str); 3] = [
    (6, 0, TWO_SPANS),
    (u64::MAX, 1, OF_SUM_ZERO),
    (18_446_744_073_709_551_609, u32::MAX, OF_LAST_INDEX),
];

#[test]
fn lines_have_the_bytes_of_a_second_program(rt: HostRuntime) {
    for (seed, index, line) in &LINES {
        let made = make_line(rt.alloc(), *seed, *index).expect(&rt, "memory");
        assert!(&rt; made.as_str() == *line, "{seed} {index}");
    }
}
