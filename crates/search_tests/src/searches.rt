//! Searches over small traces, worked out by hand.

use crate::lines::{ALL, ALWAYS, results_of};
use crate::told::told;
use moment_range::Range;
use search_answer::Bounds;
use std::process::Abort;

/// One trace: a chain `a`, `b`, `c` with a sibling `s` of `b`; a ring of `p` and `q`, and its tail `t`, a child of
/// `p`; the orphans `o` and `n` of one parent that isn't there; and `l` alone.
const KIN: &str =
    r#"{"resourceSpans":[{"scopeSpans":[{"spans":[{"traceId":"000000000000000000000000000000a1","spanId":"0000000000000001","parentSpanId":"","name":"a","startTimeUnixNano":"1","endTimeUnixNano":"2"},{"traceId":"000000000000000000000000000000a1","spanId":"0000000000000002","parentSpanId":"0000000000000001","name":"b","startTimeUnixNano":"1","endTimeUnixNano":"2"},{"traceId":"000000000000000000000000000000a1","spanId":"0000000000000003","parentSpanId":"0000000000000002","name":"c","startTimeUnixNano":"1","endTimeUnixNano":"2"},{"traceId":"000000000000000000000000000000a1","spanId":"0000000000000004","parentSpanId":"0000000000000001","name":"s","startTimeUnixNano":"1","endTimeUnixNano":"2"},{"traceId":"000000000000000000000000000000a1","spanId":"0000000000000005","parentSpanId":"0000000000000006","name":"p","startTimeUnixNano":"1","endTimeUnixNano":"2"},{"traceId":"000000000000000000000000000000a1","spanId":"0000000000000006","parentSpanId":"0000000000000005","name":"q","startTimeUnixNano":"1","endTimeUnixNano":"2"},{"traceId":"000000000000000000000000000000a1","spanId":"0000000000000007","parentSpanId":"0000000000000005","name":"t","startTimeUnixNano":"1","endTimeUnixNano":"2"},{"traceId":"000000000000000000000000000000a1","spanId":"0000000000000008","parentSpanId":"0000000000000099","name":"o","startTimeUnixNano":"1","endTimeUnixNano":"2"},{"traceId":"000000000000000000000000000000a1","spanId":"0000000000000009","parentSpanId":"0000000000000099","name":"n","startTimeUnixNano":"1","endTimeUnixNano":"2"},{"traceId":"000000000000000000000000000000a1","spanId":"000000000000000a","parentSpanId":"","name":"l","startTimeUnixNano":"1","endTimeUnixNano":"2"}]}]}]}"#;

/// What expressions over spansets select of it.
const SELECTED: &str = r#"{ name =~ "a|q|o" } > { name =~ "c|p|n|s" } => s p
{ name =~ "a|q|o" } >> { name =~ "c|p|n|s" } => c s p
{ name =~ "c|q|o" } < { name =~ "a|b|p|n" } => b p
{ name =~ "c|q|o" } << { name =~ "a|b|p|n" } => a b p
{ name =~ "s|o|l" } ~ { name =~ "b|n|c|l|o" } => b n
{ name =~ "a|q|o" } !> { name =~ "c|p|n|s" } => c n
{ name =~ "a|q|o" } !>> { name =~ "c|p|n|s" } => n
{ name =~ "c|q|o" } !< { name =~ "a|b|p|n" } => a n
{ name =~ "c|q|o" } !<< { name =~ "a|b|p|n" } => n
{ name =~ "s|o|l" } !~ { name =~ "b|n|c|l|o" } => c o l
{ name =~ "a|q|o" } &> { name =~ "c|p|n|s" } => a s p q
{ name =~ "a|q|o" } &>> { name =~ "c|p|n|s" } => a c s p q
{ name =~ "c|q|o" } &< { name =~ "a|b|p|n" } => b c p q
{ name =~ "c|q|o" } &<< { name =~ "a|b|p|n" } => a b c p q
{ name =~ "s|o|l" } &~ { name =~ "b|n|c|l|o" } => b s o n
{ name = "t" } << { } => p q
{ name = "p" } >> { } => p q t
{ name = "no" } !> { } => a b c s p q t o n l
{ name = "a" } && { name = "b" } => a b
{ name = "a" } && { name = "no" } => none
{ name = "no" } && { name = "a" } || { name = "b" } => b
{ name = "a" } || { name = "no" } => a
{ name = "no" } || { name = "no" } => none
({ name = "a" } || { name = "q" }) > { } => b s p
{ name = "a" } > { } > { } => c"#;

/// One trace: `r` is its own parent, and that of `c`; `u` and `v` have no parent.
const OWN: &str =
    r#"{"resourceSpans":[{"scopeSpans":[{"spans":[{"traceId":"000000000000000000000000000000d1","spanId":"0000000000000001","parentSpanId":"0000000000000001","name":"r","startTimeUnixNano":"1","endTimeUnixNano":"2"},{"traceId":"000000000000000000000000000000d1","spanId":"0000000000000002","parentSpanId":"0000000000000001","name":"c","startTimeUnixNano":"1","endTimeUnixNano":"2"},{"traceId":"000000000000000000000000000000d1","spanId":"0000000000000003","parentSpanId":"","name":"u","startTimeUnixNano":"1","endTimeUnixNano":"2"},{"traceId":"000000000000000000000000000000d1","spanId":"0000000000000004","parentSpanId":"","name":"v","startTimeUnixNano":"1","endTimeUnixNano":"2"}]}]}]}"#;

/// What relations select of it.
const OF_OWN: &str = r#"{ name = "r" } > { } => r c
{ name = "r" } >> { } => r c
{ name = "r" } < { } => r
{ name = "r" } << { } => r
{ name = "r" } ~ { } => c
{ name = "c" } > { } => none
{ name = "c" } < { } => r
{ name = "c" } ~ { } => r
{ name = "u" } > { } => none
{ name = "u" } << { } => none
{ name = "u" } ~ { } => none
{ name =~ "r|c" } ~ { } => r c"#;

/// One trace of four spans without parents. Of `e` and `f`, `v` is 1 and 2 and `w` is `x`; of `g`, `v` is the text `2`
/// and `w` is `y`; `h`, which has no `v`, starts later and has failed, and its `w` is `y`. Each takes 3 nanoseconds.
const SHOP: &str =
    r#"{"resourceSpans":[{"scopeSpans":[{"spans":[{"traceId":"000000000000000000000000000000b1","spanId":"0000000000000001","parentSpanId":"","name":"e","startTimeUnixNano":"1","endTimeUnixNano":"4","attributes":[{"key":"v","value":{"intValue":"1"}},{"key":"w","value":{"stringValue":"x"}}]},{"traceId":"000000000000000000000000000000b1","spanId":"0000000000000002","parentSpanId":"","name":"f","startTimeUnixNano":"1","endTimeUnixNano":"4","attributes":[{"key":"v","value":{"intValue":"2"}},{"key":"w","value":{"stringValue":"x"}}]},{"traceId":"000000000000000000000000000000b1","spanId":"0000000000000003","parentSpanId":"","name":"g","startTimeUnixNano":"1","endTimeUnixNano":"4","attributes":[{"key":"v","value":{"stringValue":"2"}},{"key":"w","value":{"stringValue":"y"}}]},{"traceId":"000000000000000000000000000000b1","spanId":"0000000000000004","parentSpanId":"","name":"h","startTimeUnixNano":"9","endTimeUnixNano":"12","status":{"code":2},"attributes":[{"key":"w","value":{"stringValue":"y"}}]}]}]}]}"#;

/// What stages leave of it.
const STAGED: &str = r#"{ } | by(.v) => nil: h | 1: e | 2: f | "2": g
{ } | by(.w) => "x": e f | "y": g h
{ } | by(.w) | by(status) => "x" unset: e f | "y" unset: g | "y" error: h
{ } | by(.w) | coalesce() => e f g h
{ } | by(.w) | coalesce() | by(status) => unset: e f g | error: h
{ } | by(.w) | { .v = 2 } => "x": f
{ } | { .v > 0 } | { .w = "x" } => e f
{ } | by(.w) | count() > 1 => "x": e f | "y": g h
{ } | by(.w) | count() > 2 => none
{ } | by(.w) | avg(.v) > 1 => "x": e f
{ } | by(.w) | avg(.v) = 1 => none
{ } | avg(.v) < 2 => e f g h
{ } | min(.v) = 1 => e f g h
{ } | max(.v) = 2 => e f g h
{ } | sum(.v) = 3 => e f g h
{ } | min(.v) > -1 => e f g h
{ } | max(.v) < min(duration) => e f g h
{ } | sum(duration) = 12ns => e f g h
{ .w = "y" } | avg(.v) = avg(.v) => none
{ .w = "y" } | count() = 2 => g h"#;

/// A trace of one span that starts later than the others.
const LATE: &str =
    r#"{"resourceSpans":[{"scopeSpans":[{"spans":[{"traceId":"000000000000000000000000000000c1","spanId":"0000000000000001","parentSpanId":"","name":"z","startTimeUnixNano":"5","endTimeUnixNano":"6"}]}]}]}"#;

/// Two traces.
const TWO: Bounds = Bounds {
    limit: 2,
    spans_per_set: 20,
};

/// One trace.
const ONE: Bounds = Bounds {
    limit: 1,
    spans_per_set: 20,
};

/// No trace.
const NOTHING: Bounds = Bounds {
    limit: 0,
    spans_per_set: 20,
};

/// One span of each spanset.
const ONE_SPAN: Bounds = Bounds {
    limit: 20,
    spans_per_set: 1,
};

/// The traces of lines, a search's text, its range and its bounds, and what it shows.
type Case = (
    &'static [&'static str],
    &'static str,
    Range,
    Bounds,
    &'static str,
);

/// Three traces, the last of which starts last.
const THREE: &[&str] = &[SHOP, KIN, LATE];

const PAIR: &[&str] = &[SHOP, KIN];

static CASES: [Case; 10] = [
    (THREE, "{ name =~ \"a|e|z\" }", ALWAYS, ALL, "z ; a ; e"),
    (THREE, "{ name =~ \"a|e|z\" }", ALWAYS, TWO, "z ; a"),
    // A trace of which nothing is left counts for nothing.
    (THREE, "{ name = \"e\" }", ALWAYS, ONE, "e"),
    (THREE, "{ }", ALWAYS, NOTHING, "none"),
    (PAIR, "{ name =~ \"a|e|g\" }", ALWAYS, ALL, "a ; e g"),
    (PAIR, "{ name =~ \"a|e|g\" }", ALWAYS, ONE, "a"),
    (PAIR, "{ name =~ \"a|e|g\" }", ALWAYS, ONE_SPAN, "a ; e .."),
    (
        PAIR,
        "{ } | by(.w)",
        Range {
            from: 9,
            until: Some(10),
        },
        ONE_SPAN,
        "\"x\": e .. | \"y\": g ..",
    ),
    (
        PAIR,
        "{ name = \"h\" }",
        Range {
            from: 2,
            until: Some(9),
        },
        ALL,
        "none",
    ),
    (
        PAIR,
        "{ }",
        Range {
            from: 2,
            until: Some(3),
        },
        ALL,
        "none",
    ),
];

/// Compares what a search shows with what is expected of it.
fn check(rt: &(impl Abort + AllocGlobal), case: &Case) {
    let (lines, text, range, bounds, wanted) = case;
    let results = results_of(rt.alloc(), text, *range, *bounds, lines).expect(rt, text);
    let got = told(rt.alloc(), &results).expect(rt, "memory");
    assert!(rt; got.as_str() == *wanted, "{text} gives {got}");
}

#[test]
fn traces_are_ranked_before_they_are_cut(rt: HostRuntime) {
    for case in &CASES {
        check(&rt, case);
    }
}

/// Traces, and what searches over all of one's spans show.
static TABLES: [(&str, &str); 3] = [(KIN, SELECTED), (OWN, OF_OWN), (SHOP, STAGED)];

/// Compares what a row's search shows with what the row says.
fn check_row(rt: &(impl Abort + AllocGlobal), line: &str, row: &str) {
    let (text, wanted) = row.split_once(" => ").expect(rt, row);
    let results = results_of(rt.alloc(), text, ALWAYS, ALL, &[line]).expect(rt, text);
    let got = told(rt.alloc(), &results).expect(rt, "memory");
    assert!(rt; got.as_str() == wanted, "{text} gives {got}");
}

#[test]
fn spans_are_selected_and_stages_leave_spansets(rt: HostRuntime) {
    for (line, table) in &TABLES {
        for row in table.lines() {
            check_row(&rt, line, row);
        }
    }
}
