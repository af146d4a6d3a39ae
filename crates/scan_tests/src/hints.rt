//! The hints of queries, and what they pick in two blocks.

use crate::blocks::{Picked, block_of, broken_at, hint_of, picked_in};
use moment_range::Range;
use std::process::Abort;

/// A query, and the text that each trace which it answers has in one of its spans, if it asks for one.
static HINTS: [(&str, Option<&str>); 24] = [
    (r#"{ name = "a" }"#, Some("a")),
    (r#"{ name = "a" || .v = 1 }"#, None),
    (r#"{ span:name = "a" }"#, Some("a")),
    (r#"{ .x = "a" }"#, Some("a")),
    (r#"{ span.x = "a" }"#, Some("a")),
    (r#"{ resource.x = "a" }"#, Some("a")),
    (r#"{ .x = "" }"#, Some("")),
    (r#"{ .x = "a" && .y = "b" }"#, Some("a")),
    (r#"{ .x = 1 && .y = "b" }"#, Some("b")),
    (r#"{ .x != "a" && .y > 2 && name = "c" }"#, Some("c")),
    (r#"{ .x = "a" && name = "b" && status = error }"#, Some("a")),
    (r#"{ (.x = "a" || .y = "b") && .z = "c" }"#, Some("c")),
    (r#"{ (.x = "a" && .y = 1) && .z = 2 }"#, Some("a")),
    (r#"{ .z = 2 && (.x = "a" && .y = 1) }"#, None),
    (r#"{ (.x = "a") }"#, Some("a")),
    (r#"{ .x = "a" } | count() > 1"#, Some("a")),
    (r#"{ .x = "a" } && { .y = "b" }"#, None),
    (r#"{ .x = "a" } >> { }"#, None),
    (r#"{ "a" = name }"#, None),
    (r#"{ .x != "a" }"#, None),
    (r#"{ .x =~ "a" }"#, None),
    (r#"{ !(.x = "a") }"#, None),
    (r#"{ statusMessage = "a" }"#, None),
    (r#"{ }"#, None),
];

#[test]
fn a_hint_has_the_first_text_that_a_chain_asks_for(rt: HostRuntime) {
    for (query, wanted) in &HINTS {
        let hint = hint_of(rt.alloc(), query).expect(&rt, query);
        let text = hint.text.as_ref().map(|text| text.as_str());
        assert!(&rt; text == *wanted, "{query}");
    }
}

/// The span b2 of the trace a1, and the span b1 of it, which is b2's parent.
const CHILD: &str =
    r#"{"traceId":"000000000000000000000000000000a1","spanId":"00000000000000b2","parentSpanId":"00000000000000b1","name":"b","startTimeUnixNano":"2","endTimeUnixNano":"3"}"#;

const PARENT: &str =
    r#"{"traceId":"000000000000000000000000000000a1","spanId":"00000000000000b1","parentSpanId":"","name":"a","startTimeUnixNano":"1","endTimeUnixNano":"4"}"#;

const NONE: Picked = Picked {
    traces: 0,
    first: None,
    reads: 1,
};

const ONE: Picked = Picked {
    traces: 1,
    first: Some(0xa1),
    reads: 1,
};

const UNREAD: Picked = Picked {
    traces: 0,
    first: None,
    reads: 0,
};

/// A query, the spans of a block, the range, and what is picked in the block, each of which has one page of rows.
type Case = (&'static str, &'static str, u64, Option<u64>, Picked);

/// A stripe that can't have a moment of the range isn't read, unless a text is asked for.
static CASES: [Case; 8] = [
    (r#"{ name = "a" }"#, CHILD, 0, None, NONE),
    (r#"{ name = "a" }"#, PARENT, 0, None, ONE),
    ("{ }", CHILD, 0, None, ONE),
    ("{ }", CHILD, 2, None, ONE),
    ("{ }", CHILD, 3, None, UNREAD),
    ("{ }", CHILD, 0, Some(2), UNREAD),
    ("{ }", CHILD, 0, Some(3), ONE),
    (r#"{ name = "b" }"#, CHILD, 3, None, ONE),
];

/// Compares what a hint picks in a block with what is expected of it.
fn check_picked(rt: &(impl Abort + AllocGlobal), case: &Case) {
    let (query, spans, from, until, wanted) = case;
    let block = block_of(rt.alloc(), spans).expect(rt, "a block");
    let mut hint = hint_of(rt.alloc(), query).expect(rt, query);
    hint.range = Range {
        from: *from,
        until: *until,
    };
    let picked = picked_in(rt.alloc(), &block, &hint).expect(rt, "a block");
    assert!(rt; picked == *wanted, "{query} from {from}");
}

#[test]
fn candidates_of_blocks(rt: HostRuntime) {
    for case in &CASES {
        check_picked(&rt, case);
    }
}

/// A query, the start of its range, the bytes that stand at an offset of a stripe of one row, and where that is
/// malformed, if it is read: another length, and one byte too many for the length of the first text, which is empty.
type Broken = (&'static str, u64, usize, &'static [u8], Option<u64>);

static BROKEN: [Broken; 6] = [
    ("{ }", 0, 0, &[255; 8], Some(4096)),
    (r#"{ name = "a" }"#, 0, 0, &[255; 8], Some(4096)),
    ("{ }", 5, 0, &[255; 8], None),
    ("{ }", 0, 9, &[128, 0], Some(4105)),
    (r#"{ name = "a" }"#, 0, 9, &[128, 0], Some(4105)),
    ("{ }", 5, 9, &[128, 0], None),
];

/// Compares where a hint's candidates are found to be malformed with what is expected of it.
fn check_broken(rt: &(impl Abort + AllocGlobal), case: &Broken) {
    let (query, from, offset, new, wanted) = case;
    let block = block_of(rt.alloc(), PARENT).expect(rt, "a block");
    let mut hint = hint_of(rt.alloc(), query).expect(rt, query);
    hint.range.from = *from;
    let told = broken_at(rt.alloc(), &block, *offset, new, &hint).expect(rt, "a block");
    assert!(rt; told == *wanted, "{query} from {from}, {offset}");
}

#[test]
fn candidates_of_a_broken_stripe(rt: HostRuntime) {
    for case in &BROKEN {
        check_broken(&rt, case);
    }
}
