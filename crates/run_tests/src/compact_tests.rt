//! How many blocks a compaction joins.

use crate::filled::check;
use disk_model::MemDisk;
use std::alloc::{AllocError, Global};

/// Span ids, one for each block.
static SPANS: [&str; 5] = [
    "00000000000000b1",
    "00000000000000b2",
    "00000000000000b3",
    "00000000000000b4",
    "00000000000000b5",
];

/// Lines that make a block of each of these spans and then compact twice.
fn lines_of(alloc: Global, spans: &[&str]) -> Result<String, AllocError> {
    let mut lines = String::new(alloc);
    for span in spans {
        write!(
            lines,
            r#"push {{"resourceSpans":[{{"scopeSpans":[{{"spans":[{{"traceId":"000000000000000000000000000000a1","spanId":"{span}","parentSpanId":"","name":"x","startTimeUnixNano":"1","endTimeUnixNano":"2"}}]}}]}}]}}"#
        )?;
        lines.push_str("\ncutall\nflush\n")?;
    }
    lines.push_str("compact\ncompact\n")?;
    Ok(lines)
}

/// What they write, if four blocks are joined.
fn replies_of(alloc: Global, spans: &[&str]) -> Result<String, AllocError> {
    let mut replies = String::new(alloc);
    for number in 0..spans.len() {
        write!(
            replies,
            "ok push {number} $pushed\nok cutall moved=1\nok flush rows=1\n"
        )?;
    }
    replies.push_str("ok compact blocks=4 rows=4\nok compact nothing\n")?;
    Ok(replies)
}

// Four blocks at most are joined, and a fifth stays at its level.
#[test]
fn four_blocks_are_joined(rt: HostRuntime) {
    for count in 4..=5 {
        let spans = SPANS.get(..count).expect(&rt, "ids");
        let lines = lines_of(rt.alloc(), spans).expect(&rt, "memory");
        let replies = replies_of(rt.alloc(), spans).expect(&rt, "memory");
        let mut disk = MemDisk::empty(rt.alloc());
        check(&rt, &mut disk, lines.as_str(), (replies.as_str(), 0));
    }
}
