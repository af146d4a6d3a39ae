//! An ingest many lines of which are at hand, so that threads read them: each gets its own reply, in order.

use disk_model::MemDisk;
use run_support::{FINE, PUSH_X, play};
use std::alloc::{AllocError, Global};

/// So many lines have bytes. The fourth and each seventh after it is no JSON: 21 of them.
const LINES: u64 = 150;

fn is_bad(number: u64) -> bool {
    number % 7 == 3
}

// Adds a line, of some 700 bytes where it is a push, and a line without bytes after each fifth.
fn add_line(lines: &mut String, push: &str, number: u64) -> Result<(), AllocError> {
    if is_bad(number) {
        lines.push_str("no JSON\n")?;
    } else {
        lines.push_str(push)?;
    }
    if number % 5 == 0 {
        lines.push_str("\r\n")?;
    }
    Ok(())
}

// The lines of the ingest.
fn lines(alloc: Global) -> Result<String, AllocError> {
    let spaces = " ".repeat(alloc, 500)?;
    let line = PUSH_X.strip_prefix("push ").unwrap_or("");
    let push = format!(in alloc; "{line}{spaces}\n")?;
    let mut all = String::new(alloc);
    for number in 0..LINES {
        add_line(&mut all, push.as_str(), number)?;
    }
    Ok(all)
}

// What is replied: pushes are numbered from 0 on, and all are of one span.
fn replies(alloc: Global) -> Result<String, AllocError> {
    let mut all = String::new(alloc);
    let mut pushed = 0u64;
    for number in 0..LINES {
        if is_bad(number) {
            all.push_str("refused bad-json\n")?;
        } else {
            write!(all, "ok push {pushed} accepted=1 rejected=0 skipped=0\n")?;
            pushed = pushed.saturating_add(1);
        }
    }
    all.push_str("ok cutall moved=129\nok flush rows=1\nok compact nothing\nok reclaim files=1\n")?;
    Ok(all)
}

#[test]
fn lines_that_threads_read_are_replied_in_order(rt: HostRuntime) {
    let alloc = rt.alloc();
    let input = lines(alloc).expect(&rt, "memory");
    let wanted = replies(alloc).expect(&rt, "memory");
    let disk = MemDisk::empty(alloc);
    let played = play(&rt, alloc, disk, &["ingest"], input.as_str(), FINE, &[]);
    assert!(&rt; played.expect(&rt, "memory").is(wanted.as_str(), 7));
}
