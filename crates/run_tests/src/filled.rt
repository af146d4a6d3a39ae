//! Sessions of tables, in whose lines and replies short words stand for long texts.

use crate::series::{LINKED, LINKED_TRACE, UNLINKED};
use disk_model::MemDisk;
use run_support::{LOOK_A1, PUSH_X, PUSH_Y, PUSHED_0, TRACE_X, writes};
use std::alloc::{AllocError, Global};
use std::process::Abort;
use std::sync::Wait;
use std::thread::Threads;

/// The words, and what they stand for: pushes, the look-up of their trace, and replies.
static WORDS: [(&str, &str); 9] = [
    ("$x", PUSH_X),
    ("$y", PUSH_Y),
    ("$look", LOOK_A1),
    ("$0", PUSHED_0),
    ("$pushed", "accepted=1 rejected=0 skipped=0"),
    ("$trace", TRACE_X),
    ("$linked", LINKED),
    ("$unlinked", UNLINKED),
    ("$both", LINKED_TRACE),
];

/// A text with what its words stand for.
pub(crate) fn filled(alloc: Global, text: &str) -> Result<String, AllocError> {
    let mut all = String::from_str(alloc, text)?;
    for (word, meaning) in &WORDS {
        all = all.replace(alloc, *word, meaning)?;
    }
    Ok(all)
}

/// Runs a session over these lines on the disk, and asserts what it writes and its status.
pub(crate) fn check<R: Threads + Wait + Sync + Abort + AllocGlobal>(
    rt: &R,
    disk: &mut MemDisk,
    lines: &str,
    wanted: (&str, u8),
) {
    let input = filled(rt.alloc(), lines).expect(rt, "memory");
    let text = filled(rt.alloc(), wanted.0).expect(rt, "memory");
    let told = (text.as_str(), wanted.1);
    let is_told = writes(rt, rt.alloc(), disk, input.as_str(), told).expect(rt, "memory");
    assert!(rt; is_told, "{lines}");
}
