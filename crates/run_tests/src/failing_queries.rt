//! A page can't be read as a query is answered: that one is refused, and the store goes on, also with pushes.

use crate::filled::check;
use disk_model::MemDisk;
use run_support::calls;
use std::process::Abort;
use std::sync::Wait;
use std::thread::Threads;

/// A query, what it is told of a store with one span in a block, and how many pages it reads.
type Query = (&'static str, &'static str, u64);

const NO_TRACE: &str = "ok search as_of=1 traces=0 {\"traces\":[]}\n";

/// A look-up reads a page of the filters, one of the index and one of the stripe, and a search the stripe's page, and where it wants
/// whole traces those of a look-up.
static QUERIES: [Query; 3] = [
    ("$look\n", "ok trace as_of=1 spans=1 $trace\n", 3),
    ("search { name = \"y\" }\n", NO_TRACE, 1),
    ("search { traceDuration > 1s }\n", NO_TRACE, 3),
];

/// The calls of the disk before it: 13 of the opening, four of the push and 13 of the flush.
const BEFORE: u64 = 30;

// Asserts that a query one page of which can't be read is refused, and then answered, and that a push is accepted after it.
fn check_page<R: Threads + Wait + Sync + Abort + AllocGlobal>(rt: &R, query: &Query, page: u64) {
    let alloc = rt.alloc();
    let (line, answer, _) = query;
    let mut disk = MemDisk::empty(alloc);
    disk.fail_at(calls(alloc, &[BEFORE.saturating_add(page)]).expect(rt, "memory"));
    let lines = format!(in alloc; "$x\ncutall\nflush\n{line}{line}$y\n");
    let told = format!(in alloc;
        "$0ok cutall moved=1\nok flush rows=1\nrefused disk-fault\n{answer}ok push 1 $pushed\n"
    );
    let lines = lines.expect(rt, "memory");
    let told = told.expect(rt, "memory");
    check(rt, &mut disk, lines.as_str(), (told.as_str(), 7));
}

#[test]
fn a_page_that_fails_refuses_its_query_alone(rt: HostRuntime) {
    for query in &QUERIES {
        let (_, _, pages) = query;
        for page in 0..*pages {
            check_page(&rt, query, page.saturating_add(1));
        }
    }
}
