//! A block that changes while its store is open: what a search is told whose reads give another length of the block's stripe than was
//! written, by docs/BLOCK-FORMAT.md.

use disk_model::{ByteLists, Device, MemDisk, OddDisk};
use io_edges::{FixedClock, MemSink, OpenGate};
use run_support::{Ended, PUSH_X, PUSHED_0, all_words, calls, run, session_on, source_of};
use span_types::{Bytes, Memory, Moments};
use std::alloc::{AllocError, Global};
use std::process::Abort;
use std::sync::Wait;
use std::test::Fail;
use std::thread::Threads;
use traceql_types::RegexMaker;

/// The lines that make a block of the span of `PUSH_X`.
const FLUSHED: &str = "$x\ncutall\nflush\n";

/// The lines that then search in it, and push again.
const LATER: &str = "search { }\n$x\n";

/// What a search finds in the block as it was written.
const FOUND: &str =
    r#"{"traces":[{"durationNanos":"1","rootName":"x","rootService":null,"spanSets":[{"by":[],"matched":1,"spans":[{"attributes":[],"durationNanos":"1","name":"x","spanId":"00000000000000b1","startTimeUnixNano":"1"}]}],"startTimeUnixNano":"1","traceId":"000000000000000000000000000000a1"}]}"#;

/// The words, and what they stand for.
static WORDS: [(&str, &str); 3] = [("$x", PUSH_X), ("$0", PUSHED_0), ("$found", FOUND)];

/// A text with what its words stand for.
fn filled(alloc: Global, text: &str) -> Result<String, AllocError> {
    let mut all = String::from_str(alloc, text)?;
    for (word, meaning) in &WORDS {
        all = all.replace(alloc, *word, meaning)?;
    }
    Ok(all)
}

/// A length of the stripe, what the search is told then, and the status.
type Case = (u64, &'static str, u8);

/// The block is file 3, and its stripe begins at byte 4,096. The content begins after the 8 bytes of its length and has 61: two texts (4), a
/// resource (2), a scope (4), the number of rows (1), and the columns of one row (50), of which the last one, the number of attributes, is
/// one byte.
static CASES: [Case; 6] = [
    (61, "ok search as_of=1 traces=1 $found\n", 0),
    // The last column passes the content's end; or there is a byte after it.
    (60, "refused not-block file=3 at=4164\n", 7),
    (62, "refused not-block file=3 at=4165\n", 7),
    // The content ends before the number of texts.
    (0, "refused not-block file=3 at=4104\n", 7),
    // It needs more pages than the header says.
    (4089, "refused not-block file=3 at=4096\n", 7),
    (u64::MAX, "refused not-block file=3 at=4096\n", 7),
];

/// The reads of an opening: each slot is read twice, as its length is asked for in between.
const SLOT_READS: usize = 4;

/// The pages of the block in which a search reads: the stripe, the filters and the index.
static PAGES: [u64; 3] = [1, 3, 2];

// A disk with a store of one block.
fn with_block<R: Threads + Wait + Sync>(rt: &R, alloc: Global) -> Result<MemDisk, Memory> {
    let input = filled(alloc, FLUSHED)?;
    let mut disk = MemDisk::empty(alloc);
    session_on(rt, alloc, &mut disk, input.as_str())?;
    Ok(disk)
}

// A page of the block, in which the stripe has another length.
fn page_of(alloc: Global, disk: &mut MemDisk, page: u64, length: u64) -> Result<Bytes, Fail> {
    let mut bytes = [0; 4096];
    disk.read(3, page.saturating_mul(4096), &mut bytes)?;
    if page == 1 {
        bytes[..8].copy_from_slice(&length.to_le_bytes());
    }
    Ok(Bytes::of(bytes.to_vec(alloc)?))
}

// The chunks of reads in their order: nothing in the slots, and then the pages.
fn chunks(alloc: Global, disk: &mut MemDisk, length: u64) -> Result<ByteLists, Fail> {
    let mut chunks = Vec::new(alloc);
    for _ in 0..SLOT_READS {
        chunks.push(Bytes::none(alloc))?;
    }
    for page in &PAGES {
        let page = page_of(alloc, disk, *page, length)?;
        chunks.push(page)?;
    }
    Ok(ByteLists::of(chunks))
}

// Whether a session over the input writes just that text on the disk, and ends with that status.
fn writes_on<R: Threads + Wait + Sync>(
    rt: &R,
    alloc: Global,
    disk: OddDisk,
    input: &str,
    wanted: (&str, u8),
) -> Result<bool, Memory> {
    let words = all_words(alloc, &["session"])?;
    let mut source = source_of(alloc, input)?;
    let mut sink = MemSink::new(alloc, calls(alloc, &[])?);
    let Ended {
        status,
        disk: _disk,
    } = run(
        rt,
        alloc,
        words.as_slice(),
        &mut source,
        &mut sink,
        disk,
        &mut FixedClock::new(Moments::none(alloc)),
        &mut RegexMaker::new(alloc),
        &OpenGate,
    );
    Ok(sink.taken() == wanted.0.as_bytes() && status == wanted.1)
}

// The lines of the session.
fn lines(alloc: Global) -> Result<String, AllocError> {
    let mut text = String::from_str(alloc, FLUSHED)?;
    text.push_str(LATER)?;
    filled(alloc, text.as_str())
}

// What the session writes in which the search is told this: the push after it is accepted all the same.
fn replies(alloc: Global, told: &str) -> Result<String, AllocError> {
    let mut text = String::from_str(alloc, "$0ok cutall moved=1\nok flush rows=1\n")?;
    text.push_str(told)?;
    text.push_str("ok push 1 accepted=1 rejected=0 skipped=0\n")?;
    filled(alloc, text.as_str())
}

// Asserts what a session writes on a disk whose files are empty by their lengths, so that a new store is made, and whose reads give
// these chunks.
fn check_case<R: Threads + Wait + Sync + Abort + AllocGlobal>(
    rt: &R,
    chunks: ByteLists,
    case: &Case,
) {
    let input = lines(rt.alloc()).expect(rt, "memory");
    let text = replies(rt.alloc(), case.1).expect(rt, "memory");
    let wanted = (text.as_str(), case.2);
    let disk = OddDisk::new(0, chunks);
    let is_told = writes_on(rt, rt.alloc(), disk, input.as_str(), wanted).expect(rt, "memory");
    assert!(rt; is_told, "length {}", case.0);
}

#[test]
fn a_search_in_a_block_that_changed(rt: HostRuntime) -> Result<(), Fail> {
    let mut disk = with_block(&rt, rt.alloc())?;
    for case in &CASES {
        let chunks = chunks(rt.alloc(), &mut disk, case.0)?;
        check_case(&rt, chunks, case);
    }
    Ok(())
}
