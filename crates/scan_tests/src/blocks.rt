//! Blocks of spans that stand in a text, and what a hint picks in them.

use block_build::{BuiltBlock, build};
use block_read::{MemPages, ReadError};
use column_scan::{Hint, candidates, hint};
use moment_range::Range;
use otlp_spans::read_line;
use span_types::{Bytes, Calls, Memory, Place, Row, Rows};
use std::alloc::Global;
use traceql_parse::parse;
use traceql_types::{RegexMaker, check};

/// The number of a block's file.
pub(crate) const FILE: u32 = 7;

/// What a hint picks in a block: how many traces, the last byte of the first one's id, and how many pages were read
/// for it.
#[derive(Clone, Copy, PartialEq, Eq)]
pub(crate) struct Picked {
    pub(crate) traces: usize,
    pub(crate) first: Option<u8>,
    pub(crate) reads: u64,
}

/// What failed.
pub(crate) type Failure = &'static str;

/// The hint of a query over all of time.
pub(crate) fn hint_of(alloc: Global, query: &str) -> Result<Hint, Failure> {
    let Ok(query) = parse(alloc, query) else {
        return Err("the query is not read");
    };
    let mut maker = RegexMaker::new(alloc);
    let Ok(checked) = check(alloc, query, &mut maker) else {
        return Err("the query is refused");
    };
    let always = Range {
        from: 0,
        until: None,
    };
    hint(&checked, always).map_err(|_| "no memory")
}

/// The rows of spans, which stand in a text with commas between them, as those of one push.
pub(crate) fn rows_of(alloc: Global, spans: &str, number: u64) -> Result<Vec<Row>, Memory> {
    let line = format!(in alloc;
        "{{\"resourceSpans\":[{{\"scopeSpans\":[{{\"spans\":[{spans}]}}]}}]}}"
    )?;
    let Ok(reading) = read_line(alloc, line.as_bytes()) else {
        return Err(Memory);
    };
    let mut rows = Vec::new(alloc);
    let mut position = 0u32;
    for span in reading.batch.spans.into_vec() {
        let place = Place { number, position };
        rows.push(Row { place, span })?;
        position = position.saturating_add(1);
    }
    Ok(rows)
}

/// A block of these spans.
pub(crate) fn block_of(alloc: Global, spans: &str) -> Result<BuiltBlock, Failure> {
    let Ok(rows) = rows_of(alloc, spans, 0) else {
        return Err("the spans are not read");
    };
    built(alloc, rows).map_err(|_| "the block is not built")
}

/// A block of these rows.
pub(crate) fn built(alloc: Global, rows: Vec<Row>) -> Result<BuiltBlock, Memory> {
    if rows.len() == 0 || rows.len() > 1_048_576 {
        return Err(Memory);
    }
    build(alloc, Rows::of(rows))
}

/// The bytes of a block as a file, no read of which fails.
pub(crate) fn file_of(alloc: Global, block: &BuiltBlock) -> Result<MemPages, Memory> {
    let mut copy = Vec::new(alloc);
    copy.extend_from_slice(block.bytes.as_slice())?;
    Ok(MemPages::new(FILE, Bytes::of(copy), Calls::of(Vec::new(alloc))))
}

/// What a hint picks in a block.
pub(crate) fn picked_in(alloc: Global, block: &BuiltBlock, hint: &Hint) -> Result<Picked, Failure> {
    let Ok(pages) = file_of(alloc, block) else {
        return Err("no memory");
    };
    let mut pages = pages;
    match candidates(alloc, &mut pages, FILE, &block.info, hint) {
        Ok(ids) => Ok(Picked {
            traces: ids.len(),
            first: ids.as_slice().first().map(|id| id.0[15]),
            reads: pages.reads(),
        }),
        Err(ReadError::Memory) => Err("no memory"),
        Err(_) => Err("the block is not read"),
    }
}

/// Where a block is malformed by a hint's candidates, once these bytes stand at an offset of its first stripe, if it
/// is for them.
pub(crate) fn broken_at(
    alloc: Global,
    block: &BuiltBlock,
    offset: usize,
    new: &[u8],
    hint: &Hint,
) -> Result<Option<u64>, Failure> {
    let Ok(pages) = changed(alloc, block, offset, new) else {
        return Err("no memory");
    };
    let mut pages = pages;
    match candidates(alloc, &mut pages, FILE, &block.info, hint) {
        Ok(_) => Ok(None),
        Err(ReadError::NotBlock { file: FILE, at }) => Ok(Some(at)),
        Err(_) => Err("the block is not read"),
    }
}

// The bytes of a block as a file, with these at an offset of its first stripe, which is its second page.
fn changed(
    alloc: Global,
    block: &BuiltBlock,
    offset: usize,
    new: &[u8],
) -> Result<MemPages, Memory> {
    let mut copy = Vec::new(alloc);
    copy.extend_from_slice(block.bytes.as_slice())?;
    let place = offset.saturating_add(4096);
    for (old, byte) in copy.iter_mut().skip(place).zip(new.iter()) {
        *old = *byte;
    }
    Ok(MemPages::new(FILE, Bytes::of(copy), Calls::of(Vec::new(alloc))))
}
