//! Looking up a trace in a block: what is found, and how many pages are read.

ghost use Rattle.std.specs.Prelude.{◌≡◌, false};
ghost use Rattle.span_types.specs.Promises.{all_zero};

use crate::built::row_of;
use block_build::{BuiltBlock, build};
use block_info::BlockInfo;
use block_read::{MemPages, ReadError, trace_rows};
use span_types::{Bytes, Calls, Memory, Row, Rows, TraceId};
use std::alloc::Global;
use std::process::Abort;

/// The number of the block's file.
const FILE: u32 = 7;

/// The trace with this number.
fn trace(number: u32) -> TraceId
    ensures { all_zero result.0 ≡ false }
{
    let [a, b, c, d] = number.to_be_bytes();
    TraceId([1, 0, 0, 0, 0, 0, 0, 0, 0, 0, 0, 0, a, b, c, d])
}

/// Adds so many rows of the trace with this number.
fn add_rows(alloc: Global, all: &mut Vec<Row>, number: u32, rows: u32) -> Result<(), Memory> {
    for span in 0..rows {
        all.push(row_of(alloc, trace(number), span)?)?;
    }
    Ok(())
}

/// The rows of so many traces, numbered by 2, 4 and so on, each of so many rows.
fn rows_of(alloc: Global, traces: u32, rows: u32) -> Result<Rows, Memory> {
    let mut all = Vec::new(alloc);
    for number in 0..traces {
        add_rows(
            alloc,
            &mut all,
            number.wrapping_mul(2).wrapping_add(2),
            rows,
        )?;
    }
    Ok(Rows::of(all))
}

/// The block of these rows.
fn block(rt: &(impl Abort + AllocGlobal), traces: u32, rows: u32) -> BuiltBlock {
    let all = rows_of(rt.alloc(), traces, rows).expect(rt, "memory");
    assert!(rt; 0 < all.len() && all.len() <= 1_048_576);
    build(rt.alloc(), all).expect(rt, "memory")
}

/// These bytes as a file, of which the reads with these numbers fail.
fn file(alloc: Global, bytes: &[u8], failing: &[u64]) -> Result<MemPages, Memory> {
    let mut copy = Vec::new(alloc);
    copy.extend_from_slice(bytes)?;
    let mut calls = Vec::new(alloc);
    calls.extend_from_slice(failing)?;
    Ok(MemPages::new(FILE, Bytes::of(copy), Calls::of(calls)))
}

/// What a look-up gave.
#[derive(Clone, Copy, PartialEq, Eq)]
enum Gave {
    /// So many rows, all of the trace.
    Rows(usize),
    /// A row of another trace.
    Other,
    /// That the pages are no block, at this offset.
    NotBlock(u64),
    /// A fault.
    Fault,
    /// That memory ran out.
    Memory,
}

fn rows_given(rows: &Rows, id: TraceId) -> Gave {
    for row in rows.as_slice() {
        if row.span.trace != id {
            return Gave::Other;
        }
    }
    Gave::Rows(rows.len())
}

/// What looking up a trace in these pages gives.
fn given(alloc: Global, pages: &mut MemPages, info: &BlockInfo, id: TraceId) -> Gave {
    match trace_rows(alloc, pages, FILE, info, id) {
        Ok(rows) => rows_given(&rows, id),
        Err(ReadError::NotBlock { at, .. }) => Gave::NotBlock(at),
        Err(ReadError::Fault) => Gave::Fault,
        Err(ReadError::Memory) => Gave::Memory,
    }
}

/// What looking up a trace in a block that was built gives, and how many pages it read, where the reads with these
/// numbers fail.
fn found(
    rt: &(impl Abort + AllocGlobal),
    built: &BuiltBlock,
    number: u32,
    failing: &[u64],
) -> (Gave, u64) {
    let mut pages = file(rt.alloc(), built.bytes.as_slice(), failing).expect(rt, "memory");
    let gave = given(rt.alloc(), &mut pages, &built.info, trace(number));
    (gave, pages.reads())
}

#[test]
fn a_trace_over_two_stripes(rt: HostRuntime) {
    let built = block(&rt, 1, 257);
    let stripes = built.info.index_page.saturating_sub(1);
    assert!(&rt; found(&rt, &built, 2, &[]) == (Gave::Rows(257), stripes.saturating_add(2)));
    // An absent id, of which the filters have not all bits.
    assert!(&rt; found(&rt, &built, 3, &[]) == (Gave::Rows(0), 1));
}

/// Puts these bytes there in a copy of a block's bytes.
fn changed(alloc: Global, bytes: &[u8], place: u64, new: &[u8]) -> Result<Vec<u8>, Memory> {
    let mut copy = Vec::new(alloc);
    copy.extend_from_slice(bytes)?;
    for (old, byte) in copy.iter_mut().skip(place as usize).zip(new.iter()) {
        *old = *byte;
    }
    Ok(copy)
}

/// What a look-up of a trace gives once these bytes stand there in the block.
fn by(
    rt: &(impl Abort + AllocGlobal),
    built: &BuiltBlock,
    place: u64,
    new: &[u8],
    number: u32,
) -> Gave {
    let bytes = changed(rt.alloc(), built.bytes.as_slice(), place, new).expect(rt, "memory");
    let mut pages = file(rt.alloc(), bytes.as_slice(), &[]).expect(rt, "memory");
    given(rt.alloc(), &mut pages, &built.info, trace(number))
}

/// What each byte of the filters is, a trace, and how many of its rows are found.
static FILTERS: [(u8, u32, usize); 4] = [(0, 2, 0), (0, 3, 0), (255, 2, 3), (255, 3, 0)];

#[test]
fn filters_that_err(rt: HostRuntime) {
    let built = block(&rt, 171, 3);
    let place = built.info.bloom_page.saturating_mul(4096);
    for (byte, number, rows) in &FILTERS {
        let gave = by(&rt, &built, place, &[*byte; 4096], *number);
        assert!(&rt; gave == Gave::Rows(*rows), "{number}");
    }
}

/// What a look-up of a block's first trace gives once the first entry of the index names these rows.
fn by_entry(rt: &(impl Abort + AllocGlobal), built: &BuiltBlock, first: u32, rows: u32) -> Gave {
    let index = built.info.index_page.saturating_mul(4096);
    let entry = u64::from(rows) << 32 | u64::from(first);
    by(rt, built, index.saturating_add(16), &entry.to_le_bytes(), 2)
}

static LIES: [(u32, u32, Gave); 9] = [
    (0, 200, Gave::Rows(200)),
    // Rows of the other trace are let go, and a stripe that isn't named isn't read.
    (0, 400, Gave::Rows(200)),
    (100, 1, Gave::Rows(200)),
    (256, 100, Gave::Rows(0)),
    (300, 0, Gave::Rows(0)),
    // Rows that no stripe has.
    (512, 1, Gave::NotBlock(0)),
    (1000, 1, Gave::NotBlock(0)),
    (0, u32::MAX, Gave::NotBlock(0)),
    (u32::MAX, u32::MAX, Gave::NotBlock(0)),
];

#[test]
fn an_index_that_lies(rt: HostRuntime) {
    // Two traces of 200 rows each, in two stripes.
    let built = block(&rt, 2, 200);
    for (first, rows, gave) in &LIES {
        assert!(&rt;
            by_entry(&rt, &built, *first, *rows) == *gave,
            "{first} {rows}"
        );
    }
}

#[test]
fn each_read_fails(rt: HostRuntime) {
    let built = block(&rt, 1, 257);
    let (_, reads) = found(&rt, &built, 2, &[]);
    for number in 0..reads {
        let number = number.saturating_add(1);
        assert!(&rt; found(&rt, &built, 2, &[number]) == (Gave::Fault, number));
    }
}

/// Where the second stripe begins.
fn second_stripe(info: &BlockInfo) -> u64 {
    match info.stripes.as_slice().get(1) {
        Some(stripe) => stripe.page.saturating_mul(4096),
        None => 0,
    }
}

/// An offset of the second stripe, the bytes that stand there, and where the stripe breaks.
static BROKEN: [(u64, &[u8], u64); 4] = [
    // Another length.
    (0, &[255; 8], 0),
    // One byte too many for the text's length, no rows, an id of zeros.
    (9, &[128, 0], 9),
    (16, &[0, 0], 0),
    (2322, &[0; 8], 2322),
];

#[test]
fn a_stripe_that_breaks(rt: HostRuntime) {
    // Two traces of 200 rows each. The second stripe has the last 144 rows: one empty text from byte 8, one resource,
    // one scope, the number of rows from byte 16, their traces from 18, and their spans' ids from 2,322.
    let built = block(&rt, 2, 200);
    let first = second_stripe(&built.info);
    for (offset, new, broken) in &BROKEN {
        let place = first.saturating_add(*offset);
        let at = first.saturating_add(*broken);
        assert!(&rt;
            by(&rt, &built, place, new, 4) == Gave::NotBlock(at),
            "{offset}"
        );
        // A trace that lies in the first stripe alone is found.
        assert!(&rt;
            by(&rt, &built, place, new, 2) == Gave::Rows(200),
            "{offset}"
        );
    }
}

/// Whether looking up each trace in the bytes of a block gives all of its rows, none, or that an entry names rows that
/// no stripe has.
fn are_theirs(alloc: Global, pages: &mut MemPages, info: &BlockInfo) -> bool {
    for number in 0..344 {
        match given(alloc, pages, info, trace(number)) {
            Gave::Rows(0 | 3) | Gave::NotBlock(0) => (),
            _ => return false,
        }
    }
    true
}

/// The ids of the traces 342 and 3.
const LAST: &[u8] = &[1, 0, 0, 0, 0, 0, 0, 0, 0, 0, 0, 0, 0, 0, 1, 86];

const FOREIGN: &[u8] = &[1, 0, 0, 0, 0, 0, 0, 0, 0, 0, 0, 0, 0, 0, 0, 3];

/// An offset of the index, and the bytes that stand there so many times.
static ORDERS: [(u64, &[u8], usize); 6] = [
    // The first entry has the id of the last one, or one that no row has.
    (0, LAST, 1),
    (0, FOREIGN, 1),
    // Half of the first page, all of it, or the second one is zeros.
    (0, &[0], 2048),
    (0, &[0], 4096),
    (4096, &[0], 4096),
    (2040, &[255], 48),
];

/// Asserts that no trace gets rows of another one once these bytes stand there in the block.
fn check_theirs(rt: &(impl Abort + AllocGlobal), built: &BuiltBlock, place: u64, new: &[u8]) {
    let bytes = changed(rt.alloc(), built.bytes.as_slice(), place, new).expect(rt, "memory");
    let mut pages = file(rt.alloc(), bytes.as_slice(), &[]).expect(rt, "memory");
    assert!(rt; are_theirs(rt.alloc(), &mut pages, &built.info), "{place}");
}

#[test]
fn an_index_out_of_order(rt: HostRuntime) {
    // 171 traces of three rows: 170 entries of 24 bytes in the first page of the index, one in the second.
    let built = block(&rt, 171, 3);
    let index = built.info.index_page.saturating_mul(4096);
    for (offset, bytes, times) in &ORDERS {
        let new = bytes.repeat(rt.alloc(), *times).expect(&rt, "memory");
        check_theirs(&rt, &built, index.saturating_add(*offset), new.as_slice());
    }
}
