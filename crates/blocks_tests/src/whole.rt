//! A whole block of one row by its bytes, worked out by hand: where it is malformed, and what is read of it.

use crate::given::{SOUND, bytes_of, offsets, page, put, with_bytes};
use crate::headers::ONE;
use crate::indexed::BLOOM;
use block_build::build;
use block_info::{BlockInfo, StripeInfo};
use block_read::{MemPages, Pages, ReadError, all_rows, check_block};
use span_types::{Bytes, Calls, Failed, Memory, Rows};
use std::alloc::Global;
use std::process::Abort;

/// The stripe of a row of which little is said, up to the fill: `first`, from 1 to 2.
const ROW: &str = "
    length: 41 00 00 00 00 00 00 00
    texts: 02 00 05 66 69 72 73 74
    resources: 01 00
    scopes: 01 00 00 00
    rows: 01
    trace: 00 00 00 00 00 00 00 00 00 00 00 00 00 00 00 a1
    span: 00 00 00 00 00 00 00 b1
    parent, push, position, name, kind: 00 00 00 01 00
    start: 01 00 00 00 00 00 00 00
    until: 02 00 00 00 00 00 00 00
    status, message, owners, attributes: 00 00 00 00 00";

/// The index up to its fill.
const INDEX: &str = "
    trace: 00 00 00 00 00 00 00 00 00 00 00 00 00 00 00 a1
    first: 00 00 00 00
    rows: 01 00 00 00";

/// What is reported where a byte of the header is one more than it is, byte by byte; after these the byte itself.
const HEADER_CHANGES: &str = "
    0 0 0 4169
    4 4 4 4
    28 4 4 4
    12 12 12 12
    16 16 16 16
    4096 4096 4096 4096 4096 4096 4096 20
    4096 28 28 28 28 28 28 28
    4096 4096 4096 4096 4096 4096 4096 4096
    4096 4096 4096 4096 4096 4096 4096 4096";

/// The same of the stripe. A trace of another id is reported in the index.
const ROW_CHANGES: &str = "
    4169 4169 4096 4096 4096 4096 4096 4096
    4096 4107 4166 . . . . .
    4096 4114
    4096 4115 . 4096
    4096
    8192 8193 8194 8195 8196 8197 8198 8199 8200 8201 8202 8203 8204 8205 8206 8207
    . . . . . . . .
    4096 . . 4146 .
    4096 4096 4096 4096 4096 4096 4096 4096
    . . . . . . . .
    . . 4166 4167 4169";

/// The number of the block's file.
const FILE: u32 = 7;

/// The bytes of the block: a page of each part.
fn block(alloc: Global) -> Result<Vec<u8>, Memory> {
    let mut bytes = page(alloc, ONE)?;
    for words in [ROW, INDEX] {
        bytes.extend_from_slice(page(alloc, words)?.as_slice())?;
    }
    bytes.extend_from_slice(with_bytes(alloc, &BLOOM)?.as_slice())?;
    Ok(bytes)
}

/// The block as a file, of which the reads with these numbers fail.
fn file(alloc: Global, bytes: &[u8], failing: &[u64]) -> Result<MemPages, Memory> {
    let calls = Calls::of(Vec::from_slice(alloc, failing)?);
    let copy = Vec::from_slice(alloc, bytes)?;
    Ok(MemPages::new(FILE, Bytes::of(copy), calls))
}

/// The offset at which so many bytes of a file are no block of so many rows, or that they are one. None where a read
/// fails or memory runs out.
fn told(alloc: Global, pages: &mut MemPages, rows: u32, length: u64) -> Option<u64> {
    match check_block(alloc, pages, FILE, 3, rows, length) {
        Ok(_) => Some(SOUND),
        Err(ReadError::NotBlock { at, .. }) => Some(at),
        Err(ReadError::Fault) | Err(ReadError::Memory) => None,
    }
}

/// Compares the offset that is reported of these bytes, as a file of one row and of that length.
fn check(rt: &(impl Abort + AllocGlobal), bytes: &[u8], length: u64, offset: u64) {
    let mut pages = file(rt.alloc(), bytes, &[]).expect(rt, "memory");
    let got = told(rt.alloc(), &mut pages, 1, length).expect(rt, "a file");
    assert!(rt; got == offset, "{got} and {offset}");
}

/// Makes the byte at that place one more.
fn raise(bytes: &mut [u8], place: usize) {
    if let Some(byte) = bytes.get_mut(place) {
        *byte = byte.wrapping_add(1);
    }
}

/// Makes the byte at that place one less.
fn lower(bytes: &mut [u8], place: usize) {
    if let Some(byte) = bytes.get_mut(place) {
        *byte = byte.wrapping_sub(1);
    }
}

/// What is to be reported where the byte at that place is one more.
fn wanted(place: usize, header: &[u64], row: &[u64]) -> u64 {
    let (table, number) = if place < 4096 {
        (header, place)
    } else {
        (row, place - 4096)
    };
    match table.get(number) {
        Some(at) => *at,
        None => place as u64,
    }
}

#[test]
fn one_byte_is_another_one(rt: HostRuntime) {
    let header = offsets(rt.alloc(), HEADER_CHANGES).expect(&rt, "memory");
    let row = offsets(rt.alloc(), ROW_CHANGES).expect(&rt, "memory");
    let mut bytes = block(rt.alloc()).expect(&rt, "memory");
    check(&rt, bytes.as_slice(), 16384, SOUND);
    for place in 0..16384 {
        raise(bytes.as_mut_slice(), place);
        let offset = wanted(place, header.as_slice(), row.as_slice());
        check(&rt, bytes.as_slice(), 16384, offset);
        lower(bytes.as_mut_slice(), place);
    }
}

/// How many rows and bytes a file of the block is to have, and what is reported of it.
static SIZES: [(u32, u64, u64); 4] = [
    (1, 16384, SOUND),
    (1, 16385, 16384),
    (2, 16384, 0),
    (2, 16383, 16383),
];

#[test]
fn cut_or_longer_or_of_other_rows(rt: HostRuntime) {
    let bytes = block(rt.alloc()).expect(&rt, "memory");
    let mut pages = file(rt.alloc(), bytes.as_slice(), &[]).expect(&rt, "memory");
    for length in 0..16384 {
        assert!(&rt;
            told(rt.alloc(), &mut pages, 1, length) == Some(length),
            "{length}"
        );
    }
    for (rows, length, at) in &SIZES {
        assert!(&rt;
            told(rt.alloc(), &mut pages, *rows, *length) == Some(*at),
            "{rows} {length}"
        );
    }
}

/// Two places of the block, the bytes that stand there, and the offset.
static TWO: [((usize, &str), (usize, &str), u64); 13] = [
    // The stripe disagrees with its entry, and a field after what shows it is malformed, or its fill.
    ((36, "02"), (4164, "09"), 4096),
    ((44, "00"), (4169, "01"), 4096),
    ((28, "02"), (4146, "09"), 4096),
    ((20, "02"), (4164, "09"), 4096),
    // No stripe agrees with an entry whose earliest start is after its latest, nor with one of one row whose
    // earliest start is before its latest, whatever stands in the stripe.
    ((36, "02"), (4104, "82 00"), 4096),
    ((44, "02"), (4104, "82 00"), 4096),
    // A field before what would show that the stripe disagrees is malformed.
    ((36, "02 00 00 00 00 00 00 00 02"), (4146, "09"), 4146),
    ((28, "02"), (4116, "09"), 4116),
    // Stripes come before the counts of index pages and of Bloom pages, and these before what they count.
    ((12, "02"), (4164, "09"), 4164),
    ((12, "02"), (16, "02"), 12),
    ((16, "02"), (8192, "01"), 16),
    ((8200, "01"), (12288, "01"), 8200),
    // Form 2, and no event or link in it.
    ((3, "32"), (4096, "43"), 0),
];

/// The block with other bytes at a place.
fn changed(rt: &(impl Abort + AllocGlobal), place: usize, words: &str) -> Vec<u8> {
    let mut bytes = block(rt.alloc()).expect(rt, "memory");
    let new = bytes_of(rt.alloc(), words).expect(rt, "memory");
    put(bytes.as_mut_slice(), place, new.as_slice());
    bytes
}

#[test]
fn malformed_in_two_places(rt: HostRuntime) {
    for ((place, words), (other, also), offset) in &TWO {
        let mut bytes = changed(&rt, *place, words);
        let second = bytes_of(rt.alloc(), also).expect(&rt, "memory");
        put(bytes.as_mut_slice(), *other, second.as_slice());
        check(&rt, bytes.as_slice(), 16384, *offset);
    }
}

/// Entries with which no stripe agrees, and one with which another stripe would, where the file ends within the length
/// of its stripe.
static CUT: [(usize, &str, u64); 3] = [
    (36, "02", 4096),
    (44, "02", 4096),
    (36, "02 00 00 00 00 00 00 00 02", 4100),
];

#[test]
fn cut_within_a_length(rt: HostRuntime) {
    for (place, words, at) in &CUT {
        let bytes = changed(&rt, *place, words);
        check(&rt, bytes.as_slice(), 4100, *at);
    }
}

/// Whether this is known of the block: it has four pages, of which the one at 1 is its stripe, the one at 2 its index,
/// and the one at 3 has its Bloom filters.
fn is_known(info: &BlockInfo) -> bool {
    let stripe = StripeInfo {
        page: 1,
        pages: 1,
        rows: 1,
        earliest: 1,
        latest: 1,
    };
    let parts = info.index_page == 2 && info.bloom_page == 3 && info.pages == 4;
    parts && info.stripes.as_slice() == [stripe].as_slice()
}

/// Asserts that rows are built to these bytes, and to what is known of them.
fn check_built(rt: &(impl Abort + AllocGlobal), rows: Rows, bytes: &[u8]) {
    assert!(rt; rows.len() == 1);
    let built = build(rt.alloc(), rows).expect(rt, "memory");
    assert!(rt; built.bytes.as_slice() == bytes && is_known(&built.info));
}

#[test]
fn read_and_built_again(rt: HostRuntime) {
    let bytes = block(rt.alloc()).expect(&rt, "memory");
    let mut pages = file(rt.alloc(), bytes.as_slice(), &[]).expect(&rt, "memory");
    let read = check_block(rt.alloc(), &mut pages, FILE, 3, 1, 16384);
    let info = read.expect(&rt, "a block");
    assert!(&rt; info.level == 3 && info.file == FILE && is_known(&info));
    let rows = all_rows(rt.alloc(), &mut pages, FILE, &info).expect(&rt, "a block");
    check_built(&rt, rows, bytes.as_slice());
}

/// Whether a read of a page in mid-stream is answered as a fault.
fn is_fault(rt: &(impl Abort + AllocGlobal), bytes: &[u8]) -> bool {
    let mut pages = file(rt.alloc(), bytes, &[3]).expect(rt, "memory");
    let read = check_block(rt.alloc(), &mut pages, FILE, 3, 1, 16384);
    matches!(read, Err(ReadError::Fault))
}

#[test]
fn a_read_fails(rt: HostRuntime) {
    let bytes = block(rt.alloc()).expect(&rt, "memory");
    assert!(&rt; is_fault(&rt, bytes.as_slice()));
    let mut pages = file(rt.alloc(), bytes.as_slice(), &[2]).expect(&rt, "memory");
    let mut buf = [0; 4096];
    assert!(&rt; pages.page(FILE, 0, &mut buf).is_ok());
    assert!(&rt; buf.starts_with(b"TSB1"));
    assert!(&rt; matches!(pages.page(FILE, 1, &mut buf), Err(Failed)));
}
