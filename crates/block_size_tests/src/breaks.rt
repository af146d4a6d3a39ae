//! A block of 2,049 traces of one row, malformed in a place or in two.
//!
//! The smallest block with two Bloom pages. It has 49 pages, worked out by hand from the page of the format:
//!
//! | page | at | what |
//! |---|---|---|
//! | 0 | 0 | the header, of nine stripes |
//! | 1, 5, .. 29 | 4,096, 20,480, .. | eight stripes of 256 rows, of four pages |
//! | 33 | 135,168 | a stripe of one row |
//! | 34 | 139,264 | 13 pages of the index: twelve have 170 traces, one has nine |
//! | 47 | 192,512 | two Bloom pages |

use crate::blocks::{FILE, LEVEL, Layout, block_of, checked};
use crate::rows::{Owners, Said};
use block_read::check_bytes;
use byte_fields::Break;
use span_types::{Memory, Rows};
use std::alloc::Global;
use std::process::Abort;

/// Where the second stripe begins, with the rows 256 to 511. Positions from 128 on have two bytes there, so its columns begin
/// at these offsets; the row 300 is number 44 of the stripe.
///
/// | at | column |
/// |---|---|
/// | 0, 8, 10, 12, 16 | the length (13,066), texts, resources, scopes, the number of rows |
/// | 18, 4,114, 6,162 | traces, ids, parents |
/// | 6,418, 6,674 | pushes, positions |
/// | 7,186, 7,442 | names, kinds |
/// | 7,698, 9,746 | starts, ends |
/// | 11,794, 12,050 | statuses, messages |
/// | 12,306, 12,562 | resources, scopes |
/// | 12,818, 13,074 | attributes, the fill |
const SECOND: u64 = 20_480;

/// The third stripe, which has the same columns, the last one, and the page after it.
const THIRD: u64 = 36_864;

const LAST: u64 = 135_168;

/// The second page of the index. It begins with the trace 170, by its number the one with 342 in its id.
const INDEX: u64 = 143_360;

/// The second Bloom page, and where the file ends.
const BLOOM: u64 = 196_608;

const END: u64 = 200_704;

/// What is told of a block, as an offset is told of other bytes.
const SOUND: u64 = 9_999_999;

/// The rows of so many traces: 2, 4 and so on.
fn rows(alloc: Global, traces: u32) -> Result<Rows, Memory> {
    let owners = Owners::new(alloc)?;
    let mut rows = Vec::new(alloc);
    for position in 0..traces {
        let said = Said {
            trace: u64::from(position).wrapping_mul(2).wrapping_add(2),
            span: 0,
            start: 0,
            push: 0,
            position,
        };
        rows.push(owners.row(alloc, &said)?)?;
    }
    Ok(Rows::of(rows))
}

static LAYOUT: Layout = Layout {
    rows: 2049,
    stripes: 9,
    last: (1, 1),
    index: (34, 13),
    bloom: (47, 2),
    pages: 49,
};

/// The bytes of the block, which is sound.
fn block(rt: &(impl Abort + AllocGlobal)) -> Vec<u8> {
    let given = rows(rt.alloc(), 2049).expect(rt, "memory");
    let built = block_of(rt, given);
    let bytes = Vec::from_slice(rt.alloc(), built.bytes.as_slice()).expect(rt, "memory");
    let _filed = checked(rt, built, &LAYOUT);
    bytes
}

/// The offset at which these bytes are no such block, or that they are one. None if memory runs out.
fn told(alloc: Global, bytes: &[u8]) -> Option<u64> {
    match check_bytes(alloc, FILE, LEVEL, 2049, bytes) {
        Ok(_) => Some(SOUND),
        Err(Break::At(at)) => Some(at),
        Err(Break::Memory) => None,
    }
}

/// A place of the file, and the bytes that stand there.
type Put = (u64, &'static [u8]);

/// Puts these bytes there.
fn put(bytes: &mut [u8], (place, new): Put) {
    for (old, byte) in bytes.iter_mut().skip(place as usize).zip(new.iter()) {
        *old = *byte;
    }
}

/// The bytes with these changes.
fn changed(rt: &(impl Abort + AllocGlobal), bytes: &[u8], changes: &[Put]) -> Vec<u8> {
    let mut copy = Vec::from_slice(rt.alloc(), bytes).expect(rt, "memory");
    for change in changes {
        put(copy.as_mut_slice(), *change);
    }
    copy
}

/// Compares the offset that is told of the bytes with these changes.
fn check(rt: &(impl Abort + AllocGlobal), bytes: &[u8], changes: &[Put], at: u64) {
    let copy = changed(rt, bytes, changes);
    let got = told(rt.alloc(), copy.as_slice());
    assert!(rt; got == Some(at), "{got:?} and {at}");
}

/// Fields and bytes in the order of the file, each of which makes the block malformed at itself.
static FIELDS: [Put; 26] = [
    // an id of zeros: of a trace and of a span
    (SECOND + 18 + 16 * 44, &[0; 16]),
    (SECOND + 4114 + 8 * 44, &[0; 8]),
    // neither a parent nor none
    (SECOND + 6162 + 44, &[2]),
    // a push and a position that aren't in the shortest form
    (SECOND + 6418 + 44, &[0x80, 0]),
    (SECOND + 6674 + 2 * 44, &[0x80, 0]),
    // a text and a kind that there aren't, and a kind of the next row
    (SECOND + 7186 + 44, &[1]),
    (SECOND + 7442 + 44, &[6]),
    (SECOND + 7442 + 45, &[6]),
    // a status, a text, a resource and a scope that there aren't
    (SECOND + 11_794 + 44, &[3]),
    (SECOND + 12_050 + 44, &[1]),
    (SECOND + 12_306 + 44, &[1]),
    (SECOND + 12_562 + 44, &[1]),
    // the fill, its first byte and its last one
    (SECOND + 13_074, &[1]),
    (SECOND + 16_383, &[1]),
    // a kind in the third stripe, and one in the last one, which has 17 bytes, 24 for the ids and five up to the kind
    (THIRD + 7442, &[6]),
    (LAST + 46, &[6]),
    // the first page of the index: the last of the 16 bytes after its entries
    (INDEX - 1, &[1]),
    // the second page: the first byte of an id and its last one, a first row, a number of rows, the fill
    (INDEX, &[2]),
    (INDEX + 15, &[0x57]),
    (INDEX + 16, &[0xab]),
    (INDEX + 20, &[2]),
    (INDEX + 4080, &[1]),
    // the fill of the last page
    (BLOOM - 4097, &[1]),
    // the first byte of the second Bloom page, a bit of the trace 256 (its hash is 39256ff14ded2f4d, an odd number; with a
    // byte 1 after it the hash's low 15 bits are 24,100, the next ones 27,143, then 775, which is bit 7 of byte 96, and
    // 1,996), and the last byte
    (BLOOM, &[0xff]),
    (BLOOM + 96, &[0]),
    (END - 1, &[0xff]),
];

#[test]
fn in_one_place(rt: HostRuntime) {
    let bytes = block(&rt);
    check(&rt, bytes.as_slice(), &[], SOUND);
    for change in &FIELDS {
        check(&rt, bytes.as_slice(), &[*change], change.0);
    }
}

#[test]
fn in_two_places_the_earlier_one_is_told(rt: HostRuntime) {
    let bytes = block(&rt);
    for one in &FIELDS {
        for other in &FIELDS {
            if one.0 < other.0 {
                check(&rt, bytes.as_slice(), &[*other, *one], one.0);
            }
        }
    }
}

/// Changes that are told elsewhere.
static ELSEWHERE: [(&[Put], u64); 14] = [
    // the length: one less, so that the last field passes its end; one more; 13,311 bytes in four pages; eight pages
    (&[(SECOND, &[0x09])], SECOND + 13_073),
    (&[(SECOND, &[0x0b])], SECOND + 13_074),
    (&[(SECOND, &[0xff])], SECOND + 13_074),
    (&[(SECOND + 1, &[0x73])], SECOND),
    // 128 rows; a start that isn't in the header; a trace that comes after the next row's
    (&[(SECOND + 17, &[1])], SECOND),
    (&[(SECOND + 7698 + 8 * 44, &[1])], SECOND),
    (&[(SECOND + 18 + 16 * 44, &[0xff])], SECOND),
    // a parent whose id is of the next rows' bytes, which are zeros
    (&[(SECOND + 6162 + 44, &[1])], SECOND + 6162 + 45),
    // an attribute of the texts 0 and 0, which takes the next rows' bytes, so that those of the last ones are missing
    (&[(SECOND + 12_818 + 44, &[1])], SECOND + 13_074),
    // a first row of which the second byte is another one
    (&[(INDEX + 16, &[0xaa, 1])], INDEX + 17),
    // the order of rows is tested after all fields of the stripe, and before those of the next one
    (
        &[(SECOND + 18 + 16 * 44, &[0xff]), (SECOND + 16_383, &[1])],
        SECOND + 16_383,
    ),
    (
        &[(SECOND + 18 + 16 * 44, &[0xff]), (THIRD + 7442, &[6])],
        SECOND,
    ),
    // the number of index pages is tested after the stripes, and before the index
    (&[(12, &[14]), (LAST + 46, &[6])], LAST + 46),
    (&[(12, &[14]), (16, &[3]), (INDEX - 1, &[1])], 12),
];

#[test]
fn in_places_that_are_told_elsewhere(rt: HostRuntime) {
    let bytes = block(&rt);
    for (changes, at) in &ELSEWHERE {
        check(&rt, bytes.as_slice(), changes, *at);
    }
}

/// Offsets at which the file is cut, within each part.
static CUTS: [u64; 7] = [
    SECOND + 4,
    SECOND + 7442,
    SECOND + 16_383,
    LAST + 46,
    INDEX + 5,
    BLOOM + 7,
    END - 1,
];

#[test]
fn cut_or_longer(rt: HostRuntime) {
    let mut bytes = block(&rt);
    for end in &CUTS {
        let cut = bytes.as_slice().get(..*end as usize).expect(&rt, "bytes");
        let got = told(rt.alloc(), cut);
        assert!(&rt; got == Some(*end), "{got:?} and {end}");
    }
    bytes.push(0).expect(&rt, "memory");
    check(&rt, bytes.as_slice(), &[], END);
}
