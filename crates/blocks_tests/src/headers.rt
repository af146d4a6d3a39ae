//! Headers by their bytes, worked out by hand.

ghost use Rattle.std.specs.Prelude.{IfOk};
ghost use Rattle.block_format.specs.Headers.{CanBeHeader};

use crate::given::{SOUND, overwritten, page};
use block_format::{FormatError, Header, read_header, write_header};
use block_info::{StripeInfo, Stripes};
use span_types::Memory;
use std::alloc::Global;
use std::process::Abort;

/// The header of a block of one row that starts at 1, up to the fill. Each part has a page.
pub(crate) const ONE: &str = "
    TSB1 54 53 42 31
    pages 01 00 00 00
    stripes 01 00 00 00
    index 01 00 00 00
    filters 01 00 00 00
    01 00 00 00 00 00 00 00 01 00 00 00 00 00 00 00 01 00 00 00 00 00 00 00 01 00 00 00 00 00 00 00";

/// The header of a block of 513 rows in form 2, up to the fill: two stripes of 256 rows, on five pages and on 258, and
/// one of a row; 171 traces.
const THREE: &str = "
    TSB2 54 53 42 32
    pages 01 00 00 00
    stripes 03 00 00 00
    index 02 00 00 00
    filters 01 00 00 00
    05 00 00 00 00 00 00 00 00 01 00 00 00 00 00 00 01 00 00 00 00 00 00 00 2c 01 00 00 00 00 00 00
    02 01 00 00 00 00 00 00 00 01 00 00 00 00 00 00 2c 01 00 00 00 00 00 00 2c 01 00 00 00 00 00 00
    01 00 00 00 00 00 00 00 01 00 00 00 00 00 00 00 00 00 00 00 00 00 00 80 ff ff ff ff ff ff ff ff";

/// The header of which `THREE` has the bytes.
fn three(alloc: Global) -> Result<Header, Memory>
    ensures { IfOk result CanBeHeader }
{
    let first = StripeInfo {
        page: 1,
        pages: 5,
        rows: 256,
        earliest: 1,
        latest: 300,
    };
    let second = StripeInfo {
        page: 6,
        pages: 258,
        rows: 256,
        earliest: 300,
        latest: 300,
    };
    let third = StripeInfo {
        page: 264,
        pages: 1,
        rows: 1,
        earliest: 1 << 63,
        latest: u64::MAX,
    };
    let stripes = Vec::from_array(alloc, [first, second, third])?;
    Ok(Header {
        form: 2,
        pages: 1,
        index_pages: 2,
        bloom_pages: 1,
        stripes: Stripes::of(stripes),
    })
}

/// The offset at which bytes are no header, or that they are one.
fn told(alloc: Global, bytes: &[u8]) -> Result<u64, Memory> {
    match read_header(alloc, bytes) {
        Ok(_) => Ok(SOUND),
        Err(FormatError::NotBlock { at }) => Ok(at),
        Err(FormatError::Memory) => Err(Memory),
    }
}

/// Whether the bytes are those of this header.
fn are_of(alloc: Global, bytes: &[u8], header: &Header) -> bool {
    match read_header(alloc, bytes) {
        Ok(read) => is_same(&read, header),
        Err(_) => false,
    }
}

fn is_same(read: &Header, header: &Header) -> bool {
    let parts = read.index_pages == header.index_pages && read.bloom_pages == header.bloom_pages;
    let front = read.form == header.form && read.pages == header.pages;
    front && parts && read.stripes.as_slice() == header.stripes.as_slice()
}

#[test]
fn written_and_read(rt: HostRuntime) {
    let alloc = rt.alloc();
    let bytes = page(alloc, THREE).expect(&rt, "memory");
    let header = three(alloc).expect(&rt, "memory");
    let written = write_header(alloc, &header).expect(&rt, "memory");
    assert!(&rt; written.as_slice() == bytes.as_slice());
    assert!(&rt; are_of(alloc, bytes.as_slice(), &header));
}

/// Compares the offset that is reported of bytes.
fn check(rt: &(impl Abort + AllocGlobal), bytes: &[u8], offset: u64) {
    let got = told(rt.alloc(), bytes).expect(rt, "memory");
    assert!(rt; got == offset, "{got} and {offset}");
}

#[test]
fn cut_or_longer(rt: HostRuntime) {
    let mut bytes = page(rt.alloc(), ONE).expect(&rt, "memory");
    check(&rt, bytes.as_slice(), SOUND);
    for len in 0..4096u64 {
        let cut = bytes.as_slice().get(..len as usize).expect(&rt, "a page");
        check(&rt, cut, len);
    }
    bytes.push(0).expect(&rt, "memory");
    check(&rt, bytes.as_slice(), 4096);
}

/// A place of the header, the bytes that stand there, and the offset.
static CHANGES: [(usize, &str, u64); 17] = [
    // Other letters, and a form that there isn't.
    (0, "55", 0),
    (3, "33", 0),
    // Too many pages, too few for 128 stripes or 4,096 of them, and no stripe.
    (4, "02", 4),
    (8, "80", 4),
    (8, "00 10", 4),
    (8, "00", 8),
    // 33 pages for 4,097 stripes.
    (4, "21 00 00 00 01 10", 8),
    // The stripe ends at page 2^51, and after it.
    (20, "ff ff ff ff ff ff 07", SOUND),
    (20, "00 00 00 00 00 00 08", 20),
    // Of two stripes the first one has not 256 rows; no row, 256 of them, and more than a stripe has.
    (8, "02", 28),
    (28, "00", 28),
    (28, "00 01", SOUND),
    (28, "01 01", 28),
    // Nothing is asked of the moments and of the other parts.
    (12, "00 00 00 00 ff ff ff ff", SOUND),
    (36, "02", SOUND),
    // The fill.
    (52, "01", 52),
    (4095, "01", 4095),
];

#[test]
fn malformed_in_one_place(rt: HostRuntime) {
    for (place, new, offset) in &CHANGES {
        let bytes = overwritten(rt.alloc(), ONE, *place, new).expect(&rt, "memory");
        check(&rt, bytes.as_slice(), *offset);
    }
}
