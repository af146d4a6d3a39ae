//! Stripes that are malformed in one place or in two, with the offset that the page of the format gives.

use crate::given::{bytes_of, overwritten, put};
use crate::stripes::{STRIPE, told};
use std::process::Abort;

/// A place of the stripe, the bytes that stand there, and the offset.
static ONE: [(usize, &str, u64); 34] = [
    // The last field passes the content's end; the content goes on after it, or has no end.
    (0, "c9", 209),
    (0, "cb", 210),
    (7, "01", 210),
    // A text too many: the first scope's version skips a text. One too few: so does a resource's key.
    (8, "0d", 39),
    (8, "0b", 33),
    // A resource too many: it has no kind of value. An attribute too many: its key stands again.
    (33, "03", 41),
    (34, "02", 38),
    // No rows, and more than a stripe has.
    (49, "00", 0),
    (49, "81 02", 0),
    // A length in two bytes where one does, a text that isn't UTF-8, and one that stands again.
    (9, "80 00", 9),
    (10, "ff", 9),
    (12, "73", 11),
    // A truth, a parent, a position, a kind and a status that there aren't, and a kind of value.
    (45, "02", 45),
    (99, "02", 99),
    (111, "80 80 80 80 10", 111),
    (115, "06", 115),
    (149, "03", 149),
    (159, "03", 159),
    // References that skip a text and a resource, and a key that stands again.
    (113, "08", 113),
    (153, "01", 153),
    (165, "01", 165),
    // The second resource, the second scope and the last text, to which nothing refers.
    (154, "00", 38),
    (156, "00", 46),
    (207, "0a", 31),
    // The first of them is reported; an order of rows after all others.
    (154, "00 00 00", 38),
    (115, "06 06", 115),
    // Rows that don't ascend: by the trace, by the id, which is the same, and by the start.
    (65, "a2", 0),
    (97, "b1", 0),
    (117, "02", 0),
    // An id of zeros: of a trace, a span, a parent, and the trace and the span of a link.
    (65, "00", 50),
    (89, "00", 82),
    (107, "00", 100),
    (197, "00", 182),
    (205, "00", 198),
];

/// Compares the offset that is reported of the stripe with these bytes there.
fn check(rt: &(impl Abort + AllocGlobal), bytes: &[u8], offset: u64, place: usize) {
    let got = told(rt.alloc(), bytes, 2).expect(rt, "memory");
    assert!(rt; got == offset, "{got} at {place}");
}

#[test]
fn in_one_place(rt: HostRuntime) {
    for (place, new, offset) in &ONE {
        let bytes = overwritten(rt.alloc(), STRIPE, *place, new).expect(&rt, "memory");
        check(&rt, bytes.as_slice(), *offset, *place);
    }
}

/// The same of two places.
static TWO: [(usize, &str, usize, &str, u64); 4] = [
    // A text that nothing refers to comes before such a resource, and such a resource before a kind of value that
    // there isn't.
    (154, "00", 207, "0a", 31),
    (154, "00", 208, "03", 38),
    // But where that kind isn't there, nothing is known of the text.
    (207, "0a", 208, "03", 208),
    // Rows that don't ascend are reported last.
    (117, "02", 208, "03", 208),
];

#[test]
fn in_two_places(rt: HostRuntime) {
    for (place, new, other, also, offset) in &TWO {
        let mut bytes = overwritten(rt.alloc(), STRIPE, *place, new).expect(&rt, "memory");
        let second = bytes_of(rt.alloc(), also).expect(&rt, "memory");
        put(bytes.as_mut_slice(), *other, second.as_slice());
        check(&rt, bytes.as_slice(), *offset, *place);
    }
}
