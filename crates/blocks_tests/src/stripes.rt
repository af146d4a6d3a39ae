//! Stripes by their bytes: two rows with every kind of part, in both forms, worked out by hand.

use crate::given::{SOUND, bytes_of, offsets, page};
use block_stripes::{FormatError, can_be_stripe, read_stripe, write_stripe};
use span_types::{Attr, AttrValue, Memory, Row, Rows, Span, SpanId, SpanKind, StatusCode, TraceId};
use std::alloc::Global;
use std::process::Abort;
use stripe_skims::skim;

/// Two rows in form 2, up to the fill.
pub(crate) const STRIPE: &str = "
    length: ca 00 00 00 00 00 00 00
    texts: 0c
    01 73 01 6b 01 6c 01 31 01 74 00 01 61 02 c3 a9 01 6d 01 6e 01 65 01 78
    resources: 02
    01 00 00 01 00
    scopes: 02
    02 03 01 04 02 01 05 05 00
    rows: 02
    traces: 00 00 00 00 00 00 00 00 00 00 00 00 00 00 00 a1 00 00 00 00 00 00 00 00 00 00 00 00 00 00 00 a1
    spans: 00 00 00 00 00 00 00 b1 00 00 00 00 00 00 00 b2
    parents: 00 01 00 00 00 00 00 00 00 b1
    pushes: ac 02 00
    positions: 00 07
    names: 06 07
    kinds: 02 00
    starts: 01 00 00 00 00 00 00 00 01 00 00 00 00 00 00 00
    ends: 02 00 00 00 00 00 00 00 05 00 00 00 00 00 00 00
    statuses: 01 02
    messages: 05 08
    owners: 00 01 00 01
    attributes: 01 09 01 01 02 01 00 06 00 01 06
    events: 00 01 09 00 00 00 00 00 00 00 0a 00
    links: 00 01 00 00 00 00 00 00 00 00 00 00 00 00 00 00 00 a2 00 00 00 00 00 00 00 b3 01 0b 01 0a";

/// The same rows without events and links in form 1, up to the fill.
const PLAIN: &str = "
    length: 9c 00 00 00 00 00 00 00
    texts: 0a
    01 73 01 6b 01 6c 01 31 01 74 00 01 61 02 c3 a9 01 6d 01 6e
    resources: 02
    01 00 00 01 00
    scopes: 02
    02 03 01 04 02 01 05 05 00
    rows: 02
    traces: 00 00 00 00 00 00 00 00 00 00 00 00 00 00 00 a1 00 00 00 00 00 00 00 00 00 00 00 00 00 00 00 a1
    spans: 00 00 00 00 00 00 00 b1 00 00 00 00 00 00 00 b2
    parents: 00 01 00 00 00 00 00 00 00 b1
    pushes: ac 02 00
    positions: 00 07
    names: 06 07
    kinds: 02 00
    starts: 01 00 00 00 00 00 00 00 01 00 00 00 00 00 00 00
    ends: 02 00 00 00 00 00 00 00 05 00 00 00 00 00 00 00
    statuses: 01 02
    messages: 05 08
    owners: 00 01 00 01
    attributes: 01 09 01 01 02 01 00 06 00 01 06";

/// What is reported of `STRIPE` where the lowest bit of one byte is another one, byte by byte. These tables are from a
/// decoder in another language, written from the page of the format.
const LOWEST: &str = "
    210 210 210 210 210 210 210 210
    39
    10 . 12 . 14 25 16 . 18 . 21 20 . 26 . . 25 25 27 . 29 . 31 .
    41
    35 35 40 40 41
    0
    40 43 47 43 44 . . . 0
    38
    0 0 0 0 0 0 0 0 0 0 0 0 0 0 0 . . . . . . . . . . . . . . . . 0
    0 0 0 0 0 0 0 . . . . . . . . .
    107 107 . . . . . . . .
    . . .
    . .
    113 152
    . .
    . 0 0 0 0 0 0 0 0 . . . . . . .
    . . . . . . . . . . . . . . . .
    . 150
    . 152
    153 38 155 46
    162 178 . . 168 165 . . 165 . .
    182 187 . . . . . . . . 178 31
    210 31 . . . . . . . . . . . . . . . . . . . . . . . . 31 31 . .";

/// The same of the highest bit.
const HIGHEST: &str = "
    82 210 210 210 210 210 210 210
    10
    9 9 11 11 13 13 15 15 17 17 19 20 20 22 22 22 25 25 27 27 29 29 31 31
    36
    34 35 36 37 41
    41
    40 41 47 43 44 45 46 47 53
    49
    0 0 0 0 0 0 0 0 0 0 0 0 0 0 0 . . . . . . . . . . . . . . . . 0
    0 0 0 0 0 0 0 . . . . . . . . 0
    98 99 . . . . . . . .
    112 108 110
    114 114
    113 114
    115 116
    0 0 0 0 0 0 0 0 . . . . . . . .
    . . . . . . . . . . . . . . . .
    149 150
    151 152
    153 154 155 156
    162 158 159 164 164 162 163 164 165 166 167
    210 210 . . . . . . . . 178 179
    210 181 . . . . . . . . . . . . . . . . . . . . . . . . 209 207 208 209";

/// What is reported of `PLAIN` where the lowest bit of one byte is another one, byte by byte.
const PLAIN_LOWEST: &str = "
    164 164 164 164 164 164 164 164
    35
    10 . 12 . 14 25 16 . 18 . 21 20 . 26 . . 25 25 27 .
    37
    31 31 36 36 37
    0
    36 39 43 39 40 . . . 0
    157
    0 0 0 0 0 0 0 0 0 0 0 0 0 0 0 . . . . . . . . . . . . . . . . 0
    0 0 0 0 0 0 0 . . . . . . . . .
    103 103 . . . . . . . .
    . . .
    . .
    109 148
    . .
    . 0 0 0 0 0 0 0 0 . . . . . . .
    . . . . . . . . . . . . . . . .
    . 146
    . 148
    149 34 151 42
    158 27 . . 164 161 . . 161 . .";

/// Where the stripe stands in its file.
const BASE: u64 = 4096;

const TRACE: TraceId = TraceId([0, 0, 0, 0, 0, 0, 0, 0, 0, 0, 0, 0, 0, 0, 0, 0xa1]);

const FIRST: SpanId = SpanId([0, 0, 0, 0, 0, 0, 0, 0xb1]);

const SECOND: SpanId = SpanId([0, 0, 0, 0, 0, 0, 0, 0xb2]);

/// The rows that are read of these bytes, if they are few and a stripe.
fn rows_of(alloc: Global, bytes: &[u8], form: u8) -> Result<Result<Rows, u64>, Memory> {
    if bytes.len() > 8192 {
        return Ok(Err(0));
    }
    match read_stripe(alloc, bytes, BASE, form) {
        Ok(rows) => Ok(Ok(rows)),
        Err(FormatError::NotBlock { at }) => Ok(Err(at.saturating_sub(BASE))),
        Err(FormatError::Memory) => Err(Memory),
    }
}

/// Whether these bytes are written for the rows.
fn are_written(alloc: Global, rows: &Rows, form: u8, bytes: &[u8]) -> Result<bool, Memory> {
    if !can_be_stripe(rows, form) {
        return Ok(false);
    }
    let written = write_stripe(alloc, rows, form)?;
    Ok(written.as_slice() == bytes)
}

/// Whether a skim is sure of these bytes, which have these rows.
fn is_skimmed(alloc: Global, rows: &Rows, form: u8, bytes: &[u8]) -> bool {
    match skim(alloc, bytes, form == 2) {
        Some(sketch) => sketch.starts.as_slice().len() == rows.len(),
        None => false,
    }
}

/// The offset at which the bytes are malformed, or that they are sound: their rows have these bytes again, and are
/// skimmed.
pub(crate) fn told(alloc: Global, bytes: &[u8], form: u8) -> Result<u64, Memory> {
    match rows_of(alloc, bytes, form)? {
        Ok(rows) => {
            if are_written(alloc, &rows, form, bytes)? && is_skimmed(alloc, &rows, form, bytes) {
                Ok(SOUND)
            } else {
                Ok(0)
            }
        }
        Err(at) => Ok(at),
    }
}

/// Turns this bit of the byte at that place, if there is one.
fn flip(bytes: &mut [u8], place: usize, bit: u8) {
    if let Some(byte) = bytes.get_mut(place) {
        *byte ^= bit;
    }
}

/// What is reported where one bit of one byte of the fields is another one, byte by byte.
fn changes(alloc: Global, words: &str, form: u8, bit: u8) -> Result<Vec<u64>, Memory> {
    let count = bytes_of(alloc, words)?.len();
    let mut bytes = page(alloc, words)?;
    let mut found = Vec::new(alloc);
    for place in 0..count {
        flip(bytes.as_mut_slice(), place, bit);
        found.push(told(alloc, bytes.as_slice(), form)?)?;
        flip(bytes.as_mut_slice(), place, bit);
    }
    Ok(found)
}

/// The fields of a stripe, its form, a bit, and what is reported where that bit is another one.
static TURNED: [(&str, u8, u8, &str); 3] = [
    (STRIPE, 2, 1, LOWEST),
    (STRIPE, 2, 128, HIGHEST),
    (PLAIN, 1, 1, PLAIN_LOWEST),
];

#[test]
fn one_byte_is_another_one(rt: HostRuntime) {
    for (words, form, bit, table) in &TURNED {
        let found = changes(rt.alloc(), words, *form, *bit).expect(&rt, "memory");
        let wanted = offsets(rt.alloc(), table).expect(&rt, "memory");
        assert!(&rt;
            found.as_slice() == wanted.as_slice(),
            "form {form}, bit {bit}"
        );
    }
}

/// Compares the offset that is reported of bytes.
fn check(rt: &(impl Abort + AllocGlobal), bytes: &[u8], form: u8, offset: u64) {
    let got = told(rt.alloc(), bytes, form).expect(rt, "memory");
    assert!(rt; got == offset, "{got} and {offset}");
}

/// Asserts that each cut of a stripe is reported where the bytes end.
fn check_cuts(rt: &(impl Abort + AllocGlobal), bytes: &[u8], form: u8) {
    for len in 0..4096u64 {
        let cut = bytes.get(..len as usize).expect(rt, "a page");
        check(rt, cut, form, len);
    }
}

/// Asserts that each other byte of the fill is reported, which begins there.
fn check_fill(rt: &(impl Abort + AllocGlobal), bytes: &mut [u8], form: u8, fill: u64) {
    for place in fill..4096 {
        flip(bytes, place as usize, 1);
        check(rt, bytes, form, place);
        flip(bytes, place as usize, 1);
    }
}

/// The fields of a stripe, its form, and how many bytes they have.
static WHOLE: [(&str, u8, u64); 2] = [(STRIPE, 2, 210), (PLAIN, 1, 164)];

#[test]
fn cut_or_with_another_fill(rt: HostRuntime) {
    for (words, form, count) in &WHOLE {
        let mut bytes = page(rt.alloc(), words).expect(&rt, "memory");
        check(&rt, bytes.as_slice(), *form, SOUND);
        check_cuts(&rt, bytes.as_slice(), *form);
        check_fill(&rt, bytes.as_mut_slice(), *form, *count);
        bytes.push(0).expect(&rt, "memory");
        check(&rt, bytes.as_slice(), *form, 4096);
    }
}

/// In form 1 nothing refers to the text of the event, and in form 2 the count of events is missing.
static OTHER_FORM: [(&str, u8, u64); 2] = [(STRIPE, 1, 29), (PLAIN, 2, 164)];

#[test]
fn read_in_the_other_form(rt: HostRuntime) {
    for (words, form, offset) in &OTHER_FORM {
        let bytes = page(rt.alloc(), words).expect(&rt, "memory");
        check(&rt, bytes.as_slice(), *form, *offset);
    }
}

fn is_whole(attr: &Attr, key: &str, number: i64) -> bool {
    match attr.value {
        AttrValue::Whole(value) => attr.key.as_str() == key && value == number,
        _ => false,
    }
}

fn is_word(attr: &Attr, key: &str, word: &str) -> bool {
    match &attr.value {
        AttrValue::Text(text) => attr.key.as_str() == key && text.as_str() == word,
        _ => false,
    }
}

fn is_true(attr: &Attr, key: &str) -> bool {
    match attr.value {
        AttrValue::Truth(truth) => attr.key.as_str() == key && truth,
        _ => false,
    }
}

fn is_at(row: &Row, number: u64, position: u32, end: u64) -> bool {
    let place = row.place.number == number && row.place.position == position;
    place && row.span.start == 1 && row.span.end == end
}

fn is_named(span: &Span, id: SpanId, name: &str, message: &str) -> bool {
    let ids = span.trace == TRACE && span.id == id;
    ids && span.name.as_str() == name && span.message.as_str() == message
}

fn has_first_owners(span: &Span) -> bool {
    let scope = span.scope.get();
    let named = scope.name.as_str() == "l" && scope.version.as_str() == "1";
    match (span.resource.get().attrs.as_slice(), scope.attrs.as_slice()) {
        ([of], [by]) => named && is_word(of, "s", "k") && is_true(by, "t"),
        _ => false,
    }
}

fn has_second_owners(span: &Span) -> bool {
    let scope = span.scope.get();
    let named = scope.name.as_str() == "" && scope.version.as_str() == "";
    named && span.resource.get().attrs.len() == 0 && scope.attrs.len() == 0
}

fn is_first(row: &Row) -> bool {
    let span = &row.span;
    let known = span.kind == SpanKind::Server && span.status == StatusCode::Fine;
    match span.attrs.as_slice() {
        [n] => known && span.parent.is_none() && is_whole(n, "n", -1),
        _ => false,
    }
}

fn is_second(row: &Row) -> bool {
    let span = &row.span;
    let known = span.kind == SpanKind::Unspecified && span.status == StatusCode::Error;
    match (span.parent, span.attrs.as_slice()) {
        (Some(parent), [k, s]) => {
            known && parent == FIRST && is_word(k, "k", "a") && is_whole(s, "s", 3)
        }
        _ => false,
    }
}

fn has_event(span: &Span) -> bool {
    match span.events.as_slice() {
        [event] => event.time == 9 && event.name.as_str() == "e" && event.attrs.len() == 0,
        _ => false,
    }
}

fn has_link(span: &Span) -> bool {
    match span.links.as_slice() {
        [link] => match link.attrs.as_slice() {
            [x] => link.trace.0[15] == 0xa2 && link.span.0[7] == 0xb3 && is_whole(x, "x", 5),
            _ => false,
        },
        _ => false,
    }
}

/// Whether these are the two rows, in form 2 with an event and a link of the second one.
fn are_the_rows(rows: &[Row], form: u8) -> bool {
    let [first, second] = rows else {
        return false;
    };
    let places = is_at(first, 300, 0, 2) && is_at(second, 0, 7, 5);
    let names = is_named(&first.span, FIRST, "a", "") && is_named(&second.span, SECOND, "é", "m");
    let owners = has_first_owners(&first.span) && has_second_owners(&second.span);
    let none = first.span.events.len() == 0 && first.span.links.len() == 0;
    let some = has_event(&second.span) && has_link(&second.span);
    places && names && owners && none && is_first(first) && is_second(second) && some == (form == 2)
}

/// The fields of the rows' stripe in both forms.
static BOTH: [(&str, u8); 2] = [(STRIPE, 2), (PLAIN, 1)];

#[test]
fn rows_with_every_kind_of_part(rt: HostRuntime) {
    for (words, form) in &BOTH {
        let bytes = page(rt.alloc(), words).expect(&rt, "memory");
        let read = rows_of(rt.alloc(), bytes.as_slice(), *form).expect(&rt, "memory");
        let rows = read.expect(&rt, "a stripe");
        assert!(&rt; are_the_rows(rows.as_slice(), *form), "form {form}");
    }
}
