//! Numbers and texts as bytes, worked out by hand.

use byte_fields::{FieldError, Reader, Writer};
use span_types::Memory;
use std::alloc::Global;

/// A field that is written, or read.
#[derive(Clone, Copy)]
enum Field {
    Byte(u8),
    Fixed32(u32),
    Fixed64(u64),
    Var(u64),
    Zigzag(i64),
    Text(&'static str),
    Raw(&'static [u8]),
}

fn write(writer: &mut Writer, field: Field) -> Result<(), Memory> {
    match field {
        Field::Byte(number) => writer.byte(number),
        Field::Fixed32(number) => writer.fixed32(number),
        Field::Fixed64(number) => writer.fixed64(number),
        Field::Var(number) => writer.var(number),
        Field::Zigzag(number) => writer.zigzag(number),
        Field::Text(text) => writer.text(text),
        Field::Raw(bytes) => writer.raw(bytes),
    }
}

// Whether these bytes are written for the fields.
fn is_written(alloc: Global, fields: &[Field], bytes: &[u8]) -> bool {
    let mut writer = Writer::new(alloc);
    let mut written = true;
    for field in fields {
        written &= write(&mut writer, *field).is_ok();
    }
    written && writer.finish().as_slice() == bytes
}

// Reads a field of this kind, and says whether it is this one.
fn read(reader: &mut Reader<'_>, field: Field) -> Result<bool, FieldError> {
    match field {
        Field::Byte(number) => Ok(reader.byte()? == number),
        Field::Fixed32(number) => Ok(reader.fixed32()? == number),
        Field::Fixed64(number) => Ok(reader.fixed64()? == number),
        Field::Var(number) => Ok(reader.var()? == number),
        Field::Zigzag(number) => Ok(reader.zigzag()? == number),
        Field::Text(text) => Ok(reader.text()?.as_str() == text),
        Field::Raw(bytes) => Ok(reader.raw(bytes.len() as u64)? == bytes),
    }
}

/// Numbers and their groups of seven bits.
static NUMBERS: [(Field, &[u8]); 14] = [
    (Field::Var(0), &[0x00]),
    (Field::Var(127), &[0x7f]),
    (Field::Var(128), &[0x80, 0x01]),
    (Field::Var(300), &[0xac, 0x02]),
    (Field::Var(16_383), &[0xff, 0x7f]),
    (Field::Var(16_384), &[0x80, 0x80, 0x01]),
    (
        Field::Var(1 << 63),
        &[0x80, 0x80, 0x80, 0x80, 0x80, 0x80, 0x80, 0x80, 0x80, 0x01],
    ),
    (
        Field::Var(u64::MAX),
        &[0xff, 0xff, 0xff, 0xff, 0xff, 0xff, 0xff, 0xff, 0xff, 0x01],
    ),
    (Field::Zigzag(0), &[0x00]),
    (Field::Zigzag(-1), &[0x01]),
    (Field::Zigzag(1), &[0x02]),
    (Field::Zigzag(-64), &[0x7f]),
    (
        Field::Zigzag(i64::MAX),
        &[0xfe, 0xff, 0xff, 0xff, 0xff, 0xff, 0xff, 0xff, 0xff, 0x01],
    ),
    (
        Field::Zigzag(i64::MIN),
        &[0xff, 0xff, 0xff, 0xff, 0xff, 0xff, 0xff, 0xff, 0xff, 0x01],
    ),
];

/// Fields one after another, and their bytes.
static FIELDS: [Field; 5] = [
    Field::Byte(1),
    Field::Fixed32(0x0403_0201),
    Field::Fixed64(9),
    Field::Text("né"),
    Field::Raw(&[7, 8]),
];

static BYTES: [u8; 19] = [
    1, 1, 2, 3, 4, 9, 0, 0, 0, 0, 0, 0, 0, 3, 0x6e, 0xc3, 0xa9, 7, 8,
];

/// What is read of bytes, one after another: whether it is this field, or why it isn't read, and where the reader then stands.
type Reads = (Field, Result<bool, FieldError>, u64);

static READS: [Reads; 7] = [
    (Field::Byte(1), Ok(true), 1),
    (Field::Fixed32(0x0403_0201), Ok(true), 5),
    (Field::Fixed64(9), Ok(true), 13),
    (Field::Text("né"), Ok(true), 17),
    (
        Field::Raw(&[7, 8, 9]),
        Err(FieldError::Short { at: 19 }),
        17,
    ),
    (Field::Raw(&[7, 8]), Ok(true), 19),
    (Field::Byte(0), Err(FieldError::Short { at: 19 }), 19),
];

/// Bytes that are no such field, and what is said of them.
static NO_FIELDS: [(Field, &[u8], FieldError); 9] = [
    (Field::Var(0), &[], FieldError::Short { at: 0 }),
    (Field::Var(0), &[0x80], FieldError::Short { at: 1 }),
    (
        Field::Var(0),
        &[0x80, 0x00],
        FieldError::NotShortest { at: 0 },
    ),
    (
        Field::Var(0),
        &[0xff, 0x80, 0x00, 0x07],
        FieldError::NotShortest { at: 0 },
    ),
    (
        Field::Var(0),
        &[0x80, 0x80, 0x80, 0x80, 0x80, 0x80, 0x80, 0x80, 0x80, 0x02],
        FieldError::NotShortest { at: 0 },
    ),
    (
        Field::Var(0),
        &[0x80, 0x80, 0x80, 0x80, 0x80, 0x80, 0x80, 0x80, 0x80, 0x80],
        FieldError::NotShortest { at: 0 },
    ),
    (
        Field::Text(""),
        &[0x01, 0xff],
        FieldError::NotText { at: 0 },
    ),
    (Field::Text(""), &[0x05, 0xff], FieldError::Short { at: 2 }),
    (
        Field::Text(""),
        &[0x81, 0x00],
        FieldError::NotShortest { at: 0 },
    ),
];

// Whether a field is read so of bytes, after which the reader stands there.
fn is_read(reader: &mut Reader<'_>, reads: &Reads) -> bool {
    let (field, wanted, at) = reads;
    read(reader, *field) == *wanted && reader.at() == *at
}

#[test]
fn fields_both_ways(rt: HostRuntime) {
    for (field, bytes) in &NUMBERS {
        let mut reader = Reader::new(rt.alloc(), bytes);
        let reads = (*field, Ok(true), bytes.len() as u64);
        assert!(rt; is_written(rt.alloc(), &[*field], bytes) && is_read(&mut reader, &reads));
    }
    assert!(rt; is_written(rt.alloc(), &FIELDS, &BYTES));
    let mut reader = Reader::new(rt.alloc(), &BYTES);
    for reads in &READS {
        assert!(rt; is_read(&mut reader, reads));
    }
    for (field, bytes, error) in &NO_FIELDS {
        let mut reader = Reader::new(rt.alloc(), bytes);
        assert!(rt; is_read(&mut reader, &(*field, Err(*error), 0)));
    }
}
