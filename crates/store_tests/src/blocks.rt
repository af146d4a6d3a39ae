//! Stores that are opened on a listed block. Where its file is malformed goes by docs/BLOCK-FORMAT.md.

use crate::live::both;
use crate::store::{Answer, first_answer};
use block_build::build;
use disk_model::{MemDisk, write_through};
use span_types::{Bytes, Failed, Memory, Place, Row, Rows};
use std::alloc::Global;
use store_files::OpenError;

// A slot 0 whose list names a segment in file 2, from the number 1 on, and a block in file 3, of level 0 (byte 46)
// with so many rows (byte 47). The floor is 1 (byte 10), and the next file is 4 (byte 6).
fn slot_of(rows: u8) -> [u8; 51] {
    [
        1, 0x54, 0x53, 0x4c, 0x31, 0, 4, 0, 0, 0, 1, 0, 0, 0, 0, 0, 0, 0, 1, 0, 0, 0, 1, 0, 0, 0,
        0, 0, 0, 0, 2, 0, 0, 0, 1, 0, 0, 0, 0, 0, 0, 0, 3, 0, 0, 0, 0, rows, 0, 0, 0,
    ]
}

// A segment without records.
const NO_RECORD: [u8; 2] = [1, 0];

// The rows that the list says, the bytes of the segment, how many bytes of the block's file are left, and what the store then answers:
// a push's number, or why it isn't opened.
type Opened = (u8, &'static [u8], usize, Result<Answer, OpenError>);

static OPENED: [Opened; 6] = [
    (2, &NO_RECORD, 16_384, Ok(Ok(1))),
    // The list says another number of rows, or the file has nothing, or its last byte is missing.
    (
        3,
        &NO_RECORD,
        16_384,
        Err(OpenError::NotStore { file: 3, at: 0 }),
    ),
    (
        2,
        &NO_RECORD,
        0,
        Err(OpenError::NotStore { file: 3, at: 0 }),
    ),
    (
        2,
        &NO_RECORD,
        16_383,
        Err(OpenError::NotStore {
            file: 3,
            at: 16_383,
        }),
    ),
    // A segment without a gate breaks at its end, after the block.
    (2, &[], 16_384, Err(OpenError::NotStore { file: 2, at: 0 })),
    (3, &[], 16_384, Err(OpenError::NotStore { file: 3, at: 0 })),
];

// A disk whose list names a block of so many rows, with these bytes in the segment and in the block.
fn disk_of(alloc: Global, rows: u8, segment: &[u8], block: &[u8]) -> Result<MemDisk, Failed> {
    let mut disk = MemDisk::empty(alloc);
    write_through(&mut disk, 0, 0, &slot_of(rows))?;
    write_through(&mut disk, 2, 0, segment)?;
    write_through(&mut disk, 3, 0, block)?;
    Ok(disk)
}

fn is_answered(alloc: Global, row: &Opened, block: &[u8]) -> bool {
    let (rows, segment, count, wanted) = row;
    match disk_of(alloc, *rows, segment, block.get(..*count).unwrap_or(&[])) {
        Ok(disk) => first_answer(alloc, disk).0 == *wanted,
        Err(_) => false,
    }
}

fn add_row(rows: &mut Vec<Row>, position: u32, span: span_types::Span) -> Result<(), Memory> {
    let place = Place {
        number: 0,
        position,
    };
    rows.push(Row { place, span })?;
    Ok(())
}

// The bytes of a block of the two rows of a push.
fn two_rows(alloc: Global) -> Result<Bytes, Memory> {
    let mut rows = Vec::new(alloc);
    let mut position = 0;
    for span in both(alloc)?.spans.into_vec() {
        add_row(&mut rows, position, span)?;
        position = 1;
    }
    if rows.is_empty() || rows.len() > 1_048_576 {
        return Err(Memory);
    }
    Ok(build(alloc, Rows::of(rows))?.bytes)
}

#[test]
fn a_listed_block_is_checked(rt: HostRuntime) {
    let block = two_rows(rt.alloc()).expect(&rt, "memory");
    for (row, opened) in OPENED.iter().enumerate() {
        let same = is_answered(rt.alloc(), opened, block.as_slice());
        assert!(&rt; same, "row {row}");
    }
}
