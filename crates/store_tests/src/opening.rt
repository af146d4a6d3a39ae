//! Stores that are opened on bytes which were worked out by hand: lists whose numbers are spent, closed gates, and loose
//! files.

use crate::store::{Answer, Step, counted, first_answer, played, pushes_in};
use block_list::load;
use disk_model::{Device, MemDisk, write_through};
use span_types::Failed;
use std::alloc::Global;
use std::test::Fail;
use store_files::OpenError;
use store_state::PushError;

// The slot 0 of a new store: the next file is 3 (byte 6), the floor 0 (byte 10), and the segment in file 2 begins with
// the number 0 (byte 34).
const NEW_STORE: [u8; 42] = [
    1, 0x54, 0x53, 0x4c, 0x31, 0, 3, 0, 0, 0, 0, 0, 0, 0, 0, 0, 0, 0, 1, 0, 0, 0, 0, 0, 0, 0, 0, 0,
    0, 0, 2, 0, 0, 0, 0, 0, 0, 0, 0, 0, 0, 0,
];

// A segment without records.
const NO_RECORD: [u8; 2] = [1, 0];

// A disk with this slot 0, and this segment.
fn disk_of(alloc: Global, slot: &[u8], segment: &[u8]) -> Result<MemDisk, Failed> {
    let mut disk = MemDisk::empty(alloc);
    write_through(&mut disk, 0, 0, slot)?;
    write_through(&mut disk, 2, 0, segment)?;
    Ok(disk)
}

// The slot of a new store with another next file, floor and first number of its segment.
fn numbered(next_file: u32, floor: u64, first: u64) -> [u8; 42] {
    let mut slot = NEW_STORE;
    slot[6..10].copy_from_slice(&next_file.to_le_bytes());
    slot[10..18].copy_from_slice(&floor.to_le_bytes());
    slot[34..42].copy_from_slice(&first.to_le_bytes());
    slot
}

// The next file, the floor, the first number of the segment, and what a push is answered.
type List = (u32, u64, u64, Result<Answer, OpenError>);

static LISTS: [List; 9] = [
    (3, 0, 0, Ok(Ok(0))),
    (4_294_967_294, 0, 0, Ok(Ok(0))),
    (4_294_967_295, 0, 0, Ok(Ok(0))),
    (2, 0, 0, Err(OpenError::NotStore { file: 0, at: 30 })),
    (3, 4_294_967_294, 4_294_967_294, Ok(Ok(4_294_967_294))),
    (
        3,
        4_294_967_295,
        4_294_967_295,
        Ok(Err(PushError::StoreFull {
            pushes: 4_294_967_295,
        })),
    ),
    (
        3,
        4_294_967_296,
        4_294_967_296,
        Err(OpenError::NotStore { file: 0, at: 34 }),
    ),
    (3, 1, 0, Err(OpenError::NotStore { file: 0, at: 34 })),
    (3, 0, 1, Err(OpenError::NotStore { file: 0, at: 34 })),
];

// Whether a push is answered so by the store of this slot and segment.
fn is_answered(
    alloc: Global,
    slot: &[u8],
    segment: &[u8],
    wanted: Result<Answer, OpenError>,
) -> bool {
    match disk_of(alloc, slot, segment) {
        Ok(disk) => first_answer(alloc, disk).0 == wanted,
        Err(_) => false,
    }
}

#[test]
fn lists_whose_numbers_are_spent(rt: HostRuntime) {
    for (next_file, floor, first, wanted) in &LISTS {
        let slot = numbered(*next_file, *floor, *first);
        let same = is_answered(rt.alloc(), &slot, &NO_RECORD, *wanted);
        assert!(&rt; same, "{next_file} {floor} {first}");
    }
}

// The answer of a store that has given all numbers.
const FULL: Answer = Err(PushError::StoreFull {
    pushes: 4_294_967_295,
});

// What a store is asked that has one number left, and what it is asked after it was opened again.
static LAST: [Step; 2] = [Step::Empty(Ok(4_294_967_294)), Step::Empty(FULL)];

static AFTER: [Step; 1] = [Step::Empty(FULL)];

#[test]
fn the_last_number_is_given_once(rt: HostRuntime) -> Result<(), Fail> {
    let slot = numbered(3, 4_294_967_294, 4_294_967_294);
    let disk = disk_of(rt.alloc(), &slot, &NO_RECORD)?;
    let (given, disk) = played(rt.alloc(), disk, &LAST);
    let (refused, _) = played(rt.alloc(), disk, &AFTER);
    assert!(rt; given && refused);
    Ok(())
}

// A segment with two records without spans, whose gates are these: the last one stands after them.
fn gated(gates: [u8; 3]) -> [u8; 38] {
    [
        1, gates[0], 9, 0, 0, 0, 0, 0, 0, 0, 0, 0, 0, 0, 0, 0, 0, 0, 0, gates[1], 9, 0, 0, 0, 0, 0,
        0, 0, 1, 0, 0, 0, 0, 0, 0, 0, 0, gates[2],
    ]
}

// The gates, and what a push is answered.
static GATES: [([u8; 3], Result<Answer, OpenError>); 8] = [
    ([1, 1, 0], Ok(Ok(2))),
    ([1, 1, 2], Ok(Ok(2))),
    ([1, 0, 0], Ok(Ok(1))),
    ([1, 255, 1], Ok(Ok(1))),
    ([0, 1, 0], Ok(Ok(0))),
    ([2, 1, 1], Ok(Ok(0))),
    ([1, 1, 1], Err(OpenError::NotStore { file: 2, at: 38 })),
    ([3, 0, 1], Ok(Ok(0))),
];

#[test]
fn records_count_up_to_the_first_closed_gate(rt: HostRuntime) {
    for (row, (gates, wanted)) in GATES.iter().enumerate() {
        let same = is_answered(rt.alloc(), &NEW_STORE, &gated(*gates), *wanted);
        assert!(&rt; same, "row {row}");
    }
}

// A slot 0 that names file 3 as loose, and the slot 1 that is written without it.
const WITH_LOOSE: [u8; 46] = [
    1, 0x54, 0x53, 0x4c, 0x31, 0, 4, 0, 0, 0, 0, 0, 0, 0, 0, 0, 0, 0, 1, 0, 0, 0, 0, 0, 0, 0, 1, 0,
    0, 0, 2, 0, 0, 0, 0, 0, 0, 0, 0, 0, 0, 0, 3, 0, 0, 0,
];

const WITHOUT_LOOSE: [u8; 42] = [
    1, 0x54, 0x53, 0x4c, 0x31, 1, 4, 0, 0, 0, 0, 0, 0, 0, 0, 0, 0, 0, 1, 0, 0, 0, 0, 0, 0, 0, 0, 0,
    0, 0, 2, 0, 0, 0, 0, 0, 0, 0, 0, 0, 0, 0,
];

// A disk with one record, whose list names a file of three bytes as loose.
fn loose_file(alloc: Global) -> Result<MemDisk, Failed> {
    let mut disk = disk_of(alloc, &WITH_LOOSE, &gated([1, 0, 0]))?;
    write_through(&mut disk, 3, 0, &[7, 8, 9])?;
    Ok(disk)
}

// Whether file 3 is empty, and the slot 1 is the one that is written without it.
fn has_no_loose(disk: &mut MemDisk) -> Result<bool, Failed> {
    let mut slot = [9u8; 64];
    let count = disk.read(1, 0, &mut slot)?;
    let len = disk.len(3)?;
    Ok(len == 0 && slot.get(..count) == Some(WITHOUT_LOOSE.as_slice()))
}

#[test]
fn loose_files_are_emptied(rt: HostRuntime) -> Result<(), Fail> {
    let disk = loose_file(rt.alloc())?;
    let (found, disk) = counted(rt.alloc(), disk);
    let mut disk = disk;
    let is_emptied = has_no_loose(&mut disk)?;
    assert!(rt; found == Some(1) && is_emptied);
    Ok(())
}

// The disk of an opening that is stopped after so many calls.
fn stopped_opening(alloc: Global, disk: MemDisk, calls: u64) -> MemDisk {
    let mut disk = disk;
    disk.stop_after(calls);
    counted(alloc, disk).1
}

// Whether file 3 is empty in an image, or is named as loose there.
fn is_tidy(alloc: Global, disk: &MemDisk, pick: u64) -> Result<bool, Fail> {
    let mut image = disk.image(pick)?;
    let len = image.len(3)?;
    Ok(match load(alloc, &mut image)? {
        Some(list) => len == 0 || list.loose.as_slice() == [3].as_slice(),
        None => false,
    })
}

// Whether in this image the one record is found, and the loose file is none.
fn is_kept(alloc: Global, disk: &MemDisk, pick: u64) -> Result<bool, Fail> {
    let tidy = is_tidy(alloc, disk, pick)?;
    Ok(tidy && pushes_in(alloc, disk, pick)? == Some(1))
}

// Whether that is so in eight images after so many calls of an opening.
fn are_kept(alloc: Global, calls: u64) -> Result<bool, Fail> {
    let disk = stopped_opening(alloc, loose_file(alloc)?, calls);
    let mut same = disk.starved() == 0;
    for pick in 0..8 {
        same &= is_kept(alloc, &disk, pick)?;
    }
    Ok(same)
}

#[test]
fn an_opening_that_is_stopped_keeps_what_is_stored(rt: HostRuntime) -> Result<(), Fail> {
    for calls in 0..34 {
        let are_kept = are_kept(rt.alloc(), calls)?;
        assert!(rt; are_kept, "{calls} calls");
    }
    Ok(())
}
