//! The slots of a new store, slots that break each rule once, and what a writing leaves that fails at each call.
ghost use Rattle.std.specs.Prelude.{◌≡◌, IfOk};
ghost use Rattle.block_list.specs.Body.{MeetsRules};

use block_list::{
    BlockList, BlockRef, FileList, ListBody, ListError, SegmentList, SegmentRef, commit, load,
    next_generation, prepare,
};
use disk_model::{ByteLists, Device, MemDisk, OddDisk, cut_through, write_through};
use span_types::{Bytes, Calls, Failed, Memory};
use std::alloc::{AllocError, Global};
use std::test::Fail;

/// The slot 0 of a new store.
const NEW_STORE: [u8; 42] = [
    1, 0x54, 0x53, 0x4c, 0x31, 0, 3, 0, 0, 0, 0, 0, 0, 0, 0, 0, 0, 0, 1, 0, 0, 0, 0, 0, 0, 0, 0, 0,
    0, 0, 2, 0, 0, 0, 0, 0, 0, 0, 0, 0, 0, 0,
];

/// A slot 1 with the segments 4 (from 2 on) and 5 (from 9 on), block 3 of level 1 with 7 rows, and the loose file 2;
/// the next file is 6, the floor 9.
const SECOND: [u8; 67] = [
    1, 0x54, 0x53, 0x4c, 0x31, 1, 6, 0, 0, 0, 9, 0, 0, 0, 0, 0, 0, 0, 2, 0, 0, 0, 1, 0, 0, 0, 1, 0,
    0, 0, 4, 0, 0, 0, 2, 0, 0, 0, 0, 0, 0, 0, 5, 0, 0, 0, 9, 0, 0, 0, 0, 0, 0, 0, 3, 0, 0, 0, 1, 7,
    0, 0, 0, 2, 0, 0, 0,
];

/// The fields of a list.
struct Fields {
    generation: u8,
    next_file: u32,
    floor: u64,
    segments: &'static [SegmentRef],
    blocks: &'static [BlockRef],
    loose: &'static [u32],
}

/// Those of `NEW_STORE`.
const NEW_FIELDS: Fields = Fields {
    generation: 0,
    next_file: 3,
    floor: 0,
    segments: &[SegmentRef { file: 2, first: 0 }],
    blocks: &[],
    loose: &[],
};

/// Those of `SECOND`.
const SECOND_FIELDS: Fields = Fields {
    generation: 1,
    next_file: 6,
    floor: 9,
    segments: &[
        SegmentRef { file: 4, first: 2 },
        SegmentRef { file: 5, first: 9 },
    ],
    blocks: &[BlockRef {
        file: 3,
        level: 1,
        rows: 7,
    }],
    loose: &[2],
};

fn has(list: &ListBody, fields: &Fields) -> bool {
    (list.generation, list.next_file, list.floor)
        == (fields.generation, fields.next_file, fields.floor)
        && list.segments.as_slice() == fields.segments
        && list.blocks.as_slice() == fields.blocks
        && list.loose.as_slice() == fields.loose
}

/// How the bytes of a slot are changed.
#[derive(Clone, Copy)]
enum Change {
    Nothing,
    /// Only so many are left.
    Cut(u64),
    /// The byte at this place is another one.
    Byte(u64, u8),
}

/// What slots are loaded as.
#[derive(Clone, Copy)]
enum Told {
    NoList,
    List(&'static Fields),
    /// A list that has this next file.
    Next(u32),
    /// A slot is malformed at this byte.
    NotList(u32, u64),
}

type Slot = (&'static [u8], Change);

const EMPTY: Slot = (&[], Change::Nothing);

const NEW: Slot = (&NEW_STORE, Change::Nothing);

/// Both slots, and what they are loaded as.
type Slots = (Slot, Slot, Told);

static SLOTS: [Slots; 8] = [
    (EMPTY, EMPTY, Told::NoList),
    // A closed gate, and an open one on too few bytes.
    (
        (&[0; 40], Change::Nothing),
        (&SECOND, Change::Cut(29)),
        Told::NoList,
    ),
    (NEW, EMPTY, Told::List(&NEW_FIELDS)),
    // The second slot is the successor.
    (NEW, (&SECOND, Change::Nothing), Told::List(&SECOND_FIELDS)),
    // The first slot is the successor, also of the last generation.
    (
        (&NEW_STORE, Change::Byte(5, 2)),
        (&SECOND, Change::Nothing),
        Told::Next(3),
    ),
    (NEW, (&SECOND, Change::Byte(5, 255)), Told::Next(3)),
    // Bytes are missing, and the slots are no neighbours.
    ((&NEW_STORE, Change::Cut(41)), EMPTY, Told::NotList(0, 41)),
    ((&NEW_STORE, Change::Byte(5, 1)), EMPTY, Told::NotList(0, 5)),
];

/// A byte of the second slot, what it is changed to, and where the slot then breaks.
static RULES: [(u64, u8, u64); 20] = [
    (4, 0x32, 1),
    (5, 2, 5),
    (5, 3, 5),
    (6, 5, 42),
    (10, 1, 34),
    (10, 10, 46),
    (18, 0, 18),
    (18, 9, 58),
    (22, 2, 67),
    (26, 2, 67),
    (30, 1, 30),
    (30, 6, 30),
    (42, 4, 42),
    (38, 1, 34),
    (46, 1, 46),
    (54, 5, 54),
    (58, 64, 58),
    (59, 0, 59),
    (61, 0x11, 59),
    (63, 3, 63),
];

/// Writes a slot that is empty.
fn put(disk: &mut MemDisk, slot: u32, bytes: &[u8], change: Change) -> Result<(), Failed> {
    write_through(disk, slot, 0, bytes)?;
    match change {
        Change::Nothing => Ok(()),
        Change::Cut(len) => cut_through(disk, slot, len),
        Change::Byte(place, byte) => write_through(disk, slot, place, &[byte]),
    }
}

fn loaded(alloc: Global, first: Slot, second: Slot) -> Result<Option<ListBody>, ListError> {
    let mut disk = MemDisk::empty(alloc);
    put(&mut disk, 0, first.0, first.1)?;
    put(&mut disk, 1, second.0, second.1)?;
    load(alloc, &mut disk)
}

fn is_told(loaded: &Result<Option<ListBody>, ListError>, told: Told) -> bool {
    match loaded {
        Ok(None) => matches!(told, Told::NoList),
        Ok(Some(list)) => match told {
            Told::List(fields) => has(list, fields),
            Told::Next(file) => list.next_file == file,
            _ => false,
        },
        Err(error) => match told {
            Told::NotList(slot, at) => *error == ListError::NotList { slot, at },
            _ => false,
        },
    }
}

fn are_told(alloc: Global, slots: &Slots) -> bool {
    is_told(&loaded(alloc, slots.0, slots.1), slots.2)
}

fn breaks(alloc: Global, place: u64, byte: u8, at: u64) -> bool {
    let second = (SECOND.as_slice(), Change::Byte(place, byte));
    is_told(&loaded(alloc, NEW, second), Told::NotList(1, at))
}

#[test]
fn lists_are_read_and_each_rule_breaks_at_its_field(rt: HostRuntime) {
    for (row, slots) in SLOTS.iter().enumerate() {
        assert!(rt; are_told(rt.alloc(), slots), "row {row}");
    }
    for (place, byte, at) in &RULES {
        assert!(rt; breaks(rt.alloc(), *place, *byte, *at), "{place} {byte}");
    }
}

/// How long a slot is that no memory would hold.
const LONG: u64 = 1 << 50;

/// A disk of long files, whose first two reads give the list of a new store: the fixed fields, the list, and zeros for
/// the other slot.
fn with_long_slots(alloc: Global) -> Result<OddDisk, Memory> {
    let head = Bytes::of(NEW_STORE.to_vec(alloc)?);
    let list = Bytes::of(NEW_STORE.to_vec(alloc)?);
    let chunks = Vec::from_array(alloc, [head, list])?;
    Ok(OddDisk::new(LONG, ByteLists::of(chunks)))
}

#[test]
fn a_long_slot_is_read_as_far_as_its_list_goes(rt: HostRuntime) -> Result<(), Fail> {
    let mut disk = with_long_slots(rt.alloc())?;
    let list = load(rt.alloc(), &mut disk);
    assert!(rt; is_told(&list, Told::List(&NEW_FIELDS)));
    assert!(rt; disk.faults() == 0);
    Ok(())
}

/// The list of a new store.
fn new_store(alloc: Global) -> Result<ListBody, AllocError>
    ensures rules { IfOk result (λ body. MeetsRules body) }
    ensures generation { IfOk result (λ body. body.generation ≡ 0) }
{
    let mut segments = Vec::new(alloc);
    segments.push(SegmentRef { file: 2, first: 0 })?;
    Ok(ListBody {
        generation: 0,
        next_file: 3,
        floor: 0,
        segments: SegmentList::of(segments),
        blocks: BlockList::of(Vec::new(alloc)),
        loose: FileList::of(Vec::new(alloc)),
    })
}

/// The list after it: the segment's rows stand in block 3, a new segment begins in file 4, and file 2 is loose.
fn next_list(alloc: Global) -> Result<ListBody, AllocError>
    ensures rules { IfOk result (λ body. MeetsRules body) }
    ensures generation { IfOk result (λ body. body.generation ≡ 1) }
{
    let mut segments = Vec::new(alloc);
    segments.push(SegmentRef { file: 4, first: 9 })?;
    let mut blocks = Vec::new(alloc);
    blocks.push(BlockRef {
        file: 3,
        level: 0,
        rows: 7,
    })?;
    let mut loose = Vec::new(alloc);
    loose.push(2)?;
    Ok(ListBody {
        generation: 1,
        next_file: 5,
        floor: 9,
        segments: SegmentList::of(segments),
        blocks: BlockList::of(blocks),
        loose: FileList::of(loose),
    })
}

/// How a writing is disturbed.
#[derive(Clone, Copy)]
enum Trouble {
    Nothing,
    /// The call of that number fails, counted from 1.
    Fails(u64),
    /// So many calls pass, and the others change nothing.
    Stops(u64),
}

/// Disturbs the calls from now on. False out of memory.
fn disturb(alloc: Global, disk: &mut MemDisk, trouble: Trouble) -> bool {
    match trouble {
        Trouble::Nothing => true,
        Trouble::Stops(calls) => {
            disk.stop_after(calls);
            true
        }
        Trouble::Fails(call) => match Vec::from_array(alloc, [call]) {
            Ok(calls) => {
                disk.fail_at(Calls::of(calls));
                true
            }
            Err(_) => false,
        },
    }
}

/// Whether the list has the generation after that of the list that counts.
fn is_next(alloc: Global, disk: &mut MemDisk, body: &ListBody) -> bool {
    match load(alloc, disk) {
        Ok(found) => body.generation == next_generation(&found),
        Err(_) => false,
    }
}

/// Writes the next list, and says whether that succeeds. None where it isn't the next one, or out of memory.
fn write_list(alloc: Global, disk: &mut MemDisk, body: &ListBody, trouble: Trouble) -> Option<bool>
    requires { MeetsRules body.now }
{
    let list = prepare(alloc, body).ok()?;
    if is_next(alloc, disk, body) && disturb(alloc, disk, trouble) {
        Some(commit(disk, &list).is_ok())
    } else {
        None
    }
}

/// A disk with the list of a new store.
fn with_new_store(alloc: Global) -> Option<MemDisk> {
    let list = new_store(alloc).ok()?;
    let mut disk = MemDisk::empty(alloc);
    let written = write_list(alloc, &mut disk, &list, Trouble::Nothing);
    (written == Some(true)).then_some(disk)
}

fn write_next(alloc: Global, disk: &mut MemDisk, trouble: Trouble) -> Option<bool> {
    let list = next_list(alloc).ok()?;
    write_list(alloc, disk, &list, trouble)
}

/// The next file of the list that an image is loaded as, and 0 where there is none.
fn next_file_of(alloc: Global, disk: &MemDisk, pick: u64) -> u32 {
    match disk.image(pick) {
        Ok(image) => next_file(alloc, image),
        Err(_) => 0,
    }
}

fn next_file(alloc: Global, image: MemDisk) -> u32 {
    let mut image = image;
    match load(alloc, &mut image) {
        Ok(Some(list)) => list.next_file,
        _ => 0,
    }
}

fn next_files(alloc: Global, disk: &MemDisk) -> [u32; 16] {
    let mut files = [0; 16];
    for (pick, file) in (0u64..).zip(files.iter_mut()) {
        *file = next_file_of(alloc, disk, pick);
    }
    files
}

/// How the writing of the next list is disturbed; whether it succeeds; the next file of the list that each of the
/// first images is loaded as: what was synced, what is held, ones and zeros; and those of which each of 16 images has
/// one.
type Writing = (Trouble, bool, &'static [u32], &'static [u32]);

static WRITINGS: [Writing; 15] = [
    (Trouble::Fails(1), false, &[3, 3, 3, 3], &[3]),
    (Trouble::Fails(2), false, &[3, 3, 3, 3], &[3]),
    (Trouble::Fails(3), false, &[3, 3, 3, 3], &[3]),
    (Trouble::Fails(4), false, &[3, 3, 3, 3], &[3]),
    (Trouble::Fails(5), false, &[3, 3, 5, 3], &[3, 5]),
    (Trouble::Fails(6), false, &[3, 5, 5, 3], &[3, 5]),
    (Trouble::Fails(7), true, &[5, 5, 5, 5], &[5]),
    (Trouble::Stops(0), false, &[], &[3]),
    (Trouble::Stops(1), false, &[], &[3]),
    (Trouble::Stops(2), false, &[], &[3]),
    (Trouble::Stops(3), false, &[], &[3]),
    (Trouble::Stops(4), false, &[], &[3]),
    (Trouble::Stops(5), false, &[], &[3, 5]),
    (Trouble::Stops(6), true, &[], &[5]),
    (Trouble::Stops(7), true, &[], &[5]),
];

fn are_among(files: &[u32; 16], first: &[u32], all: &[u32]) -> bool {
    let mut same = files.starts_with(first);
    for file in files {
        same &= all.contains(file);
    }
    same
}

fn goes(alloc: Global, writing: &Writing) -> Option<bool> {
    let (trouble, succeeds, first, all) = writing;
    let mut disk = with_new_store(alloc)?;
    let written = write_next(alloc, &mut disk, *trouble);
    let files = next_files(alloc, &disk);
    Some(written == Some(*succeeds) && are_among(&files, first, all) && disk.starved() == 0)
}

#[test]
fn a_writing_that_fails_or_is_stopped_leaves_one_list(rt: HostRuntime) {
    for (row, writing) in WRITINGS.iter().enumerate() {
        assert!(rt; goes(rt.alloc(), writing) == Some(true), "row {row}");
    }
}

#[test]
fn a_new_store_has_42_bytes(rt: HostRuntime) -> Result<(), Fail> {
    let Some(disk) = with_new_store(rt.alloc()) else {
        return Err(Fail::from("no store"));
    };
    let mut disk = disk;
    let mut bytes = [9u8; 64];
    let count = disk.read(0, 0, &mut bytes)?;
    assert!(rt; bytes.get(..count) == Some(NEW_STORE.as_slice()));
    Ok(())
}
