//! Sessions one after another on one disk.

use crate::lines::PUSH_X;
use crate::runs::{FINE, Played, calls, play};
use disk_model::{MemDisk, write_through};
use span_types::{Failed, Memory};
use std::alloc::Global;
use std::mem;
use std::sync::Wait;
use std::thread::Threads;

/// A session over the input on the disk, which is left as the run hands it back. What is given has an empty disk in
/// its place.
pub fn session_on<R: Threads + Wait + Sync>(
    rt: &R,
    alloc: Global,
    disk: &mut MemDisk,
    input: &str,
) -> Result<Played, Memory> {
    let taken = mem::replace(disk, MemDisk::empty(alloc));
    let mut played = play(rt, alloc, taken, &["session"], input, FINE, &[])?;
    mem::swap(disk, &mut played.disk);
    Ok(played)
}

/// Whether a session over the input writes just that text on the disk, and ends with that status.
pub fn writes<R: Threads + Wait + Sync>(
    rt: &R,
    alloc: Global,
    disk: &mut MemDisk,
    input: &str,
    wanted: (&str, u8),
) -> Result<bool, Memory> {
    Ok(session_on(rt, alloc, disk, input)?.is(wanted.0, wanted.1))
}

/// How many calls of the disk the opening of a new store makes: as many end a run with status 4.
pub fn calls_to_open<R: Threads + Wait + Sync>(rt: &R, alloc: Global) -> Result<u64, Memory> {
    for call in 1..100u64 {
        let mut disk = MemDisk::empty(alloc);
        disk.fail_at(calls(alloc, &[call])?);
        if session_on(rt, alloc, &mut disk, PUSH_X)?.status != 4 {
            return Ok(call - 1);
        }
    }
    Ok(0)
}

// The slot 0 of a new store: the next file is 3 (byte 6), the floor 0 (byte 10), and the segment in file 2 (byte 30)
// begins with the number 0 (byte 34).
const NEW_STORE: [u8; 42] = [
    1, 0x54, 0x53, 0x4c, 0x31, 0, 3, 0, 0, 0, 0, 0, 0, 0, 0, 0, 0, 0, 1, 0, 0, 0, 0, 0, 0, 0, 0, 0,
    0, 0, 2, 0, 0, 0, 0, 0, 0, 0, 0, 0, 0, 0,
];

// A segment without records.
const NO_RECORD: [u8; 2] = [1, 0];

/// A disk with a new store's list, but for its next file, and its floor and first number.
pub fn disk_of(alloc: Global, next_file: u32, number: u64) -> Result<MemDisk, Failed> {
    let mut slot = NEW_STORE;
    slot[6..10].copy_from_slice(&next_file.to_le_bytes());
    slot[10..18].copy_from_slice(&number.to_le_bytes());
    slot[34..42].copy_from_slice(&number.to_le_bytes());
    let mut disk = MemDisk::empty(alloc);
    write_through(&mut disk, 0, 0, &slot)?;
    write_through(&mut disk, 2, 0, &NO_RECORD)?;
    Ok(disk)
}
