//! What a crash may leave after some calls, worked out by hand from the disk model.

use disk_model::{ByteLists, Device, MemDisk, OddDisk, cut_through, write_through};
use span_types::{Bytes, Calls, Failed, Memory};
use std::alloc::Global;
use std::test::Fail;

/// A call of a disk.
#[derive(Clone, Copy)]
enum Call<'a> {
    Read(u32),
    Write(u32, u64, &'a [u8]),
    Cut(u32, u64),
    Sync(u32),
    /// The same, and then a sync of the file.
    WriteThrough(u32, u64, &'a [u8]),
    CutThrough(u32, u64),
}

/// What is done with a disk, or found.
#[derive(Clone, Copy)]
enum Step<'a> {
    Passes(Call<'a>),
    Fails(Call<'a>),
    /// From now on these calls fail, counted from 1.
    FailAt(&'a [u64]),
    /// All calls after so many fail.
    StopsAfter(u64),
    /// The bytes of a file, at most 16.
    Holds(u32, &'a [u8]),
    /// The bytes of a file in the images 0 to 3.
    Images(u32, &'a [&'a [u8]; 4]),
    /// How many calls, reads, faults, and writes that ended too far were counted.
    Counts([u64; 4]),
    /// Of file 0 more than three of the images 4 to 15 differ from one another and from those before them.
    Mixtures,
}

/// Where a write ends too far.
const FAR: u64 = (1 << 63) - 1;

/// Disks that are empty at first.
static DISKS: [(&str, &[Step<'static>]); 10] = [
    (
        "two writes that overlap",
        &[
            Step::Passes(Call::WriteThrough(0, 0, &[5, 6, 7, 8])),
            Step::Passes(Call::Write(0, 1, &[9, 9])),
            Step::Passes(Call::Write(0, 2, &[10, 10, 10])),
            Step::Images(
                0,
                &[
                    &[5, 6, 7, 8],
                    &[5, 9, 10, 10, 10],
                    &[5, 1, 1, 1, 1],
                    &[5, 0, 0, 0],
                ],
            ),
        ],
    ),
    (
        "a cut below an earlier write, and a write after the cut",
        &[
            Step::Passes(Call::WriteThrough(0, 0, &[5, 6, 7, 8, 9])),
            Step::Passes(Call::Write(0, 3, &[10])),
            Step::Passes(Call::Cut(0, 2)),
            Step::Passes(Call::Write(0, 2, &[11])),
            Step::Images(
                0,
                &[&[5, 6, 7, 8, 9], &[5, 6, 11], &[5, 6, 1, 1, 1], &[5, 6]],
            ),
        ],
    ),
    (
        "a cut above an earlier write",
        &[
            Step::Passes(Call::WriteThrough(0, 0, &[5, 6, 7, 8, 9])),
            Step::Passes(Call::Write(0, 1, &[10])),
            Step::Passes(Call::Cut(0, 3)),
            Step::Images(
                0,
                &[&[5, 6, 7, 8, 9], &[5, 10, 7], &[5, 1, 7, 1, 1], &[5, 0, 7]],
            ),
        ],
    ),
    (
        "a write past the end, whose gap becomes zeros, and an empty one, which changes nothing",
        &[
            Step::Passes(Call::WriteThrough(0, 0, &[5, 6])),
            Step::Passes(Call::Write(0, 4, &[7, 8])),
            Step::Passes(Call::Write(0, 9, &[])),
            Step::Images(
                0,
                &[&[5, 6], &[5, 6, 0, 0, 7, 8], &[5, 6, 1, 1, 1, 1], &[5, 6]],
            ),
        ],
    ),
    (
        "a cut of a file that isn't longer: its length counts",
        &[
            Step::Passes(Call::WriteThrough(0, 0, &[5, 6])),
            Step::Passes(Call::Cut(0, 4)),
            Step::Images(0, &[&[5, 6], &[5, 6], &[5, 6, 1, 1], &[5, 6]]),
        ],
    ),
    (
        "after a sync there is one image",
        &[
            Step::Passes(Call::WriteThrough(0, 0, &[5, 6])),
            Step::Passes(Call::Cut(0, 4)),
            Step::Passes(Call::Write(0, 0, &[3])),
            Step::Passes(Call::Sync(0)),
            Step::Images(0, &[&[3, 6], &[3, 6], &[3, 6], &[3, 6]]),
        ],
    ),
    (
        "failed calls leave their change pending",
        &[
            Step::Passes(Call::WriteThrough(0, 0, &[5, 6, 7])),
            Step::FailAt(&[1, 2, 3, 4]),
            Step::Fails(Call::Write(0, 1, &[9])),
            Step::Fails(Call::Cut(0, 2)),
            Step::Fails(Call::Sync(0)),
            Step::Fails(Call::Write(0, 5, &[9])),
            Step::Counts([6, 0, 4, 0]),
            Step::Images(0, &[&[5, 6, 7], &[5, 6, 7], &[5, 1, 1], &[5, 0]]),
            // The next sync passes, and then they are no longer pending.
            Step::Passes(Call::Sync(0)),
            Step::Images(0, &[&[5, 6, 7], &[5, 6, 7], &[5, 6, 7], &[5, 6, 7]]),
            // A write that ends too far leaves nothing pending.
            Step::Fails(Call::Write(0, FAR, &[1])),
            Step::Passes(Call::Write(0, FAR, &[])),
            Step::Counts([9, 0, 5, 1]),
            Step::Images(0, &[&[5, 6, 7], &[5, 6, 7], &[5, 6, 7], &[5, 6, 7]]),
            // And neither does a call that is stopped.
            Step::StopsAfter(1),
            Step::Passes(Call::Write(0, 2, &[8])),
            Step::Fails(Call::Cut(0, 0)),
            Step::Fails(Call::Sync(0)),
            Step::Counts([12, 0, 7, 1]),
            Step::Images(0, &[&[5, 6, 7], &[5, 6, 8], &[5, 6, 1], &[5, 6, 0]]),
        ],
    ),
    (
        "files are apart",
        &[
            Step::Passes(Call::WriteThrough(0, 0, &[5])),
            Step::Passes(Call::Write(3, 0, &[6, 7])),
            Step::Passes(Call::Write(0, 0, &[8])),
            Step::Passes(Call::Sync(3)),
            Step::Images(0, &[&[5], &[8], &[1], &[0]]),
            Step::Images(3, &[&[6, 7], &[6, 7], &[6, 7], &[6, 7]]),
            Step::Images(4, &[&[], &[], &[], &[]]),
            Step::Passes(Call::CutThrough(3, 1)),
            Step::Images(3, &[&[6], &[6], &[6], &[6]]),
        ],
    ),
    (
        "each call is counted",
        &[
            Step::Passes(Call::WriteThrough(0, 0, &[5, 6, 7])),
            Step::Counts([2, 0, 0, 0]),
            Step::Holds(0, &[5, 6, 7]),
            Step::Counts([4, 1, 0, 0]),
            // A read that fails is one.
            Step::FailAt(&[1]),
            Step::Fails(Call::Read(0)),
            Step::Counts([5, 2, 1, 0]),
            // A write that ends too far is one whether it is stopped or not.
            Step::Fails(Call::Write(0, FAR, &[1])),
            Step::Fails(Call::Write(1, u64::MAX, &[1, 2])),
            Step::Counts([7, 2, 3, 2]),
            Step::StopsAfter(0),
            Step::Fails(Call::Write(0, FAR, &[1])),
            Step::Fails(Call::Write(0, 0, &[1])),
            Step::Counts([9, 2, 5, 3]),
        ],
    ),
    (
        "each other pick is a mixture of its own",
        &[
            Step::Passes(Call::WriteThrough(0, 0, &[5, 6, 7, 8, 9, 10, 11, 12])),
            Step::Passes(Call::Write(0, 2, &[20, 21, 22, 23])),
            Step::Passes(Call::Cut(0, 4)),
            Step::Mixtures,
        ],
    ),
];

/// Whether the call passes.
fn passes(disk: &mut MemDisk, call: Call<'_>) -> bool {
    match call {
        Call::Read(file) => disk.read(file, 0, &mut [0; 4]).is_ok(),
        Call::Write(file, at, bytes) => disk.write(file, at, bytes).is_ok(),
        Call::Cut(file, len) => disk.cut(file, len).is_ok(),
        Call::Sync(file) => disk.sync(file).is_ok(),
        Call::WriteThrough(file, at, bytes) => write_through(disk, file, at, bytes).is_ok(),
        Call::CutThrough(file, len) => cut_through(disk, file, len).is_ok(),
    }
}

/// False out of memory.
fn fail_at(alloc: Global, disk: &mut MemDisk, calls: &[u64]) -> bool {
    match calls.to_vec(alloc) {
        Ok(calls) => {
            disk.fail_at(Calls::of(calls));
            true
        }
        Err(_) => false,
    }
}

/// Whether a file has just these bytes, at most 16.
fn holds(disk: &mut MemDisk, file: u32, bytes: &[u8]) -> Result<bool, Failed> {
    let mut buf = [0u8; 16];
    let len = disk.len(file)?;
    let count = disk.read(file, 0, &mut buf)?;
    Ok(len == bytes.len() as u64 && buf.get(..count) == Some(bytes))
}

fn image_holds(disk: &MemDisk, pick: u64, file: u32, bytes: &[u8]) -> bool {
    match disk.image(pick) {
        Ok(image) => {
            let mut image = image;
            holds(&mut image, file, bytes) == Ok(true)
        }
        Err(_) => false,
    }
}

fn images_hold(disk: &MemDisk, file: u32, images: &[&[u8]; 4]) -> bool {
    let mut same = true;
    for (pick, bytes) in (0u64..).zip(images) {
        same &= image_holds(disk, pick, file, bytes);
    }
    same
}

fn counts(disk: &MemDisk) -> [u64; 4] {
    [disk.calls(), disk.reads(), disk.faults(), disk.far_writes()]
}

/// The length of file 0, and its first 16 bytes.
type File = (u64, [u8; 16]);

fn file_of(disk: &mut MemDisk) -> Result<File, Failed> {
    let mut bytes = [0u8; 16];
    let len = disk.len(0)?;
    disk.read(0, 0, &mut bytes)?;
    Ok((len, bytes))
}

fn file_of_image(disk: &MemDisk, pick: u64) -> Option<File> {
    match disk.image(pick) {
        Ok(image) => {
            let mut image = image;
            file_of(&mut image).ok()
        }
        Err(_) => None,
    }
}

/// Those of the images 0 to 15.
fn files_of_images(disk: &MemDisk) -> [Option<File>; 16] {
    let mut files = [None; 16];
    for (pick, file) in (0u64..).zip(files.iter_mut()) {
        *file = file_of_image(disk, pick);
    }
    files
}

/// Whether a pick gives the same image each time, and more than three of those from 4 on are new.
fn are_mixtures(disk: &MemDisk) -> bool {
    let files = files_of_images(disk);
    let mut others = 0u8;
    for pick in 4..16 {
        others = others.saturating_add(u8::from(!files[..pick].contains(&files[pick])));
    }
    others > 3 && !files.contains(&None) && files == files_of_images(disk)
}

/// Whether the step goes as it says.
fn goes(alloc: Global, disk: &mut MemDisk, step: Step<'_>) -> bool {
    match step {
        Step::Passes(call) => passes(disk, call),
        Step::Fails(call) => !passes(disk, call),
        Step::FailAt(calls) => fail_at(alloc, disk, calls),
        Step::StopsAfter(calls) => {
            disk.stop_after(calls);
            true
        }
        Step::Holds(file, bytes) => holds(disk, file, bytes) == Ok(true),
        Step::Images(file, images) => images_hold(disk, file, images),
        Step::Counts(found) => counts(disk) == found,
        Step::Mixtures => are_mixtures(disk),
    }
}

/// How many steps go as they say before one that doesn't. 0 out of memory.
fn gone(alloc: Global, steps: &[Step<'_>]) -> usize {
    let mut disk = MemDisk::empty(alloc);
    let mut count = 0usize;
    for step in steps {
        if !goes(alloc, &mut disk, *step) {
            break;
        }
        count = count.saturating_add(1);
    }
    if disk.starved() == 0 { count } else { 0 }
}

#[test]
fn what_a_disk_in_memory_holds_and_may_leave(rt: HostRuntime) {
    for (name, steps) in &DISKS {
        assert!(rt; gone(rt.alloc(), steps) == steps.len(), "{name}");
    }
}

/// What an odd disk gives to a read of this many bytes, of at most 4.
fn given(disk: &mut OddDisk, count: usize) -> Result<[u8; 4], Failed> {
    let mut bytes = [9u8; 4];
    let read = disk.read(0, 0, bytes.get_mut(..count).ok_or(Failed)?)?;
    if read == count {
        Ok(bytes)
    } else {
        Err(Failed)
    }
}

const CHUNKS: [&[u8]; 3] = [&[1, 2, 3], &[4], &[5]];

/// How many bytes are read in turn of a disk that is made with those chunks, and what is in the buffer then.
const GIVEN: [(usize, [u8; 4]); 4] = [
    (2, [1, 2, 9, 9]),
    (3, [4, 0, 0, 9]),
    (0, [9, 9, 9, 9]),
    (4, [0, 0, 0, 0]),
];

fn chunks(alloc: Global) -> Result<ByteLists, Memory> {
    let mut chunks = Vec::new(alloc);
    for bytes in &CHUNKS {
        chunks.push(Bytes::of(bytes.to_vec(alloc)?))?;
    }
    Ok(ByteLists::of(chunks))
}

fn gives_chunks(disk: &mut OddDisk) -> bool {
    let mut same = true;
    for (count, bytes) in &GIVEN {
        same &= given(disk, *count) == Ok(*bytes);
    }
    same
}

fn lengths(disk: &mut OddDisk) -> Result<(u64, u64), Failed> {
    Ok((disk.len(0)?, disk.len(7)?))
}

/// Whether every call but a write that ends too far succeeds.
fn accepts(disk: &mut OddDisk) -> bool {
    let near = write_through(disk, 0, 0, &[1, 2]).is_ok() && cut_through(disk, 0, 0).is_ok();
    let faults = disk.faults();
    let far = disk.write(0, FAR, &[1]).is_ok();
    near && faults == 0 && !far && disk.faults() == 1
}

#[test]
fn an_odd_disk_gives_what_it_was_made_with(rt: HostRuntime) -> Result<(), Fail> {
    let mut disk = OddDisk::new(16_384, chunks(rt.alloc())?);
    assert!(rt; lengths(&mut disk)? == (16_384, 16_384));
    assert!(rt; gives_chunks(&mut disk));
    // It changes nothing.
    assert!(rt; accepts(&mut disk) && lengths(&mut disk)? == (16_384, 16_384));
    Ok(())
}
