//! A disk in a folder over a system that fails: what it reads afterwards is there after a power cut too.

use crate::calls::{Call, has, passes};
use crate::machine::Machine;
use disk_model::Device;
use folder_disk::FolderDisk;
use span_types::Failed;
use std::alloc::AllocError;
use std::test::Fail;

/// What is done with a machine and the disk of the program that runs on it, or found.
#[derive(Clone, Copy)]
enum Step {
    Passes(Call),
    Fails(Call),
    /// Bytes are written and synced.
    Put(u32, &'static [u8]),
    /// All bytes of a file.
    Read(u32, &'static [u8]),
    /// How many calls of the disk have failed.
    Faults(u64),
    /// So many of the machine's next syncs or writes fail.
    SyncsFail(usize),
    WritesFail(usize),
    /// So many files may be open.
    MostOpen(usize),
    /// So many writes were made since the program began.
    Writes(usize),
    /// Each of the files 0 to 5, read ten times in turn, has its number, and that makes so many writes.
    ReadsSix(usize),
    /// A program ends, and another one begins.
    NewProgram,
    /// The same, and between them the machine is started anew.
    PowerCut,
}

static CASES: [(&str, &[Step]); 6] = [
    (
        "what a program reads lasts after a sync that failed before it",
        &[
            Step::Put(0, &[1, 2, 3]),
            Step::SyncsFail(1),
            Step::Passes(Call::Write(0, 0, &[7, 7, 7, 7])),
            Step::Fails(Call::Sync(0)),
            Step::NewProgram,
            Step::Passes(Call::Sync(0)),
            Step::Read(0, &[7, 7, 7, 7]),
            Step::PowerCut,
            Step::Read(0, &[7, 7, 7, 7]),
        ],
    ),
    (
        "what a disk reads lasts after its own failed sync",
        &[
            Step::Put(0, &[1, 2, 3]),
            Step::SyncsFail(1),
            Step::Passes(Call::Write(0, 0, &[7, 7, 7, 7])),
            Step::Fails(Call::Sync(0)),
            Step::Passes(Call::Sync(0)),
            Step::Read(0, &[7, 7, 7, 7]),
            Step::PowerCut,
            Step::Read(0, &[7, 7, 7, 7]),
        ],
    ),
    (
        "a failed write is settled",
        &[
            Step::Put(0, &[1, 2, 3]),
            Step::WritesFail(1),
            Step::Fails(Call::Write(0, 1, &[8])),
            // The call that settles the file fails in its turn, and the next one settles it.
            Step::SyncsFail(1),
            Step::Fails(Call::Len(0)),
            Step::Faults(2),
            Step::Read(0, &[1, 8, 3]),
            Step::PowerCut,
            Step::Read(0, &[1, 8, 3]),
        ],
    ),
    (
        "a file in doubt is written again once",
        &[
            Step::Put(0, &[0]),
            Step::Put(1, &[1]),
            Step::Put(2, &[2]),
            Step::Put(3, &[3]),
            Step::Put(4, &[4]),
            Step::Put(5, &[5]),
            Step::MostOpen(4),
            Step::NewProgram,
            Step::ReadsSix(0),
            Step::NewProgram,
            Step::Passes(Call::Write(3, 0, &[3])),
            Step::SyncsFail(1),
            Step::Fails(Call::Sync(3)),
            Step::NewProgram,
            Step::ReadsSix(1),
            Step::NewProgram,
            Step::ReadsSix(0),
        ],
    ),
    (
        "a file that was not settled is settled by a later program",
        &[
            Step::Put(0, &[1]),
            Step::Put(1, &[2]),
            Step::NewProgram,
            Step::SyncsFail(1),
            Step::Passes(Call::Write(0, 0, &[1])),
            Step::Fails(Call::Sync(0)),
            // After that failure the other file is written again too, which fails.
            Step::WritesFail(1),
            Step::Fails(Call::Len(1)),
            Step::NewProgram,
            Step::Read(0, &[1]),
            Step::Read(1, &[2]),
            Step::Writes(2),
        ],
    ),
    (
        "files without changes are closed where no descriptor is left",
        &[
            // The lock and three files.
            Step::MostOpen(4),
            Step::Put(0, &[0, 5]),
            Step::Put(1, &[1, 5]),
            Step::Put(2, &[2, 5]),
            Step::Put(3, &[3, 5]),
            Step::Put(4, &[4, 5]),
            Step::Put(5, &[5, 5]),
            Step::Put(6, &[6, 5]),
            Step::Put(7, &[7, 5]),
            Step::Read(0, &[0, 5]),
            Step::Read(1, &[1, 5]),
            Step::Read(2, &[2, 5]),
            Step::Read(3, &[3, 5]),
            Step::Read(4, &[4, 5]),
            Step::Read(5, &[5, 5]),
            Step::Read(6, &[6, 5]),
            Step::Read(7, &[7, 5]),
            // Files with changes stay open, so a fourth one can't be opened.
            Step::Passes(Call::Write(0, 0, &[9])),
            Step::Passes(Call::Write(1, 0, &[9])),
            Step::Passes(Call::Write(2, 0, &[9])),
            Step::Fails(Call::Len(3)),
            Step::Passes(Call::Sync(1)),
            Step::Read(3, &[3, 5]),
        ],
    ),
];

/// A disk as a program has it that is started now.
fn disk_on<'a>(
    rt: HostRuntime,
    machine: &'a Machine,
) -> Result<FolderDisk<&'a Machine>, AllocError> {
    let path = String::from_str(rt.alloc(), "store")?;
    Ok(FolderDisk::new(machine, rt.alloc(), path))
}

fn put<D: Device>(disk: &mut D, file: u32, bytes: &[u8]) -> Result<(), Failed> {
    disk.write(file, 0, bytes)?;
    disk.sync(file)
}

fn reads_six<D: Device>(disk: &mut D) -> Result<bool, Failed> {
    let mut same = true;
    for turn in 0..60u8 {
        let file = turn % 6;
        same &= has(disk, u32::from(file), &[file])?;
    }
    Ok(same)
}

/// Whether the step goes as it says.
fn goes<D: Device>(machine: &Machine, disk: &mut D, step: Step) -> bool {
    match step {
        Step::Passes(call) => return passes(disk, call),
        Step::Fails(call) => return !passes(disk, call),
        Step::Put(file, bytes) => return put(disk, file, bytes).is_ok(),
        Step::Read(file, bytes) => return has(disk, file, bytes) == Ok(true),
        Step::Faults(count) => return disk.faults() == count,
        Step::Writes(count) => return machine.writes.get() == count,
        Step::ReadsSix(writes) => {
            return reads_six(disk) == Ok(true) && machine.writes.get() == writes;
        }
        Step::SyncsFail(count) => machine.failing_syncs.set(count),
        Step::WritesFail(count) => machine.failing_writes.set(count),
        Step::MostOpen(count) => machine.most_open.set(count),
        Step::PowerCut => machine.restart(),
        Step::NewProgram => machine.writes.set(0),
    }
    true
}

/// The place of the first step that doesn't go as it says.
fn stray(rt: HostRuntime, machine: &Machine, steps: &[Step]) -> Result<Option<usize>, AllocError> {
    let mut disk = disk_on(rt, machine)?;
    for (place, step) in steps.iter().enumerate() {
        if matches!(step, Step::NewProgram | Step::PowerCut) {
            disk = disk_on(rt, machine)?;
        }
        if !goes(machine, &mut disk, *step) {
            return Ok(Some(place));
        }
    }
    Ok(None)
}

#[test]
fn what_is_read_lasts(rt: HostRuntime) -> Result<(), Fail> {
    for (name, steps) in &CASES {
        let place = stray(rt, &Machine::new(), steps)?;
        assert!(rt; place.is_none(), "{name}: {place:?}");
    }
    Ok(())
}
