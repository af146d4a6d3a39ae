//! A disk in a folder of the system: what it keeps, what it refuses, and how it makes what it makes.

use crate::calls::{Call, ends, has, is_refused, passes};
use disk_model::Device;
use folder_disk::FolderDisk;
use span_types::Failed;
use std::alloc::AllocError;
use std::fs::Metadata;
use std::os::unix::fs::{MetadataExt, symlink};
use std::test::Fail;
use std::{env, fs, io, process};

/// What is made at a path by the system.
#[derive(Clone, Copy)]
enum Thing {
    /// So many ones.
    File(usize),
    LinkTo(&'static str),
    Folder,
    /// A file is removed.
    Nothing,
}

/// What is at a path by the system.
#[derive(Clone, Copy)]
enum Found {
    Nothing,
    /// So many bytes.
    Len(u64),
    Folder,
    /// Who may read, write and use it.
    Mode(u32),
}

/// What is done with a disk or its folder, or found.
#[derive(Clone, Copy)]
enum Step {
    Passes(Call),
    Fails(Call),
    /// Each kind of call of a file fails.
    Refused(u32),
    /// All bytes of a file, by the disk's calls.
    Read(u32, &'static [u8]),
    /// Nothing is read of a file from an offset on.
    End(u32, u64),
    /// So many files are written, of which each second is synced, and each has what was written.
    Keeps(u32),
    /// How many calls have failed.
    Faults(u64),
    /// At a name in the folder.
    Make(&'static str, Thing),
    Found(&'static str, Found),
    /// The folder in which it lies.
    MakeAbove,
}

/// What is done with a disk; with another one of the same folder; with the first one again; and, once that is closed, with
/// the other one.
type Turns = [&'static [Step]; 4];

/// Each case in a folder of its own, which isn't there before.
static CASES: [(&str, Turns); 15] = [
    (
        "a file that is missing is empty",
        [
            &[
                Step::Found("", Found::Nothing),
                Step::Read(7, &[]),
                Step::Found("", Found::Folder),
                Step::Found("lock", Found::Len(256)),
                Step::Passes(Call::Cut(7, 3)),
                Step::Passes(Call::Write(7, 5, &[])),
                Step::Passes(Call::Sync(7)),
                Step::Read(7, &[]),
                Step::Found("7.dat", Found::Nothing),
            ],
            &[],
            &[],
            &[],
        ],
    ),
    (
        "what is written is read",
        [
            &[
                Step::Passes(Call::Write(3, 0, &[5, 6, 7, 8])),
                Step::Passes(Call::Write(3, 1, &[9])),
                Step::Read(3, &[5, 9, 7, 8]),
                Step::Passes(Call::Write(3, 6, &[4])),
                Step::Read(3, &[5, 9, 7, 8, 0, 0, 4]),
                Step::Found("3.dat", Found::Len(7)),
            ],
            &[],
            &[],
            &[],
        ],
    ),
    (
        "nothing is read past the end",
        [
            &[
                Step::Passes(Call::Write(3, 0, &[5, 6, 7])),
                Step::End(3, 3),
                Step::End(3, 4),
                Step::End(3, (1 << 63) - 1),
                Step::End(3, 1 << 63),
                Step::End(3, u64::MAX),
            ],
            &[],
            &[],
            &[],
        ],
    ),
    (
        "a cut makes no file longer",
        [
            &[
                Step::Passes(Call::Write(3, 0, &[5, 6, 7])),
                Step::Passes(Call::Cut(3, 2)),
                Step::Read(3, &[5, 6]),
                Step::Passes(Call::Cut(3, 100)),
                Step::Read(3, &[5, 6]),
                // What was cut isn't there again.
                Step::Passes(Call::Write(3, 3, &[8])),
                Step::Read(3, &[5, 6, 0, 8]),
            ],
            &[],
            &[],
            &[],
        ],
    ),
    (
        "a write that ends too far changes nothing",
        [
            &[
                Step::Fails(Call::Write(0, (1 << 63) - 1, &[1])),
                Step::Fails(Call::Write(0, 1 << 63, &[])),
                Step::Fails(Call::Write(0, u64::MAX, &[1])),
                Step::Faults(3),
                Step::Found("", Found::Nothing),
            ],
            &[],
            &[],
            &[],
        ],
    ),
    (
        "a synced file without bytes is removed",
        [
            &[
                Step::Passes(Call::Write(2, 0, &[1, 2])),
                Step::Passes(Call::Sync(2)),
                Step::Passes(Call::Cut(2, 0)),
                Step::Found("2.dat", Found::Len(0)),
                Step::Passes(Call::Sync(2)),
                Step::Found("2.dat", Found::Nothing),
                Step::Read(2, &[]),
                Step::Passes(Call::Write(2, 1, &[8])),
                Step::Passes(Call::Sync(2)),
                Step::Read(2, &[0, 8]),
                Step::Faults(0),
            ],
            &[],
            &[],
            &[],
        ],
    ),
    (
        "more files are written than stay open",
        [&[Step::Keeps(300)], &[], &[], &[]],
    ),
    (
        "a folder has one disk at a time",
        [
            &[Step::Passes(Call::Write(0, 0, &[1, 2, 3])), Step::Faults(0)],
            &[
                Step::Fails(Call::Len(0)),
                Step::Fails(Call::Write(0, 0, &[9])),
                Step::Fails(Call::Sync(0)),
            ],
            &[Step::Read(0, &[1, 2, 3]), Step::Faults(0)],
            &[Step::Read(0, &[1, 2, 3]), Step::Faults(3)],
        ],
    ),
    (
        "a folder that cannot be made/is a fault",
        [
            &[
                Step::Fails(Call::Write(0, 0, &[1])),
                Step::Faults(1),
                Step::MakeAbove,
                Step::Passes(Call::Write(0, 0, &[1])),
                Step::Passes(Call::Sync(0)),
                Step::Faults(1),
            ],
            &[],
            &[],
            &[],
        ],
    ),
    (
        "a link or a folder is no file",
        [
            &[
                Step::Make("", Thing::Folder),
                Step::Make("target", Thing::File(3)),
                Step::Make("0.dat", Thing::LinkTo("target")),
                Step::Make("3.dat", Thing::LinkTo("nothing")),
                Step::Make("4.dat", Thing::Folder),
                Step::Refused(0),
                Step::Refused(3),
                Step::Refused(4),
                // Other files can be used beside them.
                Step::Passes(Call::Write(1, 0, &[5])),
                Step::Passes(Call::Sync(1)),
                Step::Found("target", Found::Len(3)),
                Step::Found("4.dat", Found::Folder),
                Step::Found("nothing", Found::Nothing),
            ],
            &[],
            &[],
            &[],
        ],
    ),
    (
        "a link is no lock",
        [
            &[
                Step::Make("", Thing::Folder),
                Step::Make("lock", Thing::LinkTo("other")),
                Step::Refused(0),
                Step::Found("other", Found::Nothing),
            ],
            &[],
            &[],
            &[],
        ],
    ),
    (
        "what is made is its owner's alone",
        [
            &[
                Step::Passes(Call::Write(0, 0, &[5])),
                Step::Found("", Found::Mode(0o700)),
                Step::Found("lock", Found::Mode(0o600)),
                Step::Found("0.dat", Found::Mode(0o600)),
            ],
            &[],
            &[],
            &[],
        ],
    ),
    (
        "a lock that was taken away is noticed",
        [
            &[
                Step::Passes(Call::Write(0, 0, &[5])),
                Step::Passes(Call::Sync(0)),
                Step::Passes(Call::Write(0, 0, &[6])),
                Step::Make("lock", Thing::Nothing),
            ],
            &[Step::Passes(Call::Len(0))],
            // The first one makes nothing last any more, opens nothing and makes nothing.
            &[
                Step::Fails(Call::Sync(0)),
                Step::Fails(Call::Len(1)),
                Step::Fails(Call::Write(1, 0, &[7])),
            ],
            &[Step::Read(1, &[])],
        ],
    ),
    (
        "a store whose one list is closed is refused",
        [
            &[
                Step::Passes(Call::Write(2, 0, &[0, 0, 9])),
                Step::Passes(Call::Write(0, 0, &[0; 42])),
            ],
            &[],
            &[],
            &[
                Step::Refused(0),
                Step::Found("0.dat", Found::Len(42)),
                Step::Found("2.dat", Found::Len(3)),
            ],
        ],
    ),
    (
        "one open list is enough",
        [
            &[
                Step::Passes(Call::Write(7, 0, &[4])),
                Step::Passes(Call::Write(0, 0, &[0; 42])),
                Step::Passes(Call::Write(1, 0, &[1; 30])),
            ],
            &[],
            &[],
            &[Step::Read(7, &[4]), Step::Faults(0)],
        ],
    ),
];

/// A path in the system's folder for what is temporary, where nothing is.
fn unused(rt: HostRuntime, name: &str) -> Result<String, Fail> {
    let folder = env::temp_dir(&rt)?;
    let id = process::id(rt.process());
    let path = format!(in rt.alloc(); "{}/vurnda-{id} {name}", folder.as_str())?;
    remove(rt, path.as_str())?;
    Ok(path)
}

/// The part of a path before `/is a fault`, or all.
fn top_of(path: &str) -> &str {
    path.strip_suffix("/is a fault").unwrap_or(path)
}

fn remove(rt: HostRuntime, path: &str) -> Result<(), Fail> {
    let top = top_of(path);
    if fs::exists(&rt, top)? {
        fs::remove_dir_all(&rt, top)?;
    }
    Ok(())
}

fn disk_in(rt: HostRuntime, path: &str) -> Result<FolderDisk<HostRuntime>, AllocError> {
    let path = String::from_str(rt.alloc(), path)?;
    Ok(FolderDisk::new(rt, rt.alloc(), path))
}

fn path_of(rt: HostRuntime, folder: &str, name: &str) -> Result<String, AllocError> {
    format!(in rt.alloc(); "{folder}/{name}")
}

/// Writes so many files, of which each second is synced, and says whether each has what was written.
fn keeps<D: Device>(disk: &mut D, files: u32) -> Result<bool, Failed> {
    for file in 0..files {
        disk.write(file, 0, &file.to_le_bytes())?;
        if file % 2 == 0 {
            disk.sync(file)?;
        }
    }
    let mut same = true;
    for file in 0..files {
        same &= has(disk, file, &file.to_le_bytes())?;
    }
    Ok(same)
}

fn puts(rt: HostRuntime, path: &str, len: usize) -> bool {
    match vec![in rt.alloc(); 1u8; len] {
        Ok(bytes) => fs::write(&rt, path, bytes.as_slice()).is_ok(),
        Err(_) => false,
    }
}

fn makes(rt: HostRuntime, path: &str, thing: Thing) -> bool {
    match thing {
        Thing::File(len) => puts(rt, path, len),
        Thing::LinkTo(target) => symlink(&rt, target, path).is_ok(),
        Thing::Folder => fs::create_dir(&rt, path).is_ok(),
        Thing::Nothing => fs::remove_file(&rt, path).is_ok(),
    }
}

fn makes_in(rt: HostRuntime, folder: &str, name: &str, thing: Thing) -> bool {
    match path_of(rt, folder, name) {
        Ok(path) => makes(rt, path.as_str(), thing),
        Err(_) => false,
    }
}

fn is(metadata: &Metadata, found: Found) -> bool {
    match found {
        Found::Nothing => false,
        Found::Len(len) => metadata.len() == len,
        Found::Folder => metadata.is_dir(),
        Found::Mode(mode) => metadata.mode() & 0o777 == mode,
    }
}

fn finds(rt: HostRuntime, path: &str, found: Found) -> bool {
    match fs::exists(&rt, path) {
        Ok(true) => match fs::metadata(&rt, path) {
            Ok(metadata) => is(&metadata, found),
            Err(_) => false,
        },
        Ok(false) => matches!(found, Found::Nothing),
        Err(_) => false,
    }
}

fn finds_in(rt: HostRuntime, folder: &str, name: &str, found: Found) -> bool {
    match path_of(rt, folder, name) {
        Ok(path) => finds(rt, path.as_str(), found),
        Err(_) => false,
    }
}

/// Whether the step goes as it says.
fn goes<D: Device>(rt: HostRuntime, disk: &mut D, folder: &str, step: Step) -> bool {
    match step {
        Step::Passes(call) => passes(disk, call),
        Step::Fails(call) => !passes(disk, call),
        Step::Refused(file) => is_refused(disk, file),
        Step::Read(file, bytes) => has(disk, file, bytes) == Ok(true),
        Step::End(file, at) => ends(disk, file, at),
        Step::Keeps(files) => keeps(disk, files) == Ok(true),
        Step::Faults(count) => disk.faults() == count,
        Step::Make(name, thing) => makes_in(rt, folder, name, thing),
        Step::Found(name, found) => finds_in(rt, folder, name, found),
        Step::MakeAbove => makes(rt, top_of(folder), Thing::Folder),
    }
}

/// Whether each step goes as it says.
fn go<D: Device>(rt: HostRuntime, disk: &mut D, folder: &str, steps: &[Step]) -> bool {
    let mut same = true;
    for step in steps {
        same = same && goes(rt, disk, folder, *step);
    }
    same
}

/// Which turns go as they say.
fn turns_gone(rt: HostRuntime, folder: &str, turns: &Turns) -> Result<[bool; 4], AllocError> {
    let mut first = disk_in(rt, folder)?;
    let mut second = disk_in(rt, folder)?;
    let one = go(rt, &mut first, folder, turns[0]);
    let two = go(rt, &mut second, folder, turns[1]);
    let three = go(rt, &mut first, folder, turns[2]);
    drop(first);
    let four = go(rt, &mut second, folder, turns[3]);
    Ok([one, two, three, four])
}

fn case_gone(rt: HostRuntime, name: &str, turns: &Turns) -> Result<[bool; 4], Fail> {
    let folder = unused(rt, name)?;
    let gone = turns_gone(rt, folder.as_str(), turns)?;
    remove(rt, folder.as_str())?;
    Ok(gone)
}

#[test]
fn files_lie_in_a_folder(rt: HostRuntime) -> Result<(), Fail> {
    for (name, turns) in &CASES {
        let gone = case_gone(rt, name, turns)?;
        assert!(rt; gone == [true; 4], "{name}: {gone:?}");
    }
    Ok(())
}

/// Files of a folder by name and length, and whether a disk takes them for a store's, or for none at all.
static FOLDERS: [(&[(&str, usize)], bool); 14] = [
    (&[], true),
    (&[("notes.txt", 7), ("lock", 0), ("x.dat", 9)], true),
    // What is left where a program was killed as it made a new store.
    (&[("2.dat", 0)], true),
    (&[("2.dat", 2)], true),
    (&[("0.dat", 0), ("2.dat", 2)], true),
    (&[("0.dat", 0), ("1.dat", 0)], true),
    (&[("0.dat", 42), ("2.dat", 2)], true),
    (&[("0.dat", 29), ("2.dat", 2)], true),
    (&[("1.dat", 42), ("7.dat", 5)], true),
    // What no program leaves.
    (&[("2.dat", 3)], false),
    (&[("lock", 0), ("0.dat", 29), ("2.dat", 3)], false),
    (&[("2.dat", 2), ("3.dat", 0)], false),
    (&[("0.dat", 0), ("2.dat", 2), ("9.dat", 1)], false),
    (&[("lock", 0), ("17.dat", 5)], false),
];

/// Makes a folder with these files.
fn fills(rt: HostRuntime, folder: &str, files: &[(&str, usize)]) -> bool {
    let mut made = makes(rt, folder, Thing::Folder);
    for (name, len) in files {
        made &= makes_in(rt, folder, name, Thing::File(*len));
    }
    made
}

/// How many files there are in a folder. None where one is neither the lock nor one of these.
fn count_in(rt: HostRuntime, folder: &str, files: &[(&str, usize)]) -> io::Result<Option<usize>> {
    let mut count = 0usize;
    for entry in fs::read_dir(&rt, folder)? {
        let entry = entry?;
        let len = entry.metadata()?.len() as usize;
        if entry.file_name() != "lock" && !files.contains(&(entry.file_name(), len)) {
            return Ok(None);
        }
        count = count.saturating_add(1);
    }
    Ok(Some(count))
}

fn takes<D: Device>(disk: &mut D) -> bool {
    disk.len(5).is_ok()
}

fn refuses<D: Device>(disk: &mut D) -> bool {
    disk.len(5).is_err() && is_refused(disk, 0) && is_refused(disk, 17)
}

/// Whether a disk takes a folder or not, and makes nothing but its lock, and that in no folder that it doesn't take.
fn treats(
    rt: HostRuntime,
    folder: &str,
    files: &[(&str, usize)],
    is_taken: bool,
) -> Result<bool, Fail> {
    let mut disk = disk_in(rt, folder)?;
    let same = if is_taken {
        takes(&mut disk)
    } else {
        refuses(&mut disk)
    };
    let made = is_taken && !files.contains(&("lock", 0));
    let count = files.len().saturating_add(usize::from(made));
    Ok(same && count_in(rt, folder, files)? == Some(count))
}

fn fills_and_treats(
    rt: HostRuntime,
    files: &[(&str, usize)],
    is_taken: bool,
) -> Result<bool, Fail> {
    let folder = unused(rt, "slots")?;
    let filled = fills(rt, folder.as_str(), files);
    let treated = treats(rt, folder.as_str(), files, is_taken)?;
    remove(rt, folder.as_str())?;
    Ok(filled && treated)
}

#[test]
fn files_of_a_store_without_a_slot_are_refused(rt: HostRuntime) -> Result<(), Fail> {
    for (files, is_taken) in &FOLDERS {
        assert!(rt; fills_and_treats(rt, files, *is_taken)?, "{files:?}");
    }
    Ok(())
}
