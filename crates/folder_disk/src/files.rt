//! Single files and folders, by what the system tells of them.

ghost use Rattle.std.specs.Prelude.{◌≡◌, ◌<◌, ◌≤◌, ◌+◌, ◌-◌, ◌^◌, ◌↔◌, min, length, IsTrue, IfOk};

use crate::system::{Found, System, SystemFile};
use std::alloc::Global;
use std::io;
use std::io::ErrorKind;
use std::path::Path;

/// A file's length is below this.
const LENGTHS: u64 = 1 << 63;

/// The numbers of the errors that the whole system has no descriptor left, and that this program has none, on Linux.
const ENFILE: i32 = 23;

const EMFILE: i32 = 24;

/// So many bytes of a file are written again at once.
const PIECE: usize = 65_536;

/// Whether a write of that many bytes ends where a file may.
pub fn ends_in_file(at: u64, len: usize) -> bool
    ensures { IsTrue result ↔ (at + len < 2 ^ 63) }
{
    match at.checked_add(len as u64) {
        Some(end) => end < LENGTHS,
        None => false,
    }
}

/// How many of so many bytes a file may have from the byte `at` on.
fn most_from(at: u64, len: usize) -> usize
    ensures { result ≡ min len (2 ^ 63 - 1 - at) }
{
    let left = (LENGTHS - 1).saturating_sub(at);
    len.min(left as usize)
}

/// Reads from the byte `at` on to the end of the buffer or of the file, and answers how many bytes.
pub fn read_on(file: &impl SystemFile, at: u64, buf: &mut [u8]) -> io::Result<usize>
    ensures { IfOk result (λ count. count ≤ length buf.new) }
{
    let most = most_from(at, buf.len());
    let mut count = 0;
    for _ in 0..u64::MAX {
        if count >= most {
            return Ok(most);
        }
        match file.read_at(&mut buf[count..most], at + count as u64) {
            Ok(0) => return Ok(count),
            Ok(more) => count += more,
            Err(e) if e.kind() == ErrorKind::Interrupted => {}
            Err(e) => return Err(e),
        }
    }
    Err(io::Error::from(ErrorKind::Interrupted))
}

/// Writes a file's bytes over themselves, so that the next sync makes last what a read gives.
fn write_again(alloc: Global, file: &impl SystemFile) -> io::Result<()> {
    let mut buf = vec![in alloc; 0; PIECE]?;
    let mut at: u64 = 0;
    for _ in 0..u64::MAX {
        let count = read_on(file, at, buf.as_mut_slice())?;
        let Some(bytes) = buf.get(..count) else {
            return Ok(());
        };
        if bytes.is_empty() {
            return Ok(());
        }
        file.write_all_at(bytes, at)?;
        at = at.saturating_add(count as u64);
    }
    Err(io::Error::from(ErrorKind::Interrupted))
}

/// Makes last what a read of a file gives. If the file is in doubt, a sync alone would write nothing.
pub fn make_last(alloc: Global, file: &impl SystemFile, is_doubted: bool) -> io::Result<()> {
    if is_doubted {
        write_again(alloc, file)?;
    }
    file.sync()
}

/// What has this name, if anything has.
pub fn look_for(system: &impl System, path: &str) -> io::Result<Option<Found>> {
    match system.look(path) {
        Ok(found) => Ok(Some(found)),
        Err(e) if e.kind() == ErrorKind::NotFound => Ok(None),
        Err(e) => Err(e),
    }
}

/// Opens a regular file. `None` is that nothing has its name. It fails where something else has it: a folder, a link, a
/// pipe, a socket or a device, which is not opened.
pub fn open_if_there<S: System>(system: &S, path: &str) -> io::Result<Option<S::File>> {
    let Some(found) = look_for(system, path)? else {
        return Ok(None);
    };
    expect_regular(found)?;
    let file = system.open(path)?;
    // Another may have taken the name meanwhile.
    expect_same(found, file.found()?)?;
    Ok(Some(file))
}

/// Locks a file, which is made where it isn't there, as long as it is open. It fails where another opening has the lock, and
/// where the file that it locked hasn't the name any more.
pub fn lock<S: System>(system: &S, path: &str) -> io::Result<S::File> {
    let file = match open_if_there(system, path)? {
        Some(file) => file,
        None => system.make(path)?,
    };
    file.lock()?;
    expect_named(system, path, &file)?;
    Ok(file)
}

/// Fails unless this is the regular file that has the name.
pub fn expect_named<S: System>(system: &S, path: &str, file: &S::File) -> io::Result<()> {
    expect_same(system.look(path)?, file.found()?)
}

fn expect_same(named: Found, opened: Found) -> io::Result<()> {
    expect_regular(opened)?;
    if named.place == opened.place {
        Ok(())
    } else {
        Err(io::Error::from(ErrorKind::NotFound))
    }
}

fn expect_regular(found: Found) -> io::Result<()> {
    if found.is_regular {
        Ok(())
    } else {
        Err(io::Error::from(ErrorKind::Unsupported))
    }
}

/// Whether a call failed since no descriptor was left for this program, or for the whole system.
pub fn wants_descriptor<T>(answer: &io::Result<T>) -> bool {
    match answer {
        Ok(_) => false,
        Err(e) => matches!(e.raw_os_error(), Some(EMFILE | ENFILE)),
    }
}

/// Makes last that a folder has its name. A folder above it that this program may not read, or that can't be synced, is
/// passed over: whoever gave the program its folder there has seen to that.
pub fn sync_name(system: &impl System, path: &str) -> io::Result<()> {
    let synced = match Path::new(path).parent() {
        Some(above) if !above.as_str().is_empty() => system.sync_folder(above.as_str()),
        Some(_) => system.sync_folder("."),
        None => Ok(()),
    };
    match synced {
        Err(e) if can_be_passed_over(e.kind()) => Ok(()),
        other => other,
    }
}

fn can_be_passed_over(kind: ErrorKind) -> bool {
    matches!(kind, ErrorKind::PermissionDenied | ErrorKind::InvalidInput)
}
