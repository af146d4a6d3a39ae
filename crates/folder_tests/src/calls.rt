//! Calls of a disk, and whether they pass.

use disk_model::Device;
use span_types::Failed;

#[derive(Clone, Copy)]
pub(crate) enum Call {
    Len(u32),
    Write(u32, u64, &'static [u8]),
    Cut(u32, u64),
    Sync(u32),
}

pub(crate) fn passes<D: Device>(disk: &mut D, call: Call) -> bool {
    match call {
        Call::Len(file) => disk.len(file).is_ok(),
        Call::Write(file, at, bytes) => disk.write(file, at, bytes).is_ok(),
        Call::Cut(file, len) => disk.cut(file, len).is_ok(),
        Call::Sync(file) => disk.sync(file).is_ok(),
    }
}

/// Whether each kind of call of a file fails.
pub(crate) fn is_refused<D: Device>(disk: &mut D, file: u32) -> bool {
    let mut buf = [0; 4];
    disk.len(file).is_err()
        && disk.read(file, 0, &mut buf).is_err()
        && disk.write(file, 0, &[9]).is_err()
        && disk.cut(file, 0).is_err()
        && disk.sync(file).is_err()
}

/// Whether a file has just these bytes, fewer than 16.
pub(crate) fn has<D: Device>(disk: &mut D, file: u32, bytes: &[u8]) -> Result<bool, Failed> {
    let mut buf = [9u8; 16];
    let count = disk.read(file, 0, &mut buf)?;
    Ok(disk.len(file)? == bytes.len() as u64 && buf.get(..count) == Some(bytes))
}

/// Whether nothing is read from an offset on, and the buffer stays as it is.
pub(crate) fn ends<D: Device>(disk: &mut D, file: u32, at: u64) -> bool {
    let mut buf = [9u8; 4];
    disk.read(file, at, &mut buf) == Ok(0) && buf == [9; 4]
}
