//! The blocks of a store are read as it is opened.

ghost use Rattle.std.specs.Prelude.{◌≡◌, ◌≢◌, ◌≤◌, ◌-◌, ◌++◌, ℕ, List, length, take, drop, min, Err, IsTrue, IfOk, OnOk};
ghost use Rattle.std.specs.List.{Contains};
ghost use Rattle.span_types.specs.declared.spans.Row.{Row};
ghost use Rattle.disk_model.specs.Calls.{CountsFault};
ghost use Rattle.disk_model.specs.Images.{bytes_of};
ghost use Rattle.disk_model.specs.Crash.{OnlyBytes, Untouched};
ghost use Rattle.block_format.specs.Blocks.{BlockHasInfo};
ghost use Rattle.block_list.specs.declared.body.BlockRef.{BlockRef};
ghost use Rattle.store_files.specs.BlockReading.{listed_as, BlocksRead, BlocksBreak, block_in};
ghost use Rattle.store_files.specs.declared.error.OpenError.TheVariants.{Fault, NotStore};

use crate::error::OpenError;
use block_info::SharedInfo;
use block_list::BlockRef;
use block_read::check_bytes;
use disk_model::Device;
use span_fields::Break;
use span_types::Shared;
use std::alloc::Global;

/// How many bytes of a block's file one call of the disk reads.
const PART: usize = 16_384;

/// The information of listed blocks, in list order. Each file is made to last, read whole and checked, one after another; its
/// bytes and its rows are dropped before the next one is read.
///
/// A file that is no block, or one with another number of rows than the list says, is refused at the first byte where it is
/// malformed.
pub fn read_blocks<D: Device>(
    alloc: Global,
    disk: &mut D,
    blocks: &[BlockRef],
) -> Result<Vec<SharedInfo>, OpenError>
    ensures read { IfOk result
        (λ infos. BlocksRead (IsTrue (D.tells disk.old)) (D.held disk.old) blocks.now infos.items) }
    // Each block then has one image.
    ensures lies { IsTrue (D.tells disk.old) → OnOk result ((x : BlockRef) → Contains blocks.now x
        → OnlyBytes x.file (bytes_of (D.held disk.old) x.file) (D.may_leave disk.new)) }
    ensures not_store { IsTrue (D.tells disk.old) → (file at : ℕ) → result ≡ Err (NotStore file at)
        → BlocksBreak (D.held disk.old) blocks.now file at }
    ensures untouched { Untouched D.tells D.held D.may_leave D.moment D.left_since disk.old disk.new }
    ensures counted { CountsFault D.Device.own 0 Fault disk.old disk.new result }
{
    let mut infos = Vec::new(alloc);
    for block in blocks {
        let info = read_block(alloc, disk, block)?;
        let Ok(()) = infos.push(info) else {
            return Err(OpenError::Memory);
        };
    }
    Ok(infos)
}

// Makes a listed block last, reads it and checks it.
fn read_block<D: Device>(
    alloc: Global,
    disk: &mut D,
    block: &BlockRef,
) -> Result<SharedInfo, OpenError>
    ensures named { IfOk result (λ info. listed_as info ≡ block.now) }
    ensures built { IsTrue (D.tells disk.old) → IfOk result (λ info.
        (rows : List Row) × BlockHasInfo info (bytes_of (D.held disk.old) block.now.file) rows) }
    ensures lies { IsTrue (D.tells disk.old) → OnOk result
        (OnlyBytes block.now.file (bytes_of (D.held disk.old) block.now.file)
        (D.may_leave disk.new)) }
    ensures malformed { IsTrue (D.tells disk.old) → (file at : ℕ) → result ≡ Err (NotStore file at)
        → (file ≡ block.now.file)
        × (block_in (D.held disk.old) block.now ≡ Err at) }
    ensures untouched { Untouched D.tells D.held D.may_leave D.moment D.left_since disk.old disk.new }
    ensures counted { CountsFault D.Device.own 0 Fault disk.old disk.new result }
{
    let bytes = last_bytes(alloc, disk, block.file)?;
    let info = match check_bytes(alloc, block.file, block.level, block.rows, bytes.as_slice()) {
        Ok(info) => info,
        Err(Break::At(at)) => {
            return Err(OpenError::NotStore {
                file: block.file,
                at,
            });
        }
        Err(Break::Memory) => return Err(OpenError::Memory),
    };
    match Shared::of(alloc, info) {
        Ok(info) => Ok(info),
        Err(_) => Err(OpenError::Memory),
    }
}

// All bytes of a file, which is made to last first.
fn last_bytes<D: Device>(alloc: Global, disk: &mut D, file: u32) -> Result<Vec<u8>, OpenError>
    ensures bytes { IsTrue (D.tells disk.old)
        → IfOk result (λ bytes. bytes.items ≡ bytes_of (D.held disk.old) file) }
    ensures lies { IsTrue (D.tells disk.old)
        → OnOk result (OnlyBytes file (bytes_of (D.held disk.old) file) (D.may_leave disk.new)) }
    ensures untouched { Untouched D.tells D.held D.may_leave D.moment D.left_since disk.old disk.new }
    ensures counted { CountsFault D.Device.own 0 Fault disk.old disk.new result }
    ensures a_store { (other at : ℕ) → result ≢ Err (NotStore other at) }
{
    let Ok(()) = disk.sync(file) else {
        return Err(OpenError::Fault);
    };
    file_bytes(alloc, disk, file)
}

// All bytes of a file. What is taken for them grows with what was read: a file may be said to be longer than its bytes take room.
fn file_bytes<D: Device>(alloc: Global, disk: &mut D, file: u32) -> Result<Vec<u8>, OpenError>
    ensures bytes { IsTrue (D.tells disk.old)
        → IfOk result (λ bytes. bytes.items ≡ bytes_of (D.held disk.old) file) }
    ensures untouched { Untouched D.tells D.held D.may_leave D.moment D.left_since disk.old disk.new }
    ensures counted { CountsFault D.Device.own 0 Fault disk.old disk.new result }
    ensures a_store { (other at : ℕ) → result ≢ Err (NotStore other at) }
{
    let mut bytes = Vec::new(alloc);
    let mut part = [0; PART];
    for _ in 0..u64::MAX {
        if read_more(disk, file, &mut bytes, &mut part)? == 0 {
            return Ok(bytes);
        }
    }
    Err(OpenError::Memory)
}

// Reads the bytes after those that were read, as many as the part holds, and answers how many they are.
fn read_more<D: Device>(
    disk: &mut D,
    file: u32,
    bytes: &mut Vec<u8>,
    part: &mut [u8],
) -> Result<usize, OpenError>
    ensures bytes { IsTrue (D.tells disk.old) → IfOk result (λ n. bytes.new.items ≡ bytes.old.items
        ++ take n (drop (length bytes.old.items) (bytes_of (D.held disk.old) file))) }
    ensures count { IsTrue (D.tells disk.old) → IfOk result (λ n. n ≡ min (length part.old)
        (length (bytes_of (D.held disk.old) file) - length bytes.old.items)) }
    ensures untouched { Untouched D.tells D.held D.may_leave D.moment D.left_since disk.old disk.new }
    ensures counted { CountsFault D.Device.own 0 Fault disk.old disk.new result }
    ensures a_store { (other at : ℕ) → result ≢ Err (NotStore other at) }
{
    let Ok(count) = disk.read(file, bytes.len() as u64, part) else {
        return Err(OpenError::Fault);
    };
    let Ok(()) = bytes.extend_from_slice(&part[..count]) else {
        return Err(OpenError::Memory);
    };
    Ok(count)
}
