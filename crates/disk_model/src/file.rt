//! One file of a disk in memory: what it held at its last sync, what it holds, and what a crash may leave of it.

ghost use Rattle.std.specs.Prelude.{◌≡◌, ◌<◌, ◌≤◌, ◌+◌, ◌^◌, ◌++◌, ◌-◌, [], ◌∷◌, length, min, max, take, drop, replicate, vec_len, vec_capacity, OnOk, OnErr, IfOk, if◌then◌else◌, slice_index};
ghost use Rattle.disk_model.specs.Bytes.{overwritten};
ghost use Rattle.disk_model.specs.Files.{settled, wrote, lost_write, cut_to, lost_cut, synced_now};

use crate::change::{Change, Pending};
use crate::picks::{byte_at, free_byte, is_free, picked_length, seed_of};
use std::alloc::{AllocError, Global};
use std::marker::Model;

/// What a file held when it was last synced, what it holds now, and the changes since that sync.
#[derive(Drop)]
pub struct File {
    synced: Vec<u8>,
    held: Vec<u8>,
    pending: Vec<Pending>,
    least: u64,
    greatest: u64,
}

impl Model for File {
    ghost use Rattle.disk_model.specs.Files.{FileState};

    ghost Value = { FileState };

    ghost view = { λ file. record { synced = file.synced.items; held = file.held.items; pending = file.pending.items; least = file.least; greatest = file.greatest } };
}

impl File {
    ghost use Rattle.disk_model.specs.Files.{is_free};
    ghost use Rattle.disk_model.specs.History.{IsInRange, changed};
    ghost use Rattle.disk_model.specs.Picks.{picked, picked_length, filled, byte_of};

    /// An empty file.
    pub fn empty(alloc: Global) -> File
        ensures { result ≡ settled [] }
    {
        File {
            synced: Vec::new(alloc),
            held: Vec::new(alloc),
            pending: Vec::new(alloc),
            least: 0,
            greatest: 0,
        }
    }

    /// A file that holds these bytes, all of them synced.
    pub fn holding(alloc: Global, bytes: &[u8]) -> Result<File, AllocError>
        ensures { IfOk result (λ file. file ≡ settled bytes.now) }
    {
        Ok(File {
            synced: bytes.to_vec(alloc)?,
            held: bytes.to_vec(alloc)?,
            pending: Vec::new(alloc),
            least: bytes.len() as u64,
            greatest: bytes.len() as u64,
        })
    }

    /// The bytes that it holds.
    pub fn held(&self) -> &[u8]
        ensures { result.now ≡ self.now.held }
    {
        &self.held
    }

    /// What a crash may leave of it, by the pick: 0 what was last synced, 1 what it holds, 2 the greatest length with
    /// 1 at each offset that isn't certain, 3 the least length with 0 there, and each other pick a mixture.
    pub fn picked(&self, alloc: Global, number: u32, pick: u64) -> Result<Vec<u8>, AllocError>
        ensures { IfOk result (λ bytes. bytes.items ≡ picked pick number self.now) }
    {
        match pick {
            0 => self.synced.to_vec(alloc),
            1 => self.held.to_vec(alloc),
            _ => self.filled(alloc, pick, seed_of(pick, number)),
        }
    }

    /// It at the pick's length, with the pick's byte at each offset that isn't certain.
    fn filled(&self, alloc: Global, pick: u64, seed: u64) -> Result<Vec<u8>, AllocError>
        ensures { IfOk result
            (λ bytes. bytes.items ≡ filled self.now (byte_of pick seed self.now)
            (picked_length pick self.now.least self.now.greatest seed)) }
    {
        let len = picked_length(pick, self.least, self.greatest, seed);
        let mut bytes = Vec::with_capacity(alloc, len as usize)?;
        for offset in 0..len {
            bytes.push(self.byte_of(pick, seed, offset))?;
        }
        Ok(bytes)
    }

    /// The byte of the last sync where it is certain, else that of the pick.
    fn byte_of(&self, pick: u64, seed: u64, offset: u64) -> u8
        ensures { result ≡ (if is_free self.now offset then byte_of pick seed self.now offset else slice_index self.now.synced offset) }
    {
        let synced = byte_at(&self.synced, offset);
        if is_free(&self.synced, &self.pending, offset) {
            let held = byte_at(&self.held, offset);
            return free_byte(pick, synced, held, seed.wrapping_add(offset));
        }
        synced
    }

    /// Writes the bytes from the byte `at` on.
    fn write(&mut self, at: u64, bytes: &[u8]) -> Result<(), AllocError>
        requires { at + length bytes.now < 2 ^ 63 }
        ensures ok { OnOk result (self.new ≡ wrote at bytes.now self.old) }
        ensures err { OnErr result (self.new ≡ self.old) }
    {
        self.pending.reserve(1)?;
        overwrite(&mut self.held, at as usize, bytes)?;
        let len = bytes.len() as u64;
        push_reserved(&mut self.pending, Pending::Written { at, len });
        self.greatest = self.greatest.max(self.held.len() as u64);
        Ok(())
    }

    /// Notes a write that failed.
    fn lose_write(&mut self, at: u64, len: u64) -> Result<(), AllocError>
        ensures ok { OnOk result (self.new ≡ lost_write at len self.old) }
        ensures err { OnErr result (self.new ≡ self.old) }
    {
        self.pending.push(Pending::Written { at, len })?;
        Ok(())
    }

    /// Cuts it to a length.
    fn cut(&mut self, len: u64) -> Result<(), AllocError>
        ensures ok { OnOk result (self.new ≡ cut_to len self.old) }
        ensures err { OnErr result (self.new ≡ self.old) }
    {
        self.pending.push(Pending::Shortened { len })?;
        self.held.truncate(len as usize);
        self.spread(len);
        Ok(())
    }

    /// Notes a cut that failed.
    fn lose_cut(&mut self, len: u64) -> Result<(), AllocError>
        ensures ok { OnOk result (self.new ≡ lost_cut len self.old) }
        ensures err { OnErr result (self.new ≡ self.old) }
    {
        self.pending.push(Pending::Shortened { len })?;
        self.spread(len);
        Ok(())
    }

    /// Counts a length among those since the last sync.
    fn spread(&mut self, len: u64)
        ensures { self.new ≡ record self.old { least = min self.old.least len; greatest = max self.old.greatest len } }
    {
        self.least = self.least.min(len);
        self.greatest = self.greatest.max(len);
    }

    /// Makes a change, or notes one that failed.
    pub fn apply(&mut self, alloc: Global, change: &Change) -> Result<(), AllocError>
        requires { IsInRange change.now }
        ensures ok { OnOk result (self.new ≡ changed change.now self.old) }
        ensures err { OnErr result (self.new ≡ self.old) }
    {
        match change {
            Change::Write { file: _, at, bytes } => self.write(*at, bytes.as_slice()),
            Change::LostWrite { file: _, at, len } => self.lose_write(*at, *len),
            Change::Cut { file: _, len } => self.cut(*len),
            Change::LostCut { file: _, len } => self.lose_cut(*len),
            Change::Sync { file: _ } => self.sync(alloc),
        }
    }

    /// Makes what it holds last.
    fn sync(&mut self, alloc: Global) -> Result<(), AllocError>
        ensures ok { OnOk result (self.new ≡ synced_now self.old) }
        ensures err { OnErr result (self.new ≡ self.old) }
    {
        self.synced = self.held.to_vec(alloc)?;
        self.pending.clear();
        self.least = self.held.len() as u64;
        self.greatest = self.least;
        Ok(())
    }
}

/// Writes the bytes over those that are there, from the byte `at` on. A gap becomes zeros; no bytes change nothing.
fn overwrite(held: &mut Vec<u8>, at: usize, bytes: &[u8]) -> Result<(), AllocError>
    requires { at + length bytes.now < 2 ^ 63 }
    ensures ok { OnOk result (held.new.items ≡ overwritten held.old.items at bytes.now) }
    ensures err { OnErr result (held.new.items ≡ held.old.items) }
{
    if bytes.is_empty() {
        return Ok(());
    }
    fill_to(held, at + bytes.len())?;
    replace(held, at, bytes);
    Ok(())
}

/// Makes a list at least that long, with zeros at its end.
fn fill_to(held: &mut Vec<u8>, len: usize) -> Result<(), AllocError>
    ensures ok { OnOk result
        (held.new.items ≡ held.old.items ++ replicate (len - length held.old.items) 0) }
    ensures err { OnErr result (held.new.items ≡ held.old.items) }
{
    if held.len() < len {
        held.resize(len, 0)?;
    }
    Ok(())
}

/// Puts the bytes over as many, from the byte `at` on.
fn replace(held: &mut [u8], at: usize, bytes: &[u8])
    requires { at + length bytes.now ≤ length held.old }
    ensures { held.new ≡ take at held.old ++ bytes.now ++ drop (at + length bytes.now) held.old }
{
    held[at..at + bytes.len()].copy_from_slice(bytes);
}

/// Puts an item at the end of a list that has room for it.
pub fn push_reserved<T: Drop>(items: &mut Vec<T>, item: T)
    requires { vec_len items.old < vec_capacity items.old }
    ensures { items.new.items ≡ items.old.items ++ item ∷ [] }
{
    match items.push(item) {
        Ok(()) => {}
        Err(_) => unreachable!(),
    }
}
