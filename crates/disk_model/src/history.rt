//! The files of a disk in memory, and how they came to be.

ghost use Rattle.std.specs.Prelude.{◌≡◌, ◌+◌, ◌^◌, ◌<◌, ◌≤◌, ◌++◌, [], ◌∷◌, ℕ, List, length, take, IfOk, OnOk, OnErr};
ghost use Rattle.disk_model.specs.Images.{bytes_of};
ghost use Rattle.disk_model.specs.History.{IsInRange, StandsAt, state_of, files_now, held_now, unchanged, after, added};
ghost use Rattle.disk_model.specs.Picks.{picked, picked_image};
ghost use Rattle.disk_model.specs.declared.change.Change.TheVariants.{Write};

use crate::change::Change;
use crate::file::{File, push_reserved};
use span_types::Bytes;
use std::alloc::{AllocError, Global};
use std::marker::Model;

/// What the files held at first, and each change since; and beside it the files as these changes left them.
#[derive(Drop)]
pub struct History {
    alloc: Global,
    first: Vec<(u32, Bytes)>,
    changes: Vec<Change>,
    files: Vec<(u32, File)>,
}

impl Model for History {
    ghost use Rattle.disk_model.specs.History.{Past, IsReplayed};

    ghost Value = { Past };

    ghost view = { λ history. record { first = history.first.items; changes = history.changes.items } };

    ghost invariant = { λ history. IsReplayed history.files.items (record { first = history.first.items; changes = history.changes.items }) };
}

impl History {
    /// No file.
    pub fn empty(alloc: Global) -> History
        ensures { result ≡ record { first = []; changes = [] } }
    {
        History {
            alloc,
            first: Vec::new(alloc),
            changes: Vec::new(alloc),
            files: Vec::new(alloc),
        }
    }

    /// Writes a copy of the bytes.
    pub fn write(&mut self, file: u32, at: u64, bytes: &[u8]) -> Result<(), AllocError>
        requires { at + length bytes.now < 2 ^ 63 }
        ensures ok { OnOk result (self.new ≡ added self.old (Write file at bytes.now)) }
        ensures err { OnErr result (self.new ≡ self.old) }
    {
        let bytes = Bytes::of(bytes.to_vec(self.alloc)?);
        self.add(Change::Write { file, at, bytes })
    }

    /// What a file holds.
    pub fn bytes(&self, file: u32) -> &[u8]
        ensures { result.now ≡ bytes_of (held_now self.now) file }
    {
        held_of(&self.files, file)
    }

    /// What its calls allocate with.
    pub fn alloc(&self) -> Global {
        self.alloc
    }

    /// What a crash may leave of the files, by the pick, as what they hold at first.
    pub fn image(&self, pick: u64) -> Result<History, AllocError>
        ensures first { IfOk result
            (λ other. other ≡ record { first = other.first; changes = [] }) }
        ensures picked { IfOk result (λ other. (file : ℕ)
            → bytes_of other.first file ≡ picked pick file (state_of (files_now self.now) file)) }
    {
        let (first, files) = picked_files(self.alloc, &self.files, pick)?;
        Ok(History {
            alloc: self.alloc,
            first,
            changes: Vec::new(self.alloc),
            files,
        })
    }

    /// Makes a change, or notes one that failed.
    pub fn add(&mut self, change: Change) -> Result<(), AllocError>
        requires { IsInRange change }
        ensures ok { OnOk result (self.new ≡ added self.old change) }
        ensures err { OnErr result (self.new ≡ self.old) }
    {
        self.changes.reserve(1)?;
        apply(self.alloc, &mut self.files, &change)?;
        push_reserved(&mut self.changes, change);
        Ok(())
    }
}

/// Makes a change to its file.
fn apply(alloc: Global, files: &mut Vec<(u32, File)>, change: &Change) -> Result<(), AllocError>
    requires { IsInRange change.now }
    ensures ok { OnOk result ((file : ℕ)
        → state_of files.new.items file ≡ state_of (after files.old.items change.now) file) }
    ensures err { OnErr result ((file : ℕ)
        → state_of files.new.items file ≡ state_of files.old.items file) }
{
    let place = place_of(alloc, files, change.file())?;
    let entry = &mut files[place];
    entry.1.apply(alloc, change)
}

/// The place of a file in the list. Where it isn't there, it is put at the end, empty.
fn place_of(alloc: Global, files: &mut Vec<(u32, File)>, file: u32) -> Result<usize, AllocError>
    ensures place { IfOk result (StandsAt files.new.items file) }
    ensures same { (other : ℕ) → state_of files.new.items other ≡ state_of files.old.items other }
{
    if let Some(place) = files.iter().position(|entry| entry.0 == file) {
        return Ok(place);
    }
    files.push((file, File::empty(alloc)))?;
    Ok(files.len() - 1)
}

/// What a file holds; one that isn't there is empty.
fn held_of(files: &[(u32, File)], file: u32) -> &[u8]
    ensures { result.now ≡ (state_of files.now file).held }
{
    for entry in files {
        if entry.0 == file {
            return entry.1.held();
        }
    }
    &[]
}

/// What the pick gives of each file, and the files that hold just that.
fn picked_files(
    alloc: Global,
    files: &[(u32, File)],
    pick: u64,
) -> Result<(Vec<(u32, Bytes)>, Vec<(u32, File)>), AllocError>
    ensures picked { IfOk result (λ both. both.0.items ≡ picked_image pick files.now) }
    ensures held { IfOk result (λ both. both.1.items ≡ unchanged both.0.items) }
{
    let mut image = Vec::with_capacity(alloc, files.len())?;
    let mut held = Vec::with_capacity(alloc, files.len())?;
    for entry in files {
        let bytes = entry.1.picked(alloc, entry.0, pick)?;
        held.push((entry.0, File::holding(alloc, &bytes)?))?;
        image.push((entry.0, Bytes::of(bytes)))?;
    }
    Ok((image, held))
}
