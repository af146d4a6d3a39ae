//! The files that a list names as loose are emptied, and the list is committed without them.

ghost use Rattle.std.specs.Prelude.{◌≡◌, ◌≢◌, ◌⊎◌, ◌<◌, ◌≤◌, ◌+◌, ◌*◌, ℕ, List, [], length, Some, Err, IsTrue, IfOk, IfErr, OnOk, IsOk, IsErr};
ghost use Rattle.std.specs.List.{Contains};
ghost use Rattle.disk_model.specs.Calls.{Calls, Counts, CountsFault};
ghost use Rattle.disk_model.specs.Images.{bytes_of};
ghost use Rattle.disk_model.specs.Crash.{OnlyBytes, Run};
ghost use Rattle.block_list.specs.Body.{MeetsRules};
ghost use Rattle.block_list.specs.Commit.{IsListText};
ghost use Rattle.block_list.specs.Loading.{IsReady};
ghost use Rattle.block_list.specs.declared.body.ListBody.{ListBody};
ghost use Rattle.store_images.specs.Stored.{KeepsStored};
ghost use Rattle.store_files.specs.Loose.{IsSpare, next_without, next_with, without_loose, AreFreed, AreUnused, MayEmpty, OthersStay, KeepsDisk};
ghost use Rattle.store_files.specs.declared.error.OpenError.TheVariants.{Fault, NotStore};

use crate::error::OpenError;
use crate::left::empty_left;
use block_list::{FileList, ListBody, PreparedList, commit, prepare};
use disk_model::{Device, cut_through};
use span_types::Failed;
use std::alloc::Global;

/// Empties the loose files of the list that counts and what jobs left in files from its next one on, and commits the next
/// list without the loose files, which is answered. A list that names none stays.
///
/// All memory is taken before the disk is changed. The files are made to last as empty ones before the list is
/// committed, so that it has their room.
pub fn empty_loose<D: Device>(
    alloc: Global,
    disk: &mut D,
    list: ListBody,
) -> Result<ListBody, OpenError>
    requires rules { MeetsRules list }
    requires ready { IsTrue (D.tells disk.old)
        → IsReady (D.held disk.old) (D.may_leave disk.old) (Some list) }
    ensures list { IfOk result (λ next. next ≡ without_loose list) }
    // Whenever a crash comes, what is stored is kept, and what is left stays tidy.
    ensures kept { KeepsDisk D.Device.own disk.old disk.new }
    ensures ready { IsTrue (D.tells disk.old) →
        IfOk result (λ next. IsReady (D.held disk.new) (D.may_leave disk.new) (Some next)) }
    ensures others { IsTrue (D.tells disk.old) → OnOk result
        (OthersStay (IsSpare list) (D.held disk.old) (D.held disk.new) (D.may_leave disk.old)
        (D.may_leave disk.new)) }
    ensures freed { IsTrue (D.tells disk.old) →
        OnOk result (AreFreed (D.held disk.old) list.next_file (D.may_leave disk.new)) }
    ensures counted { CountsFault D.Device.own 0 Fault disk.old disk.new result }
    ensures a_store { (file at : ℕ) → result ≢ Err (NotStore file at) }
    ensures unchanged { IfErr result (λ error. error ≢ Fault → disk.new ≡ disk.old) }
{
    let first = list.next_file;
    if list.loose.len() == 0 {
        let Ok(()) = empty_left(disk, first) else {
            return Err(OpenError::Fault);
        };
        return Ok(list);
    }
    let (next, loose) = take_loose(alloc, list);
    let Ok(prepared) = prepare(alloc, &next) else {
        return Err(OpenError::Memory);
    };
    let Ok(()) = free_files(disk, loose.as_slice(), first) else {
        return Err(OpenError::Fault);
    };
    let Ok(()) = commit(disk, &prepared) else {
        return Err(OpenError::Fault);
    };
    Ok(next)
}

// The next list without loose files, and these files.
fn take_loose(alloc: Global, list: ListBody) -> (ListBody, FileList)
    ensures list { result.0 ≡ next_without list }
    ensures loose { result.1 ≡ list.loose }
{
    let ListBody {
        generation,
        next_file,
        floor,
        segments,
        blocks,
        loose,
    } = list;
    let next = ListBody {
        generation: generation.wrapping_add(1),
        next_file,
        floor,
        segments,
        blocks,
        loose: FileList::none(alloc),
    };
    (next, loose)
}

// Empties files that are neither segments nor blocks of the list which counts, and what jobs left in files from its next one on.
fn free_files<D: Device>(disk: &mut D, files: &[u32], first: u32) -> Result<(), Failed>
    requires given { 2 ≤ first }
    ensures kept { IsTrue (D.tells disk.old) → (body : ListBody) →
        IsReady (D.held disk.old) (D.may_leave disk.old) (Some body) → AreUnused body files.now
        → body.next_file ≤ first →
        Run KeepsStored D.moment D.left_since D.may_leave disk.old disk.new }
    ensures ready { IsTrue (D.tells disk.old) → (body : ListBody) →
        IsReady (D.held disk.old) (D.may_leave disk.old) (Some body) → AreUnused body files.now
        → body.next_file ≤ first →
        IsReady (D.held disk.new) (D.may_leave disk.new) (Some body) }
    ensures emptied { IsTrue (D.tells disk.old)
        → OnOk result ((file : ℕ) → Contains files.now file → 2 ≤ file → file < first
        → OnlyBytes file [] (D.may_leave disk.new)) }
    ensures freed { IsTrue (D.tells disk.old)
        → ((file : ℕ) → Contains files.now file → file < first)
        → OnOk result (AreFreed (D.held disk.old) first (D.may_leave disk.new)) }
    ensures others { IsTrue (D.tells disk.old)
        → OthersStay (λ file. (first ≤ file) ⊎ Contains files.now file)
        (D.held disk.old) (D.held disk.new) (D.may_leave disk.old) (D.may_leave disk.new) }
    ensures counted { Counts D.Device.own 0 (IsOk result) (IsErr result) disk.old disk.new }
{
    empty_files(disk, files)?;
    empty_left(disk, first)
}

/// Empties files that are neither segments nor blocks of the list which counts, one after another, makes that last, and
/// commits the next list, which this text is.
pub fn commit_without<D: Device>(
    disk: &mut D,
    files: &[u32],
    text: &PreparedList,
) -> Result<(), Failed>
    ensures kept { IsTrue (D.tells disk.old) → (body : ListBody) (next_file : ℕ) (loose : List ℕ) →
        IsReady (D.held disk.old) (D.may_leave disk.old) (Some body)
        → MayEmpty body next_file loose files.now →
        IsListText text.now (next_with body next_file loose) →
        Run KeepsStored D.moment D.left_since D.may_leave disk.old disk.new }
    ensures ready { IsTrue (D.tells disk.old) → (body : ListBody) (next_file : ℕ) (loose : List ℕ) →
        IsReady (D.held disk.old) (D.may_leave disk.old) (Some body)
        → MayEmpty body next_file loose files.now →
        IsListText text.now (next_with body next_file loose) →
        OnOk result (IsReady (D.held disk.new) (D.may_leave disk.new)
        (Some (next_with body next_file loose))) }
    ensures others { IsTrue (D.tells disk.old)
        → (body : ListBody) (next_file : ℕ) (loose : List ℕ) →
        IsReady (D.held disk.old) (D.may_leave disk.old) (Some body)
        → MayEmpty body next_file loose files.now →
        IsListText text.now (next_with body next_file loose) →
        OthersStay (Contains files.now) (D.held disk.old) (D.held disk.new) (D.may_leave disk.old)
        (D.may_leave disk.new) }
    ensures still { IsTrue (D.tells disk.old) → (file : ℕ) → 2 ≤ file
        → (Contains files.now file → ⊥) →
        bytes_of (D.held disk.new) file ≡ bytes_of (D.held disk.old) file }
    ensures counted { Calls D.Device.own (2 * length files.now + 6)
        (1 + length text.now.text) disk.old disk.new result }
{
    empty_files(disk, files)?;
    commit(disk, text)
}

// Empties files that are neither segments nor blocks of the list which counts, one after another, and makes that last.
fn empty_files<D: Device>(disk: &mut D, files: &[u32]) -> Result<(), Failed>
    ensures kept { IsTrue (D.tells disk.old) → (body : ListBody) →
        IsReady (D.held disk.old) (D.may_leave disk.old) (Some body) → AreUnused body files.now →
        Run KeepsStored D.moment D.left_since D.may_leave disk.old disk.new }
    ensures ready { IsTrue (D.tells disk.old) → (body : ListBody) →
        IsReady (D.held disk.old) (D.may_leave disk.old) (Some body) → AreUnused body files.now →
        IsReady (D.held disk.new) (D.may_leave disk.new) (Some body) }
    ensures emptied { IsTrue (D.tells disk.old) → OnOk result ((file : ℕ) → Contains files.now file
        → OnlyBytes file [] (D.may_leave disk.new)) }
    ensures others { IsTrue (D.tells disk.old) →
        OthersStay (Contains files.now) (D.held disk.old) (D.held disk.new) (D.may_leave disk.old)
        (D.may_leave disk.new) }
    ensures counted { Calls D.Device.own (2 * length files.now) 0 disk.old disk.new result }
{
    for file in files {
        cut_through(disk, *file, 0)?;
    }
    Ok(())
}
