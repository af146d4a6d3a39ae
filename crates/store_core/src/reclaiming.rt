//! Loose files are emptied, and the list is committed without them.

ghost use Rattle.std.specs.Prelude.{◌≡◌, ◌<◌, ◌+◌, ◌^◌, length, IfOk, filter, not};
ghost use Rattle.std.specs.List.Sorted.{IsNonDecreasing};
ghost use Rattle.block_list.specs.Body.{MeetsRules};
ghost use Rattle.block_list.specs.Commit.{IsListText};
ghost use Rattle.store_model.specs.Event.Event.{Reclaim};
ghost use Rattle.store_model.specs.State.{is_among};
ghost use Rattle.store_state.specs.Edited.{IsEdited};
ghost use Rattle.store_state.specs.Replies.{reclaim_reply};
ghost use Rattle.store_core.specs.Events.{Did};
ghost use Rattle.store_core.specs.NextList.{kept_edit, IsParted};

use crate::state::CoreState;
use crate::store::Core;
use block_list::{ListBody, PreparedList, prepare_any};
use disk_model::Device;
use span_types::Memory;
use std::alloc::Global;
use store_files::{commit_without, pinned_files};
use store_state::{ListEdit, ListRoom, ReclaimError, edited};

impl<D: Device> Core<D> {
    /// Empties the loose files that no pin names, and answers how many. With none it makes no device call.
    ///
    /// All memory is taken before the disk is changed; with no loose file none is taken. The files are made to last as empty
    /// ones before the list is committed without them. After `Fault` the store is read-only, some of these files may be empty.
    /// In memory they stay loose.
    pub fn reclaim(&mut self) -> Result<u64, ReclaimError>
        ensures { Did D.Device.own self.old Reclaim (reclaim_reply result) self.new }
    {
        if let Some(faults) = self.state.read_only {
            return Err(ReclaimError::ReadOnly { faults });
        }
        if self.state.jobs.loose.is_empty() {
            return Ok(0);
        }
        let Ok((kept, free)) = self.state.part_files(self.alloc) else {
            return Err(ReclaimError::Memory);
        };
        if free.is_empty() {
            return Ok(0);
        }
        let Ok((list, text)) = self.state.list_without(self.alloc, kept.as_slice()) else {
            return Err(ReclaimError::Memory);
        };
        let Ok(()) = commit_without(&mut self.disk, free.as_slice(), &text) else {
            self.stop_writing();
            return Err(ReclaimError::Fault);
        };
        self.state.list = list;
        self.state.jobs.keep_loose(kept.as_slice());
        Ok(free.len() as u64)
    }
}

impl CoreState {
    // The loose files that pins name, and the others.
    fn part_files(&self, alloc: Global) -> Result<(Vec<u32>, Vec<u32>), Memory>
        ensures { IfOk result (λ parts.
            IsParted self.now.pins.items self.now.jobs.loose.items parts.0.items parts.1.items) }
    {
        let mut pinned = pinned_files(alloc, self.pins.as_slice())?;
        pinned.sort_unstable();
        let loose = self.jobs.loose.as_slice();
        let rising = pinned.as_slice();
        let kept = files_inside(alloc, loose, rising)?;
        let free = files_outside(alloc, loose, rising)?;
        Ok((kept, free))
    }

    // The list after this one that names these loose files and those of open jobs, and its text.
    fn list_without(&self, alloc: Global, kept: &[u32]) -> Result<(ListBody, PreparedList), Memory>
        ensures list { IfOk result
            (λ next. IsEdited self.now.list (kept_edit self.now.jobs kept.now) next.0) }
        ensures text { IfOk result (λ next. MeetsRules next.0 → IsListText next.1 next.0) }
        ensures short { IfOk result (λ next. 1 + length next.1.text < 2 ^ 63) }
    {
        let room = ListRoom::after(alloc, &self.list, kept.len())?;
        let edit = ListEdit {
            next_file: self.jobs.next_file,
            loose: kept,
            joined: &[],
            block: None,
            segment: None,
            flush: self.jobs.flush_files(),
            compaction: self.jobs.compact_file(),
        };
        let list = edited(&self.list, edit, room);
        let text = prepare_any(alloc, &list)?;
        Ok((list, text))
    }
}

// Those of the files that are among the rising ones.
fn files_inside(alloc: Global, files: &[u32], rising: &[u32]) -> Result<Vec<u32>, Memory>
    requires { IsNonDecreasing rising.now }
    ensures { IfOk result
        (λ kept. kept.items ≡ filter (λ file. is_among file rising.now) files.now) }
{
    let mut kept = Vec::new(alloc);
    kept.extend_from_slice(files)?;
    kept.retain(|file| is_in(*file, rising));
    Ok(kept)
}

// Those of the files that aren't among the rising ones.
fn files_outside(alloc: Global, files: &[u32], rising: &[u32]) -> Result<Vec<u32>, Memory>
    requires { IsNonDecreasing rising.now }
    ensures { IfOk result
        (λ kept. kept.items ≡ filter (λ file. not (is_among file rising.now)) files.now) }
{
    let mut kept = Vec::new(alloc);
    kept.extend_from_slice(files)?;
    kept.retain(|file| !is_in(*file, rising));
    Ok(kept)
}

// Whether the file is one of these, which rise.
fn is_in(file: u32, rising: &[u32]) -> bool
    ensures { IsNonDecreasing rising.now → result ≡ is_among file rising.now }
{
    rising.binary_search(&file).is_ok()
}
