//! What jobs left in files that the list doesn't name, when they failed or the program was killed, is freed.

ghost use Rattle.std.specs.Prelude.{◌≡◌, ◌<◌, ◌≤◌, ◌+◌, ℕ, List, [], Some, IsTrue, IfOk, OnOk, IsOk, IsErr};
ghost use Rattle.disk_model.specs.Calls.{Counts};
ghost use Rattle.disk_model.specs.Images.{bytes_of};
ghost use Rattle.disk_model.specs.Crash.{OnlyBytes, Run, Untouched};
ghost use Rattle.block_list.specs.Body.{MeetsRules};
ghost use Rattle.block_list.specs.Loading.{IsReady};
ghost use Rattle.block_list.specs.declared.body.ListBody.{ListBody};
ghost use Rattle.store_images.specs.Stored.{KeepsStored};
ghost use Rattle.store_files.specs.Loose.{AreFreed, OthersStay};

use disk_model::{Device, cut_through};
use span_types::Failed;

/// So many empty files in a row end the search.
///
/// File numbers are given out one after another. Since the list was committed each flush got two of them, the second for a
/// segment, which isn't empty, and each compaction one, whether the job is open or was given up. So what they wrote is found,
/// unless no list was committed since and eight of these files in a row are empty: after seven compactions that were given up
/// before they wrote a byte, or a `reclaim` that was stopped after it emptied what jobs had given up. What stands after these
/// files then stays there: its room is lost, and nothing else.
const EMPTY_IN_A_ROW: u32 = 8;

/// Empties the files from this number on, which is the next one of the list that counts or a later one, up to the first
/// that eight empty ones follow, and makes that last. They go from the last one down, so that an opening which is cut off
/// leaves no gap in front of what is left.
pub(crate) fn empty_left<D: Device>(disk: &mut D, first: u32) -> Result<(), Failed>
    requires given { 2 ≤ first }
    ensures kept { IsTrue (D.tells disk.old) → (body : ListBody) →
        IsReady (D.held disk.old) (D.may_leave disk.old) (Some body) → body.next_file ≤ first →
        Run KeepsStored D.moment D.left_since D.may_leave disk.old disk.new }
    ensures ready { IsTrue (D.tells disk.old) → (body : ListBody) →
        IsReady (D.held disk.old) (D.may_leave disk.old) (Some body) → body.next_file ≤ first →
        IsReady (D.held disk.new) (D.may_leave disk.new) (Some body) }
    ensures freed { IsTrue (D.tells disk.old)
        → OnOk result (AreFreed (D.held disk.old) first (D.may_leave disk.new)) }
    ensures others { IsTrue (D.tells disk.old) → OthersStay (λ file. first ≤ file)
        (D.held disk.old) (D.held disk.new) (D.may_leave disk.old) (D.may_leave disk.new) }
    ensures counted { Counts D.Device.own 0 (IsOk result) (IsErr result) disk.old disk.new }
{
    let end = end_of_left(disk, first)?;
    for file in (first..end).rev() {
        cut_through(disk, file, 0)?;
    }
    Ok(())
}

// The first number from that one on that eight empty files follow, or the last that a job may get.
fn end_of_left<D: Device>(disk: &mut D, first: u32) -> Result<u32, Failed>
    ensures from { IfOk result (λ end. first ≤ end) }
    ensures empty { IsTrue (D.tells disk.old)
        → IfOk result (λ end. (file : ℕ) → end ≤ file → file < end + 8 →
        file < 4294967295 → OnlyBytes file [] (D.may_leave disk.new)) }
    ensures untouched { Untouched D.tells D.held D.may_leave D.moment D.left_since disk.old disk.new }
    ensures counted { Counts D.Device.own 0 (IsOk result) (IsErr result) disk.old disk.new }
{
    let mut end = first;
    for file in first..u32::MAX {
        if file - end == EMPTY_IN_A_ROW {
            return Ok(end);
        }
        disk.sync(file)?;
        if disk.len(file)? > 0 {
            end = file + 1;
        }
    }
    Ok(end)
}
