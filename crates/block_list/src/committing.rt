//! A commit: a list's bytes are put into the slot of its generation, and its gate is opened. No memory is taken.

ghost use Rattle.std.specs.Prelude.{◌≡◌, ◌+◌, Option, Some, IsTrue, OnOk, length};
ghost use Rattle.disk_model.specs.Images.{Image, bytes_of, Besides};
ghost use Rattle.disk_model.specs.Calls.{Calls};
ghost use Rattle.disk_model.specs.Crash.{OnlyBytes, Run};
ghost use Rattle.block_list.specs.Slots.{ImageHoldsList, IsNext};
ghost use Rattle.block_list.specs.Commit.{slot_of, laid, IsListText, CanLay, CanOpen, ImageHoldsEither, WritesSlot};
ghost use Rattle.block_list.specs.Loading.{IsReady};
ghost use Rattle.block_list.specs.declared.body.ListBody.{ListBody};

use crate::PreparedList;
use disk_model::{Device, write_through};
use span_types::Failed;

/// The first half of a commit: a closed gate is put into the slot of the list's generation, and once that lasts the
/// list is put after it. It takes no memory. Where the list may be laid, the slots stand at every moment for the list
/// that counted before.
pub fn lay<D: Device>(disk: &mut D, list: &PreparedList) -> Result<(), Failed>
    // A crash at any moment leaves the old list, and every file but this slot as it might have left it before.
    ensures any_moment { IsTrue (D.tells disk.old)
        → CanLay (D.held disk.old) (D.may_leave disk.old) list.now
        → (old : Option ListBody) → ImageHoldsList (D.held disk.old) old
        → IsNext list.now.generation old
        → Run (WritesSlot (slot_of list.now) (λ image. ImageHoldsList image old))
        D.moment D.left_since D.may_leave disk.old disk.new }
    ensures in_place { IsTrue (D.tells disk.old) → OnOk result (OnlyBytes (slot_of list.now)
        (laid list.now.text (bytes_of (D.held disk.old) (slot_of list.now)))
        (D.may_leave disk.new)) }
    ensures besides { IsTrue (D.tells disk.old)
        → Besides (slot_of list.now) (D.held disk.old) (D.held disk.new) }

    ensures counted { Calls D.Device.own 4 (1 + length list.now.text) disk.old disk.new result }
{
    let slot = list.slot();
    write_through(disk, slot, 0, &[0])?;
    write_through(disk, slot, 1, list.text())
}

/// The second half of a commit: the gate of a list that was laid is opened, and made to last. It takes no memory.
/// Where that gate may be opened, the slots stand at every moment for the list that counted before or for this one,
/// and at `Ok` for this one.
pub fn open_gate<D: Device>(disk: &mut D, list: &PreparedList) -> Result<(), Failed>
    // A crash at any moment leaves the old list or the new one, and every file but this slot as it might have left it
    // before.
    ensures any_moment { IsTrue (D.tells disk.old)
        → CanOpen (D.held disk.old) (D.may_leave disk.old) list.now
        → (old : Option ListBody) (new : ListBody)
        → ImageHoldsList (D.held disk.old) old → IsNext list.now.generation old
        → IsListText list.now new
        → Run (WritesSlot (slot_of list.now) (ImageHoldsEither old new))
        D.moment D.left_since D.may_leave disk.old disk.new }

    // At `Ok` every image stands for the new list, and each slot has one image, which is what a read gives.
    ensures counts { IsTrue (D.tells disk.old)
        → CanOpen (D.held disk.old) (D.may_leave disk.old) list.now
        → (new : ListBody) → IsListText list.now new
        → OnOk result ((image : Image) → D.may_leave disk.new image
        → ImageHoldsList image (Some new)) }
    ensures slot_0 { IsTrue (D.tells disk.old)
        → CanOpen (D.held disk.old) (D.may_leave disk.old) list.now
        → OnOk result (OnlyBytes 0 (bytes_of (D.held disk.new) 0) (D.may_leave disk.new)) }
    ensures slot_1 { IsTrue (D.tells disk.old)
        → CanOpen (D.held disk.old) (D.may_leave disk.old) list.now
        → OnOk result (OnlyBytes 1 (bytes_of (D.held disk.new) 1) (D.may_leave disk.new)) }
    ensures besides { IsTrue (D.tells disk.old)
        → Besides (slot_of list.now) (D.held disk.old) (D.held disk.new) }

    ensures counted { Calls D.Device.own 2 1 disk.old disk.new result }
{
    write_through(disk, list.slot(), 0, &[1])
}

/// Writes a list into the slot of its generation: it is laid, and its gate is opened. It takes no memory. Where the
/// list may be laid, the slots stand at every moment for the list that counted before or for this one, and at `Ok` for
/// this one.
pub fn commit<D: Device>(disk: &mut D, list: &PreparedList) -> Result<(), Failed>
    // A crash at any moment leaves the old list or the new one, and every file but this slot as it might have left it
    // before.
    ensures any_moment { IsTrue (D.tells disk.old)
        → CanLay (D.held disk.old) (D.may_leave disk.old) list.now
        → (old : Option ListBody) (new : ListBody)
        → ImageHoldsList (D.held disk.old) old → IsNext list.now.generation old
        → IsListText list.now new
        → Run (WritesSlot (slot_of list.now) (ImageHoldsEither old new))
        D.moment D.left_since D.may_leave disk.old disk.new }

    // At `Ok` every image stands for the new list, and each slot has one image, which is what a read gives.
    ensures counts { IsTrue (D.tells disk.old)
        → CanLay (D.held disk.old) (D.may_leave disk.old) list.now
        → (new : ListBody) → IsListText list.now new
        → OnOk result ((image : Image) → D.may_leave disk.new image
        → ImageHoldsList image (Some new)) }
    ensures slot_0 { IsTrue (D.tells disk.old)
        → CanLay (D.held disk.old) (D.may_leave disk.old) list.now
        → OnOk result (OnlyBytes 0 (bytes_of (D.held disk.new) 0) (D.may_leave disk.new)) }
    ensures slot_1 { IsTrue (D.tells disk.old)
        → CanLay (D.held disk.old) (D.may_leave disk.old) list.now
        → OnOk result (OnlyBytes 1 (bytes_of (D.held disk.new) 1) (D.may_leave disk.new)) }
    // After a load, or another commit, the next list may then be laid.
    ensures ready { IsTrue (D.tells disk.old)
        → CanLay (D.held disk.old) (D.may_leave disk.old) list.now
        → (old : Option ListBody) (new : ListBody)
        → IsReady (D.held disk.old) (D.may_leave disk.old) old → IsListText list.now new
        → OnOk result (IsReady (D.held disk.new) (D.may_leave disk.new) (Some new)) }
    ensures besides { IsTrue (D.tells disk.old)
        → Besides (slot_of list.now) (D.held disk.old) (D.held disk.new) }

    ensures counted { Calls D.Device.own 6 (1 + length list.now.text) disk.old disk.new result }
{
    lay(disk, list)?;
    open_gate(disk, list)
}
