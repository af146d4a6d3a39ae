//! The files of a flush that begins are made.

ghost use Rattle.std.specs.Prelude.{◌≡◌, ◌≢◌, ◌≤◌, ℕ, [], IsTrue, OnOk};
ghost use Rattle.disk_model.specs.Images.{bytes_of};
ghost use Rattle.disk_model.specs.Calls.{Calls};
ghost use Rattle.disk_model.specs.Crash.{OnlyBytes, Run};
ghost use Rattle.head_log.specs.Stands.{SegmentHolds};
ghost use Rattle.store_files.specs.Files.{SameBelow, IsEmptied};

use disk_model::{Device, cut_through};
use head_log::create;
use span_types::Failed;
use store_state::FlushFiles;

/// Empties the file of a block, and makes a segment without records in another file. Both last before `Ok` is answered.
pub fn make_files<D: Device>(disk: &mut D, files: FlushFiles) -> Result<(), Failed>
    requires { files.block ≢ files.segment }
    // Whenever a crash comes, each file below the two is as it was.
    ensures any_moment { (limit : ℕ) → limit ≤ files.block → limit ≤ files.segment →
        Run (SameBelow limit) D.moment D.left_since D.may_leave disk.old disk.new }
    ensures others { IsTrue (D.tells disk.old) → (file : ℕ) → file ≢ files.block
        → file ≢ files.segment →
        bytes_of (D.held disk.new) file ≡ bytes_of (D.held disk.old) file }
    ensures empty { IsTrue (D.tells disk.old)
        → OnOk result (IsEmptied (D.held disk.new) (D.may_leave disk.new) files.block) }
    // The segment's first record may have any number.
    ensures segment { IsTrue (D.tells disk.old)
        → OnOk result (((first : ℕ)
        → SegmentHolds first [] 1 (bytes_of (D.held disk.new) files.segment))
        × OnlyBytes files.segment (bytes_of (D.held disk.new) files.segment)
        (D.may_leave disk.new)) }
    ensures counted { Calls D.Device.own 5 2 disk.old disk.new result }
{
    cut_through(disk, files.block, 0)?;
    create(disk, files.segment)
}
