//! One change of a file that lasts: a write or a cut, and then a sync.

ghost use Rattle.std.specs.Prelude.{◌≡◌, ◌<◌, ◌+◌, ◌^◌, ℕ, List, length, take, IsTrue, OnOk};
ghost use Rattle.disk_model.specs.Images.{bytes_of, Besides, OnFile};
ghost use Rattle.disk_model.specs.Bytes.{overwritten, Torn, HalfCut};
ghost use Rattle.disk_model.specs.Calls.{Calls};
ghost use Rattle.disk_model.specs.Crash.{Follows, Reached, OnlyBytes, LeavesOnly, RunInFile};

use crate::Device;
use span_types::Failed;

/// Writes the bytes into a file, from the byte `at` on, and syncs the file. At `Ok` the bytes last.
pub fn write_through<D: Device>(
    disk: &mut D,
    file: u32,
    at: u64,
    bytes: &[u8],
) -> Result<(), Failed>
    ensures written { IsTrue (D.tells disk.old)
        → OnOk result (bytes_of (D.held disk.new) file
        ≡ overwritten (bytes_of (D.held disk.old) file) at bytes.now) }
    ensures lasting { IsTrue (D.tells disk.old)
        → OnOk result (OnlyBytes file (bytes_of (D.held disk.new) file) (D.may_leave disk.new)) }
    ensures near { OnOk result (at + length bytes.now < 2 ^ 63) }
    ensures besides { IsTrue (D.tells disk.old) → Besides file (D.held disk.old) (D.held disk.new) }

    // What a crash leaves at any moment of the call, and after it.
    ensures any_moment { LeavesOnly D.moment D.left_since disk.old disk.new
        (Reached (OnFile file (Torn at (length bytes.now))) (D.may_leave disk.old)) }
    ensures crash { Follows (OnFile file (Torn at (length bytes.now))) (D.may_leave disk.old)
        (D.may_leave disk.new) }

    // The same, where it is known what the file's bytes are in each image.
    ensures passes { (known : List ℕ) → OnlyBytes file known (D.may_leave disk.old)
        → RunInFile D.moment D.left_since D.may_leave file (Torn at (length bytes.now) known)
        (Torn at (length bytes.now) known) disk.old disk.new }

    ensures counted { Calls D.Device.own 2 (at + length bytes.now) disk.old disk.new result }
{
    disk.write(file, at, bytes)?;
    disk.sync(file)
}

/// Cuts a file to a length, and syncs the file. At `Ok` the cut lasts.
pub fn cut_through<D: Device>(disk: &mut D, file: u32, len: u64) -> Result<(), Failed>
    ensures shortened { IsTrue (D.tells disk.old)
        → OnOk result (bytes_of (D.held disk.new) file
        ≡ take len (bytes_of (D.held disk.old) file)) }
    ensures lasting { IsTrue (D.tells disk.old)
        → OnOk result (OnlyBytes file (bytes_of (D.held disk.new) file) (D.may_leave disk.new)) }
    ensures besides { IsTrue (D.tells disk.old) → Besides file (D.held disk.old) (D.held disk.new) }

    // What a crash leaves at any moment of the call, and after it.
    ensures any_moment { LeavesOnly D.moment D.left_since disk.old disk.new
        (Reached (OnFile file (HalfCut len)) (D.may_leave disk.old)) }
    ensures crash { Follows (OnFile file (HalfCut len)) (D.may_leave disk.old)
        (D.may_leave disk.new) }

    // The same, where it is known what the file's bytes are in each image.
    ensures passes { (known : List ℕ) → OnlyBytes file known (D.may_leave disk.old)
        → RunInFile D.moment D.left_since D.may_leave file (HalfCut len known)
        (HalfCut len known) disk.old disk.new }

    ensures counted { Calls D.Device.own 2 0 disk.old disk.new result }
{
    disk.cut(file, len)?;
    disk.sync(file)
}
