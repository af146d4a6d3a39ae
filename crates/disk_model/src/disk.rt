//! Disks of numbered files: what they hold, and what a crash may leave.

ghost use Rattle.std.specs.Prelude.{◌≡◌, ◌<◌, ◌≤◌, ◌+◌, ◌-◌, ◌^◌, ◌++◌, ℕ, Bool, List, length, take, drop, min, IsTrue, IfOk, OnOk};
ghost use Rattle.disk_model.specs.Images.{Image, bytes_of, Besides, SameBytes, OnFile};
ghost use Rattle.disk_model.specs.Bytes.{overwritten, Torn, HalfCut};
ghost use Rattle.disk_model.specs.Counts.{Plain, Reading, Writing, IsOneCall};
ghost use Rattle.disk_model.specs.Crash.{Follows, Within, OnlyBytes, Elapses};

use span_types::Failed;

/// A disk whose files have numbers for names, as code in one thread sees it. Each number has a file, which is empty to
/// begin with.
///
/// Calls, reads and failed calls are counted, up to the last number that the count's type holds.
///
/// Code that a shared store calls is generic over this trait, and not over [`Disk`]: in a method of an `impl` that is
/// generic in `D: Disk`, a call of a function that asks for `D: Disk` gets no proof, since the promise that it may go
/// to another thread would have to be handed on.
pub trait Device: Drop {
    /// Whether the contracts speak of the bytes that it holds: of a disk either always or never.
    ghost tells: { Self → Bool };

    /// The bytes that it holds, as a read gives them.
    ghost held: { Self → Image };

    /// The images that a crash at this moment may leave.
    ghost may_leave: { Self → Image → Type 0 };

    /// The moment, as a number that no call lowers.
    ghost moment: { Self → ℕ };

    /// The images that a crash may have left at any moment from that one on. Moments inside of a call count.
    ghost left_since: { Self → ℕ → Image → Type 0 };

    /// How many calls have failed.
    ghost faults: { Self → ℕ };

    /// How many calls of `read` were made.
    ghost reads: { Self → ℕ };

    /// How many calls of the device were made: of `len`, `read`, `write`, `cut` and `sync`.
    ghost calls: { Self → ℕ };

    /// How many writes were asked for whose end is 2^63 or more. Such a write always fails.
    ghost far_writes: { Self → ℕ };

    /// The length of a file, in bytes.
    fn len(&mut self, file: u32) -> Result<u64, Failed>
        ensures length { IsTrue (tells self.old)
            → IfOk result (λ len. len ≡ length (bytes_of (held self.old) file)) }
        ensures same_bytes { IsTrue (tells self.old) → SameBytes (held self.old) (held self.new) }
        ensures crash { Within (may_leave self.old) (may_leave self.new) }
        ensures time { Elapses (moment self.old) (moment self.new) (left_since self.old)
            (left_since self.new) (may_leave self.new) }
        ensures counted { IsOneCall tells faults calls reads far_writes Plain self.old self.new result };

    /// Fills the buffer from a file, from the byte `at` on, and answers how many bytes it read: those up to the
    /// buffer's end or the file's, and none past the file's end. What an `Err` leaves in the buffer is open.
    fn read(&mut self, file: u32, at: u64, buf: &mut [u8]) -> Result<usize, Failed>
        ensures count { IsTrue (tells self.old)
            → IfOk result (λ count.
            count ≡ min (length buf.old) (length (bytes_of (held self.old) file) - at)) }
        ensures bytes { IsTrue (tells self.old)
            → IfOk result (λ count.
            buf.new ≡ take count (drop at (bytes_of (held self.old) file)) ++ drop count buf.old) }
        ensures fits { IfOk result (λ count. count ≤ length buf.old) }
        ensures same_bytes { IsTrue (tells self.old) → SameBytes (held self.old) (held self.new) }
        ensures crash { Within (may_leave self.old) (may_leave self.new) }
        ensures time { Elapses (moment self.old) (moment self.new) (left_since self.old)
            (left_since self.new) (may_leave self.new) }
        ensures counted { IsOneCall tells faults calls reads far_writes Reading self.old self.new result };

    /// Writes the bytes into a file, from the byte `at` on. Places between the old end and `at` become zeros; to write
    /// no bytes changes nothing. No file is let grow to 2^63 bytes: such a write fails, and the disk is as before.
    /// Until a sync of the file, a crash may leave any bytes in the range, also where the call failed.
    fn write(&mut self, file: u32, at: u64, bytes: &[u8]) -> Result<(), Failed>
        ensures written { IsTrue (tells self.old)
            → OnOk result (bytes_of (held self.new) file
            ≡ overwritten (bytes_of (held self.old) file) at bytes.now) }
        ensures near { OnOk result (at + length bytes.now < 2 ^ 63) }
        ensures far_bytes { IsTrue (tells self.old) → 2 ^ 63 ≤ at + length bytes.now
            → SameBytes (held self.old) (held self.new) }
        ensures far_crash { 2 ^ 63 ≤ at + length bytes.now
            → Within (may_leave self.old) (may_leave self.new) }
        ensures besides { IsTrue (tells self.old) → Besides file (held self.old) (held self.new) }
        ensures crash { Follows (OnFile file (Torn at (length bytes.now))) (may_leave self.old)
            (may_leave self.new) }
        ensures time { Elapses (moment self.old) (moment self.new) (left_since self.old)
            (left_since self.new) (may_leave self.new) }
        ensures counted { IsOneCall tells faults calls reads far_writes
            (Writing (at + length bytes.now)) self.old self.new result };

    /// Drops what a file has from the byte `len` on, which may be nothing. Until a sync of the file, a crash may leave
    /// any length between the two and any bytes past `len`, also where the call failed.
    fn cut(&mut self, file: u32, len: u64) -> Result<(), Failed>
        ensures shortened { IsTrue (tells self.old)
            → OnOk result (bytes_of (held self.new) file
            ≡ take len (bytes_of (held self.old) file)) }
        ensures besides { IsTrue (tells self.old) → Besides file (held self.old) (held self.new) }
        ensures crash { Follows (OnFile file (HalfCut len)) (may_leave self.old)
            (may_leave self.new) }
        ensures time { Elapses (moment self.old) (moment self.new) (left_since self.old)
            (left_since self.new) (may_leave self.new) }
        ensures counted { IsOneCall tells faults calls reads far_writes Plain self.old self.new result };

    /// Makes what a file holds last: after an `Ok` a crash can leave nothing else of it, and after an `Err` whatever it
    /// could leave before.
    fn sync(&mut self, file: u32) -> Result<(), Failed>
        ensures lasting { IsTrue (tells self.old)
            → OnOk result (OnlyBytes file (bytes_of (held self.new) file) (may_leave self.new)) }
        ensures same_bytes { IsTrue (tells self.old) → SameBytes (held self.old) (held self.new) }
        ensures crash { Within (may_leave self.old) (may_leave self.new) }
        ensures time { Elapses (moment self.old) (moment self.new) (left_since self.old)
            (left_since self.new) (may_leave self.new) }
        ensures counted { IsOneCall tells faults calls reads far_writes Plain self.old self.new result };

    /// The count of failed calls, which is at hand: the device isn't asked for it.
    fn faults(&self) -> u64
        ensures { result ≡ faults self.now };

    /// A file is shorter than 2^63 bytes. This does nothing, and the device isn't asked: its contract is what it is
    /// for.
    fn is_short(&self, file: u32)
        ensures { IsTrue (tells self.now) → length (bytes_of (held self.now) file) < 2 ^ 63 };

    /// This moment is one of those since an earlier one.
    ghost counts_now: { (disk : Self) (start : ℕ) (image : Image) → start ≤ moment disk → may_leave disk image → left_since disk start image };

    /// Since this moment there is no other.
    ghost only_now: { (disk : Self) (image : Image) → left_since disk (moment disk) image → may_leave disk image };

    /// A crash may leave what the disk holds.
    ghost held_may_stay: { (disk : Self) → IsTrue (tells disk) → may_leave disk (held disk) };
}

/// A [`Device`] that may go from thread to thread. Every device that may is one.
pub trait Disk: Device + Send {}

impl<D: Device + Send> Disk for D {}
