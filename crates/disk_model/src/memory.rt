//! A disk in memory, for tests and for what must not touch a folder.

ghost use Rattle.std.specs.Prelude.{◌≡◌, ◌≢◌, ◌<◌, ◌≤◌, ◌+◌, ◌-◌, ◌^◌, ◌++◌, [], length, take, drop, min, ℕ, Result, IsOk, IsErr, IsTrue, IfOk, OnOk, OnErr, ◌↔◌};
ghost use Rattle.disk_model.specs.Script.{raised};
ghost use Rattle.disk_model.specs.declared.change.Change.TheVariants.{Write, LostWrite, Cut, LostCut, Sync};
ghost use Rattle.disk_model.specs.declared.script.Fate.TheVariants.{Passes};

use crate::Device;
use crate::change::Change;
use crate::history::History;
use crate::script::{Fate, Script};
use span_types::{Calls, Failed, Memory};
use std::alloc::Global;

/// A disk in memory. It keeps of each file what it held when it was last synced, what it holds now and the changes
/// since, and a record of all changes; so every image that a crash may leave can be made of it.
///
/// A call fails exactly where it is listed or stopped, where a write's end is 2^63 or more, and where a growth of its
/// own is refused.
#[derive(Drop)]
pub struct MemDisk {
    history: History,
    script: Script,
    faults: u64,
    starved: u64,
    reads: u64,
    calls: u64,
    far_writes: u64,
}

impl MemDisk {
    ghost use Rattle.disk_model.specs.Memory.{fresh, listing, stopping, starved_of, reads_of, calls_of, far_writes_of, past_of, next_fate, passed, refused, read_once, noted, CountsFit, Answer, Outcome};
    ghost use Rattle.disk_model.specs.Images.{bytes_of};
    ghost use Rattle.disk_model.specs.Files.{settled};
    ghost use Rattle.disk_model.specs.History.{MayLeave, state_of, files_now, held_now};
    ghost use Rattle.disk_model.specs.Picks.{picked};

    /// A disk without files.
    pub fn empty(alloc: Global) -> MemDisk
        ensures { result ≡ fresh [] }
    {
        MemDisk {
            history: History::empty(alloc),
            script: Script::clear(alloc),
            faults: 0,
            starved: 0,
            reads: 0,
            calls: 0,
            far_writes: 0,
        }
    }

    /// Lets these calls fail, counted from 1 from now on. What such a call would change is pending.
    pub fn fail_at(&mut self, calls: Calls)
        ensures { self.new ≡ listing calls self.old }
    {
        self.script.listed = calls;
        self.script.made = 0;
    }

    /// Lets every call fail after that many. Such a call changes nothing and leaves nothing pending.
    pub fn stop_after(&mut self, calls: u64)
        ensures { self.new ≡ stopping calls self.old }
    {
        self.script.left = Some(calls);
    }

    /// How many calls failed because a growth was refused. They changed nothing and left nothing pending.
    pub fn starved(&self) -> u64
        ensures { result ≡ starved_of self.now }
    {
        self.starved
    }

    /// One of the images that a crash may leave now, as a disk that holds just that, with nothing pending and no call
    /// that is to fail. Pick 0 gives what was last synced, 1 what is held, 2 the greatest length of each file with 1
    /// in each byte that a crash leaves open, 3 the least length with 0 there, and each other pick a mixture that its
    /// number determines.
    pub fn image(&self, pick: u64) -> Result<MemDisk, Memory>
        ensures fresh { IfOk result (λ other. other ≡ fresh (past_of other).first) }
        ensures nothing_pending { IfOk result (λ other. (file : ℕ)
            → state_of (files_now (past_of other)) file
            ≡ settled (bytes_of (held_now (past_of other)) file)) }
        ensures one_of_them { IfOk result
            (λ other. MayLeave (past_of self.now) (held_now (past_of other))) }
        ensures picked { IfOk result (λ other. (file : ℕ)
            → bytes_of (held_now (past_of other)) file
            ≡ picked pick file (state_of (files_now (past_of self.now)) file)) }
    {
        Ok(MemDisk {
            history: self.history.image(pick)?,
            script: Script::clear(self.history.alloc()),
            faults: 0,
            starved: 0,
            reads: 0,
            calls: 0,
            far_writes: 0,
        })
    }

    /// How many calls of `read` were made.
    pub fn reads(&self) -> u64
        ensures { result ≡ reads_of self.now }
    {
        self.reads
    }

    /// How many calls of the device were made.
    pub fn calls(&self) -> u64
        ensures { result ≡ calls_of self.now }
    {
        self.calls
    }

    /// How many writes were asked for whose end is 2^63 or more.
    pub fn far_writes(&self) -> u64
        ensures { result ≡ far_writes_of self.now }
    {
        self.far_writes
    }

    /// The length of a file. It fails exactly where it is listed or stopped.
    pub fn len(&mut self, file: u32) -> Result<u64, Failed>
        ensures length { IfOk result
            (λ len. len ≡ length (bytes_of (held_now (past_of self.old)) file)) }
        ensures answer { Answer self.old (λ disk. disk) result self.new }
    {
        match self.next_fate() {
            Fate::Passes => Ok(self.history.bytes(file).len() as u64),
            _ => self.fail(),
        }
    }

    /// Reads a file into the buffer. It fails exactly where it is listed or stopped, and leaves the buffer then.
    pub fn read(&mut self, file: u32, at: u64, buf: &mut [u8]) -> Result<usize, Failed>
        ensures count { IfOk result
            (λ count. count ≡ min (length buf.old)
            (length (bytes_of (held_now (past_of self.old)) file) - at)) }
        ensures bytes { IfOk result
            (λ count. buf.new ≡ take count (drop at (bytes_of (held_now (past_of self.old)) file))
            ++ drop count buf.old) }
        ensures answer { Answer self.old read_once result self.new }
        ensures left_alone { OnErr result (buf.new ≡ buf.old) }
    {
        self.reads = self.reads.saturating_add(1);
        match self.next_fate() {
            Fate::Passes => Ok(copy_from(self.history.bytes(file), at, buf)),
            _ => self.fail(),
        }
    }

    /// Writes into a file. It fails exactly where it is listed or stopped, ends at 2^63 or more, or memory runs out.
    pub fn write(&mut self, file: u32, at: u64, bytes: &[u8]) -> Result<(), Failed>
        ensures near { at + length bytes.now < 2 ^ 63
            → Outcome self.old (noted (Write file at bytes.now))
            (noted (LostWrite file at (length bytes.now))) result self.new }
        ensures far { 2 ^ 63 ≤ at + length bytes.now
            → IsErr result × (self.new ≡ refused self.old) }
    {
        if ends_below(at, bytes.len()) {
            return self.write_near(file, at, bytes);
        }
        self.far_writes = self.far_writes.saturating_add(1);
        self.next_fate();
        self.fail()
    }

    /// Cuts a file. It fails exactly where it is listed or stopped, or memory runs out.
    pub fn cut(&mut self, file: u32, len: u64) -> Result<(), Failed>
        ensures outcome { Outcome self.old (noted (Cut file len))
            (noted (LostCut file len)) result self.new }
    {
        match self.next_fate() {
            Fate::Stopped => self.fail(),
            Fate::Listed => match self.history.add(Change::LostCut { file, len }) {
                Ok(()) => self.fail(),
                Err(_) => self.starve(),
            },
            Fate::Passes => match self.history.add(Change::Cut { file, len }) {
                Ok(()) => Ok(()),
                Err(_) => self.starve(),
            },
        }
    }

    /// Syncs a file. It fails exactly where it is listed or stopped, or memory runs out; then it changes nothing.
    pub fn sync(&mut self, file: u32) -> Result<(), Failed>
        ensures outcome { Outcome self.old (noted (Sync file)) (λ disk. disk) result self.new }
    {
        match self.next_fate() {
            Fate::Stopped | Fate::Listed => self.fail(),
            Fate::Passes => match self.history.add(Change::Sync { file }) {
                Ok(()) => Ok(()),
                Err(_) => self.starve(),
            },
        }
    }

    /// Its counts have 64 bits. This does nothing: its contract is what it is for.
    fn counts_fit(&self)
        ensures { CountsFit self.now }
    {
        let _ = Device::faults(self) | self.reads() | self.calls() | self.far_writes();
    }

    /// Counts a call, and answers what becomes of it.
    fn next_fate(&mut self) -> Fate
        ensures fate { result ≡ next_fate self.old }
        ensures counted { self.new ≡ passed self.old }
    {
        self.calls = self.calls.saturating_add(1);
        self.script.next()
    }

    /// A write whose end is below 2^63.
    fn write_near(&mut self, file: u32, at: u64, bytes: &[u8]) -> Result<(), Failed>
        requires { at + length bytes.now < 2 ^ 63 }
        ensures outcome { Outcome self.old (noted (Write file at bytes.now))
            (noted (LostWrite file at (length bytes.now))) result self.new }
    {
        match self.next_fate() {
            Fate::Stopped => self.fail(),
            Fate::Listed => {
                let len = bytes.len() as u64;
                match self.history.add(Change::LostWrite { file, at, len }) {
                    Ok(()) => self.fail(),
                    Err(_) => self.starve(),
                }
            }
            Fate::Passes => match self.history.write(file, at, bytes) {
                Ok(()) => Ok(()),
                Err(_) => self.starve(),
            },
        }
    }

    /// Counts a fault.
    fn fail<T>(&mut self) -> Result<T, Failed>
        ensures fails { IsErr result }
        ensures after { self.new ≡ record self.old { faults = raised self.old.faults } }
    {
        self.faults = self.faults.saturating_add(1);
        Err(Failed)
    }

    /// Counts a fault for lack of memory.
    fn starve<T>(&mut self) -> Result<T, Failed>
        ensures fails { IsErr result }
        ensures after { self.new
            ≡ record self.old { faults = raised self.old.faults; starved = raised self.old.starved } }
    {
        self.starved = self.starved.saturating_add(1);
        self.fail()
    }
}

impl Device for MemDisk {
    ghost use Rattle.std.specs.Prelude.{true};
    ghost use Rattle.disk_model.specs.History.{held_now, MayLeave, LeftSince};
    ghost use Rattle.disk_model.specs.HistoryLaws.{held_stays, left_now, only_left_now};

    ghost tells = { λ disk. true };

    ghost held = { λ disk. held_now disk.history };

    ghost may_leave = { λ disk. MayLeave disk.history };

    ghost moment = { λ disk. length disk.history.changes };

    ghost left_since = { λ disk. LeftSince disk.history };

    ghost faults = { λ disk. disk.faults };

    ghost reads = { λ disk. disk.reads };

    ghost calls = { λ disk. disk.calls };

    ghost far_writes = { λ disk. disk.far_writes };

    ghost counts_now = { λ disk start image earlier left. left_now disk.history start image earlier left };

    ghost only_now = { λ disk image left. only_left_now disk.history image left };

    ghost held_may_stay = { λ disk told. held_stays disk.history };

    fn len(&mut self, file: u32) -> Result<u64, Failed> {
        self.counts_fit();
        MemDisk::len(self, file)
    }

    fn read(&mut self, file: u32, at: u64, buf: &mut [u8]) -> Result<usize, Failed> {
        self.counts_fit();
        MemDisk::read(self, file, at, buf)
    }

    fn write(&mut self, file: u32, at: u64, bytes: &[u8]) -> Result<(), Failed> {
        self.counts_fit();
        MemDisk::write(self, file, at, bytes)
    }

    fn cut(&mut self, file: u32, len: u64) -> Result<(), Failed> {
        self.counts_fit();
        MemDisk::cut(self, file, len)
    }

    fn sync(&mut self, file: u32) -> Result<(), Failed> {
        self.counts_fit();
        MemDisk::sync(self, file)
    }

    fn faults(&self) -> u64 {
        self.faults
    }

    fn is_short(&self, file: u32) {
        self.history.bytes(file);
    }
}

/// Whether a write of that many bytes ends below 2^63.
pub fn ends_below(at: u64, len: usize) -> bool
    ensures { IsTrue result ↔ (at + len < 2 ^ 63) }
{
    match at.checked_add(len as u64) {
        Some(end) => end < 1 << 63,
        None => false,
    }
}

/// Copies bytes from the byte `at` on into a buffer, up to its end or theirs, and answers how many.
fn copy_from(bytes: &[u8], at: u64, buf: &mut [u8]) -> usize
    ensures count { result ≡ min (length buf.old) (length bytes.now - at) }
    ensures filled { buf.new ≡ take result (drop at bytes.now) ++ drop result buf.old }
{
    let from = (at as usize).min(bytes.len());
    let rest = &bytes[from..];
    let count = rest.len().min(buf.len());
    buf[..count].copy_from_slice(&rest[..count]);
    count
}
