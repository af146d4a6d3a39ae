//! A disk in a folder, with its counts.

ghost use Rattle.std.specs.Prelude.{◌≡◌, ◌<◌, ◌≤◌, ◌+◌, ◌^◌, Ok, IsErr, length, IfOk, OnErr};
ghost use Rattle.disk_model.specs.Counts.{Raised, Plain};
ghost use Rattle.folder_disk.specs.Folder.{calls_of, faults_of, reads_of, far_writes_of, folder_of, CountsOne};

use crate::files::ends_in_file;
use crate::folder::Folder;
use crate::system::System;
use disk_model::{Device, Disk};
use span_types::Failed;
use std::alloc::Global;
use std::io;

/// A disk whose files lie in one folder of the system: file n is `n.dat`, and a file that is missing is empty.
///
/// It tells nothing of its bytes: what a folder holds, and what a crash leaves of it, is the system's. A call fails where
/// the system's calls fail, where another program has the folder, or where memory runs out.
#[derive(Drop)]
pub struct FolderDisk<R: System> {
    folder: Folder<R>,
    faults: u64,
    reads: u64,
    calls: u64,
    far_writes: u64,
}

impl<R: System + Drop> FolderDisk<R> {
    /// A disk in the folder of this path. Nothing is asked of the system before the first call, which makes the folder
    /// where it isn't there; the folder above it has to be there.
    pub fn new(system: R, alloc: Global, path: String) -> FolderDisk<R>
        ensures calls { calls_of result ≡ 0 }
        ensures faults { faults_of result ≡ 0 }
        ensures reads { reads_of result ≡ 0 }
        ensures far_writes { far_writes_of result ≡ 0 }
    {
        FolderDisk {
            folder: Folder::new(system, alloc, path),
            faults: 0,
            reads: 0,
            calls: 0,
            far_writes: 0,
        }
    }
}

impl<R: System> FolderDisk<R> {
    /// Counts a call of the device, and a fault where it failed.
    fn count<T: Drop>(&mut self, answer: io::Result<T>) -> Result<T, Failed>
        ensures same { IfOk answer (λ value. result ≡ Ok value) }
        ensures failed { OnErr answer (IsErr result) }
        ensures counted { CountsOne Plain self.old self.new result }
        ensures folder { folder_of self.new ≡ folder_of self.old }
    {
        self.calls = one_more(self.calls);
        match answer {
            Ok(value) => Ok(value),
            Err(_) => {
                self.faults = one_more(self.faults);
                Err(Failed)
            }
        }
    }
}

fn one_more(count: u64) -> u64
    ensures { Raised count result }
{
    count.saturating_add(1)
}

/// The count of far writes after one that writes these bytes from the byte `at` on.
fn far_after(count: u64, at: u64, bytes: &[u8]) -> u64
    ensures near { at + length bytes.now < 2 ^ 63 → result ≡ count }
    ensures far { 2 ^ 63 ≤ at + length bytes.now → Raised count result }
{
    if ends_in_file(at, bytes.len()) {
        count
    } else {
        one_more(count)
    }
}

impl<R: System + Drop> Device for FolderDisk<R> {
    ghost use Rattle.std.specs.Prelude.{false};
    ghost use Rattle.disk_model.specs.Untold.{untold, any_image, any_since};

    ghost tells = { λ disk. false };

    ghost held = { λ disk. untold };

    ghost may_leave = { λ disk. any_image };

    ghost moment = { λ disk. 0 };

    ghost left_since = { λ disk. any_since };

    ghost faults = { λ disk. faults_of disk };

    ghost reads = { λ disk. reads_of disk };

    ghost calls = { λ disk. calls_of disk };

    ghost far_writes = { λ disk. far_writes_of disk };

    ghost counts_now = { λ disk start image earlier left. left };

    ghost only_now = { λ disk image left. left };

    ghost held_may_stay = { λ disk told. tt };

    fn len(&mut self, file: u32) -> Result<u64, Failed> {
        let answer = self.folder.len(file);
        self.count(answer)
    }

    fn read(&mut self, file: u32, at: u64, buf: &mut [u8]) -> Result<usize, Failed> {
        self.reads = one_more(self.reads);
        let answer = self.folder.read(file, at, buf);
        self.count(answer)
    }

    #[tactic(auto, using(disk_model::proofs::Untold::any_torn))]
    fn write(&mut self, file: u32, at: u64, bytes: &[u8]) -> Result<(), Failed> {
        self.far_writes = far_after(self.far_writes, at, bytes);
        let answer = self.folder.write(file, at, bytes);
        self.count(answer)
    }

    #[tactic(auto, using(disk_model::proofs::Untold::any_cut))]
    fn cut(&mut self, file: u32, len: u64) -> Result<(), Failed> {
        let answer = self.folder.cut(file, len);
        self.count(answer)
    }

    fn sync(&mut self, file: u32) -> Result<(), Failed> {
        let answer = self.folder.sync(file);
        self.count(answer)
    }

    fn faults(&self) -> u64 {
        self.faults
    }

    fn is_short(&self, _file: u32) {}
}

/// A disk in a folder is a [`Disk`] over the system's runtime, which is the one that a program hands on.
pub fn is_disk(disk: &FolderDisk<HostRuntime>) -> u64
    ensures { result ≡ faults_of disk.now }
{
    faults_of_any(disk)
}

fn faults_of_any<D: Disk>(disk: &D) -> u64
    ensures { result ≡ D.faults disk.now }
{
    disk.faults()
}
