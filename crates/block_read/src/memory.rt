//! A block's file in memory.

ghost use Rattle.std.specs.Prelude.{◌≡◌, ◌++◌, [], ◌≤◌, ◌==◌, ◌↔◌, if◌then◌else◌, drop, length, is_ok, true, Contains, IsErr, OnOk};
ghost use Rattle.disk_model.specs.Counts.{RoseBy};
ghost use Rattle.disk_model.specs.Crash.{HasCause};
ghost use Rattle.block_read.specs.Files.{SameFiles, page_of};

use crate::Pages;
use crate::file::part;
use span_types::{Bytes, Calls, Failed};
use std::marker::Model;

/// One file in memory, whose bytes are told; all other files are empty. Reads whose numbers are listed fail, counted
/// from 1.
#[derive(Debug, Drop)]
pub struct MemPages {
    file: u32,
    bytes: Bytes,
    failing: Calls,
    faults: u64,
    reads: u64,
}

impl Model for MemPages {
    ghost use Rattle.block_read.specs.Memory.{FileInMemory};

    ghost Value = { FileInMemory };

    ghost view = { λ m. record { file = m.file; bytes = m.bytes; failing = m.failing; faults = m.faults; reads = m.reads } };
}

impl MemPages {
    /// A file of these bytes, of which no page was read yet.
    pub fn new(file: u32, bytes: Bytes, failing: Calls) -> MemPages
        ensures { result ≡ record { file = file; bytes = bytes; failing = failing; faults = 0; reads = 0 } }
    {
        MemPages {
            file,
            bytes,
            failing,
            faults: 0,
            reads: 0,
        }
    }

    /// How many pages were read.
    pub fn reads(&self) -> u64
        ensures { result ≡ self.now.reads }
    {
        self.reads
    }
}

impl Pages for MemPages {
    ghost use Rattle.block_read.specs.Memory.{file_of};

    ghost tells = { λ _. true };

    ghost held = { λ m. file_of m };

    ghost faults = { λ m. m.faults };

    ghost reads = { λ m. m.reads };

    ghost ready = { λ m block. Unit {0} };

    ghost went = { λ old read new. Unit {0} };

    ghost name = { λ m. 0 };

    fn page(&mut self, block: u32, page: u64, buf: &mut [u8; 4096]) -> Result<(), Failed>
        ensures page { OnOk result (buf.new ≡ page_of (file_of self.old block) page) }
        ensures same_files { SameFiles (file_of self.old) (file_of self.new) }
        ensures cause { HasCause self.old.faults self.new.faults result }
        ensures reads { RoseBy 1 self.old.reads self.new.reads }

        // It fails exactly where the read's number is listed, and the list and the file stay the same.
        ensures listed { IsErr result ↔ Contains self.old.failing self.new.reads }
        ensures same_list { self.new.failing ≡ self.old.failing }
        ensures by_one { RoseBy (if is_ok result then 0 else 1) self.old.faults self.new.faults }
    {
        self.reads = self.reads.saturating_add(1);
        if self.failing.as_slice().contains(&self.reads) {
            self.faults = self.faults.saturating_add(1);
            return Err(Failed);
        }
        let bytes = bytes_of(&self.bytes, block == self.file);
        copy_page(bytes, page, buf);
        Ok(())
    }
}

/// The bytes of a file: these, or none.
fn bytes_of(bytes: &Bytes, is_it: bool) -> &[u8]
    ensures { result.now ≡ (if is_it then bytes.now else []) }
{
    if is_it {
        return bytes.as_slice();
    }
    &[]
}

/// Copies the page of these bytes with that number, and zeros past their end.
fn copy_page(bytes: &[u8], page: u64, buf: &mut [u8; 4096])
    ensures { buf.new ≡ page_of bytes.now page }
{
    *buf = [0; 4096];
    copy_front(part(bytes, page, 1), buf);
}

/// Copies bytes over the first ones of a buffer.
fn copy_front(bytes: &[u8], buf: &mut [u8])
    requires { length bytes.now ≤ length buf.old }
    ensures { buf.new ≡ bytes.now ++ drop (length bytes.now) buf.old }
{
    buf[..bytes.len()].copy_from_slice(bytes);
}
