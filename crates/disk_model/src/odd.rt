//! A disk that gives what its maker chose, whatever was written: for tests of what bytes of any kind lead to.

ghost use Rattle.std.specs.Prelude.{◌≡◌, ◌-◌, ◌++◌, length, take, replicate};

use crate::Device;
use crate::memory::ends_below;
use span_types::{Bytes, Failed, Seq};

/// A list of lists of bytes.
pub type ByteLists = Seq<Bytes>;

/// A disk that shows no bytes. Each file has the same length, each read gives the next of a list of chunks, and zeros
/// when there is none left, and every call succeeds but a write whose end is 2^63 or more.
#[derive(Drop)]
pub struct OddDisk {
    length: u64,
    chunks: ByteLists,
    /// How many chunks were given.
    given: usize,
    faults: u64,
    reads: u64,
    calls: u64,
    far_writes: u64,
}

impl OddDisk {
    /// A disk whose files have this length, and whose reads give these chunks, each cut or filled with zeros to the
    /// length of the buffer.
    pub fn new(length: u64, chunks: ByteLists) -> OddDisk {
        OddDisk {
            length,
            chunks,
            given: 0,
            faults: 0,
            reads: 0,
            calls: 0,
            far_writes: 0,
        }
    }
}

impl Device for OddDisk {
    ghost use Rattle.std.specs.Prelude.{false};
    ghost use Rattle.disk_model.specs.Untold.{untold, any_image, any_since};

    ghost tells = { λ disk. false };

    ghost held = { λ disk. untold };

    ghost may_leave = { λ disk. any_image };

    ghost moment = { λ disk. 0 };

    ghost left_since = { λ disk. any_since };

    ghost faults = { λ disk. disk.faults };

    ghost reads = { λ disk. disk.reads };

    ghost calls = { λ disk. disk.calls };

    ghost far_writes = { λ disk. disk.far_writes };

    ghost counts_now = { λ disk start image earlier left. left };

    ghost only_now = { λ disk image left. left };

    ghost held_may_stay = { λ disk told. tt };

    fn len(&mut self, _file: u32) -> Result<u64, Failed> {
        self.calls = self.calls.saturating_add(1);
        Ok(self.length)
    }

    fn read(&mut self, _file: u32, _at: u64, buf: &mut [u8]) -> Result<usize, Failed> {
        self.calls = self.calls.saturating_add(1);
        self.reads = self.reads.saturating_add(1);
        match self.chunks.as_slice().get(self.given) {
            Some(chunk) => fill(buf, chunk.as_slice()),
            None => fill(buf, &[]),
        }
        self.given = self.given.saturating_add(1);
        Ok(buf.len())
    }

    #[tactic(auto, using(crate::proofs::Untold::any_torn))]
    fn write(&mut self, _file: u32, at: u64, bytes: &[u8]) -> Result<(), Failed> {
        self.calls = self.calls.saturating_add(1);
        if ends_below(at, bytes.len()) {
            return Ok(());
        }
        self.far_writes = self.far_writes.saturating_add(1);
        self.faults = self.faults.saturating_add(1);
        Err(Failed)
    }

    #[tactic(auto, using(crate::proofs::Untold::any_cut))]
    fn cut(&mut self, _file: u32, _len: u64) -> Result<(), Failed> {
        self.calls = self.calls.saturating_add(1);
        Ok(())
    }

    fn sync(&mut self, _file: u32) -> Result<(), Failed> {
        self.calls = self.calls.saturating_add(1);
        Ok(())
    }

    fn faults(&self) -> u64 {
        self.faults
    }

    fn is_short(&self, _file: u32) {}
}

/// Fills a buffer with a chunk, which is cut or filled with zeros to its length.
fn fill(buf: &mut [u8], chunk: &[u8])
    ensures { buf.new ≡ take (length buf.old) chunk.now
        ++ replicate (length buf.old - length chunk.now) 0 }
{
    let count = chunk.len().min(buf.len());
    buf[..count].copy_from_slice(&chunk[..count]);
    buf[count..].fill(0);
}
