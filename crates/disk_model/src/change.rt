//! What calls do to the files of a disk in memory, as values: changes that were made, and changes that aren't synced.

ghost use Rattle.std.specs.Prelude.{◌≡◌};

use span_types::Bytes;

/// A change that no sync of its file has made last so far, done or failed.
#[derive(Debug, Drop)]
pub enum Pending {
    /// A write into `len` bytes from the byte `at` on.
    Written { at: u64, len: u64 },
    /// A cut to `len` bytes.
    Shortened { len: u64 },
}

impl Pending {
    ghost use Rattle.disk_model.specs.Files.{frees};

    /// Whether it leaves open which byte stands at an offset.
    pub fn frees(&self, offset: u64) -> bool
        ensures { result ≡ frees offset self.now }
    {
        match self {
            Pending::Written { at, len } => *at <= offset && offset - at < *len,
            Pending::Shortened { len } => *len <= offset,
        }
    }
}

/// A call that changed what a disk holds or what a crash may leave of it.
#[derive(Debug, Drop)]
pub enum Change {
    /// These bytes were written.
    Write { file: u32, at: u64, bytes: Bytes },
    /// A write of `len` bytes failed: the file holds what it held.
    LostWrite { file: u32, at: u64, len: u64 },
    /// The file was cut.
    Cut { file: u32, len: u64 },
    /// A cut failed: the file holds what it held.
    LostCut { file: u32, len: u64 },
    /// The file was synced.
    Sync { file: u32 },
}

impl Change {
    ghost use Rattle.disk_model.specs.History.{file_of};

    /// The file that it changes.
    pub fn file(&self) -> u32
        ensures { result ≡ file_of self.now }
    {
        match self {
            Change::Write { file, .. }
            | Change::LostWrite { file, .. }
            | Change::Cut { file, .. }
            | Change::LostCut { file, .. }
            | Change::Sync { file } => *file,
        }
    }
}
