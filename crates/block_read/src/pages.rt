//! Where the pages of blocks are read.

ghost use Rattle.std.specs.Prelude.{◌≡◌, ℕ, Bool, IsTrue, List, OnOk};
ghost use Rattle.disk_model.specs.Crash.{HasCause};
ghost use Rattle.block_read.specs.Answers.{RoseAtMost};
ghost use Rattle.block_read.specs.Files.{SameFiles, page_of};
ghost use Rattle.block_read.specs.PageReads.{PageRead, page_read};

use span_types::Failed;

/// The pages of blocks, each in a file with a number.
pub trait Pages {
    /// Whether the contracts speak of the bytes: of one that gives pages either always or never.
    ghost tells: { Self → Bool };

    /// The bytes of each file.
    ghost held: { Self → ℕ → List ℕ };

    /// How many reads have failed.
    ghost faults: { Self → ℕ };

    /// How many pages were read; one that a cache gives need not count.
    ghost reads: { Self → ℕ };

    /// Of which blocks pages may be asked for.
    ghost ready: { Self → ℕ → Type 0 };

    /// What one read makes of it.
    ghost went: { Self → PageRead → Self → Type 0 };

    /// What tells it from others: its mutable borrow, if it holds one.
    ghost name: { Self → ℕ };

    /// Reads a page of 4,096 bytes, counted from 0. Past the file's end there are zeros. What an `Err` leaves in the
    /// buffer is open.
    fn page(&mut self, block: u32, page: u64, buf: &mut [u8; 4096]) -> Result<(), Failed>
        requires { ready self.now block }
        ensures page { IsTrue (tells self.old)
            → OnOk result (buf.new ≡ page_of (held self.old block) page) }
        ensures same_files { IsTrue (tells self.old) → SameFiles (held self.old) (held self.new) }
        ensures telling { tells self.new ≡ tells self.old }
        ensures cause { HasCause (faults self.old) (faults self.new) result }
        ensures reads { RoseAtMost 1 (reads self.old) (reads self.new) }
        ensures ready { (other : ℕ) → ready self.old other → ready self.new other }
        ensures went { went self.old (page_read block page buf.new result) self.new }
        ensures named { name self.new ≡ name self.old };
}
