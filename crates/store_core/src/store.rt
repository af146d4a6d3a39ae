//! A core: a disk, what is in memory, and the page cache.

ghost use Rattle.std.specs.Prelude.{◌≡◌};

use crate::since::Since;
use crate::state::CoreState;
use disk_model::Device;
use page_cache::PageCache;
use std::alloc::Global;

/// A store over a disk, whose calls are its events. It makes them one after another; each takes all memory that it needs before
/// it first changes the disk.
#[derive(Drop)]
pub struct Core<D: Device> {
    /// Where its memory comes from.
    pub alloc: Global,
    /// The disk, which nobody else writes.
    pub disk: D,
    /// What it keeps in memory.
    pub state: CoreState,
    /// Since when it is open.
    pub since: Since,
    /// The pages that were read last.
    pub cache: PageCache,
}

impl<D: Device> Core<D> {
    /// Closes the store, and gives the disk back. It makes no device call and takes no memory.
    pub fn close(self) -> D
        ensures { result ≡ self.disk }
    {
        self.disk
    }
}
