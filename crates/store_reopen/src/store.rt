//! A store that is open or closed.

ghost use Rattle.std.specs.Prelude.{◌≡◌, ◌+◌, ◌≤◌};
ghost use Rattle.store_reopen.specs.Reopened.{Reopens, disk_of, entries_of};

use disk_model::Device;
use std::alloc::Global;
use store_core::Core;
use store_files::OpenError;

/// A store that is open, or the disk of one that is closed.
#[derive(Drop)]
pub enum Store<D: Device> {
    /// An open store.
    Open(Core<D>),
    /// The disk of a store that is closed.
    Closed(D),
}

impl<D: Device> Store<D> {
    /// Closes the store, if it is open, and gives its disk back. It makes no device call.
    pub fn into_disk(self) -> D
        ensures { result ≡ disk_of self }
    {
        match self {
            Store::Open(core) => core.close(),
            Store::Closed(disk) => disk,
        }
    }

    /// Closes the store, if it is open, and opens its disk again. It answers how many entries the history then has, and the rows
    /// that then wait in memory get the moment, in nanoseconds. Refused, the store is closed, and can be opened later.
    pub fn reopen(self, alloc: Global, moment: u64) -> (Store<D>, Result<u64, OpenError>)
        ensures { Reopens D.Device.own (disk_of self) moment result.0 result.1 }
    {
        let disk = self.into_disk();
        open_again(alloc, disk, moment)
    }
}

// Opens the store that a disk holds.
fn open_again<D: Device>(alloc: Global, disk: D, moment: u64) -> (Store<D>, Result<u64, OpenError>)
    ensures { Reopens D.Device.own disk moment result.0 result.1 }
{
    match Core::open_store(alloc, disk, moment) {
        Ok(core) => {
            let entries = entries_of(&core);
            (Store::Open(core), Ok(entries))
        }
        Err((error, disk)) => (Store::Closed(disk), Err(error)),
    }
}

// How many entries the history has.
fn entries_of<D: Device>(core: &Core<D>) -> u64
    requires { core.now.state.segment.first + core.now.state.segment.count ≤ 4294967295 }
    ensures { result ≡ entries_of core.now }
{
    core.state.segment.first + core.state.segment.count
}
