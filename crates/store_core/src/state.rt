//! What a store keeps in memory.

ghost use Rattle.std.specs.Prelude.{◌≡◌, IfOk};
ghost use Rattle.store_state.specs.Given.{info_files};

use crate::jobs::Jobs;
use block_info::{Infos, SharedInfo};
use block_list::{FileList, ListBody};
use head_log::Segment;
use live_traces::{Live, Ready};
use span_types::{Memory, TryCopy};
use std::alloc::Global;

/// What a store keeps in memory beside its disk.
#[derive(Drop)]
pub struct CoreState {
    /// The rows that are in no block yet.
    pub live: Live,
    /// The list that counts on the disk.
    pub list: ListBody,
    /// The information of the listed blocks, in list order.
    pub infos: Vec<SharedInfo>,
    /// The last segment of the list, which is written on.
    pub segment: Segment,
    /// The jobs that were begun, and the files that were given out.
    pub jobs: Jobs,
    /// For each number of a pin the files of the blocks that the pin names, if a pin has the number.
    pub pins: Vec<Option<FileList>>,
    /// The disk's count of faults after the first write, cut or sync that failed since opening.
    pub read_only: Option<u64>,
    /// The batch of the push that answered a fault, if there is one: a later image may have it as the next entry.
    pub unsure: Option<Ready>,
}

impl CoreState {
    /// The information of the listed blocks, shared with this one.
    pub(crate) fn copy_infos(&self) -> Result<Infos, Memory>
        ensures { IfOk result (λ infos. infos ≡ self.now.infos.items) }
    {
        let mut infos = Vec::new(*self.infos.allocator());
        infos.reserve(self.infos.len())?;
        for info in self.infos.as_slice() {
            infos.push(info.copy()?)?;
        }
        Ok(Infos::of(infos))
    }

    /// The files of the listed blocks.
    pub(crate) fn copy_files(&self) -> Result<FileList, Memory>
        ensures { IfOk result (λ files. files ≡ info_files self.now.infos.items) }
    {
        files_of(*self.infos.allocator(), self.infos.as_slice())
    }
}

/// The files of blocks, as their information has them.
pub(crate) fn files_of(alloc: Global, infos: &[SharedInfo]) -> Result<FileList, Memory>
    ensures { IfOk result (λ files. files ≡ info_files infos.now) }
{
    let mut files = Vec::new(alloc);
    files.reserve(infos.len())?;
    for info in infos {
        files.push(info.get().file)?;
    }
    Ok(FileList::of(files))
}
