//! A flush's block is listed.

ghost use Rattle.std.specs.Prelude.{◌≡◌, ◌≤◌, Some, IsTrue};
ghost use Rattle.disk_model.specs.Images.{bytes_of};
ghost use Rattle.store_model.specs.Event.Event.{CommitFlush};
ghost use Rattle.store_model.specs.Holds.{OpenIn};
ghost use Rattle.store_model.specs.Step.{Machine};
ghost use Rattle.store_state.specs.Given.{flush_of};
ghost use Rattle.store_state.specs.Replies.{write_reply};
ghost use Rattle.store_state.specs.Written.{NamesJob, IsBlockOf};
ghost use Rattle.store_core.specs.Cores.{CoreShows};
ghost use Rattle.store_core.specs.Events.{Did};

use crate::store::Core;
use block_info::SharedInfo;
use block_list::commit;
use disk_model::Device;
use store_state::{FlushJob, WriteError};

impl<D: Device> Core<D> {
    /// Lists a flush's block, which, where bytes are told, its file holds and the information describes: the file is synced, and
    /// the list with the block, the flush's new segment, and without the segments whose rows are all in blocks, is committed. Pushes
    /// then go to the new segment. The job is spent, refused or not.
    ///
    /// It makes seven device calls at most, and takes no memory. After `Fault` the store is read-only, and its rows are in memory
    /// as they were; a later opening finds the list with the block or the one before it.
    pub fn commit_flush(&mut self, job: FlushJob, info: SharedInfo) -> Result<(), WriteError>
        requires job { (m : Machine) × CoreShows D.Device.own self.now m × OpenIn m (flush_of job) }
        requires size { (1 ≤ info.rows) × (info.rows ≤ 1048576) }
        requires names { NamesJob job.out.file 0 info }
        requires block { IsTrue (D.tells self.now.disk) →
            IsBlockOf (bytes_of (D.held self.now.disk) job.out.file) info job.rows }
        ensures { Did D.Device.own self.old (CommitFlush job.out.number info.rows)
            (write_reply result) self.new }
    {
        if let Some(faults) = self.state.read_only {
            return Err(WriteError::ReadOnly { faults });
        }
        let Ok(()) = self.disk.sync(job.out.file) else {
            self.stop_writing();
            return Err(WriteError::Fault);
        };
        let (list, text) = self.state.next_list(rows_in(&info));
        match commit(&mut self.disk, &text) {
            Ok(()) => {
                self.state.take_over(list, info);
                Ok(())
            }
            Err(_) => {
                self.stop_writing();
                Err(WriteError::Fault)
            }
        }
    }

    /// A write failed: from now on the store is read-only, with the disk's count of faults.
    pub(crate) fn stop_writing(&mut self)
        ensures { self.new ≡ record self.old { state = record self.old.state { read_only = Some (D.faults self.old.disk) } } }
    {
        let faults = self.disk.faults();
        self.state.read_only = Some(faults);
    }
}

/// How many rows a block has, as its information says.
pub(crate) fn rows_in(info: &SharedInfo) -> u32
    ensures { result ≡ info.now.rows }
{
    info.get().rows
}
