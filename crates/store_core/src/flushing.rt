//! Flushes begin, their blocks are written, and they are given up.

ghost use Rattle.std.specs.Prelude.{◌≡◌, ◌≢◌, ◌≤◌, ◌<◌, ◌+◌, ◌^◌, ℕ, None, Some, Err, true, length, IsTrue, IfOk, IfErr, IfSome, OnOk, OnErr};
ghost use Rattle.disk_model.specs.Images.{bytes_of};
ghost use Rattle.store_model.specs.Event.Event.{BeginFlush, WritePiece, DropFlush};
ghost use Rattle.store_model.specs.Event.Reply.{Fine, Refused};
ghost use Rattle.store_model.specs.Event.Refusal.{Fault as IsFault};
ghost use Rattle.store_model.specs.Holds.{OpenIn};
ghost use Rattle.store_model.specs.Step.{Machine, early};
ghost use Rattle.store_state.specs.Given.{IsJobOf, flush_of};
ghost use Rattle.store_state.specs.Replies.{begin_refusal, begin_flush_reply, write_reply};
ghost use Rattle.store_state.specs.Written.{HasWritten};
ghost use Rattle.store_state.specs.declared.errors.WriteError.TheVariants.{ReadOnly, Fault};
ghost use Rattle.store_core.specs.Cores.{CoreShows, HasState};
ghost use Rattle.store_core.specs.Events.{Did};
ghost use Rattle.store_core.specs.Beginning.{MayBegin, unless_rows};

use crate::jobs::LAST_FILE;
use crate::state::CoreState;
use crate::store::Core;
use block_info::MOST_BLOCK_ROWS;
use disk_model::Device;
use store_files::make_files;
use store_state::{BeginError, FlushJob, JobFile, WriteError};

impl CoreState {
    /// Whether there are rows for a flush, or why none begins: in this order the store is read-only, a flush is open, the head is
    /// empty, or no file numbers are left.
    pub(crate) fn admit_flush(&self) -> Result<bool, BeginError>
        ensures free { (m : Machine) → HasState self.now m
            → IfOk result (λ some. early m BeginFlush ≡ unless_rows some) }
        ensures refused { (m : Machine) → HasState self.now m →
            IfErr result (λ error. early m BeginFlush ≡ Some (Refused (begin_refusal error))) }
        ensures no_fault { IfErr result (λ error. begin_refusal error ≢ IsFault) }
        ensures sure { IfOk result (λ some. some ≡ true → MayBegin self.now) }
    {
        match self.read_only {
            Some(faults) => Err(BeginError::ReadOnly { faults }),
            None => self.admit_job(),
        }
    }

    // The same in a store that isn't read-only.
    fn admit_job(&self) -> Result<bool, BeginError>
        requires { self.now.read_only ≡ None }
        ensures free { (m : Machine) → HasState self.now m
            → IfOk result (λ some. early m BeginFlush ≡ unless_rows some) }
        ensures refused { (m : Machine) → HasState self.now m →
            IfErr result (λ error. early m BeginFlush ≡ Some (Refused (begin_refusal error))) }
        ensures no_fault { IfErr result (λ error. begin_refusal error ≢ IsFault) }
        ensures sure { IfOk result (λ some. some ≡ true → MayBegin self.now) }
    {
        match &self.jobs.flush {
            Some(flush) => Err(BeginError::Busy { job: flush.number }),
            None => self.admit_rows(),
        }
    }

    // The same where no flush is open.
    fn admit_rows(&self) -> Result<bool, BeginError>
        requires writes { self.now.read_only ≡ None }
        requires none { self.now.jobs.flush ≡ None }
        ensures free { (m : Machine) → HasState self.now m
            → IfOk result (λ some. early m BeginFlush ≡ unless_rows some) }
        ensures refused { (m : Machine) → HasState self.now m →
            IfErr result (λ error. early m BeginFlush ≡ Some (Refused (begin_refusal error))) }
        ensures no_fault { IfErr result (λ error. begin_refusal error ≢ IsFault) }
        ensures sure { IfOk result (λ some. some ≡ true → MayBegin self.now) }
    {
        if self.live.head_len() == 0 {
            return Ok(false);
        }
        let next = self.jobs.next_file;
        if next >= LAST_FILE {
            return Err(BeginError::FilesSpent { next });
        }
        Ok(true)
    }
}

impl<D: Device> Core<D> {
    /// Begins a flush of the head's first 1,048,576 rows at most, and answers its job; none where the head is empty. It takes two
    /// file numbers: the first file is emptied for the block, and in the second a log segment without records is made, which
    /// pushes go to once the block is listed.
    ///
    /// All memory is taken before the first device call, that of the flush's end too. After `Fault` the store is read-only, and the rows are in the head.
    pub fn begin_flush(&mut self) -> Result<Option<FlushJob>, BeginError>
        ensures begun { Did D.Device.own self.old BeginFlush (begin_flush_reply result) self.new }
        ensures fresh { IfOk result (λ begun. IfSome begun (λ job.
            (job.out.written ≡ 0) × (1 ≤ length job.rows) × (length job.rows ≤ 1048576))) }
    {
        let some = match self.state.admit_flush() {
            Ok(some) => some,
            Err(error) => return Err(error),
        };
        if !some {
            return Ok(None);
        }
        // No flush is open, so that no row stands in one.
        self.state.live.undo_flush();
        let Ok(()) = self.state.infos.reserve(2) else {
            return Err(BeginError::Memory);
        };
        let Ok(room) = self.state.jobs.make_room(self.alloc, &self.state.list) else {
            return Err(BeginError::Memory);
        };
        let Ok(rows) = self.state.live.take_head(MOST_BLOCK_ROWS) else {
            return Err(BeginError::Memory);
        };
        let files = self.state.jobs.next_files();
        match make_files(&mut self.disk, files) {
            Ok(()) => {
                let number = self.state.jobs.begin_flush(files, room);
                let out = JobFile {
                    number,
                    file: files.block,
                    written: 0,
                };
                Ok(Some(FlushJob { out, rows }))
            }
            Err(_) => {
                self.state.live.undo_flush();
                self.stop_writing();
                Err(BeginError::Fault)
            }
        }
    }

    /// Writes bytes after those that were written to a job's file, and counts them; a refusal counts none. It makes one device
    /// call, and takes no memory. After `Fault` the store is read-only, and nothing is known of the file's length.
    pub fn write_piece(&mut self, out: &mut JobFile, bytes: &[u8]) -> Result<(), WriteError>
        requires job { (m : Machine) × CoreShows D.Device.own self.now m
            × IsJobOf out.now (OpenIn m) }
        requires whole { IsTrue (D.tells self.now.disk) → self.now.state.read_only ≡ None →
            HasWritten (λ file. bytes_of (D.held self.now.disk) file) out.now }
        ensures did { Did D.Device.own self.old (WritePiece out.old.number out.old.file bytes.now)
            (write_reply result) self.new }
        ensures raised { OnOk result (out.new.written ≡ out.old.written + length bytes.now) }
        ensures kept { OnErr result (out.new.written ≡ out.old.written) }
        ensures whole { IsTrue (D.tells self.old.disk)
            → HasWritten (λ file. bytes_of (D.held self.old.disk) file) out.old →
            result ≢ Err Fault → HasWritten (λ file. bytes_of (D.held self.new.disk) file) out.new }
        ensures broken { result ≡ Err Fault → self.new.state.read_only ≢ None }
        ensures refused { self.old.state.read_only ≢ None
            → (faults : ℕ) × (result ≡ Err (ReadOnly faults)) }
        // No byte is asked to be written at 2^63 or more, unless the piece would end there.
        ensures near { out.old.written + length bytes.now < 2 ^ 63 →
            D.far_writes self.new.disk ≡ D.far_writes self.old.disk }
        ensures same { (out.new.number ≡ out.old.number) × (out.new.file ≡ out.old.file) }
    {
        if let Some(faults) = self.state.read_only {
            return Err(WriteError::ReadOnly { faults });
        }
        match self.disk.write(out.file, out.written, bytes) {
            Ok(()) => {
                out.written += bytes.len() as u64;
                Ok(())
            }
            Err(_) => {
                self.stop_writing();
                Err(WriteError::Fault)
            }
        }
    }

    /// Gives a flush up: its rows go back to the head's front, and its two files become loose. It makes no device call, and takes
    /// no memory.
    pub fn drop_flush(&mut self, job: FlushJob)
        requires job { (m : Machine) × CoreShows D.Device.own self.now m × OpenIn m (flush_of job) }
        ensures { Did D.Device.own self.old (DropFlush job.out.number) Fine self.new }
    {
        self.state.live.undo_flush();
        self.state.jobs.drop_flush();
    }
}
