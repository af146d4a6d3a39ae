//! Compactions begin, their blocks are listed, and they are given up.

ghost use Rattle.std.specs.Prelude.{◌≡◌, ◌≢◌, ◌<◌, ◌≤◌, ◌+◌, ℕ, List, length, min, map, slice_index_or, None, Some, IsTrue, IfOk, IfErr, IfSome, OnErr};
ghost use Rattle.disk_model.specs.Images.{bytes_of};
ghost use Rattle.block_info.specs.InfoParts.{InfoParts};
ghost use Rattle.store_model.specs.Event.Event.{BeginCompact, CommitCompact, DropCompact};
ghost use Rattle.store_model.specs.State.{Block};
ghost use Rattle.store_model.specs.Choice.{choice, level_of};
ghost use Rattle.store_model.specs.Event.Reply.{Fine, Nothing, Refused};
ghost use Rattle.store_model.specs.Event.Refusal.{Fault as IsFault};
ghost use Rattle.store_model.specs.Holds.{OpenIn};
ghost use Rattle.store_model.specs.Step.{Machine, early};
ghost use Rattle.store_state.specs.Given.{compact_of};
ghost use Rattle.store_state.specs.Listed.{picked, ref_of};
ghost use Rattle.store_state.specs.Replies.{begin_refusal, begin_compact_reply, write_reply};
ghost use Rattle.store_state.specs.Shown.{AreBlocks, JoinsChoice, told_block};
ghost use Rattle.store_state.specs.Written.{NamesJob, IsJoinedBlock};
ghost use Rattle.store_state.specs.declared.errors.BeginError.TheVariants.{Memory as Lacking};
ghost use Rattle.store_core.specs.Beginning.{MayCompact, HasRoomStill, HasRoomToBegin, IsMade, IsNotMade, at_places};
ghost use Rattle.store_core.specs.Cores.{CoreShows, CoreStandsFor, HasState};
ghost use Rattle.store_core.specs.Events.{Did};

use crate::committing::rows_in;
use crate::jobs::LAST_FILE;
use crate::room::CommitRoom;
use crate::state::{CoreState, files_of};
use crate::store::Core;
use block_info::{Infos, SharedInfo};
use block_list::commit;
use disk_model::{Device, cut_through};
use span_types::{Memory, TryCopy};
use std::alloc::Global;
use store_files::{free_number, give_back, take_files, take_number};
use store_state::{BeginError, CompactJob, JobFile, Pin, WriteError, a_choice_is_few, choose};

impl CoreState {
    /// The positions in the list of the blocks that a compaction joins now, and none where there are no such blocks, or why none
    /// begins: in this order the store is read-only, a compaction is open, no file numbers are left, or memory is lacking.
    pub(crate) fn admit_compact(&self, alloc: Global) -> Result<Option<Vec<usize>>, BeginError>
        ensures none { (m : Machine) → HasState self.now m → IfOk result (λ found. found ≡ None →
            early m BeginCompact ≡ Some Nothing) }
        ensures free { (m : Machine) → HasState self.now m
            → IfOk result (λ found. IfSome found (λ chosen.
            early m BeginCompact ≡ None)) }
        ensures chosen { (listed : List Block) → map ref_of listed ≡ self.now.list.blocks
            → IfOk result (λ found.
            IfSome found (λ chosen. picked chosen.items listed ≡ choice listed)) }
        ensures refused { (m : Machine) → HasState self.now m
            → IfErr result (λ error. error ≢ Lacking →
            early m BeginCompact ≡ Some (Refused (begin_refusal error))) }
        ensures lacking { (m : Machine) → HasState self.now m
            → IfErr result (λ error. error ≡ Lacking →
            early m BeginCompact ≡ None) }
        ensures no_fault { IfErr result (λ error. begin_refusal error ≢ IsFault) }
        ensures sure { IfOk result
            (λ found. IfSome found (λ chosen. MayCompact self.now chosen.items)) }
    {
        if let Some(faults) = self.read_only {
            return Err(BeginError::ReadOnly { faults });
        }
        if let Some(compaction) = &self.jobs.compaction {
            return Err(BeginError::Busy {
                job: compaction.number,
            });
        }
        self.admit_blocks(alloc)
    }

    // The same in a store that isn't read-only, where no compaction is open.
    fn admit_blocks(&self, alloc: Global) -> Result<Option<Vec<usize>>, BeginError>
        requires writes { self.now.read_only ≡ None }
        requires no_job { self.now.jobs.compaction ≡ None }
        ensures none { (m : Machine) → HasState self.now m → IfOk result (λ found. found ≡ None →
            early m BeginCompact ≡ Some Nothing) }
        ensures free { (m : Machine) → HasState self.now m
            → IfOk result (λ found. IfSome found (λ chosen.
            early m BeginCompact ≡ None)) }
        ensures chosen { (listed : List Block) → map ref_of listed ≡ self.now.list.blocks
            → IfOk result (λ found.
            IfSome found (λ chosen. picked chosen.items listed ≡ choice listed)) }
        ensures refused { (m : Machine) → HasState self.now m
            → IfErr result (λ error. error ≢ Lacking →
            early m BeginCompact ≡ Some (Refused (begin_refusal error))) }
        ensures lacking { (m : Machine) → HasState self.now m
            → IfErr result (λ error. error ≡ Lacking →
            early m BeginCompact ≡ None) }
        ensures no_fault { IfErr result (λ error. begin_refusal error ≢ IsFault) }
        ensures sure { IfOk result
            (λ found. IfSome found (λ chosen. MayCompact self.now chosen.items)) }
    {
        let next = self.jobs.next_file;
        match choose(alloc, self.list.blocks.as_slice()) {
            Ok(chosen) => {
                if chosen.is_empty() {
                    return Ok(None);
                }
                if next >= LAST_FILE {
                    return Err(BeginError::FilesSpent { next });
                }
                Ok(Some(chosen))
            }
            Err(_) => {
                if next >= LAST_FILE {
                    return Err(BeginError::FilesSpent { next });
                }
                Err(BeginError::Memory)
            }
        }
    }

    /// What a compaction of the blocks at these positions needs before its file is emptied: its block's level, its pin, and the room
    /// of its commit. All memory is taken here; out of memory the state shows what it showed.
    pub(crate) fn make_compact(
        &mut self,
        alloc: Global,
        chosen: &[usize],
    ) -> Result<(u8, Pin, CommitRoom), Memory>
        requires { self.now.jobs.compaction ≡ None }
        ensures made { IfOk result
            (λ made. IsMade self.old chosen.now made.0 made.1 made.2 self.new) }
        ensures lacking { OnErr result (IsNotMade self.old self.new) }
    {
        let pinned = self.infos_at(alloc, chosen)?;
        let files = files_of(alloc, pinned.as_slice())?;
        let room = self.make_room(alloc)?;
        let number = take_number(&mut self.pins, files)?;
        let level = level_above(pinned.as_slice());
        let pin = Pin {
            number,
            blocks: pinned,
        };
        Ok((level, pin, room))
    }

    // Takes the memory that the ends of a compaction which begins and of an open flush need, and answers the room of the
    // compaction's commit.
    fn make_room(&mut self, alloc: Global) -> Result<CommitRoom, Memory>
        requires { self.now.jobs.compaction ≡ None }
        ensures made { IfOk result
            (λ room. HasRoomToBegin self.old.list self.new.infos self.new.jobs room) }
        ensures still { HasRoomStill self.old self.new }
        ensures pins { self.new.pins ≡ self.old.pins }
    {
        self.infos.reserve(2)?;
        self.jobs.make_room(alloc, &self.list)
    }

    // The information of the blocks at these positions, shared with this one.
    fn infos_at(&self, alloc: Global, chosen: &[usize]) -> Result<Infos, Memory>
        ensures { IfOk result (λ infos. infos ≡ at_places chosen.now self.now.infos.items) }
    {
        let mut infos = Vec::new(alloc);
        for at in chosen {
            let info = self.info_at(*at)?;
            infos.push(info)?;
        }
        Ok(Infos::of(infos))
    }

    // The information of the block at a position, shared with this one. Each listed block has its information, so that a position
    // after them isn't chosen; it is refused for memory.
    fn info_at(&self, at: usize) -> Result<SharedInfo, Memory>
        ensures { IfOk result (λ info. (at < length self.now.infos.items)
            × ((other : InfoParts) → slice_index_or self.now.infos.items at other ≡ info)) }
    {
        if at >= self.infos.len() {
            return Err(Memory);
        }
        self.infos[at].copy()
    }
}

// The level above that of the first of these blocks.
fn level_above(infos: &[SharedInfo]) -> u8
    ensures { result ≡ min (level_of (map told_block infos.now) + 1) 255 }
{
    match infos.first() {
        Some(info) => info.get().level.saturating_add(1),
        None => 1,
    }
}

impl<D: Device> Core<D> {
    /// Begins a compaction of the blocks that are to be joined next, and answers its job; none where no two of a level below 63 fit
    /// together. It takes one file number, and empties that file for the new block. The job's pin names the blocks.
    ///
    /// All memory is taken before the first device call, that of the compaction's end and of an open flush's too. After `Fault` the
    /// store is read-only.
    pub fn begin_compact(&mut self) -> Result<Option<CompactJob>, BeginError>
        ensures begun { Did D.Device.own self.old BeginCompact
            (begin_compact_reply result) self.new }
        ensures fresh { IfOk result (λ begun. IfSome begun (λ job. job.out.written ≡ 0)) }
        ensures joins { (m : Machine) → CoreShows D.Device.own self.old m
            → IfOk result (λ begun. IfSome begun (λ job.
            JoinsChoice (λ infos. infos ≡ self.old.state.infos.items) job.level job.pin.blocks)) }
        ensures blocks { IsTrue (D.tells self.new.disk)
            → IfOk result (λ begun. IfSome begun (λ job. (m : Machine) →
            CoreStandsFor D.Device.own self.new m
            → AreBlocks (λ file. bytes_of (D.held self.new.disk) file) job.pin.blocks)) }
        ensures whole { IsTrue (D.tells self.new.disk)
            → IfOk result (λ begun. IfSome begun (λ job. (m : Machine) →
            CoreShows D.Device.own self.old m
            → AreBlocks (λ file. bytes_of (D.held self.new.disk) file) job.pin.blocks)) }
    {
        // The level of what is joined has room.
        a_choice_is_few();
        let chosen = match self.state.admit_compact(self.alloc) {
            Ok(Some(chosen)) => chosen,
            Ok(None) => return Ok(None),
            Err(error) => return Err(error),
        };
        let Ok((level, pin, room)) = self.state.make_compact(self.alloc, chosen.as_slice()) else {
            return Err(BeginError::Memory);
        };
        let file = self.state.jobs.next_file;
        match cut_through(&mut self.disk, file, 0) {
            Ok(()) => {
                let number = self.state.jobs.begin_compact(level, pin.number, room);
                let out = JobFile {
                    number,
                    file,
                    written: 0,
                };
                Ok(Some(CompactJob { out, pin, level }))
            }
            Err(_) => {
                free_number(&mut self.state.pins, pin.number);
                self.stop_writing();
                Err(BeginError::Fault)
            }
        }
    }

    /// Lists a compaction's block, which, where bytes are told, its file holds and the information describes, in the place of those
    /// that it joins, whose files become loose: the file is synced, and the list is committed. The job is spent, refused or not.
    ///
    /// It makes seven device calls at most, and takes no memory. After `Fault` the store is read-only, its list and looks are in
    /// memory as they were, and the job stays open; a later opening may find the list with the new block or the one before it.
    pub fn commit_compact(&mut self, job: CompactJob, info: SharedInfo) -> Result<(), WriteError>
        requires job { (m : Machine) × CoreShows D.Device.own self.now m
            × OpenIn m (compact_of job) }
        requires size { (1 ≤ info.rows) × (info.rows ≤ 1048576) }
        requires names { NamesJob job.out.file job.level info }
        requires block { IsTrue (D.tells self.now.disk)
            → IsJoinedBlock (λ file. bytes_of (D.held self.now.disk) file)
            (bytes_of (D.held self.now.disk) job.out.file) info job.pin.blocks }
        ensures { Did D.Device.own self.old (CommitCompact job.out.number info.rows)
            (write_reply result) self.new }
    {
        if let Some(faults) = self.state.read_only {
            return Err(WriteError::ReadOnly { faults });
        }
        let Ok(()) = self.disk.sync(job.out.file) else {
            self.stop_writing();
            return Err(WriteError::Fault);
        };
        let joined = take_files(&mut self.state.pins, job.pin.number);
        let (list, text) = self.state.joined_list(joined.as_slice(), rows_in(&info));
        match commit(&mut self.disk, &text) {
            Ok(()) => {
                self.state.take_over_joined(list, joined.as_slice(), info);
                Ok(())
            }
            Err(_) => {
                give_back(&mut self.state.pins, job.pin.number, joined);
                self.stop_writing();
                Err(WriteError::Fault)
            }
        }
    }

    /// Gives a compaction up: its file becomes loose, and its pin ends. It makes no device call, and takes no memory.
    pub fn drop_compact(&mut self, job: CompactJob)
        requires job { (m : Machine) × CoreShows D.Device.own self.now m
            × OpenIn m (compact_of job) }
        ensures { Did D.Device.own self.old (DropCompact job.out.number) Fine self.new }
    {
        self.state.jobs.drop_compact();
        free_number(&mut self.state.pins, job.pin.number);
    }
}
