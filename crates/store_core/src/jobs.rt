//! Open jobs, the files that they were given, and files that are loose. Nothing here touches a disk.

ghost use Rattle.std.specs.Prelude.{◌≡◌, ℕ, ◌≤◌, ◌<◌, ◌+◌, ◌-◌, ◌*◌, ◌^◌, ◌++◌, length, min, take, None, Some, IfOk, IfSome, IsSome, OnOk, OnErr};
ghost use Rattle.std.specs.Vec.{vec_len, vec_capacity};
ghost use Rattle.block_list.specs.declared.body.ListBody.{ListBody};
ghost use Rattle.store_core.specs.Jobs.{CommitFits, HasNoJobs, HaveRoomFor, SameJobs, SameFlush, SameCompaction, files_of_flush, files_of_compaction, one_if, open_jobs};
ghost use Rattle.store_state.specs.Edited.{one_of};
ghost use Rattle.store_state.specs.Loose.{flush_part};

use crate::room::CommitRoom;
use block_list::ListBody;
use span_types::Memory;
use std::alloc::Global;
use store_state::{FlushFiles, MOST_LISTED};

/// The first file number that no job gets any more.
pub(crate) const LAST_FILE: u32 = 4_294_967_294;

/// An open flush.
#[derive(Drop)]
pub struct OpenFlush {
    /// The job's number.
    pub number: u64,
    /// Its block's file and its new segment's.
    pub files: FlushFiles,
    /// Room for what its commit makes; none once a commit failed.
    pub room: Option<CommitRoom>,
}

/// An open compaction.
#[derive(Drop)]
pub struct OpenCompaction {
    /// The job's number.
    pub number: u64,
    /// Its block's file.
    pub file: u32,
    /// Its block's level.
    pub level: u8,
    /// The number of its pin.
    pub pin: u64,
    /// Room for what its commit makes; none once a commit failed.
    pub room: Option<CommitRoom>,
}

/// The jobs of a store, and the files that are named in no list yet.
#[derive(Drop)]
pub struct Jobs {
    /// How many jobs were begun since opening.
    pub begun: u64,
    /// The next file number that is given out.
    pub next_file: u32,
    /// Files that are neither blocks nor segments nor an open job's, and aren't known to be empty.
    pub loose: Vec<u32>,
    /// The open flush.
    pub flush: Option<OpenFlush>,
    /// The open compaction.
    pub compaction: Option<OpenCompaction>,
}

impl Jobs {
    /// The jobs of a store that is opened.
    pub(crate) fn idle(alloc: Global, next_file: u32) -> Jobs
        ensures { HasNoJobs result next_file }
    {
        Jobs {
            begun: 0,
            next_file,
            loose: Vec::new(alloc),
            flush: None,
            compaction: None,
        }
    }

    /// Takes the memory that the ends of a job which begins and of the other open one need, while this list counts: room for the
    /// files that are loose then, however each job ends, and for the lists of their commits. That of the job which begins is
    /// answered.
    pub(crate) fn make_room(&mut self, alloc: Global, list: &ListBody) -> Result<CommitRoom, Memory>
        requires { open_jobs self.now ≤ 1 }
        ensures fits { IfOk result (λ room. CommitFits room list.now (vec_len self.new.loose) 2) }
        ensures others { OnOk result (HaveRoomFor 2 self.new list.now) }
        ensures room { OnOk result
            (vec_len self.new.loose + length list.now.segments + length list.now.blocks + 4
            ≤ vec_capacity self.new.loose) }
        ensures same { SameJobs self.old self.new }
        ensures refused { OnErr result
            ((self.new.flush ≡ self.old.flush) × (self.new.compaction ≡ self.old.compaction)
            × (vec_capacity self.old.loose ≤ vec_capacity self.new.loose)) }
    {
        let (segments, blocks) = (list.segments.len(), list.blocks.len());
        if segments > MOST_LISTED || blocks > MOST_LISTED {
            return Err(Memory);
        }
        self.loose.reserve(segments + blocks + 4)?;
        let loose = self.loose.len();
        let room = CommitRoom::after(alloc, list, loose)?;
        let other = CommitRoom::after(alloc, list, loose)?;
        self.renew(other);
        Ok(room)
    }

    // The open job, if there is one, gets this room for its commit.
    fn renew(&mut self, room: CommitRoom)
        requires { open_jobs self.now ≤ 1 }
        ensures rooms { (list : ListBody) (count : ℕ)
            → CommitFits room list (vec_len self.old.loose) count →
            HaveRoomFor count self.new list }
        ensures same { SameFlush self.old.flush self.new.flush
            × SameCompaction self.old.compaction self.new.compaction }
        ensures others { (self.new.begun ≡ self.old.begun)
            × (self.new.next_file ≡ self.old.next_file)
            × (self.new.loose ≡ self.old.loose) }
    {
        if let Some(flush) = &mut self.flush {
            flush.room = Some(room);
        } else if let Some(compaction) = &mut self.compaction {
            compaction.room = Some(room);
        }
    }

    /// The files of a flush that is to begin.
    pub(crate) fn next_files(&self) -> FlushFiles
        requires { self.now.next_file < 4294967294 }
        ensures { (result.block ≡ self.now.next_file) × (result.segment ≡ self.now.next_file + 1) }
    {
        FlushFiles {
            block: self.next_file,
            segment: self.next_file + 1,
        }
    }

    /// A flush begins with the next files, and gets its number.
    pub(crate) fn begin_flush(&mut self, files: FlushFiles, room: CommitRoom) -> u64
        requires { self.now.next_file < 4294967294 }
        ensures number { (result ≡ self.new.begun)
            × (self.new.begun ≡ min (self.old.begun + 1) (2 ^ 64 - 1)) }
        ensures next_file { self.new.next_file ≡ self.old.next_file + 2 }
        ensures flush { self.new.flush
            ≡ Some (record { number = self.new.begun; files = files; room = Some room }) }
        ensures same { (self.new.loose ≡ self.old.loose)
            × (self.new.compaction ≡ self.old.compaction) }
    {
        self.begun = self.begun.saturating_add(1);
        self.next_file += 2;
        self.flush = Some(OpenFlush {
            number: self.begun,
            files,
            room: Some(room),
        });
        self.begun
    }

    /// A compaction begins with the next file, and gets its number.
    pub(crate) fn begin_compact(&mut self, level: u8, pin: u64, room: CommitRoom) -> u64
        requires { self.now.next_file < 4294967294 }
        ensures number { (result ≡ self.new.begun)
            × (self.new.begun ≡ min (self.old.begun + 1) (2 ^ 64 - 1)) }
        ensures next_file { self.new.next_file ≡ self.old.next_file + 1 }
        ensures compaction { self.new.compaction ≡ Some (record {
          number = self.new.begun;
          file = self.old.next_file;
          level = level;
          pin = pin;
          room = Some room;
        }) }
        ensures same { (self.new.loose ≡ self.old.loose) × (self.new.flush ≡ self.old.flush) }
    {
        self.begun = self.begun.saturating_add(1);
        let file = self.next_file;
        self.next_file += 1;
        self.compaction = Some(OpenCompaction {
            number: self.begun,
            file,
            level,
            pin,
            room: Some(room),
        });
        self.begun
    }

    /// The open compaction is given up, and its file becomes loose. It takes no memory.
    pub(crate) fn drop_compact(&mut self)
        requires { IfSome self.now.compaction
            (λ known. vec_len self.now.loose + 1 ≤ vec_capacity self.now.loose) }
        ensures gone { self.new.compaction ≡ None }
        ensures loose { self.new.loose.items
            ≡ self.old.loose.items ++ files_of_compaction self.old.compaction }
        ensures same { (self.new.begun ≡ self.old.begun) × (self.new.next_file ≡ self.old.next_file)
            × (self.new.flush ≡ self.old.flush) }
        ensures room { vec_capacity self.old.loose ≤ vec_capacity self.new.loose }
    {
        if let Some(compaction) = self.compaction.take() {
            self.loose.push_reserved(compaction.file);
        }
    }

    /// Takes the room of the open compaction's commit, and answers it after the compaction's file and level. The compaction stays
    /// open.
    pub(crate) fn take_compact_room(&mut self) -> (u32, u8, CommitRoom)
        requires open { IsSome self.now.compaction }
        requires room { IfSome self.now.compaction (λ known. IsSome known.room) }
        ensures taken { IfSome self.old.compaction
            (λ known. (result.0 ≡ known.file) × (result.1 ≡ known.level)
            × (known.room ≡ Some result.2)
            × (self.new.compaction ≡ Some (record known { room = None }))) }
        ensures same { (self.new.begun ≡ self.old.begun) × (self.new.next_file ≡ self.old.next_file)
            × (self.new.loose ≡ self.old.loose) × (self.new.flush ≡ self.old.flush) }
    {
        let Some(compaction) = self.compaction.take() else {
            unreachable!()
        };
        let OpenCompaction {
            number,
            file,
            level,
            pin,
            room,
        } = compaction;
        let Some(room) = room else { unreachable!() };
        self.compaction = Some(OpenCompaction {
            number,
            file,
            level,
            pin,
            room: None,
        });
        (file, level, room)
    }

    /// The open flush is given up, and its files become loose. It takes no memory.
    pub(crate) fn drop_flush(&mut self)
        requires { IfSome self.now.flush
            (λ known. vec_len self.now.loose + 2 ≤ vec_capacity self.now.loose) }
        ensures gone { self.new.flush ≡ None }
        ensures loose { self.new.loose.items
            ≡ self.old.loose.items ++ files_of_flush self.old.flush }
        ensures same { (self.new.begun ≡ self.old.begun) × (self.new.next_file ≡ self.old.next_file)
            × (self.new.compaction ≡ self.old.compaction) }
        ensures room { vec_capacity self.old.loose ≤ vec_capacity self.new.loose }
    {
        if let Some(flush) = self.flush.take() {
            self.loose.push_reserved(flush.files.block);
            self.loose.push_reserved(flush.files.segment);
        }
    }

    /// Takes the room of the open flush's commit, and answers it after the flush's files. The flush stays open.
    pub(crate) fn take_room(&mut self) -> (FlushFiles, CommitRoom)
        requires open { IsSome self.now.flush }
        requires room { IfSome self.now.flush (λ known. IsSome known.room) }
        ensures taken { IfSome self.old.flush
            (λ known. (result.0 ≡ known.files) × (known.room ≡ Some result.1)
            × (self.new.flush ≡ Some (record known { room = None }))) }
        ensures same { (self.new.begun ≡ self.old.begun) × (self.new.next_file ≡ self.old.next_file)
            × (self.new.loose ≡ self.old.loose) × (self.new.compaction ≡ self.old.compaction) }
    {
        let Some(flush) = self.flush.take() else {
            unreachable!()
        };
        let OpenFlush {
            number,
            files,
            room,
        } = flush;
        let Some(room) = room else { unreachable!() };
        self.flush = Some(OpenFlush {
            number,
            files,
            room: None,
        });
        (files, room)
    }

    /// The open flush was committed by a list that names these files as loose: they are loose then, but for that of an open
    /// compaction, which stands last. It answers the flush's files, and takes no memory.
    pub(crate) fn end_flush(&mut self, named: &[u32]) -> FlushFiles
        requires open { IsSome self.now.flush }
        requires other { one_if self.now.compaction ≤ length named.now }
        requires room { length named.now ≤ vec_capacity self.now.loose }
        ensures files { IfSome self.old.flush (λ known. result ≡ known.files) }
        ensures gone { self.new.flush ≡ None }
        ensures loose { self.new.loose.items
            ≡ take (length named.now - one_if self.old.compaction) named.now }
        ensures same { (self.new.begun ≡ self.old.begun) × (self.new.next_file ≡ self.old.next_file)
            × (self.new.compaction ≡ self.old.compaction) }
        ensures room { vec_capacity self.old.loose ≤ vec_capacity self.new.loose }
    {
        let Some(flush) = self.flush.take() else {
            unreachable!()
        };
        let others = if self.compaction.is_some() { 1 } else { 0 };
        self.keep_loose(&named[..named.len() - others]);
        flush.files
    }

    /// The open compaction was committed by a list that names these files as loose: they are loose then, but for those of an open
    /// flush, which stand last. It takes no memory.
    pub(crate) fn end_compact(&mut self, named: &[u32])
        requires other { 2 * one_if self.now.flush ≤ length named.now }
        requires room { length named.now ≤ vec_capacity self.now.loose }
        ensures gone { self.new.compaction ≡ None }
        ensures loose { self.new.loose.items
            ≡ take (length named.now - 2 * one_if self.old.flush) named.now }
        ensures same { (self.new.begun ≡ self.old.begun) × (self.new.next_file ≡ self.old.next_file)
            × (self.new.flush ≡ self.old.flush) }
        ensures room { vec_capacity self.old.loose ≤ vec_capacity self.new.loose }
    {
        self.compaction = None;
        let others = if self.flush.is_some() { 2 } else { 0 };
        self.keep_loose(&named[..named.len() - others]);
    }

    /// These files are loose. It takes no memory.
    pub(crate) fn keep_loose(&mut self, files: &[u32])
        requires { length files.now ≤ vec_capacity self.now.loose }
        ensures loose { self.new.loose.items ≡ files.now }
        ensures room { vec_capacity self.old.loose ≤ vec_capacity self.new.loose }
        ensures same { self.new ≡ record self.old { loose = self.new.loose } }
    {
        self.loose.clear();
        match self.loose.extend_from_slice(files) {
            Ok(()) => {}
            Err(_) => unreachable!(),
        }
    }

    /// The file of an open compaction.
    pub(crate) fn compact_file(&self) -> Option<u32>
        ensures { one_of result ≡ files_of_compaction self.now.compaction }
    {
        match &self.compaction {
            Some(compaction) => Some(compaction.file),
            None => None,
        }
    }

    /// The files of an open flush.
    pub(crate) fn flush_files(&self) -> Option<FlushFiles>
        ensures { flush_part result ≡ files_of_flush self.now.flush }
    {
        match &self.flush {
            Some(flush) => Some(flush.files),
            None => None,
        }
    }
}
