//! A call and its reply, as proofs tell of them.

use span_types::{Batch, Failed, Memory};
use std::snapshot::Snapshot;
use store_state::{BeginError, CompactJob, FlushJob, Look, PushError, ReclaimError, WriteError};

// A call as it was asked.
#[derive(Drop)]
pub(crate) enum Asked<'a> {
    // A push of a batch at a moment.
    Push(Snapshot<Batch>, u64),
    // How many rows are held.
    Held,
    // A look.
    Look,
    // The end of the look with this pin.
    Done(u64),
    // A cut at a moment.
    Cut(u64),
    // A cut of all traces.
    CutAll,
    // A begin of a flush.
    BeginFlush,
    // Bytes for a file of a job, by the job's number and the file's.
    WritePiece(u64, u32, &'a [u8]),
    // The commit of the flush with this number, and how many rows its block has.
    CommitFlush(u64, u32),
    // The end of the flush with this number.
    DropFlush(u64),
    // A page of a block, by the number of a pin, of the block's file and of the page.
    ReadPage(u64, u32, u64),
    // A begin of a compaction.
    BeginCompact,
    // The commit of the compaction with this number, and how many rows its block has.
    CommitCompact(u64, u32),
    // The end of the compaction with this number.
    DropCompact(u64),
    // An emptying of loose files.
    Reclaim,
}

// What it was answered.
#[derive(Drop)]
pub(crate) enum Told<'a> {
    // A push.
    Pushed(&'a Result<u64, PushError>),
    // How many rows are held.
    Held(u64),
    // A look.
    Looked(&'a Result<Look, Memory>),
    // The end of a look or a job.
    Done,
    // A cut.
    Moved(&'a Result<u64, Memory>),
    // A begin of a flush.
    Flushing(&'a Result<Option<FlushJob>, BeginError>),
    // A piece or a commit.
    Written(&'a Result<(), WriteError>),
    // A page.
    Page(&'a [u8; 4096], &'a Result<(), Failed>),
    // A begin of a compaction.
    Compacting(&'a Result<Option<CompactJob>, BeginError>),
    // An emptying of loose files.
    Emptied(&'a Result<u64, ReclaimError>),
}
