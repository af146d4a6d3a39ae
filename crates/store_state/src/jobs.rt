//! What a store hands out: looks and jobs.

use block_info::Infos;
use live_traces::Runs;

/// Blocks whose bytes stay while it is open.
#[derive(Drop)]
pub struct Pin {
    /// Its number: the least that no open pin has.
    pub number: u64,
    /// The blocks.
    pub blocks: Infos,
}

/// What a query sees: together its rows and its blocks hold the first occurrences of the history at one length.
#[derive(Drop)]
pub struct Look {
    /// The listed blocks.
    pub pin: Pin,
    /// The length of the history.
    pub as_of: u64,
    /// The rows outside of blocks.
    pub rows: Runs,
}

/// The file that a job writes.
#[derive(Drop)]
pub struct JobFile {
    /// The job's number, counted from 1 over flushes and compactions since opening.
    pub number: u64,
    /// The file.
    pub file: u32,
    /// How many bytes were written.
    pub written: u64,
}

/// An open flush.
#[derive(Drop)]
pub struct FlushJob {
    /// The block's file.
    pub out: JobFile,
    /// The rows that it took from the head.
    pub rows: Runs,
}

/// An open compaction.
#[derive(Drop)]
pub struct CompactJob {
    /// The new block's file.
    pub out: JobFile,
    /// The blocks that it joins.
    pub pin: Pin,
    /// The new block's level.
    pub level: u8,
}
