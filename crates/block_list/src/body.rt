//! What a list says: what `reading` makes of a slot's bytes, and `prepared` makes bytes of.

use span_types::Seq;

/// A log segment: its file and the number of its first record.
#[derive(Clone, Copy, Debug, PartialEq, Eq)]
pub struct SegmentRef {
    pub file: u32,
    pub first: u64,
}

/// A block: its file, its level and how many rows it has.
#[derive(Clone, Copy, Debug, PartialEq, Eq)]
pub struct BlockRef {
    pub file: u32,
    pub level: u8,
    pub rows: u32,
}

/// Log segments, the oldest first.
pub type SegmentList = Seq<SegmentRef>;

/// Blocks.
pub type BlockList = Seq<BlockRef>;

/// Numbers of files.
pub type FileList = Seq<u32>;

/// What a store's list says: its segments and blocks, the files that are to be emptied, from which push number on the
/// segments' rows stand in no block, and the number that the next file gets. Lists are told apart by their generation.
#[derive(Debug, Drop)]
pub struct ListBody {
    pub generation: u8,
    pub next_file: u32,
    pub floor: u64,
    pub segments: SegmentList,
    pub blocks: BlockList,
    pub loose: FileList,
}
