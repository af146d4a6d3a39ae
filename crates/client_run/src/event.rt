//! Events of a store and their replies, as plain values, so that a test can write a list of them.

use span_types::{Batch, Bytes, Failed, Memory, Rows, Seq};
use store_state::{PushError, ReclaimError, Step};

/// An event of a store.
#[derive(Debug, Drop)]
pub enum Event {
    /// A batch is pushed.
    Push {
        /// The batch.
        batch: Batch,
        /// The moment of its coming, in nanoseconds.
        moment: u64,
    },
    /// The traces that are idle at a moment are moved to the head.
    Cut {
        /// The moment, in nanoseconds.
        moment: u64,
    },
    /// All live traces are moved to the head.
    CutAll,
    /// The next step of a flush. One step after another they make whole rounds: a step after the end of a round begins
    /// the next.
    FlushStep,
    /// The next step of a compaction, in the same way. A page that a compaction reads is a step too.
    CompactStep,
    /// A look is taken. Looks are numbered from 0 as they are taken; one that is refused has no number.
    Look,
    /// A page of a block is read.
    Page {
        /// The number of the look whose pin names the block.
        look: u64,
        /// The block's file.
        block: u32,
        /// The page, counted from 0.
        page: u64,
    },
    /// A look is given back.
    Done {
        /// Its number.
        look: u64,
    },
    /// The loose files that no pin names are emptied.
    Reclaim,
}

/// What a look sees.
#[derive(Debug, Drop)]
pub struct Seen {
    /// The length of the history.
    pub as_of: u64,
    /// The rows outside of blocks.
    pub rows: Rows,
}

/// What an event is answered.
#[derive(Debug, Drop)]
pub enum EventReply {
    /// The look isn't open, or its pin doesn't name the block: nothing was done.
    Idle,
    /// A push: the number of the new entry, or why it was refused.
    Pushed(Result<u64, PushError>),
    /// A cut of idle traces: how many rows it moved.
    Cut(Result<u64, Memory>),
    /// A cut of all: how many rows it moved.
    CutAll(Result<u64, Memory>),
    /// A step of a flush or of a compaction: whether its round goes on, or how it ended.
    Stepped(Step),
    /// A look: what it sees.
    Looked(Result<Seen, Memory>),
    /// A page: its 4,096 bytes.
    Paged(Result<Bytes, Failed>),
    /// The look was given back.
    Ended,
    /// How many loose files were emptied.
    Reclaimed(Result<u64, ReclaimError>),
}

/// Events in order.
pub type Events = Seq<Event>;

/// Replies in the order of their events.
pub type Replies = Seq<EventReply>;
