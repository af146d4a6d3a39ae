//! What a line may be answered, as `client_run` gives it and `writing` writes it.

use crate::Refusal;
use search_text::Texts;
use span_types::Rows;
use spanset_eval::{Results, SeriesList};

/// What a line is answered.
#[derive(Drop)]
pub enum Reply {
    /// The spans of a push were kept.
    Pushed {
        /// The number of the push, counted from 0.
        number: u64,
        /// How many spans were kept.
        accepted: u64,
        /// How many spans were rejected.
        rejected: u32,
        /// How many attributes, events and links were skipped.
        skipped: u32,
    },
    /// The spans of a trace.
    Traced {
        /// How many pushes the answer takes account of: those numbered below it.
        as_of: u64,
        /// The first occurrences of the trace's spans, in trace order: by start, then span id.
        rows: Rows,
    },
    /// The results of a search.
    Searched {
        /// How many pushes the answer takes account of: those numbered below it.
        as_of: u64,
        /// The query's selected fields, printed, in the text's order.
        fields: Texts,
        /// What the query leaves of each trace, in the order in which the traces are shown.
        results: Results,
    },
    /// The series of a metrics query.
    Measured {
        /// How many pushes the answer takes account of: those numbered below it.
        as_of: u64,
        /// The series, in the order of their values.
        series: SeriesList,
    },
    /// The idle traces were moved to the head.
    Cut {
        /// How many rows they have.
        moved: u64,
    },
    /// All live traces were moved to the head.
    CutAll {
        /// How many rows they have.
        moved: u64,
    },
    /// A block was made and listed.
    Flushed {
        /// How many rows it has.
        rows: u32,
    },
    /// No row waited for a flush.
    NothingFlushed,
    /// Blocks were joined, and the new one was listed in their place.
    Compacted {
        /// How many blocks were joined.
        blocks: u32,
        /// How many rows the new one has.
        rows: u32,
    },
    /// No two blocks fit together.
    NothingCompacted,
    /// Loose files were emptied.
    Reclaimed {
        /// How many.
        files: u64,
    },
    /// The store was closed and opened again.
    Reopened {
        /// How many pushes its history then has.
        entries: u64,
    },
    /// The line is refused, and nothing was kept.
    Refused(Refusal),
}
