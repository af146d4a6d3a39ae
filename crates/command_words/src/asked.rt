//! What the words ask, and why they are not read.

use thiserror::Error;

/// What the words of the command line ask of the program.
#[derive(Debug, Drop)]
pub enum Asked {
    /// Answer each request line of the input.
    Session,
    /// Answer what several clients ask at once, by the lines of the input.
    Serve {
        /// How many clients there are: from 1 to 16.
        clients: u32,
        /// How often each of two more scripts keeps the store up meanwhile: at most 1,000 times.
        rounds: u32,
    },
    /// Push each line of the input, and keep the store up.
    Ingest,
    /// Push so many traces that are made from a seed, keep the store up, and search it.
    Drill {
        /// From which they are made.
        seed: u64,
        /// How many: from 1 to 100,000.
        traces: u32,
    },
    /// Answer one request line.
    Alone {
        /// The line that the words make: `trace ID`, or `search` with its options and its query. Each stands in it as
        /// it was given, whatever it says.
        line: String,
    },
}

/// Why words are not read.
#[derive(Clone, Copy, Debug, PartialEq, Eq, Error)]
pub enum WordsError {
    /// The words ask nothing that the program does.
    #[error("faulty command line")]
    Refused,
    /// Out of memory.
    #[error("memory")]
    Memory,
}
