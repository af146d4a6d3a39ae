//! Why a line is refused: what `reading` and `client_run` find, and `writing` names in a reply.

use span_types::Text;

/// Why a line is refused.
#[derive(Debug, Drop)]
pub enum Refusal {
    /// The line has more than 16,777,216 bytes.
    TooLong {
        /// How many it has.
        length: u64,
    },
    /// The line is none that can be asked.
    BadRequest {
        /// The first byte of the first part that can't stand there, and the line's length where a part is missing.
        at: u64,
    },
    /// What is pushed is no JSON.
    BadJson,
    /// What is pushed is JSON, and no trace request.
    BadOtlp {
        /// Where the first part of the wrong form stands, as `$.resourceSpans[0].scopeSpans`.
        path: Text,
    },
    /// What is pushed has more than 16,384 span objects.
    TooMany {
        /// How many it has.
        spans: u64,
    },
    /// What is searched for is no query.
    BadQuery(QueryFault),
    /// The kinds of a query don't fit.
    BadType(KindFault),
    /// A text in a query is no pattern.
    BadPattern {
        /// The first byte of its string, counted in the query.
        at: u64,
    },
    /// A pattern in a query was refused for its size.
    PatternTooBig {
        /// The first byte of its string, counted in the query.
        at: u64,
    },
    /// A metrics query asks for more than 1,000 buckets.
    TooManyBuckets {
        /// How many it asks for.
        count: u64,
    },
    /// With the push the store would hold more than 262,144 rows outside of blocks.
    LiveFull {
        /// How many it holds.
        held: u64,
    },
    /// The history has as many entries as it may have.
    StoreFull {
        /// How many it has: 4,294,967,295.
        pushes: u64,
    },
    /// A write, a cut or a sync of the disk failed since the store was opened.
    ReadOnly {
        /// How many faults the disk had counted after the first that did.
        faults: u64,
    },
    /// A call of the disk failed for this request.
    DiskFault,
    /// A round of a flush or of a compaction was refused.
    Round(store_state::Refusal),
    /// The store is closed, since the last opening of it was refused. The line wasn't read.
    Closed,
    /// What the disk holds is no store.
    NotStore {
        /// The file that is malformed.
        file: u32,
        /// The byte at which it is.
        at: u64,
    },
    /// Memory ran out.
    Memory,
}

/// Why a text is no query. Places count bytes from the query's start.
#[derive(Clone, Copy, Debug, PartialEq, Eq)]
pub enum QueryFault {
    /// A byte that begins no token, or the backslash of an unknown escape.
    BadChar {
        /// The byte's place.
        at: u64,
    },
    /// A token that can't stand there.
    Unexpected {
        /// The token's first byte.
        at: u64,
    },
    /// A string that doesn't end, or a text that ends before its query does.
    Unended {
        /// The string's first quote, or the text's length.
        at: u64,
    },
    /// A number or a duration of 2^63 or more.
    NumberRange {
        /// The token's first byte.
        at: u64,
    },
    /// A bare decimal, or a duration that isn't a whole number of nanoseconds.
    FractionLiteral {
        /// The token's first byte.
        at: u64,
    },
    /// The 65th construct that is open at one place.
    TooDeep {
        /// The token's first byte.
        at: u64,
    },
    /// A text of more than 8,192 bytes.
    TooLong {
        /// How many it has.
        length: u64,
    },
}

/// Why the kinds of a query don't fit. Places count bytes from the query's start.
#[derive(Clone, Copy, Debug, PartialEq, Eq)]
pub enum KindFault {
    /// A comparison whose sides don't go together, or a `nil` that isn't compared.
    KindClash {
        /// The first byte of the comparison's operator, or of the `nil`.
        at: u64,
    },
    /// An operand that is no truth, where a truth is wanted.
    NotTruth {
        /// The operand's first byte.
        at: u64,
    },
    /// A division in an aggregate's argument.
    DivisionInAggregate {
        /// The place of the `/`.
        at: u64,
    },
    /// An operand that is no number, where a number is wanted.
    NotNumber {
        /// The operand's first byte.
        at: u64,
    },
}
