//! Batches with the numbers of their records: what reading a segment gives.

use span_types::{Batch, Seq};

/// A batch and the number of its record.
#[derive(Debug, Drop)]
pub struct NumberedBatch {
    /// The number.
    pub number: u64,
    /// The batch.
    pub batch: Batch,
}

/// A list of batches with their numbers.
pub type Numbered = Seq<NumberedBatch>;
