//! Tests of blocks at their largest, by the public calls of the crates of blocks alone.
//!
//! - `sizes`: a trace for each of 1,048,576 rows, one trace of 300,000 rows, and rows that repeat.
//! - `merging`: four blocks of which each second span is in all four.
//! - `breaks`: a block of nine stripes, 13 pages of index and two of Bloom filters, malformed in a place or in two.
//! - `rows` is what is said of rows, `blocks` what is to be known of a block, for the others.
#![tactic(auto)]

#[cfg(test)]
mod blocks;
#[cfg(test)]
mod breaks;
#[cfg(test)]
mod merging;
#[cfg(test)]
mod rows;
#[cfg(test)]
mod sizes;
