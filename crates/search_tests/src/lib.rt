//! Tests of searches: values, what queries select and leave, and the text of results.
//!
//! They say what no clause says: rows that were worked out by hand, and each public call once.
//!
//! - Values: `values`, `chains` (long ones on a small stack).
//! - Whole searches: `searches`, `one_span`, and `texts` for the text of results.
//! - What they share: `lines` (rows and queries of texts) and `told` (results as texts of tables).
#![tactic(auto)]

#[cfg(test)]
mod chains;
#[cfg(test)]
mod lines;
#[cfg(test)]
mod one_span;
#[cfg(test)]
mod searches;
#[cfg(test)]
mod texts;
#[cfg(test)]
mod told;
#[cfg(test)]
mod values;
