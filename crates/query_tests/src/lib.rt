//! Tests of the query language: tokens, the queries that texts are, their printed form, and what a check of kinds
//! answers.
//!
//! They say what no clause says: rows that were worked out by hand, and each public call once.
#![tactic(auto)]

#[cfg(test)]
mod checks;
#[cfg(test)]
mod cuts;
#[cfg(test)]
mod metrics;
#[cfg(test)]
mod queries;
#[cfg(test)]
mod tokens;
