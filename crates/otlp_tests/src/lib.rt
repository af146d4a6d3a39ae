//! Tests of reading and writing OTLP/JSON, and of the drill's lines, by the public calls of their crates.
#![tactic(auto)]

#[cfg(test)]
mod drill_lines;
#[cfg(test)]
mod lines;
#[cfg(test)]
mod reading_tests;
