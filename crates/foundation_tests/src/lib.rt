//! Tests of the lowest layer: spans and rows, sources, sinks and lines. They show what no clause says.
#![tactic(auto)]

#[cfg(test)]
mod io_tests;
#[cfg(test)]
mod span_tests;
