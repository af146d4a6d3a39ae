//! Which part of time a search asks for: `range::Range`, from the options `start` and `end` of a line to the test of a
//! span.
#![tactic(auto)]

mod range;

pub use range::Range;
