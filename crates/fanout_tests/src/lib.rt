//! Tests of traces that are evaluated in threads: windows and parts in their order, and a deep query on a thread's stack.
#![tactic(auto)]

#[cfg(test)]
mod fanned;
#[cfg(test)]
mod traces;
