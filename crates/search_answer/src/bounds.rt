//! How much a search shows, by the options of its line.

/// How many results a search shows, and how much of each.
#[derive(Clone, Copy, Debug, PartialEq, Eq)]
pub struct Bounds {
    /// How many traces are shown at most.
    pub limit: u32,
    /// How many spans of each spanset are shown at most.
    pub spans_per_set: u32,
}
