//! The relations among the spans of one trace: children, descendants, parents, ancestors and siblings.
//!
//! A [`Tree`] is made once of a trace's rows. Each of its five calls takes marks, one for each row, and marks the
//! spans that stand in the relation to a marked one, in at most eight [`Steps`] a row. Any rows of one trace will do:
//! with spans whose parent isn't there, with several roots, with spans that are their own parents, and with rings of
//! spans. A tree takes memory and time in the number of rows, so a caller that has no marks need not make one.
//!
//! - `tree` has the entry points. `build` makes its tables, of what `node` keeps of each row.
//! - The walks: `reach` (where tables lead from marked spans) and `members` (spans of one family), over `visits`, the
//!   only way to entries and marks, each of which `steps` counts.
//!
//! The relations are defined in `specs/Relations.antt`.
#![tactic(auto)]

mod build;
mod members;
mod node;
mod reach;
mod steps;
mod tree;
mod visits;

pub use node::Node;
pub use steps::Steps;
pub use tree::Tree;
