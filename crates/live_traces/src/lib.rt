//! What waits in memory: live rows, the head, and the rows of an open flush, in chunks that looks and flushes share.
//!
//! Contracts see lists of rows, and never chunks.
#![tactic(auto)]

mod chunk;
mod cut;
mod group;
mod live;
mod order;
mod rest;
mod run;
mod runs;

pub use chunk::{Chunk, SharedRow};
pub use live::{Live, Ready};
pub use rest::Rest;
pub use run::Run;
pub use runs::Runs;
