//! The top call: a run of the program over a source, a sink and a disk, and the adapters over the real streams.
//!
//! - `top` has the entry points, `run` and `run_alone`. `dispatch` opens the store and does what the words of the
//!   command line say: `session` answers lines, `ingesting` pushes them, and `drilling` pushes lines that it makes.
//!   `serving` does so for several clients at once, to whom `dealing` deals the lines.
//! - The real program: `program` parts its arguments into folder and words, `real` has its standard streams.
//!
//! What `run` promises is `IsRunOf` of `session_meaning/specs/Runs.antt`; `docs/PROVED.md` has it in words.
#![tactic(auto)]

mod dealing;
mod dispatch;
mod drilling;
mod ingesting;
mod program;
mod real;
mod serving;
mod session;
mod top;

pub use program::{Given, Unread, all_arguments, folder_and_words};
pub use real::{StdinSource, StdoutSink};
pub use top::{Ended, exit_code, run, run_alone};
