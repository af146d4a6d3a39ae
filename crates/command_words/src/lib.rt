//! The words of the program's command line, those after the program's name and the store's folder: one command of the
//! crate `clap` with a subcommand for each thing that the program does.
//!
//! `read` has the entry point, `read_words`, which `trace_shell` calls. `command` builds the command, `asked` is what
//! words ask, `line` makes the request line of a look-up or a search, `number` reads the numbers of a drill, and `serve`
//! those of a run that serves several clients.
#![tactic(auto)]

mod asked;
mod command;
mod laws;
mod line;
mod number;
mod read;
mod serve;

pub use asked::{Asked, WordsError};
pub use laws::what_words_spell;
pub use read::read_words;
pub use serve::asks_to_serve;
