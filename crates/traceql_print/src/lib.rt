//! Queries and fields of TraceQL as text, in one fixed form.
//!
//! - The entry points are in `printing`: `print_query`, which only tests call, and `print_field`, by which replies
//!   name fields.
//! - Trees to tokens: `stage` and `expr`. Tokens to text: `printer` (where a space stands), `signs` (operators and
//!   words), `string` (quotes).
//!
//! The form is a definition: `specs/Kinds.antt` says which tokens a query is printed with, and `specs/Text.antt` how
//! each token is written and where a space stands. `docs/TRACEQL.md` has it in words.
#![tactic(auto)]

mod expr;
mod printer;
mod printing;
mod signs;
mod stage;
mod string;

pub use printing::{print_field, print_query, printed_once, read_back};
pub use signs::{kind_word, status_word};
