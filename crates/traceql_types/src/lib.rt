//! Kinds and patterns of TraceQL: which queries make sense before any span is looked at.
//!
//! - `checked` has the entry point, `check`: kinds are tested and patterns made, and of several refusals the earliest
//!   is given.
//! - Kinds: `kinds` (what is known of an expression's kind), `expressions` and `queries` (what is refused).
//! - Patterns: `asked` (which strings a query asks for), `maker` (what compiles them), `pattern`.
//! - `errors` is why a query is refused; `shared` says that a checked query may go to another thread.
//!
//! `specs/Kinds.antt` says what is known of an expression's kind, `specs/Refusals.antt` what is refused for its kind,
//! and `specs/Checks.antt` what an answer of `check` is.
#![tactic(auto)]

mod asked;
mod checked;
mod errors;
mod expressions;
mod kinds;
mod maker;
mod pattern;
mod queries;
mod shared;

pub use asked::{Asked, patterns_in_order, patterns_of};
pub use checked::{Checked, check};
pub use errors::{MakeError, TypeError};
pub use kinds::Kind;
pub use maker::{PatternMaker, RegexMaker, ScriptedMaker, refusals_are_counted};
pub use pattern::{Pattern, Patterns};
pub use shared::checked_crosses;
