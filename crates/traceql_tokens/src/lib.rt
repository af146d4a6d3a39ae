//! The lexer of TraceQL: which tokens a text has, where, and what is wrong with each.
//!
//! - `lexer` goes along a text and takes the longest token each time. Its `tokens` and `metrics_tokens` are the entry
//!   points, which the parser calls.
//! - Tokens of one kind: `numbers` (also durations, with `units`), `strings`, and `tables` (those whose text is
//!   `fixed`). `runs` says how far bytes of one kind go.
//! - `kinds` is what a token may be, and what may be wrong with it.
//!
//! `AreTokens` of `specs/Tokens.antt` says which tokens a text has; `docs/TRACEQL-TOKENS.md` has it in words.
#![tactic(auto)]

mod fixed;
mod kinds;
mod lexer;
mod numbers;
mod runs;
mod strings;
mod tables;
mod units;

pub use fixed::{AttributeScope, Intrinsic, Sign, Word};
pub use kinds::{Class, Fault, Token, TokenKind, Tokens};
pub use lexer::{metrics_tokens, one_reading, printed_tokens, tokens};
pub use units::TimeUnit;
