//! The parser of TraceQL: from a text to its query or its metrics query, or to the refusal of the earliest place.
//!
//! - The entry points: `text` (`parse`) and `metrics` (`parse_metrics`).
//! - Reading, each file over those before it: `leaf` (one token), `field` (field expressions), `spanset` (filters, and
//!   operators between spansets), `stage` (stages and queries).
//! - Below all of them: `lookahead` (what the first token is) and `stop` (why reading stops).
//!
//! The grammar is a definition of `traceql_syntax`; `specs/Outcome.antt` says what is answered, and which refusal.
#![tactic(auto)]

mod field;
mod leaf;
mod lookahead;
mod metrics;
mod spanset;
mod stage;
mod stop;
mod text;

pub use metrics::{one_metrics_query, parse_metrics};
pub use text::{depth_is_nesting, one_query, parse};
pub use traceql_syntax::ParseError;
