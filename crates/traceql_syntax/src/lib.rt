//! The syntax of TraceQL: queries as trees, the grammar that relates them to tokens, and what a refusal is.
//!
//! `field` has expressions within a filter, `query` what stands around them, `metrics` a metrics query; `errors` is
//! why a text is none.
//!
//! The grammar is a definition, `specs/Grammar.antt`, with a rule for each production. `docs/TRACEQL.md` has the
//! language in words.
#![tactic(auto)]

mod errors;
mod field;
mod metrics;
mod query;

pub use errors::ParseError;
pub use field::{BinaryOp, Comparison, Field, FieldExpr, Level, Literal, Operand, UnaryOp};
pub use metrics::MetricsQuery;
pub use query::{
    Aggregate, AggregateOp, Fields, Query, Relation, Side, SpansetExpr, SpansetLevel, SpansetOp,
    Stage, Stages, Threshold,
};
