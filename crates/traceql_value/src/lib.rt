//! The values that TraceQL's field expressions have.
//!
//! Numbers are exact fractions: a [`Ratio`] has a numerator of 64 signed bits and a denominator from 1 to 2^63 - 1, in
//! lowest terms. A result outside of these bounds is no value. An [`EvalContext`] says what an expression is for a
//! span of one trace. [`Matchers`] are made once for a query, and lent to one trace's context after another.
//!
//! - The entry points: `context` (a trace and a query's matchers) and `matchers` (a query's patterns, ready to
//!   search).
//! - Evaluating: `evaluate` (expressions), `operators`, `fields` (what a span has), `trace` and `whole` (what a trace
//!   has as a whole).
//! - Values: `value` (of its own), `value_ref` (looked at where it stands), `order`, and `ratio` with `divisor` and
//!   `power`.
//! - `laws` holds theorems.
//!
//! What an expression is for a span is defined in `specs/Meaning.antt`; `docs/TRACEQL.md` has it in words.
#![tactic(auto)]

mod context;
mod divisor;
mod evaluate;
mod fields;
mod laws;
mod matchers;
mod operators;
mod order;
mod power;
mod ratio;
mod trace;
mod value;
mod value_ref;
mod whole;

pub use context::{EvalContext, field_value};
pub use divisor::common_divisor;
pub use laws::{
    one_ratio, root_is_first, strings_are_answered, trace_is_bounded, values_in_order,
    whole_without_division,
};
pub use matchers::Matchers;
pub use operators::accepts;
pub use ratio::Ratio;
pub use value::{Value, Values};
pub use value_ref::ValueRef;
