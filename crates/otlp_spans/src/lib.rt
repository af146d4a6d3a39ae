//! OTLP/JSON trace requests: a line is read into its spans, and a trace is written.
//!
//! The JSON is that of OpenTelemetry's `ExportTraceServiceRequest`, with lowerCamelCase names, ids in hexadecimal digits
//! and moments in nanoseconds since 1970. [`read_line`] reads what the Collector's file exporter writes, and
//! [`write_trace`] writes what other tools read. `docs/OTLP.md` is the mapping.
#![tactic(auto)]

mod attributes;
mod errors;
mod events;
mod fields;
mod gathering;
mod ids;
mod json;
mod laws;
mod lists;
mod origins;
mod parts;
mod paths;
mod read;
mod values;
mod write;

pub use errors::OtlpError;
pub use fields::read_trace_id;
pub use laws::first_wrong_form;
pub use paths::{Member, Step};
pub use read::{Reading, read_line};
pub use write::write_trace;
