//! Values of field expressions, each with memory of its own: what results show.

use crate::Ratio;
use span_types::{Memory, Seq, SpanKind, StatusCode, Text, TryCopy};

/// What a field expression is for a span: a value of one of five kinds, or none.
#[derive(Drop)]
pub enum Value {
    /// No value.
    Nil,
    /// A truth.
    Truth(bool),
    /// A number. A duration is the number of its nanoseconds.
    Number(Ratio),
    /// A text.
    Text(Text),
    /// How a span ended.
    Status(StatusCode),
    /// A span's role.
    Kind(SpanKind),
}

impl TryCopy for Value {
    fn copy(&self) -> Result<Value, Memory> {
        match self {
            Value::Nil => Ok(Value::Nil),
            Value::Truth(truth) => Ok(Value::Truth(*truth)),
            Value::Number(number) => Ok(Value::Number(*number)),
            Value::Text(text) => Ok(Value::Text(text.copy()?)),
            Value::Status(status) => Ok(Value::Status(*status)),
            Value::Kind(kind) => Ok(Value::Kind(*kind)),
        }
    }
}

/// Values in order.
pub type Values = Seq<Value>;
