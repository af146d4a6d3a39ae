//! Field expressions: what stands in a filter, in `by` and in an aggregate.

use span_types::{SpanKind, StatusCode, Text};
use std::boxed::Box;
use traceql_tokens::{AttributeScope, Intrinsic};

/// A unary operator.
#[derive(Clone, Copy, Debug, PartialEq, Eq)]
pub enum UnaryOp {
    /// `-`
    Negate,
    /// `!`
    Not,
}

/// A comparison.
#[derive(Clone, Copy, Debug, PartialEq, Eq)]
pub enum Comparison {
    /// `=`
    Equal,
    /// `!=`
    NotEqual,
    /// `<`
    Less,
    /// `<=`
    AtMost,
    /// `>`
    Greater,
    /// `>=`
    AtLeast,
}

/// A binary operator between two field expressions.
#[derive(Clone, Copy, Debug, PartialEq, Eq)]
pub enum BinaryOp {
    /// `||`
    Or,
    /// `&&`
    And,
    /// A comparison.
    Compare(Comparison),
    /// `+`
    Add,
    /// `-`
    Subtract,
    /// `*`
    Multiply,
    /// `/`
    Divide,
    /// `%`
    Remainder,
    /// `^`
    Power,
}

/// The levels at which binary operators group from the left, from the tightest to the loosest.
#[derive(Clone, Copy, Debug, PartialEq, Eq)]
pub enum Level {
    /// `*`, `/` and `%`.
    Product,
    /// `+` and `-`.
    Sum,
    /// The comparisons, `=~` and `!~`.
    Comparison,
    /// `&&` and `||`.
    Choice,
}

/// A literal.
#[derive(Debug, Drop)]
pub enum Literal {
    /// A string.
    Text(Text),
    /// A number below 2^63.
    Number(u64),
    /// A duration in nanoseconds, below 2^63.
    Duration(u64),
    /// `true` or `false`.
    Truth(bool),
    /// `nil`
    Nil,
    /// `error`, `ok` or `unset`.
    Status(StatusCode),
    /// `server`, `client`, `producer`, `consumer`, `internal` or `unspecified`.
    Kind(SpanKind),
}

/// What a query can ask of a span.
#[derive(Debug, Drop)]
pub enum Field {
    /// An attribute: where it is looked for, and its name, which isn't empty.
    Attribute(AttributeScope, Text),
    /// An intrinsic, as it was written.
    Intrinsic(Intrinsic),
}

/// A field expression and the place of its first byte, which is a parenthesis where it stands in parentheses.
#[derive(Debug, Drop)]
#[cycle(ast)]
pub struct Operand {
    /// The place of the first byte, in bytes from the start of the text.
    pub at: u64,
    /// The expression.
    pub expr: FieldExpr,
}

/// A field expression. Each operator and each literal keeps the place of its first byte.
#[derive(Debug, Drop)]
#[cycle(ast)]
pub enum FieldExpr {
    /// A literal.
    Literal {
        /// Its place.
        at: u64,
        /// Its value.
        literal: Literal,
    },
    /// A field of the span.
    Field {
        /// Its place.
        at: u64,
        /// Which field.
        field: Field,
    },
    /// A unary operator before its operand.
    Unary {
        /// The operator's place.
        at: u64,
        /// The operator.
        op: UnaryOp,
        /// What it is applied to.
        operand: Box<Operand>,
    },
    /// A binary operator between its operands.
    Binary {
        /// The operator's place.
        at: u64,
        /// The operator.
        op: BinaryOp,
        /// The left operand.
        left: Box<Operand>,
        /// The right operand.
        right: Box<Operand>,
    },
    /// A match with a pattern, `=~`, or its opposite, `!~`.
    Match {
        /// The operator's place.
        at: u64,
        /// Whether the operator is `!~`.
        negated: bool,
        /// The left operand.
        left: Box<Operand>,
        /// The pattern's place.
        pattern_at: u64,
        /// The pattern.
        pattern: Text,
    },
}
