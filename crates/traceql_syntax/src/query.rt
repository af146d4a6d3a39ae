//! Spansets, stages and queries, as trees.

use crate::{Comparison, Field, Operand};
use span_types::Seq;
use std::boxed::Box;

/// How two spans stand to each other: what the right one is to the left one.
#[derive(Clone, Copy, Debug, PartialEq, Eq)]
pub enum Relation {
    /// `>`
    Child,
    /// `>>`
    Descendant,
    /// `<`
    Parent,
    /// `<<`
    Ancestor,
    /// `~`
    Sibling,
}

/// Which spans a structural operator gives.
#[derive(Clone, Copy, Debug, PartialEq, Eq)]
pub enum Side {
    /// The right spans related to some left span; no prefix.
    Right,
    /// The right spans related to no left span; the prefix `!`.
    Unrelated,
    /// The related spans of both sides; the prefix `&`.
    Both,
}

/// An operator between two spansets.
#[derive(Clone, Copy, Debug, PartialEq, Eq)]
pub enum SpansetOp {
    /// `&&`
    And,
    /// `||`
    Or,
    /// A structural operator.
    Related(Relation, Side),
}

/// The levels at which operators between spansets group from the left, the tighter one first.
#[derive(Clone, Copy, Debug, PartialEq, Eq)]
pub enum SpansetLevel {
    /// The structural operators.
    Structure,
    /// `&&` and `||`.
    Union,
}

/// An expression that gives a spanset.
#[derive(Debug, Drop)]
pub enum SpansetExpr {
    /// The spans for which the condition is true: all where there is none.
    Filter {
        /// The place of the brace.
        at: u64,
        /// What stands in the braces.
        condition: Option<Operand>,
    },
    /// An operator between two spansets.
    Join {
        /// The operator's place.
        at: u64,
        /// The operator.
        op: SpansetOp,
        /// The left spanset.
        left: Box<SpansetExpr>,
        /// The right spanset.
        right: Box<SpansetExpr>,
    },
}

/// An aggregate of numbers.
#[derive(Clone, Copy, Debug, PartialEq, Eq)]
pub enum AggregateOp {
    /// `avg`
    Average,
    /// `min`
    Least,
    /// `max`
    Greatest,
    /// `sum`
    Sum,
}

/// An aggregate over the spans of a spanset.
#[derive(Debug, Drop)]
pub enum Aggregate {
    /// `count()`: how many spans there are.
    Count,
    /// One of the others, over the values of its argument.
    Of(AggregateOp, Operand),
}

/// What an aggregate is compared with.
#[derive(Debug, Drop)]
pub enum Threshold {
    /// Another aggregate.
    Aggregate(Aggregate),
    /// A number, below 2^63 before its sign.
    Number {
        /// The place of the number's first byte, which stands after its sign.
        at: u64,
        /// Whether a `-` stands before it.
        negative: bool,
        /// The number.
        value: u64,
    },
    /// A duration in nanoseconds, below 2^63 before its sign.
    Duration {
        /// The place of the duration's first byte, which stands after its sign.
        at: u64,
        /// Whether a `-` stands before it.
        negative: bool,
        /// The nanoseconds.
        nanos: u64,
    },
}

/// A stage of a query's pipeline.
#[derive(Debug, Drop)]
pub enum Stage {
    /// Keeps the spans for which the condition is true.
    Filter {
        /// The place of the brace.
        at: u64,
        /// What stands in the braces.
        condition: Option<Operand>,
    },
    /// `by(..)` splits each spanset by a value.
    By(Operand),
    /// `coalesce()` joins all spansets into one.
    Coalesce,
    /// `select(..)` adds fields to what is shown.
    Select(Fields),
    /// Keeps the spansets for which a comparison of an aggregate is true.
    Compare {
        /// The left side.
        left: Aggregate,
        /// The comparison's place.
        at: u64,
        /// The comparison.
        op: Comparison,
        /// The right side.
        right: Threshold,
    },
}

/// The fields of a `select`, in the text's order.
pub type Fields = Seq<Field>;

/// The stages of a query, in the text's order.
pub type Stages = Seq<Stage>;

/// A query: an expression over spansets and the stages after it.
#[derive(Debug, Drop)]
pub struct Query {
    /// What is looked for.
    pub spansets: SpansetExpr,
    /// What is done with it.
    pub stages: Stages,
}
