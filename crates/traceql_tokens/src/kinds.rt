//! What a token is: its class, its value, its place, and what may be wrong with it.

use crate::{AttributeScope, Intrinsic, Sign, Word};
use span_types::{Seq, Text};

/// What is wrong with a token. Its class and its end are clear all the same, so the tokens after it are read.
/// A place counts bytes from the start of the text.
#[derive(Clone, Copy, Debug, PartialEq, Eq)]
pub enum Fault {
    /// A number or a duration of 2^63 or more.
    NumberRange,
    /// A bare decimal, or a duration below 2^63 that isn't a whole number of nanoseconds.
    FractionLiteral,
    /// A string that doesn't end; `at` is the place of its first quote.
    Unended {
        /// The place of the string's first quote.
        at: u64,
    },
    /// A string that ends, with a backslash before a character that makes no escape; `at` is the place of the
    /// first such backslash.
    UnknownEscape {
        /// The place of the backslash.
        at: u64,
    },
}

/// What a faulty token would be without its fault.
#[derive(Clone, Copy, Debug, PartialEq, Eq)]
pub enum Class {
    /// A string literal.
    Quoted,
    /// A number; a bare decimal is of this class.
    Number,
    /// A duration.
    Duration,
    /// An attribute, whose name is a faulty string.
    Attribute,
}

/// What a token is.
#[derive(Debug, Drop)]
pub enum TokenKind {
    /// A sign.
    Mark(Sign),
    /// A word.
    Keyword(Word),
    /// An intrinsic, as it is written.
    Builtin(Intrinsic),
    /// An attribute and its name, which isn't empty.
    Named(AttributeScope, Text),
    /// A string literal, seen as what it stands for.
    Quoted(Text),
    /// A number below 2^63.
    Number(u64),
    /// A duration, a whole number of nanoseconds below 2^63.
    Duration(u64),
    /// A token with a fault.
    Broken(Class, Fault),
    /// An attribute without a name, or with the empty string for one. No rule of the grammar allows it.
    Nameless,
    /// A byte that begins no token. It is the last of the list, and no rule of the grammar allows it.
    Unknown,
}

/// A token and the place of its first byte, counted in bytes from the start of the text.
#[derive(Debug, Drop)]
pub struct Token {
    /// The place of its first byte.
    pub at: u64,
    /// What it is.
    pub kind: TokenKind,
}

/// The tokens of a text, in its order.
pub type Tokens = Seq<Token>;
