//! The tables of the tokens whose text is fixed, and which of them bytes begin with.

ghost use Rattle.std.specs.Prelude.{◌≡◌, nat_eq, Option};
ghost use Rattle.std.specs.List.{find, starts_with};
ghost use Rattle.traceql_tokens.specs.Fixed.{sign_text, word_text, intrinsic_text, scope_text, unit_text};

use crate::{AttributeScope, Intrinsic, Sign, TimeUnit, Word};

/// The signs, a longer one before each that it begins with.
const SIGNS: [Sign; 36] = [
    Sign::BangGreaterGreater,
    Sign::BangLessLess,
    Sign::AmpGreaterGreater,
    Sign::AmpLessLess,
    Sign::BarBar,
    Sign::AmpAmp,
    Sign::GreaterGreater,
    Sign::LessLess,
    Sign::BangEqual,
    Sign::BangTilde,
    Sign::BangGreater,
    Sign::BangLess,
    Sign::AmpGreater,
    Sign::AmpLess,
    Sign::AmpTilde,
    Sign::EqualTilde,
    Sign::GreaterEqual,
    Sign::LessEqual,
    Sign::OpenBrace,
    Sign::CloseBrace,
    Sign::OpenParen,
    Sign::CloseParen,
    Sign::Comma,
    Sign::Bar,
    Sign::Amp,
    Sign::Greater,
    Sign::Less,
    Sign::Tilde,
    Sign::Bang,
    Sign::Equal,
    Sign::Plus,
    Sign::Minus,
    Sign::Star,
    Sign::Slash,
    Sign::Percent,
    Sign::Caret,
];

/// The words of a query.
pub(crate) const WORDS: [Word; 20] = [
    Word::Unspecified,
    Word::Producer,
    Word::Consumer,
    Word::Internal,
    Word::Coalesce,
    Word::Server,
    Word::Client,
    Word::Select,
    Word::False,
    Word::Error,
    Word::Unset,
    Word::Count,
    Word::True,
    Word::Nil,
    Word::Avg,
    Word::Min,
    Word::Max,
    Word::Sum,
    Word::Fine,
    Word::By,
];

/// The words of a metrics query, a longer one before each that it begins with.
pub(crate) const METRICS_WORDS: [Word; 22] = [
    Word::CountOverTime,
    Word::Unspecified,
    Word::Producer,
    Word::Consumer,
    Word::Internal,
    Word::Coalesce,
    Word::Server,
    Word::Client,
    Word::Select,
    Word::False,
    Word::Error,
    Word::Unset,
    Word::Count,
    Word::True,
    Word::Rate,
    Word::Nil,
    Word::Avg,
    Word::Min,
    Word::Max,
    Word::Sum,
    Word::Fine,
    Word::By,
];

/// The intrinsics, a longer one before each that it begins with.
const INTRINSICS: [Intrinsic; 21] = [
    Intrinsic::InstrumentationVersion,
    Intrinsic::InstrumentationName,
    Intrinsic::SpanStatusMessage,
    Intrinsic::TraceRootService,
    Intrinsic::RootServiceName,
    Intrinsic::TraceColonDuration,
    Intrinsic::TraceRootName,
    Intrinsic::StatusMessage,
    Intrinsic::SpanDuration,
    Intrinsic::SpanParentId,
    Intrinsic::TraceDuration,
    Intrinsic::SpanStatus,
    Intrinsic::SpanName,
    Intrinsic::SpanKind,
    Intrinsic::Duration,
    Intrinsic::TraceId,
    Intrinsic::RootName,
    Intrinsic::SpanId,
    Intrinsic::Status,
    Intrinsic::Name,
    Intrinsic::Kind,
];

/// What an attribute may begin with.
const SCOPES: [AttributeScope; 4] = [
    AttributeScope::Any,
    AttributeScope::Span,
    AttributeScope::Resource,
    AttributeScope::Instrumentation,
];

/// The units, a longer one before each that it begins with.
const UNITS: [TimeUnit; 6] = [
    TimeUnit::Nanos,
    TimeUnit::Micros,
    TimeUnit::Millis,
    TimeUnit::Seconds,
    TimeUnit::Minutes,
    TimeUnit::Hours,
];

/// The longest sign that the bytes begin with.
pub(crate) fn sign_at(bytes: &[u8]) -> Option<Sign>
    ensures { result ≡ find (λ x. starts_with nat_eq bytes.now (sign_text x)) SIGNS }
{
    SIGNS
        .iter()
        .copied()
        .find(|x| bytes.starts_with(x.text().as_bytes()))
}

/// The first of these words that the bytes begin with.
pub(crate) fn word_at(words: &[Word], bytes: &[u8]) -> Option<Word>
    ensures { result ≡ find (λ x. starts_with nat_eq bytes.now (word_text x)) words.now }
{
    words
        .iter()
        .copied()
        .find(|x| bytes.starts_with(x.text().as_bytes()))
}

/// The longest intrinsic that the bytes begin with.
pub(crate) fn intrinsic_at(bytes: &[u8]) -> Option<Intrinsic>
    ensures { result ≡ find (λ x. starts_with nat_eq bytes.now (intrinsic_text x)) INTRINSICS }
{
    INTRINSICS
        .iter()
        .copied()
        .find(|x| bytes.starts_with(x.text().as_bytes()))
}

/// Whose attribute the bytes begin with.
pub(crate) fn scope_at(bytes: &[u8]) -> Option<AttributeScope>
    ensures { result ≡ find (λ x. starts_with nat_eq bytes.now (scope_text x)) SCOPES }
{
    SCOPES
        .iter()
        .copied()
        .find(|x| bytes.starts_with(x.text().as_bytes()))
}

/// The longest unit that the bytes begin with.
pub(crate) fn unit_at(bytes: &[u8]) -> Option<TimeUnit>
    ensures { result ≡ find (λ x. starts_with nat_eq bytes.now (unit_text x)) UNITS }
{
    UNITS
        .iter()
        .copied()
        .find(|x| bytes.starts_with(x.text().as_bytes()))
}
