//! The tokens whose text is fixed: signs, words and intrinsics, and what an attribute begins with.

ghost use Rattle.std.specs.Prelude.{◌≡◌};
ghost use Rattle.traceql_tokens.specs.Fixed.{sign_text, word_text, intrinsic_text, scope_text};

/// A sign: a bracket, the comma or an operator. Each is named by its characters, since several mean different
/// things between spansets and within a filter.
#[derive(Clone, Copy, Debug, PartialEq, Eq)]
pub enum Sign {
    /// `{`
    OpenBrace,
    /// `}`
    CloseBrace,
    /// `(`
    OpenParen,
    /// `)`
    CloseParen,
    /// `,`
    Comma,
    /// `|`
    Bar,
    /// `||`
    BarBar,
    /// `&`
    Amp,
    /// `&&`
    AmpAmp,
    /// `>`
    Greater,
    /// `>>`
    GreaterGreater,
    /// `<`
    Less,
    /// `<<`
    LessLess,
    /// `~`
    Tilde,
    /// `!`
    Bang,
    /// `!=`
    BangEqual,
    /// `!~`
    BangTilde,
    /// `!>`
    BangGreater,
    /// `!>>`
    BangGreaterGreater,
    /// `!<`
    BangLess,
    /// `!<<`
    BangLessLess,
    /// `&>`
    AmpGreater,
    /// `&>>`
    AmpGreaterGreater,
    /// `&<`
    AmpLess,
    /// `&<<`
    AmpLessLess,
    /// `&~`
    AmpTilde,
    /// `=`
    Equal,
    /// `=~`
    EqualTilde,
    /// `>=`
    GreaterEqual,
    /// `<=`
    LessEqual,
    /// `+`
    Plus,
    /// `-`
    Minus,
    /// `*`
    Star,
    /// `/`
    Slash,
    /// `%`
    Percent,
    /// `^`
    Caret,
}

impl Sign {
    /// How the sign is written.
    pub fn text(self) -> &'static str
        ensures { result.now ≡ sign_text self }
    {
        match self {
            Sign::OpenBrace => "{",
            Sign::CloseBrace => "}",
            Sign::OpenParen => "(",
            Sign::CloseParen => ")",
            Sign::Comma => ",",
            Sign::Bar => "|",
            Sign::BarBar => "||",
            Sign::Amp => "&",
            Sign::AmpAmp => "&&",
            Sign::Greater => ">",
            Sign::GreaterGreater => ">>",
            Sign::Less => "<",
            Sign::LessLess => "<<",
            Sign::Tilde => "~",
            Sign::Bang => "!",
            Sign::BangEqual => "!=",
            Sign::BangTilde => "!~",
            Sign::BangGreater => "!>",
            Sign::BangGreaterGreater => "!>>",
            Sign::BangLess => "!<",
            Sign::BangLessLess => "!<<",
            Sign::AmpGreater => "&>",
            Sign::AmpGreaterGreater => "&>>",
            Sign::AmpLess => "&<",
            Sign::AmpLessLess => "&<<",
            Sign::AmpTilde => "&~",
            Sign::Equal => "=",
            Sign::EqualTilde => "=~",
            Sign::GreaterEqual => ">=",
            Sign::LessEqual => "<=",
            Sign::Plus => "+",
            Sign::Minus => "-",
            Sign::Star => "*",
            Sign::Slash => "/",
            Sign::Percent => "%",
            Sign::Caret => "^",
        }
    }
}

/// A word of the language that is neither an intrinsic nor a part of an attribute.
#[derive(Clone, Copy, Debug, PartialEq, Eq)]
pub enum Word {
    /// `true`
    True,
    /// `false`
    False,
    /// `nil`
    Nil,
    /// `error`
    Error,
    /// `ok`
    Fine,
    /// `unset`
    Unset,
    /// `server`
    Server,
    /// `client`
    Client,
    /// `producer`
    Producer,
    /// `consumer`
    Consumer,
    /// `internal`
    Internal,
    /// `unspecified`
    Unspecified,
    /// `by`
    By,
    /// `coalesce`
    Coalesce,
    /// `select`
    Select,
    /// `count`
    Count,
    /// `avg`
    Avg,
    /// `min`
    Min,
    /// `max`
    Max,
    /// `sum`
    Sum,
    /// `rate`, in metrics queries alone
    Rate,
    /// `count_over_time`, in metrics queries alone
    CountOverTime,
}

impl Word {
    /// How the word is written.
    pub fn text(self) -> &'static str
        ensures { result.now ≡ word_text self }
    {
        match self {
            Word::True => "true",
            Word::False => "false",
            Word::Nil => "nil",
            Word::Error => "error",
            Word::Fine => "ok",
            Word::Unset => "unset",
            Word::Server => "server",
            Word::Client => "client",
            Word::Producer => "producer",
            Word::Consumer => "consumer",
            Word::Internal => "internal",
            Word::Unspecified => "unspecified",
            Word::By => "by",
            Word::Coalesce => "coalesce",
            Word::Select => "select",
            Word::Count => "count",
            Word::Avg => "avg",
            Word::Min => "min",
            Word::Max => "max",
            Word::Sum => "sum",
            Word::Rate => "rate",
            Word::CountOverTime => "count_over_time",
        }
    }
}

/// An intrinsic as it is written: one with two spellings has a variant for each.
#[derive(Clone, Copy, Debug, PartialEq, Eq)]
pub enum Intrinsic {
    /// `name`
    Name,
    /// `span:name`
    SpanName,
    /// `status`
    Status,
    /// `span:status`
    SpanStatus,
    /// `statusMessage`
    StatusMessage,
    /// `span:statusMessage`
    SpanStatusMessage,
    /// `kind`
    Kind,
    /// `span:kind`
    SpanKind,
    /// `duration`
    Duration,
    /// `span:duration`
    SpanDuration,
    /// `span:id`
    SpanId,
    /// `trace:id`
    TraceId,
    /// `span:parentID`
    SpanParentId,
    /// `traceDuration`
    TraceDuration,
    /// `trace:duration`
    TraceColonDuration,
    /// `rootName`
    RootName,
    /// `trace:rootName`
    TraceRootName,
    /// `rootServiceName`
    RootServiceName,
    /// `trace:rootService`
    TraceRootService,
    /// `instrumentation:name`
    InstrumentationName,
    /// `instrumentation:version`
    InstrumentationVersion,
}

impl Intrinsic {
    /// How the intrinsic is written.
    pub fn text(self) -> &'static str
        ensures { result.now ≡ intrinsic_text self }
    {
        match self {
            Intrinsic::Name => "name",
            Intrinsic::SpanName => "span:name",
            Intrinsic::Status => "status",
            Intrinsic::SpanStatus => "span:status",
            Intrinsic::StatusMessage => "statusMessage",
            Intrinsic::SpanStatusMessage => "span:statusMessage",
            Intrinsic::Kind => "kind",
            Intrinsic::SpanKind => "span:kind",
            Intrinsic::Duration => "duration",
            Intrinsic::SpanDuration => "span:duration",
            Intrinsic::SpanId => "span:id",
            Intrinsic::TraceId => "trace:id",
            Intrinsic::SpanParentId => "span:parentID",
            Intrinsic::TraceDuration => "traceDuration",
            Intrinsic::TraceColonDuration => "trace:duration",
            Intrinsic::RootName => "rootName",
            Intrinsic::TraceRootName => "trace:rootName",
            Intrinsic::RootServiceName => "rootServiceName",
            Intrinsic::TraceRootService => "trace:rootService",
            Intrinsic::InstrumentationName => "instrumentation:name",
            Intrinsic::InstrumentationVersion => "instrumentation:version",
        }
    }
}

/// Whose attribute is meant: what an attribute begins with.
#[derive(Clone, Copy, Debug, PartialEq, Eq)]
pub enum AttributeScope {
    /// `.`
    Any,
    /// `span.`
    Span,
    /// `resource.`
    Resource,
    /// `instrumentation.`
    Instrumentation,
}

impl AttributeScope {
    /// How the attribute begins, the dot included.
    pub fn text(self) -> &'static str
        ensures { result.now ≡ scope_text self }
    {
        match self {
            AttributeScope::Any => ".",
            AttributeScope::Span => "span.",
            AttributeScope::Resource => "resource.",
            AttributeScope::Instrumentation => "instrumentation.",
        }
    }
}
