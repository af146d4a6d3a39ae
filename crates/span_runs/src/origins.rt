//! What runs are made by: where a span comes from, and what has a span.

ghost use Rattle.std.specs.Prelude.{◌≡◌};
ghost use Rattle.std.specs.Bool.{Decides};
ghost use Rattle.span_types.specs.EqualLaws.{resource_decides, scope_decides};
ghost use Rattle.span_types.specs.declared.spans.Span.{Span};

use span_types::{Resource, Row, Scope, Span};

/// Where a span comes from, which neighbouring spans may share: its resource, or its scope.
pub trait Origin: PartialEq + Drop {
    ghost of: { Span → Self };

    /// That of a span.
    fn of(span: &Span) -> &Self
        ensures { result.now ≡ of span.now };

    ghost decides: { (a b : Self) → Decides (Self.eq a b) (a ≡ b) };
}

impl Origin for Resource {
    ghost of = { λ s. s.resource };

    ghost decides = { resource_decides };

    fn of(span: &Span) -> &Resource {
        span.resource.get()
    }
}

impl Origin for Scope {
    ghost of = { λ s. s.scope };

    ghost decides = { scope_decides };

    fn of(span: &Span) -> &Scope {
        span.scope.get()
    }
}

/// What has a span: a span itself, or a row.
pub trait HasSpan {
    ghost span: { Self → Span };

    /// Its span.
    fn span(&self) -> &Span
        ensures { result.now ≡ span self.now };
}

impl HasSpan for Span {
    ghost span = { λ s. s };

    fn span(&self) -> &Span {
        self
    }
}

impl HasSpan for Row {
    ghost span = { λ row. row.span };

    fn span(&self) -> &Span {
        &self.span
    }
}
