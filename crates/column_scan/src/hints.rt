//! What a search asks of single spans.

ghost use Rattle.std.specs.Prelude.{◌≡◌};
ghost use Rattle.column_scan.specs.Candidates.{is_hinted};
ghost use Rattle.column_scan.specs.Hints.{has_text, holds_text, is_text};

use crate::query::copy_of;
use moment_range::Range;
use span_types::{AttrValue, Attrs, Memory, Span, Text, TryCopy};

/// What a search asks of single spans: to hold a text or, if there is none, to start in a range.
#[derive(Debug, Drop)]
pub struct Hint {
    /// The range.
    pub range: Range,
    /// The text, if the query asks for one.
    pub text: Option<Text>,
}

impl TryCopy for Hint {
    fn copy(&self) -> Result<Hint, Memory> {
        let text = copy_of(self.text.as_ref())?;
        Ok(Hint {
            range: self.range,
            text,
        })
    }
}

impl Hint {
    /// Whether a span is hinted.
    pub fn holds(&self, span: &Span) -> bool
        ensures { result ≡ is_hinted self.now span.now }
    {
        match &self.text {
            None => self.range.holds(span.start),
            Some(text) => holds_text(text, span),
        }
    }
}

// Whether the text is the span's name, or a value among its attributes, its resource's or its scope's.
fn holds_text(text: &Text, span: &Span) -> bool
    ensures { result ≡ holds_text text.now span.now }
{
    span.name == *text
        || has_text(text, &span.attrs)
        || has_text(text, &span.resource.get().attrs)
        || has_text(text, &span.scope.get().attrs)
}

// Whether one of the values is this text.
fn has_text(text: &Text, attrs: &Attrs) -> bool
    ensures { result ≡ has_text text.now attrs.now }
{
    attrs
        .as_slice()
        .iter()
        .any(|attr| is_text(text, &attr.value))
}

// A number and a boolean are no text, whatever they are printed as.
fn is_text(text: &Text, value: &AttrValue) -> bool
    ensures { result ≡ is_text text.now value.now }
{
    match value {
        AttrValue::Text(other) => *other == *text,
        AttrValue::Whole(_) | AttrValue::Truth(_) => false,
    }
}
