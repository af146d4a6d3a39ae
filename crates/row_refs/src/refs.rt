//! Rows whose spans are borrowed.

ghost use Rattle.std.specs.Prelude.{◌≡◌, IfOk};

use span_types::{Memory, Place, Row, Span};
use std::alloc::Global;
use std::marker::Model;

/// A row whose span is borrowed. Contracts see the row.
#[derive(Drop)]
pub struct RowRef<'a> {
    place: Place,
    span: &'a Span,
}

impl<'a> Model for RowRef<'a> {
    ghost use Rattle.span_types.specs.declared.spans.Row.{Row};

    ghost Value = { Row };

    ghost view = { λ r. record { place = r.place; span = r.span.now } };
}

impl<'a> RowRef<'a> {
    /// The row of a span that came in at this place.
    pub fn of(place: Place, span: &'a Span) -> RowRef<'a>
        ensures { result ≡ record { place = place; span = span.now } }
    {
        RowRef { place, span }
    }

    /// Its place.
    pub fn place(&self) -> Place
        ensures { result ≡ self.now.place }
    {
        self.place
    }

    /// Its span.
    pub fn span(&self) -> &'a Span
        ensures { result.now ≡ self.now.span }
    {
        self.span
    }

    /// The same row again. The span is not copied.
    pub fn again(&self) -> RowRef<'a>
        ensures { result ≡ self.now }
    {
        RowRef {
            place: self.place,
            span: self.span,
        }
    }
}

/// The rows, borrowed.
pub fn refs_of<'a>(alloc: Global, rows: &'a [Row]) -> Result<Vec<RowRef<'a>>, Memory>
    ensures { IfOk result (λ refs. refs.items ≡ rows.now) }
{
    let mut refs = Vec::with_capacity(alloc, rows.len())?;
    for row in rows {
        refs.push(RowRef::of(row.place, &row.span))?;
    }
    Ok(refs)
}
