//! Tickets: borrowed rows with what their order asks of them, so that a sort looks at no row.

ghost use Rattle.std.specs.Prelude.{◌≡◌, IfOk};

use row_refs::RowRef;
use span_types::{Memory, SpanId, TraceId};
use std::alloc::Global;
use std::marker::Model;

/// A borrowed row, and beside it what block order asks of it. Contracts see the row.
#[derive(Drop)]
pub struct Ticket<'a, 'r> {
    trace: TraceId,
    start: u64,
    id: SpanId,
    row: &'a RowRef<'r>,
}

impl<'a, 'r> Model for Ticket<'a, 'r> {
    ghost use Rattle.std.specs.Prelude.{◌≡◌};
    ghost use Rattle.span_types.specs.declared.spans.Row.{Row};

    ghost Value = { Row };

    ghost view = { λ t. t.row.now };

    ghost invariant = { λ t. (t.trace ≡ t.row.now.span.trace) × ((t.start ≡ t.row.now.span.start) × (t.id ≡ t.row.now.span.id)) };
}

impl<'a, 'r> Ticket<'a, 'r> {
    /// Of this row.
    pub fn of(row: &'a RowRef<'r>) -> Ticket<'a, 'r>
        ensures { result ≡ row.now }
    {
        let span = row.span();
        Ticket {
            trace: span.trace,
            start: span.start,
            id: span.id,
            row,
        }
    }

    /// The row.
    pub fn row(&self) -> &'a RowRef<'r>
        ensures { result.now ≡ self.now }
    {
        self.row
    }

    /// The trace.
    pub fn trace(&self) -> TraceId
        ensures { result ≡ self.now.span.trace }
    {
        self.trace
    }

    /// The start.
    pub fn start(&self) -> u64
        ensures { result ≡ self.now.span.start }
    {
        self.start
    }

    /// The span's id.
    pub fn id(&self) -> SpanId
        ensures { result ≡ self.now.span.id }
    {
        self.id
    }

    /// The same ticket again.
    pub fn again(&self) -> Ticket<'a, 'r>
        ensures { result ≡ self.now }
    {
        Ticket {
            trace: self.trace,
            start: self.start,
            id: self.id,
            row: self.row,
        }
    }
}

/// A ticket of each row, in their order.
pub fn tickets_of<'a, 'r>(
    alloc: Global,
    rows: &'a [RowRef<'r>],
) -> Result<Vec<Ticket<'a, 'r>>, Memory>
    ensures { IfOk result (λ tickets. tickets.items ≡ rows.now) }
{
    let mut tickets = Vec::with_capacity(alloc, rows.len())?;
    for row in rows {
        tickets.push(Ticket::of(row))?;
    }
    Ok(tickets)
}
