//! Rows, made of the cells of their columns, and their order.

ghost use Rattle.std.specs.Prelude.{◌≡◌, IfOk};
ghost use Rattle.std.specs.List.{AllByRecursion};
ghost use Rattle.std.specs.Ordering.{is_lt};
ghost use Rattle.span_types.specs.Orders.{block_order};
ghost use Rattle.block_stripes.specs.StripeReadings.{ascend, rows_of};
ghost use Rattle.block_stripes.specs.StripeRows.{row_of};
ghost use Rattle.block_stripes.specs.Stripes.{IsNamed};

use crate::cells::Cells;
use span_types::{Memory, Place, Row, Span};
use std::alloc::Global;

/// The row of these cells, of which no id is all zeros.
fn row(cells: Cells) -> Row
    requires { IsNamed cells }
    ensures { result ≡ row_of cells }
{
    let (trace, (id, (parent, names))) = cells;
    let (number, (position, (name, (kind, times)))) = names;
    let (start, (end, (status, (message, owners)))) = times;
    let (resource, (scope, (attrs, (events, links)))) = owners;
    let place = Place { number, position };
    let span = Span {
        trace,
        id,
        parent,
        name,
        kind,
        start,
        end,
        status,
        message,
        attrs,
        resource,
        scope,
        events,
        links,
    };
    Row { place, span }
}

/// The rows of these cells, of which no id is all zeros.
pub fn rows_of_cells(alloc: Global, cells: Vec<Cells>) -> Result<Vec<Row>, Memory>
    requires { AllByRecursion IsNamed cells.items }
    ensures { IfOk result (λ rows. rows.items ≡ rows_of cells.items) }
{
    let mut rows = Vec::with_capacity(alloc, cells.len())?;
    for one in cells {
        rows.push(row(one))?;
    }
    Ok(rows)
}

/// Whether a row comes before the other in block order.
fn is_before(a: &Row, b: &Row) -> bool
    ensures { result ≡ is_lt (block_order a.now b.now) }
{
    let trace = a.span.trace.cmp(&b.span.trace);
    let start = a.span.start.cmp(&b.span.start);
    let order = trace.then(start.then(a.span.id.cmp(&b.span.id)));
    order.is_lt()
}

/// Whether each row follows the row before it in block order.
#[tactic(auto, unfolding(crate::specs::StripeReadings::ascend))]
pub fn ascend(rows: &[Row]) -> bool
    ensures { result ≡ ascend rows.now }
{
    let [first, rest @ ..] = rows else {
        return true;
    };
    let mut before = first;
    for row in rest {
        if !is_before(before, row) {
            return false;
        }
        before = row;
    }
    true
}
