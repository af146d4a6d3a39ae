//! First occurrences in block order, found trace by trace. Rows are borrowed, and what is sorted are tickets of 40 bytes.

ghost use Rattle.std.specs.Prelude.{◌≡◌, ◌++◌, [], ◌∷◌, List, IfOk, OnOk};
ghost use Rattle.std.specs.Ordering.{is_eq};
ghost use Rattle.span_types.specs.declared.ids.Key.{Key};
ghost use Rattle.span_types.specs.declared.spans.Row.{Row};
ghost use Rattle.span_types.specs.First.{IsFirstOf, first_at};
ghost use Rattle.span_types.specs.Orders.{block_order, trace_cmp};
ghost use Rattle.block_build.specs.Merging.{AreByTrace, GoneOver, Settled, begins_other};
ghost use Rattle.block_build.specs.Settling.{earlier, firsts_by_id, id_order};

use crate::ticket::{Ticket, tickets_of};
use row_refs::RowRef;
use span_types::Memory;
use std::alloc::Global;
use std::cmp::Ordering;

/// The first occurrences among rows, in block order. Parts that are in block order are merged, and what is repeated is
/// looked for among the rows of each trace.
pub fn firsts_of<'r>(alloc: Global, rows: &[RowRef<'r>]) -> Result<Vec<RowRef<'r>>, Memory>
    ensures { IfOk result (λ firsts. IsFirstOf rows.now firsts.items) }
{
    let sorted = by_trace(alloc, rows)?;
    let firsts = firsts_by_trace(alloc, sorted.as_slice())?;
    Ok(firsts)
}

/// The rows in order of trace, those of each trace in their order.
fn by_trace<'a, 'r>(alloc: Global, rows: &'a [RowRef<'r>]) -> Result<Vec<Ticket<'a, 'r>>, Memory>
    ensures sorted { IfOk result (λ sorted. AreByTrace sorted.items) }
    ensures same { IfOk result (λ sorted. (k : Key)
        → first_at k sorted.items ≡ first_at k rows.now) }
{
    let mut tickets = tickets_of(alloc, rows)?;
    tickets.sort_by(in_trace_order)?;
    Ok(tickets)
}

/// The order of the rows' traces.
fn in_trace_order(a: &Ticket<'_, '_>, b: &Ticket<'_, '_>) -> Ordering
    ensures { result ≡ trace_cmp a.now.span.trace b.now.span.trace }
{
    a.trace().cmp(&b.trace())
}

/// The first occurrences among rows in order of trace.
fn firsts_by_trace<'r>(alloc: Global, rows: &[Ticket<'_, 'r>]) -> Result<Vec<RowRef<'r>>, Memory>
    requires { AreByTrace rows.now }
    ensures { IfOk result (λ firsts. IsFirstOf rows.now firsts.items) }
{
    let mut firsts = Vec::with_capacity(alloc, rows.len())?;
    let mut group = Vec::new(alloc);
    for row in rows {
        take_row(alloc, row, &mut group, &mut firsts)?;
    }
    settle(alloc, &mut group, &mut firsts)?;
    Ok(firsts)
}

/// Takes the next row: to the group of its trace, or after the first occurrences of the traces before it.
fn take_row<'a, 'r>(
    alloc: Global,
    row: &Ticket<'a, 'r>,
    group: &mut Vec<Ticket<'a, 'r>>,
    firsts: &mut Vec<RowRef<'r>>,
) -> Result<(), Memory>
    ensures { OnOk result ((rows rest : List Row)
        → GoneOver rows group.old.items (row.now ∷ rest) firsts.old.items
        → GoneOver rows group.new.items rest firsts.new.items) }
{
    if !begins_other(group.as_slice(), row) {
        group.push(row.again())?;
        return Ok(());
    }
    settle(alloc, group, firsts)?;
    group.push(row.again())?;
    Ok(())
}

/// Whether a row is of another trace than these rows of one trace.
fn begins_other(group: &[Ticket<'_, '_>], row: &Ticket<'_, '_>) -> bool
    ensures { result ≡ begins_other group.now row.now }
{
    match group {
        [first, ..] => !in_trace_order(first, row).is_eq(),
        [] => false,
    }
}

/// Moves the first occurrences among the rows of a trace after those of the traces before it.
fn settle<'a, 'r>(
    alloc: Global,
    group: &mut Vec<Ticket<'a, 'r>>,
    firsts: &mut Vec<RowRef<'r>>,
) -> Result<(), Memory>
    ensures emptied { OnOk result (group.new.items ≡ []) }
    ensures added { OnOk result (Settled group.old.items firsts.old.items firsts.new.items) }
{
    let found = firsts_of_trace(alloc, group)?;
    group.clear();
    add_rows(found.as_slice(), firsts)?;
    Ok(())
}

/// The first occurrences among the rows of one trace. They are put in order of id, where those of one span are neighbours.
fn firsts_of_trace<'a, 'r>(
    alloc: Global,
    group: &mut Vec<Ticket<'a, 'r>>,
) -> Result<Vec<Ticket<'a, 'r>>, Memory>
    ensures { IfOk result (λ firsts. IsFirstOf group.old.items firsts.items) }
{
    group.sort_by(in_id_order)?;
    let mut firsts = firsts_by_id(alloc, group.as_slice())?;
    firsts.sort_by(in_block_order)?;
    Ok(firsts)
}

/// The order of the rows' ids, and after them of their traces.
fn in_id_order(a: &Ticket<'_, '_>, b: &Ticket<'_, '_>) -> Ordering
    ensures { result ≡ id_order a.now b.now }
{
    a.id().cmp(&b.id()).then(a.trace().cmp(&b.trace()))
}

/// The order of rows in a block.
fn in_block_order(a: &Ticket<'_, '_>, b: &Ticket<'_, '_>) -> Ordering
    ensures { result ≡ block_order a.now b.now }
{
    let trace = a.trace().cmp(&b.trace());
    let start = a.start().cmp(&b.start());
    trace.then(start.then(a.id().cmp(&b.id())))
}

/// Of neighbours of one span the one that came in first, and all others.
#[tactic(auto, unfolding(crate::specs::Settling::firsts_by_id))]
fn firsts_by_id<'a, 'r>(
    alloc: Global,
    rows: &[Ticket<'a, 'r>],
) -> Result<Vec<Ticket<'a, 'r>>, Memory>
    ensures { IfOk result (λ firsts. firsts.items ≡ firsts_by_id rows.now) }
{
    let mut firsts = Vec::with_capacity(alloc, rows.len())?;
    let [first, rest @ ..] = rows else {
        return Ok(firsts);
    };
    let mut best = first;
    for next in rest {
        if in_id_order(best, next).is_eq() {
            best = earlier(best, next);
        } else {
            firsts.push(best.again())?;
            best = next;
        }
    }
    firsts.push(best.again())?;
    Ok(firsts)
}

/// Which of two rows came in first. Of one place it is the former.
fn earlier<'t, 'a, 'r>(a: &'t Ticket<'a, 'r>, b: &'t Ticket<'a, 'r>) -> &'t Ticket<'a, 'r>
    ensures { result.now ≡ earlier a.now b.now }
{
    if b.row().place().cmp(&a.row().place()).is_lt() {
        b
    } else {
        a
    }
}

/// Adds the rows.
fn add_rows<'r>(tickets: &[Ticket<'_, 'r>], rows: &mut Vec<RowRef<'r>>) -> Result<(), Memory>
    ensures { OnOk result (rows.new.items ≡ rows.old.items ++ tickets.now) }
{
    for ticket in tickets {
        rows.push(ticket.row().again())?;
    }
    Ok(())
}
