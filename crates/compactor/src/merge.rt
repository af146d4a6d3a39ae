//! The first occurrences of the rows of several lists.

ghost use Rattle.std.specs.Prelude.{◌≡◌, List, [], ◌∷◌, IfOk, OnOk};
ghost use Rattle.std.specs.List.{flat_map};
ghost use Rattle.span_types.specs.First.{IsFirstOf};
ghost use Rattle.span_types.specs.declared.ids.TraceId.{TraceId};
ghost use Rattle.span_types.specs.declared.spans.Row.{Row};
ghost use Rattle.span_types.specs.Orders.{trace_cmp};
ghost use Rattle.rows_by_trace.specs.Traces.{rows_of_trace};
ghost use Rattle.live_traces.specs.ByTrace.{AreByTrace};
ghost use Rattle.block_build.specs.Merging.{GoneOver, Settled, begins_other};

use span_types::{Memory, Row, Rows, Seq, first_rows};
use std::alloc::Global;
use std::cmp::Ordering;
use std::mem;

/// Several lists of rows.
pub type RowLists = Seq<Rows>;

/// The first occurrences of the rows of all parts, in block order: of several rows of one span, in whichever parts they
/// are, the row that came in first stays. No row is copied. Sorted parts are merged once, and what is repeated is looked
/// for among the rows of each trace.
pub fn merge_rows(alloc: Global, parts: RowLists) -> Result<Rows, Memory>
    ensures { IfOk result (λ firsts. IsFirstOf (flat_map (λ rows. rows) parts) firsts) }
{
    let rows = joined(alloc, parts)?;
    let sorted = by_trace(rows)?;
    let firsts = firsts_by_trace(alloc, sorted)?;
    Ok(firsts)
}

// The rows of all parts, one part after the other.
pub(crate) fn joined(alloc: Global, parts: RowLists) -> Result<Rows, Memory>
    ensures { IfOk result (λ rows. rows ≡ flat_map (λ rows. rows) parts) }
{
    let mut rows = Vec::new(alloc);
    for part in parts.into_vec() {
        let mut part = part.into_vec();
        rows.append(&mut part)?;
    }
    Ok(Rows::of(rows))
}

// The rows in order of trace, those of each trace in their order. What is sorted part by part costs one merge of the parts.
fn by_trace(rows: Rows) -> Result<Rows, Memory>
    ensures sorted { IfOk result (λ sorted. AreByTrace sorted) }
    ensures groups { IfOk result (λ sorted. (trace : TraceId)
        → rows_of_trace trace sorted ≡ rows_of_trace trace rows) }
{
    let mut rows = rows.into_vec();
    rows.sort_by(in_trace_order)?;
    Ok(Rows::of(rows))
}

// The order of the rows' traces.
fn in_trace_order(a: &Row, b: &Row) -> Ordering
    ensures { result ≡ trace_cmp a.now.span.trace b.now.span.trace }
{
    a.span.trace.cmp(&b.span.trace)
}

// The first occurrences among rows in order of trace.
fn firsts_by_trace(alloc: Global, rows: Rows) -> Result<Rows, Memory>
    requires { AreByTrace rows }
    ensures { IfOk result (λ firsts. IsFirstOf rows firsts) }
{
    let mut firsts = Vec::with_capacity(alloc, rows.len())?;
    let mut group = Vec::new(alloc);
    for row in rows.into_vec() {
        take_row(alloc, row, &mut group, &mut firsts)?;
    }
    settle(alloc, &mut group, &mut firsts)?;
    Ok(Rows::of(firsts))
}

// Takes the next row: to the group of its trace, or after the first occurrences of the traces before it.
fn take_row(
    alloc: Global,
    row: Row,
    group: &mut Vec<Row>,
    firsts: &mut Vec<Row>,
) -> Result<(), Memory>
    ensures { OnOk result ((rows rest : List Row)
        → GoneOver rows group.old.items (row ∷ rest) firsts.old.items
        → GoneOver rows group.new.items rest firsts.new.items) }
{
    if !begins_other(group.as_slice(), &row) {
        group.push(row)?;
        return Ok(());
    }
    settle(alloc, group, firsts)?;
    group.push(row)?;
    Ok(())
}

// Whether a row is of another trace than these rows of one trace.
fn begins_other(group: &[Row], row: &Row) -> bool
    ensures { result ≡ begins_other group.now row.now }
{
    match group {
        [first, ..] => !in_trace_order(first, row).is_eq(),
        [] => false,
    }
}

// Moves the first occurrences among the rows of a trace after those of the traces before it.
fn settle(alloc: Global, group: &mut Vec<Row>, firsts: &mut Vec<Row>) -> Result<(), Memory>
    ensures emptied { OnOk result (group.new.items ≡ []) }
    ensures added { OnOk result (Settled group.old.items firsts.old.items firsts.new.items) }
{
    let rows = mem::replace(group, Vec::new(alloc));
    let rows = firsts_of_trace(alloc, Rows::of(rows))?;
    let mut rows = rows.into_vec();
    firsts.append(&mut rows)?;
    Ok(())
}

// The first occurrences among the rows of one trace.
fn firsts_of_trace(alloc: Global, rows: Rows) -> Result<Rows, Memory>
    ensures { IfOk result (λ firsts. IsFirstOf rows firsts) }
{
    first_rows(alloc, rows)
}
