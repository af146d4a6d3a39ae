//! Which traces are in a range. Rows in block order are gone over once, a trace at a time.

ghost use Rattle.std.specs.Prelude.{◌≡◌, ◌≤◌, ◌<◌, ◌++◌, List, IfOk, OnOk, length};
ghost use Rattle.std.specs.Option.{option_to_list};
ghost use Rattle.span_types.specs.First.{IsFirstOf};
ghost use Rattle.span_types.specs.declared.spans.Row.{Row};
ghost use Rattle.search_answer.specs.Answers.{is_in_range};
ghost use Rattle.search_answer.specs.InRange.{AreInRange};
ghost use Rattle.search_answer.specs.Walking.{FirstStarts, IsFront, IsPart, of_one_trace};

use moment_range::Range;
use span_types::{Memory, Row, TraceId};
use std::alloc::Global;

/// A trace of which a span starts in the range of a search.
#[derive(Clone, Copy)]
pub struct TraceInRange<'r> {
    /// Its id.
    pub trace: TraceId,
    /// Its earliest start, in nanoseconds since 1970.
    pub start: u64,
    /// Its rows, in block order.
    pub rows: &'r [Row],
}

/// The traces of which a span starts in the range, each once. The rows are first occurrences in block order, so those
/// of a trace stand together, and its first row starts earliest. No row is copied; the one error is out of memory.
pub fn traces_in_range<'r>(
    alloc: Global,
    range: Range,
    rows: &'r [Row],
) -> Result<Vec<TraceInRange<'r>>, Memory>
    requires { (all : List Row) × IsFirstOf all rows.now }
    ensures { IfOk result (λ found. AreInRange range rows.now found.items) }
{
    let mut found = Vec::new(alloc);
    let mut rest = rows;
    while !rest.is_empty() {
        let (part, later) = rest.split_at(trace_len(rest));
        extend(&mut found, in_range(range, part))?;
        rest = later;
    }
    Ok(found)
}

// How many rows the first trace has.
fn trace_len(rows: &[Row]) -> usize
    requires { 0 < length rows.now }
    ensures within { result ≤ length rows.now }
    ensures some { 0 < result }
    ensures front { IsFront rows.now result }
{
    for i in 1..rows.len() {
        if !of_one_trace(&rows[i], &rows[0]) {
            return i;
        }
    }
    rows.len()
}

// Whether two rows are of one trace.
fn of_one_trace(a: &Row, b: &Row) -> bool
    ensures { result ≡ of_one_trace a.now b.now }
{
    a.span.trace.cmp(&b.span.trace).is_eq()
}

// One span in the range is enough: then the whole trace is answered, with the spans outside.
fn starts_in(range: Range, rows: &[Row]) -> bool
    ensures { result ≡ is_in_range range rows.now }
{
    rows.iter().any(|row| range.holds(row.span.start))
}

fn trace_of(row: &Row) -> TraceId
    ensures { result ≡ row.now.span.trace }
{
    row.span.trace
}

fn start_of(row: &Row) -> u64
    ensures { result ≡ row.now.span.start }
{
    row.span.start
}

// The trace of these rows, where it is in the range.
fn in_range<'r>(range: Range, part: &'r [Row]) -> Option<TraceInRange<'r>>
    requires { FirstStarts part.now }
    ensures { IsPart range part.now result }
{
    let [first, ..] = part else {
        return None;
    };
    if !starts_in(range, part) {
        return None;
    }
    Some(TraceInRange {
        trace: trace_of(first),
        start: start_of(first),
        rows: part,
    })
}

// Adds one more at the end, if there is one.
pub(crate) fn extend<T: Drop>(all: &mut Vec<T>, more: Option<T>) -> Result<(), Memory>
    ensures { OnOk result (all.new.items ≡ all.old.items ++ option_to_list more) }
{
    if let Some(item) = more {
        all.push(item)?;
    }
    Ok(())
}
