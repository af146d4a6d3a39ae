//! What a trace is as a whole: its root, its start and its end, from all rows.

ghost use Rattle.std.specs.Prelude.{◌≡◌, option_map};
ghost use Rattle.span_types.specs.Orders.{trace_order};
ghost use Rattle.traceql_value.specs.Spans.{choose_root, root_of, earliest, latest};

use span_types::Row;
use std::cmp::Ordering;

// When a row's span starts.
fn start_of(row: &Row) -> u64
    ensures { result ≡ row.now.span.start }
{
    row.span.start
}

// Two rows in trace order: by their start, then by their span's id.
fn trace_order(left: &Row, right: &Row) -> Ordering
    ensures { result ≡ trace_order left.now right.now }
{
    left.span
        .start
        .cmp(&right.span.start)
        .then(left.span.id.cmp(&right.span.id))
}

// The root among a row and the rows after it.
fn choose_root<'a>(row: &'a Row, rest: Option<&'a Row>) -> Option<&'a Row>
    ensures { option_map (λ r. r.now) result
        ≡ choose_root row.now.span.parent row.now (option_map (λ r. r.now) rest.entry) }
{
    if row.span.parent.is_some() {
        return rest;
    }
    match rest {
        Some(other) if trace_order(other, row).is_lt() => rest,
        _ => Some(row),
    }
}

/// The root: of the spans without a parent the one that starts first, and of those that start together the one of the
/// least id.
pub(crate) fn root_of(rows: &[Row]) -> Option<&Row>
    ensures { option_map (λ r. r.now) result ≡ root_of rows.now }
{
    let mut root = None;
    let mut left = rows.len();
    while left > 0 {
        left -= 1;
        root = choose_root(&rows[left], root);
    }
    root
}

/// The greatest of all starts and ends.
pub(crate) fn latest(rows: &[Row]) -> u64
    ensures { result ≡ latest rows.now }
{
    let mut latest = 0;
    for row in rows {
        latest = latest.max(row.span.start).max(row.span.end);
    }
    latest
}

/// The earliest start, given one that is known.
pub(crate) fn earliest(known: u64, rows: &[Row]) -> u64
    ensures { result ≡ earliest known rows.now }
{
    let mut earliest = known;
    for row in rows {
        earliest = earliest.min(start_of(row));
    }
    earliest
}
