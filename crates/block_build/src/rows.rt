//! What borrowed rows tell of their block, and the rows of each stripe.

ghost use Rattle.std.specs.Prelude.{◌≡◌, ◌*◌, ◌<◌, ◌≤◌, IfOk, drop, length, take};
ghost use Rattle.std.specs.List.{All, list_any};
ghost use Rattle.block_format.specs.Blocks.{IsEarliest, IsLatest, form_of_rows, ids_of, is_rich};

use block_info::STRIPE_ROWS;
use row_refs::RowRef;
use span_types::{Ids, Memory, TraceId};
use std::alloc::Global;

/// The form of a block of these rows: 2 where one has an event or a link, else 1.
pub fn form_of(rows: &[RowRef<'_>]) -> u8
    ensures { result ≡ form_of_rows rows.now }
{
    if any_rich(rows) { 2 } else { 1 }
}

fn any_rich(rows: &[RowRef<'_>]) -> bool
    ensures { result ≡ list_any is_rich rows.now }
{
    rows.iter().any(|row| is_rich(row))
}

/// Whether a row has an event or a link.
fn is_rich(row: &RowRef<'_>) -> bool
    ensures { result ≡ is_rich row.now }
{
    let span = row.span();
    span.events.len() != 0 || span.links.len() != 0
}

/// The trace id of each row. Each has 16 bytes, as its type promises.
pub fn ids_of(alloc: Global, rows: &[RowRef<'_>]) -> Result<Ids, Memory>
    ensures ids { IfOk result (λ ids. ids ≡ ids_of rows.now) }
    ensures long { IfOk result (λ ids. All (λ id. length id.0 ≡ 16) ids) }
{
    let mut ids = Vec::with_capacity(alloc, rows.len())?;
    for row in rows {
        ids.push(long(row.span().trace))?;
    }
    Ok(Ids::of(ids))
}

/// The id itself, of which its type promises that it has 16 bytes.
fn long(id: TraceId) -> TraceId
    ensures same { result ≡ id }
    ensures long { length result.0 ≡ 16 }
{
    id
}

/// The earliest start among rows.
pub fn earliest(rows: &[RowRef<'_>]) -> u64
    requires { 1 ≤ length rows.now }
    ensures { IsEarliest rows.now result }
{
    let first = &rows[0];
    let mut earliest = start_of(first);
    for row in rows {
        earliest = earliest.min(start_of(row));
    }
    earliest
}

/// The latest start among rows.
pub fn latest(rows: &[RowRef<'_>]) -> u64
    requires { 1 ≤ length rows.now }
    ensures { IsLatest rows.now result }
{
    let first = &rows[0];
    let mut latest = start_of(first);
    for row in rows {
        latest = latest.max(start_of(row));
    }
    latest
}

/// When a row's span began.
fn start_of(row: &RowRef<'_>) -> u64
    ensures { result ≡ row.now.span.start }
{
    row.span().start
}

/// The rows of the stripe with this number: 256, or all that are left.
pub fn stripe_rows<'a, 'r>(rows: &'a [RowRef<'r>], number: usize) -> &'a [RowRef<'r>]
    requires { number < 4096 }
    ensures { result.now ≡ take 256 (drop (256 * number) rows.now) }
{
    let (_, rest) = rows.split_at(rows.len().min(STRIPE_ROWS * number));
    let (taken, _) = rest.split_at(rest.len().min(STRIPE_ROWS));
    taken
}
