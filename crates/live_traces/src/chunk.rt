//! Chunks: the spans of one push, which looks and flushes share, and single rows of them.

ghost use Rattle.std.specs.Prelude.{◌≡◌, ◌<◌, ◌++◌, Some, IfOk, IfErr, OnOk, length};
ghost use Rattle.rows_by_trace.specs.Traces.{rows_of_trace};
ghost use Rattle.live_traces.specs.Rows.{chunk_rows, row_of};

use crate::group::{OfTrace, group_of};
use crate::order::{Spot, order_of};
use crate::runs::HasRows;
use row_refs::RowRef;
use span_types::{Batch, Memory, Place, Row, Span, TraceId, TryCopy};
use std::alloc::Global;
use std::marker::Model;
use std::sync::Arc;

// The spans of one push, and where those of each trace stand, in order of trace.
#[derive(Drop)]
pub(crate) struct Body {
    batch: Batch,
    order: Vec<Spot>,
}

/// The spans of one push with its number. A chunk is unchanged once made, and has several holders.
#[derive(Drop)]
pub struct Chunk {
    number: u64,
    body: Arc<Body>,
}

impl Model for Chunk {
    ghost use Rattle.live_traces.specs.Rows.{ChunkParts, chunk_rows};
    ghost use Rattle.live_traces.specs.Order.{IsOrderOf};

    ghost Value = { ChunkParts };

    ghost view = { λ c. record { number = c.number; spans = c.body.value.batch.spans } };

    ghost invariant = { λ c. IsOrderOf c.body.value.order.items
        (chunk_rows (record { number = c.number; spans = c.body.value.batch.spans })) };
}

impl Chunk {
    /// A chunk of a batch. Out of memory, the batch is handed back.
    pub fn of(alloc: Global, number: u64, batch: Batch) -> Result<Chunk, Batch>
        ensures ok { IfOk result (λ c. (c.number ≡ number) × (c.spans ≡ batch.spans)) }
        ensures err { IfErr result (λ b. b ≡ batch) }
    {
        let order = match order_of(alloc, &batch) {
            Ok(order) => order,
            Err(_) => return Err(batch),
        };
        match Arc::new(alloc, Body { batch, order }) {
            Ok(body) => Ok(Chunk { number, body }),
            Err(failed) => Err(failed.value.batch),
        }
    }

    /// How many spans it has.
    pub fn len(&self) -> u32
        ensures { result ≡ length self.now.spans }
    {
        let body: &Body = &self.body;
        body.batch.spans.len() as u32
    }

    /// The trace of a span.
    pub fn trace(&self, at: u32) -> TraceId
        requires { at < length self.now.spans }
        ensures { result ≡ (row_of self.now at).span.trace }
    {
        let body: &Body = &self.body;
        let spans = body.batch.spans.as_slice();
        let span = &spans[at as usize];
        span.trace
    }

    /// The place of a span.
    pub fn place(&self, at: u32) -> Place
        ensures { result ≡ (row_of self.now at).place }
    {
        Place {
            number: self.number,
            position: at,
        }
    }

    /// A span.
    pub fn span(&self, at: u32) -> &Span
        requires { at < length self.now.spans }
        ensures { result.now ≡ (row_of self.now at).span }
    {
        let body: &Body = &self.body;
        let spans = body.batch.spans.as_slice();
        &spans[at as usize]
    }

    /// One of its rows. The span is borrowed.
    pub fn lent(&self, at: u32) -> RowRef<'_>
        requires { at < length self.now.spans }
        ensures { result ≡ row_of self.now at }
    {
        RowRef::of(self.place(at), self.span(at))
    }

    /// A copy of a span, as a row.
    pub fn copy_row(&self, at: u32) -> Result<Row, Memory>
        requires { at < length self.now.spans }
        ensures { IfOk result (λ row. row ≡ row_of self.now at) }
    {
        let body: &Body = &self.body;
        let spans = body.batch.spans.as_slice();
        let span = spans[at as usize].copy()?;
        let place = self.place(at);
        Ok(Row { place, span })
    }

    /// One of its rows, which shares the spans.
    pub fn row(&self, at: u32) -> Result<SharedRow, Memory>
        requires { at < length self.now.spans }
        ensures { IfOk result (λ row. row ≡ row_of self.now at) }
    {
        let chunk = self.copy()?;
        Ok(SharedRow { chunk, at })
    }
}

impl HasRows for Chunk {
    ghost use Rattle.live_traces.specs.Rows.{chunk_rows};

    ghost listed = { chunk_rows };

    fn lend_rows<'a>(&'a self, rows: &mut Vec<RowRef<'a>>) -> Result<(), Memory> {
        let count = self.len();
        for at in 0..count {
            rows.push(self.lent(at))?;
        }
        Ok(())
    }

    fn share_rows(&self, rows: &mut Vec<SharedRow>) -> Result<(), Memory> {
        let count = self.len();
        for at in 0..count {
            let row = self.row(at)?;
            rows.push(row)?;
        }
        Ok(())
    }

    fn copy_rows_of(&self, trace: TraceId, rows: &mut Vec<Row>) -> Result<(), Memory> {
        let body: &Body = &self.body;
        let group = group_of(body.order.as_slice(), trace);
        for spot in group {
            let row = self.copy_row(spot.at)?;
            rows.push(row)?;
        }
        Ok(())
    }
}

impl TryCopy for Chunk {
    /// The spans are shared and not copied.
    fn copy(&self) -> Result<Chunk, Memory> {
        let body = Arc::try_clone(&self.body)?;
        Ok(Chunk {
            number: self.number,
            body,
        })
    }
}

/// One row of a chunk, which contracts see as the row.
#[derive(Drop)]
pub struct SharedRow {
    chunk: Chunk,
    at: u32,
}

impl Model for SharedRow {
    ghost use Rattle.std.specs.Prelude.{◌<◌, length};
    ghost use Rattle.span_types.specs.declared.spans.Row.{Row};
    ghost use Rattle.live_traces.specs.Rows.{row_of};

    ghost Value = { Row };

    ghost view = { λ r. row_of r.chunk r.at };

    ghost invariant = { λ r. r.at < length r.chunk.spans };
}

impl OfTrace for SharedRow {
    ghost trace_of = { λ row. row.span.trace };

    fn trace(&self) -> TraceId {
        self.chunk.trace(self.at)
    }
}

impl SharedRow {
    /// Its place.
    pub fn place(&self) -> Place
        ensures { result ≡ self.now.place }
    {
        self.chunk.place(self.at)
    }

    /// Its span.
    pub fn span(&self) -> &Span
        ensures { result.now ≡ self.now.span }
    {
        self.chunk.span(self.at)
    }

    /// The row. The span is borrowed.
    pub fn lent(&self) -> RowRef<'_>
        ensures { result ≡ self.now }
    {
        self.chunk.lent(self.at)
    }

    /// A copy of its span, as a row.
    pub fn copy_row(&self) -> Result<Row, Memory>
        ensures { IfOk result (λ row. row ≡ self.now) }
    {
        let row = self.chunk.copy_row(self.at)?;
        Ok(row)
    }
}

impl TryCopy for SharedRow {
    /// The span is shared and not copied.
    fn copy(&self) -> Result<SharedRow, Memory> {
        let chunk = self.chunk.copy()?;
        Ok(SharedRow { chunk, at: self.at })
    }
}

// Adds copies of rows to a list.
pub(crate) fn copy_all(shared: &[SharedRow], rows: &mut Vec<Row>) -> Result<(), Memory>
    ensures { OnOk result (rows.new.items ≡ rows.old.items ++ shared.now) }
{
    for row in shared {
        rows.push(row.copy_row()?)?;
    }
    Ok(())
}

// Adds rows to a list, which borrows their spans.
pub(crate) fn lend_each<'a>(
    shared: &'a [SharedRow],
    rows: &mut Vec<RowRef<'a>>,
) -> Result<(), Memory>
    ensures { OnOk result (rows.new.items ≡ rows.old.items ++ shared.now) }
{
    for row in shared {
        rows.push(row.lent())?;
    }
    Ok(())
}

// Adds rows to a list, which shares them.
pub(crate) fn share_each(shared: &[SharedRow], rows: &mut Vec<SharedRow>) -> Result<(), Memory>
    ensures { OnOk result (rows.new.items ≡ rows.old.items ++ shared.now) }
{
    for row in shared {
        rows.push(row.copy()?)?;
    }
    Ok(())
}

// Adds copies of those of a trace, by a walk over all of them.
pub(crate) fn copy_those_of(
    shared: &[SharedRow],
    trace: TraceId,
    rows: &mut Vec<Row>,
) -> Result<(), Memory>
    ensures { OnOk result (rows.new.items ≡ rows.old.items ++ rows_of_trace trace shared.now) }
{
    for row in shared {
        if row.trace().cmp(&trace).is_eq() {
            rows.push(row.copy_row()?)?;
        }
    }
    Ok(())
}
