//! What a look or a flush holds of rows in memory.

ghost use Rattle.std.specs.Prelude.{◌≡◌, ◌++◌, List, IfOk, OnOk};
ghost use Rattle.std.specs.List.{flat_map};
ghost use Rattle.span_types.specs.declared.ids.TraceId.{TraceId as AnyTrace};
ghost use Rattle.span_types.specs.declared.spans.Row.{Row};
ghost use Rattle.rows_by_trace.specs.Traces.{rows_of_trace};
ghost use Rattle.live_traces.specs.Rows.{push_rows, run_rows};

use crate::chunk::{Chunk, SharedRow};
use crate::group::sort_by_trace;
use crate::rest::Rest;
use crate::run::Run;
use row_refs::RowRef;
use span_types::{Memory, Row, Rows, TraceId};
use std::alloc::Global;
use std::marker::Model;

/// What has a list of rows.
pub(crate) trait HasRows {
    ghost listed: { Self → List Row };

    /// Adds its rows to a list, which borrows their spans.
    fn lend_rows<'a>(&'a self, rows: &mut Vec<RowRef<'a>>) -> Result<(), Memory>
        ensures { OnOk result (rows.new.items ≡ rows.old.items ++ listed self.now) };

    /// Adds its rows to a list, which shares them.
    fn share_rows(&self, rows: &mut Vec<SharedRow>) -> Result<(), Memory>
        ensures { OnOk result (rows.new.items ≡ rows.old.items ++ listed self.now) };

    /// Adds copies of its rows of a trace to a list.
    fn copy_rows_of(&self, trace: TraceId, rows: &mut Vec<Row>) -> Result<(), Memory>
        ensures { OnOk result
            (rows.new.items ≡ rows.old.items ++ rows_of_trace trace (listed self.now)) };
}

/// Several runs, after them what remained live after a cut, and after that whole pushes. Contracts see the list of all
/// their rows.
#[derive(Drop)]
pub struct Runs {
    runs: Vec<Run>,
    rests: Vec<Rest>,
    pushes: Vec<Chunk>,
}

impl Model for Runs {
    ghost use Rattle.std.specs.Prelude.{List, ◌++◌};
    ghost use Rattle.span_types.specs.declared.spans.Row.{Row};
    ghost use Rattle.live_traces.specs.Rows.{push_rows, run_rows};

    ghost Value = { List Row };

    ghost view = { λ l. (run_rows l.runs.items ++ run_rows l.rests.items) ++ push_rows l.pushes.items };
}

impl Runs {
    /// These runs, then these rests, and then these pushes. Nothing is copied.
    pub fn of(runs: Vec<Run>, rests: Vec<Rest>, pushes: Vec<Chunk>) -> Runs
        ensures { result ≡ (run_rows runs.items ++ run_rows rests.items) ++ push_rows pushes.items }
    {
        Runs {
            runs,
            rests,
            pushes,
        }
    }

    /// Copies of the rows of a trace, in their order. It costs their number, and of each run, rest and push the logarithm
    /// of its length.
    pub fn rows_of(&self, trace: TraceId) -> Result<Rows, Memory>
        ensures { IfOk result (λ rows. rows ≡ rows_of_trace trace self.now) }
    {
        let mut rows = Vec::new(*self.runs.allocator());
        add_those_of(self.runs.as_slice(), trace, &mut rows)?;
        add_those_of(self.rests.as_slice(), trace, &mut rows)?;
        add_those_of(self.pushes.as_slice(), trace, &mut rows)?;
        Ok(Rows::of(rows))
    }

    /// All rows by trace, those of each trace in their order. They are shared and not copied. It costs a sort.
    pub fn by_trace(&self, alloc: Global) -> Result<Run, Memory>
        ensures groups { IfOk result (λ run. (trace : AnyTrace)
            → rows_of_trace trace run ≡ rows_of_trace trace self.now) }
    {
        let mut rows = self.shares(alloc)?;
        sort_by_trace(&mut rows)?;
        let run = Run::of(alloc, rows)?;
        Ok(run)
    }

    // All rows again, in their order.
    fn shares(&self, alloc: Global) -> Result<Vec<SharedRow>, Memory>
        ensures { IfOk result (λ rows. rows.items ≡ self.now) }
    {
        let mut rows = Vec::new(alloc);
        share_all(self.runs.as_slice(), &mut rows)?;
        share_all(self.rests.as_slice(), &mut rows)?;
        share_all(self.pushes.as_slice(), &mut rows)?;
        Ok(rows)
    }

    /// All rows, in their order. Their spans are borrowed.
    pub fn refs(&self, alloc: Global) -> Result<Vec<RowRef<'_>>, Memory>
        ensures { IfOk result (λ rows. rows.items ≡ self.now) }
    {
        let mut rows = Vec::new(alloc);
        lend_all(self.runs.as_slice(), &mut rows)?;
        lend_all(self.rests.as_slice(), &mut rows)?;
        lend_all(self.pushes.as_slice(), &mut rows)?;
        Ok(rows)
    }
}

// Adds all rows, whose spans are borrowed.
fn lend_all<'a, T: HasRows>(parts: &'a [T], rows: &mut Vec<RowRef<'a>>) -> Result<(), Memory>
    ensures { OnOk result (rows.new.items ≡ rows.old.items ++ flat_map T.listed parts.now) }
{
    for part in parts {
        part.lend_rows(rows)?;
    }
    Ok(())
}

// Adds all rows, which are shared.
fn share_all<T: HasRows>(parts: &[T], rows: &mut Vec<SharedRow>) -> Result<(), Memory>
    ensures { OnOk result (rows.new.items ≡ rows.old.items ++ flat_map T.listed parts.now) }
{
    for part in parts {
        part.share_rows(rows)?;
    }
    Ok(())
}

// Adds copies of the rows of a trace.
fn add_those_of<T: HasRows>(parts: &[T], trace: TraceId, rows: &mut Vec<Row>) -> Result<(), Memory>
    ensures { OnOk result
        (rows.new.items ≡ rows.old.items ++ rows_of_trace trace (flat_map T.listed parts.now)) }
{
    for part in parts {
        part.copy_rows_of(trace, rows)?;
    }
    Ok(())
}
