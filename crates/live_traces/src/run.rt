//! Runs of rows: parts of shared lists of rows by trace.

ghost use Rattle.std.specs.Prelude.{◌≡◌, ◌≤◌, ◌-◌, IfOk, length, take, drop};
ghost use Rattle.rows_by_trace.specs.Traces.{rows_of_trace};
ghost use Rattle.live_traces.specs.ByTrace.{AreByTrace};

use crate::chunk::{SharedRow, copy_all, lend_each, share_each};
use crate::group::group_of;
use crate::runs::HasRows;
use row_refs::RowRef;
use span_types::{Memory, Row, Rows, Shared, TraceId, TryCopy};
use std::alloc::Global;
use std::marker::Model;

/// Neighbours in a list of rows by trace that is unchanged once made and has several holders. Contracts see the list of them.
#[derive(Drop)]
pub struct Run {
    rows: Shared<Vec<SharedRow>>,
    from: usize,
    to: usize,
}

impl Model for Run {
    ghost use Rattle.std.specs.Prelude.{List, length, take, drop, ◌-◌, ◌≤◌};
    ghost use Rattle.span_types.specs.declared.spans.Row.{Row};
    ghost use Rattle.live_traces.specs.ByTrace.{AreByTrace};

    ghost Value = { List Row };

    ghost view = { λ r. take (r.to - r.from) (drop r.from r.rows.items) };

    ghost invariant = { λ r. (r.from ≤ r.to) × (r.to ≤ length r.rows.items) × AreByTrace r.rows.items };
}

impl Run {
    /// A run of these rows, which are in order of trace. They are moved and not copied.
    pub fn of(alloc: Global, rows: Vec<SharedRow>) -> Result<Run, Memory>
        requires { AreByTrace rows.items }
        ensures { IfOk result (λ run. run ≡ rows.items) }
    {
        let to = rows.len();
        let rows = Shared::of(alloc, rows)?;
        Ok(Run { rows, from: 0, to })
    }

    /// How many rows it has.
    pub fn len(&self) -> usize
        ensures { result ≡ length self.now }
    {
        self.to - self.from
    }

    /// Its rows, which are in order of trace.
    pub fn as_slice(&self) -> &[SharedRow]
        ensures rows { result.now ≡ self.now }
        ensures by_trace { AreByTrace self.now }
    {
        &self.rows.get().as_slice()[self.from..self.to]
    }

    /// Copies of its rows of a trace. It costs their number, and the logarithm of its length.
    pub fn rows_of(&self, alloc: Global, trace: TraceId) -> Result<Rows, Memory>
        ensures { IfOk result (λ rows. rows ≡ rows_of_trace trace self.now) }
    {
        let mut rows = Vec::new(alloc);
        self.copy_rows_of(trace, &mut rows)?;
        Ok(Rows::of(rows))
    }

    /// Its first rows, so many, and the others. No row is copied.
    pub fn split(&self, at: usize) -> Result<(Run, Run), Memory>
        requires { at ≤ length self.now }
        ensures { IfOk result
            (λ parts. (parts.0 ≡ take at self.now) × (parts.1 ≡ drop at self.now)) }
    {
        let first = self.part(0, at)?;
        let others = self.part(at, self.len())?;
        Ok((first, others))
    }

    // Its rows from one position up to another.
    fn part(&self, low: usize, high: usize) -> Result<Run, Memory>
        requires { (low ≤ high) × (high ≤ length self.now) }
        ensures { IfOk result (λ run. run ≡ take (high - low) (drop low self.now)) }
    {
        let rows = self.rows.copy()?;
        Ok(Run {
            rows,
            from: self.from + low,
            to: self.from + high,
        })
    }
}

impl HasRows for Run {
    ghost listed = { λ run. run };

    fn lend_rows<'a>(&'a self, rows: &mut Vec<RowRef<'a>>) -> Result<(), Memory> {
        lend_each(self.as_slice(), rows)
    }

    fn share_rows(&self, rows: &mut Vec<SharedRow>) -> Result<(), Memory> {
        share_each(self.as_slice(), rows)
    }

    fn copy_rows_of(&self, trace: TraceId, rows: &mut Vec<Row>) -> Result<(), Memory> {
        let group = group_of(self.as_slice(), trace);
        copy_all(group, rows)
    }
}

impl TryCopy for Run {
    /// The rows are shared and not copied.
    fn copy(&self) -> Result<Run, Memory> {
        let rows = self.rows.copy()?;
        Ok(Run {
            rows,
            from: self.from,
            to: self.to,
        })
    }
}
