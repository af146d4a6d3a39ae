//! Rows that remained live after a cut.

ghost use Rattle.std.specs.Prelude.{◌≡◌, Some, IfOk};
ghost use Rattle.live_traces.specs.ByTrace.{AreGroupsOf};

use crate::chunk::{SharedRow, copy_those_of, lend_each, share_each};
use crate::group::sort_by_trace;
use crate::run::Run;
use crate::runs::HasRows;
use row_refs::RowRef;
use span_types::{Memory, Row, Shared, TraceId, TryCopy};
use std::alloc::Global;
use std::marker::Model;

/// Rows in the order in which they came, in a list that is unchanged once made and has several holders. Contracts see the list.
#[derive(Drop)]
pub struct Rest {
    rows: Shared<Vec<SharedRow>>,
    // The same rows by trace, unless they are only gone over.
    by_trace: Option<Run>,
}

impl Model for Rest {
    ghost use Rattle.std.specs.Prelude.{List};
    ghost use Rattle.span_types.specs.declared.spans.Row.{Row};
    ghost use Rattle.live_traces.specs.ByTrace.{AreGroupsOf};

    ghost Value = { List Row };

    ghost view = { λ r. r.rows.items };

    ghost invariant = { λ r. AreGroupsOf r.by_trace r.rows.items };
}

impl Rest {
    /// These rows, which are moved and not copied, to be gone over.
    pub(crate) fn of(alloc: Global, rows: Vec<SharedRow>) -> Result<Rest, Memory>
        ensures { IfOk result (λ rest. rest ≡ rows.items) }
    {
        let rows = Shared::of(alloc, rows)?;
        let by_trace = None;
        Ok(Rest { rows, by_trace })
    }

    /// These rows, which are moved and not copied, to be looked up by trace.
    pub(crate) fn searchable(alloc: Global, rows: Vec<SharedRow>) -> Result<Rest, Memory>
        ensures { IfOk result (λ rest. rest ≡ rows.items) }
    {
        let run = run_by_trace(alloc, rows.as_slice())?;
        let rows = Shared::of(alloc, rows)?;
        let by_trace = Some(run);
        Ok(Rest { rows, by_trace })
    }

    /// Its rows.
    pub(crate) fn as_slice(&self) -> &[SharedRow]
        ensures { result.now ≡ self.now }
    {
        self.rows.get().as_slice()
    }
}

// A run of the same rows by trace.
fn run_by_trace(alloc: Global, rows: &[SharedRow]) -> Result<Run, Memory>
    ensures { IfOk result (λ run. AreGroupsOf (Some run) rows.now) }
{
    let mut sorted = Vec::new(alloc);
    share_each(rows, &mut sorted)?;
    sort_by_trace(&mut sorted)?;
    let run = Run::of(alloc, sorted)?;
    Ok(run)
}

impl HasRows for Rest {
    ghost listed = { λ rest. rest };

    fn lend_rows<'a>(&'a self, rows: &mut Vec<RowRef<'a>>) -> Result<(), Memory> {
        lend_each(self.as_slice(), rows)
    }

    fn share_rows(&self, rows: &mut Vec<SharedRow>) -> Result<(), Memory> {
        share_each(self.as_slice(), rows)
    }

    fn copy_rows_of(&self, trace: TraceId, rows: &mut Vec<Row>) -> Result<(), Memory> {
        match &self.by_trace {
            Some(run) => run.copy_rows_of(trace, rows),
            None => copy_those_of(self.as_slice(), trace, rows),
        }
    }
}

impl TryCopy for Rest {
    /// The rows are shared and not copied.
    fn copy(&self) -> Result<Rest, Memory> {
        let rows = self.rows.copy()?;
        let by_trace = copy_if_any(&self.by_trace)?;
        Ok(Rest { rows, by_trace })
    }
}

// The same run again, if there is one.
fn copy_if_any(run: &Option<Run>) -> Result<Option<Run>, Memory>
    ensures { IfOk result (λ copy. copy ≡ run.now) }
{
    match run {
        Some(run) => Ok(Some(run.copy()?)),
        None => Ok(None),
    }
}
