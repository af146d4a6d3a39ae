//! The rows in memory, of which a search takes those of a few traces at a time.

ghost use Rattle.std.specs.Prelude.{◌≡◌, IfOk};
ghost use Rattle.std.specs.List.{flat_map};
ghost use Rattle.rows_by_trace.specs.Traces.{rows_of_trace};
ghost use Rattle.query_fanout.specs.Searching.{AreAlikeByTrace};

use live_traces::{Run, Runs, SharedRow};
use span_types::{Memory, Rows, TraceId};
use std::alloc::Global;
use std::marker::Model;

/// Rows by trace, which share their spans with those that they were made of. Those of a trace are neighbours, so that
/// they are found by halving, however many pushes the rows came in. Contracts see the list of them.
#[derive(Drop)]
pub(crate) struct Own {
    run: Run,
}

impl Model for Own {
    ghost use Rattle.std.specs.Prelude.{List};
    ghost use Rattle.span_types.specs.declared.spans.Row.{Row};

    ghost Value = { List Row };

    ghost view = { λ o. o.run };
}

impl Own {
    /// The rows by trace. They are shared and not copied. It costs a sort.
    pub(crate) fn of(alloc: Global, rows: &Runs) -> Result<Own, Memory>
        ensures { IfOk result (λ own. AreAlikeByTrace own rows.now) }
    {
        let run = rows.by_trace(alloc)?;
        Ok(Own { run })
    }

    /// All of them, in order of trace.
    pub(crate) fn as_slice(&self) -> &[SharedRow]
        ensures { result.now ≡ self.now }
    {
        self.run.as_slice()
    }

    /// Copies of the rows of some traces, one trace's after those of the one before it.
    pub(crate) fn rows_of(&self, alloc: Global, ids: &[TraceId]) -> Result<Rows, Memory>
        ensures { IfOk result (λ rows. rows ≡ flat_map (λ id. rows_of_trace id self.now) ids.now) }
    {
        let mut rows = Vec::new(alloc);
        for id in ids {
            let theirs = self.run.rows_of(alloc, *id)?;
            rows.append(&mut theirs.into_vec())?;
        }
        Ok(Rows::of(rows))
    }
}
