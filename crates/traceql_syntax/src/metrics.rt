//! Metrics queries: a query, what is counted of it, and by which value it is split.

ghost use Rattle.std.specs.Prelude.{◌≡◌, IfOk};
ghost use Rattle.traceql_syntax.specs.Trees.{metrics_tree, query_tree, run_query};

use crate::{Operand, Query, Stage};
use span_types::Memory;

/// A metrics query: how many spans a query finds begin in each bucket of time.
#[derive(Debug, Drop)]
pub struct MetricsQuery {
    /// What is looked for.
    pub query: Query,
    /// Whether a rate for a second is shown (`rate()`) and not the count itself (`count_over_time()`).
    pub rate: bool,
    /// By which values the spans are split, where they are.
    pub by: Option<Operand>,
}

impl MetricsQuery {
    /// The query that is checked and run for it: its own, with the stage `by` after it if it splits. The one error is
    /// out of memory.
    pub fn into_query(self) -> Result<Query, Memory>
        ensures { IfOk result
            (λ q. query_tree q ≡ run_query (query_tree self.query) (metrics_tree self).by) }
    {
        let Query { spansets, stages } = self.query;
        let Some(by) = self.by else {
            return Ok(Query { spansets, stages });
        };
        let mut list = stages.into_vec();
        list.push(Stage::By(by))?;
        Ok(Query {
            spansets,
            stages: crate::Stages::of(list),
        })
    }
}
