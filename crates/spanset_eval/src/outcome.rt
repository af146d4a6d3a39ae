//! The entry points: what a query answers of a trace, from its selection through its stages to what is shown.

ghost use Rattle.std.specs.Prelude.{◌≡◌, ◌<◌, IfOk, None};
ghost use Rattle.span_tree.specs.Nodes.{IsOneTrace};
ghost use Rattle.traceql_syntax.specs.Trees.{query_tree, set_tree};
ghost use Rattle.traceql_value.specs.EvalContexts.{context_patterns, context_rows, matchers_patterns, IsSame};
ghost use Rattle.spanset_eval.specs.Outcomes.{IsCutOutcome, IsListOf, IsOutcome};
ghost use Rattle.spanset_eval.specs.Sets.{Selects};

use crate::groups::Positions;
use crate::show::TraceView;
use crate::{TraceResult, marks, select, stages};
use span_tree::Steps;
use span_types::{Memory, Row, Rows};
use std::alloc::Global;
use std::marker::Brand;
use std::sync::ledger::{Blank, Ledger};
use traceql_syntax::{Query, SpansetExpr};
use traceql_types::Checked;
use traceql_value::{EvalContext, Matchers};

// The positions of the spans that the expression selects, in ascending order.
fn select_positions(
    context: &mut EvalContext<'_, '_>,
    expr: &SpansetExpr,
) -> Result<Positions, Memory>
    requires { IsOneTrace (context_rows context.old) }
    ensures positions { IfOk result (IsListOf
        (Selects (context_patterns context.old) (context_rows context.old) (set_tree expr.now))) }
    ensures context { IsSame context.old context.new }
{
    select_stepping::<Brand>(context, expr, Blank::new(1))
}

// The same with a count of steps, which no one reads.
fn select_stepping<L: Ledger>(
    context: &mut EvalContext<'_, '_>,
    expr: &SpansetExpr,
    blank: Blank,
) -> Result<Positions, Memory>
    requires one { IsOneTrace (context_rows context.old) }
    requires name { blank.name ≡ L.name }
    requires parts { blank.parts ≡ L.parts }
    requires some { 0 < L.parts }
    ensures positions { IfOk result (IsListOf
        (Selects (context_patterns context.old) (context_rows context.old) (set_tree expr.now))) }
    ensures context { IsSame context.old context.new }
{
    let mut steps: Steps<L> = Steps::of(blank);
    let mut made = None;
    let marks = select::select(context, &mut made, expr, &mut steps)?;
    marks::marked(context.alloc(), &marks)
}

/// What a query answers of a trace, whose rows are all of one trace: nothing where no spanset is left. All spans of
/// each spanset are shown.
pub fn evaluate(
    alloc: Global,
    checked: &Checked,
    trace: &Rows,
) -> Result<Option<TraceResult>, Memory>
    requires { IsOneTrace trace.now }
    ensures { IfOk result
        (IsOutcome checked.now.patterns trace.now (query_tree checked.now.query)) }
{
    let matchers = Matchers::of(alloc, checked)?;
    let mut context = EvalContext::of(alloc, matchers, trace.as_slice());
    outcome(&checked.query, &mut context, None)
}

/// The same of a slice of rows, with at most so many spans of each spanset: the first ones. How many a spanset has is
/// given all the same. The matchers are those of the query's patterns; they are given back for the next trace, also
/// where memory runs out.
pub fn evaluate_rows<'q>(
    alloc: Global,
    checked: &Checked,
    matchers: Matchers<'q>,
    rows: &[Row],
    most: usize,
) -> (Result<Option<TraceResult>, Memory>, Matchers<'q>)
    requires one { IsOneTrace rows.now }
    requires patterns { matchers_patterns matchers ≡ checked.now.patterns }
    ensures outcome { IfOk result.0
        (IsCutOutcome (Some most) checked.now.patterns rows.now (query_tree checked.now.query)) }
    ensures matchers { matchers_patterns result.1 ≡ matchers_patterns matchers.entry }
{
    let mut context = EvalContext::of(alloc, matchers, rows);
    let found = outcome(&checked.query, &mut context, Some(most));
    (found, context.leave())
}

// What a query answers of the context's trace, with at most so many spans of each spanset.
fn outcome<'a>(
    query: &'a Query,
    context: &mut EvalContext<'_, 'a>,
    most: Option<usize>,
) -> Result<Option<TraceResult>, Memory>
    requires { IsOneTrace (context_rows context.old) }
    ensures outcome { IfOk result (IsCutOutcome most (context_patterns context.old)
        (context_rows context.old) (query_tree query.now)) }
    ensures context { IsSame context.old context.new }
{
    let members = select_positions(context, &query.spansets)?;
    let groups = stages::drop_empty(stages::single(context.alloc(), members)?);
    let groups = stages::after_stages(context, query.stages.as_slice(), groups)?;
    let view = TraceView {
        context,
        stages: query.stages.as_slice(),
        most,
    };
    view.trace_result(groups)
}
