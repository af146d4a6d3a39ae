//! Which spans an expression over spansets selects: from the tree of the expression to marks.

ghost use Rattle.std.specs.Prelude.{◌≡◌, ℕ, IfOk, length, reverse};
ghost use Rattle.span_tree.specs.Nodes.{IsOneTrace};
ghost use Rattle.traceql_syntax.specs.Trees.{placed_option, set_tree, Filter};
ghost use Rattle.traceql_value.specs.EvalContexts.{context_patterns, context_rows, IsSame};
ghost use Rattle.spanset_eval.specs.Chains.{Chains};
ghost use Rattle.spanset_eval.specs.Marked.{MarksSet};
ghost use Rattle.spanset_eval.specs.MadeTree.{IsTreeOf};
ghost use Rattle.spanset_eval.specs.Sets.{Selects};

use crate::{filter, relate};
use span_tree::{Steps, Tree};
use span_types::{Marks, Memory};
use std::alloc::Global;
use std::sync::ledger::Ledger;
use traceql_syntax::{Operand, SpansetExpr, SpansetOp};
use traceql_value::EvalContext;

/// An operator whose left operand's spans are marked.
#[derive(Clone, Copy)]
pub struct Pending<'e> {
    /// The operator.
    pub op: SpansetOp,
    /// Its right operand.
    pub right: &'e SpansetExpr,
}

// The condition of the first operand of a chain of operators, and what is left to do then, the innermost operator last.
fn unchain<'e>(
    alloc: Global,
    expr: &'e SpansetExpr,
) -> Result<(&'e Option<Operand>, Vec<Pending<'e>>), Memory>
    ensures { IfOk result (λ r. (at : ℕ)
        × Chains (Filter at (placed_option r.0.now)) (reverse r.1.items) (set_tree expr.now)) }
{
    let mut pending = Vec::new(alloc);
    let mut first = expr;
    'down: loop {
        match first {
            SpansetExpr::Filter { condition, .. } => return Ok((condition, pending)),
            SpansetExpr::Join {
                op,
                left,
                right,
                ..
            } => {
                pending.push(Pending { op: *op, right })?;
                first = left;
            }
        }
    }
}

/// Marks on the spans that the expression selects, one for each row of the trace. `made` has the trace's tree where
/// one was made, and is for the next call. A chain of operators, each the left operand of the next, is worked off a
/// list and needs no stack.
pub fn select<L: Ledger>(
    context: &mut EvalContext<'_, '_>,
    made: &mut Option<Tree>,
    expr: &SpansetExpr,
    steps: &mut Steps<L>,
) -> Result<Marks, Memory>
    requires one { IsOneTrace (context_rows context.old) }
    requires made { IsTreeOf (context_rows context.old) made.old }
    ensures marks { IfOk result (MarksSet (length (context_rows context.old))
        (Selects (context_patterns context.old) (context_rows context.old) (set_tree expr.now))) }
    ensures context { IsSame context.old context.new }
    ensures made { IsTreeOf (context_rows context.old) made.new }
{
    let (condition, pending) = unchain(context.alloc(), expr)?;
    let mut pending = pending;
    let mut marks = filter::filter_rows(context, condition)?;
    'up: while let Some(outer) = pending.pop() {
        let right = select(context, made, outer.right, steps)?;
        let (alloc, rows) = (context.alloc(), context.rows());
        marks = relate::join_marks(alloc, rows, made, outer.op, marks, right, steps)?;
    }
    Ok(marks)
}
