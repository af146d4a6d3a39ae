//! What a query is refused for its kinds: filters, stages and aggregates, each by its expressions.

ghost use Rattle.std.specs.Prelude.{◌≡◌, map};
ghost use Rattle.std.specs.List.{flat_map};
ghost use Rattle.traceql_syntax.specs.Trees.{placed_option, set_tree, aggregate_tree, threshold_tree, stage_tree, query_tree};
ghost use Rattle.traceql_types.specs.Order.{IsFirstOf};
ghost use Rattle.traceql_types.specs.Refusals.{filter_refusals, aggregate_refusals, threshold_refusals, set_refusals, stage_refusals, kind_refusals};

use crate::TypeError;
use crate::expressions::{
    division, earlier, expr_refusal, nil_refusal, refused_as_number, refused_as_truth,
};
use traceql_syntax::{Aggregate, Operand, Query, SpansetExpr, Stage, Stages, Threshold};

// The earliest refusal of a filter.
fn filter_refusal(condition: &Option<Operand>) -> Option<TypeError>
    ensures { IsFirstOf (filter_refusals (placed_option condition.now)) result }
{
    match condition {
        None => None,
        Some(operand) => earlier(refused_as_truth(operand), expr_refusal(&operand.expr)),
    }
}

// The earliest refusal of an aggregate.
fn aggregate_refusal(aggregate: &Aggregate) -> Option<TypeError>
    ensures { IsFirstOf (aggregate_refusals (aggregate_tree aggregate.now)) result }
{
    match aggregate {
        Aggregate::Count => None,
        Aggregate::Of(_, operand) => {
            let own = earlier(refused_as_number(operand), expr_refusal(&operand.expr));
            earlier(own, division(&operand.expr))
        }
    }
}

// The earliest refusal of what an aggregate is compared with.
fn threshold_refusal(threshold: &Threshold) -> Option<TypeError>
    ensures { IsFirstOf (threshold_refusals (threshold_tree threshold.now)) result }
{
    match threshold {
        Threshold::Aggregate(aggregate) => aggregate_refusal(aggregate),
        Threshold::Number { .. } | Threshold::Duration { .. } => None,
    }
}

// The earliest refusal of an expression over spansets.
fn set_refusal(spansets: &SpansetExpr) -> Option<TypeError>
    ensures { IsFirstOf (set_refusals (set_tree spansets.now)) result }
{
    match spansets {
        SpansetExpr::Filter { condition, .. } => filter_refusal(condition),
        SpansetExpr::Join { left, right, .. } => earlier(set_refusal(left), set_refusal(right)),
    }
}

// The earliest refusal of a stage.
fn stage_refusal(stage: &Stage) -> Option<TypeError>
    ensures { IsFirstOf (stage_refusals (stage_tree stage.now)) result }
{
    match stage {
        Stage::Filter { condition, .. } => filter_refusal(condition),
        Stage::By(operand) => earlier(nil_refusal(&operand.expr), expr_refusal(&operand.expr)),
        Stage::Coalesce | Stage::Select(_) => None,
        Stage::Compare { left, right, .. } => {
            earlier(aggregate_refusal(left), threshold_refusal(right))
        }
    }
}

// The earliest refusal of a query's stages.
fn stages_refusal(stages: &Stages) -> Option<TypeError>
    ensures { IsFirstOf (flat_map stage_refusals (map stage_tree stages.now)) result }
{
    let mut first = None;
    for stage in stages.as_slice() {
        first = earlier(first, stage_refusal(stage));
    }
    first
}

// The earliest refusal of a query for its kinds.
pub(crate) fn query_refusal(query: &Query) -> Option<TypeError>
    ensures { IsFirstOf (kind_refusals (query_tree query.now)) result }
{
    earlier(set_refusal(&query.spansets), stages_refusal(&query.stages))
}
