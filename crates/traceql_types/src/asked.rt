//! The patterns that a query asks for: from its tree to their places and strings, in the text's order.

ghost use Rattle.std.specs.Prelude.{◌≡◌, ◌++◌, ℕ, List, map, OnOk, IfOk};
ghost use Rattle.std.specs.List.{flat_map};
ghost use Rattle.traceql_syntax.specs.Refusals.{Reads};
ghost use Rattle.traceql_syntax.specs.Trees.{QueryTree, tree, placed_option, set_tree, aggregate_tree, threshold_tree, stage_tree, query_tree};
ghost use Rattle.traceql_types.specs.Asked.{in_expr, in_filter, in_set, in_aggregate, in_threshold, in_stage, asked_patterns};
ghost use Rattle.traceql_types.specs.Checks.{Ascends};
ghost use Rattle.traceql_types.specs.Shown.{shown_all};

use span_types::{Memory, Text};
use std::alloc::Global;
use traceql_syntax::{Aggregate, FieldExpr, Operand, Query, SpansetExpr, Stage, Stages, Threshold};

/// A pattern that a query asks for.
#[derive(Clone, Copy, Debug)]
pub struct Asked<'a> {
    /// The place of its string: how many bytes of the query's text stand before it.
    pub at: u64,
    /// Its string.
    pub text: &'a Text,
}

// Adds the patterns of an expression.
fn add_expr<'a>(expr: &'a FieldExpr, found: &mut Vec<Asked<'a>>) -> Result<(), Memory>
    ensures { OnOk result
        (shown_all found.new.items ≡ shown_all found.old.items ++ in_expr (tree expr.now)) }
{
    match expr {
        FieldExpr::Literal { .. } | FieldExpr::Field { .. } => Ok(()),
        FieldExpr::Unary { operand, .. } => add_expr(&operand.expr, found),
        FieldExpr::Binary { left, right, .. } => {
            add_expr(&left.expr, found)?;
            add_expr(&right.expr, found)
        }
        FieldExpr::Match {
            left,
            pattern_at,
            pattern,
            ..
        } => {
            add_expr(&left.expr, found)?;
            found.push(Asked {
                at: *pattern_at,
                text: pattern,
            })?;
            Ok(())
        }
    }
}

// Adds the patterns of a filter.
fn add_filter<'a>(condition: &'a Option<Operand>, found: &mut Vec<Asked<'a>>) -> Result<(), Memory>
    ensures { OnOk result
        (shown_all found.new.items
        ≡ shown_all found.old.items ++ in_filter (placed_option condition.now)) }
{
    match condition {
        None => Ok(()),
        Some(operand) => add_expr(&operand.expr, found),
    }
}

// Adds the patterns of an expression over spansets.
fn add_set<'a>(spansets: &'a SpansetExpr, found: &mut Vec<Asked<'a>>) -> Result<(), Memory>
    ensures { OnOk result
        (shown_all found.new.items ≡ shown_all found.old.items ++ in_set (set_tree spansets.now)) }
{
    match spansets {
        SpansetExpr::Filter { condition, .. } => add_filter(condition, found),
        SpansetExpr::Join { left, right, .. } => {
            add_set(left, found)?;
            add_set(right, found)
        }
    }
}

// Adds the patterns of an aggregate.
fn add_aggregate<'a>(aggregate: &'a Aggregate, found: &mut Vec<Asked<'a>>) -> Result<(), Memory>
    ensures { OnOk result
        (shown_all found.new.items
        ≡ shown_all found.old.items ++ in_aggregate (aggregate_tree aggregate.now)) }
{
    match aggregate {
        Aggregate::Count => Ok(()),
        Aggregate::Of(_, operand) => add_expr(&operand.expr, found),
    }
}

// Adds the patterns of what an aggregate is compared with.
fn add_threshold<'a>(threshold: &'a Threshold, found: &mut Vec<Asked<'a>>) -> Result<(), Memory>
    ensures { OnOk result
        (shown_all found.new.items
        ≡ shown_all found.old.items ++ in_threshold (threshold_tree threshold.now)) }
{
    match threshold {
        Threshold::Aggregate(aggregate) => add_aggregate(aggregate, found),
        Threshold::Number { .. } | Threshold::Duration { .. } => Ok(()),
    }
}

// Adds the patterns of a stage.
fn add_stage<'a>(stage: &'a Stage, found: &mut Vec<Asked<'a>>) -> Result<(), Memory>
    ensures { OnOk result
        (shown_all found.new.items ≡ shown_all found.old.items ++ in_stage (stage_tree stage.now)) }
{
    match stage {
        Stage::Filter { condition, .. } => add_filter(condition, found),
        Stage::By(operand) => add_expr(&operand.expr, found),
        Stage::Coalesce | Stage::Select(_) => Ok(()),
        Stage::Compare { left, right, .. } => {
            add_aggregate(left, found)?;
            add_threshold(right, found)
        }
    }
}

// Adds the patterns of a query's stages.
fn add_stages<'a>(stages: &'a Stages, found: &mut Vec<Asked<'a>>) -> Result<(), Memory>
    ensures { OnOk result
        (shown_all found.new.items
        ≡ shown_all found.old.items ++ flat_map in_stage (map stage_tree stages.now)) }
{
    for stage in stages.as_slice() {
        add_stage(stage, found)?;
    }
    Ok(())
}

/// The patterns that a query asks for, one for each `=~` and `!~`, in the text's order. The one error is out of memory.
pub fn patterns_of(alloc: Global, query: &Query) -> Result<Vec<Asked<'_>>, Memory>
    ensures { IfOk result (λ found. shown_all found.items ≡ asked_patterns (query_tree query.now)) }
{
    let mut found = Vec::new(alloc);
    add_set(&query.spansets, &mut found)?;
    add_stages(&query.stages, &mut found)?;
    Ok(found)
}

/// The patterns of a query that was read from a text stand in the text's order: a law, which the clause of `check` on
/// what its maker was asked for rests on.
pub fn patterns_in_order()
    ensures { (depth : ℕ) (text : List ℕ) (q : QueryTree) → Reads depth text q
        → Ascends (asked_patterns q) }
{}
