//! What a query's stages make of spansets, one stage after another: `by`, `coalesce`, `select`, filters and
//! comparisons of aggregates.

ghost use Rattle.std.specs.Prelude.{◌≡◌, ℕ, ◌<◌, ◌==◌, ◌||◌, ◌++◌, ◌∷◌, [], IfOk, OnOk, length, map, filter};
ghost use Rattle.std.specs.List.{flat_map, list_any};
ghost use Rattle.traceql_value.specs.EvalContexts.{context_rows, IsSame};
ghost use Rattle.spanset_eval.specs.InContext.{filters_spanset, passes_in, split_in, stage_in, stages_in, value_in};
ghost use Rattle.spanset_eval.specs.Marked.{mark_at, MarksBy};
ghost use Rattle.spanset_eval.specs.Parts.{part_at, part_group, part_of};
ghost use Rattle.spanset_eval.specs.Stages.{coalesced, drop_empty, has_spans, is_in_some};

use crate::groups::{Group, Positions};
use crate::parts::{Part, Valued, arrange};
use crate::{amounts, filter, marks};
use span_types::{Marks, Memory, Row, TryCopy};
use std::alloc::Global;
use traceql_syntax::{Aggregate, Comparison, FieldExpr, Operand, Stage, Threshold};
use traceql_value::{EvalContext, Values};

// The spansets with the spans that the filter keeps.
fn filter_spansets(
    context: &mut EvalContext<'_, '_>,
    condition: &Option<Operand>,
    groups: Vec<Group>,
) -> Result<Vec<Group>, Memory>
    ensures groups { IfOk result (λ kept.
        kept.items ≡ map (filters_spanset context.old condition.now) groups.items) }
    ensures context { IsSame context.old context.new }
{
    let mut kept = Vec::with_capacity(context.alloc(), groups.len())?;
    for group in groups {
        let members = filter::filter_members(context, condition, group.members.as_slice())?;
        kept.push(Group {
            by: group.by,
            members,
        })?;
    }
    Ok(kept)
}

// The members with the values that an expression has there; no text is copied.
fn with_values<'a>(
    context: &mut EvalContext<'_, 'a>,
    expr: &'a FieldExpr,
    members: &[usize],
) -> Result<Vec<Valued<'a>>, Memory>
    ensures valued { IfOk result (λ valued.
        map part_of valued.items ≡ map (part_at (value_in context.old expr.now)) members.now) }
    ensures context { IsSame context.old context.new }
{
    let mut valued = Vec::with_capacity(context.alloc(), members.len())?;
    for position in members {
        let value = filter::value_at(context, expr, *position)?;
        valued.push(Valued {
            value,
            position: *position,
        })?;
    }
    Ok(valued)
}

// Adds the spanset of a part.
fn add_part(alloc: Global, by: Values, part: Part<'_>, found: &mut Vec<Group>) -> Result<(), Memory>
    ensures { OnOk result (found.new.items ≡ found.old.items ++ part_group by part.entry ∷ []) }
{
    found.push(part.into_group(alloc, by)?)?;
    Ok(())
}

// Adds the spanset of each part. The last one takes the earlier values and the others copy them, so that a spanset that
// isn't divided copies none: all values that stages copy are no more than those that spansets have in the end.
fn add_parts(
    alloc: Global,
    by: Values,
    parts: Vec<Part<'_>>,
    found: &mut Vec<Group>,
) -> Result<(), Memory>
    ensures { OnOk result
        (found.new.items ≡ found.old.items ++ map (part_group by) parts.entry.items) }
{
    let mut parts = parts;
    let Some(last) = parts.pop() else {
        return Ok(());
    };
    for part in parts {
        add_part(alloc, by.copy()?, part, found)?;
    }
    add_part(alloc, by, last, found)
}

// Adds what a spanset is split into.
fn add_split<'a>(
    context: &mut EvalContext<'_, 'a>,
    expr: &'a FieldExpr,
    group: Group,
    found: &mut Vec<Group>,
) -> Result<(), Memory>
    ensures found { OnOk result (
        found.new.items ≡ found.old.items ++ split_in context.old expr.now group) }
    ensures context { IsSame context.old context.new }
{
    let alloc = context.alloc();
    let valued = with_values(context, expr, group.members.as_slice())?;
    let parts = arrange(alloc, valued.as_slice())?;
    add_parts(alloc, group.by, parts, found)
}

// Each spanset split by the values of an expression.
fn split<'a>(
    context: &mut EvalContext<'_, 'a>,
    expr: &'a FieldExpr,
    groups: Vec<Group>,
) -> Result<Vec<Group>, Memory>
    ensures groups { IfOk result (λ found.
        found.items ≡ flat_map (split_in context.old expr.now) groups.items) }
    ensures context { IsSame context.old context.new }
{
    let mut found = Vec::new(context.alloc());
    for group in groups {
        add_split(context, expr, group, &mut found)?;
    }
    Ok(found)
}

// Sets a mark on each of the positions that there is.
fn mark_members(marks: &mut [bool], members: &[usize])
    ensures each { (y : ℕ) → y < length marks.old
        → mark_at marks.new y ≡ (mark_at marks.old y || list_any (λ x. x == y) members.now) }
{
    for position in members {
        if *position < marks.len() {
            marks[*position] = true;
        }
    }
}

// Marks on the spans that one of the spansets has.
fn in_some(alloc: Global, count: usize, groups: &[Group]) -> Result<Marks, Memory>
    ensures { IfOk result (MarksBy count (is_in_some groups.now)) }
{
    let mut marks = vec![in alloc; false; count]?;
    for group in groups {
        mark_members(marks.as_mut_slice(), group.members.as_slice());
    }
    Ok(Marks::of(marks))
}

// All spansets as one.
fn coalesce(alloc: Global, rows: &[Row], groups: &[Group]) -> Result<Vec<Group>, Memory>
    ensures { IfOk result (λ one. one.items ≡ coalesced rows.now groups.now) }
{
    let marks = in_some(alloc, rows.len(), groups)?;
    let members = marks::marked(alloc, &marks)?;
    single(alloc, members)
}

/// One spanset that wasn't split, of these members.
pub fn single(alloc: Global, members: Positions) -> Result<Vec<Group>, Memory>
    ensures { IfOk result (λ one. one.items ≡ record { by = []; members = members } ∷ []) }
{
    let mut one = Vec::with_capacity(alloc, 1)?;
    one.push(Group {
        by: Values::of(Vec::new(alloc)),
        members,
    })?;
    Ok(one)
}

// The spansets for which the comparison of an aggregate is true.
fn compare<'a>(
    context: &mut EvalContext<'_, 'a>,
    left: &'a Aggregate,
    op: Comparison,
    right: &'a Threshold,
    groups: Vec<Group>,
) -> Result<Vec<Group>, Memory>
    ensures groups { IfOk result (λ kept.
        kept.items ≡ filter (passes_in context.old left.now op right.now) groups.items) }
    ensures context { IsSame context.old context.new }
{
    let mut kept = Vec::new(context.alloc());
    for group in groups {
        if amounts::is_true(context, left, op, right, group.members.as_slice())? {
            kept.push(group)?;
        }
    }
    Ok(kept)
}

// What a stage makes of spansets.
#[tactic(auto, unfolding(crate::specs::Stages::after_stage))]
fn after_stage<'a>(
    context: &mut EvalContext<'_, 'a>,
    stage: &'a Stage,
    groups: Vec<Group>,
) -> Result<Vec<Group>, Memory>
    ensures groups { IfOk result (λ after.
        after.items ≡ stage_in context.old stage.now groups.items) }
    ensures context { IsSame context.old context.new }
{
    match stage {
        Stage::Filter { condition, .. } => filter_spansets(context, condition, groups),
        Stage::By(operand) => split(context, &operand.expr, groups),
        Stage::Coalesce => coalesce(context.alloc(), context.rows(), groups.as_slice()),
        Stage::Select(_) => Ok(groups),
        Stage::Compare {
            left,
            op,
            right,
            ..
        } => compare(context, left, *op, right, groups),
    }
}

/// The spansets that have spans, in the same order.
pub fn drop_empty(groups: Vec<Group>) -> Vec<Group>
    ensures { result.items ≡ drop_empty groups.items }
{
    let mut groups = groups;
    groups.retain(has_spans);
    groups
}

// Whether a spanset has spans.
fn has_spans(group: &Group) -> bool
    ensures { result ≡ has_spans group.now }
{
    group.members.len() != 0
}

/// What all stages make of spansets, one after another: what one leaves without spans the next one doesn't see.
pub fn after_stages<'a>(
    context: &mut EvalContext<'_, 'a>,
    stages: &'a [Stage],
    groups: Vec<Group>,
) -> Result<Vec<Group>, Memory>
    ensures groups { IfOk result (λ after.
        after.items ≡ stages_in context.old stages.now groups.items) }
    ensures context { IsSame context.old context.new }
{
    let mut groups = groups;
    for stage in stages {
        groups = drop_empty(after_stage(context, stage, groups)?);
    }
    Ok(groups)
}
