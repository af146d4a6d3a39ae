//! What is shown of a trace and of its spansets: from positions to results with the fields that `select` names.

ghost use Rattle.std.specs.Prelude.{◌≡◌, ◌<◌, ◌++◌, IfOk, OnOk, None, length, map, if◌then◌else◌};
ghost use Rattle.std.specs.List.{filter_map};
ghost use Rattle.std.specs.Option.{option_map, option_to_list};
ghost use Rattle.traceql_syntax.specs.Trees.{stage_tree};
ghost use Rattle.traceql_value.specs.Spans.{field_of_span};
ghost use Rattle.spanset_eval.specs.Outcomes.{at_most, cut, cut_set, has_room, hit_at, hit_of, set_result, shown};
ghost use Rattle.spanset_eval.specs.Showing.{view_fields, view_rows};
ghost use Rattle.spanset_eval.specs.Stages.{fields_of_stage};

use crate::groups::Group;
use crate::{Hit, Hits, SetResult, Sets, TraceResult};
use span_types::{Memory, Span, TryCopy};
use traceql_syntax::{Field, Stage};
use traceql_value::{EvalContext, Value, Values};

/// A trace as a query shows it: with the fields that these stages select, and at most so many spans of each spanset.
#[derive(Clone, Copy)]
pub struct TraceView<'c, 'q, 'a> {
    /// The trace.
    pub context: &'c EvalContext<'q, 'a>,
    /// The query's stages.
    pub stages: &'c [Stage],
    /// How many spans of each spanset at most; all where no number is said.
    pub most: Option<usize>,
}

// Whether a list of this length may have one more, if it is to have at most so many.
fn has_room(most: Option<usize>, length: usize) -> bool
    ensures { result ≡ has_room most length }
{
    match most {
        None => true,
        Some(most) => length < most,
    }
}

// Adds one more hit, if there is one.
fn extend(hits: &mut Vec<Hit>, more: Option<Hit>) -> Result<(), Memory>
    ensures { OnOk result (hits.new.items ≡ hits.old.items ++ option_to_list more) }
{
    if let Some(hit) = more {
        hits.push(hit)?;
    }
    Ok(())
}

impl<'c, 'q, 'a> TraceView<'c, 'q, 'a> {
    // Adds what the fields are for a span.
    fn add_fields(
        &self,
        fields: &[Field],
        span: &Span,
        values: &mut Vec<Value>,
    ) -> Result<(), Memory>
        ensures { OnOk result (values.new.items
            ≡ values.old.items ++ map
            (λ f. field_of_span f (view_rows self.now) span.now) fields.now) }
    {
        for field in fields {
            values.push(self.context.field(field, span)?)?;
        }
        Ok(())
    }

    // Adds what the fields of a stage are for a span.
    fn add_stage_fields(
        &self,
        stage: &Stage,
        span: &Span,
        values: &mut Vec<Value>,
    ) -> Result<(), Memory>
        ensures { OnOk result (values.new.items ≡ values.old.items
            ++ map (λ f. field_of_span f (view_rows self.now) span.now)
            (fields_of_stage (stage_tree stage.now))) }
    {
        match stage {
            Stage::Select(fields) => self.add_fields(fields.as_slice(), span, values),
            _ => Ok(()),
        }
    }

    // What the selected fields are for a span.
    fn fields_of(&self, span: &Span) -> Result<Values, Memory>
        ensures { IfOk result (λ values.
            values ≡ map (λ f. field_of_span f (view_rows self.now) span.now)
            (view_fields self.now)) }
    {
        let mut values = Vec::new(self.context.alloc());
        for stage in self.stages {
            self.add_stage_fields(stage, span, &mut values)?;
        }
        Ok(Values::of(values))
    }

    // A span as it is shown.
    fn hit(&self, span: &Span) -> Result<Hit, Memory>
        ensures { IfOk result
            (λ hit. hit ≡ hit_of (view_fields self.now) (view_rows self.now) span.now) }
    {
        let fields = self.fields_of(span)?;
        Ok(Hit {
            id: span.id,
            name: span.name.copy()?,
            start: span.start,
            duration: span.end.saturating_sub(span.start),
            fields,
        })
    }

    // The span at a position as it is shown, if there is one.
    fn hit_at(&self, position: usize) -> Result<Option<Hit>, Memory>
        ensures { IfOk result (λ found.
            found ≡ hit_at (view_fields self.now) (view_rows self.now) position) }
    {
        match self.context.rows().get(position) {
            None => Ok(None),
            Some(row) => Ok(Some(self.hit(&row.span)?)),
        }
    }

    // Adds the span at a position as it is shown, if there is one and fewer were added than are to be shown.
    fn add_hit(&self, position: usize, hits: &mut Vec<Hit>) -> Result<(), Memory>
        ensures { OnOk result (hits.new.items ≡ (if has_room self.now.most (length hits.old.items)
            then hits.old.items ++ option_to_list
            (hit_at (view_fields self.now) (view_rows self.now) position)
            else hits.old.items)) }
    {
        if !has_room(self.most, hits.len()) {
            return Ok(());
        }
        let found = self.hit_at(position)?;
        extend(hits, found)
    }

    // The first members as they are shown.
    fn hits(&self, members: &[usize]) -> Result<Hits, Memory>
        ensures { IfOk result (λ hits. hits ≡ at_most self.now.most
            (filter_map (hit_at (view_fields self.now) (view_rows self.now)) members.now)) }
    {
        let mut hits = Vec::new(self.context.alloc());
        for position in members {
            self.add_hit(*position, &mut hits)?;
        }
        Ok(Hits::of(hits))
    }

    // A spanset as it is shown.
    fn set_result(&self, group: Group) -> Result<SetResult, Memory>
        ensures { IfOk result (λ set. set ≡ cut_set self.now.most
            (set_result (view_fields self.now) (view_rows self.now) group)) }
    {
        let spans = self.hits(group.members.as_slice())?;
        Ok(SetResult {
            by: group.by,
            matched: group.members.len() as u64,
            spans,
        })
    }

    // Spansets as they are shown.
    fn set_results(&self, groups: Vec<Group>) -> Result<Sets, Memory>
        ensures { IfOk result (λ sets. sets ≡ map (cut_set self.now.most)
            (map (set_result (view_fields self.now) (view_rows self.now)) groups.items)) }
    {
        let mut sets = Vec::with_capacity(self.context.alloc(), groups.len())?;
        for group in groups {
            sets.push(self.set_result(group)?)?;
        }
        Ok(Sets::of(sets))
    }

    /// What is shown of the trace where these spansets are left of it: nothing where there are none.
    pub fn trace_result(&self, groups: Vec<Group>) -> Result<Option<TraceResult>, Memory>
        ensures { IfOk result (λ outcome. outcome ≡ option_map (cut self.now.most)
            (shown (view_fields self.now) (view_rows self.now) groups.items)) }
    {
        let [first, ..] = self.context.rows() else {
            return Ok(None);
        };
        if groups.is_empty() {
            return Ok(None);
        }
        Ok(Some(TraceResult {
            trace: first.span.trace,
            root_name: self.context.root_name()?,
            root_service: self.context.root_service()?,
            start: self.context.start(),
            duration: self.context.nanos(),
            sets: self.set_results(groups)?,
        }))
    }
}
