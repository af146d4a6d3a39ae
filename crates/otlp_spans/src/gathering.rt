//! Going over the spans of a line.

ghost use Rattle.std.specs.Prelude.{◌≡◌, ◌++◌, [], map, option_map, IfOk, OnOk, None};
ghost use Rattle.std.specs.List.{cons_option, flat_map};
ghost use Rattle.serde_json.specs.View.{view};
ghost use Rattle.otlp_spans.specs.Forms.{ListOf, first_in_items, first_wrong, request_form, resource_spans_form, scope_spans_form, span_form};
ghost use Rattle.otlp_spans.specs.Json.{total};
ghost use Rattle.otlp_spans.specs.Reading.{objects_of, objects_of_resource, objects_of_scope, resource_spans, scope_spans, skipped_of, skipped_of_resource, skipped_of_scope, skipped_of_span, span_of, spans_of};
ghost use Rattle.otlp_spans.specs.Walk.{Adds, StopsAt, first_behind, items_from};

use crate::errors::Stop;
use crate::ids::read_ids;
use crate::json::{list_from, take_one, take_two};
use crate::origins::origin_from;
use crate::parts::{read_labels, read_rest, span_with};
use crate::paths::{Member, Step};
use serde_json::Value;
use span_types::{Resource, Scope, SharedResource, SharedScope, Span};
use std::alloc::Global;

/// What was read of a line so far. The counts saturate at 2^64 - 1.
#[derive(Drop)]
pub(crate) struct Gathered {
    /// The spans that aren't rejected.
    pub(crate) spans: Vec<Span>,
    /// How many span objects there were.
    pub(crate) objects: u64,
    /// How many attributes, events and links were skipped.
    pub(crate) skipped: u64,
}

/// A level of a request: the objects of one kind of list, which stand within what the levels above have.
trait Level {
    ghost use Rattle.std.specs.Prelude.{List, ℕ};
    ghost use Rattle.serde_json.specs.Data.{Data};
    ghost use Rattle.span_types.specs.declared.spans.Span.{Span};
    ghost use Rattle.otlp_spans.specs.Forms.{Form};

    ghost form: { Form };

    ghost spans_of: { Self → Data → List Span };

    ghost skipped_of: { Data → ℕ };

    ghost objects_of: { Data → ℕ };

    /// One such object.
    fn read(&self, alloc: Global, value: Value, gathered: &mut Gathered) -> Result<(), Stop>
        ensures spans { OnOk result
            (gathered.new.spans.items ≡ gathered.old.spans.items
            ++ spans_of self.now (view value)) }
        ensures skipped { OnOk result
            (Adds gathered.old.skipped gathered.new.skipped (skipped_of (view value))) }
        ensures objects { OnOk result
            (Adds gathered.old.objects gathered.new.objects (objects_of (view value))) }
        ensures right { OnOk result (first_wrong form (view value) ≡ None) }
        ensures wrong { StopsAt result (first_wrong form (view value)) };
}

/// The objects of a list.
fn read_all<L: Level>(
    level: &L,
    alloc: Global,
    values: Vec<Value>,
    gathered: &mut Gathered,
) -> Result<(), Stop>
    ensures spans { OnOk result
        (gathered.new.spans.items ≡ gathered.old.spans.items
        ++ flat_map (L.spans_of level.now) (map view values.items)) }
    ensures skipped { OnOk result
        (Adds gathered.old.skipped gathered.new.skipped
        (total L.skipped_of (map view values.items))) }
    ensures objects { OnOk result
        (Adds gathered.old.objects gathered.new.objects
        (total L.objects_of (map view values.items))) }
    ensures right { OnOk result
        (first_in_items (first_wrong L.form) 0 (map view values.items) ≡ None) }
    ensures wrong { StopsAt result (first_in_items (first_wrong L.form) 0 (map view values.items)) }
{
    // That the index of each fits.
    let _count = values.len();
    let mut i: usize = 0;
    for value in values {
        match level.read(alloc, value, gathered) {
            Ok(()) => {}
            Err(stop) => return Err(stop.behind(Step::Item(i))),
        }
        i += 1;
    }
    Ok(())
}

/// The objects of the list that was found as a member; none where it is absent.
fn read_member<L: Level>(
    level: &L,
    alloc: Global,
    found: Option<Value>,
    member: Member,
    gathered: &mut Gathered,
) -> Result<(), Stop>
    ensures spans { OnOk result
        (gathered.new.spans.items ≡ gathered.old.spans.items
        ++ flat_map (L.spans_of level.now) (items_from (option_map view found))) }
    ensures skipped { OnOk result
        (Adds gathered.old.skipped gathered.new.skipped
        (total L.skipped_of (items_from (option_map view found)))) }
    ensures objects { OnOk result
        (Adds gathered.old.objects gathered.new.objects
        (total L.objects_of (items_from (option_map view found)))) }
    ensures right { OnOk result
        (first_behind member (ListOf L.form) (option_map view found) ≡ None) }
    ensures wrong { StopsAt result (first_behind member (ListOf L.form) (option_map view found)) }
{
    let values = list_from(alloc, found, member)?;
    match read_all(level, alloc, values, gathered) {
        Ok(()) => Ok(()),
        Err(stop) => Err(stop.behind(Step::Of(member))),
    }
}

/// The spans of one scope.
#[derive(Drop)]
struct SpanLevel<'a> {
    resource: &'a SharedResource,
    scope: &'a SharedScope,
}

impl Level for SpanLevel<'_> {
    ghost form = { span_form };

    ghost spans_of = { λ l d. cons_option (span_of l.resource.now l.scope.now d) [] };

    ghost skipped_of = { skipped_of_span };

    ghost objects_of = { λ _. 1 };

    fn read(&self, alloc: Global, value: Value, gathered: &mut Gathered) -> Result<(), Stop> {
        if !value.is_object() {
            return Err(Stop::here(alloc));
        }
        let labels = read_labels(alloc, &value)?;
        let ids = read_ids(&value);
        let rest = read_rest(alloc, value)?;
        gathered.objects = gathered.objects.saturating_add(1);
        let Some(ids) = ids else {
            return Ok(());
        };
        let skipped = rest.skipped;
        let span = span_with(self.resource, self.scope, ids, labels, rest)?;
        gathered.skipped = gathered.skipped.saturating_add(skipped);
        gathered.spans.push(span)?;
        Ok(())
    }
}

/// The members of a list `scopeSpans`, whose spans are of one resource.
#[derive(Drop)]
struct ScopeLevel<'a> {
    resource: &'a SharedResource,
}

impl Level for ScopeLevel<'_> {
    ghost form = { scope_spans_form };

    ghost spans_of = { λ l d. scope_spans l.resource.now d };

    ghost skipped_of = { skipped_of_scope };

    ghost objects_of = { objects_of_scope };

    #[tactic(auto, using(crate::proofs::LevelLemmas::each_one), unfolding(crate::specs::Reading::scope_spans, crate::specs::Reading::skipped_of_scope))]
    fn read(&self, alloc: Global, value: Value, gathered: &mut Gathered) -> Result<(), Stop> {
        if !value.is_object() {
            return Err(Stop::here(alloc));
        }
        let parts = take_two(alloc, value, Member::Scope, Member::Spans);
        let read = origin_from::<Scope>(alloc, parts.first)?;
        let scope = SharedScope::of(alloc, read.origin)?;
        gathered.skipped = gathered.skipped.saturating_add(read.skipped);
        let level = SpanLevel {
            resource: self.resource,
            scope: &scope,
        };
        read_member(&level, alloc, parts.second, Member::Spans, gathered)
    }
}

/// The members of the list `resourceSpans`.
#[derive(Drop)]
struct ResourceLevel;

impl Level for ResourceLevel {
    ghost form = { resource_spans_form };

    ghost spans_of = { λ l d. resource_spans d };

    ghost skipped_of = { skipped_of_resource };

    ghost objects_of = { objects_of_resource };

    #[tactic(auto, unfolding(crate::specs::Reading::resource_spans, crate::specs::Reading::skipped_of_resource, crate::specs::Reading::objects_of_resource))]
    fn read(&self, alloc: Global, value: Value, gathered: &mut Gathered) -> Result<(), Stop> {
        if !value.is_object() {
            return Err(Stop::here(alloc));
        }
        let parts = take_two(alloc, value, Member::Resource, Member::ScopeSpans);
        let read = origin_from::<Resource>(alloc, parts.first)?;
        let resource = SharedResource::of(alloc, read.origin)?;
        gathered.skipped = gathered.skipped.saturating_add(read.skipped);
        let level = ScopeLevel {
            resource: &resource,
        };
        read_member(&level, alloc, parts.second, Member::ScopeSpans, gathered)
    }
}

/// What a line's value has.
#[tactic(auto, unfolding(crate::specs::Reading::spans_of, crate::specs::Reading::skipped_of, crate::specs::Reading::objects_of))]
pub(crate) fn gather(alloc: Global, value: Value) -> Result<Gathered, Stop>
    ensures spans { IfOk result (λ g. g.spans.items ≡ spans_of (view value)) }
    ensures skipped { IfOk result (λ g. Adds 0 g.skipped (skipped_of (view value))) }
    ensures objects { IfOk result (λ g. Adds 0 g.objects (objects_of (view value))) }
    ensures right { IfOk result (λ _. first_wrong request_form (view value) ≡ None) }
    ensures wrong { StopsAt result (first_wrong request_form (view value)) }
{
    if !value.is_object() {
        return Err(Stop::here(alloc));
    }
    let mut gathered = Gathered {
        spans: Vec::new(alloc),
        objects: 0,
        skipped: 0,
    };
    let found = take_one(alloc, value, Member::ResourceSpans);
    read_member(
        &ResourceLevel,
        alloc,
        found,
        Member::ResourceSpans,
        &mut gathered,
    )?;
    Ok(gathered)
}
