//! One trace of one span: the calls that take the rows of one trace.

ghost use Rattle.std.specs.Prelude.{◌≡◌, ◌<◌, IfOk, length};
ghost use Rattle.span_tree.specs.Nodes.{IsOneTrace};

use crate::lines::query_of;
use rows_by_trace::rows_of;
use search_text::{Texts, write_results};
use span_tree::{Steps, Tree};
use span_types::{
    Attrs, Events, Links, Marks, Memory, Place, Resource, Row, Rows, Scope, SharedResource,
    SharedScope, Span, SpanId, SpanKind, StatusCode, Text, TraceId,
};
use spanset_eval::{Results, evaluate};
use std::alloc::Global;
use std::marker::Brand;
use std::process::Abort;
use std::sync::ledger::{Blank, Ledger};

/// A span that is alone in its trace.
fn span(alloc: Global) -> Result<Span, Memory> {
    let resource = Resource {
        attrs: Attrs::none(alloc),
    };
    let scope = Scope {
        name: Text::of(String::new(alloc)),
        version: Text::of(String::new(alloc)),
        attrs: Attrs::none(alloc),
    };
    Ok(Span {
        trace: TraceId([7; 16]),
        id: SpanId([1; 8]),
        parent: None,
        name: Text::of(String::from_str(alloc, "GET /")?),
        kind: SpanKind::Server,
        start: 5,
        end: 9,
        status: StatusCode::Unset,
        message: Text::of(String::new(alloc)),
        attrs: Attrs::none(alloc),
        resource: SharedResource::of(alloc, resource)?,
        scope: SharedScope::of(alloc, scope)?,
        events: Events::none(alloc),
        links: Links::none(alloc),
    })
}

/// The trace of this span.
fn alone(alloc: Global) -> Result<Rows, Memory>
    ensures one_trace { IfOk result (λ rows. IsOneTrace rows) }
    ensures one { IfOk result (λ rows. length rows ≡ 1) }
{
    let span = span(alloc)?;
    let place = Place {
        number: 0,
        position: 0,
    };
    let mut rows = Vec::with_capacity(alloc, 1)?;
    rows.push(Row { place, span })?;
    Ok(Rows::of(rows))
}

/// What the query for all spans answers of that trace.
const WRITTEN: &str =
    r#"{"traces":[{"durationNanos":"4","rootName":"GET /","rootService":null,"spanSets":[{"by":[],"matched":1,"spans":[{"attributes":[],"durationNanos":"4","name":"GET /","spanId":"0101010101010101","startTimeUnixNano":"5"}]}],"startTimeUnixNano":"5","traceId":"07070707070707070707070707070707"}]}"#;

/// What it does answer, as text.
fn written(rt: &(impl Abort + AllocGlobal), rows: &Rows) -> Text
    requires { IsOneTrace rows.now }
{
    let checked = query_of(rt.alloc(), "{ }").expect(rt, "a query");
    let found = evaluate(rt.alloc(), &checked, rows).expect(rt, "memory");
    let results = vec![in rt.alloc(); found.expect(rt, "a result")].expect(rt, "memory");
    let fields = Texts::of(Vec::new(rt.alloc()));
    write_results(rt.alloc(), &fields, &Results::of(results)).expect(rt, "memory")
}

/// Whether the span of the trace is its own child. None if memory runs out.
fn has_child<L: Ledger>(alloc: Global, rows: &Rows, blank: Blank) -> Option<bool>
    requires one_trace { IsOneTrace rows.now }
    requires one { length rows.now ≡ 1 }
    requires name { blank.name ≡ L.name }
    requires parts { blank.parts ≡ L.parts }
    requires some { 0 < L.parts }
{
    let Ok(tree) = Tree::of(alloc, rows) else {
        return None;
    };
    let Ok(marked) = vec![in alloc; true; 1] else {
        return None;
    };
    let mut steps: Steps<L> = Steps::of(blank);
    match tree.mark_children(&Marks::of(marked), &mut steps) {
        Ok(found) => Some(found.as_slice().contains(&true)),
        Err(_) => None,
    }
}

#[test]
fn one_span_is_found(rt: HostRuntime) {
    let Ok(rows) = alone(rt.alloc()) else {
        assert!(&rt; false, "out of memory");
        return;
    };
    assert!(&rt; written(&rt, &rows).as_str() == WRITTEN);
    assert!(&rt; has_child::<Brand>(rt.alloc(), &rows, Blank::new(1)) == Some(false));
    let found = rows_of(rt.alloc(), rows.as_slice(), TraceId([7; 16])).expect(&rt, "memory");
    assert!(&rt; found.len() == 1);
}
