//! First occurrences and copies on small lists.

ghost use Rattle.std.specs.Prelude.{None};
ghost use Rattle.span_types.specs.Promises.{AreNames};

use span_types::{
    Attr, AttrValue, Attrs, Batch, Ids, Key, Memory, Place, Resource, Row, Rows, Scope, Seq,
    SharedResource, SharedScope, Span, SpanEvent, SpanId, SpanKind, SpanLink, Spans, StatusCode,
    Text, TraceId, TryCopy, first_rows, first_rows_more,
};
use std::alloc::Global;
use std::collections::HashSet;

const EARLY: Key = Key {
    trace: TraceId([2; 16]),
    span: SpanId([1; 8]),
};

const FORMER: Key = Key {
    trace: TraceId([1; 16]),
    span: SpanId([2; 8]),
};

const ALONE: Key = Key {
    trace: TraceId([1; 16]),
    span: SpanId([3; 8]),
};

fn text(alloc: Global, word: &str) -> Result<Text, Memory> {
    Ok(Text::of(String::from_str(alloc, word)?))
}

fn no_text(alloc: Global) -> Text {
    Text::of(String::new(alloc))
}

fn one_event(alloc: Global) -> Result<Vec<SpanEvent>, Memory> {
    let event = SpanEvent {
        time: 5,
        name: no_text(alloc),
        attrs: Attrs::none(alloc),
    };
    let events = Vec::from_array(alloc, [event])?;
    Ok(events)
}

fn one_link(alloc: Global) -> Result<Vec<SpanLink>, Memory> {
    let link = SpanLink {
        trace: TraceId([7; 16]),
        span: SpanId([7; 8]),
        attrs: Attrs::none(alloc),
    };
    let links = Vec::from_array(alloc, [link])?;
    Ok(links)
}

fn attrs_of(alloc: Global, value: AttrValue) -> Result<Attrs, Memory> {
    let attr = Attr {
        key: no_text(alloc),
        value,
    };
    let attrs = Vec::from_array(alloc, [attr])?;
    Ok(Attrs::of(attrs))
}

fn resource(alloc: Global) -> Result<SharedResource, Memory> {
    let attrs = Attrs::none(alloc);
    SharedResource::of(alloc, Resource { attrs })
}

fn scope(alloc: Global) -> Result<SharedScope, Memory> {
    let name = no_text(alloc);
    let version = no_text(alloc);
    let attrs = Attrs::none(alloc);
    SharedScope::of(
        alloc,
        Scope {
            name,
            version,
            attrs,
        },
    )
}

// A span of this name, with an attribute, and no event or link.
fn named(alloc: Global, key: Key, start: u64, name: Text) -> Result<Span, Memory>
    requires { AreNames key.trace key.span None }
{
    let resource = resource(alloc)?;
    let scope = scope(alloc)?;
    let attrs = attrs_of(alloc, AttrValue::Whole(-1))?;
    Ok(Span {
        trace: key.trace,
        id: key.span,
        parent: None,
        name,
        kind: SpanKind::Server,
        start,
        end: start,
        status: StatusCode::Fine,
        message: no_text(alloc),
        attrs,
        resource,
        scope,
        events: Seq::none(alloc),
        links: Seq::none(alloc),
    })
}

// Adds a row of such a span, with an event and a link.
fn add(
    alloc: Global,
    rows: &mut Vec<Row>,
    key: Key,
    place: (u64, u32),
    told: (u64, &str),
) -> Result<(), Memory>
    requires { AreNames key.trace key.span None }
{
    let mut span = named(alloc, key, told.0, text(alloc, told.1)?)?;
    span.events = Seq::of(one_event(alloc)?);
    span.links = Seq::of(one_link(alloc)?);
    let place = Place {
        number: place.0,
        position: place.1,
    };
    rows.push(Row { place, span })?;
    Ok(())
}

// Five rows of three keys: a key whose least place comes last, one at a repeated place, one alone.
fn five_rows(alloc: Global) -> Result<Rows, Memory> {
    let mut rows = Vec::new(alloc);
    add(alloc, &mut rows, EARLY, (1, 0), (7, "late"))?;
    add(alloc, &mut rows, FORMER, (0, 1), (9, "former"))?;
    add(alloc, &mut rows, FORMER, (0, 1), (3, "latter"))?;
    add(alloc, &mut rows, ALONE, (0, 2), (4, "alone"))?;
    add(alloc, &mut rows, EARLY, (0, 3), (8, "early"))?;
    Ok(Rows::of(rows))
}

fn has_names(rows: &Rows, names: &[&str]) -> bool {
    let mut same = rows.len() == names.len();
    for (row, name) in rows.as_slice().iter().zip(names) {
        same &= row.span.name.as_str() == *name;
    }
    same
}

#[test]
fn the_least_place_of_each_key_stays_in_block_order(rt: HostRuntime) {
    let rows = five_rows(rt.alloc()).expect(&rt, "memory");
    let firsts = first_rows(rt.alloc(), rows).expect(&rt, "memory");
    assert!(rt; has_names(&firsts, &["alone", "former", "early"]));
    let rows = five_rows(rt.alloc()).expect(&rt, "memory");
    let again = first_rows_more(rt.alloc(), firsts, rows).expect(&rt, "memory");
    assert!(rt; has_names(&again, &["alone", "former", "early"]));
}

// Whether each row has one event and one link.
fn have_one_each(rows: &Rows) -> bool {
    let mut same = true;
    for row in rows.as_slice() {
        same &= row.span.events.len() == 1 && row.span.links.len() == 1;
    }
    same
}

#[test]
fn copies_are_equal(rt: HostRuntime) {
    let rows = five_rows(rt.alloc()).expect(&rt, "memory");
    let copy = rows.copy().expect(&rt, "memory");
    assert!(rt; has_names(&copy, &["late", "former", "latter", "alone", "early"]));
    assert!(rt; have_one_each(&copy));
}

#[test]
fn a_list_of_ids_and_an_empty_batch(rt: HostRuntime) {
    let ids = vec![in rt.alloc(); TraceId([1; 16])].expect(&rt, "memory");
    assert!(rt; Ids::of(ids).as_slice() == [TraceId([1; 16])].as_slice());
    let batch = Batch {
        spans: Spans::of(Vec::new(rt.alloc())),
    };
    let copy = batch.copy().expect(&rt, "memory");
    assert!(rt; copy.spans.len() == 0);
}

// Names of shops, and whether each is new.
static SHOPS: [(&str, bool); 3] = [("shop", true), ("shop", false), ("cart", true)];

fn shop(alloc: Global, name: &str) -> Result<Resource, Memory> {
    let name = AttrValue::Text(text(alloc, name)?);
    let attrs = attrs_of(alloc, name)?;
    Ok(Resource { attrs })
}

#[test]
fn equal_resources_are_one_key(rt: HostRuntime) {
    let mut seen = HashSet::new(rt.alloc());
    for (name, new) in &SHOPS {
        let shop = shop(rt.alloc(), name).expect(&rt, "memory");
        let found = seen.insert(shop).expect(&rt, "memory");
        assert!(rt; found == *new);
    }
}

#[test]
fn numbers_of_kinds_and_codes(rt: HostRuntime) {
    for number in 0..7u64 {
        let kind = SpanKind::numbered(number).map(SpanKind::number);
        let code = StatusCode::numbered(number).map(StatusCode::number);
        assert!(rt; kind.is_some() == (number < 6) && code.is_some() == (number < 3));
    }
    assert!(rt; SpanKind::numbered(2) == Some(SpanKind::Server));
    assert!(rt; StatusCode::numbered(2) == Some(StatusCode::Error));
}
