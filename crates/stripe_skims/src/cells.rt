//! The columns of a stripe in their order, and which of them a sketch keeps.

ghost use Rattle.std.specs.Prelude.{◌≡◌, IfSome, true};
ghost use Rattle.block_stripes.specs.StripeReadings.{cells_at};
ghost use Rattle.stripe_skims.specs.Sketches.{IsSketch};
ghost use Rattle.stripe_skims.specs.Sure.{AreApart};
ghost use Rattle.stripe_skims.specs.Walks.{TellsCells};

use crate::columns::{BothSkims, EventLists, Kept, LinkLists, Owned, Passed, Skim};
use crate::items::Dropped;
use crate::passes::{AttrLists, Events, Links, References, stamps_of};
use crate::sketches::Sketch;
use crate::walks::Walk;
use block_columns::Fields;
use block_stripes::Listed;
use block_stripes::kinds::{
    Moments, Numbers, Parents, Positions, Resources, Scopes, SpanIds, SpanKinds, Statuses, TraceIds,
};
use span_types::{SharedResource, SharedScope, Text};
use std::alloc::Global;

/// Tells a sketch.
#[derive(Drop)]
pub struct Told;

impl Walk for Told {
    ghost use Rattle.stripe_skims.specs.Sketches.{IsSketch};

    type Seen = Sketch;

    ghost tells = { λ _. IsSketch };

    fn columns(
        &self,
        alloc: Global,
        fields: &mut Fields,
        texts: &[Text],
        extended: bool,
        resources: Listed<SharedResource>,
        scopes: Listed<SharedScope>,
        count: u64,
    ) -> Option<Sketch> {
        cells(alloc, fields, texts, extended, resources, scopes, count)
    }
}

/// Passes over the cells of so many rows.
fn cells(
    alloc: Global,
    fields: &mut Fields,
    texts: &[Text],
    extended: bool,
    resources: Listed<SharedResource>,
    scopes: Listed<SharedScope>,
    count: u64,
) -> Option<Sketch>
    requires { AreApart texts.now }
    ensures { IfSome result (λ sketch. TellsCells IsSketch
        (cells_at true extended texts.now
        (record { list = resources.entry.list; values = resources.entry.values.now })
        (record { list = scopes.entry.list; values = scopes.entry.values.now }) count fields.old) sketch fields.new) }
{
    let attrs = AttrLists {
        texts,
        stamps: stamps_of(alloc, texts)?,
        list: 1,
    };
    let event_attrs = AttrLists {
        texts,
        stamps: stamps_of(alloc, texts)?,
        list: 1,
    };
    let link_attrs = AttrLists {
        texts,
        stamps: stamps_of(alloc, texts)?,
        list: 1,
    };
    let events = EventLists {
        events: Events { lists: event_attrs },
        extended,
    };
    let links = LinkLists {
        links: Links { lists: link_attrs },
        extended,
    };
    let lists = BothSkims {
        left: Passed { kind: attrs },
        right: BothSkims {
            left: events,
            right: links,
        },
    };
    let resource_column = Owned {
        table: resources.values,
        list: resources.list,
        kind: Resources { alloc, texts },
    };
    let scope_column = Owned {
        table: scopes.values,
        list: scopes.list,
        kind: Scopes { alloc, texts },
    };
    let owners = BothSkims {
        left: resource_column,
        right: BothSkims {
            left: scope_column,
            right: lists,
        },
    };
    let messages = Passed {
        kind: References { table: texts },
    };
    let times = BothSkims {
        left: Kept { kind: Moments },
        right: BothSkims {
            left: Kept { kind: Moments },
            right: BothSkims {
                left: Kept { kind: Statuses },
                right: BothSkims {
                    left: messages,
                    right: owners,
                },
            },
        },
    };
    let names = Passed {
        kind: References { table: texts },
    };
    let places = BothSkims {
        left: Passed {
            kind: Dropped { kind: Numbers },
        },
        right: BothSkims {
            left: Passed {
                kind: Dropped { kind: Positions },
            },
            right: BothSkims {
                left: names,
                right: BothSkims {
                    left: Kept { kind: SpanKinds },
                    right: times,
                },
            },
        },
    };
    let mut columns = BothSkims {
        left: Kept { kind: TraceIds },
        right: BothSkims {
            left: Kept { kind: SpanIds },
            right: BothSkims {
                left: Passed {
                    kind: Dropped { kind: Parents },
                },
                right: places,
            },
        },
    };
    let (traces, (spans, (_, names))) = columns.skim(alloc, fields, count)?;
    let (_, (_, (_, (kinds, times)))) = names;
    let (starts, (ends, (statuses, (_, owners)))) = times;
    let (_, (_, (_, (events, links)))) = owners;
    Some(Sketch {
        traces,
        spans,
        kinds,
        starts,
        ends,
        statuses,
        rich: events | links,
    })
}
