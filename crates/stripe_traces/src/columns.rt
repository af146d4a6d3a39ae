//! The columns of a stripe after that of the traces, of which wanted rows' values are read.

ghost use Rattle.std.specs.Prelude.{true};
ghost use Rattle.block_stripes.specs.StripeReadings.{owners_with};
ghost use Rattle.stripe_skims.specs.Sure.{AreApart};
ghost use Rattle.stripe_traces.specs.Columns.{lists_from, names_from, spans_from, times_from};

use crate::choices::{BothChoices, Choose, One, OwnedChoice};
use crate::passes::{EventPass, LinkPass, Within, attr_lists};
use block_columns::{Fields, Referred};
use block_stripes::Listed;
use block_stripes::kinds::{
    AttrLists, EventLists, LinkLists, Moments, Numbers, Parents, Positions, Resources, Scopes,
    SpanIds, SpanKinds, Statuses,
};
use span_types as types;
use span_types::{Attrs, SharedResource, SharedScope, SpanId, SpanKind, StatusCode, Text};
use std::alloc::Global;
use stripe_skims::{Dropped, Events, Links, References};

/// Attributes, events, links.
type ListCells = (Attrs, (types::Events, types::Links));

/// Resource, scope, and the cells after them.
type OwnerCells = (SharedResource, (SharedScope, ListCells));

/// Start, end, status, message, and the cells after them.
type TimeCells = (u64, (u64, (StatusCode, (Text, OwnerCells))));

/// Push, position, name, kind, and the cells after them.
type NameCells = (u64, (u32, (Text, (SpanKind, TimeCells))));

/// Span, parent, and the cells after them.
type SpanCells = (SpanId, (Option<SpanId>, NameCells));

/// The columns of attributes, events and links.
#[derive(Drop)]
struct ListColumns<'t> {
    texts: &'t [Text],
    extended: bool,
}

impl<'t> Choose for ListColumns<'t> {
    type Item = ListCells;

    ghost reading = { λ c n s. lists_from c.extended c.texts.now n s };

    ghost ready = { λ c. AreApart c.texts.now };

    fn choose(self, alloc: Global, fields: &mut Fields, wanted: &[bool]) -> Option<Vec<ListCells>> {
        let texts = self.texts;
        let extended = self.extended;
        let attrs = One {
            kind: AttrLists { alloc, texts },
            pass: attr_lists(alloc, texts)?,
        };
        let events = Events {
            lists: attr_lists(alloc, texts)?,
        };
        let event_lists = One {
            kind: EventLists {
                alloc,
                texts,
                extended,
            },
            pass: EventPass { events, extended },
        };
        let links = Links {
            lists: attr_lists(alloc, texts)?,
        };
        let link_lists = One {
            kind: LinkLists {
                alloc,
                texts,
                extended,
            },
            pass: LinkPass { links, extended },
        };
        let columns = BothChoices {
            left: attrs,
            right: BothChoices {
                left: event_lists,
                right: link_lists,
            },
        };
        columns.choose(alloc, fields, wanted)
    }
}

/// The columns of resources and scopes, and those after them.
#[derive(Drop)]
pub struct OwnerColumns<'t> {
    /// The texts.
    pub texts: &'t [Text],
    /// Whether there are events and links.
    pub extended: bool,
    /// The resources.
    pub resources: Listed<'t, SharedResource>,
    /// The scopes.
    pub scopes: Listed<'t, SharedScope>,
}

impl<'t> Choose for OwnerColumns<'t> {
    type Item = OwnerCells;

    ghost reading = { λ c n s. owners_with true c.extended c.texts.now (record { list = c.resources.list; values = c.resources.values.now })
        (record { list = c.scopes.list; values = c.scopes.values.now }) n s };

    ghost ready = { λ c. AreApart c.texts.now };

    fn choose(
        self,
        alloc: Global,
        fields: &mut Fields,
        wanted: &[bool],
    ) -> Option<Vec<OwnerCells>> {
        let texts = self.texts;
        let resources = OwnedChoice {
            table: self.resources.values,
            list: self.resources.list,
            kind: Resources { alloc, texts },
        };
        let scopes = OwnedChoice {
            table: self.scopes.values,
            list: self.scopes.list,
            kind: Scopes { alloc, texts },
        };
        let lists = ListColumns {
            texts,
            extended: self.extended,
        };
        let columns = BothChoices {
            left: resources,
            right: BothChoices {
                left: scopes,
                right: lists,
            },
        };
        columns.choose(alloc, fields, wanted)
    }
}

/// The columns of starts, ends, statuses and messages, and those after them.
#[derive(Drop)]
struct TimeColumns<'t> {
    moments: Within,
    owners: OwnerColumns<'t>,
}

impl<'t> Choose for TimeColumns<'t> {
    type Item = TimeCells;

    ghost reading = { λ c n s. times_from c.owners.extended c.owners.texts.now (record { list = c.owners.resources.list; values = c.owners.resources.values.now })
        (record { list = c.owners.scopes.list; values = c.owners.scopes.values.now }) n s };

    ghost ready = { λ c. AreApart c.owners.texts.now };

    fn choose(self, alloc: Global, fields: &mut Fields, wanted: &[bool]) -> Option<Vec<TimeCells>> {
        let texts = self.owners.texts;
        let starts = One {
            kind: Moments,
            pass: self.moments,
        };
        let ends = One {
            kind: Moments,
            pass: Dropped { kind: Moments },
        };
        let statuses = One {
            kind: Statuses,
            pass: Dropped { kind: Statuses },
        };
        let messages = One {
            kind: Referred { table: texts },
            pass: References { table: texts },
        };
        let from_statuses = BothChoices {
            left: statuses,
            right: BothChoices {
                left: messages,
                right: self.owners,
            },
        };
        let columns = BothChoices {
            left: starts,
            right: BothChoices {
                left: ends,
                right: from_statuses,
            },
        };
        columns.choose(alloc, fields, wanted)
    }
}

/// The columns of pushes, positions, names and kinds, and those after them.
#[derive(Drop)]
struct NameColumns<'t> {
    moments: Within,
    owners: OwnerColumns<'t>,
}

impl<'t> Choose for NameColumns<'t> {
    type Item = NameCells;

    ghost reading = { λ c n s. names_from c.owners.extended c.owners.texts.now (record { list = c.owners.resources.list; values = c.owners.resources.values.now })
        (record { list = c.owners.scopes.list; values = c.owners.scopes.values.now }) n s };

    ghost ready = { λ c. AreApart c.owners.texts.now };

    fn choose(self, alloc: Global, fields: &mut Fields, wanted: &[bool]) -> Option<Vec<NameCells>> {
        let texts = self.owners.texts;
        let numbers = One {
            kind: Numbers,
            pass: Dropped { kind: Numbers },
        };
        let positions = One {
            kind: Positions,
            pass: Dropped { kind: Positions },
        };
        let names = One {
            kind: Referred { table: texts },
            pass: References { table: texts },
        };
        let kinds = One {
            kind: SpanKinds,
            pass: Dropped { kind: SpanKinds },
        };
        let from_names = BothChoices {
            left: names,
            right: BothChoices {
                left: kinds,
                right: TimeColumns {
                    moments: self.moments,
                    owners: self.owners,
                },
            },
        };
        let columns = BothChoices {
            left: numbers,
            right: BothChoices {
                left: positions,
                right: from_names,
            },
        };
        columns.choose(alloc, fields, wanted)
    }
}

/// All columns but that of the traces: spans and parents, and those after them.
#[derive(Drop)]
pub struct SpanColumns<'t> {
    /// Between which moments the other rows start.
    pub moments: Within,
    /// The last ones, from that of the resources on.
    pub owners: OwnerColumns<'t>,
}

impl<'t> Choose for SpanColumns<'t> {
    type Item = SpanCells;

    ghost reading = { λ c n s. spans_from c.owners.extended c.owners.texts.now (record { list = c.owners.resources.list; values = c.owners.resources.values.now })
        (record { list = c.owners.scopes.list; values = c.owners.scopes.values.now }) n s };

    ghost ready = { λ c. AreApart c.owners.texts.now };

    fn choose(self, alloc: Global, fields: &mut Fields, wanted: &[bool]) -> Option<Vec<SpanCells>> {
        let spans = One {
            kind: SpanIds,
            pass: Dropped { kind: SpanIds },
        };
        let parents = One {
            kind: Parents,
            pass: Dropped { kind: Parents },
        };
        let columns = BothChoices {
            left: spans,
            right: BothChoices {
                left: parents,
                right: NameColumns {
                    moments: self.moments,
                    owners: self.owners,
                },
            },
        };
        columns.choose(alloc, fields, wanted)
    }
}
