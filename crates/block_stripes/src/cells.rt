//! The columns of a stripe, read row by row as nested pairs of cells.

ghost use Rattle.std.specs.Prelude.{IfOk};
ghost use Rattle.std.specs.List.{AllByRecursion};
ghost use Rattle.block_columns.specs.Outcomes.{Finds};
ghost use Rattle.block_stripes.specs.StripeReadings.{cells_at, owners_by, unasked_at};
ghost use Rattle.block_stripes.specs.Stripes.{IsNamed};

use crate::kinds::{
    AttrLists, EventLists, LinkLists, Moments, Numbers, Parents, Positions, Resources, Scopes,
    SpanIds, SpanKinds, Statuses, TraceIds,
};
use block_columns::{Both, Columns, Fields, Kind, Owners, Referred, Single, column};
use span_fields::Break;
use span_types::{
    Attrs, Events, Links, SharedResource, SharedScope, SpanId, SpanKind, StatusCode, Text, TraceId,
    TryCopy,
};
use std::alloc::Global;

/// Resource, scope, attributes, events, links.
type OwnerCells = (SharedResource, (SharedScope, (Attrs, (Events, Links))));

/// Start, end, status, message, and the cells after them.
type TimeCells = (u64, (u64, (StatusCode, (Text, OwnerCells))));

/// Push, position, name, kind, and the cells after them.
type NameCells = (u64, (u32, (Text, (SpanKind, TimeCells))));

/// A row as its cells, one for each column.
pub type Cells = (TraceId, (SpanId, (Option<SpanId>, NameCells)));

/// A table, and where it stands.
#[derive(Drop)]
pub struct Listed<'t, T> {
    /// Where it stands.
    pub list: Fields<'t>,
    /// Its values.
    pub values: &'t [T],
}

/// What the columns of a stripe refer to, and how they are read.
#[derive(Drop)]
pub struct Tables<'t> {
    /// The texts.
    pub texts: &'t [Text],
    /// Whether there are events and links.
    pub extended: bool,
    /// Whether each resource and each scope is to be used.
    pub strict: bool,
}

/// A column of values that stand in a table of their own: each of them is used, or those that nothing refers to are let be.
#[derive(Drop)]
struct OwnersBy<'t, T, K> {
    strict: bool,
    owners: Owners<'t, T, K>,
}

impl<'t, T: TryCopy, K: Kind> Columns for OwnersBy<'t, T, K> {
    type Item = T;

    ghost reading = { λ o n s. owners_by o.strict (K.reading o.owners.kind) o.owners.list o.owners.table.now n s };

    #[tactic(auto, unfolding(crate::specs::StripeReadings::unasked_at))]
    fn read_all(&self, alloc: Global, fields: &mut Fields, count: u64) -> Result<Vec<T>, Break> {
        if self.strict {
            return self.owners.read_all(alloc, fields, count);
        }
        let outer = fields.used();
        fields.count_from(0);
        let kind = Referred {
            table: self.owners.table,
        };
        let values = column(alloc, fields, &kind, count)?;
        fields.count_from(outer);
        Ok(values)
    }
}

/// The cells of so many rows.
#[tactic(auto, unfolding(crate::specs::StripeReadings::cells_at))]
pub fn cells(
    alloc: Global,
    fields: &mut Fields,
    tables: &Tables,
    resources: Listed<SharedResource>,
    scopes: Listed<SharedScope>,
    count: u64,
) -> Result<Vec<Cells>, Break>
    ensures { Finds (λ x. x.items) result fields.new
        (cells_at tables.now.strict tables.now.extended tables.now.texts.now
        (record { list = resources.entry.list; values = resources.entry.values.now })
        (record { list = scopes.entry.list; values = scopes.entry.values.now }) count fields.old) }
{
    let texts = tables.texts;
    let extended = tables.extended;
    let strict = tables.strict;
    let resource_column = OwnersBy {
        strict,
        owners: Owners {
            table: resources.values,
            list: resources.list,
            kind: Resources { alloc, texts },
        },
    };
    let scope_column = OwnersBy {
        strict,
        owners: Owners {
            table: scopes.values,
            list: scopes.list,
            kind: Scopes { alloc, texts },
        },
    };
    let events = EventLists {
        alloc,
        texts,
        extended,
    };
    let links = LinkLists {
        alloc,
        texts,
        extended,
    };
    let attrs = AttrLists { alloc, texts };
    let lists = Both {
        left: Single { kind: attrs },
        right: Both {
            left: Single { kind: events },
            right: Single { kind: links },
        },
    };
    let owners = Both {
        left: resource_column,
        right: Both {
            left: scope_column,
            right: lists,
        },
    };
    let messages = Referred { table: texts };
    let times = Both {
        left: Single { kind: Moments },
        right: Both {
            left: Single { kind: Moments },
            right: Both {
                left: Single { kind: Statuses },
                right: Both {
                    left: Single { kind: messages },
                    right: owners,
                },
            },
        },
    };
    let names = Referred { table: texts };
    let places = Both {
        left: Single { kind: Numbers },
        right: Both {
            left: Single { kind: Positions },
            right: Both {
                left: Single { kind: names },
                right: Both {
                    left: Single { kind: SpanKinds },
                    right: times,
                },
            },
        },
    };
    let columns = Both {
        left: Single { kind: TraceIds },
        right: Both {
            left: Single { kind: SpanIds },
            right: Both {
                left: Single { kind: Parents },
                right: places,
            },
        },
    };
    columns.read_all(alloc, fields, count)
}
