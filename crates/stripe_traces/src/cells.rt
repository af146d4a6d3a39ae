//! The columns of a stripe, of which the rows of wanted traces are made: how a walk over a stripe gives these rows.

ghost use Rattle.stripe_traces.specs.Wanted.{AreInOrder, HasTraces};

use crate::choices::Choose;
use crate::columns::{OwnerColumns, SpanColumns};
use crate::marks::{ascend, mark_rows};
use crate::passes::Within;
use crate::traces::StripeTraces;
use block_columns::{Fields, beside, column};
use block_info::StripeInfo;
use block_stripes::kinds::TraceIds;
use block_stripes::{Listed, rows_of_cells};
use span_types::{SharedResource, SharedScope, Text, TraceId};
use std::alloc::Global;
use stripe_skims::Walk;

/// Some traces of a stripe.
#[derive(Drop)]
pub struct Wanted<'i> {
    /// Their ids.
    pub ids: &'i [TraceId],
    /// What the block says of the stripe.
    pub entry: &'i StripeInfo,
    ghost in_order: { AreInOrder ids.now },
}

impl<'i> Walk for Wanted<'i> {
    type Seen = StripeTraces;

    ghost tells = { λ w. HasTraces w.ids.now };

    fn columns(
        &self,
        alloc: Global,
        fields: &mut Fields,
        texts: &[Text],
        extended: bool,
        resources: Listed<SharedResource>,
        scopes: Listed<SharedScope>,
        count: u64,
    ) -> Option<StripeTraces> {
        if count != u64::from(self.entry.rows) {
            return None;
        }
        let Ok(traces) = column(alloc, fields, &TraceIds, count) else {
            return None;
        };
        if !ascend(traces.as_slice()) {
            return None;
        }
        let marked = mark_rows(alloc, traces.as_slice(), self.ids)?;
        let owners = OwnerColumns {
            texts,
            extended,
            resources,
            scopes,
        };
        let moments = Within {
            earliest: self.entry.earliest,
            latest: self.entry.latest,
        };
        let columns = SpanColumns { moments, owners };
        let further = columns.choose(alloc, fields, marked.wanted.as_slice())?;
        let Ok(cells) = beside(alloc, marked.traces, further) else {
            return None;
        };
        let Ok(rows) = rows_of_cells(alloc, cells) else {
            return None;
        };
        let last = traces.as_slice().last().copied();
        Some(StripeTraces { rows, last })
    }
}
