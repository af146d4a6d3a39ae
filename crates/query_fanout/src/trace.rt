//! Looking a trace up over one look: in its own rows and, by filters and index, in each block that it pins.

ghost use Rattle.std.specs.Prelude.{◌≡◌, ◌++◌, IfOk, IsTrue, List};
ghost use Rattle.span_types.specs.First.{IsFirstOf};
ghost use Rattle.store_model.specs.Holds.{Hold};
ghost use Rattle.store_state.specs.Given.{look_of};
ghost use Rattle.store_state.specs.Kept.{Kept};
ghost use Rattle.store_state.specs.Meaning.{IsOpen};
ghost use Rattle.rows_by_trace.specs.Traces.{rows_of_trace};
ghost use Rattle.block_read.specs.Answers.{RoseAtMost};
ghost use Rattle.query_fanout.specs.TraceAnswers.{IsTraceAnswer};
ghost use Rattle.query_fanout.specs.Bounds.{look_up_pages};
ghost use Rattle.query_fanout.specs.Queries.{HasAsked};
ghost use Rattle.query_fanout.specs.Reading.{AtMost, BlocksRead};

use crate::QueryError;
use crate::blocks::{OfBlock, of_blocks};
use block_info::BlockInfo;
use block_read::{Pages, ReadError, trace_rows};
use span_types::{Memory, Row, Rows, TraceId, first_rows};
use std::alloc::Global;
use store_state::{FlushPort, Look};

/// The spans of a trace.
#[derive(Debug, Drop)]
pub struct TraceAnswer {
    /// The length of the history that it is answered from.
    pub as_of: u64,
    /// Their first occurrences, in block order.
    pub rows: Rows,
}

// The rows of a trace.
#[derive(Drop)]
struct OneTrace(TraceId);

impl OfBlock for OneTrace {
    ghost use Rattle.std.specs.Prelude.{refl};
    ghost use Rattle.block_read.specs.Lookups.{most_pages};
    ghost use Rattle.query_fanout.specs.Reading.{AreOfTrace};
    ghost use Rattle.query_fanout.specs.Joined.{of_trace_both};

    type Item = Row;

    ghost can = { λ s. Unit {0} };

    ghost some = { λ s. AreOfTrace s.0 };

    ghost fits = { λ s. AreOfTrace s.0 };

    ghost most = { λ s info rows. most_pages info s.0 rows };

    fn of_block<G: Pages>(
        &self,
        alloc: Global,
        pages: &mut G,
        block: u32,
        info: &BlockInfo,
    ) -> Result<Rows, ReadError> {
        trace_rows(alloc, pages, block, info, self.0)
    }

    ghost none = { λ s. (refl, refl) };

    ghost both = { λ s a b x y. (of_trace_both s.0 a b x y, of_trace_both s.0 a b x y) };
}

/// The first occurrences of a trace's spans, wherever they lie: in the rows of one look and in the blocks that it pins.
///
/// Of each block its filters and its index are asked, and those stripes are read that hold the trace; `bounded` says
/// how many pages that is at most. No other rows are kept than the trace's. The look is given back in every case.
pub fn find_trace<P: FlushPort>(
    alloc: Global,
    port: &mut P,
    id: TraceId,
) -> Result<TraceAnswer, QueryError>
    requires { (held : List Hold) × P.meaning.holds port.old held }
    ensures asked { HasAsked P.meaning port.old (IsTraceAnswer id) result port.new }
    ensures bounded { IsTrue (P.meaning.tells port.old) → (kept : Kept)
        → P.meaning.keeps port.old kept
        → RoseAtMost (look_up_pages id kept.infos kept.parts) (P.meaning.reads port.old)
        (P.meaning.reads port.new) }
{
    let look = match port.look() {
        Ok(look) => look,
        Err(_) => return Err(QueryError::Memory),
    };
    let found = trace_of_look(alloc, port, &look, id);
    port.done(look);
    found
}

// The first occurrences of a trace's spans among the rows of an open look and its blocks.
fn trace_of_look<P: FlushPort>(
    alloc: Global,
    port: &mut P,
    look: &Look,
    id: TraceId,
) -> Result<TraceAnswer, QueryError>
    requires { IsOpen P.meaning port.old (look_of look.now) }
    ensures { BlocksRead P.meaning look.now look.now.pin.blocks
        (λ rows found. IsTraceAnswer id look.now.as_of (look.now.rows ++ rows) found)
        (λ rows found. IsTraceAnswer id look.now.as_of (look.now.rows ++ rows) found)
        (AtMost (look_up_pages id look.now.pin.blocks)) port.old result port.new }
{
    match of_blocks(alloc, port, look, &OneTrace(id)) {
        Ok(found) => match trace_firsts(alloc, look, id, found) {
            Ok(answer) => Ok(answer),
            Err(Memory) => Err(QueryError::Memory),
        },
        Err(error) => Err(error),
    }
}

// The first occurrences among a look's rows of the trace, and more rows.
fn trace_firsts(alloc: Global, look: &Look, id: TraceId, found: Rows) -> Result<TraceAnswer, Memory>
    ensures firsts { IfOk result
        (λ answer. IsFirstOf (rows_of_trace id look.now.rows ++ found) answer.rows) }
    ensures count { IfOk result (λ answer. answer.as_of ≡ look.now.as_of) }
{
    let rows = look.rows.rows_of(id)?;
    let rows = joined_firsts(alloc, rows, found)?;
    Ok(TraceAnswer {
        as_of: look.as_of,
        rows,
    })
}

// The first occurrences among rows and more rows, all of which are moved.
pub(crate) fn joined_firsts(alloc: Global, rows: Rows, found: Rows) -> Result<Rows, Memory>
    ensures { IfOk result (λ firsts. IsFirstOf (rows ++ found) firsts) }
{
    let mut rows = rows.into_vec();
    rows.append(&mut found.into_vec())?;
    first_rows(alloc, Rows::of(rows))
}
