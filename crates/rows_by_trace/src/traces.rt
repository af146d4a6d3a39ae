//! Copies of the rows of one trace.

ghost use Rattle.std.specs.Prelude.{◌≡◌, List, IfOk};
ghost use Rattle.span_types.specs.declared.spans.Row.{Row};
ghost use Rattle.span_types.specs.First.{IsFirstOf};
ghost use Rattle.rows_by_trace.specs.Traces.{rows_of_trace};

use span_types::{Memory, Row, TraceId, TryCopy};
use std::alloc::Global;

/// Copies of the rows of a trace, in their order. Taken of first occurrences they are the first occurrences of the
/// trace's rows: a span's key holds its trace.
pub fn rows_of(alloc: Global, rows: &[Row], id: TraceId) -> Result<Vec<Row>, Memory>
    ensures rows { IfOk result (λ found. found.items ≡ rows_of_trace id rows.now) }
    ensures firsts { IfOk result (λ found. (all : List Row)
        → IsFirstOf all rows.now → IsFirstOf (rows_of_trace id all) found.items) }
{
    let found = copies_of(alloc, rows, id)?;
    Ok(found)
}

fn copies_of(alloc: Global, rows: &[Row], id: TraceId) -> Result<Vec<Row>, Memory>
    ensures { IfOk result (λ found. found.items ≡ rows_of_trace id rows.now) }
{
    let mut found = Vec::new(alloc);
    for row in rows {
        if row.span.trace.cmp(&id).is_eq() {
            found.push(row.copy()?)?;
        }
    }
    Ok(found)
}
