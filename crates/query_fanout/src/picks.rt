//! The traces of a look's own rows that a search has to look at: those that have a sifted span.

ghost use Rattle.std.specs.Prelude.{◌≡◌, IfOk, map};
ghost use Rattle.column_scan.specs.Candidates.{spans_of};
ghost use Rattle.column_scan.specs.Sieves.{AreSifted};

use column_scan::{Pick, Sieve, picks_of_spans};
use live_traces::SharedRow;
use span_types::{Memory, Span};
use std::alloc::Global;

/// The traces that have a sifted span among rows, each once, in ascending order. No row is copied.
pub(crate) fn picks_of_rows(
    alloc: Global,
    rows: &[SharedRow],
    sieve: &Sieve,
) -> Result<Vec<Pick>, Memory>
    ensures { IfOk result (λ picks. AreSifted sieve.now (spans_of rows.now) picks.items) }
{
    let spans = spans_of(alloc, rows)?;
    let picks = picks_of_spans(alloc, sieve, spans.as_slice())?;
    Ok(picks)
}

// References to the spans, so that none is copied.
fn spans_of<'r>(alloc: Global, rows: &'r [SharedRow]) -> Result<Vec<&'r Span>, Memory>
    ensures { IfOk result (λ spans. map (λ s. s.now) spans.items ≡ spans_of rows.now) }
{
    let mut spans = Vec::new(alloc);
    for row in rows {
        spans.push(row.span())?;
    }
    Ok(spans)
}
