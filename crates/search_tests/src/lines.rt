//! Rows of lines, queries of texts, and what searches give, as the tests of this crate take them. They are none if a
//! text is refused or memory runs out.

use moment_range::Range;
use otlp_spans::read_line;
use search_answer::{Bounds, answer};
use span_types::{Place, Row, Rows, first_rows};
use spanset_eval::Results;
use std::alloc::Global;
use traceql_parse::parse;
use traceql_types::{Checked, RegexMaker, check};

/// All moments.
pub const ALWAYS: Range = Range {
    from: 0,
    until: None,
};

/// More than there is.
pub const ALL: Bounds = Bounds {
    limit: 20,
    spans_per_set: 20,
};

/// Adds the rows of a line, as those of the first push.
fn add_rows(alloc: Global, line: &str, rows: &mut Vec<Row>) -> Option<()> {
    let Ok(reading) = read_line(alloc, line.as_bytes()) else {
        return None;
    };
    let mut position = 0u32;
    for span in reading.batch.spans.into_vec() {
        let place = Place {
            number: 0,
            position,
        };
        if rows.push(Row { place, span }).is_err() {
            return None;
        }
        position = position.saturating_add(1);
    }
    Some(())
}

/// The rows of lines in the order in which they came.
pub fn rows_of(alloc: Global, lines: &[&str]) -> Option<Rows> {
    let mut rows = Vec::new(alloc);
    for line in lines {
        if add_rows(alloc, line, &mut rows).is_none() {
            return None;
        }
    }
    Some(Rows::of(rows))
}

/// A text's query.
pub fn query_of(alloc: Global, text: &str) -> Option<Checked> {
    let Ok(query) = parse(alloc, text) else {
        return None;
    };
    let mut maker = RegexMaker::new(alloc);
    check(alloc, query, &mut maker).ok()
}

/// What a query answers over the first occurrences of the rows of lines.
fn answered(
    alloc: Global,
    checked: &Checked,
    range: Range,
    bounds: Bounds,
    lines: &[&str],
) -> Option<Results> {
    let Some(rows) = rows_of(alloc, lines) else {
        return None;
    };
    let Ok(rows) = first_rows(alloc, rows) else {
        return None;
    };
    answer(alloc, checked, range, bounds, rows.as_slice()).ok()
}

/// The same of a text's query.
pub fn results_of(
    alloc: Global,
    text: &str,
    range: Range,
    bounds: Bounds,
    lines: &[&str],
) -> Option<Results> {
    let Some(checked) = query_of(alloc, text) else {
        return None;
    };
    answered(alloc, &checked, range, bounds, lines)
}
