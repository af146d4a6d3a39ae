//! Traces of one span each, queries of texts, and the names of what is found. They are none if memory runs out.

use otlp_spans::read_line;
use span_types::{Place, Row, Rows};
use spanset_eval::Results;
use std::alloc::{AllocError, Global};
use traceql_parse::parse;
use traceql_types::{Checked, RegexMaker, check};

// A line of a trace of one span: this number is its trace's id and its own, its name, and the moment at which it starts.
fn line_of(alloc: Global, number: u32) -> Result<String, AllocError> {
    let mut line = String::new(alloc);
    line.push_str(r#"{"resourceSpans":[{"scopeSpans":[{"spans":[{"traceId":""#)?;
    write!(line, "{number:032}")?;
    line.push_str(r#"","spanId":""#)?;
    write!(line, "{number:016}")?;
    line.push_str(r#"","parentSpanId":"","name":""#)?;
    write!(line, "{number}")?;
    line.push_str(r#"","startTimeUnixNano":""#)?;
    write!(line, "{number}")?;
    line.push_str(r#"","endTimeUnixNano":""#)?;
    write!(line, "{number}")?;
    line.push_str(r#""}]}]}]}"#)?;
    Ok(line)
}

// Adds the rows of a line.
fn add_rows(alloc: Global, line: &str, rows: &mut Vec<Row>) -> Option<()> {
    let Ok(reading) = read_line(alloc, line.as_bytes()) else {
        return None;
    };
    for span in reading.batch.spans.into_vec() {
        let place = Place {
            number: 0,
            position: 0,
        };
        if rows.push(Row { place, span }).is_err() {
            return None;
        }
    }
    Some(())
}

/// The rows of the traces with the numbers from one on.
pub fn rows_of(alloc: Global, traces: u32) -> Option<Rows> {
    let mut rows = Vec::new(alloc);
    for number in 0..traces {
        let Ok(line) = line_of(alloc, number.saturating_add(1)) else {
            return None;
        };
        if add_rows(alloc, line.as_str(), &mut rows).is_none() {
            return None;
        }
    }
    Some(Rows::of(rows))
}

/// A text's query.
pub fn query_of(alloc: Global, text: &str) -> Option<Checked> {
    let Ok(query) = parse(alloc, text) else {
        return None;
    };
    let mut maker = RegexMaker::new(alloc);
    check(alloc, query, &mut maker).ok()
}

/// The names of the first span of each result, with a space after each.
pub fn names_of(alloc: Global, results: &Results) -> Result<String, AllocError> {
    let mut names = String::new(alloc);
    for result in results.as_slice() {
        for set in result.sets.as_slice() {
            for hit in set.spans.as_slice() {
                names.push_str(hit.name.as_str())?;
                names.push_str(" ")?;
            }
        }
    }
    Ok(names)
}
