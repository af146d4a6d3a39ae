//! Lines with one span, one member of which is altered, and what is read of lines.

use otlp_spans::{OtlpError, read_line, write_trace};
use span_types::{Place, Row, Rows};
use std::alloc::{AllocError, Global};

/// Why a line isn't read, as a text.
pub(crate) fn refused(out: &mut String, error: OtlpError) -> Result<(), AllocError> {
    match error {
        OtlpError::NotJson => out.push_str("not-json"),
        OtlpError::NotRequest { path } => write!(out, "wrong {}", path.as_str()),
        OtlpError::TooMany { spans } => write!(out, "too-many {spans}"),
        OtlpError::Memory => out.push_str("memory"),
    }
}

/// A text with an object in it, whose members have their JSON; empty JSON leaves the member out.
pub(crate) struct Form {
    front: &'static str,
    members: &'static [(&'static str, &'static str)],
    back: &'static str,
}

/// A line of one span that is accepted.
pub(crate) static LINE: Form = Form {
    front: "{\"resourceSpans\":[{\"scopeSpans\":[{\"spans\":[{",
    members: &[
        ("traceId", "\"000000000000000000000000000000a1\""),
        ("spanId", "\"00000000000000b1\""),
        ("name", "\"x\""),
        ("startTimeUnixNano", "\"1\""),
        ("endTimeUnixNano", "\"2\""),
    ],
    back: "}]}]}]}",
};

/// The trace of that line, as it is written.
pub(crate) static TRACE: Form = Form {
    front: "{\"resourceSpans\":[{\"resource\":{\"attributes\":[]},\"scopeSpans\":[{\"scope\":{\"attributes\":[],\"name\":\"\",\"version\":\"\"},\"spans\":[{",
    members: &[
        ("attributes", "[]"),
        ("endTimeUnixNano", "\"2\""),
        ("events", ""),
        ("kind", "0"),
        ("links", ""),
        ("name", "\"x\""),
        ("parentSpanId", "\"\""),
        ("spanId", "\"00000000000000b1\""),
        ("startTimeUnixNano", "\"1\""),
        ("status", "{\"code\":0,\"message\":\"\"}"),
        ("traceId", "\"000000000000000000000000000000a1\""),
    ],
    back: "}]}]}]}",
};

/// Puts a member after those of an object that is being written; empty JSON puts none.
fn put_member(line: &mut String, name: &str, json: &str) -> Result<(), AllocError> {
    if json.is_empty() {
        return Ok(());
    }
    let comma = if line.as_str().ends_with('{') {
        ""
    } else {
        ","
    };
    write!(line, "{comma}\"{name}\":{json}")
}

/// The text whose member `name` has this JSON in place of its own. Another name adds a member.
pub(crate) fn altered(
    alloc: Global,
    form: &Form,
    name: &str,
    json: &str,
) -> Result<String, AllocError> {
    let mut line = String::from_str(alloc, form.front)?;
    let mut is_there = false;
    for (key, own) in form.members {
        if *key == name {
            put_member(&mut line, key, json)?;
            is_there = true;
        } else {
            put_member(&mut line, key, own)?;
        }
    }
    if !is_there {
        put_member(&mut line, name, json)?;
    }
    line.push_str(form.back)?;
    Ok(line)
}

/// The rows of a line, as the first push.
fn rows(alloc: Global, line: &[u8]) -> Result<Rows, OtlpError> {
    let mut rows = Vec::new(alloc);
    let mut position = 0u32;
    for span in read_line(alloc, line)?.batch.spans.into_vec() {
        let place = Place {
            number: 0,
            position,
        };
        rows.push(Row { place, span })?;
        position = position.saturating_add(1);
    }
    Ok(Rows::of(rows))
}

/// The trace of a line, as it is written.
pub(crate) fn trace_of(alloc: Global, line: &[u8]) -> Result<String, OtlpError> {
    let rows = rows(alloc, line)?;
    let trace = write_trace(alloc, &rows)?;
    Ok(trace.into_string())
}
