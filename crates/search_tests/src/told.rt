//! Values and results as the texts of tables.

use spanset_eval::{Results, SetResult, TraceResult};
use std::alloc::{AllocError, Global};
use traceql_print::{kind_word, status_word};
use traceql_value::{Ratio, Value, Values};

/// Adds a fraction, or a whole number.
fn add_number(told: &mut String, number: Ratio) -> Result<(), AllocError> {
    write!(told, "{}", number.numerator())?;
    if number.denominator() == 1 {
        return Ok(());
    }
    write!(told, "/{}", number.denominator())
}

/// Adds a value.
pub fn add_value(told: &mut String, value: &Value) -> Result<(), AllocError> {
    match value {
        Value::Nil => told.push_str("nil"),
        Value::Truth(truth) => told.push_str(if *truth { "true" } else { "false" }),
        Value::Number(number) => add_number(told, *number),
        Value::Text(text) => write!(told, "\"{}\"", text.as_str()),
        Value::Status(status) => told.push_str(status_word(*status).text()),
        Value::Kind(kind) => told.push_str(kind_word(*kind).text()),
    }
}

/// Adds values and a colon, if there are values.
fn add_by(told: &mut String, by: &Values) -> Result<(), AllocError> {
    for (i, value) in by.as_slice().iter().enumerate() {
        told.push_str(if i == 0 { "" } else { " " })?;
        add_value(told, value)?;
    }
    told.push_str(if by.len() == 0 { "" } else { ": " })
}

/// Adds a spanset: its values, the names of its spans, and `..` where it has more than these.
fn add_set(told: &mut String, set: &SetResult) -> Result<(), AllocError> {
    add_by(told, &set.by)?;
    for (i, hit) in set.spans.as_slice().iter().enumerate() {
        told.push_str(if i == 0 { "" } else { " " })?;
        told.push_str(hit.name.as_str())?;
    }
    told.push_str(if set.matched == set.spans.len() as u64 {
        ""
    } else {
        " .."
    })
}

/// Adds the spansets of a trace.
fn add_sets(told: &mut String, found: &TraceResult) -> Result<(), AllocError> {
    for (i, set) in found.sets.as_slice().iter().enumerate() {
        told.push_str(if i == 0 { "" } else { " | " })?;
        add_set(told, set)?;
    }
    Ok(())
}

/// What a search shows: `none`, or the spansets of each trace.
pub fn told(alloc: Global, results: &Results) -> Result<String, AllocError> {
    let mut told = String::new(alloc);
    if results.len() == 0 {
        told.push_str("none")?;
    }
    for (i, found) in results.as_slice().iter().enumerate() {
        told.push_str(if i == 0 { "" } else { " ; " })?;
        add_sets(&mut told, found)?;
    }
    Ok(told)
}
