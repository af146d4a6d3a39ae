//! Results and fields with their exact text, worked out by hand.

use crate::lines::{ALWAYS, query_of, results_of};
use search_answer::Bounds;
use search_text::{Texts, printed_fields, write_results};
use std::alloc::{AllocError, Global};
use std::process::Abort;

/// A trace whose root starts first, and three spans that start at the last moment there is.
const LINE: &str =
    r#"{"resourceSpans":[{"scopeSpans":[{"spans":[{"traceId":"000000000000000000000000000000a1","spanId":"00000000000000b1","name":"get","startTimeUnixNano":"18446744073709551615","endTimeUnixNano":"18446744073709551615","attributes":[{"key":"x","value":{"boolValue":false}}]},{"traceId":"000000000000000000000000000000a1","spanId":"00000000000000b2","name":"get","startTimeUnixNano":"18446744073709551615","endTimeUnixNano":"18446744073709551615"},{"traceId":"000000000000000000000000000000a1","spanId":"00000000000000b3","name":"get","startTimeUnixNano":"18446744073709551615","endTimeUnixNano":"18446744073709551615"},{"traceId":"000000000000000000000000000000a1","spanId":"00000000000000b4","name":"root","startTimeUnixNano":"1","endTimeUnixNano":"3"}]}]}]}"#;

/// A search that groups by a value of each kind, and one that finds nothing.
const EVERY: &str =
    r#"{ name = "get" } | by(.none) | by(true) | by(-7) | by(-1 / 2) | by("a\"b") | by(unset) | by(ok) | by(error) | by(unspecified) | by(internal) | by(server) | by(client) | by(producer) | by(consumer) | select(.x, duration)"#;

const NOTHING: &str = r#"{ name = "none" }"#;

/// One span of each spanset.
const ONE_SPAN: Bounds = Bounds {
    limit: 20,
    spans_per_set: 1,
};

const WRITTEN: &str =
    r#"{"traces":[{"durationNanos":"18446744073709551614","rootName":"root","rootService":null,"spanSets":[{"by":[null,{"boolValue":true},{"intValue":"-7"},{"ratioValue":"-1/2"},{"stringValue":"a\"b"},{"statusValue":"unset"},{"statusValue":"ok"},{"statusValue":"error"},{"kindValue":"unspecified"},{"kindValue":"internal"},{"kindValue":"server"},{"kindValue":"client"},{"kindValue":"producer"},{"kindValue":"consumer"}],"matched":3,"spans":[{"attributes":[{"key":".x","value":{"boolValue":false}},{"key":"duration","value":{"intValue":"0"}}],"durationNanos":"0","name":"get","spanId":"00000000000000b1","startTimeUnixNano":"18446744073709551615"}]}],"startTimeUnixNano":"1","traceId":"000000000000000000000000000000a1"}]}"#;

/// Searches, and what they find as text.
static FOUND: [(&str, &str); 2] = [(EVERY, WRITTEN), (NOTHING, r#"{"traces":[]}"#)];

/// The fields that a query selects.
fn fields_of(rt: &(impl Abort + AllocGlobal), text: &str) -> Texts {
    let checked = query_of(rt.alloc(), text).expect(rt, "a query");
    printed_fields(rt.alloc(), &checked.query).expect(rt, "memory")
}

/// Compares what a search finds in the trace with what is expected of it.
fn check_found(rt: &(impl Abort + AllocGlobal), text: &str, wanted: &str) {
    let results = results_of(rt.alloc(), text, ALWAYS, ONE_SPAN, &[LINE]).expect(rt, "results");
    let written = write_results(rt.alloc(), &fields_of(rt, text), &results).expect(rt, "memory");
    assert!(rt; written.as_str() == wanted, "{}", written.as_str());
}

#[test]
fn results_are_written(rt: HostRuntime) {
    for (text, wanted) in &FOUND {
        check_found(&rt, text, wanted);
    }
}

/// Fields with a comma after each.
fn listed(alloc: Global, fields: &Texts) -> Result<String, AllocError> {
    let mut all = String::new(alloc);
    for field in fields.as_slice() {
        all.push_str(field.as_str())?;
        all.push_str(",")?;
    }
    Ok(all)
}

#[test]
fn selected_fields_are_printed(rt: HostRuntime) {
    let text = "{ } | select(duration, span.\"a b\") | count() > 1 | select(.x, duration)";
    let all = listed(rt.alloc(), &fields_of(&rt, text)).expect(&rt, "memory");
    assert!(&rt; all.as_str() == "duration,span.\"a b\",.x,duration,");
}
