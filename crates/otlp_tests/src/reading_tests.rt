//! What lines give: their counts, their spans, or why they aren't read; and the traces that are written of them.

use crate::lines::{LINE, TRACE, altered, refused, trace_of};
use otlp_spans::{OtlpError, read_line};
use std::alloc::{AllocError, Global};
use std::process::Abort;

/// What a line gives: its counts, or why it isn't read.
fn counts(alloc: Global, line: &[u8]) -> Result<String, AllocError> {
    let mut out = String::new(alloc);
    match read_line(alloc, line) {
        Ok(reading) => write!(
            out,
            "{} {} {}",
            reading.batch.spans.len(),
            reading.rejected,
            reading.skipped
        )?,
        Err(error) => refused(&mut out, error)?,
    }
    Ok(out)
}

/// A row is a line and its counts, or why it isn't read.
const LINES: &str = r#"
 => not-json
{} => 0 0 0
null => wrong $
7 => wrong $
[] => wrong $
"x" => wrong $
true => wrong $
{ => not-json
{} {} => not-json
{'resourceSpans':[]} => not-json
{"resourceSpans":01} => not-json
{"resourceSpans":1e999} => not-json
{"resourceSpans":"\ud800"} => not-json
{"resourceSpans":"\ud83d\ude00"} => wrong $.resourceSpans
{"resourceSpans":null} => 0 0 0
{"resourceSpans":7} => wrong $.resourceSpans
{"resourceSpans":""} => wrong $.resourceSpans
{"resourceSpans":{}} => wrong $.resourceSpans
{"resourceSpans":[],"resourceSpans":7} => wrong $.resourceSpans
{"resourceSpans":7,"resourceSpans":[]} => 0 0 0
{"ResourceSpans":7,"resource_spans":7,"x":7} => 0 0 0
{"resourceSpans":[7]} => wrong $.resourceSpans[0]
{"resourceSpans":[null]} => wrong $.resourceSpans[0]
{"resourceSpans":[{},[]]} => wrong $.resourceSpans[1]
{"resourceSpans":[{},{},{},{},{},{},{},{},{},{},7]} => wrong $.resourceSpans[10]
{"resourceSpans":[{"resource":7},8]} => wrong $.resourceSpans[0].resource
{"resourceSpans":[{"resource":null,"scopeSpans":null}]} => 0 0 0
{"resourceSpans":[{"resource":{"attributes":null}}]} => 0 0 0
{"resourceSpans":[{"resource":{"attributes":7}}]} => wrong $.resourceSpans[0].resource.attributes
{"resourceSpans":[{"resource":{"attributes":[7]}}]} => wrong $.resourceSpans[0].resource.attributes[0]
{"resourceSpans":[{"resource":{"attributes":[{},{"key":7}]}}]} => wrong $.resourceSpans[0].resource.attributes[1].key
{"resourceSpans":[{"resource":{"attributes":[{},{"key":null}]}}]} => 0 0 2
{"resourceSpans":[{"scopeSpans":7}]} => wrong $.resourceSpans[0].scopeSpans
{"resourceSpans":[{"scopeSpans":7,"resource":7}]} => wrong $.resourceSpans[0].resource
{"resourceSpans":[{"scopeSpans":[7]}]} => wrong $.resourceSpans[0].scopeSpans[0]
{"resourceSpans":[{"scopeSpans":[{"scope":7}]}]} => wrong $.resourceSpans[0].scopeSpans[0].scope
{"resourceSpans":[{"scopeSpans":[{"spans":7,"scope":7}]}]} => wrong $.resourceSpans[0].scopeSpans[0].scope
{"resourceSpans":[{"scopeSpans":[{"scope":{"name":7,"version":7}}]}]} => wrong $.resourceSpans[0].scopeSpans[0].scope.name
{"resourceSpans":[{"scopeSpans":[{"scope":{"attributes":7,"version":7}}]}]} => wrong $.resourceSpans[0].scopeSpans[0].scope.version
{"resourceSpans":[{"scopeSpans":[{"scope":{"attributes":7}}]}]} => wrong $.resourceSpans[0].scopeSpans[0].scope.attributes
{"resourceSpans":[{"scopeSpans":[{"scope":{"attributes":[{"key":[]}]}}]}]} => wrong $.resourceSpans[0].scopeSpans[0].scope.attributes[0].key
{"resourceSpans":[{"scopeSpans":[{"scope":{"attributes":[{}]}}]}]} => 0 0 1
{"resourceSpans":[{"scopeSpans":[{"spans":7}]}]} => wrong $.resourceSpans[0].scopeSpans[0].spans
{"resourceSpans":[{"scopeSpans":[{"spans":[{},7]}]}]} => wrong $.resourceSpans[0].scopeSpans[0].spans[1]
{"resourceSpans":[{"scopeSpans":[{"spans":[{"events":7}]}]},7]} => wrong $.resourceSpans[0].scopeSpans[0].spans[0].events
{"resourceSpans":[{"scopeSpans":[{"spans":[{}]},{"spans":[{},{}]}]},{"scopeSpans":[{"spans":[{}]}]}]} => 0 4 0
{"resourceSpans":[{"scopeSpans":[{"spans":[{"links":[{},1],"events":[{},[]]}]}]}]} => wrong $.resourceSpans[0].scopeSpans[0].spans[0].events[1]
{"resourceSpans":[{"scopeSpans":[{"spans":[{"events":[{"timeUnixNano":true}],"links":[{}],"attributes":[{}]}]}]}]} => 0 1 0
{"x":[[[[[[[[[[[[[[[[[[[[[[[[[[[[[[[[[[[[[[[[[[[[[[[[[[[[[[[[[[[[[[[[[[[[[[[[[[[[[[[[[[[[[[[[[[[[[[[[[[[[[[[[[[[[[[[[[[[[[[[[[[[[[[]]]]]]]]]]]]]]]]]]]]]]]]]]]]]]]]]]]]]]]]]]]]]]]]]]]]]]]]]]]]]]]]]]]]]]]]]]]]]]]]]]]]]]]]]]]]]]]]]]]]]]]]]]]]]]]]]]]]]]]]]]]]]]} => 0 0 0
{"x":[[[[[[[[[[[[[[[[[[[[[[[[[[[[[[[[[[[[[[[[[[[[[[[[[[[[[[[[[[[[[[[[[[[[[[[[[[[[[[[[[[[[[[[[[[[[[[[[[[[[[[[[[[[[[[[[[[[[[[[[[[[[[[[]]]]]]]]]]]]]]]]]]]]]]]]]]]]]]]]]]]]]]]]]]]]]]]]]]]]]]]]]]]]]]]]]]]]]]]]]]]]]]]]]]]]]]]]]]]]]]]]]]]]]]]]]]]]]]]]]]]]]]]]]]]]]]]} => not-json
"#;

#[test]
fn lines_give_their_counts_or_the_first_wrong_form(rt: HostRuntime) {
    for row in LINES.lines() {
        if let Some((line, wanted)) = row.split_once(" => ") {
            let got = counts(rt.alloc(), line.as_bytes()).expect(&rt, "memory");
            assert!(&rt; got.as_str() == wanted, "{line} gives {got}");
        }
    }
    let got = counts(rt.alloc(), b"{\"x\":\"\xff\"}".as_slice()).expect(&rt, "memory");
    assert!(&rt; got.as_str() == "not-json");
}

/// A line of so many empty span objects.
fn line_of(alloc: Global, spans: u64) -> Result<String, AllocError> {
    let mut line = String::from_str(alloc, "{\"resourceSpans\":[{\"scopeSpans\":[{\"spans\":[{}")?;
    for _ in 1..spans {
        line.push_str(",{}")?;
    }
    line.push_str("]}]}]}")?;
    Ok(line)
}

/// How many span objects a line has, and what it gives.
static MOST: [(u64, &str); 2] = [(16_384, "0 16384 0"), (16_385, "too-many 16385")];

#[test]
fn a_line_has_at_most_16384_span_objects(rt: HostRuntime) {
    for (spans, wanted) in &MOST {
        let line = line_of(rt.alloc(), *spans).expect(&rt, "memory");
        let got = counts(rt.alloc(), line.as_bytes()).expect(&rt, "memory");
        assert!(&rt; got.as_str() == *wanted, "{spans} spans give {got}");
    }
}

/// What a line gives: how many spans are rejected, how much is skipped, and its trace; or why it isn't read.
fn told(alloc: Global, line: &[u8]) -> Result<String, OtlpError> {
    let mut out = String::new(alloc);
    match read_line(alloc, line) {
        Ok(reading) => write!(out, "{} {} ", reading.rejected, reading.skipped)?,
        Err(error) => {
            refused(&mut out, error)?;
            return Ok(out);
        }
    }
    out.push_str(trace_of(alloc, line)?.as_str())?;
    Ok(out)
}

/// What a row wants of a line with this member.
fn expected(alloc: Global, member: &str, wanted: &str) -> Result<String, AllocError> {
    if let Some(path) = wanted.strip_prefix("wrong ") {
        return format!(in alloc; "wrong $.resourceSpans[0].scopeSpans[0].spans[0]{path}");
    }
    if wanted == "no" {
        return String::from_str(alloc, "1 0 {\"resourceSpans\":[]}");
    }
    let (skipped, json) = wanted.split_once(" ").unwrap_or((wanted, ""));
    let name = if json.is_empty() { "" } else { member };
    let trace = altered(alloc, &TRACE, name, json)?;
    format!(in alloc; "0 {skipped} {trace}")
}

/// Whether a line with this member gives what is wanted, and its trace reads back.
fn gives(alloc: Global, member: &str, json: &str, wanted: &str) -> Result<bool, OtlpError> {
    let got = told(alloc, altered(alloc, &LINE, member, json)?.as_bytes())?;
    let whole = expected(alloc, member, wanted)?;
    Ok(got.as_str() == whole.as_str() && reads_back(alloc, got.as_str())?)
}

/// Whether a trace that was written reads back with nothing rejected and nothing skipped.
fn reads_back(alloc: Global, told: &str) -> Result<bool, OtlpError> {
    match told.split_once(" {") {
        Some((_, rest)) => {
            let text = format!(in alloc; "{{{rest}")?;
            let again = trace_of(alloc, text.as_bytes())?;
            Ok(again.as_str() == text.as_str())
        }
        None => Ok(true),
    }
}

/// Compares what each row's line gives with what it wants.
fn check(rt: &(impl Abort + AllocGlobal), table: &str) {
    for row in table.lines() {
        if let Some((given, wanted)) = row.split_once(" => ") {
            let (member, json) = given.split_once(" ").unwrap_or((given, ""));
            let same = gives(rt.alloc(), member, json, wanted).unwrap_or(false);
            assert!(rt; same, "{row}");
        }
    }
}

/// A row is a member of a line's one span, its JSON, and what the line gives: `no` if the span is rejected; `wrong` and the path from the
/// span to the first wrong form; or how much is skipped and, where the written span has the member otherwise than by default, its JSON there.
const MEMBERS: &str = r#"
flags 256 => 0
traceId  => no
traceId null => no
traceId 7 => no
traceId "" => no
traceId "0000000000000000000000000000a1" => no
traceId "00000000000000000000000000000000a1" => no
traceId "000000000000000000000000000000g1" => no
traceId "00000000000000000000000000000000" => no
traceId "000000000000000000000000000000A1" => 0
spanId  => no
spanId null => no
spanId [] => no
spanId "b1" => no
spanId "0000000000000000" => no
spanId "00000000000000B1" => 0
parentSpanId null => 0
parentSpanId "" => 0
parentSpanId "0000000000000000" => 0
parentSpanId "00000000000000B2" => 0 "00000000000000b2"
parentSpanId "b2" => no
parentSpanId 7 => no
parentSpanId "00000000000000-2" => no
startTimeUnixNano  => no
startTimeUnixNano null => no
startTimeUnixNano true => no
startTimeUnixNano 1 => 0
startTimeUnixNano "0001" => 0
startTimeUnixNano 18446744073709551615 => 0 "18446744073709551615"
startTimeUnixNano "18446744073709551615" => 0 "18446744073709551615"
startTimeUnixNano 18446744073709551616 => no
startTimeUnixNano "18446744073709551616" => no
startTimeUnixNano -1 => no
startTimeUnixNano -0 => no
startTimeUnixNano 1.0 => no
startTimeUnixNano 1e1 => no
startTimeUnixNano "" => no
startTimeUnixNano "-0" => no
startTimeUnixNano "+1" => no
startTimeUnixNano " 1" => no
startTimeUnixNano "1.0" => no
endTimeUnixNano  => no
endTimeUnixNano 0 => 0 "0"
endTimeUnixNano "1e1" => no
endTimeUnixNano 18446744073709551616 => no
name null => 0 ""
name "\u0061\u00e9" => 0 "aé"
name 7 => wrong .name
kind null => 0
kind 0 => 0
kind 1 => 0 1
kind 2 => 0 2
kind 3 => 0 3
kind 4 => 0 4
kind 5 => 0 5
kind 6 => 0
kind -1 => 0
kind 2.0 => 0
kind 18446744073709551616 => 0
kind "2" => 0 2
kind "6" => 0
kind "" => 0
kind "SPAN_KIND_UNSPECIFIED" => 0
kind "SPAN_KIND_INTERNAL" => 0 1
kind "SPAN_KIND_SERVER" => 0 2
kind "SPAN_KIND_CLIENT" => 0 3
kind "SPAN_KIND_PRODUCER" => 0 4
kind "SPAN_KIND_CONSUMER" => 0 5
kind "span_kind_server" => 0
kind true => wrong .kind
kind [] => wrong .kind
status null => 0
status {} => 0
status 7 => wrong .status
status [] => wrong .status
status {"code":null,"message":null} => 0
status {"code":1} => 0 {"code":1,"message":""}
status {"code":2,"message":"m"} => 0 {"code":2,"message":"m"}
status {"code":3} => 0
status {"code":"2"} => 0 {"code":2,"message":""}
status {"code":"STATUS_CODE_UNSET"} => 0
status {"code":"STATUS_CODE_OK"} => 0 {"code":1,"message":""}
status {"code":"STATUS_CODE_ERROR"} => 0 {"code":2,"message":""}
status {"code":"ERROR"} => 0
status {"code":true} => wrong .status.code
status {"code":true,"message":7} => wrong .status.message
attributes null => 0
attributes {} => wrong .attributes
attributes [[]] => wrong .attributes[0]
attributes [{},null] => wrong .attributes[1]
attributes [{"key":true}] => wrong .attributes[0].key
events null => 0
events [] => 0
events {} => wrong .events
links "" => wrong .links
links 7,"events":7 => wrong .events
events 7,"attributes":7 => wrong .attributes
attributes 7,"status":7 => wrong .status
status {"code":[]},"kind":[] => wrong .kind
kind [],"traceId":7,"links":7 => wrong .kind
attributes [{"key":"a","value":{"stringValue":"x"}}] => 0 [{"key":"a","value":{"stringValue":"x"}}]
attributes [{"key":"a","value":{"stringValue":""}}] => 0 [{"key":"a","value":{"stringValue":""}}]
attributes [{"key":"a","value":{"stringValue":7}}] => 1
attributes [{"key":"a","value":{"stringValue":null}}] => 1
attributes [{"key":"a","value":{"boolValue":true}}] => 0 [{"key":"a","value":{"boolValue":true}}]
attributes [{"key":"a","value":{"boolValue":"true"}}] => 1
attributes [{"key":"a","value":{"intValue":7}}] => 0 [{"key":"a","value":{"intValue":"7"}}]
attributes [{"key":"a","value":{"intValue":"7"}}] => 0 [{"key":"a","value":{"intValue":"7"}}]
attributes [{"key":"a","value":{"intValue":"-007"}}] => 0 [{"key":"a","value":{"intValue":"-7"}}]
attributes [{"key":"a","value":{"intValue":"-0"}}] => 0 [{"key":"a","value":{"intValue":"0"}}]
attributes [{"key":"a","value":{"intValue":-0}}] => 1
attributes [{"key":"a","value":{"intValue":9223372036854775807}}] => 0 [{"key":"a","value":{"intValue":"9223372036854775807"}}]
attributes [{"key":"a","value":{"intValue":"9223372036854775807"}}] => 0 [{"key":"a","value":{"intValue":"9223372036854775807"}}]
attributes [{"key":"a","value":{"intValue":9223372036854775808}}] => 1
attributes [{"key":"a","value":{"intValue":"9223372036854775808"}}] => 1
attributes [{"key":"a","value":{"intValue":-9223372036854775808}}] => 0 [{"key":"a","value":{"intValue":"-9223372036854775808"}}]
attributes [{"key":"a","value":{"intValue":"-9223372036854775808"}}] => 0 [{"key":"a","value":{"intValue":"-9223372036854775808"}}]
attributes [{"key":"a","value":{"intValue":-9223372036854775809}}] => 1
attributes [{"key":"a","value":{"intValue":"-9223372036854775809"}}] => 1
attributes [{"key":"a","value":{"intValue":"18446744073709551616"}}] => 1
attributes [{"key":"a","value":{"intValue":1.0}}] => 1
attributes [{"key":"a","value":{"intValue":""}}] => 1
attributes [{"key":"a","value":{"intValue":"-"}}] => 1
attributes [{"key":"a","value":{"intValue":"+1"}}] => 1
attributes [{"key":"a","value":{"intValue":"--1"}}] => 1
attributes [{"key":"a","value":{"intValue":true}}] => 1
attributes [{"key":"a","value":{"doubleValue":0.5}}] => 1
attributes [{"key":"a","value":{"arrayValue":{"values":[]}}}] => 1
attributes [{"key":"a","value":{"kvlistValue":{"values":[]}}}] => 1
attributes [{"key":"a","value":{"bytesValue":""}}] => 1
attributes [{"key":"a","value":{"stringValue":"x","intValue":null}}] => 0 [{"key":"a","value":{"stringValue":"x"}}]
attributes [{"key":"a","value":{"stringValue":"x","other":7}}] => 0 [{"key":"a","value":{"stringValue":"x"}}]
attributes [{"key":"a","value":{"stringValue":"x","intValue":"1"}}] => 1
attributes [{"key":"a","value":{"boolValue":true,"bytesValue":""}}] => 1
attributes [{"key":"a","value":{}}] => 1
attributes [{"key":"a","value":null}] => 1
attributes [{"key":"a","value":7}] => 1
attributes [{"key":"a","value":{"boolValue":true}},{"key":"a","value":{"boolValue":false}}] => 0 [{"key":"a","value":{"boolValue":true}}]
attributes [{"key":"a","value":{"boolValue":7}},{"key":"a","value":{"boolValue":false}}] => 1 [{"key":"a","value":{"boolValue":false}}]
attributes [{"key":"a","value":{"boolValue":true}},{"key":"b","value":{"intValue":"1"}},{"key":"a","value":{"intValue":"2"}}] => 0 [{"key":"a","value":{"boolValue":true}},{"key":"b","value":{"intValue":"1"}}]
attributes [{"key":"a","value":{"boolValue":true}},{"key":null,"value":{"intValue":"1"}},{"value":{"intValue":"2"}},{"key":"","value":{"intValue":"3"}}] => 0 [{"key":"a","value":{"boolValue":true}},{"key":"","value":{"intValue":"1"}}]
"#;

/// The same of events and links, and of both in one span.
const EVENTS: &str = r#"
events null => 0
events [] => 0
events {} => wrong .events
events "" => wrong .events
events [7] => wrong .events[0]
events [{},null] => wrong .events[1]
events [{"name":7,"attributes":7}] => wrong .events[0].name
events [{"attributes":{}}] => wrong .events[0].attributes
events [{"attributes":[[]]}] => wrong .events[0].attributes[0]
events [{"timeUnixNano":true,"attributes":[{"key":7}]}] => wrong .events[0].attributes[0].key
events [{}] => 0 [{"attributes":[],"name":"","timeUnixNano":"0"}]
events [{"timeUnixNano":null,"name":null,"attributes":null,"droppedAttributesCount":1}] => 0 [{"attributes":[],"name":"","timeUnixNano":"0"}]
events [{"timeUnixNano":"5","name":"e"},{"timeUnixNano":"005","name":"e"}] => 0 [{"attributes":[],"name":"e","timeUnixNano":"5"},{"attributes":[],"name":"e","timeUnixNano":"5"}]
events [{"timeUnixNano":18446744073709551615,"name":"\""}] => 0 [{"attributes":[],"name":"\"","timeUnixNano":"18446744073709551615"}]
events [{"timeUnixNano":18446744073709551616}] => 1
events [{"timeUnixNano":"18446744073709551616"}] => 1
events [{"timeUnixNano":-1}] => 1
events [{"timeUnixNano":"-0"}] => 1
events [{"timeUnixNano":1.0}] => 1
events [{"timeUnixNano":""}] => 1
events [{"timeUnixNano":true}] => 1
events [{"timeUnixNano":[]}] => 1
events [{"timeUnixNano":"5","name":"e"},{"name":"f","timeUnixNano":true}] => 1 [{"attributes":[],"name":"e","timeUnixNano":"5"}]
events [{"timeUnixNano":true,"attributes":[{"key":"a"},{"key":"b"}]}] => 1
events [{"attributes":[{"key":"exception.message","value":{"stringValue":"x"}},{"key":"a"},{"key":"exception.message","value":{"intValue":1}},{"key":"b","value":{"doubleValue":0.5}}]}] => 2 [{"attributes":[{"key":"exception.message","value":{"stringValue":"x"}}],"name":"","timeUnixNano":"0"}]
events [{"attributes":[{"key":"a","value":{"boolValue":true}},{"key":"b","value":{"boolValue":true}},{"key":"a","value":{"boolValue":false}},{"key":"c","value":{"boolValue":true}},{"key":"b","value":{"boolValue":false}}]}] => 0 [{"attributes":[{"key":"a","value":{"boolValue":true}},{"key":"b","value":{"boolValue":true}},{"key":"c","value":{"boolValue":true}}],"name":"","timeUnixNano":"0"}]
events [{"attributes":[{"key":"a","value":{"boolValue":true}},{"key":"a","value":{"boolValue":false}},{"key":"a","value":{"boolValue":false}},{"key":"a","value":{"boolValue":false}},{"key":"a","value":{"boolValue":false}},{"key":"a","value":{"boolValue":false}},{"key":"a","value":{"boolValue":false}},{"key":"a","value":{"boolValue":false}},{"key":"a","value":{"boolValue":false}},{"key":"a","value":{"boolValue":false}},{"key":"a","value":{"boolValue":false}},{"key":"a","value":{"boolValue":false}},{"key":"a","value":{"boolValue":false}},{"key":"a","value":{"boolValue":false}},{"key":"a","value":{"boolValue":false}},{"key":"a","value":{"boolValue":false}}]}] => 0 [{"attributes":[{"key":"a","value":{"boolValue":true}}],"name":"","timeUnixNano":"0"}]
events [{"attributes":[{"key":"a","value":{"boolValue":true}},{"key":"b","value":{"boolValue":true}},{"key":"c","value":{"boolValue":true}},{"key":"d","value":{"boolValue":true}},{"key":"c","value":{"boolValue":false}},{"key":"e","value":{"boolValue":true}},{"key":"f","value":{"boolValue":true}},{"key":"g","value":{"boolValue":true}},{"key":"h","value":{"boolValue":true}},{"key":"i","value":{"boolValue":true}},{"key":"a","value":{"boolValue":false}},{"key":"j","value":{"boolValue":true}},{"key":"k","value":{"boolValue":true}},{"key":"l","value":{"boolValue":true}},{"key":"m","value":{"boolValue":true}},{"key":"n","value":{"boolValue":true}},{"key":"o","value":{"boolValue":true}},{"key":"p","value":{"boolValue":true}},{"key":"q","value":{"boolValue":true}},{"key":"q","value":{"boolValue":false}},{"key":"a","value":{"boolValue":false}}]}] => 0 [{"attributes":[{"key":"a","value":{"boolValue":true}},{"key":"b","value":{"boolValue":true}},{"key":"c","value":{"boolValue":true}},{"key":"d","value":{"boolValue":true}},{"key":"e","value":{"boolValue":true}},{"key":"f","value":{"boolValue":true}},{"key":"g","value":{"boolValue":true}},{"key":"h","value":{"boolValue":true}},{"key":"i","value":{"boolValue":true}},{"key":"j","value":{"boolValue":true}},{"key":"k","value":{"boolValue":true}},{"key":"l","value":{"boolValue":true}},{"key":"m","value":{"boolValue":true}},{"key":"n","value":{"boolValue":true}},{"key":"o","value":{"boolValue":true}},{"key":"p","value":{"boolValue":true}},{"key":"q","value":{"boolValue":true}}],"name":"","timeUnixNano":"0"}]
links null => 0
links [] => 0
links 7 => wrong .links
links [[]] => wrong .links[0]
links [{},null] => wrong .links[1]
links [{"traceId":7,"attributes":7}] => wrong .links[0].attributes
links [{"attributes":[{"key":7}]}] => wrong .links[0].attributes[0].key
links [{}] => 1
links [{"traceId":"000000000000000000000000000000a2"}] => 1
links [{"spanId":"00000000000000b2"}] => 1
links [{"traceId":"00","spanId":"00"}] => 1
links [{"traceId":"00000000000000000000000000000000","spanId":"00000000000000b2"}] => 1
links [{"traceId":"000000000000000000000000000000a2","spanId":"0000000000000000"}] => 1
links [{"traceId":"000000000000000000000000000000g2","spanId":"00000000000000b2"}] => 1
links [{"traceId":7,"spanId":7,"attributes":[{"key":"a"},{"key":"b"}]}] => 1
links [{"traceId":"000000000000000000000000000000A2","spanId":"00000000000000B2","traceState":"x"}] => 0 [{"attributes":[],"spanId":"00000000000000b2","traceId":"000000000000000000000000000000a2"}]
links [{"traceId":"000000000000000000000000000000a2","spanId":"00000000000000b2","attributes":[{"key":"a"},{"key":"b","value":{"boolValue":true}}]},{}] => 2 [{"attributes":[{"key":"b","value":{"boolValue":true}}],"spanId":"00000000000000b2","traceId":"000000000000000000000000000000a2"}]
events [{"timeUnixNano":"5","name":"e"},{"name":"f","timeUnixNano":true}],"links":[{"traceId":"00","spanId":"00"}] => 2 [{"attributes":[],"name":"e","timeUnixNano":"5"}]
events 7,"links":7 => wrong .events
events [],"links":7 => wrong .links
events [],"attributes":7,"links":7 => wrong .attributes
events [{"attributes":[{"key":"a"}]}],"attributes":[{"key":"a"}],"links":[{}] => 3 [{"attributes":[],"name":"","timeUnixNano":"0"}]
"#;

#[test]
fn members_of_a_span_are_read_and_written(rt: HostRuntime) {
    check(&rt, MEMBERS);
    check(&rt, EVENTS);
}

/// Spans with resources and scopes of their own, some of which are equal.
const SIX: &str =
    r#"{"resourceSpans":[{"resource":{"attributes":[{"key":"service.name","value":{"stringValue":"shop"}}]},"scopeSpans":[{"scope":{"attributes":[{"key":"old","value":{"boolValue":false}}],"name":"lib","version":"1.0"},"spans":[{"attributes":[{"key":"n","value":{"intValue":"-7"}}],"endTimeUnixNano":"18446744073709551615","kind":2,"name":"n","parentSpanId":"fefefefefefefefe","spanId":"0101010101010101","startTimeUnixNano":"5","status":{"code":2,"message":"\""},"traceId":"a1a1a1a1a1a1a1a1a1a1a1a1a1a1a1a1"}]}]},{"resource":{"attributes":[{"key":"service.name","value":{"stringValue":"shop"}}]},"scopeSpans":[{"scope":{"attributes":[{"key":"old","value":{"boolValue":false}}],"name":"lib","version":"1.0"},"spans":[{"attributes":[],"endTimeUnixNano":"18446744073709551615","kind":2,"name":"n","parentSpanId":"fefefefefefefefe","spanId":"0202020202020202","startTimeUnixNano":"5","status":{"code":2,"message":"\""},"traceId":"a1a1a1a1a1a1a1a1a1a1a1a1a1a1a1a1"}]}]},{"resource":{"attributes":[{"key":"service.name","value":{"stringValue":"shop"}}]},"scopeSpans":[{"scope":{"attributes":[],"name":"lib","version":"1.1"},"spans":[{"attributes":[],"endTimeUnixNano":"18446744073709551615","kind":2,"name":"n","parentSpanId":"fefefefefefefefe","spanId":"0303030303030303","startTimeUnixNano":"5","status":{"code":2,"message":"\""},"traceId":"a1a1a1a1a1a1a1a1a1a1a1a1a1a1a1a1"}]},{"scope":{"attributes":[{"key":"old","value":{"boolValue":false}}],"name":"lib","version":"1.0"},"spans":[{"attributes":[],"endTimeUnixNano":"18446744073709551615","kind":2,"name":"n","parentSpanId":"fefefefefefefefe","spanId":"0404040404040404","startTimeUnixNano":"5","status":{"code":2,"message":"\""},"traceId":"a1a1a1a1a1a1a1a1a1a1a1a1a1a1a1a1"}]}]},{"resource":{"attributes":[]},"scopeSpans":[{"scope":{"attributes":[{"key":"old","value":{"boolValue":false}}],"name":"lib","version":"1.0"},"spans":[{"attributes":[],"endTimeUnixNano":"18446744073709551615","kind":2,"name":"n","parentSpanId":"fefefefefefefefe","spanId":"0505050505050505","startTimeUnixNano":"5","status":{"code":2,"message":"\""},"traceId":"a1a1a1a1a1a1a1a1a1a1a1a1a1a1a1a1"}]}]},{"resource":{"attributes":[{"key":"service.name","value":{"stringValue":"shop"}}]},"scopeSpans":[{"scope":{"attributes":[{"key":"old","value":{"boolValue":false}}],"name":"lib","version":"1.0"},"spans":[{"attributes":[],"endTimeUnixNano":"18446744073709551615","kind":2,"name":"n","parentSpanId":"fefefefefefefefe","spanId":"0606060606060606","startTimeUnixNano":"5","status":{"code":2,"message":"\""},"traceId":"a1a1a1a1a1a1a1a1a1a1a1a1a1a1a1a1"}]}]}]}"#;

/// Their trace: neighbours with equal resources and scopes are written together.
const GROUPED: &str =
    r#"{"resourceSpans":[{"resource":{"attributes":[{"key":"service.name","value":{"stringValue":"shop"}}]},"scopeSpans":[{"scope":{"attributes":[{"key":"old","value":{"boolValue":false}}],"name":"lib","version":"1.0"},"spans":[{"attributes":[{"key":"n","value":{"intValue":"-7"}}],"endTimeUnixNano":"18446744073709551615","kind":2,"name":"n","parentSpanId":"fefefefefefefefe","spanId":"0101010101010101","startTimeUnixNano":"5","status":{"code":2,"message":"\""},"traceId":"a1a1a1a1a1a1a1a1a1a1a1a1a1a1a1a1"},{"attributes":[],"endTimeUnixNano":"18446744073709551615","kind":2,"name":"n","parentSpanId":"fefefefefefefefe","spanId":"0202020202020202","startTimeUnixNano":"5","status":{"code":2,"message":"\""},"traceId":"a1a1a1a1a1a1a1a1a1a1a1a1a1a1a1a1"}]},{"scope":{"attributes":[],"name":"lib","version":"1.1"},"spans":[{"attributes":[],"endTimeUnixNano":"18446744073709551615","kind":2,"name":"n","parentSpanId":"fefefefefefefefe","spanId":"0303030303030303","startTimeUnixNano":"5","status":{"code":2,"message":"\""},"traceId":"a1a1a1a1a1a1a1a1a1a1a1a1a1a1a1a1"}]},{"scope":{"attributes":[{"key":"old","value":{"boolValue":false}}],"name":"lib","version":"1.0"},"spans":[{"attributes":[],"endTimeUnixNano":"18446744073709551615","kind":2,"name":"n","parentSpanId":"fefefefefefefefe","spanId":"0404040404040404","startTimeUnixNano":"5","status":{"code":2,"message":"\""},"traceId":"a1a1a1a1a1a1a1a1a1a1a1a1a1a1a1a1"}]}]},{"resource":{"attributes":[]},"scopeSpans":[{"scope":{"attributes":[{"key":"old","value":{"boolValue":false}}],"name":"lib","version":"1.0"},"spans":[{"attributes":[],"endTimeUnixNano":"18446744073709551615","kind":2,"name":"n","parentSpanId":"fefefefefefefefe","spanId":"0505050505050505","startTimeUnixNano":"5","status":{"code":2,"message":"\""},"traceId":"a1a1a1a1a1a1a1a1a1a1a1a1a1a1a1a1"}]}]},{"resource":{"attributes":[{"key":"service.name","value":{"stringValue":"shop"}}]},"scopeSpans":[{"scope":{"attributes":[{"key":"old","value":{"boolValue":false}}],"name":"lib","version":"1.0"},"spans":[{"attributes":[],"endTimeUnixNano":"18446744073709551615","kind":2,"name":"n","parentSpanId":"fefefefefefefefe","spanId":"0606060606060606","startTimeUnixNano":"5","status":{"code":2,"message":"\""},"traceId":"a1a1a1a1a1a1a1a1a1a1a1a1a1a1a1a1"}]}]}]}"#;

#[test]
fn neighbours_with_equal_resources_and_scopes_are_written_together(rt: HostRuntime) {
    let trace = trace_of(rt.alloc(), SIX.as_bytes()).expect(&rt, "a trace");
    assert!(&rt; trace.as_str() == GROUPED, "{trace}");
}
