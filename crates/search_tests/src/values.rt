//! Expressions over a small trace, worked out by hand.

use crate::lines::{query_of, rows_of};
use crate::told::add_value;
use span_types::{Row, Rows, TryCopy};
use std::alloc::Global;
use std::process::Abort;
use traceql_syntax::{FieldExpr, Stage};
use traceql_types::Checked;
use traceql_value::{EvalContext, Matchers, Value, Values, field_value};

/// Five spans of one trace. The first has no parent, and neither have the second and the third, which begin before it
/// and together; of these two the third has the lesser id. The fourth's parent is missing, and it ends before it
/// begins. The fifth is a child of the third.
const LINE: &str =
    r#"{"resourceSpans":[{"resource":{"attributes":[{"key":"service.name","value":{"stringValue":"shop"}},{"key":"v","value":{"stringValue":"far"}},{"key":"only","value":{"stringValue":"res"}}]},"scopeSpans":[{"scope":{"name":"lib","version":"","attributes":[{"key":"lang","value":{"stringValue":"rust"}}]},"spans":[{"traceId":"000102030405060708090a0b0c0d0e0f","spanId":"0000000000000001","name":"later","startTimeUnixNano":"200","endTimeUnixNano":"400"},{"traceId":"000102030405060708090a0b0c0d0e0f","spanId":"0000000000000003","name":"first","startTimeUnixNano":"100","endTimeUnixNano":"110"},{"traceId":"000102030405060708090a0b0c0d0e0f","spanId":"0000000000000002","name":"second","startTimeUnixNano":"100","endTimeUnixNano":"390"},{"traceId":"000102030405060708090a0b0c0d0e0f","spanId":"0000000000000004","parentSpanId":"00000000000000ff","name":"orphan","startTimeUnixNano":"50","endTimeUnixNano":"40"},{"traceId":"000102030405060708090a0b0c0d0e0f","spanId":"00000000000000ab","parentSpanId":"0000000000000002","name":"pay","startTimeUnixNano":"120","endTimeUnixNano":"150","kind":3,"status":{"code":2,"message":"late"},"attributes":[{"key":"v","value":{"intValue":"7"}},{"key":"w","value":{"stringValue":"a"}},{"key":"flag","value":{"boolValue":true}},{"key":"neg","value":{"intValue":"-7"}},{"key":"least","value":{"intValue":"-9223372036854775808"}}]}]}]}]}"#;

/// What expressions are for the fifth span.
const FIFTH: &str = r#".v => 7
span.v => 7
resource.v => "far"
.only => "res"
span.only => nil
resource.w => nil
instrumentation.lang => "rust"
.lang => nil
.none != "a" => false
.none = "a" => false
.v != "a" => false
"a" != .none => false
.w != "b" => true
.w != "a" => false
.w < "b" => true
.w > "B" => true
.none = nil => true
.none != nil => false
.v = nil => false
nil != .v => true
(nil) = .none => true
1 / 0 = nil => true
nil = .v => false
.none = .none => false
.none != .none => false
1 / 0 = 1 / 0 => false
name =~ "p|q" => false
name =~ "p.*" => true
name !~ "p.*" => false
name !~ "p|q" => true
.w =~ "p|a" => true
.v =~ "7" => false
.v !~ "8" => false
.none !~ "a" => false
.w =~ "a" && name =~ "a" => false
span:id =~ "0+ab" => true
duration => 30
span:duration => 30
duration = 30ns => true
duration >= 1us => false
1 / 0 => nil
2 ^ -1 => nil
2 ^ -1 = nil => true
2 ^ 10 => 1024
0 ^ 0 => 1
-7 % 3 => -1
7 % -3 => 1
1 / 2 => 1/2
1 / 2 + 1 / 3 => 5/6
1 / 3 - 1 / 2 => -1/6
-(1 / 2) => -1/2
2 * 3 => 6
1 / 6 + 1 / 3 => 1/2
.least + 9223372036854775807 => -1
1 / 9223372036854775807 + 1 / 2 => nil
1 / 9223372036854775807 + 1 / 9223372036854775807 => 2/9223372036854775807
.least - 1 => nil
1 / 9223372036854775807 - 1 / 2 => nil
-1 - .least => 9223372036854775807
(-2 / 3) * (3 / 4) => -1/2
.least * -1 => nil
.least * 0 => 0
(1 / 4611686018427387904) * (1 / 2) => nil
6 / -4 => -3/2
0 / -5 => 0
1 / .least => nil
2 / .least => -1/4611686018427387904
.least / 9223372036854775807 => -9223372036854775808/9223372036854775807
.least / -1 => nil
(1 / 9223372036854775807) / 2 => nil
9223372036854775807 / (1 / 2) => nil
7 % 0 => nil
(7 / 2) % 3 => nil
7 % (1 / 2) => nil
.least % -1 => 0
(-2) ^ 63 => -9223372036854775808
2 ^ 63 => nil
1 ^ 9223372036854775807 => 1
(-1) ^ 9223372036854775807 => -1
(-1) ^ 4611686018427387904 => 1
0 ^ 9223372036854775807 => 0
3 ^ 9223372036854775807 => nil
(1 / 2) ^ 2 => nil
(1 / 2) ^ 0 => nil
4 ^ (1 / 2) => nil
.least < 1 => true
1 < .least => false
1 / 9223372036854775807 < 1 / 9223372036854775806 => true
.least / 9223372036854775807 > .least / 9223372036854775806 => true
-1 / 3 > -1 / 2 => true
1 / 3 < 1 / 2 => true
1 / 2 = 2 / 4 => true
2 >= 3 => false
3 <= 3 => true
.neg + 1 => -6
.w + 1 => nil
.none * 0 => nil
9223372036854775807 + 1 => nil
-.least => nil
-.w => nil
-.v => -7
.flag => true
.flag = true => true
.flag != true => false
.flag = .v => false
.flag < .flag => false
.flag <= .flag => false
true != false => true
false = false => true
status = error => true
status != ok => true
status != error => false
kind = client => true
kind != server => true
status = .v => false
!.flag => false
!.v => nil
!.none => nil
.none && true => false
true && .flag => true
true && .none => false
.none || true => true
.v || .flag => true
.none || .v => false
true || .none => true
false || .none => false
!true => false
!(.none && true) => true
name => "pay"
span:name => "pay"
status => error
span:status => error
statusMessage => "late"
span:statusMessage => "late"
kind => client
span:kind => client
span:id => "00000000000000ab"
trace:id => "000102030405060708090a0b0c0d0e0f"
span:parentID => "0000000000000002"
traceDuration => 350
trace:duration => 350
rootName => "second"
trace:rootName => "second"
rootServiceName => "shop"
trace:rootService => "shop"
instrumentation:name => "lib"
instrumentation:version => nil"#;

/// What expressions are for the fourth span.
const FOURTH: &str = r#"duration => 0
span:parentID => "00000000000000ff"
status => unset
kind => unspecified
statusMessage => ""
.v => "far""#;

/// A root that lasts 2^63 - 1 nanoseconds, of no service and no scope.
const LONG: &str =
    r#"{"resourceSpans":[{"scopeSpans":[{"spans":[{"traceId":"000102030405060708090a0b0c0d0e0f","spanId":"0000000000000001","name":"long","startTimeUnixNano":"1","endTimeUnixNano":"9223372036854775808"}]}]}]}"#;

/// What expressions are for the span of the long trace.
const OF_LONG: &str = r#"duration => 9223372036854775807
traceDuration => 9223372036854775807
span:parentID => nil
rootName => "long"
rootServiceName => nil
instrumentation:name => nil"#;

/// A span that lasts 2^63 nanoseconds, whose parent is missing.
const LONGER: &str =
    r#"{"resourceSpans":[{"resource":{"attributes":[{"key":"service.name","value":{"stringValue":"shop"}}]},"scopeSpans":[{"spans":[{"traceId":"000102030405060708090a0b0c0d0e0f","spanId":"0000000000000001","parentSpanId":"00000000000000ff","startTimeUnixNano":"1","endTimeUnixNano":"9223372036854775809"}]}]}]}"#;

/// What expressions are for the span of the longer trace.
const OF_LONGER: &str = r#"duration => nil
traceDuration => nil
rootName => nil
rootServiceName => nil
resource.service.name => "shop""#;

/// A root whose service is a number.
const NUMBERED: &str =
    r#"{"resourceSpans":[{"resource":{"attributes":[{"key":"service.name","value":{"intValue":"7"}}]},"scopeSpans":[{"spans":[{"traceId":"000102030405060708090a0b0c0d0e0f","spanId":"0000000000000001","startTimeUnixNano":"1","endTimeUnixNano":"1"}]}]}]}"#;

/// What expressions are for the span of the trace whose service is a number.
const OF_NUMBERED: &str = r#"resource.service.name => 7
rootServiceName => nil
rootName => """#;

/// A trace's line, the position of one of its spans, and what expressions are for that.
static TABLES: [(&str, u64, &str); 5] = [
    (LINE, 4, FIFTH),
    (LINE, 3, FOURTH),
    (LONG, 0, OF_LONG),
    (LONGER, 0, OF_LONGER),
    (NUMBERED, 0, OF_NUMBERED),
];

/// The query that groups by an expression.
fn grouping(alloc: Global, expr: &str) -> Option<Checked> {
    let Ok(text) = format!(in alloc; "{{ }} | by({expr})") else {
        return None;
    };
    query_of(alloc, text.as_str())
}

/// The expression that a query groups by.
fn operand_of(checked: &Checked) -> Option<&FieldExpr> {
    match checked.query.stages.as_slice() {
        [Stage::By(operand)] => Some(&operand.expr),
        _ => None,
    }
}

/// What an expression is for the span at this position.
fn value_of(alloc: Global, expr: &str, trace: &Rows, position: u64) -> Option<Value> {
    let Some(checked) = grouping(alloc, expr) else {
        return None;
    };
    let Some(operand) = operand_of(&checked) else {
        return None;
    };
    if position >= trace.len() as u64 {
        return None;
    }
    field_value(alloc, operand, &checked, trace, position).ok()
}

/// Compares what a row's expression is for a span with what the row says.
fn check_row(rt: &(impl Abort + AllocGlobal), row: &str, trace: &Rows, position: u64) {
    let (expr, wanted) = row.split_once(" => ").expect(rt, row);
    let value = value_of(rt.alloc(), expr, trace, position).expect(rt, expr);
    let mut got = String::new(rt.alloc());
    add_value(&mut got, &value).expect(rt, "memory");
    assert!(rt; got.as_str() == wanted, "{expr} gives {got}");
}

/// Compares each row of a table for the span at this position of a line's trace.
fn check_rows(rt: &(impl Abort + AllocGlobal), line: &str, position: u64, table: &str) {
    let trace = rows_of(rt.alloc(), &[line]).expect(rt, "a line");
    for row in table.lines() {
        check_row(rt, row, &trace, position);
    }
}

#[test]
fn expressions_worked_out_by_hand(rt: HostRuntime) {
    for (line, position, table) in &TABLES {
        check_rows(&rt, line, *position, table);
    }
}

/// What an expression is for the last span of a context's trace.
fn last_value(rt: &impl Abort, context: &mut EvalContext<'_, '_>, expr: &FieldExpr) -> Value {
    let row = context.rows().last().expect(rt, "a row");
    context.value(expr, &row.span).expect(rt, "memory")
}

/// Asserts that the expression is true for the last span of the first line's trace, when that trace starts, and how
/// long it lasts.
fn check_context(rt: &(impl Abort + AllocGlobal), checked: &Checked, trace: &[Row]) {
    let operand = operand_of(checked).expect(rt, "an expression");
    let matchers = Matchers::of(rt.alloc(), checked).expect(rt, "memory");
    let mut context = EvalContext::of(rt.alloc(), matchers, trace);
    assert!(rt; context.start() == 50 && context.nanos() == 350);
    let value = last_value(rt, &mut context, operand);
    assert!(rt; matches!(value, Value::Truth(true)));
}

#[test]
fn context_of_a_trace(rt: HostRuntime) {
    let trace = rows_of(rt.alloc(), &[LINE]).expect(&rt, "a line");
    let checked = grouping(rt.alloc(), ".flag").expect(&rt, "a query");
    check_context(&rt, &checked, trace.as_slice());
}

/// A value of each kind and more, in order.
const ORDERED: &str = r#".none
false
true
-1
1 / 2
1
""
"a"
unset
error
unspecified
consumer"#;

/// What these expressions are.
fn in_order(rt: &(impl Abort + AllocGlobal)) -> Values {
    let trace = rows_of(rt.alloc(), &[LINE]).expect(rt, "a line");
    let mut values = Vec::new(rt.alloc());
    for expr in ORDERED.lines() {
        let value = value_of(rt.alloc(), expr, &trace, 4).expect(rt, expr);
        values.push(value).expect(rt, "memory");
    }
    Values::of(values)
}

/// Compares how the value at a position stands to each one.
fn check_order(rt: &impl Abort, at: usize, value: &Value, values: &Values) {
    for (other, right) in values.as_slice().iter().enumerate() {
        assert!(rt;
            value.order(right) == at.cmp(&other),
            "the values at {at} and {other}"
        );
    }
}

#[test]
fn values_stand_in_order(rt: HostRuntime) {
    let values = in_order(&rt);
    let copies = values.copy().expect(&rt, "memory");
    assert!(&rt; copies.len() == 12);
    for (at, value) in values.as_slice().iter().enumerate() {
        check_order(&rt, at, value, &copies);
    }
}
