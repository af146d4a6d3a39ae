//! Texts, and the printed form of the query that each is read as, or its refusal and the offset: worked out by hand.

use span_types::{MOST_QUERY_BYTES, Memory, SpanKind, StatusCode, Text};
use std::alloc::{AllocError, Global};
use std::process::Abort;
use traceql_parse::{ParseError, depth_is_nesting, one_query, parse};
use traceql_print::{kind_word, print_field, print_query, printed_once, read_back, status_word};
use traceql_syntax::{Field, Query, Stage, Threshold};
use traceql_tokens::{AttributeScope, Intrinsic};

/// Field expressions.
const FIELDS: &str = r#"{ } => { }
{} => { }
{ true } => { true }
{ false } => { false }
{ nil = nil } => { nil = nil }
{ "a" } => { "a" }
{ `a"b\n` } => { "a\"b\\n" }
{ "a\"b\\" } => { "a\"b\\" }
{ 0 } => { 0 }
{ 007 } => { 7 }
{ 9223372036854775807 } => { 9223372036854775807 }
{ 9223372036854775808 } => number-range 2
{ 5ns } => { 5ns }
{ 1h1m1s1ms1us1ns } => { 3661001001001ns }
{ 1.5us } => { 1500ns }
{ 0.5ns0.5ns } => { 1ns }
{ 1.5ns } => fraction-literal 2
{ 0.5 } => fraction-literal 2
{ .v = 0.5 } => fraction-literal 7
{ duration > 1.5s } => { duration > 1500000000ns }
{ 2562048h } => number-range 2
{ error } => { error }
{ ok } => { ok }
{ unset } => { unset }
{ server } => { server }
{ client } => { client }
{ producer } => { producer }
{ consumer } => { consumer }
{ internal } => { internal }
{ unspecified } => { unspecified }
{ .a } => { .a }
{ span.a } => { span.a }
{ resource.a } => { resource.a }
{ instrumentation.a } => { instrumentation.a }
{ ."a b" } => { ."a b" }
{ .`a b` } => { ."a b" }
{ .a-1 } => { .a-1 }
{ .a+.b } => { .a+.b }
{ .a + .b } => { .a + .b }
{ .a<<1 } => unexpected 4
{ name } => { name }
{ span:name } => { span:name }
{ trace:duration } => { trace:duration }
{ traceDuration } => { traceDuration }
{ instrumentation:version } => { instrumentation:version }
{ names } => bad-char 6
{ nameserver } => unexpected 6
{ foo } => bad-char 2
{ . } => unexpected 2
{ ."" } => unexpected 2
{ (1) } => { 1 }
{ ((1)) } => { 1 }
{ - 1 } => { - 1 }
{ !.a } => { ! .a }
{ ! - ! 1 } => { ! - ! 1 }
{ 2 ^ 3 } => { 2 ^ 3 }
{ 2 ^ 3 ^ 2 = 512 } => { (2 ^ (3 ^ 2)) = 512 }
{ (2 ^ 3) ^ 2 } => { (2 ^ 3) ^ 2 }
{ -2 ^ 2 } => { - 2 ^ 2 }
{ 2 ^ -2 ^ 2 } => { 2 ^ (- 2 ^ 2) }
{ 1 * 2 / 3 % 4 } => { ((1 * 2) / 3) % 4 }
{ 1 * 2 ^ 3 } => { 1 * (2 ^ 3) }
{ 1 + 2 - 3 } => { (1 + 2) - 3 }
{ 1 + 2 * 3 } => { 1 + (2 * 3) }
{ 1 * 2 + 3 } => { (1 * 2) + 3 }
{ 1 - -1 } => { 1 - - 1 }
{ 1 = 2 = 3 } => { (1 = 2) = 3 }
{ 1 != 2 } => { 1 != 2 }
{ 1 < 2 } => { 1 < 2 }
{ 1 <= 2 } => { 1 <= 2 }
{ 1 > 2 } => { 1 > 2 }
{ 1 >= 2 } => { 1 >= 2 }
{ 1 + 2 = 3 + 4 } => { (1 + 2) = (3 + 4) }
{ name =~ "a" } => { name =~ "a" }
{ name !~ `a` } => { name !~ "a" }
{ name =~ "a" !~ "b" = true } => { ((name =~ "a") !~ "b") = true }
{ name =~ "a" + 1 } => unexpected 14
{ name =~ .a } => unexpected 10
{ name =~ ("a") } => unexpected 10
{ .a || .b && .c } => { (.a || .b) && .c }
{ .a && .b || .c } => { (.a && .b) || .c }
{ .a || (.b && .c) } => { .a || (.b && .c) }
{ .a = 1 && .b = 2 } => { (.a = 1) && (.b = 2) }"#;

/// Spansets and stages.
const PIPELINES: &str = r#"{ } && { } => { } && { }
{ } || { } && { } => ({ } || { }) && { }
{ } > { } => { } > { }
{ } >> { } => { } >> { }
{ } < { } => { } < { }
{ } << { } => { } << { }
{ } ~ { } => { } ~ { }
{ } !> { } => { } !> { }
{ } !>> { } => { } !>> { }
{ } !< { } => { } !< { }
{ } !<< { } => { } !<< { }
{ } !~ { } => { } !~ { }
{ } &> { } => { } &> { }
{ } &>> { } => { } &>> { }
{ } &< { } => { } &< { }
{ } &<< { } => { } &<< { }
{ } &~ { } => { } &~ { }
{ } > { } << { } => ({ } > { }) << { }
{ .a = 1 } && { .b = 2 } >> { } => { .a = 1 } && ({ .b = 2 } >> { })
({ } && { }) >> { } => ({ } && { }) >> { }
(({ })) => { }
{ } | { 1 = 1 } => { } | { 1 = 1 }
{ } | { } => { } | { }
{ } | by(name) => { } | by (name)
{ } | by ( .a + 1 ) => { } | by (.a + 1)
{ } | coalesce() => { } | coalesce ()
{ } | select(.a) => { } | select (.a)
{ } | select(.a , name , span.b) => { } | select (.a , name , span.b)
{ } | count() > 1 => { } | count () > 1
{ } | avg(.a) = 1 => { } | avg (.a) = 1
{ } | min(.a) != 1 => { } | min (.a) != 1
{ } | max(.a) <= 1ms => { } | max (.a) <= 1000000ns
{ } | sum(.a) >= - 1 => { } | sum (.a) >= - 1
{ } | count() < -1s => { } | count () < - 1000000000ns
{ } | sum(.a / 2) > count() => { } | sum (.a / 2) > count ()
{ } | by(name) | coalesce() | { .a } => { } | by (name) | coalesce () | { .a }"#;

/// Refusals.
const REFUSALS: &str = r#" => unended 0
{ => unended 1
{ name => unended 6
{ name  => unended 7
{ } | => unended 5
{ } && => unended 6
{ } | by( => unended 9
{ 1 + => unended 5
{ ( => unended 3
} => unexpected 0
{ } } => unexpected 4
{ } { } => unexpected 4
{ } & { } => unexpected 4
{ ( } => unexpected 4
{ ) } => unexpected 2
{ 1 2 } => unexpected 4
{ 1 } ) => unexpected 6
{ by } => unexpected 2
{ } | 1 => unexpected 6
{ } | name => unexpected 6
{ } | by name => unexpected 9
{ } | by() => unexpected 9
{ } | coalesce(1) => unexpected 15
{ } | select() => unexpected 13
{ } | select(1) => unexpected 13
{ } | select(.a,) => unexpected 16
{ } | count => unended 11
{ } | count(1) > 1 => unexpected 12
{ } | count() => unended 13
{ } | count() > .a => unexpected 16
{ } | count() > - - 1 => unexpected 18
{ } | count() + 1 => unexpected 14
{ } | count() > 9223372036854775808 => number-range 16
{ } | select(9223372036854775808) => unexpected 13
{ } 9223372036854775808 => unexpected 4
{ "a => unended 2
{ `a => unended 2
{ } "a => unexpected 4
{ "a\x" } => bad-char 4
{ ."a => unended 3
$ => bad-char 0
{ 1 } $ => bad-char 6
{ $ => bad-char 2
{ }$ => bad-char 3
{9223372036854775808} => number-range 1
{}|count()>9223372036854775808 => number-range 11
{0.5} => fraction-literal 1
{}|count()>0.5 => fraction-literal 11
"a => unexpected 0
{"a => unended 1
{}|by("a => unended 6
{"\x"} => bad-char 2"#;

/// What the printed form settles: spaces, quotes, escapes, parentheses, units.
const PRINTED: &str = r#"{ true} => { true }
{5}|{5ns} => { 5 } | { 5ns }
{ 1h1m1.5us } => { 3660000001500ns }
{ 007 = .a } => { 7 = .a }
{ `a"b\` = "a\"b\\" } => { "a\"b\\" = "a\"b\\" }
{ "\n\r\t" } => { "\n\r\t" }
{ `é` != nil } => { "é" != nil }
{ .`a b` = span."a" } => { ."a b" = span.a }
{ resource.a-1:+*/%. = instrumentation."é" } => { resource.a-1:+*/%. = instrumentation.é }
{ ."a\"b" = ."{" || ."," = ."`" } => { (."a\"b" = ."{") || (."," = ."`") }
{ span:name = name } => { span:name = name }
{ -1 } => { - 1 }
{ !!.a } => { ! ! .a }
{ -(1+2) } => { - (1 + 2) }
{ -2^2 } => { - 2 ^ 2 }
{ -(2^2) } => { - (2 ^ 2) }
{ 2^-3^4 } => { 2 ^ (- 3 ^ 4) }
{ 1-2-3 } => { (1 - 2) - 3 }
{ 1-(2-3) } => { 1 - (2 - 3) }
{ 1+2*3/4%5 } => { 1 + (((2 * 3) / 4) % 5) }
{ (.a =~ "x") = !(name !~ `y`) } => { (.a =~ "x") = ! (name !~ "y") }
{ (1 < 2) =~ "x" } => { (1 < 2) =~ "x" }
{ error != ok } | { server <= client } => { error != ok } | { server <= client }
{ } > { } ~ { } => ({ } > { }) ~ { }
{ } > ({ } !~ { }) => { } > ({ } !~ { })
({ } || { }) &<< { } => ({ } || { }) &<< { }
{ } | by(1+2)|coalesce() => { } | by (1 + 2) | coalesce ()
{ } | select(.a,name,span."b c") => { } | select (.a , name , span."b c")
{ }|count()>-5 => { } | count () > - 5
{ } | max(.a *2)<=-1us => { } | max (.a * 2) <= - 1000ns
{ } | avg(-.a) = sum(!.b) => { } | avg (- .a) = sum (! .b)"#;

/// Every operator beside its neighbours without a space.
const NEIGHBOURS: &str = r#"{1<-1} => { 1 < - 1 }
{1<!1} => { 1 < ! 1 }
{(1)<(1)} => { 1 < 1 }
{1<=-1} => { 1 <= - 1 }
{1<=!1} => { 1 <= ! 1 }
{(1)<=(1)} => { 1 <= 1 }
{1>-1} => { 1 > - 1 }
{1>!1} => { 1 > ! 1 }
{(1)>(1)} => { 1 > 1 }
{1>=-1} => { 1 >= - 1 }
{1>=!1} => { 1 >= ! 1 }
{(1)>=(1)} => { 1 >= 1 }
{1=-1} => { 1 = - 1 }
{1=!1} => { 1 = ! 1 }
{(1)=(1)} => { 1 = 1 }
{1!=-1} => { 1 != - 1 }
{1!=!1} => { 1 != ! 1 }
{(1)!=(1)} => { 1 != 1 }
{1+-1} => { 1 + - 1 }
{1+!1} => { 1 + ! 1 }
{(1)+(1)} => { 1 + 1 }
{1--1} => { 1 - - 1 }
{1-!1} => { 1 - ! 1 }
{(1)-(1)} => { 1 - 1 }
{1*-1} => { 1 * - 1 }
{1*!1} => { 1 * ! 1 }
{(1)*(1)} => { 1 * 1 }
{1/-1} => { 1 / - 1 }
{1/!1} => { 1 / ! 1 }
{(1)/(1)} => { 1 / 1 }
{1%-1} => { 1 % - 1 }
{1%!1} => { 1 % ! 1 }
{(1)%(1)} => { 1 % 1 }
{1^-1} => { 1 ^ - 1 }
{1^!1} => { 1 ^ ! 1 }
{(1)^(1)} => { 1 ^ 1 }
{1&&-1} => { 1 && - 1 }
{1&&!1} => { 1 && ! 1 }
{(1)&&(1)} => { 1 && 1 }
{1||-1} => { 1 || - 1 }
{1||!1} => { 1 || ! 1 }
{(1)||(1)} => { 1 || 1 }
{--1} => { - - 1 }
{-!1} => { - ! 1 }
{-(1)} => { - 1 }
{!-1} => { ! - 1 }
{!!1} => { ! ! 1 }
{!(1)} => { ! 1 }
{1=~"a"} => { 1 =~ "a" }
{1!~"a"} => { 1 !~ "a" }
{1=~"a"=~"b"} => { (1 =~ "a") =~ "b" }
{1=~"a"="b"} => { (1 =~ "a") = "b" }
{1=~"a"&&1} => { (1 =~ "a") && 1 }
{1=~"a"<1} => { (1 =~ "a") < 1 }
{}>{} => { } > { }
({})>({}) => { } > { }
{}>>{} => { } >> { }
({})>>({}) => { } >> { }
{}<{} => { } < { }
({})<({}) => { } < { }
{}<<{} => { } << { }
({})<<({}) => { } << { }
{}~{} => { } ~ { }
({})~({}) => { } ~ { }
{}!>{} => { } !> { }
({})!>({}) => { } !> { }
{}!>>{} => { } !>> { }
({})!>>({}) => { } !>> { }
{}!<{} => { } !< { }
({})!<({}) => { } !< { }
{}!<<{} => { } !<< { }
({})!<<({}) => { } !<< { }
{}!~{} => { } !~ { }
({})!~({}) => { } !~ { }
{}&>{} => { } &> { }
({})&>({}) => { } &> { }
{}&>>{} => { } &>> { }
({})&>>({}) => { } &>> { }
{}&<{} => { } &< { }
({})&<({}) => { } &< { }
{}&<<{} => { } &<< { }
({})&<<({}) => { } &<< { }
{}&~{} => { } &~ { }
({})&~({}) => { } &~ { }
{}&&{} => { } && { }
({})&&({}) => { } && { }
{}||{} => { } || { }
({})||({}) => { } || { }
{}|{} => { } | { }
{}||{}|{} => { } || { } | { }
{}|count()>1 => { } | count () > 1
{}|count()>=-1 => { } | count () >= - 1
{}|count()=-1s => { } | count () = - 1000000000ns
{}|count()!=1 => { } | count () != 1
{}|count()<count() => { } | count () < count ()
{}|by(1)|by(2) => { } | by (1) | by (2)
{}|select(.a,.b) => { } | select (.a , .b)
{(1)(1)} => unexpected 4
{1(1)} => unexpected 2
{1<<1} => unexpected 2
{1>>1} => unexpected 2
{1<>1} => unexpected 3
{1><1} => unexpected 3
{1=<1} => unexpected 3
{1==1} => unexpected 3
{1<==1} => unexpected 4
{1>==1} => unexpected 4
{1!==1} => unexpected 4
{1=!=1} => unexpected 3
{1!!1} => unexpected 2
{1!1} => unexpected 2
{1~1} => unexpected 2
{1!>1} => unexpected 2
{1!<1} => unexpected 2
{1!>>1} => unexpected 2
{1!<<1} => unexpected 2
{1&>1} => unexpected 2
{1&<1} => unexpected 2
{1&>>1} => unexpected 2
{1&<<1} => unexpected 2
{1&~1} => unexpected 2
{1&1} => unexpected 2
{1|1} => unexpected 2
{1|||1} => unexpected 4
{1&&&1} => unexpected 4
{1&&&&1} => unexpected 4
{1||||1} => unexpected 4
{1&&||1} => unexpected 4
{1++1} => unexpected 3
{1**1} => unexpected 3
{1//1} => unexpected 3
{1%%1} => unexpected 3
{1^^1} => unexpected 3
{1+*1} => unexpected 3
{1*+1} => unexpected 3
{1,1} => unexpected 2
{+1} => unexpected 1
{*1} => unexpected 1
{=1} => unexpected 1
{1=} => unexpected 3
{1+} => unexpected 3
{-} => unexpected 2
{!} => unexpected 2
{()} => unexpected 2
{(} => unexpected 2
{)} => unexpected 1
{1=~-1} => unexpected 4
{1=~=1} => unexpected 4
{1!~~1} => unexpected 4
{1=~"a"+1} => unexpected 7
{1=~"a"^1} => unexpected 7
{1=~"a"(1)} => unexpected 7
({})({}) => unexpected 4
{}{} => unexpected 2
{}!{} => unexpected 2
{}&{} => unexpected 2
{}={} => unexpected 2
{}!={} => unexpected 2
{}>={} => unexpected 2
{}<={} => unexpected 2
{}=~{} => unexpected 2
{}>>>{} => unexpected 4
{}<<<{} => unexpected 4
{}><{} => unexpected 3
{}~~{} => unexpected 3
{}!>>>{} => unexpected 5
{}&>>>{} => unexpected 5
{}&&&{} => unexpected 4
{}&&&>{} => unexpected 4
{}|||{} => unexpected 4
{}+{} => unexpected 2
{}-{} => unexpected 2
{}*{} => unexpected 2
{}/{} => unexpected 2
{}%{} => unexpected 2
{}^{} => unexpected 2
{},{} => unexpected 2
{}){} => unexpected 2
{}||by(1) => unexpected 4
{}|{}||{} => unexpected 5
{}|{}>{} => unexpected 5
{}|count()>>1 => unexpected 10
{}|count()=~1 => unexpected 10
{}|count()+1 => unexpected 10
{}|count()--1 => unexpected 10
{}|count()>--1 => unexpected 12
{}|count()>!1 => unexpected 11
{}|select(,.a) => unexpected 10
{}|select(.a,,.b) => unexpected 13"#;

/// A refusal, and its offset or length.
fn refusal_at(error: ParseError) -> (&'static str, u64) {
    match error {
        ParseError::BadChar { at } => ("bad-char", at),
        ParseError::Unexpected { at } => ("unexpected", at),
        ParseError::Unended { at } => ("unended", at),
        ParseError::NumberRange { at } => ("number-range", at),
        ParseError::FractionLiteral { at } => ("fraction-literal", at),
        ParseError::TooLong { length } => ("too-long", length),
        ParseError::TooDeep { at } => ("too-deep", at),
        ParseError::Memory => ("memory", 0),
    }
}

/// The same as the tables write it.
pub fn refusal(alloc: Global, error: ParseError) -> Result<String, AllocError> {
    let (word, at) = refusal_at(error);
    format!(in alloc; "{word} {at}")
}

/// A text's query, printed, or why it is none.
fn outcome(alloc: Global, text: &str) -> Result<Text, Memory> {
    match parse(alloc, text) {
        Ok(query) => print_query(alloc, &query),
        Err(error) => Ok(Text::of(refusal(alloc, error)?)),
    }
}

/// Compares the printed form of a query's printed form with itself.
fn check_again(rt: &(impl Abort + AllocGlobal), text: &str) {
    if let Ok(query) = parse(rt.alloc(), text) {
        let read = read_back(rt.alloc(), &query).expect(rt, text);
        let again = print_query(rt.alloc(), &read).expect(rt, "memory");
        assert!(rt; again.as_str() == text, "{text}");
    }
}

/// Compares what a row's text is with what the row says. What is printed is printed again as itself.
fn check_row(rt: &(impl Abort + AllocGlobal), row: &str) {
    let (text, wanted) = row.split_once(" => ").expect(rt, row);
    let got = outcome(rt.alloc(), text).expect(rt, "memory");
    assert!(rt; got.as_str() == wanted, "{text} gives {}", got.as_str());
    check_again(rt, wanted);
}

static TABLES: [&str; 5] = [FIELDS, PIPELINES, REFUSALS, PRINTED, NEIGHBOURS];

#[test]
fn texts_are_read_and_printed_as_worked_out(rt: HostRuntime) {
    for table in &TABLES {
        for row in table.lines() {
            check_row(&rt, row);
        }
    }
    one_query();
    printed_once();
    depth_is_nesting();
}

/// The offset of the number or duration that the first stage of a query compares with, and whether it is negative.
fn threshold_of(query: &Query) -> Option<(u64, bool)> {
    match query.stages.as_slice().first() {
        Some(
            Stage::Compare {
                right: Threshold::Number { at, negative, .. }
                | Threshold::Duration { at, negative, .. },
                ..
            },
        ) => Some((*at, *negative)),
        _ => None,
    }
}

/// Texts, and what `threshold_of` gives.
static THRESHOLDS: [(&str, Option<(u64, bool)>); 4] = [
    ("{ } | count() > 12", Some((16, false))),
    ("{ } | count() > - 12", Some((18, true))),
    ("{ }|avg(duration)>=-5ms", Some((20, true))),
    ("{ } | count() > count()", None),
];

#[test]
fn thresholds_keep_their_offsets(rt: HostRuntime) {
    for (text, wanted) in &THRESHOLDS {
        let query = parse(rt.alloc(), text).expect(&rt, text);
        assert!(&rt; threshold_of(&query) == *wanted, "{text}");
    }
}

/// The text `before`, `part` so many times, and `after`; and what it is: its refusal, or nothing where it is a query.
static LIMITS: [(&str, &str, u64, &str, &str); 10] = [
    ("{ }", " ", MOST_QUERY_BYTES - 3, "", ""),
    ("{ }", " ", MOST_QUERY_BYTES - 2, "", "too-long 8193"),
    ("{ ", "(", 64, "1", "unended 67"),
    ("{ ", "(", 65, "", "too-deep 66"),
    ("{ ", "!", 64, "1 }", ""),
    ("{ 1", "^1", 64, " }", ""),
    ("{ 1", "^1", 65, " }", "too-deep 131"),
    ("{ } | by(", "-", 64, "1)", "too-deep 72"),
    ("", "(", 65, "", "too-deep 64"),
    ("{ 1", "+1", 4000, " }", ""),
];

/// Why a text is refused, or nothing.
fn told(alloc: Global, text: &str) -> Result<String, AllocError> {
    match parse(alloc, text) {
        Ok(_) => Ok(String::new(alloc)),
        Err(error) => refusal(alloc, error),
    }
}

#[test]
fn the_limits_hold(rt: HostRuntime) {
    for (before, part, times, after, wanted) in &LIMITS {
        let middle = part
            .repeat(rt.alloc(), *times as usize)
            .expect(&rt, "memory");
        let text = format!(in rt.alloc(); "{before}{middle}{after}").expect(&rt, "memory");
        let got = told(rt.alloc(), text.as_str()).expect(&rt, "memory");
        assert!(&rt;
            got.as_str() == *wanted,
            "{before}{part} {times} times gives {got}"
        );
    }
}

/// Whether a field is printed so.
fn is_printed(alloc: Global, field: &Field, wanted: &str) -> bool {
    match print_field(alloc, field) {
        Ok(text) => text.as_str() == wanted,
        Err(_) => false,
    }
}

#[test]
fn fields_are_printed_as_worked_out(rt: HostRuntime) {
    let name = String::from_str(rt.alloc(), "http status").expect(&rt, "memory");
    let field = Field::Attribute(AttributeScope::Resource, Text::of(name));
    assert!(&rt; is_printed(rt.alloc(), &field, "resource.\"http status\""));
    let parent = Field::Intrinsic(Intrinsic::SpanParentId);
    assert!(&rt; is_printed(rt.alloc(), &parent, "span:parentID"));
    let (status, kind) = (status_word(StatusCode::Fine), kind_word(SpanKind::Consumer));
    assert!(&rt; status.text() == "ok" && kind.text() == "consumer");
}
