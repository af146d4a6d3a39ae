//! The tokens of texts, worked out by hand.

use std::alloc::{AllocError, Global};
use std::process::Abort;
use traceql_tokens::{
    Class, Fault, TimeUnit, Token, TokenKind, Tokens, metrics_tokens, one_reading, printed_tokens,
    tokens,
};

/// Texts and their tokens.
static ROWS: [(&str, &str); 74] = [
    ("", ""),
    (" \t\r\n", ""),
    ("{ }", "0:{ 2:}"),
    ("{}", "0:{ 1:}"),
    ("\u{b}", "0:unknown"),
    ("foo", "0:unknown"),
    ("{ foo }", "0:{ 2:unknown"),
    ("names", "0:name 4:unknown"),
    ("nameserver", "0:name 4:server"),
    (
        "status statusMessage status.x",
        "0:status 7:statusMessage 21:status 27:.[x]",
    ),
    (
        "span:status=span:statusMessage",
        "0:span:status 11:= 12:span:statusMessage",
    ),
    ("span :name", "0:unknown"),
    (
        "trace:rootService rootServiceName",
        "0:trace:rootService 18:rootServiceName",
    ),
    (
        "instrumentation:version internal",
        "0:instrumentation:version 24:internal",
    ),
    ("count_over_time", "0:count 5:unknown"),
    ("okunset", "0:ok 2:unset"),
    (".a-1", "0:.[a-1]"),
    (".a+.b", "0:.[a+.b]"),
    (".a.b:c/d%e*f", "0:.[a.b:c/d%e*f]"),
    ("{ .a<<1 }", "0:{ 2:.[a] 4:<< 6:1 8:}"),
    (
        "span.http.status_code=200",
        "0:span.[http.status_code] 21:= 22:200",
    ),
    ("resource.service.name", "0:resource.[service.name]"),
    ("instrumentation.x", "0:instrumentation.[x]"),
    (".\"a b\".c", "0:.[a b] 6:.[c]"),
    (".`a\"b`", "0:.[a\"b]"),
    (".a\"b\"", "0:.[a] 2:'b'"),
    (".é!=nil", "0:.[é] 3:!= 5:nil"),
    (".", "0:nameless"),
    (". a", "0:nameless 2:unknown"),
    ("span.\"\" .``", "0:nameless 8:nameless"),
    ("parent.x", "0:unknown"),
    ("\"\"", "0:''"),
    ("\"a\\\"b\\\\\"", "0:'a\"b\\'"),
    ("`a\\nb`", "0:'a\\nb'"),
    ("\"a\\nb\\r\\t\" 1", "0:'a\nb\r\t' 11:1"),
    ("\"abc", "0:Quoted/Unended { at: 0 }"),
    ("  `abc\"", "2:Quoted/Unended { at: 2 }"),
    ("\"abc\\", "0:Quoted/Unended { at: 0 }"),
    ("\"a\\q b\" by", "0:Quoted/UnknownEscape { at: 2 } 8:by"),
    ("\"a\\é\" by", "0:Quoted/UnknownEscape { at: 2 } 7:by"),
    ("\"a\\q", "0:Quoted/Unended { at: 0 }"),
    ("span.\"a\\x\"", "0:Attribute/UnknownEscape { at: 7 }"),
    ("1 .\"a", "0:1 2:Attribute/Unended { at: 3 }"),
    ("1.5s", "0:1500000000ns"),
    ("1s5", "0:1000000000ns 2:5"),
    ("0.5ns0.5ns", "0:1ns"),
    ("0.5ns", "0:Duration/FractionLiteral"),
    ("1h2m3s4ms5us6ns", "0:3723004005006ns"),
    ("2m5msx", "0:120005000000ns 5:unknown"),
    ("0.5", "0:Number/FractionLiteral"),
    ("1.5.5", "0:Number/FractionLiteral 3:.[5]"),
    ("1. 2", "0:1 1:nameless 3:2"),
    ("007", "0:7"),
    ("9223372036854775807", "0:9223372036854775807"),
    ("9223372036854775808", "0:Number/NumberRange"),
    ("9223372036854775808.5", "0:Number/FractionLiteral"),
    ("9223372036854775807ns", "0:9223372036854775807ns"),
    ("9223372036854775807.5ns0.5ns", "0:Duration/NumberRange"),
    ("9223372036854775807.5ns", "0:Duration/FractionLiteral"),
    ("9223372036854775808.5ns", "0:Duration/NumberRange"),
    ("2562047h47m16.854775807s", "0:9223372036854775807ns"),
    ("2562047h47m16.854775808s", "0:Duration/NumberRange"),
    (
        "0.00000000000027777777777777h",
        "0:Duration/FractionLiteral",
    ),
    (
        "0.000000000000025h0.00000000001m",
        "0:Duration/FractionLiteral",
    ),
    ("-1", "0:- 1:1"),
    ("&&&", "0:&& 2:&"),
    ("!>>>!>!", "0:!>> 3:> 4:!> 6:!"),
    ("&>>&>&<<&<&~& &", "0:&>> 3:&> 5:&<< 8:&< 10:&~ 12:& 14:&"),
    ("=~!~~<=>=<>=", "0:=~ 2:!~ 4:~ 5:<= 7:>= 9:< 10:>="),
    (
        "+-*/%^,()|||",
        "0:+ 1:- 2:* 3:/ 4:% 5:^ 6:, 7:( 8:) 9:|| 11:|",
    ),
    (
        "{ .v = 0.5 }",
        "0:{ 2:.[v] 5:= 7:Number/FractionLiteral 11:}",
    ),
    ("{ name =~ \"a)(b\" }", "0:{ 2:name 7:=~ 10:'a)(b' 17:}"),
    (
        "{ name = 1 } | by(.a) | count() > 2",
        "0:{ 2:name 7:= 9:1 11:} 13:| 15:by 17:( 18:.[a] 20:) 22:| 24:count 29:( 30:) 32:> 34:2",
    ),
    (
        "truefalse error|server",
        "0:true 4:false 10:error 15:| 16:server",
    ),
];

/// Texts and their tokens in a metrics query.
static METRICS: [(&str, &str); 7] = [
    ("rate", "0:rate"),
    ("ratex", "0:rate 4:unknown"),
    (".rate", "0:.[rate]"),
    ("{ } | rate.x()", "0:{ 2:} 4:| 6:rate 10:.[x] 12:( 13:)"),
    ("count_over_time()", "0:count_over_time 15:( 16:)"),
    ("count()", "0:count 5:( 6:)"),
    ("count_over", "0:count 5:unknown"),
];

/// Adds a number and its unit.
fn add_number(told: &mut String, number: u64, unit: &str) -> Result<(), AllocError> {
    write!(told, "{number}{unit}")
}

/// Adds a text and what stands before and after it.
fn add_text(told: &mut String, front: &str, text: &str, back: &str) -> Result<(), AllocError> {
    write!(told, "{front}{text}{back}")
}

/// Adds a name and its scope.
fn add_name(told: &mut String, scope: &str, name: &str) -> Result<(), AllocError> {
    write!(told, "{scope}[{name}]")
}

/// Adds why a token is broken.
fn add_fault(told: &mut String, class: Class, fault: Fault) -> Result<(), AllocError> {
    write!(told, "{class:?}/{fault:?}")
}

/// Adds a token as one word of the table: its place, and its class with its text or value.
fn add(told: &mut String, token: &Token) -> Result<(), AllocError> {
    add_number(told, token.at, ":")?;
    match &token.kind {
        TokenKind::Mark(sign) => told.push_str(sign.text()),
        TokenKind::Keyword(word) => told.push_str(word.text()),
        TokenKind::Builtin(intrinsic) => told.push_str(intrinsic.text()),
        TokenKind::Named(scope, name) => add_name(told, scope.text(), name.as_str()),
        TokenKind::Quoted(value) => add_text(told, "'", value.as_str(), "'"),
        TokenKind::Number(number) => add_number(told, *number, ""),
        TokenKind::Duration(nanos) => add_number(told, *nanos, "ns"),
        TokenKind::Broken(class, fault) => add_fault(told, *class, *fault),
        TokenKind::Nameless => told.push_str("nameless"),
        TokenKind::Unknown => told.push_str("unknown"),
    }
}

/// Tokens with a space between each two.
fn listed(alloc: Global, found: &Tokens) -> Result<String, AllocError> {
    let mut told = String::new(alloc);
    for (i, token) in found.as_slice().iter().enumerate() {
        told.push_str(if i == 0 { "" } else { " " })?;
        add(&mut told, token)?;
    }
    Ok(told)
}

/// Compares a text's tokens with what its row says.
fn check(rt: &(impl Abort + AllocGlobal), text: &str, found: &Tokens, wanted: &str) {
    let got = listed(rt.alloc(), found).expect(rt, "memory");
    assert!(rt; got.as_str() == wanted, "{text} gives {got}");
}

#[test]
fn texts_have_the_tokens_that_hands_found(rt: HostRuntime) {
    for (text, wanted) in &ROWS {
        let found = tokens(rt.alloc(), text).expect(&rt, "memory");
        check(&rt, text, &found, wanted);
    }
    assert!(&rt; TimeUnit::Millis.nanos() == 1_000_000);
    one_reading();
    printed_tokens();
}

#[test]
fn metrics_have_the_tokens_that_hands_found(rt: HostRuntime) {
    for (text, wanted) in &METRICS {
        let found = metrics_tokens(rt.alloc(), text).expect(&rt, "memory");
        check(&rt, text, &found, wanted);
    }
}
