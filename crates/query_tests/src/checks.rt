//! Queries and what `check` answers, worked out by hand.

use span_types::Calls;
use std::alloc::{AllocError, Global};
use std::process::Abort;
use traceql_parse::parse;
use traceql_types::{
    PatternMaker, Patterns, RegexMaker, ScriptedMaker, TypeError, check, checked_crosses,
    patterns_in_order, refusals_are_counted,
};

/// A refusal and its place.
fn refusal_at(error: TypeError) -> (&'static str, u64) {
    match error {
        TypeError::KindClash { at } => ("kind-clash", at),
        TypeError::NotTruth { at } => ("not-truth", at),
        TypeError::DivisionInAggregate { at } => ("division", at),
        TypeError::NotNumber { at } => ("not-number", at),
        TypeError::BadPattern { at } => ("bad-pattern", at),
        TypeError::PatternTooBig { at } => ("too-big", at),
        TypeError::Memory => ("memory", 0),
    }
}

fn refusal(out: &mut String, error: TypeError) -> Result<(), AllocError> {
    let (word, at) = refusal_at(error);
    write!(out, "{word} {at}")
}

fn fine(out: &mut String, patterns: &Patterns) -> Result<(), AllocError> {
    out.push_str("fine")?;
    for pattern in patterns.as_slice() {
        write!(out, " {}", pattern.as_str())?;
    }
    Ok(())
}

/// What a query's check answers: the texts of its patterns, or the refusal and the place.
fn outcome<P: PatternMaker>(
    alloc: Global,
    text: &str,
    maker: &mut P,
) -> Result<String, AllocError> {
    let mut out = String::new(alloc);
    match parse(alloc, text) {
        Err(_) => out.push_str("no query")?,
        Ok(query) => match check(alloc, query, maker) {
            Ok(checked) => fine(&mut out, &checked.patterns)?,
            Err(error) => refusal(&mut out, error)?,
        },
    }
    Ok(out)
}

/// Compares what the check of a row's query answers with what the row says.
fn check_row<P: PatternMaker>(rt: &(impl Abort + AllocGlobal), row: &str, maker: &mut P) {
    let (text, wanted) = row.split_once(" => ").expect(rt, row);
    let got = outcome(rt.alloc(), text, maker).expect(rt, "memory");
    assert!(rt; got.as_str() == wanted, "{text} gives {got}");
}

const INTRINSICS: &str = r#"{ name = "a" && name = 1 } => kind-clash 21
{ span:name = "a" && span:name = 1 } => kind-clash 31
{ statusMessage = "a" && statusMessage = 1 } => kind-clash 39
{ span:statusMessage = "a" && span:statusMessage = 1 } => kind-clash 49
{ span:id = "a" && span:id = 1 } => kind-clash 27
{ trace:id = "a" && trace:id = 1 } => kind-clash 29
{ span:parentID = "a" && span:parentID = 1 } => kind-clash 39
{ rootName = "a" && rootName = 1 } => kind-clash 29
{ trace:rootName = "a" && trace:rootName = 1 } => kind-clash 41
{ rootServiceName = "a" && rootServiceName = 1 } => kind-clash 43
{ trace:rootService = "a" && trace:rootService = 1 } => kind-clash 47
{ instrumentation:name = "a" && instrumentation:name = 1 } => kind-clash 53
{ instrumentation:version = "a" && instrumentation:version = 1 } => kind-clash 59
{ duration = 1 && duration = "a" } => kind-clash 27
{ span:duration = 1 && span:duration = "a" } => kind-clash 37
{ traceDuration = 1 && traceDuration = "a" } => kind-clash 37
{ trace:duration = 1s && trace:duration = "a" } => kind-clash 40
{ status = ok && status = 1 } => kind-clash 24
{ span:status = unset && span:status = 1 } => kind-clash 37
{ kind = server && kind = 1 } => kind-clash 24
{ span:kind = internal && span:kind = 1 } => kind-clash 36
{ .a = 1 && .a = "a" && .a = true && .a = ok && .a = server && .a } => fine"#;

const COMPARISONS: &str = r#"{ } => fine
{ true = false } => fine
{ 2 ^ 3 ^ 2 = 512 } => fine
{ 1 < 1s && "a" <= "b" && .a > .b && .a >= 1 } => fine
{ name = 1 } => kind-clash 7
{ 1 != true } => kind-clash 4
{ status < 1 } => kind-clash 9
{ "a" <= duration } => kind-clash 6
{ kind > "a" } => kind-clash 7
{ ok >= server } => kind-clash 5
{ true = ok } => kind-clash 7
{ status = kind } => kind-clash 9
{ .a = 1 = 1 } => kind-clash 9
{ .a = 1 = (.b = 1) } => fine
{ true < false } => kind-clash 7
{ status <= error } => kind-clash 9
{ kind > client } => kind-clash 7
{ .a >= (.b = 1) } => kind-clash 5
{ unset < .a } => kind-clash 8
{ .a <= consumer } => kind-clash 5
{ .a = nil && nil != 1 && status = nil && (nil) = .a } => fine
{ nil = nil } => kind-clash 6
{ (nil) != (nil) } => kind-clash 8
{ nil < 1 } => kind-clash 6
{ .a <= nil } => kind-clash 5
{ nil > .a } => kind-clash 6
{ duration >= nil } => kind-clash 11
{ name =~ "a" && .a !~ `b|c` } => fine a b|c
{ 1 =~ "a" } => kind-clash 4
{ true !~ "a" } => kind-clash 7
{ status =~ "a" } => kind-clash 9
{ kind !~ "a" } => kind-clash 7
{ name =~ "a" !~ "b" } => kind-clash 14
{ nil =~ "a" } => kind-clash 2
{ (nil) !~ "a" } => kind-clash 3"#;

const OPERANDS: &str = r#"{ .a && ! .b || (.c = 1) } => fine
{ 1 } => not-truth 2
{ ("a") } => not-truth 2
{ duration + 1 } => not-truth 2
{ - .a } => not-truth 2
{ } && { status } => not-truth 9
{ } | { name } => not-truth 8
{ ! server } => not-truth 4
{ !(.a + 1) } => not-truth 3
{ 1 && true } => not-truth 2
{ .a && kind } => not-truth 8
{ 1s || .a } => not-truth 2
{ true || (1 + 1) } => not-truth 10
{ nil } => kind-clash 2
{ (nil) } => kind-clash 3
{ ! nil } => kind-clash 4
{ nil && .a } => kind-clash 2
{ .a || nil } => kind-clash 8
{ - 1 + .a * 2 - 1s % .b / .c ^ .d = duration } => fine
{ "a" + 1 = 1 } => not-number 2
{ 1 + ("a") = 1 } => not-number 6
{ true - 1 = 1 } => not-number 2
{ 1 - true = 1 } => not-number 6
{ status * 1 = 1 } => not-number 2
{ 1 * kind = 1 } => not-number 6
{ name / 1 = 1 } => not-number 2
{ .a / name = 1 } => not-number 7
{ (1 = 1) % 1 = 1 } => not-number 2
{ 1 % ! .a = 1 } => not-number 6
{ "a" ^ 1 = 1 } => not-number 2
{ 1 ^ 2 ^ "a" = 1 } => not-number 10
{ - (.a && .b) = 1 } => not-number 4
{ - nil = 1 } => kind-clash 4
{ nil + 1 = 1 } => kind-clash 2
{ 1 * (nil) = 1 } => kind-clash 7"#;

const STAGES: &str =
    r#"{ } | by(name) | by(.a / 2) | by(.a = nil) | select(.a , name) | coalesce() | count() > 1 => fine
{ } | sum(duration) > 1s | avg(.a) < min(.b * 2 - 1) | max(- .a) = -1 => fine
{ } | by(nil) => kind-clash 9
{ } | by("a" + 1) => not-number 9
{ } | avg(name) > 1 => not-number 10
{ } | min((.a = 1)) > 1 => not-number 10
{ } | max(ok) > 1 => not-number 10
{ } | sum(nil) > 1 => kind-clash 10
{ } | count() > sum(kind) => not-number 20
{ } | sum(.a / 2) > 1 => division 13
{ } | avg(- (.a / 2) + 1) > 1 => division 16
{ } | min(1 ^ (1 / 2 / 3)) > 1 => division 17
{ } | count() > max(.a * .b / 2) => division 28"#;

const SEVERAL: &str = r#"{ 1 && nil = nil } => not-truth 2
{ nil = nil && 1 } => kind-clash 6
{ name + 1 = "a" } => not-number 2
{ true = name + 1 } => kind-clash 7
{ "a" + 1 } => not-truth 2
{ nil + 1 } => kind-clash 2
{ - true } => not-truth 2
{ ! ! 1 = 1 } => not-truth 6
{ 1 } && { nil } => not-truth 2
{ } | sum("a" / 2) > 1 => not-number 10
{ } | sum(.a / "b") > 1 => division 13
{ } | sum((.a / 2 = 1)) > 1 => not-number 10
{ } | sum(.a / 2) > max(name) => division 13
{ } | max(name) > sum(.a / 2) => not-number 10
{ } | by("a" + 1) | { 1 } => not-number 9
{ name =~ "(" } => bad-pattern 10
{ name =~ "a)(b" } => bad-pattern 10
{ name =~ "(?x)a # c" } => bad-pattern 10
{ name =~ "a" && .b !~ "[" } => bad-pattern 23
{ name =~ "(" && .b !~ "[" } => bad-pattern 10
{ name =~ "(" && 1 } => bad-pattern 10
{ 1 && name =~ "(" } => not-truth 2
{ 1 =~ "(" } => kind-clash 4
{ name =~ "(" !~ "b" } => bad-pattern 10
{ name =~ "a" !~ "(" } => kind-clash 14
{ } | by(name =~ "*") | { 1 } => bad-pattern 17
{ } | sum(name =~ "(") > 1 => not-number 10"#;

static TABLES: [&str; 5] = [INTRINSICS, COMPARISONS, OPERANDS, STAGES, SEVERAL];

#[test]
fn queries_are_checked_as_worked_out(rt: HostRuntime) {
    let mut maker = RegexMaker::new(rt.alloc());
    for table in &TABLES {
        for row in table.lines() {
            check_row(&rt, row, &mut maker);
        }
    }
    checked_crosses();
    patterns_in_order();
    refusals_are_counted();
}

/// The calls to refuse, counted from 1; a query; what its check answers; and the maker's refusals afterwards.
static SCRIPTS: [(&[u64], &str, &str, u64); 8] = [
    (&[1], "{ name =~ \"a\" }", "too-big 10", 1),
    (&[2], "{ name =~ \"a\" }", "fine a", 0),
    (&[2], "{ name =~ \"a\" && .b !~ \"c\" }", "too-big 23", 1),
    (&[1, 2], "{ name =~ \"a\" && .b !~ \"c\" }", "too-big 10", 1),
    (&[1], "{ name =~ \"a\" && 1 }", "too-big 10", 1),
    (&[1], "{ 1 && name =~ \"a\" }", "not-truth 2", 0),
    (&[1], "{ name =~ \"(\" }", "too-big 10", 1),
    (
        &[2],
        "{ name =~ \"(\" && .b !~ \"c\" }",
        "bad-pattern 10",
        0,
    ),
];

/// What a query's check answers under a maker that refuses these calls, and how many it refused.
fn scripted(alloc: Global, refused: &[u64], text: &str) -> Result<(String, u64), AllocError> {
    let calls = Vec::from_slice(alloc, refused)?;
    let mut maker = ScriptedMaker::new(alloc, Calls::of(calls));
    let got = outcome(alloc, text, &mut maker)?;
    Ok((got, maker.refusals()))
}

#[test]
fn listed_calls_are_refused(rt: HostRuntime) {
    for (refused, text, wanted, refusals) in &SCRIPTS {
        let (got, counted) = scripted(rt.alloc(), refused, text).expect(&rt, "memory");
        assert!(&rt;
            got.as_str() == *wanted && counted == *refusals,
            "{text} gives {got}"
        );
    }
}

static MATCHED: [(&str, bool); 4] = [("a", true), ("bc", true), ("abc", false), ("", false)];

#[test]
fn patterns_match_whole_texts(rt: HostRuntime) {
    let mut maker = RegexMaker::new(rt.alloc());
    let pattern = maker.make("a|bc").expect(&rt, "a pattern");
    let mut matcher = pattern.matcher(rt.alloc()).expect(&rt, "memory");
    for (text, wanted) in &MATCHED {
        assert!(&rt; matcher.is_match(text) == *wanted, "{text}");
    }
    assert!(&rt; maker.refusals() == 0);
}

/// What the check of a query with a pattern under 260 brackets answers.
fn of_brackets<P: PatternMaker>(alloc: Global, maker: &mut P) -> Result<String, AllocError> {
    let (open, close) = ("(".repeat(alloc, 260)?, ")".repeat(alloc, 260)?);
    let text = format!(in alloc; "{{ name =~ `{open}a{close}` }}")?;
    outcome(alloc, text.as_str(), maker)
}

#[test]
fn large_and_deep_patterns_are_refused(rt: HostRuntime) {
    let mut maker = RegexMaker::new(rt.alloc());
    check_row(
        &rt,
        "{ .a && name !~ `(\\w{200}){200}` } => too-big 16",
        &mut maker,
    );
    assert!(&rt; maker.refusals() == 1);
    let deep = of_brackets(rt.alloc(), &mut maker).expect(&rt, "memory");
    assert!(&rt; deep.as_str() == "bad-pattern 10");
    assert!(&rt; maker.refusals() == 1);
}
