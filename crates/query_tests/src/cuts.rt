//! Queries that are cut after each byte: whether what is left is a query, or why and where it is refused. Worked out by hand.

use crate::queries::refusal;
use std::alloc::{AllocError, Global};
use std::process::Abort;
use std::str;
use traceql_parse::parse;

/// The first and the last length of which a text is answered this: that it is a query, or a refusal with its offset. Where none is given
/// the offset is the length.
type Run = (usize, usize, &'static str);

const READ: &str = "query";

const ENDS: &str = "unended";

/// A condition: a name that is missing, strings and words that don't end, a number whose unit is missing.
const CONDITIONS: &str = r#"{ .a = "x\n" && duration > 1.5ms }"#;

const IN_CONDITIONS: &[Run] = &[
    (0, 2, ENDS),
    (3, 3, "unexpected 2"),
    (4, 7, ENDS),
    (8, 11, "unended 7"),
    (12, 13, ENDS),
    (14, 14, "unexpected 13"),
    (15, 16, ENDS),
    (17, 23, "bad-char 16"),
    (24, 28, ENDS),
    (29, 29, "unexpected 28"),
    // `1.5` alone is a fraction, and `1.5m` a minute and a half.
    (30, 30, "fraction-literal 27"),
    (31, 33, ENDS),
    (34, 34, READ),
];

/// Spansets and stages: a query ends after each stage, and after a number that needs no unit.
const STAGES: &str = "({ } &>> { .b }) | by(kind) | max(-.c) <= -2h | select(status)";

const IN_STAGES: &[Run] = &[
    (0, 5, ENDS),
    (6, 6, "unexpected 5"),
    (7, 11, ENDS),
    (12, 12, "unexpected 11"),
    (13, 15, ENDS),
    (16, 17, READ),
    (18, 19, ENDS),
    (20, 20, "bad-char 19"),
    (21, 22, ENDS),
    (23, 25, "bad-char 22"),
    (26, 26, ENDS),
    (27, 28, READ),
    (29, 30, ENDS),
    (31, 32, "bad-char 30"),
    (33, 35, ENDS),
    (36, 36, "unexpected 35"),
    (37, 43, ENDS),
    (44, 46, READ),
    (47, 48, ENDS),
    (49, 53, "bad-char 48"),
    (54, 55, ENDS),
    (56, 60, "bad-char 55"),
    (61, 61, ENDS),
    (62, 62, READ),
];

/// Without spaces: signs of one byte that go on, names in quotes, and parts of a duration that only together are whole.
const TIGHT: &str = "{span.\"a b\"=`c`}!~{nil!=0.5ns0.5ns}";

const IN_TIGHT: &[Run] = &[
    (0, 1, ENDS),
    (2, 5, "bad-char 1"),
    (6, 6, "unexpected 1"),
    (7, 10, "unended 6"),
    (11, 12, ENDS),
    (13, 14, "unended 12"),
    (15, 15, ENDS),
    (16, 16, READ),
    (17, 17, "unexpected 16"),
    (18, 19, ENDS),
    (20, 21, "bad-char 19"),
    (22, 22, ENDS),
    (23, 23, "unexpected 22"),
    (24, 25, ENDS),
    (26, 26, "unexpected 25"),
    (27, 33, "fraction-literal 24"),
    (34, 34, ENDS),
    (35, 35, READ),
];

/// A fraction without a unit, and one with a unit.
const FRACTION: &str = "{ .v = 0.5 }";

const IN_FRACTION: &[Run] = &[
    (0, 2, ENDS),
    (3, 3, "unexpected 2"),
    (4, 8, ENDS),
    (9, 9, "unexpected 8"),
    (10, 12, "fraction-literal 7"),
];

const DURATION: &str = "{ duration > 1.5s }";

const IN_DURATION: &[Run] = &[
    (0, 2, ENDS),
    (3, 9, "bad-char 2"),
    (10, 14, ENDS),
    (15, 15, "unexpected 14"),
    (16, 16, "fraction-literal 13"),
    (17, 18, ENDS),
    (19, 19, READ),
];

/// Signs of two bytes, of which the first one alone can't stand there.
const TRUTHS: &str = "{ .a || .b && .c }";

const IN_TRUTHS: &[Run] = &[
    (0, 2, ENDS),
    (3, 3, "unexpected 2"),
    (4, 5, ENDS),
    (6, 6, "unexpected 5"),
    (7, 8, ENDS),
    (9, 9, "unexpected 8"),
    (10, 11, ENDS),
    (12, 12, "unexpected 11"),
    (13, 14, ENDS),
    (15, 15, "unexpected 14"),
    (16, 17, ENDS),
    (18, 18, READ),
];

/// Whole they are queries, which a check of patterns and kinds refuses.
const PATTERN: &str = r#"{ name =~ "a)(b" }"#;

const IN_PATTERN: &[Run] = &[
    (0, 2, ENDS),
    (3, 5, "bad-char 2"),
    (6, 10, ENDS),
    (11, 15, "unended 10"),
    (16, 17, ENDS),
    (18, 18, READ),
];

const CLASH: &str = "{ name = 1 }";

const IN_CLASH: &[Run] = &[
    (0, 2, ENDS),
    (3, 5, "bad-char 2"),
    (6, 11, ENDS),
    (12, 12, READ),
];

/// 65 parentheses, one more than may be open.
const DEEP: &str = "{ (((((((((((((((((((((((((((((((((((((((((((((((((((((((((((((((((";

const IN_DEEP: &[Run] = &[(0, 66, ENDS), (67, 67, "too-deep 66")];

static TEXTS: [(&str, &[Run]); 9] = [
    (CONDITIONS, IN_CONDITIONS),
    (STAGES, IN_STAGES),
    (TIGHT, IN_TIGHT),
    (FRACTION, IN_FRACTION),
    (DURATION, IN_DURATION),
    (TRUTHS, IN_TRUTHS),
    (PATTERN, IN_PATTERN),
    (CLASH, IN_CLASH),
    (DEEP, IN_DEEP),
];

/// What a text is answered.
fn told(alloc: Global, text: &str) -> Result<String, AllocError> {
    match parse(alloc, text) {
        Ok(_) => String::from_str(alloc, READ),
        Err(error) => refusal(alloc, error),
    }
}

/// What a run says of this length.
fn wanted(alloc: Global, run: &Run, length: usize) -> Result<String, AllocError> {
    if run.2 == ENDS {
        return format!(in alloc; "unended {length}");
    }
    String::from_str(alloc, run.2)
}

/// Compares what the first bytes of a text are answered with what a run says.
fn check_cut(rt: &(impl Abort + AllocGlobal), text: &str, run: &Run, length: usize) {
    let bytes = text.as_bytes().get(..length).expect(rt, text);
    let cut = str::from_utf8(bytes).expect(rt, text);
    let wanted = wanted(rt.alloc(), run, length).expect(rt, "memory");
    let got = told(rt.alloc(), cut).expect(rt, "memory");
    assert!(rt;
        got.as_str() == wanted.as_str(),
        "{cut} gives {}",
        got.as_str()
    );
}

/// Compares the answers of all lengths of a text: the runs have each of them once.
fn check_text(rt: &(impl Abort + AllocGlobal), text: &str, runs: &[Run]) {
    let mut next = 0;
    for run in runs {
        assert!(rt; run.0 == next && run.1 < usize::MAX, "{text} at {next}");
        for length in run.0..=run.1 {
            check_cut(rt, text, run, length);
        }
        next = run.1 + 1;
    }
    assert!(rt; next == text.len().saturating_add(1), "{text}");
}

#[test]
fn texts_are_cut_after_each_byte(rt: HostRuntime) {
    for (text, runs) in &TEXTS {
        check_text(&rt, text, runs);
    }
}
