//! Texts, and the metrics query that each is read as, or its refusal and the offset: worked out by hand.

use crate::queries::refusal;
use span_types::{Memory, Text};
use std::alloc::Global;
use traceql_parse::{one_metrics_query, parse_metrics};
use traceql_print::print_query;
use traceql_syntax::MetricsQuery;

/// A text; whether it asks for a rate; and the printed form of the query that is run, or the refusal.
static READ: [(&str, bool, &str); 17] = [
    ("{ } | rate()", true, "{ }"),
    ("{}|count_over_time()", false, "{ }"),
    ("{ } | rate() by (name)", true, "{ } | by (name)"),
    (
        "{ .a } > { } | by(.b) | coalesce() | count_over_time() by (.c + 1)",
        false,
        "{ .a } > { } | by (.b) | coalesce () | by (.c + 1)",
    ),
    ("{ }", false, "unended 3"),
    ("{ } | by(name)", false, "unended 14"),
    ("{ } | rate", false, "unended 10"),
    ("{ } | rate() by (name", false, "unended 21"),
    ("{ name | rate()", false, "unexpected 7"),
    ("{ rate = 1 } | rate()", false, "unexpected 2"),
    ("{ } | by(rate) | rate()", false, "unexpected 9"),
    ("{ } | rate() | by(name)", false, "unexpected 13"),
    ("{ } | rate(1)", false, "unexpected 11"),
    ("{ } | rate() by ()", false, "unexpected 17"),
    ("{ } rate()", false, "unexpected 4"),
    (
        "{ } | rate() by ((((((((((((((((((((((((((((((((((((((((((((((((((((((((((((((((",
        false,
        "unended 80",
    ),
    (
        "{ } | rate() by (((((((((((((((((((((((((((((((((((((((((((((((((((((((((((((((((",
        false,
        "too-deep 80",
    ),
];

/// Whether a text asks for a rate, and the printed form of the query that is run, or the refusal.
fn read(alloc: Global, text: &str) -> Result<(bool, Text), Memory> {
    match parse_metrics(alloc, text) {
        Ok(metrics) => Ok((metrics.rate, printed(alloc, metrics)?)),
        Err(error) => Ok((false, Text::of(refusal(alloc, error)?))),
    }
}

fn printed(alloc: Global, metrics: MetricsQuery) -> Result<Text, Memory> {
    print_query(alloc, &metrics.into_query()?)
}

#[test]
fn metrics_queries_are_read_as_worked_out(rt: HostRuntime) {
    one_metrics_query();
    for (text, rate, wanted) in &READ {
        let (is_rate, got) = read(rt.alloc(), text).expect(&rt, "memory");
        assert!(&rt;
            is_rate == *rate && got.as_str() == *wanted,
            "{text} gives {}",
            got.as_str()
        );
    }
}
