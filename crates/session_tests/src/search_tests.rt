//! Whole sessions with searches, with their exact bytes.

use crate::run_tests::{check, session};
use disk_model::MemDisk;
use io_edges::{FixedClock, MemSink, OpenGate};
use run_support::{Ended, FINE, all_words, calls, run, source_of};
use span_types::Moments;
use traceql_types::ScriptedMaker;

/// Two traces that start together: the one of the lesser id comes first, and one is asked for.
const RANKED: (&str, &str) = (
    r#"search { }
push {"resourceSpans":[{"scopeSpans":[{"spans":[{"traceId":"000000000000000000000000000000a2","spanId":"00000000000000b1","parentSpanId":"","name":"x","startTimeUnixNano":"5","endTimeUnixNano":"9"},{"traceId":"000000000000000000000000000000a1","spanId":"00000000000000b1","parentSpanId":"","name":"x","startTimeUnixNano":"5","endTimeUnixNano":"9"}]}]}]}
search limit=1 { }
search spss=1 { }
"#,
    r#"ok search as_of=0 traces=0 {"traces":[]}
ok push 0 accepted=2 rejected=0 skipped=0
ok search as_of=1 traces=1 {"traces":[{"durationNanos":"4","rootName":"x","rootService":null,"spanSets":[{"by":[],"matched":1,"spans":[{"attributes":[],"durationNanos":"4","name":"x","spanId":"00000000000000b1","startTimeUnixNano":"5"}]}],"startTimeUnixNano":"5","traceId":"000000000000000000000000000000a1"}]}
ok search as_of=1 traces=2 {"traces":[{"durationNanos":"4","rootName":"x","rootService":null,"spanSets":[{"by":[],"matched":1,"spans":[{"attributes":[],"durationNanos":"4","name":"x","spanId":"00000000000000b1","startTimeUnixNano":"5"}]}],"startTimeUnixNano":"5","traceId":"000000000000000000000000000000a1"},{"durationNanos":"4","rootName":"x","rootService":null,"spanSets":[{"by":[],"matched":1,"spans":[{"attributes":[],"durationNanos":"4","name":"x","spanId":"00000000000000b1","startTimeUnixNano":"5"}]}],"startTimeUnixNano":"5","traceId":"000000000000000000000000000000a2"}]}
"#,
);

/// An attribute that is missing or of another kind, and patterns of whole names.
const MISSING: (&str, &str) = (
    r#"push {"resourceSpans":[{"scopeSpans":[{"spans":[{"traceId":"000000000000000000000000000000a1","spanId":"00000000000000b1","parentSpanId":"","name":"p","startTimeUnixNano":"1","endTimeUnixNano":"2"},{"traceId":"000000000000000000000000000000a1","spanId":"00000000000000b2","parentSpanId":"","name":"q","startTimeUnixNano":"1","endTimeUnixNano":"2","attributes":[{"key":"v","value":{"intValue":"1"}}]}]}]}]}
search { .v != "a" }
search { .v = nil }
search { .v != nil }
search { name =~ "p|q" }
search { name !~ "p.*" }
search { 1 / 0 = nil }
search { 2 ^ -1 = nil }
"#,
    r#"ok push 0 accepted=2 rejected=0 skipped=0
ok search as_of=1 traces=0 {"traces":[]}
ok search as_of=1 traces=1 {"traces":[{"durationNanos":"1","rootName":"p","rootService":null,"spanSets":[{"by":[],"matched":1,"spans":[{"attributes":[],"durationNanos":"1","name":"p","spanId":"00000000000000b1","startTimeUnixNano":"1"}]}],"startTimeUnixNano":"1","traceId":"000000000000000000000000000000a1"}]}
ok search as_of=1 traces=1 {"traces":[{"durationNanos":"1","rootName":"p","rootService":null,"spanSets":[{"by":[],"matched":1,"spans":[{"attributes":[],"durationNanos":"1","name":"q","spanId":"00000000000000b2","startTimeUnixNano":"1"}]}],"startTimeUnixNano":"1","traceId":"000000000000000000000000000000a1"}]}
ok search as_of=1 traces=1 {"traces":[{"durationNanos":"1","rootName":"p","rootService":null,"spanSets":[{"by":[],"matched":2,"spans":[{"attributes":[],"durationNanos":"1","name":"p","spanId":"00000000000000b1","startTimeUnixNano":"1"},{"attributes":[],"durationNanos":"1","name":"q","spanId":"00000000000000b2","startTimeUnixNano":"1"}]}],"startTimeUnixNano":"1","traceId":"000000000000000000000000000000a1"}]}
ok search as_of=1 traces=1 {"traces":[{"durationNanos":"1","rootName":"p","rootService":null,"spanSets":[{"by":[],"matched":1,"spans":[{"attributes":[],"durationNanos":"1","name":"q","spanId":"00000000000000b2","startTimeUnixNano":"1"}]}],"startTimeUnixNano":"1","traceId":"000000000000000000000000000000a1"}]}
ok search as_of=1 traces=1 {"traces":[{"durationNanos":"1","rootName":"p","rootService":null,"spanSets":[{"by":[],"matched":2,"spans":[{"attributes":[],"durationNanos":"1","name":"p","spanId":"00000000000000b1","startTimeUnixNano":"1"},{"attributes":[],"durationNanos":"1","name":"q","spanId":"00000000000000b2","startTimeUnixNano":"1"}]}],"startTimeUnixNano":"1","traceId":"000000000000000000000000000000a1"}]}
ok search as_of=1 traces=1 {"traces":[{"durationNanos":"1","rootName":"p","rootService":null,"spanSets":[{"by":[],"matched":2,"spans":[{"attributes":[],"durationNanos":"1","name":"p","spanId":"00000000000000b1","startTimeUnixNano":"1"},{"attributes":[],"durationNanos":"1","name":"q","spanId":"00000000000000b2","startTimeUnixNano":"1"}]}],"startTimeUnixNano":"1","traceId":"000000000000000000000000000000a1"}]}
"#,
);

/// A ring of two spans, and a span that is its own parent.
const RINGS: (&str, &str) = (
    r#"push {"resourceSpans":[{"scopeSpans":[{"spans":[{"traceId":"000000000000000000000000000000a1","spanId":"00000000000000b1","parentSpanId":"00000000000000b2","name":"p","startTimeUnixNano":"1","endTimeUnixNano":"2"},{"traceId":"000000000000000000000000000000a1","spanId":"00000000000000b2","parentSpanId":"00000000000000b1","name":"q","startTimeUnixNano":"1","endTimeUnixNano":"2"},{"traceId":"000000000000000000000000000000a1","spanId":"00000000000000b3","parentSpanId":"00000000000000b3","name":"r","startTimeUnixNano":"1","endTimeUnixNano":"2"}]}]}]}
search { name = "p" } >> { }
search { name = "r" } << { }
search { name = "p" } !>> { }
search { name = "r" } ~ { }
search { name = "q" } < { }
search { } &> { name = "r" }
"#,
    r#"ok push 0 accepted=3 rejected=0 skipped=0
ok search as_of=1 traces=1 {"traces":[{"durationNanos":"1","rootName":null,"rootService":null,"spanSets":[{"by":[],"matched":2,"spans":[{"attributes":[],"durationNanos":"1","name":"p","spanId":"00000000000000b1","startTimeUnixNano":"1"},{"attributes":[],"durationNanos":"1","name":"q","spanId":"00000000000000b2","startTimeUnixNano":"1"}]}],"startTimeUnixNano":"1","traceId":"000000000000000000000000000000a1"}]}
ok search as_of=1 traces=1 {"traces":[{"durationNanos":"1","rootName":null,"rootService":null,"spanSets":[{"by":[],"matched":1,"spans":[{"attributes":[],"durationNanos":"1","name":"r","spanId":"00000000000000b3","startTimeUnixNano":"1"}]}],"startTimeUnixNano":"1","traceId":"000000000000000000000000000000a1"}]}
ok search as_of=1 traces=1 {"traces":[{"durationNanos":"1","rootName":null,"rootService":null,"spanSets":[{"by":[],"matched":1,"spans":[{"attributes":[],"durationNanos":"1","name":"r","spanId":"00000000000000b3","startTimeUnixNano":"1"}]}],"startTimeUnixNano":"1","traceId":"000000000000000000000000000000a1"}]}
ok search as_of=1 traces=0 {"traces":[]}
ok search as_of=1 traces=1 {"traces":[{"durationNanos":"1","rootName":null,"rootService":null,"spanSets":[{"by":[],"matched":1,"spans":[{"attributes":[],"durationNanos":"1","name":"p","spanId":"00000000000000b1","startTimeUnixNano":"1"}]}],"startTimeUnixNano":"1","traceId":"000000000000000000000000000000a1"}]}
ok search as_of=1 traces=1 {"traces":[{"durationNanos":"1","rootName":null,"rootService":null,"spanSets":[{"by":[],"matched":1,"spans":[{"attributes":[],"durationNanos":"1","name":"r","spanId":"00000000000000b3","startTimeUnixNano":"1"}]}],"startTimeUnixNano":"1","traceId":"000000000000000000000000000000a1"}]}
"#,
);

/// Averages are exact, a spanset tells how many spans it has where fewer are shown, ranges pick traces, and a limit of
/// 0 is refused.
const AVERAGES: (&str, &str) = (
    r#"push {"resourceSpans":[{"scopeSpans":[{"spans":[{"traceId":"000000000000000000000000000000a1","spanId":"00000000000000b1","parentSpanId":"","name":"p","startTimeUnixNano":"1","endTimeUnixNano":"2","attributes":[{"key":"v","value":{"intValue":"1"}}]},{"traceId":"000000000000000000000000000000a1","spanId":"00000000000000b2","parentSpanId":"","name":"q","startTimeUnixNano":"1","endTimeUnixNano":"2","attributes":[{"key":"v","value":{"intValue":"2"}}]}]}]}]}
search { } | avg(.v) = 1
search { } | avg(.v) > 1
search { } | avg(.v) = avg(.v)
search { } | count() = 0
search spss=1 { }
search start=1970-01-01T00:00:00.000000001Z end=2 { }
search start=1 end=2 { }
search start=2 { }
search limit=0 { }
"#,
    r#"ok push 0 accepted=2 rejected=0 skipped=0
ok search as_of=1 traces=0 {"traces":[]}
ok search as_of=1 traces=1 {"traces":[{"durationNanos":"1","rootName":"p","rootService":null,"spanSets":[{"by":[],"matched":2,"spans":[{"attributes":[],"durationNanos":"1","name":"p","spanId":"00000000000000b1","startTimeUnixNano":"1"},{"attributes":[],"durationNanos":"1","name":"q","spanId":"00000000000000b2","startTimeUnixNano":"1"}]}],"startTimeUnixNano":"1","traceId":"000000000000000000000000000000a1"}]}
ok search as_of=1 traces=1 {"traces":[{"durationNanos":"1","rootName":"p","rootService":null,"spanSets":[{"by":[],"matched":2,"spans":[{"attributes":[],"durationNanos":"1","name":"p","spanId":"00000000000000b1","startTimeUnixNano":"1"},{"attributes":[],"durationNanos":"1","name":"q","spanId":"00000000000000b2","startTimeUnixNano":"1"}]}],"startTimeUnixNano":"1","traceId":"000000000000000000000000000000a1"}]}
ok search as_of=1 traces=0 {"traces":[]}
ok search as_of=1 traces=1 {"traces":[{"durationNanos":"1","rootName":"p","rootService":null,"spanSets":[{"by":[],"matched":2,"spans":[{"attributes":[],"durationNanos":"1","name":"p","spanId":"00000000000000b1","startTimeUnixNano":"1"}]}],"startTimeUnixNano":"1","traceId":"000000000000000000000000000000a1"}]}
ok search as_of=1 traces=1 {"traces":[{"durationNanos":"1","rootName":"p","rootService":null,"spanSets":[{"by":[],"matched":2,"spans":[{"attributes":[],"durationNanos":"1","name":"p","spanId":"00000000000000b1","startTimeUnixNano":"1"},{"attributes":[],"durationNanos":"1","name":"q","spanId":"00000000000000b2","startTimeUnixNano":"1"}]}],"startTimeUnixNano":"1","traceId":"000000000000000000000000000000a1"}]}
ok search as_of=1 traces=1 {"traces":[{"durationNanos":"1","rootName":"p","rootService":null,"spanSets":[{"by":[],"matched":2,"spans":[{"attributes":[],"durationNanos":"1","name":"p","spanId":"00000000000000b1","startTimeUnixNano":"1"},{"attributes":[],"durationNanos":"1","name":"q","spanId":"00000000000000b2","startTimeUnixNano":"1"}]}],"startTimeUnixNano":"1","traceId":"000000000000000000000000000000a1"}]}
ok search as_of=1 traces=0 {"traces":[]}
refused bad-request at=7
"#,
);

/// A sum that 64 bits do not hold.
const SUMS: (&str, &str) = (
    r#"push {"resourceSpans":[{"scopeSpans":[{"spans":[{"traceId":"000000000000000000000000000000a1","spanId":"00000000000000b1","parentSpanId":"","name":"p","startTimeUnixNano":"1","endTimeUnixNano":"2","attributes":[{"key":"v","value":{"intValue":"9223372036854775807"}}]},{"traceId":"000000000000000000000000000000a1","spanId":"00000000000000b2","parentSpanId":"","name":"q","startTimeUnixNano":"1","endTimeUnixNano":"2","attributes":[{"key":"v","value":{"intValue":"9223372036854775807"}}]}]}]}]}
search { } | sum(.v) > 9223372036854775807
"#,
    r#"ok push 0 accepted=2 rejected=0 skipped=0
ok search as_of=1 traces=1 {"traces":[{"durationNanos":"1","rootName":"p","rootService":null,"spanSets":[{"by":[],"matched":2,"spans":[{"attributes":[],"durationNanos":"1","name":"p","spanId":"00000000000000b1","startTimeUnixNano":"1"},{"attributes":[],"durationNanos":"1","name":"q","spanId":"00000000000000b2","startTimeUnixNano":"1"}]}],"startTimeUnixNano":"1","traceId":"000000000000000000000000000000a1"}]}
"#,
);

/// A group for each name, with a selected attribute.
const GROUPS: (&str, &str) = (
    r#"push {"resourceSpans":[{"scopeSpans":[{"spans":[{"traceId":"000000000000000000000000000000a1","spanId":"00000000000000b1","parentSpanId":"","name":"p","startTimeUnixNano":"1","endTimeUnixNano":"2","attributes":[{"key":"v","value":{"intValue":"1"}}]},{"traceId":"000000000000000000000000000000a1","spanId":"00000000000000b2","parentSpanId":"","name":"q","startTimeUnixNano":"1","endTimeUnixNano":"3"}]}]}]}
search { } | by(name) | select(.v)
"#,
    r#"ok push 0 accepted=2 rejected=0 skipped=0
ok search as_of=1 traces=1 {"traces":[{"durationNanos":"2","rootName":"p","rootService":null,"spanSets":[{"by":[{"stringValue":"p"}],"matched":1,"spans":[{"attributes":[{"key":".v","value":{"intValue":"1"}}],"durationNanos":"1","name":"p","spanId":"00000000000000b1","startTimeUnixNano":"1"}]},{"by":[{"stringValue":"q"}],"matched":1,"spans":[{"attributes":[{"key":".v","value":null}],"durationNanos":"2","name":"q","spanId":"00000000000000b2","startTimeUnixNano":"1"}]}],"startTimeUnixNano":"1","traceId":"000000000000000000000000000000a1"}]}
"#,
);

/// Queries that are none, or whose kinds or patterns do not do.
const REFUSED: (&str, &str) = (
    r#"search { (((((((((((((((((((((((((((((((((((((((((((((((((((((((((((((((((
search { .v = 0.5 }
search { duration > 1.5s }
search { .a || .b && .c }
search { name =~ "a)(b" }
search { name = 1 }
search { name
search
"#,
    r#"refused bad-query too-deep at=66
refused bad-query fraction-literal at=7
ok search as_of=0 traces=0 {"traces":[]}
ok search as_of=0 traces=0 {"traces":[]}
refused bad-pattern at=10
refused bad-type kind-clash at=7
refused bad-query unended at=6
refused bad-request at=6
"#,
);

/// Metrics of two spans of a trace that start at 1 and 5, in whole buckets and in one that the end cuts short, for
/// each name, and where none starts in the range.
const METRICS: (&str, &str) = (
    r#"metrics start=0 end=10 step=4 { } | count_over_time()
push {"resourceSpans":[{"scopeSpans":[{"spans":[{"traceId":"000000000000000000000000000000a1","spanId":"00000000000000b1","parentSpanId":"","name":"x","startTimeUnixNano":"1","endTimeUnixNano":"2"},{"traceId":"000000000000000000000000000000a1","spanId":"00000000000000b2","parentSpanId":"","name":"y","startTimeUnixNano":"5","endTimeUnixNano":"6"}]}]}]}
metrics start=0 end=10 step=4 { } | count_over_time()
metrics start=0 end=2000000000 step=2000000000 { } | rate() by (name)
metrics start=5 end=6 step=1 { name = "x" } | count_over_time()
metrics start=5 end=6 step=9 { } | count_over_time() by (name)
"#,
    r#"ok metrics as_of=0 series=0 {"series":[]}
ok push 0 accepted=2 rejected=0 skipped=0
ok metrics as_of=1 series=1 {"series":[{"by":[],"values":[{"intValue":"1"},{"intValue":"1"},{"intValue":"0"}]}]}
ok metrics as_of=1 series=2 {"series":[{"by":[{"stringValue":"x"}],"values":[{"ratioValue":"1/2"}]},{"by":[{"stringValue":"y"}],"values":[{"ratioValue":"1/2"}]}]}
ok metrics as_of=1 series=0 {"series":[]}
ok metrics as_of=1 series=1 {"series":[{"by":[{"stringValue":"y"}],"values":[{"intValue":"1"}]}]}
"#,
);

/// Metrics of four spans of one spanset that were pushed twice, with a flush between: the last one starts at the end
/// of the first range, and each has a value of another kind.
const METRICS_OF_REPEATS: (&str, &str) = (
    r#"push {"resourceSpans":[{"scopeSpans":[{"spans":[{"traceId":"000000000000000000000000000000a1","spanId":"00000000000000b1","parentSpanId":"","name":"x","startTimeUnixNano":"4","endTimeUnixNano":"5"},{"traceId":"000000000000000000000000000000a1","spanId":"00000000000000b2","parentSpanId":"","name":"x","startTimeUnixNano":"4","endTimeUnixNano":"5","attributes":[{"key":"v","value":{"boolValue":true}}]},{"traceId":"000000000000000000000000000000a1","spanId":"00000000000000b3","parentSpanId":"","name":"x","startTimeUnixNano":"7","endTimeUnixNano":"8","attributes":[{"key":"v","value":{"intValue":"1"}}]},{"traceId":"000000000000000000000000000000a1","spanId":"00000000000000b4","parentSpanId":"","name":"x","startTimeUnixNano":"8","endTimeUnixNano":"9","attributes":[{"key":"v","value":{"stringValue":"a"}}]}]}]}]}
cutall
flush
push {"resourceSpans":[{"scopeSpans":[{"spans":[{"traceId":"000000000000000000000000000000a1","spanId":"00000000000000b1","parentSpanId":"","name":"x","startTimeUnixNano":"4","endTimeUnixNano":"5"},{"traceId":"000000000000000000000000000000a1","spanId":"00000000000000b2","parentSpanId":"","name":"x","startTimeUnixNano":"4","endTimeUnixNano":"5","attributes":[{"key":"v","value":{"boolValue":true}}]},{"traceId":"000000000000000000000000000000a1","spanId":"00000000000000b3","parentSpanId":"","name":"x","startTimeUnixNano":"7","endTimeUnixNano":"8","attributes":[{"key":"v","value":{"intValue":"1"}}]},{"traceId":"000000000000000000000000000000a1","spanId":"00000000000000b4","parentSpanId":"","name":"x","startTimeUnixNano":"8","endTimeUnixNano":"9","attributes":[{"key":"v","value":{"stringValue":"a"}}]}]}]}]}
metrics start=0 end=8 step=4 { } | count_over_time()
metrics start=4 end=9 step=4 { } | rate() by (.v)
"#,
    r#"ok push 0 accepted=4 rejected=0 skipped=0
ok cutall moved=4
ok flush rows=4
ok push 1 accepted=4 rejected=0 skipped=0
ok metrics as_of=2 series=1 {"series":[{"by":[],"values":[{"intValue":"0"},{"intValue":"3"}]}]}
ok metrics as_of=2 series=4 {"series":[{"by":[null],"values":[{"intValue":"250000000"},{"intValue":"0"}]},{"by":[{"boolValue":true}],"values":[{"intValue":"250000000"},{"intValue":"0"}]},{"by":[{"intValue":"1"}],"values":[{"intValue":"250000000"},{"intValue":"0"}]},{"by":[{"stringValue":"a"}],"values":[{"intValue":"0"},{"intValue":"250000000"}]}]}
"#,
);

/// Metrics lines that are refused.
const METRICS_REFUSED: (&str, &str) = (
    r#"metrics start=0 end=2000000000 step=1 { } | rate() by (name)
metrics
metrics { }
metrics start=0 end=0 step=1 { } | rate()
metrics start=0 end=1 step=0 { } | rate()
metrics start=0 end=1 step=1
metrics start=0 end=1001 step=1 ?
metrics start=0 end=1 step=1 { }
metrics start=0 end=1 step=1 { rate = 1 } | rate()
metrics start=0 end=1 step=1 { } | count_over_time() by (rate)
"#,
    r#"refused too-many-buckets count=2000000000
refused bad-request at=7
refused bad-request at=8
refused bad-request at=16
refused bad-request at=22
refused bad-request at=28
refused too-many-buckets count=1001
refused bad-query unended at=3
refused bad-query unexpected at=2
refused bad-query unexpected at=28
"#,
);

/// Each operator over a chain `a`, `b`, `c` with a sibling `s` of `b`, a ring of `p` and `q` with a tail `t`, the
/// orphans `o` and `n` of one parent, and `l` alone.
const OPERATORS: (&str, &str) = (
    r#"push {"resourceSpans":[{"scopeSpans":[{"spans":[{"traceId":"000000000000000000000000000000a1","spanId":"0000000000000001","parentSpanId":"","name":"a","startTimeUnixNano":"1","endTimeUnixNano":"2"},{"traceId":"000000000000000000000000000000a1","spanId":"0000000000000002","parentSpanId":"0000000000000001","name":"b","startTimeUnixNano":"1","endTimeUnixNano":"2"},{"traceId":"000000000000000000000000000000a1","spanId":"0000000000000003","parentSpanId":"0000000000000002","name":"c","startTimeUnixNano":"1","endTimeUnixNano":"2"},{"traceId":"000000000000000000000000000000a1","spanId":"0000000000000004","parentSpanId":"0000000000000001","name":"s","startTimeUnixNano":"1","endTimeUnixNano":"2"},{"traceId":"000000000000000000000000000000a1","spanId":"0000000000000005","parentSpanId":"0000000000000006","name":"p","startTimeUnixNano":"1","endTimeUnixNano":"2"},{"traceId":"000000000000000000000000000000a1","spanId":"0000000000000006","parentSpanId":"0000000000000005","name":"q","startTimeUnixNano":"1","endTimeUnixNano":"2"},{"traceId":"000000000000000000000000000000a1","spanId":"0000000000000007","parentSpanId":"0000000000000005","name":"t","startTimeUnixNano":"1","endTimeUnixNano":"2"},{"traceId":"000000000000000000000000000000a1","spanId":"0000000000000008","parentSpanId":"0000000000000099","name":"o","startTimeUnixNano":"1","endTimeUnixNano":"2"},{"traceId":"000000000000000000000000000000a1","spanId":"0000000000000009","parentSpanId":"0000000000000099","name":"n","startTimeUnixNano":"1","endTimeUnixNano":"2"},{"traceId":"000000000000000000000000000000a1","spanId":"000000000000000a","parentSpanId":"","name":"l","startTimeUnixNano":"1","endTimeUnixNano":"2"}]}]}]}
search spss=20 { name =~ "b|p|o|l" } > { }
search spss=20 { name =~ "b|p|o|l" } >> { }
search spss=20 { name =~ "b|p|o|l" } < { }
search spss=20 { name =~ "b|p|o|l" } << { }
search spss=20 { name =~ "b|p|o|l" } ~ { }
search spss=20 { name =~ "b|p|o|l" } !> { }
search spss=20 { name =~ "b|p|o|l" } !>> { }
search spss=20 { name =~ "b|p|o|l" } !< { }
search spss=20 { name =~ "b|p|o|l" } !<< { }
search spss=20 { name =~ "b|p|o|l" } !~ { }
search spss=20 { name =~ "b|p|o|l" } &> { }
search spss=20 { name =~ "b|p|o|l" } &>> { }
search spss=20 { name =~ "b|p|o|l" } &< { }
search spss=20 { name =~ "b|p|o|l" } &<< { }
search spss=20 { name =~ "b|p|o|l" } &~ { }
"#,
    r#"ok push 0 accepted=10 rejected=0 skipped=0
ok search as_of=1 traces=1 {"traces":[{"durationNanos":"1","rootName":"a","rootService":null,"spanSets":[{"by":[],"matched":3,"spans":[{"attributes":[],"durationNanos":"1","name":"c","spanId":"0000000000000003","startTimeUnixNano":"1"},{"attributes":[],"durationNanos":"1","name":"q","spanId":"0000000000000006","startTimeUnixNano":"1"},{"attributes":[],"durationNanos":"1","name":"t","spanId":"0000000000000007","startTimeUnixNano":"1"}]}],"startTimeUnixNano":"1","traceId":"000000000000000000000000000000a1"}]}
ok search as_of=1 traces=1 {"traces":[{"durationNanos":"1","rootName":"a","rootService":null,"spanSets":[{"by":[],"matched":4,"spans":[{"attributes":[],"durationNanos":"1","name":"c","spanId":"0000000000000003","startTimeUnixNano":"1"},{"attributes":[],"durationNanos":"1","name":"p","spanId":"0000000000000005","startTimeUnixNano":"1"},{"attributes":[],"durationNanos":"1","name":"q","spanId":"0000000000000006","startTimeUnixNano":"1"},{"attributes":[],"durationNanos":"1","name":"t","spanId":"0000000000000007","startTimeUnixNano":"1"}]}],"startTimeUnixNano":"1","traceId":"000000000000000000000000000000a1"}]}
ok search as_of=1 traces=1 {"traces":[{"durationNanos":"1","rootName":"a","rootService":null,"spanSets":[{"by":[],"matched":2,"spans":[{"attributes":[],"durationNanos":"1","name":"a","spanId":"0000000000000001","startTimeUnixNano":"1"},{"attributes":[],"durationNanos":"1","name":"q","spanId":"0000000000000006","startTimeUnixNano":"1"}]}],"startTimeUnixNano":"1","traceId":"000000000000000000000000000000a1"}]}
ok search as_of=1 traces=1 {"traces":[{"durationNanos":"1","rootName":"a","rootService":null,"spanSets":[{"by":[],"matched":3,"spans":[{"attributes":[],"durationNanos":"1","name":"a","spanId":"0000000000000001","startTimeUnixNano":"1"},{"attributes":[],"durationNanos":"1","name":"p","spanId":"0000000000000005","startTimeUnixNano":"1"},{"attributes":[],"durationNanos":"1","name":"q","spanId":"0000000000000006","startTimeUnixNano":"1"}]}],"startTimeUnixNano":"1","traceId":"000000000000000000000000000000a1"}]}
ok search as_of=1 traces=1 {"traces":[{"durationNanos":"1","rootName":"a","rootService":null,"spanSets":[{"by":[],"matched":2,"spans":[{"attributes":[],"durationNanos":"1","name":"s","spanId":"0000000000000004","startTimeUnixNano":"1"},{"attributes":[],"durationNanos":"1","name":"n","spanId":"0000000000000009","startTimeUnixNano":"1"}]}],"startTimeUnixNano":"1","traceId":"000000000000000000000000000000a1"}]}
ok search as_of=1 traces=1 {"traces":[{"durationNanos":"1","rootName":"a","rootService":null,"spanSets":[{"by":[],"matched":7,"spans":[{"attributes":[],"durationNanos":"1","name":"a","spanId":"0000000000000001","startTimeUnixNano":"1"},{"attributes":[],"durationNanos":"1","name":"b","spanId":"0000000000000002","startTimeUnixNano":"1"},{"attributes":[],"durationNanos":"1","name":"s","spanId":"0000000000000004","startTimeUnixNano":"1"},{"attributes":[],"durationNanos":"1","name":"p","spanId":"0000000000000005","startTimeUnixNano":"1"},{"attributes":[],"durationNanos":"1","name":"o","spanId":"0000000000000008","startTimeUnixNano":"1"},{"attributes":[],"durationNanos":"1","name":"n","spanId":"0000000000000009","startTimeUnixNano":"1"},{"attributes":[],"durationNanos":"1","name":"l","spanId":"000000000000000a","startTimeUnixNano":"1"}]}],"startTimeUnixNano":"1","traceId":"000000000000000000000000000000a1"}]}
ok search as_of=1 traces=1 {"traces":[{"durationNanos":"1","rootName":"a","rootService":null,"spanSets":[{"by":[],"matched":6,"spans":[{"attributes":[],"durationNanos":"1","name":"a","spanId":"0000000000000001","startTimeUnixNano":"1"},{"attributes":[],"durationNanos":"1","name":"b","spanId":"0000000000000002","startTimeUnixNano":"1"},{"attributes":[],"durationNanos":"1","name":"s","spanId":"0000000000000004","startTimeUnixNano":"1"},{"attributes":[],"durationNanos":"1","name":"o","spanId":"0000000000000008","startTimeUnixNano":"1"},{"attributes":[],"durationNanos":"1","name":"n","spanId":"0000000000000009","startTimeUnixNano":"1"},{"attributes":[],"durationNanos":"1","name":"l","spanId":"000000000000000a","startTimeUnixNano":"1"}]}],"startTimeUnixNano":"1","traceId":"000000000000000000000000000000a1"}]}
ok search as_of=1 traces=1 {"traces":[{"durationNanos":"1","rootName":"a","rootService":null,"spanSets":[{"by":[],"matched":8,"spans":[{"attributes":[],"durationNanos":"1","name":"b","spanId":"0000000000000002","startTimeUnixNano":"1"},{"attributes":[],"durationNanos":"1","name":"c","spanId":"0000000000000003","startTimeUnixNano":"1"},{"attributes":[],"durationNanos":"1","name":"s","spanId":"0000000000000004","startTimeUnixNano":"1"},{"attributes":[],"durationNanos":"1","name":"p","spanId":"0000000000000005","startTimeUnixNano":"1"},{"attributes":[],"durationNanos":"1","name":"t","spanId":"0000000000000007","startTimeUnixNano":"1"},{"attributes":[],"durationNanos":"1","name":"o","spanId":"0000000000000008","startTimeUnixNano":"1"},{"attributes":[],"durationNanos":"1","name":"n","spanId":"0000000000000009","startTimeUnixNano":"1"},{"attributes":[],"durationNanos":"1","name":"l","spanId":"000000000000000a","startTimeUnixNano":"1"}]}],"startTimeUnixNano":"1","traceId":"000000000000000000000000000000a1"}]}
ok search as_of=1 traces=1 {"traces":[{"durationNanos":"1","rootName":"a","rootService":null,"spanSets":[{"by":[],"matched":7,"spans":[{"attributes":[],"durationNanos":"1","name":"b","spanId":"0000000000000002","startTimeUnixNano":"1"},{"attributes":[],"durationNanos":"1","name":"c","spanId":"0000000000000003","startTimeUnixNano":"1"},{"attributes":[],"durationNanos":"1","name":"s","spanId":"0000000000000004","startTimeUnixNano":"1"},{"attributes":[],"durationNanos":"1","name":"t","spanId":"0000000000000007","startTimeUnixNano":"1"},{"attributes":[],"durationNanos":"1","name":"o","spanId":"0000000000000008","startTimeUnixNano":"1"},{"attributes":[],"durationNanos":"1","name":"n","spanId":"0000000000000009","startTimeUnixNano":"1"},{"attributes":[],"durationNanos":"1","name":"l","spanId":"000000000000000a","startTimeUnixNano":"1"}]}],"startTimeUnixNano":"1","traceId":"000000000000000000000000000000a1"}]}
ok search as_of=1 traces=1 {"traces":[{"durationNanos":"1","rootName":"a","rootService":null,"spanSets":[{"by":[],"matched":8,"spans":[{"attributes":[],"durationNanos":"1","name":"a","spanId":"0000000000000001","startTimeUnixNano":"1"},{"attributes":[],"durationNanos":"1","name":"b","spanId":"0000000000000002","startTimeUnixNano":"1"},{"attributes":[],"durationNanos":"1","name":"c","spanId":"0000000000000003","startTimeUnixNano":"1"},{"attributes":[],"durationNanos":"1","name":"p","spanId":"0000000000000005","startTimeUnixNano":"1"},{"attributes":[],"durationNanos":"1","name":"q","spanId":"0000000000000006","startTimeUnixNano":"1"},{"attributes":[],"durationNanos":"1","name":"t","spanId":"0000000000000007","startTimeUnixNano":"1"},{"attributes":[],"durationNanos":"1","name":"o","spanId":"0000000000000008","startTimeUnixNano":"1"},{"attributes":[],"durationNanos":"1","name":"l","spanId":"000000000000000a","startTimeUnixNano":"1"}]}],"startTimeUnixNano":"1","traceId":"000000000000000000000000000000a1"}]}
ok search as_of=1 traces=1 {"traces":[{"durationNanos":"1","rootName":"a","rootService":null,"spanSets":[{"by":[],"matched":5,"spans":[{"attributes":[],"durationNanos":"1","name":"b","spanId":"0000000000000002","startTimeUnixNano":"1"},{"attributes":[],"durationNanos":"1","name":"c","spanId":"0000000000000003","startTimeUnixNano":"1"},{"attributes":[],"durationNanos":"1","name":"p","spanId":"0000000000000005","startTimeUnixNano":"1"},{"attributes":[],"durationNanos":"1","name":"q","spanId":"0000000000000006","startTimeUnixNano":"1"},{"attributes":[],"durationNanos":"1","name":"t","spanId":"0000000000000007","startTimeUnixNano":"1"}]}],"startTimeUnixNano":"1","traceId":"000000000000000000000000000000a1"}]}
ok search as_of=1 traces=1 {"traces":[{"durationNanos":"1","rootName":"a","rootService":null,"spanSets":[{"by":[],"matched":5,"spans":[{"attributes":[],"durationNanos":"1","name":"b","spanId":"0000000000000002","startTimeUnixNano":"1"},{"attributes":[],"durationNanos":"1","name":"c","spanId":"0000000000000003","startTimeUnixNano":"1"},{"attributes":[],"durationNanos":"1","name":"p","spanId":"0000000000000005","startTimeUnixNano":"1"},{"attributes":[],"durationNanos":"1","name":"q","spanId":"0000000000000006","startTimeUnixNano":"1"},{"attributes":[],"durationNanos":"1","name":"t","spanId":"0000000000000007","startTimeUnixNano":"1"}]}],"startTimeUnixNano":"1","traceId":"000000000000000000000000000000a1"}]}
ok search as_of=1 traces=1 {"traces":[{"durationNanos":"1","rootName":"a","rootService":null,"spanSets":[{"by":[],"matched":4,"spans":[{"attributes":[],"durationNanos":"1","name":"a","spanId":"0000000000000001","startTimeUnixNano":"1"},{"attributes":[],"durationNanos":"1","name":"b","spanId":"0000000000000002","startTimeUnixNano":"1"},{"attributes":[],"durationNanos":"1","name":"p","spanId":"0000000000000005","startTimeUnixNano":"1"},{"attributes":[],"durationNanos":"1","name":"q","spanId":"0000000000000006","startTimeUnixNano":"1"}]}],"startTimeUnixNano":"1","traceId":"000000000000000000000000000000a1"}]}
ok search as_of=1 traces=1 {"traces":[{"durationNanos":"1","rootName":"a","rootService":null,"spanSets":[{"by":[],"matched":4,"spans":[{"attributes":[],"durationNanos":"1","name":"a","spanId":"0000000000000001","startTimeUnixNano":"1"},{"attributes":[],"durationNanos":"1","name":"b","spanId":"0000000000000002","startTimeUnixNano":"1"},{"attributes":[],"durationNanos":"1","name":"p","spanId":"0000000000000005","startTimeUnixNano":"1"},{"attributes":[],"durationNanos":"1","name":"q","spanId":"0000000000000006","startTimeUnixNano":"1"}]}],"startTimeUnixNano":"1","traceId":"000000000000000000000000000000a1"}]}
ok search as_of=1 traces=1 {"traces":[{"durationNanos":"1","rootName":"a","rootService":null,"spanSets":[{"by":[],"matched":4,"spans":[{"attributes":[],"durationNanos":"1","name":"b","spanId":"0000000000000002","startTimeUnixNano":"1"},{"attributes":[],"durationNanos":"1","name":"s","spanId":"0000000000000004","startTimeUnixNano":"1"},{"attributes":[],"durationNanos":"1","name":"o","spanId":"0000000000000008","startTimeUnixNano":"1"},{"attributes":[],"durationNanos":"1","name":"n","spanId":"0000000000000009","startTimeUnixNano":"1"}]}],"startTimeUnixNano":"1","traceId":"000000000000000000000000000000a1"}]}
"#,
);

/// Sessions that are answered, and some whose last refusal ends them with the status 7.
static ANSWERED: [((&str, &str), u8); 11] = [
    (RANKED, 0),
    (MISSING, 0),
    (RINGS, 0),
    (SUMS, 0),
    (GROUPS, 0),
    (METRICS, 0),
    (METRICS_OF_REPEATS, 0),
    (OPERATORS, 0),
    (AVERAGES, 7),
    (REFUSED, 7),
    (METRICS_REFUSED, 7),
];

#[test]
fn searches_are_answered(rt: HostRuntime) {
    for ((input, wanted), status) in &ANSWERED {
        session(&rt, input, wanted, *status);
    }
}

#[test]
fn a_long_query_is_refused(rt: HostRuntime) {
    let spaces = " ".repeat(rt.alloc(), 8193).expect(&rt, "memory");
    let line = format!(in rt.alloc(); "search {spaces}").expect(&rt, "memory");
    session(
        &rt,
        line.as_str(),
        "refused bad-query too-long length=8193\n",
        7,
    );
}

const EMPTY: &str = "ok search as_of=0 traces=0 {\"traces\":[]}\n";

/// Words, and what they write on an empty disk, with the status.
static WORDS: [(&[&str], &str, u8); 4] = [
    (&["search", "{ }"], EMPTY, 0),
    (
        &[
            "search", "--limit", "5", "--spss", "1", "--start", "1", "--end", "2", "{ }",
        ],
        EMPTY,
        0,
    ),
    (
        &["search", "--limit", "0", "{ }"],
        "refused bad-request at=7\n",
        7,
    ),
    (&["search"], "", 2),
];

#[test]
fn words_make_the_line_of_a_search(rt: HostRuntime) {
    for (words, wanted, status) in &WORDS {
        check(&rt, words, "", FINE, (*wanted, *status));
    }
}

#[test]
fn a_pattern_that_the_maker_refuses_is_too_big(rt: HostRuntime) {
    let alloc = rt.alloc();
    let words = all_words(alloc, &["session"]).expect(&rt, "memory");
    let mut source = source_of(alloc, "search { name =~ \"a\" }").expect(&rt, "memory");
    let mut sink = MemSink::new(alloc, calls(alloc, &[]).expect(&rt, "memory"));
    let mut clock = FixedClock::new(Moments::of(Vec::new(alloc)));
    let mut patterns = ScriptedMaker::new(alloc, calls(alloc, &[1]).expect(&rt, "memory"));
    let Ended { status, disk: _ } = run(
        &rt,
        alloc,
        words.as_slice(),
        &mut source,
        &mut sink,
        MemDisk::empty(alloc),
        &mut clock,
        &mut patterns,
        &OpenGate,
    );
    assert!(&rt; sink.taken() == b"refused pattern-too-big at=10\n".as_slice());
    assert!(&rt; status == 7);
}
