//! What no clause says: lines by example, and that the calls succeed with ample memory.

ghost use Rattle.std.specs.Prelude.{◌<◌, Some};

use io_edges::{
    Clock, FixedClock, Gate, Line, LineError, LineReader, MemSink, MemSource, OpenGate, Sink,
    Source,
};
use span_types::{Bytes, Calls, Failed, Memory, Moments};
use std::alloc::Global;

// A source that gives at most `step` bytes a call.
#[derive(Drop)]
struct Drip {
    inner: MemSource,
    step: usize,
    ghost some: { 0 < step },
}

impl Source for Drip {
    ghost left = { λ s. Some s.inner.left };

    ghost faults = { λ s. s.inner.faults };

    fn take(&mut self, buf: &mut [u8]) -> Result<usize, Failed> {
        let most = buf.len().min(self.step);
        let count = self.inner.take(&mut buf[..most])?;
        Ok(count)
    }
}

// What a reader answers, call by call, until the end: a line's bytes and a bar, or a sign of its own for each other
// answer.
fn answers(alloc: Global, bytes: &[u8], step: usize, failing: &[u64]) -> Result<Vec<u8>, Memory>
    requires { 0 < step }
{
    let bytes = Bytes::of(Vec::from_slice(alloc, bytes)?);
    let failing = Calls::of(Vec::from_slice(alloc, failing)?);
    let mut source = Drip {
        inner: MemSource::new(bytes, failing),
        step,
    };
    let mut reader = LineReader::new(alloc);
    let mut told = Vec::new(alloc);
    for _ in 0..20 {
        let answer = reader.next(&mut source);
        show(&mut told, &answer)?;
        if let Ok(Line::End) = answer {
            break;
        }
    }
    Ok(told)
}

fn show(told: &mut Vec<u8>, answer: &Result<Line, LineError>) -> Result<(), Memory> {
    let sign = match answer {
        Ok(Line::Whole(text)) => {
            told.extend_from_slice(text.as_slice())?;
            b'|'
        }
        Ok(Line::TooLong { .. }) => b'^',
        Ok(Line::End) => b'.',
        Ok(Line::Spent { .. }) => b'$',
        Err(LineError::Fault) => b'!',
        Err(LineError::Memory) => b'?',
    };
    told.push(sign)?;
    Ok(())
}

// Texts, and what a reader answers.
static LINES: [(&str, &str); 13] = [
    ("", "."),
    ("a", "a|."),
    ("a\n", "a|."),
    ("a\n\n", "a||."),
    ("\n", "|."),
    ("\n\na", "||a|."),
    ("\r", "|."),
    ("\r\n", "|."),
    ("\r\r", "\r|."),
    ("a\r\r\n", "a\r|."),
    ("a\rb\n", "a\rb|."),
    ("one\r\ntwo\nthree\r", "one|two|three|."),
    ("one\n\rtwo\r\n\r\n", "one|\rtwo||."),
];

// Whether a reader answers so, a source that gives at most so many bytes a call.
fn is_answered(alloc: Global, text: &str, step: usize, failing: &[u64], want: &str) -> bool
    requires { 0 < step }
{
    match answers(alloc, text.as_bytes(), step, failing) {
        Ok(told) => told.as_slice() == want.as_bytes(),
        Err(_) => false,
    }
}

#[test]
fn lines_end_at_line_feeds_and_lose_one_return(rt: HostRuntime) {
    for (text, want) in &LINES {
        assert!(rt; is_answered(rt.alloc(), text, 1, &[], want), "{text}");
        assert!(rt; is_answered(rt.alloc(), text, 3, &[], want), "{text}");
        assert!(rt; is_answered(rt.alloc(), text, 65_536, &[], want), "{text}");
    }
}

// Calls that fail, and what a reader then answers.
static FAULTS: [(&[u64], &str); 5] = [
    (&[1, 1], "!ab|c|."),
    (&[2, 2], "!ab|c|."),
    (&[2, 3], "!!ab|c|."),
    (&[4, 4], "ab|!c|."),
    (&[6, 1], "!ab|!c|."),
];

#[test]
fn a_fault_leaves_the_line_that_was_begun(rt: HostRuntime) {
    for (failing, want) in &FAULTS {
        assert!(rt;
            is_answered(rt.alloc(), "ab\nc", 1, failing, want),
            "{want}"
        );
    }
}

// A line of as many bytes as a line may have, with a return that isn't part of it, one of a byte more, and a short one.
#[test]
fn a_line_over_the_limit_is_counted(rt: HostRuntime) -> Result<(), Memory> {
    let mut bytes = vec![in rt.alloc(); b'x'; 33_554_439]?;
    let ends = [
        (16_777_216, b'\r'),
        (16_777_217, b'\n'),
        (33_554_435, b'\r'),
        (33_554_436, b'\n'),
        (33_554_438, b'\n'),
    ];
    for (at, end) in ends {
        if at < bytes.len() {
            bytes[at] = end;
        }
    }
    let mut source = MemSource::new(Bytes::of(bytes), Calls::of(Vec::new(rt.alloc())));
    let mut reader = LineReader::new(rt.alloc());
    for want in [16_777_216, 16_777_217, 1, 0] {
        let length = match reader.next(&mut source) {
            Ok(Line::Whole(text)) => text.len() as u64,
            Ok(Line::TooLong { length }) => length,
            _ => 0,
        };
        assert_eq!(rt; length, want);
    }
    Ok(())
}

// Bytes that are written, and whether that fails.
static PUTS: [(&[u8], bool); 5] = [
    (b"a", false),
    (b"b", true),
    (b"c", false),
    (b"d", true),
    (b"e", false),
];

#[test]
fn devices_in_memory_fail_where_they_are_told(rt: HostRuntime) {
    let calls = vec![in rt.alloc(); 2u64, 4].expect(&rt, "memory");
    let mut sink = MemSink::new(rt.alloc(), Calls::of(calls));
    for (bytes, fails) in &PUTS {
        assert!(rt; sink.put(bytes).is_err() == *fails);
    }
    assert!(rt; sink.taken() == b"ace".as_slice() && sink.starved() == 0);
}

static MOMENTS: [u64; 3] = [5, 7, 7];

#[test]
fn a_fixed_clock_stays_at_its_last_moment(rt: HostRuntime) {
    let moments = vec![in rt.alloc(); 5u64, 7].expect(&rt, "memory");
    let mut clock = FixedClock::new(Moments::of(moments));
    for want in &MOMENTS {
        assert!(rt; clock.now() == *want);
    }
    OpenGate.pass(3);
}
