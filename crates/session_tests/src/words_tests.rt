//! What the words of a command line give.

use command_words::{Asked, WordsError, read_words};
use std::alloc::{AllocError, Global};

// The words of the table, as the program has them.
fn as_strings(alloc: Global, words: &[&str]) -> Result<Vec<String>, AllocError> {
    let mut strings = Vec::new(alloc);
    for word in words {
        strings.push(String::from_str(alloc, word)?)?;
    }
    Ok(strings)
}

// What reading gives, as one word: a request line stands after `line:`.
fn told(alloc: Global, words: &[String]) -> Result<String, AllocError> {
    match read_words(alloc, words) {
        Ok(Asked::Session) => String::from_str(alloc, "session"),
        Ok(Asked::Serve { clients, rounds }) => format!(in alloc; "serve:{clients}:{rounds}"),
        Ok(Asked::Ingest) => String::from_str(alloc, "ingest"),
        Ok(Asked::Drill { seed, traces }) => format!(in alloc; "drill:{seed}:{traces}"),
        Ok(Asked::Alone { line }) => format!(in alloc; "line:{line}"),
        Err(WordsError::Refused) => String::from_str(alloc, "refused"),
        Err(WordsError::Memory) => String::from_str(alloc, "memory"),
    }
}

static ROWS: [(&[&str], &str); 58] = [
    (&[], "refused"),
    (&["session"], "session"),
    (&["session", "--"], "session"),
    (&["session", "x"], "refused"),
    (&["--", "session"], "refused"),
    (&["ingest"], "ingest"),
    (&["ingest", "--"], "ingest"),
    (&["ingest", "x"], "refused"),
    (&["ingest", "session"], "refused"),
    (&["trace"], "refused"),
    (&["trace", "00"], "line:trace 00"),
    (&["trace", "session"], "line:trace session"),
    (&["trace", ""], "line:trace "),
    (&["trace", "-"], "line:trace -"),
    (&["trace", "a", "b"], "refused"),
    (&["trace", "-x"], "refused"),
    (&["trace", "--", "-x"], "line:trace -x"),
    (&["trace", "a", "--"], "line:trace a"),
    (&["trace", "--"], "refused"),
    (&["help"], "refused"),
    (&["--help"], "refused"),
    (&["session", "-h"], "refused"),
    (&["search"], "refused"),
    (&["search", "{ }"], "line:search { }"),
    (&["search", ""], "line:search "),
    (
        &["search", "--limit", "5", "{ }"],
        "line:search limit=5 { }",
    ),
    (
        &[
            "search", "--limit", "5", "--spss", "6", "--start", "7", "--end", "8", "{ }",
        ],
        "line:search limit=5 spss=6 start=7 end=8 { }",
    ),
    (
        &["search", "{ }", "--end=8", "--spss", "6"],
        "line:search spss=6 end=8 { }",
    ),
    (
        &["search", "--limit", "x", "--", "-y"],
        "line:search limit=x -y",
    ),
    (&["search", "--limit", "5"], "refused"),
    (&["search", "{ }", "--limit"], "refused"),
    (&["search", "--limit", "-5", "{ }"], "refused"),
    (
        &["search", "--limit", "5", "--limit", "6", "{ }"],
        "refused",
    ),
    (&["search", "{", "}"], "refused"),
    (&["search", "--most", "5", "{ }"], "refused"),
    (&["search", "-l", "{ }"], "refused"),
    (&["search", "--spss", "-", "-"], "line:search spss=- -"),
    (&["sessions"], "refused"),
    (&["serve", "--clients", "17"], "refused"),
    (&["serve"], "refused"),
    (&["serve", "--clients", "0"], "refused"),
    (&["serve", "--clients", "2", "--rounds", "3"], "serve:2:3"),
    (&["serve", "--rounds=1000", "--clients=16"], "serve:16:1000"),
    (&["serve", "--clients", "1"], "serve:1:0"),
    (&["serve", "--clients", "1", "--rounds", "1001"], "refused"),
    (&["drill"], "refused"),
    (&["drill", "--seed", "7"], "refused"),
    (&["drill", "--seed", "x", "--traces", "1"], "refused"),
    (&["drill", "--seed", "07", "--traces", "1"], "refused"),
    (&["drill", "--seed", "+7", "--traces", "1"], "refused"),
    (&["drill", "--seed", "7", "--traces", "0"], "refused"),
    (&["drill", "--seed", "7", "--traces", "100001"], "refused"),
    (
        &["drill", "--seed", "18446744073709551616", "--traces", "1"],
        "refused",
    ),
    (&["drill", "--seed", "7", "--traces", "200"], "drill:7:200"),
    (&["drill", "--traces=100000", "--seed=0"], "drill:0:100000"),
    (
        &["drill", "--seed", "18446744073709551615", "--traces", "1"],
        "drill:18446744073709551615:1",
    ),
    (&["drill", "x", "--seed", "7", "--traces", "1"], "refused"),
    (&[""], "refused"),
];

#[test]
fn table(rt: HostRuntime) {
    for (words, wanted) in &ROWS {
        let strings = as_strings(rt.alloc(), words).expect(&rt, "memory");
        let got = told(rt.alloc(), strings.as_slice()).expect(&rt, "memory");
        assert!(&rt; got.as_str() == *wanted, "{got} and {wanted}");
    }
}
