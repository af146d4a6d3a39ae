//! String literals: from the text between quotes to the text that they stand for.

ghost use Rattle.std.specs.Prelude.{◌≡◌, ◌+◌, ◌^◌, ◌<◌, IfOk, IfSome, None, length, string_bytes};
ghost use Rattle.std.specs.List.{filter_map, prefix_len};
ghost use Rattle.traceql_tokens.specs.StringWalk.{pieces, body_len, first_unknown, quoted_at, raw_at, string_at};
ghost use Rattle.traceql_tokens.specs.Strings.{escaped, meaning, is_plain};

use crate::Fault;
use crate::runs::raw_len;
use span_types::{Memory, Text};
use std::alloc::Global;

/// What a string literal stands for, or what is wrong with it.
pub(crate) type Value = Result<Text, Fault>;

/// What a backslash before this byte makes of it.
fn escaped(byte: u8) -> Option<char>
    ensures { result ≡ escaped byte }
{
    match byte {
        b'"' => Some('"'),
        b'\\' => Some('\\'),
        b'n' => Some('\n'),
        b'r' => Some('\r'),
        b't' => Some('\t'),
        _ => None,
    }
}

/// How many bytes stand before the closing quote. Where there is none these are all bytes, but not a backslash at
/// their end.
#[tactic(auto, using(crate::proofs::StringSteps::piece_steps))]
fn body_len(bytes: &[u8]) -> usize
    ensures { result ≡ body_len bytes.now }
{
    let mut len = 0;
    while len < bytes.len() && bytes[len] != b'"' {
        if bytes[len] != b'\\' {
            len += 1;
        } else if len + 1 < bytes.len() {
            len += 2;
        } else {
            break;
        }
    }
    len
}

/// Where the first backslash before the closing quote stands that makes no known escape.
#[tactic(auto, using(crate::proofs::StringSteps::unknown_steps))]
fn unknown_escape(bytes: &[u8]) -> Option<usize>
    ensures offset { result ≡ first_unknown (pieces bytes.now) }
    ensures within { IfSome result (λ n. n < length bytes.now) }
{
    let mut at = 0;
    while at < bytes.len() && bytes[at] != b'"' {
        if bytes[at] != b'\\' {
            at += 1;
        } else if at + 1 < bytes.len() {
            if escaped(bytes[at + 1]).is_none() {
                return Some(at);
            }
            at += 2;
        } else {
            break;
        }
    }
    None
}

/// How many bytes stand for themselves before a quote or a backslash.
fn plain_len(bytes: &[u8]) -> usize
    ensures { result ≡ prefix_len is_plain bytes.now }
{
    bytes
        .iter()
        .take_while(|byte| **byte != b'"' && **byte != b'\\')
        .count()
}

/// What the text before the closing quote stands for, each escape of which is known.
#[tactic(auto, using(crate::proofs::Decoding::plain_run))]
fn decoded(alloc: Global, body: &str) -> Result<String, Memory>
    requires { first_unknown (pieces body.now) ≡ None }
    ensures { IfOk result (λ s. string_bytes s ≡ filter_map meaning (pieces body.now)) }
{
    let mut value = String::new(alloc);
    let mut rest = body;
    loop {
        let bytes = rest.as_bytes();
        let plain = plain_len(bytes);
        value.push_str(&rest[..plain])?;
        if plain + 1 >= bytes.len() || bytes[plain] == b'"' {
            return Ok(value);
        }
        let Some(character) = escaped(bytes[plain + 1]) else {
            return Ok(value);
        };
        value.push(character)?;
        rest = &rest[plain + 2..];
    }
}

/// A string after its double quote, which has the place `at`, and how many bytes it has with its quotes.
#[tactic(auto, using(crate::proofs::StringCases::quoted_cases))]
fn quoted_at(alloc: Global, body: &str, at: usize) -> Result<(Value, usize), Memory>
    requires { at + length body.now < 2 ^ 63 }
    ensures { IfOk result (λ r. r ≡ quoted_at at body.now) }
{
    let bytes = body.as_bytes();
    let len = body_len(bytes);
    if len >= bytes.len() || bytes[len] != b'"' {
        let unended = Fault::Unended { at: at as u64 };
        return Ok((Err(unended), bytes.len() + 1));
    }
    let value = match unknown_escape(bytes) {
        Some(offset) => Err(Fault::UnknownEscape {
            at: (at + 1 + offset) as u64,
        }),
        None => Ok(Text::of(decoded(alloc, body)?)),
    };
    Ok((value, len + 2))
}

/// A string after its backquote, which has the place `at`, and how many bytes it has with its quotes.
#[tactic(auto, using(crate::proofs::StringCases::raw_cases))]
fn raw_at(alloc: Global, body: &str, at: usize) -> Result<(Value, usize), Memory>
    requires { at + length body.now < 2 ^ 63 }
    ensures { IfOk result (λ r. r ≡ raw_at at body.now) }
{
    let bytes = body.as_bytes();
    let len = raw_len(bytes);
    if len >= bytes.len() {
        let unended = Fault::Unended { at: at as u64 };
        return Ok((Err(unended), bytes.len() + 1));
    }
    let value = String::from_str(alloc, &body[..len])?;
    Ok((Ok(Text::of(value)), len + 2))
}

/// The string literal that the text begins with, and how many bytes it has; `None` where no quote is first.
#[tactic(auto, using(crate::proofs::StringCases::string_cases))]
pub(crate) fn string_at(
    alloc: Global,
    text: &str,
    at: usize,
) -> Result<Option<(Value, usize)>, Memory>
    requires { at + length text.now < 2 ^ 63 }
    ensures { IfOk result (λ r. r ≡ string_at at text.now) }
{
    let bytes = text.as_bytes();
    if !bytes.is_empty() && bytes[0] == b'"' {
        Ok(Some(quoted_at(alloc, &text[1..], at)?))
    } else if !bytes.is_empty() && bytes[0] == b'`' {
        Ok(Some(raw_at(alloc, &text[1..], at)?))
    } else {
        Ok(None)
    }
}
