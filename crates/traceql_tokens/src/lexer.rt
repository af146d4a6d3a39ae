//! The lexer: text to tokens, one after another, the longest that fits each time.

ghost use Rattle.std.specs.Prelude.{◌≡◌, ◌+◌, ◌^◌, ◌<◌, ◌≤◌, ℕ, IfOk, IsTrue, List, length, nat_eq};
ghost use Rattle.traceql_tokens.specs.Printed.{ReadsToken, ReadsParen, ReadsSpace, ReadsEnd};
ghost use Rattle.traceql_tokens.specs.Tokens.{AreTokens, AreTokensOf};
ghost use Rattle.traceql_tokens.specs.Fixed.{scope_text};
ghost use Rattle.traceql_tokens.specs.Walk.{name_at, attribute_kind, attribute_at, literal_kind, IsTable, fixed_at, token_at};
ghost use Rattle.traceql_tokens.specs.declared.tables.TheConstants.{METRICS_WORDS};
ghost use Rattle.std.specs.List.{starts_with};
ghost use Rattle.traceql_tokens.specs.declared.kinds.Token.{Token};

use crate::numbers::number_at;
use crate::runs::{blank_len, digits_len, name_len};
use crate::strings::{Value, string_at};
use crate::tables::{METRICS_WORDS, WORDS, intrinsic_at, scope_at, sign_at, word_at};
use crate::{AttributeScope, Class, Token, TokenKind, Tokens, Word};
use span_types::{Memory, Text};
use std::alloc::Global;

/// A token, and how many bytes it has.
type Measured = (TokenKind, usize);

/// The name that the text begins with, which may be empty, and how many bytes it has.
#[tactic(auto, using(crate::proofs::LexerCases::name_cases))]
fn name_at(alloc: Global, text: &str, at: usize) -> Result<(Value, usize), Memory>
    requires { at + length text.now < 2 ^ 63 }
    ensures value { IfOk result (λ r. r ≡ name_at at text.now) }
    ensures within { IfOk result (λ r. r.1 ≤ length text.now) }
{
    if let Some(found) = string_at(alloc, text, at)? {
        return Ok(found);
    }
    let len = name_len(text.as_bytes());
    let name = String::from_str(alloc, &text[..len])?;
    Ok((Ok(Text::of(name)), len))
}

/// The token of an attribute with this name.
#[tactic(auto, using(crate::proofs::LexerCases::kind_cases))]
fn attribute_kind(scope: AttributeScope, name: Value) -> TokenKind
    ensures { result ≡ attribute_kind scope name }
{
    match name {
        Ok(name) if name.is_empty() => TokenKind::Nameless,
        Ok(name) => TokenKind::Named(scope, name),
        Err(fault) => TokenKind::Broken(Class::Attribute, fault),
    }
}

/// The attribute that the text begins with, which is of this scope.
#[tactic(auto, using(crate::proofs::LexerCases::attribute_cases))]
fn attribute_at(
    alloc: Global,
    scope: AttributeScope,
    text: &str,
    at: usize,
) -> Result<Measured, Memory>
    requires room { at + length text.now < 2 ^ 63 }
    requires start { IsTrue (starts_with nat_eq text.now (scope_text scope)) }
    ensures { IfOk result (λ r. r ≡ attribute_at at scope text.now) }
{
    let start = scope.text().len();
    let (name, len) = name_at(alloc, &text[start..], at + start)?;
    Ok((attribute_kind(scope, name), start + len))
}

/// The token of a string literal.
#[tactic(auto, unfolding(crate::specs::Walk::literal_kind))]
fn literal_kind(value: Value) -> TokenKind
    ensures { result ≡ literal_kind value }
{
    match value {
        Ok(value) => TokenKind::Quoted(value),
        Err(fault) => TokenKind::Broken(Class::Quoted, fault),
    }
}

/// The sign, the word or the intrinsic that the bytes begin with.
#[tactic(auto, using(crate::proofs::LexerCases::fixed_cases))]
fn fixed_at(words: &[Word], bytes: &[u8]) -> Option<Measured>
    ensures { result ≡ fixed_at words.now bytes.now }
{
    if let Some(sign) = sign_at(bytes) {
        return Some((TokenKind::Mark(sign), sign.text().len()));
    }
    if let Some(word) = word_at(words, bytes) {
        return Some((TokenKind::Keyword(word), word.text().len()));
    }
    let intrinsic = intrinsic_at(bytes)?;
    Some((TokenKind::Builtin(intrinsic), intrinsic.text().len()))
}

/// The longest token that the text begins with.
#[tactic(auto, using(crate::proofs::LexerCases::token_cases))]
fn token_at(
    alloc: Global,
    words: &[Word],
    text: &str,
    at: usize,
) -> Result<Option<Measured>, Memory>
    requires { at + length text.now < 2 ^ 63 }
    ensures { IfOk result (λ r. r ≡ token_at words.now at text.now) }
{
    let bytes = text.as_bytes();
    if let Some((value, len)) = string_at(alloc, text, at)? {
        return Ok(Some((literal_kind(value), len)));
    }
    if digits_len(bytes) > 0 {
        return Ok(Some(number_at(alloc, bytes)?));
    }
    match scope_at(bytes) {
        Some(scope) => Ok(Some(attribute_at(alloc, scope, text, at)?)),
        None => Ok(fixed_at(words, bytes)),
    }
}

/// The tokens of a text as they come, in a language with these words.
fn listed(alloc: Global, words: &[Word], text: &str) -> Result<Vec<Token>, Memory>
    requires { IsTable words.now }
    ensures { IfOk result (λ found. AreTokensOf words.now 0 text.now found.items) }
{
    let mut found = Vec::new(alloc);
    let mut at = 0;
    while at < text.len() {
        let start = at + blank_len(&text.as_bytes()[at..]);
        if start == text.len() {
            return Ok(found);
        }
        let Some((kind, len)) = token_at(alloc, words, &text[start..], start)? else {
            found.push(Token {
                at: start as u64,
                kind: TokenKind::Unknown,
            })?;
            return Ok(found);
        };
        found.push(Token {
            at: start as u64,
            kind,
        })?;
        at = start + len;
    }
    Ok(found)
}

/// The tokens of a text, each with the place of its first byte. A byte that begins no token is the last of them. It
/// fails only if memory runs out.
pub fn tokens(alloc: Global, text: &str) -> Result<Tokens, Memory>
    ensures found { IfOk result (λ ts. AreTokens 0 text.now ts) }
    ensures only { (ts : List Token) → AreTokens 0 text.now ts → IfOk result (λ us. us ≡ ts) }
{
    let found = listed(alloc, &WORDS, text)?;
    Ok(Tokens::of(found))
}

/// The tokens of the text of a metrics query, which has the words `rate` and `count_over_time` besides. It fails only
/// if memory runs out.
pub fn metrics_tokens(alloc: Global, text: &str) -> Result<Tokens, Memory>
    ensures found { IfOk result (λ ts. AreTokensOf METRICS_WORDS 0 text.now ts) }
    ensures only { (ts : List Token) → AreTokensOf METRICS_WORDS 0 text.now ts
        → IfOk result (λ us. us ≡ ts) }
{
    let found = listed(alloc, &METRICS_WORDS, text)?;
    Ok(Tokens::of(found))
}

/// A text has one list of tokens, and one as a metrics query: laws over the definition, which `tokens` and
/// `metrics_tokens` rest on.
pub fn one_reading()
    ensures query { (at : ℕ) (text : List ℕ) (ts us : List Token) → AreTokens at text ts
        → AreTokens at text us → ts ≡ us }
    ensures metrics { (at : ℕ) (text : List ℕ) (ts us : List Token)
        → AreTokensOf METRICS_WORDS at text ts → AreTokensOf METRICS_WORDS at text us → ts ≡ us }
{}

/// Nothing lengthens a token across the end, a space or a closing parenthesis, so a text in which these keep the tokens
/// apart has just these tokens: laws over the definition for whoever prints a query.
pub fn printed_tokens()
    ensures token { ReadsToken }
    ensures paren { ReadsParen }
    ensures space { ReadsSpace }
    ensures end { ReadsEnd }
{}
