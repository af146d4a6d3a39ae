//! What makes patterns: the trait, the maker over `regex`, and one for tests whose refusals are listed.

ghost use Rattle.std.specs.Prelude.{◌≡◌, ◌≢◌, ℕ, ◌+◌, ◌-◌, ◌^◌, ◌<◌, List, length, min, IfOk, IfErr, IsErrOf, string_bytes};
ghost use Rattle.traceql_types.specs.Patterns.{pattern_text};
ghost use Rattle.traceql_types.specs.Makers.{Makes, RefusesOnly, RegexCall, Script, ScriptedCall, counted_up, cause_of_error};
ghost use Rattle.traceql_types.specs.Whole.{whole_text, IsReadable, IsUnreadable, IsNoPattern};

use crate::{MakeError, Pattern};
use regex::{Error, Regex};
use regex_syntax::{Config, ErrorKind};
use span_types::{Calls, Text};
use std::alloc::{AllocError, Global};
use std::marker::Model;

/// Makes patterns of texts. A pattern is what `regex` reads in the text put between `\A(?:` and `)\z`, as `Pattern`
/// says.
pub trait PatternMaker {
    // Which call, a text with its answer, leads from which state of the maker to which.
    ghost makes: { Makes Self };

    /// The pattern of a text. `Syntax` says that `regex` reads no pattern from the text, or none from it when it is put
    /// between `\A(?:` and `)\z`, or that it nests too deep.
    fn make(&mut self, text: &str) -> Result<Pattern, MakeError>
        ensures shows { IfOk result (λ p. pattern_text p ≡ text.now) }
        ensures syntax { IsErrOf result MakeError.Syntax → IsNoPattern text.now }
        ensures call { makes self.old (text.now, result) self.new };
}

// The cause of a refusal by the parser of patterns.
fn fault_of(kind: ErrorKind) -> MakeError
    ensures syntax { result ≡ MakeError.Syntax → kind ≢ ErrorKind.OutOfMemory }
    ensures never_refused { result ≢ MakeError.Refused }
{
    match kind {
        ErrorKind::OutOfMemory => MakeError::Memory,
        _ => MakeError::Syntax,
    }
}

// Reads the text by itself, since `a)(b` would be read between the parentheses.
fn read_alone(alloc: Global, text: &str) -> Result<(), MakeError>
    ensures readable { IfOk result (λ done. IsReadable text.now) }
    ensures syntax { IsErrOf result MakeError.Syntax → IsUnreadable text.now }
    ensures never_refused { IfErr result (λ e. e ≢ MakeError.Refused) }
{
    match regex_syntax::parse(alloc, text, &Config::default()) {
        Ok(_) => Ok(()),
        Err(error) => Err(fault_of(error.kind)),
    }
}

// The text between `\A(?:` and `)\z`.
fn wrapped(alloc: Global, text: &str) -> Result<String, AllocError>
    ensures { IfOk result (λ whole. string_bytes whole ≡ whole_text text.now) }
{
    let mut whole = String::new(alloc);
    whole.push_str("\\A(?:")?;
    whole.push_str(text)?;
    whole.push_str(")\\z")?;
    Ok(whole)
}

// The cause of a refusal by `regex`.
fn cause_of(error: Error) -> MakeError
    ensures { result ≡ cause_of_error error }
{
    match error {
        Error::Syntax(_) => MakeError::Syntax,
        Error::OutOfMemory => MakeError::Memory,
        Error::CompiledTooBig | Error::Internal => MakeError::Refused,
    }
}

// The pattern of a text, compiled.
fn compiled(alloc: Global, text: &str) -> Result<Pattern, MakeError>
    ensures shows { IfOk result (λ p. pattern_text p ≡ text.now) }
    ensures syntax { IsErrOf result MakeError.Syntax → IsNoPattern text.now }
    ensures refused { IsErrOf result MakeError.Refused → IsReadable (whole_text text.now) }
{
    read_alone(alloc, text)?;
    let whole = match wrapped(alloc, text) {
        Ok(whole) => whole,
        Err(_) => return Err(MakeError::Memory),
    };
    let regex = match Regex::new(alloc, whole.as_str()) {
        Ok(regex) => regex,
        Err(error) => return Err(cause_of(error)),
    };
    match String::from_str(alloc, text) {
        Ok(shown) => Ok(Pattern {
            text: Text::of(shown),
            regex,
        }),
        Err(_) => Err(MakeError::Memory),
    }
}

/// Makes patterns by `regex`, and counts those that it refuses for their size: their text is a pattern, but what is
/// compiled of it passes `regex`'s limit.
#[derive(Drop)]
pub struct RegexMaker {
    alloc: Global,
    refusals: u64,
}

impl Model for RegexMaker {
    ghost use Rattle.std.specs.Prelude.{ℕ};

    ghost Value = { ℕ };

    ghost view = { λ m. m.refusals };
}

impl RegexMaker {
    /// A maker that was not called yet.
    pub fn new(alloc: Global) -> RegexMaker
        ensures { result ≡ 0 }
    {
        RegexMaker { alloc, refusals: 0 }
    }

    /// How many patterns were refused so far. The count saturates at its type's end.
    pub fn refusals(&self) -> u64
        ensures { result ≡ self.now }
    {
        self.refusals
    }

    // Counts a refusal.
    fn refuse(&mut self)
        ensures { self.new ≡ counted_up self.old }
    {
        self.refusals = self.refusals.saturating_add(1);
    }
}

impl PatternMaker for RegexMaker {
    ghost makes = { RegexCall };

    fn make(&mut self, text: &str) -> Result<Pattern, MakeError>
        ensures shows { IfOk result (λ p. pattern_text p ≡ text.now) }
        ensures syntax { IsErrOf result MakeError.Syntax → IsNoPattern text.now }
        ensures call { RegexCall self.old (text.now, result) self.new }
    {
        let made = compiled(self.alloc, text);
        if let Err(MakeError::Refused) = &made {
            self.refuse();
        }
        made
    }
}

/// Refuses and counts the calls that are listed, counted from 1, and hands every other to a `RegexMaker`.
#[derive(Drop)]
pub struct ScriptedMaker {
    refused: Calls,
    calls: u64,
    inner: RegexMaker,
}

impl Model for ScriptedMaker {
    ghost use Rattle.traceql_types.specs.Makers.{Script};

    ghost Value = { Script };

    ghost view = { λ m. record { refused = m.refused; calls = m.calls; refusals = m.inner } };
}

impl ScriptedMaker {
    /// A maker that was not called yet and refuses these calls.
    pub fn new(alloc: Global, refused: Calls) -> ScriptedMaker
        ensures { result ≡ record { refused = refused; calls = 0; refusals = 0 } }
    {
        ScriptedMaker {
            refused,
            calls: 0,
            inner: RegexMaker::new(alloc),
        }
    }

    /// How many patterns were refused so far, those that the `RegexMaker` refused among them. The count saturates at
    /// its type's end.
    pub fn refusals(&self) -> u64
        ensures { result ≡ self.now.refusals }
    {
        self.inner.refusals()
    }
}

impl PatternMaker for ScriptedMaker {
    ghost makes = { ScriptedCall };

    fn make(&mut self, text: &str) -> Result<Pattern, MakeError>
        ensures shows { IfOk result (λ p. pattern_text p ≡ text.now) }
        ensures syntax { IsErrOf result MakeError.Syntax → IsNoPattern text.now }
        ensures call { ScriptedCall self.old (text.now, result) self.new }
    {
        self.calls = self.calls.saturating_add(1);
        if self.refused.as_slice().contains(&self.calls) {
            self.inner.refuse();
            return Err(MakeError::Refused);
        }
        self.inner.make(text)
    }
}

/// The counts of both makers tell how many texts they refused: a law.
pub fn refusals_are_counted()
    ensures regex { (old new : ℕ) (texts : List (List ℕ)) → old < 2 ^ 64
        → RefusesOnly RegexCall old new texts
        → new ≡ min (old + length texts) (2 ^ 64 - 1) }
    ensures scripted { (old new : Script) (texts : List (List ℕ)) → old.refusals < 2 ^ 64
        → RefusesOnly ScriptedCall old new texts
        → new.refusals ≡ min (old.refusals + length texts) (2 ^ 64 - 1) }
{}
