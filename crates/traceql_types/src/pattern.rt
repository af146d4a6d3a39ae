//! Patterns of whole texts, compiled, and what searches by them.

ghost use Rattle.std.specs.Prelude.{◌≡◌, IfOk};
ghost use Rattle.regex.specs.Patterns.{default_config};
ghost use Rattle.regex.specs.Strings.{regex_source, regex_config, IsReadFromSource, matcher_pattern};
ghost use Rattle.traceql_types.specs.Whole.{whole_text, IsReadable, readable-prop, read-prop};

use regex::{Matcher, Regex};
use span_types::{Memory, Seq, Text};
use std::alloc::Global;

/// A pattern that a whole text matches or doesn't: it shows the text that it was made of, which is a pattern by itself,
/// and is what `regex` reads in that text put between `\A(?:` and `)\z`.
#[derive(Drop)]
pub struct Pattern {
    pub(crate) text: Text,
    pub(crate) regex: Regex,
    ghost alone: { IsReadable text } by { readable-prop text },
    ghost whole: { regex_source regex ≡ whole_text text },
    ghost options: { regex_config regex ≡ default_config },
    ghost read: { IsReadFromSource regex } by { read-prop regex },
}

impl Pattern {
    ghost use Rattle.traceql_types.specs.Patterns.{pattern_text, pattern_re};
    ghost use Rattle.traceql_types.specs.Whole.{IsReadAs};

    /// The text that it was made of.
    pub fn as_str(&self) -> &str
        ensures { result.now ≡ pattern_text self.now }
    {
        self.text.as_str()
    }

    /// What searches for this pattern in texts: a match of it is of the whole text.
    pub fn matcher(&self, alloc: Global) -> Result<Matcher<'_>, Memory>
        ensures pattern { IfOk result (λ m. matcher_pattern m ≡ pattern_re self.now) }
        ensures read { IfOk result
            (λ m. IsReadAs (whole_text (pattern_text self.now)) (matcher_pattern m)) }
    {
        let matcher = self.regex.matcher(alloc)?;
        Ok(matcher)
    }
}

/// Patterns, in the order in which a query asks for them.
pub type Patterns = Seq<Pattern>;
