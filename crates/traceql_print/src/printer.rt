//! The text so far, which grows token by token.

ghost use Rattle.std.specs.Prelude.{◌≡◌, ◌++◌, OnOk, string_bytes};
ghost use Rattle.traceql_tokens.specs.declared.kinds.TokenKind.TheVariants as token;
ghost use Rattle.traceql_print.specs.Signs.{field_kind, literal_kind};
ghost use Rattle.traceql_print.specs.Text.{field_text, opens, closes};

use crate::signs::{kind_word, status_word, truth_word};
use crate::string::{push_name, push_quoted};
use span_types::{Memory, Text};
use std::alloc::Global;
use std::marker::Model;
use traceql_syntax::{Field, Literal};
use traceql_tokens::{Sign, Word};

/// Whether no space stands after a sign.
fn opens(sign: Sign) -> bool
    ensures { result ≡ opens (token.Mark sign) }
{
    matches!(sign, Sign::OpenParen)
}

/// Whether no space stands before a sign.
fn closes(sign: Sign) -> bool
    ensures { result ≡ closes (token.Mark sign) }
{
    matches!(sign, Sign::CloseParen)
}

/// Writes a field, which is one token.
pub(crate) fn push_field(out: &mut String, field: &Field) -> Result<(), Memory>
    ensures { OnOk result (string_bytes out.new ≡ string_bytes out.old ++ field_text field.now) }
{
    match field {
        Field::Attribute(scope, name) => {
            out.push_str(scope.text())?;
            push_name(out, name.as_str())
        }
        Field::Intrinsic(intrinsic) => {
            out.push_str(intrinsic.text())?;
            Ok(())
        }
    }
}

/// The text so far, and whether the next token stands at it without a space: where the text begins, and after `(`.
#[derive(Drop)]
pub(crate) struct Printer {
    text: String,
    tight: bool,
}

impl Model for Printer {
    ghost use Rattle.std.specs.Prelude.{string_bytes};
    ghost use Rattle.traceql_print.specs.Printer as seen;

    ghost Value = { seen.Printer };

    ghost view = { λ s. record { text = string_bytes s.text; tight = s.tight } };
}

impl Printer {
    ghost use Rattle.traceql_print.specs.Printer.{blank, spaced, put};

    /// A printer without text.
    pub(crate) fn new(alloc: Global) -> Printer
        ensures { result ≡ blank }
    {
        Printer {
            text: String::new(alloc),
            tight: true,
        }
    }

    /// The text.
    pub(crate) fn into_text(self) -> Text
        ensures { result ≡ self.text }
    {
        Text::of(self.text)
    }

    /// Writes the space before a token; there is none where the token is `)`.
    fn space(&mut self, closing: bool) -> Result<(), Memory>
        ensures { OnOk result (self.new ≡ spaced self.old closing) }
    {
        if closing || self.tight {
            return Ok(());
        }
        self.text.push_str(" ")?;
        Ok(())
    }

    /// Writes a sign.
    pub(crate) fn sign(&mut self, sign: Sign) -> Result<(), Memory>
        ensures { OnOk result (self.new ≡ put self.old (token.Mark sign)) }
    {
        self.space(closes(sign))?;
        self.text.push_str(sign.text())?;
        self.tight = opens(sign);
        Ok(())
    }

    /// Writes a word.
    pub(crate) fn word(&mut self, word: Word) -> Result<(), Memory>
        ensures { OnOk result (self.new ≡ put self.old (token.Keyword word)) }
    {
        self.space(false)?;
        self.text.push_str(word.text())?;
        self.tight = false;
        Ok(())
    }

    /// Writes a field.
    pub(crate) fn field(&mut self, field: &Field) -> Result<(), Memory>
        ensures { OnOk result (self.new ≡ put self.old (field_kind field.now)) }
    {
        self.space(false)?;
        push_field(&mut self.text, field)?;
        self.tight = false;
        Ok(())
    }

    /// Writes a string.
    pub(crate) fn string(&mut self, value: &str) -> Result<(), Memory>
        ensures { OnOk result (self.new ≡ put self.old (token.Quoted value.now)) }
    {
        self.space(false)?;
        push_quoted(&mut self.text, value)?;
        self.tight = false;
        Ok(())
    }

    /// Writes a number.
    pub(crate) fn number(&mut self, number: u64) -> Result<(), Memory>
        ensures { OnOk result (self.new ≡ put self.old (token.Number number)) }
    {
        self.space(false)?;
        write!(self.text, "{number}")?;
        self.tight = false;
        Ok(())
    }

    /// Writes a duration.
    pub(crate) fn duration(&mut self, nanos: u64) -> Result<(), Memory>
        ensures { OnOk result (self.new ≡ put self.old (token.Duration nanos)) }
    {
        self.space(false)?;
        write!(self.text, "{nanos}ns")?;
        self.tight = false;
        Ok(())
    }

    /// Writes a literal.
    pub(crate) fn literal(&mut self, literal: &Literal) -> Result<(), Memory>
        ensures { OnOk result (self.new ≡ put self.old (literal_kind literal.now)) }
    {
        match literal {
            Literal::Text(value) => self.string(value.as_str()),
            Literal::Number(number) => self.number(*number),
            Literal::Duration(nanos) => self.duration(*nanos),
            Literal::Truth(truth) => self.word(truth_word(*truth)),
            Literal::Nil => self.word(Word::Nil),
            Literal::Status(status) => self.word(status_word(*status)),
            Literal::Kind(kind) => self.word(kind_word(*kind)),
        }
    }
}
