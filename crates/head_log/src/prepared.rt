//! A record before it is written, spans to bytes. All the memory that it needs is taken here, so that `append` takes
//! none.

ghost use Rattle.std.specs.Prelude.{◌≡◌, ◌<◌, ◌≤◌, ◌^◌, ◌++◌, drop, length, vec_len, IfOk};
ghost use Rattle.byte_fields.specs.Spelling.{fixed64_bytes};
ghost use Rattle.head_log.specs.Bodies.{body_bytes};
ghost use Rattle.head_log.specs.Records.{framed};
ghost use Rattle.head_log.specs.Stands.{IsBatchBody};

use crate::writing::put_body;
use byte_fields::Writer;
use span_types::{Batch, Memory};
use std::alloc::Global;
use std::marker::Model;

/// The bytes after a record's gate, in one piece: the length of the body, the body, and the next gate, which is closed.
/// Contracts see the number and the body.
#[derive(Debug, Drop)]
pub struct Prepared {
    number: u64,
    text: Vec<u8>,
}

impl Model for Prepared {
    ghost use Rattle.head_log.specs.Stands.{Entry};
    ghost use Rattle.head_log.specs.Framing.{body_of, IsFramed};

    ghost Value = { Entry };

    ghost view = { λ p. record { number = p.number; body = body_of p.text.items } };

    ghost invariant = { λ p. IsFramed p.text.items };
}

impl Prepared {
    /// The record of a batch under this number. All the memory that it takes is taken here.
    ///
    /// Only numbers below 4,294,967,295 can be appended.
    pub fn of(alloc: Global, number: u64, batch: &Batch) -> Result<Prepared, Memory>
        ensures number { IfOk result (λ p. p.number ≡ number) }
        ensures spelled { IfOk result (λ p. p.body ≡ body_bytes number batch.now.spans) }
        ensures body { number < 4294967295
            → IfOk result (λ p. IsBatchBody number batch.now.spans p.body) }
    {
        let mut out = Writer::new(alloc);
        out.fixed64(0)?;
        put_body(&mut out, number, batch.spans.as_slice())?;
        out.byte(CLOSED)?;
        let mut text = out.finish().into_vec();
        let length = (text.len() - 9) as u64;
        set_length(&mut text, length);
        Ok(Prepared { number, text })
    }

    /// The number.
    pub fn number(&self) -> u64
        ensures { result ≡ self.now.number }
    {
        self.number
    }

    /// What is written after the gate.
    pub(crate) fn text(&self) -> &[u8]
        ensures text { result.now ≡ framed self.now.body }
        ensures short { length self.now.body < 2 ^ 64 }
    {
        self.text.as_slice()
    }
}

/// A closed gate: the next record's, which doesn't count until it is written.
const CLOSED: u8 = 0;

/// Writes the length of a body over the first eight bytes. It is known only once the body stands after them, so zeros
/// stood in its place.
fn set_length(text: &mut Vec<u8>, length: u64)
    requires { 8 ≤ vec_len text.old }
    ensures { text.new.items ≡ fixed64_bytes length ++ drop 8 text.old.items }
{
    let bytes = length.to_le_bytes();
    for i in 0..8 {
        text[i] = bytes[i];
    }
}
