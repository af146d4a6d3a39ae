//! A place in a slice of bytes, and the fields there: what `reader` reads by.

ghost use Rattle.std.specs.Prelude.{◌≡◌, ◌≤◌, length, IfOk};
ghost use Rattle.byte_fields.specs.Reading.{IsWithin, Reads, MayRead, raw_at, byte_at, fixed32_at, fixed64_at, var_at, zigzag_at, text_at};

use crate::FieldError;
use crate::number::{NumberFault, number_of};
use span_types::Text;
use std::alloc::Global;
use std::marker::Model;
use std::str;

/// A place in a slice of bytes. A call that is refused leaves the place as it was.
#[derive(Drop)]
pub struct Cursor<'a> {
    bytes: &'a [u8],
    at: usize,
}

impl<'a> Model for Cursor<'a> {
    ghost use Rattle.byte_fields.specs.Reading.{Stand, IsWithin};

    ghost Value = { Stand };

    ghost view = { λ c. record { whole = c.bytes.now; at = c.at } };

    ghost invariant = { λ c. IsWithin c.bytes.now c.at };
}

impl<'a> Cursor<'a> {
    /// A place in the bytes.
    pub fn new(bytes: &'a [u8], at: usize) -> Cursor<'a>
        requires { at ≤ length bytes.now }
        ensures { result ≡ record { whole = bytes.now; at = at } }
    {
        Cursor { bytes, at }
    }

    /// A second cursor at the same place.
    pub fn fork(&self) -> Cursor<'a>
        ensures { result ≡ self.now }
    {
        Cursor {
            bytes: self.bytes,
            at: self.at,
        }
    }

    /// The place.
    pub fn at(&self) -> usize
        ensures place { result ≡ self.now.at }
        ensures within { self.now.at ≤ length self.now.whole }
    {
        self.at
    }

    /// The next `count` bytes.
    #[tactic(auto, unfolding(crate::specs::Reading::raw_at))]
    pub fn raw(&mut self, count: u64) -> Result<&'a [u8], FieldError>
        ensures reads { Reads (λ x. x.now) result self.old self.new (raw_at count self.old) }
        ensures count { IfOk result (λ x. length x.now ≡ count) }
        ensures within { IsWithin self.old.whole self.old.at }
    {
        let bytes = self.bytes;
        let left = bytes.len() - self.at;
        if (left as u64) < count {
            return Err(FieldError::Short {
                at: bytes.len() as u64,
            });
        }
        let end = self.at + count as usize;
        let field = &bytes[self.at..end];
        self.at = end;
        Ok(field)
    }

    /// A byte.
    #[tactic(auto, unfolding(crate::specs::Reading::byte_at))]
    pub fn byte(&mut self) -> Result<u8, FieldError>
        ensures reads { Reads (λ x. x) result self.old self.new (byte_at self.old) }
        ensures within { IsWithin self.old.whole self.old.at }
    {
        let bytes = self.raw(1)?;
        Ok(bytes[0])
    }

    /// A number of four bytes.
    #[tactic(auto, unfolding(crate::specs::Reading::fixed32_at))]
    pub fn fixed32(&mut self) -> Result<u32, FieldError>
        ensures reads { Reads (λ x. x) result self.old self.new (fixed32_at self.old) }
        ensures within { IsWithin self.old.whole self.old.at }
    {
        let b = self.raw(4)?;
        Ok(u32::from_le_bytes([b[0], b[1], b[2], b[3]]))
    }

    /// A number of eight bytes.
    #[tactic(auto, unfolding(crate::specs::Reading::fixed64_at))]
    pub fn fixed64(&mut self) -> Result<u64, FieldError>
        ensures reads { Reads (λ x. x) result self.old self.new (fixed64_at self.old) }
        ensures within { IsWithin self.old.whole self.old.at }
    {
        let b = self.raw(8)?;
        Ok(u64::from_le_bytes([b[0], b[1], b[2], b[3], b[4], b[5], b[6], b[7]]))
    }

    /// A number in groups of seven bits.
    #[tactic(auto, unfolding(crate::specs::Reading::var_at, crate::specs::Numbers::number_at))]
    pub fn var(&mut self) -> Result<u64, FieldError>
        ensures reads { Reads (λ x. x) result self.old self.new (var_at self.old) }
        ensures within { IsWithin self.old.whole self.old.at }
    {
        let bytes = self.bytes;
        if let [group, ..] = &bytes[self.at..] {
            if *group < 128 {
                self.at += 1;
                return Ok(u64::from(*group));
            }
        }
        match number_of(&bytes[self.at..], 9) {
            Ok((number, rest)) => {
                self.at = bytes.len() - rest.len();
                Ok(number)
            }
            Err(NumberFault::Short) => Err(FieldError::Short {
                at: bytes.len() as u64,
            }),
            Err(NumberFault::Long) => Err(FieldError::NotShortest { at: self.at as u64 }),
        }
    }

    /// A signed number.
    #[tactic(auto, unfolding(crate::specs::Reading::zigzag_at))]
    pub fn zigzag(&mut self) -> Result<i64, FieldError>
        ensures reads { Reads (λ x. x) result self.old self.new (zigzag_at self.old) }
        ensures within { IsWithin self.old.whole self.old.at }
    {
        let number = self.var()?;
        let half = (number / 2) as i64;
        Ok(if number % 2 == 0 { half } else { -half - 1 })
    }

    /// A text, borrowed from the bytes.
    pub fn text_str(&mut self) -> Result<&'a str, FieldError>
        ensures reads { Reads (λ t. t.now) result self.old self.new (text_at self.old) }
        ensures within { IsWithin self.old.whole self.old.at }
    {
        let mut next = Cursor {
            bytes: self.bytes,
            at: self.at,
        };
        let length = next.var()?;
        let field = next.raw(length)?;
        let Ok(text) = str::from_utf8(field) else {
            return Err(FieldError::NotText { at: self.at as u64 });
        };
        *self = next;
        Ok(text)
    }

    /// A text, in memory of `alloc`.
    pub fn text(&mut self, alloc: Global) -> Result<Text, FieldError>
        ensures reads { MayRead (λ t. t) result self.old self.new (text_at self.old) }
        ensures within { IsWithin self.old.whole self.old.at }
    {
        let mut next = Cursor {
            bytes: self.bytes,
            at: self.at,
        };
        let borrowed = next.text_str()?;
        let Ok(text) = String::from_str(alloc, borrowed) else {
            return Err(FieldError::Memory);
        };
        *self = next;
        Ok(Text::of(text))
    }
}
