//! Writing fields, one after the other.

ghost use Rattle.std.specs.Prelude.{◌≡◌, ◌≤◌, ◌++◌, ◌∷◌, [], OnOk, OnErr, length, take};
ghost use Rattle.byte_fields.specs.Spelling.{fixed32_bytes, fixed64_bytes, var_bytes, zigzag_bytes, zigzag_number, text_bytes};

use span_types::{Bytes, Memory};
use std::alloc::Global;
use std::marker::Model;

/// A writer of fields, which contracts see as the bytes written so far.
///
/// A call adds the one encoding of its value, or runs out of memory and leaves the writer as it was.
#[derive(Drop)]
pub struct Writer {
    bytes: Vec<u8>,
}

impl Model for Writer {
    ghost use Rattle.std.specs.Prelude.{List, ℕ};

    ghost Value = { List ℕ };

    ghost view = { λ w. w.bytes.items };
}

impl Writer {
    /// A writer with no bytes yet.
    pub fn new(alloc: Global) -> Writer
        ensures { result ≡ [] }
    {
        Writer {
            bytes: Vec::new(alloc),
        }
    }

    /// The bytes that were written.
    pub fn finish(self) -> Bytes
        ensures { result ≡ self }
    {
        Bytes::of(self.bytes)
    }

    /// Adds these bytes.
    pub fn raw(&mut self, value: &[u8]) -> Result<(), Memory>
        ensures ok { OnOk result (self.new ≡ self.old ++ value.now) }
        ensures err { OnErr result (self.new ≡ self.old) }
    {
        self.bytes.extend_from_slice(value)?;
        Ok(())
    }

    /// Adds a byte.
    pub fn byte(&mut self, value: u8) -> Result<(), Memory>
        ensures ok { OnOk result (self.new ≡ self.old ++ value ∷ []) }
        ensures err { OnErr result (self.new ≡ self.old) }
    {
        self.bytes.push(value)?;
        Ok(())
    }

    /// Adds a number of four bytes, little-endian.
    pub fn fixed32(&mut self, value: u32) -> Result<(), Memory>
        ensures ok { OnOk result (self.new ≡ self.old ++ fixed32_bytes value) }
        ensures err { OnErr result (self.new ≡ self.old) }
    {
        self.raw(&value.to_le_bytes())
    }

    /// Adds a number of eight bytes, little-endian.
    pub fn fixed64(&mut self, value: u64) -> Result<(), Memory>
        ensures ok { OnOk result (self.new ≡ self.old ++ fixed64_bytes value) }
        ensures err { OnErr result (self.new ≡ self.old) }
    {
        self.raw(&value.to_le_bytes())
    }

    /// Adds a number in groups of seven bits, in its shortest form.
    pub fn var(&mut self, value: u64) -> Result<(), Memory>
        ensures ok { OnOk result (self.new ≡ self.old ++ var_bytes value) }
        ensures err { OnErr result (self.new ≡ self.old) }
    {
        let (groups, count) = groups_of(value);
        self.raw(&groups[..count])
    }

    /// Adds a signed number, as the `var` of its zigzag number.
    pub fn zigzag(&mut self, value: i64) -> Result<(), Memory>
        ensures ok { OnOk result (self.new ≡ self.old ++ zigzag_bytes value) }
        ensures err { OnErr result (self.new ≡ self.old) }
    {
        self.var(zigzag_of(value))
    }

    /// Adds a text: the `var` of its length, and its bytes.
    pub fn text(&mut self, value: &str) -> Result<(), Memory>
        ensures ok { OnOk result (self.new ≡ self.old ++ text_bytes value.now) }
        ensures err { OnErr result (self.new ≡ self.old) }
    {
        let (groups, count) = groups_of(value.len() as u64);
        self.bytes.reserve(count + value.len())?;
        self.bytes.extend_from_slice(&groups[..count])?;
        self.bytes.extend_from_slice(value.as_bytes())?;
        Ok(())
    }
}

/// The groups of a number, the lowest first, and how many they are.
fn groups_of(value: u64) -> ([u8; 10], usize)
    ensures groups { take result.1 result.0 ≡ var_bytes value }
    ensures count { result.1 ≤ 10 }
{
    let mut groups = [0; 10];
    let mut rest = value;
    for index in 0..9 {
        if rest < 128 {
            groups[index] = rest as u8;
            return (groups, index + 1);
        }
        groups[index] = (rest % 128) as u8 + 128;
        rest /= 128;
    }
    groups[9] = rest as u8;
    (groups, 10)
}

/// The place of a signed number among 0, -1, 1, -2, 2 and so on.
fn zigzag_of(value: i64) -> u64
    ensures { result ≡ zigzag_number value }
{
    if value < 0 {
        2 * (-(value + 1)) as u64 + 1
    } else {
        2 * value as u64
    }
}
