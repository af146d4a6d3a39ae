//! Reading fields from the front of a slice.

ghost use Rattle.std.specs.Prelude.{◌≡◌, ℕ, ℤ, ◌<◌, ◌≤◌, ◌^◌, ◌++◌, ◌∷◌, [], ◌⊎◌, ◌↔◌, List, length, string_bytes, FitsSigned, IfOk, IsOkAnd, IfErr, IsErrOf, OnErr};
ghost use Rattle.std.specs.Int.{w64};
ghost use Rattle.std.specs.Str.{IsUtf8};
ghost use Rattle.byte_fields.specs.Spelling.{fixed32_bytes, fixed64_bytes, var_bytes, zigzag_bytes, text_bytes};
ghost use Rattle.byte_fields.specs.Numbers.{EndsInNumber, IsLongNumber};
ghost use Rattle.byte_fields.specs.Faults.{EndsInText, IsNoText};
ghost use Rattle.byte_fields.specs.Reading.{Reads, MayRead, MovesPast, left, raw_at, byte_at, fixed32_at, fixed64_at, var_at, zigzag_at, text_at};
ghost use Rattle.byte_fields.specs.declared.error.FieldError.TheVariants.{Short, NotShortest, NotText, Memory};

use crate::FieldError;
use crate::cursor::Cursor;
use span_types::Text;
use std::alloc::Global;
use std::marker::Model;

/// A reader of fields, which contracts see as all of its bytes and the place of the next one.
///
/// Each call reads one field and moves past it. A call that is refused leaves the reader where it was. The clause
/// `reads` of each call names the whole answer, for grammars of several fields; the others say what it comes to.
#[derive(Drop)]
pub struct Reader<'a> {
    alloc: Global,
    cursor: Cursor<'a>,
}

impl<'a> Model for Reader<'a> {
    ghost use Rattle.byte_fields.specs.Reading.{Stand};

    ghost Value = { Stand };

    ghost view = { λ r. r.cursor };
}

impl<'a> Reader<'a> {
    /// A reader at the first of the bytes. `Reader::text` takes memory of `alloc`.
    pub fn new(alloc: Global, bytes: &'a [u8]) -> Reader<'a>
        ensures { result ≡ record { whole = bytes.now; at = 0 } }
    {
        Reader {
            alloc,
            cursor: Cursor::new(bytes, 0),
        }
    }

    /// A reader at a later place of the bytes, or after the last of them.
    pub fn starting_at(alloc: Global, bytes: &'a [u8], at: u64) -> Reader<'a>
        requires { at ≤ length bytes.now }
        ensures { result ≡ record { whole = bytes.now; at = at } }
    {
        Reader {
            alloc,
            cursor: Cursor::new(bytes, at as usize),
        }
    }

    /// A second reader at the same place of the same bytes.
    pub fn fork(&self) -> Reader<'a>
        ensures { result ≡ self.now }
    {
        Reader {
            alloc: self.alloc,
            cursor: self.cursor.fork(),
        }
    }

    /// The place of the next byte, which is at most the number of bytes.
    pub fn at(&self) -> u64
        ensures place { result ≡ self.now.at }
        ensures within { self.now.at ≤ length self.now.whole }
    {
        self.cursor.at() as u64
    }

    /// The next `count` bytes.
    pub fn raw(&mut self, count: u64) -> Result<&'a [u8], FieldError>
        ensures value { IfOk result
            (λ x. (length x.now ≡ count) × MovesPast x.now self.old self.new) }
        ensures only { (bytes rest : List ℕ) → length bytes ≡ count → left self.old ≡ bytes ++ rest
            → IsOkAnd result (λ x. x.now ≡ bytes) }

        ensures short { IsErrOf result (Short (length self.old.whole)) ↔
            (length (left self.old) < count) }
        ensures errors { IfErr result (λ e. e ≡ Short (length self.old.whole)) }
        ensures stays { OnErr result (self.new ≡ self.old) }

        ensures reads { Reads (λ x. x.now) result self.old self.new (raw_at count self.old) }
    {
        self.cursor.raw(count)
    }

    /// A byte.
    pub fn byte(&mut self) -> Result<u8, FieldError>
        ensures value { IfOk result (λ b. MovesPast (b ∷ []) self.old self.new) }
        ensures only { (b : ℕ) (rest : List ℕ) → left self.old ≡ (b ∷ []) ++ rest → result ≡ Ok b }

        ensures short { IsErrOf result (Short (length self.old.whole)) ↔ (left self.old ≡ []) }
        ensures errors { IfErr result (λ e. e ≡ Short (length self.old.whole)) }
        ensures stays { OnErr result (self.new ≡ self.old) }

        ensures reads { Reads (λ x. x) result self.old self.new (byte_at self.old) }
    {
        self.cursor.byte()
    }

    /// A number of four bytes, little-endian.
    pub fn fixed32(&mut self) -> Result<u32, FieldError>
        ensures value { IfOk result (λ n. MovesPast (fixed32_bytes n) self.old self.new) }
        ensures only { (n : ℕ) (rest : List ℕ) → n < 2 ^ 32
            → left self.old ≡ fixed32_bytes n ++ rest → result ≡ Ok n }

        ensures short { IsErrOf result (Short (length self.old.whole)) ↔
            (length (left self.old) < 4) }
        ensures errors { IfErr result (λ e. e ≡ Short (length self.old.whole)) }
        ensures stays { OnErr result (self.new ≡ self.old) }

        ensures reads { Reads (λ x. x) result self.old self.new (fixed32_at self.old) }
    {
        self.cursor.fixed32()
    }

    /// A number of eight bytes, little-endian.
    pub fn fixed64(&mut self) -> Result<u64, FieldError>
        ensures value { IfOk result (λ n. MovesPast (fixed64_bytes n) self.old self.new) }
        ensures only { (n : ℕ) (rest : List ℕ) → n < 2 ^ 64
            → left self.old ≡ fixed64_bytes n ++ rest → result ≡ Ok n }

        ensures short { IsErrOf result (Short (length self.old.whole)) ↔
            (length (left self.old) < 8) }
        ensures errors { IfErr result (λ e. e ≡ Short (length self.old.whole)) }
        ensures stays { OnErr result (self.new ≡ self.old) }

        ensures reads { Reads (λ x. x) result self.old self.new (fixed64_at self.old) }
    {
        self.cursor.fixed64()
    }

    /// A number in groups of seven bits, in its shortest form.
    pub fn var(&mut self) -> Result<u64, FieldError>
        ensures value { IfOk result (λ n. MovesPast (var_bytes n) self.old self.new) }
        ensures only { (n : ℕ) (rest : List ℕ) → n < 2 ^ 64 → left self.old ≡ var_bytes n ++ rest
            → result ≡ Ok n }

        ensures short { IsErrOf result (Short (length self.old.whole)) ↔ EndsInNumber 9
            (left self.old) }
        ensures not_shortest { IsErrOf result (NotShortest self.old.at) ↔ IsLongNumber 9
            (left self.old) }
        ensures errors { IfErr result
            (λ e. (e ≡ Short (length self.old.whole)) ⊎ (e ≡ NotShortest self.old.at)) }
        ensures stays { OnErr result (self.new ≡ self.old) }

        ensures reads { Reads (λ x. x) result self.old self.new (var_at self.old) }
    {
        self.cursor.var()
    }

    /// A signed number: its zigzag number as a `var`.
    pub fn zigzag(&mut self) -> Result<i64, FieldError>
        ensures value { IfOk result (λ z. MovesPast (zigzag_bytes z) self.old self.new) }
        ensures only { (z : ℤ) (rest : List ℕ) → FitsSigned w64 z
            → left self.old ≡ zigzag_bytes z ++ rest → result ≡ Ok z }

        ensures short { IsErrOf result (Short (length self.old.whole)) ↔ EndsInNumber 9
            (left self.old) }
        ensures not_shortest { IsErrOf result (NotShortest self.old.at) ↔ IsLongNumber 9
            (left self.old) }
        ensures errors { IfErr result
            (λ e. (e ≡ Short (length self.old.whole)) ⊎ (e ≡ NotShortest self.old.at)) }
        ensures stays { OnErr result (self.new ≡ self.old) }

        ensures reads { Reads (λ x. x) result self.old self.new (zigzag_at self.old) }
    {
        self.cursor.zigzag()
    }

    /// A text: the `var` of its length, and its bytes in UTF-8, which stay where they are.
    pub fn text_str(&mut self) -> Result<&'a str, FieldError>
        ensures value { IfOk result
            (λ t. IsUtf8 t.now × MovesPast (text_bytes t.now) self.old self.new) }
        ensures only { (text rest : List ℕ) → IsUtf8 text → length text < 2 ^ 64
            → left self.old ≡ text_bytes text ++ rest
            → IsOkAnd result (λ t. t.now ≡ text) }

        ensures short { IsErrOf result (Short (length self.old.whole)) ↔ EndsInText
            (left self.old) }
        ensures not_shortest { IsErrOf result (NotShortest self.old.at) ↔ IsLongNumber 9
            (left self.old) }
        ensures not_text { IsErrOf result (NotText self.old.at) ↔ IsNoText (left self.old) }
        ensures errors { IfErr result
            (λ e. (e ≡ Short (length self.old.whole)) ⊎ (e ≡ NotShortest self.old.at)
            ⊎ (e ≡ NotText self.old.at)) }
        ensures stays { OnErr result (self.new ≡ self.old) }

        ensures reads { Reads (λ t. t.now) result self.old self.new (text_at self.old) }
    {
        self.cursor.text_str()
    }

    /// A text: the `var` of its length, and its bytes in UTF-8. Memory is taken only for bytes that are there.
    pub fn text(&mut self) -> Result<Text, FieldError>
        ensures value { IfOk result (λ t. IsUtf8 t × MovesPast (text_bytes t) self.old self.new) }
        ensures only { (text rest : List ℕ) → IsUtf8 text → length text < 2 ^ 64
            → left self.old ≡ text_bytes text ++ rest
            → (result ≡ Ok text) ⊎ (result ≡ Err Memory) }

        ensures short { IsErrOf result (Short (length self.old.whole)) ↔ EndsInText
            (left self.old) }
        ensures not_shortest { IsErrOf result (NotShortest self.old.at) ↔ IsLongNumber 9
            (left self.old) }
        ensures not_text { IsErrOf result (NotText self.old.at) ↔ IsNoText (left self.old) }
        ensures errors { IfErr result
            (λ e. (e ≡ Short (length self.old.whole)) ⊎ (e ≡ NotShortest self.old.at)
            ⊎ (e ≡ NotText self.old.at) ⊎ (e ≡ Memory)) }
        ensures stays { OnErr result (self.new ≡ self.old) }

        ensures reads { MayRead (λ x. x) result self.old self.new (text_at self.old) }
    {
        self.cursor.text(self.alloc)
    }
}
