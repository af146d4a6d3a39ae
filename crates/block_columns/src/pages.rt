//! What is written of columns: bytes, and the values that they refer to.

ghost use Rattle.std.specs.Prelude.{◌≡◌, ◌++◌, [], ℕ, All, List, OnOk, IfOk, length, map, true};
ghost use Rattle.indexmap.specs.IndexSet.{contains, insert_index, insert_key};
ghost use Rattle.byte_fields.specs.Spelling.{fixed64_bytes, text_bytes, var_bytes, zigzag_bytes};
ghost use Rattle.byte_fields.specs.Sound.{AreSound};
ghost use Rattle.block_columns.specs.ColumnEncodings.{Encoding, column, counted, plain, reference, wrote};

use byte_fields::Writer;
use indexmap::IndexSet;
use span_types::Memory;
use std::alloc::Global;
use std::hash::Hash;
use std::marker::Model;

/// Guesses of the next number that is referred to: a number is mostly followed by the one that followed it before.
#[derive(Drop)]
struct Guesses {
    after: Vec<usize>,
    last: usize,
}

impl Guesses {
    fn none(alloc: Global) -> Guesses {
        Guesses {
            after: Vec::new(alloc),
            last: 0,
        }
    }

    /// The guess. Nothing rests on it.
    fn next(&self) -> usize {
        match self.after.get(self.last) {
            Some(number) => *number,
            None => 0,
        }
    }

    /// This number came where the other was guessed. A new one takes its place: what followed that is guessed to follow it.
    fn came(&mut self, guess: usize, number: usize) -> Result<(), Memory> {
        if let Some(after) = self.after.get_mut(self.last) {
            *after = number;
        }
        if number == self.after.len() {
            let next = *self.after.get(guess).unwrap_or(&number);
            self.after.push(next)?;
        }
        self.last = number;
        Ok(())
    }
}

/// Whether the value has this number.
fn is_at<'a, T: Eq + Hash>(values: &IndexSet<&'a T>, number: usize, value: &'a T) -> bool
    ensures number { result ≡ true
        → insert_index (λ a b. T.eq a.now b.now) values.now value.entry ≡ number }
    ensures there { result ≡ true
        → contains (λ a b. T.eq a.now b.now) values.now value.entry ≡ true }
{
    let _ = values.len();
    let Some(there) = values.get_index(number) else {
        return false;
    };
    *value == **there
}

/// The value's number, or the one that it gets as the last value. It is looked up where the guess is wrong.
fn number_of<'a, T: Eq + Hash>(
    values: &mut IndexSet<&'a T>,
    guess: usize,
    value: &'a T,
) -> Result<usize, Memory>
    ensures number { IfOk result
        (λ n. n ≡ insert_index (λ a b. T.eq a.now b.now) values.old value.entry) }
    ensures keys { OnOk result
        (values.new.keys ≡ insert_key (λ a b. T.eq a.now b.now) values.old.keys value.entry) }
{
    if is_at(values, guess, value) {
        return Ok(guess);
    }
    let (number, _) = values.insert_full(value)?;
    Ok(number)
}

/// Bytes, and the values that they refer to in order of first use. The values are borrowed and not copied.
#[derive(Drop)]
pub struct Page<'a, T: Eq + Hash> {
    out: Writer,
    values: IndexSet<&'a T>,
    guesses: Guesses,
}

impl<'a, T: Eq + Hash> Model for Page<'a, T> {
    ghost use Rattle.std.specs.Prelude.{map};
    ghost use Rattle.block_columns.specs.ColumnEncodings.{Encoded};

    ghost Value = { Encoded T };

    ghost view = { λ p. (p.out, map (λ k. k.now) p.values.keys) };
}

impl<'a, T: Eq + Hash> Page<'a, T> {
    /// Nothing yet.
    pub fn new(alloc: Global) -> Page<'a, T>
        ensures { result ≡ ([], []) }
    {
        Page {
            out: Writer::new(alloc),
            values: IndexSet::new(alloc),
            guesses: Guesses::none(alloc),
        }
    }

    /// The bytes, and the values in order of first use.
    pub fn finish(self) -> (Writer, IndexSet<&'a T>)
        ensures { (result.0, map (λ k. k.now) result.1.keys) ≡ self.entry }
    {
        (self.out, self.values)
    }

    /// Adds a moment.
    pub fn moment(&mut self, value: u64) -> Result<(), Memory>
        ensures { OnOk result (self.new ≡ wrote (plain fixed64_bytes) value self.old) }
    {
        self.out.fixed64(value)
    }

    /// Adds a number.
    pub fn number(&mut self, value: u64) -> Result<(), Memory>
        ensures { OnOk result (self.new ≡ wrote (plain var_bytes) value self.old) }
    {
        self.out.var(value)
    }

    /// Adds a signed number.
    pub fn whole(&mut self, value: i64) -> Result<(), Memory>
        ensures { OnOk result (self.new ≡ wrote (plain zigzag_bytes) value self.old) }
    {
        self.out.zigzag(value)
    }

    /// Adds a text in full.
    pub fn text(&mut self, value: &str) -> Result<(), Memory>
        ensures { OnOk result (self.new ≡ wrote (plain text_bytes) value.now self.old) }
    {
        self.out.text(value)
    }

    /// Adds these bytes.
    pub fn raw(&mut self, value: &[u8]) -> Result<(), Memory>
        ensures { OnOk result (self.new ≡ wrote (plain (λ x. x)) value.now self.old) }
    {
        self.out.raw(value)
    }

    /// Adds a reference to a value.
    pub fn reference(&mut self, value: &'a T) -> Result<(), Memory>
        ensures { OnOk result (self.new ≡ wrote (reference T.eq) value.now self.old) }
    {
        let guess = self.guesses.next();
        let number = number_of(&mut self.values, guess, value)?;
        self.guesses.came(guess, number)?;
        self.out.var(number as u64)
    }
}

/// How values are written.
pub trait Put<T: Eq + Hash, A> {
    /// What a value is encoded as.
    ghost encoding: { Self → Encoding T A };

    /// What its type promises, as far as its reader asks for it.
    ghost promise: { Self → A → Type 0 };

    /// Adds a value.
    fn put<'a>(&self, page: &mut Page<'a, T>, value: &'a A) -> Result<(), Memory>
        ensures written { OnOk result (page.new ≡ wrote (encoding self.now) value.now page.old) }
        ensures sound { OnOk result (promise self.now value.now) };
}

/// How a borrowed value is written: as the value.
#[derive(Drop)]
pub struct Borrowed<P> {
    /// How the value is written.
    pub kind: P,
}

impl<'b, T: Eq + Hash, A, P: Put<T, A>> Put<T, &'b A> for Borrowed<P> {
    ghost encoding = { λ b value. P.encoding b.kind value.now };

    ghost promise = { λ b value. P.promise b.kind value.now };

    fn put<'a>(&self, page: &mut Page<'a, T>, value: &'a &'b A) -> Result<(), Memory> {
        self.kind.put(page, *value)
    }
}

/// Adds a column.
pub fn put_column<'a, T: Eq + Hash, A, P: Put<T, A>>(
    page: &mut Page<'a, T>,
    kind: &P,
    values: &'a [A],
) -> Result<(), Memory>
    ensures written { OnOk result
        (page.new ≡ wrote (column (P.encoding kind.now)) values.now page.old) }
    ensures sound { OnOk result (All (P.promise kind.now) values.now) }
{
    for value in values {
        kind.put(page, value)?;
    }
    Ok(())
}

/// Adds a count, and so many values.
#[tactic(auto, unfolding(crate::specs::ColumnEncodings::counted))]
pub fn put_counted<'a, T: Eq + Hash, A, P: Put<T, A>>(
    page: &mut Page<'a, T>,
    kind: &P,
    values: &'a [A],
) -> Result<(), Memory>
    ensures written { OnOk result
        (page.new ≡ wrote (counted (P.encoding kind.now)) values.now page.old) }
    ensures sound { OnOk result (AreSound (P.promise kind.now) values.now) }
{
    page.number(count(values))?;
    put_column(page, kind, values)
}

/// How many values there are.
fn count<A>(values: &[A]) -> u64
    ensures { result ≡ length values.now }
{
    values.len() as u64
}

/// Adds a table: a count, and so many values, which are borrowed.
pub fn put_table<'a, 'b, T: Eq + Hash, A: Eq + Hash, P: Put<T, A> + Drop>(
    page: &mut Page<'a, T>,
    kind: P,
    table: &'a IndexSet<&'b A>,
) -> Result<(), Memory>
    ensures written { OnOk result
        (page.new ≡ wrote (counted (P.encoding kind)) (map (λ k. k.now) table.now.keys) page.old) }
    ensures sound { OnOk result (AreSound (P.promise kind) (map (λ k. k.now) table.now.keys)) }
{
    put_counted(page, &Borrowed { kind }, table.as_slice())?;
    Ok(())
}
