//! The texts that a stripe begins with. No row of the stripe has another one.

ghost use Rattle.std.specs.Prelude.{◌≡◌, ◌+◌, ◌≤◌, [], ℕ, Bool, IfSome, IsTrue, List, Ok, length, take};
ghost use Rattle.std.specs.List.{list_any};
ghost use Rattle.std.specs.Str.{bytes_eq};
ghost use Rattle.span_types.specs.declared.spans.Row.{Row};
ghost use Rattle.block_columns.specs.ColumnReadings.{Spot};
ghost use Rattle.block_stripes.specs.StripeReadings.{content_part, stripe_at};
ghost use Rattle.block_stripes.specs.StripeStarts.{content_spot};
ghost use Rattle.column_scan.specs.Candidates.{hinted_picks, spans_of};
ghost use Rattle.column_scan.specs.StripeTexts.{IsNextCount, IsNextText, texts_of};

use crate::Hint;
use byte_fields::Reader;
use std::alloc::Global;

// Whether no row of a stripe can hold the hint's text, by the texts that the stripe begins with. False says nothing.
pub fn lacks_text(alloc: Global, bytes: &[u8], hint: &Hint) -> bool
    ensures { IsTrue result → (extended : Bool) (rows : List Row)
        → stripe_at extended bytes.now ≡ Ok rows
        → hinted_picks hint.now (spans_of rows) ≡ [] }
{
    let Some(text) = &hint.text else {
        return false;
    };
    match has_text(alloc, bytes, text.as_str().as_bytes()) {
        Some(found) => !found,
        None => false,
    }
}

// Whether the text is one of those that a stripe begins with, which stay where they are. None says nothing.
fn has_text(alloc: Global, bytes: &[u8], text: &[u8]) -> Option<bool>
    ensures { IfSome result (λ b. (texts : List (List ℕ)) → texts_of bytes.now ≡ Ok texts
        → b ≡ list_any (λ x. bytes_eq x text.now) texts) }
{
    let mut reader = content(alloc, bytes)?;
    let count = next_count(&mut reader)?;
    for _ in 0..count {
        if next_text(&mut reader)? == text {
            return Some(true);
        }
    }
    Some(false)
}

// The number of the texts.
fn next_count(reader: &mut Reader) -> Option<u64>
    ensures { IfSome result (λ n. IsNextCount reader.old n reader.new) }
{
    match reader.var() {
        Ok(count) => Some(count),
        Err(_) => None,
    }
}

// The bytes of the next text.
fn next_text<'a>(reader: &mut Reader<'a>) -> Option<&'a [u8]>
    ensures { IfSome result (λ x. IsNextText reader.old x.now reader.new) }
{
    let Ok(size) = reader.var() else {
        return None;
    };
    match reader.raw(size) {
        Ok(text) => Some(text),
        Err(_) => None,
    }
}

// A reader of the content of a stripe, after its length.
fn content<'a>(alloc: Global, bytes: &'a [u8]) -> Option<Reader<'a>>
    ensures { IfSome result (λ r. (s : Spot) → content_spot bytes.now ≡ Ok s → s.stand ≡ r) }
{
    let mut reader = Reader::new(alloc, bytes);
    match reader.fixed64() {
        Ok(size) => Some(Reader::starting_at(alloc, front(bytes, size), 8)),
        Err(_) => None,
    }
}

// The bytes up to the end of a content of so many bytes, or all.
fn front(bytes: &[u8], size: u64) -> &[u8]
    requires { 8 ≤ length bytes.now }
    ensures part { result.now ≡ take (8 + size) bytes.now }
    ensures long { 8 ≤ length result.now }
{
    if size <= bytes.len() as u64 - 8 {
        &bytes[..8 + size as usize]
    } else {
        bytes
    }
}
