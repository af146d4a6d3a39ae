//! Jumping over values, one after another.

ghost use Rattle.std.specs.Prelude.{ℕ, List, [], IsTrue, Result};
ghost use Rattle.block_columns.specs.ColumnReadings.{Spot, counted_at, items_at};
ghost use Rattle.stripe_glances.specs.Leaps.{Leaps};

use byte_fields::Reader;

/// A kind of values that are jumped over.
pub trait Leap {
    /// A value.
    type Item: Drop;

    /// What reading the next value after these ones gives, where these are the texts.
    ghost reading: { Self → List (List ℕ) → List Self.Item → Spot → Result (Self.Item × Spot) ℕ };

    /// Jumps over the next value. False says nothing.
    fn leap(&self, reader: &mut Reader) -> bool
        ensures { IsTrue result → (texts : List (List ℕ)) (before : List Self.Item)
            → Leaps (reading self.now texts before) reader.old reader.new };
}

/// Jumps over so many values.
pub fn leap_items<L: Leap>(reader: &mut Reader, kind: &L, count: u64) -> bool
    ensures { IsTrue result → (texts : List (List ℕ))
        → Leaps (items_at (L.reading kind.now texts) count []) reader.old reader.new }
{
    for _ in 0..count {
        if !kind.leap(reader) {
            return false;
        }
    }
    true
}

/// Jumps over a count, and so many values.
pub fn leap_counted<L: Leap>(reader: &mut Reader, kind: &L) -> bool
    ensures { IsTrue result → (texts : List (List ℕ))
        → Leaps (counted_at (L.reading kind.now texts)) reader.old reader.new }
{
    let Ok(count) = reader.var() else {
        return false;
    };
    leap_items(reader, kind, count)
}
