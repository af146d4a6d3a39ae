//! Columns: so many values of one kind.

ghost use Rattle.std.specs.Prelude.{◌≡◌, ℕ, List, Result, IfOk};
ghost use Rattle.block_columns.specs.ColumnReadings.{Spot, beside, both_at, column_at, counted_at};
ghost use Rattle.block_columns.specs.Outcomes.{Finds};

use crate::Fields;
use span_fields::Break;
use span_types::Memory;
use std::alloc::Global;

/// A kind of values that a column has.
pub trait Kind {
    /// A value.
    type Item: Drop;

    /// What reading the next value gives.
    ghost reading: { Self → Spot → Result (Self.Item × Spot) ℕ };

    /// The next value.
    fn read(&self, fields: &mut Fields) -> Result<Self::Item, Break>
        ensures { Finds (λ x. x) result fields.new (reading self.now fields.old) };
}

/// So many values. Their number takes no memory before the values are there.
pub fn column<K: Kind>(
    alloc: Global,
    fields: &mut Fields,
    kind: &K,
    count: u64,
) -> Result<Vec<K::Item>, Break>
    ensures { Finds (λ x. x.items) result fields.new
        (column_at (K.reading kind.now) count fields.old) }
{
    let mut values = Vec::new(alloc);
    for _ in 0..count {
        let value = kind.read(fields)?;
        values.push(value)?;
    }
    Ok(values)
}

/// A count, and so many values.
#[tactic(auto, unfolding(crate::specs::ColumnReadings::counted_at))]
pub fn counted<K: Kind>(alloc: Global, fields: &mut Fields, kind: &K) -> Result<Vec<K::Item>, Break>
    ensures { Finds (λ x. x.items) result fields.new
        (counted_at (λ _. K.reading kind.now) fields.old) }
{
    let count = fields.number()?;
    column(alloc, fields, kind, count)
}

/// Each value of one column with that of the other in its row.
pub fn beside<A: Drop, B: Drop>(
    alloc: Global,
    left: Vec<A>,
    right: Vec<B>,
) -> Result<Vec<(A, B)>, Memory>
    ensures { IfOk result (λ rows. rows.items ≡ beside left.items right.items) }
{
    let mut rows = Vec::new(alloc);
    rows.reserve(left.len())?;
    for row in left.into_iter().zip(right) {
        rows.push(row)?;
    }
    Ok(rows)
}

/// Columns of rows.
pub trait Columns {
    /// What a row has of them.
    type Item: Drop;

    /// What reading so many rows gives.
    ghost reading: { Self → ℕ → Spot → Result (List Self.Item × Spot) ℕ };

    /// So many rows.
    fn read_all(
        &self,
        alloc: Global,
        fields: &mut Fields,
        count: u64,
    ) -> Result<Vec<Self::Item>, Break>
        ensures { Finds (λ x. x.items) result fields.new (reading self.now count fields.old) };
}

/// One column.
#[derive(Drop)]
pub struct Single<K> {
    /// The kind of its values.
    pub kind: K,
}

impl<K: Kind> Columns for Single<K> {
    type Item = K::Item;

    ghost reading = { λ c n s. column_at (K.reading c.kind) n s };

    fn read_all(
        &self,
        alloc: Global,
        fields: &mut Fields,
        count: u64,
    ) -> Result<Vec<K::Item>, Break> {
        column(alloc, fields, &self.kind, count)
    }
}

/// Columns, and then further columns.
#[derive(Drop)]
pub struct Both<L, R> {
    /// The first ones.
    pub left: L,
    /// The further ones.
    pub right: R,
}

impl<L: Columns, R: Columns> Columns for Both<L, R> {
    type Item = (L::Item, R::Item);

    ghost reading = { λ c n s. both_at (L.reading c.left) (R.reading c.right) n s };

    #[tactic(auto, unfolding(crate::specs::ColumnReadings::both_at))]
    fn read_all(
        &self,
        alloc: Global,
        fields: &mut Fields,
        count: u64,
    ) -> Result<Vec<(L::Item, R::Item)>, Break> {
        let left = self.left.read_all(alloc, fields, count)?;
        let right = self.right.read_all(alloc, fields, count)?;
        let rows = beside(alloc, left, right)?;
        Ok(rows)
    }
}

/// One column, and then further columns.
pub fn further<K, R>(kind: K, right: R) -> Both<Single<K>, R>
    ensures { result ≡ record { left = record { kind = kind }; right = right } }
{
    Both {
        left: Single { kind },
        right,
    }
}
