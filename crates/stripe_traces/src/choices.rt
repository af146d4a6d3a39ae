//! Columns of which the values of wanted rows are read, and the others passed over.

ghost use Rattle.std.specs.Prelude.{◌≡◌, ℕ, List, IfSome, Result, length};
ghost use Rattle.block_columns.specs.ColumnReadings.{Spot, both_at, column_at, owners_at};
ghost use Rattle.stripe_skims.specs.Sure.{Skims};
ghost use Rattle.stripe_traces.specs.Chosen.{AreChosen};

use block_columns::{Fields, Kind, Referred, beside};
use span_types::TryCopy;
use std::alloc::Global;
use stripe_skims::{Pass, References};

/// Columns of rows, some of which are wanted.
pub trait Choose: Drop {
    /// What a row has of them.
    type Item: Drop;

    /// What reading so many rows gives.
    ghost reading: { Self → ℕ → Spot → Result (List Self.Item × Spot) ℕ };

    /// What has to hold before.
    ghost ready: { Self → Type 0 };

    /// Goes over as many rows as there are marks, and gives what the marked ones have. None says nothing.
    fn choose(self, alloc: Global, fields: &mut Fields, wanted: &[bool]) -> Option<Vec<Self::Item>>
        requires { ready self }
        ensures { IfSome result (λ seen. Skims (AreChosen wanted.now) (length wanted.now)
            (reading self (length wanted.now) fields.old) seen.items fields.new) };
}

/// One column: how its values are read, and how they are passed over.
#[derive(Drop)]
pub struct One<K, P> {
    /// How they are read.
    pub kind: K,
    /// How they are passed over.
    pub pass: P,
}

impl<K: Kind + Drop, P: Pass<Item = K::Item> + Drop> Choose for One<K, P> {
    type Item = K::Item;

    ghost reading = { λ c n s. column_at (K.reading c.kind) n s };

    ghost ready = { λ c. P.ready c.pass × ((s : Spot) → P.reading c.pass s ≡ K.reading c.kind s) };

    fn choose(self, alloc: Global, fields: &mut Fields, wanted: &[bool]) -> Option<Vec<K::Item>> {
        let mut pass = self.pass;
        choose_items(alloc, fields, &self.kind, &mut pass, wanted)
    }
}

/// The wanted values of one column.
fn choose_items<K: Kind, P: Pass<Item = K::Item>>(
    alloc: Global,
    fields: &mut Fields,
    kind: &K,
    pass: &mut P,
    wanted: &[bool],
) -> Option<Vec<K::Item>>
    requires ready { P.ready pass.old }
    requires alike { (s : Spot) → P.reading pass.old s ≡ K.reading kind.now s }
    ensures { IfSome result (λ seen. Skims (AreChosen wanted.now) (length wanted.now)
        (column_at (K.reading kind.now) (length wanted.now) fields.old) seen.items fields.new) }
{
    let mut values = Vec::new(alloc);
    for is_wanted in wanted {
        if *is_wanted {
            let Ok(value) = kind.read(fields) else {
                return None;
            };
            let Ok(()) = values.push(value) else {
                return None;
            };
        } else if !pass.pass(fields) {
            return None;
        }
    }
    Some(values)
}

/// Columns, and then further columns.
#[derive(Drop)]
pub struct BothChoices<L, R> {
    /// The first ones.
    pub left: L,
    /// The further ones.
    pub right: R,
}

impl<L: Choose, R: Choose> Choose for BothChoices<L, R> {
    type Item = (L::Item, R::Item);

    ghost reading = { λ c n s. both_at (L.reading c.left) (R.reading c.right) n s };

    ghost ready = { λ c. L.ready c.left × R.ready c.right };

    fn choose(
        self,
        alloc: Global,
        fields: &mut Fields,
        wanted: &[bool],
    ) -> Option<Vec<(L::Item, R::Item)>> {
        let left = self.left.choose(alloc, fields, wanted)?;
        let right = self.right.choose(alloc, fields, wanted)?;
        let Ok(rows) = beside(alloc, left, right) else {
            return None;
        };
        Some(rows)
    }
}

/// A column of values that stand in a table of their own, each of which is used.
#[derive(Drop)]
pub struct OwnedChoice<'t, T, K> {
    /// The table.
    pub table: &'t [T],
    /// Where the table stands.
    pub list: Fields<'t>,
    /// The kind of what stands there.
    pub kind: K,
}

impl<'t, T: TryCopy, K: Kind + Drop> Choose for OwnedChoice<'t, T, K> {
    type Item = T;

    ghost reading = { λ o n s. owners_at (K.reading o.kind) o.list o.table.now n s };

    ghost ready = { λ _. Unit {0} };

    fn choose(self, alloc: Global, fields: &mut Fields, wanted: &[bool]) -> Option<Vec<T>> {
        let outer = fields.used();
        fields.count_from(0);
        let kind = Referred { table: self.table };
        let mut references = References { table: self.table };
        let values = choose_items(alloc, fields, &kind, &mut references, wanted)?;
        if fields.used() != self.table.len() {
            return None;
        }
        fields.count_from(outer);
        Some(values)
    }
}
