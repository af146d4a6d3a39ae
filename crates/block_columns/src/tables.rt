//! Tables of distinct values, and columns of values that stand in a table of their own.

ghost use Rattle.std.specs.Prelude.{◌≡◌, ℕ, []};
ghost use Rattle.block_columns.specs.ColumnReadings.{items_at, item_at, malformed, new_at, owners_at, reference_at, table_at};
ghost use Rattle.block_columns.specs.Outcomes.{Finds, Tells};
ghost use Rattle.span_fields.specs.Breaks.{Fails};

use crate::Fields;
use crate::columns::{Columns, Kind, column};
use indexmap::IndexSet;
use span_fields::Break;
use span_types::TryCopy;
use std::alloc::Global;
use std::hash::Hash;

/// A table: a count, and so many values, no two of which are equal.
#[tactic(auto, unfolding(crate::specs::ColumnReadings::counted_at))]
pub fn table<T: Eq + Hash + Drop, K: Kind<Item = T>>(
    alloc: Global,
    fields: &mut Fields,
    kind: &K,
) -> Result<IndexSet<T>, Break>
    ensures { Finds (λ x. x.keys) result fields.new
        (table_at T.eq (K.reading kind.now) fields.old) }
{
    let count = fields.number()?;
    each_new(alloc, fields, kind, count)
}

fn each_new<T: Eq + Hash + Drop, K: Kind<Item = T>>(
    alloc: Global,
    fields: &mut Fields,
    kind: &K,
    count: u64,
) -> Result<IndexSet<T>, Break>
    ensures { Finds (λ x. x.keys) result fields.new
        (items_at (new_at T.eq (K.reading kind.now)) count [] fields.old) }
{
    let mut table = IndexSet::new(alloc);
    for _ in 0..count {
        let at = fields.at();
        let value = kind.read(fields)?;
        let (_, new) = table.insert_full(value)?;
        if !new {
            return Err(Break::At(at));
        }
    }
    Ok(table)
}

/// The offset of the item of this number in a list that stands there.
#[tactic(auto, unfolding(crate::specs::ColumnReadings::item_at))]
fn item<K: Kind>(alloc: Global, list: &Fields, kind: &K, number: u64) -> Result<u64, Break>
    ensures { Tells result (item_at (K.reading kind.now) number list.now) }
{
    let mut fields = list.fork();
    let _ = fields.number()?;
    let _ = column(alloc, &mut fields, kind, number)?;
    Ok(fields.at())
}

/// Why a list is malformed whose item of this number nothing refers to: at that item's first byte.
pub fn unused<K: Kind>(alloc: Global, list: &Fields, kind: &K, number: u64) -> Break
    ensures { Fails result (malformed {B = ℕ} (item_at (K.reading kind.now) number list.now)) }
{
    match item(alloc, list, kind, number) {
        Ok(at) => Break::At(at),
        Err(why) => why,
    }
}

/// The values of a table, by their numbers.
#[derive(Drop)]
pub struct Referred<'t, T> {
    /// The table.
    pub table: &'t [T],
}

impl<'t, T: TryCopy> Kind for Referred<'t, T> {
    type Item = T;

    ghost reading = { λ r. reference_at r.table.now };

    fn read(&self, fields: &mut Fields) -> Result<T, Break> {
        let value = fields.reference(self.table)?;
        Ok(value.copy()?)
    }
}

/// A column of values that stand in a table of their own, each of which is used.
#[derive(Drop)]
pub struct Owners<'t, T, K> {
    /// The table.
    pub table: &'t [T],
    /// Where the table stands.
    pub list: Fields<'t>,
    /// The kind of what stands there.
    pub kind: K,
}

impl<'t, T: TryCopy, K: Kind> Columns for Owners<'t, T, K> {
    type Item = T;

    ghost reading = { λ o n s. owners_at (K.reading o.kind) o.list o.table.now n s };

    #[tactic(auto, using(crate::proofs::ReadingSteps::malformed_any), unfolding(crate::specs::ColumnReadings::owners_at))]
    fn read_all(&self, alloc: Global, fields: &mut Fields, count: u64) -> Result<Vec<T>, Break> {
        let outer = fields.used();
        fields.count_from(0);
        let kind = Referred { table: self.table };
        let values = column(alloc, fields, &kind, count)?;
        let used = fields.used();
        fields.count_from(outer);
        if used == self.table.len() {
            return Ok(values);
        }
        Err(unused(alloc, &self.list, &self.kind, used as u64))
    }
}
