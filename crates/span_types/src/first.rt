//! First occurrences: of several rows of one span the one that was pushed first. A query answers over them, and a
//! block holds nothing else.

ghost use Rattle.std.specs.Prelude.{◌≡◌, IfOk, OnOk, ◌++◌, List, option_copied};
ghost use Rattle.std.specs.BTreeMap.{get, values, IsOrdered};
ghost use Rattle.std.specs.Ordering.{is_lt};
ghost use Rattle.span_types.specs.declared.ids.Key.{Key};
ghost use Rattle.span_types.specs.declared.spans.Row.{Row};
ghost use Rattle.span_types.specs.Orders.{key_cmp, place_cmp, block_order};
ghost use Rattle.span_types.specs.First.{comes_before, first_at, lesser, row_at, IsFirstOf};

use crate::{Key, Memory, Place, Row, Rows};
use std::alloc::Global;
use std::cmp::Ordering;
use std::collections::BTreeMap;

/// The first occurrences among the rows: where several rows are of one span, the row that came in first stays and the
/// others go. What stays is in block order, which is by trace, then by start, then by span. Should rows of one span
/// have the same place, the one nearest the list's beginning stays.
pub fn first_rows(alloc: Global, rows: Rows) -> Result<Rows, Memory>
    ensures { IfOk result (λ firsts. IsFirstOf rows firsts) }
{
    let firsts = firsts_by_key(alloc, rows.into_vec())?;
    let mut kept = rows_of(alloc, firsts)?;
    kept.sort_by(in_block_order)?;
    Ok(Rows::of(kept))
}

/// The first occurrences of what `firsts` are the first occurrences of, followed by more rows. So they can be joined
/// part by part; where no two rows have one place, the order of the parts doesn't matter.
pub fn first_rows_more(alloc: Global, firsts: Rows, more: Rows) -> Result<Rows, Memory>
    ensures { IfOk result (λ all. (base : List Row) → IsFirstOf base firsts
        → IsFirstOf (base ++ more) all) }
{
    let mut rows = firsts.into_vec();
    let mut more = more.into_vec();
    rows.append(&mut more)?;
    let all = first_rows(alloc, Rows::of(rows))?;
    Ok(all)
}

// The rows of the map, which come by key. They are sorted into block order after this, since keys have no start.
fn rows_of(alloc: Global, firsts: BTreeMap<Key, Row>) -> Result<Vec<Row>, Memory>
    ensures rows { IfOk result (λ kept. kept.items ≡ values firsts) }
    ensures ordered { IsOrdered key_cmp firsts }
{
    let mut kept = Vec::with_capacity(alloc, firsts.len())?;
    for row in firsts.into_values() {
        kept.push(row)?;
    }
    Ok(kept)
}

// By trace, then by start, then by span. No two first occurrences are equal in it.
fn in_block_order(a: &Row, b: &Row) -> Ordering
    ensures { result ≡ block_order a.now b.now }
{
    let trace = a.span.trace.cmp(&b.span.trace);
    let start = a.span.start.cmp(&b.span.start);
    trace.then(start).then(a.span.id.cmp(&b.span.id))
}

// The first row of each key. The map costs n log n, however many rows are of one span.
fn firsts_by_key(alloc: Global, rows: Vec<Row>) -> Result<BTreeMap<Key, Row>, Memory>
    ensures { IfOk result (λ m. (k : Key) → get key_cmp m k ≡ first_at k rows.items) }
{
    let mut firsts = BTreeMap::new(alloc);
    for row in rows {
        keep_first(&mut firsts, row)?;
    }
    Ok(firsts)
}

// The row is kept for its key, where it comes before the one that is kept.
fn keep_first(firsts: &mut BTreeMap<Key, Row>, row: Row) -> Result<(), Memory>
    ensures { OnOk result ((k : Key)
        → get key_cmp firsts.new k ≡ lesser (get key_cmp firsts.old k) (row_at k row)) }
{
    let key = row.span.key();
    if comes_first(firsts, &key, &row.place) {
        firsts.insert(key, row)?;
    }
    Ok(())
}

// Whether a row at the place is to be kept for the key.
fn comes_first(firsts: &BTreeMap<Key, Row>, key: &Key, place: &Place) -> bool
    ensures { result ≡ comes_before place.now (get key_cmp firsts.now key.now) }
{
    match firsts.get(key) {
        None => true,
        Some(kept) => place.cmp(&kept.place).is_lt(),
    }
}
