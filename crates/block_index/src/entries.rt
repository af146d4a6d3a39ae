//! The entries of the index, one for each trace, made from the ids of rows in their order. `index` writes them;
//! `bloom` takes from them which traces there are.

ghost use Rattle.std.specs.Prelude.{◌≡◌, ◌^◌, ◌<◌, ◌≤◌, IfOk, length};
ghost use Rattle.std.specs.List.{prefix_len};
ghost use Rattle.block_index.specs.Index.{entries, is_same};

use span_types::{Memory, TraceId};
use std::alloc::Global;

/// How many entries a page of the index holds.
pub const ENTRIES_A_PAGE: usize = 170;

/// A trace of a block, and where its rows are.
#[derive(Clone, Copy, Debug, PartialEq, Eq)]
pub struct IndexEntry {
    /// The trace.
    pub id: TraceId,
    /// The number of its first row, counted from 0.
    pub first_row: u32,
    /// How many rows it has.
    pub rows: u32,
}

/// The entries of rows with these ids.
pub fn entries_of(alloc: Global, ids: &[TraceId]) -> Result<Vec<IndexEntry>, Memory>
    requires { length ids.now < 2 ^ 32 }
    ensures found { IfOk result (λ found. found.items ≡ entries ids.now) }
    ensures few { IfOk result (λ found. length found.items ≤ length ids.now) }
{
    let mut found = Vec::new(alloc);
    let mut row = 0;
    while row < ids.len() {
        let id = ids[row];
        let rows = run_of(id, &ids[row..]);
        found.push(IndexEntry {
            id,
            first_row: row as u32,
            rows: rows as u32,
        })?;
        row += rows;
    }
    Ok(found)
}

/// How many of the first ids are this one.
fn run_of(id: TraceId, ids: &[TraceId]) -> usize
    ensures { result ≡ prefix_len (is_same id) ids.now }
{
    for (index, other) in ids.iter().enumerate() {
        if !id.cmp(other).is_eq() {
            return index;
        }
    }
    ids.len()
}
