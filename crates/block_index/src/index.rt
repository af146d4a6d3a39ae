//! Writing the pages of the index: entries to bytes.

ghost use Rattle.std.specs.Prelude.{◌≡◌, ◌++◌, ◌*◌, ◌^◌, ◌<◌, ◌≤◌, IfOk, OnOk, length, replicate};
ghost use Rattle.std.specs.List.{flat_map};
ghost use Rattle.block_index.specs.Index.{entry_bytes, index_bytes, index_page};

use crate::entries::{ENTRIES_A_PAGE, IndexEntry, entries_of};
use byte_fields::Writer;
use span_types::{Bytes, Ids, Memory};
use std::alloc::Global;

/// The index of a block, in whole pages of 170 entries: for each trace its id, the number of its first row and how many
/// rows it has.
///
/// `ids` has the trace ids of the block's rows in the order of the rows, so that those of one trace stand together. The
/// bytes take memory, and so does a list of the traces.
pub fn index_pages(alloc: Global, ids: &Ids) -> Result<Bytes, Memory>
    requires { length ids.now < 2 ^ 32 }
    ensures { IfOk result (λ bytes. bytes ≡ index_bytes ids.now) }
{
    let entries = entries_of(alloc, ids.as_slice())?;
    let mut out = Writer::new(alloc);
    for page in 0..entries.len().div_ceil(ENTRIES_A_PAGE) {
        put_page(&mut out, &entries, page)?;
    }
    Ok(out.finish())
}

/// Adds one page of the entries.
fn put_page(out: &mut Writer, entries: &[IndexEntry], page: usize) -> Result<(), Memory>
    requires few { length entries.now < 2 ^ 32 }
    requires within { page * 170 < length entries.now }
    ensures { OnOk result (out.new ≡ out.old ++ index_page entries.now page) }
{
    let first = page * ENTRIES_A_PAGE;
    let end = entries.len().min(first + ENTRIES_A_PAGE);
    let on_page = &entries[first..end];
    put_entries(out, on_page)?;
    put_zeros(out, 4096 - 24 * on_page.len())
}

fn put_entries(out: &mut Writer, entries: &[IndexEntry]) -> Result<(), Memory>
    ensures { OnOk result (out.new ≡ out.old ++ flat_map entry_bytes entries.now) }
{
    for entry in entries {
        out.raw(&entry.id.0)?;
        out.fixed32(entry.first_row)?;
        out.fixed32(entry.rows)?;
    }
    Ok(())
}

/// Adds zeros, at most a page of them.
fn put_zeros(out: &mut Writer, count: usize) -> Result<(), Memory>
    requires { count ≤ 4096 }
    ensures { OnOk result (out.new ≡ out.old ++ replicate count 0) }
{
    let zeros = [0; 4096];
    out.raw(&zeros[..count])
}
