//! What comes after the stripes of a block, ids of rows to bytes: the index and the Bloom filters, and how many pages
//! each has.

ghost use Rattle.std.specs.Prelude.{◌≡◌, ◌^◌, ◌<◌, IfOk, length};
ghost use Rattle.std.specs.List.{All};
ghost use Rattle.block_rows.specs.Tails.{IsTailOf};

use block_index::{bloom_pages, filters_hold_their_traces, index_pages};
use block_info::PAGE_SIZE;
use span_types::{Bytes, Ids, Memory};
use std::alloc::Global;

/// What comes after the stripes of a block, in whole pages of 4,096 bytes.
#[derive(Debug, Drop)]
pub struct Tail {
    /// The index of trace ids.
    pub index: Bytes,
    /// How many pages the index has.
    pub index_pages: u32,
    /// The Bloom filters.
    pub bloom: Bytes,
    /// How many pages they have.
    pub bloom_pages: u32,
}

/// What comes after the stripes of rows with these trace ids, of which there are fewer than 2^32. They stand in the
/// order of the rows.
pub fn tail_of(alloc: Global, ids: &Ids) -> Result<Tail, Memory>
    requires few { length ids.now < 2 ^ 32 }
    requires long { All (λ id. length id.0 ≡ 16) ids.now }
    ensures { IfOk result (λ tail. IsTailOf ids.now tail) }
{
    let index = index_pages(alloc, ids)?;
    let bloom = bloom_pages(alloc, ids)?;
    filters_hold_their_traces();
    Ok(Tail {
        index_pages: (index.len() / PAGE_SIZE) as u32,
        index,
        bloom_pages: (bloom.len() / PAGE_SIZE) as u32,
        bloom,
    })
}
