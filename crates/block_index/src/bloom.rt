//! Bloom filters: which traces a block may hold.

ghost use Rattle.std.specs.Prelude.{◌≡◌, ◌+◌, ◌*◌, ◌/◌, ◌<◌, ◌≤◌, ◌^◌, IfOk, length};
ghost use Rattle.block_index.specs.Bloom.{bits_of, bloom_bytes, filter_page_of, is_set, may_hold, set_bit, with_all_bits, with_bits_of};
ghost use Rattle.block_index.specs.Index.{traces};

use crate::entries::{IndexEntry, entries_of};
use crate::hash::{fnv1a, second_hash_of};
use block_info::PAGE_SIZE;
use span_types::{Bytes, Ids, Memory, TraceId};
use std::alloc::Global;

const PAGE_BITS: u64 = 32768;

const TRACES_A_PAGE: usize = 2048;

/// The Bloom filters of a block, in whole pages: one page for each 2,048 traces that its rows have, or part of that.
///
/// `ids` has the trace ids of the block's rows in the order of the rows, so that those of one trace stand together.
/// Each trace sets four bits in one page. The bytes take memory, and so does a list of the traces.
pub fn bloom_pages(alloc: Global, ids: &Ids) -> Result<Bytes, Memory>
    requires { length ids.now < 2 ^ 32 }
    ensures { IfOk result (λ bytes. bytes ≡ bloom_bytes (traces ids.now)) }
{
    let entries = entries_of(alloc, ids.as_slice())?;
    let pages = entries.len().div_ceil(TRACES_A_PAGE);
    let mut bytes = vec![in alloc; 0; pages * PAGE_SIZE]?;
    set_all(&mut bytes, pages as u64, &entries);
    Ok(Bytes::of(bytes))
}

/// Sets the bits of the entries' traces.
fn set_all(bytes: &mut [u8], pages: u64, entries: &[IndexEntry])
    requires enough { length entries.now ≤ 2048 * pages }
    requires few { pages < 2 ^ 32 }
    requires size { length bytes.old ≡ 4096 * pages }
    ensures { bytes.new ≡ with_all_bits pages bytes.old entries.now }
{
    for entry in entries {
        set_bits_of(bytes, pages, entry.id);
    }
}

/// Whether a page of Bloom filters has all four bits of the trace set. In the page of the trace's id, no `false` is
/// said of a trace that the block holds; a `true` may be said of one that it doesn't. Takes no memory.
pub fn may_hold(page: &[u8; 4096], id: TraceId) -> bool
    ensures { result ≡ may_hold page.now id.0 }
{
    let [first, second, third, fourth] = bits_of(id);
    is_set(page, first) && is_set(page, second) && is_set(page, third) && is_set(page, fourth)
}

/// Sets the four bits of a trace in its page among so many.
fn set_bits_of(bytes: &mut [u8], pages: u64, id: TraceId)
    requires some { 0 < pages }
    requires few { pages < 2 ^ 32 }
    requires size { length bytes.old ≡ 4096 * pages }
    ensures { bytes.new ≡ with_bits_of pages bytes.old id }
{
    let page = fnv1a(&id.0) % pages * PAGE_BITS;
    let [first, second, third, fourth] = bits_of(id);
    set_bit(bytes, page + first);
    set_bit(bytes, page + second);
    set_bit(bytes, page + third);
    set_bit(bytes, page + fourth);
}

/// The numbers of a trace's four bits in its page.
fn bits_of(id: TraceId) -> [u64; 4]
    ensures { result ≡ bits_of id.0 }
{
    let hash = second_hash_of(id);
    [
        hash % PAGE_BITS,
        (hash >> 16) % PAGE_BITS,
        (hash >> 32) % PAGE_BITS,
        (hash >> 48) % PAGE_BITS,
    ]
}

fn is_set(page: &[u8; 4096], bit: u64) -> bool
    requires { bit < 32768 }
    ensures { result ≡ is_set page.now bit }
{
    (page[(bit / 8) as usize] >> (bit % 8)) % 2 == 1
}

fn set_bit(bytes: &mut [u8], bit: u64)
    requires { bit / 8 < length bytes.old }
    ensures { bytes.new ≡ set_bit bytes.old bit }
{
    bytes[(bit / 8) as usize] |= 1 << (bit % 8);
}
