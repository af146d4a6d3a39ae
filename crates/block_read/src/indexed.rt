//! What comes after the stripes of a block: index and Bloom filters.

ghost use Rattle.std.specs.Prelude.{◌≡◌, ◌+◌, ◌*◌, ◌≤◌, ◌<◌, ◌^◌, IfSome, drop, length};
ghost use Rattle.std.specs.List.{All};
ghost use Rattle.span_fields.specs.Breaks.{Answers};
ghost use Rattle.block_format.specs.Headers.{CanBeHeader};
ghost use Rattle.block_read.specs.BlockReadings.{common, differs_at, indexed, tail_bytes};

use block_format::Header;
use block_info::PAGE_BYTES;
use block_rows::{index_page, tail_of};
use span_fields::Break;
use span_types::Ids;
use std::alloc::Global;

/// Whether the header counts the pages of the index and of the Bloom filters of rows with these trace ids right, and
/// whether these come after the stripes, up to the end of the bytes.
#[tactic(auto, unfolding(crate::specs::BlockReadings::indexed))]
pub fn indexed(alloc: Global, bytes: &[u8], header: &Header, ids: &Ids) -> Result<(), Break>
    requires few { length ids.now < 2 ^ 32 }
    requires long { All (λ id. length id.0 ≡ 16) ids.now }
    requires rules { CanBeHeader header.now }
    ensures { Answers (λ _. ids.now) result (indexed header.now ids.now bytes.now) }
{
    let tail = tail_of(alloc, ids)?;
    if header.index_pages != tail.index_pages {
        return Err(Break::At(12));
    }
    if header.bloom_pages != tail.bloom_pages {
        return Err(Break::At(16));
    }
    let mut wanted = tail.index;
    wanted.extend_from_slice(tail.bloom.as_slice())?;
    let base = index_page(header) * PAGE_BYTES;
    let rest = after(bytes, base);
    match differs_at(wanted.as_slice(), rest) {
        None => Ok(()),
        Some(at) => Err(Break::At(base + at)),
    }
}

/// The bytes from that one on.
fn after(bytes: &[u8], base: u64) -> &[u8]
    ensures { result.now ≡ drop base bytes.now }
{
    let first = base.min(bytes.len() as u64) as usize;
    &bytes[first..]
}

/// The first place at which bytes aren't the wanted ones.
fn differs_at(wanted: &[u8], bytes: &[u8]) -> Option<u64>
    ensures place { result ≡ differs_at wanted.now bytes.now }
    ensures within { IfSome result (λ at. at ≤ length bytes.now) }
{
    let common = common(wanted, bytes);
    if common == wanted.len() && bytes.len() == wanted.len() {
        return None;
    }
    Some(common as u64)
}

/// How many bytes the two have in common before the first that differs.
fn common(wanted: &[u8], bytes: &[u8]) -> usize
    ensures count { result ≡ common wanted.now bytes.now }
    ensures within { result ≤ length bytes.now }
{
    for (index, byte) in wanted.iter().enumerate() {
        if bytes.len() <= index || bytes[index] != *byte {
            return index;
        }
    }
    wanted.len()
}
