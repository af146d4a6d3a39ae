//! The header of a block, and writing it: parts to whole pages of bytes. `block_build` calls it once the stripes are
//! written, when their pages and rows are known.

ghost use Rattle.std.specs.Prelude.{◌≡◌, ◌++◌, ◌⊎◌, ◌<◌, ◌≤◌, ◌^◌, IfOk, OnOk, length};
ghost use Rattle.std.specs.List.{AllByRecursion, flat_map};
ghost use Rattle.block_format.specs.Headers.{CanBeHeader, HasMoments, HeaderHolds, counts_bytes, entry_bytes};

use block_info::{StripeInfo, Stripes};
use block_stripes::put_fill;
use byte_fields::Writer;
use span_types::{Bytes, Memory};
use std::alloc::Global;

/// The header of a block: where its parts are, and what its stripes have.
#[derive(Debug, Drop)]
pub struct Header {
    /// The form of the block: 2 where it has events and links, else 1.
    pub form: u8,
    /// How many pages the header has.
    pub pages: u32,
    /// How many pages the index has.
    pub index_pages: u32,
    /// How many pages the Bloom filters have.
    pub bloom_pages: u32,
    /// The stripes, the first of which begins after the header.
    pub stripes: Stripes,
}

/// The bytes of a header, in whole pages of 4,096 bytes.
pub fn write_header(alloc: Global, header: &Header) -> Result<Bytes, Memory>
    requires { CanBeHeader header.now }
    ensures { IfOk result (λ bytes. HeaderHolds bytes header.now) }
{
    let mut out = Writer::new(alloc);
    put_counts(&mut out, header)?;
    let stripes = header.stripes.as_slice();
    put_entries(&mut out, stripes)?;
    put_fill(&mut out, 20 + 32 * stripes.len())?;
    Ok(out.finish())
}

/// Adds the form, and how many pages and stripes there are.
#[tactic(auto, unfolding(crate::specs::Headers::counts_bytes))]
fn put_counts(out: &mut Writer, header: &Header) -> Result<(), Memory>
    requires form { (header.now.form ≡ 1) ⊎ (header.now.form ≡ 2) }
    requires few { length header.now.stripes ≤ 4096 }
    ensures written { OnOk result (out.new ≡ out.old ++ counts_bytes header.now) }
    ensures index { OnOk result (header.now.index_pages < 2 ^ 32) }
    ensures bloom { OnOk result (header.now.bloom_pages < 2 ^ 32) }
{
    out.raw(&[b'T', b'S', b'B', b'0' + header.form])?;
    out.fixed32(header.pages)?;
    out.fixed32(header.stripes.len() as u32)?;
    out.fixed32(header.index_pages)?;
    out.fixed32(header.bloom_pages)
}

/// Adds the entries of stripes.
fn put_entries(out: &mut Writer, stripes: &[StripeInfo]) -> Result<(), Memory>
    ensures written { OnOk result (out.new ≡ out.old ++ flat_map entry_bytes stripes.now) }
    ensures sound { OnOk result (AllByRecursion HasMoments stripes.now) }
{
    for stripe in stripes {
        put_entry(out, stripe)?;
    }
    Ok(())
}

#[tactic(auto, unfolding(crate::specs::Headers::entry_bytes))]
fn put_entry(out: &mut Writer, stripe: &StripeInfo) -> Result<(), Memory>
    ensures written { OnOk result (out.new ≡ out.old ++ entry_bytes stripe.now) }
    ensures sound { OnOk result (HasMoments stripe.now) }
{
    out.fixed64(stripe.pages)?;
    out.fixed64(u64::from(stripe.rows))?;
    out.fixed64(stripe.earliest)?;
    out.fixed64(stripe.latest)
}
