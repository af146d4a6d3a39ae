//! The stripes of a block, placed after its header once it is known how many pages that has.

ghost use Rattle.std.specs.Prelude.{◌≡◌, ◌⊎◌, ◌++◌, ◌+◌, ◌≤◌, ◌^◌, IfOk, IfSome, IsSome, List, false, length, true};
ghost use Rattle.std.specs.List.{All};
ghost use Rattle.span_types.specs.declared.spans.Row.{Row};
ghost use Rattle.block_format.specs.Blocks.{BlockHasInfo, form_of_rows, ids_of};
ghost use Rattle.block_format.specs.Headers.{AreFromPage, HasRows};
ghost use Rattle.block_stripes.specs.StripeReadings.{ascend};
ghost use Rattle.block_build.specs.Builders.{AreCounted, HasStripes};
ghost use Rattle.block_build.specs.Places.{placed};

use crate::building::BuiltBlock;
use crate::draft::header_pages;
use block_format::{Header, header_is_pages, write_header};
use block_info::{MOST_BLOCK_ROWS, MOST_PAGES, MOST_STRIPES, StripeInfo, Stripes};
use block_rows::{info_of, tail_of};
use span_types::{Bytes, Ids, Memory, TraceId};
use std::alloc::Global;

const MOST_ROWS: usize = MOST_BLOCK_ROWS as usize;

/// The block of rows with these trace ids, of which these are the stripes. The pages in their entries aren't read.
pub fn close(
    alloc: Global,
    form: u8,
    body: Vec<u8>,
    stripes: Vec<StripeInfo>,
    ids: &Ids,
) -> Result<Option<BuiltBlock>, Memory>
    ensures block { (rows : List Row) → HasStripes form stripes.items body.items rows
        → ids.now ≡ ids_of rows
        → form ≡ form_of_rows rows → ascend rows ≡ true
        → IfOk result (λ found. IfSome found (λ built. BlockHasInfo built.info built.bytes rows)) }
    ensures some { (rows : List Row) → HasStripes form stripes.items body.items rows
        → ids.now ≡ ids_of rows
        → form ≡ form_of_rows rows → AreCounted stripes.items → 1 ≤ length rows
        → length rows ≤ 1048576
        → IfOk result (λ found. IsSome found) }
{
    let count = stripes.len();
    if !is_possible(form, count, ids.len()) {
        return Ok(None);
    }
    let pages = header_pages(count);
    let Some(stripes) = placed(alloc, pages as u64, stripes.as_slice())? else {
        return Ok(None);
    };
    each_is_long(ids.as_slice());
    let tail = tail_of(alloc, ids)?;
    let header = Header {
        form,
        pages: pages as u32,
        index_pages: tail.index_pages,
        bloom_pages: tail.bloom_pages,
        stripes: Stripes::of(stripes),
    };
    let front = write_header(alloc, &header)?;
    header_is_pages();
    let mut bytes = behind(front.as_slice(), body)?;
    bytes.extend_from_slice(tail.index.as_slice())?;
    bytes.extend_from_slice(tail.bloom.as_slice())?;
    let info = info_of(0, 0, header, ids.len() as u32);
    Ok(Some(BuiltBlock {
        bytes: Bytes::of(bytes),
        info,
    }))
}

/// Whether a block of this form can have so many stripes and rows.
fn is_possible(form: u8, stripes: usize, rows: usize) -> bool
    ensures form { result ≡ true → (form ≡ 1) ⊎ (form ≡ 2) }
    ensures some { result ≡ true → 1 ≤ stripes }
    ensures few { result ≡ true → stripes ≤ 4096 }
    ensures few_rows { result ≡ true → rows ≤ 1048576 }
    ensures other { result ≡ false → (form ≡ 1) ⊎ (form ≡ 2) → 1 ≤ stripes → stripes ≤ 4096
        → rows ≤ 1048576 → ⊥ }
{
    (form == 1 || form == 2) && 1 <= stripes && stripes <= MOST_STRIPES && rows <= MOST_ROWS
}

/// What the type of trace ids promises, for the proof of the caller. It changes nothing.
fn each_is_long(ids: &[TraceId])
    ensures { All (λ id. length id.0 ≡ 16) ids.now }
{
    for id in ids {
        is_long(*id);
    }
}

fn is_long(id: TraceId)
    ensures { length id.0 ≡ 16 }
{
    let _ = id;
}

/// The bytes of a header, and those of the body after them. The body is moved and not copied.
fn behind(front: &[u8], body: Vec<u8>) -> Result<Vec<u8>, Memory>
    ensures { IfOk result (λ bytes. bytes.items ≡ front.now ++ body.items) }
{
    let mut bytes = body;
    bytes.extend_from_slice(front)?;
    bytes.rotate_right(front.len());
    Ok(bytes)
}

/// The entries of stripes of which the first begins at that page, and each other one where the one before it ends. There
/// are none if one has another number of rows than a stripe of a block. No memory has bytes for a stripe that ends after
/// page 2^51.
fn placed(
    alloc: Global,
    first: u64,
    stripes: &[StripeInfo],
) -> Result<Option<Vec<StripeInfo>>, Memory>
    requires { first ≤ 2 ^ 51 }
    ensures placed { IfOk result
        (λ found. IfSome found (λ all. all.items ≡ placed first stripes.now)) }
    ensures from { IfOk result (λ found. IfSome found (λ all. AreFromPage first all.items)) }
    ensures some { AreCounted stripes.now → IfOk result (λ found. IsSome found) }
{
    let mut found = Vec::with_capacity(alloc, stripes.len())?;
    let mut page = first;
    for (index, stripe) in stripes.iter().enumerate() {
        if !has_room(page, stripe) {
            return Err(Memory);
        }
        if !has_rows(index + 1 == stripes.len(), stripe.rows) {
            return Ok(None);
        }
        found.push(StripeInfo { page, ..*stripe })?;
        page += stripe.pages;
    }
    Ok(Some(found))
}

/// Whether a stripe that begins at that page ends at page 2^51 at most.
fn has_room(page: u64, stripe: &StripeInfo) -> bool
    requires { page ≤ 2 ^ 51 }
    ensures { result ≡ true → page + stripe.now.pages ≤ 2 ^ 51 }
{
    stripe.pages <= MOST_PAGES - page
}

/// Whether the last stripe, or another one, can have so many rows.
fn has_rows(last: bool, rows: u32) -> bool
    ensures has { result ≡ true → HasRows last rows }
    ensures other { result ≡ false → HasRows last rows → ⊥ }
{
    rows == 256 || (last && 1 <= rows && rows <= 256)
}
