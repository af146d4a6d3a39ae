//! Reading the header of a block: bytes to parts, or the first offset at which they are malformed. Reading a whole
//! block begins with it.

ghost use Rattle.std.specs.Prelude.{◌≡◌, ◌+◌, ◌^◌, ◌≤◌, [], IfOk, IsTrue, false};
ghost use Rattle.span_fields.specs.Breaks.{Answers, Gives, break_of};
ghost use Rattle.block_format.specs.Headers.{ReadsHeader, header_pages};
ghost use Rattle.block_format.specs.HeaderReadings.{counts_at, entries_at, entry_at, form_at, has_rows, header_at, is_in_reach, number32_at, number64_at, passing, sizes_at};

use crate::{FormatError, Header};
use block_info::{MOST_PAGES, MOST_STRIPES, PAGE_BYTES, StripeInfo, Stripes};
use block_stripes::unfilled;
use byte_fields::{FieldError, Reader};
use span_fields::{Break, fixed64};
use std::alloc::Global;

/// `TSB1`, as a number of four bytes, little-endian.
const TAG_1: u32 = 826_430_292;

/// `TSB2`, as a number of four bytes, little-endian.
const TAG_2: u32 = 843_207_508;

/// The fields of a header before its entries.
#[derive(Clone, Copy, Debug, PartialEq, Eq)]
struct Front {
    form: u8,
    pages: u32,
    stripes: u32,
    index_pages: u32,
    bloom_pages: u32,
}

/// The header that bytes are: its pages whole, and nothing after them. The list of stripes grows with the entries that
/// are there, so no number in the bytes takes memory.
pub fn read_header(alloc: Global, bytes: &[u8]) -> Result<Header, FormatError>
    ensures { ReadsHeader result (header_at bytes.now) }
{
    match header(alloc, bytes) {
        Ok(header) => Ok(header),
        Err(Break::At(at)) => Err(FormatError::NotBlock { at }),
        Err(Break::Memory) => Err(FormatError::Memory),
    }
}

#[tactic(auto, unfolding(crate::specs::HeaderReadings::header_at))]
fn header(alloc: Global, bytes: &[u8]) -> Result<Header, Break>
    ensures { Answers (λ x. x) result (header_at bytes.now) }
{
    let mut reader = Reader::new(alloc, bytes);
    let counts = counts(&mut reader)?;
    let stripes = entries(alloc, &mut reader, u64::from(counts.pages), counts.stripes)?;
    let end = reader.at() as usize;
    if let Some(at) = unfilled(end, &bytes[end..]) {
        return Err(Break::At(at));
    }
    Ok(Header {
        form: counts.form,
        pages: counts.pages,
        index_pages: counts.index_pages,
        bloom_pages: counts.bloom_pages,
        stripes: Stripes::of(stripes),
    })
}

/// Where a field is malformed.
fn break_of(error: FieldError) -> Break
    ensures { result ≡ break_of false 0 error }
{
    match error {
        FieldError::Short { at } => Break::At(at),
        FieldError::NotShortest { at } | FieldError::NotText { at } => Break::At(at),
        FieldError::Memory => Break::Memory,
    }
}

#[tactic(auto, unfolding(crate::specs::HeaderReadings::number32_at, span_fields::specs::Breaks::in_part))]
fn number32(reader: &mut Reader) -> Result<u32, Break>
    ensures gives { Gives (λ x. x) result reader.new (number32_at reader.old) }
    ensures whole { reader.new.whole ≡ reader.old.whole }
{
    match reader.fixed32() {
        Ok(number) => Ok(number),
        Err(error) => Err(break_of(error)),
    }
}

#[tactic(auto, unfolding(crate::specs::HeaderReadings::number64_at))]
fn number64(reader: &mut Reader) -> Result<u64, Break>
    ensures gives { Gives (λ x. x) result reader.new (number64_at reader.old) }
    ensures whole { reader.new.whole ≡ reader.old.whole }
{
    fixed64(reader, false)
}

#[tactic(auto, unfolding(crate::specs::HeaderReadings::form_at))]
fn form(reader: &mut Reader) -> Result<u8, Break>
    ensures gives { Gives (λ x. x) result reader.new (form_at reader.old) }
    ensures whole { reader.new.whole ≡ reader.old.whole }
{
    let at = reader.at();
    match number32(reader)? {
        TAG_1 => Ok(1),
        TAG_2 => Ok(2),
        _ => Err(Break::At(at)),
    }
}

/// The pages of the header and the number of stripes.
#[tactic(auto, unfolding(crate::specs::HeaderReadings::sizes_at))]
fn sizes(reader: &mut Reader) -> Result<(u32, u32), Break>
    ensures gives { Gives (λ x. x) result reader.new (sizes_at reader.old) }
    ensures whole { reader.new.whole ≡ reader.old.whole }
{
    let pages_at = reader.at();
    let pages = number32(reader)?;
    let stripes_at = reader.at();
    let stripes = number32(reader)?;
    if u64::from(pages) != header_pages(stripes) {
        return Err(Break::At(pages_at));
    }
    if stripes < 1 || stripes > MOST_STRIPES as u32 {
        return Err(Break::At(stripes_at));
    }
    Ok((pages, stripes))
}

/// The fewest pages that hold the fields of a header of so many stripes.
fn header_pages(stripes: u32) -> u64
    ensures { result ≡ header_pages stripes }
{
    (20 + 32 * u64::from(stripes)).div_ceil(PAGE_BYTES)
}

#[tactic(auto, unfolding(crate::specs::HeaderReadings::counts_at))]
fn counts(reader: &mut Reader) -> Result<Front, Break>
    ensures gives { Gives (λ x. x) result reader.new (counts_at reader.old) }
    ensures whole { reader.new.whole ≡ reader.old.whole }
{
    let form = form(reader)?;
    let (pages, stripes) = sizes(reader)?;
    let index_pages = number32(reader)?;
    let bloom_pages = number32(reader)?;
    Ok(Front {
        form,
        pages,
        stripes,
        index_pages,
        bloom_pages,
    })
}

/// The pages of a stripe that begins at that page.
#[tactic(auto, unfolding(crate::specs::HeaderReadings::passing))]
fn stripe_pages(reader: &mut Reader, page: u64) -> Result<u64, Break>
    requires { page ≤ 2 ^ 51 }
    ensures gives { Gives (λ x. x) result reader.new
        (passing (is_in_reach page) number64_at reader.old) }
    ensures whole { reader.new.whole ≡ reader.old.whole }
    ensures reach { IfOk result (λ pages. page + pages ≤ 2 ^ 51) }
{
    let at = reader.at();
    let pages = number64(reader)?;
    if pages > MOST_PAGES - page {
        return Err(Break::At(at));
    }
    Ok(pages)
}

/// How many rows a stripe has: 256, but for the last one, which may have fewer.
#[tactic(auto, unfolding(crate::specs::HeaderReadings::passing))]
fn stripe_rows(reader: &mut Reader, is_last: bool) -> Result<u32, Break>
    ensures gives { Gives (λ x. x) result reader.new
        (passing (has_rows is_last) number64_at reader.old) }
    ensures whole { reader.new.whole ≡ reader.old.whole }
{
    let at = reader.at();
    let rows = number64(reader)?;
    if !has_rows(is_last, rows) {
        return Err(Break::At(at));
    }
    Ok(rows as u32)
}

fn has_rows(is_last: bool, rows: u64) -> bool
    ensures rows { result ≡ has_rows is_last rows }
    ensures few { IsTrue result → rows ≤ 256 }
{
    if is_last {
        1 <= rows && rows <= 256
    } else {
        rows == 256
    }
}

/// The entry of a stripe that begins at that page.
#[tactic(auto, unfolding(crate::specs::HeaderReadings::entry_at))]
fn entry(reader: &mut Reader, is_last: bool, page: u64) -> Result<StripeInfo, Break>
    requires { page ≤ 2 ^ 51 }
    ensures gives { Gives (λ x. x) result reader.new (entry_at is_last page reader.old) }
    ensures whole { reader.new.whole ≡ reader.old.whole }
    ensures reach { IfOk result (λ stripe. page + stripe.pages ≤ 2 ^ 51) }
{
    let pages = stripe_pages(reader, page)?;
    let rows = stripe_rows(reader, is_last)?;
    let earliest = number64(reader)?;
    let latest = number64(reader)?;
    Ok(StripeInfo {
        page,
        pages,
        rows,
        earliest,
        latest,
    })
}

/// The entries of so many stripes, the first of which begins at that page.
fn entries(
    alloc: Global,
    reader: &mut Reader,
    first: u64,
    count: u32,
) -> Result<Vec<StripeInfo>, Break>
    requires { first ≤ 2 ^ 51 }
    ensures gives { Gives (λ x. x.items) result reader.new (entries_at count first [] reader.old) }
    ensures whole { reader.new.whole ≡ reader.old.whole }
{
    let mut stripes = Vec::new(alloc);
    let mut page = first;
    for index in 0..count {
        let stripe = entry(reader, index + 1 == count, page)?;
        page += stripe.pages;
        stripes.push(stripe)?;
    }
    Ok(stripes)
}
