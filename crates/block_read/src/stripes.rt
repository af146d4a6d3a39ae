//! The stripes of a block.

ghost use Rattle.std.specs.Prelude.{◌≡◌, ◌+◌, ◌*◌, ◌≤◌, ◌^◌, ◌++◌, ◌==◌, Err, None, Some, IfOk, OnOk, length, nat_le};
ghost use Rattle.std.specs.Int.{div_ceil};
ghost use Rattle.std.specs.List.{list_all, list_any};
ghost use Rattle.std.specs.Ordering.{is_lt};
ghost use Rattle.span_types.specs.Orders.{block_order};
ghost use Rattle.span_fields.specs.Breaks.{Answers, Fails};
ghost use Rattle.block_format.specs.Headers.{CanBeHeader};
ghost use Rattle.block_stripes.specs.StripeReadings.{stripe_at};
ghost use Rattle.block_stripes.specs.Stripes.{is_extended};
ghost use Rattle.block_stripes.specs.StripeStarts.{size_of, starts_of};
ghost use Rattle.block_read.specs.BlockReadings.{agreeing, agrees, can_agree, disagrees, follow, has_other_size, has_other_starts, in_file, is_earliest, is_latest, last_of, starts, stripe_of, stripes_of, within};
ghost use Rattle.block_read.specs.Files.{part_of};

use crate::file::{each_fits, part};
use block_format::{FormatError, Header};
use block_info::{PAGE_BYTES, StripeInfo};
use block_stripes::{read_is_held, read_size, read_starts, read_stripe};
use byte_fields::Reader;
use span_fields::{Break, fixed64};
use span_types::{Memory, Row, TryCopy};
use std::alloc::Global;

/// The rows of all stripes of a block.
pub fn stripes(alloc: Global, bytes: &[u8], header: &Header) -> Result<Vec<Row>, Break>
    requires { CanBeHeader header.now }
    ensures answers { Answers (λ x. x.items) result
        (stripes_of header.now.form header.now.stripes None bytes.now) }
    ensures few { IfOk result (λ rows. length rows.items ≤ 256 * length header.now.stripes) }
{
    let mut rows = Vec::new(alloc);
    let mut last = None;
    for entry in header.stripes.as_slice() {
        let found = placed_stripe(alloc, bytes, header.form, entry, &last)?;
        last = last_of(found.as_slice())?;
        add(&mut rows, found)?;
    }
    Ok(rows)
}

/// Adds rows to others.
pub fn add(rows: &mut Vec<Row>, more: Vec<Row>) -> Result<(), Memory>
    ensures { OnOk result (rows.new.items ≡ rows.old.items ++ more.items) }
{
    let mut more = more;
    rows.append(&mut more)?;
    Ok(())
}

/// A copy of the last row.
pub fn last_of(rows: &[Row]) -> Result<Option<Row>, Memory>
    ensures { IfOk result (λ last. last ≡ last_of rows.now) }
{
    match rows.last() {
        None => Ok(None),
        Some(row) => Ok(Some(row.copy()?)),
    }
}

/// The rows of the stripe with this entry, after that row. Offsets are the file's.
pub fn placed_stripe(
    alloc: Global,
    bytes: &[u8],
    form: u8,
    entry: &StripeInfo,
    last: &Option<Row>,
) -> Result<Vec<Row>, Break>
    requires { entry.now.page ≤ 2 ^ 51 }
    ensures answers { Answers (λ x. x.items) result
        (in_file (4096 * entry.now.page) (part_of entry.now.page entry.now.pages bytes.now)
        (stripe_of form entry.now last.now (part_of entry.now.page entry.now.pages bytes.now))) }
    ensures few { IfOk result (λ rows. length rows.items ≤ 256) }
{
    let part = part(bytes, entry.page, entry.pages);
    match stripe(alloc, part, form, entry, last) {
        Ok(rows) => Ok(rows),
        Err(Break::At(at)) => Err(Break::At(entry.page * PAGE_BYTES + at.min(part.len() as u64))),
        Err(Break::Memory) => Err(Break::Memory),
    }
}

/// The rows of the stripe that this part of a file is. Offsets are counted from the part's first byte.
#[tactic(auto, unfolding(crate::specs::BlockReadings::stripe_of))]
pub fn stripe(
    alloc: Global,
    part: &[u8],
    form: u8,
    entry: &StripeInfo,
    last: &Option<Row>,
) -> Result<Vec<Row>, Break>
    ensures answers { Answers (λ x. x.items) result (stripe_of form entry.now last.now part.now) }
    ensures few { IfOk result (λ rows. length rows.items ≤ 256) }
{
    if !can_agree(entry) {
        return Err(Break::At(0));
    }
    let mut reader = Reader::new(alloc, part);
    let size = fixed64(&mut reader, false)?;
    if !has_pages(size, entry.pages) {
        return Err(Break::At(0));
    }
    let rows = agreeing(alloc, part, form, entry)?;
    if !follow(last, rows.as_slice()) {
        return Err(Break::At(0));
    }
    Ok(rows)
}

/// Whether a stripe can agree with an entry: its earliest start isn't after its latest, and of one row it is the
/// latest.
pub fn can_agree(entry: &StripeInfo) -> bool
    ensures { result ≡ can_agree entry.now }
{
    entry.earliest <= entry.latest && (entry.rows != 1 || entry.earliest == entry.latest)
}

/// Whether a content of so many bytes has, with its length, so many pages.
pub fn has_pages(size: u64, pages: u64) -> bool
    ensures { result ≡ (div_ceil (8 + size) 4096 == pages) }
{
    (8 + u128::from(size)).div_ceil(4096) == u128::from(pages)
}

/// The rows of a stripe, which agree with its entry.
fn agreeing(alloc: Global, part: &[u8], form: u8, entry: &StripeInfo) -> Result<Vec<Row>, Break>
    ensures answers { Answers (λ x. x.items) result
        (agreeing entry.now part.now (within part.now (stripe_at (is_extended form) part.now))) }
    ensures few { IfOk result (λ rows. length rows.items ≤ 256) }
{
    match rows_of(alloc, part, form) {
        Ok(rows) => {
            let starts = starts(alloc, rows.as_slice())?;
            if agrees(entry, starts.as_slice()) {
                return Ok(rows);
            }
            Err(Break::At(0))
        }
        Err(Break::At(at)) => Err(first_break(alloc, part, entry, at)),
        Err(Break::Memory) => Err(Break::Memory),
    }
}

/// The rows of a stripe by itself.
fn rows_of(alloc: Global, part: &[u8], form: u8) -> Result<Vec<Row>, Break>
    ensures answers { Answers (λ x. x.items) result
        (within part.now (stripe_at (is_extended form) part.now)) }
    ensures few { IfOk result (λ rows. length rows.items ≤ 256) }
{
    each_fits(part);
    read_is_held();
    match read_stripe(alloc, part, 0, form) {
        Ok(rows) => Ok(rows.into_vec()),
        Err(FormatError::NotBlock { at }) => Err(Break::At(at)),
        Err(FormatError::Memory) => Err(Break::Memory),
    }
}

/// Where a stripe is malformed that by itself is malformed at this offset: at its first byte where it disagrees with its
/// entry.
fn first_break(alloc: Global, part: &[u8], entry: &StripeInfo, at: u64) -> Break
    ensures { Fails result (agreeing entry.now part.now (Err at)) }
{
    match disagrees(alloc, part, entry) {
        Ok(true) => Break::At(0),
        Ok(false) => Break::At(at),
        Err(_) => Break::Memory,
    }
}

/// Whether so much of a stripe as can be read tells that it disagrees with its entry.
fn disagrees(alloc: Global, part: &[u8], entry: &StripeInfo) -> Result<bool, Memory>
    ensures { IfOk result (λ other. other ≡ disagrees entry.now part.now) }
{
    let other_size = has_other_size(alloc, part, entry)?;
    let other_starts = has_other_starts(alloc, part, entry)?;
    Ok(other_size || other_starts)
}

/// Whether the number of a stripe's rows can be read, and isn't that of its entry.
fn has_other_size(alloc: Global, part: &[u8], entry: &StripeInfo) -> Result<bool, Memory>
    ensures { IfOk result (λ other. other ≡ has_other_size entry.now (size_of part.now)) }
{
    match read_size(alloc, part) {
        Ok(size) => Ok(size != u64::from(entry.rows)),
        Err(Break::At(_)) => Ok(false),
        Err(Break::Memory) => Err(Memory),
    }
}

/// Whether the starts of a stripe's rows can be read, and don't agree with its entry.
fn has_other_starts(alloc: Global, part: &[u8], entry: &StripeInfo) -> Result<bool, Memory>
    ensures { IfOk result (λ other. other ≡ has_other_starts entry.now (starts_of part.now)) }
{
    match read_starts(alloc, part) {
        Ok(starts) => Ok(!agrees(entry, starts.as_slice())),
        Err(Break::At(_)) => Ok(false),
        Err(Break::Memory) => Err(Memory),
    }
}

/// When rows start.
fn starts(alloc: Global, rows: &[Row]) -> Result<Vec<u64>, Memory>
    ensures { IfOk result (λ moments. moments.items ≡ starts rows.now) }
{
    let mut moments = Vec::with_capacity(alloc, rows.len())?;
    for row in rows {
        moments.push(row.span.start)?;
    }
    Ok(moments)
}

/// Whether rows that start so are as many as the entry says, with the first and the last moment that it says.
pub fn agrees(entry: &StripeInfo, moments: &[u64]) -> bool
    ensures { result ≡ agrees entry.now moments.now }
{
    moments.len() == entry.rows as usize
        && is_earliest(entry.earliest, moments)
        && is_latest(entry.latest, moments)
}

/// Whether one of the moments is that one, and none is before it.
fn is_earliest(moment: u64, moments: &[u64]) -> bool
    ensures { result ≡ is_earliest moment moments.now }
{
    is_one_of(moment, moments) && none_before(moment, moments)
}

/// Whether one of the moments is that one, and none is after it.
fn is_latest(moment: u64, moments: &[u64]) -> bool
    ensures { result ≡ is_latest moment moments.now }
{
    is_one_of(moment, moments) && none_after(moment, moments)
}

fn is_one_of(moment: u64, moments: &[u64]) -> bool
    ensures { result ≡ list_any (λ m. m == moment) moments.now }
{
    moments.iter().any(|m| *m == moment)
}

fn none_before(moment: u64, moments: &[u64]) -> bool
    ensures { result ≡ list_all (λ m. nat_le moment m) moments.now }
{
    moments.iter().all(|m| moment <= *m)
}

fn none_after(moment: u64, moments: &[u64]) -> bool
    ensures { result ≡ list_all (λ m. nat_le m moment) moments.now }
{
    moments.iter().all(|m| *m <= moment)
}

/// Whether the first of the rows comes after that row, where there is one.
fn follow(last: &Option<Row>, rows: &[Row]) -> bool
    ensures { result ≡ follow last.now rows.now }
{
    match last {
        None => true,
        Some(last) => comes_before(last, rows),
    }
}

/// Whether a row comes before the first of others.
fn comes_before(last: &Row, rows: &[Row]) -> bool
    ensures { result ≡ follow (Some last.now) rows.now }
{
    let [first, ..] = rows else {
        return true;
    };
    is_before(last, first)
}

/// Whether a row comes before the other in block order.
fn is_before(a: &Row, b: &Row) -> bool
    ensures { result ≡ is_lt (block_order a.now b.now) }
{
    let trace = a.span.trace.cmp(&b.span.trace);
    let start = a.span.start.cmp(&b.span.start);
    let order = trace.then(start.then(a.span.id.cmp(&b.span.id)));
    order.is_lt()
}
