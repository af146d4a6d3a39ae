//! A block whose header isn't written yet.

ghost use Rattle.std.specs.Prelude.{◌≡◌, ◌%◌, ◌^◌, ◌<◌, ◌≤◌, IfOk, length, true};
ghost use Rattle.std.specs.Int.{div_ceil};
ghost use Rattle.block_build.specs.Drafts.{AddsStripe, IsDraft};
ghost use Rattle.block_format.specs.Blocks.{form_of_rows};
ghost use Rattle.block_format.specs.Headers.{header_pages};
ghost use Rattle.block_stripes.specs.StripeReadings.{ascend};
ghost use Rattle.block_stripes.specs.Stripes.{can_be_stripe, is_extended};

use crate::rows::{earliest, latest, stripe_rows};
use block_info::{PAGE_SIZE, STRIPE_ROWS, StripeInfo};
use block_stripes::write_refs;
use row_refs::RowRef;
use span_types::Memory;
use std::alloc::Global;

/// The pages of a header, which are zeros so far, and those of the stripes after them, with the stripes' entries.
#[derive(Drop)]
pub struct Draft {
    pub bytes: Vec<u8>,
    pub stripes: Vec<StripeInfo>,
}

/// The stripes of rows in block order, of which there are 1 to 1,048,576.
pub fn draft_of(alloc: Global, rows: &[RowRef<'_>], form: u8) -> Result<Draft, Memory>
    requires some { 1 ≤ length rows.now }
    requires few { length rows.now ≤ 1048576 }
    requires order { ascend rows.now ≡ true }
    requires form { form ≡ form_of_rows rows.now }
    ensures { IfOk result (λ draft. IsDraft form rows.now draft.bytes.items draft.stripes.items) }
{
    let count = stripe_count(rows);
    let front = header_pages(count);
    let mut bytes = zeros(alloc, front * PAGE_SIZE)?;
    let mut stripes = Vec::with_capacity(alloc, count)?;
    for number in 0..count {
        let taken = stripe_rows(rows, number);
        let stripe = put_stripe(alloc, &mut bytes, taken, form)?;
        stripes.push(stripe)?;
    }
    Ok(Draft { bytes, stripes })
}

/// How many stripes rows have.
fn stripe_count(rows: &[RowRef<'_>]) -> usize
    ensures { result ≡ div_ceil (length rows.now) 256 }
{
    rows.len().div_ceil(STRIPE_ROWS)
}

/// So many zeros.
fn zeros(alloc: Global, size: usize) -> Result<Vec<u8>, Memory>
    ensures { IfOk result (λ bytes. length bytes.items ≡ size) }
{
    Ok(vec![in alloc; 0; size]?)
}

/// How many pages the header of so many stripes has.
pub fn header_pages(stripes: usize) -> usize
    requires { stripes ≤ 4096 }
    ensures pages { result ≡ header_pages stripes }
    ensures few { result ≤ 33 }
{
    (20 + 32 * stripes).div_ceil(PAGE_SIZE)
}

/// Adds the stripe of these rows to whole pages, and gives its entry.
fn put_stripe(
    alloc: Global,
    bytes: &mut Vec<u8>,
    rows: &[RowRef<'_>],
    form: u8,
) -> Result<StripeInfo, Memory>
    requires can { can_be_stripe (is_extended form) rows.now ≡ true }
    requires whole { length bytes.old.items % 4096 ≡ 0 }
    ensures { IfOk result
        (λ entry. AddsStripe form rows.now bytes.old.items bytes.new.items entry) }
{
    let stripe = write_refs(alloc, rows, form)?;
    let page = bytes.len() / PAGE_SIZE;
    bytes.extend_from_slice(stripe.as_slice())?;
    let first = earliest(rows);
    let last = latest(rows);
    moments_fit(first, last);
    Ok(StripeInfo {
        page: page as u64,
        pages: (stripe.len() / PAGE_SIZE) as u64,
        rows: rows.len() as u32,
        earliest: first,
        latest: last,
    })
}

/// What the type of moments promises, for the proof of the caller. It does nothing.
fn moments_fit(first: u64, last: u64)
    ensures { (first < 2 ^ 64) × (last < 2 ^ 64) }
{
    let _ = (first, last);
}
