//! A block that is built row by row. A stripe is written as soon as its rows are there, and these are dropped.

ghost use Rattle.std.specs.Prelude.{◌≡◌, ◌++◌, ◌∷◌, ◌≤◌, [], ℕ, IfOk, IfSome, IsSome, IsTrue, List, OnOk, false, length, true};
ghost use Rattle.span_types.specs.declared.spans.Row.{Row};
ghost use Rattle.block_format.specs.Blocks.{BlockHasInfo, StripeHasEntry, form_of_rows};
ghost use Rattle.block_stripes.specs.StripeReadings.{ascend};
ghost use Rattle.block_stripes.specs.Stripes.{StripeHolds, can_be_stripe, is_extended};
ghost use Rattle.block_build.specs.Builders.{HasForm, IsWritten, Puts, Takes};

use crate::building::BuiltBlock;
use crate::placing::close;
use crate::rows::{earliest, form_of, ids_of, latest};
use block_format::can_be_stripe;
use block_info::{PAGE_SIZE, STRIPE_ROWS, StripeInfo};
use block_stripes::write_refs;
use row_refs::{RowRef, refs_of};
use span_types::{Ids, Memory, Row, Rows};
use std::alloc::Global;
use std::mem;

/// A block to which rows are added in block order. What it has taken, contracts say by `Takes`.
///
/// Its form is said before the rows are known. If these want another form, or aren't in block order, it isn't sure of
/// its block, and gives none. Otherwise it gives one, as [`Builder::finish`] says.
#[derive(Drop)]
pub struct Builder {
    alloc: Global,
    form: u8,
    // rows that aren't written yet, fewer than a stripe has
    rows: Vec<Row>,
    // the stripes that are written, with the entries that the header is to have but for their pages
    body: Vec<u8>,
    stripes: Vec<StripeInfo>,
    // the trace ids of the rows that are written, and the form that these want
    ids: Ids,
    wanted: u8,
    sure: bool,
}

impl Builder {
    /// A block of this form without rows.
    pub fn new(alloc: Global, form: u8) -> Builder
        ensures takes { Takes result [] }
        ensures form { HasForm result form }
    {
        Builder {
            alloc,
            form,
            rows: Vec::new(alloc),
            body: Vec::new(alloc),
            stripes: Vec::new(alloc),
            ids: Ids::none(alloc),
            wanted: 1,
            sure: true,
        }
    }

    /// Adds a row after the others, and writes their stripe if it is full.
    pub fn add(&mut self, row: Row) -> Result<(), Memory>
        ensures takes { OnOk result ((rows : List Row) → Takes self.old rows
            → Takes self.new (rows ++ row ∷ [])) }
        ensures form { OnOk result ((form : ℕ) → HasForm self.old form → HasForm self.new form) }
    {
        self.rows.push(row)?;
        if self.rows.len() < STRIPE_ROWS {
            return Ok(());
        }
        self.write()
    }

    /// The block of the rows that were added. None comes only where they aren't 1 to 1,048,576 rows in block order which
    /// want the form that was said.
    pub fn finish(self) -> Result<Option<BuiltBlock>, Memory>
        ensures block { (rows : List Row) → Takes self rows → ascend rows ≡ true
            → IfOk result (λ found.
            IfSome found (λ built. BlockHasInfo built.info built.bytes rows)) }
        ensures some { (rows : List Row) → Takes self rows → ascend rows ≡ true
            → HasForm self (form_of_rows rows)
            → 1 ≤ length rows → length rows ≤ 1048576 → IfOk result (λ found. IsSome found) }
    {
        let mut builder = self;
        builder.write_rest()?;
        if !builder.is_sure() {
            return Ok(None);
        }
        let Builder {
            alloc,
            form,
            body,
            stripes,
            ids,
            ..
        } = builder;
        close(alloc, form, body, stripes, &ids)
    }

    /// Whether it is sure of its block, and this has the form that was said.
    fn is_sure(&self) -> bool
        ensures sure { result ≡ true → self.now.sure ≡ true }
        ensures form { result ≡ true → self.now.form ≡ self.now.wanted }
        ensures other { result ≡ false → IsTrue self.now.sure → self.now.form ≡ self.now.wanted
            → ⊥ }
    {
        self.sure && self.form == self.wanted
    }

    /// Writes the rows that aren't written yet, if there are any.
    fn write_rest(&mut self) -> Result<(), Memory>
        ensures { OnOk result (IsWritten self.old self.new) }
    {
        if self.rows.is_empty() {
            return Ok(());
        }
        self.write()
    }

    /// Writes the rows that aren't written yet, of which there are some, as a stripe.
    fn write(&mut self) -> Result<(), Memory>
        requires { 1 ≤ length self.old.rows.items }
        ensures { OnOk result (IsWritten self.old self.new) }
    {
        let rows = mem::replace(&mut self.rows, Vec::new(self.alloc));
        let rows = Rows::of(rows);
        if !can_be_stripe(&rows, self.form) {
            self.sure = false;
            return Ok(());
        }
        let refs = refs_of(self.alloc, rows.as_slice())?;
        self.put(refs.as_slice())
    }

    /// Puts the stripe of these rows after the others.
    fn put(&mut self, rows: &[RowRef<'_>]) -> Result<(), Memory>
        requires { can_be_stripe (is_extended self.old.form) rows.now ≡ true }
        ensures { OnOk result (Puts self.old rows.now self.new) }
    {
        let ids = ids_of(self.alloc, rows)?;
        self.ids.extend_from_slice(ids.as_slice())?;
        self.wanted = self.wanted.max(form_of(rows));
        let stripe = write_refs(self.alloc, rows, self.form)?;
        self.body.extend_from_slice(stripe.as_slice())?;
        let entry = entry_of(rows, stripe.as_slice());
        self.stripes.push(entry)?;
        Ok(())
    }
}

/// The entry of a stripe of these rows. Its page is 0.
fn entry_of(rows: &[RowRef<'_>], stripe: &[u8]) -> StripeInfo
    requires some { 1 ≤ length rows.now }
    requires few { length rows.now ≤ 256 }
    ensures { (form : ℕ) → StripeHolds form stripe.now rows.now
        → StripeHasEntry form result stripe.now rows.now }
{
    StripeInfo {
        page: 0,
        pages: (stripe.len() / PAGE_SIZE) as u64,
        rows: rows.len() as u32,
        earliest: earliest(rows),
        latest: latest(rows),
    }
}
