//! Reading a stripe.

ghost use Rattle.std.specs.Prelude.{◌≡◌, ◌+◌, ◌<◌, ◌≤◌, ◌^◌, IfOk, OnOk, Err, false, length, take, true};
ghost use Rattle.span_fields.specs.Breaks.{Answers, Fails};
ghost use Rattle.block_columns.specs.Outcomes.{Finds};
ghost use Rattle.block_stripes.specs.StripeReadings.{content_at, content_of, counted_rows_at, owned_rows_at, scoped_rows_at, size_at, stripe_at, texts_first};
ghost use Rattle.block_stripes.specs.Stripes.{ReadsFrom, is_extended};

use crate::FormatError;
use crate::cells::{Listed, Tables, cells};
use crate::fill::unfilled;
use crate::kinds::{Resources, Scopes, WholeTexts};
use crate::rows::{ascend, rows_of_cells};
use block_columns::{Fields, table, unused};
use byte_fields::Reader;
use indexmap::IndexSet;
use span_fields::{Break, fixed64};
use span_types::{Memory, Row, Rows, Shared, SharedResource, Text};
use std::alloc::Global;
use std::hash::Hash;

/// The rows of a stripe whose first byte is at `base` in its file, in form 1, or in form 2, which has events and links.
///
/// Bytes that stand for no rows are [`FormatError::NotBlock`] at the first offset where they are malformed, counted from the
/// file's first byte. No number that they hold says how much memory is taken before as many bytes are there.
pub fn read_stripe(alloc: Global, bytes: &[u8], base: u64, form: u8) -> Result<Rows, FormatError>
    requires { base + length bytes.now < 2 ^ 64 }
    ensures { ReadsFrom base bytes.now result (stripe_at (is_extended form) bytes.now) }
{
    match stripe(alloc, bytes, form == 2) {
        Ok(rows) => Ok(Rows::of(rows)),
        Err(Break::At(at)) => {
            let at = base + at.min(bytes.len() as u64);
            Err(FormatError::NotBlock { at })
        }
        Err(Break::Memory) => Err(FormatError::Memory),
    }
}

#[tactic(auto, unfolding(crate::specs::StripeReadings::stripe_at))]
fn stripe(alloc: Global, bytes: &[u8], extended: bool) -> Result<Vec<Row>, Break>
    ensures { Answers (λ x. x.items) result (stripe_at extended bytes.now) }
{
    let mut reader = Reader::new(alloc, bytes);
    let size = fixed64(&mut reader, false)?;
    let rows = content_of(alloc, bytes, size, extended)?;
    let end = 8 + size as usize;
    if let Some(at) = unfilled(end, &bytes[end..]) {
        return Err(Break::At(at));
    }
    if !ascend(rows.as_slice()) {
        return Err(Break::At(0));
    }
    Ok(rows)
}

/// The bytes up to the end of a content of so many bytes, or all.
pub fn front(bytes: &[u8], size: u64) -> &[u8]
    requires { 8 ≤ length bytes.now }
    ensures part { result.now ≡ take (8 + size) bytes.now }
    ensures long { 8 ≤ length result.now }
{
    if size <= bytes.len() as u64 - 8 {
        &bytes[..8 + size as usize]
    } else {
        bytes
    }
}

/// The rows of a content of so many bytes, which begins at offset 8.
#[tactic(auto, unfolding(crate::specs::StripeReadings::content_of))]
fn content_of(alloc: Global, bytes: &[u8], size: u64, extended: bool) -> Result<Vec<Row>, Break>
    requires { 8 ≤ length bytes.now }
    ensures answers { Answers (λ x. x.items) result (content_of extended bytes.now size) }
    ensures whole { OnOk result (8 + size ≤ length bytes.now) }
{
    let within = size <= bytes.len() as u64 - 8;
    let part = front(bytes, size);
    let mut fields = Fields::of(Reader::starting_at(alloc, part, 8), within);
    let rows = content(alloc, &mut fields, extended)?;
    let at = fields.at();
    if within && at == part.len() as u64 {
        return Ok(rows);
    }
    Err(Break::At(at))
}

/// The texts, and the rows, which use each of them.
#[tactic(auto, unfolding(crate::specs::StripeReadings::content_at))]
fn content(alloc: Global, fields: &mut Fields, extended: bool) -> Result<Vec<Row>, Break>
    ensures { Finds (λ x. x.items) result fields.new (content_at extended fields.old) }
{
    let list = fields.fork();
    let texts = table(alloc, fields, &WholeTexts)?;
    text_rows(alloc, fields, &list, texts.as_slice(), extended)
}

/// The rows after these texts, which they use.
fn text_rows(
    alloc: Global,
    fields: &mut Fields,
    list: &Fields,
    texts: &[Text],
    extended: bool,
) -> Result<Vec<Row>, Break>
    ensures { Finds (λ x. x.items) result fields.new
        (texts_first list.now texts.now (owned_rows_at true extended texts.now fields.old)
        (owned_rows_at false extended texts.now fields.old)) }
{
    let lenient = fields.fork();
    let tables = Tables {
        texts,
        extended,
        strict: true,
    };
    match owned_rows(alloc, fields, &tables) {
        Ok(rows) => {
            if fields.used() == texts.len() {
                return Ok(rows);
            }
            Err(unused(alloc, list, &WholeTexts, fields.used() as u64))
        }
        Err(Break::At(at)) => Err(text_or(alloc, list, lenient, texts, extended, at)),
        Err(Break::Memory) => Err(Break::Memory),
    }
}

/// Why the content is malformed: at this offset, unless a text before it is used by nothing, though rows can be read where
/// resources and scopes that nothing refers to are let be.
fn text_or(
    alloc: Global,
    list: &Fields,
    mut fields: Fields,
    texts: &[Text],
    extended: bool,
    at: u64,
) -> Break
    ensures { Fails result
        (texts_first list.now texts.now (Err at)
        (owned_rows_at false extended texts.now fields.entry)) }
{
    let tables = Tables {
        texts,
        extended,
        strict: false,
    };
    match owned_rows(alloc, &mut fields, &tables) {
        Ok(_) => {
            if fields.used() == texts.len() {
                return Break::At(at);
            }
            unused(alloc, list, &WholeTexts, fields.used() as u64)
        }
        Err(Break::At(_)) => Break::At(at),
        Err(Break::Memory) => Break::Memory,
    }
}

/// The resources, the scopes, and the rows.
#[tactic(auto, unfolding(crate::specs::StripeReadings::owned_rows_at))]
fn owned_rows(alloc: Global, fields: &mut Fields, tables: &Tables) -> Result<Vec<Row>, Break>
    ensures { Finds (λ x. x.items) result fields.new
        (owned_rows_at tables.now.strict tables.now.extended tables.now.texts.now fields.old) }
{
    let list = fields.fork();
    let texts = tables.texts;
    let resources = table(alloc, fields, &Resources { alloc, texts })?;
    let values = shared(alloc, resources)?;
    let resources = Listed {
        list,
        values: values.as_slice(),
    };
    scoped_rows(alloc, fields, tables, resources)
}

/// The scopes, and the rows.
#[tactic(auto, unfolding(crate::specs::StripeReadings::scoped_rows_at, crate::specs::StripeReadings::counted_rows_at, block_columns::specs::ColumnReadings::made_at))]
fn scoped_rows(
    alloc: Global,
    fields: &mut Fields,
    tables: &Tables,
    resources: Listed<SharedResource>,
) -> Result<Vec<Row>, Break>
    ensures { Finds (λ x. x.items) result fields.new
        (scoped_rows_at tables.now.strict tables.now.extended tables.now.texts.now
        (record { list = resources.entry.list; values = resources.entry.values.now }) fields.old) }
{
    let list = fields.fork();
    let texts = tables.texts;
    let scopes = table(alloc, fields, &Scopes { alloc, texts })?;
    let values = shared(alloc, scopes)?;
    let scopes = Listed {
        list,
        values: values.as_slice(),
    };
    let count = size(fields)?;
    let cells = cells(alloc, fields, tables, resources, scopes, count)?;
    let rows = rows_of_cells(alloc, cells)?;
    Ok(rows)
}

/// The values of a table, which can be shared from now on.
pub fn shared<T: Eq + Hash + Drop>(
    alloc: Global,
    table: IndexSet<T>,
) -> Result<Vec<Shared<T>>, Memory>
    ensures { IfOk result (λ x. x.items ≡ table.keys) }
{
    let mut values = Vec::with_capacity(alloc, table.len())?;
    for value in table {
        values.push(Shared::of(alloc, value)?)?;
    }
    Ok(values)
}

/// How many rows a stripe has.
#[tactic(auto, unfolding(crate::specs::StripeReadings::size_at))]
pub fn size(fields: &mut Fields) -> Result<u64, Break>
    ensures { Finds (λ x. x) result fields.new (size_at fields.old) }
{
    let count = fields.number()?;
    if count == 0 || count > 256 {
        return Err(Break::At(0));
    }
    Ok(count)
}
