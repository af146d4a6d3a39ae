//! Reading of a stripe how many rows it has, and when they start, whatever comes after that.

ghost use Rattle.std.specs.Prelude.{◌≡◌, ◌≤◌, IfOk, length, map};
ghost use Rattle.span_fields.specs.Breaks.{Answers};
ghost use Rattle.block_columns.specs.Outcomes.{Finds};
ghost use Rattle.block_stripes.specs.StripeReadings.{content_part};
ghost use Rattle.block_stripes.specs.StripeStarts.{content_spot, size_after, size_of, start_cells_at, start_of, starts_of, texts_and_size_at};

use crate::kinds::{
    Moments, Numbers, Parents, Positions, Resources, Scopes, SpanIds, SpanKinds, TraceIds,
    WholeTexts,
};
use crate::stripe_reading::{front, size};
use block_columns::{Both, Columns, Fields, Referred, Single, table};
use byte_fields::Reader;
use indexmap::IndexSet;
use span_fields::{Break, fixed64};
use span_types::{Memory, SpanId, SpanKind, Text, TraceId};
use std::alloc::Global;

/// Position, name, kind, start.
type NameCells = (u32, (Text, (SpanKind, u64)));

/// Trace, span, parent, push, and the cells after them.
type StartCells = (TraceId, (SpanId, (Option<SpanId>, (u64, NameCells))));

/// How many rows a stripe has, 1 to 256. Nothing is read after that number. Offsets are counted from the stripe's first byte.
#[tactic(auto, unfolding(crate::specs::StripeStarts::size_of))]
pub fn read_size(alloc: Global, bytes: &[u8]) -> Result<u64, Break>
    ensures { Answers (λ x. x) result (size_of bytes.now) }
{
    let mut fields = content(alloc, bytes)?;
    let (_, size) = texts_and_size(alloc, &mut fields)?;
    Ok(size)
}

/// When the rows of a stripe start, in nanoseconds since 1970 and in their order. Nothing is read after the column of starts.
/// Offsets are counted from the stripe's first byte.
#[tactic(auto, unfolding(crate::specs::StripeStarts::starts_of))]
pub fn read_starts(alloc: Global, bytes: &[u8]) -> Result<Vec<u64>, Break>
    ensures { Answers (λ x. x.items) result (starts_of bytes.now) }
{
    let mut fields = content(alloc, bytes)?;
    let (texts, size) = texts_and_size(alloc, &mut fields)?;
    let cells = start_cells(alloc, &mut fields, texts.as_slice(), size)?;
    let starts = starts(alloc, cells.as_slice())?;
    Ok(starts)
}

/// The content of a stripe, after its length.
#[tactic(auto, unfolding(crate::specs::StripeStarts::content_spot))]
fn content<'a>(alloc: Global, bytes: &'a [u8]) -> Result<Fields<'a>, Break>
    ensures { Answers (λ x. x) result (content_spot bytes.now) }
{
    let mut reader = Reader::new(alloc, bytes);
    let size = fixed64(&mut reader, false)?;
    Ok(sized_content(alloc, bytes, size))
}

/// A content of so many bytes.
fn sized_content<'a>(alloc: Global, bytes: &'a [u8], size: u64) -> Fields<'a>
    requires { 8 ≤ length bytes.now }
    ensures { result ≡ content_part bytes.now size }
{
    let within = size <= bytes.len() as u64 - 8;
    Fields::of(Reader::starting_at(alloc, front(bytes, size), 8), within)
}

/// The texts, and the number of rows.
#[tactic(auto, unfolding(crate::specs::StripeStarts::texts_and_size_at))]
fn texts_and_size(alloc: Global, fields: &mut Fields) -> Result<(IndexSet<Text>, u64), Break>
    ensures { Finds (λ x. (x.0.keys, x.1)) result fields.new (texts_and_size_at fields.old) }
{
    let texts = table(alloc, fields, &WholeTexts)?;
    let size = size_after(alloc, fields, texts.as_slice())?;
    Ok((texts, size))
}

/// The number of rows, which stands after the resources and the scopes.
#[tactic(auto, unfolding(crate::specs::StripeStarts::size_after))]
fn size_after(alloc: Global, fields: &mut Fields, texts: &[Text]) -> Result<u64, Break>
    ensures { Finds (λ x. x) result fields.new (size_after texts.now fields.old) }
{
    table(alloc, fields, &Resources { alloc, texts })?;
    table(alloc, fields, &Scopes { alloc, texts })?;
    size(fields)
}

/// The columns up to that of starts.
#[tactic(auto, unfolding(crate::specs::StripeStarts::start_cells_at))]
fn start_cells(
    alloc: Global,
    fields: &mut Fields,
    texts: &[Text],
    count: u64,
) -> Result<Vec<StartCells>, Break>
    ensures { Finds (λ x. x.items) result fields.new (start_cells_at texts.now count fields.old) }
{
    let names = Both {
        left: Single {
            kind: Referred { table: texts },
        },
        right: Both {
            left: Single { kind: SpanKinds },
            right: Single { kind: Moments },
        },
    };
    let places = Both {
        left: Single { kind: Numbers },
        right: Both {
            left: Single { kind: Positions },
            right: names,
        },
    };
    let columns = Both {
        left: Single { kind: TraceIds },
        right: Both {
            left: Single { kind: SpanIds },
            right: Both {
                left: Single { kind: Parents },
                right: places,
            },
        },
    };
    columns.read_all(alloc, fields, count)
}

fn start(cells: &StartCells) -> u64
    ensures { result ≡ start_of cells.now }
{
    let (_, (_, (_, (_, (_, (_, (_, start))))))) = cells;
    *start
}

fn starts(alloc: Global, cells: &[StartCells]) -> Result<Vec<u64>, Memory>
    ensures { IfOk result (λ starts. starts.items ≡ map start_of cells.now) }
{
    let mut starts = Vec::with_capacity(alloc, cells.len())?;
    for one in cells {
        starts.push(start(one))?;
    }
    Ok(starts)
}
