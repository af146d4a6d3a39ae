//! Writing replies: from a reply to the line of its text.

ghost use Rattle.std.specs.Prelude.{◌≡◌, IfOk, codes, string_bytes};
ghost use Rattle.session_text.specs.declared.reply.Reply.TheVariants.{Measured, Searched, Traced};
ghost use Rattle.session_text.specs.Replies.{compacted_text, cut_all_text, cut_text, flushed_text, kind_text, measured_text, not_block_text, not_store_text, pushed_text, query_text, reclaimed_text, refusal_text, refused_text, reopened_text, reply_text, round_text, searched_text, traced_text};

use crate::{KindFault, QueryFault, Refusal, Reply};
use otlp_spans::write_trace;
use search_text::{Texts, write_results, write_series};
use span_types::{Memory, Rows, Text};
use spanset_eval::{Results, SeriesList};
use std::alloc::{AllocError, Global};
use store_state::Refusal as RoundRefusal;

/// The text of a reply, with its line feed. The one error is out of memory.
///
/// The rows of a trace come in order of start, then span id; they are written as they stand.
pub fn write_reply(alloc: Global, reply: &Reply) -> Result<Text, Memory>
    ensures { IfOk result (λ text. text ≡ reply_text reply.now) }
{
    let text = text_of(alloc, reply)?;
    Ok(Text::of(text))
}

fn text_of(alloc: Global, reply: &Reply) -> Result<String, Memory>
    ensures { IfOk result (λ text. string_bytes text ≡ reply_text reply.now) }
{
    match reply {
        Reply::Pushed {
            number,
            accepted,
            rejected,
            skipped,
        } => Ok(pushed(alloc, *number, *accepted, *rejected, *skipped)?),
        Reply::Traced { as_of, rows } => write_traced(alloc, *as_of, rows),
        Reply::Searched {
            as_of,
            fields,
            results,
        } => write_searched(alloc, *as_of, fields, results),
        Reply::Measured { as_of, series } => write_measured(alloc, *as_of, series),
        Reply::Cut { moved } => Ok(cut(alloc, *moved)?),
        Reply::CutAll { moved } => Ok(cut_all(alloc, *moved)?),
        Reply::Flushed { rows } => Ok(flushed(alloc, *rows)?),
        Reply::NothingFlushed => Ok(String::from_str(alloc, "ok flush nothing\n")?),
        Reply::Compacted { blocks, rows } => Ok(compacted(alloc, *blocks, *rows)?),
        Reply::NothingCompacted => Ok(String::from_str(alloc, "ok compact nothing\n")?),
        Reply::Reclaimed { files } => Ok(reclaimed(alloc, *files)?),
        Reply::Reopened { entries } => Ok(reopened(alloc, *entries)?),
        Reply::Refused(why) => Ok(refused(alloc, why)?),
    }
}

/// The reply to a push.
fn pushed(
    alloc: Global,
    number: u64,
    accepted: u64,
    rejected: u32,
    skipped: u32,
) -> Result<String, AllocError>
    ensures { IfOk result
        (λ text. string_bytes text ≡ pushed_text number accepted rejected skipped) }
{
    format!(in alloc;
        "ok push {number} accepted={accepted} rejected={rejected} skipped={skipped}\n"
    )
}

/// The reply to a look-up.
fn write_traced(alloc: Global, as_of: u64, rows: &Rows) -> Result<String, Memory>
    ensures { IfOk result (λ text. string_bytes text ≡ reply_text (Traced as_of rows.now)) }
{
    let trace = write_trace(alloc, rows)?;
    let text = traced(alloc, as_of, rows.len(), trace.as_str())?;
    Ok(text)
}

fn traced(alloc: Global, as_of: u64, spans: usize, json: &str) -> Result<String, AllocError>
    ensures { IfOk result (λ text. string_bytes text ≡ traced_text as_of spans json.now) }
{
    format!(in alloc; "ok trace as_of={as_of} spans={spans} {json}\n")
}

/// The reply to a search.
fn write_searched(
    alloc: Global,
    as_of: u64,
    fields: &Texts,
    results: &Results,
) -> Result<String, Memory>
    ensures { IfOk result
        (λ text. string_bytes text ≡ reply_text (Searched as_of fields.now results.now)) }
{
    let json = write_results(alloc, fields, results)?;
    let text = searched(alloc, as_of, results.len(), json.as_str())?;
    Ok(text)
}

fn searched(alloc: Global, as_of: u64, traces: usize, json: &str) -> Result<String, AllocError>
    ensures { IfOk result (λ text. string_bytes text ≡ searched_text as_of traces json.now) }
{
    format!(in alloc; "ok search as_of={as_of} traces={traces} {json}\n")
}

/// The reply to a metrics query.
fn write_measured(alloc: Global, as_of: u64, series: &SeriesList) -> Result<String, Memory>
    ensures { IfOk result (λ text. string_bytes text ≡ reply_text (Measured as_of series.now)) }
{
    let json = write_series(alloc, series)?;
    let text = measured(alloc, as_of, series.len(), json.as_str())?;
    Ok(text)
}

fn measured(alloc: Global, as_of: u64, series: usize, json: &str) -> Result<String, AllocError>
    ensures { IfOk result (λ text. string_bytes text ≡ measured_text as_of series json.now) }
{
    format!(in alloc; "ok metrics as_of={as_of} series={series} {json}\n")
}

/// The reply to a cut of idle traces.
fn cut(alloc: Global, moved: u64) -> Result<String, AllocError>
    ensures { IfOk result (λ text. string_bytes text ≡ cut_text moved) }
{
    format!(in alloc; "ok cut moved={moved}\n")
}

/// The reply to a cut of all.
fn cut_all(alloc: Global, moved: u64) -> Result<String, AllocError>
    ensures { IfOk result (λ text. string_bytes text ≡ cut_all_text moved) }
{
    format!(in alloc; "ok cutall moved={moved}\n")
}

/// The reply to a flush that made a block.
fn flushed(alloc: Global, rows: u32) -> Result<String, AllocError>
    ensures { IfOk result (λ text. string_bytes text ≡ flushed_text rows) }
{
    format!(in alloc; "ok flush rows={rows}\n")
}

/// The reply to a compaction that joined blocks.
fn compacted(alloc: Global, blocks: u32, rows: u32) -> Result<String, AllocError>
    ensures { IfOk result (λ text. string_bytes text ≡ compacted_text blocks rows) }
{
    format!(in alloc; "ok compact blocks={blocks} rows={rows}\n")
}

/// The reply to the emptying of loose files.
fn reclaimed(alloc: Global, files: u64) -> Result<String, AllocError>
    ensures { IfOk result (λ text. string_bytes text ≡ reclaimed_text files) }
{
    format!(in alloc; "ok reclaim files={files}\n")
}

/// The reply to a reopening.
fn reopened(alloc: Global, entries: u64) -> Result<String, AllocError>
    ensures { IfOk result (λ text. string_bytes text ≡ reopened_text entries) }
{
    format!(in alloc; "ok reopen entries={entries}\n")
}

/// The line of a refusal: its name, and the numbers or the text that go with it.
fn refused(alloc: Global, why: &Refusal) -> Result<String, AllocError>
    ensures { IfOk result (λ text. string_bytes text ≡ refusal_text why.now) }
{
    match why {
        Refusal::TooLong { length } => format!(in alloc; "refused too-long length={length}\n"),
        Refusal::BadRequest { at } => format!(in alloc; "refused bad-request at={at}\n"),
        Refusal::BadJson => String::from_str(alloc, "refused bad-json\n"),
        Refusal::BadOtlp { path } => bad_otlp(alloc, path.as_str()),
        Refusal::TooMany { spans } => format!(in alloc; "refused too-many spans={spans}\n"),
        Refusal::BadQuery(fault) => bad_query(alloc, *fault),
        Refusal::BadType(fault) => bad_type(alloc, *fault),
        Refusal::BadPattern { at } => format!(in alloc; "refused bad-pattern at={at}\n"),
        Refusal::PatternTooBig { at } => format!(in alloc; "refused pattern-too-big at={at}\n"),
        Refusal::TooManyBuckets { count } => {
            format!(in alloc; "refused too-many-buckets count={count}\n")
        }
        Refusal::LiveFull { held } => format!(in alloc; "refused live-full held={held}\n"),
        Refusal::StoreFull { pushes } => format!(in alloc; "refused store-full pushes={pushes}\n"),
        Refusal::ReadOnly { faults } => format!(in alloc; "refused read-only faults={faults}\n"),
        Refusal::DiskFault => String::from_str(alloc, "refused disk-fault\n"),
        Refusal::Round(why) => round(alloc, *why),
        Refusal::Closed => String::from_str(alloc, "refused closed\n"),
        Refusal::NotStore { file, at } => not_store(alloc, *file, *at),
        Refusal::Memory => String::from_str(alloc, "refused memory\n"),
    }
}

fn bad_otlp(alloc: Global, path: &str) -> Result<String, AllocError>
    ensures { IfOk result (λ text. string_bytes text ≡ refused_text (codes "bad-otlp path=") path.now) }
{
    format!(in alloc; "refused bad-otlp path={path}\n")
}

/// The refusal of a disk that holds no store.
fn not_store(alloc: Global, file: u32, at: u64) -> Result<String, AllocError>
    ensures { IfOk result (λ text. string_bytes text ≡ not_store_text file at) }
{
    format!(in alloc; "refused not-store file={file} at={at}\n")
}

/// The refusal of a flush or a compaction. Some names are those of other refusals, since the cause is the same.
fn round(alloc: Global, why: RoundRefusal) -> Result<String, AllocError>
    ensures { IfOk result (λ text. string_bytes text ≡ round_text why) }
{
    match why {
        RoundRefusal::ReadOnly { faults } => {
            format!(in alloc; "refused read-only faults={faults}\n")
        }
        RoundRefusal::Busy { job } => format!(in alloc; "refused busy job={job}\n"),
        RoundRefusal::FilesSpent { next } => {
            format!(in alloc; "refused files-spent next={next}\n")
        }
        RoundRefusal::Fault => String::from_str(alloc, "refused disk-fault\n"),
        RoundRefusal::Memory => String::from_str(alloc, "refused memory\n"),
        RoundRefusal::NotBlock { file, at } => not_block(alloc, file, at),
    }
}

/// The refusal of a block that isn't one.
fn not_block(alloc: Global, file: u32, at: u64) -> Result<String, AllocError>
    ensures { IfOk result (λ text. string_bytes text ≡ not_block_text file at) }
{
    format!(in alloc; "refused not-block file={file} at={at}\n")
}

/// The refusal of a text that is no query.
fn bad_query(alloc: Global, fault: QueryFault) -> Result<String, AllocError>
    ensures { IfOk result (λ text. string_bytes text ≡ query_text fault) }
{
    match fault {
        QueryFault::BadChar { at } => format!(in alloc; "refused bad-query bad-char at={at}\n"),
        QueryFault::Unexpected { at } => {
            format!(in alloc; "refused bad-query unexpected at={at}\n")
        }
        QueryFault::Unended { at } => format!(in alloc; "refused bad-query unended at={at}\n"),
        QueryFault::NumberRange { at } => {
            format!(in alloc; "refused bad-query number-range at={at}\n")
        }
        QueryFault::FractionLiteral { at } => {
            format!(in alloc; "refused bad-query fraction-literal at={at}\n")
        }
        QueryFault::TooDeep { at } => format!(in alloc; "refused bad-query too-deep at={at}\n"),
        QueryFault::TooLong { length } => {
            format!(in alloc; "refused bad-query too-long length={length}\n")
        }
    }
}

/// The refusal of a query whose kinds don't fit.
fn bad_type(alloc: Global, fault: KindFault) -> Result<String, AllocError>
    ensures { IfOk result (λ text. string_bytes text ≡ kind_text fault) }
{
    match fault {
        KindFault::KindClash { at } => format!(in alloc; "refused bad-type kind-clash at={at}\n"),
        KindFault::NotTruth { at } => format!(in alloc; "refused bad-type not-truth at={at}\n"),
        KindFault::DivisionInAggregate { at } => {
            format!(in alloc; "refused bad-type division-in-aggregate at={at}\n")
        }
        KindFault::NotNumber { at } => format!(in alloc; "refused bad-type not-number at={at}\n"),
    }
}
