//! Answering a request by calls of a port, and what each answer of the port becomes as a reply. `trace_shell` calls it
//! for each line.

ghost use Rattle.std.specs.Prelude.{◌≡◌, ◌^◌, ◌<◌, ◌≤◌, List, length};
ghost use Rattle.store_model.specs.Holds.{Hold};
ghost use Rattle.session_text.specs.declared.request.Request.TheVariants.{Push as AsksPush, Trace as AsksTrace, Search as AsksSearch, Metrics as AsksMetrics, Cut as AsksCut, CutAll as AsksCutAll, Flush as AsksFlush, Compact as AsksCompact, Reclaim as AsksReclaim};
ghost use Rattle.traceql_metrics.specs.Series.{bucket_count, most_buckets};
ghost use Rattle.client_run.specs.Answers.{AreSeriesTold, HasReplied, IsSearchTold, asked_of, compact_reply, counted_of, flush_reply, query_refusal, reclaim_cause, refusal_of, trace_reply};

use compactor::compact_round;
use flusher::flush_round;
use io_edges::Gate;
use moment_range::Range;
use otlp_spans::Reading;
use query_fanout::{Asked, QueryError, SearchAnswer, TraceAnswer, find_trace};
use search_text::printed_fields;
use session_text::{Metrics, Refusal, Reply, Request, Search};
use span_types::{Batch, Memory, TraceId};
use std::alloc::Global;
use std::thread::Threads;
use store_state::{FlushPort, LookPort, Port, PushError, ReclaimError, Round};
use traceql_metrics::series;

/// Answers a request over a port, for the client with this number.
///
/// A push, a cut and the emptying of loose files are one call each, and a flush and a compaction are one round each. A
/// look-up, a search or a metrics query takes one look, reads the blocks that it pins and gives it back; those that
/// evaluate many traces do so in threads, which end before the look does. Out of memory a request is refused for that;
/// whether a push was refused the port says. The gate is passed at twice the client's number between the look of a
/// search or a metrics query and its evaluation, and at one more after each push that was accepted.
pub fn answer_request<R: Threads + Sync, P: Port, G: Gate>(
    rt: &R,
    alloc: Global,
    port: &mut P,
    request: Request,
    client: u32,
    gate: &G,
) -> Reply
    requires holds { (held : List Hold) × P.meaning.holds port.old held }
    requires client { client < 2 ^ 31 }
    ensures { HasReplied P.meaning port.old request result port.new }
{
    match request {
        Request::Push { reading, moment } => push(port, reading, moment, client, gate),
        Request::Trace(id) => trace(alloc, port, id),
        Request::Search(asks) => search(rt, alloc, port, asks, client, gate),
        Request::Metrics(asks) => metrics(rt, alloc, port, asks, client, gate),
        Request::Cut { moment } => cut(port, moment),
        Request::CutAll => cut_all(port),
        Request::Flush => flush(alloc, port),
        Request::Compact => compact(alloc, port),
        Request::Reclaim => reclaim(port),
    }
}

// How many spans a batch has.
fn count_of(batch: &Batch) -> u64
    ensures { result ≡ length batch.now.spans }
{
    batch.spans.len() as u64
}

// Why a push was refused.
fn refusal_of(error: PushError) -> Refusal
    ensures { result ≡ refusal_of error }
{
    match error {
        PushError::LiveFull { held } => Refusal::LiveFull { held },
        PushError::StoreFull { pushes } => Refusal::StoreFull { pushes },
        PushError::ReadOnly { faults } => Refusal::ReadOnly { faults },
        PushError::Fault => Refusal::DiskFault,
        PushError::Memory => Refusal::Memory,
    }
}

// Pushes what was read.
fn push<P: LookPort, G: Gate>(
    port: &mut P,
    reading: Reading,
    moment: u64,
    client: u32,
    gate: &G,
) -> Reply
    requires { client < 2 ^ 31 }
    ensures { HasReplied P.meaning port.old (AsksPush reading moment) result port.new }
{
    let accepted = count_of(&reading.batch);
    match port.push(reading.batch, moment) {
        Ok(number) => {
            gate.pass(2 * client + 1);
            Reply::Pushed {
                number,
                accepted,
                rejected: reading.rejected,
                skipped: reading.skipped,
            }
        }
        Err(error) => Reply::Refused(refusal_of(error)),
    }
}

// Moves the idle traces to the head.
fn cut<P: FlushPort>(port: &mut P, moment: u64) -> Reply
    ensures { HasReplied P.meaning port.old (AsksCut moment) result port.new }
{
    match port.cut(moment) {
        Ok(moved) => Reply::Cut { moved },
        Err(Memory) => Reply::Refused(Refusal::Memory),
    }
}

// Moves all live traces to the head.
fn cut_all<P: FlushPort>(port: &mut P) -> Reply
    ensures { HasReplied P.meaning port.old AsksCutAll result port.new }
{
    match port.cut_all() {
        Ok(moved) => Reply::CutAll { moved },
        Err(Memory) => Reply::Refused(Refusal::Memory),
    }
}

// Makes a block of rows that wait in the head.
fn flush<P: FlushPort>(alloc: Global, port: &mut P) -> Reply
    requires { (held : List Hold) × P.meaning.holds port.old held }
    ensures { HasReplied P.meaning port.old AsksFlush result port.new }
{
    flush_reply(flush_round(alloc, port))
}

// How a round ended, as a reply. A refusal of a round is one of requests too, with the same words.
fn flush_reply(round: Round) -> Reply
    ensures { result ≡ flush_reply round }
{
    match round {
        Round::Did { rows, .. } => Reply::Flushed { rows },
        Round::Nothing => Reply::NothingFlushed,
        Round::Refused(why) => Reply::Refused(Refusal::Round(why)),
    }
}

// Joins blocks of one level.
fn compact<P: Port>(alloc: Global, port: &mut P) -> Reply
    requires { (held : List Hold) × P.meaning.holds port.old held }
    ensures { HasReplied P.meaning port.old AsksCompact result port.new }
{
    compact_reply(compact_round(alloc, port))
}

// The same of a compaction, which says as well how many blocks it joined.
fn compact_reply(round: Round) -> Reply
    ensures { result ≡ compact_reply round }
{
    match round {
        Round::Did { blocks, rows } => Reply::Compacted { blocks, rows },
        Round::Nothing => Reply::NothingCompacted,
        Round::Refused(why) => Reply::Refused(Refusal::Round(why)),
    }
}

// Empties the loose files that no pin names.
fn reclaim<P: Port>(port: &mut P) -> Reply
    ensures { HasReplied P.meaning port.old AsksReclaim result port.new }
{
    match port.reclaim() {
        Ok(files) => Reply::Reclaimed { files },
        Err(error) => Reply::Refused(reclaim_cause(error)),
    }
}

// Why no loose files were emptied.
fn reclaim_cause(error: ReclaimError) -> Refusal
    ensures { result ≡ reclaim_cause error }
{
    match error {
        ReclaimError::ReadOnly { faults } => Refusal::ReadOnly { faults },
        ReclaimError::Fault => Refusal::DiskFault,
        ReclaimError::Memory => Refusal::Memory,
    }
}

// Why a query could not be answered.
fn query_refusal(error: QueryError) -> Refusal
    ensures { result ≡ query_refusal error }
{
    match error {
        QueryError::Fault => Refusal::DiskFault,
        QueryError::NotBlock { file, at } => {
            Refusal::Round(store_state::Refusal::NotBlock { file, at })
        }
        QueryError::Memory => Refusal::Memory,
    }
}

// Tells a trace.
fn trace<P: FlushPort>(alloc: Global, port: &mut P, id: TraceId) -> Reply
    requires { (held : List Hold) × P.meaning.holds port.old held }
    ensures { HasReplied P.meaning port.old (AsksTrace id) result port.new }
{
    trace_reply(find_trace(alloc, port, id))
}

// The rows that were found, as a reply. A trace without spans is one too, and no refusal.
fn trace_reply(answer: Result<TraceAnswer, QueryError>) -> Reply
    ensures { result ≡ trace_reply answer }
{
    match answer {
        Ok(TraceAnswer { as_of, rows }) => Reply::Traced { as_of, rows },
        Err(error) => Reply::Refused(query_refusal(error)),
    }
}

// Tells what a search finds.
fn search<R: Threads + Sync, P: FlushPort, G: Gate>(
    rt: &R,
    alloc: Global,
    port: &mut P,
    asks: Search,
    client: u32,
    gate: &G,
) -> Reply
    requires holds { (held : List Hold) × P.meaning.holds port.old held }
    requires client { client < 2 ^ 31 }
    ensures { HasReplied P.meaning port.old (AsksSearch asks) result port.new }
{
    let asked = asked_of(asks);
    let answer = query_fanout::search(rt, alloc, port, &asked, client, gate);
    search_reply(alloc, &asked, answer)
}

// The search of a request is that of a store: two types, since a store knows no lines.
fn asked_of(asks: Search) -> Asked
    ensures { result ≡ asked_of asks }
{
    let Search {
        checked,
        range,
        limit,
        spans_per_set,
    } = asks;
    Asked {
        checked,
        range,
        limit,
        spans_per_set,
    }
}

// What was found, as a reply, with the names of the fields that its spans show. They take memory of their own.
fn search_reply(alloc: Global, asked: &Asked, answer: Result<SearchAnswer, QueryError>) -> Reply
    ensures { IsSearchTold asked.now answer result }
{
    match answer {
        Ok(SearchAnswer { as_of, results }) => match printed_fields(alloc, &asked.checked.query) {
            Ok(fields) => Reply::Searched {
                as_of,
                fields,
                results,
            },
            Err(Memory) => Reply::Refused(Refusal::Memory),
        },
        Err(error) => Reply::Refused(query_refusal(error)),
    }
}

// Tells how many of the spans that a query finds begin in each bucket.
fn metrics<R: Threads + Sync, P: FlushPort, G: Gate>(
    rt: &R,
    alloc: Global,
    port: &mut P,
    asks: Metrics,
    client: u32,
    gate: &G,
) -> Reply
    requires holds { (held : List Hold) × P.meaning.holds port.old held }
    requires client { client < 2 ^ 31 }
    ensures { HasReplied P.meaning port.old (AsksMetrics asks) result port.new }
{
    let (start, end, step, rate) = (asks.start, asks.end, asks.step, asks.rate);
    let asked = counted_of(asks);
    let answer = query_fanout::search(rt, alloc, port, &asked, client, gate);
    series_reply(alloc, start, end, step, rate, answer)
}

// What a metrics query asks of a store: a search of its range without limits, so that each span is counted.
fn counted_of(asks: Metrics) -> Asked
    ensures { result ≡ counted_of asks }
{
    let range = Range {
        from: asks.start,
        until: Some(asks.end),
    };
    Asked {
        checked: asks.checked,
        range,
        limit: u32::MAX,
        spans_per_set: u32::MAX,
    }
}

// The spans that were found are counted here, after the look was given back.
fn series_reply(
    alloc: Global,
    start: u64,
    end: u64,
    step: u64,
    rate: bool,
    answer: Result<SearchAnswer, QueryError>,
) -> Reply
    requires ordered { start < end }
    requires stepped { 0 < step }
    requires few { bucket_count start end step ≤ most_buckets }
    ensures { AreSeriesTold start end step rate answer result }
{
    match answer {
        Ok(SearchAnswer { as_of, results }) => {
            match series(alloc, &results, start, end, step, rate) {
                Ok(found) => Reply::Measured {
                    as_of,
                    series: found,
                },
                Err(Memory) => Reply::Refused(Refusal::Memory),
            }
        }
        Err(error) => Reply::Refused(query_refusal(error)),
    }
}
