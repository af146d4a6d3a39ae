//! A search over one look: it is taken, what is found in `rounds` is told, and it is given back in every case.

ghost use Rattle.std.specs.Prelude.{◌++◌, ◌<◌, ◌^◌, IsTrue, List};
ghost use Rattle.store_model.specs.Holds.{Hold};
ghost use Rattle.store_state.specs.Given.{look_of};
ghost use Rattle.store_state.specs.Kept.{Kept};
ghost use Rattle.store_state.specs.Meaning.{IsOpen};
ghost use Rattle.query_fanout.specs.Bounds.{SearchReads, SearchReadsOf};
ghost use Rattle.query_fanout.specs.SearchAnswers.{IsSearchAnswer};
ghost use Rattle.query_fanout.specs.Queries.{HasAsked};
ghost use Rattle.query_fanout.specs.Reading.{BlocksRead};
ghost use Rattle.query_fanout.specs.Taking.{asked_hint};

use crate::QueryError;
use crate::own::Own;
use crate::picks::picks_of_rows;
use crate::rounds::take_rounds;
use column_scan::{Sifter, sieve};
use io_edges::Gate;
use moment_range::Range;
use span_types::Memory;
use spanset_eval::Results;
use std::alloc::Global;
use std::thread::Threads;
use store_state::{FlushPort, Look};
use traceql_types::Checked;

/// What a search asks for.
#[derive(Drop)]
pub struct Asked {
    /// The query, whose kinds fit, with its patterns.
    pub checked: Checked,
    /// A trace counts of which a span starts in this range.
    pub range: Range,
    /// How many traces are shown at most.
    pub limit: u32,
    /// How many spans of a spanset are shown at most.
    pub spans_per_set: u32,
}

/// What a search finds.
#[derive(Drop)]
pub struct SearchAnswer {
    /// The length of the history that it is answered from.
    pub as_of: u64,
    /// The results, the first ones first.
    pub results: Results,
}

/// What a search finds among the first occurrences of all spans, wherever they lie: in the rows of one look and in the
/// blocks that it pins.
///
/// The blocks are gone through side by side, in order of traces, a few stripes at a time (`rounds.rt`). There the
/// traces are picked that have a sifted span, one that the query's sieve lets through, each with the latest start
/// among its sifted spans: in the look's rows, and in each block by the stripes that may have one. Those that are
/// picked in a round are looked up and answered a few at a time, those of late moments first, but for those of which
/// no result can come among the best so far; `bounded` says how many pages that is at most. Many traces are evaluated
/// in threads, which have ended before the next ones are looked up. No rows are kept but those of a few traces, beside
/// a list of the look's rows by trace, which shares them and copies none, and no picks but those of a round and those
/// that wait for one. The look is given back in every case. For a test, the gate is passed at twice the client's number
/// between the look and all else.
pub fn search<R: Threads + Sync, P: FlushPort, G: Gate>(
    rt: &R,
    alloc: Global,
    port: &mut P,
    asked: &Asked,
    client: u32,
    gate: &G,
) -> Result<SearchAnswer, QueryError>
    requires holds { (held : List Hold) × P.meaning.holds port.old held }
    requires client { client < 2 ^ 31 }
    ensures asked { HasAsked P.meaning port.old (IsSearchAnswer asked.now) result port.new }
    ensures bounded { IsTrue (P.meaning.tells port.old) → (kept : Kept)
        → P.meaning.keeps port.old kept
        → SearchReadsOf asked.now kept (P.meaning.reads port.old) (P.meaning.reads port.new) }
{
    let look = match port.look() {
        Ok(look) => look,
        Err(_) => return Err(QueryError::Memory),
    };
    gate.pass(2 * client);
    let found = search_of_look(rt, alloc, port, &look, asked);
    port.done(look);
    found
}

// What a search finds among the rows of an open look and its blocks.
fn search_of_look<R: Threads + Sync, P: FlushPort>(
    rt: &R,
    alloc: Global,
    port: &mut P,
    look: &Look,
    asked: &Asked,
) -> Result<SearchAnswer, QueryError>
    requires { IsOpen P.meaning port.old (look_of look.now) }
    ensures { BlocksRead P.meaning look.now look.now.pin.blocks
        (λ rows found. IsSearchAnswer asked.now look.now.as_of (look.now.rows ++ rows) found)
        (λ rows found. IsSearchAnswer asked.now look.now.as_of (look.now.rows ++ rows) found)
        (SearchReads (asked_hint asked.now) look.now.rows look.now.pin.blocks) port.old result port.new }
{
    let sieve = match sieve(alloc, &asked.checked, asked.range) {
        Ok(sieve) => sieve,
        Err(_) => return Err(QueryError::Memory),
    };
    let own = match Own::of(alloc, &look.rows) {
        Ok(own) => own,
        Err(Memory) => return Err(QueryError::Memory),
    };
    let picks = match picks_of_rows(alloc, own.as_slice(), &sieve) {
        Ok(picks) => picks,
        Err(Memory) => return Err(QueryError::Memory),
    };
    let mut sifter = match Sifter::of(alloc, &sieve) {
        Ok(sifter) => sifter,
        Err(Memory) => return Err(QueryError::Memory),
    };
    match take_rounds(rt, alloc, port, look, &own, asked, &mut sifter, picks) {
        Ok(best) => Ok(SearchAnswer {
            as_of: look.as_of,
            results: best.into_results(),
        }),
        Err(error) => Err(error),
    }
}
