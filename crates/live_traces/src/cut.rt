//! What a cut moves to the head, and what stays live.

ghost use Rattle.std.specs.Prelude.{◌≡◌, ℕ, ◌≤◌, ◌+◌, ◌++◌, ◌∷◌, [], nat_le, unwrap_or, if◌then◌else◌, Option, take, drop, filter, not, IfOk, OnOk, OnErr, length};
ghost use Rattle.std.specs.List.Sorted.{IsPermutation, IsSortedBy};
ghost use Rattle.std.specs.Ordering.{is_lt};
ghost use Rattle.std.specs.BTreeMap.{get};
ghost use Rattle.span_types.specs.Orders.{trace_cmp};
ghost use Rattle.span_types.specs.declared.ids.TraceId.{TraceId};
ghost use Rattle.store_model.specs.State.{live_rows};
ghost use Rattle.store_model.specs.Cut.{cut_order, last_moment};
ghost use Rattle.store_model.specs.After.{arrived};
ghost use Rattle.live_traces.specs.Rows.{chunk_rows, run_rows};
ghost use Rattle.live_traces.specs.ByTrace.{AreByTrace};
ghost use Rattle.live_traces.specs.Parts.{arrivals_of, goes, goes_by, live_of};
ghost use Rattle.live_traces.specs.Going.{goes_with, row_goes};

use crate::chunk::{Chunk, SharedRow};
use crate::group::OfTrace;
use crate::live::{Arrival, Entry};
use crate::rest::Rest;
use crate::run::Run;
use crate::runs::HasRows;
use span_types::{Memory, TraceId, TryCopy};
use std::alloc::Global;
use std::cmp::Ordering;
use std::collections::BTreeMap;

const IDLE: u64 = 10_000_000_000;

// The rows that go, and the entries that stay.
pub(crate) fn parts(
    alloc: Global,
    entries: &[Entry],
    arrivals: &[Arrival],
    idle: Option<u64>,
) -> Result<(Vec<SharedRow>, Vec<Entry>), Memory>
    ensures { IfOk result (λ parts. let live = live_of entries.now ++ arrivals_of arrivals.now in
        (parts.0.items ≡ live_rows (filter (goes idle live) live))
        × (live_of parts.1.items ≡ filter (λ entry. not (goes idle live entry)) live)) }
{
    let mut all = copies_of(alloc, entries)?;
    explode(&mut all, arrivals)?;
    let last = last_moments(alloc, all.as_slice())?;
    let parts = parted(alloc, all.as_slice(), idle, &last)?;
    Ok(parts)
}

// The same entries again.
fn copies_of(alloc: Global, entries: &[Entry]) -> Result<Vec<Entry>, Memory>
    ensures { IfOk result (λ all. live_of all.items ≡ live_of entries.now) }
{
    let mut all = Vec::new(alloc);
    for entry in entries {
        let run = entry.run.copy()?;
        let moment = entry.moment;
        all.push(Entry { run, moment })?;
    }
    Ok(all)
}

// Adds an entry for each arrival.
fn explode(all: &mut Vec<Entry>, arrivals: &[Arrival]) -> Result<(), Memory>
    ensures { OnOk result
        (live_of all.new.items ≡ live_of all.old.items ++ arrivals_of arrivals.now) }
{
    for arrival in arrivals {
        let run = run_of(*all.allocator(), &arrival.chunk)?;
        let moment = arrival.moment;
        all.push(Entry { run, moment })?;
    }
    Ok(())
}

// The rows of a chunk, to be gone over.
fn run_of(alloc: Global, chunk: &Chunk) -> Result<Rest, Memory>
    ensures { IfOk result (λ run. run ≡ chunk_rows chunk.now) }
{
    let mut rows = Vec::new(alloc);
    chunk.share_rows(&mut rows)?;
    let run = Rest::of(alloc, rows)?;
    Ok(run)
}

// The moment of the last push of each trace.
fn last_moments(alloc: Global, entries: &[Entry]) -> Result<BTreeMap<TraceId, u64>, Memory>
    ensures { IfOk result (λ last. (t : TraceId) →
        unwrap_or (get trace_cmp last t) 0 ≡ last_moment t 0 (live_of entries.now)) }
{
    let mut last = BTreeMap::new(alloc);
    for entry in entries {
        note(&mut last, entry.run.as_slice(), entry.moment)?;
    }
    Ok(last)
}

// Notes the moment of rows as the last one of their traces.
fn note(last: &mut BTreeMap<TraceId, u64>, rows: &[SharedRow], moment: u64) -> Result<(), Memory>
    ensures { OnOk result ((t : TraceId) → unwrap_or (get trace_cmp last.new t) 0
        ≡ last_moment t (unwrap_or (get trace_cmp last.old t) 0) (arrived moment rows.now)) }
{
    for row in rows {
        let trace = row.trace();
        last.insert(trace, moment)?;
    }
    Ok(())
}

// Whether the rows of a trace go.
fn is_to_go(idle: Option<u64>, last: &BTreeMap<TraceId, u64>, trace: &TraceId) -> bool
    ensures { result ≡ goes_by idle (unwrap_or (get trace_cmp last.now trace.now) 0) }
{
    match idle {
        None => true,
        Some(moment) => {
            let last = match last.get(trace) {
                Some(last) => *last,
                None => 0,
            };
            is_past(last, moment)
        }
    }
}

// Whether ten seconds have passed.
fn is_past(last: u64, moment: u64) -> bool
    ensures { result ≡ nat_le (last + 10000000000) moment }
{
    moment >= IDLE && last <= moment - IDLE
}

// The rows of the entries that go, and the entries that stay.
fn parted(
    alloc: Global,
    all: &[Entry],
    idle: Option<u64>,
    last: &BTreeMap<TraceId, u64>,
) -> Result<(Vec<SharedRow>, Vec<Entry>), Memory>
    ensures { IfOk result (λ parts.
        (parts.0.items ≡ live_rows (filter (goes_with idle last.now) (live_of all.now)))
        × (live_of parts.1.items
        ≡ filter (λ e. not (goes_with idle last.now e)) (live_of all.now))) }
{
    let mut moved = Vec::new(alloc);
    let mut stay = Vec::new(alloc);
    for entry in all {
        let rest = sift(entry.run.as_slice(), idle, last, &mut moved)?;
        add_entry(&mut stay, rest, entry.moment)?;
    }
    Ok((moved, stay))
}

// Adds the rows that go to those that were moved, and gives those that stay.
fn sift(
    rows: &[SharedRow],
    idle: Option<u64>,
    last: &BTreeMap<TraceId, u64>,
    moved: &mut Vec<SharedRow>,
) -> Result<Vec<SharedRow>, Memory>
    ensures moved { OnOk result
        (moved.new.items ≡ moved.old.items ++ filter (row_goes idle last.now) rows.now) }
    ensures stay { IfOk result
        (λ stay. stay.items ≡ filter (λ row. not (row_goes idle last.now row)) rows.now) }
{
    let mut stay = Vec::new(*moved.allocator());
    for row in rows {
        let trace = row.trace();
        let goes = is_to_go(idle, last, &trace);
        let row = row.copy()?;
        put(moved, &mut stay, row, goes)?;
    }
    Ok(stay)
}

// Puts the row where it belongs.
fn put(
    moved: &mut Vec<SharedRow>,
    stay: &mut Vec<SharedRow>,
    row: SharedRow,
    goes: bool,
) -> Result<(), Memory>
    ensures moved { OnOk result
        (moved.new.items ≡ (if goes then moved.old.items ++ row ∷ [] else moved.old.items)) }
    ensures stay { OnOk result
        (stay.new.items ≡ (if goes then stay.old.items else stay.old.items ++ row ∷ [])) }
{
    if goes {
        moved.push(row)?;
        return Ok(());
    }
    stay.push(row)?;
    Ok(())
}

// Adds an entry of rows that stay, if there are any.
fn add_entry(stay: &mut Vec<Entry>, rows: Vec<SharedRow>, moment: u64) -> Result<(), Memory>
    ensures { OnOk result
        (live_of stay.new.items ≡ live_of stay.old.items ++ arrived moment rows.items) }
{
    if rows.len() == 0 {
        return Ok(());
    }
    let run = Rest::searchable(*stay.allocator(), rows)?;
    stay.push(Entry { run, moment })?;
    Ok(())
}

fn in_cut_order(a: &SharedRow, b: &SharedRow) -> Ordering
    ensures { result ≡ cut_order a.now b.now }
{
    let trace = a.trace().cmp(&b.trace());
    trace.then(a.place().cmp(&b.place()))
}

pub(crate) fn in_order(rows: Vec<SharedRow>) -> Vec<SharedRow>
    ensures same { IsPermutation rows.items result.items }
    ensures order { IsSortedBy (λ a b. is_lt (cut_order a b)) result.items }
    ensures length { length result.items ≡ length rows.items }
{
    let mut rows = rows;
    rows.sort_unstable_by(in_cut_order);
    rows
}

// Adds rows by trace as a run, if there are any.
pub(crate) fn add_run(
    alloc: Global,
    kept: &mut Vec<Run>,
    rows: Vec<SharedRow>,
) -> Result<(), Memory>
    requires { AreByTrace rows.items }
    ensures others { OnOk result ((n : ℕ) → n ≤ length kept.old.items →
        run_rows (drop n kept.new.items) ≡ run_rows (drop n kept.old.items) ++ rows.items) }
    ensures first { OnOk result ((n : ℕ) → n ≤ length kept.old.items →
        run_rows (take n kept.new.items) ≡ run_rows (take n kept.old.items)) }
    ensures longer { OnOk result (length kept.old.items ≤ length kept.new.items) }
    ensures refused { OnErr result (kept.new.items ≡ kept.old.items) }
{
    if rows.len() == 0 {
        return Ok(());
    }
    let run = Run::of(alloc, rows)?;
    kept.push(run)?;
    Ok(())
}
