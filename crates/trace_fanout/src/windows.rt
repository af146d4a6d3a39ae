//! The first results of ranked traces: a few traces in the caller's thread, and then more and more of them in threads.

ghost use Rattle.std.specs.Prelude.{◌≡◌, ◌-◌, ◌<◌, All, IfOk};
ghost use Rattle.std.specs.List.{AllZip};
ghost use Rattle.rayon.specs.Lists.{chunks_of};
ghost use Rattle.span_tree.specs.Nodes.{IsOneTrace};
ghost use Rattle.traceql_syntax.specs.Trees.{query_tree};
ghost use Rattle.search_answer.specs.InRange.{rows_of_each};
ghost use Rattle.search_answer.specs.Parts.{AreFirstAnswers};

use crate::parts::{joined, part_len};
use rayon::prelude::*;
use search_answer::{Bounds, TraceInRange};
use span_types::Memory;
use spanset_eval::TraceResult;
use std::alloc::Global;
use std::thread::Threads;
use traceql_types::Checked;
use traceql_value::Matchers;

// How many traces are evaluated before any thread is started.
const FIRST_WINDOW: usize = 64;

// How many times as many are evaluated next.
const GROWTH: usize = 4;

/// The results of the first `limit` of these traces of which the query answers something, in their order, with the
/// first `spans_per_set` spans of each spanset: what `search_answer::first_results` gives, evaluated in threads.
///
/// The first 64 traces are evaluated in the caller's thread, and then, while there are fewer results than are shown,
/// the next ones in threads, each time four times as many: so there are 64 more than four times as many as have to be,
/// at most. The one error is out of memory.
pub fn first_results<R: Threads + Sync>(
    rt: &R,
    alloc: Global,
    checked: &Checked,
    bounds: Bounds,
    traces: &[TraceInRange<'_>],
) -> Result<Vec<TraceResult>, Memory>
    requires { All (λ t. IsOneTrace t.rows.now) traces.now }
    ensures { IfOk result (λ found. AreFirstAnswers checked.now.patterns
        (query_tree checked.now.query) bounds (rows_of_each traces.now) found.items) }
{
    let (first, later) = traces.split_at(FIRST_WINDOW.min(traces.len()));
    let mut found = results_of(alloc, checked, bounds, first)?;
    let mut rest = later;
    let mut size = FIRST_WINDOW;
    while !rest.is_empty() {
        if found.len() >= bounds.limit as usize {
            return Ok(found);
        }
        size = size.saturating_mul(GROWTH);
        let (window, later) = rest.split_at(size.min(rest.len()));
        let left = left_of(bounds, found.len());
        let mut more = window_results(rt, alloc, checked, left, window)?;
        found.append(&mut more)?;
        rest = later;
    }
    Ok(found)
}

// How much is shown yet, if so many results are there.
fn left_of(bounds: Bounds, found: usize) -> Bounds
    requires { found < bounds.limit }
    ensures { result ≡ record { limit = bounds.limit - found; spans_per_set = bounds.spans_per_set } }
{
    Bounds {
        limit: bounds.limit - found as u32,
        spans_per_set: bounds.spans_per_set,
    }
}

// The first results of these traces, evaluated in this thread.
fn results_of(
    alloc: Global,
    checked: &Checked,
    bounds: Bounds,
    traces: &[TraceInRange<'_>],
) -> Result<Vec<TraceResult>, Memory>
    requires { All (λ t. IsOneTrace t.rows.now) traces.now }
    ensures { IfOk result (λ found. AreFirstAnswers checked.now.patterns
        (query_tree checked.now.query) bounds (rows_of_each traces.now) found.items) }
{
    let matchers = Matchers::of(alloc, checked)?;
    search_answer::first_results(alloc, checked, matchers, bounds, traces)
}

// The first results of these traces, evaluated in threads.
fn window_results<R: Threads + Sync>(
    rt: &R,
    alloc: Global,
    checked: &Checked,
    bounds: Bounds,
    traces: &[TraceInRange<'_>],
) -> Result<Vec<TraceResult>, Memory>
    requires { All (λ t. IsOneTrace t.rows.now) traces.now }
    ensures { IfOk result (λ found. AreFirstAnswers checked.now.patterns
        (query_tree checked.now.query) bounds (rows_of_each traces.now) found.items) }
{
    let parts = part_results(
        rt,
        alloc,
        checked,
        bounds,
        part_len(rt, traces.len()),
        traces,
    )?;
    let mut found = joined(alloc, parts)?;
    found.truncate(bounds.limit as usize);
    Ok(found)
}

// The first results of each part of so many traces, each part in a thread.
fn part_results<R: Threads + Sync>(
    rt: &R,
    alloc: Global,
    checked: &Checked,
    bounds: Bounds,
    size: usize,
    traces: &[TraceInRange<'_>],
) -> Result<Vec<Vec<TraceResult>>, Memory>
    requires one { All (λ t. IsOneTrace t.rows.now) traces.now }
    requires some { 0 < size }
    ensures { IfOk result (λ parts. AllZip (λ part found. AreFirstAnswers checked.now.patterns
        (query_tree checked.now.query) bounds (rows_of_each part) found.items)
        (chunks_of size traces.now) parts.items) }
{
    let parts: Result<Vec<Vec<TraceResult>>, Memory> = traces
        .par_chunks(size)
        .with_min_len(1)
        .map(
            move |part: &[TraceInRange<'_>]| -> Result<Vec<TraceResult>, Memory>
                requires { All (λ t. IsOneTrace t.rows.now) part.now }
                ensures { IfOk result (λ found. AreFirstAnswers checked.entry.now.patterns
                    (query_tree checked.entry.now.query) bounds
                    (rows_of_each part.now) found.items) }
            { results_of(alloc, checked, bounds, part) },
        )
        .collect(rt, alloc)?;
    parts
}
