//! Each of several traces by itself: what a query answers of them, in the order of their lists.

ghost use Rattle.std.specs.Prelude.{◌≡◌, ◌++◌, ◌<◌, All, IfOk, OnOk};
ghost use Rattle.std.specs.List.{AllZip};
ghost use Rattle.std.specs.Option.{option_to_list};
ghost use Rattle.rayon.specs.Lists.{chunks_of};
ghost use Rattle.span_tree.specs.Nodes.{IsOneTrace};
ghost use Rattle.spanset_eval.specs.Outcomes.{IsOutcome};
ghost use Rattle.traceql_syntax.specs.Trees.{query_tree};
ghost use Rattle.traceql_value.specs.EvalContexts.{matchers_patterns};
ghost use Rattle.search_answer.specs.Parts.{Answers};

use crate::parts::{joined, part_len};
use io_edges::Gate;
use rayon::prelude::*;
use span_types::{Memory, Rows, Seq};
use spanset_eval::{Results, TraceResult, evaluate_rows};
use std::alloc::Global;
use std::thread::Threads;
use traceql_types::Checked;
use traceql_value::Matchers;

/// Several lists of rows.
pub type RowLists = Seq<Rows>;

/// What the query answers of each of these traces, in their order, with all spans of each spanset: what
/// `spanset_eval::evaluate` gives of each by itself, whichever are evaluated side by side.
///
/// Each list has the rows of one trace. It takes no port and waits for nobody but the gate, which it passes first, at
/// twice the client's number. The one error is out of memory.
pub fn evaluate_all<R: Threads + Sync, G: Gate>(
    rt: &R,
    alloc: Global,
    traces: &RowLists,
    checked: &Checked,
    client: u32,
    gate: &G,
) -> Result<Results, Memory>
    requires { All IsOneTrace traces.now }
    ensures { IfOk result (λ found.
        Answers checked.now.patterns (query_tree checked.now.query) traces.now found) }
{
    gate.pass(client.wrapping_mul(2));
    let size = part_len(rt, traces.len());
    let parts = part_results(rt, alloc, checked, size, traces.as_slice())?;
    let found = joined(alloc, parts)?;
    Ok(Results::of(found))
}

// What the query answers of each part of so many traces, each part in a thread.
fn part_results<R: Threads + Sync>(
    rt: &R,
    alloc: Global,
    checked: &Checked,
    size: usize,
    traces: &[Rows],
) -> Result<Vec<Vec<TraceResult>>, Memory>
    requires one { All IsOneTrace traces.now }
    requires some { 0 < size }
    ensures { IfOk result (λ parts. AllZip (λ part found.
        Answers checked.now.patterns (query_tree checked.now.query) part found.items)
        (chunks_of size traces.now) parts.items) }
{
    let parts: Result<Vec<Vec<TraceResult>>, Memory> = traces
        .par_chunks(size)
        .with_min_len(1)
        .map(
            move |part: &[Rows]| -> Result<Vec<TraceResult>, Memory>
                requires { All IsOneTrace part.now }
                ensures { IfOk result (λ found.
                    Answers checked.entry.now.patterns
                    (query_tree checked.entry.now.query) part.now found.items) }
            { results_of(alloc, checked, part) },
        )
        .collect(rt, alloc)?;
    parts
}

// What the query answers of each of these traces, evaluated in this thread.
fn results_of(alloc: Global, checked: &Checked, traces: &[Rows]) -> Result<Vec<TraceResult>, Memory>
    requires { All IsOneTrace traces.now }
    ensures { IfOk result (λ found.
        Answers checked.now.patterns (query_tree checked.now.query) traces.now found.items) }
{
    let mut matchers = Matchers::of(alloc, checked)?;
    let mut found = Vec::new(alloc);
    for trace in traces {
        let (outcome, same) = outcome_of(alloc, checked, matchers, trace);
        matchers = same;
        extend(&mut found, outcome?)?;
    }
    Ok(found)
}

// What the query answers of a trace. No spanset has more spans than the trace has, so all of them are shown.
fn outcome_of<'q>(
    alloc: Global,
    checked: &Checked,
    matchers: Matchers<'q>,
    trace: &Rows,
) -> (Result<Option<TraceResult>, Memory>, Matchers<'q>)
    requires one { IsOneTrace trace.now }
    requires patterns { matchers_patterns matchers ≡ checked.now.patterns }
    ensures outcome { IfOk result.0
        (IsOutcome checked.now.patterns trace.now (query_tree checked.now.query)) }
    ensures matchers { matchers_patterns result.1 ≡ matchers_patterns matchers.entry }
{
    evaluate_rows(alloc, checked, matchers, trace.as_slice(), trace.len())
}

// Adds one more at the end, if there is one.
fn extend(all: &mut Vec<TraceResult>, more: Option<TraceResult>) -> Result<(), Memory>
    ensures { OnOk result (all.new.items ≡ all.old.items ++ option_to_list more) }
{
    if let Some(item) = more {
        all.push(item)?;
    }
    Ok(())
}
