//! A list in parts, each for a thread, and what is made of the parts, joined.

ghost use Rattle.std.specs.Prelude.{◌≡◌, ◌<◌, IfOk};
ghost use Rattle.std.specs.List.{flat_map};

use rayon::current_num_threads;
use span_types::Memory;
use spanset_eval::TraceResult;
use std::alloc::Global;
use std::thread::Threads;

/// How long a part is, so that there are two parts for each processor.
pub(crate) fn part_len<R: Threads>(rt: &R, items: usize) -> usize
    ensures { 0 < result }
{
    let parts = current_num_threads(rt).saturating_mul(2);
    items.div_ceil(parts).max(1)
}

/// The results of all parts, in the parts' order.
pub(crate) fn joined(
    alloc: Global,
    parts: Vec<Vec<TraceResult>>,
) -> Result<Vec<TraceResult>, Memory>
    ensures { IfOk result (λ all. all.items ≡ flat_map (λ part. part.items) parts.items) }
{
    let mut all = Vec::new(alloc);
    for part in parts {
        let mut part = part;
        all.append(&mut part)?;
    }
    Ok(all)
}
