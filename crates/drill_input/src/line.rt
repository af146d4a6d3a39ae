//! The line of a seed and an index.

ghost use Rattle.std.specs.Prelude.{◌≡◌, IfOk, Ok};
ghost use Rattle.otlp_spans.specs.Reading.{reading_of};
ghost use Rattle.drill_input.specs.Drill.{drill_line, drill_spans};

use crate::rows::draw_line;
use otlp_spans::write_trace;
use span_types::{Memory, Text};
use std::alloc::Global;

/// The line that a drill with this seed pushes as its `index`th, from 0: a trace of one to eight spans in OTLP/JSON,
/// without a line feed. The generator is seeded by `seed` and `index`, added modulo 2^64. The one error is out of memory.
#[tactic(auto, unfolding(crate::specs::Drill::drill_line))]
pub fn make_line(alloc: Global, seed: u64, index: u32) -> Result<Text, Memory>
    ensures line { IfOk result (λ t. t ≡ drill_line seed index) }
    ensures reads_back { IfOk result (λ t.
        reading_of t ≡ Ok (record { spans = drill_spans seed index; rejected = 0; skipped = 0 })) }
{
    let rows = draw_line(alloc, seed, index)?;
    let line = write_trace(alloc, &rows)?;
    Ok(line)
}
