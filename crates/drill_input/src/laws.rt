//! What every line has.

ghost use Rattle.std.specs.Prelude.{◌≡◌, ◌≤◌, ℕ, All, length};
ghost use Rattle.drill_input.specs.Drill.{drill_spans, drill_trace};

/// Every line has one to eight spans, all of one trace.
pub fn spans_of_a_line()
    ensures some { (seed index : ℕ) → 1 ≤ length (drill_spans seed index) }
    ensures few { (seed index : ℕ) → length (drill_spans seed index) ≤ 8 }
    ensures one_trace { (seed index : ℕ)
        → All (λ span. span.trace ≡ drill_trace seed index) (drill_spans seed index) }
{}
