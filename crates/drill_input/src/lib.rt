//! Generated lines for the drill: batches of spans that a seed and an index give.
//!
//! [`make_line`] draws one trace of one to eight spans from the words of a xoshiro256++ generator and writes it as a
//! line of OTLP/JSON. Equal seeds and indices give equal lines, so what a store is to hold after a drill is known.
//! `specs/Drill.antt` is the definition of a line.
#![tactic(auto)]

mod drawing;
mod laws;
mod line;
mod rows;
mod span;

pub use laws::spans_of_a_line;
pub use line::make_line;
