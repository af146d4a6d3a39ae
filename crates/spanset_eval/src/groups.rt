//! Spansets while the stages work on them: positions, and the values by which they were split off.

use span_types::Seq;
use traceql_value::Values;

/// Positions of spans in a trace.
pub type Positions = Seq<usize>;

/// A spanset: its spans by their positions in the trace, and the values by which it was split off.
#[derive(Drop)]
pub struct Group {
    /// The values.
    pub by: Values,
    /// The positions, in ascending order.
    pub members: Positions,
}
