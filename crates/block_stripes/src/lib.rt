//! The stripes of a block, rows in columns, written and read; what their bytes stand for.
#![tactic(auto)]

mod cells;
mod error;
mod fill;
pub mod kinds;
mod laws;
mod row_puts;
mod rows;
mod starts;
mod stripe_reading;
mod stripe_writing;

pub use cells::{Cells, Listed};
pub use error::FormatError;
pub use fill::{put_fill, unfilled};
pub use laws::{held_is_read, no_rows_have_no_bytes, one_meaning, read_is_held};
pub use rows::rows_of_cells;
pub use starts::{read_size, read_starts};
pub use stripe_reading::{read_stripe, shared};
pub use stripe_writing::{can_be_stripe, write_refs, write_stripe};
