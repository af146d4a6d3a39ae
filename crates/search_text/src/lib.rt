//! What a search answers, as a text: the JSON of its results, and its selected fields in their printed form. And the
//! JSON of a metrics query's series.
//!
//! `results` and `series` are called by the writer of replies in `session_text`; both write values by `values`.
//! `printed` gives the names of selected fields.
#![tactic(auto)]

mod printed;
mod results;
mod series;
mod values;

pub use printed::{Texts, printed_fields};
pub use results::write_results;
pub use series::write_series;
