//! The first columns of a stripe, if it can be read.
//!
//! The entry point is `glance`, in `stripe`; `specs/Glances.antt` says what it tells, which is a `glances::Glance`.
//! `leaps` and `kinds` jump over values, `keeps` keeps those of a column, and `rows` puts the columns together.
//! `column_scan` picks traces by it without making rows.
#![tactic(auto)]

mod glances;
mod keeps;
mod kinds;
mod leaps;
mod rows;
mod stripe;

pub use glances::Glance;
pub use stripe::glance;
