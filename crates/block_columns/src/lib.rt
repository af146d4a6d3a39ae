//! Columns of values that refer to tables: the notions of which columnar blocks are made, each proved once.
//!
//! A value may refer to a value of a table by its number. The values of a table stand in order of first use, so a number is at
//! most that of the values that were referred to before. What is encoded is read, what is read is what is encoded there, and
//! the first malformed offset is told (`specs/ColumnLaws.antt`).
#![tactic(auto)]

mod columns;
mod fields;
mod pages;
mod tables;

pub use columns::{Both, Columns, Kind, Single, beside, column, counted, further};
pub use fields::Fields;
pub use pages::{Borrowed, Page, Put, put_column, put_counted, put_table};
pub use tables::{Owners, Referred, table, unused};
