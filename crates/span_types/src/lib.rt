//! Spans, rows and what they are made of, and the small types that every crate above shares.
//!
//! A text is seen in contracts as the list of its bytes, and each of the types that hold a vector as the list of its
//! items. A span and a batch are seen as their parts. What these types promise holds of every value of them: the keys
//! of attributes differ, the ids of a span and of its parent have a byte that isn't zero, and a batch has no more than
//! 16,384 spans.
//!
//! - What a store keeps: `spans` (spans, batches and rows), `ids`, `attrs`, and `shared` for resources and scopes that
//!   several spans have.
//! - Small types: `text`, `list` (the one list type, and copies that may run out of memory), `errors`, `limits`.
//! - Computed: `first` (the first occurrences of rows) and `equal` (so that resources and scopes can be keys of maps).
//! - `laws` holds theorems.
//!
//! The entry points are `first_rows` and `first_rows_more`, whose promise is `IsFirstOf` of `specs/First.antt`.
#![tactic(auto)]

mod attrs;
mod equal;
mod errors;
mod first;
mod ids;
mod laws;
mod limits;
mod list;
mod shared;
mod spans;
mod text;

pub use attrs::{Attr, AttrValue, Attrs, Resource, Scope};
pub use errors::{Failed, Memory};
pub use first::{first_rows, first_rows_more};
pub use ids::{Key, Place, SpanId, TraceId};
pub use laws::{equal_where_same, numbers_are_of_one};
pub use limits::{MOST_LINE_BYTES, MOST_QUERY_BYTES, MOST_SPANS};
pub use list::{Bytes, Calls, Ids, Marks, Moments, Seq, TryCopy};
pub use shared::{Shared, SharedResource, SharedScope};
pub use spans::{
    Batch, Events, Links, Row, Rows, Span, SpanEvent, SpanKind, SpanLink, Spans, StatusCode,
};
pub use text::Text;
