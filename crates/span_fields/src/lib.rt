//! The encodings of a span's parts: ids, parents, kinds, times, texts, attributes, events and links, each read and written
//! field by field, with the first offset where bytes are malformed.
#![tactic(auto)]

mod breaks;
mod laws;
mod lists;
mod reading;
mod writing;

pub use breaks::{Break, byte, fixed64, text, var};
pub use laws::{encoded_is_read, read_is_encoded};
pub use lists::{Decode, Encode, list, put_list};
pub use reading::{attrs, kind, parent, span_id, status, trace_id, value};
pub use writing::{
    put_attrs, put_id, put_kind, put_moment, put_parent, put_status, put_text, put_trace,
};
