//! The parts of spans whose texts are references into a table: attributes, events, links, resources and scopes, written and read.
#![tactic(auto)]

mod laws;
mod parts;
mod puts;

pub use laws::{encoded_is_read, read_is_encoded};
pub use parts::{attrs, event, link, resource, scope};
pub use puts::{
    PutAttr, PutEvent, PutLink, PutResource, PutScope, PutText, put_attrs, put_id, put_moment,
    put_text, put_trace,
};
