//! The texts of a session: what a line asks, and how a reply is written.
//!
//! - Reading, line to request: `reading` has the entry points, `read_request` and `read_push`. A search's line is read
//!   by `options` and `searching`, a metrics query's by `metrics_line` and `measuring`. `request` is what a line may
//!   ask.
//! - Writing, reply to text: `writing` has the entry point, `write_reply`. `reply` is what a line may be answered, and
//!   `refusal` why it is refused.
//!
//! `specs/Requests.antt` says what a line asks, and `specs/Replies.antt` which text a reply has;
//! `docs/LINE-PROTOCOL.md` has both in words.
#![tactic(auto)]

mod measuring;
mod metrics_line;
mod options;
mod reading;
mod refusal;
mod reply;
mod request;
mod searching;
mod writing;

pub use reading::{is_reopen, read_push, read_request};
pub use refusal::{KindFault, QueryFault, Refusal};
pub use reply::Reply;
pub use request::{Metrics, Request, Search};
pub use writing::write_reply;
