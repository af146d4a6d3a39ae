//! The headline: a run's replies and its disk tell one history (`specs/Headline.antt`), and laws that go with it.
//!
//! The crate has definitions and laws. Nothing here runs: each function is a law, and its contract is the law.
#![tactic(auto)]

mod laws;

pub use laws::{
    a_request_keeps_what_is_stored, counts_grow, each_answer_is_of_a_front,
    each_stored_history_goes_on, read_only_stays, replies_are_written, the_headline,
    the_headline_of_clients, the_next_run_goes_on,
};
