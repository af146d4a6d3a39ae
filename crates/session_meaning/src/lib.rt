//! What a session means: what its lines ask, what they are answered, and how the history of pushes grows by them
//! (`specs/Session.antt`); what a run of the program does (`specs/Runs.antt`); and what is stored whenever it is
//! stopped (`specs/Stops.antt`).
//!
//! The crate has these definitions, theorems about them (`laws`), and one type that the program uses, how a run ends
//! (`ending`). It reads, writes and keeps nothing.
#![tactic(auto)]

mod ending;
mod laws;
mod line_laws;
mod serving_faults;
mod serving_laws;
mod serving_replies;
mod serving_rounds;

pub use ending::Ending;
pub use laws::{
    a_core_answers_as_the_history_says, a_core_ingests_as_the_history_says,
    a_drill_compacts_to_its_end, a_store_answers_as_the_history_says, accepted_pushes_are_stored,
    an_ingest_finishes, an_ingest_is_a_session, calls_answer_as_the_history_says, comes_to_an_end,
    compactions_come_to_an_end, compactions_have_their_causes, duties_make_an_ingest,
    each_disk_fault_is_counted, flushes_have_their_causes, places_are_kept,
    pushes_have_their_causes, queries_tell_what_they_see, reclaims_have_their_causes,
    replies_tell_the_history, sessions_keep_the_store, the_next_run_begins_as_listed,
    upkeep_stands_on_the_disk, what_has_room_is_done, what_is_asked_in_between_is_a_session,
    what_is_stored_is_a_base,
};
pub use line_laws::{a_line_with_room_is_done, read_only_names_its_fault};
pub use serving_faults::{
    a_store_of_clients_stays_read_only, each_disk_fault_of_clients_is_counted,
    what_does_not_fail_is_done_among_clients,
};
pub use serving_laws::{
    calls_of_clients_are_steps, clients_make_the_history, compactions_of_clients_are_counted,
    numbers_are_given_once, one_call_answers_at_its_place, one_script_is_a_session,
    pushes_of_clients_have_their_causes, serving_comes_to_an_end,
    what_has_room_is_done_among_clients, what_was_seen_counts,
};
pub use serving_replies::{each_item_has_its_reply, queries_of_clients_have_their_causes};
pub use serving_rounds::{
    rounds_of_clients_are_counted, rounds_of_clients_have_their_causes,
    rounds_of_clients_list_their_blocks,
};
