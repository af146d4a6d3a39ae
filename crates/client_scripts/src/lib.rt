//! What clients ask, script by script: one over any port, and several over one store, each on a thread of its own.
//!
//! `script` answers one, whose promise is `HasAnswered` of `specs/Scripts.antt`. `clients` answers several over one core, whose promise is
//! `HasServed` of `specs/Served.antt`. `laws` has what follows for the calls of a port.
#![tactic(auto)]

mod clients;
mod laws;
mod script;

pub use clients::{Scripts, run_scripts};
pub use laws::{a_script_makes_just_its_calls, pushes_of_clients_are_numbered};
pub use script::{Answered, Item, Script, answer_script};
