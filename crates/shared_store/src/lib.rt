//! A store's port that several seats share in turns, and the one order of their calls.
//!
//! - Sharing: `shared` (the port that is shared), `ticket` (a right to a seat), `seat` (split, joined, left).
//! - A call of a seat: `turn` has its steps; `look_port`, `flush_port` and `port` the calls of the three traits.
//! - For proofs alone: `known` (what a seat knows), `asked` (a call and its reply), `plays` (what each step on the table tells).
//! - Theorems, whose functions have empty bodies: `held`, `made`, `crosses` and, over a core, `cores`.
//!
//! `specs/Rule.antt` has the rule of the table that they share and what each kind of step tells; `port_history` the calls in their
//! order.
#![tactic(auto)]

mod asked;
mod cores;
mod crosses;
mod flush_port;
mod held;
mod known;
mod look_port;
mod made;
mod plays;
mod port;
mod seat;
mod shared;
mod ticket;
mod turn;

pub use cores::{
    Seat, Shared, Ticket, a_call_of_a_seat_is_legal, a_core_crosses, a_core_is_taken_back,
    a_core_is_unshared, entries_of_a_core_are_legal,
};
pub use crosses::{a_shared_core_crosses, a_shared_port_is_shared, a_ticket_crosses};
pub use held::{a_call_leaves_what_others_hold, others_leave_what_is_held, parts_are_apart};
pub use known::{Known, Past, Turns};
pub use made::{a_joined_seat_has_what_both_had, a_seat_has_just_its_calls};
pub use seat::PortSeat;
pub use shared::SharedPort;
pub use ticket::PortTicket;
