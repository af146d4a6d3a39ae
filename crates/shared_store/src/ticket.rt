//! A right to a seat.

use crate::turn::Place;
use std::marker::Model;
use store_state::LookPort;

/// A right to a seat of a shared port, which goes from thread to thread.
#[derive(Drop)]
pub struct PortTicket<Q: LookPort> {
    pub(crate) place: Place<Q>,
}

impl<Q: LookPort> Model for PortTicket<Q> {
    ghost use Rattle.shared_store.specs.Idle.{IsAway};
    ghost use Rattle.shared_store.specs.Seats.{Stand};

    ghost Value = { Stand Q };

    ghost view = { λ t. record { table = t.place.table_id; known = t.place.me.0 } };

    ghost invariant = { λ t. IsAway t.place.table_id t.place.me };
}
