//! A port that seats share.
ghost use Rattle.std.specs.Prelude.{◌≡◌, [], Some, IfOk, IfErr};
ghost use Rattle.shared_store.specs.Apart.{IsUnshared};
ghost use Rattle.shared_store.specs.Idle.{IsOf};
ghost use Rattle.shared_store.specs.Rule.{IsFound, first_view};

use crate::ticket::PortTicket;
use crate::turn::{Board, take};
use atomic_table::{Refused, Table};
use span_types::Memory;
use std::alloc::{AllocFailed, Global};
use std::marker::Model;
use std::snapshot::Snapshot;
use std::sync::Wait;
use store_state::LookPort;

/// A port that seats share, each of which makes its calls in its turn.
pub struct SharedPort<Q: LookPort> {
    pub(crate) board: Board<Q>,
}

impl<Q: LookPort> Model for SharedPort<Q> {
    ghost use Rattle.shared_store.specs.Idle.{IsBoard, Store};

    ghost Value = { Store Q };

    ghost view = { λ s. record { table = s.board.shared.table_id; key = s.board.shared.key.value } };

    ghost invariant = { λ s. IsBoard s.board.shared.table_id };
}

impl<Q: LookPort> SharedPort<Q> {
    /// Shares a port that nobody else uses and of which something is known (`untouched`). Out of memory it comes back.
    pub fn new(alloc: Global, port: Q) -> Result<(SharedPort<Q>, PortTicket<Q>), (Memory, Q)>
        requires unshared { IsUnshared Q.meaning }
        requires untouched { Q.meaning.holds port [] }
        ensures key { IfOk result (λ made. made.0.key ≡ port) }
        ensures first { IfOk result
            (λ made. IsOf made.0 made.1 × (made.1.known ≡ first_view port)) }
        ensures err { IfErr result (λ refused. refused.1 ≡ port) }
    {
        let about = Snapshot::of(&port);
        let mut slots = Vec::new(alloc);
        if let Err(failed) = slots.push(Some(port)) {
            let AllocFailed { value } = failed;
            slots.destroy_empty();
            let Some(port) = value else { unreachable!() };
            return Err((Memory, port));
        }
        match Table::new(alloc, &[0, 0], slots, &about) {
            Ok((board, place)) => Ok((SharedPort { board }, PortTicket { place })),
            Err(Refused { slots }) => {
                let mut slots = slots;
                let Some(Some(port)) = slots.pop() else {
                    unreachable!()
                };
                slots.destroy_empty();
                Err((Memory, port))
            }
        }
    }
}

impl<Q: LookPort + Drop> SharedPort<Q> {
    /// Waits for the turn and takes the port out, for good. One history of calls leads to it, which begins with what the ticket had
    /// seen; with all parts it has seen all of them, and all are its own.
    pub fn close<R: Wait>(self, rt: &R, ticket: PortTicket<Q>) -> Q
        requires { IsOf self ticket }
        ensures { IsFound Q.meaning self.key ticket.known result }
    {
        let SharedPort { board } = self;
        let PortTicket { place } = ticket;
        let mut place = place;
        take(rt, &board.shared, &mut place)
    }
}
