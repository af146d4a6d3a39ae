//! A seat at a shared port.
ghost use Rattle.std.specs.Prelude.{◌≡◌, ◌≤◌, IfOk, IsOk};
ghost use Rattle.shared_store.specs.Apart.{AllStrangers};
ghost use Rattle.shared_store.specs.Idle.{IsOf};
ghost use Rattle.shared_store.specs.Rule.{one_less, split_off, together};
ghost use Rattle.shared_store.specs.Seats.{ShowsStill, stand_of};
ghost use Rattle.shared_store.specs.Seen.{GoesOn, ShareNone};

use crate::plays::{Off, Recall, Together};
use crate::shared::SharedPort;
use crate::ticket::PortTicket;
use crate::turn::{Place, Top};
use std::marker::Model;
use store_state::LookPort;

/// A place at a shared port. Each call waits for the turn, makes one call of the port, appends it to the history of all calls and
/// frees the turn.
pub struct PortSeat<'a, Q: LookPort, R> {
    pub(crate) rt: &'a R,
    pub(crate) top: &'a Top<Q>,
    pub(crate) place: Place<Q>,
}

impl<'a, Q: LookPort, R> Model for PortSeat<'a, Q, R> {
    ghost use Rattle.std.specs.Prelude.{◌≡◌, Some};
    ghost use Rattle.shared_store.specs.Idle.{IsIdle};
    ghost use Rattle.shared_store.specs.Seats.{Stand};

    ghost Value = { Stand Q };

    ghost view = { λ s. record { table = s.place.table_id; known = s.place.me.0 } };

    ghost invariant = { λ s. IsIdle s.top.now.table_id s.top.now.key.value s.place.table_id s.place.me };
}

impl<'a, Q: LookPort, R> PortSeat<'a, Q, R> {
    /// Takes the seat of a ticket.
    pub fn enter(rt: &'a R, shared: &'a SharedPort<Q>, ticket: PortTicket<Q>) -> PortSeat<'a, Q, R>
        requires { IsOf shared.now ticket }
        ensures { result ≡ ticket }
    {
        let PortTicket { place } = ticket;
        PortSeat {
            rt,
            top: &shared.board.shared,
            place,
        }
    }

    /// Leaves the seat.
    pub fn leave(self) -> PortTicket<Q>
        ensures { result ≡ self.entry }
    {
        let PortSeat {
            rt: _,
            top: _,
            place,
        } = self;
        PortTicket { place }
    }

    /// A second seat, which has seen as much and has one part. It never takes memory, so it isn't refused.
    pub fn split(self) -> Result<(PortSeat<'a, Q, R>, PortSeat<'a, Q, R>), PortSeat<'a, Q, R>>
        requires { 2 ≤ self.known.parts }
        ensures first { IfOk result
            (λ two. two.0 ≡ stand_of self.entry.table (one_less self.entry.known)) }
        ensures second { IfOk result
            (λ two. two.1 ≡ stand_of self.entry.table (split_off self.entry.known)) }
        ensures done { IsOk result }
    {
        let PortSeat { rt, top, place } = self;
        let mut place = place;
        let new = top.split_seat::<Off>(&mut place);
        Ok((
            PortSeat { rt, top, place },
            PortSeat {
                rt,
                top,
                place: new,
            },
        ))
    }

    /// One seat of two of one store.
    pub fn join(self, other: PortSeat<'a, Q, R>) -> PortSeat<'a, Q, R>
        requires { other.table ≡ self.table }
        ensures both { result
            ≡ stand_of self.entry.table (together self.entry.known other.entry.known) }
        ensures apart { ShareNone self.entry.known.seen.names other.entry.known.seen.names }
        ensures strangers { AllStrangers result.known.seen.holds }
        ensures first { GoesOn self.entry.known.seen.names self.entry.known.seen.entries result.known.seen.entries }
        ensures second { GoesOn other.entry.known.seen.names other.entry.known.seen.entries result.known.seen.entries }
        ensures shows_first { ShowsStill Q.meaning self.entry result }
        ensures shows_second { ShowsStill Q.meaning other.entry result }
    {
        let PortSeat { rt, top, place } = self;
        let PortSeat {
            rt: _,
            top: _,
            place: spent,
        } = other;
        let mut place = place;
        top.join_seat::<Together>(&mut place, spent);
        top.load::<Recall>(&mut place, 0);
        PortSeat { rt, top, place }
    }
}
