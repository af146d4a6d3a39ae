//! A seat as a port: pushes, looks and their ends.
ghost use Rattle.std.specs.Prelude.{◌≡◌, ℕ, List, Ok};
ghost use Rattle.store_model.specs.Event.{Event, Reply};
ghost use Rattle.store_state.specs.Meaning.{Called};
ghost use Rattle.shared_store.specs.Seats.{seat_meaning};

use crate::asked::{Asked, Told};
use crate::seat::PortSeat;
use crate::turn::{finish, take};
use span_types::{Batch, Memory};
use std::snapshot::Snapshot;
use std::sync::Wait;
use store_state::{Look, LookPort, PushError};

impl<'a, Q: LookPort, R: Wait> LookPort for PortSeat<'a, Q, R> {
    ghost meaning = { seat_meaning Q.meaning };

    fn push(&mut self, batch: Batch, moment: u64) -> Result<u64, PushError> {
        let asked = Asked::Push(Snapshot::of(&batch), moment);
        let mut port = take(self.rt, self.top, &mut self.place);
        let answer = port.push(batch, moment);
        finish(
            self.top,
            &mut self.place,
            port,
            &asked,
            &Told::Pushed(&answer),
        );
        answer
    }

    fn held(&mut self) -> u64 {
        let mut port = take(self.rt, self.top, &mut self.place);
        let rows = port.held();
        finish(
            self.top,
            &mut self.place,
            port,
            &Asked::Held,
            &Told::Held(rows),
        );
        rows
    }

    fn look(&mut self) -> Result<Look, Memory> {
        let mut port = take(self.rt, self.top, &mut self.place);
        let answer = port.look();
        finish(
            self.top,
            &mut self.place,
            port,
            &Asked::Look,
            &Told::Looked(&answer),
        );
        answer
    }

    fn done(&mut self, look: Look) {
        let asked = Asked::Done(look.pin.number);
        let mut port = take(self.rt, self.top, &mut self.place);
        port.done(look);
        finish(self.top, &mut self.place, port, &asked, &Told::Done);
    }
}
