//! What each step on the table tells.
ghost use Rattle.std.specs.Prelude.{Option, None};
ghost use Rattle.store_model.specs.Event.{Event, Reply};
ghost use Rattle.store_model.specs.Event.Event.{Held};
ghost use Rattle.store_model.specs.Event.Reply.{Fine};
ghost use Rattle.shared_store.specs.Rule.{appended, freed, one_less, recalled, split_off, spent_view, together, won};

use crate::known::Known;
use atomic_table::{Join, Play, Split};
use std::marker::{Brand, PhantomData};
use store_state::LookPort;

// The turn is won or lost.
pub(crate) struct Win;

impl<Q: LookPort> Play<Option<Q>, Known<Q>> for Win {
    ghost then = { won Q.meaning };
}

// The turn is given back.
pub(crate) struct Free;

impl<Q> Play<Option<Q>, Known<Q>> for Free {
    ghost then = { freed };
}

// The call that a seat has made, and the port after it. Each call of the program picks it.
pub(crate) trait Says<Q> {
    ghost event: { Event };

    ghost reply: { Reply };

    ghost after: { Option Q };
}

impl<Q> Says<Q> for Brand {
    ghost event = { Held };

    ghost reply = { Fine };

    ghost after = { None };
}

// A call is appended.
pub(crate) struct Append<J> {
    call: PhantomData<J>,
}

impl<Q: LookPort, J: Says<Q>> Play<Option<Q>, Known<Q>> for Append<J> {
    ghost then = { appended Q.meaning J.event J.reply J.after };
}

// A seat is split off.
pub(crate) struct Off;

impl<Q> Split<Known<Q>> for Off {
    ghost left = { one_less };

    ghost right = { split_off };
}

// Two seats are made one.
pub(crate) struct Together;

impl<Q> Join<Known<Q>> for Together {
    ghost both = { together };

    ghost spent = { spent_view };
}

// What two seats that were made one had seen.
pub(crate) struct Recall;

impl<Q: LookPort> Play<Option<Q>, Known<Q>> for Recall {
    ghost then = { recalled Q.meaning };
}
