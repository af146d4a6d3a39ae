//! The steps of one call.
ghost use Rattle.std.specs.Prelude.{◌≡◌, ◌<◌, ℕ, [], ◌∷◌, Some, None};
ghost use Rattle.store_state.specs.Meaning.{Called};
ghost use Rattle.shared_store.specs.Idle.{IsBoard};
ghost use Rattle.shared_store.specs.Rule.{IsAppended, IsFound, IsOwn, showing, with_seen};
ghost use Rattle.shared_store.specs.Told.{event_of, reply_of};

use crate::asked::{Asked, Told};
use crate::known::{Known, Turns};
use crate::plays::{Append, Free, Says, Win};
use atomic_table::{Seat, Shared, Table};
use std::alloc::Global;
use std::hint::spin_loop;
use std::marker::Brand;
use std::snapshot::Snapshot;
use std::sync::Wait;
use store_state::LookPort;

/// How often a seat looks whether the turn is free again before it sleeps: for some microseconds. Most calls are over by then, and to
/// fall asleep and be woken takes longer.
const LOOKS: u32 = 100;

// The table that seats share.
pub(crate) type Board<Q> = Table<Option<Q>, Known<Q>, Snapshot<Q>, Turns<Q>, Global>;

// The same, as threads see it.
pub(crate) type Top<Q> = Shared<Option<Q>, Known<Q>, Snapshot<Q>, Turns<Q>>;

// A place at the table.
pub(crate) type Place<Q> = Seat<Option<Q>, Known<Q>>;

// Waits for the turn, and takes the port.
pub(crate) fn take<Q: LookPort, R: Wait>(rt: &R, top: &Top<Q>, place: &mut Place<Q>) -> Q
    requires table { (place.old.table_id ≡ top.now.table_id) × IsBoard top.now.table_id }
    requires idle { place.old.me.1 ≡ [] }
    ensures place { (place.new.table_id ≡ place.old.table_id) × (place.new.id ≡ place.old.id)
        × (place.new.me ≡ (showing (Some result) place.old.me.0, (0, None) ∷ [])) }
    ensures found { (key : Q) → place.old.me.0.start ≡ Some key
        → IsFound Q.meaning key place.old.me.0 result }
{
    for _ in rt.forever() {
        if top.compare_exchange::<Win>(place, 0, 0, 1) == 0 {
            return top.exchange(place, 0, None).unwrap();
        }
        if !is_soon_free(top) {
            top.park(rt, 0, 1);
        }
    }
    unreachable!()
}

// Whether the turn is seen to be free while it is looked at a few times. Another seat may win it all the same.
fn is_soon_free<Q: LookPort>(top: &Top<Q>) -> bool
    requires { 0 < top.now.table_id.words }
{
    for _ in 0..LOOKS {
        if top.peek(0) == 0 {
            return true;
        }
        spin_loop();
    }
    false
}

// Appends a call that was made on the port while the seat had the turn. `port` is what the call left.
fn append<Q: LookPort, J: Says<Q>>(
    top: &Top<Q>,
    place: &mut Place<Q>,
    _port: &Q,
    _asked: &Asked<'_>,
    _told: &Told<'_>,
)
    requires table { (place.old.table_id ≡ top.now.table_id) × (top.now.table_id.words ≡ 2) }
    requires part { 0 < place.old.me.0.parts }
    requires said { (J.event ≡ event_of _asked.now) × (J.reply ≡ reply_of _told.now)
        × (J.after ≡ Some _port.now) }
    requires called { (before : Q) × (place.old.me.0.shown ≡ Some before)
        × Called Q.meaning before (event_of _asked.now) (reply_of _told.now) _port.now }
    requires mine { IsOwn place.old.me.0.seen.holds (event_of _asked.now) (reply_of _told.now) }
    ensures place { (place.new.table_id ≡ place.old.table_id) × (place.new.id ≡ place.old.id)
        × (place.new.me.1 ≡ place.old.me.1)
        × with_seen (Some _port.now) place.old.me.0 place.new.me.0 }
    ensures appended { (key before : Q) → place.old.me.0.start ≡ Some key
        → place.old.me.0.shown ≡ Some before
        → IsAppended Q.meaning key (event_of _asked.now)
        (reply_of _told.now) before _port.now place.old.me.0 place.new.me.0 }
{
    top.fetch_add::<Append<J>>(place, 1, 1);
}

// Puts the port back, and frees the turn.
fn give_back<Q: LookPort>(top: &Top<Q>, place: &mut Place<Q>, port: Q)
    requires table { (place.old.table_id ≡ top.now.table_id) × (top.now.table_id.words ≡ 2) }
    requires out { place.old.me.1 ≡ (0, None) ∷ [] }
    requires shown { place.old.me.0.shown ≡ Some port }
    ensures { (place.new.table_id ≡ place.old.table_id) × (place.new.id ≡ place.old.id)
        × (place.new.me ≡ (showing None place.old.me.0, [])) }
{
    let before = top.exchange(place, 0, Some(port));
    let None = before else { unreachable!() };
    top.store::<Free>(place, 0, 0);
    top.wake_one(0);
}

// Appends a call that was made on the port while the seat had the turn, puts the port back and frees the turn.
pub(crate) fn finish<Q: LookPort>(
    top: &Top<Q>,
    place: &mut Place<Q>,
    port: Q,
    asked: &Asked<'_>,
    told: &Told<'_>,
)
    requires table { (place.old.table_id ≡ top.now.table_id) × (top.now.table_id.words ≡ 2) }
    requires out { place.old.me.1 ≡ (0, None) ∷ [] }
    requires part { 0 < place.old.me.0.parts }
    requires called { (before : Q) × (place.old.me.0.shown ≡ Some before)
        × Called Q.meaning before (event_of asked.now) (reply_of told.now) port }
    requires mine { IsOwn place.old.me.0.seen.holds (event_of asked.now) (reply_of told.now) }
    ensures place { (place.new.table_id ≡ place.old.table_id) × (place.new.id ≡ place.old.id)
        × (place.new.me.1 ≡ [])
        × with_seen None place.old.me.0 place.new.me.0 }
    ensures appended { (key before : Q) → place.old.me.0.start ≡ Some key
        → place.old.me.0.shown ≡ Some before
        → IsAppended Q.meaning key (event_of asked.now)
        (reply_of told.now) before port place.old.me.0 place.new.me.0 }
{
    append::<Q, Brand>(top, place, &port, asked, told);
    give_back(top, place, port);
}
