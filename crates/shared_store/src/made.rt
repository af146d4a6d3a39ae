//! What the calls of a seat are, over many of them and when two seats are made one.
ghost use Rattle.std.specs.Prelude.{◌≡◌, ◌++◌, [], List, map};
ghost use Rattle.store_state.specs.Made.{AreMade, Call};
ghost use Rattle.port_history.specs.Entries.{Entry, call_of};
ghost use Rattle.shared_store.specs.Rule.{split_off, together};
ghost use Rattle.shared_store.specs.Seats.{IsBoth, Stand, calls_of, seat_meaning};
ghost use Rattle.shared_store.specs.Seen.{GoesOn, ShareNone};
ghost use Rattle.shared_store.specs.declared.known.Known.{Known};

use store_state::LookPort;

/// Of a seat's calls the one history holds just those that it made, each once and in its order; and it goes on from what the seat had
/// seen. A seat that was split off has made none.
pub fn a_seat_has_just_its_calls<P: LookPort>(_port: &P)
    ensures none { (v : Known P) → calls_of (split_off v) ≡ [] }
    ensures calls { (v w : Stand P) (calls : List Call)
        → AreMade (seat_meaning P.meaning) v calls w →
        map call_of (calls_of w.known) ≡ map call_of (calls_of v.known) ++ calls }
    ensures seen { (v w : Stand P) (calls : List Call)
        → AreMade (seat_meaning P.meaning) v calls w →
        (later : List Entry) × (w.known.seen.entries ≡ v.known.seen.entries ++ later) }
    ensures store { (v w : Stand P) (calls : List Call)
        → AreMade (seat_meaning P.meaning) v calls w →
        (w.table ≡ v.table) × (w.known.start ≡ v.known.start) × (w.known.parts ≡ v.known.parts) }
{}

/// What two seats had, the seat has that was made of them, and nothing else. The premises are what `join` gives.
pub fn a_joined_seat_has_what_both_had<P: LookPort>(_port: &P)
    ensures { (v w : Known P) → ShareNone v.seen.names w.seen.names
        → GoesOn v.seen.names v.seen.entries (together v w).seen.entries
        → GoesOn w.seen.names w.seen.entries (together v w).seen.entries
        → IsBoth v w (together v w) }
{}
