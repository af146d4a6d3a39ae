//! What a seat holds, while others make their calls.
ghost use Rattle.std.specs.Prelude.{◌≡◌, ◌++◌, List, Contains, IsTrue};
ghost use Rattle.store_model.specs.Event.{Event, Reply};
ghost use Rattle.store_model.specs.Holds.{Hold};
ghost use Rattle.store_state.specs.Meaning.{IsOpen};
ghost use Rattle.port_history.specs.Entries.{Entry, AreEntries};
ghost use Rattle.shared_store.specs.Apart.{AllLeave, AllStrangers, AreStrangers, Leaves};
ghost use Rattle.shared_store.specs.Rule.{IsOwn};
ghost use Rattle.shared_store.specs.Seen.{kept_of};

use store_state::LookPort;

/// A call that ends and writes what some seat holds leaves what is apart from that.
pub fn a_call_leaves_what_others_hold()
    ensures { (theirs held : List Hold) (event : Event) (reply : Reply) → IsOwn theirs event reply
        → ((one other : Hold) → Contains theirs one → Contains held other → AreStrangers one other)
        → Leaves held event reply }
{}

/// Where each look and job is apart from the others, those of a first part are apart from those of a second: so of what two seats held
/// that were made one.
pub fn parts_are_apart()
    ensures { (first second : List Hold) → AllStrangers (first ++ second)
        → (one other : Hold) → Contains first one → Contains second other → AreStrangers one other }
{}

/// Calls that leave what is held: it stays open, and its files keep their bytes if the port shows bytes.
pub fn others_leave_what_is_held<P: LookPort>(old: &P, new: &P)
    ensures open { (held : List Hold) (entries : List Entry)
        → AreEntries P.meaning old.now entries new.now → AllLeave held entries
        → ((hold : Hold) → Contains held hold → IsOpen P.meaning old.now hold)
        → (hold : Hold) → Contains held hold → IsOpen P.meaning new.now hold }
    ensures bytes { (held : List Hold) (entries : List Entry)
        → AreEntries P.meaning old.now entries new.now → AllLeave held entries
        → ((hold : Hold) → Contains held hold → IsOpen P.meaning old.now hold)
        → IsTrue (P.meaning.tells old.now)
        → kept_of (P.meaning.shows new.now) held ≡ kept_of (P.meaning.shows old.now) held }
{}
