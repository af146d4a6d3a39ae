//! Theorems about calls that were made one after another.
//!
//! Each function has an empty body, and nothing calls it: its contract is the statement, and its proof stands in `proofs/laws/`.

ghost use Rattle.std.specs.Prelude.{◌≡◌, ◌≤◌, ◌++◌, ◌∷◌, [], ℕ, List, map};
ghost use Rattle.store_model.specs.Event.{Event, Reply};
ghost use Rattle.store_model.specs.History.{History, grown};
ghost use Rattle.store_model.specs.Holds.{Hold, holds_after};
ghost use Rattle.store_model.specs.Step.{Machine};
ghost use Rattle.store_model.specs.Told.{history_after};
ghost use Rattle.store_state.specs.Made.{AreMade};
ghost use Rattle.store_state.specs.Meaning.{Called};
ghost use Rattle.port_history.specs.Entries.{Entry, AreEntries, CountsRise, Legal, added_by, call_of, history_from, open_from, own};

use store_state::LookPort;

/// Entries in two parts: those under some names, and what the history is after them.
pub fn entries_come_in_parts()
    ensures own { (names : List ℕ) (a b : List Entry)
        → own names (a ++ b) ≡ own names a ++ own names b }
    ensures history { (h : History) (a b : List Entry)
        → history_from h (a ++ b) ≡ history_from (history_from h a) b }
    ensures holds { (held : List Hold) (a b : List Entry)
        → open_from held (a ++ b) ≡ open_from (open_from held a) b }
{}

/// What entries make of a history is what they added, after what it had.
pub fn entries_grow_the_history()
    ensures { (h : History) (entries : List Entry)
        → history_from h entries ≡ grown h (added_by entries) }
{}

/// A call that is made after others is their last entry.
pub fn one_more_entry<P: LookPort>(old: &P, between: &P, new: &P)
    ensures { (entries : List Entry) (e : Entry)
        → AreEntries P.meaning old.now entries between.now →
        Called P.meaning between.now e.event e.reply new.now
        → e.before ≡ P.meaning.faults between.now → e.after ≡ P.meaning.faults new.now →
        AreEntries P.meaning old.now (entries ++ e ∷ []) new.now }
{}

/// What is open in a port goes on along its calls, and whether bytes are told stays. The count of faults never falls.
pub fn calls_go_on<P: LookPort>(old: &P, new: &P)
    ensures holds { (held : List Hold) (entries : List Entry) → P.meaning.holds old.now held →
        AreEntries P.meaning old.now entries new.now
        → P.meaning.holds new.now (open_from held entries) }
    ensures telling { (entries : List Entry) → AreEntries P.meaning old.now entries new.now →
        P.meaning.tells new.now ≡ P.meaning.tells old.now }
    ensures faults { (entries : List Entry) → AreEntries P.meaning old.now entries new.now →
        P.meaning.faults old.now ≤ P.meaning.faults new.now }
{}

/// Entries are calls that were made, and no others were.
pub fn entries_are_calls<P: LookPort>(old: &P, new: &P)
    ensures { (entries : List Entry) → AreEntries P.meaning old.now entries new.now →
        AreMade P.meaning old.now (map call_of entries) new.now }
{}

/// Legal entries leave the history that they make, and no lower count of faults.
pub fn legal_entries_make_the_history()
    ensures history { (before after : ℕ) (m m' : Machine) (entries : List Entry)
        → Legal before m entries after m' →
        m'.history ≡ history_from m.history entries }
    ensures faults { (before after : ℕ) (m m' : Machine) (entries : List Entry)
        → Legal before m entries after m' → before ≤ after }
{}

/// The counts of faults in entries never fall, and stand between that of the port before them and that of the port after them.
pub fn counts_never_fall<P: LookPort>(old: &P, new: &P)
    ensures made { (entries : List Entry) → AreEntries P.meaning old.now entries new.now →
        CountsRise (P.meaning.faults old.now) entries (P.meaning.faults new.now) }
    ensures legal { (before after : ℕ) (m m' : Machine) (entries : List Entry)
        → Legal before m entries after m' →
        CountsRise before entries after }
{}
