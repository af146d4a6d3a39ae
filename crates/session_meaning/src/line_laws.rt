//! Theorems about single lines of a session, each at its own place: which are done, however the lines before and after
//! them went, and which one stopped the store from writing.
//!
//! Each function has an empty body: its contract is the statement, and its proof stands in `proofs/line_laws/`.

ghost use Rattle.std.specs.Prelude.{Bool, true, ◌≡◌, ◌⊎◌, ◌++◌, List, ◌∷◌, Some, None, length, ℕ};
ghost use Rattle.command_words.specs.Commands.{Command, Spells};
ghost use Rattle.session_text.specs.declared.reply.Reply.{Reply};
ghost use Rattle.session_text.specs.Items.{Item};
ghost use Rattle.session_meaning.specs.Act.{Act};
ghost use Rattle.session_meaning.specs.Act.Act.{Ask};
ghost use Rattle.session_meaning.specs.Done.{AreDone};
ghost use Rattle.session_meaning.specs.LinePlaces.{AreDoneWithRoom, FaultPlace, HasItsRoom, LinePlace, WasQuiet};
ghost use Rattle.session_meaning.specs.Place.{Place, opened_at};
ghost use Rattle.session_meaning.specs.Runs.{Edges, GoesWell, IsRunOf, Outcome};
ghost use Rattle.session_meaning.specs.Session.{is_refusal, is_refused};
ghost use Rattle.session_meaning.specs.Upkeep.{IsClosed};
ghost use Rattle.session_meaning.specs.declared.ending.Ending.TheVariants.{Answered, Starved};

/// A line that the store has room for at the line's own place is refused for no cause but memory, or its own words, if
/// no call of the disk failed in that line. Whatever failed before counts only if the store writes no more since: after
/// a fault that an opening has healed, lines are done again. What the blocks hold is told.
pub fn a_line_with_room_is_done()
    // Each line has its place.
    ensures placed { (told : Bool) (front back : List Act) (act : Act)
        (earlier later : List Reply) (reply : Reply) (first last : Place)
        → length front ≡ length earlier
        → AreDone told first (front ++ act ∷ back) (earlier ++ reply ∷ later) last
        → LinePlace told first front earlier act reply back later last }
    // From a store on in which no job is open while it writes, over reopenings.
    ensures there { (front back : List Act) (item : Item) (earlier later : List Reply)
        (reply : Reply) (first last : Place)
        → (place : LinePlace true first front earlier (Ask item) reply back later last)
        → IsClosed first.store.machine → HasItsRoom item place.before.store.machine
        → WasQuiet place.before place.after → is_refusal reply ≡ is_refused item }
    // So of each line of a run, whatever failed in others.
    ensures of_runs { (words : List (List ℕ)) (c : Command) (o : Outcome) (old new : Edges)
        → Spells words c → IsRunOf true words o old new
        → (front back : List Act) (item : Item) (earlier later : List Reply) (reply : Reply)
        → o.acts ≡ front ++ Ask item ∷ back → o.replies ≡ earlier ++ reply ∷ later
        → length front ≡ length earlier
        → (place : LinePlace true (opened_at o.first) front earlier (Ask item) reply back later
        o.last)
        × (HasItsRoom item place.before.store.machine → WasQuiet place.before place.after
        → is_refusal reply ≡ is_refused item) }
    // A run in which no call failed ends with nothing refused but for memory, if each line was in order and had room at
    // its own place, and none came to a closed store: however long it is, and however often it opens the store again.
    ensures well_by_lines { (words : List (List ℕ)) (c : Command) (o : Outcome)
        (old new : Edges) → Spells words c
        → IsRunOf true words o old new → GoesWell c old new
        → (before : List ℕ) → old.taken ≡ Some before
        → AreDoneWithRoom (opened_at o.first) o.acts o.replies o.last
        → (o.ending ≡ Answered) ⊎ (o.ending ≡ Starved) }
{}

/// The count of faults that a store tells which writes no more names the line at which it stopped: that was refused as
/// `disk-fault`, the count is the disk's just after it, and no opening went well since.
pub fn read_only_names_its_fault()
    ensures { (told : Bool) (acts : List Act) (replies : List Reply) (first last : Place)
        (faults : ℕ) → AreDone told first acts replies last
        → first.store.machine.read_only ≡ None
        → last.store.machine.read_only ≡ Some faults
        → FaultPlace told first acts replies last faults }
{}
