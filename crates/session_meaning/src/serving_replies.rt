//! Theorems about the replies to several clients that were answered at once (`Ran`).
//!
//! Each function has an empty body: its contract is the statement, and its proof stands in `proofs/serving_replies/`.

ghost use Rattle.std.specs.Prelude.{Bool, false, ◌≡◌, [], ◌∷◌, ◌++◌, List, Some, ℕ};
ghost use Rattle.client_scripts.specs.declared.script.Answered.{Answered};
ghost use Rattle.port_history.specs.Entries.{Entry, call_of};
ghost use Rattle.session_text.specs.declared.refusal.Refusal.{Refusal};
ghost use Rattle.session_text.specs.declared.reply.Reply.{Reply};
ghost use Rattle.session_text.specs.declared.reply.Reply.TheVariants.{Refused};
ghost use Rattle.session_text.specs.Items.{Item};
ghost use Rattle.store_model.specs.Event.Event.{Look};
ghost use Rattle.store_model.specs.History.{count_of};
ghost use Rattle.store_state.specs.Made.{Call};
ghost use Rattle.session_meaning.specs.Answering.{IsItemAnswered};
ghost use Rattle.session_meaning.specs.At.{At, history_of};
ghost use Rattle.session_meaning.specs.Causes.{HasQueryCause};
ghost use Rattle.session_meaning.specs.Pushes.{known_pushes};
ghost use Rattle.session_meaning.specs.ServedRuns.{any_starved};
ghost use Rattle.session_meaning.specs.ServedWhole.{AreWhole, IsQuery};
ghost use Rattle.session_meaning.specs.ServedReplies.{CallPlace, WasReplied};
ghost use Rattle.session_meaning.specs.Serving.{Ran};

/// If memory ran out before the end of no script, each item of each script has one reply. They are in the order of the
/// items (`WasReplied`).
pub fn each_item_has_its_reply()
    ensures { (told : Bool) (first last : At) (scripts : List (List Item))
        (answers : List Answered) (entries : List Entry)
        → Ran told first scripts answers entries last → any_starved answers ≡ false
        → AreWhole scripts answers }
{}

/// How many pushes a query of a client tells, and why it is refused: by the state of the store at that client's own calls.
pub fn queries_of_clients_have_their_causes()
    // Answered, it tells as many as there are just before its first call, which is its look: in the one order of all calls
    // it misses no push that was accepted before that, whoever made it, and has none that came later.
    ensures answered { (told : Bool) (first last : At) (scripts : List (List Item))
        (answers : List Answered) (entries : List Entry) (client : ℕ) (asked : List Item)
        (got : List Reply) (item : Item) (reply : Reply) (known : ℕ)
        → Ran told first scripts answers entries last
        → WasReplied scripts answers client asked got item reply → IsQuery item
        → known_pushes reply ≡ Some known
        → (place : CallPlace told first entries last client asked got [])
        × (place.entry.event ≡ Look) × (known ≡ count_of (history_of place.before)) }
    // Refused, the cause that its reply names holds at one of its calls: a read that failed, or for a block that is none,
    // which is said only where what the blocks hold isn't told, the look that pinned it. For memory any will do.
    ensures refused { (told : Bool) (first last : At) (scripts : List (List Item))
        (answers : List Answered) (entries : List Entry) (client : ℕ) (asked : List Item)
        (got : List Reply) (item : Item) (why : Refusal)
        → Ran told first scripts answers entries last
        → WasReplied scripts answers client asked got item (Refused why) → IsQuery item
        → (front back : List Call)
        × (place : CallPlace told first entries last client asked got front)
        × IsItemAnswered item (Refused why) (front ++ call_of place.entry ∷ back)
        × HasQueryCause told why place.before place.after }
{}
