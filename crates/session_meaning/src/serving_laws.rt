//! Theorems about several clients that were answered at once (`Ran`), and about runs that serve clients.
//!
//! Each function has an empty body: its contract is the statement, and its proof stands in `proofs/serving_laws/`.

ghost use Rattle.std.specs.Prelude.{Bool, ◌≡◌, ◌⊎◌, [], ◌∷◌, ◌++◌, List, None, Ok, true, false, length, map, ℕ};
ghost use Rattle.client_scripts.specs.declared.script.Answered.{Answered};
ghost use Rattle.client_scripts.specs.Numbers.{AreInARow, given_numbers};
ghost use Rattle.compactor.specs.Rounds.{IsCompactRound};
ghost use Rattle.otlp_spans.specs.declared.read.Reading.{Reading};
ghost use Rattle.port_history.specs.Entries.{Entry, Legal, call_of};
ghost use Rattle.session_meaning.specs.declared.ending.Ending.TheVariants.{Answered as answered, Starved};
ghost use Rattle.session_text.specs.declared.refusal.Refusal.{Refusal};
ghost use Rattle.session_text.specs.declared.reply.Reply.{Reply};
ghost use Rattle.session_text.specs.declared.reply.Reply.TheVariants.{Compacted, Pushed, Refused};
ghost use Rattle.session_text.specs.declared.request.Request.TheVariants.{Compact, Push};
ghost use Rattle.session_text.specs.Items.{Item};
ghost use Rattle.span_types.specs.Faults.{Rose};
ghost use Rattle.store_model.specs.History.{count_of};
ghost use Rattle.store_model.specs.Laws.{Agrees};
ghost use Rattle.store_state.specs.Made.{Call};
ghost use Rattle.store_state.specs.declared.rounds.Round.TheVariants.{Did};
ghost use Rattle.session_meaning.specs.Answering.{CallsLead, IsItemAnswered};
ghost use Rattle.session_meaning.specs.At.{At, history_of};
ghost use Rattle.session_meaning.specs.Causes.{HasPushCause};
ghost use Rattle.session_meaning.specs.Pushes.{HasRoomForPush, HasRoomNow, NeedsNoWrite};
ghost use Rattle.session_meaning.specs.Runs.{ComesToItsEnd, Edges, ReadsWell};
ghost use Rattle.session_meaning.specs.ServedReplies.{AllTellFronts, AskNothing, CallPlace, HasItsPart, HasTheirPushes, ListsBlock, TakesOneCall, WasReplied};
ghost use Rattle.session_meaning.specs.ServedRuns.{IsServedRun, Served};
ghost use Rattle.session_meaning.specs.Serving.{Ran};
ghost use Rattle.session_meaning.specs.Session.{IsAnswered, Session, is_refusal, is_refused};

/// The calls of all clients are legal steps of the store, and lead from the first store to the last.
pub fn calls_of_clients_are_steps()
    ensures legal { (told : Bool) (first last : At) (scripts : List (List Item))
        (answers : List Answered) (entries : List Entry)
        → Ran told first scripts answers entries last
        → Legal first.faults first.machine entries last.faults last.machine }
    ensures lead { (told : Bool) (first last : At) (scripts : List (List Item))
        (answers : List Answered) (entries : List Entry)
        → Ran told first scripts answers entries last
        → CallsLead first (map call_of entries) last }
{}

/// The accepted pushes of all clients are numbered in the one order of all calls: from the first history's length on and
/// without a gap, so each number is given once.
pub fn numbers_are_given_once()
    ensures { (told : Bool) (first last : At) (scripts : List (List Item))
        (answers : List Answered) (entries : List Entry)
        → Ran told first scripts answers entries last
        → AreInARow (count_of (history_of first)) (given_numbers (map call_of entries)) }
{}

/// The last history is the first one and then the accepted pushes of all clients, each client's in its order and no
/// others. Each accepted push is told its number there.
pub fn clients_make_the_history()
    ensures { (told : Bool) (first last : At) (scripts : List (List Item))
        (answers : List Answered) (entries : List Entry)
        → Ran told first scripts answers entries last
        → HasTheirPushes (history_of first) (history_of last) scripts answers entries }
{}

/// Which pushes of clients are refused by the store, and which are accepted. Each is answered by one call, which has its
/// place in the one list of all calls; `before` and `after` of it are the store just before that call and just after it.
pub fn pushes_of_clients_have_their_causes()
    // Refused, it has the cause that its reply names there, and leaves the history as it was.
    ensures refused { (told : Bool) (first last : At) (scripts : List (List Item))
        (answers : List Answered) (entries : List Entry) (client : ℕ) (asked : List Item)
        (got : List Reply) (reading : Reading) (moment : ℕ) (why : Refusal)
        → Ran told first scripts answers entries last
        → WasReplied scripts answers client asked got (Ok (Push reading moment)) (Refused why)
        → (place : CallPlace told first entries last client asked got [])
        × IsItemAnswered (Ok (Push reading moment)) (Refused why) (call_of place.entry ∷ [])
        × HasPushCause why (length reading.batch.spans) place.before place.after
        × (history_of place.after ≡ history_of place.before) }
    // Accepted, it had room there in a store that writes, and its reply says how many came before it.
    ensures accepted { (told : Bool) (first last : At) (scripts : List (List Item))
        (answers : List Answered) (entries : List Entry) (client : ℕ) (asked : List Item)
        (got : List Reply) (reading : Reading) (moment number kept rejected skipped : ℕ)
        → Ran told first scripts answers entries last
        → WasReplied scripts answers client asked got (Ok (Push reading moment))
        (Pushed number kept rejected skipped)
        → (place : CallPlace told first entries last client asked got [])
        × IsItemAnswered (Ok (Push reading moment)) (Pushed number kept rejected skipped)
        (call_of place.entry ∷ [])
        × HasRoomForPush (length reading.batch.spans) place.before.machine
        × (number ≡ count_of (history_of place.before)) }
{}

/// A push, a cut and the emptying of loose files are answered by one call of the store each, just as in a session, at
/// the place of that call. So what is said of these in sessions is said of them there.
pub fn one_call_answers_at_its_place()
    ensures { (told : Bool) (first last : At) (scripts : List (List Item))
        (answers : List Answered) (entries : List Entry) (client : ℕ) (asked : List Item)
        (got : List Reply) (item : Item) (reply : Reply)
        → Ran told first scripts answers entries last
        → WasReplied scripts answers client asked got item reply → TakesOneCall item
        → (place : CallPlace told first entries last client asked got [])
        × IsItemAnswered item reply (call_of place.entry ∷ [])
        × IsAnswered told item place.before reply place.after }
{}

/// A compaction of a client that is told to have joined blocks ended with a commit. The block that was listed there
/// holds the first occurrences of the rows of those in whose place it stands, and the reply says how many these are,
/// where what the blocks hold is told.
pub fn compactions_of_clients_are_counted()
    ensures { (told : Bool) (first last : At) (scripts : List (List Item))
        (answers : List Answered) (entries : List Entry) (client blocks rows : ℕ)
        (asked : List Item) (got : List Reply) → Ran told first scripts answers entries last
        → WasReplied scripts answers client asked got (Ok Compact) (Compacted blocks rows)
        → (front : List Call) × (place : CallPlace told first entries last client asked got front)
        × IsCompactRound (front ++ call_of place.entry ∷ []) (Did blocks rows)
        × ListsBlock told place.before.machine rows place.after.machine }
{}

/// What a client was told of counts in what it is told later: each query covers all pushes of the first history, each
/// push of its client that was accepted before, and all that its client's earlier queries covered. It tells just what
/// that front of the last history has.
pub fn what_was_seen_counts()
    ensures { (first last : At) (scripts : List (List Item)) (answers : List Answered)
        (entries : List Entry) → Ran true first scripts answers entries last
        → AllTellFronts (history_of last) (count_of (history_of first)) scripts answers }
{}

/// One script that is answered to its end beside others that ask nothing is a session.
pub fn one_script_is_a_session()
    ensures { (told : Bool) (first last : At) (script : List Item) (others : List (List Item))
        (answered : Answered) (answers : List Answered) (entries : List Entry)
        → Ran told first (script ∷ others) (answered ∷ answers) entries last
        → AskNothing others → Agrees first.machine → answered.starved ≡ false
        → Session false first script answered.replies.items last }
{}

/// What is asked among several clients is refused for no cause but memory, or its own words, if no call of the disk fails
/// and there is room for it. Of a flush and a compaction that isn't said: each is refused while a job of its kind is open,
/// which may be another client's.
pub fn what_has_room_is_done_among_clients()
    // A push for which there is room just before its call, a cut, and the emptying of loose files, if the store wrote at
    // first.
    ensures one_call { (told : Bool) (first last : At) (scripts : List (List Item))
        (answers : List Answered) (entries : List Entry) (client : ℕ) (asked : List Item)
        (got : List Reply) (item : Item) (reply : Reply)
        → Ran told first scripts answers entries last
        → WasReplied scripts answers client asked got item reply → TakesOneCall item
        → first.machine.read_only ≡ None → (Rose first.faults last.faults → ⊥)
        → (place : CallPlace told first entries last client asked got [])
        × IsItemAnswered item reply (call_of place.entry ∷ [])
        × (HasRoomNow item place.before.machine → is_refusal reply ≡ is_refused item) }
    // A query and a cut, in any store, where what the blocks hold is told.
    ensures no_write { (first last : At) (scripts : List (List Item)) (answers : List Answered)
        (entries : List Entry) (client : ℕ) (asked : List Item) (got : List Reply) (item : Item)
        (reply : Reply) → Ran true first scripts answers entries last
        → WasReplied scripts answers client asked got item reply → NeedsNoWrite item
        → (Rose first.faults last.faults → ⊥) → is_refusal reply ≡ is_refused item }
    // So a run over a store that shows its bytes, in which no call failed, ends with nothing refused but for memory, if
    // all lines were in order, each push had room and no flush and no compaction was refused.
    ensures well { (clients rounds : ℕ) (s : Served) (old new : Edges)
        → IsServedRun true clients rounds s old new → ReadsWell old new
        → ((client : ℕ) (asked : List Item) (got : List Reply) (item : Item) (reply : Reply)
        → WasReplied s.scripts s.answers client asked got item reply
        → HasItsPart true s.first s.entries s.last client asked got item reply)
        → (s.ending ≡ answered) ⊎ (s.ending ≡ Starved) }
{}

/// A run that serves clients in which no call failed comes to its own end.
pub fn serving_comes_to_an_end()
    ensures { (told : Bool) (clients rounds : ℕ) (s : Served) (old new : Edges)
        → IsServedRun told clients rounds s old new → ReadsWell old new
        → ComesToItsEnd s.ending }
{}
