//! Theorems about the flushes and compactions of several clients that were answered at once (`Ran`).
//!
//! Each function has an empty body: its contract is the statement, and its proof stands in `proofs/serving_rounds/`.

ghost use Rattle.std.specs.Prelude.{Bool, true, false, ◌≡◌, ◌⊎◌, ◌+◌, [], ◌∷◌, ◌++◌, List, None, Ok, length, take, ℕ};
ghost use Rattle.client_scripts.specs.declared.script.Answered.{Answered};
ghost use Rattle.compactor.specs.Rounds.{IsCompactRound};
ghost use Rattle.flusher.specs.Rounds.{IsFlushRound};
ghost use Rattle.port_history.specs.Entries.{Entry, call_of};
ghost use Rattle.session_text.specs.declared.refusal.Refusal.{Refusal};
ghost use Rattle.session_text.specs.declared.refusal.Refusal.TheVariants.{Round};
ghost use Rattle.session_text.specs.declared.reply.Reply.{Reply};
ghost use Rattle.session_text.specs.declared.reply.Reply.TheVariants.{Compacted, Flushed, Refused};
ghost use Rattle.session_text.specs.declared.request.Request.TheVariants.{Compact, Flush};
ghost use Rattle.session_text.specs.Items.{Item};
ghost use Rattle.span_types.specs.Faults.{Rose};
ghost use Rattle.span_types.specs.First.{IsFirstOf};
ghost use Rattle.span_types.specs.declared.spans.Row.{Row};
ghost use Rattle.store_model.specs.Choice.{choice, most_rows};
ghost use Rattle.store_model.specs.Event.Event.{BeginCompact, BeginFlush, CommitCompact, CommitFlush};
ghost use Rattle.store_state.specs.Made.{Call};
ghost use Rattle.store_state.specs.declared.rounds.Refusal.{Refusal as Cause};
ghost use Rattle.store_state.specs.declared.rounds.Round.{Round as RoundEnd};
ghost use Rattle.store_state.specs.declared.rounds.Round.TheVariants.{Did, Nothing, Refused as IsRefused};
ghost use Rattle.session_meaning.specs.At.{At, IsStill};
ghost use Rattle.session_meaning.specs.declared.ending.Ending.TheVariants.{Answered as answered, Starved};
ghost use Rattle.session_meaning.specs.Runs.{Edges, ReadsWell};
ghost use Rattle.session_meaning.specs.ServedJobs.{ListsInPlace, ListsRows};
ghost use Rattle.session_meaning.specs.ServedReplies.{CallPlace, WasReplied};
ghost use Rattle.session_meaning.specs.ServedRounds.{HasCauseThere, HasItsRoom, HasRoomForRound, IsDecided, IsFreeFor, IsRoundOf, IsTurnedDown, Kind, asked_for, begin_of, told_as, work_for};
ghost use Rattle.session_meaning.specs.ServedRuns.{IsServedRun, Served};
ghost use Rattle.session_meaning.specs.Serving.{Ran};
ghost use Rattle.session_meaning.specs.Session.{is_refusal};

/// Why a flush or a compaction of a client is refused, and when there is nothing to do for it: by the state of the store at
/// that client's own calls. `kind` says which of the two it is; `before` and `after` of a call's place are the store just
/// before that call and just after it.
pub fn rounds_of_clients_have_their_causes()
    // Refused, one of the round's calls was refused for that, and the cause that the reply names holds there.
    ensures refused { (told : Bool) (first last : At) (scripts : List (List Item))
        (answers : List Answered) (entries : List Entry) (client : ℕ) (asked : List Item)
        (got : List Reply) (kind : Kind) (why : Refusal)
        → Ran told first scripts answers entries last
        → WasReplied scripts answers client asked got (Ok (asked_for kind)) (Refused why)
        → (cause : Cause) × (front back : List Call)
        × (place : CallPlace told first entries last client asked got front)
        × (why ≡ Round cause)
        × IsRoundOf kind (front ++ call_of place.entry ∷ back) (IsRefused cause)
        × IsTurnedDown cause place.entry.reply
        × HasCauseThere kind told cause place.entry.event place.before place.after }
    // Told that there was nothing to do, its one call found that in a store that writes, with no job of its kind open.
    ensures nothing { (told : Bool) (first last : At) (scripts : List (List Item))
        (answers : List Answered) (entries : List Entry) (client : ℕ) (asked : List Item)
        (got : List Reply) (kind : Kind) → Ran told first scripts answers entries last
        → WasReplied scripts answers client asked got (Ok (asked_for kind)) (told_as kind Nothing)
        → (place : CallPlace told first entries last client asked got [])
        × IsRoundOf kind (call_of place.entry ∷ []) Nothing
        × IsFreeFor kind place.before.machine
        × (work_for kind place.before.machine.state ≡ 0) × IsStill place.before place.after }
    // And where the store is so at its begin, that is what it is told: the store writes no more; else a job of its kind
    // is open; else there is nothing to do; else too few file numbers are left.
    ensures decided { (told : Bool) (first last : At) (scripts : List (List Item))
        (answers : List Answered) (entries : List Entry) (client : ℕ) (asked : List Item)
        (got : List Reply) (kind : Kind) (reply : Reply)
        → Ran told first scripts answers entries last
        → WasReplied scripts answers client asked got (Ok (asked_for kind)) reply
        → (place : CallPlace told first entries last client asked got [])
        × (place.entry.event ≡ begin_of kind)
        × ((round : RoundEnd) → IsDecided kind place.before.machine round
        → reply ≡ told_as kind round) }
    // If no call of the disk failed, in a store that wrote at first and shows its bytes, it is refused for no cause but
    // memory, if at its begin no job of its kind is open and two file numbers are left.
    ensures done { (first last : At) (scripts : List (List Item)) (answers : List Answered)
        (entries : List Entry) (client : ℕ) (asked : List Item) (got : List Reply) (kind : Kind)
        (reply : Reply) → Ran true first scripts answers entries last
        → WasReplied scripts answers client asked got (Ok (asked_for kind)) reply
        → first.machine.read_only ≡ None → (Rose first.faults last.faults → ⊥)
        → (place : CallPlace true first entries last client asked got [])
        × (place.entry.event ≡ begin_of kind)
        × (HasRoomForRound kind place.before.machine.state → is_refusal reply ≡ false) }
    // So a run over a store that shows its bytes, in which no call failed, ends with nothing refused but for memory, if
    // all lines were in order, each push had room, and each flush and each compaction had room at its begin.
    ensures well { (clients rounds : ℕ) (s : Served) (old new : Edges)
        → IsServedRun true clients rounds s old new → ReadsWell old new
        → ((client : ℕ) (asked : List Item) (got : List Reply) (item : Item) (reply : Reply)
        → WasReplied s.scripts s.answers client asked got item reply
        → HasItsRoom true s.first s.entries s.last client asked got item reply)
        → (s.ending ≡ answered) ⊎ (s.ending ≡ Starved) }
{}

/// What a flush and a compaction of a client count, of the store at their begins.
pub fn rounds_of_clients_are_counted()
    // A flush: how many first occurrences the rows have that then waited first in the head.
    ensures flushed { (told : Bool) (first last : At) (scripts : List (List Item))
        (answers : List Answered) (entries : List Entry) (client rows : ℕ) (asked : List Item)
        (got : List Reply) → Ran told first scripts answers entries last
        → WasReplied scripts answers client asked got (Ok Flush) (Flushed rows)
        → (place : CallPlace told first entries last client asked got [])
        × (place.entry.event ≡ BeginFlush)
        × ((firsts : List Row) × IsFirstOf (take most_rows place.before.machine.state.head) firsts
        × (rows ≡ length firsts)) }
    // A compaction: how many blocks the store then chose. How many rows it is told, `compactions_of_clients_are_counted`
    // says.
    ensures joined { (told : Bool) (first last : At) (scripts : List (List Item))
        (answers : List Answered) (entries : List Entry) (client blocks rows : ℕ)
        (asked : List Item) (got : List Reply) → Ran told first scripts answers entries last
        → WasReplied scripts answers client asked got (Ok Compact) (Compacted blocks rows)
        → (place : CallPlace told first entries last client asked got [])
        × (place.entry.event ≡ BeginCompact)
        × (blocks ≡ length (choice place.before.machine.state.blocks)) }
{}

/// What a flush and a compaction of a client that did something list by their commits, in the one order of all calls.
/// `begin` is the place of the round's first call, `place` that of its last one, and `between` are all calls in between.
pub fn rounds_of_clients_list_their_blocks()
    // A flush: its last call is the commit of the job that its first one gave, after which a block is listed with as many
    // rows as it is told, the first occurrences of those that waited first in the head at its begin.
    ensures flushed { (told : Bool) (first last : At) (scripts : List (List Item))
        (answers : List Answered) (entries : List Entry) (client rows : ℕ) (asked : List Item)
        (got : List Reply) → Ran told first scripts answers entries last
        → WasReplied scripts answers client asked got (Ok Flush) (Flushed rows)
        → (begin : CallPlace told first entries last client asked got [])
        × (front : List Call) × (place : CallPlace told first entries last client asked got front)
        × (between : List Entry)
        × (place.earlier ≡ begin.earlier ++ begin.entry ∷ between)
        × (begin.entry.event ≡ BeginFlush)
        × (place.entry.event ≡ CommitFlush (begin.before.machine.state.begun + 1) rows)
        × IsFlushRound (front ++ call_of place.entry ∷ []) (Did 1 rows)
        × ListsRows begin.before.machine place.before.machine rows place.after.machine }
    // A compaction: its last call is the commit of the job that its first one gave, which lists one block in the place of
    // those that were chosen at its begin.
    ensures joined { (told : Bool) (first last : At) (scripts : List (List Item))
        (answers : List Answered) (entries : List Entry) (client blocks rows : ℕ)
        (asked : List Item) (got : List Reply) → Ran told first scripts answers entries last
        → WasReplied scripts answers client asked got (Ok Compact) (Compacted blocks rows)
        → (begin : CallPlace told first entries last client asked got [])
        × (front : List Call) × (place : CallPlace told first entries last client asked got front)
        × (between : List Entry)
        × (place.earlier ≡ begin.earlier ++ begin.entry ∷ between)
        × (begin.entry.event ≡ BeginCompact)
        × (place.entry.event ≡ CommitCompact (begin.before.machine.state.begun + 1) rows)
        × IsCompactRound (front ++ call_of place.entry ∷ []) (Did blocks rows)
        × ListsInPlace told begin.before.machine place.before.machine blocks rows
        place.after.machine }
{}
