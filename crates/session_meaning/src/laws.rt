//! Theorems about sessions, ingests and runs, from the definitions in `specs/`: what replies tell, why something is
//! refused, what is stored, and when a run comes to its own end.
//!
//! Each function has an empty body: its contract is the statement, and its proof stands in `proofs/laws/`. `headline`
//! calls `pushes_have_their_causes` to have its contract, and nothing calls the others; proofs of `headline` and
//! `trace_shell` cite the lemmas of some. The parameters name a core, before and after, or the disks of two runs.

ghost use Rattle.std.specs.Prelude.{Bool, IsTrue, true, ◌≡◌, ◌≢◌, ◌⊎◌, ◌<◌, ◌≤◌, ◌+◌, ◌++◌, List, [], ◌∷◌, Option, Some, None, Ok, false, length, map, ℕ};
ghost use Rattle.std.specs.List.{Contains, list_any};
ghost use Rattle.command_words.specs.Commands.{Command, Spells};
ghost use Rattle.disk_model.specs.Counts.{RoseBy};
ghost use Rattle.disk_model.specs.Crash.{LeavesOnly};
ghost use Rattle.disk_model.specs.Images.{Image, bytes_of};
ghost use Rattle.compactor.specs.Rounds.{IsCompactRound};
ghost use Rattle.flusher.specs.Rounds.{IsFlushRound};
ghost use Rattle.span_types.specs.Faults.{Rose};
ghost use Rattle.span_types.specs.First.{IsFirstOf};
ghost use Rattle.span_types.specs.Keys.{row_key};
ghost use Rattle.span_types.specs.declared.ids.TraceId.{TraceId};
ghost use Rattle.span_types.specs.declared.spans.Row.{Row};
ghost use Rattle.rows_by_trace.specs.Traces.{is_of_trace};
ghost use Rattle.query_fanout.specs.declared.searching.Asked.{Asked};
ghost use Rattle.spanset_eval.specs.declared.results.TraceResult.{TraceResult};
ghost use Rattle.otlp_spans.specs.declared.read.Reading.{Reading};
ghost use Rattle.session_text.specs.declared.refusal.Refusal.{Refusal};
ghost use Rattle.session_text.specs.declared.refusal.Refusal.TheVariants.{Memory};
ghost use Rattle.session_text.specs.declared.reply.Reply.{Reply};
ghost use Rattle.session_text.specs.declared.reply.Reply.TheVariants.{Pushed, Reclaimed, Refused};
ghost use Rattle.session_text.specs.declared.request.Request.TheVariants.{Push, Reclaim};
ghost use Rattle.session_text.specs.Items.{Item};
ghost use Rattle.session_text.specs.Requests.{AsksAt};
ghost use Rattle.store_model.specs.Choice.{choice};
ghost use Rattle.store_model.specs.Event.Event.{BeginCompact};
ghost use Rattle.store_model.specs.History.{History, count_of, grown};
ghost use Rattle.store_model.specs.Laws.{Agrees};
ghost use Rattle.store_model.specs.Sound.{uses};
ghost use Rattle.store_model.specs.State.{State};
ghost use Rattle.store_images.specs.Stored.{ImageStandsFor, IsTidy, MayStandFor};
ghost use Rattle.store_core.specs.Cores.{CoreShows, CoreStandsFor};
ghost use Rattle.store_core.specs.Opening.{BeginsAs};
ghost use Rattle.store_core.specs.Past.{StandsSince};
ghost use Rattle.store_core.specs.Port.{port_of};
ghost use Rattle.store_core.specs.Waiting.{rows_outside};
ghost use Rattle.store_model.specs.Step.{Machine};
ghost use Rattle.store_reopen.specs.Reopened.{disk_of};
ghost use Rattle.store_reopen.specs.Through.{StoodAmid};
ghost use Rattle.store_state.specs.Made.{AreMade, Call};
ghost use Rattle.store_state.specs.declared.rounds.Refusal.{Refusal as Cause};
ghost use Rattle.store_state.specs.declared.rounds.Round.{Round};
ghost use Rattle.store_state.specs.declared.rounds.Round.TheVariants.{Did, Nothing, Refused as IsRefused};
ghost use Rattle.session_meaning.specs.Act.{Act};
ghost use Rattle.session_meaning.specs.Act.Act.{Ask, Reopen};
ghost use Rattle.session_meaning.specs.Answering.{AreItemsAnswered, CallsLead, IsAnsweredByCalls, at_core};
ghost use Rattle.session_meaning.specs.Causes.{HasCompactCause, HasFlushCause, HasPushCause, HasWriteCause, act_blames_disk, blames_disk, disk_faults};
ghost use Rattle.session_meaning.specs.Done.{AreDone, AreDoneAmong, IsDone};
ghost use Rattle.session_meaning.specs.Drill.{Drills};
ghost use Rattle.session_meaning.specs.Kept.{begun_with, kept_after_all, kept_at, were_unsure};
ghost use Rattle.session_meaning.specs.Listed.{ListsState};
ghost use Rattle.session_meaning.specs.Over.{AreDoneOver, IsKeptAt, IsShownAt};
ghost use Rattle.session_meaning.specs.Place.{Place, opened_at};
ghost use Rattle.session_meaning.specs.Rounds.{HasJoined, HasListed, IsCompacted, IsDoneOrStarved, IsFlushed, IsRound};
ghost use Rattle.session_meaning.specs.declared.ending.Ending.TheVariants.{Answered, NotOpened, Starved};
ghost use Rattle.session_meaning.specs.Progress.{AreAnsweredOver, FollowsOver};
ghost use Rattle.session_meaning.specs.Pushes.{HasRoomFor, HasRoomForPush, HasRoomNow, NeedsNoWrite, accepted_entries, known_pushes};
ghost use Rattle.session_meaning.specs.Runs.{ComesToItsEnd, Edges, GoesWell, IsRunOf, Outcome, TellsAll};
ghost use Rattle.session_meaning.specs.At.{At, IsStill, history_of};
ghost use Rattle.session_meaning.specs.Duties.{Duty, Follows, duties, from_lines};
ghost use Rattle.session_meaning.specs.Ingest.{AreJoined, Far, HasFinished, Ingests, Pushes, Stand, is_joined};
ghost use Rattle.session_meaning.specs.Ingest.Far.{so_far, whole};
ghost use Rattle.session_meaning.specs.Session.{IsAnswered, IsAnsweredOrRefused, IsFound, IsFoundSeen, IsSure, IsTraceIn, IsTraceSeen, Session, is_refusal, is_refused};
ghost use Rattle.session_meaning.specs.Stops.{AreTidy, BeginsListed, Recovers, StandsForLast, StandsWithin};
ghost use Rattle.session_meaning.specs.Upkeep.{HasEmptied, HasFailedSince, HasNoJob, IsClosed};

use disk_model::Device;
use store_core::Core;
use store_reopen::Store;

/// What is answered by calls of a store is answered as the history says, but that of the rows which queries see in
/// blocks nothing is said: the machine of the store, with its logs and pins, tells no more than the pushes do.
pub fn calls_answer_as_the_history_says()
    ensures item { (item : Item) (before after : At) (reply : Reply) → Agrees before.machine
        → IsAnsweredByCalls item before reply after
        → IsAnsweredOrRefused false item before reply after }
    ensures session { (items : List Item) (replies : List Reply) (calls : List Call)
        (first last : At)
        → Agrees first.machine → AreItemsAnswered items replies calls → CallsLead first calls last
        → Session false first items replies last }
{}

/// What is answered over the port of a core is a session.
pub fn a_core_answers_as_the_history_says<D: Device>(old: &Core<D>, new: &Core<D>)
    // From a machine on that its memory shows, whatever its disk holds, to one that it shows then. Of the rows which
    // queries see in blocks nothing is said.
    ensures shown { (items : List Item) (replies : List Reply)
        → AreAnsweredOver (port_of D.Device.own) old.now items replies new.now → (m : Machine)
        → CoreShows D.Device.own old.now m
        → (later : Machine) × CoreShows D.Device.own new.now later
        × Session false (at_core D.Device.own old.now m) items replies
        (at_core D.Device.own new.now later) }
    // From a machine on for which it stands, where its disk shows its bytes: queries tell of all that was pushed,
    // wherever it lies. What was left since an earlier disk goes on standing for the history at some length.
    ensures since { (items : List Item) (replies : List Reply)
        → AreAnsweredOver (port_of D.Device.own) old.now items replies new.now → (m : Machine)
        → (start : D) (least : ℕ)
        → StandsSince D.Device.own start least old.now m → IsTrue (D.tells old.now.disk)
        → (later : Machine) × StandsSince D.Device.own start least new.now later
        × Session true (at_core D.Device.own old.now m) items replies
        (at_core D.Device.own new.now later) }
{}

/// What is done over a store that is open or closed is what a session means.
pub fn a_store_answers_as_the_history_says<D: Device>(old: &Store<D>, new: &Store<D>)
    // Whatever its disk holds, from a place on at which it is shown to one at which it is then.
    ensures shown { (acts : List Act) (replies : List Reply) (first : Place)
        → AreDoneOver D.Device.own old.now acts replies new.now
        → IsShownAt D.Device.own old.now first
        → (last : Place) × IsShownAt D.Device.own new.now last
        × AreDone false first acts replies last }
    // Where its disk shows its bytes, and what it stores was kept since an earlier disk: then that is kept still.
    ensures kept { (acts : List Act) (replies : List Reply) (first : Place) (start : D) (least : ℕ)
        → AreDoneOver D.Device.own old.now acts replies new.now
        → IsKeptAt D.Device.own start least old.now first → IsTrue (D.tells (disk_of old.now))
        → (last : Place) × IsKeptAt D.Device.own start least new.now last
        × AreDone true first acts replies last }
    // Then each opening finds an image that a crash may have left since that earlier disk.
    ensures found { (acts : List Act) (replies : List Reply) (first : Place) (start : D) (least : ℕ)
        → AreDoneOver D.Device.own old.now acts replies new.now
        → IsKeptAt D.Device.own start least old.now first → IsTrue (D.tells (disk_of old.now))
        → (last : Place) × IsKeptAt D.Device.own start least new.now last
        × AreDoneAmong (D.left_since (disk_of new.now) (D.moment start)) first acts replies last }
    // What is done so is done, whichever image an opening finds.
    ensures done { (acts : List Act) (replies : List Reply) (first last : Place) (since : ℕ)
        → AreDoneAmong (D.left_since (disk_of new.now) since) first acts replies last
        → AreDone true first acts replies last }
{}

/// What is asked of an open store, with no reopening in between, is a session: so all that is said of sessions is said of
/// what comes after an opening that went well, until the next one.
pub fn what_is_asked_in_between_is_a_session()
    ensures asked { (told : Bool) (items : List Item) (replies : List Reply) (first last : Place)
        → AreDone told first (map Ask items) replies last
        → Session told first.store items replies last.store }
    ensures parts { (told : Bool) (front back : List Act) (replies : List Reply)
        (first last : Place) → AreDone told first (front ++ back) replies last
        → (between : Place) × (earlier later : List Reply) × (replies ≡ earlier ++ later)
        × AreDone told first front earlier between × AreDone told between back later last }
{}

/// What is asked of a core by the duties of an ingest follows them: from a machine on that its memory shows, or for
/// which it stands, as of a session.
pub fn a_core_ingests_as_the_history_says<D: Device>(old: &Core<D>, new: &Core<D>)
    ensures shown { (todo left : List Duty) (moments moments_left : Option (List ℕ))
        (items : List Item)
        (replies : List Reply)
        → FollowsOver D.Device.own todo moments old.now items replies new.now left moments_left
        → (m : Machine)
        → CoreShows D.Device.own old.now m
        → (later : Machine) × CoreShows D.Device.own new.now later
        × Follows false todo moments (at_core D.Device.own old.now m) items replies
        (at_core D.Device.own new.now later) left moments_left }
    ensures since { (todo left : List Duty) (moments moments_left : Option (List ℕ))
        (items : List Item)
        (replies : List Reply)
        → FollowsOver D.Device.own todo moments old.now items replies new.now left moments_left
        → (m : Machine)
        → (start : D) (least : ℕ) → StandsSince D.Device.own start least old.now m
        → IsTrue (D.tells old.now.disk)
        → (later : Machine) × StandsSince D.Device.own start least new.now later
        × Follows true todo moments (at_core D.Device.own old.now m) items replies
        (at_core D.Device.own new.now later) left moments_left }
{}

/// Whoever follows the duties of an ingest asks what an ingest asks.
pub fn duties_make_an_ingest()
    // As far as it came.
    ensures stops { (told : Bool) (source : List (List ℕ)) (moments moments_left : Option (List ℕ))
        (left : List Duty) (items : List Item)
        → (replies : List Reply) (first last : At)
        → Follows told (duties source) moments first items replies last left moments_left
        → Ingests told source (record { store = first; moments = moments }) items replies
        (record { store = last; moments = moments_left }) so_far }
    // With nothing left, to its end.
    ensures ends { (told : Bool) (source : List (List ℕ)) (moments moments_left : Option (List ℕ))
        (items : List Item)
        → (replies : List Reply) (first last : At)
        → Follows told (duties source) moments first items replies last [] moments_left
        → Ingests told source (record { store = first; moments = moments }) items replies
        (record { store = last; moments = moments_left }) whole }
    // With these lines left, and what is to do at the end, it pushed the lines before them.
    ensures reads { (told : Bool) (pushed later : List (List ℕ))
        (moments moments_left : Option (List ℕ))
        (items : List Item)
        → (replies : List Reply) (first last : At)
        → Follows told (duties (pushed ++ later)) moments first items replies last
        (from_lines later) moments_left
        → Pushes told pushed (record { store = first; moments = moments }) items replies
        (record { store = last; moments = moments_left }) }
{}

/// A session keeps that the rows of the store are those of its history, and leaves no job open while the store writes.
pub fn sessions_keep_the_store()
    ensures agrees { (told : Bool) (items : List Item) (replies : List Reply) (first last : At)
        → Session told first items replies last → Agrees first.machine → Agrees last.machine }
    ensures closed { (told : Bool) (items : List Item) (replies : List Reply) (first last : At)
        → Session told first items replies last → IsClosed first.machine → IsClosed last.machine }
    // A store that wrote at first writes no more only where a call failed since, and then it tells the disk's count
    // after that.
    ensures read_only { (told : Bool) (items : List Item) (replies : List Reply) (first last : At)
        → Session told first items replies last → first.machine.read_only ≡ None
        → HasFailedSince first.faults last }
{}

/// What is kept of a place over all that is done from there, over reopenings too.
pub fn places_are_kept()
    // The disk of an open store lists it.
    ensures listed { (told : Bool) (acts : List Act) (replies : List Reply) (first last : Place)
        → AreDone told first acts replies last
        → (first.is_open ≡ true → first.is_listed ≡ true)
        → last.is_open ≡ true → last.is_listed ≡ true }
    // No job is left open while the store writes.
    ensures closed { (told : Bool) (acts : List Act) (replies : List Reply) (first last : Place)
        → AreDone told first acts replies last → IsClosed first.store.machine
        → IsClosed last.store.machine }
    // A store that wrote at first writes no more only where a call failed since.
    ensures read_only { (told : Bool) (acts : List Act) (replies : List Reply)
        (first last : Place)
        → AreDone told first acts replies last → first.store.machine.read_only ≡ None
        → HasFailedSince first.store.faults last.store }
{}

/// As many replies are `disk-fault` as calls of the disk failed.
pub fn each_disk_fault_is_counted()
    // Of a session: no failed call goes untold, and no fault is told for which no call failed.
    ensures of_sessions { (told : Bool) (items : List Item) (replies : List Reply) (first last : At)
        → Session told first items replies last → list_any blames_disk items ≡ false
        → RoseBy (disk_faults replies) first.faults last.faults }
    // Of what is done over reopenings.
    ensures of_acts { (told : Bool) (acts : List Act) (replies : List Reply) (first last : Place)
        → AreDone told first acts replies last → list_any act_blames_disk acts ≡ false
        → RoseBy (disk_faults replies) first.store.faults last.store.faults }
    // No line is refused for a fault in reading.
    ensures of_lines { (moment : ℕ) (line : List ℕ) (refused : List (List ℕ)) (item : Item)
        → AsksAt moment line refused item → blames_disk item ≡ false }
    // Of a run that wasn't stopped by the first call that failed as it opened the store.
    ensures of_runs { (told : Bool) (words : List (List ℕ)) (c : Command) (o : Outcome)
        (old new : Edges) → Spells words c
        → IsRunOf told words o old new → TellsAll c old → o.ending ≢ NotOpened
        → RoseBy (disk_faults o.replies) old.disk_faults new.disk_faults }
{}

/// What the replies of a session tell of its pushes.
pub fn replies_tell_the_history()
    // The last history is the first one, and after it the entries that were accepted, in order.
    ensures appended { (told : Bool) (items : List Item) (replies : List Reply) (first last : At)
        → Session told first items replies last
        → history_of last ≡ grown (history_of first) (accepted_entries items replies) }
    // Over reopenings, where what the disk holds is told, all that is kept is what lines and replies tell by themselves.
    ensures kept { (acts : List Act) (replies : List Reply) (first last : Place)
        → AreDone true first acts replies last
        → kept_at last ≡ kept_after_all (kept_at first) acts replies }
    // The number in an accepted push's reply is below the count of pushes that any later query knows of.
    ensures known_later { (told : Bool) (items : List Item) (earlier later : List Reply)
        (first last : At)
        → (number kept rejected skipped : ℕ)
        → Session told first items (earlier ++ Pushed number kept rejected skipped ∷ later) last
        → (reply : Reply) (known : ℕ) → Contains later reply → known_pushes reply ≡ Some known
        → number < known }
{}

/// What queries tell of what they see.
pub fn queries_tell_what_they_see()
    // Where it is sure what the blocks hold, a look-up is told what it finds at the history, and so is a search.
    ensures traces { (told : Bool) (id : TraceId) (at : At) (rows : List Row) → IsSure told at
        → IsTraceSeen told id at rows → IsTraceIn id (history_of at) rows }
    ensures searches { (told : Bool) (asked : Asked) (at : At) (results : List TraceResult)
        → IsSure told at
        → IsFoundSeen told asked at results → IsFound asked (history_of at) results }
    // Whatever the blocks hold, no span that waits outside of them is missing: a look-up of its trace is told a row
    // with its key, and a search is answered over one.
    ensures waiting { (told : Bool) (id : TraceId) (at : At) (rows : List Row) (row : Row)
        → IsTraceSeen told id at rows → Contains (rows_outside at.machine.state) row
        → is_of_trace id row ≡ true
        → (x : Row) × Contains rows x × (row_key x ≡ row_key row) }
    ensures searched { (told : Bool) (asked : Asked) (at : At) (results : List TraceResult)
        (row : Row)
        → (seen : IsFoundSeen told asked at results) → Contains (rows_outside at.machine.state) row
        → (x : Row) × Contains seen.rows x × (row_key x ≡ row_key row) }
{}

/// Which pushes are refused, and which are accepted.
pub fn pushes_have_their_causes()
    // Refused, it has the cause that its reply names, and the history stays.
    ensures refused { (told : Bool) (reading : Reading) (moment : ℕ) (before after : At)
        (why : Refusal)
        → IsAnswered told (Ok (Push reading moment)) before (Refused why) after
        → HasPushCause why (length reading.batch.spans) before after
        × (history_of after ≡ history_of before) }
    // Accepted, it had room in a store that writes, and the reply says how many came before it.
    ensures accepted { (told : Bool) (reading : Reading) (moment : ℕ) (before after : At)
        (number kept rejected skipped : ℕ)
        → IsAnswered told (Ok (Push reading moment)) before
        (Pushed number kept rejected skipped) after
        → HasRoomForPush (length reading.batch.spans) before.machine
        × (number ≡ count_of (history_of before)) }
{}

/// What is stored, by what lines and replies tell. A run that is stopped is one over a disk of which from some call on
/// every call fails: what it hands back then has each push that was accepted before the stop.
pub fn accepted_pushes_are_stored()
    // An image of the disk that is handed back: what was stored at first and after it all entries that were accepted, or
    // that an opening found, in order.
    ensures returned { (o : Outcome) (image : Image)
        → AreDone true (opened_at o.first) o.acts o.replies o.last → StandsForLast o image
        → MayStandFor (kept_after_all (begun_with (history_of o.first)) o.acts o.replies).history
        (kept_after_all (begun_with (history_of o.first)) o.acts o.replies).unsure image }
    // One since the store was opened: the same with the first few of these entries, and it may be with one more that
    // wasn't sure.
    ensures at_any_moment { (o : Outcome) (image : Image)
        → AreDone true (opened_at o.first) o.acts o.replies o.last → StandsWithin o image
        → StoodAmid (count_of (history_of o.first))
        (kept_after_all (begun_with (history_of o.first)) o.acts o.replies).history
        (were_unsure (kept_after_all (begun_with (history_of o.first)) o.acts o.replies)) image }
{}

/// Of the histories that an image stands for one is a base alone, in which each span stands once.
pub fn what_is_stored_is_a_base()
    ensures { (image : Image) (h : History) → ImageStandsFor image h
        → (base : List Row) × IsFirstOf base base
        × ImageStandsFor image (record { base = base; start = count_of h; entries = [] }) }
{}

/// Laws of runs, for all commands at once: a run over a disk with a store, in which no call failed, comes to its own
/// end.
pub fn comes_to_an_end()
    // It answers all that it was asked.
    ensures ends { (told : Bool) (words : List (List ℕ)) (c : Command) (o : Outcome)
        (old new : Edges) → Spells words c
        → IsRunOf told words o old new → GoesWell c old new → ComesToItsEnd o.ending }
    // And where nothing was refused in reading, the store wasn't opened again, it had room, and what its blocks hold is
    // told, nothing is refused but for memory.
    ensures well { (words : List (List ℕ)) (c : Command) (o : Outcome) (old new : Edges)
        → Spells words c
        → IsRunOf true words o old new → GoesWell c old new
        → (before : List ℕ) → old.taken ≡ Some before
        → (items : List Item) → o.acts ≡ map Ask items → list_any is_refused items ≡ false
        → HasRoomFor items o.first.machine → (o.ending ≡ Answered) ⊎ (o.ending ≡ Starved) }
{}

/// What is asked of a store that has room for it is refused for no cause but memory, or its own words: whatever was
/// asked before, so also late in a long session or ingest. An opening too is refused for no cause but memory, if no call
/// of the disk fails. What the blocks hold is told.
pub fn what_has_room_is_done()
    // Of a store that writes and has no job open, where no call of the disk fails.
    ensures one { (item : Item) (before after : At) (reply : Reply)
        → IsAnsweredOrRefused true item before reply after → (Rose before.faults after.faults → ⊥)
        → before.machine.read_only ≡ None → HasNoJob before.machine
        → HasRoomNow item before.machine → is_refusal reply ≡ is_refused item }
    // A query and a cut, of any store.
    ensures no_write { (item : Item) (before after : At) (reply : Reply)
        → IsAnsweredOrRefused true item before reply after → (Rose before.faults after.faults → ⊥)
        → NeedsNoWrite item → is_refusal reply ≡ is_refused item }
    // Each line, at its own place: from such a store on, over reopenings, as long as no call fails.
    ensures each { (front back : List Act) (item : Item) (earlier later : List Reply)
        (reply : Reply) (first last : Place) → length front ≡ length earlier
        → AreDone true first (front ++ Ask item ∷ back) (earlier ++ reply ∷ later) last
        → (Rose first.store.faults last.store.faults → ⊥)
        → first.store.machine.read_only ≡ None → HasNoJob first.store.machine
        → (at : Place) × AreDone true first front earlier at × (at.is_open ≡ true)
        × (HasRoomNow item at.store.machine → is_refusal reply ≡ is_refused item) }
    // So of each line of a run in which no call failed.
    ensures of_runs { (words : List (List ℕ)) (c : Command) (o : Outcome) (old new : Edges)
        → Spells words c → IsRunOf true words o old new → GoesWell c old new
        → (front back : List Act) (item : Item) (earlier later : List Reply) (reply : Reply)
        → o.acts ≡ front ++ Ask item ∷ back → o.replies ≡ earlier ++ reply ∷ later
        → length front ≡ length earlier
        → (at : Place) × AreDone true (opened_at o.first) front earlier at × (at.is_open ≡ true)
        × (HasRoomNow item at.store.machine → is_refusal reply ≡ is_refused item) }
    // A store that is opened again, if no call of the disk fails.
    ensures reopened { (moment : ℕ) (before after : Place) (why : Refusal)
        → IsDone true (Reopen moment) before (Refused why) after
        → (Rose before.store.faults after.store.faults → ⊥) → why ≡ Memory }
{}

/// What an ingest asks is asked and answered as in a session, so all that is said of sessions is said of it.
pub fn an_ingest_is_a_session()
    ensures as_far { (told : Bool) (source : List (List ℕ)) (before after : Stand)
        (items : List Item) (replies : List Reply)
        → (far : Far) → Ingests told source before items replies after far
        → Session told before.store items replies after.store }
    ensures lines { (told : Bool) (source : List (List ℕ)) (before after : Stand)
        (items : List Item) (replies : List Reply)
        → Pushes told source before items replies after
        → Session told before.store items replies after.store }
    ensures duties { (told : Bool) (todo left : List Duty) (moments moments_left : Option (List ℕ))
        (items : List Item)
        → (replies : List Reply) (first last : At)
        → Follows told todo moments first items replies last left moments_left
        → Session told first items replies last }
{}

/// An ingest that came to its end has cut and flushed there, has compacted until a compaction joined no blocks, and then
/// emptied loose files.
pub fn an_ingest_finishes()
    ensures { (told : Bool) (source : List (List ℕ)) (before after : Stand) (items : List Item)
        (replies : List Reply)
        → Ingests told source before items replies after whole → HasFinished items replies }
{}

/// A drill that did all compacted until a compaction joined no blocks.
pub fn a_drill_compacts_to_its_end()
    ensures { (sure : Bool) (seed traces : ℕ) (told to_tell : Option (List ℕ))
        (items : List Item) (replies : List Reply) (refused : List (List ℕ)) (first last : At)
        → (d : Drills seed traces told items replies refused to_tell)
        → Session sure first items replies last → is_joined d.last ≡ false }
{}

/// What a flush makes of the store.
pub fn flushes_have_their_causes()
    // The calls of a round make of the store what a flush does.
    ensures by_calls { (calls : List Call) (round : Round) (before after : At)
        → IsFlushRound calls round
        → CallsLead before calls after → IsFlushed before round after }
    // Refused, it has the cause that its reply names.
    ensures refused { (before after : At) (why : Cause) → IsClosed before.machine
        → IsFlushed before (IsRefused why) after → HasFlushCause why before after }
    // A flush of an empty head, in a store that writes, is answered just that.
    ensures empty { (before after : At) (round : Round) → before.machine.read_only ≡ None
        → IsClosed before.machine
        → length before.machine.state.head ≡ 0 → IsFlushed before round after → round ≡ Nothing }
    // And where that is the answer, the head was empty, and the store is as it was.
    ensures nothing { (before after : At) → IsFlushed before Nothing after
        → (length before.machine.state.head ≡ 0) × IsStill before after }
    // A block that is listed holds the first occurrences of the rows that waited first, and the reply says how many
    // these are.
    ensures listed { (before after : At) (blocks rows : ℕ)
        → IsFlushed before (Did blocks rows) after
        → HasListed before.machine blocks rows after.machine }
    // Without faults, in a store that writes and has file numbers left, it is done or memory ran out.
    ensures well { (before after : At) (round : Round) → (Rose before.faults after.faults → ⊥)
        → before.machine.read_only ≡ None → IsClosed before.machine
        → before.machine.state.next_file < 4294967294
        → IsFlushed before round after → IsDoneOrStarved round }
    // It leaves no job open in a store that writes, and the history as it was.
    ensures kept { (before after : At) (round : Round) → IsClosed before.machine
        → IsFlushed before round after
        → IsClosed after.machine × (history_of after ≡ history_of before) }
{}

/// What a compaction makes of the store.
pub fn compactions_have_their_causes()
    // The calls of a round make of the store what a compaction does.
    ensures by_calls { (calls : List Call) (round : Round) (before after : At)
        → IsCompactRound calls round
        → CallsLead before calls after → IsRound BeginCompact before round after }
    // Refused, it has the cause that its reply names.
    ensures refused { (told : Bool) (before after : At) (why : Cause) → IsClosed before.machine
        → IsCompacted told before (IsRefused why) after → HasCompactCause told why before after }
    // Where no two blocks of one level below 63 fit together, in a store that writes, that is just the answer.
    ensures none_fit { (told : Bool) (before after : At) (round : Round)
        → before.machine.read_only ≡ None
        → IsClosed before.machine → length (choice before.machine.state.blocks) ≡ 0
        → IsCompacted told before round after → round ≡ Nothing }
    // And where that is the answer, no two fitted, and the store is as it was.
    ensures nothing { (told : Bool) (before after : At) → IsCompacted told before Nothing after
        → (length (choice before.machine.state.blocks) ≡ 0) × IsStill before after }
    // It joins the blocks that the store chooses, and the reply says how many these are. The new block stands in their
    // place, and where what the blocks hold is known the reply says how many first occurrences their rows have.
    ensures joined { (told : Bool) (before after : At) (blocks rows : ℕ)
        → IsCompacted told before (Did blocks rows) after
        → HasJoined told before.machine blocks rows after.machine }
    // Without faults, in a store that writes, has file numbers left and tells what its blocks hold, it is done, or there
    // was no memory for it.
    ensures well { (before after : At) (round : Round) → (Rose before.faults after.faults → ⊥)
        → before.machine.read_only ≡ None → IsClosed before.machine
        → before.machine.state.next_file < 4294967294
        → IsCompacted true before round after → IsDoneOrStarved round }
    // It leaves no job open in a store that writes, and the history as it was.
    ensures kept { (told : Bool) (before after : At) (round : Round) → IsClosed before.machine
        → IsCompacted told before round after
        → IsClosed after.machine × (history_of after ≡ history_of before) }
{}

/// Compactions one after another that each join blocks come to an end.
pub fn compactions_come_to_an_end()
    // There are fewer than numbers of files. So an ingest comes to a compaction that joins none.
    ensures bounded { (told : Bool) (items : List Item) (replies : List Reply) (first last : At)
        → AreJoined items replies
        → Session told first items replies last → length items < 4294967295 }
    // Each leaves fewer blocks.
    ensures fewer { (told : Bool) (items : List Item) (replies : List Reply) (first last : At)
        → AreJoined items replies
        → Session told first items replies last
        → length items + length last.machine.state.blocks ≤ length first.machine.state.blocks }
{}

/// What the emptying of loose files makes of the store.
pub fn reclaims_have_their_causes()
    // Refused, it has the cause that its reply names.
    ensures refused { (told : Bool) (before after : At) (why : Refusal)
        → IsAnswered told (Ok Reclaim) before (Refused why) after → HasWriteCause why before after }
    // Else the store writes, and the reply says how many loose files no pin named: these are loose no more.
    ensures emptied { (told : Bool) (before after : At) (files : ℕ)
        → IsAnswered told (Ok Reclaim) before (Reclaimed files) after
        → HasEmptied before.machine files after.machine }
{}

/// What upkeep leaves on a disk that shows its bytes.
pub fn upkeep_stands_on_the_disk<D: Device>(old: &Core<D>, new: &Core<D>)
    // While a core writes, whatever a crash may leave lists the state for which the core stands.
    ensures listed { (m : Machine) → CoreStandsFor D.Device.own old.now m
        → IsTrue (D.tells old.now.disk)
        → m.read_only ≡ None → (image : Image) → D.may_leave old.now.disk image
        → ListsState image m.state }
    // Where all that a crash could leave was tidy, it is so at each moment of the calls that are made on it.
    ensures tidy { (calls : List Call) → AreMade (port_of D.Device.own) old.now calls new.now
        → (m : Machine)
        → CoreStandsFor D.Device.own old.now m → IsTrue (D.tells old.now.disk)
        → AreTidy (D.may_leave old.now.disk)
        → LeavesOnly D.moment D.left_since old.now.disk new.now.disk IsTidy }
{}

/// What the upkeep of a run left is there as the next one begins.
pub fn the_next_run_begins_as_listed<D: Device>(begun: &D, left: &D, disk: &D, later: &D)
    // A store that is opened on an image that lists a state begins with its blocks, segments and floor. It gives out no
    // later file than that state would, each row that waited is live, and no live row has a key that the state hadn't.
    ensures begins { (image : Image) (u : State) (moment : ℕ) (m : Machine) → ListsState image u
        → BeginsAs image moment m → BeginsListed image u moment m.state }
    // So does the next run on what an earlier one left that wrote to its end.
    ensures next_run { (one next : Outcome) → Recovers D.Device.own begun.now left.now one
        → Recovers D.Device.own disk.now later.now next → IsTrue one.opened → IsTrue next.opened
        → one.last.is_listed ≡ true → one.last.store.machine.read_only ≡ None
        → D.may_leave left.now (D.held disk.now)
        → BeginsListed (D.held disk.now) one.last.store.machine.state next.moment
        next.first.machine.state }
    // In a tidy image that lists a state a file that was given out is empty, or it is one of the state's.
    ensures in_use { (image : Image) (u : State) (file : ℕ) → ListsState image u → IsTidy image
        → 2 ≤ file
        → file < u.next_file → (bytes_of image file ≡ []) ⊎ (1 ≤ uses file u) }
{}
