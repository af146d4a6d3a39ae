//! The headline, and theorems that go with it: what a run's replies and its disk tell, by histories alone.
//!
//! Each contract is the statement, and its proof stands in `proofs/laws/`. No program runs these functions, and no
//! crate is above this one: they are there to be read. Their bodies are empty, but for two that call a theorem of
//! `session_meaning` to have its contract. The parameters name disks and cores, before and after.

ghost use Rattle.std.specs.Prelude.{Bool, IsTrue, true, false, ◌≡◌, ◌⊎◌, ◌<◌, ◌≤◌, ◌+◌, ◌++◌, List, [], ◌∷◌, Option, Some, Ok, length, ℕ};
ghost use Rattle.std.specs.List.{Contains};
ghost use Rattle.command_words.specs.Commands.{Command, Spells};
ghost use Rattle.disk_model.specs.Images.{Image};
ghost use Rattle.io_edges.specs.Devices.{AppendsPrefix};
ghost use Rattle.otlp_spans.specs.declared.read.Reading.{Reading};
ghost use Rattle.session_text.specs.declared.refusal.Refusal.{Refusal};
ghost use Rattle.session_text.specs.declared.reply.Reply.{Reply};
ghost use Rattle.session_text.specs.declared.reply.Reply.TheVariants.{Pushed, Refused};
ghost use Rattle.session_text.specs.declared.request.Request.{Request};
ghost use Rattle.session_text.specs.declared.request.Request.TheVariants.{Push};
ghost use Rattle.session_text.specs.Items.{Item};
ghost use Rattle.store_core.specs.Port.{port_of};
ghost use Rattle.store_images.specs.Stored.{ImageStandsFor, MayStandFor};
ghost use Rattle.store_entries.specs.declared.entry.Entry.{Entry};
ghost use Rattle.store_model.specs.History.{History, count_of, grown, with_entry};
ghost use Rattle.store_reopen.specs.Through.{StoodAmid};
ghost use Rattle.client_run.specs.Answers.{HasReplied};
ghost use Rattle.session_meaning.specs.Act.{Act};
ghost use Rattle.session_meaning.specs.At.{At, history_of};
ghost use Rattle.session_meaning.specs.Done.{AreDone};
ghost use Rattle.session_meaning.specs.Place.{Place, ever_unsure};
ghost use Rattle.session_meaning.specs.Kept.{Kept, begun_with, kept_after_all, kept_at, were_unsure};
ghost use Rattle.session_meaning.specs.Progress.{AreAnsweredOver};
ghost use Rattle.session_meaning.specs.Pushes.{accepted_entries, accepted_entry, known_pushes};
ghost use Rattle.session_meaning.specs.Runs.{Edges, IsRunOf, Outcome, TellsAll, text_written};
ghost use Rattle.session_meaning.specs.ServedReplies.{AllTellFronts, HasTheirPushes};
ghost use Rattle.session_meaning.specs.ServedRuns.{RecoversServed, Served, ServesAs, last_place};
ghost use Rattle.session_meaning.specs.Session.{Session};
ghost use Rattle.session_meaning.specs.Stops.{Recovers};
ghost use Rattle.headline.specs.Amid.{AllMayStandFor, GoesOnFrom, IsAmid, LiesAmid, StandsAsOneOf};
ghost use Rattle.headline.specs.Headline.{KeepsTheHistory, TellTheHistory, TellsFront};
ghost use Rattle.headline.specs.Requests.{HasHistory, KeepsFrom};
ghost use Rattle.headline.specs.Stopped.{AreToldReadOnly, StopsWriting};

use disk_model::Device;
use session_meaning::{clients_make_the_history, pushes_have_their_causes, what_was_seen_counts};
use store_core::Core;

/// The headline. Every answer of a run is TraceQL's meaning over the first occurrences of the spans in one front of
/// the history of pushes. That front has each push that was acknowledged before. Whatever a crash leaves of the disk
/// afterwards stands for that history to its end, and it may be for one push more that was answered `disk-fault`. `trace_shell::run` ensures the premises; `true` says that the disk
/// shows its bytes.
pub fn the_headline<D: Device>(disk: &D, later: &D)
    ensures answers { (words : List (List ℕ)) (o : Outcome) (old new : Edges)
        → IsRunOf true words o old new
        → TellTheHistory (begun_with (history_of o.first)) o.acts o.replies (kept_at o.last) }
    // And the disk keeps the history that they tell, from one on for which its bytes stood.
    ensures stored { (words : List (List ℕ)) (o : Outcome) (old new : Edges)
        → IsRunOf true words o old new
        → Recovers D.Device.own disk.now later.now o → IsTrue o.opened
        → (first : History) × (last : Kept) × ImageStandsFor (D.held disk.now) first
        × KeepsTheHistory D.Device.own disk.now later.now o.acts o.replies first last }
    // Where all that a crash could leave at first stood for the first history, all that one left at any moment stands
    // for it with the first few accepted pushes, and it may be with one more that was answered `disk-fault`.
    ensures at_any_moment { (acts : List Act) (replies : List Reply) (first : History) (last : Kept)
        → KeepsTheHistory D.Device.own disk.now later.now acts replies first last
        → ((image : Image) → D.may_leave disk.now image → ImageStandsFor image first)
        → (image : Image) → D.left_since later.now (D.moment disk.now) image
        → StoodAmid (count_of first) last.history (were_unsure last) image }
    // The same where an earlier run had ended with a push that was answered `disk-fault`, and all that a crash could
    // leave at first stood for the history that it kept, or for that and then this push: so does what is left later, or
    // it stands for the run's own history as above.
    ensures at_any_moment_after_a_fault { (acts : List Act) (replies : List Reply)
        (first : History) (last : Kept)
        → KeepsTheHistory D.Device.own disk.now later.now acts replies first last
        → (before : History) (unsure : Option Entry)
        → AllMayStandFor before unsure (D.may_leave disk.now)
        → (image : Image) → D.left_since later.now (D.moment disk.now) image
        → LiesAmid before unsure (count_of first) last.history (were_unsure last) image }
    // A run that doesn't open its store adds and loses nothing: whatever a crash left at any moment of it stands for just
    // the histories for which some image stood that one could leave at first.
    ensures before_it_opens { (o : Outcome)
        → Recovers D.Device.own disk.now later.now o → o.opened ≡ false
        → (image : Image) → D.left_since later.now (D.moment disk.now) image
        → StandsAsOneOf (D.may_leave disk.now) image }
{}

/// The headline of several clients that were answered at once. Each answer is TraceQL's meaning over one front of the
/// last history. The front reaches over all that was stored at first, over the number of each push that its client had
/// seen acknowledged, and over all that its client's earlier answers told of. That history is what was stored at first
/// and then the accepted pushes of all clients, each client's in its order. Whatever a crash leaves of the disk
/// afterwards stands for that history to its end, and it may be for one push more that was answered `disk-fault`.
pub fn the_headline_of_clients<D: Device>(disk: &D, later: &D)
    ensures answers { (words : List (List ℕ)) (s : Served) (old new : Edges)
        → ServesAs true words s old new
        → AllTellFronts (history_of s.last) (count_of (history_of s.first)) s.scripts s.answers }
    // Whatever disk it is: which pushes the last history has, and which numbers they are told.
    ensures pushes { (told : Bool) (words : List (List ℕ)) (s : Served) (old new : Edges)
        → ServesAs told words s old new
        → HasTheirPushes (history_of s.first) (history_of s.last) s.scripts s.answers s.entries }
    ensures stored { (s : Served) → RecoversServed D.Device.own disk.now later.now s
        → ImageStandsFor (D.held disk.now) (history_of s.first)
        × ((image : Image) → D.may_leave later.now image
        → MayStandFor (history_of s.last) (last_place s).unsure image) }
    // Where all that a crash could leave at first stood for the first history, all that one left at any moment stands
    // for it with the first few accepted pushes, and it may be with the one that was first answered `disk-fault`.
    ensures at_any_moment { (told : Bool) (words : List (List ℕ)) (s : Served) (old new : Edges)
        → ServesAs told words s old new → RecoversServed D.Device.own disk.now later.now s
        → ((image : Image) → D.may_leave disk.now image
        → ImageStandsFor image (history_of s.first))
        → (image : Image) → D.left_since later.now (D.moment disk.now) image
        → StoodAmid (count_of (history_of s.first)) (history_of s.last)
        (ever_unsure (last_place s)) image }
    // The same where an earlier run had ended with a push that was answered `disk-fault`, and all that a crash could
    // leave at first stood for the history that it kept, or for that and then this push.
    ensures at_any_moment_after_a_fault { (s : Served)
        → RecoversServed D.Device.own disk.now later.now s
        → (before : History) (unsure : Option Entry)
        → AllMayStandFor before unsure (D.may_leave disk.now)
        → (image : Image) → D.left_since later.now (D.moment disk.now) image
        → LiesAmid before unsure (count_of (history_of s.first)) (history_of s.last)
        (ever_unsure (last_place s)) image }
{
    what_was_seen_counts();
    clients_make_the_history();
}

/// Whatever history the disk's bytes stood for, the run goes on from it: it matters to no reply and to no later image
/// which of them is meant.
pub fn each_stored_history_goes_on<D: Device>(disk: &D, later: &D)
    ensures { (words : List (List ℕ)) (o : Outcome) (old new : Edges) → IsRunOf true words o old new
        → Recovers D.Device.own disk.now later.now o → IsTrue o.opened
        → (first : History) → ImageStandsFor (D.held disk.now) first
        → KeepsTheHistory D.Device.own disk.now later.now o.acts o.replies
        first (kept_after_all (begun_with first) o.acts o.replies) }
{}

/// A run on what an earlier one left goes on with the history that the earlier one kept.
pub fn the_next_run_goes_on<D: Device>(begun: &D, left: &D, disk: &D, later: &D)
    // After it ended: with all of that history, with or without the push that wasn't sure.
    ensures after_its_end { (acts : List Act) (replies : List Reply) (first : History) (last : Kept)
        → KeepsTheHistory D.Device.own begun.now left.now acts replies first last
        → (words : List (List ℕ)) (o : Outcome) (old new : Edges) → IsRunOf true words o old new
        → Recovers D.Device.own disk.now later.now o → IsTrue o.opened
        → D.may_leave left.now (D.held disk.now)
        → (start : History) ×
        ((start ≡ last.history) ⊎ (start ≡ with_entry last.unsure last.history))
        × KeepsTheHistory D.Device.own disk.now later.now o.acts o.replies
        start (kept_after_all (begun_with start) o.acts o.replies) }
    // After a crash at any moment of it: with a front of that history which has all that was stored before it, and it
    // may be a push that was answered `disk-fault` at that front. It is supposed that all that a crash could leave as it
    // began stood for the same history.
    ensures after_a_crash { (acts : List Act) (replies : List Reply) (first : History) (last : Kept)
        → KeepsTheHistory D.Device.own begun.now left.now acts replies first last
        → (words : List (List ℕ)) (o : Outcome) (old new : Edges) → IsRunOf true words o old new
        → Recovers D.Device.own disk.now later.now o → IsTrue o.opened
        → ((image : Image) → D.may_leave begun.now image → ImageStandsFor image first)
        → D.left_since left.now (D.moment begun.now) (D.held disk.now)
        → (start : History) × IsAmid (count_of first) last start
        × KeepsTheHistory D.Device.own disk.now later.now o.acts o.replies
        start (kept_after_all (begun_with start) o.acts o.replies) }
    // The same where a run before that one had ended with a push that was answered `disk-fault`: this run may also go on
    // with the history that was kept then, with or without that push.
    ensures after_a_fault_and_a_crash { (acts : List Act) (replies : List Reply)
        (first : History) (last : Kept)
        → KeepsTheHistory D.Device.own begun.now left.now acts replies first last
        → (words : List (List ℕ)) (o : Outcome) (old new : Edges) → IsRunOf true words o old new
        → Recovers D.Device.own disk.now later.now o → IsTrue o.opened
        → (before : History) (unsure : Option Entry)
        → AllMayStandFor before unsure (D.may_leave begun.now)
        → D.left_since left.now (D.moment begun.now) (D.held disk.now)
        → (start : History) × GoesOnFrom before unsure (count_of first) last start
        × KeepsTheHistory D.Device.own disk.now later.now o.acts o.replies
        start (kept_after_all (begun_with start) o.acts o.replies) }
{}

/// What is written in a store that was opened is the text of these replies, or a first part of it; of a drill, the line
/// that counts its replies and the text of the last three.
pub fn replies_are_written()
    ensures { (told : Bool) (words : List (List ℕ)) (c : Command) (o : Outcome) (old new : Edges)
        → Spells words c
        → IsRunOf told words o old new → TellsAll c old → IsTrue o.opened
        → AppendsPrefix old.taken new.taken (text_written c o.replies) }
{}

/// Where replies tell a history, each tells one front of the last one: with each push that was accepted before, or that
/// an opening before it found, and no other.
pub fn each_answer_is_of_a_front()
    ensures { (first last : Kept) (before after : List Act) (act : Act)
        (earlier later : List Reply)
        → (reply : Reply)
        → length before ≡ length earlier
        → TellTheHistory first (before ++ act ∷ after) (earlier ++ reply ∷ later) last
        → TellsFront first last before earlier act reply }
{}

/// The counts of pushes that a session tells never fall.
pub fn counts_grow()
    // `as_of` never falls.
    ensures as_of { (told : Bool) (items : List Item) (earlier later : List Reply)
        (one other : Reply)
        → (first last : At) (count further : ℕ)
        → Session told first items (earlier ++ one ∷ later) last → Contains later other
        → known_pushes one ≡ Some count → known_pushes other ≡ Some further → count ≤ further }
    // An acknowledged push is counted by each later answer.
    ensures acknowledged { (told : Bool) (items : List Item) (earlier later : List Reply)
        (other : Reply)
        → (first last : At) (number accepted rejected skipped further : ℕ)
        → Session told first items (earlier ++ Pushed number accepted rejected skipped ∷ later) last
        → Contains later other → known_pushes other ≡ Some further → number < further }
    // So it is over openings, where what the disk holds is told.
    ensures over_openings { (acts : List Act) (earlier later : List Reply) (one other : Reply)
        (first last : Place) (count further : ℕ)
        → AreDone true first acts (earlier ++ one ∷ later) last → Contains later other
        → known_pushes one ≡ Some count → known_pushes other ≡ Some further → count ≤ further }
    ensures still_known { (acts : List Act) (earlier later : List Reply) (other : Reply)
        (first last : Place) (number accepted rejected skipped further : ℕ)
        → AreDone true first acts (earlier ++ Pushed number accepted rejected skipped ∷ later) last
        → Contains later other → known_pushes other ≡ Some further → number < further }
    // Accepted pushes are numbered one after another, from one opening to the next.
    ensures numbered { (told : Bool) (items : List Item) (earlier later : List Reply)
        (first last : At)
        → (number accepted rejected skipped : ℕ)
        → Session told first items (earlier ++ Pushed number accepted rejected skipped ∷ later) last
        → number ≡ count_of (history_of first) + length (accepted_entries items earlier) }
{}

/// A store that writes no more stays so until it is opened again, and accepts no push.
pub fn read_only_stays()
    ensures stays { (told : Bool) (items : List Item) (replies : List Reply) (first last : At)
        (faults : ℕ)
        → Session told first items replies last → first.machine.read_only ≡ Some faults
        → (last.machine.read_only ≡ Some faults) × AreToldReadOnly faults items replies }
    // So it is after a push that is refused as `read-only` or `disk-fault`.
    ensures from_a_push { (told : Bool) (before after : List Item) (reading : Reading) (moment : ℕ)
        → (earlier later : List Reply) (why : Refusal) (first last : At)
        → length before ≡ length earlier
        → Session told first (before ++ Ok (Push reading moment) ∷ after)
        (earlier ++ Refused why ∷ later) last
        → StopsWriting why
        → (faults : ℕ) × (last.machine.read_only ≡ Some faults)
        × AreToldReadOnly faults after later }
    // And where lines are told so no push is accepted.
    ensures accepts_none { (faults : ℕ) (items : List Item) (replies : List Reply)
        → AreToldReadOnly faults items replies → accepted_entries items replies ≡ [] }
{
    pushes_have_their_causes();
}

/// A core keeps what was stored before a request, at every moment of it, and what the request is told to be accepted.
pub fn a_request_keeps_what_is_stored<D: Device>(old: &Core<D>, new: &Core<D>)
    ensures of_a_request { (h : History) (asked : Request) (reply : Reply)
        → HasHistory D.Device.own old.now h
        → IsTrue (D.tells old.now.disk)
        → HasReplied (port_of D.Device.own) old.now asked reply new.now
        → KeepsFrom D.Device.own old.now new.now h (grown h (accepted_entry (Ok asked) reply)) }
    // The same of lines, one after another. So whatever a crash left since some line was answered has all that was
    // accepted by then.
    ensures of_lines { (h : History) (items : List Item) (replies : List Reply)
        → HasHistory D.Device.own old.now h
        → IsTrue (D.tells old.now.disk)
        → AreAnsweredOver (port_of D.Device.own) old.now items replies new.now
        → KeepsFrom D.Device.own old.now new.now h (grown h (accepted_entries items replies)) }
{}
