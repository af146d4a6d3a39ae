//! Theorems about several clients that were answered at once (`Ran`) over a disk whose calls may fail: how often that is
//! told, from when on the store writes no more, and what is done nevertheless.
//!
//! Each function has an empty body: its contract is the statement, and its proof stands in `proofs/serving_faults/`.

ghost use Rattle.std.specs.Prelude.{Bool, true, false, ◌≡◌, ◌⊎◌, [], ◌∷◌, List, None, Ok, Some, ℕ};
ghost use Rattle.std.specs.List.{list_any};
ghost use Rattle.client_scripts.specs.declared.script.Answered.{Answered};
ghost use Rattle.disk_model.specs.Counts.{RoseBy};
ghost use Rattle.port_history.specs.Entries.{Entry, call_of};
ghost use Rattle.session_text.specs.declared.refusal.Refusal.{Refusal};
ghost use Rattle.session_text.specs.declared.reply.Reply.{Reply};
ghost use Rattle.session_text.specs.declared.reply.Reply.TheVariants.{Refused};
ghost use Rattle.session_text.specs.declared.request.Request.{Request};
ghost use Rattle.session_text.specs.Items.{Item};
ghost use Rattle.store_model.specs.Event.Refusal.{ReadOnly};
ghost use Rattle.store_model.specs.Event.Reply.{Refused as IsRefused};
ghost use Rattle.store_state.specs.Made.{Call};
ghost use Rattle.session_meaning.specs.Answering.{IsItemAnswered};
ghost use Rattle.session_meaning.specs.At.{At};
ghost use Rattle.session_meaning.specs.Causes.{blames_disk, disk_faults};
ghost use Rattle.session_meaning.specs.Pushes.{HasRoomNow, NeedsNoWrite};
ghost use Rattle.session_meaning.specs.Runs.{Edges};
ghost use Rattle.session_meaning.specs.ServedFaults.{AtItsCalls, HasBroken, FindsRoom, Succeeds, Writes, count_told};
ghost use Rattle.session_meaning.specs.ServedReplies.{CallPlace, TakesOneCall, WasReplied};
ghost use Rattle.session_meaning.specs.ServedRuns.{IsServedRun, Served, all_replies};
ghost use Rattle.session_meaning.specs.Serving.{EntriesLead, Ran};
ghost use Rattle.session_meaning.specs.Session.{is_refusal, is_refused};

/// As many replies to all clients are `disk-fault` as calls of the disk failed.
pub fn each_disk_fault_of_clients_is_counted()
    // No failed call goes untold, and no fault is told for which no call failed, if no line was refused so in reading.
    ensures of_clients { (told : Bool) (first last : At) (scripts : List (List Item))
        (answers : List Answered) (entries : List Entry)
        → Ran told first scripts answers entries last
        → list_any (list_any blames_disk) scripts ≡ false
        → RoseBy (disk_faults (all_replies answers)) first.faults last.faults }
    // No line is, so this holds of each run whose source tells its bytes.
    ensures of_runs { (told : Bool) (clients rounds : ℕ) (s : Served) (old new : Edges)
        (text : List ℕ)
        → IsServedRun told clients rounds s old new → old.left ≡ Some text
        → RoseBy (disk_faults (all_replies s.answers)) old.disk_faults new.disk_faults }
{}

/// From when on a store writes no more, along the calls of several clients, all of them or some in a row.
pub fn a_store_of_clients_stays_read_only()
    // Once it writes no more it stays so, with the count of faults that it tells.
    ensures stays { (told : Bool) (first last : At) (entries : List Entry) (faults : ℕ)
        → EntriesLead told first entries last → first.machine.read_only ≡ Some faults
        → last.machine.read_only ≡ Some faults }
    // If it wrote at first it writes still, or one of these calls failed as it wrote.
    ensures begins { (told : Bool) (first last : At) (entries : List Entry)
        → EntriesLead told first entries last → first.machine.read_only ≡ None
        → (last.machine.read_only ≡ None) ⊎ HasBroken told first entries last }
    // So a client is told `read-only` at one of its own calls, after a call that failed, whosever that was. It is told the
    // count after that call. No query and no cut is told that.
    ensures told { (told : Bool) (first last : At) (scripts : List (List Item))
        (answers : List Answered) (entries : List Entry) (client : ℕ) (asked : List Item)
        (got : List Reply) (request : Request) (why : Refusal) (faults : ℕ)
        → Ran told first scripts answers entries last → first.machine.read_only ≡ None
        → WasReplied scripts answers client asked got (Ok request) (Refused why)
        → count_told why ≡ Some faults
        → (front : List Call) × (place : CallPlace told first entries last client asked got front)
        × (place.entry.reply ≡ IsRefused (ReadOnly faults))
        × (broken : HasBroken told first place.earlier place.before)
        × (broken.entry.after ≡ faults) }
{}

/// What is asked among several clients is refused for no cause but memory if none of its own calls failed and there was
/// room for it at its first call, whatever calls of others failed.
pub fn what_does_not_fail_is_done_among_clients()
    // A push, a cut, and the emptying of loose files, in a store that writes just before that call.
    ensures one_call { (told : Bool) (first last : At) (scripts : List (List Item))
        (answers : List Answered) (entries : List Entry) (client : ℕ) (asked : List Item)
        (got : List Reply) (item : Item) (reply : Reply)
        → Ran told first scripts answers entries last
        → WasReplied scripts answers client asked got item reply → TakesOneCall item
        → (place : CallPlace told first entries last client asked got [])
        × IsItemAnswered item reply (call_of place.entry ∷ [])
        × (Succeeds place.before place.after → Writes place.before place.after
        → HasRoomNow item place.before.machine → is_refusal reply ≡ is_refused item) }
    // Each line that was in order, where what the blocks hold is told. No job of its kind was open at its first call, and
    // the store wrote at each of its calls; of a query and of a cut that isn't asked.
    ensures each { (first last : At) (scripts : List (List Item)) (answers : List Answered)
        (entries : List Entry) (client : ℕ) (asked : List Item) (got : List Reply) (item : Item)
        (reply : Reply) → Ran true first scripts answers entries last
        → WasReplied scripts answers client asked got item reply
        → FindsRoom true first entries last client asked got item
        → AtItsCalls true first entries last client asked got item reply Succeeds
        → NeedsNoWrite item ⊎ AtItsCalls true first entries last client asked got item reply Writes
        → is_refusal reply ≡ false }
{}
