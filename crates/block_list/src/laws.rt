//! Theorems about the slots and the lists: what slots hold is read, and when a further list may be written.
//!
//! Each function has an empty body: its contract is the statement, and its proof stands in `proofs/laws/`. Nothing
//! calls them; proofs of `store_core` and `store_images` cite the lemmas. `_disk` is there to name the type `D`.

ghost use Rattle.std.specs.Prelude.{◌≡◌, ◌≤◌, ◌+◌, ◌*◌, ℕ, Option, Some, List, Ok, length};
ghost use Rattle.disk_model.specs.Images.{Besides, SameBytes};
ghost use Rattle.disk_model.specs.Crash.{Follows, Within};
ghost use Rattle.block_list.specs.Body.{MeetsRules, text_of};
ghost use Rattle.block_list.specs.Slots.{SlotsHold, IsNext};
ghost use Rattle.block_list.specs.ListText.{ListText};
ghost use Rattle.block_list.specs.Commit.{CanLay};
ghost use Rattle.block_list.specs.Loading.{IsReady};
ghost use Rattle.block_list.specs.Reading.{slots_at};
ghost use Rattle.block_list.specs.declared.body.ListBody.{ListBody};

use disk_model::Device;

/// After a load or a commit every list with the next generation may be laid.
pub fn next_may_be_laid<D: Device>(disk: &D)
    ensures { (list : Option ListBody) (next : ListText)
        → IsReady (D.held disk.now) (D.may_leave disk.now) list → IsNext next.generation list
        → CanLay (D.held disk.now) (D.may_leave disk.now) next }
{}

/// The slots stay ready over a change of a file that is no slot, and over calls that change nothing.
pub fn stays_ready<D: Device>(_disk: &D)
    ensures change { (old new : D) (file : ℕ) (list : Option ListBody) → 2 ≤ file
        → Besides file (D.held old) (D.held new)
        → Follows (Besides file) (D.may_leave old) (D.may_leave new)
        → IsReady (D.held old) (D.may_leave old) list
        → IsReady (D.held new) (D.may_leave new) list }
    ensures quiet { (old new : D) (list : Option ListBody)
        → SameBytes (D.held old) (D.held new) → Within (D.may_leave old) (D.may_leave new)
        → IsReady (D.held old) (D.may_leave old) list
        → IsReady (D.held new) (D.may_leave new) list }
{}

/// What two slots hold is what reading gives, so they hold one list; and that list meets the rules.
pub fn held_list_is_read()
    ensures read { (first second : List ℕ) (list : Option ListBody) → SlotsHold 0 first second list
        → slots_at first second ≡ Ok list }
    ensures one { (first second : List ℕ) (list other : Option ListBody)
        → SlotsHold 0 first second list
        → SlotsHold 0 first second other → list ≡ other }
    ensures rules { (first second : List ℕ) (body : ListBody) → SlotsHold 0 first second (Some body)
        → MeetsRules body }
{}

/// How many bytes a list takes after the gate.
pub fn size_of_text()
    ensures { (body : ListBody) → length (text_of body)
        ≡ 29 + 12 * length body.segments + 9 * length body.blocks + 4 * length body.loose }
{}
