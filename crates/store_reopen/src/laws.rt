//! Theorems about stores that are opened again.
//!
//! Each function has an empty body: its contract is the statement, and its proof stands in `proofs/laws/`.

ghost use Rattle.std.specs.Prelude.{◌≡◌, ◌++◌, [], ℕ, List, Option, None, IsTrue};
ghost use Rattle.store_entries.specs.declared.entry.Entry.{Entry};
ghost use Rattle.store_model.specs.Event.{Event, Reply};
ghost use Rattle.store_model.specs.History.{History, count_of};
ghost use Rattle.store_model.specs.Step.{Machine};
ghost use Rattle.store_core.specs.Cores.{CoreStandsFor, unsure_of};
ghost use Rattle.store_core.specs.Events.{Did};
ghost use Rattle.store_core.specs.Opening.{Opened};
ghost use Rattle.store_files.specs.Loose.{KeepsDisk};
ghost use Rattle.store_reopen.specs.Through.{GoesOn, Keeps, KeepsThrough, Pending, pending_now};

use disk_model::Device;
use store_core::Core;

/// An open store keeps the history for which it stands, whatever a crash leaves.
pub fn an_open_store_keeps_its_history<D: Device>(core: &Core<D>)
    ensures keeps { (m : Machine) → CoreStandsFor D.Device.own core.now m
        → Keeps D.Device.own core.now.disk m.history (unsure_of core.now.state) }
    // It has done so since it was opened.
    ensures begins { (m : Machine) → CoreStandsFor D.Device.own core.now m
        → KeepsThrough D.Device.own
        core.now.disk (count_of m.history) [] core.now.disk m.history (unsure_of core.now.state) }
{}

/// A disk that kept a history is opened with it, or with it and then the entry that wasn't sure.
pub fn a_reopened_store_goes_on<D: Device>(disk: &D, core: &Core<D>)
    ensures { (h : History) (unsure : Option Entry) (moment : ℕ) → IsTrue (D.tells disk.now)
        → Keeps D.Device.own disk.now h unsure → Opened D.Device.own disk.now moment core.now
        → GoesOn D.Device.own disk.now moment core.now h unsure }
{}

/// Whenever a crash comes, what is left stands for the history at some length, or for it at the length at which a call for an
/// entry answered a fault, and that entry: over events, over an opening that is refused, and over one that isn't.
pub fn a_history_goes_on<D: Device>(old: &Core<D>, new: &Core<D>, disk: &D, later: &D)
    ensures event { (e : Event) (r : Reply) (m : Machine) (start : D) (least : ℕ)
        (pending : List Pending)
        → (did : Did D.Device.own old.now e r new.now)
        → (stands : CoreStandsFor D.Device.own old.now m)
        → KeepsThrough D.Device.own start least pending old.now.disk m.history
        (unsure_of old.now.state)
        → KeepsThrough D.Device.own start least pending new.now.disk
        (did.stepped m stands).machine.history (unsure_of new.now.state) }
    ensures closed { (h : History) (unsure : Option Entry) (start : D) (least : ℕ)
        (pending : List Pending)
        → KeepsThrough D.Device.own start least pending disk.now h unsure
        → D.tells later.now ≡ D.tells disk.now
        → KeepsDisk D.Device.own disk.now later.now
        → KeepsThrough D.Device.own start least pending later.now h unsure }
    ensures opened { (h : History) (unsure : Option Entry) (start : D) (least moment : ℕ)
        (pending : List Pending)
        → KeepsThrough D.Device.own start least pending disk.now h unsure
        → D.tells new.now.disk ≡ D.tells disk.now → KeepsDisk D.Device.own disk.now new.now.disk
        → (on : GoesOn D.Device.own disk.now moment new.now h unsure)
        → KeepsThrough D.Device.own start least
        (pending ++ pending_now h unsure) new.now.disk on.machine.history None }
{}
