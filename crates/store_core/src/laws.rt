//! Theorems: what a crash left at any moment since a core's opening, and how many entries an image has.
//!
//! Each function has an empty body, and nothing calls it: its contract is the statement, and its proof stands in `proofs/laws/`.

ghost use Rattle.disk_model.specs.Images.{Image};
ghost use Rattle.store_model.specs.History.{History, count_of};
ghost use Rattle.store_model.specs.Event.{Event, Reply};
ghost use Rattle.store_model.specs.Step.{Machine};
ghost use Rattle.store_core.specs.Cores.{CoreStandsFor};
ghost use Rattle.store_core.specs.Events.{Did};
ghost use Rattle.store_core.specs.Opening.{HasEntries};
ghost use Rattle.store_core.specs.Past.{StandsSince};
ghost use Rattle.store_images.specs.Stored.{ImageStandsFor};
ghost use Rattle.std.specs.Prelude.{◌≡◌, ℕ};

use crate::store::Core;
use disk_model::Device;

/// Whenever a crash came since a core was opened, the image that it left stands for the history at some length from that of the
/// opening on, or for it and then the batch whose push failed.
pub fn images_since_opening<D: Device>(old: &Core<D>, new: &Core<D>)
    // It is so as the core is opened.
    ensures begins { (m : Machine) → CoreStandsFor D.Device.own old.now m
        → StandsSince D.Device.own old.now.disk (count_of m.history) old.now m }
    // Each event keeps it.
    ensures goes_on { (e : Event) (r : Reply) (m : Machine) (start : D) (least : ℕ)
        → (did : Did D.Device.own old.now e r new.now)
        → (since : StandsSince D.Device.own start least old.now m)
        → StandsSince D.Device.own start least new.now (did.stepped m since.stands).machine }
{}

/// An image has one number of entries at most, and if it stands for a history it has that one's.
pub fn entries_of_an_image()
    ensures one { (image : Image) (n other : ℕ) → HasEntries image n → HasEntries image other
        → n ≡ other }
    ensures sound { (image : Image) (h : History) → ImageStandsFor image h
        → HasEntries image (count_of h) }
{}
