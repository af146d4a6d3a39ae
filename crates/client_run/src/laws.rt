//! Theorems about the calls that are made on a core: they are steps of the machine that it stands for.
//!
//! Each function has an empty body: its contract is the statement, and its proof stands in `proofs/laws/`. `own_files`
//! calls the last to have its contract, and nothing calls the others; proofs of `session_meaning` and `trace_shell`
//! cite the lemmas of the first. The parameters name the core, before and after the calls.

ghost use Rattle.std.specs.Prelude.{◌≡◌, List, [], ℕ};
ghost use Rattle.store_model.specs.Step.{Machine};
ghost use Rattle.store_core.specs.Cores.{CoreShows, CoreStandsFor, unsure_of};
ghost use Rattle.store_core.specs.Past.{StandsSince};
ghost use Rattle.store_core.specs.Port.{port_of};
ghost use Rattle.store_state.specs.Made.{AreMade, Call};
ghost use Rattle.client_run.specs.Calls.{after_calls};
ghost use Rattle.client_run.specs.CoreRuns.{HasStepped, HaveOwnPins, unsure_after_calls};
ghost use Rattle.client_run.specs.OwnFiles.{HaveOwnFiles};

use disk_model::Device;
use store_core::Core;

/// Calls that were made on a core are legal from each machine that it stood for, and the core then stands for the
/// machine that they leave; and so of the machines that its memory shows, whatever its disk holds.
pub fn calls_are_steps<D: Device>(old: &Core<D>, new: &Core<D>)
    ensures stands { (calls : List Call) → AreMade (port_of D.Device.own) old.now calls new.now
        → (m : Machine)
        → CoreStandsFor D.Device.own old.now m
        → HasStepped D.Device.own (CoreStandsFor D.Device.own) old.now calls new.now m }
    ensures shown { (calls : List Call) → AreMade (port_of D.Device.own) old.now calls new.now
        → (m : Machine)
        → CoreShows D.Device.own old.now m
        → HasStepped D.Device.own (CoreShows D.Device.own) old.now calls new.now m }
    // What was left since an earlier disk goes on standing for the history at some length.
    ensures since { (calls : List Call) → AreMade (port_of D.Device.own) old.now calls new.now
        → (m : Machine)
        → (start : D) (least : ℕ) → StandsSince D.Device.own start least old.now m
        → HasStepped D.Device.own (StandsSince D.Device.own start least) old.now calls new.now m }
    ensures unsure { (calls : List Call) → AreMade (port_of D.Device.own) old.now calls new.now
        → (m : Machine)
        → CoreStandsFor D.Device.own old.now m
        → unsure_of new.now.state ≡ unsure_after_calls calls (unsure_of old.now.state) }
{}

/// On a core whose memory shows a machine no two looks that are open share a pin. So giving one back ends no other.
pub fn looks_have_their_own_pins<D: Device>(old: &Core<D>, new: &Core<D>)
    ensures { (calls : List Call) → AreMade (port_of D.Device.own) old.now calls new.now
        → (m : Machine)
        → CoreShows D.Device.own old.now m → HaveOwnPins (after_calls calls []) }
{}

/// The jobs that are open in a core have files of their own, whatever its disk holds.
pub fn jobs_of_a_core_have_own_files<D: Device>(core: &Core<D>)
    ensures { HaveOwnFiles (port_of D.Device.own) core.now }
{}
