//! Theorems about the calls that scripts make.
//!
//! Each function has an empty body, and nothing calls it: its contract is the statement, and its proof stands in `proofs/laws/`.

ghost use Rattle.std.specs.Prelude.{List};
ghost use Rattle.session_text.specs.Items.{Item};
ghost use Rattle.store_model.specs.History.{count_of};
ghost use Rattle.store_model.specs.Step.{Machine};
ghost use Rattle.store_state.specs.Made.{AreMade, Call};
ghost use Rattle.store_core.specs.Cores.{CoreStandsFor};
ghost use Rattle.store_core.specs.Port.{port_of};
ghost use Rattle.port_history.specs.Entries.{Entry};
ghost use Rattle.shared_store.specs.Over.{AreCallsOf};
ghost use Rattle.client_scripts.specs.Numbers.{AreNumbered};
ghost use Rattle.client_scripts.specs.Scripts.{HasAnswered, IsScriptAnswered};
ghost use Rattle.client_scripts.specs.Served.{HasServed};
ghost use Rattle.client_scripts.specs.declared.script.Answered.{Answered};

use disk_model::Device;
use store_core::Core;
use store_state::Port;

/// A script that was answered over a port made just the calls by which its items are answered so, in order.
pub fn a_script_makes_just_its_calls<P: Port>(old: &P, new: &P)
    ensures { (items : List Item) (answered : Answered) → HasAnswered P.meaning old.now items answered new.now
        → (calls : List Call) × AreMade P.meaning old.now calls new.now × IsScriptAnswered items answered calls }
{}

/// The accepted pushes of all clients are numbered in the one order of all calls, from the length of the history on and without a gap, and
/// each client is told just the numbers of its own. It follows from what `run_scripts` says of its calls.
pub fn pushes_of_clients_are_numbered<D: Device>(old: &Core<D>, new: &Core<D>)
    ensures { (entries : List Entry) (scripts : List (List Item)) (answers : List Answered)
        → AreCallsOf D.Device.own old.now entries new.now
        → HasServed (port_of D.Device.own) old.now entries scripts answers new.now
        → (m : Machine) → CoreStandsFor D.Device.own old.now m
        → AreNumbered (count_of m.history) entries answers }
{}
