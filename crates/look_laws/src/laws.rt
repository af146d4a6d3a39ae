//! Theorems about looks and the calls around them: a look tells the history at the look.
//!
//! Each function has an empty body: its contract is the statement, and its proof stands in `proofs/laws/`. Nothing
//! calls them and no proof cites them: they are there to be read. The parameters name the port or the core, before and
//! after the calls.

ghost use Rattle.std.specs.Prelude.{◌≡◌, ◌++◌, ◌∷◌, [], List, IsTrue};
ghost use Rattle.std.specs.List.{AllByRecursion};
ghost use Rattle.store_model.specs.Event.{LookParts};
ghost use Rattle.store_model.specs.Holds.{Hold};
ghost use Rattle.store_model.specs.Step.{Machine};
ghost use Rattle.store_state.specs.Made.{AreMade, Call};
ghost use Rattle.store_state.specs.Meaning.{View};
ghost use Rattle.store_core.specs.Cores.{CoreStandsFor};
ghost use Rattle.store_core.specs.Port.{port_of};
ghost use Rattle.client_run.specs.EventRuns.{AreEventsAnswered, HasRun, Stages, no_step};
ghost use Rattle.client_run.specs.declared.event.Event.{Event};
ghost use Rattle.client_run.specs.declared.event.EventReply.{EventReply};
ghost use Rattle.look_laws.specs.LookRuns.{AreOwnPieces, IsKept, KeepsLook, LeavesLook, TellsExactly, taking};

use disk_model::Device;
use store_core::Core;
use store_state::LookPort;

/// Calls were made on a port that shows its bytes, and one of them gave a look. As long as the calls after it neither
/// give the look back nor write to the files of its blocks, each page that they read of these files is that of the
/// file as it was at the look. With the rows of its blocks the look has the first occurrences of the history that was
/// known then: the earlier one, with what the calls until then added, and others among them.
pub fn a_look_among_calls_is_kept<P: LookPort>(old: &P, new: &P)
    ensures { (before between after : List Call) (look : LookParts) (v : View) (held : List Hold)
        → AreMade P.meaning old.now (before ++ taking look ∷ (between ++ after)) new.now
        → P.meaning.knows old.now v
        → P.meaning.holds old.now held → IsTrue (P.meaning.tells old.now)
        → AllByRecursion (LeavesLook look) between
        → IsKept P.meaning v.history old.now before look between after new.now }
{}

/// The same of a core. The history at the look is just the one before, with what the calls until then added. And it is
/// enough that the look isn't given back, and that each piece goes to the file of a job that is open then, as
/// `write_piece` asks: whatever pushes, cuts, flushes, compactions and emptyings of files come in between.
pub fn a_look_among_events_tells_its_history<D: Device>(old: &Core<D>, new: &Core<D>)
    ensures { (before between after : List Call) (look : LookParts) (m : Machine) (held : List Hold)
        → AreMade (port_of D.Device.own) old.now
        (before ++ taking look ∷ (between ++ after)) new.now
        → CoreStandsFor D.Device.own old.now m → (port_of D.Device.own).holds old.now held
        → IsTrue (D.tells old.now.disk) → AllByRecursion (KeepsLook look) between
        → AreOwnPieces held (before ++ taking look ∷ (between ++ after))
        → TellsExactly (port_of D.Device.own) m.history old.now before look between after new.now }
{}

/// A list of events writes each piece to the file of a job that is open then, whatever is open before it.
pub fn events_write_own_pieces()
    ensures { (events : List Event) (replies : List EventReply) (calls : List Call) (last : Stages)
        (held : List Hold)
        → AreEventsAnswered [] no_step events replies calls last → AreOwnPieces held calls }
{}

/// So of a list of events that was run on a core: a look that is taken among the calls that they make tells the
/// history at the look, and each page that is read of its blocks before it is given back is that of the file as it was
/// then.
pub fn a_look_of_a_run_tells_its_history<D: Device>(old: &Core<D>, new: &Core<D>)
    ensures { (events : List Event) (replies : List EventReply) (before between after : List Call)
        (look : LookParts)
        (m : Machine) (held : List Hold)
        → (ran : HasRun (port_of D.Device.own) old.now events replies new.now)
        → ran.calls ≡ before ++ taking look ∷ (between ++ after)
        → CoreStandsFor D.Device.own old.now m
        → (port_of D.Device.own).holds old.now held → IsTrue (D.tells old.now.disk)
        → AllByRecursion (KeepsLook look) between
        → TellsExactly (port_of D.Device.own) m.history old.now before look between after new.now }
{}
