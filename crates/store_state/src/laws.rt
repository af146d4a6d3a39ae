//! Theorems about steps of the machine as a port shows them, and about lists.
//!
//! Each function has an empty body: its contract is the statement, and its proof stands in `proofs/laws/`. Who calls one has its contract.

ghost use Rattle.std.specs.Prelude.{◌≡◌, ◌≤◌, ◌++◌, ℕ, List, length, map};
ghost use Rattle.block_info.specs.InfoParts.{InfoParts};
ghost use Rattle.store_model.specs.State.{State, Block, block_files, live_rows};
ghost use Rattle.store_model.specs.After.{floor_after};
ghost use Rattle.store_model.specs.Choice.{in_files, outside_files};
ghost use Rattle.live_traces.specs.Parts.{least_number};
ghost use Rattle.store_state.specs.Listed.{floor_from, ref_of};
ghost use Rattle.store_state.specs.Parted.{inside, outside};
ghost use Rattle.store_model.specs.Event.{Event, Reply};
ghost use Rattle.store_model.specs.Step.{Machine, Step};
ghost use Rattle.store_state.specs.Meaning.{Learns};
ghost use Rattle.store_state.specs.Shown.{IsChoiceOf, AreFew};

/// A step tells its caller of the history what a call of a port is to tell, where nobody else added an entry.
pub fn a_step_tells_what_is_learnt()
    ensures { (before faults : ℕ) (m m' : Machine) (e : Event) (r : Reply)
        → Step before faults m e r m' →
        Learns e r m.history m'.history }
{}

/// The floor that a flush's commit sets is the least number of a push of which a row waits in the head or live, and the
/// history's length where none does.
pub fn the_floor_is_the_least_that_waits()
    ensures { (count : ℕ) (u : State) →
        floor_after count u ≡ floor_from count (least_number (u.head ++ live_rows u.live)) }
{}

/// What a compaction joins are two to four blocks of one level below 63, with at most 1,048,576 rows together.
pub fn a_choice_is_few()
    ensures { (listed : List InfoParts) (level : ℕ) (pinned : List InfoParts)
        → IsChoiceOf listed level pinned →
        1 ≤ length pinned → AreFew level pinned }
{}

/// The blocks that a list keeps outside of files, and the files of those inside, are those of the machine's blocks.
pub fn a_list_parts_blocks_as_the_machine()
    ensures stay { (files : List ℕ) (blocks : List Block) →
        outside files (map ref_of blocks) ≡ map ref_of (outside_files files blocks) }
    ensures go { (files : List ℕ) (blocks : List Block) →
        inside files (map ref_of blocks) ≡ block_files (in_files files blocks) }
{}
