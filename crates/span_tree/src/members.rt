//! Groups of spans, as those of one parent: their members in the order of their positions, for the walks down and
//! among siblings.

ghost use Rattle.std.specs.Prelude.{◌≡◌, ◌+◌, ◌*◌, ◌<◌, ◌≤◌, ℕ, Some, false, IfOk, OnOk, length, slice_index_or, slice_set};
ghost use Rattle.std.specs.Option.{option_and_then, option_map_or};
ghost use Rattle.span_tree.specs.Tables.{at};
ghost use Rattle.span_tree.specs.Reach.{LeadsWithin};
ghost use Rattle.span_tree.specs.Members.{HasMembers, shows_other};

use crate::Steps;
use crate::visits::{Found, Table};
use span_types::Memory;
use std::alloc::Global;
use std::sync::ledger::Ledger;

/// For each group its last member, and for each member the one before it in its group.
#[derive(Drop)]
pub struct Members {
    pub last: Table,
    pub before: Table,
}

/// The members of the groups, of which the table has one for each position, or none. Each position is visited twice,
/// and between these visits its group, where it has one.
pub fn members_of<L: Ledger>(
    alloc: Global,
    groups: &Table,
    steps: &mut Steps<L>,
) -> Result<Members, Memory>
    requires { LeadsWithin groups.now (length groups.now) }
    ensures members { IfOk result (λ m. HasMembers groups.now (length groups.now) m.last m.before) }
    ensures last_each { IfOk result (λ m. length m.last ≡ length groups.now) }
    ensures before_each { IfOk result (λ m. length m.before ≡ length groups.now) }
    ensures steps { steps.new ≤ steps.old + 3 * length groups.now }
    ensures forward { steps.old ≤ steps.new }
    ensures least { OnOk result (steps.old + 2 * length groups.now ≤ steps.new) }
{
    let mut last = Table::blank(alloc, groups.len())?;
    let mut before = Table::with_room(alloc, groups.len())?;
    for position in 0..groups.len() {
        let group = groups.look(position, steps);
        let earlier = join(&mut last, group, position, steps);
        before.push(earlier, steps)?;
    }
    Ok(Members { last, before })
}

// The position becomes the last member of the group, where there is one, which is visited. The answer is the last one
// before.
fn join<L: Ledger>(
    last: &mut Table,
    group: Option<usize>,
    position: usize,
    steps: &mut Steps<L>,
) -> Option<usize>
    requires { (g : ℕ) → group ≡ Some g → g < length last.old }
    ensures earlier { result ≡ option_and_then (λ g. at last.old g) group }
    ensures after { last.new
        ≡ option_map_or (λ g. slice_set last.old g (Some position)) group last.old }
    ensures steps { steps.new ≤ steps.old + 1 }
    ensures forward { steps.old ≤ steps.new }
{
    let group = group?;
    last.exchange(group, Some(position), steps)
}

/// Marks on the positions whose group has a member that stands elsewhere. Each position is visited twice, and between
/// these visits its group, where it has one.
pub fn with_others<L: Ledger>(
    alloc: Global,
    groups: &Table,
    members: &Members,
    steps: &mut Steps<L>,
) -> Result<Found, Memory>
    ensures one_each { IfOk result (λ found. length found ≡ length groups.now) }
    ensures marks { IfOk result (λ found. (y : ℕ) → y < length groups.now
        → slice_index_or found y false
        ≡ shows_other members.now.last members.now.before (at groups.now y) y) }
    ensures steps { steps.new ≤ steps.old + 3 * length groups.now }
    ensures forward { steps.old ≤ steps.new }
    ensures least { OnOk result (steps.old + 2 * length groups.now ≤ steps.new) }
{
    let mut found = Found::with_room(alloc, groups.len())?;
    for position in 0..groups.len() {
        let mark = has_other(groups, members, position, steps);
        found.push(mark, steps)?;
    }
    Ok(found)
}

// Whether the position's group has a member that stands elsewhere. The position is visited, and its group where it has
// one.
fn has_other<L: Ledger>(
    groups: &Table,
    members: &Members,
    position: usize,
    steps: &mut Steps<L>,
) -> bool
    ensures shown { result
        ≡ shows_other members.now.last members.now.before (at groups.now position) position }
    ensures steps { steps.new ≤ steps.old + 2 }
    ensures least { steps.old + 1 ≤ steps.new }
{
    let (group, earlier) = groups.look_in_both(&members.before, position, steps);
    let Some(group) = group else {
        return false;
    };
    match members.last.look(group, steps) {
        None => false,
        Some(last) => last != position || earlier.is_some(),
    }
}
