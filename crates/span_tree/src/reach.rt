//! Where tables of positions lead from marked ones: the walks to parents, children, ancestors and descendants.

ghost use Rattle.std.specs.Prelude.{◌≡◌, ◌+◌, ◌*◌, ◌<◌, ◌≤◌, ℕ, [], ◌++◌, All, Some, None, false, true, IfOk, OnOk, length, slice_index_or, slice_set, if◌then◌else◌};
ghost use Rattle.std.specs.Option.{option_to_list};
ghost use Rattle.span_tree.specs.Tables.{at};
ghost use Rattle.span_tree.specs.Marking.{IsMarked, mark_of};
ghost use Rattle.span_tree.specs.Reach.{LeadsWithin, AreEnds, Reaches};

use crate::Steps;
use crate::visits::{Found, Marked, Table};
use span_types::Memory;
use std::alloc::Global;
use std::sync::ledger::Ledger;

/// The positions to which the table leads from marked ones. Each position of the table is visited once.
pub fn ends<L: Ledger>(
    alloc: Global,
    table: &Table,
    marked: &Marked<'_>,
    steps: &mut Steps<L>,
) -> Result<Vec<usize>, Memory>
    ensures ends { IfOk result (λ ends. AreEnds marked.now table.now ends.items) }
    ensures few { IfOk result (λ ends. length ends.items ≤ length table.now) }
    ensures steps { steps.new ≤ steps.old + length table.now }
    ensures forward { steps.old ≤ steps.new }
    ensures each { OnOk result (steps.new ≡ steps.old + length table.now) }
{
    let mut ends = Vec::new(alloc);
    for position in 0..table.len() {
        let end = marked.entry_where_marked(table, position, steps);
        extend(&mut ends, end)?;
    }
    Ok(ends)
}

/// The table's entries at marked positions, and nothing elsewhere. Each position of the table is visited twice.
pub fn where_marked<L: Ledger>(
    alloc: Global,
    table: &Table,
    marked: &Marked<'_>,
    steps: &mut Steps<L>,
) -> Result<Table, Memory>
    ensures one_each { IfOk result (λ kept. length kept ≡ length table.now) }
    ensures kept { IfOk result (λ kept. (y : ℕ) → y < length table.now
        → at kept y ≡ (if slice_index_or marked.now y false then at table.now y else None)) }
    ensures steps { steps.new ≤ steps.old + 2 * length table.now }
    ensures forward { steps.old ≤ steps.new }
    ensures each { OnOk result (steps.new ≡ steps.old + 2 * length table.now) }
{
    let mut kept = Table::with_room(alloc, table.len())?;
    for position in 0..table.len() {
        let entry = marked.entry_where_marked(table, position, steps);
        kept.push(entry, steps)?;
    }
    Ok(kept)
}

// One more position at the end, where there is one.
fn extend(positions: &mut Vec<usize>, more: Option<usize>) -> Result<(), Memory>
    ensures { OnOk result (positions.new.items ≡ positions.old.items ++ option_to_list more) }
{
    if let Some(position) = more {
        positions.push(position)?;
    }
    Ok(())
}

/// Marks on the positions to which the tables lead from the starts, by any number of steps, the starts among them. A
/// position is visited once for each start that it is, and for each entry that leads to it from a position that was
/// found.
pub fn reached<L: Ledger>(
    alloc: Global,
    count: usize,
    starts: Vec<usize>,
    one: &Table,
    other: &Table,
    steps: &mut Steps<L>,
) -> Result<Found, Memory>
    requires starts_within { All (λ d. d < count) starts.items }
    requires one_within { LeadsWithin one.now count }
    requires other_within { LeadsWithin other.now count }
    ensures one_each { IfOk result (λ found. length found ≡ count) }
    ensures only { IfOk result (λ found. (d : ℕ) → IsMarked found d
        → Reaches starts.items one.now other.now d) }
    ensures whole { IfOk result (λ found. (d : ℕ) → Reaches starts.items one.now other.now d
        → IsMarked found d) }
    ensures steps { steps.new ≤ steps.old + length starts.items + 2 * count }
    ensures forward { steps.old ≤ steps.new }
{
    let mut found = Found::blank(alloc, count)?;
    let mut ahead = starts;
    while let Some(position) = ahead.pop() {
        visit(&mut found, &mut ahead, one, other, position, steps)?;
    }
    Ok(found)
}

// One visit: the position is marked. Where it wasn't marked before, the places to which the tables lead from it are
// ahead.
fn visit<L: Ledger>(
    found: &mut Found,
    ahead: &mut Vec<usize>,
    one: &Table,
    other: &Table,
    position: usize,
    steps: &mut Steps<L>,
) -> Result<(), Memory>
    requires { position < length found.old }
    ensures found { found.new ≡ slice_set found.old position true }
    ensures ahead { OnOk result (ahead.new.items ≡ ahead.old.items
        ++ (if slice_index_or found.old position false then []
        else (option_to_list (at one.now position) ++ option_to_list (at other.now position)))) }
    ensures step { steps.new ≡ steps.old + 1 }
{
    let (along, aside) = found.mark(one, other, position, steps);
    extend(ahead, along)?;
    extend(ahead, aside)?;
    Ok(())
}

/// Marks on the positions from which the table leads to a marked one. Each position of the table is visited twice, and
/// between these visits the one to which the table leads from it, where there is one.
pub fn led_to<L: Ledger>(
    alloc: Global,
    table: &Table,
    marked: &Marked<'_>,
    steps: &mut Steps<L>,
) -> Result<Found, Memory>
    ensures one_each { IfOk result (λ found. length found ≡ length table.now) }
    ensures only { IfOk result (λ found. (y : ℕ) → IsMarked found y
        → (x : ℕ) × IsMarked marked.now x × (at table.now y ≡ Some x)) }
    ensures whole { IfOk result (λ found. (x y : ℕ) → IsMarked marked.now x
        → at table.now y ≡ Some x → IsMarked found y) }
    ensures steps { steps.new ≤ steps.old + 3 * length table.now }
    ensures forward { steps.old ≤ steps.new }
    ensures least { OnOk result (steps.old + 2 * length table.now ≤ steps.new) }
{
    let mut found = Found::with_room(alloc, table.len())?;
    for position in 0..table.len() {
        let end = table.look(position, steps);
        let mark = is_marked(marked, end, steps);
        found.push(mark, steps)?;
    }
    Ok(found)
}

// Whether there is a position, which is visited then, and it is marked.
fn is_marked<L: Ledger>(marked: &Marked<'_>, position: Option<usize>, steps: &mut Steps<L>) -> bool
    ensures mark { result ≡ mark_of marked.now position }
    ensures steps { steps.new ≤ steps.old + 1 }
    ensures forward { steps.old ≤ steps.new }
{
    match position {
        None => false,
        Some(position) => marked.look(position, steps),
    }
}
