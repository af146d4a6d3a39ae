//! Building the tables of a tree from its rows: where each span's parent stands, and which spans name one parent.

ghost use Rattle.std.specs.Prelude.{◌≡◌, IfOk, map};
ghost use Rattle.std.specs.Option.{option_and_then};
ghost use Rattle.std.specs.BTreeMap.{get};
ghost use Rattle.span_types.specs.Orders.{span_cmp};
ghost use Rattle.span_tree.specs.Nodes.{nodes_of};
ghost use Rattle.span_tree.specs.Tables.{IdsDiffer, IndexesNodes, HasParents, HasFamilies, JoinsFamily};

use crate::Node;
use span_types::{Memory, Row, SpanId};
use std::alloc::Global;
use std::collections::BTreeMap;

/// What the relations see of each row, in the order of the rows.
pub fn nodes(alloc: Global, rows: &[Row]) -> Result<Vec<Node>, Memory>
    ensures { IfOk result (λ nodes. nodes.items ≡ nodes_of rows.now) }
{
    let mut nodes = Vec::with_capacity(alloc, rows.len())?;
    for row in rows {
        nodes.push(Node {
            id: row.span.id,
            parent: row.span.parent,
        })?;
    }
    Ok(nodes)
}

/// For each id the position of the span that has it.
pub fn positions(alloc: Global, nodes: &[Node]) -> Result<BTreeMap<SpanId, usize>, Memory>
    requires { IdsDiffer nodes.now }
    ensures { IfOk result (λ positions. IndexesNodes nodes.now positions) }
{
    let mut positions = BTreeMap::new(alloc);
    for (position, node) in nodes.iter().enumerate() {
        positions.insert(node.id, position)?;
    }
    Ok(positions)
}

/// For each span the position of its parent, where that is there.
pub fn parents(
    alloc: Global,
    nodes: &[Node],
    positions: &BTreeMap<SpanId, usize>,
) -> Result<Vec<Option<usize>>, Memory>
    requires { IndexesNodes nodes.now positions.now }
    ensures { IfOk result (λ parents. HasParents nodes.now parents.items) }
{
    let mut parents = Vec::with_capacity(alloc, nodes.len())?;
    for node in nodes {
        parents.push(position_of(positions, node.parent))?;
    }
    Ok(parents)
}

// What the map has at the id, where there is one.
fn position_of(positions: &BTreeMap<SpanId, usize>, id: Option<SpanId>) -> Option<usize>
    ensures { result ≡ option_and_then (get span_cmp positions.now) id }
{
    match id {
        None => None,
        Some(id) => positions.get(&id).copied(),
    }
}

/// For each span that names a parent, a position that is the same for just the spans that name this parent.
pub fn families(alloc: Global, nodes: &[Node]) -> Result<Vec<Option<usize>>, Memory>
    ensures { IfOk result (λ families. HasFamilies nodes.now families.items) }
{
    let mut families = Vec::with_capacity(alloc, nodes.len())?;
    let mut firsts = BTreeMap::new(alloc);
    for (position, node) in nodes.iter().enumerate() {
        let family = family_of(&mut firsts, node.parent, position)?;
        families.push(family)?;
    }
    Ok(families)
}

// The first position at which the parent was named: this one, where it wasn't named before.
fn family_of(
    firsts: &mut BTreeMap<SpanId, usize>,
    parent: Option<SpanId>,
    position: usize,
) -> Result<Option<usize>, Memory>
    ensures { IfOk result (λ family.
        JoinsFamily (get span_cmp firsts.old) (get span_cmp firsts.new) parent position family) }
{
    let Some(parent) = parent else {
        return Ok(None);
    };
    if let Some(first) = firsts.get(&parent).copied() {
        return Ok(Some(first));
    }
    firsts.insert(parent, position)?;
    Ok(Some(position))
}
