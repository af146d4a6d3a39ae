//! Structural operators, as `>` and `>>`: from marks on both sides to marks on what is selected, by the relations of
//! `span_tree`.

ghost use Rattle.std.specs.Prelude.{◌≡◌, ℕ, List, [], false, IfOk, length};
ghost use Rattle.span_tree.specs.Marking.{IsMarked, MarksExactly};
ghost use Rattle.span_tree.specs.Nodes.{IsOneTrace, nodes_of};
ghost use Rattle.span_tree.specs.declared.node.Node.{Node};
ghost use Rattle.traceql_syntax.specs.declared.query.Relation.{Relation as Kinship};
ghost use Rattle.spanset_eval.specs.Marked.{MarksSet};
ghost use Rattle.spanset_eval.specs.Relating.{opposite_of};
ghost use Rattle.spanset_eval.specs.MadeTree.{IsTreeOf};
ghost use Rattle.spanset_eval.specs.Sets.{IsSome, Relates, Structural, Joined};

use crate::marks;
use span_tree::{Steps, Tree};
use span_types::{Marks, Memory, Row};
use std::alloc::Global;
use std::sync::ledger::Ledger;
use traceql_syntax::{Relation, Side, SpansetOp};

// Marks on the spans to which a marked one stands in the relation.
fn related<L: Ledger>(
    tree: &Tree,
    relation: Relation,
    marked: &Marks,
    steps: &mut Steps<L>,
) -> Result<Marks, Memory>
    requires { length marked.now ≡ length tree.now }
    ensures { IfOk result (MarksExactly (Relates relation tree.now) (length tree.now) marked.now) }
{
    match relation {
        Relation::Child => tree.mark_children(marked, steps),
        Relation::Descendant => tree.mark_descendants(marked, steps),
        Relation::Parent => tree.mark_parents(marked, steps),
        Relation::Ancestor => tree.mark_ancestors(marked, steps),
        Relation::Sibling => tree.mark_siblings(marked, steps),
    }
}

// The relation seen from the other side.
fn opposite(relation: Relation) -> Relation
    ensures { result ≡ opposite_of relation }
{
    match relation {
        Relation::Child => Relation::Parent,
        Relation::Descendant => Relation::Ancestor,
        Relation::Parent => Relation::Child,
        Relation::Ancestor => Relation::Descendant,
        Relation::Sibling => Relation::Sibling,
    }
}

// Marks on what a structural operator selects.
fn structural<L: Ledger>(
    alloc: Global,
    tree: &Tree,
    relation: Relation,
    side: Side,
    left: &Marks,
    right: &Marks,
    steps: &mut Steps<L>,
) -> Result<Marks, Memory>
    requires left_each { length left.now ≡ length tree.now }
    requires right_each { length right.now ≡ length tree.now }
    ensures { IfOk result
        (MarksSet (length tree.now)
        (Structural side (Relates relation tree.now) (IsMarked left.now) (IsMarked right.now))) }
{
    let reached = related(tree, relation, left, steps)?;
    match side {
        Side::Right => marks::both(alloc, right, &reached),
        Side::Unrelated => marks::without(alloc, right, &reached),
        Side::Both => {
            let reaching = related(tree, opposite(relation), right, steps)?;
            let on_right = marks::both(alloc, right, &reached)?;
            let on_left = marks::both(alloc, left, &reaching)?;
            marks::either(alloc, &on_right, &on_left)
        }
    }
}

// Marks on the spans of both sides where neither is empty.
fn together(alloc: Global, left: &Marks, right: &Marks) -> Result<Marks, Memory>
    requires { length left.now ≡ length right.now }
    ensures { IfOk result
        (MarksSet (length left.now)
        (Joined SpansetOp.And [] (IsMarked left.now) (IsMarked right.now))) }
{
    if marks::any(left) && marks::any(right) {
        marks::either(alloc, left, right)
    } else {
        marks::none(alloc, left.len())
    }
}

// The tree of a trace's rows, unless it is there.
fn tree_of(alloc: Global, rows: &[Row], made: Option<Tree>) -> Result<Tree, Memory>
    requires one { IsOneTrace rows.now }
    requires made { IsTreeOf rows.now made }
    ensures { IfOk result (λ tree. tree ≡ nodes_of rows.now) }
{
    match made {
        Some(tree) => Ok(tree),
        None => Tree::of_slice(alloc, rows),
    }
}

// Whether both sides have marks.
#[tactic(auto, using(crate::proofs::MarkLaws::none_some))]
fn both_marked(left: &Marks, right: &Marks) -> bool
    ensures { result ≡ false → IsSome (IsMarked left.now) → IsSome (IsMarked right.now) → ⊥ }
{
    if marks::any(left) {
        marks::any(right)
    } else {
        false
    }
}

// Marks on what a structural operator selects where a side has no marks: nothing, but the right side where it selects
// what is not related.
#[tactic(auto, using(crate::proofs::MarkLaws::right_empty, crate::proofs::MarkLaws::both_empty, crate::proofs::MarkLaws::unrelated_empty))]
fn unrelated(alloc: Global, side: Side, left: &Marks, right: Marks) -> Result<Marks, Memory>
    requires { IsSome (IsMarked left.now) → IsSome (IsMarked right) → ⊥ }
    ensures { IfOk result (λ marks. (r : Kinship) (nodes : List Node) →
        MarksSet (length right)
        (Structural side (Relates r nodes) (IsMarked left.now) (IsMarked right)) marks) }
{
    match side {
        Side::Unrelated => Ok(right),
        Side::Right => marks::none(alloc, right.len()),
        Side::Both => marks::none(alloc, right.len()),
    }
}

// Marks on what a structural operator selects. Where a side has no marks, no relation is walked and no tree made.
fn relate<L: Ledger>(
    alloc: Global,
    rows: &[Row],
    made: &mut Option<Tree>,
    relation: Relation,
    side: Side,
    left: Marks,
    right: Marks,
    steps: &mut Steps<L>,
) -> Result<Marks, Memory>
    requires one { IsOneTrace rows.now }
    requires made { IsTreeOf rows.now made.old }
    requires left_each { length left ≡ length rows.now }
    requires right_each { length right ≡ length rows.now }
    ensures marks { IfOk result (MarksSet (length rows.now)
        (Structural side (Relates relation (nodes_of rows.now)) (IsMarked left) (IsMarked right))) }
    ensures made { IsTreeOf rows.now made.new }
{
    if !both_marked(&left, &right) {
        return unrelated(alloc, side, &left, right);
    }
    let tree = tree_of(alloc, rows, made.take())?;
    let marks = structural(alloc, &tree, relation, side, &left, &right, steps);
    *made = Some(tree);
    marks
}

/// Marks on what an operator between two spansets selects of the marked spans. Only a structural operator whose sides
/// both have marks wants the trace's tree: it is made for the first one, and kept in `made` for others.
pub fn join_marks<L: Ledger>(
    alloc: Global,
    rows: &[Row],
    made: &mut Option<Tree>,
    op: SpansetOp,
    left: Marks,
    right: Marks,
    steps: &mut Steps<L>,
) -> Result<Marks, Memory>
    requires one { IsOneTrace rows.now }
    requires made { IsTreeOf rows.now made.old }
    requires left_each { length left ≡ length rows.now }
    requires right_each { length right ≡ length rows.now }
    ensures marks { IfOk result (MarksSet (length rows.now)
        (Joined op (nodes_of rows.now) (IsMarked left) (IsMarked right))) }
    ensures made { IsTreeOf rows.now made.new }
{
    match op {
        SpansetOp::And => together(alloc, &left, &right),
        SpansetOp::Or => marks::either(alloc, &left, &right),
        SpansetOp::Related(relation, side) => {
            relate(alloc, rows, made, relation, side, left, right, steps)
        }
    }
}
