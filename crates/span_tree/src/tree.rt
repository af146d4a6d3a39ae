//! Trees of spans, and the five calls that mark what stands in a relation to marked spans.

ghost use Rattle.std.specs.Prelude.{◌≡◌, ◌+◌, ◌*◌, ◌≤◌, IfOk, OnOk, length};
ghost use Rattle.span_tree.specs.Nodes.{nodes_of, IsOneTrace};
ghost use Rattle.span_tree.specs.Relations.{IsParent, IsAncestor, IsSibling};
ghost use Rattle.span_tree.specs.Marking.{MarksExactly};

use crate::members::{members_of, with_others};
use crate::visits::{Marked, Spans, Table};
use crate::{Steps, build, reach};
use span_types::{Marks, Memory, Row, Rows};
use std::alloc::Global;
use std::marker::Model;
use std::sync::ledger::Ledger;

/// The spans of one trace by position, with where each one's parent stands. Contracts see it as the list of the spans'
/// own ids and their parents'.
///
/// Five calls mark what stands in a relation to marked spans, in at most eight steps for each span of the tree. A step
/// is one visit of a span: it reads or writes entries and marks of this one span, so that going on to another span, or
/// back to one, is another step. The calls reach entries and marks by such visits alone, so a call that answers takes
/// at least the steps that its clause `least` says. To build the tree counts as no step.
#[derive(Debug, Drop)]
pub struct Tree {
    spans: Spans,
    parents: Table,
    families: Table,
}

impl Model for Tree {
    ghost use Rattle.std.specs.Prelude.{List};
    ghost use Rattle.span_tree.specs.declared.node.Node.{Node};
    ghost use Rattle.span_tree.specs.Tables.{IsLinked};

    ghost Value = { List Node };

    ghost view = { λ t. t.spans };

    ghost invariant = { λ t. IsLinked t.spans t.parents t.families };
}

impl Tree {
    /// The tree of the rows of one trace, each span at its row's position.
    pub fn of(alloc: Global, rows: &Rows) -> Result<Tree, Memory>
        requires { IsOneTrace rows.now }
        ensures { IfOk result (λ tree. tree ≡ nodes_of rows.now) }
    {
        Tree::of_slice(alloc, rows.as_slice())
    }

    /// The same of rows that stand in a longer list.
    pub fn of_slice(alloc: Global, rows: &[Row]) -> Result<Tree, Memory>
        requires { IsOneTrace rows.now }
        ensures { IfOk result (λ tree. tree ≡ nodes_of rows.now) }
    {
        let nodes = build::nodes(alloc, rows)?;
        let positions = build::positions(alloc, nodes.as_slice())?;
        let parents = build::parents(alloc, nodes.as_slice(), &positions)?;
        let families = build::families(alloc, nodes.as_slice())?;
        Ok(Tree {
            spans: Spans::of(nodes),
            parents: Table::of(parents),
            families: Table::of(families),
        })
    }

    /// Marks on the children of marked spans. Each span is visited twice, and in between its parent, where that is
    /// there.
    pub fn mark_children<L: Ledger>(
        &self,
        marked: &Marks,
        steps: &mut Steps<L>,
    ) -> Result<Marks, Memory>
        requires { length marked.now ≡ length self.now }
        ensures marks { IfOk result (λ found.
            MarksExactly (λ x y. IsParent self.now x y) (length self.now) marked.now found) }
        ensures steps { steps.new ≤ steps.old + 8 * length self.now }
        ensures forward { steps.old ≤ steps.new }
        ensures least { OnOk result (steps.old + 2 * length self.now ≤ steps.new) }
    {
        let alloc = self.spans.allocator();
        let marked = Marked::of(marked);
        let found = reach::led_to(alloc, &self.parents, &marked, steps)?;
        Ok(found.into_marks())
    }

    /// Marks on the parents of marked spans. Each span is visited once, and then each marked one's parent.
    pub fn mark_parents<L: Ledger>(
        &self,
        marked: &Marks,
        steps: &mut Steps<L>,
    ) -> Result<Marks, Memory>
        requires { length marked.now ≡ length self.now }
        ensures marks { IfOk result (λ found.
            MarksExactly (λ x y. IsParent self.now y x) (length self.now) marked.now found) }
        ensures steps { steps.new ≤ steps.old + 8 * length self.now }
        ensures forward { steps.old ≤ steps.new }
        ensures least { OnOk result (steps.old + length self.now ≤ steps.new) }
    {
        let alloc = self.spans.allocator();
        let marked = Marked::of(marked);
        let ends = reach::ends(alloc, &self.parents, &marked, steps)?;
        let nowhere = Table::nowhere(alloc);
        let found = reach::reached(alloc, self.spans.len(), ends, &nowhere, &nowhere, steps)?;
        Ok(found.into_marks())
    }

    /// Marks on the ancestors of marked spans. In a ring of parents a span is its own ancestor. Each span is visited
    /// once, and then the walk goes up from the marked ones, and on from a span only once.
    pub fn mark_ancestors<L: Ledger>(
        &self,
        marked: &Marks,
        steps: &mut Steps<L>,
    ) -> Result<Marks, Memory>
        requires { length marked.now ≡ length self.now }
        ensures marks { IfOk result (λ found.
            MarksExactly (λ x y. IsAncestor self.now y x) (length self.now) marked.now found) }
        ensures steps { steps.new ≤ steps.old + 8 * length self.now }
        ensures forward { steps.old ≤ steps.new }
        ensures least { OnOk result (steps.old + length self.now ≤ steps.new) }
    {
        let parents = &self.parents;
        let alloc = self.spans.allocator();
        let marked = Marked::of(marked);
        let ends = reach::ends(alloc, parents, &marked, steps)?;
        let nowhere = Table::nowhere(alloc);
        let found = reach::reached(alloc, self.spans.len(), ends, parents, &nowhere, steps)?;
        Ok(found.into_marks())
    }

    /// Marks on the descendants of marked spans, the spans that have a marked ancestor. Each span is visited twice,
    /// and in between its parent, to find each one's children, and once more for its mark. Then the walk goes down
    /// from the marked ones, and on from a span only once.
    pub fn mark_descendants<L: Ledger>(
        &self,
        marked: &Marks,
        steps: &mut Steps<L>,
    ) -> Result<Marks, Memory>
        requires { length marked.now ≡ length self.now }
        ensures marks { IfOk result (λ found.
            MarksExactly (λ x y. IsAncestor self.now x y) (length self.now) marked.now found) }
        ensures steps { steps.new ≤ steps.old + 8 * length self.now }
        ensures forward { steps.old ≤ steps.new }
        ensures least { OnOk result (steps.old + 3 * length self.now ≤ steps.new) }
    {
        let alloc = self.spans.allocator();
        let marked = Marked::of(marked);
        let children = members_of(alloc, &self.parents, steps)?;
        let last = &children.last;
        let before = &children.before;
        let ends = reach::ends(alloc, last, &marked, steps)?;
        let found = reach::reached(alloc, self.spans.len(), ends, last, before, steps)?;
        Ok(found.into_marks())
    }

    /// Marks on the siblings of marked spans: the other spans that name the same parent, whether that is there or not.
    /// Each span is visited twice for its mark, twice to find which marked spans are of its family, and twice to see
    /// whether another than itself is. Both of the latter times the span that stands for the family is visited in
    /// between.
    pub fn mark_siblings<L: Ledger>(
        &self,
        marked: &Marks,
        steps: &mut Steps<L>,
    ) -> Result<Marks, Memory>
        requires { length marked.now ≡ length self.now }
        ensures marks { IfOk result (λ found.
            MarksExactly (λ x y. IsSibling self.now x y) (length self.now) marked.now found) }
        ensures steps { steps.new ≤ steps.old + 8 * length self.now }
        ensures forward { steps.old ≤ steps.new }
        ensures least { OnOk result (steps.old + 6 * length self.now ≤ steps.new) }
    {
        let alloc = self.spans.allocator();
        let marked = Marked::of(marked);
        let families = &self.families;
        let kin = reach::where_marked(alloc, families, &marked, steps)?;
        let members = members_of(alloc, &kin, steps)?;
        let found = with_others(alloc, families, &members, steps)?;
        Ok(found.into_marks())
    }
}
