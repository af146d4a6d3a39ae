//! What belongs to each span, its entries in tables and its marks, reached by visits alone.
//!
//! A step is one visit of a span: it reads or writes entries and marks of this one span, so that going on to another
//! span, or back to one, is another step. The modules that walk see no entry and no mark but by a visit: the fields
//! are private here, and each function that touches some takes one position, or that at which they end, touches what
//! belongs to the span there, and takes one step. A table in which nothing stands yet is made without a visit.

ghost use Rattle.std.specs.Prelude.{◌≡◌, ◌+◌, ◌<◌, [], ◌∷◌, ◌++◌, Some, None, false, true, IfOk, OnOk, length, replicate, slice_index_or, slice_set, if◌then◌else◌};
ghost use Rattle.span_tree.specs.Tables.{at};

use crate::{Node, Steps};
use span_types::{Marks, Memory};
use std::alloc::Global;
use std::marker::Model;
use std::sync::ledger::Ledger;

/// The spans of a tree, of which its calls see how many there are, and no more. Contracts see them as a list.
#[derive(Debug, Drop)]
pub struct Spans {
    nodes: Vec<Node>,
}

impl Model for Spans {
    ghost use Rattle.std.specs.Prelude.{List};
    ghost use Rattle.span_tree.specs.declared.node.Node.{Node};

    ghost Value = { List Node };

    ghost view = { λ s. s.nodes.items };
}

impl Spans {
    /// The spans of a list, which is moved and not copied.
    pub fn of(nodes: Vec<Node>) -> Spans
        ensures { result ≡ nodes.items }
    {
        Spans { nodes }
    }

    /// How many spans there are.
    pub fn len(&self) -> usize
        ensures { result ≡ length self.now }
    {
        self.nodes.len()
    }

    /// Where their memory is from.
    pub fn allocator(&self) -> Global {
        *self.nodes.allocator()
    }
}

/// For each span a position, or none. Contracts see it as the list of these entries.
#[derive(Debug, Drop)]
pub struct Table {
    entries: Vec<Option<usize>>,
}

impl Model for Table {
    ghost use Rattle.std.specs.Prelude.{ℕ, List, Option};

    ghost Value = { List (Option ℕ) };

    ghost view = { λ t. t.entries.items };
}

impl Table {
    /// The table of a list of entries, as a tree is built of its rows. The list is moved and not copied.
    pub fn of(entries: Vec<Option<usize>>) -> Table
        ensures { result ≡ entries.items }
    {
        Table { entries }
    }

    /// A table without entries, which leads nowhere.
    pub fn nowhere(alloc: Global) -> Table
        ensures { result ≡ [] }
    {
        Table {
            entries: Vec::new(alloc),
        }
    }

    /// The same with room for the entries of so many spans.
    pub fn with_room(alloc: Global, count: usize) -> Result<Table, Memory>
        ensures { IfOk result (λ table. table ≡ []) }
    {
        Ok(Table {
            entries: Vec::with_capacity(alloc, count)?,
        })
    }

    /// A table that leads nowhere from each of so many spans.
    pub fn blank(alloc: Global, count: usize) -> Result<Table, Memory>
        ensures { IfOk result (λ table. table ≡ replicate count None) }
    {
        Ok(Table {
            entries: vec![in alloc; None; count]?,
        })
    }

    /// For how many spans there is an entry.
    pub fn len(&self) -> usize
        ensures { result ≡ length self.now }
    {
        self.entries.len()
    }

    // The entry of the span: nothing where the table ends.
    fn entry(&self, position: usize) -> Option<usize>
        ensures { result ≡ at self.now position }
    {
        if position < self.entries.len() {
            self.entries[position]
        } else {
            None
        }
    }

    /// One visit: the entry of the span, and nothing where the table ends.
    pub fn look<L: Ledger>(&self, position: usize, steps: &mut Steps<L>) -> Option<usize>
        ensures entry { result ≡ at self.now position }
        ensures step { steps.new ≡ steps.old + 1 }
    {
        steps.tick();
        self.entry(position)
    }

    /// One visit: the entries of the span here and in another table.
    pub fn look_in_both<L: Ledger>(
        &self,
        other: &Table,
        position: usize,
        steps: &mut Steps<L>,
    ) -> (Option<usize>, Option<usize>)
        ensures here { result.0 ≡ at self.now position }
        ensures there { result.1 ≡ at other.now position }
        ensures step { steps.new ≡ steps.old + 1 }
    {
        (self.look(position, steps), other.entry(position))
    }

    /// One visit: the span gets a new entry. The answer is the old one.
    pub fn exchange<L: Ledger>(
        &mut self,
        position: usize,
        entry: Option<usize>,
        steps: &mut Steps<L>,
    ) -> Option<usize>
        requires { position < length self.old }
        ensures old { result ≡ at self.old position }
        ensures new { self.new ≡ slice_set self.old position entry }
        ensures step { steps.new ≡ steps.old + 1 }
    {
        steps.tick();
        let old = self.entries[position];
        self.entries[position] = entry;
        old
    }

    /// One visit: the span at which the table ends gets its entry.
    pub fn push<L: Ledger>(
        &mut self,
        entry: Option<usize>,
        steps: &mut Steps<L>,
    ) -> Result<(), Memory>
        ensures entries { OnOk result (self.new ≡ self.old ++ entry ∷ []) }
        ensures step { steps.new ≡ steps.old + 1 }
    {
        steps.tick();
        self.entries.push(entry)?;
        Ok(())
    }
}

/// The marks that a caller gave. Contracts see them as a list.
#[derive(Drop)]
pub struct Marked<'a> {
    marks: &'a [bool],
}

impl<'a> Model for Marked<'a> {
    ghost use Rattle.std.specs.Prelude.{List, Bool};

    ghost Value = { List Bool };

    ghost view = { λ m. m.marks.now };
}

impl<'a> Marked<'a> {
    /// The caller's marks.
    pub fn of(marks: &'a Marks) -> Marked<'a>
        ensures { result ≡ marks.now }
    {
        Marked {
            marks: marks.as_slice(),
        }
    }

    // Whether the span has a mark: not where the marks end.
    fn mark(&self, position: usize) -> bool
        ensures { result ≡ slice_index_or self.now position false }
    {
        if position < self.marks.len() {
            self.marks[position]
        } else {
            false
        }
    }

    /// One visit: whether the span has a mark. It has none where the marks end.
    pub fn look<L: Ledger>(&self, position: usize, steps: &mut Steps<L>) -> bool
        ensures mark { result ≡ slice_index_or self.now position false }
        ensures step { steps.new ≡ steps.old + 1 }
    {
        steps.tick();
        self.mark(position)
    }

    /// One visit: the span's entry in a table, if the span has a mark.
    pub fn entry_where_marked<L: Ledger>(
        &self,
        table: &Table,
        position: usize,
        steps: &mut Steps<L>,
    ) -> Option<usize>
        ensures entry { result
            ≡ (if slice_index_or self.now position false then at table.now position else None) }
        ensures step { steps.new ≡ steps.old + 1 }
    {
        if self.look(position, steps) {
            table.entry(position)
        } else {
            None
        }
    }
}

/// The marks that a call makes. Contracts see them as a list.
#[derive(Drop)]
pub struct Found {
    marks: Vec<bool>,
}

impl Model for Found {
    ghost use Rattle.std.specs.Prelude.{List, Bool};

    ghost Value = { List Bool };

    ghost view = { λ f. f.marks.items };
}

impl Found {
    /// Marks for no span yet, with room for those of so many.
    pub fn with_room(alloc: Global, count: usize) -> Result<Found, Memory>
        ensures { IfOk result (λ found. found ≡ []) }
    {
        Ok(Found {
            marks: Vec::with_capacity(alloc, count)?,
        })
    }

    /// So many spans, none of which has a mark.
    pub fn blank(alloc: Global, count: usize) -> Result<Found, Memory>
        ensures { IfOk result (λ found. found ≡ replicate count false) }
    {
        Ok(Found {
            marks: vec![in alloc; false; count]?,
        })
    }

    /// One visit: the span at which the marks end gets a mark, or none.
    pub fn push<L: Ledger>(&mut self, mark: bool, steps: &mut Steps<L>) -> Result<(), Memory>
        ensures marks { OnOk result (self.new ≡ self.old ++ mark ∷ []) }
        ensures step { steps.new ≡ steps.old + 1 }
    {
        steps.tick();
        self.marks.push(mark)?;
        Ok(())
    }

    /// One visit: the span gets a mark. The answer is its entries in two tables if it had no mark before.
    pub fn mark<L: Ledger>(
        &mut self,
        one: &Table,
        other: &Table,
        position: usize,
        steps: &mut Steps<L>,
    ) -> (Option<usize>, Option<usize>)
        requires { position < length self.old }
        ensures marks { self.new ≡ slice_set self.old position true }
        ensures one { result.0
            ≡ (if slice_index_or self.old position false then None else at one.now position) }
        ensures other { result.1
            ≡ (if slice_index_or self.old position false then None else at other.now position) }
        ensures step { steps.new ≡ steps.old + 1 }
    {
        steps.tick();
        if self.marks[position] {
            return (None, None);
        }
        self.marks[position] = true;
        (one.entry(position), other.entry(position))
    }

    /// All of the marks, which are moved and not copied.
    pub fn into_marks(self) -> Marks
        ensures { result ≡ self }
    {
        Marks::of(self.marks)
    }
}
