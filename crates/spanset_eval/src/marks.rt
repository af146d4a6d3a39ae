//! Marks on the spans of a trace, taken together: what operators between spansets come to.

ghost use Rattle.std.specs.Prelude.{◌≡◌, ℕ, ◌<◌, ◌&&◌, ◌||◌, not, true, false, IfOk, IsTrue, ◌↔◌, length, filter, slice_index_or};
ghost use Rattle.span_tree.specs.Marking.{IsMarked};
ghost use Rattle.spanset_eval.specs.Marked.{mark_at, MarksBy};
ghost use Rattle.spanset_eval.specs.Sets.{IsSome};
ghost use Rattle.spanset_eval.specs.Stages.{positions_from};

use crate::groups::Positions;
use span_types::{Marks, Memory};
use std::alloc::Global;

/// Marks where one of two has a mark.
pub fn either(alloc: Global, left: &Marks, right: &Marks) -> Result<Marks, Memory>
    requires { length left.now ≡ length right.now }
    ensures { IfOk result
        (MarksBy (length left.now) (λ y. mark_at left.now y || mark_at right.now y)) }
{
    let (left, right) = (left.as_slice(), right.as_slice());
    let mut marks = Vec::with_capacity(alloc, left.len())?;
    for position in 0..left.len() {
        marks.push(left[position] || right[position])?;
    }
    Ok(Marks::of(marks))
}

/// Marks where both have a mark.
pub fn both(alloc: Global, left: &Marks, right: &Marks) -> Result<Marks, Memory>
    requires { length left.now ≡ length right.now }
    ensures { IfOk result
        (MarksBy (length left.now) (λ y. mark_at left.now y && mark_at right.now y)) }
{
    let (left, right) = (left.as_slice(), right.as_slice());
    let mut marks = Vec::with_capacity(alloc, left.len())?;
    for position in 0..left.len() {
        marks.push(left[position] && right[position])?;
    }
    Ok(Marks::of(marks))
}

/// Marks where the left has a mark and the right has none.
pub fn without(alloc: Global, left: &Marks, right: &Marks) -> Result<Marks, Memory>
    requires { length left.now ≡ length right.now }
    ensures { IfOk result
        (MarksBy (length left.now) (λ y. mark_at left.now y && not (mark_at right.now y))) }
{
    let (left, right) = (left.as_slice(), right.as_slice());
    let mut marks = Vec::with_capacity(alloc, left.len())?;
    for position in 0..left.len() {
        marks.push(left[position] && !right[position])?;
    }
    Ok(Marks::of(marks))
}

/// No marks, one for each of so many positions.
pub fn none(alloc: Global, count: usize) -> Result<Marks, Memory>
    ensures { IfOk result (MarksBy count (λ y. false)) }
{
    Ok(Marks::of(vec![in alloc; false; count]?))
}

/// Whether there is a mark.
pub fn any(marks: &Marks) -> bool
    ensures some { IsTrue result → IsSome (IsMarked marks.now) }
    ensures none { result ≡ false → (y : ℕ) → mark_at marks.now y ≡ false }
{
    for mark in marks.as_slice() {
        if *mark {
            return true;
        }
    }
    false
}

/// The positions with a mark, in ascending order.
pub fn marked(alloc: Global, marks: &Marks) -> Result<Positions, Memory>
    ensures { IfOk result
        (λ members. members ≡ filter (mark_at marks.now) (positions_from 0 (length marks.now))) }
{
    let mut members = Vec::new(alloc);
    for (position, mark) in marks.as_slice().iter().enumerate() {
        if *mark {
            members.push(position)?;
        }
    }
    Ok(Positions::of(members))
}
