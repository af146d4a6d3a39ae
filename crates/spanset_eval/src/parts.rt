//! A list of positions split by values, which are looked at where they stand.

ghost use Rattle.std.specs.Prelude.{◌≡◌, ◌∷◌, [], ◌+◌, ◌<◌, ◌++◌, IfOk, IfSome, map, reverse, length, vec_len};
ghost use Rattle.traceql_value.specs.Values.{value_cmp};
ghost use Rattle.spanset_eval.specs.Parts.{arranged, insert_parts, part_of, part_group, with_former, Ascend, TakesPart};

use crate::groups::{Group, Positions};
use span_types::Memory;
use std::alloc::Global;
use std::cmp::Ordering;
use std::marker::Model;
use traceql_value::{ValueRef, Values};

/// A position, and the value that an expression has there.
#[derive(Drop)]
pub struct Valued<'s> {
    /// The value.
    pub value: ValueRef<'s>,
    /// The position.
    pub position: usize,
}

/// The positions at which an expression has one value, which stands elsewhere.
#[derive(Drop)]
pub struct Part<'v> {
    value: &'v ValueRef<'v>,
    members: Positions,
}

impl<'v> Model for Part<'v> {
    ghost use Rattle.traceql_value.specs.ValueRef.{ref_value};
    ghost use Rattle.spanset_eval.specs.Parts.{SplitPart};

    ghost Value = { SplitPart };

    ghost view = { λ p. record { value = ref_value p.value.now; members = p.members } };
}

impl<'v> Part<'v> {
    // The part of one position.
    fn of(alloc: Global, valued: &'v Valued<'v>) -> Result<Part<'v>, Memory>
        ensures { IfOk result (λ part. part ≡ part_of valued.now) }
    {
        let mut members = Vec::with_capacity(alloc, 1)?;
        members.push(valued.position)?;
        Ok(Part {
            value: &valued.value,
            members: Positions::of(members),
        })
    }

    // Which of two parts comes first: the one of the lesser value.
    fn order(&self, other: &Part<'_>) -> Ordering
        ensures { result ≡ value_cmp self.now.value other.now.value }
    {
        self.value.order(other.value)
    }

    // This part's positions before those of another one, which has its value.
    fn join(self, latter: Part<'v>) -> Result<Part<'v>, Memory>
        ensures { IfOk result (λ part. part ≡ with_former self.entry latter.entry) }
    {
        let mut members = self.members.into_vec();
        let mut more = latter.members.into_vec();
        members.append(&mut more)?;
        Ok(Part {
            value: latter.value,
            members: Positions::of(members),
        })
    }

    /// The spanset that the part makes of one that was split off by earlier values: its own value, which is copied,
    /// comes last.
    pub fn into_group(self, alloc: Global, by: Values) -> Result<Group, Memory>
        ensures { IfOk result (λ group. group ≡ part_group by self.entry) }
    {
        let mut by = by.into_vec();
        by.push(self.value.to_value(alloc)?)?;
        Ok(Group {
            by: Values::of(by),
            members: self.members,
        })
    }
}

/// A part for each value that there is, in ascending order. It takes time n log n, and copies no value.
pub fn arrange<'v>(alloc: Global, valued: &'v [Valued<'v>]) -> Result<Vec<Part<'v>>, Memory>
    ensures { IfOk result (λ parts. parts.items ≡ arranged (map part_of valued.now)) }
{
    match valued {
        [] => Ok(Vec::new(alloc)),
        [one] => single(alloc, one),
        _ => {
            let (front, back) = valued.split_at(valued.len() / 2);
            let left = arrange(alloc, front)?;
            let right = arrange(alloc, back)?;
            merge(alloc, left, right)
        }
    }
}

// The part of one position, alone.
fn single<'v>(alloc: Global, valued: &'v Valued<'v>) -> Result<Vec<Part<'v>>, Memory>
    ensures { IfOk result (λ parts. parts.items ≡ part_of valued.now ∷ []) }
{
    let mut parts = Vec::with_capacity(alloc, 1)?;
    parts.push(Part::of(alloc, valued)?)?;
    Ok(parts)
}

// The parts of two lists in one, those of one value joined.
fn merge<'v>(
    alloc: Global,
    left: Vec<Part<'v>>,
    right: Vec<Part<'v>>,
) -> Result<Vec<Part<'v>>, Memory>
    requires left_up { Ascend left.items }
    requires right_up { Ascend right.items }
    ensures { IfOk result (λ parts. parts.items ≡ insert_parts left.entry.items right.entry.items) }
{
    let mut left = left;
    let mut right = right;
    let mut merged = Vec::new(alloc);
    left.reverse();
    right.reverse();
    while let Some(part) = take_next(&mut left, &mut right)? {
        merged.push(part)?;
    }
    Ok(merged)
}

// Takes the part that comes first off two lists, the last of each of which comes first in it.
fn take_next<'v>(
    left: &mut Vec<Part<'v>>,
    right: &mut Vec<Part<'v>>,
) -> Result<Option<Part<'v>>, Memory>
    requires left_up { Ascend (reverse left.old.items) }
    requires right_up { Ascend (reverse right.old.items) }
    ensures takes { IfOk result (λ next.
        TakesPart (reverse left.old.items) (reverse right.old.items) next (reverse left.new.items)
        (reverse right.new.items)) }
    ensures fewer { IfOk result (λ next. IfSome next (λ p.
        vec_len left.new + vec_len right.new < vec_len left.old + vec_len right.old)) }
    ensures end { IfOk result (λ next. next ≡ None → vec_len left.new + vec_len right.new ≡ 0) }
{
    match (left.pop(), right.pop()) {
        (None, latter) => Ok(latter),
        (former, None) => Ok(former),
        (Some(former), Some(latter)) => match former.order(&latter) {
            Ordering::Less => {
                right.push(latter)?;
                Ok(Some(former))
            }
            Ordering::Greater => {
                left.push(former)?;
                Ok(Some(latter))
            }
            Ordering::Equal => Ok(Some(former.join(latter)?)),
        },
    }
}
