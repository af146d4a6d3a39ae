//! Reading lists whose items are kept or skipped: attributes, events and links.

ghost use Rattle.std.specs.Prelude.{◌≡◌, IfOk, None, map, option_map};
ghost use Rattle.std.specs.List.{filter_map};
ghost use Rattle.serde_json.specs.View.{view};
ghost use Rattle.otlp_spans.specs.Attributes.{skipped_by};
ghost use Rattle.otlp_spans.specs.Forms.{ListOf, first_in_items, first_wrong};
ghost use Rattle.otlp_spans.specs.Json.{total};
ghost use Rattle.otlp_spans.specs.Walk.{Adds, StopsAt, first_behind, items_from};

use crate::errors::Stop;
use crate::json::list_from;
use crate::paths::{Member, Step};
use serde_json::Value;
use std::alloc::Global;

/// What an item of a list is, and how much is skipped with it.
#[derive(Drop)]
pub(crate) struct Item<T> {
    /// The item, where it is kept.
    pub(crate) kept: Option<T>,
    /// One where it isn't kept, else how much is skipped inside it, at most 2^64 - 1.
    pub(crate) skipped: u64,
}

/// What is kept of a list, and how much is skipped in it, at most 2^64 - 1.
#[derive(Drop)]
pub(crate) struct Kept<T> {
    /// The items that are kept, in order.
    pub(crate) items: Vec<T>,
    /// How much is skipped.
    pub(crate) skipped: u64,
}

/// An item of a list, which is kept or skipped.
pub(crate) trait ListItem: Drop {
    ghost use Rattle.std.specs.Prelude.{Option, ℕ};
    ghost use Rattle.serde_json.specs.Data.{Data};
    ghost use Rattle.otlp_spans.specs.Forms.{Form};

    ghost form: { Form };

    ghost of: { Data → Option Self };

    ghost inside: { Data → ℕ };

    /// The item that a value is, whose texts it keeps.
    fn read(alloc: Global, value: Value) -> Result<Item<Self>, Stop>
        ensures kept { IfOk result (λ i. i.kept ≡ of (view value)) }
        ensures skipped { IfOk result (λ i. Adds 0 i.skipped (skipped_by of inside (view value))) }
        ensures right { IfOk result (λ _. first_wrong form (view value) ≡ None) }
        ensures wrong { StopsAt result (first_wrong form (view value)) };
}

/// The items of a list that are kept.
fn kept_of<T: ListItem>(alloc: Global, values: Vec<Value>) -> Result<Kept<T>, Stop>
    ensures items { IfOk result (λ k. k.items.items ≡ filter_map T.of (map view values.items)) }
    ensures skipped { IfOk result
        (λ k. Adds 0 k.skipped (total (skipped_by T.of T.inside) (map view values.items))) }
    ensures right { IfOk result
        (λ _. first_in_items (first_wrong T.form) 0 (map view values.items) ≡ None) }
    ensures wrong { StopsAt result (first_in_items (first_wrong T.form) 0 (map view values.items)) }
{
    let count = values.len();
    let mut items = Vec::with_capacity(alloc, count)?;
    let mut skipped: u64 = 0;
    let mut i: usize = 0;
    for value in values {
        match T::read(alloc, value) {
            Ok(item) => {
                skipped = skipped.saturating_add(item.skipped);
                if let Some(kept) = item.kept {
                    items.push(kept)?;
                }
            }
            Err(stop) => return Err(stop.behind(Step::Item(i))),
        }
        i += 1;
    }
    Ok(Kept { items, skipped })
}

/// What is kept of the list that was found as a member; nothing where it is absent.
pub(crate) fn kept_from<T: ListItem>(
    alloc: Global,
    found: Option<Value>,
    member: Member,
) -> Result<Kept<T>, Stop>
    ensures items { IfOk result
        (λ k. k.items.items ≡ filter_map T.of (items_from (option_map view found))) }
    ensures skipped { IfOk result
        (λ k. Adds 0 k.skipped
        (total (skipped_by T.of T.inside) (items_from (option_map view found)))) }
    ensures right { IfOk result
        (λ _. first_behind member (ListOf T.form) (option_map view found) ≡ None) }
    ensures wrong { StopsAt result (first_behind member (ListOf T.form) (option_map view found)) }
{
    let values = list_from(alloc, found, member)?;
    match kept_of(alloc, values) {
        Ok(kept) => Ok(kept),
        Err(stop) => Err(stop.behind(Step::Of(member))),
    }
}
