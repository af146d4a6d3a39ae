//! Passing over values of one kind, one after another.

ghost use Rattle.std.specs.Prelude.{◌≡◌, ◌==◌, ℕ, List, IfSome, IsTrue, Ok, Result, length, not};
ghost use Rattle.block_columns.specs.ColumnReadings.{Spot, column_at, counted_at, only_if_at};
ghost use Rattle.stripe_skims.specs.Sure.{Passes, Skims, TellsFilled};

use block_columns::{Fields, Kind};

/// A kind of values that is passed over.
pub trait Pass {
    /// A value that is passed over.
    type Item: Drop;

    /// What reading the next value gives.
    ghost reading: { Self → Spot → Result (Self.Item × Spot) ℕ };

    /// What has to hold before, and holds after.
    ghost ready: { Self → Type 0 };

    /// Passes over the next value. False says nothing.
    fn pass(&mut self, fields: &mut Fields) -> bool
        requires { ready self.old }
        ensures stays { (s : Spot) → reading self.new s ≡ reading self.old s }
        ensures ready { ready self.new }
        ensures passes { IsTrue result → Passes (reading self.old fields.old) fields.new };
}

/// Values that are read and let go, which take no memory.
#[derive(Drop)]
pub struct Dropped<K> {
    /// Their kind.
    pub kind: K,
}

impl<K: Kind> Pass for Dropped<K> {
    type Item = K::Item;

    ghost reading = { λ d. K.reading d.kind };

    ghost ready = { λ _. Unit {0} };

    #[tactic(auto, using(crate::proofs::ItemLaws::found))]
    fn pass(&mut self, fields: &mut Fields) -> bool {
        self.kind.read(fields).is_ok()
    }
}

/// Passes over so many values.
pub fn pass_items<P: Pass>(fields: &mut Fields, kind: &mut P, count: u64) -> bool
    requires { P.ready kind.old }
    ensures stays { (s : Spot) → P.reading kind.new s ≡ P.reading kind.old s }
    ensures ready { P.ready kind.new }
    ensures passes { IsTrue result
        → Passes (column_at (P.reading kind.old) count fields.old) fields.new }
{
    for _ in 0..count {
        if !kind.pass(fields) {
            return false;
        }
    }
    true
}

/// Passes over a list, for which there are bytes only where it is said so: whether it has items.
pub fn pass_list<P: Pass>(fields: &mut Fields, kind: &mut P, there: bool) -> Option<bool>
    requires { P.ready kind.old }
    ensures stays { (s : Spot) → P.reading kind.new s ≡ P.reading kind.old s }
    ensures ready { P.ready kind.new }
    ensures passes { IfSome result (λ some. (items : List P.Item)
        × (only_if_at there (counted_at (λ _. P.reading kind.old)) fields.old
        ≡ Ok (items, fields.new)) × (some ≡ not (length items == 0))) }
{
    if !there {
        return Some(false);
    }
    let Ok(count) = fields.number() else {
        return None;
    };
    if !pass_items(fields, kind, count) {
        return None;
    }
    Some(count != 0)
}

/// Passes over so many such lists: whether one of them has items.
pub fn pass_lists<P: Pass>(
    fields: &mut Fields,
    kind: &mut P,
    there: bool,
    count: u64,
) -> Option<bool>
    requires { P.ready kind.old }
    ensures { IfSome result
        (λ some. Skims TellsFilled count
        (column_at (only_if_at there
        (counted_at (λ _. P.reading kind.old))) count fields.old) some fields.new) }
{
    let mut some = false;
    for _ in 0..count {
        let filled = pass_list(fields, kind, there)?;
        some = some | filled;
    }
    Some(some)
}
