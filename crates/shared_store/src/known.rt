//! What a seat knows, and the rule that the table keeps.

use atomic_table::TableRule;
use std::marker::{Model, PhantomData};
use std::snapshot::Snapshot;
use store_state::LookPort;

/// What a seat has seen. No value of it is made but for proofs.
pub struct Past;

impl Model for Past {
    ghost use Rattle.shared_store.specs.Seen.{Seen, nothing_seen};

    ghost Value = { Seen };

    ghost view = { λ p. nothing_seen };
}

/// What a seat knows. No value of it is made.
pub struct Known<Q> {
    /// The port as it was when it was first shared.
    pub start: Option<Q>,
    /// The port as it is now, while the seat has the turn.
    pub shown: Option<Q>,
    /// Its parts of the right to know all.
    pub parts: u64,
    /// What it has seen.
    pub seen: Past,
}

/// The rule of the table.
pub struct Turns<Q> {
    port: PhantomData<Q>,
}

impl<Q: LookPort> TableRule<Option<Q>, Known<Q>, Snapshot<Q>> for Turns<Q> {
    ghost use Rattle.shared_store.specs.Rule.{IsKept, first_view};

    ghost holds = { λ key. IsKept Q.meaning key.value };

    ghost first = { λ key. first_view key.value };
}
