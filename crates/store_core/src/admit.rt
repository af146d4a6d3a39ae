//! Which pushes are refused before anything is done.

ghost use Rattle.std.specs.Prelude.{◌≡◌, ◌≢◌, ◌<◌, ◌+◌, ◌-◌, ◌^◌, min, ℕ, None, Some, IfOk, IfErr};
ghost use Rattle.store_model.specs.History.{count_of};
ghost use Rattle.store_model.specs.Step.{Machine, early};
ghost use Rattle.store_model.specs.Event.Event.{Push};
ghost use Rattle.store_model.specs.Event.Reply.{Refused};
ghost use Rattle.store_model.specs.Event.Refusal.{Fault};
ghost use Rattle.store_state.specs.Replies.{push_refusal};
ghost use Rattle.store_core.specs.Cores.{HasState};

use crate::state::CoreState;
use span_types::Batch;
use store_state::PushError;

/// How many entries a history may have.
const MOST_ENTRIES: u64 = 4_294_967_295;

/// How many rows may be held outside of blocks.
const MOST_ROWS: u64 = 262_144;

impl CoreState {
    /// The length of the history: the number of the next push.
    pub(crate) fn length(&self) -> u64
        ensures count { (m : Machine) → HasState self.now m → result ≡ count_of m.history }
        ensures sum { result ≡ min (self.now.segment.first + self.now.segment.count) (2 ^ 64 - 1) }
    {
        self.segment.first.saturating_add(self.segment.count)
    }

    /// The number of the next push, or why it is refused: in this order the store is read-only, it is full, or too many rows
    /// are held.
    pub(crate) fn admit(&self, batch: &Batch) -> Result<u64, PushError>
        ensures number { (m : Machine) → HasState self.now m
            → IfOk result (λ number. number ≡ count_of m.history) }
        ensures free { (m : Machine) (moment : ℕ) → HasState self.now m →
            IfOk result (λ number. early m (Push batch.now.spans moment) ≡ None) }
        ensures refused { (m : Machine) (moment : ℕ) → HasState self.now m →
            IfErr result (λ error.
            early m (Push batch.now.spans moment) ≡ Some (Refused (push_refusal error))) }
        ensures no_fault { IfErr result (λ error. push_refusal error ≢ Fault) }
        ensures sure { IfOk result (λ number. (self.now.read_only ≡ None) × (number < 4294967295)
            × (number ≡ self.now.segment.first + self.now.segment.count)) }
    {
        if let Some(faults) = self.read_only {
            return Err(PushError::ReadOnly { faults });
        }
        let number = self.length();
        if number >= MOST_ENTRIES {
            return Err(PushError::StoreFull { pushes: number });
        }
        let held = self.live.held();
        if held.saturating_add(batch.spans.len() as u64) > MOST_ROWS {
            return Err(PushError::LiveFull { held });
        }
        Ok(number)
    }
}
