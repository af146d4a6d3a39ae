//! Batches of the log are put in place again.

ghost use Rattle.std.specs.Prelude.{◌≡◌, ◌++◌, OnOk};
ghost use Rattle.store_model.specs.After.{arrived};
ghost use Rattle.store_core.specs.Opening.{rows_from};

use head_log::NumberedBatch;
use live_traces::Live;
use span_types::Memory;

/// Puts the batches whose numbers are at least the floor after the live rows, with this moment.
pub(crate) fn revive(
    live: &mut Live,
    batches: Vec<NumberedBatch>,
    floor: u64,
    moment: u64,
) -> Result<(), Memory>
    ensures added { OnOk result
        (live.new.live ≡ live.old.live ++ arrived moment (rows_from floor batches.items)) }
    ensures same { (live.new.head ≡ live.old.head) × (live.new.flushing ≡ live.old.flushing) }
{
    for entry in batches {
        if entry.number >= floor {
            let Ok(ready) = live.reserve(entry.number, entry.batch) else {
                return Err(Memory);
            };
            live.add(ready, moment);
        }
    }
    Ok(())
}
