//! How many rows a store holds in memory.

use crate::store::{Step, played};
use disk_model::MemDisk;
use store_state::PushError;

#[test]
fn sixteen_full_batches_are_held_and_no_more_rows(rt: HostRuntime) {
    let alloc = rt.alloc();
    let full = Err(PushError::LiveFull { held: 262_144 });
    let steps = [
        Step::Full(16),
        Step::Another(full),
        Step::Empty(Ok(16)),
        Step::Held(262_144),
        Step::Pushes(17),
    ];
    assert!(rt; played(alloc, MemDisk::empty(alloc), &steps).0);
}
