//! A script whose device stops after each of its calls, or fails one, and what the images of a crash then have.

use crate::script::{Found, Step, found_on, is_fine, played_on};
use disk_model::MemDisk;
use span_types::{Calls, Memory};
use std::alloc::Global;
use std::test::Fail;

/// Each push goes to a block of its own, these go to one, and the files that nothing needs any more are emptied.
static SCRIPT: [Step; 6] = [
    Step::Push(0),
    Step::Flush,
    Step::Push(1),
    Step::Flush,
    Step::Compact,
    Step::Reclaim,
];

/// The calls of the opening of a new store: both slots are synced and read; its segment is cut, written and synced; and six write
/// the list.
const OPENING: u64 = 13;

/// A push is acknowledged after four calls, and the third one writes its commit byte.
const FIRST: u64 = OPENING + 4;

/// A flush makes five calls for its two files, one for the block's piece, one that makes it last, and six for the list.
const SECOND: u64 = FIRST + 13 + 4;

/// A compaction makes two calls for its file, reads eight pages, writes one piece and makes it last, and six write the list. Four
/// files are emptied with two calls each, and six write the list again.
const ALL: u64 = SECOND + 13 + 18 + 14;

/// What goes wrong at a call.
#[derive(Clone, Copy)]
enum Upset {
    /// It is the last one.
    Stops,
    /// It fails.
    Fails,
}

/// A run of the script for each call from the first one here on. From which calls on the first and the second push are acknowledged,
/// and from which on an image may have them: a record's commit byte, which the third of four calls writes, may be there before it is
/// made to last, also if that call fails. After a push or a flush that failed no push is acknowledged.
struct Runs {
    upset: Upset,
    from: u64,
    acknowledged: [u64; 2],
    stored: [u64; 2],
}

static STOPS: Runs = Runs {
    upset: Upset::Stops,
    from: 0,
    acknowledged: [FIRST, SECOND],
    stored: [FIRST - 1, SECOND - 1],
};

static FAILS: Runs = Runs {
    upset: Upset::Fails,
    from: 1,
    acknowledged: [FIRST + 1, SECOND + 1],
    stored: [FIRST - 1, SECOND - 1],
};

/// How many of two entries are there at this call that are there from these on.
fn count_at(call: u64, from: [u64; 2]) -> u64 {
    match (from[0] <= call, from[1] <= call) {
        (_, true) => 2,
        (true, false) => 1,
        (false, false) => 0,
    }
}

fn disturb(alloc: Global, disk: &mut MemDisk, upset: Upset, call: u64) -> Result<(), Memory> {
    match upset {
        Upset::Stops => disk.stop_after(call),
        Upset::Fails => disk.fail_at(Calls::of(Vec::from_array(alloc, [call])?)),
    }
    Ok(())
}

/// How many pushes the script has acknowledged in a new store that is upset, and the disk.
fn disturbed(alloc: Global, upset: Upset, call: u64) -> Result<(u64, MemDisk), Memory> {
    let mut disk = MemDisk::empty(alloc);
    disturb(alloc, &mut disk, upset, call)?;
    let (played, disk) = played_on(alloc, disk, &SCRIPT);
    let count = match played {
        Some(played) => played.acknowledged,
        None => 0,
    };
    Ok((count, disk))
}

/// Whether the store of an image has from so many to so many entries, each with its row.
fn has(alloc: Global, image: MemDisk, least: u64, most: u64) -> bool {
    match found_on(alloc, image).0 {
        Found::Entries(count) => least <= count && count <= most,
        _ => false,
    }
}

/// Whether as many pushes are acknowledged as it is said, and each of eight images has these, or as many as may be stored.
fn are_kept(alloc: Global, runs: &Runs, call: u64) -> Result<bool, Memory> {
    let (count, disk) = disturbed(alloc, runs.upset, call)?;
    let mut same = disk.starved() == 0 && count == count_at(call, runs.acknowledged);
    for pick in 0u64..8 {
        same &= has(alloc, disk.image(pick)?, count, count_at(call, runs.stored));
    }
    Ok(same)
}

/// The first call of which that isn't so.
fn other_call(alloc: Global, runs: &Runs) -> Result<Option<u64>, Memory> {
    for call in runs.from..=ALL {
        if !are_kept(alloc, runs, call)? {
            return Ok(Some(call));
        }
    }
    Ok(None)
}

#[test]
fn the_script_makes_these_calls(rt: HostRuntime) {
    let alloc = rt.alloc();
    let (played, disk) = played_on(alloc, MemDisk::empty(alloc), &SCRIPT);
    assert!(rt; is_fine(played));
    assert_eq!(rt; disk.calls(), ALL);
}

#[test]
fn each_image_has_what_was_acknowledged_before_a_stop(rt: HostRuntime) -> Result<(), Fail> {
    assert_eq!(rt; other_call(rt.alloc(), &STOPS)?, None);
    Ok(())
}

#[test]
fn each_image_has_what_was_acknowledged_beside_a_failed_call(rt: HostRuntime) -> Result<(), Fail> {
    assert_eq!(rt; other_call(rt.alloc(), &FAILS)?, None);
    Ok(())
}
