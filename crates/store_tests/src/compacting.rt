//! Compactions of a store over a disk in memory while a look is open, and the emptying of loose files after them:
//! what each device call leaves that is the last one before a crash.

ghost use Rattle.std.specs.Prelude.{List};
ghost use Rattle.store_core.specs.Port.{port_of};
ghost use Rattle.store_model.specs.Holds.{Hold};
ghost use Rattle.store_state.specs.Given.{look_of};
ghost use Rattle.store_state.specs.Meaning.{IsOpen};

use crate::frames::add_page;
use crate::live::{another, are_at, has_rows};
use crate::store::{Upset, Upsets};
use block_list::{ListBody, load};
use block_read::block_of;
use compactor::{compact_round, merge_rows};
use disk_model::{Device, MemDisk};
use flusher::flush_round;
use span_types::{Rows, Seq};
use std::alloc::Global;
use std::test::Fail;
use store_core::{Core, a_shown_core_is_a_port};
use store_state::{FlushPort, Look, LookPort, Port, ReclaimError, Refusal, Round};

// Pushes a span, the same one each time.
fn pushes<P: LookPort>(alloc: Global, port: &mut P) -> bool
    ensures { ((held : List Hold) × P.meaning.holds port.old held) →
        (held : List Hold) × P.meaning.holds port.new held }
{
    match another(alloc) {
        Ok(batch) => port.push(batch, 6).is_ok(),
        Err(_) => false,
    }
}

// Pushes that span, and makes a block of it.
fn flushes<P: Port>(alloc: Global, port: &mut P) -> bool
    requires { (held : List Hold) × P.meaning.holds port.old held }
    ensures { (held : List Hold) × P.meaning.holds port.new held }
{
    let pushed = pushes(alloc, port);
    let _moved = port.cut_all();
    let round = flush_round(alloc, port);
    pushed & (round == Round::Did { blocks: 1, rows: 1 })
}

// How a compaction ends, and what the emptying of loose files after it answers.
type End = (Round, Result<u64, ReclaimError>);

fn joins<P: Port>(alloc: Global, port: &mut P) -> End
    requires { (held : List Hold) × P.meaning.holds port.old held }
    ensures { (look : Look) → IsOpen P.meaning port.old (look_of look)
        → IsOpen P.meaning port.new (look_of look) }
{
    let round = compact_round(alloc, port);
    (round, port.reclaim())
}

// The pages of the first block, whose file is 3.
const PAGES: [(u32, u64); 4] = [(3, 0), (3, 1), (3, 2), (3, 3)];

// Adds the bytes of the first block.
fn add_pages<P: FlushPort>(port: &mut P, look: &Look, bytes: &mut Vec<u8>) -> bool
    requires { IsOpen P.meaning port.old (look_of look.now) }
    ensures { IsOpen P.meaning port.new (look_of look.now) }
{
    let mut read = true;
    for page in PAGES {
        read &= add_page(port, look, page, bytes);
    }
    read
}

// How a compaction ends beside a look, and whether the look's first block has the same bytes before and after it. The
// compaction reads that block's pages from the frames of the page cache, and so does the look after it, whatever the
// disk answers.
fn joins_beside<P: Port>(alloc: Global, port: &mut P, look: &Look) -> (End, bool)
    requires { IsOpen P.meaning port.old (look_of look.now) }
{
    let mut before = Vec::new(alloc);
    let mut after = Vec::new(alloc);
    let read = add_pages(port, look, &mut before);
    let end = joins(alloc, port);
    let again = add_pages(port, look, &mut after);
    (end, read && again && before.as_slice() == after.as_slice())
}

fn looks_and_joins<P: Port>(alloc: Global, port: &mut P) -> Option<(End, bool)>
    requires { (held : List Hold) × P.meaning.holds port.old held }
{
    match port.look() {
        Ok(look) => Some(joins_beside(alloc, port, &look)),
        Err(_) => None,
    }
}

// The same once two entries are in a block each, whose files are 3 and 5. None where they aren't.
fn makes_and_joins<D: Device>(alloc: Global, store: &mut Core<D>) -> Option<(End, bool)>
    requires { (held : List Hold) × (port_of D.Device.own).holds store.old held }
{
    let first = flushes(alloc, store);
    let second = flushes(alloc, store);
    if first && second {
        looks_and_joins(alloc, store)
    } else {
        None
    }
}

// The same in a new store, and its disk.
fn joined<D: Device>(alloc: Global, disk: D) -> (Option<(End, bool)>, D) {
    match Core::open_store(alloc, disk, 7) {
        Ok(core) => {
            let mut core = core;
            a_shown_core_is_a_port(&core);
            let end = makes_and_joins(alloc, &mut core);
            (end, core.close())
        }
        Err((_, disk)) => (None, disk),
    }
}

fn is_named(list: &ListBody, file: u32) -> bool {
    let mut named = list.loose.as_slice().contains(&file);
    for block in list.blocks.as_slice() {
        named |= block.file == file;
    }
    for segment in list.segments.as_slice() {
        named |= segment.file == file;
    }
    named
}

// Whether the list names each file below its next one that isn't empty.
fn is_tidy(alloc: Global, image: &mut MemDisk) -> Result<bool, Fail> {
    let Some(list) = load(alloc, image)? else {
        return Ok(false);
    };
    let mut same = true;
    for file in 2..list.next_file {
        same &= image.len(file)? == 0 || is_named(&list, file);
    }
    Ok(same)
}

// Whether there are two entries, none of whose rows waits.
fn has_two<P: LookPort>(alloc: Global, port: &mut P) -> bool {
    match port.look() {
        Ok(look) => look.as_of == 2 && has_rows(alloc, &look.rows, &[]) == Ok(true),
        Err(_) => false,
    }
}

// Whether that is so of the store that an image holds, and its disk.
fn opens_to_two<D: Device>(alloc: Global, image: D) -> (bool, D) {
    match Core::open_store(alloc, image, 7) {
        Ok(core) => {
            let mut core = core;
            let same = has_two(alloc, &mut core);
            (same, core.close())
        }
        Err((_, disk)) => (false, disk),
    }
}

// The rows of a block of four pages.
fn block_rows(alloc: Global, disk: &mut MemDisk, file: u32) -> Result<Rows, Fail> {
    let mut bytes = vec![in alloc; 0; 16_384]?;
    let count = disk.read(file, 0, &mut bytes)?;
    bytes.truncate(count);
    Ok(block_of(alloc, bytes.as_slice())?.rows)
}

// The rows of the listed blocks, block by block.
fn rows_listed(alloc: Global, disk: &mut MemDisk, list: &ListBody) -> Result<Vec<Rows>, Fail> {
    let mut parts = Vec::new(alloc);
    for block in list.blocks.as_slice() {
        let rows = block_rows(alloc, disk, block.file)?;
        parts.push(rows)?;
    }
    Ok(parts)
}

// Whether of all rows in listed blocks just the first entry's row is found.
fn has_first(alloc: Global, disk: &mut MemDisk) -> Result<bool, Fail> {
    let Some(list) = load(alloc, disk)? else {
        return Ok(false);
    };
    let parts = rows_listed(alloc, disk, &list)?;
    let rows = merge_rows(alloc, Seq::of(parts))?;
    Ok(are_at(&rows, &[(0, 0)]))
}

fn has_both(alloc: Global, image: MemDisk) -> Result<bool, Fail> {
    let mut image = image;
    let tidy = is_tidy(alloc, &mut image)?;
    let (two, disk) = opens_to_two(alloc, image);
    let mut disk = disk;
    Ok(tidy && two && has_first(alloc, &mut disk)?)
}

// Whether the images of a disk are tidy and open to the two entries: what was synced last, what is held, one with ones
// where a crash leaves a byte open, and one with zeros there.
fn images_have_both(alloc: Global, disk: &MemDisk) -> Result<bool, Fail> {
    let mut same = true;
    for pick in 0u64..4 {
        same &= has_both(alloc, disk.image(pick)?)?;
    }
    Ok(same)
}

// Whether a compaction that is upset ends so, the look's bytes are the same, and both entries are in all that it
// leaves.
fn ends(alloc: Global, what: Upset, end: End) -> Result<bool, Fail> {
    let mut disk = MemDisk::empty(alloc);
    let ready = disk.upset(alloc, what);
    let (found, disk) = joined(alloc, disk);
    let same = ready && found == Some((end, true)) && disk.starved() == 0;
    Ok(same && images_have_both(alloc, &disk)?)
}

// The calls before the compaction begins: those of the opening of a new store, four of each push, thirteen of each
// flush, and four of the look, which reads so many pages.
fn calls_before(alloc: Global) -> u64 {
    let disk = match Core::open_store(alloc, MemDisk::empty(alloc), 7) {
        Ok(core) => core.close(),
        Err((_, disk)) => disk,
    };
    disk.calls().saturating_add(38)
}

const JOINED: Round = Round::Did { blocks: 2, rows: 1 };

const FAULT: Round = Round::Refused(Refusal::Fault);

const READ_ONLY: Result<u64, ReclaimError> = Err(ReclaimError::ReadOnly { faults: 1 });

// The compaction makes two calls for its file, reads the four pages that no frame holds and writes one piece. One call
// makes the block last, and six write the list. Its files are emptied with two calls each, and six write the list
// again.
fn stopped_end(calls: u64) -> End {
    match calls {
        0..=1 => (FAULT, READ_ONLY),
        // A read that fails leaves the store as it is.
        2..=5 => (FAULT, Err(ReclaimError::Fault)),
        6..=13 => (FAULT, READ_ONLY),
        14..=23 => (JOINED, Err(ReclaimError::Fault)),
        _ => (JOINED, Ok(2)),
    }
}

// Whether all compactions that stop after these calls end as worked out.
fn stop(alloc: Global, from: u64, below: u64) -> Result<bool, Fail> {
    let before = calls_before(alloc);
    let mut same = true;
    for calls in from..below {
        let what = Upset::Stops(before.saturating_add(calls));
        same &= ends(alloc, what, stopped_end(calls))?;
    }
    Ok(same)
}

#[test]
fn a_compaction_that_is_stopped_keeps_both_entries(rt: HostRuntime) -> Result<(), Fail> {
    let same = stop(rt.alloc(), 0, 14)?;
    assert!(rt; same);
    Ok(())
}

#[test]
fn emptying_that_is_stopped_keeps_both_entries(rt: HostRuntime) -> Result<(), Fail> {
    let same = stop(rt.alloc(), 14, 25)?;
    assert!(rt; same);
    Ok(())
}
