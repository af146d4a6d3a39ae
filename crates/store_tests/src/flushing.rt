//! Flushes of a store over a disk in memory: one is open at a time, and what one leaves that fails is freed.

ghost use Rattle.std.specs.Prelude.{List};
ghost use Rattle.store_model.specs.Holds.{Hold};
ghost use Rattle.store_state.specs.Given.{flush_of};
ghost use Rattle.store_state.specs.Meaning.{IsOpen};

use crate::live::has_rows;
use crate::store::{Step, Upset, Upsets, counted, played};
use block_list::load;
use disk_model::{Device, MemDisk};
use flusher::flush_round;
use std::alloc::Global;
use std::test::Fail;
use store_core::{Core, a_shown_core_is_a_port};
use store_state::{BeginError, FlushJob, FlushPort, Refusal, Round};

// The disk of a store with one push of two rows. It has the list in slot 0, and one segment.
fn with_push(alloc: Global) -> (bool, MemDisk) {
    played(alloc, MemDisk::empty(alloc), &[Step::Both(Ok(0))])
}

// Whether a flush has this number and the rows of that push, by trace.
fn is_job(alloc: Global, job: &FlushJob, number: u64) -> bool {
    job.out.number == number && has_rows(alloc, &job.rows, &[(0, 1), (0, 0)]) == Ok(true)
}

fn begins<P: FlushPort>(alloc: Global, port: &mut P, number: u64) -> bool {
    match port.begin_flush() {
        Ok(Some(job)) => is_job(alloc, &job, number),
        _ => false,
    }
}

// Whether no flush begins beside the first one, and its rows are those of the next one once it is dropped.
fn begins_again<P: FlushPort>(alloc: Global, port: &mut P, job: FlushJob) -> bool
    requires { IsOpen P.meaning port.old (flush_of job) }
{
    let is_busy = match port.begin_flush() {
        Err(error) => error == BeginError::Busy { job: 1 },
        Ok(_) => false,
    };
    port.drop_flush(job);
    is_busy && begins(alloc, port, 2)
}

// Whether that is so once all rows are cut and a flush began.
fn begins_twice<P: FlushPort>(alloc: Global, port: &mut P) -> bool
    requires { (held : List Hold) × P.meaning.holds port.old held }
{
    let cut = port.cut_all();
    match port.begin_flush() {
        Ok(Some(job)) => {
            cut == Ok(2) && is_job(alloc, &job, 1) && begins_again(alloc, port, job)
        }
        _ => false,
    }
}

fn opens_and_begins<D: Device>(alloc: Global, disk: D) -> bool {
    match Core::open_store(alloc, disk, 7) {
        Ok(core) => {
            let mut core = core;
            a_shown_core_is_a_port(&core);
            begins_twice(alloc, &mut core)
        }
        Err(_) => false,
    }
}

#[test]
fn one_flush_is_open_at_a_time(rt: HostRuntime) {
    let alloc = rt.alloc();
    let (pushed, disk) = with_push(alloc);
    assert!(rt; pushed && opens_and_begins(alloc, disk));
}

// How a flush of all rows ends, and how often the disk has failed by then if the store is read-only.
type End = (Round, Option<u64>);

fn flush<P: FlushPort>(alloc: Global, port: &mut P) -> End
    requires { (held : List Hold) × P.meaning.holds port.old held }
{
    let _cut = port.cut_all();
    let round = flush_round(alloc, port);
    (round, read_only(port))
}

fn read_only<P: FlushPort>(port: &mut P) -> Option<u64> {
    match port.begin_flush() {
        Err(BeginError::ReadOnly { faults }) => Some(faults),
        _ => None,
    }
}

// A flush of all rows in the store that a disk holds, none where it isn't opened, and the disk.
fn flushed<D: Device>(alloc: Global, disk: D) -> (Option<End>, D) {
    match Core::open_store(alloc, disk, 7) {
        Ok(core) => {
            let mut core = core;
            a_shown_core_is_a_port(&core);
            let end = flush(alloc, &mut core);
            (Some(end), core.close())
        }
        Err((_, disk)) => (None, disk),
    }
}

// The disk of a store whose first push is in a block, whose file is 3. None where the flush ends otherwise.
pub(crate) fn flushed_one(alloc: Global) -> Option<MemDisk> {
    let (pushed, disk) = with_push(alloc);
    let (end, disk) = flushed(alloc, disk);
    (pushed && end.is_some()).then_some(disk)
}

// The opening makes 25 calls: both slots are synced, measured and read, the segment is synced and read in two, and the
// eight files from the next one on are synced and measured.
const OPENING: u64 = 25;

// What a flush answers that fails, and then the next one.
const FAILS: End = (Round::Refused(Refusal::Fault), Some(1));

// Whether the files from the list's next number on are empty.
fn is_free_beyond(alloc: Global, disk: &mut MemDisk) -> Result<bool, Fail> {
    let Some(list) = load(alloc, disk)? else {
        return Ok(false);
    };
    let mut is_free = true;
    for file in list.next_file..list.next_file.saturating_add(8) {
        is_free &= disk.len(file)? == 0;
    }
    Ok(is_free)
}

// What a flush leaves whose call of this number fails.
fn left_by_a_failed_flush(alloc: Global, call: u64) -> Option<MemDisk> {
    let (pushed, disk) = with_push(alloc);
    let mut disk = disk;
    let ready = disk.upset(alloc, Upset::Fails(OPENING.saturating_add(call)));
    let (found, disk) = flushed(alloc, disk);
    (pushed && ready && found == Some(FAILS)).then_some(disk)
}

// Whether a flush whose call of this number fails leaves files or none, and the next opening, which finds the push, frees them.
fn is_freed(alloc: Global, call: u64) -> Result<bool, Fail> {
    let Some(disk) = left_by_a_failed_flush(alloc, call) else {
        return Ok(false);
    };
    let mut disk = disk;
    let was_free = is_free_beyond(alloc, &mut disk)?;
    let (found, disk) = counted(alloc, disk);
    let mut disk = disk;
    let is_free = is_free_beyond(alloc, &mut disk)?;
    Ok(was_free == (call < 5) && found == Some(1) && is_free && disk.starved() == 0)
}

// The first two calls empty the block's file; the third empties the segment's, and the fourth writes its first bytes.
#[test]
fn what_a_failed_flush_left_is_freed_by_the_next_opening(rt: HostRuntime) -> Result<(), Fail> {
    for call in 1u64..12 {
        let is_freed = is_freed(rt.alloc(), call)?;
        assert!(rt; is_freed, "call {call}");
    }
    Ok(())
}
