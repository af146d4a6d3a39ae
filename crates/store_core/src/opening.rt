//! Opening, and its order: list, blocks, log, loose files; or a new store.

ghost use Rattle.std.specs.Prelude.{◌≡◌, ◌≢◌, ◌≤◌, ◌+◌, ◌-◌, ℕ, List, [], drop, map, replicate, Option, None, Some, Err, IsTrue, IfOk, IfErr, OnOk};
ghost use Rattle.std.specs.List.{Contains};
ghost use Rattle.span_types.specs.declared.spans.Span.{Span};
ghost use Rattle.disk_model.specs.Calls.{Counts, CountsFault};
ghost use Rattle.disk_model.specs.Images.{bytes_of};
ghost use Rattle.disk_model.specs.Crash.{OnlyBytes, Untouched};
ghost use Rattle.block_list.specs.Body.{MeetsRules};
ghost use Rattle.block_list.specs.Loading.{IsReady};
ghost use Rattle.block_list.specs.Slots.{ImageHoldsList};
ghost use Rattle.block_list.specs.declared.body.BlockRef.{BlockRef};
ghost use Rattle.block_list.specs.declared.body.SegmentRef.{SegmentRef};
ghost use Rattle.block_list.specs.declared.body.ListBody.{ListBody};
ghost use Rattle.store_model.specs.After.{arrived};
ghost use Rattle.store_model.specs.History.{History, record_rows};
ghost use Rattle.store_model.specs.State.{Block};
ghost use Rattle.store_images.specs.Stored.{BlocksStand, ImageStandsFor, IsSoundImage, first_number, ref_of};
ghost use Rattle.store_images.specs.Settled.{IsSettled};
ghost use Rattle.store_files.specs.LogReading.{tail_of, LogBreaks, LogRead};
ghost use Rattle.store_files.specs.BlockReading.{BlocksRead};
ghost use Rattle.store_files.specs.Loose.{AreFreed, KeepsDisk};
ghost use Rattle.store_core.specs.Opening.{HasEntries, LeavesAlone, opened_list, Opened, IsOpenedState, ListBreaks, StoreBreaks, refusal_of};
ghost use Rattle.store_files.specs.declared.error.OpenError.TheVariants.{Fault, NotStore};

use crate::jobs::Jobs;
use crate::new_store::open_new;
use crate::reviving::revive;
use crate::since::Since;
use crate::state::CoreState;
use crate::store::Core;
use block_info::SharedInfo;
use block_list::{ListBody, ListError, load};
use disk_model::Device;
use head_log::Segment;
use live_traces::Live;
use page_cache::PageCache;
use std::alloc::Global;
use store_files::{OpenError, empty_loose, read_blocks, read_log};

impl<D: Device> Core<D> {
    /// Opens the store that a disk holds, or a new one where both slots of its list are vacant. The moment, in nanoseconds, is that
    /// of the rows which then wait in memory.
    ///
    /// The slots, and each listed block and segment, are made to last and read, and each block is checked whole. The loose files are
    /// emptied, and what jobs left in files from the list's next one on; where there were loose files the list is committed
    /// without them. Refused, it hands the disk back as far as it came: what is stored there is kept, and bytes that are no
    /// store are left as they are.
    pub fn open_store(alloc: Global, disk: D, moment: u64) -> Result<Core<D>, (OpenError, D)>
        ensures opened { IfOk result (λ core. Opened D.Device.own disk moment core) }
        // Whenever a crash comes, what is stored is kept, and what is left stays tidy.
        ensures kept { IfOk result (λ core. KeepsDisk D.Device.own disk core.disk) }
        ensures kept_refused { IfErr result (λ e. KeepsDisk D.Device.own disk e.1) }
        // Refused for another cause than a fault it leaves all bytes as they were, be they a store's or not.
        ensures left { IfErr result (λ e. IsTrue (D.tells disk) → e.0 ≢ Fault
            → LeavesAlone D.Device.own disk e.1) }
        // The list that counts then is the one that counted, or the next one without loose files, or a new store's.
        ensures list { IfOk result (λ core. IsTrue (D.tells disk) → (list : Option ListBody)
            → ImageHoldsList (D.held disk) list
            → core.state.list ≡ opened_list list) }
        ensures counted { IfOk result (λ core. IsTrue (D.tells disk)
            → (list : Option ListBody) × ImageHoldsList (D.held disk) list) }
        ensures ready { IfOk result (λ core. IsTrue (D.tells disk)
            → IsReady (D.held core.disk) (D.may_leave core.disk) (Some core.state.list)) }
        // What jobs left in files that the list doesn't name, as they failed or were killed, is gone.
        ensures freed { IfOk result (λ core. IsTrue (D.tells disk) → (list : ListBody)
            → ImageHoldsList (D.held disk) (Some list)
            → AreFreed (D.held disk) list.next_file (D.may_leave core.disk)) }
        // Its opening ends now.
        ensures ends { IfOk result (λ core. core.since.moment ≡ D.moment core.disk) }
        // Bytes are refused where they break, and only there: a sound store is not refused.
        ensures not_store { IfErr result (λ e. IsTrue (D.tells disk) → (file at : ℕ)
            → e.0 ≡ NotStore file at → StoreBreaks (D.held disk) file at) }
        ensures unbroken { IfOk result (λ core. IsTrue (D.tells disk) → (file at : ℕ)
            → StoreBreaks (D.held disk) file at → ⊥) }
        ensures sound { IfErr result (λ e. IsTrue (D.tells disk) → IsSoundImage (D.held disk)
            → (file at : ℕ) → e.0 ≢ NotStore file at) }
        // It counts the entries that the bytes had, be they a store's or not.
        ensures entries { IfOk result (λ core. IsTrue (D.tells disk)
            → HasEntries (D.held disk) (core.state.segment.first + core.state.segment.count)) }
        // All frames are empty. They are made first.
        ensures frames { IfOk result (λ core. core.cache ≡ replicate 256 None) }
        // A fault is answered just where a call of the disk failed, and then it was the last one.
        ensures calls { IfOk result (λ core. Counts D.Device.own 0 (Unit {0}) ⊥ disk core.disk) }
        ensures calls_refused { IfErr result
            (λ e. Counts D.Device.own 0 (e.0 ≢ Fault) (e.0 ≡ Fault) disk e.1) }
    {
        let Ok(cache) = PageCache::new(alloc) else {
            return Err((OpenError::Memory, disk));
        };
        let mut disk = disk;
        let found = match load(alloc, &mut disk) {
            Ok(found) => found,
            Err(error) => return Err((refusal(error), disk)),
        };
        match found {
            None => open_new(alloc, disk, cache),
            Some(list) => match read_store(alloc, &mut disk, list, moment) {
                Ok(state) => {
                    let since = Since::now(&disk);
                    Ok(Core {
                        alloc,
                        disk,
                        state,
                        since,
                        cache,
                    })
                }
                Err(error) => Err((error, disk)),
            },
        }
    }
}

// Why a store isn't opened whose list wasn't loaded.
fn refusal(error: ListError) -> OpenError
    ensures { result ≡ refusal_of error }
{
    match error {
        ListError::Fault => OpenError::Fault,
        ListError::NotList { slot, at } => OpenError::NotStore { file: slot, at },
        ListError::Memory => OpenError::Memory,
    }
}

// What the core keeps in memory of a store whose list was loaded. The loose files are emptied.
fn read_store<D: Device>(
    alloc: Global,
    disk: &mut D,
    list: ListBody,
    moment: u64,
) -> Result<CoreState, OpenError>
    requires rules { MeetsRules list }
    requires ready { IsTrue (D.tells disk.old)
        → IsReady (D.held disk.old) (D.may_leave disk.old) (Some list) }
    ensures blocks { IfOk result (λ state.
        BlocksRead (IsTrue (D.tells disk.old)) (D.held disk.old) list.blocks state.infos.items) }
    ensures state { IfOk result
        (λ state. (batches : List (List Span)) × IsOpenedState list batches moment state
        × LogRead (IsTrue (D.tells disk.old)) (D.held disk.old) list.segments
        (first_number list) batches (tail_of state.segment)) }
    ensures still { IsTrue (D.tells disk.old)
        → OnOk result ((x : SegmentRef) → Contains list.segments x
        → bytes_of (D.held disk.new) x.file ≡ bytes_of (D.held disk.old) x.file) }
    ensures blocks_still { IsTrue (D.tells disk.old)
        → OnOk result ((x : BlockRef) → Contains list.blocks x
        → bytes_of (D.held disk.new) x.file ≡ bytes_of (D.held disk.old) x.file) }
    ensures freed { IsTrue (D.tells disk.old)
        → OnOk result (AreFreed (D.held disk.old) list.next_file (D.may_leave disk.new)) }
    ensures settled { IsTrue (D.tells disk.old)
        → IfOk result (λ state. (blocks : List Block) → list.blocks ≡ map ref_of blocks
        → BlocksStand (D.held disk.old) blocks → (h : History) → ImageStandsFor (D.held disk.old) h
        → IsSettled (D.held disk.new) (D.may_leave disk.new) state.list blocks
        (tail_of state.segment) h) }
    ensures kept { KeepsDisk D.Device.own disk.old disk.new }
    ensures ready { IsTrue (D.tells disk.old)
        → IfOk result (λ state.
        IsReady (D.held disk.new) (D.may_leave disk.new) (Some state.list)) }
    ensures left { IfErr result (λ error. error ≢ Fault
        → Untouched D.tells D.held D.may_leave D.moment D.left_since disk.old disk.new) }
    ensures not_store { IsTrue (D.tells disk.old) → (file at : ℕ) → result ≡ Err (NotStore file at)
        → ListBreaks (D.held disk.old) list file at }
    ensures counted { CountsFault D.Device.own 0 Fault disk.old disk.new result }
{
    let (infos, segment, live) = match read_listed(alloc, disk, &list, moment) {
        Ok(read) => read,
        Err(error) => return Err(error),
    };
    match empty_loose(alloc, disk, list) {
        Ok(list) => {
            let jobs = Jobs::idle(alloc, list.next_file);
            Ok(CoreState {
                live,
                list,
                infos,
                segment,
                jobs,
                pins: Vec::new(alloc),
                read_only: None,
                unsure: None,
            })
        }
        Err(error) => Err(error),
    }
}

// What a list's blocks and its log hold: the information of the blocks, the last segment, and the rows from the floor on as live
// ones.
fn read_listed<D: Device>(
    alloc: Global,
    disk: &mut D,
    list: &ListBody,
    moment: u64,
) -> Result<(Vec<SharedInfo>, Segment, Live), OpenError>
    requires { MeetsRules list.now }
    ensures blocks { IfOk result (λ read.
        BlocksRead (IsTrue (D.tells disk.old)) (D.held disk.old) list.now.blocks read.0.items) }
    ensures log { IfOk result (λ read. (batches : List (List Span))
        × (read.2.live ≡ arrived moment
        (record_rows list.now.floor (drop (list.now.floor - first_number list.now) batches)))
        × LogRead (IsTrue (D.tells disk.old)) (D.held disk.old) list.now.segments
        (first_number list.now) batches (tail_of read.1)) }
    ensures others { IfOk result (λ read. (read.2.head ≡ []) × (read.2.flushing ≡ [])) }
    ensures few { IfOk result (λ read. read.1.first + read.1.count ≤ 4294967295) }
    ensures blocks_lie { IsTrue (D.tells disk.old)
        → OnOk result ((x : BlockRef) → Contains list.now.blocks x
        → OnlyBytes x.file (bytes_of (D.held disk.old) x.file) (D.may_leave disk.new)) }
    ensures segments_lie { IsTrue (D.tells disk.old)
        → OnOk result ((x : SegmentRef) → Contains list.now.segments x
        → OnlyBytes x.file (bytes_of (D.held disk.old) x.file) (D.may_leave disk.new)) }
    ensures not_store { IsTrue (D.tells disk.old) → (file at : ℕ) → result ≡ Err (NotStore file at)
        → ListBreaks (D.held disk.old) list.now file at }
    ensures untouched { Untouched D.tells D.held D.may_leave D.moment D.left_since disk.old disk.new }
    ensures counted { CountsFault D.Device.own 0 Fault disk.old disk.new result }
{
    let infos = match read_blocks(alloc, disk, list.blocks.as_slice()) {
        Ok(infos) => infos,
        Err(error) => return Err(error),
    };
    match read_rows(alloc, disk, list, moment) {
        Ok((segment, live)) => Ok((infos, segment, live)),
        Err(error) => Err(error),
    }
}

// The last segment of a list's log, and the rows from the floor on as live ones.
fn read_rows<D: Device>(
    alloc: Global,
    disk: &mut D,
    list: &ListBody,
    moment: u64,
) -> Result<(Segment, Live), OpenError>
    requires { MeetsRules list.now }
    ensures read { IfOk result (λ read. (batches : List (List Span))
        × (read.1.live ≡ arrived moment
        (record_rows list.now.floor (drop (list.now.floor - first_number list.now) batches)))
        × LogRead (IsTrue (D.tells disk.old)) (D.held disk.old) list.now.segments
        (first_number list.now) batches (tail_of read.0)) }
    ensures others { IfOk result (λ read. (read.1.head ≡ []) × (read.1.flushing ≡ [])) }
    ensures few { IfOk result (λ read. read.0.first + read.0.count ≤ 4294967295) }
    ensures lies { IsTrue (D.tells disk.old)
        → OnOk result ((x : SegmentRef) → Contains list.now.segments x
        → OnlyBytes x.file (bytes_of (D.held disk.old) x.file) (D.may_leave disk.new)) }
    ensures not_store { IsTrue (D.tells disk.old) → (file at : ℕ) → result ≡ Err (NotStore file at)
        → LogBreaks (D.held disk.old) list.now.segments (first_number list.now) file at }
    ensures untouched { Untouched D.tells D.held D.may_leave D.moment D.left_since disk.old disk.new }
    ensures counted { CountsFault D.Device.own 0 Fault disk.old disk.new result }
{
    match read_log(alloc, disk, list) {
        Ok((segment, batches)) => {
            let mut live = Live::new(alloc);
            match revive(&mut live, batches, list.floor, moment) {
                Ok(()) => Ok((segment, live)),
                Err(_) => Err(OpenError::Memory),
            }
        }
        Err(error) => Err(error),
    }
}
