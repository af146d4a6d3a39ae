//! A new store is made on a disk that has none.

ghost use Rattle.std.specs.Prelude.{◌≡◌, ◌≢◌, ◌≤◌, ℕ, None, Some, Err, IsTrue, IfOk, IfErr, OnOk};
ghost use Rattle.disk_model.specs.Calls.{Counts, CountsFault};
ghost use Rattle.disk_model.specs.Crash.{LeavesOnly};
ghost use Rattle.block_list.specs.Loading.{IsReady};
ghost use Rattle.store_model.specs.History.{History};
ghost use Rattle.store_core.specs.New.{new_list, IsEmptyHistory, StoresNothing, IsNewStore};
ghost use Rattle.store_core.specs.NewCore.{new_machine, IsNewState};
ghost use Rattle.store_core.specs.Cores.{CoreStandsFor};
ghost use Rattle.store_files.specs.declared.error.OpenError.TheVariants.{Fault, NotStore};

use crate::jobs::Jobs;
use crate::since::Since;
use crate::state::CoreState;
use crate::store::Core;
use block_list::{BlockList, FileList, ListBody, SegmentList, SegmentRef, commit, prepare};
use disk_model::Device;
use head_log::{Segment, create};
use live_traces::Live;
use page_cache::PageCache;
use span_types::Memory;
use std::alloc::Global;
use store_files::OpenError;

/// Opens a new store on a disk whose slots are vacant, with these frames for its pages. At `Ok` the core stands for each history
/// without rows and entries.
///
/// Refused, it hands the disk back as far as it came.
pub fn open_new<D: Device>(
    alloc: Global,
    disk: D,
    cache: PageCache,
) -> Result<Core<D>, (OpenError, D)>
    requires vacant { IsTrue (D.tells disk) → IsReady (D.held disk) (D.may_leave disk) None }
    ensures stands { IfOk result (λ core. (h : History) → IsEmptyHistory h
        → CoreStandsFor D.Device.own core (new_machine h)) }
    // Whenever a crash comes, nothing is stored, and what is left is tidy.
    ensures any_moment { IfOk result (λ core. IsTrue (D.tells disk) →
        LeavesOnly D.moment D.left_since disk core.disk StoresNothing) }
    ensures any_moment_refused { IfErr result (λ e. IsTrue (D.tells disk) →
        LeavesOnly D.moment D.left_since disk e.1 StoresNothing) }
    ensures counted { IfOk result (λ core. Counts D.Device.own 0 (Unit {0}) ⊥ disk core.disk) }
    ensures counted_refused { IfErr result
        (λ e. Counts D.Device.own 0 (e.0 ≢ Fault) (e.0 ≡ Fault) disk e.1) }
    ensures a_store { IfErr result (λ e. (file at : ℕ) → e.0 ≢ NotStore file at) }
    ensures unchanged { IfErr result (λ e. e.0 ≢ Fault → e.1 ≡ disk) }
    ensures list { IfOk result (λ core. core.state.list ≡ new_list) }
    ensures frames { IfOk result (λ core. core.cache ≡ cache) }
    ensures ends { IfOk result (λ core. core.since.moment ≡ D.moment core.disk) }
    ensures ready { IfOk result (λ core. IsTrue (D.tells disk)
        → IsReady (D.held core.disk) (D.may_leave core.disk) (Some core.state.list)) }
{
    let mut disk = disk;
    match make_store(alloc, &mut disk) {
        Ok(list) => {
            let since = Since::now(&disk);
            Ok(Core {
                alloc,
                disk,
                state: new_state(alloc, list),
                since,
                cache,
            })
        }
        Err(error) => Err((error, disk)),
    }
}

// What a new store keeps in memory.
fn new_state(alloc: Global, list: ListBody) -> CoreState
    requires { list ≡ new_list }
    ensures { IsNewState result }
{
    let jobs = Jobs::idle(alloc, list.next_file);
    CoreState {
        live: Live::new(alloc),
        list,
        infos: Vec::new(alloc),
        segment: Segment::fresh(2, 0),
        jobs,
        pins: Vec::new(alloc),
        read_only: None,
        unsure: None,
    }
}

/// Makes a new store on a disk whose slots are vacant: an empty segment, and a list that names it. All memory is taken before the
/// disk is changed.
pub fn make_store<D: Device>(alloc: Global, disk: &mut D) -> Result<ListBody, OpenError>
    requires vacant { IsTrue (D.tells disk.old)
        → IsReady (D.held disk.old) (D.may_leave disk.old) None }
    ensures list { IfOk result (λ list. list ≡ new_list) }
    // Whenever a crash comes, nothing is stored, and what is left is tidy.
    ensures any_moment { IsTrue (D.tells disk.old)
        → LeavesOnly D.moment D.left_since disk.old disk.new StoresNothing }
    ensures made { IsTrue (D.tells disk.old)
        → OnOk result (IsNewStore (D.held disk.new) (D.may_leave disk.new)) }
    ensures counted { CountsFault D.Device.own 0 Fault disk.old disk.new result }
    ensures a_store { (file at : ℕ) → result ≢ Err (NotStore file at) }
    ensures unchanged { IfErr result (λ error. error ≢ Fault → disk.new ≡ disk.old) }
    ensures no_read { D.reads disk.new ≡ D.reads disk.old }
{
    let Ok(list) = first_list(alloc) else {
        return Err(OpenError::Memory);
    };
    let Ok(prepared) = prepare(alloc, &list) else {
        return Err(OpenError::Memory);
    };
    let Ok(()) = create(disk, 2) else {
        return Err(OpenError::Fault);
    };
    let Ok(()) = commit(disk, &prepared) else {
        return Err(OpenError::Fault);
    };
    Ok(list)
}

// The list of a new store.
fn first_list(alloc: Global) -> Result<ListBody, Memory>
    ensures { IfOk result (λ list. list ≡ new_list) }
{
    let mut segments = Vec::new(alloc);
    segments.push(SegmentRef { file: 2, first: 0 })?;
    Ok(ListBody {
        generation: 0,
        next_file: 3,
        floor: 0,
        segments: SegmentList::of(segments),
        blocks: BlockList::none(alloc),
        loose: FileList::none(alloc),
    })
}
