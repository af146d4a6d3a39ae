//! The list that counts is read from the two slots, as a store is opened: both are synced and read, and a long slot
//! that has no list is cut to its first byte, so that the next commit may be written to it.

ghost use Rattle.std.specs.Prelude.{◌≡◌, ◌≢◌, ◌⊎◌, ◌<◌, ◌≤◌, ℕ, List, length, take, Option, Some, None, Ok, Err, IsTrue, IsOk, IsErr, IfOk, IfErr, OnOk};
ghost use Rattle.disk_model.specs.Images.{Image, bytes_of, Besides, SameBytes};
ghost use Rattle.disk_model.specs.Calls.{Calls, Counts, CountsFault};
ghost use Rattle.disk_model.specs.Crash.{OnlyBytes, Run, Untouched};
ghost use Rattle.block_list.specs.Body.{MeetsRules};
ghost use Rattle.block_list.specs.Fronts.{counting};
ghost use Rattle.block_list.specs.Slots.{SlotsHold, ImageHoldsList, IsNext};
ghost use Rattle.block_list.specs.Reading.{slots_at, newer_of, generation_of};
ghost use Rattle.block_list.specs.Loading.{GivesList, error_of, StaysOrClears, KeepsList, IsFree, IsReady, cleared};
ghost use Rattle.block_list.specs.declared.body.ListBody.{ListBody};
ghost use Rattle.block_list.specs.declared.error.ListError.TheVariants.{Fault, NotList, Memory};

use crate::reading::{Break, is_to_clear, list_size, read_slot};
use crate::{ListBody, ListError};
use disk_model::{Device, cut_through};
use span_types::Failed;
use std::alloc::Global;

/// The list that counts, or `None` on a disk whose slots have none. The two slots are made to last and then read. A
/// slot that has no list, though it is long enough for one, is cut down to its gate.
///
/// A closing gate may then be written to a slot whatever stands in it: it is either open, and holds the list before
/// the one that counts, or too short to hold one. Where the slots are refused, or memory runs out, the disk stays as
/// it was. At a fault too a slot that isn't vacant stays as it was, also a malformed one.
pub fn load<D: Device>(alloc: Global, disk: &mut D) -> Result<Option<ListBody>, ListError>
    // What the slots say, and where they break, is by the bytes that the disk held.
    ensures found { IsTrue (D.tells disk.old)
        → IfOk result (λ list.
        slots_at (bytes_of (D.held disk.old) 0) (bytes_of (D.held disk.old) 1) ≡ Ok list) }
    ensures list { IsTrue (D.tells disk.old)
        → IfOk result (λ list. ImageHoldsList (D.held disk.old) list) }
    ensures not_list { IsTrue (D.tells disk.old) → (slot at : ℕ) → result ≡ Err (NotList slot at)
        → slots_at (bytes_of (D.held disk.old) 0) (bytes_of (D.held disk.old) 1) ≡ Err (slot, at) }

    // A list meets the rules, whatever the disk shows.
    ensures rules { (body : ListBody) → result ≡ Ok (Some body) → MeetsRules body }

    // Slots that stand for a list, or for none, are read as just that.
    ensures only { IsTrue (D.tells disk.old) → (list : Option ListBody)
        → ImageHoldsList (D.held disk.old) list → IfOk result (λ found. found ≡ list) }
    ensures readable { IsTrue (D.tells disk.old) → (list : Option ListBody) (slot at : ℕ)
        → ImageHoldsList (D.held disk.old) list → result ≢ Err (NotList slot at) }

    // A crash at any moment leaves what stands for what some image stood for at the start, with every other file, and
    // with each slot that wasn't vacant there, be it malformed.
    ensures kept { IsTrue (D.tells disk.old)
        → Run KeepsList D.moment D.left_since D.may_leave disk.old disk.new }

    // At `Ok` the disk still stands for the list, each slot has one image, which is what a read gives, and the next
    // list may be laid.
    ensures ready { IsTrue (D.tells disk.old)
        → IfOk result (λ list. IsReady (D.held disk.new) (D.may_leave disk.new) list) }
    ensures cleared_0 { IsTrue (D.tells disk.old)
        → OnOk result (bytes_of (D.held disk.new) 0 ≡ cleared (bytes_of (D.held disk.old) 0)) }
    ensures cleared_1 { IsTrue (D.tells disk.old)
        → OnOk result (bytes_of (D.held disk.new) 1 ≡ cleared (bytes_of (D.held disk.old) 1)) }
    ensures others { IsTrue (D.tells disk.old) → (file : ℕ) → 2 ≤ file
        → bytes_of (D.held disk.new) file ≡ bytes_of (D.held disk.old) file }

    // Whatever the answer, a fault too, a read gives of a slot that isn't vacant what it gave before.
    ensures slots { IsTrue (D.tells disk.old) → (slot : ℕ) → slot < 2
        → StaysOrClears (bytes_of (D.held disk.old) slot) (bytes_of (D.held disk.new) slot) }

    // Slots that are refused stay as they were, and so does all else.
    ensures left_alone { IfErr result (λ error. error ≢ Fault
        → Untouched D.tells D.held D.may_leave D.moment D.left_since disk.old disk.new) }

    // A fault is answered just where a call failed, and it was the last one. Nothing is written.
    ensures counted { CountsFault D.Device.own 0 Fault disk.old disk.new result }
{
    let (first, second) = read_both(alloc, disk)?;
    let list = read_slots(alloc, &first, &second)?;
    clear_both(disk, &first, &second)?;
    Ok(list)
}

/// The generation of the list that comes after the one that counts, or of the first one.
pub fn next_generation(list: &Option<ListBody>) -> u8
    ensures { IsNext result list.now }
{
    match list {
        None => 0,
        Some(body) => body.generation.wrapping_add(1),
    }
}

/// What the two slots say.
#[tactic(auto, unfolding(crate::specs::Reading::slots_at))]
fn read_slots(alloc: Global, first: &[u8], second: &[u8]) -> Result<Option<ListBody>, ListError>
    ensures reads { GivesList result (slots_at first.now second.now) }
    ensures stands { IfOk result (SlotsHold 0 first.now second.now) }
{
    let one = match read_slot(alloc, first, 0, None) {
        Ok(one) => one,
        Err(at) => return Err(broken(0, at)),
    };
    let two = match read_slot(alloc, second, 1, generation_of(&one)) {
        Ok(two) => two,
        Err(at) => return Err(broken(1, at)),
    };
    Ok(newer_of(one, two))
}

/// What is said of a slot that breaks.
fn broken(slot: u32, at: Break) -> ListError
    ensures { result ≡ error_of slot at }
{
    match at {
        Some(at) => ListError::NotList { slot, at },
        None => ListError::Memory,
    }
}

fn generation_of(list: &Option<ListBody>) -> Option<u8>
    ensures { result ≡ generation_of list.now }
{
    match list {
        None => None,
        Some(body) => Some(body.generation),
    }
}

/// Of two lists the one that is the other's successor.
fn newer_of(first: Option<ListBody>, second: Option<ListBody>) -> Option<ListBody>
    ensures { result ≡ newer_of first second }
{
    match (first, second) {
        (None, second) => second,
        (Some(first), None) => Some(first),
        (Some(first), Some(second)) => {
            if second.generation == first.generation.wrapping_add(1) {
                Some(second)
            } else {
                Some(first)
            }
        }
    }
}

/// Syncs both slots: a crash leaves of them what a read gives.
fn sync_slots<D: Device>(disk: &mut D) -> Result<(), Failed>
    ensures slot_0 { IsTrue (D.tells disk.old)
        → OnOk result (OnlyBytes 0 (bytes_of (D.held disk.new) 0) (D.may_leave disk.new)) }
    ensures slot_1 { IsTrue (D.tells disk.old)
        → OnOk result (OnlyBytes 1 (bytes_of (D.held disk.new) 1) (D.may_leave disk.new)) }
    ensures untouched { Untouched D.tells D.held D.may_leave D.moment D.left_since disk.old disk.new }
    ensures counted { Calls D.Device.own 2 0 disk.old disk.new result }
{
    disk.sync(0)?;
    disk.sync(1)
}

/// How many bytes the gate and the fixed fields of a list take.
const HEAD: usize = 30;

/// The bytes of a slot that count. Of a file that is longer than its list no more is read, however long it is.
fn read_counting<D: Device>(alloc: Global, disk: &mut D, file: u32) -> Result<Vec<u8>, ListError>
    ensures bytes { IsTrue (D.tells disk.old)
        → IfOk result (λ bytes. bytes.items ≡ counting (bytes_of (D.held disk.old) file)) }
    ensures untouched { Untouched D.tells D.held D.may_leave D.moment D.left_since disk.old disk.new }
    ensures counted { CountsFault D.Device.own 0 Fault disk.old disk.new result }
    ensures errors { IfErr result (λ error. (error ≡ Fault) ⊎ (error ≡ Memory)) }
{
    let head = read_first(alloc, disk, file, HEAD)?;
    if head.len() < HEAD {
        return Ok(head);
    }
    let size = match list_size(alloc, &head) {
        Ok(size) => size.min(disk.len(file)?),
        Err(_) => return Err(ListError::Memory),
    };
    read_first(alloc, disk, file, size as usize)
}

/// The first bytes of a file, as many as are asked for or as there are.
fn read_first<D: Device>(
    alloc: Global,
    disk: &mut D,
    file: u32,
    count: usize,
) -> Result<Vec<u8>, ListError>
    ensures bytes { IsTrue (D.tells disk.old)
        → IfOk result (λ bytes. bytes.items ≡ take count (bytes_of (D.held disk.old) file)) }
    ensures few { IfOk result (λ bytes. length bytes.items ≤ count) }
    ensures untouched { Untouched D.tells D.held D.may_leave D.moment D.left_since disk.old disk.new }
    ensures counted { CountsFault D.Device.own 0 Fault disk.old disk.new result }
    ensures errors { IfErr result (λ error. (error ≡ Fault) ⊎ (error ≡ Memory)) }
{
    let Ok(mut bytes) = vec![in alloc; 0; count] else {
        return Err(ListError::Memory);
    };
    let count = disk.read(file, 0, &mut bytes)?;
    bytes.truncate(count);
    Ok(bytes)
}

/// Cuts a vacant slot of 30 bytes or more to its first byte, and syncs it. These are its bytes that count.
fn clear_vacant<D: Device>(disk: &mut D, slot: u32, bytes: &[u8]) -> Result<(), Failed>
    requires slot { slot < 2 }
    requires only { IsTrue (D.tells disk.old)
        → OnlyBytes slot (bytes_of (D.held disk.old) slot) (D.may_leave disk.old) }
    requires bytes { IsTrue (D.tells disk.old)
        → bytes.now ≡ counting (bytes_of (D.held disk.old) slot) }
    ensures kept { IsTrue (D.tells disk.old)
        → Run KeepsList D.moment D.left_since D.may_leave disk.old disk.new }
    ensures only { IsTrue (D.tells disk.old)
        → OnOk result (OnlyBytes slot (bytes_of (D.held disk.new) slot) (D.may_leave disk.new)) }
    ensures cleared { IsTrue (D.tells disk.old)
        → OnOk result (bytes_of (D.held disk.new) slot
        ≡ cleared (bytes_of (D.held disk.old) slot)) }
    ensures free { IsTrue (D.tells disk.old)
        → OnOk result (IsFree (bytes_of (D.held disk.new) slot)) }
    ensures besides { IsTrue (D.tells disk.old) → Besides slot (D.held disk.old) (D.held disk.new) }
    ensures other_images { (other : ℕ) (bytes : List ℕ) → other ≢ slot
        → OnlyBytes other bytes (D.may_leave disk.old)
        → OnlyBytes other bytes (D.may_leave disk.new) }
    ensures counted { Counts D.Device.own 0 (IsOk result) (IsErr result) disk.old disk.new }
{
    if is_to_clear(bytes) {
        return cut_through(disk, slot, 1);
    }
    Ok(())
}

/// The bytes of both slots that count. The slots are synced first.
fn read_both<D: Device>(alloc: Global, disk: &mut D) -> Result<(Vec<u8>, Vec<u8>), ListError>
    ensures first { IsTrue (D.tells disk.old)
        → IfOk result (λ both. both.0.items ≡ counting (bytes_of (D.held disk.old) 0)) }
    ensures second { IsTrue (D.tells disk.old)
        → IfOk result (λ both. both.1.items ≡ counting (bytes_of (D.held disk.old) 1)) }
    ensures slot_0 { IsTrue (D.tells disk.old)
        → OnOk result (OnlyBytes 0 (bytes_of (D.held disk.old) 0) (D.may_leave disk.new)) }
    ensures slot_1 { IsTrue (D.tells disk.old)
        → OnOk result (OnlyBytes 1 (bytes_of (D.held disk.old) 1) (D.may_leave disk.new)) }
    ensures untouched { Untouched D.tells D.held D.may_leave D.moment D.left_since disk.old disk.new }
    ensures counted { CountsFault D.Device.own 0 Fault disk.old disk.new result }
    ensures errors { IfErr result (λ error. (error ≡ Fault) ⊎ (error ≡ Memory)) }
{
    sync_slots(disk)?;
    let first = read_counting(alloc, disk, 0)?;
    let second = read_counting(alloc, disk, 1)?;
    Ok((first, second))
}

/// Clears each slot, if it is vacant and long. These are their bytes that count.
fn clear_both<D: Device>(disk: &mut D, first: &[u8], second: &[u8]) -> Result<(), Failed>
    requires only_0 { IsTrue (D.tells disk.old)
        → OnlyBytes 0 (bytes_of (D.held disk.old) 0) (D.may_leave disk.old) }
    requires only_1 { IsTrue (D.tells disk.old)
        → OnlyBytes 1 (bytes_of (D.held disk.old) 1) (D.may_leave disk.old) }
    requires first { IsTrue (D.tells disk.old)
        → first.now ≡ counting (bytes_of (D.held disk.old) 0) }
    requires second { IsTrue (D.tells disk.old)
        → second.now ≡ counting (bytes_of (D.held disk.old) 1) }
    ensures kept { IsTrue (D.tells disk.old)
        → Run KeepsList D.moment D.left_since D.may_leave disk.old disk.new }
    ensures slot_0 { IsTrue (D.tells disk.old)
        → OnOk result (OnlyBytes 0 (bytes_of (D.held disk.new) 0) (D.may_leave disk.new)) }
    ensures slot_1 { IsTrue (D.tells disk.old)
        → OnOk result (OnlyBytes 1 (bytes_of (D.held disk.new) 1) (D.may_leave disk.new)) }
    ensures cleared_0 { IsTrue (D.tells disk.old)
        → OnOk result (bytes_of (D.held disk.new) 0 ≡ cleared (bytes_of (D.held disk.old) 0)) }
    ensures cleared_1 { IsTrue (D.tells disk.old)
        → OnOk result (bytes_of (D.held disk.new) 1 ≡ cleared (bytes_of (D.held disk.old) 1)) }
    ensures free_0 { IsTrue (D.tells disk.old)
        → OnOk result (IsFree (bytes_of (D.held disk.new) 0)) }
    ensures free_1 { IsTrue (D.tells disk.old)
        → OnOk result (IsFree (bytes_of (D.held disk.new) 1)) }
    ensures others { IsTrue (D.tells disk.old) → (file : ℕ) → 2 ≤ file
        → bytes_of (D.held disk.new) file ≡ bytes_of (D.held disk.old) file }
    ensures counted { Counts D.Device.own 0 (IsOk result) (IsErr result) disk.old disk.new }
{
    clear_vacant(disk, 0, first)?;
    clear_vacant(disk, 1, second)
}
