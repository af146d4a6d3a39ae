//! Numbers of pins, and the files that pins name.

ghost use Rattle.std.specs.Prelude.{◌≡◌, ◌<◌, ◌≤◌, ◌||◌, ◌&&◌, ◌==◌, ℕ, [], false, true, not, if◌then◌else◌, length, IfOk, OnErr};
ghost use Rattle.std.specs.List.{Contains};
ghost use Rattle.store_files.specs.Pins.{is_taken, files_at};

use block_list::FileList;
use span_types::Memory;
use std::alloc::Global;

/// Takes the least number that no pin has, for a pin that names these files. Out of memory none is taken.
pub fn take_number(pins: &mut Vec<Option<FileList>>, files: FileList) -> Result<u64, Memory>
    ensures free { IfOk result (λ number. is_taken number pins.old.items ≡ false) }
    ensures least { IfOk result (λ number. (other : ℕ) → is_taken other pins.old.items ≡ false
        → number ≤ other) }
    ensures taken { IfOk result (λ number. (other : ℕ) →
        is_taken other pins.new.items ≡ (is_taken other pins.old.items || (number == other))) }
    ensures files { IfOk result (λ number. (other : ℕ) →
        files_at other pins.new.items
        ≡ (if number == other then files else files_at other pins.old.items)) }
    ensures refused { OnErr result ((other : ℕ)
        → is_taken other pins.new.items ≡ is_taken other pins.old.items) }
    ensures refused_files { OnErr result ((other : ℕ)
        → files_at other pins.new.items ≡ files_at other pins.old.items) }
{
    let number = first_free(pins);
    if number < pins.len() {
        pins[number] = Some(files);
    } else {
        pins.push(Some(files))?;
    }
    Ok(number as u64)
}

// The first position that is free, or the length.
#[tactic(auto, using(crate::proofs::PinNumbers::least_of))]
fn first_free(pins: &[Option<FileList>]) -> usize
    ensures inside { result ≤ length pins.now }
    ensures free { is_taken result pins.now ≡ false }
    ensures least { (other : ℕ) → is_taken other pins.now ≡ false → result ≤ other }
{
    for at in 0..pins.len() {
        if pins[at].is_none() {
            return at;
        }
    }
    pins.len()
}

/// Gives a number back.
pub fn free_number(pins: &mut Vec<Option<FileList>>, number: u64)
    ensures taken { (other : ℕ)
        → is_taken other pins.new.items ≡ (is_taken other pins.old.items && not (number == other)) }
    ensures files { (other : ℕ) →
        files_at other pins.new.items
        ≡ (if number == other then [] else files_at other pins.old.items) }
{
    if number < pins.len() as u64 {
        pins[number as usize] = None;
    }
}

/// Gives the number of a pin back, and answers the files that the pin named.
pub fn take_files(pins: &mut Vec<Option<FileList>>, number: u64) -> FileList
    requires { is_taken number pins.now.items ≡ true }
    ensures result { result ≡ files_at number pins.old.items }
    ensures taken { (other : ℕ)
        → is_taken other pins.new.items ≡ (is_taken other pins.old.items && not (number == other)) }
    ensures files { (other : ℕ) →
        files_at other pins.new.items
        ≡ (if number == other then [] else files_at other pins.old.items) }
    ensures len { length pins.new.items ≡ length pins.old.items }
{
    match pins[number as usize].take() {
        Some(files) => files,
        None => unreachable!(),
    }
}

/// Takes a number again that was given back, for a pin that names these files.
pub fn give_back(pins: &mut Vec<Option<FileList>>, number: u64, files: FileList)
    requires { number < length pins.now.items }
    ensures taken { (other : ℕ)
        → is_taken other pins.new.items ≡ (is_taken other pins.old.items || (number == other)) }
    ensures files { (other : ℕ) →
        files_at other pins.new.items
        ≡ (if number == other then files else files_at other pins.old.items) }
{
    pins[number as usize] = Some(files);
}

/// The files that pins name, in any order, some perhaps more than once.
pub fn pinned_files(alloc: Global, pins: &[Option<FileList>]) -> Result<Vec<u32>, Memory>
    ensures all { IfOk result (λ files. (number file : ℕ) → Contains (files_at number pins.now) file
        → Contains files.items file) }
    ensures only { IfOk result (λ files. (file : ℕ) → Contains files.items file →
        (number : ℕ) × Contains (files_at number pins.now) file) }
{
    let mut files = Vec::new(alloc);
    for pin in pins {
        if let Some(named) = pin {
            files.extend_from_slice(named.as_slice())?;
        }
    }
    Ok(files)
}
