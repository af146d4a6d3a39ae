//! What a crash may leave of one file, as bytes.

ghost use Rattle.std.specs.Prelude.{◌≡◌, ◌≤◌, ◌-◌, ◌+◌, ◌*◌, ◌%◌, ◌^◌, ◌<◌, ℕ, List, length, slice_index, nat_le, ◌||◌};
ghost use Rattle.std.specs.List.{list_any};
ghost use Rattle.disk_model.specs.Files.{frees};
ghost use Rattle.disk_model.specs.Picks.{mixed, mixed_byte, mixed_length, picked_length, free_byte, seed_of};

use crate::change::Pending;

/// Whether the byte at an offset isn't that of the last sync for certain.
pub fn is_free(synced: &[u8], pending: &[Pending], offset: u64) -> bool
    ensures { result ≡ (nat_le (length synced.now) offset || list_any (frees offset) pending.now) }
{
    synced.len() as u64 <= offset || is_changed(pending, offset)
}

/// Whether a change leaves open which byte stands at an offset.
fn is_changed(pending: &[Pending], offset: u64) -> bool
    ensures { result ≡ list_any (frees offset) pending.now }
{
    pending.iter().any(|change| change.frees(offset))
}

/// The byte at an offset, and 0 past the end.
pub fn byte_at(bytes: &[u8], offset: u64) -> u8
    ensures { result ≡ slice_index bytes.now offset }
{
    bytes.get(offset as usize).copied().unwrap_or(0)
}

/// A number that looks random, the same for the same seed.
fn mixed(seed: u64) -> u64
    ensures { result ≡ mixed seed }
{
    seed.wrapping_mul(0x9e37_79b9_7f4a_7c15) >> 32
}

/// The seed for a file.
pub fn seed_of(pick: u64, number: u32) -> u64
    ensures { result ≡ seed_of pick number }
{
    mixed(pick.wrapping_add(u64::from(number) << 32))
}

/// The length that a pick gives of a file: one from the least to the greatest.
pub fn picked_length(pick: u64, least: u64, greatest: u64, seed: u64) -> u64
    ensures { result ≡ picked_length pick least greatest seed }
{
    match pick {
        2 => greatest,
        3 => least,
        _ => mixed_length(least, greatest, seed),
    }
}

/// The least length, the greatest one, or one between.
fn mixed_length(least: u64, greatest: u64, seed: u64) -> u64
    ensures { result ≡ mixed_length least greatest seed }
{
    if greatest <= least || seed % 4 == 0 {
        return least;
    }
    if seed % 4 == 3 {
        return least + seed / 4 % (greatest - least);
    }
    greatest
}

/// The byte that a pick gives where a crash leaves it open.
pub fn free_byte(pick: u64, synced: u8, held: u8, seed: u64) -> u8
    ensures { result ≡ free_byte pick synced held seed }
{
    match pick {
        2 => 1,
        3 => 0,
        _ => mixed_byte(synced, held, mixed(seed)),
    }
}

/// What was synced, what is held, or some other byte.
fn mixed_byte(synced: u8, held: u8, seed: u64) -> u8
    ensures { result ≡ mixed_byte synced held seed }
{
    match seed % 4 {
        0 => synced,
        3 => (seed / 4 % 256) as u8,
        _ => held,
    }
}
