//! Looking for a trace in a page of the index: bytes to the entry of one trace. `block_read` halves the index by it.

ghost use Rattle.std.specs.Prelude.{◌≡◌, ◌<◌, length};
ghost use Rattle.std.specs.Int.{w32, from_le_bytes};
ghost use Rattle.span_types.specs.Promises.{all_zero};
ghost use Rattle.block_index.specs.Index.{entries_on, entry_at, entry_of};
ghost use Rattle.block_index.specs.Found.{found, outcome};

use crate::entries::{ENTRIES_A_PAGE, IndexEntry};
use span_types::TraceId;
use std::cmp::Ordering;

/// Where a trace is, by one page of the index.
#[derive(Clone, Copy, Debug, PartialEq, Eq)]
pub enum Found {
    /// An entry of the page is the trace's.
    Here {
        /// The number of its first row in the block, counted from 0.
        first_row: u32,
        /// How many rows it has.
        rows: u32,
    },
    /// The id is below that of each entry: the trace is on an earlier page, if at all.
    Before,
    /// The id is above that of each entry: the trace is on a later page, if at all.
    After,
    /// No entry is the trace's, and some are below it and some above.
    Absent,
}

/// Where a trace is, by one page of the index. The page's entries end before the first id of zeros alone. Takes no
/// memory.
pub fn find_in_page(page: &[u8; 4096], id: TraceId) -> Found
    ensures { result ≡ found id (entries_on page.now) }
{
    let mut below = true;
    let mut above = true;
    for index in 0..ENTRIES_A_PAGE {
        match entry_at(page, index) {
            None => return outcome(below, above),
            Some(entry) => match id.cmp(&entry.id) {
                Ordering::Less => above = false,
                Ordering::Greater => below = false,
                Ordering::Equal => {
                    return Found::Here {
                        first_row: entry.first_row,
                        rows: entry.rows,
                    };
                }
            },
        }
    }
    outcome(below, above)
}

/// What is said of an id that no entry has, and that is below or above all of them.
fn outcome(below: bool, above: bool) -> Found
    ensures { result ≡ outcome below above }
{
    if below {
        Found::Before
    } else if above {
        Found::After
    } else {
        Found::Absent
    }
}

/// The entry at an index of the page, unless its id is all zeros.
fn entry_at(page: &[u8; 4096], index: usize) -> Option<IndexEntry>
    requires { index < 170 }
    ensures { result ≡ entry_at page.now index }
{
    let bytes = &page[24 * index..24 * index + 24];
    if all_zero(&bytes[..16]) {
        return None;
    }
    Some(entry_of(bytes))
}

fn all_zero(bytes: &[u8]) -> bool
    ensures { result ≡ all_zero bytes.now }
{
    bytes.iter().all(|b| *b == 0)
}

/// The entry that 24 bytes say.
fn entry_of(bytes: &[u8]) -> IndexEntry
    requires { length bytes.now ≡ 24 }
    ensures { result ≡ entry_of bytes.now }
{
    let mut id = [0; 16];
    id.copy_from_slice(&bytes[..16]);
    IndexEntry {
        id: TraceId(id),
        first_row: number_of(&bytes[16..20]),
        rows: number_of(&bytes[20..24]),
    }
}

/// The number that 4 bytes say, the lowest first.
fn number_of(bytes: &[u8]) -> u32
    requires { length bytes.now ≡ 4 }
    ensures { result ≡ from_le_bytes w32 bytes.now }
{
    u32::from_le_bytes([bytes[0], bytes[1], bytes[2], bytes[3]])
}
