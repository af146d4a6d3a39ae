//! Which blocks a compaction joins.

ghost use Rattle.std.specs.Prelude.{◌==◌, ◌&&◌, min, nat_le, if◌then◌else◌, ◌≡◌, ◌<◌, ◌≤◌, ◌-◌, ◌+◌, ◌++◌, ◌∷◌, [], List, Some, None, IfOk, OnOk, OnErr, IfSome, IsSome, length, map, drop};
ghost use Rattle.block_list.specs.declared.body.BlockRef.{BlockRef};
ghost use Rattle.store_model.specs.State.{Block};
ghost use Rattle.store_model.specs.Choice.{choice, most_rows};
ghost use Rattle.store_state.specs.Listed.{ref_of, picked, Ascend};
ghost use Rattle.store_state.specs.Pairing.{IsPairing, from_pair, joined_at, pair_at};

use block_info::MOST_BLOCK_ROWS;
use block_list::BlockRef;
use span_types::Memory;
use std::alloc::Global;

// Blocks of level 63 are joined no more.
const LEVELS: u8 = 63;

/// The positions of the blocks that a compaction joins now, ascending: none, or two to four of one level that have at most
/// 1,048,576 rows together. It goes over the list twice for each level, and takes memory only where there is something to join.
pub fn choose(alloc: Global, blocks: &[BlockRef]) -> Result<Vec<usize>, Memory>
    ensures chosen { IfOk result (λ chosen. (listed : List Block) → map ref_of listed ≡ blocks.now →
        picked chosen.items listed ≡ choice listed) }
    ensures ascend { IfOk result (λ chosen. Ascend 0 (length blocks.now) chosen.items) }
    ensures memory { OnErr result ((listed : List Block) → map ref_of listed ≡ blocks.now →
        1 ≤ length (choice listed)) }
{
    for level in 0..LEVELS {
        let chosen = choose_at(alloc, level, blocks)?;
        if !chosen.is_empty() {
            return Ok(chosen);
        }
    }
    Ok(Vec::new(alloc))
}

// The choice at one level.
fn choose_at(alloc: Global, level: u8, blocks: &[BlockRef]) -> Result<Vec<usize>, Memory>
    ensures chosen { IfOk result (λ chosen.
        chosen.items ≡ from_pair level (pair_at level 0 blocks.now) blocks.now) }
    ensures memory { OnErr result (IsSome (pair_at level 0 blocks.now)) }
{
    match first_pair(level, blocks) {
        None => Ok(Vec::new(alloc)),
        Some(start) => with_partners(alloc, level, start, blocks),
    }
}

// The first block of a level that fits with a later one of it, as far as a walk from the list's end has come.
#[derive(Clone, Copy)]
struct Pairing {
    level: u8,
    // The rows of the smallest block of the level so far, and too many where there was none.
    smallest: u32,
    found: Option<usize>,
}

// Goes on to the block before.
fn met(pairing: Pairing, at: usize, block: &BlockRef) -> Pairing
    ensures known { (rest : List BlockRef) →
        IsPairing pairing (at + 1) rest → IsPairing result at (block.now ∷ rest) }
    ensures level { result.level ≡ pairing.level }
{
    let fits = is_partner(pairing.level, pairing.smallest, block);
    Pairing {
        level: pairing.level,
        smallest: lesser(pairing.level, pairing.smallest, block),
        found: found_or(fits, at, pairing.found),
    }
}

// Whether a block is of the level and has room beside another one.
fn is_partner(level: u8, rows: u32, block: &BlockRef) -> bool
    ensures { result ≡ ((block.now.level == level) && nat_le (block.now.rows + rows) most_rows) }
{
    block.level == level && u64::from(block.rows) + u64::from(rows) <= u64::from(MOST_BLOCK_ROWS)
}

fn lesser(level: u8, rows: u32, block: &BlockRef) -> u32
    ensures { result ≡ (if block.now.level == level then min rows block.now.rows else rows) }
{
    if block.level == level {
        rows.min(block.rows)
    } else {
        rows
    }
}

fn found_or(fits: bool, at: usize, found: Option<usize>) -> Option<usize>
    ensures { result ≡ (if fits then Some at else found) }
{
    if fits { Some(at) } else { found }
}

// The position of the first block of a level that fits with a later one of it.
fn first_pair(level: u8, blocks: &[BlockRef]) -> Option<usize>
    ensures found { result ≡ pair_at level 0 blocks.now }
    ensures within { IfSome result (λ at. at < length blocks.now) }
{
    let mut pairing = Pairing {
        level,
        smallest: MOST_BLOCK_ROWS + 1,
        found: None,
    };
    let mut at = blocks.len();
    while at > 0 {
        at -= 1;
        pairing = met(pairing, at, &blocks[at]);
    }
    pairing.found
}

// Blocks of a level that have room together, as far as a walk from the first of them has come.
#[derive(Drop)]
struct Joining {
    level: u8,
    room: u32,
    left: u32,
    chosen: Vec<usize>,
}

impl Joining {
    // Takes the next block, where it fits.
    fn meet(&mut self, at: usize, block: &BlockRef) -> Result<(), Memory>
        ensures { OnOk result ((rest : List BlockRef) →
            self.new.chosen.items
            ++ joined_at self.new.level self.new.room self.new.left (at + 1) rest
            ≡ self.old.chosen.items
            ++ joined_at self.old.level self.old.room self.old.left at (block.now ∷ rest)) }
    {
        if self.left == 0 || !has_room(self.level, self.room, block) {
            return Ok(());
        }
        self.chosen.push(at)?;
        self.room -= block.rows;
        self.left -= 1;
        Ok(())
    }
}

// Whether a block is of the level and has at most so many rows.
fn has_room(level: u8, room: u32, block: &BlockRef) -> bool
    ensures { result ≡ ((block.now.level == level) && nat_le block.now.rows room) }
{
    block.level == level && block.rows <= room
}

// The positions of a block and of those that are joined to it.
fn with_partners(
    alloc: Global,
    level: u8,
    start: usize,
    blocks: &[BlockRef],
) -> Result<Vec<usize>, Memory>
    requires { start < length blocks.now }
    ensures { IfOk result (λ chosen. chosen.items ≡ from_pair level (Some start) blocks.now) }
{
    let mut chosen = Vec::new(alloc);
    chosen.push(start)?;
    let mut joining = Joining {
        level,
        room: MOST_BLOCK_ROWS.saturating_sub(blocks[start].rows),
        left: 3,
        chosen,
    };
    for at in start + 1..blocks.len() {
        joining.meet(at, &blocks[at])?;
    }
    Ok(joining.chosen)
}
