//! The rows of joined blocks to the bytes of their block. Nothing here touches a port.

ghost use Rattle.std.specs.Prelude.{◌≡◌, ◌≤◌, false, length, IfOk};
ghost use Rattle.std.specs.List.{flat_map};
ghost use Rattle.block_build.specs.Built.{IsBlockOf};
ghost use Rattle.block_format.specs.Blocks.{form_of_rows};
ghost use Rattle.compactor.specs.Joining.{WantsOther};
ghost use Rattle.compactor.specs.Rounds.{IsJoined};
ghost use Rattle.compactor.specs.Phases.{relabelled};

use crate::joining::join_in_form;
use block_build::BuiltBlock;
use block_cursor::ReadBlock;
use block_info::{BlockInfo, SharedInfo};
use span_types::{Bytes, Memory};
use std::alloc::Global;

/// A compaction's block, as it is to be written and listed.
#[derive(Drop)]
pub(crate) struct Block {
    pub(crate) bytes: Bytes,
    pub(crate) info: SharedInfo,
}

/// Builds the block of the first occurrences of the rows of all parts, of which there are 1 to 1,048,576, for this file and
/// this level.
pub(crate) fn build_block(
    alloc: Global,
    parts: Vec<ReadBlock>,
    file: u32,
    level: u8,
) -> Result<Block, Memory>
    requires some { 1 ≤ length (flat_map (λ rows. rows) parts.items) }
    requires few { length (flat_map (λ rows. rows) parts.items) ≤ 1048576 }
    ensures { IfOk result (λ block. IsJoined file level parts.items block.bytes block.info) }
{
    let built = join(alloc, parts.as_slice())?;
    let block = labelled(alloc, built, file, level)?;
    Ok(block)
}

// The block of the rows of all parts. It has form 1 where each row with an event or a link was another copy of a row without.
fn join(alloc: Global, parts: &[ReadBlock]) -> Result<BuiltBlock, Memory>
    requires some { 1 ≤ length (flat_map (λ rows. rows) parts.now) }
    requires few { length (flat_map (λ rows. rows) parts.now) ≤ 1048576 }
    ensures { IfOk result (λ built. IsBlockOf (flat_map (λ rows. rows) parts.now) built) }
{
    if !any_rich(parts) {
        return join_plain(alloc, parts);
    }
    match join_in_form(alloc, parts, 2)? {
        Some(built) => Ok(built),
        None => join_plain(alloc, parts),
    }
}

// The block of form 1, which the first occurrences want unless they want form 2.
fn join_plain(alloc: Global, parts: &[ReadBlock]) -> Result<BuiltBlock, Memory>
    requires some { 1 ≤ length (flat_map (λ rows. rows) parts.now) }
    requires few { length (flat_map (λ rows. rows) parts.now) ≤ 1048576 }
    requires plain { WantsOther (flat_map (λ rows. rows) parts.now) 1 → ⊥ }
    ensures { IfOk result (λ built. IsBlockOf (flat_map (λ rows. rows) parts.now) built) }
{
    match join_in_form(alloc, parts, 1)? {
        Some(built) => Ok(built),
        None => unreachable!(),
    }
}

// Whether a part has a row with an event or a link.
fn any_rich(parts: &[ReadBlock]) -> bool
    ensures { result ≡ false → form_of_rows (flat_map (λ rows. rows) parts.now) ≡ 1 }
{
    for part in parts {
        if part.form() == 2 {
            return true;
        }
    }
    false
}

// A built block, whose information names this file and this level.
fn labelled(alloc: Global, built: BuiltBlock, file: u32, level: u8) -> Result<Block, Memory>
    ensures bytes { IfOk result (λ block. block.bytes ≡ built.bytes) }
    ensures info { IfOk result (λ block. block.info ≡ relabelled file level built.info) }
{
    let info = BlockInfo {
        file,
        level,
        ..built.info
    };
    let info = SharedInfo::of(alloc, info)?;
    Ok(Block {
        bytes: built.bytes,
        info,
    })
}
