//! A flush's rows to the bytes of its block. Nothing here touches a port.

ghost use Rattle.std.specs.Prelude.{◌≡◌, ◌≤◌, length, IfOk};
ghost use Rattle.flusher.specs.Rounds.{IsFlushBlock};

use block_build::build_refs;
use block_info::{BlockInfo, SharedInfo};
use span_types::{Bytes, Memory};
use std::alloc::Global;
use store_state::FlushJob;

/// A flush's block, as it is to be written and listed.
#[derive(Drop)]
pub(crate) struct Block {
    pub(crate) bytes: Bytes,
    pub(crate) info: SharedInfo,
}

/// Builds the block of a flush's rows, of which there are 1 to 1,048,576. Their spans are borrowed.
pub(crate) fn build_block(alloc: Global, job: &FlushJob) -> Result<Block, Memory>
    requires { (1 ≤ length job.now.rows) × (length job.now.rows ≤ 1048576) }
    ensures { IfOk result
        (λ block. IsFlushBlock job.now.out.file job.now.rows block.bytes block.info) }
{
    let rows = job.rows.refs(alloc)?;
    let built = build_refs(alloc, rows.as_slice())?;
    let info = BlockInfo {
        file: job.out.file,
        ..built.info
    };
    let info = SharedInfo::of(alloc, info)?;
    Ok(Block {
        bytes: built.bytes,
        info,
    })
}
