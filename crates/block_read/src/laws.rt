//! Theorems about reading blocks: what the bytes of a block stand for is read, and nothing else is.
//!
//! The contract of each function is the statement, and its proof stands in `proofs/laws/`. Who calls one has its contract.

ghost use Rattle.std.specs.Prelude.{◌≡◌, ◌*◌, ℕ, List, Ok, length};
ghost use Rattle.span_types.specs.declared.spans.Row.{Row};
ghost use Rattle.byte_fields.specs.Reading.{AreBytes};
ghost use Rattle.block_info.specs.InfoParts.{InfoParts};
ghost use Rattle.block_format.specs.Blocks.{BlockHasHeader, BlockHasInfo};
ghost use Rattle.block_format.specs.declared.header.Header.{Header};
ghost use Rattle.block_read.specs.Answers.{made_of};
ghost use Rattle.block_read.specs.BlockReadings.{block_at, info_read, listed_at};
ghost use Rattle.block_read.specs.Files.{first_bytes};
ghost use Rattle.block_read.specs.declared.block.Block.{Block};

use block_index::filters_hold_their_traces;

/// What the bytes of a block stand for is what reading gives.
pub fn held_block_is_read()
    ensures { (bytes : List ℕ) (header : Header) (rows : List Row)
        → BlockHasHeader header bytes rows
        → block_at bytes ≡ Ok (record { header = header; rows = rows }) }
{}

/// What is read of bytes is what they stand for: bytes that are accepted are such as a block is built of.
pub fn read_block_is_held()
    ensures { (bytes : List ℕ) (block : Block)
        → AreBytes bytes → block_at bytes ≡ Ok block
        → BlockHasHeader block.header bytes block.rows }
{}

/// A file of a block's bytes, which this information describes: it has so many pages, and what reading gives of it is its
/// rows, and this information where the list entry says so many rows.
pub fn described_block_is_read()
    ensures size { (bytes : List ℕ) (rows : List Row) (info : InfoParts)
        → BlockHasInfo info bytes rows → length bytes ≡ 4096 * info.pages }
    ensures rows { (bytes : List ℕ) (rows : List Row) (info : InfoParts)
        → BlockHasInfo info bytes rows
        → made_of (λ b. b.rows) (block_at (first_bytes (4096 * info.pages) bytes)) ≡ Ok rows }
    ensures info { (bytes : List ℕ) (rows : List Row) (info : InfoParts)
        → BlockHasInfo info bytes rows
        → made_of (info_read info.file info.level)
        (listed_at info.rows (first_bytes (length bytes) bytes)) ≡ Ok info }
{
    filters_hold_their_traces();
}
