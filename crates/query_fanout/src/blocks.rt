//! What is read of the blocks that a look pins, one after another.

ghost use Rattle.std.specs.Prelude.{◌≡◌, ℕ, ◌∷◌, ◌++◌, [], IfOk, IsTrue, List, true};
ghost use Rattle.span_types.specs.declared.spans.Row.{Row};
ghost use Rattle.block_info.specs.InfoParts.{InfoParts};
ghost use Rattle.block_format.specs.Blocks.{BlockHasInfo};
ghost use Rattle.block_read.specs.Answers.{RoseAtMost, is_fault};
ghost use Rattle.block_read.specs.Lookups.{IsInFile};
ghost use Rattle.block_read.specs.PageReads.{OnlyReads};
ghost use Rattle.column_scan.specs.Scans.{FindsFit};
ghost use Rattle.store_model.specs.State.{is_among};
ghost use Rattle.store_state.specs.Given.{info_files, look_of};
ghost use Rattle.store_state.specs.Meaning.{IsOpen};
ghost use Rattle.query_fanout.specs.Reading.{AtMost, BlocksRead, most_of, of_read};

use crate::QueryError;
use crate::pinned::Pinned;
use block_info::BlockInfo;
use block_read::{Pages, ReadError};
use span_types::Seq;
use std::alloc::Global;
use store_state::{FlushPort, Look};

/// What a query reads of a block.
pub(crate) trait OfBlock {
    /// Of what it makes a list.
    type Item: Drop;

    /// Whether it may be read so.
    ghost can: { Self → Type 0 };

    /// The list fits some rows, whatever the pages are.
    ghost some: { Self → List Row → List Self.Item → Type 0 };

    /// The list fits a block's rows.
    ghost fits: { Self → List Row → List Self.Item → Type 0 };

    /// How many pages may be read of a block with these rows.
    ghost most: { Self → InfoParts → List Row → ℕ };

    /// Reads it.
    fn of_block<G: Pages>(
        &self,
        alloc: Global,
        pages: &mut G,
        block: u32,
        info: &BlockInfo,
    ) -> Result<Seq<Self::Item>, ReadError>
        requires can { can self.now }
        requires ready { G.ready pages.old block }
        ensures told { IsTrue (G.tells pages.old) → (rows : List Row)
            → BlockHasInfo info.now (G.held pages.old block) rows
            → FindsFit (fits self.now rows) result }
        ensures some { IfOk result (λ found. (rows : List Row) × some self.now rows found) }
        ensures its_file { IsInFile block result }
        ensures reads { IsTrue (G.tells pages.old) → (rows : List Row)
            → BlockHasInfo info.now (G.held pages.old block) rows
            → RoseAtMost (most self.now info.now rows) (G.reads pages.old) (G.reads pages.new) }
        ensures only { OnlyReads G.tells G.held G.faults G.ready G.went G.name
            pages.old (is_fault result) pages.new };

    /// Nothing fits no rows.
    ghost none: { (s : Self) → some s [] [] × fits s [] [] };

    /// What fits rows, and what fits more rows, fit both.
    ghost both: { (s : Self) (a b : List Row) (x y : List Self.Item)
        → (some s a x → some s b y → some s (a ++ b) (x ++ y)) × (fits s a x → fits s b y → fits s (a ++ b) (x ++ y)) };
}

/// What is read of all blocks, one block's after that of the one before it.
pub(crate) fn of_blocks<P: FlushPort, R: OfBlock>(
    alloc: Global,
    port: &mut P,
    look: &Look,
    reads: &R,
) -> Result<Seq<R::Item>, QueryError>
    requires open { IsOpen P.meaning port.old (look_of look.now) }
    requires can { R.can reads.now }
    ensures { BlocksRead P.meaning look.now look.now.pin.blocks (R.some reads.now)
        (R.fits reads.now)
        (AtMost (most_of (R.most reads.now) look.now.pin.blocks)) port.old result port.new }
{
    let mut found = Vec::new(alloc);
    for info in look.pin.blocks.as_slice() {
        let part = of_pinned(alloc, port, look, info.get(), reads)?;
        if found.append(&mut part.into_vec()).is_err() {
            return Err(QueryError::Memory);
        }
    }
    Ok(Seq::of(found))
}

// What is read of one.
fn of_pinned<P: FlushPort, R: OfBlock>(
    alloc: Global,
    port: &mut P,
    look: &Look,
    info: &BlockInfo,
    reads: &R,
) -> Result<Seq<R::Item>, QueryError>
    requires open { IsOpen P.meaning port.old (look_of look.now) }
    requires pinned { is_among info.now.file (info_files look.now.pin.blocks) ≡ true }
    requires can { R.can reads.now }
    ensures { BlocksRead P.meaning look.now (info.now ∷ []) (R.some reads.now) (R.fits reads.now)
        (AtMost (most_of (R.most reads.now) (info.now ∷ []))) port.old result port.new }
{
    let file = file_of(info);
    let mut pages = Pinned { port, look };
    let read = reads.of_block(alloc, &mut pages, file, info);
    query_result(read)
}

/// The file by whose number a port reads a block's pages.
pub(crate) fn file_of(info: &BlockInfo) -> u32
    ensures { result ≡ info.now.file }
{
    info.file
}

/// What a query answers of a block that is read so.
pub(crate) fn query_result<T>(read: Result<T, ReadError>) -> Result<T, QueryError>
    ensures { result ≡ of_read read }
{
    match read {
        Ok(found) => Ok(found),
        Err(ReadError::Fault) => Err(QueryError::Fault),
        Err(ReadError::NotBlock { file, at }) => Err(QueryError::NotBlock { file, at }),
        Err(ReadError::Memory) => Err(QueryError::Memory),
    }
}
