//! What is to be known of a block, and its rows.

use crate::rows::trace;
use block_build::{BuiltBlock, build};
use block_info::BlockInfo;
use block_read::{MemPages, all_rows, check_block, trace_rows};
use span_types::{Calls, Rows};
use std::process::Abort;

/// The number of the block's file.
pub(crate) const FILE: u32 = 7;

/// Its level.
pub(crate) const LEVEL: u8 = 3;

/// What is to be known of a block of form 1.
pub(crate) struct Layout {
    pub(crate) rows: u32,
    pub(crate) stripes: usize,
    /// How many rows and pages the last stripe has. Others have 256 rows and four pages.
    pub(crate) last: (u32, u64),
    /// The first page of the index, and how many pages it has.
    pub(crate) index: (u64, u32),
    /// The first page of the Bloom filters, and how many pages they have.
    pub(crate) bloom: (u64, u32),
    /// How many pages the block has.
    pub(crate) pages: u64,
}

/// How many rows and pages the stripes have: the last one so many, each other one 256 and four.
fn has_stripes(info: &BlockInfo, last: (u32, u64)) -> bool {
    let Some((end, others)) = info.stripes.as_slice().split_last() else {
        return false;
    };
    for stripe in others {
        if stripe.rows != 256 || stripe.pages != 4 {
            return false;
        }
    }
    (end.rows, end.pages) == last
}

/// Whether all of this is known of a block.
fn is_laid_out(info: &BlockInfo, layout: &Layout) -> bool {
    let counts = info.rows == layout.rows && info.stripes.as_slice().len() == layout.stripes;
    let index = (info.index_page, info.index_pages) == layout.index;
    let bloom = (info.bloom_page, info.bloom_pages) == layout.bloom;
    let whole = info.form == 1 && info.pages == layout.pages;
    counts && index && bloom && whole && has_stripes(info, layout.last)
}

/// The block of these rows.
pub(crate) fn block_of(rt: &(impl Abort + AllocGlobal), rows: Rows) -> BuiltBlock {
    assert!(rt; 0 < rows.len() && rows.len() <= 1_048_576);
    build(rt.alloc(), rows).expect(rt, "memory")
}

/// A file with a block in it.
#[derive(Drop)]
pub(crate) struct Filed {
    pages: MemPages,
    info: BlockInfo,
}

/// The block in a file, after it was checked: it has this layout by what was built, and by its bytes.
pub(crate) fn checked(
    rt: &(impl Abort + AllocGlobal),
    built: BuiltBlock,
    layout: &Layout,
) -> Filed {
    assert!(rt; is_laid_out(&built.info, layout));
    let length = built.bytes.len() as u64;
    assert!(rt; length == layout.pages.wrapping_mul(4096));
    let mut pages = MemPages::new(FILE, built.bytes, Calls::none(rt.alloc()));
    let read = check_block(rt.alloc(), &mut pages, FILE, LEVEL, layout.rows, length);
    let info = read.expect(rt, "a block");
    assert!(rt; is_laid_out(&info, layout));
    Filed { pages, info }
}

impl Filed {
    /// All rows of the block.
    pub(crate) fn rows(&mut self, rt: &(impl Abort + AllocGlobal)) -> Rows {
        let rows = all_rows(rt.alloc(), &mut self.pages, FILE, &self.info);
        rows.expect(rt, "a block")
    }

    /// The rows of the trace with this number, and how many pages were read for them.
    pub(crate) fn rows_of(&mut self, rt: &(impl Abort + AllocGlobal), number: u64) -> (Rows, u64) {
        let before = self.pages.reads();
        let rows = trace_rows(rt.alloc(), &mut self.pages, FILE, &self.info, trace(number));
        let rows = rows.expect(rt, "a block");
        (rows, self.pages.reads().wrapping_sub(before))
    }
}
