//! The bytes of a block's file.

ghost use Rattle.std.specs.Prelude.{◌≡◌, ◌-◌, ◌*◌, ◌≤◌, ◌^◌, ◌++◌, IfOk, IsTrue, OnOk, drop, is_err, length, take};
ghost use Rattle.std.specs.Int.{div_ceil};
ghost use Rattle.byte_fields.specs.Reading.{AreBytes};
ghost use Rattle.block_read.specs.Answers.{RoseAtMost, is_unread};
ghost use Rattle.block_read.specs.Files.{first_bytes, page_of, part_of};
ghost use Rattle.block_read.specs.PageReads.{OnlyReads};

use crate::Pages;
use block_info::PAGE_BYTES;
use span_types::Failed;
use std::alloc::Global;

/// Why the bytes of a file could not be read.
#[derive(Clone, Copy, Debug, PartialEq, Eq)]
pub enum Unread {
    /// A page could not be read.
    Fault,
    /// Out of memory.
    Memory,
}

/// So many bytes of a file from that page on, page by page: no more memory is taken than pages were read. Past the
/// file's end there are zeros.
pub fn bytes_from<P: Pages>(
    alloc: Global,
    pages: &mut P,
    block: u32,
    first: u64,
    length: u64,
) -> Result<Vec<u8>, Unread>
    requires ready { P.ready pages.old block }
    requires near { first ≤ 2 ^ 52 }
    ensures bytes { IsTrue (P.tells pages.old)
        → IfOk result (λ bytes.
        bytes.items ≡ first_bytes length (drop (4096 * first) (P.held pages.old block))) }
    ensures reads { RoseAtMost (div_ceil length 4096) (P.reads pages.old) (P.reads pages.new) }
    ensures only { OnlyReads P.tells P.held P.faults P.ready P.went P.name pages.old
        (is_unread result) pages.new }
{
    let mut bytes = Vec::new(alloc);
    for page in 0..length.div_ceil(PAGE_BYTES) {
        let wanted = (length - page * PAGE_BYTES).min(PAGE_BYTES);
        add_page(pages, block, first + page, wanted, &mut bytes)?;
    }
    Ok(bytes)
}

/// Adds the first so many bytes of a page.
fn add_page<P: Pages>(
    pages: &mut P,
    block: u32,
    page: u64,
    wanted: u64,
    bytes: &mut Vec<u8>,
) -> Result<(), Unread>
    requires ready { P.ready pages.old block }
    requires within { wanted ≤ 4096 }
    ensures bytes { IsTrue (P.tells pages.old)
        → OnOk result (bytes.new.items
        ≡ bytes.old.items ++ take wanted (page_of (P.held pages.old block) page)) }
    ensures reads { RoseAtMost 1 (P.reads pages.old) (P.reads pages.new) }
    ensures only { OnlyReads P.tells P.held P.faults P.ready P.went P.name pages.old
        (is_unread result) pages.new }
{
    match page_bytes(pages, block, page) {
        Ok(page) => match bytes.extend_from_slice(&page[..wanted as usize]) {
            Ok(()) => Ok(()),
            Err(_) => Err(Unread::Memory),
        },
        Err(_) => Err(Unread::Fault),
    }
}

/// A page of a block.
pub fn page_bytes<P: Pages>(pages: &mut P, block: u32, page: u64) -> Result<[u8; 4096], Failed>
    requires { P.ready pages.old block }
    ensures page { IsTrue (P.tells pages.old)
        → IfOk result (λ bytes. bytes ≡ page_of (P.held pages.old block) page) }
    ensures reads { RoseAtMost 1 (P.reads pages.old) (P.reads pages.new) }
    ensures only { OnlyReads P.tells P.held P.faults P.ready P.went P.name pages.old
        (is_err result) pages.new }
{
    let mut buf = [0; 4096];
    match pages.page(block, page, &mut buf) {
        Ok(()) => Ok(buf),
        Err(e) => Err(e),
    }
}

/// So many pages of these bytes from that page on, or what is there of them.
pub fn part(bytes: &[u8], page: u64, pages: u64) -> &[u8]
    ensures part { result.now ≡ part_of page pages bytes.now }
    ensures fits { length result.now ≤ length bytes.now - 4096 * page }
{
    let first = page.saturating_mul(PAGE_BYTES).min(bytes.len() as u64) as usize;
    let rest = &bytes[first..];
    let size = pages.saturating_mul(PAGE_BYTES).min(rest.len() as u64) as usize;
    &rest[..size]
}

/// What bytes promise, for the proof of the caller: each is below 256. It does nothing.
pub fn each_fits(bytes: &[u8])
    ensures { AreBytes bytes.now }
{
    let _ = bytes;
}
