//! A block's information and that of its stripes, as the store keeps them in memory for each listed block.

use span_types::{Seq, Shared};
use std::marker::Model;

/// One stripe of a block: some of its rows, on pages of their own.
#[derive(Clone, Copy, Debug, PartialEq, Eq)]
pub struct StripeInfo {
    /// Its first page in the file.
    pub page: u64,
    /// How many pages it has.
    pub pages: u64,
    /// How many rows it has.
    pub rows: u32,
    /// The earliest start among its rows, in nanoseconds since 1970.
    pub earliest: u64,
    /// The latest start among its rows, in nanoseconds since 1970.
    pub latest: u64,
}

/// The stripes of a block, in the order of their pages.
pub type Stripes = Seq<StripeInfo>;

/// A block. Its number of pages, and each part's first page plus the number of its pages, are below 2^52, so that the
/// offset of each byte fits a 64-bit number.
#[derive(Debug, Drop)]
pub struct BlockInfo {
    /// Its file.
    pub file: u32,
    /// Its level: 0 for a flushed block, and one above that of the joined ones for a compacted block.
    pub level: u8,
    /// The form of its bytes.
    pub form: u8,
    /// How many rows it has.
    pub rows: u32,
    /// How many pages it has.
    pub pages: u64,
    /// The first page of its index of trace ids.
    pub index_page: u64,
    /// How many pages the index has.
    pub index_pages: u32,
    /// The first page of its Bloom filters.
    pub bloom_page: u64,
    /// How many pages the Bloom filters have.
    pub bloom_pages: u32,
    /// Its stripes.
    pub stripes: Stripes,
}

impl Model for BlockInfo {
    ghost use Rattle.block_info.specs.InfoParts.{InfoParts, IsInReach};

    ghost Value = { InfoParts };

    ghost view = { λ i. record { file = i.file; level = i.level; form = i.form; rows = i.rows; pages = i.pages; index_page = i.index_page; index_pages = i.index_pages; bloom_page = i.bloom_page; bloom_pages = i.bloom_pages; stripes = i.stripes } };

    ghost invariant = { λ i. IsInReach i.pages i.index_page i.index_pages i.bloom_page i.bloom_pages i.stripes };

    ghost inverse = { λ i. record { file = i.file; level = i.level; form = i.form; rows = i.rows; pages = i.pages; index_page = i.index_page; index_pages = i.index_pages; bloom_page = i.bloom_page; bloom_pages = i.bloom_pages; stripes = i.stripes } };
}

/// A block's information that has several holders.
pub type SharedInfo = Shared<BlockInfo>;

/// The information of several blocks.
pub type Infos = Seq<SharedInfo>;
