//! The limits of blocks, each in one place.

/// How many bytes a page has.
pub const PAGE_BYTES: u64 = 4096;

/// The same, as sizes in memory count.
pub const PAGE_SIZE: usize = PAGE_BYTES as usize;

/// How many rows each stripe but the last has.
pub const STRIPE_ROWS: usize = 256;

/// How many stripes a block has at most.
pub const MOST_STRIPES: usize = 4096;

/// How many rows a block has at most.
pub const MOST_BLOCK_ROWS: u32 = 1_048_576;

/// The page at which the last stripe of a block ends at most, 2^51.
pub const MOST_PAGES: u64 = 2_251_799_813_685_248;
