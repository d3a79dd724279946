//! The limits of the core, and the sizes of pages and of translation tables (Arm ARM, VMSAv8-64, 4 KB granule).

/// The size of a page, in bytes.
pub const PAGE_SIZE: u64 = 4096;

/// The words of a translation table, which fills a page.
pub const TABLE_WORDS: u32 = 512;

/// The pages of a chunk, which are 2 MB: a level 3 table maps them, and a word of level 2 stands for them.
pub const CHUNK_PAGES: u32 = TABLE_WORDS;

/// The pages of a gigabyte: a level 2 table maps its chunks, and a word of level 1 stands for them.
pub const GIGABYTE_PAGES: u32 = TABLE_WORDS * CHUNK_PAGES;

/// The most receivers that a send names.
pub const MOST_RECEIVERS: usize = 8;

/// The most ranges that a send has.
pub const MOST_RANGES: usize = 512;

/// The most pages that a transaction has: 1 GB.
pub const MOST_PAGES: u32 = 262_144;

/// The most transactions of one sender that are live at a time.
pub const MOST_LIVE: usize = 32;

/// The most pages of a TX or an RX buffer.
pub const MOST_BUFFER_PAGES: u32 = 8;

/// The most partitions of a manifest.
pub const MOST_PARTITIONS: usize = 64;

/// The most regions of a manifest.
pub const MOST_REGIONS: usize = 64;

/// The most grants of a region.
pub const MOST_GRANTS: usize = 64;

/// The most table pages of a partition, its root apart.
pub const MOST_TABLE_PAGES: u32 = 1024;
