//! The valid words of a partition's tables, found by a look at each word (Arm ARM, VMSAv8-64 stage 2, 4 KB
//! granule, walked from level 1).

use crate::fault::Fault;
use manifest::Manifest;
use pool::Image;
use std::alloc::Global;

/// How many words a table has.
const WORDS: u32 = 512;

/// The pages of a word of level 1, and of level 2.
const GIGABYTE: u32 = 0x4_0000;

const CHUNK: u32 = 0x200;

/// Bits 47:12 of a word, an address.
const ADDRESS: u64 = 0x0000_ffff_ffff_f000;

/// A valid word of a table.
#[derive(Clone, Copy)]
pub(crate) struct Entry {
    pub(crate) level: u32,
    /// The number of the first page that the word stands for.
    pub(crate) first: u32,
    pub(crate) word: u64,
}

/// The bits of a block or a page that say what may be done with it.
#[derive(Clone, Copy, Debug, PartialEq, Eq)]
pub(crate) struct Attributes {
    rights: u64,
    never: u64,
    memory: u64,
}

impl Attributes {
    /// S2AP, bits 7:6, and XN, bits 54:53.
    pub(crate) fn access(self) -> &'static str {
        match (self.rights, self.never) {
            (1, 0) => "r-x",
            (1, 2) => "r--",
            (3, 0) => "rwx",
            (3, 2) => "rw-",
            _ => "???",
        }
    }

    /// MemAttr, bits 5:2.
    pub(crate) fn kind(self) -> &'static str {
        match self.memory {
            1 => "device",
            15 => "normal",
            _ => "???",
        }
    }
}

impl Entry {
    /// Bit 0 of a valid word is 1.
    fn is_valid(self) -> bool {
        self.word & 1 == 1
    }

    /// Bits 1:0 of a word of level 1 or 2 that names a table are 3.
    pub(crate) fn is_table(self) -> bool {
        self.level < 3 && self.word & 3 == 3
    }

    /// How many pages the word stands for.
    pub(crate) fn pages(self) -> u32 {
        match self.level {
            1 => GIGABYTE,
            2 => CHUNK,
            _ => 1,
        }
    }

    /// The address that the word names.
    pub(crate) fn address(self) -> u64 {
        self.word & ADDRESS
    }

    pub(crate) fn attributes(self) -> Attributes {
        Attributes {
            rights: (self.word >> 6) & 3,
            never: (self.word >> 53) & 3,
            memory: (self.word >> 2) & 15,
        }
    }
}

/// A copy of the words of all tables.
#[derive(Clone, Copy)]
pub(crate) struct TableWords<'a> {
    image: &'a Image,
    /// The number of the first page of the table pool.
    pool: u32,
}

impl<'a> TableWords<'a> {
    pub(crate) fn new(manifest: &Manifest, image: &'a Image) -> Self {
        TableWords {
            image,
            pool: manifest.pool().number(),
        }
    }

    /// A word of a page of the pool, and 0 outside it.
    pub(crate) fn word(self, page: u32, index: u32) -> u64 {
        if (page as usize) < self.image.pages() && index < WORDS {
            self.image.word(page, index)
        } else {
            0
        }
    }

    /// The page of the pool that a word of a table names.
    fn page_of(self, entry: Entry) -> u32 {
        let page = (entry.address() >> 12).wrapping_sub(u64::from(self.pool));
        u32::try_from(page).unwrap_or(u32::MAX)
    }

    /// The valid words of a partition's tables, in the order of their addresses, those of a table right behind
    /// the word that names it. The partition is told by its place in the manifest: there is its root.
    pub(crate) fn entries(self, alloc: Global, place: u32) -> Result<Vec<Entry>, Fault> {
        let mut entries = Vec::new(alloc);
        for index in 0..WORDS {
            let entry = Entry {
                level: 1,
                first: index.wrapping_mul(GIGABYTE),
                word: self.word(place, index),
            };
            if entry.is_valid() {
                entries.push(entry)?;
                self.push_second(&mut entries, entry)?;
            }
        }
        Ok(entries)
    }

    /// Pushes the words below a word of level 1.
    fn push_second(self, entries: &mut Vec<Entry>, above: Entry) -> Result<(), Fault> {
        if !above.is_table() {
            return Ok(());
        }
        let page = self.page_of(above);
        for index in 0..WORDS {
            let entry = Entry {
                level: 2,
                first: above.first.wrapping_add(index.wrapping_mul(CHUNK)),
                word: self.word(page, index),
            };
            if entry.is_valid() {
                entries.push(entry)?;
                self.push_third(entries, entry)?;
            }
        }
        Ok(())
    }

    /// Pushes the words below a word of level 2.
    fn push_third(self, entries: &mut Vec<Entry>, above: Entry) -> Result<(), Fault> {
        if !above.is_table() {
            return Ok(());
        }
        let page = self.page_of(above);
        for index in 0..WORDS {
            let entry = Entry {
                level: 3,
                first: above.first.wrapping_add(index),
                word: self.word(page, index),
            };
            if entry.is_valid() {
                entries.push(entry)?;
            }
        }
        Ok(())
    }
}
