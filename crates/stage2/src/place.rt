//! The parts of a partition's input addresses that have a word of their own in its tables.

ghost use Rattle.std.specs.Prelude.{◌≡◌, ℕ, ◌+◌, ◌*◌, ◌/◌, ◌%◌, ◌<◌, ◌==◌, Some};
ghost use Rattle.base.specs.Pages.{IsRun};

use base::limits::{CHUNK_PAGES, GIGABYTE_PAGES, TABLE_WORDS};
use base::{Page, Run};
use std::marker::Model;

/// Numbers from one up to another.
#[derive(Clone, Copy)]
pub(crate) struct Span {
    pub first: u32,
    pub end: u32,
}

/// The number of a gigabyte, below 2^9: a gigabyte is 512 chunks, for which a root has one word.
#[derive(Clone, Copy)]
pub(crate) struct Gigabyte(u32);

impl Model for Gigabyte {
    ghost use Rattle.std.specs.Prelude.{ℕ, ◌<◌};

    ghost Value = { ℕ };

    ghost view = { λ gigabyte. gigabyte.0 };

    ghost invariant = { λ gigabyte. gigabyte.0 < 512 };

    ghost inverse = { λ n. record { 0 = n } };
}

impl Gigabyte {
    /// The gigabyte with this number.
    pub(crate) fn new(number: u32) -> Self
        requires { number < 512 }
        ensures { result ≡ number }
    {
        Gigabyte(number)
    }

    /// The gigabyte of a page.
    pub(crate) fn of(page: Page) -> Self
        ensures { result ≡ page / 512 / 512 }
    {
        Gigabyte(page.number() / GIGABYTE_PAGES)
    }

    /// The number of the gigabyte.
    pub(crate) fn number(self) -> u32
        ensures same { result ≡ self }
        ensures in_range { self < 512 }
    {
        self.0
    }

    /// The index of its word in a root: address bits 38:30.
    pub(crate) fn index(self) -> u32
        ensures same { result ≡ self }
        ensures in_range { self < 512 }
    {
        self.0
    }

    /// The numbers of its chunks.
    pub(crate) fn chunks(self) -> Span
        ensures first { result.first ≡ 512 * self }
        ensures end { result.end ≡ 512 * self + 512 }
        ensures in_range { self < 512 }
    {
        let first = TABLE_WORDS * self.0;
        Span {
            first,
            end: first + TABLE_WORDS,
        }
    }

    /// Its chunk whose word has this index in a level 2 table.
    pub(crate) fn chunk(self, index: u32) -> Chunk
        requires { index < 512 }
        ensures same { result ≡ 512 * self + index }
        ensures in_range { self < 512 }
    {
        Chunk(TABLE_WORDS * self.0 + index)
    }

    /// Whether a chunk is one of its chunks.
    pub(crate) fn has(self, chunk: Chunk) -> bool
        ensures same { result ≡ (chunk / 512 == self) }
        ensures in_range { self < 512 }
    {
        chunk.number() / TABLE_WORDS == self.0
    }

    /// Its first page.
    pub(crate) fn first(self) -> Page
        ensures same { result ≡ 262144 * self }
        ensures in_range { self < 512 }
    {
        Page::new(GIGABYTE_PAGES * self.0)
    }

    /// The number after its last page's.
    pub(crate) fn end(self) -> u32
        ensures same { result ≡ 262144 * self + 262144 }
        ensures in_range { self < 512 }
    {
        GIGABYTE_PAGES * self.0 + GIGABYTE_PAGES
    }

    /// All its pages.
    pub(crate) fn pages(self) -> Run
        ensures same { result ≡ record { first = 262144 * self; count = 262144 } }
        ensures in_range { self < 512 }
    {
        Run::new(self.first(), GIGABYTE_PAGES)
    }
}

/// The number of a chunk, below 2^18: a chunk is 512 pages or 2 MB, for which a level 2 table has
/// one word.
#[derive(Clone, Copy)]
pub(crate) struct Chunk(u32);

impl Model for Chunk {
    ghost use Rattle.std.specs.Prelude.{ℕ, ◌<◌};

    ghost Value = { ℕ };

    ghost view = { λ chunk. chunk.0 };

    ghost invariant = { λ chunk. chunk.0 < 262144 };

    ghost inverse = { λ n. record { 0 = n } };
}

impl Chunk {
    /// The chunk of a page.
    pub(crate) fn of(page: Page) -> Self
        ensures { result ≡ page / 512 }
    {
        Chunk(page.number() / CHUNK_PAGES)
    }

    /// The number of the chunk.
    pub(crate) fn number(self) -> u32
        ensures same { result ≡ self }
        ensures in_range { self < 262144 }
    {
        self.0
    }

    /// The index of its word in a level 2 table: address bits 29:21.
    pub(crate) fn index(self) -> u32
        ensures same { result ≡ self % 512 }
        ensures in_range { self < 262144 }
    {
        self.0 % TABLE_WORDS
    }

    /// Its page whose word has this index in a level 3 table.
    pub(crate) fn page(self, index: u32) -> Page
        requires { index < 512 }
        ensures same { result ≡ 512 * self + index }
        ensures in_range { self < 262144 }
    {
        Page::new(CHUNK_PAGES * self.0 + index)
    }

    /// Its first page.
    pub(crate) fn first(self) -> Page
        ensures same { result ≡ 512 * self }
        ensures in_range { self < 262144 }
    {
        self.page(0)
    }

    /// The number after its last page's.
    pub(crate) fn end(self) -> u32
        ensures same { result ≡ 512 * self + 512 }
        ensures in_range { self < 262144 }
    {
        CHUNK_PAGES * self.0 + CHUNK_PAGES
    }

    /// All its pages.
    pub(crate) fn pages(self) -> Run
        ensures same { result ≡ record { first = 512 * self; count = 512 } }
        ensures in_range { self < 262144 }
    {
        Run::new(self.first(), CHUNK_PAGES)
    }

    /// Whether a page is in the chunk.
    pub(crate) fn has(self, page: Page) -> bool
        ensures { result ≡ (page / 512 == self) }
    {
        page.number() / CHUNK_PAGES == self.0
    }
}

/// The index of a page's word in a level 3 table: address bits 20:12.
pub(crate) fn page_index(page: Page) -> u32
    ensures { result ≡ page % 512 }
{
    page.number() % CHUNK_PAGES
}

/// How many chunks end before or at a page's begin.
pub(crate) fn whole_chunks(page: u32) -> u32
    ensures { result ≡ page / 512 }
{
    page / CHUNK_PAGES
}
