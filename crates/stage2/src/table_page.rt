//! Tables: their levels, the pages of table memory that they fill, with the numbers that
//! `pool::TableMem` gives these, and the rows of partitions, whose roots are the first pages.

ghost use Rattle.std.specs.Prelude.{◌≡◌, ◌≤◌};
ghost use Rattle.stage2.specs.Level.{number_of};
ghost use Rattle.stage2.specs.Reading.{pages_at};

use base::limits::{CHUNK_PAGES, GIGABYTE_PAGES};
use std::marker::Model;

/// The number of a page of table memory, which one table fills.
#[derive(Clone, Copy, Debug, PartialEq, Eq)]
pub(crate) struct TablePage(u32);

impl Model for TablePage {
    ghost use Rattle.std.specs.Prelude.{ℕ};

    ghost Value = { ℕ };

    ghost view = { λ table. table.0 };

    ghost inverse = { λ n. record { 0 = n } };
}

impl TablePage {
    /// The page with this number.
    pub(crate) fn new(number: u32) -> Self
        ensures { result ≡ number }
    {
        TablePage(number)
    }

    /// The number of the page.
    pub(crate) fn number(self) -> u32
        ensures { result ≡ self }
    {
        self.0
    }
}

/// The place of a partition among those of the manifest, from 0.
#[derive(Clone, Copy)]
pub(crate) struct Row(u32);

impl Model for Row {
    ghost use Rattle.std.specs.Prelude.{ℕ};

    ghost Value = { ℕ };

    ghost view = { λ row. row.0 };

    ghost inverse = { λ n. record { 0 = n } };
}

impl Row {
    /// The row with this number.
    pub(crate) fn new(number: u32) -> Self
        ensures { result ≡ number }
    {
        Row(number)
    }

    /// The number of the row.
    pub(crate) fn number(self) -> u32
        ensures { result ≡ self }
    {
        self.0
    }

    /// The page of the partition's root.
    pub(crate) fn root(self) -> TablePage
        ensures { result ≡ self }
    {
        TablePage(self.0)
    }
}

/// The level of a table: a root has level 1.
#[derive(Clone, Copy, Debug, PartialEq, Eq)]
pub enum Level {
    /// Level 1: a word for each gigabyte.
    First,
    /// Level 2: a word for each chunk of a gigabyte.
    Second,
    /// Level 3: a word for each page of a chunk.
    Third,
}

impl Level {
    /// The number of the level.
    pub fn number(self) -> u8
        ensures same { result ≡ number_of self }
        ensures least { 1 ≤ result }
        ensures most { result ≤ 3 }
    {
        match self {
            Level::First => 1,
            Level::Second => 2,
            Level::Third => 3,
        }
    }

    /// How many pages a word of such a table stands for: a gigabyte, a chunk or one.
    pub fn pages(self) -> u32
        ensures { result ≡ pages_at self }
    {
        match self {
            Level::First => GIGABYTE_PAGES,
            Level::Second => CHUNK_PAGES,
            Level::Third => 1,
        }
    }
}
