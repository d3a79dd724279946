//! A valid word of a table.

ghost use Rattle.std.specs.Prelude.{◌≡◌, ◌+◌, ◌^◌, ◌≤◌};
ghost use Rattle.stage2.specs.Level.{number_of};
ghost use Rattle.stage2.specs.Reading.{access_of, pages_at};
ghost use Rattle.words.specs.Words.{entry_of};

use crate::table_page::Level;
use base::{Access, Page, Run};
use std::marker::Model;
use words::{Entry, read_entry};

/// A valid word of a table (Arm ARM, VMSAv8-64 stage 2 descriptors).
#[derive(Clone, Copy, Debug, PartialEq, Eq)]
pub struct TableEntry {
    level: Level,
    first: Page,
    word: u64,
}

impl Model for TableEntry {
    ghost use Rattle.std.specs.Prelude.{◌+◌, ◌^◌, ◌≤◌};
    ghost use Rattle.stage2.specs.Reading as spec;

    ghost Value = { spec.TableEntry };

    ghost view = { λ e. record { level = e.level; first = e.first; word = e.word } };

    ghost invariant = { λ e. e.first + spec.pages_at e.level ≤ 2 ^ 27 };

    ghost inverse = { λ e. record { level = e.level; first = e.first; word = e.word } };
}

impl TableEntry {
    /// The entry of a word of a table of this level, which stands for the pages from one on.
    pub(crate) fn new(level: Level, first: Page, word: u64) -> Self
        requires { first + pages_at level ≤ 2 ^ 27 }
        ensures { result ≡ record { level = level; first = first; word = word } }
    {
        TableEntry { level, first, word }
    }

    /// The level of the table in which the word stands.
    pub fn level(self) -> Level
        ensures { result ≡ self.level }
    {
        self.level
    }

    /// The first of the pages that the word stands for.
    pub fn first(self) -> Page
        ensures same { result ≡ self.first }
        ensures in_range { self.first + pages_at self.level ≤ 2 ^ 27 }
    {
        self.first
    }

    /// The pages that the word stands for: a gigabyte, a chunk or one page.
    pub fn pages(self) -> Run
        ensures { result ≡ record { first = self.first; count = pages_at self.level } }
    {
        Run::new(self.first, self.level.pages())
    }

    /// The word.
    pub fn word(self) -> u64
        ensures { result ≡ self.word }
    {
        self.word
    }

    /// What the word is: a table, or a block or page with its access, or none of these.
    pub fn entry(self) -> Entry
        ensures { result ≡ entry_of (number_of self.level) self.word }
    {
        read_entry(self.level.number(), self.word)
    }

    /// What is reached by the word: None where it is no block and no page.
    pub fn access(self) -> Option<Access>
        ensures { result ≡ access_of (entry_of (number_of self.level) self.word) }
    {
        match self.entry() {
            Entry::Leaf(_, access) => Some(access),
            Entry::Invalid | Entry::Table(_) | Entry::Wrong => None,
        }
    }
}
