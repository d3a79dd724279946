//! Pages of a partition that are reached alike.

ghost use Rattle.std.specs.Prelude.{◌≡◌, ◌+◌, ◌*◌, ◌^◌, ◌<◌, ◌≤◌, true, [], MatchOption};
ghost use Rattle.stage2.specs.Reading.{pages_at};

use crate::entries::Entries;
use crate::source::WordSource;
use crate::table_entry::TableEntry;
use base::{Access, Run};
use std::marker::Model;
use words::Entry;

/// Pages in a row that are reached alike, and the word of the first.
#[derive(Clone, Copy, Debug, PartialEq, Eq)]
pub struct AlikePages {
    pages: Run,
    access: Access,
    word: u64,
}

impl Model for AlikePages {
    ghost use Rattle.stage2.specs.Reading as spec;

    ghost Value = { spec.AlikePages };

    ghost view = { λ a. record { pages = a.pages; access = a.access; word = a.word } };

    ghost inverse = { λ a. record { pages = a.pages; access = a.access; word = a.word } };
}

impl AlikePages {
    /// The pages of an entry and of so many in a row behind it.
    fn of(entry: TableEntry, access: Access, more: u32) -> Self
        requires { entry.first + pages_at entry.level * (more + 1) ≤ 2 ^ 27 }
        ensures pages { result.pages
            ≡ record { first = entry.first; count = pages_at entry.level * (more + 1) } }
        ensures access { result.access ≡ access }
        ensures word { result.word ≡ entry.word }
    {
        AlikePages {
            pages: Run::new(entry.first(), entry.level().pages() * (more + 1)),
            access,
            word: entry.word(),
        }
    }

    /// The pages.
    pub fn pages(self) -> Run
        ensures { result ≡ self.pages }
    {
        self.pages
    }

    /// What each of them is reached with.
    pub fn access(self) -> Access
        ensures { result ≡ self.access }
    {
        self.access
    }

    /// The word of the first page, or of its block.
    pub fn word(self) -> u64
        ensures { result ≡ self.word }
    {
        self.word
    }
}

/// The pages that a partition reaches and that are still to come, upward: pages in a row that are reached alike
/// come together, as far as one table names them. Words are compared, and the first of a row alone is decoded.
#[derive(Drop)]
pub struct Alike<W: WordSource + Drop>(Entries<W>);

impl<W: WordSource + Drop> Model for Alike<W> {
    ghost use Rattle.std.specs.Prelude.{List};
    ghost use Rattle.stage2.specs.Reading.{TableEntry};

    ghost Value = { List TableEntry };

    ghost view = { λ a. a.0 };
}

impl<W: WordSource + Drop> Alike<W> {
    /// The pages that these entries map.
    pub(crate) fn over(entries: Entries<W>) -> Self
        ensures { result ≡ entries }
    {
        Alike(entries)
    }
}

impl<W: WordSource + Drop> Iterator for Alike<W> {
    ghost use Rattle.std.specs.Iterator.{item_count};
    ghost use Rattle.stage2.specs.Reading.{GivesAlike};

    type Item = AlikePages;

    ghost next_gives = { λ old pages new. GivesAlike old pages new };

    ghost remaining = { item_count (λ entries. entries) };

    fn next(&mut self) -> Option<AlikePages> {
        while let Some(entry) = self.0.next() {
            if let Entry::Leaf(page, access) = entry.entry() {
                let more = self.0.pass_row(entry, page, access);
                return Some(AlikePages::of(entry, access, more));
            }
        }
        None
    }
}
