//! The valid words of a partition's tables.

ghost use Rattle.std.specs.Prelude.{◌≡◌, ℕ, ◌+◌, ◌*◌, ◌%◌, ◌^◌, ◌<◌, ◌≤◌, [], Some};
ghost use Rattle.std.specs.Option.{option_map_or};
ghost use Rattle.pool.specs.Pool.{words_of};
ghost use Rattle.words.specs.Words.{entry_of};
ghost use Rattle.stage2.specs.Level.{number_of};
ghost use Rattle.stage2.specs.Reading as spec;
ghost use Rattle.words.specs.declared.word.Entry.TheVariants.{Leaf};
ghost use Rattle.stage2.specs.declared.table_page.Level.TheVariants.{Second, Third};
ghost use Rattle.stage2.specs.Reading.{StandBehind, StandInRow, PassTheSame, left_in, table_in, tree_entries, pages_at, IsCursor};

use crate::cursor::Cursor;
use crate::layout::slot_at;
use crate::source::WordSource;
use crate::table_entry::TableEntry;
use crate::table_page::{Level, TablePage};
use crate::walked::Slot;
use base::limits::{CHUNK_PAGES, PAGE_SIZE};
use base::{Access, Page};
use std::marker::Model;

/// By how much the address in a word grows with each block.
const BLOCK_STEP: u64 = PAGE_SIZE * CHUNK_PAGES as u64;

/// The valid words of a partition's tables that are still to come, in address order, those of a table
/// right behind its own. No table is read before its own entry has come.
#[derive(Drop)]
pub struct Entries<W: WordSource + Drop> {
    words: W,
    base: u32,
    pages: u32,
    root: Cursor,
    second: Cursor,
    third: Cursor,
}

impl<W: WordSource + Drop> Model for Entries<W> {
    ghost use Rattle.std.specs.Prelude.{List};
    ghost use Rattle.pool.specs.Pool.{words_of};
    ghost use Rattle.stage2.specs.Reading.{TableEntry, AreCursors, left_of};

    ghost Value = { List TableEntry };

    ghost view = { λ e. left_of e.base e.pages (words_of (W.words e.words)) e.root e.second e.third };

    ghost invariant = { λ e.
        AreCursors (W.pages e.words) (words_of (W.words e.words)) e.base e.pages e.root e.second e.third };
}

impl<W: WordSource + Drop> Entries<W> {
    /// The entries of the tree at a root, in a pool of so many pages that begins at a page of memory; of no
    /// root there are none.
    pub(crate) fn new(words: W, base: u32, pages: u32, root: Option<TablePage>) -> Self
        requires pages { W.pages words ≡ pages }
        requires fits { base + pages ≤ 2 ^ 27 }
        requires inside { (r : ℕ) → root ≡ Some r → r < pages }
        ensures { result
            ≡ option_map_or (λ r. tree_entries base pages (words_of (W.words words)) r) root [] }
    {
        let tree = opened(&words, Level::First, root, 0);
        Entries {
            words,
            base,
            pages,
            root: tree,
            second: Cursor::ended(Level::Second),
            third: Cursor::ended(Level::Third),
        }
    }
}

impl<W: WordSource + Drop> Entries<W> {
    /// Passes entries that are the same in both, as far as words of level 3 tables tell it, 64 of which are compared at
    /// once. It may pass none.
    pub fn pass_same<V: WordSource + Drop>(&mut self, other: &mut Entries<V>)
        ensures { PassTheSame self.old self.new other.old other.new }
    {
        self.third
            .pass_same(&self.words, &mut other.third, &other.words);
    }

    /// Passes the entries right behind a block or page that is mapped to itself, as far as they stand in a row
    /// with it: they are reached as it is. Says how many they are.
    pub(crate) fn pass_row(&mut self, entry: TableEntry, page: Page, access: Access) -> u32
        requires { entry_of (number_of entry.level) entry.word ≡ Leaf page access }
        ensures { StandInRow entry access result self.old self.new }
    {
        if page != entry.first() {
            return 0;
        }
        match entry.level() {
            Level::Third => self.pass_pages(entry),
            Level::Second => self.pass_blocks(entry),
            Level::First => 0,
        }
    }

    /// Passes the entries of the level 3 table that is read, as far as they stand in a row behind one of it.
    fn pass_pages(&mut self, entry: TableEntry) -> u32
        requires level { entry.level ≡ Third }
        requires odd { entry.word % 2 ≡ 1 }
        requires small { entry.word < 2 ^ 63 }
        ensures { StandBehind entry result self.old self.new }
    {
        let _first = entry.first();
        if !self.third.is_behind(entry) {
            return 0;
        }
        let word = entry.word() + PAGE_SIZE;
        self.third.pass_row(&self.words, Level::Third, word)
    }

    /// The same of the level 2 table, where no level 3 table is read.
    fn pass_blocks(&mut self, entry: TableEntry) -> u32
        requires level { entry.level ≡ Second }
        requires block { entry.word % 4 ≡ 1 }
        requires small { entry.word < 2 ^ 63 }
        ensures { StandBehind entry result self.old self.new }
    {
        let _first = entry.first();
        if !self.third.is_ended() || !self.second.is_behind(entry) {
            return 0;
        }
        let word = entry.word() + BLOCK_STEP;
        self.second.pass_row(&self.words, Level::Second, word)
    }
}

impl<W: WordSource + Drop> Iterator for Entries<W> {
    ghost use Rattle.std.specs.Iterator.{YieldsFirst, item_count};

    type Item = TableEntry;

    ghost next_gives = { YieldsFirst (λ entries. entries) };

    ghost remaining = { item_count (λ entries. entries) };

    // A call for each entry took a twentieth of the instructions of `tables`.
    #[inline(always)]
    fn next(&mut self) -> Option<TableEntry> {
        if let Some(entry) = self.third.next(&self.words, Level::Third) {
            return Some(entry);
        }
        if let Some(entry) = self.second.next(&self.words, Level::Second) {
            self.third = below(&self.words, self.base, self.pages, entry, Level::Third);
            return Some(entry);
        }
        let entry = self.root.next(&self.words, Level::First)?;
        self.second = below(&self.words, self.base, self.pages, entry, Level::Second);
        Some(entry)
    }
}

/// The words of the table of this level that an entry points at; none where it points at no table.
fn below<W: WordSource>(words: &W, base: u32, pages: u32, entry: TableEntry, level: Level) -> Cursor
    requires pages { W.pages words.now ≡ pages }
    requires fits { base + pages ≤ 2 ^ 27 }
    requires range { entry.first + 512 * pages_at level ≤ 2 ^ 27 }
    ensures entries { let now = words_of (W.words words.now) in
        left_in now result ≡ option_map_or (λ k. spec.table_entries level entry.first (now k))
        (table_in base pages (entry_of (number_of entry.level) entry.word)) [] }
    ensures is { IsCursor (W.pages words.now) (words_of (W.words words.now)) level result }
{
    let table = table_of(base, pages, entry);
    opened(words, level, table, entry.first().number())
}

/// The words of a table of this level, which stand for the pages from one on; none of no table.
fn opened<W: WordSource>(words: &W, level: Level, table: Option<TablePage>, first: u32) -> Cursor
    requires inside { (k : ℕ) → table ≡ Some k → k < W.pages words.now }
    requires range { first + 512 * pages_at level ≤ 2 ^ 27 }
    ensures entries { let now = words_of (W.words words.now) in
        left_in now result ≡ option_map_or (λ k. spec.table_entries level first (now k)) table [] }
    ensures is { IsCursor (W.pages words.now) (words_of (W.words words.now)) level result }
{
    match table {
        Some(table) => Cursor::over(words, level, table, first),
        None => Cursor::ended(level),
    }
}

/// The pool page of the table that an entry points at.
fn table_of(base: u32, pages: u32, entry: TableEntry) -> Option<TablePage>
    requires fits { base + pages ≤ 2 ^ 27 }
    ensures same { result ≡ table_in base pages (entry_of (number_of entry.level) entry.word) }
    ensures inside { (k : ℕ) → result ≡ Some k → k < pages }
{
    match slot_at(base, pages, entry.entry()) {
        Slot::Next(table) => Some(table),
        Slot::Empty | Slot::Maps(..) | Slot::Bad => None,
    }
}
