//! One table that is read word by word.

ghost use Rattle.std.specs.Prelude.{◌≡◌, ℕ, ◌+◌, ◌*◌, ◌%◌, ◌^◌, ◌<◌, ◌≤◌, ◌++◌, true, [], IfSome};
ghost use Rattle.std.specs.Iterator.{YieldsFirst};
ghost use Rattle.pool.specs.Pool.{Words, words_of};
ghost use Rattle.stage2.specs.declared.table_page.Level.{Level};
ghost use Rattle.stage2.specs.declared.table_page.Level.TheVariants.{Third};
ghost use Rattle.stage2.specs.Reading as spec;
ghost use Rattle.stage2.specs.Reading.{left_in, IsCursor, PassTheSame, pages_at};

use crate::read::AT_ONCE;
use crate::source::WordSource;
use crate::table_entry::TableEntry;
use crate::table_page::{Level, TablePage};
use base::Page;
use base::limits::{PAGE_SIZE, TABLE_WORDS};

/// The words of a table from an index on.
#[derive(Clone, Copy, Debug)]
pub(crate) struct Cursor {
    level: Level,
    table: TablePage,
    /// The first of the pages that its words stand for.
    first: u32,
    index: u32,
    /// How many of its words from the index on are not 0, at most.
    left: u32,
}

impl Cursor {
    /// All words of a table, which stand for the pages from one on.
    pub(crate) fn over<W: WordSource>(words: &W, level: Level, table: TablePage, first: u32) -> Self
        requires table { table < W.pages words.now }
        requires range { first + 512 * pages_at level ≤ 2 ^ 27 }
        ensures entries { let now = words_of (W.words words.now) in
            left_in now result ≡ spec.table_entries level first (now table) }
        ensures is { IsCursor (W.pages words.now) (words_of (W.words words.now)) level result }
    {
        Cursor {
            level,
            table,
            first,
            index: 0,
            left: words.most_words(table.number()),
        }
    }

    /// No words of a table.
    pub(crate) fn ended(level: Level) -> Self
        ensures { (pages : ℕ) (words : Words)
            → IsCursor pages words level result × (left_in words result ≡ []) }
    {
        Cursor {
            level,
            table: TablePage::new(0),
            first: 0,
            index: TABLE_WORDS,
            left: 0,
        }
    }

    /// The next entry of the table.
    pub(crate) fn next<W: WordSource>(&mut self, words: &W, level: Level) -> Option<TableEntry>
        requires is { IsCursor (W.pages words.now) (words_of (W.words words.now)) level self.old }
        ensures entries { let now = words_of (W.words words.now) in
            YieldsFirst (left_in now) self.old result self.new }
        ensures at { IfSome result (λ e. e.level ≡ level) }
        ensures is { IsCursor (W.pages words.now) (words_of (W.words words.now)) level self.new }
    {
        while self.left > 0 && self.index < TABLE_WORDS {
            let index = self.index;
            let word = words.word(self.table.number(), index);
            self.index += 1;
            // Bit 0 is 0 in an invalid descriptor.
            if word % 2 != 0 {
                self.left -= 1;
                let first = Page::new(self.first + level.pages() * index);
                return Some(TableEntry::new(level, first, word));
            }
        }
        None
    }

    /// Passes the entries that stand in a row from the index on, of which the first has this word, and says
    /// how many they are.
    pub(crate) fn pass_row<W: WordSource>(&mut self, words: &W, level: Level, word: u64) -> u32
        requires is { IsCursor (W.pages words.now) (words_of (W.words words.now)) level self.old }
        requires odd { word % 2 ≡ 1 }
        requires small { word < 2 ^ 63 + 2 ^ 22 }
        ensures entries { let now = words_of (W.words words.now) in
            left_in now self.old ≡ spec.entry_row level (spec.next_first level self.old) word result
            ++ left_in now self.new }
        ensures range { spec.next_first level self.old + pages_at level * result ≤ 2 ^ 27 }
        ensures is { IsCursor (W.pages words.now) (words_of (W.words words.now)) level self.new }
    {
        let step = PAGE_SIZE * u64::from(level.pages());
        let mut next = word;
        let mut count = 0;
        while self.left > 0 && self.index < TABLE_WORDS {
            if words.word(self.table.number(), self.index) != next {
                break;
            }
            self.index += 1;
            self.left -= 1;
            next += step;
            count += 1;
        }
        count
    }

    /// Whether the next word of the table is the one behind that of an entry.
    pub(crate) fn is_behind(&self, entry: TableEntry) -> bool
        requires index { self.now.index ≤ 512 }
        requires range { self.now.first + 512 * pages_at entry.level ≤ 2 ^ 27 }
        ensures { result ≡ true
            → spec.next_first entry.level self.now ≡ entry.first + pages_at entry.level }
    {
        let pages = entry.level().pages();
        self.first + pages * self.index == entry.first().number() + pages
    }

    /// Whether no entry of the table is left.
    pub(crate) fn is_ended(&self) -> bool
        ensures { result ≡ true → (pages : ℕ) (words : Words) (level : Level)
            → IsCursor pages words level self.now → left_in words self.now ≡ [] }
    {
        self.left == 0 || self.index >= TABLE_WORDS
    }

    /// Passes words of two level 3 tables that are the same, 64 at once, as far as both stand for the same pages and are
    /// read up to the same index.
    pub(crate) fn pass_same<W: WordSource, V: WordSource>(
        &mut self,
        words: &W,
        other: &mut Cursor,
        others: &V,
    )
        requires is { IsCursor (W.pages words.now) (words_of (W.words words.now)) Third self.old }
        requires other_is { IsCursor (V.pages others.now) (words_of (V.words others.now)) Third other.old }
        ensures same { let ours = words_of (W.words words.now) in
            let theirs = words_of (V.words others.now) in
            PassTheSame (left_in ours self.old) (left_in ours self.new)
            (left_in theirs other.old) (left_in theirs other.new) }
        ensures is { IsCursor (W.pages words.now) (words_of (W.words words.now)) Third self.new }
        ensures other_is { IsCursor (V.pages others.now) (words_of (V.words others.now)) Third other.new }
    {
        let (table, other_table) = (self.table, other.table);
        while self.first == other.first
            && self.index == other.index
            && TABLE_WORDS - self.index >= AT_ONCE
            && are_same_words(words, table, others, other_table, self.index)
        {
            self.index += AT_ONCE;
            other.index += AT_ONCE;
        }
    }
}

/// Whether 64 words of two tables, from an index on, are the same.
fn are_same_words<W: WordSource, V: WordSource>(
    words: &W,
    table: TablePage,
    others: &V,
    other: TablePage,
    first: u32,
) -> bool
    requires most { first + 64 ≤ 512 }
    requires table { table < W.pages words.now }
    requires other { other < V.pages others.now }
    ensures { result ≡ true → (x : ℕ) → first ≤ x → x < first + 64
        → words_of (W.words words.now) table x ≡ words_of (V.words others.now) other x }
{
    let mut same = true;
    for index in first..first + AT_ONCE {
        same &= words.word(table.number(), index) == others.word(other.number(), index);
    }
    same
}
