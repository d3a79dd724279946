//! What tables say: the one place that reads them and changes nothing.

ghost use Rattle.std.specs.Prelude.{◌≡◌, ℕ, ◌==◌, ◌+◌, ◌%◌, ◌^◌, ◌<◌, ◌≤◌, Some, length, position};
ghost use Rattle.base.specs.Manifest.{page_count, quotas_of};
ghost use Rattle.pool.specs.Pool.{words_of};
ghost use Rattle.stage2.specs.Level.{number_of};
ghost use Rattle.stage2.specs.Readings.{entries_of, layout_in};
ghost use Rattle.stage2.specs.Slot as slots;
ghost use Rattle.stage2.specs.Slot.{layout_of};
ghost use Rattle.stage2.specs.Walk.{walk, translation, at_2, at_3, index_2};
ghost use Rattle.stage2.specs.declared.walked.Slot.TheVariants.{Next};

use crate::alike::Alike;
use crate::entries::Entries;
use crate::layout::{Layout, slot_at};
use crate::place::{Chunk, Gigabyte, page_index};
use crate::source::{ImageWords, WordSource};
use crate::table_page::{Level, Row, TablePage};
use crate::walked::{Slot, Walked};
use base::{Page, PartitionId};
use manifest::Manifest;
use pool::{Image, row_in};
use std::marker::Model;
use words::read_entry;

/// What says where the tables lie, and whose they are.
#[derive(Clone, Copy)]
pub(crate) enum Source<'a> {
    Layout(&'a Layout),
    Manifest(&'a Manifest),
}

impl<'a> Source<'a> {
    /// The page of memory where the pool begins, and how many pages it has.
    fn pool(&self) -> (u32, u32)
        ensures base { result.0 ≡ (layout_in self.now).base }
        ensures pages { result.1 ≡ (layout_in self.now).pages }
        ensures fits { result.0 + result.1 ≤ 2 ^ 27 }
    {
        match self {
            Source::Layout(layout) => layout.pool(),
            Source::Manifest(manifest) => (manifest.pool().number(), manifest.table_pages()),
        }
    }

    /// The row of a partition.
    fn row(&self, p: PartitionId) -> Option<Row>
        ensures row { result ≡ position (λ id. id == p) (layout_in self.now).ids }
        ensures root { (r : ℕ) → result ≡ Some r → r < (layout_in self.now).pages }
    {
        match self {
            Source::Layout(layout) => layout.row(p),
            Source::Manifest(manifest) => find_row(manifest, p),
        }
    }
}

/// The row of a partition.
fn find_row(manifest: &Manifest, p: PartitionId) -> Option<Row>
    ensures { result ≡ position (λ id. id == p) (layout_of manifest.now).ids }
{
    match row_in(manifest.partitions(), p) {
        Some(row) => Some(Row::new(row as u32)),
        None => None,
    }
}

/// Reads the tables of all partitions, word by word, as a processor does.
#[derive(Drop)]
pub struct Reader<'a, W: WordSource + Drop> {
    words: W,
    source: Source<'a>,
}

impl<'a, W: WordSource + Drop> Model for Reader<'a, W> {
    ghost use Rattle.std.specs.Prelude.{◌≡◌};
    ghost use Rattle.stage2.specs.Readings.{Reading, layout_in};

    ghost Value = { Reading };

    ghost view = { λ r. record { layout = layout_in r.source; words = W.words r.words } };

    ghost invariant = { λ r. W.pages r.words ≡ (layout_in r.source).pages };
}

impl<'a, W: WordSource + Drop> Reader<'a, W> {
    pub(crate) fn new(words: W, source: Source<'a>) -> Self
        requires { W.pages words ≡ (layout_in source).pages }
        ensures { result ≡ record { layout = layout_in source.entry; words = W.words words } }
    {
        Reader { words, source }
    }

    /// What a walk for a page of a partition gives: it reads at most three words, from the partition's
    /// root on, indexed by address bits 38:30, 29:21 and 20:12 (Arm ARM, VMSAv8-64 stage 2, 4 KB
    /// granule). None for a partition that has no root.
    pub fn walk(&self, p: PartitionId, page: Page) -> Walked
        ensures { result ≡ translation self.now.layout (words_of self.now.words) p page }
    {
        match self.source.row(p) {
            Some(row) => self.walk_row(row, page),
            None => Walked::None,
        }
    }

    /// The valid words of a partition's tables, in address order, those of a table right behind its own.
    /// A partition that has no root has none.
    pub fn entries(self, p: PartitionId) -> Entries<W>
        ensures { result ≡ entries_of self.entry p }
    {
        let (base, pages) = self.source.pool();
        let root = match self.source.row(p) {
            Some(row) => Some(row.root()),
            None => None,
        };
        Entries::new(self.words, base, pages, root)
    }

    /// The pages that a partition reaches, upward. Pages in a row that are reached alike come together, as far as
    /// one table names them.
    pub fn alike(self, p: PartitionId) -> Alike<W>
        ensures { result ≡ entries_of self.entry p }
    {
        Alike::over(self.entries(p))
    }

    /// What a word is.
    #[tactic(auto, unfolding(crate::specs::Slot::slot))]
    fn slot(&self, level: Level, table: TablePage, index: u32) -> Slot
        requires table { table < self.now.layout.pages }
        requires index { index < 512 }
        ensures same { result
            ≡ slots.slot self.now.layout (number_of level) (words_of self.now.words table index) }
        ensures inside { (j : ℕ) → result ≡ Next j → j < self.now.layout.pages }
    {
        let (base, pages) = self.source.pool();
        let word = self.words.word(table.number(), index);
        slot_at(base, pages, read_entry(level.number(), word))
    }

    /// What a walk for a page gives from the root of a row.
    #[tactic(auto, unfolding(crate::specs::Walk::walk_across))]
    fn walk_row(&self, row: Row, page: Page) -> Walked
        requires row { row < length self.now.layout.ids }
        requires root { row < self.now.layout.pages }
        ensures { result ≡ walk self.now.layout (words_of self.now.words) row page }
    {
        let gigabyte = Gigabyte::of(page);
        match self.slot(Level::First, row.root(), gigabyte.index()) {
            Slot::Empty => Walked::None,
            Slot::Next(second) => self.walk_chunk(second, page),
            _ => Walked::Wrong,
        }
    }

    /// The rest of a walk from a level 2 table on.
    fn walk_chunk(&self, second: TablePage, page: Page) -> Walked
        requires table { second < self.now.layout.pages }
        ensures { let words = words_of self.now.words in
            let word = words second (index_2 page) in
            result ≡ at_2 self.now.layout words page (slots.slot self.now.layout 2 word) }
    {
        match self.slot(Level::Second, second, Chunk::of(page).index()) {
            Slot::Empty => Walked::None,
            Slot::Maps(first, access) => Walked::Leaf(block_page(first, page), access),
            Slot::Next(third) => self.walk_page(third, page),
            Slot::Bad => Walked::Wrong,
        }
    }

    /// The end of a walk in a level 3 table.
    fn walk_page(&self, third: TablePage, page: Page) -> Walked
        requires table { third < self.now.layout.pages }
        ensures { let word = words_of self.now.words third (page % 512) in
            result ≡ at_3 (slots.slot self.now.layout 3 word) }
    {
        match self.slot(Level::Third, third, page_index(page)) {
            Slot::Empty => Walked::None,
            Slot::Maps(found, access) => Walked::Leaf(found, access),
            Slot::Next(_) | Slot::Bad => Walked::Wrong,
        }
    }
}

/// The page of a block, which begins at this page, that a page is translated to.
fn block_page(first: Page, page: Page) -> Page
    requires { first + page % 512 < 2 ^ 27 }
    ensures { result ≡ first + page % 512 }
{
    Page::new(first.number() + page_index(page))
}

/// What a walk for a page of a partition gives over a copy of the words, as `Reader::walk` does.
pub fn walk_image(manifest: &Manifest, image: &Image, p: PartitionId, page: Page) -> Walked
    requires { image.now.pages ≡ page_count (quotas_of manifest.now.partitions) }
    ensures { result ≡ translation (layout_of manifest.now) (words_of image.now.words) p page }
{
    Reader::of_image(manifest, image).walk(p, page)
}

impl<'a> Reader<'a, ImageWords<'a>> {
    /// Reads a copy of the words of a manifest's tables.
    pub fn of_image(manifest: &'a Manifest, image: &'a Image) -> Self
        requires { image.now.pages ≡ page_count (quotas_of manifest.now.partitions) }
        ensures { result ≡ record { layout = layout_of manifest.now; words = image.now.words } }
    {
        Reader::new(ImageWords(image), Source::Manifest(manifest))
    }
}
