ghost use Rattle.std.specs.Prelude.{◌≡◌, ◌≢◌, ℕ, ◌+◌, ◌-◌, ◌*◌, ◌^◌, ◌<◌, ◌≤◌, length, reverse, IfOk, OnOk, true, false};
ghost use Rattle.base.specs.Manifest.{page_count};
ghost use Rattle.base.specs.Pages.{covers};
ghost use Rattle.pool.specs.Pool.{Pool, IsWhole, HasRow, all_lie_in, InShare, HasFree, IsLowestFree, pages_of, words_of, taken_of, nonzero_in, words_in, new_pool, after_set, after_sets, after_runs, gaps_of, after_replaces, after_invalidate, after_clear, after_take, after_give, emptied, free_of, image_of};
ghost use Rattle.pool.specs.Writing.{AreGapsThere, IsGapMissing, TurnRuns, TurnGaps};

use crate::image::Image;
use crate::operation::Op;
use crate::runs::TableWords;
use crate::word_range::WordRange;
use base::{OutOfMemory, Page, PartitionId, Run, Runs};
use manifest::Manifest;
use std::alloc::Global;

/// Memory for translation tables: pages of 512 words of 64 bits, numbered from 0. The first pages are
/// the partitions' roots, in ascending order of identifier; after all roots come the partitions'
/// shares in the same order, each as many pages as its partition's quota.
///
/// A page of a share is free or taken, and a free page holds zeros alone. `set_word`,
/// `set_runs`, `set_gaps`, `turn_runs`, `clear_words` and `replace_words` change words, and nothing else changes any. Each
/// word that is written, each invalidation and each clear is recorded as an `Op`.
pub trait TableMem {
    /// What the pages hold, which are taken, and what was done.
    ghost state: { Self → Pool };

    /// For how many more operations there is room.
    ghost room: { Self → ℕ };

    /// Memory for the partitions of a manifest: all words are 0, and no page of a share is taken.
    fn make(alloc: Global, manifest: &Manifest) -> Result<Self, OutOfMemory>
    where
        Self: Sized,
        ensures { IfOk result (λ m. state m ≡ new_pool manifest.now) };

    /// The word at an index of a page.
    fn word(&self, page: u32, index: u32) -> u64
        requires page_in { page < page_count (state self.now).memory.quotas }
        requires index_in { index < 512 }
        ensures { result ≡ words_of (state self.now).memory.words page index };

    /// The same of a root, or of a page that is taken, which stands in memory.
    fn taken_word(&self, page: u32, index: u32) -> u64
        requires page_in { page < page_count (state self.now).memory.quotas }
        requires index_in { index < 512 }
        requires taken { taken_of (state self.now).memory.taken page ≡ true }
        ensures { result ≡ words_of (state self.now).memory.words page index };

    /// How many words of a page are not 0.
    fn nonzero(&self, page: u32) -> u32
        requires { page < page_count (state self.now).memory.quotas }
        ensures { result ≡ nonzero_in (words_of (state self.now).memory.words) page };

    /// Whether all words of a root, or of a page that is taken, that stand for pages in none of the runs are these.
    fn has_gaps(&self, words: TableWords, runs: &Runs) -> bool
        requires page_in { words.page < page_count (state self.now).memory.quotas }
        requires taken { taken_of (state self.now).memory.taken words.page ≡ true }
        requires start_in { words.start < 2 ^ 27 }
        requires in_range { words.word + words.step * 512 < 2 ^ 64 }
        ensures yes { result ≡ true → AreGapsThere (state self.now).memory.words words runs.now }
        ensures no { result ≡ false → IsGapMissing (state self.now).memory.words words runs.now };

    /// Writes a word of a root or of a page that is taken.
    fn set_word(&mut self, page: u32, index: u32, word: u64)
        requires page_in { page < page_count (state self.old).memory.quotas }
        requires index_in { index < 512 }
        requires taken { taken_of (state self.old).memory.taken page ≡ true }
        requires ready { 0 < room self.old }
        ensures state { state self.new ≡ after_set page index word (state self.old) }
        ensures room { room self.new + 1 ≡ room self.old };

    /// Writes the words of a root, or of a page that is taken, that stand for the pages of runs. A word that is there
    /// is not written.
    fn set_runs(&mut self, words: TableWords, runs: &Runs)
        requires page_in { words.page < page_count (state self.old).memory.quotas }
        requires taken { taken_of (state self.old).memory.taken words.page ≡ true }
        requires start_in { words.start < 2 ^ 27 }
        requires in_range { words.word + words.step * 512 < 2 ^ 64 }
        requires ready { words_in words.start runs.now ≤ room self.old }
        ensures state { state self.new ≡ after_runs words.page words.start words.word words.step
            runs.now (state self.old) }
        ensures room { room self.old ≤ room self.new + words_in words.start runs.now };

    /// Writes the words of a root, or of a page that is taken, that stand for the pages in none of the runs. None of
    /// them is there: they are 0 exactly where the first of these words is not.
    fn set_gaps(&mut self, words: TableWords, runs: &Runs)
        requires page_in { words.page < page_count (state self.old).memory.quotas }
        requires taken { taken_of (state self.old).memory.taken words.page ≡ true }
        requires start_in { words.start < 2 ^ 27 }
        requires in_range { words.word + words.step * 512 < 2 ^ 64 }
        requires turned { TurnGaps (state self.old).memory.words words runs.now }
        requires ready { words_in words.start (gaps_of words.start runs.now) ≤ room self.old }
        ensures state { state self.new ≡ after_runs words.page words.start words.word words.step
            (gaps_of words.start runs.now) (state self.old) }
        ensures room { room self.old
            ≤ room self.new + words_in words.start (gaps_of words.start runs.now) };

    /// Writes the words of a root, or of a page that is taken, that stand for the pages of runs. None of them is there:
    /// they are 0 exactly where the first of these words is not.
    fn turn_runs(&mut self, words: TableWords, runs: &Runs)
        requires page_in { words.page < page_count (state self.old).memory.quotas }
        requires taken { taken_of (state self.old).memory.taken words.page ≡ true }
        requires start_in { words.start < 2 ^ 27 }
        requires in_range { words.word + words.step * 512 < 2 ^ 64 }
        requires turned { TurnRuns (state self.old).memory.words words runs.now }
        requires ready { words_in words.start runs.now ≤ room self.old }
        ensures state { state self.new ≡ after_runs words.page words.start words.word words.step
            runs.now (state self.old) }
        ensures room { room self.old ≤ room self.new + words_in words.start runs.now };

    /// Writes 0 into each word of a root, or of a page that is taken, that is not 0, upward.
    fn clear_words(&mut self, page: u32)
        requires page_in { page < page_count (state self.old).memory.quotas }
        requires taken { taken_of (state self.old).memory.taken page ≡ true }
        requires ready { nonzero_in (words_of (state self.old).memory.words) page ≤ room self.old }
        ensures state { state self.new ≡ after_sets page 0 512 0 0 (state self.old) }
        ensures room { room self.old
            ≤ room self.new + nonzero_in (words_of (state self.old).memory.words) page };

    /// Replaces words of a root, or of a page that is taken, by those of a range. Each stands for 512
    /// pages, the first for those from `start` on. A word that is not 0 is made 0 before, and its pages
    /// are invalidated for a partition.
    fn replace_words(&mut self, p: PartitionId, range: WordRange, start: Page)
        requires page_in { range.page < page_count (state self.old).memory.quotas }
        requires ordered { range.first ≤ range.end }
        requires index_in { range.end ≤ 512 }
        requires taken { taken_of (state self.old).memory.taken range.page ≡ true }
        requires in_range { range.word + range.step * (range.end - range.first) < 2 ^ 64 }
        requires pages_in { start + 512 * (range.end - range.first) ≤ 2 ^ 27 }
        requires partition { HasRow (state self.old).memory p }
        requires ready { 3 * range.end ≤ room self.old + 3 * range.first }
        ensures state { state self.new ≡ after_replaces p range.page range.first
            (range.end - range.first) range.word range.step start (state self.old) }
        ensures room { room self.old + 3 * range.first ≤ room self.new + 3 * range.end };

    /// Records that a partition's translations of these pages are invalidated.
    fn invalidate(&mut self, p: PartitionId, run: Run)
        requires partition { HasRow (state self.old).memory p }
        requires ready { 0 < room self.old }
        ensures state { state self.new ≡ after_invalidate p run (state self.old) }
        ensures room { room self.new + 1 ≡ room self.old };

    /// Records that the contents of these pages are cleared. No word changes.
    fn clear(&mut self, run: Run)
        requires ready { 0 < room self.old }
        ensures state { state self.new ≡ after_clear run (state self.old) }
        ensures room { room self.new + 1 ≡ room self.old };

    /// Takes the free page of a row's share with the lowest number, and answers that number.
    fn take_page(&mut self, row: u32) -> u32
        requires free { HasFree (pages_of (state self.old).memory) row }
        ensures lowest { IsLowestFree (pages_of (state self.old).memory) row result }
        ensures state { state self.new ≡ after_take result (state self.old) }
        ensures room { room self.new ≡ room self.old };

    /// Gives back a page of a row's share, all of whose words are 0.
    fn give_page(&mut self, row: u32, page: u32)
        requires inside { InShare (state self.old).memory.quotas row page }
        requires taken { taken_of (state self.old).memory.taken page ≡ true }
        requires empty { (i : ℕ) → i < 512 → words_of (state self.old).memory.words page i ≡ 0 }
        ensures state { state self.new ≡ after_give page (state self.old) }
        ensures room { room self.new ≡ room self.old };

    /// How many pages of a row's share are free; 0 where there is no such row.
    fn free(&self, row: u32) -> u32
        ensures { result ≡ free_of (pages_of (state self.now).memory) row };

    /// Whether there is room for this many operations.
    fn has_room(&self, operations: usize) -> bool
        ensures yes { result ≡ true → operations ≤ room self.now }
        ensures no { result ≡ false → room self.now < operations };

    /// Makes room for this many operations.
    fn ready(&mut self, operations: usize) -> Result<(), OutOfMemory>
        ensures state { state self.new ≡ state self.old }
        ensures room { OnOk result (operations ≤ room self.new) };

    /// Empties the list of operations.
    fn begin(&mut self)
        ensures state { state self.new ≡ emptied (state self.old) }
        ensures room { room self.old ≤ room self.new };

    /// Empties the list of operations, and gives its memory back.
    fn give_list_back(&mut self)
        ensures { state self.new ≡ emptied (state self.old) };

    /// The operations since `begin`, in the order in which they were made.
    fn ops(&self) -> &[Op]
        ensures { result.now ≡ reverse (state self.now).operations };

    /// How many operations were made since the memory was, modulo 2^64.
    fn made(&self) -> u64
        ensures { result ≡ (state self.now).made };

    /// A copy of all words.
    fn image(&self, alloc: Global) -> Result<Image, OutOfMemory>
        ensures { IfOk result (λ image. image ≡ image_of (state self.now).memory) };

    /// The lists are as long as the quotas say, and have a row for each quota.
    ghost whole: { (m : Self) → IsWhole (state m).memory };

    /// Each operation of the list writes a word of one of the pages, or names pages below 2^27.
    ghost operations_lie_within: { (m : Self) → all_lie_in (state m) ≡ true };

    /// Roots are never free.
    ghost roots_are_taken: { (m : Self) (row : ℕ) → row < length (state m).memory.quotas
        → taken_of (state m).memory.taken row ≡ true };

    /// A free page holds zeros alone.
    ghost free_is_zero: { (m : Self) (page index : ℕ) → taken_of (state m).memory.taken page ≡ false
        → words_of (state m).memory.words page index ≡ 0 };
}
