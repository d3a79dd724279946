ghost use Rattle.std.specs.Prelude.{◌≡◌, ℕ, ◌+◌, ◌-◌, ◌*◌, ◌<◌, ◌≤◌, List, Bool, true, length, replicate, slice_index, slice_set, IfOk};
ghost use Rattle.pool.specs.Pool.{words_of};
ghost use Rattle.pool.specs.Writing.{with_range, MayWrite, HasRoom, NoneThere, Records, Grows};

use crate::operation::Op;
use crate::word_range::WordRange;
use base::OutOfMemory;
use std::alloc::Global;

/// A row of words, 512 to a page, whose number does not change.
pub trait WordStore: Drop {
    /// The words, in order.
    ghost words: { Self → List ℕ };

    /// Whether a page stands in memory: a processor that reads there finds its words. Of another page the words
    /// are 0, and what lies there is what was there before.
    ghost stands: { Self → ℕ → Bool };

    /// So many words, all of them 0.
    fn zeroed(alloc: Global, count: usize) -> Result<Self, OutOfMemory>
    where
        Self: Sized,
        ensures { IfOk result (λ store. words store ≡ replicate count 0) };

    /// Writes the words of a page to memory, where they do not stand there yet.
    fn fill(&mut self, page: u32)
        requires { 512 * page + 512 ≤ length (words self.old) }
        ensures words { words self.new ≡ words self.old }
        ensures filled { stands self.new page ≡ true }
        ensures kept { (q : ℕ) → stands self.old q ≡ true → stands self.new q ≡ true };

    /// The word of a page at an index.
    fn word(&self, page: u32, index: u32) -> u64
        requires index_in { index < 512 }
        requires inside { 512 * page + 512 ≤ length (words self.now) }
        ensures { result ≡ slice_index (words self.now) (512 * page + index) };

    /// The same of a page that stands in memory.
    fn standing_word(&self, page: u32, index: u32) -> u64
        requires index_in { index < 512 }
        requires inside { 512 * page + 512 ≤ length (words self.now) }
        requires standing { stands self.now page ≡ true }
        ensures { result ≡ slice_index (words self.now) (512 * page + index) };

    /// Writes the word of a page at an index.
    fn set_word(&mut self, page: u32, index: u32, word: u64)
        requires index_in { index < 512 }
        requires inside { 512 * page + 512 ≤ length (words self.old) }
        requires standing { stands self.old page ≡ true }
        ensures words { words self.new ≡ slice_set (words self.old) (512 * page + index) word }
        ensures standing { stands self.new ≡ stands self.old };

    /// Writes words of a page from one index up to another, in place of what stands there.
    fn set_words(&mut self, range: WordRange)
        requires may { MayWrite (words self.old) (stands self.old) range }
        ensures words { words self.new ≡ with_range (words self.old) range }
        ensures standing { stands self.new ≡ stands self.old };

    /// The same of words none of which is there. Each write is recorded behind these operations, word by word.
    fn set_and_record(&mut self, operations: Vec<Op>, range: WordRange) -> Vec<Op>
        requires may { MayWrite (words self.old) (stands self.old) range }
        requires ready { HasRoom operations (range.end - range.first) }
        ensures words { words self.new ≡ with_range (words self.old) range }
        ensures standing { stands self.new ≡ stands self.old }
        ensures records { NoneThere (words self.old) range
            → Records (words self.old) range operations.items result.items }
        ensures grows { Grows (range.end - range.first) operations result };

    /// A copy of all words.
    fn copy(&self, alloc: Global) -> Result<Vec<u64>, OutOfMemory>
        ensures { IfOk result (λ copy. copy.items ≡ words self.now) };
}
