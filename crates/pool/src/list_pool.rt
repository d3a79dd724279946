ghost use Rattle.std.specs.Prelude.{true};

use crate::operation::Op;
use crate::stretch::record_all;
use crate::table_pool::TablePool;
use crate::word_range::WordRange;
use crate::word_store::WordStore;
use base::OutOfMemory;
use base::limits::TABLE_WORDS;
use std::alloc::Global;

/// Table memory in a vector.
pub type ListPool = TablePool<Vec<u64>>;

impl WordStore for Vec<u64> {
    ghost words = { λ v. v.items };

    ghost stands = { λ _ _. true };

    fn zeroed(alloc: Global, count: usize) -> Result<Self, OutOfMemory> {
        Ok(vec![in alloc; 0; count]?)
    }

    fn fill(&mut self, _page: u32) {}

    fn word(&self, page: u32, index: u32) -> u64 {
        self[TABLE_WORDS as usize * page as usize + index as usize]
    }

    fn standing_word(&self, page: u32, index: u32) -> u64 {
        self[TABLE_WORDS as usize * page as usize + index as usize]
    }

    fn set_word(&mut self, page: u32, index: u32, word: u64) {
        self[TABLE_WORDS as usize * page as usize + index as usize] = word;
    }

    fn set_words(&mut self, range: WordRange) {
        let mut next = range.word;
        for index in range.first..range.end {
            self[TABLE_WORDS as usize * range.page as usize + index as usize] = next;
            next += range.step;
        }
    }

    fn set_and_record(&mut self, operations: Vec<Op>, range: WordRange) -> Vec<Op> {
        self.set_words(range);
        record_all(operations, range)
    }

    fn copy(&self, alloc: Global) -> Result<Vec<u64>, OutOfMemory> {
        Ok(self.to_vec(alloc)?)
    }
}
