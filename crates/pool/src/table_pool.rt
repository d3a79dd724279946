ghost use Rattle.std.specs.Prelude.{◌≡◌, ℕ, ◌+◌, ◌-◌, ◌*◌, ◌<◌, ◌≤◌, ◌^◌, length, replicate, reverse, vec_len, vec_capacity, true, false, IfOk};
ghost use Rattle.base.specs.Manifest.{page_count};
ghost use Rattle.pool.specs.Pool.{CountsFree, CountsNonzero, NoneFreeBelow, lies_in, words_of, taken_of};
ghost use Rattle.std.specs.List.{list_all};
ghost use Rattle.pool.specs.Pool as shares;

use crate::identifiers::Identifiers;
use crate::image::Image;
use crate::log::Log;
use crate::looks::are_gaps_there;
use crate::operation::Op;
use crate::places::{quotas_of, share_starts, total};
use crate::replace::{Replacement, replace_words};
use crate::runs::{TableWords, turn_gaps, write_runs};
use crate::stretch::{WordAt, write_others, write_word};
use crate::table_mem::TableMem;
use crate::word_range::WordRange;
use crate::word_store::WordStore;
use base::limits::TABLE_WORDS;
use base::{OutOfMemory, Page, PartitionId, Run, Runs};
use manifest::{Manifest, Partition};
use marks::Marks;
use std::alloc::Global;

#[cfg(test)]
mod tests;

/// Table memory whose words stand in a store, 512 for each page, page by page. `taken` has a mark for
/// each page, `free` says for each row how many pages of its share are free, `lowest` below which page none of
/// them is, `nonzero` for each page how many of its words are not 0, and `made_before` how many operations were
/// made before those that are listed, modulo 2^64. Each root, and each page that is taken, stands in memory.
#[derive(Drop)]
pub struct TablePool<S: WordStore> {
    ids: Identifiers,
    quotas: Vec<u32>,
    pub(crate) store: S,
    taken: Marks,
    free: Vec<u32>,
    lowest: Vec<u32>,
    nonzero: Vec<u32>,
    operations: Vec<Op>,
    made_before: u64,
    ghost ids_whole: { length ids ≡ length quotas.items },
    ghost words_whole: { length (S.words store) ≡ 512 * page_count quotas.items },
    ghost taken_whole: { length taken ≡ page_count quotas.items },
    ghost free_counted: { CountsFree quotas.items taken free.items },
    ghost none_free_below: { NoneFreeBelow quotas.items taken lowest.items },
    ghost nonzero_counted: { CountsNonzero quotas.items (S.words store) nonzero.items },
    ghost fits: { page_count quotas.items ≤ 2 ^ 27 },
    ghost roots: { (row : ℕ) → row < length quotas.items → taken_of taken row ≡ true },
    ghost free_zero: { (page index : ℕ) → taken_of taken page ≡ false
        → words_of (S.words store) page index ≡ 0 },
    ghost within: { list_all (lies_in ids quotas.items) (reverse operations.items) ≡ true },
    ghost standing: { (page : ℕ) → taken_of taken page ≡ true
        → S.stands store page ≡ true },
}

/// So many counts, all of them 0.
fn zeros(alloc: Global, pages: usize) -> Result<Vec<u32>, OutOfMemory>
    ensures { IfOk result (λ zeros. zeros.items ≡ replicate pages 0) }
{
    Ok(vec![in alloc; 0; pages]?)
}

/// So many pages of words, all of them 0, of which the first stand in memory.
fn filled<S: WordStore>(alloc: Global, pages: usize, first: usize) -> Result<S, OutOfMemory>
    requires inside { first ≤ pages }
    requires fits { pages ≤ 2 ^ 27 }
    ensures { IfOk result (λ store. (S.words store ≡ replicate (512 * pages) 0)
        × ((page : ℕ) → page < first → S.stands store page ≡ true)) }
{
    let mut store = S::zeroed(alloc, TABLE_WORDS as usize * pages)?;
    for page in 0..first {
        store.fill(page as u32);
    }
    Ok(store)
}

impl<S: WordStore> TableMem for TablePool<S> {
    ghost use Rattle.std.specs.Prelude.{◌%◌};

    ghost state = { λ m. record {
      memory = record {
        ids = m.ids;
        quotas = m.quotas.items;
        words = S.words m.store;
        taken = m.taken;
      };
      operations = reverse m.operations.items;
      made = (m.made_before + length m.operations.items) % 2 ^ 64;
    } };

    ghost room = { λ m. vec_capacity m.operations - vec_len m.operations };

    ghost whole = { λ m. record {
      ids = m.ids_whole;
      words = m.words_whole;
      taken = m.taken_whole;
    } };

    ghost roots_are_taken = { λ m row h. m.roots row h };

    ghost free_is_zero = { λ m page index h. m.free_zero page index h };

    ghost operations_lie_within = { λ m. m.within };

    fn make(alloc: Global, manifest: &Manifest) -> Result<Self, OutOfMemory> {
        let partitions = manifest.partitions();
        let ids = Identifiers::of(alloc, manifest)?;
        let quotas = quotas_of(alloc, partitions)?;
        let roots = partitions.len();
        let shares = total(&quotas);
        let pages = roots + shares as usize;
        let lowest = share_starts(alloc, &quotas)?;
        Ok(TablePool {
            ids,
            quotas,
            store: filled(alloc, pages, roots)?,
            taken: Marks::new(alloc, roots as u32, shares)?,
            free: quotas_of(alloc, partitions)?,
            lowest,
            nonzero: zeros(alloc, pages)?,
            operations: Vec::new(alloc),
            made_before: 0,
        })
    }

    fn word(&self, page: u32, index: u32) -> u64 {
        self.store.word(page, index)
    }

    fn taken_word(&self, page: u32, index: u32) -> u64 {
        self.store.standing_word(page, index)
    }

    fn nonzero(&self, page: u32) -> u32 {
        self.nonzero[page as usize]
    }

    #[inline(always)]
    fn has_gaps(&self, words: TableWords, runs: &Runs) -> bool {
        are_gaps_there(&self.store, runs.list(), words)
    }

    fn set_word(&mut self, page: u32, index: u32, word: u64) {
        let at = WordAt { page, index, word };
        let before = self.store.standing_word(page, index);
        let count = self.nonzero[page as usize];
        let count = write_word(&mut self.store, &mut self.operations, count, before, at);
        self.nonzero[page as usize] = count;
    }

    #[inline(always)]
    fn set_runs(&mut self, words: TableWords, runs: &Runs) {
        let count = self.nonzero[words.page as usize];
        let count = write_runs::<S, false>(
            &mut self.store,
            &mut self.operations,
            count,
            runs.list(),
            words,
        );
        self.nonzero[words.page as usize] = count;
    }

    #[inline(always)]
    fn set_gaps(&mut self, words: TableWords, runs: &Runs) {
        let count = self.nonzero[words.page as usize];
        let log = Log::take(&mut self.operations, count);
        let Log {
            operations,
            nonzero,
        } = turn_gaps(&mut self.store, log, runs.list(), words);
        self.operations = operations;
        self.nonzero[words.page as usize] = nonzero;
    }

    #[inline(always)]
    fn turn_runs(&mut self, words: TableWords, runs: &Runs) {
        let count = self.nonzero[words.page as usize];
        let count = write_runs::<S, true>(
            &mut self.store,
            &mut self.operations,
            count,
            runs.list(),
            words,
        );
        self.nonzero[words.page as usize] = count;
    }

    fn clear_words(&mut self, page: u32) {
        let count = self.nonzero[page as usize];
        let log = Log::take(&mut self.operations, count);
        let zeros = WordRange {
            page,
            first: 0,
            end: TABLE_WORDS,
            word: 0,
            step: 0,
        };
        let Log {
            operations,
            nonzero,
        } = write_others(&mut self.store, log, zeros);
        self.operations = operations;
        self.nonzero[page as usize] = nonzero;
    }

    #[inline(always)]
    fn replace_words(&mut self, p: PartitionId, range: WordRange, start: Page) {
        let with = Replacement {
            who: p,
            range,
            start,
        };
        let count = self.nonzero[range.page as usize];
        let count = replace_words(&mut self.store, &mut self.operations, count, with);
        self.nonzero[range.page as usize] = count;
    }

    fn invalidate(&mut self, p: PartitionId, run: Run) {
        self.operations
            .push_reserved(Op::Invalidate { who: p, run });
    }

    fn clear(&mut self, run: Run) {
        self.operations.push_reserved(Op::Clear { run });
    }

    fn take_page(&mut self, row: u32) -> u32 {
        let row = row as usize;
        let page = self.taken.next_unmarked(self.lowest[row]);
        self.store.fill(page);
        self.taken.mark(page);
        self.free[row] -= 1;
        self.lowest[row] = page + 1;
        page
    }

    fn give_page(&mut self, row: u32, page: u32) {
        let row = row as usize;
        self.taken.unmark(page);
        self.free[row] += 1;
        self.lowest[row] = self.lowest[row].min(page);
    }

    fn free(&self, row: u32) -> u32 {
        match self.free.get(row as usize) {
            Some(free) => *free,
            None => 0,
        }
    }

    fn has_room(&self, operations: usize) -> bool {
        operations <= self.operations.capacity() - self.operations.len()
    }

    fn ready(&mut self, operations: usize) -> Result<(), OutOfMemory> {
        self.operations.reserve_exact(operations)?;
        Ok(())
    }

    fn begin(&mut self) {
        self.made_before = self.made();
        self.operations.clear();
    }

    fn give_list_back(&mut self) {
        self.begin();
        let alloc = *self.operations.allocator();
        self.operations = Vec::new(alloc);
    }

    fn ops(&self) -> &[Op] {
        self.operations.as_slice()
    }

    fn made(&self) -> u64 {
        self.made_before.wrapping_add(self.operations.len() as u64)
    }

    fn image(&self, alloc: Global) -> Result<Image, OutOfMemory> {
        Ok(Image::new(self.nonzero.len(), self.store.copy(alloc)?))
    }
}
