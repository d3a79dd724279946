ghost use Rattle.std.specs.Prelude.{◌≡◌, ◌≢◌, ℕ, ◌+◌, ◌-◌, ◌*◌, ◌/◌, ◌^◌, ◌<◌, ◌≤◌, List, Bool, None, true, false, length, replicate, slice_index, slice_index_or, slice_set, IfOk};
ghost use Rattle.pool.specs.Cells.{held, with_zeros, IsPageFilled, IsPageEmpty, AreMarked};
ghost use Rattle.pool.specs.Pool.{words_of};
ghost use Rattle.pool.specs.Writing.{HasRoom, MayPut, Puts, RecordsAll};

use crate::cells::{Base, Cells, Deed, allocate, deallocate};
use crate::operation::Op;
use crate::word_range::WordRange;
use crate::word_store::WordStore;
use base::OutOfMemory;
use base::limits::TABLE_WORDS;
use std::alloc::Global;
use std_alloc::room::may_hold;

#[cfg(test)]
mod tests;

/// How many words a page has, as a number of places.
const PAGE: usize = TABLE_WORDS as usize;

/// Words in a block of raw memory, which goes back to the allocator when they end. Those of a page stand there
/// once it has a mark: a memory of many pages is made without a write to any of them.
pub struct Block {
    base: Base<u64>,
    count: usize,
    cells: Cells<u64>,
    marks: Vec<bool>,
    deed: Deed<u64, Global>,
    alloc: Global,
    ghost cells_placed: { cells.at ≡ base.ptr },
    ghost deed_placed: { deed.at ≡ base.ptr },
    ghost deed_counts: { deed.len ≡ count },
    ghost deed_alloc: { deed.alloc ≡ alloc },
    ghost counted: { length cells.slots ≡ count },
    ghost sized: { count < 512 * length marks.items + 512 },
    ghost marked: { AreMarked marks.items cells.slots },
}

/// The marks of so many pages, none of which has one.
fn unmarked(alloc: Global, pages: usize) -> Result<Vec<bool>, OutOfMemory>
    ensures { IfOk result (λ marks. marks.items ≡ replicate pages false) }
{
    Ok(vec![in alloc; false; pages]?)
}

/// Whether the page of a place has a mark.
fn is_marked(marks: &[bool], place: usize) -> bool
    ensures { result ≡ slice_index_or marks.now (place / 512) false }
{
    match marks.get(place / PAGE) {
        Some(mark) => *mark,
        None => false,
    }
}

/// Fills an empty page with zeros.
fn fill_page(base: Base<u64>, cells: &mut Cells<u64>, page: u32)
    requires place { base.ptr ≡ cells.old.at }
    requires empty { IsPageEmpty cells.old.slots page }
    requires inside { 512 * page + 512 ≤ length cells.old.slots }
    ensures place { cells.new.at ≡ cells.old.at }
    ensures slots { cells.new.slots ≡ with_zeros cells.old.slots page 512 }
{
    for index in 0..PAGE {
        cells.write(base, PAGE * page as usize + index, 0);
    }
}

/// Empties so many places.
fn empty(base: Base<u64>, count: usize, cells: &mut Cells<u64>, marks: &[bool])
    requires place { base.ptr ≡ cells.old.at }
    requires counted { length cells.old.slots ≡ count }
    requires marked { AreMarked marks.now cells.old.slots }
    ensures place { cells.new.at ≡ cells.old.at }
    ensures empty { cells.new.slots ≡ replicate count None }
{
    for place in 0..count {
        if is_marked(marks, place) {
            let _word = cells.read(base, place);
        }
    }
}

/// Writes a word of a page in place of what stands there.
#[inline(always)]
fn put_word(base: Base<u64>, cells: &mut Cells<u64>, page: u32, index: u32, word: u64)
    requires place { base.ptr ≡ cells.old.at }
    requires filled { IsPageFilled cells.old.slots page }
    requires index_in { index < 512 }
    ensures place { cells.new.at ≡ cells.old.at }
    ensures len { length cells.new.slots ≡ length cells.old.slots }
    ensures filled { IsPageFilled cells.new.slots page }
    ensures words { held cells.new.slots ≡ slice_set (held cells.old.slots) (512 * page + index) word }
    ensures marked { (marks : List Bool)
        → AreMarked marks cells.old.slots → AreMarked marks cells.new.slots }
{
    let place = PAGE * page as usize + index as usize;
    let _old = cells.read(base, place);
    cells.write(base, place, word);
}

/// Writes words of a page, 512 to a page, in place of what stands there. Where the block begins is at hand, whatever
/// is written.
#[inline(always)]
fn put_words(base: Base<u64>, cells: &mut Cells<u64>, range: WordRange)
    requires { MayPut base.ptr cells.old range }
    ensures { Puts range cells.old cells.new }
{
    let mut next = range.word;
    for index in range.first..range.end {
        put_word(base, cells, range.page, index, next);
        next += range.step;
    }
}

/// The same, and records each write behind these operations.
#[inline(always)]
fn put_and_record(
    base: Base<u64>,
    cells: &mut Cells<u64>,
    mut operations: Vec<Op>,
    range: WordRange,
) -> Vec<Op>
    requires may { MayPut base.ptr cells.old range }
    requires ready { HasRoom operations (range.end - range.first) }
    ensures put { Puts range cells.old cells.new }
    ensures recorded { RecordsAll range operations result }
{
    let page = range.page;
    let mut word = range.word;
    for index in range.first..range.end {
        put_word(base, cells, page, index, word);
        operations.push_reserved(Op::Set { page, index, word });
        word += range.step;
    }
    operations
}

impl Block {
    /// Where the first word lies.
    pub(crate) fn address(&self) -> *const u64
        ensures { result ≡ self.now.base.ptr }
    {
        self.base.ptr.cast_const()
    }

    /// Fills a page, if it is not filled yet.
    #[inline(always)]
    fn hold(&mut self, page: u32)
        requires { 512 * page + 512 ≤ self.old.count }
        ensures words { held self.new.cells.slots ≡ held self.old.cells.slots }
        ensures filled { slice_index_or self.new.marks.items page false ≡ true }
        ensures kept { (q : ℕ) → slice_index_or self.old.marks.items q false ≡ true
            → slice_index_or self.new.marks.items q false ≡ true }
    {
        if !self.marks[page as usize] {
            fill_page(self.base, &mut self.cells, page);
            self.marks[page as usize] = true;
        }
    }

    /// The word at a place.
    fn word_at(&self, place: usize) -> u64
        requires { place < self.now.count }
        ensures { result ≡ slice_index (held self.now.cells.slots) place }
    {
        if is_marked(&self.marks, place) {
            *self.cells.get(self.base, place)
        } else {
            0
        }
    }
}

impl Drop for Block {
    fn drop(self) {
        let Block {
            base,
            count,
            mut cells,
            marks,
            deed,
            alloc,
        } = self;
        empty(base, count, &mut cells, &marks);
        deallocate(&alloc, base, count, cells, deed);
    }
}

impl WordStore for Block {
    ghost words = { λ b. held b.cells.slots };

    ghost stands = { λ b page. slice_index_or b.marks.items page false };

    fn zeroed(alloc: Global, count: usize) -> Result<Self, OutOfMemory> {
        if !may_hold::<u64>(count) {
            return Err(OutOfMemory);
        }
        let (base, cells, deed) = allocate(&alloc, count)?;
        match unmarked(alloc, count / PAGE) {
            Ok(marks) => Ok(Block {
                base,
                count,
                cells,
                marks,
                deed,
                alloc,
            }),
            Err(error) => {
                deallocate(&alloc, base, count, cells, deed);
                Err(error)
            }
        }
    }

    fn fill(&mut self, page: u32) {
        self.hold(page);
    }

    fn word(&self, page: u32, index: u32) -> u64 {
        if self.marks[page as usize] {
            *self
                .cells
                .get(self.base, PAGE * page as usize + index as usize)
        } else {
            0
        }
    }

    fn standing_word(&self, page: u32, index: u32) -> u64 {
        *self
            .cells
            .get(self.base, PAGE * page as usize + index as usize)
    }

    fn set_word(&mut self, page: u32, index: u32, word: u64) {
        put_word(self.base, &mut self.cells, page, index, word);
    }

    fn set_words(&mut self, range: WordRange) {
        put_words(self.base, &mut self.cells, range);
    }

    fn set_and_record(&mut self, operations: Vec<Op>, range: WordRange) -> Vec<Op> {
        put_and_record(self.base, &mut self.cells, operations, range)
    }

    fn copy(&self, alloc: Global) -> Result<Vec<u64>, OutOfMemory> {
        let mut copy = Vec::with_capacity(alloc, self.count)?;
        for place in 0..self.count {
            copy.push(self.word_at(place))?;
        }
        Ok(copy)
    }
}
