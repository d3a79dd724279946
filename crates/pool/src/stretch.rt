//! Words of a page that follow one another, and are written at once.

ghost use Rattle.std.specs.Prelude.{◌≡◌, ℕ, List, ◌+◌, ◌-◌, ◌*◌, ◌^◌, ◌<◌, ◌≤◌, ◌⊎◌, length, if◌then◌else◌, ◌==◌, true};
ghost use Rattle.pool.specs.Pool.{after_set, words_of, nonzero_in};
ghost use Rattle.pool.specs.Writing.{range_set, with_range, writes_of, log_of, NoneThere, Turns, MayWrite, MayWriteAt, Records, RecordsAll, HasRoom, Grows, IsReady, Wrote};

use crate::log::Log;
use crate::operation::Op;
use crate::word_range::WordRange;
use crate::word_store::WordStore;

/// No more words than these are written beside their operations.
pub(crate) const SHORT: u32 = 16;

/// A word that is to stand in a page.
#[derive(Clone, Copy)]
pub(crate) struct WordAt {
    pub(crate) page: u32,
    pub(crate) index: u32,
    pub(crate) word: u64,
}

/// How many words of a page are not 0, once one that was this is that.
#[inline(always)]
fn recounted(count: u32, before: u64, after: u64) -> u32
    requires counted { 1 ≤ count ⊎ (before ≡ 0) }
    requires most { count ≤ 512 }
    ensures { result + (if before == 0 then 0 else 1) ≡ count + (if after == 0 then 0 else 1) }
{
    count + u32::from(after != 0) + u32::from(before == 0) - 1
}

/// How many words of a page are not 0, once so many were turned: they were 0, or they are, where the new word is 0.
#[inline(always)]
fn recounted_all(count: u32, written: u32, word: u64) -> u32
    requires least { word ≡ 0 → written ≤ count }
    requires most { count ≤ 512 }
    requires few { written ≤ 512 }
    ensures zeros { word ≡ 0 → result + written ≡ count }
    ensures others { 0 < word → result ≡ count + written }
{
    if word == 0 {
        count - written
    } else {
        count + written
    }
}

/// Writes a word, and records the write behind these operations. It answers how many words of the page are not 0: the word
/// in whose place this one comes is 0 exactly where `before` is.
#[inline(always)]
pub(crate) fn write_word<S: WordStore>(
    store: &mut S,
    operations: &mut Vec<Op>,
    nonzero: u32,
    before: u64,
    at: WordAt,
) -> u32
    requires may { MayWriteAt (S.words store.old) (S.stands store.old) at before }
    requires ready { IsReady (S.words store.old) at.page 1 (log_of operations.old nonzero) }
    ensures wrote { Wrote (after_set at.page at.index at.word) at.page 1 (S.words store.old) (S.words store.new)
        (log_of operations.old nonzero) (log_of operations.new result) }
    ensures standing { S.stands store.new ≡ S.stands store.old }
{
    let WordAt { page, index, word } = at;
    store.set_word(page, index, word);
    operations.push_reserved(Op::Set { page, index, word });
    recounted(nonzero, before, word)
}

/// Records the writes of all words of a range behind these operations.
#[inline(always)]
pub(crate) fn record_all(mut operations: Vec<Op>, range: WordRange) -> Vec<Op>
    requires ordered { range.first ≤ range.end }
    requires index_in { range.end ≤ 512 }
    requires in_range { range.word + range.step * (range.end - range.first) < 2 ^ 64 }
    requires ready { HasRoom operations (range.end - range.first) }
    ensures { RecordsAll range operations result }
{
    let mut word = range.word;
    for index in range.first..range.end {
        operations.push_reserved(Op::Set {
            page: range.page,
            index,
            word,
        });
        word += range.step;
    }
    operations
}

/// Writes words none of which is there, and records each write behind these operations. Few are written beside their
/// operations: two loops take longer to begin.
#[inline(always)]
fn write_all<S: WordStore>(store: &mut S, operations: Vec<Op>, range: WordRange) -> Vec<Op>
    requires may { MayWrite (S.words store.old) (S.stands store.old) range }
    requires ready { HasRoom operations (range.end - range.first) }
    ensures words { S.words store.new ≡ with_range (S.words store.old) range }
    ensures standing { S.stands store.new ≡ S.stands store.old }
    ensures records { NoneThere (S.words store.old) range
        → Records (S.words store.old) range operations.items result.items }
    ensures grows { Grows (range.end - range.first) operations result }
{
    if range.end - range.first <= SHORT {
        return store.set_and_record(operations, range);
    }
    let operations = record_all(operations, range);
    store.set_words(range);
    operations
}

/// Writes words of which it is known that none is there, and which of those in whose place they come are 0.
#[inline(always)]
pub(crate) fn turn_all<S: WordStore>(store: &mut S, log: Log, range: WordRange) -> Log
    requires may { MayWrite (S.words store.old) (S.stands store.old) range }
    requires turned { Turns (S.words store.old) range }
    requires ready { IsReady (S.words store.old) range.page (range.end - range.first) log }
    ensures wrote { Wrote (range_set range) range.page (range.end - range.first)
        (S.words store.old) (S.words store.new) log result }
    ensures standing { S.stands store.new ≡ S.stands store.old }
{
    let Log {
        operations,
        nonzero,
    } = log;
    let operations = write_all(store, operations, range);
    let nonzero = recounted_all(nonzero, range.end - range.first, range.word);
    Log {
        operations,
        nonzero,
    }
}

/// Writes the words that are not there, one by one.
#[inline(always)]
pub(crate) fn write_others<S: WordStore>(store: &mut S, mut log: Log, range: WordRange) -> Log
    requires may { MayWrite (S.words store.old) (S.stands store.old) range }
    requires ready { IsReady (S.words store.old) range.page (length (writes_of (S.words store.old) range)) log }
    ensures wrote { Wrote (range_set range) range.page (range.end - range.first)
        (S.words store.old) (S.words store.new) log result }
    ensures standing { S.stands store.new ≡ S.stands store.old }
{
    let WordRange {
        page,
        first,
        end,
        mut word,
        step,
    } = range;
    for index in first..end {
        let before = store.standing_word(page, index);
        if before != word {
            let at = WordAt { page, index, word };
            log.nonzero = write_word(store, &mut log.operations, log.nonzero, before, at);
        }
        word += step;
    }
    log
}
