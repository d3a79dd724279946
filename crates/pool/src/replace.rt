//! Words that are replaced, one after another: what stands there is broken first.

ghost use Rattle.std.specs.Prelude.{◌≡◌, ◌+◌, ◌-◌, ◌*◌, ◌^◌, ◌<◌, ◌≤◌, ◌++◌, ◌∷◌, []};
ghost use Rattle.pool.specs.Pool.{words_of, after_break, after_make};
ghost use Rattle.pool.specs.Writing.{IsHeld, MayWrite, HasRoom, Grows, IsReady, CanReplace, Wrote, log_of, block_from, replaces};
ghost use Rattle.pool.specs.declared.operation.Op.TheVariants.{Invalidate};

use crate::log::Log;
use crate::operation::Op;
use crate::stretch::{WordAt, turn_all, write_word};
use crate::word_range::WordRange;
use crate::word_store::WordStore;
use base::limits::TABLE_WORDS;
use base::{Page, PartitionId, Run};

/// How many pages a word stands for: one for each word of the table that may stand in its place.
const PAGES: u32 = TABLE_WORDS;

/// Words that replace others. Each stands for 512 pages of a partition, which follow those of the one before.
#[derive(Clone, Copy)]
pub(crate) struct Replacement {
    pub(crate) who: PartitionId,
    pub(crate) range: WordRange,
    /// The first page that the first word stands for.
    pub(crate) start: Page,
}

/// Records an invalidation. It is made here, apart from the writes, so that none of its bytes is filled
/// with what one of them left.
#[inline(always)]
fn push_invalidate(operations: &mut Vec<Op>, who: PartitionId, run: Run)
    requires { HasRoom operations.old 1 }
    ensures items { operations.new.items ≡ operations.old.items ++ Invalidate who run ∷ [] }
    ensures grows { Grows 1 operations.old operations.new }
{
    operations.push_reserved(Op::Invalidate { who, run });
}

/// Makes the first of these words 0, if it is not, and invalidates what it stands for then. It answers how many words of
/// the page are not 0.
#[inline(always)]
fn break_word<S: WordStore>(
    store: &mut S,
    operations: &mut Vec<Op>,
    nonzero: u32,
    with: Replacement,
) -> u32
    requires index_in { with.range.first < 512 }
    requires page_in { IsHeld (S.words store.old) (S.stands store.old) with.range.page }
    requires pages_in { with.start + 512 ≤ 2 ^ 27 }
    requires ready { IsReady (S.words store.old) with.range.page 2 (log_of operations.old nonzero) }
    ensures wrote { Wrote (after_break with.who with.range.page with.range.first (block_from with.start))
        with.range.page 2 (S.words store.old) (S.words store.new)
        (log_of operations.old nonzero) (log_of operations.new result) }
    ensures zero { words_of (S.words store.new) with.range.page with.range.first ≡ 0 }
    ensures standing { S.stands store.new ≡ S.stands store.old }
{
    let before = store.standing_word(with.range.page, with.range.first);
    if before == 0 {
        return nonzero;
    }
    let zero = WordAt {
        page: with.range.page,
        index: with.range.first,
        word: 0,
    };
    let nonzero = write_word(store, operations, nonzero, before, zero);
    push_invalidate(operations, with.who, Run::new(with.start, PAGES));
    nonzero
}

/// Writes the first of these words where 0 stands, if it is not 0. It answers how many words of the page are not 0.
#[inline(always)]
fn make_word<S: WordStore>(
    store: &mut S,
    operations: &mut Vec<Op>,
    nonzero: u32,
    range: WordRange,
) -> u32
    requires index_in { range.first < 512 }
    requires page_in { IsHeld (S.words store.old) (S.stands store.old) range.page }
    requires zero { words_of (S.words store.old) range.page range.first ≡ 0 }
    requires ready { IsReady (S.words store.old) range.page 1 (log_of operations.old nonzero) }
    ensures wrote { Wrote (after_make range.page range.first range.word) range.page 1
        (S.words store.old) (S.words store.new)
        (log_of operations.old nonzero) (log_of operations.new result) }
    ensures standing { S.stands store.new ≡ S.stands store.old }
{
    if range.word == 0 {
        return nonzero;
    }
    let at = WordAt {
        page: range.page,
        index: range.first,
        word: range.word,
    };
    write_word(store, operations, nonzero, 0, at)
}

/// Replaces one word, and records the operations behind these. It answers how many words of the page are
/// not 0.
#[inline(always)]
fn replace_one<S: WordStore>(
    store: &mut S,
    operations: &mut Vec<Op>,
    nonzero: u32,
    with: Replacement,
) -> u32
    requires one { with.range.end ≡ with.range.first + 1 }
    requires may { MayWrite (S.words store.old) (S.stands store.old) with.range }
    requires pages_in { with.start + 512 ≤ 2 ^ 27 }
    requires ready { IsReady (S.words store.old) with.range.page 3 (log_of operations.old nonzero) }
    ensures wrote { Wrote (replaces with) with.range.page 3 (S.words store.old) (S.words store.new)
        (log_of operations.old nonzero) (log_of operations.new result) }
    ensures standing { S.stands store.new ≡ S.stands store.old }
{
    let range = with.range;
    let nonzero = break_word(store, operations, nonzero, with);
    make_word(store, operations, nonzero, range)
}

/// Replaces words, each by what stands there and by what is to.
fn replace_others<S: WordStore>(store: &mut S, mut log: Log, with: Replacement) -> Log
    requires { CanReplace (S.words store.old) (S.stands store.old) with log }
    ensures wrote { Wrote (replaces with) with.range.page (3 * (with.range.end - with.range.first))
        (S.words store.old) (S.words store.new) log result }
    ensures standing { S.stands store.new ≡ S.stands store.old }
{
    let Replacement { who, range, start } = with;
    let mut word = range.word;
    let mut start = start.number();
    for index in range.first..range.end {
        let one = Replacement {
            who,
            range: WordRange {
                first: index,
                end: index + 1,
                word,
                ..range
            },
            start: Page::new(start),
        };
        log.nonzero = replace_one(store, &mut log.operations, log.nonzero, one);
        word += range.step;
        start += PAGES;
    }
    log
}

/// Replaces words. Where all words of the page are 0, none is broken.
#[inline(never)]
fn replace_all<S: WordStore>(store: &mut S, log: Log, with: Replacement) -> Log
    requires { CanReplace (S.words store.old) (S.stands store.old) with log }
    ensures wrote { Wrote (replaces with) with.range.page (3 * (with.range.end - with.range.first))
        (S.words store.old) (S.words store.new) log result }
    ensures standing { S.stands store.new ≡ S.stands store.old }
{
    if log.nonzero == 0 && with.range.word > 0 {
        return turn_all(store, log, with.range);
    }
    replace_others(store, log, with)
}

/// Replaces words, and records each operation behind these. It answers how many words of the page are
/// not 0. For one word alone the list stays where it is.
#[inline(always)]
pub(crate) fn replace_words<S: WordStore>(
    store: &mut S,
    operations: &mut Vec<Op>,
    nonzero: u32,
    with: Replacement,
) -> u32
    requires { CanReplace (S.words store.old) (S.stands store.old) with (log_of operations.old nonzero) }
    ensures wrote { Wrote (replaces with) with.range.page (3 * (with.range.end - with.range.first))
        (S.words store.old) (S.words store.new) (log_of operations.old nonzero) (log_of operations.new result) }
    ensures standing { S.stands store.new ≡ S.stands store.old }
{
    if with.range.end == with.range.first + 1 {
        return replace_one(store, operations, nonzero, with);
    }
    let log = Log::take(operations, nonzero);
    let Log {
        operations: list,
        nonzero,
    } = replace_all(store, log, with);
    *operations = list;
    nonzero
}
