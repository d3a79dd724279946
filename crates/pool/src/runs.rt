//! Words of a page that stand for the pages of runs.

ghost use Rattle.std.specs.Prelude.{◌≡◌, ◌==◌, not, ◌+◌, ◌-◌, ◌*◌, ◌^◌, ◌<◌, ◌≤◌, ◌∷◌, [], ◌⊎◌, IfSome, true};
ghost use Rattle.base.specs.Pages.{are_normal};
ghost use Rattle.pool.specs.Pool.{index_from, words_of, words_in, gaps_of};
ghost use Rattle.pool.specs.Writing.{IsHeld, CanWriteRuns, CanWriteIndexes, Wrote, log_of, page_alone, runs_set, indexes_set};

use crate::log::Log;
use crate::operation::Op;
use crate::stretch::{SHORT, WordAt, turn_all, write_others, write_word};
use crate::word_range::WordRange;
use crate::word_store::WordStore;
use base::limits::TABLE_WORDS;
use base::{Page, Run};

/// What the 512 words of a page are to be: each stands for a page more, and is a step more, than the one before.
#[derive(Clone, Copy)]
pub struct TableWords {
    /// The page of the words.
    pub page: u32,
    /// The number of the page that the first stands for.
    pub start: u32,
    /// The first word.
    pub word: u64,
    /// How much more each other one is than the one before.
    pub step: u64,
}

impl TableWords {
    /// The words from one index up to another.
    #[inline(always)]
    pub(crate) fn range(self, first: u32, end: u32) -> WordRange
        requires { self.word + self.step * first < 2 ^ 64 }
        ensures { result ≡ record {
          page = self.page;
          first = first;
          end = end;
          word = self.word + self.step * first;
          step = self.step;
        } }
    {
        WordRange {
            page: self.page,
            first,
            end,
            word: self.word + self.step * u64::from(first),
            step: self.step,
        }
    }
}

/// Which of 512 words stands for a page, where the first stands for `start`: 512 where it is behind them
/// all, and 0 where it is before.
#[inline(always)]
pub(crate) fn index_from(start: u32, number: u32) -> u32
    ensures { result ≡ index_from start number }
{
    number.saturating_sub(start).min(TABLE_WORDS)
}

/// The same where it is one of them, and else a number of 512 or more: that is one comparison.
#[inline(always)]
pub(crate) fn index_at(start: u32, page: Page) -> u32
    requires { start < 2 ^ 27 }
    ensures within { result < 512 → start + result ≡ page }
    ensures beside { 512 ≤ result → (page < start) ⊎ (start + 512 ≤ page) }
    ensures behind { start ≤ page → start + result ≡ page }
    ensures before { page < start → 512 < result }
{
    page.number().wrapping_sub(start)
}

/// Some of the 512 words, from one index up to another.
#[derive(Clone, Copy)]
struct Indexes {
    first: u32,
    end: u32,
}

/// Which of the 512 words stand for the pages of a run, where the first stands for `start`, if each page has one: that is
/// one comparison.
#[inline(always)]
fn all_indexes(start: u32, run: Run) -> Option<Indexes>
    requires { start < 2 ^ 27 }
    ensures { IfSome result (λ all. (all.first ≡ index_from start run.first)
        × (all.end ≡ index_from start (run.first + run.count))) }
{
    let first = index_at(start, run.first());
    let end = u64::from(first) + u64::from(run.count());
    if end <= u64::from(TABLE_WORDS) {
        Some(Indexes {
            first,
            end: end as u32,
        })
    } else {
        None
    }
}

/// Which of them stand for pages of a run.
#[inline(always)]
fn indexes_of(start: u32, run: Run) -> Indexes
    requires { start < 2 ^ 27 }
    ensures first { result.first ≡ index_from start run.first }
    ensures end { result.end ≡ index_from start (run.first + run.count) }
{
    match all_indexes(start, run) {
        Some(all) => all,
        None => Indexes {
            first: index_from(start, run.first().number()),
            end: index_from(start, run.end()),
        },
    }
}

/// The word in whose place one is to come. Where it is turned, it is not looked at: one is answered that is 0, or the new
/// word, exactly where it is.
#[inline(always)]
fn word_before<S: WordStore, const TURNED: bool>(store: &S, at: WordAt) -> u64
    requires index_in { at.index < 512 }
    requires page_in { IsHeld (S.words store.now) (S.stands store.now) at.page }
    requires turned { TURNED ≡ true
        → (words_of (S.words store.now) at.page at.index == 0) ≡ not (at.word == 0) }
    ensures zero { (result == 0) ≡ (words_of (S.words store.now) at.page at.index == 0) }
    ensures there { (result == at.word) ≡ (words_of (S.words store.now) at.page at.index == at.word) }
{
    if TURNED {
        u64::from(at.word == 0)
    } else {
        store.standing_word(at.page, at.index)
    }
}

/// Writes the word for a page, if it is among them and not there, and records the write behind these
/// operations. It answers how many words of the page of words are not 0.
#[inline(always)]
fn write_page<S: WordStore, const TURNED: bool>(
    store: &mut S,
    operations: &mut Vec<Op>,
    nonzero: u32,
    page: Page,
    with: TableWords,
) -> u32
    requires { CanWriteRuns TURNED (S.words store.old) (S.stands store.old) with (page_alone page ∷ [])
        (log_of operations.old nonzero) }
    ensures wrote { Wrote (runs_set with (page_alone page ∷ [])) with.page (words_in with.start (page_alone page ∷ []))
        (S.words store.old) (S.words store.new) (log_of operations.old nonzero) (log_of operations.new result) }
    ensures standing { S.stands store.new ≡ S.stands store.old }
{
    let index = index_at(with.start, page);
    if index >= TABLE_WORDS {
        return nonzero;
    }
    let at = WordAt {
        page: with.page,
        index,
        word: with.word + with.step * u64::from(index),
    };
    let before = word_before::<S, TURNED>(store, at);
    if before == at.word {
        return nonzero;
    }
    write_word(store, operations, nonzero, before, at)
}

/// Writes the words of some indexes that are not there.
#[inline(always)]
fn write_indexes<S: WordStore, const TURNED: bool>(
    store: &mut S,
    log: Log,
    indexes: Indexes,
    with: TableWords,
) -> Log
    requires { CanWriteIndexes TURNED (S.words store.old) (S.stands store.old) with indexes.first indexes.end log }
    ensures wrote { Wrote (indexes_set with indexes.first indexes.end) with.page (indexes.end - indexes.first)
        (S.words store.old) (S.words store.new) log result }
    ensures standing { S.stands store.new ≡ S.stands store.old }
{
    let Indexes { first, end } = indexes;
    if first >= end {
        return log;
    }
    let range = with.range(first, end);
    if TURNED {
        return turn_all(store, log, range);
    }
    write_others(store, log, range)
}

/// The same. It is no part of the loops over runs and gaps: so the compiler makes two words at once.
fn write_apart<S: WordStore, const TURNED: bool>(
    store: &mut S,
    log: Log,
    indexes: Indexes,
    with: TableWords,
) -> Log
    requires { CanWriteIndexes TURNED (S.words store.old) (S.stands store.old) with indexes.first indexes.end log }
    ensures wrote { Wrote (indexes_set with indexes.first indexes.end) with.page (indexes.end - indexes.first)
        (S.words store.old) (S.words store.new) log result }
    ensures standing { S.stands store.new ≡ S.stands store.old }
{
    write_indexes::<S, TURNED>(store, log, indexes, with)
}

/// Writes the words for the pages of a run that are not there.
#[inline(always)]
fn write_run<S: WordStore, const TURNED: bool>(
    store: &mut S,
    mut log: Log,
    run: Run,
    with: TableWords,
) -> Log
    requires { CanWriteRuns TURNED (S.words store.old) (S.stands store.old) with (run ∷ []) log }
    ensures wrote { Wrote (runs_set with (run ∷ [])) with.page (words_in with.start (run ∷ []))
        (S.words store.old) (S.words store.new) log result }
    ensures standing { S.stands store.new ≡ S.stands store.old }
{
    if run.count() == 1 {
        log.nonzero = write_page::<S, TURNED>(
            store,
            &mut log.operations,
            log.nonzero,
            run.first(),
            with,
        );
        return log;
    }
    if run.count() <= SHORT
        && let Some(all) = all_indexes(with.start, run)
    {
        return write_indexes::<S, TURNED>(store, log, all, with);
    }
    write_apart::<S, TURNED>(store, log, indexes_of(with.start, run), with)
}

/// Writes the words for the pages of runs that are not there.
#[inline(always)]
fn write_each<S: WordStore, const TURNED: bool>(
    store: &mut S,
    mut log: Log,
    runs: &[Run],
    with: TableWords,
) -> Log
    requires normal { are_normal runs.now ≡ true }
    requires can { CanWriteRuns TURNED (S.words store.old) (S.stands store.old) with runs.now log }
    ensures wrote { Wrote (runs_set with runs.now) with.page (words_in with.start runs.now)
        (S.words store.old) (S.words store.new) log result }
    ensures standing { S.stands store.new ≡ S.stands store.old }
{
    for run in runs {
        log = write_run::<S, TURNED>(store, log, *run, with);
    }
    log
}

/// The same, and records each write behind these operations. It answers how many words of the page are not 0. It is a function
/// of its own, so that one page alone needs less of the stack.
#[inline(never)]
fn write_many<S: WordStore, const TURNED: bool>(
    store: &mut S,
    operations: &mut Vec<Op>,
    nonzero: u32,
    runs: &[Run],
    with: TableWords,
) -> u32
    requires normal { are_normal runs.now ≡ true }
    requires can { CanWriteRuns TURNED (S.words store.old) (S.stands store.old) with runs.now
        (log_of operations.old nonzero) }
    ensures wrote { Wrote (runs_set with runs.now) with.page (words_in with.start runs.now)
        (S.words store.old) (S.words store.new) (log_of operations.old nonzero) (log_of operations.new result) }
    ensures standing { S.stands store.new ≡ S.stands store.old }
{
    let log = Log::take(operations, nonzero);
    let Log {
        operations: list,
        nonzero,
    } = write_each::<S, TURNED>(store, log, runs, with);
    *operations = list;
    nonzero
}

/// Writes the words of a few indexes that are not there, and records each write behind these operations. It answers how many
/// words of the page are not 0.
#[inline(always)]
fn write_few<S: WordStore, const TURNED: bool>(
    store: &mut S,
    operations: &mut Vec<Op>,
    nonzero: u32,
    indexes: Indexes,
    with: TableWords,
) -> u32
    requires { CanWriteIndexes TURNED (S.words store.old) (S.stands store.old) with indexes.first indexes.end
        (log_of operations.old nonzero) }
    ensures wrote { Wrote (indexes_set with indexes.first indexes.end) with.page (indexes.end - indexes.first)
        (S.words store.old) (S.words store.new) (log_of operations.old nonzero) (log_of operations.new result) }
    ensures standing { S.stands store.new ≡ S.stands store.old }
{
    let log = Log::take(operations, nonzero);
    let Log {
        operations: list,
        nonzero,
    } = write_indexes::<S, TURNED>(store, log, indexes, with);
    *operations = list;
    nonzero
}

/// Writes the words for the pages of runs that are not there, and records each write behind these operations. Where they are
/// turned, none is looked at. It answers how many words of the page are not 0. For one page alone the list stays where it is.
#[inline(always)]
pub(crate) fn write_runs<S: WordStore, const TURNED: bool>(
    store: &mut S,
    operations: &mut Vec<Op>,
    nonzero: u32,
    runs: &[Run],
    with: TableWords,
) -> u32
    requires normal { are_normal runs.now ≡ true }
    requires can { CanWriteRuns TURNED (S.words store.old) (S.stands store.old) with runs.now
        (log_of operations.old nonzero) }
    ensures wrote { Wrote (runs_set with runs.now) with.page (words_in with.start runs.now)
        (S.words store.old) (S.words store.new) (log_of operations.old nonzero) (log_of operations.new result) }
    ensures standing { S.stands store.new ≡ S.stands store.old }
{
    if runs.len() == 1 {
        let run = runs[0];
        if run.count() == 1 {
            return write_page::<S, TURNED>(store, operations, nonzero, run.first(), with);
        }
        if run.count() <= SHORT
            && let Some(all) = all_indexes(with.start, run)
        {
            return write_few::<S, TURNED>(store, operations, nonzero, all, with);
        }
    }
    write_many::<S, TURNED>(store, operations, nonzero, runs, with)
}

/// Writes the words for pages in none of the runs, gap by gap. None of them is there.
pub(crate) fn turn_gaps<S: WordStore>(
    store: &mut S,
    mut log: Log,
    runs: &[Run],
    with: TableWords,
) -> Log
    requires { CanWriteRuns true (S.words store.old) (S.stands store.old) with (gaps_of with.start runs.now) log }
    ensures wrote { let gaps = gaps_of with.start runs.now in
        Wrote (runs_set with gaps) with.page (words_in with.start gaps)
        (S.words store.old) (S.words store.new) log result }
    ensures standing { S.stands store.new ≡ S.stands store.old }
{
    let mut first = 0;
    for run in runs {
        let end = index_from(with.start, run.first().number());
        log = write_apart::<S, true>(store, log, Indexes { first, end }, with);
        first = first.max(index_from(with.start, run.end()));
    }
    write_apart::<S, true>(
        store,
        log,
        Indexes {
            first,
            end: TABLE_WORDS,
        },
        with,
    )
}
