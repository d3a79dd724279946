//! Looks at words of a page that stands in memory. A loop over many of them has no end at the first that decides: so it
//! becomes vector instructions.

ghost use Rattle.std.specs.Prelude.{◌≡◌, ◌≢◌, ℕ, ◌+◌, ◌-◌, ◌*◌, ◌^◌, ◌<◌, ◌≤◌, true, false};
ghost use Rattle.pool.specs.Pool.{words_of};
ghost use Rattle.pool.specs.Writing.{MayWrite, AreThere, IsMissing, MayWriteRuns, AreGapsThere, IsGapMissing};

use crate::runs::{TableWords, index_from};
use crate::word_range::WordRange;
use crate::word_store::WordStore;
use base::Run;
use base::limits::TABLE_WORDS;

/// Whether the words of a range are there.
#[inline(always)]
pub(crate) fn are_there<S: WordStore>(store: &S, range: WordRange) -> bool
    requires { MayWrite (S.words store.now) (S.stands store.now) range }
    ensures yes { result ≡ true → AreThere (S.words store.now) range }
    ensures no { result ≡ false → IsMissing (S.words store.now) range }
{
    let mut are = true;
    let mut word = range.word;
    for index in range.first..range.end {
        are &= store.standing_word(range.page, index) == word;
        word += range.step;
    }
    are
}

/// Whether the words from one index up to another are there.
#[inline(always)]
fn is_gap_there<S: WordStore>(store: &S, first: u32, end: u32, with: TableWords) -> bool
    requires may { MayWriteRuns (S.words store.now) (S.stands store.now) with }
    requires most { end ≤ 512 }
    ensures yes { result ≡ true → (i : ℕ) → first ≤ i → i < end
        → words_of (S.words store.now) with.page i ≡ with.word + with.step * i }
    ensures no { result ≡ false → (i : ℕ) × (first ≤ i) × (i < end)
        × (words_of (S.words store.now) with.page i ≢ with.word + with.step * i) }
{
    if first >= end {
        return true;
    }
    are_there(store, with.range(first, end))
}

/// Whether the words for pages in none of the runs are there.
pub(crate) fn are_gaps_there<S: WordStore>(store: &S, runs: &[Run], with: TableWords) -> bool
    requires may { MayWriteRuns (S.words store.now) (S.stands store.now) with }
    ensures yes { result ≡ true → AreGapsThere (S.words store.now) with runs.now }
    ensures no { result ≡ false → IsGapMissing (S.words store.now) with runs.now }
{
    let mut first = 0;
    for run in runs {
        let end = index_from(with.start, run.first().number());
        if !is_gap_there(store, first, end, with) {
            return false;
        }
        first = first.max(index_from(with.start, run.end()));
    }
    is_gap_there(store, first, TABLE_WORDS, with)
}
