//! Whether the ranges of a send share no page.

ghost use Rattle.std.specs.Prelude.{◌≡◌, ◌^◌};
ghost use Rattle.std.specs.List.Sorted.{IsPermutation, IsNonDecreasingBy};
ghost use Rattle.base.specs.Pages.{are_disjoint};
ghost use Rattle.descr.specs.Order.{AreAllSome, fall, follow};

use crate::ranges::Ranges;
use arrayvec::ArrayVec;
use base::limits::MOST_RANGES;
use base::{Page, Run};

/// Whether no two of the ranges share a page: by one look at each where they stand in ascending order, or in
/// descending order, and else in a sorted copy, which takes no heap.
pub(crate) fn are_disjoint(ranges: &Ranges<'_>) -> bool
    ensures { result ≡ are_disjoint ranges.now }
{
    if ascend(ranges) {
        return true;
    }
    if descend(ranges) {
        return true;
    }
    follow_when_sorted(ranges)
}

/// The same, told by a sorted copy: 4 KB of stack, which other calls are not to take.
#[inline(never)]
fn follow_when_sorted(ranges: &Ranges<'_>) -> bool
    ensures { result ≡ are_disjoint ranges.now }
{
    let sorted = sorted(ranges);
    follow_each_other(&sorted)
}

/// Whether each range begins where the one before it ends, or later.
fn ascend(ranges: &Ranges<'_>) -> bool
    ensures { result ≡ follow 0 ranges.now }
{
    let mut end = 0;
    for run in ranges.again() {
        if run.first().number() < end {
            return false;
        }
        end = run.end();
    }
    true
}

/// Whether each range ends where the one before it begins, or earlier.
fn descend(ranges: &Ranges<'_>) -> bool
    ensures { result ≡ fall (2 ^ 27) ranges.now }
{
    let mut start = Page::COUNT;
    for run in ranges.again() {
        if start < run.end() {
            return false;
        }
        start = run.first().number();
    }
    true
}

/// Whether each run begins where the one before it ends, or later.
fn follow_each_other(runs: &[Run]) -> bool
    ensures { result ≡ follow 0 runs.now }
{
    let mut end = 0;
    for run in runs {
        if run.first().number() < end {
            return false;
        }
        end = run.end();
    }
    true
}

/// The ranges in ascending order of their first pages.
fn sorted(ranges: &Ranges<'_>) -> ArrayVec<Run, MOST_RANGES>
    ensures same { IsPermutation ranges.now result.items }
    ensures ascending { IsNonDecreasingBy (λ run. run.first) result.items }
    ensures some { AreAllSome ranges.now }
{
    let mut runs = listed(ranges);
    runs.sort_unstable_by_key(|run| run.first().number());
    runs
}

/// The ranges in their order.
fn listed(ranges: &Ranges<'_>) -> ArrayVec<Run, MOST_RANGES>
    ensures same { result.items ≡ ranges.now }
    ensures some { AreAllSome ranges.now }
{
    let mut runs = ArrayVec::new();
    let mut rest = ranges.again();
    while let Some(run) = rest.next() {
        runs.push(run);
    }
    runs
}
