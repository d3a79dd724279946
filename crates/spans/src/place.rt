//! The blocks before a page, what they say of it, and the runs that belong to the last of them.

ghost use Rattle.std.specs.Prelude.{◌≡◌, ◌+◌, ◌-◌, ◌*◌, ◌^◌, ◌≤◌, ◌<◌, [], true, length, slice_index_or};
ghost use Rattle.base.specs.Pages.{rise};
ghost use Rattle.spans.specs.Search.{begins_at, IsSegment};
ghost use Rattle.spans.specs.Blocks.{all_spans, blocks_needed, AreBefore, AreStacked, IsGroup};
ghost use Rattle.std.specs.List.Sorted.{IsNonDecreasingBy};

use crate::block::LIMIT;
use crate::blocks::Blocks;
use crate::find::segment_in;
use crate::probes::Probes;
use base::{Page, Run, Segment};
use std::sync::ledger::Ledger;

/// How many blocks begin before a page, and where the next begins; without one, the number of pages.
pub(crate) struct Before {
    pub(crate) count: usize,
    pub(crate) next: u32,
}

/// The blocks before a page, found by halving. Counts each look.
pub(crate) fn find_before<L: Ledger>(blocks: &Blocks, page: u32, probes: &mut Probes<L>) -> Before
    requires { AreStacked blocks.now.list }
    ensures before { AreBefore blocks.now.list page result.count }
    ensures next { result.next ≡ begins_at (slice_index_or blocks.now.list result.count []) }
    ensures in_range { result.next ≤ 2 ^ 27 }
    ensures cost { 2 ^ (probes.new - probes.old) ≤ 2 * length blocks.now.list + 1 }
    ensures counts { probes.old ≤ probes.new }
{
    let mut next = Page::COUNT;
    let mut low = 0;
    let mut high = blocks.len();
    while low < high {
        let middle = low + (high - low) / 2;
        probes.count();
        let begin = blocks.begin_at(middle);
        if begin < page {
            low = middle + 1;
        } else {
            high = middle;
            next = begin;
        }
    }
    Before { count: low, next }
}

/// The number of a page, and how far the pages behind it have the same.
pub(crate) fn segment<L: Ledger>(
    blocks: &Blocks,
    page: Page,
    probes: &mut Probes<L>,
) -> Segment<Option<u64>>
    requires { AreStacked blocks.now.list }
    ensures segment { IsSegment (all_spans blocks.now.list) page result }
    ensures cost { 2 ^ (probes.new - probes.old) ≤ 2 ^ 8 * (2 * length (all_spans blocks.now.list) + 1) }
    ensures counts { probes.old ≤ probes.new }
{
    let Before { count, next } = find_before(blocks, page.number() + 1, probes);
    if count == 0 {
        return Segment {
            value: None,
            end: next,
        };
    }
    let segment = segment_in(blocks.block(count - 1).spans(), page, probes);
    Segment {
        end: segment.end.min(next),
        ..segment
    }
}

/// How many blocks begin before a page. Mostly it is all of them, and so is found without a search.
pub(crate) fn blocks_before(blocks: &Blocks, page: u32) -> usize
    requires { AreStacked blocks.now.list }
    ensures { AreBefore blocks.now.list page result }
{
    let all = blocks.len();
    if 0 < all && blocks.begin_at(all - 1) < page {
        return all;
    }
    blocks.list.partition_point(|block| block.begin() < page)
}

/// The runs from a place in their list on, which belong to one block: the last that begins before the first page of each,
/// or the first of all.
#[derive(Clone, Copy)]
pub(crate) struct Group {
    /// The place of the block.
    pub(crate) place: usize,
    /// The place of the first of the runs.
    pub(crate) from: usize,
}

/// The last runs that belong to one block.
pub(crate) fn last_group(blocks: &Blocks, runs: &[Run]) -> Group
    requires stacked { AreStacked blocks.now.list }
    requires some { 0 < length blocks.now.list }
    requires runs { 0 < length runs.now }
    requires firsts { IsNonDecreasingBy (λ run. run.first) runs.now }
    ensures place { result.place < length blocks.now.list }
    ensures in_range { result.place + 1 < 2 ^ 64 }
    ensures from { result.from < length runs.now }
    ensures group { IsGroup blocks.now.list runs.now result }
{
    let last = runs[runs.len() - 1];
    let place = blocks_before(blocks, last.first().number()).saturating_sub(1);
    if place == 0 {
        return Group { place, from: 0 };
    }
    let begin = blocks.begin_at(place);
    let from = runs.partition_point(|run| run.first().number() <= begin);
    Group { place, from }
}

/// How many more blocks there are at most where the runs get a number.
pub(crate) fn more_needed(blocks: &Blocks, runs: &[Run]) -> usize
    requires stacked { AreStacked blocks.now.list }
    requires rise { rise 0 runs.now ≡ true }
    requires some { 0 < length runs.now }
    ensures same { result ≡ blocks_needed blocks.now.list runs.now }
    ensures most { result ≤ length runs.now }
{
    if blocks.len() == 0 {
        return 1 + (2 * runs.len() - 1) / LIMIT;
    }
    let mut need = 0;
    let mut left = runs.len();
    while 0 < left {
        let Group { place, from } = last_group(blocks, &runs[..left]);
        need += (blocks.block(place).spans().len() + 2 * (left - from) - 1) / LIMIT;
        left = from;
    }
    need
}
