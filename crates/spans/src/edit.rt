//! Gives pages of runs a number, block by block, from the last to the first.

ghost use Rattle.std.specs.Prelude.{◌≡◌, ◌+◌, ◌-◌, ◌*◌, ◌^◌, ◌≤◌, ◌<◌, ◌/◌, [], Some, true, length, take, drop, slice_index_or, vec_len, vec_capacity};
ghost use Rattle.base.specs.Pages.{covers, rise};
ghost use Rattle.spans.specs.Spans as spec;
ghost use Rattle.spans.specs.Spans.{are_joined, IsSet};
ghost use Rattle.spans.specs.Blocks.{all_spans, more_blocks, blocks_needed, AreDealt, AreDense, AreParts, AreStacked, AreTidy, BelongTo, HasTakenIn, IsEdited, IsPart};

use crate::block::LIMIT;
use crate::blocks::Blocks;
use crate::find::place_near_end;
use crate::merge::{append, merge};
use crate::place::{Group, blocks_before, last_group};
use crate::span::Span;
use base::{Page, Run};

/// Where a block is parted in two, each part has a quarter of a block at least, if it can.
const LEAST: usize = LIMIT / 4;

/// How many of so many intervals go into the first of so many parts. What stands behind all others fills a block, since
/// more may come there; two parts are cut at the last run that was put; else all parts are alike.
fn part_len(len: usize, parts: usize, point: usize) -> usize
    requires { AreParts len parts }
    ensures { IsPart len parts result }
{
    if parts == 1 {
        return len;
    }
    let wanted = if point == len {
        LIMIT
    } else if parts == 2 {
        point.max(LEAST).min(len - LEAST)
    } else {
        len.div_ceil(parts)
    };
    wanted.max(len - (parts - 1) * LIMIT).min(LIMIT)
}

impl Blocks {
    /// Takes the blocks from a place on out that begin at a page or before it. What the last of them has from the page on
    /// goes behind the intervals of a list.
    fn take_in(&mut self, place: usize, page: u32, out: &mut Vec<Span>)
        requires page { page ≤ 2 ^ 27 }
        requires inside { place ≤ length self.old.list }
        requires stacked { AreStacked self.old.list }
        requires room { vec_len out.old + 128 ≤ vec_capacity out.old }
        ensures before { take place self.new.list ≡ take place self.old.list }
        ensures taken { HasTakenIn page out.old.items (drop place self.old.list) out.new.items (drop place self.new.list) }
        ensures joined { are_joined out.old.items ≡ true → are_joined (all_spans self.old.list) ≡ true
            → are_joined out.new.items ≡ true }
        ensures dense { AreDense self.old.list → AreDense (drop place self.new.list) }
        ensures spare { self.old.spare ≤ self.new.spare }
        ensures len { vec_len out.new + 128 * self.old.spare ≤ vec_len out.old + 128 * self.new.spare }
        ensures capacity { vec_capacity out.old ≤ vec_capacity out.new }
    {
        let count = blocks_before(self, page + 1);
        if count <= place {
            return;
        }
        drop(self.list.drain(place..count - 1));
        let last = self.list.remove(place);
        append(out, last.spans(), page, Page::COUNT);
        self.spare.push_reserved(last);
    }

    /// Puts blocks with these intervals before the one at a place, as many as they take. It answers the place behind them.
    fn deal(&mut self, place: usize, spans: &[Span], point: usize) -> usize
        requires inside { place ≤ length self.old.list }
        requires ascending { spec.ascend 0 spans.now ≡ true }
        requires spare { length spans.now ≤ 128 * self.old.spare }
        ensures dealt { AreDealt spans.now place result self.old.list self.new.list }
        ensures spare { self.old.spare ≤ self.new.spare + (length spans.now + 127) / 128 }
    {
        let mut parts = spans.len().div_ceil(LIMIT);
        let mut at = place;
        let mut done = 0;
        while done < spans.len() {
            let len = part_len(spans.len() - done, parts, point.saturating_sub(done));
            let end = done + len;
            self.insert(at, &spans[done..end]);
            at += 1;
            parts -= 1;
            done = end;
        }
        at
    }

    /// Gives the pages of runs that belong to the block at a place this number. Its intervals before the first run stay, if
    /// all surely fit and the last run does not reach the next block; else other blocks stand in its place.
    fn edit(&mut self, place: usize, runs: &[Run], value: u64, scratch: &mut Vec<Span>)
        requires belong { BelongTo runs.now self.old.list place }
        requires scratch { 256 + 2 * length runs.now ≤ vec_capacity scratch.old }
        requires spare { more_blocks (length (slice_index_or self.old.list place [])) (length runs.now) ≤ self.old.spare }
        ensures edited { IsEdited runs.now value self.old.list place self.new.list }
        ensures some { 0 < length self.new.list }
        ensures spare { self.old.spare
            ≤ self.new.spare + more_blocks (length (slice_index_or self.old.list place [])) (length runs.now) }
        ensures capacity { vec_capacity scratch.old ≤ vec_capacity scratch.new }
    {
        let end = runs[runs.len() - 1].end();
        let spans = self.block(place).spans();
        if spans.len() + 2 * runs.len() <= LIMIT && end < self.begin_at(place + 1) {
            let kept = place_near_end(spans, runs[0].first().number().saturating_sub(1));
            merge(scratch, &spans[kept..], runs, value);
            self.list[place].set_from(kept, scratch);
            self.join(place + 1);
            return;
        }
        merge(scratch, spans, runs, value);
        self.take_in(place + 1, end, scratch);
        self.retire(place);
        let at = self.deal(place, scratch, place_near_end(scratch, end));
        self.join(at);
    }
}

/// Gives all pages of the runs this number. There are spare blocks for them.
pub(crate) fn put_sorted(blocks: &mut Blocks, runs: &[Run], value: u64, scratch: &mut Vec<Span>)
    requires tidy { AreTidy blocks.old.list }
    requires joined { are_joined (all_spans blocks.old.list) ≡ true }
    requires rise { rise 0 runs.now ≡ true }
    requires some { 0 < length runs.now }
    requires spare { blocks_needed blocks.old.list runs.now ≤ blocks.old.spare }
    requires scratch { 256 + 2 * length runs.now ≤ vec_capacity scratch.old }
    ensures at { IsSet (covers runs.now) (Some value) (all_spans blocks.old.list) (all_spans blocks.new.list) }
    ensures tidy { AreTidy blocks.new.list }
    ensures joined { are_joined (all_spans blocks.new.list) ≡ true }
{
    if blocks.len() == 0 {
        merge(scratch, &[], runs, value);
        blocks.deal(0, scratch, scratch.len());
        return;
    }
    let mut left = runs.len();
    while 0 < left {
        let Group { place, from } = last_group(blocks, &runs[..left]);
        blocks.edit(place, &runs[from..left], value, scratch);
        if 0 < place {
            blocks.join(place);
        }
        left = from;
    }
}
