ghost use Rattle.std.specs.Prelude.{◌≡◌, ◌+◌, ◌-◌, ◌*◌, ◌<◌, ◌≤◌, ◌^◌, ℕ, [], Some, None, true, is_some, length, vec_capacity, OnOk, OnErr};
ghost use Rattle.base.specs.Pages.{covers};
ghost use Rattle.spans.specs.Spans as spec;
ghost use Rattle.spans.specs.Spans.{IsSet};
ghost use Rattle.spans.specs.Search.{IsSegment};
ghost use Rattle.spans.specs.Taking.{has_number};

use crate::block::LIMIT;
use crate::blocks::Blocks;
use crate::edit::put_sorted;
use crate::find::end_of;
use crate::place::{more_needed, segment};
use crate::probes::Probes;
use crate::span::Span;
use crate::taking::take_runs;
use base::{OutOfMemory, Page, Run, Segment, gather};
use std::alloc::Global;
use std::marker::{Brand, Model};
use std::sync::ledger::{Blank, Ledger};

/// A map from pages to numbers: intervals of pages in ascending order, in blocks of the same size, so that an edit moves
/// only those of the blocks that it touches. All intervals of a block end before the next block begins, and intervals that
/// touch and have one number are one, over the borders of blocks, too. A call that gives pages a number makes room for just
/// that; where it is refused, nothing has changed.
#[derive(Drop)]
pub struct PageMap {
    blocks: Blocks,
    sorted: Vec<Run>,
    scratch: Vec<Span>,
}

impl Model for PageMap {
    ghost use Rattle.spans.specs.Spans.{PageMapView};
    ghost use Rattle.spans.specs.Blocks.{all_spans, IsPageMap};

    ghost Value = { PageMapView };

    ghost view = { λ m. record { spans = all_spans m.blocks.list; spare = m.blocks.spare } };

    ghost invariant = { λ m. IsPageMap m.blocks };
}

/// Fills a list with runs, and makes room in another for the intervals of two blocks and those runs.
fn ready_lists(
    sorted: &mut Vec<Run>,
    scratch: &mut Vec<Span>,
    runs: &[Run],
) -> Result<(), OutOfMemory>
    ensures sorted { OnOk result (sorted.new.items ≡ runs.now) }
    ensures scratch { OnOk result (256 + 2 * length runs.now ≤ vec_capacity scratch.new) }
{
    let Some(spans) = runs.len().checked_mul(2) else {
        return Err(OutOfMemory);
    };
    sorted.clear();
    sorted.extend_from_slice(runs)?;
    scratch.clear();
    scratch.reserve(spans.saturating_add(2 * LIMIT))?;
    Ok(())
}

impl PageMap {
    /// No page has a number. This takes no memory.
    pub fn new(alloc: Global) -> Self
        ensures spans { result.spans ≡ [] }
        ensures spare { result.spare ≡ 0 }
    {
        PageMap {
            blocks: Blocks::new(alloc),
            sorted: Vec::new(alloc),
            scratch: Vec::new(alloc),
        }
    }

    /// Gives all pages of the runs this number; other pages keep theirs. A refusal changes nothing. Runs that touch or share
    /// pages are put as one, each block that has pages of them is edited once, and beside it no other but the next.
    pub fn put_all(&mut self, runs: &[Run], value: u64) -> Result<(), OutOfMemory>
        ensures at { OnOk result (IsSet (covers runs.now) (Some value) self.old.spans self.new.spans) }
        ensures err { OnErr result (self.new.spans ≡ self.old.spans) }
        ensures kept { OnErr result (self.new.spare ≡ self.old.spare) }
    {
        if runs.is_empty() {
            return Ok(());
        }
        ready_lists(&mut self.sorted, &mut self.scratch, runs)?;
        gather(&mut self.sorted);
        self.blocks.ready(more_needed(&self.blocks, &self.sorted))?;
        put_sorted(&mut self.blocks, &self.sorted, value, &mut self.scratch);
        self.blocks.trim();
        Ok(())
    }

    /// Takes a number away from all pages that have it, where those are the pages of the runs; other pages keep theirs.
    /// This takes no memory and needs no room, since whole intervals go.
    pub fn take_out(&mut self, runs: &[Run], value: u64)
        requires { (n : ℕ) → has_number value self.old.spans n ≡ covers runs.now n }
        ensures { IsSet (covers runs.now) None self.old.spans self.new.spans }
    {
        take_runs(&mut self.blocks, runs, value);
        self.blocks.trim();
    }

    /// How many blocks the intervals stand in: at most two for 113 intervals, and one. Each has 2 KB of memory.
    pub fn blocks(&self) -> usize
        ensures most { 113 * result ≤ 2 * length self.now.spans + 113 }
        ensures least { length self.now.spans ≤ 128 * result }
    {
        self.blocks.len()
    }

    /// How many blocks are kept beside those without an interval, for the next that comes: one at most. Each has 2 KB of
    /// memory, too.
    pub fn spare(&self) -> usize
        ensures same { result ≡ self.now.spare }
        ensures most { result ≤ 1 }
    {
        self.blocks.spare.len()
    }

    /// The number of the page after the last that has a number; 0 where none has.
    pub fn end(&self) -> u32
        ensures in_range { result ≤ 2 ^ 27 }
        ensures behind { (n : ℕ) → result ≤ n → spec.value_at self.now.spans n ≡ None }
        ensures last { 0 < result → is_some (spec.value_at self.now.spans (result - 1)) ≡ true }
    {
        match self.blocks.len().checked_sub(1) {
            Some(last) => end_of(self.blocks.block(last).spans()),
            None => 0,
        }
    }

    /// The number of a page.
    pub fn get(&self, page: Page) -> Option<u64>
        ensures { result ≡ spec.value_at self.now.spans page }
    {
        self.segment_at(page).value
    }

    /// The number of a page, and how far the pages behind it have the same: up to where an interval begins or ends, or to
    /// the last page of all. Behind the end of an interval the pages have another number, or none.
    pub fn segment_at(&self, page: Page) -> Segment<Option<u64>>
        ensures joined { spec.are_joined self.now.spans ≡ true }
        ensures behind { page < result.end }
        ensures in_range { result.end ≤ 2 ^ 27 }
        ensures border { spec.is_border self.now.spans result.end ≡ true }
        ensures value { (n : ℕ) → page ≤ n → n < result.end
            → spec.value_at self.now.spans n ≡ result.value }
    {
        self.segment_from::<Brand>(page, Blank::new(1))
    }

    fn segment_from<L: Ledger>(&self, page: Page, blank: Blank) -> Segment<Option<u64>>
        requires name { blank.name ≡ L.name }
        requires parts { blank.parts ≡ L.parts }
        requires some { 0 < L.parts }
        ensures joined { spec.are_joined self.now.spans ≡ true }
        ensures segment { IsSegment self.now.spans page result }
    {
        self.segment(page, &mut Probes::<L>::new(blank))
    }

    /// The same with a count of the looks at blocks and intervals: no more than the intervals have binary digits, and eight.
    pub fn segment<L: Ledger>(&self, page: Page, probes: &mut Probes<L>) -> Segment<Option<u64>>
        ensures joined { spec.are_joined self.now.spans ≡ true }
        ensures segment { IsSegment self.now.spans page result }
        ensures cost { 2 ^ (probes.new - probes.old) ≤ 2 ^ 8 * (2 * length self.now.spans + 1) }
        ensures counts { probes.old ≤ probes.new }
    {
        segment(&self.blocks, page, probes)
    }
}
