ghost use Rattle.std.specs.Prelude.{◌≤◌, OnOk};

use base::{OutOfMemory, Page, Run};
use spans::PageMap;
use std::alloc::Global;
use std::process::Abort;
use std::test::Fail;

/// Pages that edits are drawn from, and behind them some more that have no number.
const PAGES: u32 = 32_768;

/// Drawn numbers, the same each time.
#[derive(Drop)]
struct Draw {
    state: u64,
}

impl Draw {
    /// A number below this one; 0 below 0.
    fn below(&mut self, end: u32) -> u32 {
        self.state = self
            .state
            .wrapping_mul(6_364_136_223_846_793_005)
            .wrapping_add(1_442_695_040_888_963_407);
        let number = u32::try_from(self.state >> 33).unwrap_or(0);
        number.checked_rem(end).unwrap_or(0)
    }

    /// A number from the first to the second.
    fn between(&mut self, least: u32, most: u32) -> u32 {
        least.saturating_add(self.below(most.saturating_sub(least).saturating_add(1)))
    }
}

/// So many runs from a page on, each of which begins so many pages behind the one before it.
#[derive(Clone, Copy)]
struct Shape {
    first: u32,
    count: u32,
    step: u32,
    pages: u32,
}

/// One more run. Where memory is refused once, the second time it is there.
fn add(runs: &mut Vec<Run>, run: Run) -> Result<(), OutOfMemory> {
    if runs.reserve(1).is_err() {
        runs.reserve(1)?;
    }
    runs.push_reserved(run);
    Ok(())
}

/// A map, and a list with the number of each page.
#[derive(Drop)]
struct Pair {
    alloc: Global,
    map: PageMap,
    list: Vec<Option<u64>>,
}

impl Pair {
    fn new(alloc: Global) -> Result<Self, OutOfMemory> {
        let mut list = Vec::new(alloc);
        for _ in 0..PAGES {
            list.push(None)?;
        }
        Ok(Pair {
            alloc,
            map: PageMap::new(alloc),
            list,
        })
    }

    /// Gives the pages of runs a number in both. Where memory is refused once, the second time it is there, and all
    /// numbers and blocks are as before.
    fn put(&mut self, rt: &impl Abort, runs: &[Run], value: u64) -> Result<(), OutOfMemory> {
        let had = self.capacity();
        if self.map.put_all(runs, value).is_err() {
            self.compare(rt);
            assert_eq!(rt; self.capacity(), had);
            self.map.put_all(runs, value)?;
        }
        for run in runs {
            self.mark(rt, *run, value);
        }
        Ok(())
    }

    /// Gives the pages of a run a number in the list.
    fn mark(&mut self, rt: &impl Abort, run: Run, value: u64) {
        let first = run.first().number() as usize;
        let end = run.end() as usize;
        assert!(rt; end <= self.list.len());
        for i in first..end {
            self.list[i] = Some(value);
        }
    }

    /// The runs of a shape, the last of them first if they are to go down.
    fn shape(
        &mut self,
        rt: &impl Abort,
        shape: Shape,
        goes_down: bool,
    ) -> Result<Vec<Run>, OutOfMemory> {
        let mut runs = Vec::new(self.alloc);
        for i in 0..shape.count {
            let place = if goes_down { shape.count - 1 - i } else { i };
            let first = shape.first.wrapping_add(place.wrapping_mul(shape.step));
            assert!(rt; first < PAGES && 0 < shape.pages && shape.pages < PAGES);
            add(&mut runs, Run::new(Page::new(first), shape.pages))?;
        }
        Ok(runs)
    }

    /// Both say the same of all pages, no two intervals that touch have one number, and there is one spare block at most.
    /// It answers how many intervals there are.
    fn compare(&self, rt: &impl Abort) -> usize {
        assert!(rt; self.map.spare() < 2);
        let mut last = None;
        let mut end = 0;
        let mut count: usize = 0;
        for (number, value) in self.list.iter().enumerate() {
            let number = u32::try_from(number).unwrap_or(0);
            assert!(rt; number < Page::COUNT);
            if number == end {
                let segment = self.map.segment_at(Page::new(number));
                assert!(rt; number == 0 || segment.value != last, "at {number}");
                last = segment.value;
                end = segment.end;
                count = count.saturating_add(usize::from(last.is_some()));
            }
            assert_eq!(rt; last, *value, "at {number}");
        }
        assert!(rt; end == Page::COUNT || end == PAGES);
        count
    }

    /// How many blocks there are.
    fn blocks(&self) -> usize {
        self.map.blocks()
    }

    /// How many blocks there are, and how many are spare.
    fn capacity(&self) -> [usize; 2] {
        [self.blocks(), self.map.spare()]
    }
}

/// A drawn shape: long runs, runs that share pages, or mostly such as stand apart.
fn drawn_shape(draw: &mut Draw) -> Shape {
    let first = draw.below(PAGES / 3);
    let (most, step, pages) = match draw.below(8) {
        0 => (3, 800, 1_600),
        1 => (40, 5, 8),
        2 => (4, 2, 3),
        _ => (512, draw.between(2, 20), 3),
    };
    Shape {
        first,
        count: draw.between(1, most),
        step,
        pages: draw.between(1, pages),
    }
}

#[test]
fn many_edits_leave_what_they_leave_in_a_list(rt: HostRuntime) -> Result<(), Fail> {
    let mut pair = Pair::new(rt.alloc())?;
    let mut draw = Draw { state: 1 };
    let mut most = 0;
    for _ in 0..200 {
        let goes_down = draw.below(4) == 0;
        let shape = drawn_shape(&mut draw);
        let runs = pair.shape(&rt, shape, goes_down)?;
        pair.put(&rt, &runs, u64::from(draw.below(4)))?;
        pair.compare(&rt);
        most = most.max(pair.blocks());
    }
    assert!(&rt; 5 < most, "there were {most} blocks");
    Ok(())
}

/// Runs of each other page of many from this one on, in calls of 512.
fn put_each_other(
    rt: &impl Abort,
    pair: &mut Pair,
    first: u32,
    value: u64,
    goes_down: bool,
) -> Result<(), OutOfMemory> {
    for call in 0..9_u32 {
        let call = if goes_down { 8 - call } else { call };
        let shape = Shape {
            first: first.wrapping_add(call.wrapping_mul(1_024)),
            count: 512,
            step: 2,
            pages: 1,
        };
        let runs = pair.shape(rt, shape, goes_down)?;
        pair.put(rt, &runs, value)?;
    }
    Ok(())
}

/// One run of many pages.
fn put_long(rt: &impl Abort, pair: &mut Pair, first: u32, value: u64) -> Result<(), OutOfMemory> {
    let long = Shape {
        first,
        count: 1,
        step: 0,
        pages: 20_000,
    };
    let runs = pair.shape(rt, long, false)?;
    pair.put(rt, &runs, value)
}

#[test]
fn borders_of_blocks_part_nothing_that_came_back(rt: HostRuntime) -> Result<(), Fail> {
    let mut pair = Pair::new(rt.alloc())?;
    put_long(&rt, &mut pair, 10_000, 7)?;
    for round in 0..6_u32 {
        let first = 10_001 + 301 * round;
        put_each_other(&rt, &mut pair, first, 8, round % 2 == 0)?;
        assert!(&rt; 60 < pair.blocks());
        put_each_other(&rt, &mut pair, first, 7, round % 3 == 0)?;
        assert_eq!(&rt; pair.compare(&rt), 1);
        assert_eq!(&rt; pair.blocks(), 1);
    }
    Ok(())
}

#[test]
fn runs_that_cross_blocks_are_put(rt: HostRuntime) -> Result<(), Fail> {
    let mut pair = Pair::new(rt.alloc())?;
    put_each_other(&rt, &mut pair, 0, 7, false)?;
    assert!(&rt; 30 < pair.blocks());
    let long = Shape {
        first: 1_001,
        count: 3,
        step: 3_000,
        pages: 2_001,
    };
    for (value, goes_down) in [(8, false), (7, true), (9, false)] {
        let runs = pair.shape(&rt, long, goes_down)?;
        pair.put(&rt, &runs, value)?;
        pair.compare(&rt);
    }
    put_long(&rt, &mut pair, 0, 8)?;
    assert_eq!(&rt; pair.blocks(), 1);
    assert_eq!(&rt; pair.compare(&rt), 1);
    Ok(())
}

/// Shapes that are put one after another, and how many blocks there are behind them.
fn put_shapes(
    rt: &impl Abort,
    pair: &mut Pair,
    shapes: &[(u32, u32)],
    blocks: usize,
) -> Result<(), OutOfMemory> {
    for (first, count) in shapes {
        let shape = Shape {
            first: *first,
            count: *count,
            step: 2,
            pages: 1,
        };
        let runs = pair.shape(rt, shape, false)?;
        pair.put(rt, &runs, 7)?;
    }
    assert_eq!(rt; pair.blocks(), blocks);
    pair.compare(rt);
    Ok(())
}

#[test]
fn block_is_parted_beyond_its_limit(rt: HostRuntime) -> Result<(), Fail> {
    let mut pair = Pair::new(rt.alloc())?;
    put_shapes(&rt, &mut pair, &[(0, 128)], 1)?;
    put_shapes(&rt, &mut pair, &[(256, 1)], 2)?;
    Ok(())
}

#[test]
fn run_that_touches_a_full_block_is_joined_to_it(rt: HostRuntime) -> Result<(), Fail> {
    for (first, blocks) in [(255, 2), (256, 3)] {
        let mut pair = Pair::new(rt.alloc())?;
        put_shapes(
            &rt,
            &mut pair,
            &[(0, 128), (1_000, 128), (first, 1)],
            blocks,
        )?;
    }
    Ok(())
}

#[test]
fn blocks_that_become_short_are_joined(rt: HostRuntime) -> Result<(), Fail> {
    let mut pair = Pair::new(rt.alloc())?;
    put_each_other(&rt, &mut pair, 0, 7, false)?;
    assert!(&rt; 30 < pair.blocks());
    let most = Shape {
        first: 1,
        count: 140,
        step: 64,
        pages: 62,
    };
    let runs = pair.shape(&rt, most, true)?;
    pair.put(&rt, &runs, 7)?;
    assert!(&rt; pair.blocks() < 9, "there are {} blocks", pair.blocks());
    assert_eq!(&rt; pair.map.spare(), 1);
    pair.compare(&rt);
    Ok(())
}
