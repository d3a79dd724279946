//! A share of 1,024 table pages that is used up, given back and used up again.

ghost use Rattle.std.specs.Prelude.{◌<◌};

use crate::fixture::{LARGE, data, edit, page_word, run_of, set, table_word};
use base::{OutOfMemory, Page, PartitionId, Run, Runs};
use manifest::{Manifest, read};
use pool::{ListPool, Op, RawPool, TableMem};
use stage2::Tables;
use std::alloc::Global;
use std::process::Abort;
use std::test::Fail;

/// How many pages are mapped, each alone in its chunk: 255 in each of four gigabytes. With the four level 2
/// tables their level 3 tables take the 1,024 pages of the share.
const PLACES: u32 = 1_020;

fn partition() -> PartitionId {
    PartitionId::new(0x8001)
}

/// The page that is mapped at a place: in every other chunk of the gigabytes from 0x8_0000 on.
fn page_of(place: u32) -> u32
    requires { place < 1020 }
{
    (2 + place / 255) * 0x4_0000 + place % 255 * 1_024 + place % 512
}

/// Places in an order: this first, each a step behind the one before, round and round.
#[derive(Clone, Copy)]
struct Order {
    first: u32,
    step: u32,
    count: u32,
}

/// The place a step behind one.
fn behind(rt: &impl Abort, place: u32, step: u32) -> u32 {
    assert!(rt; place < PLACES && step < PLACES);
    (place + step) % PLACES
}

/// What a page of the pool holds.
#[derive(Clone, Copy, Debug, PartialEq, Eq)]
enum Held {
    Nothing,
    Root,
    /// The level 2 table of a gigabyte.
    Gigabyte(u32),
    /// The level 3 table of a chunk.
    Chunk(u32),
}

/// What each page of the pool holds by the rules: a table takes the lowest free page.
#[derive(Drop)]
struct Share {
    pages: Vec<Held>,
}

impl Share {
    fn empty(alloc: Global) -> Result<Self, OutOfMemory> {
        let mut pages = vec![in alloc; Held::Nothing; 1_025]?;
        pages[0] = Held::Root;
        Ok(Share { pages })
    }

    /// The lowest page that holds this.
    fn find(&self, rt: &impl Abort, held: Held) -> Option<u32> {
        let index = self.pages.iter().position(|page| *page == held)?;
        assert!(rt; index <= 1_024);
        Some(index as u32)
    }

    /// The lowest page that holds this holds that afterwards.
    fn exchange(&mut self, rt: &impl Abort, old: Held, new: Held) -> u32 {
        let page = self.find(rt, old).expect(rt, "a page holds this");
        assert!(rt; (page as usize) < self.pages.len());
        self.pages[page as usize] = new;
        page
    }

    fn take(&mut self, rt: &impl Abort, table: Held) -> u32 {
        self.exchange(rt, Held::Nothing, table)
    }

    fn give(&mut self, rt: &impl Abort, table: Held) -> u32 {
        self.exchange(rt, table, Held::Nothing)
    }

    fn has_chunk_in(&self, gigabyte: u32) -> bool {
        self.pages.iter().any(|page| matches!(page, Held::Chunk(chunk) if *chunk / 512 == gigabyte))
    }
}

/// Maps a page. The level 2 table is taken before the level 3 table, and linked after it.
fn map_page<M: TableMem + Drop>(
    rt: &impl Abort,
    tables: &mut Tables<M>,
    share: &mut Share,
    page: u32,
) -> Result<(), OutOfMemory> {
    let chunk = page / 512;
    let gigabyte = chunk / 512;
    edit(rt, tables, partition(), run_of(rt, page, 1), Some(data()))?;
    let hangs = share.find(rt, Held::Gigabyte(gigabyte));
    let second = match hangs {
        Some(second) => second,
        None => share.take(rt, Held::Gigabyte(gigabyte)),
    };
    let third = share.take(rt, Held::Chunk(chunk));
    let wanted = [
        set(third, page % 512, page_word(page)),
        set(second, chunk % 512, table_word(third)),
        set(0, gigabyte, table_word(second)),
    ];
    let count = if hangs.is_some() { 2 } else { 3 };
    assert_eq!(rt; tables.memory().ops(), &wanted[..count], "page {page:x}");
    Ok(())
}

fn invalidated(run: Run) -> Op {
    Op::Invalidate {
        who: partition(),
        run,
    }
}

/// Unmaps a page, the one of its chunk. The level 3 table is given back, and the level 2 table with the last of its
/// chunks.
fn unmap_page<M: TableMem + Drop>(
    rt: &impl Abort,
    tables: &mut Tables<M>,
    share: &mut Share,
    page: u32,
) -> Result<(), OutOfMemory> {
    let chunk = page / 512;
    let gigabyte = chunk / 512;
    edit(rt, tables, partition(), run_of(rt, page, 1), None)?;
    let third = share.give(rt, Held::Chunk(chunk));
    let stays = share.has_chunk_in(gigabyte);
    let table = Held::Gigabyte(gigabyte);
    let second = share.exchange(rt, table, if stays { table } else { Held::Nothing });
    let wanted = [
        set(second, chunk % 512, 0),
        invalidated(run_of(rt, page / 512 * 512, 512)),
        set(third, page % 512, 0),
        set(0, gigabyte, 0),
        invalidated(run_of(rt, page / 0x4_0000 * 0x4_0000, 0x4_0000)),
    ];
    let count = if stays { 3 } else { 5 };
    assert_eq!(rt; tables.memory().ops(), &wanted[..count], "page {page:x}");
    Ok(())
}

fn map_in_order<M: TableMem + Drop>(
    rt: &impl Abort,
    tables: &mut Tables<M>,
    share: &mut Share,
    order: Order,
) -> Result<(), OutOfMemory> {
    let mut place = order.first;
    for _ in 0..order.count {
        assert!(rt; place < PLACES);
        map_page(rt, tables, share, page_of(place))?;
        place = behind(rt, place, order.step);
    }
    Ok(())
}

fn unmap_in_order<M: TableMem + Drop>(
    rt: &impl Abort,
    tables: &mut Tables<M>,
    share: &mut Share,
    order: Order,
) -> Result<(), OutOfMemory> {
    let mut place = order.first;
    for _ in 0..order.count {
        assert!(rt; place < PLACES);
        unmap_page(rt, tables, share, page_of(place))?;
        place = behind(rt, place, order.step);
    }
    Ok(())
}

fn check_counts<M: TableMem + Drop>(rt: &impl Abort, tables: &Tables<M>, used: u32, free: u32) {
    assert_eq!(rt; tables.used(partition()), used);
    assert_eq!(rt; tables.free(partition()), free);
}

/// A page of one more chunk needs a table page, and none is free.
fn check_full<M: TableMem + Drop>(rt: &impl Abort, tables: &Tables<M>) {
    check_counts(rt, tables, 1_024, 0);
    let page = [Run::new(Page::new(0x8_0200), 1)];
    assert_eq!(rt; tables.grow(partition(), &Runs::of(&page), Some(data())), 1);
}

/// Every seventh place in turn until half of them are unmapped, and the same ones from the last to the first.
const HALF: Order = Order {
    first: 0,
    step: 7,
    count: 510,
};

const HALF_BACK: Order = Order {
    first: 503,
    step: 1_013,
    count: 510,
};

/// All places: upward, every eleventh, and every thirteenth in turn.
const UPWARD: Order = Order {
    first: 0,
    step: 1,
    count: PLACES,
};

const ELEVENTH: Order = Order {
    first: 2,
    step: 11,
    count: PLACES,
};

const THIRTEENTH: Order = Order {
    first: 3,
    step: 13,
    count: PLACES,
};

fn use_up<M: TableMem + Drop>(
    rt: &impl Abort,
    alloc: Global,
    manifest: &Manifest,
) -> Result<(), OutOfMemory> {
    let mut tables: Tables<M> = Tables::empty(alloc, manifest)?;
    let mut share = Share::empty(alloc)?;
    check_counts(rt, &tables, 0, 1_024);
    map_in_order(rt, &mut tables, &mut share, UPWARD)?;
    check_full(rt, &tables);
    unmap_in_order(rt, &mut tables, &mut share, HALF)?;
    check_counts(rt, &tables, 514, 510);
    map_in_order(rt, &mut tables, &mut share, HALF_BACK)?;
    check_full(rt, &tables);
    unmap_in_order(rt, &mut tables, &mut share, ELEVENTH)?;
    check_counts(rt, &tables, 0, 1_024);
    map_in_order(rt, &mut tables, &mut share, THIRTEENTH)?;
    check_full(rt, &tables);
    Ok(())
}

#[test]
fn uses_up_a_share_twice(rt: HostRuntime) -> Result<(), Fail> {
    let manifest = read(rt.alloc(), LARGE.as_bytes())?;
    use_up::<ListPool>(&rt, rt.alloc(), &manifest)?;
    use_up::<RawPool>(&rt, rt.alloc(), &manifest)?;
    Ok(())
}
