//! A table page that a chunk gives back and a later chunk of the same call takes.
//!
//! A call is made only where the tables that it takes fit beside those that there are, so a page is free
//! before it for each table that it takes. In a share of three pages none is free beside that one.

use crate::fixture::{
    SMALL, block_word, data, edit, edit_runs, page_word, run_of, set, table_word,
};
use base::{OutOfMemory, Page, PartitionId, Run, Runs};
use manifest::{Manifest, read};
use pool::{ListPool, Op, RawPool, TableMem};
use stage2::Tables;
use std::alloc::Global;
use std::process::Abort;
use std::test::Fail;

/// The first pages of three chunks in a row.
const LOWER: u32 = 0x8_0000;

const UPPER: u32 = 0x8_0200;

const OTHER: u32 = 0x8_0400;

/// The page of the level 2 table: the first of the share, which has the pages 1, 2 and 3.
const SECOND: u32 = 1;

fn partition() -> PartitionId {
    PartitionId::new(0x8001)
}

fn invalidated(rt: &impl Abort, first: u32) -> Op {
    Op::Invalidate {
        who: partition(),
        run: run_of(rt, first, 512),
    }
}

fn map<M: TableMem + Drop>(
    rt: &impl Abort,
    tables: &mut Tables<M>,
    first: u32,
    count: u32,
) -> Result<(), OutOfMemory> {
    edit(
        rt,
        tables,
        partition(),
        run_of(rt, first, count),
        Some(data()),
    )
}

/// How many pages of the share are taken, and how many are free.
fn check_counts<M: TableMem + Drop>(rt: &impl Abort, tables: &Tables<M>, used: u32, free: u32) {
    assert_eq!(rt; tables.used(partition()), used);
    assert_eq!(rt; tables.free(partition()), free);
}

/// The one page of the lower chunk goes, whose table lies at a page of the pool, and the first page of the upper
/// chunk, a block, which takes a table.
fn unmap_both<M: TableMem + Drop>(
    rt: &impl Abort,
    tables: &mut Tables<M>,
    third: u32,
) -> Result<(), OutOfMemory> {
    let list = [
        Run::new(Page::new(0x8_0005), 1),
        Run::new(Page::new(0x8_0200), 1),
    ];
    let runs = Runs::of(&list);
    assert_eq!(rt; tables.grow(partition(), &runs, None), 1);
    edit_runs(rt, tables, partition(), &runs, &None)?;
    let ops = tables.memory().ops();
    assert_eq!(rt; ops.len(), 517);
    assert_eq!(rt; ops[0], set(SECOND, 0, 0));
    assert_eq!(rt; ops[1], invalidated(rt, LOWER));
    assert_eq!(rt; ops[2], set(third, 5, 0));
    assert_eq!(rt; ops[3], set(2, 1, page_word(UPPER + 1)));
    assert_eq!(rt; ops[513], set(2, 511, page_word(UPPER + 511)));
    assert_eq!(rt; ops[514], set(SECOND, 1, 0));
    assert_eq!(rt; ops[515], invalidated(rt, UPPER));
    assert_eq!(rt; ops[516], set(SECOND, 1, table_word(2)));
    check_counts(rt, tables, 2, 1);
    Ok(())
}

/// The lower chunk's table lies at page 2, and page 3 is free: the upper chunk takes page 2.
fn unmap_passes_on<M: TableMem + Drop>(
    rt: &impl Abort,
    alloc: Global,
    manifest: &Manifest,
) -> Result<(), OutOfMemory> {
    let mut tables: Tables<M> = Tables::empty(alloc, manifest)?;
    map(rt, &mut tables, LOWER + 5, 1)?;
    map(rt, &mut tables, UPPER, 512)?;
    check_counts(rt, &tables, 2, 1);
    unmap_both(rt, &mut tables, 2)
}

/// The lower chunk's table lies at page 3, and page 2 is free, which is lower: the upper chunk takes that.
fn unmap_takes_a_lower_page<M: TableMem + Drop>(
    rt: &impl Abort,
    alloc: Global,
    manifest: &Manifest,
) -> Result<(), OutOfMemory> {
    let mut tables: Tables<M> = Tables::empty(alloc, manifest)?;
    map(rt, &mut tables, OTHER, 1)?;
    map(rt, &mut tables, LOWER + 5, 1)?;
    check_counts(rt, &tables, 3, 0);
    edit(rt, &mut tables, partition(), run_of(rt, OTHER, 1), None)?;
    map(rt, &mut tables, UPPER, 512)?;
    check_counts(rt, &tables, 2, 1);
    unmap_both(rt, &mut tables, 3)
}

/// The last page of the lower chunk comes, which makes it a block, and a page of the upper chunk, where
/// nothing is mapped.
fn map_passes_on<M: TableMem + Drop>(
    rt: &impl Abort,
    alloc: Global,
    manifest: &Manifest,
) -> Result<(), OutOfMemory> {
    let mut tables: Tables<M> = Tables::empty(alloc, manifest)?;
    map(rt, &mut tables, LOWER, 511)?;
    check_counts(rt, &tables, 2, 1);
    let list = [
        Run::new(Page::new(0x8_01ff), 1),
        Run::new(Page::new(0x8_0201), 1),
    ];
    let runs = Runs::of(&list);
    assert_eq!(rt; tables.grow(partition(), &runs, Some(data())), 1);
    edit_runs(rt, &mut tables, partition(), &runs, &Some(data()))?;
    let ops = tables.memory().ops();
    assert_eq!(rt; ops.len(), 516);
    assert_eq!(rt; ops[0], set(SECOND, 0, 0));
    assert_eq!(rt; ops[1], invalidated(rt, LOWER));
    assert_eq!(rt; ops[2], set(SECOND, 0, block_word(LOWER)));
    assert_eq!(rt; ops[3], set(2, 0, 0));
    assert_eq!(rt; ops[513], set(2, 510, 0));
    assert_eq!(rt; ops[514], set(2, 1, page_word(UPPER + 1)));
    assert_eq!(rt; ops[515], set(SECOND, 1, table_word(2)));
    check_counts(rt, &tables, 2, 1);
    Ok(())
}

#[test]
fn unmap_takes_a_page_that_it_gave_back(rt: HostRuntime) -> Result<(), Fail> {
    let manifest = read(rt.alloc(), SMALL.as_bytes())?;
    unmap_passes_on::<ListPool>(&rt, rt.alloc(), &manifest)?;
    unmap_passes_on::<RawPool>(&rt, rt.alloc(), &manifest)?;
    Ok(())
}

#[test]
fn unmap_takes_a_free_page_that_is_lower(rt: HostRuntime) -> Result<(), Fail> {
    let manifest = read(rt.alloc(), SMALL.as_bytes())?;
    unmap_takes_a_lower_page::<ListPool>(&rt, rt.alloc(), &manifest)?;
    unmap_takes_a_lower_page::<RawPool>(&rt, rt.alloc(), &manifest)?;
    Ok(())
}

#[test]
fn map_takes_a_page_that_it_gave_back(rt: HostRuntime) -> Result<(), Fail> {
    let manifest = read(rt.alloc(), SMALL.as_bytes())?;
    map_passes_on::<ListPool>(&rt, rt.alloc(), &manifest)?;
    map_passes_on::<RawPool>(&rt, rt.alloc(), &manifest)?;
    Ok(())
}
