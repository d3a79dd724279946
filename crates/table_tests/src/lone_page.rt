//! A gigabyte of which all pages but one are alike.

use crate::fixture::{
    block_word, data, edit, edit_runs, empty_tables, page_word, run_of, table_word,
};
use base::{Access, OutOfMemory, Page, PartitionId, Runs, gather};
use pool::{ListPool, RawPool, TableMem};
use stage2::{Level, TableEntry, Tables};
use std::alloc::Global;
use std::process::Abort;
use std::test::Fail;

/// The first page of the gigabyte, and the one behind its last.
const FIRST: u32 = 0x8_0000;

const END: u32 = 0xc_0000;

/// A page of the first chunk, and one in the middle of the last.
const PAGES: [u32; 2] = [FIRST + 5, END - 256];

/// The pages of the level 2 and the level 3 table: the lowest two of the share.
const SECOND: u32 = 3;

const THIRD: u32 = 4;

fn partition() -> PartitionId {
    PartitionId::new(0x8001)
}

/// Which pages of the gigabyte are reached.
#[derive(Clone, Copy)]
enum Reached {
    /// This one alone.
    Only(u32),
    /// All but this one.
    AllBut(u32),
}

impl Reached {
    fn contains(self, page: u32) -> bool {
        match self {
            Reached::Only(one) => page == one,
            Reached::AllBut(one) => FIRST <= page && page < END && page != one,
        }
    }

    /// The word that stands for the pages from one on in a table of this level: a chunk has a table exactly
    /// where its pages are not alike, which is the chunk of the one page, and is else a block or not mapped.
    fn word(self, level: Level, first: u32) -> u64 {
        let (Reached::Only(one) | Reached::AllBut(one)) = self;
        let chunk = one / 512;
        match level {
            Level::First if first == FIRST => table_word(SECOND),
            Level::Second if first / 512 == chunk => table_word(THIRD),
            Level::Second if self.contains(first) => block_word(first),
            Level::Third if first / 512 == chunk && self.contains(first) => page_word(first),
            _ => 0,
        }
    }

    /// How many words of the tables are valid: one of the root, those of the chunks, and those of the one
    /// chunk's pages.
    fn words(self) -> usize {
        match self {
            Reached::Only(_) => 1 + 1 + 1,
            Reached::AllBut(_) => 1 + 512 + 511,
        }
    }
}

/// Each valid word of the tables stands where the rules want it, and there are as many.
fn check_entries<M: TableMem + Drop>(
    rt: &impl Abort,
    alloc: Global,
    tables: &Tables<M>,
    reached: Reached,
) -> Result<(), OutOfMemory> {
    let entries: Vec<TableEntry> = tables.reader().entries(partition()).collect(alloc)?;
    assert_eq!(rt; entries.len(), reached.words());
    for entry in &entries {
        let first = entry.first().number();
        assert_eq!(rt;
            entry.word(),
            reached.word(entry.level(), first),
            "page {first:x}"
        );
    }
    Ok(())
}

fn check_walks<M: TableMem + Drop>(rt: &impl Abort, tables: &Tables<M>, reached: Reached) {
    for number in FIRST - 1..END + 1 {
        let wanted = reached.contains(number).then_some(data());
        assert_eq!(rt;
            tables.walk(partition(), Page::new(number)),
            wanted,
            "page {number:x}"
        );
    }
}

fn check<M: TableMem + Drop>(
    rt: &impl Abort,
    alloc: Global,
    tables: &Tables<M>,
    reached: Reached,
) -> Result<(), OutOfMemory> {
    assert_eq!(rt; tables.used(partition()), 2);
    check_entries(rt, alloc, tables, reached)?;
    check_walks(rt, tables, reached);
    Ok(())
}

/// Edits all pages of the gigabyte but one, in one call.
fn edit_others<M: TableMem + Drop>(
    rt: &impl Abort,
    alloc: Global,
    tables: &mut Tables<M>,
    page: u32,
    access: Option<Access>,
) -> Result<(), OutOfMemory> {
    assert!(rt; FIRST < page && page < END - 1);
    let below = run_of(rt, FIRST, page - FIRST);
    let above = run_of(rt, page + 1, END - 1 - page);
    let mut runs = vec![in alloc; below, above]?;
    gather(&mut runs);
    edit_runs(rt, tables, partition(), &Runs::of(&runs), &access)
}

/// The gigabyte is mapped in one run, as 512 blocks, and then all but a page of it is unmapped.
fn unmap_others<M: TableMem + Drop>(
    rt: &impl Abort,
    alloc: Global,
    page: u32,
) -> Result<(), OutOfMemory> {
    let mut tables: Tables<M> = empty_tables(alloc)?;
    let gigabyte = run_of(rt, FIRST, END - FIRST);
    edit(rt, &mut tables, partition(), gigabyte, Some(data()))?;
    assert_eq!(rt; tables.used(partition()), 1);
    assert_eq!(rt; tables.memory().ops().len(), 513);
    edit_others(rt, alloc, &mut tables, page, None)?;
    check(rt, alloc, &tables, Reached::Only(page))
}

/// Of a gigabyte where nothing is mapped all but a page is mapped.
fn map_others<M: TableMem + Drop>(
    rt: &impl Abort,
    alloc: Global,
    page: u32,
) -> Result<(), OutOfMemory> {
    let mut tables: Tables<M> = empty_tables(alloc)?;
    edit_others(rt, alloc, &mut tables, page, Some(data()))?;
    check(rt, alloc, &tables, Reached::AllBut(page))
}

#[test]
fn unmaps_a_gigabyte_but_for_a_page(rt: HostRuntime) -> Result<(), Fail> {
    for page in PAGES {
        unmap_others::<ListPool>(&rt, rt.alloc(), page)?;
        unmap_others::<RawPool>(&rt, rt.alloc(), page)?;
    }
    Ok(())
}

#[test]
fn maps_a_gigabyte_but_for_a_page(rt: HostRuntime) -> Result<(), Fail> {
    for page in PAGES {
        map_others::<ListPool>(&rt, rt.alloc(), page)?;
        map_others::<RawPool>(&rt, rt.alloc(), page)?;
    }
    Ok(())
}
