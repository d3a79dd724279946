ghost use Rattle.std.specs.Prelude.{◌≡◌, IfOk};
ghost use Rattle.manifest.specs.Common.{common_rows};
ghost use Rattle.pool.specs.Pool.{new_pool};

use crate::list_pool::ListPool;
use crate::operation::Op;
use crate::raw_pool::RawPool;
use crate::table_mem::TableMem;
use base::{OutOfMemory, Page, PartitionId, Run};
use manifest::common_manifest;
use std::alloc::Global;
use std::process::Abort;
use std::test::Fail;

/// Memory for the partitions 0x8001, 0x8002 and 0x8003, each of 16 pages.
fn common_memory<M: TableMem>(alloc: Global) -> Result<M, OutOfMemory>
    ensures { IfOk result (λ m. M.state m ≡ new_pool common_rows) }
{
    let manifest = common_manifest(alloc)?;
    M::make(alloc, &manifest)
}

fn take_first_pages<M: TableMem + Drop>(rt: &impl Abort, alloc: Global) -> Result<(), OutOfMemory> {
    let mut memory: M = common_memory(alloc)?;
    for (row, first) in [(0, 3), (1, 19), (2, 35)] {
        assert_eq!(rt; memory.free(row), 16);
        assert_eq!(rt; memory.take_page(row), first);
        assert_eq!(rt; memory.free(row), 15);
    }
    assert_eq!(rt; memory.free(3), 0);
    Ok(())
}

fn take_given_page<M: TableMem + Drop>(rt: &impl Abort, alloc: Global) -> Result<(), OutOfMemory> {
    let mut memory: M = common_memory(alloc)?;
    assert!(rt; memory.free(1) > 0);
    let lower = memory.take_page(1);
    assert!(rt; memory.free(1) > 0);
    let upper = memory.take_page(1);
    assert_eq!(rt; (lower, upper), (19, 20));
    memory.give_page(1, lower);
    assert_eq!(rt; memory.free(1), 15);
    assert_eq!(rt; memory.take_page(1), lower);
    Ok(())
}

fn record_operations<M: TableMem + Drop>(
    rt: &impl Abort,
    alloc: Global,
) -> Result<(), OutOfMemory> {
    let mut memory: M = common_memory(alloc)?;
    let p = PartitionId::new(0x8002);
    let run = Run::new(Page::new(7), 2);
    assert_eq!(rt; memory.word(1, 511), 0);
    memory.ready(2)?;
    memory.set_word(1, 511, 0x703);
    memory.invalidate(p, run);
    assert_eq!(rt; memory.word(1, 511), 0x703);
    assert_eq!(rt; memory.word(1, 510), 0);
    let wanted = [
        Op::Set {
            page: 1,
            index: 511,
            word: 0x703,
        },
        Op::Invalidate { who: p, run },
    ];
    assert_eq!(rt; memory.ops(), &wanted[..]);
    memory.begin();
    assert!(rt; memory.ops().is_empty());
    memory.ready(1)?;
    memory.set_word(1, 511, 0x703);
    assert_eq!(rt; memory.ops(), &wanted[..1]);
    assert_eq!(rt; memory.made(), 3);
    Ok(())
}

/// Where the heap refuses to grow, `ready` leaves what was recorded.
fn keep_operations<M: TableMem + Drop>(rt: &impl Abort, alloc: Global) -> Result<(), OutOfMemory> {
    let mut memory: M = common_memory(alloc)?;
    memory.ready(1)?;
    memory.invalidate(PartitionId::new(0x8001), Run::new(Page::new(0), 1));
    let outcome = memory.ready(100);
    assert_eq!(rt; memory.ops().len(), 1);
    assert_eq!(rt; memory.made(), 1);
    outcome
}

#[test]
fn takes_the_lowest_free_page(rt: HostRuntime) -> Result<(), Fail> {
    take_first_pages::<ListPool>(&rt, rt.alloc())?;
    take_first_pages::<RawPool>(&rt, rt.alloc())?;
    take_given_page::<ListPool>(&rt, rt.alloc())?;
    take_given_page::<RawPool>(&rt, rt.alloc())?;
    Ok(())
}

#[test]
fn records_what_is_done(rt: HostRuntime) -> Result<(), Fail> {
    record_operations::<ListPool>(&rt, rt.alloc())?;
    record_operations::<RawPool>(&rt, rt.alloc())?;
    Ok(())
}

#[test]
fn keeps_what_was_recorded(rt: HostRuntime) -> Result<(), Fail> {
    keep_operations::<ListPool>(&rt, rt.alloc())?;
    keep_operations::<RawPool>(&rt, rt.alloc())?;
    Ok(())
}
