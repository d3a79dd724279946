//! A chunk that is mapped but for a page at each end of it.

ghost use Rattle.std.specs.Prelude.{◌≡◌};
ghost use Rattle.manifest.specs.Common.{common_rows};
ghost use Rattle.stage2.specs.Slot.{layout_of};

use crate::fixture::{
    block_word, data, edit, empty_tables, page_word, run_of, set, table_word, word_at,
};
use base::{Access, OutOfMemory, Page, PartitionId, Run};
use pool::{ListPool, Op, RawPool, TableMem};
use stage2::Tables;
use std::alloc::Global;
use std::process::Abort;
use std::test::Fail;

/// The first page of the chunk.
const CHUNK: u32 = 0x8_0000;

/// The pages of the level 2 and the level 3 table: the lowest two of the share.
const SECOND: u32 = 3;

const THIRD: u32 = 4;

fn partition() -> PartitionId {
    PartitionId::new(0x8001)
}

/// The chunk's pages, and one on each side, are reached where they are among these; the chunk is a block
/// exactly where all of its pages are reached, and has else a table, which has words of these pages alone.
fn check<M: TableMem + Drop>(rt: &impl Abort, tables: &Tables<M>, reached: Run)
    requires { tables.now.layout ≡ layout_of common_rows }
{
    let whole = reached.count() == 512;
    let chunk_word = if whole {
        block_word(CHUNK)
    } else {
        table_word(THIRD)
    };
    assert_eq!(rt; word_at(rt, tables, SECOND, 0), chunk_word);
    assert_eq!(rt; tables.used(partition()), if whole { 1 } else { 2 });
    for index in 0..512 {
        let page = Page::new(CHUNK + index);
        let hangs = !whole && reached.contains(page);
        let word = if hangs { page_word(CHUNK + index) } else { 0 };
        assert_eq!(rt; word_at(rt, tables, THIRD, index), word, "index {index}");
    }
    check_walks(rt, tables, reached);
}

fn check_walks<M: TableMem + Drop>(rt: &impl Abort, tables: &Tables<M>, reached: Run) {
    for number in CHUNK - 1..CHUNK + 513 {
        let page = Page::new(number);
        let wanted = if reached.contains(page) {
            Some(data())
        } else {
            None
        };
        assert_eq!(rt; tables.walk(partition(), page), wanted, "page {number:x}");
    }
}

/// Edits pages of the chunk, after which these are reached.
fn step<M: TableMem + Drop>(
    rt: &impl Abort,
    tables: &mut Tables<M>,
    run: Run,
    access: Option<Access>,
    reached: Run,
) -> Result<(), OutOfMemory>
    requires { tables.old.layout ≡ layout_of common_rows }
    ensures { tables.new.layout ≡ layout_of common_rows }
{
    edit(rt, tables, partition(), run, access)?;
    check(rt, tables, reached);
    Ok(())
}

fn invalidated(run: Run) -> Op {
    Op::Invalidate {
        who: partition(),
        run,
    }
}

/// The operations where the last page comes: the table's word is broken, the block stands there, and the
/// table's 511 words go.
fn check_merge(rt: &impl Abort, ops: &[Op], chunk: Run) {
    assert_eq!(rt; ops.len(), 514);
    assert_eq!(rt; ops[0], set(SECOND, 0, 0));
    assert_eq!(rt; ops[1], invalidated(chunk));
    assert_eq!(rt; ops[2], set(SECOND, 0, block_word(CHUNK)));
    assert_eq!(rt; ops[3], set(THIRD, 0, 0));
    assert_eq!(rt; ops[513], set(THIRD, 510, 0));
}

/// The operations where the first page goes: a table of the other 511 is filled, the block is broken, and
/// the table hangs in its place.
fn check_split(rt: &impl Abort, ops: &[Op], chunk: Run) {
    assert_eq!(rt; ops.len(), 514);
    assert_eq!(rt; ops[0], set(THIRD, 1, page_word(CHUNK + 1)));
    assert_eq!(rt; ops[510], set(THIRD, 511, page_word(CHUNK + 511)));
    assert_eq!(rt; ops[511], set(SECOND, 0, 0));
    assert_eq!(rt; ops[512], invalidated(chunk));
    assert_eq!(rt; ops[513], set(SECOND, 0, table_word(THIRD)));
}

/// Pages 1 to 510 of a chunk are mapped, then page 0, then page 511, with which the chunk becomes a block
/// and gives its table back. Page 0 is unmapped, so that a table hangs again, and then page 511.
fn close_and_open<M: TableMem + Drop>(rt: &impl Abort, alloc: Global) -> Result<(), OutOfMemory> {
    let mut tables: Tables<M> = empty_tables(alloc)?;
    let inner = run_of(rt, CHUNK + 1, 510);
    let chunk = run_of(rt, CHUNK, 512);
    let first = run_of(rt, CHUNK, 1);
    let last = run_of(rt, CHUNK + 511, 1);
    step(rt, &mut tables, inner, Some(data()), inner)?;
    assert_eq!(rt; tables.memory().ops().len(), 512);
    let below_last = run_of(rt, CHUNK, 511);
    step(rt, &mut tables, first, Some(data()), below_last)?;
    let wanted = [set(THIRD, 0, page_word(CHUNK))];
    assert_eq!(rt; tables.memory().ops(), &wanted[..]);
    step(rt, &mut tables, last, Some(data()), chunk)?;
    check_merge(rt, tables.memory().ops(), chunk);
    let above_first = run_of(rt, CHUNK + 1, 511);
    step(rt, &mut tables, first, None, above_first)?;
    check_split(rt, tables.memory().ops(), chunk);
    step(rt, &mut tables, last, None, inner)?;
    let wanted = [set(THIRD, 511, 0), invalidated(last)];
    assert_eq!(rt; tables.memory().ops(), &wanted[..]);
    Ok(())
}

#[test]
fn closes_a_chunk_and_opens_it(rt: HostRuntime) -> Result<(), Fail> {
    close_and_open::<ListPool>(&rt, rt.alloc())?;
    close_and_open::<RawPool>(&rt, rt.alloc())?;
    Ok(())
}
