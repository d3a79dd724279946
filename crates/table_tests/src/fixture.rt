//! Tables to edit, edits of them, and their words by the rules.

ghost use Rattle.std.specs.Prelude.{◌≡◌, IfOk};
ghost use Rattle.manifest.specs.Common.{common_rows};
ghost use Rattle.stage2.specs.Slot.{layout_of};

use base::{Access, OutOfMemory, Page, PartitionId, Rights, Run, Runs};
use manifest::common_manifest;
use pool::{Op, TableMem};
use stage2::Tables;
use std::alloc::Global;
use std::process::Abort;

/// A partition with 1,025 table pages, which take 4,198,400 bytes: its root, at page 0, and a share of 1,024.
pub(crate) const LARGE: &str = "pool = 0x40000000\n\
    [[partition]]\n\
    id = 0x8001\n\
    quota = 1024\n\
    [[region]]\n\
    base = 0x80000000\n\
    pages = 1\n\
    kind = \"normal\"\n\
    owner = 0x8001\n\
    grants = [ { id = 0x8001, data = \"rw\", exec = false } ]\n";

/// The same with a share of 3 table pages.
pub(crate) const SMALL: &str = "pool = 0x40000000\n\
    [[partition]]\n\
    id = 0x8001\n\
    quota = 3\n\
    [[region]]\n\
    base = 0x80000000\n\
    pages = 1\n\
    kind = \"normal\"\n\
    owner = 0x8001\n\
    grants = [ { id = 0x8001, data = \"rw\", exec = false } ]\n";

/// Tables that map nothing for 0x8001, 0x8002 and 0x8003, whose roots are the pool pages 0, 1 and 2
/// and whose shares begin at 3, 19 and 35. The pool begins at address 0x40000000.
pub(crate) fn empty_tables<M: TableMem + Drop>(alloc: Global) -> Result<Tables<M>, OutOfMemory>
    ensures { IfOk result (λ t. t.layout ≡ layout_of common_rows) }
{
    let manifest = common_manifest(alloc)?;
    Tables::empty(alloc, &manifest)
}

/// The same partitions' tables after boot.
pub(crate) fn booted_tables<M: TableMem + Drop>(alloc: Global) -> Result<Tables<M>, OutOfMemory>
    ensures { IfOk result (λ t. t.layout ≡ layout_of common_rows) }
{
    let manifest = common_manifest(alloc)?;
    Tables::boot(alloc, &manifest)
}

/// Edits the pages of one run, after the list of operations is emptied.
pub(crate) fn edit<M: TableMem + Drop>(
    rt: &impl Abort,
    tables: &mut Tables<M>,
    p: PartitionId,
    run: Run,
    access: Option<Access>,
) -> Result<(), OutOfMemory>
    ensures { tables.new.layout ≡ tables.old.layout }
{
    let runs = [run];
    edit_runs(rt, tables, p, &Runs::of(&runs), &access)
}

/// Edits the pages of runs in one call, after the list of operations is emptied.
pub(crate) fn edit_runs<M: TableMem + Drop>(
    rt: &impl Abort,
    tables: &mut Tables<M>,
    p: PartitionId,
    runs: &Runs,
    access: &Option<Access>,
) -> Result<(), OutOfMemory>
    ensures layout { tables.new.layout ≡ tables.old.layout }
{
    tables.begin();
    tables.ready(p, runs, *access, 0)?;
    let grown = tables.grow(p, runs, *access);
    assert!(rt; grown <= tables.free(p));
    match access {
        Some(access) => tables.map(p, runs, *access),
        None => tables.unmap(p, runs),
    }
    Ok(())
}

pub(crate) fn set(page: u32, index: u32, word: u64) -> Op {
    Op::Set { page, index, word }
}

/// A word of a table.
pub(crate) fn word_at<M: TableMem + Drop>(
    rt: &impl Abort,
    tables: &Tables<M>,
    page: u32,
    index: u32,
) -> u64
    requires { tables.now.layout ≡ layout_of common_rows }
{
    assert!(rt; page < 51 && index < 512);
    tables.memory().word(page, index)
}

/// The access that the words below give: normal memory that is read and written, and not executed.
pub(crate) fn data() -> Access {
    Access::normal(Rights::Rw, false)
}

/// The level 3 word of a page: XN (bit 54), AF (bit 10), inner shareable (bits 9:8), read and written
/// (bits 7:6), write-back memory (bits 5:2), and 3 for a page.
pub(crate) fn page_word(page: u32) -> u64 {
    u64::from(page) * 4096 + 0x0040_0000_0000_07ff
}

/// The level 2 word of a block, which ends in 1 and is else as that of a page.
pub(crate) fn block_word(page: u32) -> u64 {
    u64::from(page) * 4096 + 0x0040_0000_0000_07fd
}

/// The word that points at a table, which ends in 3, in a pool that begins at address 0x40000000.
pub(crate) fn table_word(pool_page: u32) -> u64 {
    u64::from(pool_page) * 4096 + 0x4000_0003
}

/// Pages in a row, which end within input addresses of 39 bits.
pub(crate) fn run_of(rt: &impl Abort, first: u32, count: u32) -> Run {
    assert!(rt; first < Page::COUNT && 0 < count && count <= Page::COUNT - first);
    Run::new(Page::new(first), count)
}
