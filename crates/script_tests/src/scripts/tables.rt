//! The entries of tables, at boot and after lends.

use super::{expect_after_pairs, expect_text};
use std::alloc::Global;
use std::test::Fail;

/// The tables of 0x8001 at boot: two blocks, three chunks of pages, and a level 2 table for each of three
/// gigabytes.
pub(super) const BOOT: &str = "tables 8001 6\n\
    L1 0000000000 table\n\
    L2 0009000000 table\n\
    L3 0009000000 00400000090004c7\n\
    L1 0080000000 table\n\
    L2 0080000000 00000000800007fd\n\
    L2 0080200000 00000000802007fd\n\
    L2 0090000000 table\n\
    L3 0090000000 00400000900007ff\n\
    L3 0090001000 00400000900017ff\n\
    L1 00c0000000 table\n\
    L2 00d0000000 table\n\
    L3 00d0000000 00400000d00007ff\n";

#[test]
fn writes_the_tables_of_boot(rt: HostRuntime) -> Result<(), Fail> {
    let alloc = rt.alloc();
    let others = "tables 8002 4\n\
        L1 0080000000 table\n\
        L2 00a0000000 00400000a00007fd\n\
        L2 00b0000000 table\n\
        L3 00b0000000 00400000b00007ff\n\
        L3 00b0001000 00400000b00017ff\n\
        L1 00c0000000 table\n\
        L2 00d0000000 table\n\
        L3 00d0000000 00400000d000077f\n\
        tables 8003 2\n\
        L1 00c0000000 table\n\
        L2 00c0000000 table\n\
        L3 00c0000000 00400000c00007ff\n\
        L3 00c0001000 00400000c00017ff\n\
        tables 8004 0\n\
        tables 0000 0\n";
    expect_text(&rt, alloc, "tables 8001\n", None, BOOT)?;
    let script = "tables 8002\ntables 8003\ntables 8004\ntables 0000";
    expect_text(&rt, alloc, script, None, others)
}

/// A whole chunk leaves its gigabyte's other words, and no table comes or goes.
#[test]
fn leaves_no_entry_for_a_whole_chunk(rt: HostRuntime) -> Result<(), Fail> {
    let lines = "lend 8001 0 8002:02 80000000+512\ntables 8001\n";
    let wanted = "reply 84000061 00000000 00000001 00008001 00000000 00000000 00000000 00000000\n\
        tables 8001 6\n\
        L1 0000000000 table\n\
        L2 0009000000 table\n\
        L3 0009000000 00400000090004c7\n\
        L1 0080000000 table\n\
        L2 0080200000 00000000802007fd\n\
        L2 0090000000 table\n\
        L3 0090000000 00400000900007ff\n\
        L3 0090001000 00400000900017ff\n\
        L1 00c0000000 table\n\
        L2 00d0000000 table\n\
        L3 00d0000000 00400000d00007ff\n";
    expect_after_pairs(&rt, rt.alloc(), lines, wanted)
}

/// The lines of a chunk of executable pages, without that of one page.
fn push_chunk(text: &mut String, begin: u32, without: u64) -> Result<(), Fail> {
    writeln!(text, "L2 {begin:010x} table")?;
    for index in 0..512u64 {
        let address = u64::from(begin) + 0x1000 * index;
        let word = address + 0x7ff;
        if index != without {
            writeln!(text, "L3 {address:010x} {word:016x}")?;
        }
    }
    Ok(())
}

const BEFORE: &str = "L1 0000000000 table\n\
    L2 0009000000 table\n\
    L3 0009000000 00400000090004c7\n\
    L1 0080000000 table\n";

const AFTER: &str = "L2 0090000000 table\n\
    L3 0090000000 00400000900007ff\n\
    L3 0090001000 00400000900017ff\n\
    L1 00c0000000 table\n\
    L2 00d0000000 table\n\
    L3 00d0000000 00400000d00007ff\n";

/// A block that a range cuts becomes a table of pages.
#[test]
fn splits_a_block(rt: HostRuntime) -> Result<(), Fail> {
    let alloc = rt.alloc();
    let mut wanted = String::new(alloc);
    wanted.push_str(
        "reply 84000061 00000000 00000001 00008001 00000000 00000000 00000000 00000000\n",
    )?;
    write!(&mut wanted, "tables 8001 7\n{BEFORE}")?;
    push_chunk(&mut wanted, 0x8000_0000, 1)?;
    write!(&mut wanted, "L2 0080200000 00000000802007fd\n{AFTER}")?;
    let lines = "lend 8001 0 8002:02 80001000+1\ntables 8001\n";
    expect_after_pairs(&rt, alloc, lines, &wanted)
}

/// A range across two blocks splits both.
#[test]
fn splits_two_blocks(rt: HostRuntime) -> Result<(), Fail> {
    let alloc = rt.alloc();
    let mut wanted = String::new(alloc);
    wanted.push_str(
        "reply 84000061 00000000 00000001 00008001 00000000 00000000 00000000 00000000\n",
    )?;
    write!(&mut wanted, "tables 8001 8\n{BEFORE}")?;
    push_chunk(&mut wanted, 0x8000_0000, 511)?;
    push_chunk(&mut wanted, 0x8020_0000, 0)?;
    wanted.push_str(AFTER)?;
    let lines = "lend 8001 0 8002:02 801ff000+2\ntables 8001\n";
    expect_after_pairs(&rt, alloc, lines, &wanted)
}
