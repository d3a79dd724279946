//! Reclaims of pages that were lent.

use super::tables::BOOT;
use super::{MAPS, PAIRS, expect_text};
use std::alloc::Global;
use std::process::Abort;
use std::test::Fail;

const SUCCESS: &str =
    "reply 84000061 00000000 00000000 00000000 00000000 00000000 00000000 00000000\n";

/// What lines write after the buffer pairs are there.
fn expect(rt: &impl Abort, alloc: Global, lines: &str, wanted: &str) -> Result<(), Fail> {
    let script = format!(in alloc; "{PAIRS}{lines}")?;
    let wanted = format!(in alloc; "{SUCCESS}{SUCCESS}{SUCCESS}{wanted}")?;
    expect_text(rt, alloc, &script, None, &wanted)
}

/// The words of the table that a merge sets to 0: all but that of the page that was lent.
pub(super) fn write_zeros(text: &mut String) -> Result<(), Fail> {
    for i in 0..512 {
        if i != 1 {
            writeln!(text, "set 9 {i} 0000000000000000")?;
        }
    }
    Ok(())
}

/// A block that a lend has split is a block again, by break before make, and then its table is emptied.
#[test]
fn merges_a_block(rt: HostRuntime) -> Result<(), Fail> {
    let alloc = rt.alloc();
    let lines = "lend 8001 0 8002:02 80001000+1\n\
        reclaim 8002 800100000001\n\
        reclaim 8001 800100000001\n\
        ops\n\
        reclaim 8001 800100000001\n\
        maps 8001\n\
        tables 8001\n";
    let mut wanted = String::from_str(
        alloc,
        "reply 84000061 00000000 00000001 00008001 00000000 00000000 00000000 00000000\n\
        reply 84000060 00000000 fffffffe 00000000 00000000 00000000 00000000 00000000\n\
        reply 84000061 00000000 00000000 00000000 00000000 00000000 00000000 00000000\n\
        ops 514\n\
        set 5 0 0000000000000000\n\
        inv 8001 0080000000 512\n\
        set 5 0 00000000800007fd\n",
    )?;
    write_zeros(&mut wanted)?;
    let refused = "reply 84000060 00000000 fffffffe 00000000 00000000 00000000 00000000 00000000\n";
    let wanted = format!(in alloc; "{wanted}{refused}{MAPS}{BOOT}")?;
    expect(&rt, alloc, lines, &wanted)
}

/// Ranges of the first block are lent and reclaimed, which are the pages at these indexes: by break before make the
/// block is a block again, and then the valid words of its table, which are those of the other pages, become 0, upward.
fn expect_merge(
    rt: &impl Abort,
    alloc: Global,
    ranges: &str,
    lent: &[u32],
    made: u32,
) -> Result<(), Fail> {
    let mut zeros = String::new(alloc);
    for index in 0..512_u32 {
        if !lent.contains(&index) {
            writeln!(&mut zeros, "set 9 {index} 0000000000000000")?;
        }
    }
    let lines = format!(in alloc;
        "lend 8001 0 8002:02 {ranges}\nreclaim 8001 800100000001\nops\n"
    )?;
    let wanted = format!(in alloc;
        "reply 84000061 00000000 00000001 00008001 00000000 00000000 00000000 00000000\n\
        {SUCCESS}\
        ops {made}\n\
        set 5 0 0000000000000000\n\
        inv 8001 0080000000 512\n\
        set 5 0 00000000800007fd\n\
        {zeros}"
    )?;
    expect(rt, alloc, &lines, &wanted)
}

/// The pages at the ends of a block come back: their words are 0, and no operation sets them to 0 once more.
#[test]
fn merges_a_block_whose_ends_come_back(rt: HostRuntime) -> Result<(), Fail> {
    let alloc = rt.alloc();
    expect_merge(&rt, alloc, "80000000+1", &[0], 514)?;
    expect_merge(&rt, alloc, "801ff000+1", &[511], 514)?;
    expect_merge(&rt, alloc, "80000000+1,801ff000+1", &[0, 511], 513)
}

/// A partition has 32 live transactions at most, and a reclaim makes room for another.
#[test]
fn makes_room_for_a_transaction(rt: HostRuntime) -> Result<(), Fail> {
    let alloc = rt.alloc();
    let mut lines = String::new(alloc);
    let mut wanted = String::new(alloc);
    for i in 0..32u64 {
        writeln!(
            &mut lines,
            "lend 8001 0 8002:02 {:x}+1",
            0x8000_0000 + i * 0x1000
        )?;
        writeln!(
            &mut wanted,
            "reply 84000061 00000000 {:08x} 00008001 00000000 00000000 00000000 00000000",
            i + 1
        )?;
    }
    let last = "lend 8001 0 8002:02 80020000+1\n";
    let lines = format!(in alloc; "{lines}{last}reclaim 8001 800100000001\n{last}")?;
    let wanted = format!(in alloc;
        "{wanted}\
        reply 84000060 00000000 fffffffd 00000000 00000000 00000000 00000000 00000000\n\
        {SUCCESS}\
        reply 84000061 00000000 00000021 00008001 00000000 00000000 00000000 00000000\n"
    )?;
    expect(&rt, alloc, &lines, &wanted)
}
