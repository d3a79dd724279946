//! Sends under other quotas than the common manifest's.

use super::documents::common_document;
use super::tables::BOOT;
use super::{MAPS, PAIRS, expect_text_from};
use std::alloc::Global;
use std::process::Abort;
use std::test::Fail;

const PAIR: &str =
    "reply 84000061 00000000 00000000 00000000 00000000 00000000 00000000 00000000\n";

const NO_MEMORY: &str =
    "reply 84000060 00000000 fffffffd 00000000 00000000 00000000 00000000 00000000\n";

/// What lines write after the buffer pairs are there, with these quotas of 0x8001 and 0x8002.
fn expect_with(
    rt: &impl Abort,
    alloc: Global,
    quotas: (u32, u32),
    lines: &str,
    wanted: &str,
) -> Result<(), Fail> {
    let document = common_document(alloc, quotas.0, quotas.1)?;
    let script = format!(in alloc; "{PAIRS}{lines}")?;
    let wanted = format!(in alloc; "{PAIR}{PAIR}{PAIR}{wanted}")?;
    expect_text_from(rt, alloc, &document, &script, None, &wanted)
}

/// A quota without a page for the split of a block: the send is refused and changes nothing.
#[test]
fn refuses_a_split_beyond_the_quota(rt: HostRuntime) -> Result<(), Fail> {
    let alloc = rt.alloc();
    let lines = "lend 8001 0 8002:02 80001000+1\n\
        ops\n\
        maps 8001\n\
        tables 8001\n\
        lend 8001 0 8002:02 80000000+512\n";
    let wanted = format!(in alloc;
        "{NO_MEMORY}\
        ops 0\n\
        {MAPS}{BOOT}\
        reply 84000061 00000000 00000001 00008001 00000000 00000000 00000000 00000000\n"
    )?;
    expect_with(&rt, alloc, (6, 16), lines, &wanted)
}

/// A quota with one page for a split: one block is split, and a second is not.
#[test]
fn splits_within_the_quota(rt: HostRuntime) -> Result<(), Fail> {
    let alloc = rt.alloc();
    let lines = "lend 8001 0 8002:02 801ff000+2\n\
        lend 8001 0 8002:02 80001000+1\n\
        lend 8001 0 8002:02 80200000+1\n";
    let wanted = format!(in alloc;
        "{NO_MEMORY}\
        reply 84000061 00000000 00000001 00008001 00000000 00000000 00000000 00000000\n\
        {NO_MEMORY}"
    )?;
    expect_with(&rt, alloc, (7, 16), lines, &wanted)
}

/// A receiver's quota is not looked at by a send.
#[test]
fn lends_to_a_receiver_of_few_tables(rt: HostRuntime) -> Result<(), Fail> {
    let lines = "lend 8001 0 8002:02 80000000+256\n\
        lend 8001 0 8002:02 80100000+256\n\
        lend 8001 0 8002:02 80200000+1\n";
    let wanted = "reply 84000061 00000000 00000001 00008001 00000000 00000000 00000000 00000000\n\
        reply 84000061 00000000 00000002 00008001 00000000 00000000 00000000 00000000\n\
        reply 84000061 00000000 00000003 00008001 00000000 00000000 00000000 00000000\n";
    expect_with(&rt, rt.alloc(), (16, 5), lines, wanted)
}
