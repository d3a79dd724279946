//! Retrieves, relinquishes and completed donations.

use super::documents::common_document;
use super::tables::BOOT;
use super::{MAPS, PAIRS, expect_text, expect_text_from};
use std::alloc::Global;
use std::process::Abort;
use std::test::Fail;

pub(super) const OK: &str =
    "reply 84000061 00000000 00000000 00000000 00000000 00000000 00000000 00000000\n";

/// The first two handles of 0x8001.
pub(super) const FIRST: &str =
    "reply 84000061 00000000 00000001 00008001 00000000 00000000 00000000 00000000\n";

const SECOND: &str =
    "reply 84000061 00000000 00000002 00008001 00000000 00000000 00000000 00000000\n";

pub(super) const INVALID: &str =
    "reply 84000060 00000000 fffffffe 00000000 00000000 00000000 00000000 00000000\n";

const NO_MEMORY: &str =
    "reply 84000060 00000000 fffffffd 00000000 00000000 00000000 00000000 00000000\n";

const BUSY: &str =
    "reply 84000060 00000000 fffffffc 00000000 00000000 00000000 00000000 00000000\n";

pub(super) const DENIED: &str =
    "reply 84000060 00000000 fffffffa 00000000 00000000 00000000 00000000 00000000\n";

/// A page is lent to 0x8002, which may read and write, and asks for it.
pub(super) const LEND: &str = "lend 8001 0 8002:02 80001000+1";

pub(super) const GET: &str = "retrieve 8002 800100000001 8001 0 2 02";

/// The response to it: read-write, and not executable.
pub(super) const RESPONSE: &str =
    "reply 84000075 00000060 00000060 00000000 00000000 00000000 00000000 00000000\n\
    rx 01802f00100000000100000001800000000000000000000010000000010000003000000000000000\
    00000000000000000280060040000000000000000000000001000000010000000000000000000000\
    00100080000000000100000000000000\n";

/// Calls of 0x8003 that name no other partition: its identifier, a version, an unknown call, a lend to
/// itself and a reclaim of nothing.
const OF_ANOTHER_CALLER: &str = "call 8003 84000069\n\
    call 8003 84000063 10001\n\
    call 8003 84000070\n\
    lend 8003 0 8003:02 c0000000+1\n\
    call 8003 84000077 1 8003\n";

const TO_ANOTHER_CALLER: &str =
    "reply 84000061 00000000 00008003 00000000 00000000 00000000 00000000 00000000\n\
    reply 00010001 00000000 00000000 00000000 00000000 00000000 00000000 00000000\n\
    reply 84000060 00000000 ffffffff 00000000 00000000 00000000 00000000 00000000\n\
    reply 84000060 00000000 fffffffe 00000000 00000000 00000000 00000000 00000000\n\
    reply 84000060 00000000 fffffffe 00000000 00000000 00000000 00000000 00000000\n";

/// After the buffers are registered, each line writes what stands beside it, with these quotas of
/// 0x8001 and 0x8002: where the tables are compared after each with those that the ledger gives, and
/// where calls of another partition come between.
fn expect_with(
    rt: &impl Abort,
    alloc: Global,
    quotas: (u32, u32),
    lines: &[(&str, &str)],
) -> Result<(), Fail> {
    let document = common_document(alloc, quotas.0, quotas.1)?;
    let (script, wanted) = audited(alloc, lines)?;
    expect_text_from(rt, alloc, &document, &script, None, &wanted)?;
    let (script, wanted) = among_others(alloc, lines)?;
    expect_text_from(rt, alloc, &document, &script, None, &wanted)
}

/// The script that registers the buffers and then has these lines, each with an audit behind it, and its
/// text.
fn audited(alloc: Global, lines: &[(&str, &str)]) -> Result<(String, String), Fail> {
    let mut script = String::from_str(alloc, PAIRS)?;
    let mut wanted = format!(in alloc; "{OK}{OK}{OK}")?;
    for (line, writes) in lines {
        writeln!(&mut script, "{line}\naudit")?;
        writeln!(&mut wanted, "{writes}equal")?;
    }
    Ok((script, wanted))
}

/// The same lines with calls of another partition before each, but for an `ops` line, which tells of the
/// call before it.
fn among_others(alloc: Global, lines: &[(&str, &str)]) -> Result<(String, String), Fail> {
    let mut script = String::from_str(alloc, PAIRS)?;
    let mut wanted = format!(in alloc; "{OK}{OK}{OK}")?;
    for (line, writes) in lines {
        if *line != "ops" {
            script.push_str(OF_ANOTHER_CALLER)?;
            wanted.push_str(TO_ANOTHER_CALLER)?;
        }
        writeln!(&mut script, "{line}")?;
        wanted.push_str(writes)?;
    }
    Ok((script, wanted))
}

pub(super) fn expect(rt: &impl Abort, alloc: Global, lines: &[(&str, &str)]) -> Result<(), Fail> {
    expect_with(rt, alloc, (16, 16), lines)
}

/// The table that the page hangs in is filled before it is linked.
#[test]
fn maps_what_is_retrieved(rt: HostRuntime) -> Result<(), Fail> {
    let operations = "ops 2\n\
        set 23 1 00400000800017ff\n\
        set 19 0 0000000040017003\n";
    let reached = "maps 8002 4\n\
        0080001000 1 rw- normal\n\
        00a0000000 512 rw- normal\n\
        00b0000000 2 rw- normal\n\
        00d0000000 1 r-- normal\n";
    let lines = [
        (LEND, FIRST),
        (GET, RESPONSE),
        ("ops", operations),
        ("maps 8002", reached),
    ];
    expect(&rt, rt.alloc(), &lines)
}

const TWO_RANGES: &str =
    "reply 84000075 00000070 00000070 00000000 00000000 00000000 00000000 00000000\n\
    rx 01802f00100000000100000001800000000000000000000010000000010000003000000000000000\
    00000000000000000280060040000000000000000000000000020000020000000000000000000000\
    0000008000000000000100000000000000001080000000000001000000000000\n";

/// Ranges that touch make one block, and no level 3 table.
#[test]
fn joins_ranges_to_a_block(rt: HostRuntime) -> Result<(), Fail> {
    let tables = "tables 8002 4\n\
        L1 0080000000 table\n\
        L2 0080000000 00400000800007fd\n\
        L2 00a0000000 00400000a00007fd\n\
        L2 00b0000000 table\n\
        L3 00b0000000 00400000b00007ff\n\
        L3 00b0001000 00400000b00017ff\n\
        L1 00c0000000 table\n\
        L2 00d0000000 table\n\
        L3 00d0000000 00400000d000077f\n";
    let lines = [
        ("lend 8001 0 8002:02 80000000+256,80100000+256", FIRST),
        (GET, TWO_RANGES),
        ("tables 8002", tables),
    ];
    expect(&rt, rt.alloc(), &lines)
}

const SECOND_LEND: &str = "retrieve 8002 800100000002 8001 0 2 02";

const SECOND_RESPONSE: &str =
    "reply 84000075 00000060 00000060 00000000 00000000 00000000 00000000 00000000\n\
    rx 01802f00100000000200000001800000000000000000000010000000010000003000000000000000\
    00000000000000000280060040000000000000000000000001000000010000000000000000000000\
    00200080000000000100000000000000\n";

/// RX is filled again only after it was released.
#[test]
fn waits_for_rx(rt: HostRuntime) -> Result<(), Fail> {
    let release = "call 8002 84000065";
    let lines = [
        (LEND, FIRST),
        (GET, RESPONSE),
        ("lend 8001 0 8002:02 80002000+1", SECOND),
        (SECOND_LEND, BUSY),
        (release, OK),
        (SECOND_LEND, SECOND_RESPONSE),
        (release, OK),
        (release, DENIED),
    ];
    expect(&rt, rt.alloc(), &lines)
}

/// A second retrieve is refused before RX is looked at, and one that is no receiver learns nothing.
#[test]
fn tells_a_stranger_nothing(rt: HostRuntime) -> Result<(), Fail> {
    let lines = [
        (LEND, FIRST),
        (GET, RESPONSE),
        (GET, DENIED),
        ("retrieve 8003 800100000001 8001 0 2 02", INVALID),
        ("retrieve 8003 800100000099 8001 0 2 02", INVALID),
        ("relinquish 8003 800100000001", INVALID),
        ("relinquish 8003 800100000099", INVALID),
        ("relinquish 8001 800100000001", INVALID),
    ];
    expect(&rt, rt.alloc(), &lines)
}

pub(super) const GIVEN: &str =
    "reply 84000075 00000060 00000060 00000000 00000000 00000000 00000000 00000000\n\
    rx 01802f00180000000100000001800000000000000000000010000000010000003000000000000000\
    00000000000000000280050040000000000000000000000001000000010000000000000000000000\
    00100080000000000100000000000000\n";

const GIVEN_BACK: &str =
    "reply 84000075 00000060 00000060 00000000 00000000 00000000 00000000 00000000\n\
    rx 02802f00180000000100000002800000000000000000000010000000010000003000000000000000\
    00000000000000000180050040000000000000000000000001000000010000000000000000000000\
    00100080000000000100000000000000\n";

/// A donation that was taken read-only and is donated back stays read-only.
#[test]
fn completes_donations(rt: HostRuntime) -> Result<(), Fail> {
    let second = "reply 84000061 00000000 00000001 00008002 00000000 00000000 00000000 00000000\n";
    let reached = "maps 8001 6\n\
        0009000000 1 rw- device\n\
        0080000000 1 rwx normal\n\
        0080001000 1 r-- normal\n\
        0080002000 1022 rwx normal\n\
        0090000000 2 rw- normal\n\
        00d0000000 1 rw- normal\n";
    let lines = [
        ("donate 8001 0 8002:00 80001000+1", FIRST),
        ("retrieve 8002 800100000001 8001 0 3 01", GIVEN),
        ("reclaim 8001 800100000001", INVALID),
        ("donate 8002 0 8001:00 80001000+1", second),
        ("retrieve 8001 800200000001 8002 0 3 00", GIVEN_BACK),
        ("maps 8001", reached),
    ];
    expect(&rt, rt.alloc(), &lines)
}

/// The script of the whole life of a lend, and its text.
pub(super) fn whole_life(alloc: Global) -> Result<(String, String), Fail> {
    let operations = "ops 3\n\
        set 19 0 0000000000000000\n\
        inv 8002 0080000000 512\n\
        set 23 1 0000000000000000\n";
    let reclaim = "reclaim 8001 800100000001";
    let lines = [
        (LEND, FIRST),
        (GET, RESPONSE),
        (reclaim, DENIED),
        ("relinquish 8002 800100000001", OK),
        ("ops", operations),
        (reclaim, OK),
        (reclaim, INVALID),
        ("maps 8001", MAPS),
        ("tables 8001", BOOT),
    ];
    audited(alloc, &lines)
}

/// A lend is reclaimed once it is given back, and all is as at boot.
#[test]
fn returns_what_was_lent(rt: HostRuntime) -> Result<(), Fail> {
    let alloc = rt.alloc();
    let (script, wanted) = whole_life(alloc)?;
    expect_text(&rt, alloc, &script, None, &wanted)
}

const OF_TWO: &str =
    "reply 84000075 00000060 00000060 00000000 00000000 00000000 00000000 00000000\n\
    rx 01802f00100000000100000001800000000000000000000010000000010000003000000000000000\
    00000000000000000280060040000000000000000000000001000000010000000000000000000000\
    00002080000000000100000000000000\n";

const OF_TWO_TO_ANOTHER: &str =
    "reply 84000075 00000060 00000060 00000000 00000000 00000000 00000000 00000000\n\
    rx 01802f00100000000100000001800000000000000000000010000000010000003000000000000000\
    00000000000000000380060040000000000000000000000001000000010000000000000000000000\
    00002080000000000100000000000000\n";

/// Who owns which pages at boot.
const OWNERS: &str = "owners 7\n\
    0009000000 1 8001 rw- device\n\
    0080000000 1024 8001 rwx normal\n\
    0090000000 2 8001 rw- normal\n\
    00a0000000 512 8002 rw- normal\n\
    00b0000000 2 8002 rw- normal\n\
    00c0000000 2 8003 rw- normal\n\
    00d0000000 1 8001 rw- normal\n";

/// Two receivers of one lend both write its page. Each says that it does not name the other.
#[test]
fn lends_to_two(rt: HostRuntime) -> Result<(), Fail> {
    let reached = "maps 8002 4\n\
        0080200000 1 rw- normal\n\
        00a0000000 512 rw- normal\n\
        00b0000000 2 rw- normal\n\
        00d0000000 1 r-- normal\n\
        maps 8003 2\n\
        0080200000 1 rw- normal\n\
        00c0000000 2 rw- normal\n";
    let lines = [
        ("lend 8001 0 8002:02,8003:02 80200000+1", FIRST),
        (GET, INVALID),
        ("retrieve 8002 800100000001 8001 0 2 02 alone", OF_TWO),
        (
            "retrieve 8003 800100000001 8001 0 0 00 alone",
            OF_TWO_TO_ANOTHER,
        ),
        ("maps 8002\nmaps 8003", reached),
        ("owners", OWNERS),
        ("relinquish 8002 800100000001 zero", DENIED),
    ];
    expect(&rt, rt.alloc(), &lines)
}

const TO_EXECUTE: &str =
    "reply 84000075 00000060 00000060 00000000 00000000 00000000 00000000 00000000\n\
    rx 01802f00100000000100000001800000000000000000000010000000010000003000000000000000\
    00000000000000000280090040000000000000000000000001000000010000000000000000000000\
    00100080000000000100000000000000\n";

/// What is executed is not written.
#[test]
fn executes_what_is_read_only(rt: HostRuntime) -> Result<(), Fail> {
    let tables = "tables 8002 5\n\
        L1 0080000000 table\n\
        L2 0080000000 table\n\
        L3 0080001000 000000008000177f\n\
        L2 00a0000000 00400000a00007fd\n\
        L2 00b0000000 table\n\
        L3 00b0000000 00400000b00007ff\n\
        L3 00b0001000 00400000b00017ff\n\
        L1 00c0000000 table\n\
        L2 00d0000000 table\n\
        L3 00d0000000 00400000d000077f\n";
    let lines = [
        (LEND, FIRST),
        ("retrieve 8002 800100000001 8001 0 2 0a", DENIED),
        ("retrieve 8002 800100000001 8001 0 2 09", TO_EXECUTE),
        ("tables 8002", tables),
    ];
    expect(&rt, rt.alloc(), &lines)
}

/// A request with another tag or type, or for more than was shared, changes nothing.
#[test]
fn refuses_what_was_not_shared(rt: HostRuntime) -> Result<(), Fail> {
    let lines = [
        ("share 8001 5 8002:01 80000000+1", FIRST),
        ("ops", "ops 0\n"),
        ("retrieve 8002 800100000001 8001 4 1 01", INVALID),
        ("retrieve 8002 800100000001 8001 5 2 01", INVALID),
        ("retrieve 8002 800100000001 8003 5 1 01", INVALID),
        ("retrieve 8002 800100000001 8001 5 1 02", DENIED),
        ("relinquish 8002 800100000001", DENIED),
        ("maps 8001", MAPS),
    ];
    expect(&rt, rt.alloc(), &lines)
}

const RESPONSE_1_0: &str =
    "reply 84000075 00000050 00000050 00000000 00000000 00000000 00000000 00000000\n\
    rx 01802f00100000000100000001800000000000000000000000000000010000000280060030000000\
    00000000000000000100000001000000000000000000000000100080000000000100000000000000\n";

/// The response has the layout of its receiver's version.
#[test]
fn responds_in_the_layout_of_the_version(rt: HostRuntime) -> Result<(), Fail> {
    let named = "reply 00010001 00000000 00000000 00000000 00000000 00000000 00000000 00000000\n";
    let lines = [
        ("call 8002 84000063 10000", named),
        (LEND, FIRST),
        (GET, RESPONSE_1_0),
    ];
    expect(&rt, rt.alloc(), &lines)
}

const HALF: &str = "reply 84000075 00000060 00000060 00000000 00000000 00000000 00000000 00000000\n\
    rx 01802f00100000000100000001800000000000000000000010000000010000003000000000000000\
    00000000000000000280060040000000000000000000000000010000010000000000000000000000\
    00000080000000000001000000000000\n";

const OTHER_HALF: &str =
    "reply 84000075 00000060 00000060 00000000 00000000 00000000 00000000 00000000\n\
    rx 01802f00100000000200000001800000000000000000000010000000010000003000000000000000\
    00000000000000000280060040000000000000000000000000010000010000000000000000000000\
    00001080000000000001000000000000\n";

const NEXT_PAGE: &str =
    "reply 84000075 00000060 00000060 00000000 00000000 00000000 00000000 00000000\n\
    rx 01802f00100000000300000001800000000000000000000010000000010000003000000000000000\
    00000000000000000280060040000000000000000000000001000000010000000000000000000000\
    00002080000000000100000000000000\n";

/// A block that a relinquish would split is split only where the quota has a table for it.
#[test]
fn splits_no_block_beyond_the_quota(rt: HostRuntime) -> Result<(), Fail> {
    let third = "reply 84000061 00000000 00000003 00008001 00000000 00000000 00000000 00000000\n";
    let release = "call 8002 84000065";
    let lines = [
        ("lend 8001 0 8002:02 80000000+256", FIRST),
        ("lend 8001 0 8002:02 80100000+256", SECOND),
        ("lend 8001 0 8002:02 80200000+1", third),
        (GET, HALF),
        (release, OK),
        (SECOND_LEND, OTHER_HALF),
        (release, OK),
        ("retrieve 8002 800100000003 8001 0 2 02", NEXT_PAGE),
        (release, OK),
        ("relinquish 8002 800100000001", NO_MEMORY),
        ("relinquish 8002 800100000003", OK),
        ("relinquish 8002 800100000001", OK),
    ];
    expect_with(&rt, rt.alloc(), (16, 5), &lines)
}

const FOUR_GIVEN: &str =
    "reply 84000075 00000060 00000060 00000000 00000000 00000000 00000000 00000000\n\
    rx 01802f00180000000100000001800000000000000000000010000000010000003000000000000000\
    00000000000000000280060040000000000000000000000004000000010000000000000000000000\
    00000080000000000400000000000000\n";

const ONE_GIVEN_BACK: &str =
    "reply 84000075 00000060 00000060 00000000 00000000 00000000 00000000 00000000\n\
    rx 02802f00180000000100000002800000000000000000000010000000010000003000000000000000\
    00000000000000000180060040000000000000000000000001000000010000000000000000000000\
    00100080000000000100000000000000\n";

/// Each page is its last taker's.
#[test]
fn names_the_owners(rt: HostRuntime) -> Result<(), Fail> {
    let second = "reply 84000061 00000000 00000001 00008002 00000000 00000000 00000000 00000000\n";
    let owners = "owners 10\n\
        0009000000 1 8001 rw- device\n\
        0080000000 1 8002 rw- normal\n\
        0080001000 1 8001 rw- normal\n\
        0080002000 2 8002 rw- normal\n\
        0080004000 1020 8001 rwx normal\n\
        0090000000 2 8001 rw- normal\n\
        00a0000000 512 8002 rw- normal\n\
        00b0000000 2 8002 rw- normal\n\
        00c0000000 2 8003 rw- normal\n\
        00d0000000 1 8001 rw- normal\n";
    let lines = [
        ("owners", OWNERS),
        ("donate 8001 0 8002:00 80000000+4", FIRST),
        ("retrieve 8002 800100000001 8001 0 3 00", FOUR_GIVEN),
        ("donate 8002 0 8001:00 80001000+1", second),
        ("retrieve 8001 800200000001 8002 0 3 00", ONE_GIVEN_BACK),
        ("owners", owners),
    ];
    expect(&rt, rt.alloc(), &lines)
}
