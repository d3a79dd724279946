//! Pages that are cleared: where a call orders it, once nobody reaches them.

use super::operations::push_split;
use super::reclaims::write_zeros;
use super::retrieves::{DENIED, FIRST, GET, GIVEN, INVALID, LEND, OK, RESPONSE, expect};
use std::test::Fail;

/// The last operation of a send, and the first of a reclaim.
#[test]
fn clears_what_is_lent_and_taken_back(rt: HostRuntime) -> Result<(), Fail> {
    let alloc = rt.alloc();
    let mut lent = String::from_str(alloc, "ops 515\n")?;
    push_split(&mut lent, 5, 9, 0, 0x8000_0000, 1)?;
    lent.push_str("clear 0080001000 1\n")?;
    let mut returned = String::from_str(
        alloc,
        "ops 515\n\
        clear 0080001000 1\n\
        set 5 0 0000000000000000\n\
        inv 8001 0080000000 512\n\
        set 5 0 00000000800007fd\n",
    )?;
    write_zeros(&mut returned)?;
    let lines = [
        ("lend 8001 0 8002:02 80001000+1 zero", FIRST),
        ("ops", lent.as_str()),
        ("reclaim 8001 800100000001 zero", OK),
        ("ops", returned.as_str()),
    ];
    expect(&rt, alloc, &lines)
}

/// The only receiver of a lend gives it back cleared.
#[test]
fn clears_what_is_given_back(rt: HostRuntime) -> Result<(), Fail> {
    let operations = "ops 4\n\
        set 19 0 0000000000000000\n\
        inv 8002 0080000000 512\n\
        set 23 1 0000000000000000\n\
        clear 0080001000 1\n";
    let lines = [
        (LEND, FIRST),
        (GET, RESPONSE),
        ("relinquish 8002 800100000001 zero", OK),
        ("ops", operations),
        ("reclaim 8001 800100000001", OK),
    ];
    expect(&rt, rt.alloc(), &lines)
}

/// Ranges that touch are cleared as one run.
#[test]
fn clears_a_maximal_run(rt: HostRuntime) -> Result<(), Fail> {
    let operations = "ops 3\n\
        set 5 1 0000000000000000\n\
        inv 8001 0080200000 512\n\
        clear 0080200000 512\n";
    let lines = [
        ("lend 8001 0 8002:02 80300000+256,80200000+256 zero", FIRST),
        ("ops", operations),
    ];
    expect(&rt, rt.alloc(), &lines)
}

/// What 0x8002 retrieves of a lend to read it.
const READ_ONLY: &str =
    "reply 84000075 00000060 00000060 00000000 00000000 00000000 00000000 00000000\n\
    rx 01802f00100000000100000001800000000000000000000010000000010000003000000000000000\
    00000000000000000280050040000000000000000000000001000000010000000000000000000000\
    00100080000000000100000000000000\n";

/// A receiver that may not write does not clear.
#[test]
fn clears_nothing_that_is_read_only(rt: HostRuntime) -> Result<(), Fail> {
    let lines = [
        ("lend 8001 0 8002:01 80001000+1", FIRST),
        ("retrieve 8002 800100000001 8001 0 2 01", READ_ONLY),
        ("relinquish 8002 800100000001 zero", DENIED),
        ("relinquish 8002 800100000001", OK),
    ];
    expect(&rt, rt.alloc(), &lines)
}

/// The first handle of 0x8002.
const OF_ANOTHER: &str =
    "reply 84000061 00000000 00000001 00008002 00000000 00000000 00000000 00000000\n";

/// Nor does an owner whose home is read-only.
#[test]
fn clears_no_read_only_home(rt: HostRuntime) -> Result<(), Fail> {
    let lines = [
        ("donate 8001 0 8002:00 80001000+1 zero", FIRST),
        ("retrieve 8002 800100000001 8001 0 3 01", GIVEN),
        ("lend 8002 0 8003:01 80001000+1 zero", DENIED),
        ("lend 8002 0 8003:01 80001000+1", OF_ANOTHER),
        ("reclaim 8002 800200000001 zero", DENIED),
        ("reclaim 8002 800200000001", OK),
    ];
    expect(&rt, rt.alloc(), &lines)
}

/// What is shared is cleared neither by the sender, nor when it ends.
#[test]
fn clears_nothing_that_is_shared(rt: HostRuntime) -> Result<(), Fail> {
    let lines = [
        ("share 8001 0 8002:02 80001000+1 zero", INVALID),
        ("share 8001 0 8002:02 80001000+1", FIRST),
        ("reclaim 8001 800100000001 zero", DENIED),
        ("call 8001 84000077 1 8001 2", INVALID),
        ("ops", "ops 0\n"),
    ];
    expect(&rt, rt.alloc(), &lines)
}
