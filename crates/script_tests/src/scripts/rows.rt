//! Sends of the common manifest's partitions.

use super::retrieves::{DENIED, FIRST, INVALID, LEND, OK, expect};
use std::test::Fail;

#[test]
fn lends_a_page(rt: HostRuntime) -> Result<(), Fail> {
    let reached = "maps 8001 5\n\
        0009000000 1 rw- device\n\
        0080000000 511 rwx normal\n\
        0080201000 511 rwx normal\n\
        0090000000 2 rw- normal\n\
        00d0000000 1 rw- normal\n";
    let across_two_chunks = [
        ("lend 8001 0 8002:02 801ff000+2", FIRST),
        ("maps 8001", reached),
    ];
    expect(&rt, rt.alloc(), &[(LEND, FIRST)])?;
    expect(&rt, rt.alloc(), &across_two_chunks)
}

/// No sum of an address and a count wraps. The largest transaction is a descriptor, but not all of its
/// pages are the caller's.
#[test]
fn lends_no_more_than_there_is(rt: HostRuntime) -> Result<(), Fail> {
    let lines = [
        ("lend 8001 0 8002:02 fffffffffffff000+2", INVALID),
        ("lend 8001 0 8002:02 80000000+262145", INVALID),
        ("lend 8001 0 8002:02 80000000+262144", DENIED),
        (LEND, FIRST),
    ];
    expect(&rt, rt.alloc(), &lines)
}

/// A page with two grants, one of a device, and a buffer.
#[test]
fn sends_no_page_that_is_not_free(rt: HostRuntime) -> Result<(), Fail> {
    let lines = [
        ("share 8001 0 8002:01 d0000000+1", DENIED),
        ("lend 8001 0 8002:02 9000000+1", DENIED),
        ("share 8001 0 8002:01 90000000+1", DENIED),
        ("call 8001 84000067", OK),
        ("share 8001 0 8002:01 90000000+1", INVALID),
    ];
    expect(&rt, rt.alloc(), &lines)
}

/// A whole descriptor is asked for, in one fragment; refused calls use no number.
#[test]
fn takes_whole_descriptors(rt: HostRuntime) -> Result<(), Fail> {
    let lines = [
        (
            "tx 8001 0180000000000000000000000000000000000000000000001000000001000000\
            3000000000000000000000000000000002800200400000000000000000000000\
            0100000001000000000000000000000000100080000000000100000000000000",
            "",
        ),
        ("call 8001 84000072 2f 2f", INVALID),
        ("call 8001 84000072 5f 5f", INVALID),
        ("call 8001 84000072 60 5f", INVALID),
        ("call 8001 84000072 60 60", FIRST),
    ];
    expect(&rt, rt.alloc(), &lines)
}
