use crate::testing::{
    DENIED, FIRST_PAIR, INVALID_PARAMETERS, MapCase, SECOND_PAIR, answer_maps, booted, grant, map,
};
use base::OutOfMemory;
use pool::{ListPool, TableMem};
use spm::Spm;
use std::alloc::Global;
use std::process::Abort;
use std::test::Fail;

/// The areas are no pair, or their pages may be no buffers. The areas of a pair may touch, and a
/// second map is refused before its areas are looked at.
const MAPS: [MapCase<'static>; 15] = [
    (
        "no page",
        [0x9000_0000, 0x9000_1000, 0],
        Err(INVALID_PARAMETERS),
    ),
    (
        "nine pages",
        [0x8000_0000, 0x8001_0000, 9],
        Err(INVALID_PARAMETERS),
    ),
    (
        "TX inside a page",
        [0x9000_0800, 0x9000_1000, 1],
        Err(INVALID_PARAMETERS),
    ),
    (
        "RX inside a page",
        [0x9000_0000, 0x9000_1800, 1],
        Err(INVALID_PARAMETERS),
    ),
    (
        "one area",
        [0x9000_0000, 0x9000_0000, 1],
        Err(INVALID_PARAMETERS),
    ),
    (
        "a page in both",
        [0x8000_0000, 0x8000_7000, 8],
        Err(INVALID_PARAMETERS),
    ),
    (
        "the same, RX first",
        [0x8000_7000, 0x8000_0000, 8],
        Err(INVALID_PARAMETERS),
    ),
    ("TX of another", [0xa000_0000, 0x9000_1000, 1], Err(DENIED)),
    ("RX of another", [0x9000_0000, 0xa000_0000, 1], Err(DENIED)),
    (
        "RX half outside",
        [0x8000_0000, 0x9000_1000, 2],
        Err(DENIED),
    ),
    (
        "a page of two grants",
        [0xd000_0000, 0x9000_1000, 1],
        Err(DENIED),
    ),
    ("device memory", [0x9000_0000, 0x0900_0000, 1], Err(DENIED)),
    (
        "areas that touch",
        [0x2_8000_8000, 0x3_8000_0000, 0x4_0000_0008],
        Ok(()),
    ),
    ("a second map", FIRST_PAIR, Err(DENIED)),
    ("the same, no page", [0, 0, 0], Err(DENIED)),
];

/// Another partition has a pair of its own. The low half of register 0 counts.
fn map_another<M: TableMem + Drop>(
    rt: &impl Abort,
    alloc: Global,
    spm: &mut Spm<M>,
) -> Result<(), OutOfMemory> {
    let mut call = map(alloc, 0x8002, SECOND_PAIR);
    call.regs[0] = 0x1_8400_0066;
    grant(rt, spm, &call, [0, 0], "the pair of another")
}

fn answer_pairs<M: TableMem + Drop>(
    rt: &impl Abort,
    alloc: Global,
    spm: &mut Spm<M>,
) -> Result<(), OutOfMemory> {
    answer_maps(rt, alloc, spm, &MAPS)?;
    map_another(rt, alloc, spm)
}

fn map_pairs<M: TableMem + Drop>(rt: &impl Abort, alloc: Global) -> Result<(), OutOfMemory> {
    let mut spm: Spm<M> = booted(alloc)?;
    answer_pairs(rt, alloc, &mut spm)
}

#[test]
fn registers_one_pair(rt: HostRuntime) -> Result<(), Fail> {
    map_pairs::<ListPool>(&rt, rt.alloc())?;
    Ok(())
}
