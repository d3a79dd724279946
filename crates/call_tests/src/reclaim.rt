use crate::testing::{
    DENIED, INVALID_PARAMETERS, LEND_ID, SHARE_ID, SendCase, answer_sends, grant, refuse, views,
    with_pair,
};
use base::OutOfMemory;
use pool::{ListPool, TableMem};
use spm::{Call, Spm};
use std::alloc::Global;
use std::process::Abort;
use std::test::Fail;

/// Why, the caller, the two halves of the handle, the flags, and whether the reclaim is granted or
/// refused with a status.
type ReclaimCase = (&'static str, u16, [u64; 2], u64, Result<(), u64>);

/// The first lend is not reclaimed but by its sender, once, and with no reserved flag.
const RECLAIMS: [ReclaimCase; 6] = [
    (
        "a reserved flag",
        0x8001,
        [1, 0x8001],
        2,
        Err(INVALID_PARAMETERS),
    ),
    (
        "a count that was not used",
        0x8001,
        [2, 0x8001],
        0,
        Err(INVALID_PARAMETERS),
    ),
    (
        "a sender of no transaction",
        0x8001,
        [1, 0x8002],
        0,
        Err(INVALID_PARAMETERS),
    ),
    (
        "the receiver",
        0x8002,
        [1, 0x8001],
        0,
        Err(INVALID_PARAMETERS),
    ),
    ("the sender", 0x8001, [1, 0x8001], 0, Ok(())),
    (
        "the same reclaim",
        0x8001,
        [1, 0x8001],
        0,
        Err(INVALID_PARAMETERS),
    ),
];

const FIRST: [SendCase<'static>; 1] = [("a lend", LEND_ID, &[], Ok(1))];

/// The page may be sent again, with a new handle.
const AGAIN: [SendCase<'static>; 2] = [
    ("a share", SHARE_ID, &[(2, 0x2f), (50, 1)], Ok(2)),
    ("a lend of it", LEND_ID, &[], Err(DENIED)),
];

/// The share's page was never taken away.
const SHARED: [ReclaimCase; 2] = [
    ("a share to be cleared", 0x8001, [2, 0x8001], 1, Err(DENIED)),
    ("a share", 0x8001, [2, 0x8001], 0, Ok(())),
];

/// FFA_MEM_RECLAIM with registers 1 to 3.
fn reclaim(alloc: Global, caller: u16, halves: [u64; 2], flags: u64) -> Call {
    let [low, high] = halves;
    Call {
        caller,
        regs: [0x8400_0077, low, high, flags, 0, 0, 0, 0],
        tx: Vec::new(alloc),
    }
}

/// The reclaims come in order, and each is answered so.
fn answer_reclaims<M: TableMem + Drop>(
    rt: &impl Abort,
    alloc: Global,
    spm: &mut Spm<M>,
    reclaims: &[ReclaimCase],
) -> Result<(), OutOfMemory> {
    for (why, caller, halves, flags, reply) in reclaims {
        let call = reclaim(alloc, *caller, *halves, *flags);
        match *reply {
            Ok(()) => grant(rt, spm, &call, [0, 0], why)?,
            Err(status) => refuse(rt, spm, &call, status, why)?,
        }
    }
    Ok(())
}

/// After it all pages are reached as before.
fn reclaim_page<M: TableMem + Drop>(
    rt: &impl Abort,
    alloc: Global,
    spm: &mut Spm<M>,
) -> Result<(), OutOfMemory> {
    let before = views(spm);
    answer_sends(rt, alloc, spm, &FIRST)?;
    answer_reclaims(rt, alloc, spm, &RECLAIMS)?;
    assert_eq!(rt; views(spm), before);
    answer_sends(rt, alloc, spm, &AGAIN)
}

/// A share is reclaimed without an edit.
fn reclaim_share<M: TableMem + Drop>(
    rt: &impl Abort,
    alloc: Global,
    spm: &mut Spm<M>,
) -> Result<(), OutOfMemory> {
    let made = spm.made();
    answer_reclaims(rt, alloc, spm, &SHARED)?;
    assert_eq!(rt; spm.made(), made);
    assert!(rt; spm.ledger().live().is_empty());
    Ok(())
}

fn reclaim_both<M: TableMem + Drop>(
    rt: &impl Abort,
    alloc: Global,
    spm: &mut Spm<M>,
) -> Result<(), OutOfMemory> {
    reclaim_page(rt, alloc, spm)?;
    reclaim_share(rt, alloc, spm)
}

fn reclaim_all<M: TableMem + Drop>(rt: &impl Abort, alloc: Global) -> Result<(), OutOfMemory> {
    let mut spm: Spm<M> = with_pair(rt, alloc)?;
    reclaim_both(rt, alloc, &mut spm)
}

#[test]
fn reclaims_pages(rt: HostRuntime) -> Result<(), Fail> {
    reclaim_all::<ListPool>(&rt, rt.alloc())?;
    Ok(())
}
