use crate::testing::{
    DENIED, DONATE_ID, FIRST_PAIR, INVALID_PARAMETERS, LEND, LEND_ID, NO_MEMORY, SECOND_PAIR,
    SHARE_ID, SendCase, answer_maps, answer_sends, booted, changed, counts, grant, lend, map,
    refuse, send, views, with_gap, with_pair, with_part,
};
use base::{Access, Handle, Kind, OutOfMemory, Page, PartitionId, Rights, Run};
use ledger::{Live, Receiver};
use pool::{ListPool, TableMem};
use spm::Spm;
use std::alloc::Global;
use std::process::Abort;
use std::test::Fail;

/// Changes of the descriptor that make it none of a send, and one that is a send of other bytes.
const FIELDS: [SendCase<'static>; 5] = [
    (
        "attributes 0x2e",
        LEND_ID,
        &[(2, 0x2e)],
        Err(INVALID_PARAMETERS),
    ),
    (
        "data access 3",
        LEND_ID,
        &[(50, 3)],
        Err(INVALID_PARAMETERS),
    ),
    (
        "a total of two pages",
        LEND_ID,
        &[(64, 2)],
        Err(INVALID_PARAMETERS),
    ),
    (
        "an address inside a page",
        LEND_ID,
        &[(81, 0x18)],
        Err(INVALID_PARAMETERS),
    ),
    ("another receiver", LEND_ID, &[(48, 3)], Ok(1)),
];

/// What the descriptor says of the parties and of their permissions is not a lend's.
const TERMS: [SendCase<'static>; 7] = [
    (
        "another sender",
        LEND_ID,
        &[(0, 2)],
        Err(INVALID_PARAMETERS),
    ),
    (
        "the sender as receiver",
        LEND_ID,
        &[(48, 1)],
        Err(INVALID_PARAMETERS),
    ),
    (
        "a receiver without a row",
        LEND_ID,
        &[(48, 9)],
        Err(INVALID_PARAMETERS),
    ),
    ("attributes", LEND_ID, &[(2, 0x2f)], Err(INVALID_PARAMETERS)),
    (
        "no data access",
        LEND_ID,
        &[(50, 0)],
        Err(INVALID_PARAMETERS),
    ),
    (
        "instruction access",
        LEND_ID,
        &[(50, 6)],
        Err(INVALID_PARAMETERS),
    ),
    ("read-only", LEND_ID, &[(50, 1)], Ok(1)),
];

/// A page of the send is not free for the sender.
const PAGES: [SendCase<'static>; 11] = [
    ("a page", LEND_ID, &[], Ok(1)),
    ("a page that is lent", LEND_ID, &[], Err(DENIED)),
    (
        "and the one below",
        LEND_ID,
        &[(64, 2), (81, 0), (88, 2)],
        Err(DENIED),
    ),
    (
        "a page of another",
        LEND_ID,
        &[(81, 0), (83, 0xa0)],
        Err(DENIED),
    ),
    ("TX", LEND_ID, &[(81, 0), (83, 0x90)], Err(DENIED)),
    ("RX", LEND_ID, &[(83, 0x90)], Err(DENIED)),
    ("device memory", LEND_ID, &[(81, 0), (83, 9)], Err(DENIED)),
    (
        "a page of two grants",
        LEND_ID,
        &[(81, 0), (83, 0xd0)],
        Err(DENIED),
    ),
    (
        "a page outside all regions",
        LEND_ID,
        &[(83, 0xd0)],
        Err(DENIED),
    ),
    (
        "262,144 pages",
        LEND_ID,
        &[(64, 0), (66, 4), (81, 0x20), (88, 0), (90, 4)],
        Err(DENIED),
    ),
    (
        "the two above",
        LEND_ID,
        &[(64, 2), (81, 0x20), (88, 2)],
        Ok(2),
    ),
];

/// What the descriptor says is not a donation's, or the page is not free.
const DONATIONS: [SendCase<'static>; 6] = [
    (
        "attributes",
        DONATE_ID,
        &[(2, 0x2f), (50, 0)],
        Err(INVALID_PARAMETERS),
    ),
    ("data access", DONATE_ID, &[], Err(INVALID_PARAMETERS)),
    (
        "instruction access",
        DONATE_ID,
        &[(50, 4)],
        Err(INVALID_PARAMETERS),
    ),
    ("a page", DONATE_ID, &[(50, 0)], Ok(1)),
    ("the same donation", DONATE_ID, &[(50, 0)], Err(DENIED)),
    ("a lend of it", LEND_ID, &[], Err(DENIED)),
];

/// Shares of page 0x80000 of 0x8001, read-only for 0x8002, with tag 5.
const SHARES: [SendCase<'static>; 10] = [
    (
        "a clear",
        SHARE_ID,
        &[(2, 0x2f), (4, 1), (50, 1), (81, 0)],
        Err(INVALID_PARAMETERS),
    ),
    (
        "no attributes",
        SHARE_ID,
        &[(50, 1), (81, 0)],
        Err(INVALID_PARAMETERS),
    ),
    (
        "no data access",
        SHARE_ID,
        &[(2, 0x2f), (50, 0), (81, 0)],
        Err(INVALID_PARAMETERS),
    ),
    (
        "instruction access",
        SHARE_ID,
        &[(2, 0x2f), (50, 5), (81, 0)],
        Err(INVALID_PARAMETERS),
    ),
    (
        "a page of two grants",
        SHARE_ID,
        &[(2, 0x2f), (50, 1), (81, 0), (83, 0xd0)],
        Err(DENIED),
    ),
    (
        "the TX buffer",
        SHARE_ID,
        &[(2, 0x2f), (50, 1), (81, 0), (83, 0x90)],
        Err(DENIED),
    ),
    (
        "a page",
        SHARE_ID,
        &[(2, 0x2f), (16, 5), (50, 1), (81, 0)],
        Ok(1),
    ),
    (
        "the same share",
        SHARE_ID,
        &[(2, 0x2f), (16, 5), (50, 1), (81, 0)],
        Err(DENIED),
    ),
    ("a lend of it", LEND_ID, &[(81, 0)], Err(DENIED)),
    (
        "another page, read-write",
        SHARE_ID,
        &[(2, 0x2f), (16, 5), (81, 0x20)],
        Ok(2),
    ),
];

/// What the registers say of the descriptor's length is wrong.
const LENGTHS: [(&str, [u64; 4]); 7] = [
    ("an address in register 3", [0x60, 0x60, 0x1000, 0]),
    ("a page count in register 4", [0x60, 0x60, 0, 1]),
    ("a fragment", [0x60, 0x50, 0, 0]),
    ("more than the total", [0x60, 0x70, 0, 0]),
    ("a byte too few", [0x5f, 0x5f, 0, 0]),
    ("more than the bytes", [0x61, 0x61, 0, 0]),
    ("nothing", [0, 0, 0, 0]),
];

const UNPAIRED: [SendCase<'static>; 1] = [("no pair", LEND_ID, &[], Err(INVALID_PARAMETERS))];

const RECORDED: [SendCase<'static>; 1] = [("tag 7", LEND_ID, &[(16, 7)], Ok(1))];

const ONE_MORE: [SendCase<'static>; 1] = [(
    "one lend more",
    LEND_ID,
    &[(81, 0), (82, 2)],
    Err(NO_MEMORY),
)];

/// A lent page leaves its owner's view, and stays its own. A refused send uses no number.
fn lend_page<M: TableMem + Drop>(
    rt: &impl Abort,
    alloc: Global,
    spm: &mut Spm<M>,
) -> Result<(), OutOfMemory> {
    let rwx = Access::normal(Rights::Rw, true);
    assert_eq!(rt; views(spm), [Some(rwx), Some(rwx), None]);
    answer_sends(rt, alloc, spm, &PAGES)?;
    assert_eq!(rt; views(spm), [Some(rwx), None, None]);
    let owner = spm.owner(Page::new(0x8_0001));
    assert_eq!(rt; owner, Some(PartitionId::new(0x8001)));
    Ok(())
}

/// The terms of the descriptor with tag 7.
fn has_terms(rt: &impl Abort, live: &Live) {
    assert_eq!(rt; live.handle, Handle::new(PartitionId::new(0x8001), 1));
    assert_eq!(rt; live.terms.kind, Kind::Lend);
    assert_eq!(rt; live.terms.sender, PartitionId::new(0x8001));
    assert_eq!(rt; live.terms.tag, 7);
    assert_eq!(rt; live.terms.home, Access::normal(Rights::Rw, true));
}

/// The page of the descriptor, and its receiver.
fn has_parts(rt: &impl Abort, live: &Live) {
    let range = Run::new(Page::new(0x8_0001), 1);
    let receiver = Receiver {
        partition: PartitionId::new(0x8002),
        cap: Rights::Rw,
        retrieved: None,
    };
    assert!(rt; live.terms.ranges.len() == 1 && live.terms.ranges[0] == range);
    assert!(rt; live.terms.receivers.len() == 1 && live.terms.receivers[0] == receiver);
}

fn is_recorded<M: TableMem + Drop>(rt: &impl Abort, spm: &Spm<M>) {
    let live = spm.ledger().live();
    assert_eq!(rt; live.len(), 1);
    let transaction = &live[0];
    has_terms(rt, transaction);
    has_parts(rt, transaction);
}

fn refuse_lengths<M: TableMem + Drop>(
    rt: &impl Abort,
    alloc: Global,
    spm: &mut Spm<M>,
) -> Result<(), OutOfMemory> {
    for (why, words) in &LENGTHS {
        let call = lend(*words, Vec::from_slice(alloc, &LEND)?);
        refuse(rt, spm, &call, INVALID_PARAMETERS, why)?;
    }
    Ok(())
}

/// A TX buffer of one page holds 4,096 bytes.
fn refuse_long_send<M: TableMem + Drop>(
    rt: &impl Abort,
    alloc: Global,
    spm: &mut Spm<M>,
) -> Result<(), OutOfMemory> {
    let call = lend([0x1010, 0x1010, 0, 0], with_gap(alloc, 0xff0)?);
    refuse(rt, spm, &call, INVALID_PARAMETERS, "longer than TX")
}

/// Bytes behind the length are not looked at.
fn lend_long<M: TableMem + Drop>(
    rt: &impl Abort,
    alloc: Global,
    spm: &mut Spm<M>,
) -> Result<(), OutOfMemory> {
    let mut bytes = with_gap(alloc, 0xfe0)?;
    bytes.push(1)?;
    let call = lend([0x1000, 0x1000, 0, 0], bytes);
    grant(rt, spm, &call, [1, 0x8001], "as long as TX")
}

fn refuse_longer_send<M: TableMem + Drop>(
    rt: &impl Abort,
    alloc: Global,
    spm: &mut Spm<M>,
) -> Result<(), OutOfMemory> {
    let longer = with_part(rt, alloc, &LEND, 96, [0; 16])?;
    let call = lend([0x61, 0x61, 0, 0], longer);
    refuse(rt, spm, &call, INVALID_PARAMETERS, "a byte appended")
}

/// The descriptor cut short.
fn refuse_cut<M: TableMem + Drop>(
    rt: &impl Abort,
    alloc: Global,
    spm: &mut Spm<M>,
) -> Result<(), OutOfMemory> {
    for length in 0..96 {
        let bytes = Vec::from_slice(alloc, &LEND[..length])?;
        let call = lend([length as u64, length as u64, 0, 0], bytes);
        refuse(rt, spm, &call, INVALID_PARAMETERS, "cut short")?;
    }
    Ok(())
}

/// Each byte that must be 0 with each other value, but for the flag that orders a clear.
fn refuse_set<M: TableMem + Drop>(
    rt: &impl Abort,
    alloc: Global,
    spm: &mut Spm<M>,
) -> Result<(), OutOfMemory> {
    for zeros in [4..16, 36..48, 51..52, 56..64, 72..80, 92..96] {
        for at in zeros {
            let least = if at == 4 { 2 } else { 1 };
            refuse_values(rt, alloc, spm, at, least)?;
        }
    }
    Ok(())
}

fn refuse_values<M: TableMem + Drop>(
    rt: &impl Abort,
    alloc: Global,
    spm: &mut Spm<M>,
    at: usize,
    least: u8,
) -> Result<(), OutOfMemory> {
    for value in least..=255 {
        let call = send(rt, alloc, LEND_ID, &[(at, value)])?;
        refuse(rt, spm, &call, INVALID_PARAMETERS, "a byte that must be 0")?;
    }
    Ok(())
}

/// The access descriptor stands 16 bytes behind the header.
fn parts_apart(rt: &impl Abort, alloc: Global) -> Result<Vec<u8>, OutOfMemory> {
    let bytes = changed(rt, alloc, &[(32, 0x40), (52, 0x50)])?;
    with_part(rt, alloc, &bytes, 48, [0xff; 16])
}

fn two_receivers(rt: &impl Abort, alloc: Global) -> Result<Vec<u8>, OutOfMemory> {
    let bytes = changed(rt, alloc, &[(2, 0x2f), (28, 2), (52, 0x50), (81, 0x40)])?;
    let receiver = [3, 0x80, 2, 0, 0x50, 0, 0, 0, 0, 0, 0, 0, 0, 0, 0, 0];
    with_part(rt, alloc, &bytes, 64, receiver)
}

fn two_ranges(rt: &impl Abort, alloc: Global) -> Result<Vec<u8>, OutOfMemory> {
    let bytes = changed(rt, alloc, &[(64, 2), (68, 2), (81, 0x20)])?;
    let range = [0, 0x30, 0, 0x80, 0, 0, 0, 0, 1, 0, 0, 0, 0, 0, 0, 0];
    with_part(rt, alloc, &bytes, 96, range)
}

fn lend_part<M: TableMem + Drop>(
    rt: &impl Abort,
    spm: &mut Spm<M>,
    bytes: Vec<u8>,
    handle: u64,
) -> Result<(), OutOfMemory> {
    let call = lend([0x70, 0x70, 0, 0], bytes);
    grant(rt, spm, &call, [handle, 0x8001], "a longer descriptor")
}

/// A send whose parts stand apart, one of two receivers, and one of two ranges.
fn lend_parts<M: TableMem + Drop>(
    rt: &impl Abort,
    alloc: Global,
    spm: &mut Spm<M>,
) -> Result<(), OutOfMemory> {
    lend_part(rt, spm, parts_apart(rt, alloc)?, 1)?;
    lend_part(rt, spm, two_receivers(rt, alloc)?, 2)?;
    lend_part(rt, spm, two_ranges(rt, alloc)?, 3)
}

/// Each partition may have 32 live transactions.
fn lend_many_pages<M: TableMem + Drop>(
    rt: &impl Abort,
    alloc: Global,
    spm: &mut Spm<M>,
) -> Result<(), OutOfMemory> {
    for i in 0..32 {
        let call = send(rt, alloc, LEND_ID, &[(81, i % 16 * 16), (82, i / 16)])?;
        grant(rt, spm, &call, [u64::from(i) + 1, 0x8001], "a lend")?;
    }
    answer_sends(rt, alloc, spm, &ONE_MORE)
}

/// The lends of one partition do not count for another.
fn lend_of_another<M: TableMem + Drop>(
    rt: &impl Abort,
    alloc: Global,
    spm: &mut Spm<M>,
) -> Result<(), OutOfMemory> {
    let pair = map(alloc, 0x8002, SECOND_PAIR);
    grant(rt, spm, &pair, [0, 0], "the pair of another")?;
    let mut other = send(rt, alloc, LEND_ID, &[(0, 2), (48, 1), (83, 0xa0)])?;
    other.caller = 0x8002;
    grant(rt, spm, &other, [1, 0x8002], "the lend of another")
}

fn is_shared<M: TableMem + Drop>(rt: &impl Abort, spm: &Spm<M>) {
    let live = spm.ledger().live();
    assert!(rt; !live.is_empty());
    let transaction = &live[0];
    assert_eq!(rt; transaction.terms.kind, Kind::Share);
    assert_eq!(rt; transaction.terms.tag, 5);
}

/// The sender keeps its access, and no table changes.
fn share_pages<M: TableMem + Drop>(
    rt: &impl Abort,
    alloc: Global,
    spm: &mut Spm<M>,
) -> Result<(), OutOfMemory> {
    let before = views(spm);
    let [_, _, made] = counts(spm);
    answer_sends(rt, alloc, spm, &SHARES)?;
    assert_eq!(rt; views(spm), before);
    assert_eq!(rt; counts(spm), [2, 0, made]);
    is_shared(rt, spm);
    Ok(())
}

/// The giver reaches the page no more, the taker not yet, and the giver owns it still.
fn donate_page<M: TableMem + Drop>(
    rt: &impl Abort,
    alloc: Global,
    spm: &mut Spm<M>,
) -> Result<(), OutOfMemory> {
    let [first, _, _] = views(spm);
    answer_sends(rt, alloc, spm, &DONATIONS)?;
    assert_eq!(rt; views(spm), [first, None, None]);
    let giver = PartitionId::new(0x8001);
    assert_eq!(rt; spm.owner(Page::new(0x8_0001)), Some(giver));
    assert!(rt; spm.ledger().donations(alloc)?.is_empty());
    Ok(())
}

/// The sends are answered so where 0x8001 has a pair.
fn answer_table<M: TableMem + Drop>(
    rt: &impl Abort,
    alloc: Global,
    sends: &[SendCase<'_>],
) -> Result<(), OutOfMemory> {
    let mut spm: Spm<M> = with_pair(rt, alloc)?;
    answer_sends(rt, alloc, &mut spm, sends)
}

fn lend_first_page<M: TableMem + Drop>(rt: &impl Abort, alloc: Global) -> Result<(), OutOfMemory> {
    let mut spm: Spm<M> = with_pair(rt, alloc)?;
    lend_page(rt, alloc, &mut spm)
}

fn lend_with_parts<M: TableMem + Drop>(rt: &impl Abort, alloc: Global) -> Result<(), OutOfMemory> {
    let mut spm: Spm<M> = with_pair(rt, alloc)?;
    lend_parts(rt, alloc, &mut spm)
}

/// A pair is wanted, and then the lend is in the ledger.
fn lend_before_and_after_pair<M: TableMem + Drop>(
    rt: &impl Abort,
    alloc: Global,
    spm: &mut Spm<M>,
) -> Result<(), OutOfMemory> {
    answer_sends(rt, alloc, spm, &UNPAIRED)?;
    answer_maps(rt, alloc, spm, &[("a pair", FIRST_PAIR, Ok(()))])?;
    answer_sends(rt, alloc, spm, &RECORDED)?;
    is_recorded(rt, spm);
    Ok(())
}

fn record_lend<M: TableMem + Drop>(rt: &impl Abort, alloc: Global) -> Result<(), OutOfMemory> {
    let mut spm: Spm<M> = booted(alloc)?;
    lend_before_and_after_pair(rt, alloc, &mut spm)
}

fn answer_lengths<M: TableMem + Drop>(
    rt: &impl Abort,
    alloc: Global,
    spm: &mut Spm<M>,
) -> Result<(), OutOfMemory> {
    refuse_lengths(rt, alloc, spm)?;
    refuse_long_send(rt, alloc, spm)?;
    refuse_longer_send(rt, alloc, spm)?;
    lend_long(rt, alloc, spm)
}

fn send_lengths<M: TableMem + Drop>(rt: &impl Abort, alloc: Global) -> Result<(), OutOfMemory> {
    let mut spm: Spm<M> = with_pair(rt, alloc)?;
    answer_lengths(rt, alloc, &mut spm)
}

/// None of them uses a number.
fn answer_bytes<M: TableMem + Drop>(
    rt: &impl Abort,
    alloc: Global,
    spm: &mut Spm<M>,
) -> Result<(), OutOfMemory> {
    refuse_cut(rt, alloc, spm)?;
    refuse_set(rt, alloc, spm)?;
    answer_sends(rt, alloc, spm, &RECORDED)
}

fn send_bytes<M: TableMem + Drop>(rt: &impl Abort, alloc: Global) -> Result<(), OutOfMemory> {
    let mut spm: Spm<M> = with_pair(rt, alloc)?;
    answer_bytes(rt, alloc, &mut spm)
}

fn answer_many<M: TableMem + Drop>(
    rt: &impl Abort,
    alloc: Global,
    spm: &mut Spm<M>,
) -> Result<(), OutOfMemory> {
    lend_many_pages(rt, alloc, spm)?;
    lend_of_another(rt, alloc, spm)
}

fn limit_lends<M: TableMem + Drop>(rt: &impl Abort, alloc: Global) -> Result<(), OutOfMemory> {
    let mut spm: Spm<M> = with_pair(rt, alloc)?;
    answer_many(rt, alloc, &mut spm)
}

fn send_shares<M: TableMem + Drop>(rt: &impl Abort, alloc: Global) -> Result<(), OutOfMemory> {
    let mut spm: Spm<M> = with_pair(rt, alloc)?;
    share_pages(rt, alloc, &mut spm)
}

fn send_donations<M: TableMem + Drop>(rt: &impl Abort, alloc: Global) -> Result<(), OutOfMemory> {
    let mut spm: Spm<M> = with_pair(rt, alloc)?;
    donate_page(rt, alloc, &mut spm)
}

#[test]
fn answers_tables(rt: HostRuntime) -> Result<(), Fail> {
    answer_table::<ListPool>(&rt, rt.alloc(), &FIELDS)?;
    answer_table::<ListPool>(&rt, rt.alloc(), &TERMS)?;
    Ok(())
}

#[test]
fn lends_a_page(rt: HostRuntime) -> Result<(), Fail> {
    lend_first_page::<ListPool>(&rt, rt.alloc())?;
    lend_with_parts::<ListPool>(&rt, rt.alloc())?;
    record_lend::<ListPool>(&rt, rt.alloc())?;
    Ok(())
}

#[test]
fn refuses_descriptors(rt: HostRuntime) -> Result<(), Fail> {
    send_lengths::<ListPool>(&rt, rt.alloc())?;
    send_bytes::<ListPool>(&rt, rt.alloc())?;
    Ok(())
}

#[test]
fn limits_live_transactions(rt: HostRuntime) -> Result<(), Fail> {
    limit_lends::<ListPool>(&rt, rt.alloc())?;
    Ok(())
}

#[test]
fn shares_pages(rt: HostRuntime) -> Result<(), Fail> {
    send_shares::<ListPool>(&rt, rt.alloc())?;
    Ok(())
}

#[test]
fn donates_a_page(rt: HostRuntime) -> Result<(), Fail> {
    send_donations::<ListPool>(&rt, rt.alloc())?;
    Ok(())
}
