use base::{OutOfMemory, Page, PartitionId, Run, Status};
use mailbox::{Pair, Pairs};
use manifest::common_manifest;
use std::alloc::Global;
use std::test::Fail;

const FIRST: u16 = 0x8001;

const SECOND: u16 = 0x8002;

const STRANGER: u16 = 0x8009;

fn common_pairs(alloc: Global) -> Result<Pairs, OutOfMemory> {
    let manifest = common_manifest(alloc)?;
    Ok(Pairs::new(&manifest))
}

/// Two pages of TX at 0x8_0000_0000 and two of RX that follow them.
fn touching_pair(held: bool) -> Pair {
    Pair {
        tx: Run::new(Page::new(0x80_0000), 2),
        rx: Run::new(Page::new(0x80_0002), 2),
        held,
    }
}

#[test]
fn registers_fills_releases_and_ends(rt: HostRuntime) -> Result<(), Fail> {
    let mut pairs = common_pairs(rt.alloc())?;
    let p = PartitionId::new(FIRST);
    assert_eq!(rt; pairs.pair_of(p), None);
    assert_eq!(rt; pairs.fill(p), Err(Status::InvalidParameters));
    assert_eq!(rt; pairs.release(p), Err(Status::Denied));
    assert_eq!(rt; pairs.unmap(p), Err(Status::InvalidParameters));

    pairs.map(p, touching_pair(false));
    assert_eq!(rt; pairs.pair_of(p), Some(touching_pair(false)));
    assert!(rt; !pairs.has_pair(PartitionId::new(SECOND)));
    for (number, held) in [
        (0x7f_ffff, false),
        (0x80_0000, true),
        (0x80_0003, true),
        (0x80_0004, false),
    ] {
        assert_eq!(rt; pairs.holds_page(Page::new(number)), held, "{number:x}");
    }

    assert_eq!(rt; pairs.release(p), Err(Status::Denied));
    assert_eq!(rt; pairs.fill(p), Ok(()));
    assert!(rt; pairs.holds_rx(p));
    assert_eq!(rt; pairs.fill(p), Err(Status::Busy));
    assert_eq!(rt; pairs.pair_of(p), Some(touching_pair(true)));
    assert_eq!(rt; pairs.release(p), Ok(()));
    assert!(rt; !pairs.holds_rx(p));

    assert_eq!(rt; pairs.fill(p), Ok(()));
    assert_eq!(rt; pairs.unmap(p), Ok(()));
    assert!(rt; !pairs.has_pair(p) && !pairs.holds_rx(p));
    assert!(rt; !pairs.holds_page(Page::new(0x80_0000)));
    Ok(())
}

#[test]
fn names_pairs_by_their_areas(rt: HostRuntime) -> Result<(), Fail> {
    let pairs = common_pairs(rt.alloc())?;
    let p = PartitionId::new(FIRST);
    let touching = pairs.check(p, 0x8_0000_0000, 0x8_0000_2000, 2);
    assert_eq!(rt; touching, Ok(touching_pair(false)));
    for (tx, rx, pages) in [
        (0x1000, 0, 1),
        (0x8000, 0, 8),
        (0x7f_ffff_f000, 0x7f_ffff_e000, 1),
    ] {
        let named = pairs.check(p, tx, rx, pages);
        assert!(rt; named.is_ok(), "{tx:x}, {rx:x}, {pages}");
    }
    for (tx, rx, pages) in [
        (0x1_0000, 0x2_0000, 0),
        (0x1_0000, 0x2_0000, 9),
        (0x1_0800, 0x2_0000, 1),
        (0x1_0000, 0x2_0001, 1),
        (0x7f_ffff_f000, 0x2_0000, 2),
        (0x1_0000, 0x80_0000_0000, 1),
        (0x1000_0000_0000, 0x2_0000, 1),
        (0x1_0000, 0xffff_ffff_ffff_f000, 1),
        (0x1_0000, 0x1_0000, 1),
        (0x1_0000, 0x1_1000, 2),
        (0x1_7000, 0x1_0000, 8),
    ] {
        let named = pairs.check(p, tx, rx, pages);
        let refused = Err(Status::InvalidParameters);
        assert_eq!(rt; named, refused, "{tx:x}, {rx:x}, {pages}");
    }
    Ok(())
}

#[test]
fn denies_a_second_pair(rt: HostRuntime) -> Result<(), Fail> {
    let mut pairs = common_pairs(rt.alloc())?;
    let p = PartitionId::new(SECOND);
    pairs.map(p, touching_pair(false));
    for (tx, rx, pages) in [(0x1_0000, 0x2_0000, 1), (1, 1, 0)] {
        let named = pairs.check(p, tx, rx, pages);
        assert_eq!(rt; named, Err(Status::Denied), "{tx:x}, {rx:x}, {pages}");
    }
    let other = pairs.check(PartitionId::new(FIRST), 0x1_0000, 0x2_0000, 1);
    assert!(rt; other.is_ok());
    Ok(())
}

#[test]
fn changes_nothing_for_a_stranger(rt: HostRuntime) -> Result<(), Fail> {
    let mut pairs = common_pairs(rt.alloc())?;
    let p = PartitionId::new(STRANGER);
    pairs.map(p, touching_pair(true));
    assert!(rt; !pairs.has_pair(p) && !pairs.holds_rx(p));
    assert!(rt; !pairs.holds_page(Page::new(0x80_0000)));
    Ok(())
}
