ghost use Rattle.std.specs.Prelude.{◌≡◌, ◌<◌, ◌∷◌, [], ℕ, true, None, IfOk};
ghost use Rattle.base.specs.Pages.{covers};
ghost use Rattle.base.specs.Ledger.{live_at};

use arrayvec::ArrayVec;
use base::{Access, Handle, Kind, OutOfMemory, Page, PartitionId, Rights, Run};
use ledger::{Donation, Ledger, Live, Receiver, Terms};
use manifest::common_manifest;
use std::alloc::Global;
use std::process::Abort;
use std::test::Fail;

const FIRST: u16 = 0x8001;

const SECOND: u16 = 0x8002;

/// The first partition's largest region begins here, and ends before the second page.
const REGION: u32 = 0x8_0000;

const REGION_END: u32 = 0x8_0400;

fn common_ledger(alloc: Global) -> Result<Ledger, OutOfMemory> {
    let manifest = common_manifest(alloc)?;
    Ledger::new(alloc, manifest)
}

/// `count` pages from this number on.
fn run(rt: &impl Abort, first: u32, count: u32) -> Run {
    assert!(rt; first < Page::COUNT && 0 < count && count <= Page::COUNT - first);
    Run::new(Page::new(first), count)
}

/// The handle of a sender's first send.
fn handle_of(sender: u16) -> Handle {
    Handle::new(PartitionId::new(sender), 1)
}

/// A transaction of the first of the sender's sends, to one receiver.
fn transaction(
    alloc: Global,
    kind: Kind,
    parties: [u16; 2],
    ranges: Vec<Run>,
) -> Result<Live, OutOfMemory>
    ensures { IfOk result (λ t. t.ranges ≡ ranges.items) }
{
    let [sender, receiver] = parties;
    let receiver = Receiver {
        partition: PartitionId::new(receiver),
        cap: Rights::Rw,
        retrieved: None,
    };
    let mut receivers = ArrayVec::new();
    receivers.push(receiver);
    let terms = Terms {
        kind,
        sender: PartitionId::new(sender),
        tag: 0,
        ranges,
        receivers,
        home: Access::normal(Rights::Rw, true),
    };
    Ok(Live {
        handle: handle_of(sender),
        terms: Box::new(alloc, terms)?,
    })
}

/// Opens a transaction with a handle of its sender's, where none is live.
fn open(ledger: &mut Ledger, transaction: Live) -> Result<(), OutOfMemory> {
    let named = transaction.handle.high() == u32::from(transaction.terms.sender.number());
    if named && ledger.live().is_empty() {
        ledger.open(transaction)?;
    }
    Ok(())
}

/// Opens a transaction of one run, where no page of it is live, and its sender has sent none that is.
fn open_beside(
    ledger: &mut Ledger,
    alloc: Global,
    kind: Kind,
    parties: [u16; 2],
    run: Run,
) -> Result<(), OutOfMemory> {
    let transaction = transaction(alloc, kind, parties, vec![in alloc; run]?)?;
    let named = transaction.handle.high() == u32::from(transaction.terms.sender.number());
    let is_new = ledger.find(transaction.handle).is_none();
    if named && is_new && is_apart(ledger, run) {
        ledger.open(transaction)?;
    }
    Ok(())
}

/// Whether the pages are alike, and none is live.
fn is_apart(ledger: &Ledger, run: Run) -> bool
    ensures { result ≡ true → (n : ℕ) → covers (run ∷ []) n ≡ true → live_at ledger.now.live n ≡ None }
{
    let segment = ledger.segment(run.first());
    !segment.value.is_live && run.end() <= segment.end
}

/// What the first receiver has retrieved.
fn retrieved(ledger: &Ledger, handle: Handle) -> Option<Access> {
    ledger.find(handle)?.terms.receivers.first()?.retrieved
}

/// These pages are left with these owners and accesses, and no others.
fn has_left(
    rt: &impl Abort,
    alloc: Global,
    ledger: &Ledger,
    left: &[(Run, u16, Access)],
) -> Result<(), OutOfMemory> {
    let donations = ledger.donations(alloc)?;
    assert_eq!(rt; donations.len(), left.len());
    for (donation, (pages, taker, access)) in donations.iter().zip(left) {
        let wanted = Donation {
            pages: *pages,
            taker: PartitionId::new(*taker),
            access: *access,
        };
        assert_eq!(rt; *donation, wanted);
    }
    Ok(())
}

fn donation(alloc: Global, parties: [u16; 2], run: Run) -> Result<Live, OutOfMemory> {
    transaction(alloc, Kind::Donate, parties, vec![in alloc; run]?)
}

/// Some pages are given from the first of these partitions to the second.
fn donate(
    ledger: &mut Ledger,
    alloc: Global,
    parties: [u16; 2],
    run: Run,
    access: Access,
) -> Result<(), OutOfMemory> {
    let [giver, taker] = parties;
    open(ledger, donation(alloc, parties, run)?)?;
    ledger.retrieve(PartitionId::new(taker), handle_of(giver), access)
}

/// A donation from the first of the parties to the second.
#[derive(Clone, Copy)]
struct Drawn {
    parties: [u16; 2],
    run: Run,
    access: Access,
}

/// Drawn numbers, the same each time.
#[derive(Drop)]
struct Draw {
    state: u64,
}

impl Draw {
    /// A number below a limit.
    fn below(&mut self, limit: u32) -> u32
        requires { 0 < limit }
        ensures { result < limit }
    {
        self.state = self
            .state
            .wrapping_mul(6_364_136_223_846_793_005)
            .wrapping_add(1_442_695_040_888_963_407);
        ((self.state >> 33) % u64::from(limit)) as u32
    }

    /// One of the three partitions.
    fn partition(&mut self) -> u16 {
        FIRST + self.below(3) as u16
    }

    /// A donation of 1 to 40 pages, which begins at most 40 pages before this one and less than 20 behind it. There are
    /// few owners and accesses, so that runs often touch others that are the same.
    fn donation(&mut self, rt: &impl Abort, number: u32) -> Drawn {
        let first = number.wrapping_sub(40).wrapping_add(self.below(60));
        Drawn {
            parties: [self.partition(), self.partition()],
            run: run(rt, first, 1 + self.below(40)),
            access: Access::normal(Rights::Rw, self.below(2) == 0),
        }
    }
}

/// Whose a page is, and what it is to its owner.
#[derive(Clone, Copy, Debug, PartialEq, Eq)]
struct Owned {
    owner: u16,
    home: Access,
}

/// The pages from `REGION` up to `REGION_END`, one by one.
#[derive(Drop)]
struct Pages {
    list: Vec<Owned>,
}

impl Pages {
    /// The first partition owns them, and may write and execute them.
    fn new(alloc: Global) -> Result<Self, OutOfMemory> {
        let owned = Owned {
            owner: FIRST,
            home: Access::normal(Rights::Rw, true),
        };
        let list = vec![in alloc; owned; 1024]?;
        Ok(Pages { list })
    }

    fn give(&mut self, drawn: Drawn) {
        let [_, owner] = drawn.parties;
        let home = drawn.access;
        for number in drawn.run.first().number()..drawn.run.end() {
            if let Some(page) = self.list.get_mut(number.wrapping_sub(REGION) as usize) {
                *page = Owned { owner, home };
            }
        }
    }

    fn at(&self, number: u32) -> Option<Owned> {
        self.list.get(number.wrapping_sub(REGION) as usize).copied()
    }

    /// The first page behind this one that has another owner, or is something else to it.
    fn next_other(&self, number: u32) -> Option<u32> {
        let here = self.at(number);
        for page in number..REGION_END {
            if self.at(page) != here {
                return Some(page);
            }
        }
        None
    }

    /// What is owned alike ends at the first page that differs; where none does, it ends with the region.
    fn compare_at(&self, rt: &impl Abort, ledger: &Ledger, number: u32) {
        let owned = ledger.owned(run(rt, number, 1).first());
        let end = self.next_other(number).unwrap_or(REGION_END);
        assert_eq!(rt; owned.end, end, "{number:x}");
    }

    fn compare(&self, rt: &impl Abort, ledger: &Ledger) {
        for number in REGION..REGION_END {
            self.compare_at(rt, ledger, number);
        }
    }

    /// Drawn donations in the region's first three quarters.
    fn donate_drawn(
        &mut self,
        rt: &impl Abort,
        alloc: Global,
        ledger: &mut Ledger,
    ) -> Result<(), OutOfMemory> {
        let mut draw = Draw { state: 2 };
        for _ in 0..20 {
            let number = REGION + 40 + draw.below(0x280);
            let drawn = draw.donation(rt, number);
            donate(ledger, alloc, drawn.parties, drawn.run, drawn.access)?;
            self.give(drawn);
        }
        Ok(())
    }
}

/// Each page of the table has this owner and this home, and none is live.
fn settled(rt: &impl Abort, ledger: &Ledger, pages: &[(u32, u16, Access)]) {
    for (number, owner, home) in pages {
        let page = run(rt, *number, 1).first();
        let owner = PartitionId::new(*owner);
        assert_eq!(rt; ledger.owner(page), Some(owner), "{number:x}");
        assert_eq!(rt; ledger.home(page), Some(*home), "{number:x}");
        let segment = ledger.segment(page);
        assert!(rt; !segment.value.is_live, "{number:x}");
        assert_eq!(rt; segment.value.idle_home(owner), Some(*home), "{number:x}");
    }
}

/// Of each page of the table, whether it is live, and where its segment ends.
fn segments(rt: &impl Abort, ledger: &Ledger, pages: &[(u32, bool, u32)]) {
    for (number, is_live, end) in pages {
        let page = run(rt, *number, 1).first();
        let segment = ledger.segment(page);
        assert_eq!(rt; segment.value.is_live, *is_live, "{number:x}");
        assert_eq!(rt; segment.end, *end, "{number:x}");
    }
}

/// Four pages of the first partition's go to the second, which gives one of them back, read-only.
fn donated(rt: &impl Abort, alloc: Global) -> Result<Ledger, OutOfMemory> {
    let mut ledger = common_ledger(alloc)?;
    let pages = run(rt, 0x8_0000, 4);
    let data = Access::normal(Rights::Rw, false);
    donate(&mut ledger, alloc, [FIRST, SECOND], pages, data)?;
    let page = run(rt, 0x8_0001, 1);
    let read_only = Access::normal(Rights::Ro, false);
    donate(&mut ledger, alloc, [SECOND, FIRST], page, read_only)?;
    Ok(ledger)
}

/// The first partition lends three pages of two ranges to the second.
fn lent(rt: &impl Abort, alloc: Global) -> Result<Ledger, OutOfMemory> {
    let mut ledger = common_ledger(alloc)?;
    let ranges = vec![in alloc; run(rt, 0x8_0000, 2), run(rt, 0x8_0200, 1)]?;
    let lend = transaction(alloc, Kind::Lend, [FIRST, SECOND], ranges)?;
    open(&mut ledger, lend)?;
    Ok(ledger)
}

/// A lend and a share of the region's last quarter, apart from its end.
fn lend_and_share(rt: &impl Abort, alloc: Global, ledger: &mut Ledger) -> Result<(), OutOfMemory> {
    let ranges = vec![in alloc; run(rt, 0x8_0310, 2), run(rt, 0x8_03f0, 1)]?;
    let lend = transaction(alloc, Kind::Lend, [FIRST, SECOND], ranges)?;
    open(ledger, lend)?;
    let pages = run(rt, 0x8_0380, 4);
    open_beside(ledger, alloc, Kind::Share, [SECOND, FIRST], pages)
}

fn retrieve_and_relinquish(rt: &impl Abort, ledger: &mut Ledger) -> Result<(), OutOfMemory> {
    let handle = handle_of(FIRST);
    let data = Access::normal(Rights::Rw, false);
    ledger.retrieve(PartitionId::new(SECOND), handle, data)?;
    assert_eq!(rt; retrieved(ledger, handle), Some(data));
    ledger.relinquish(PartitionId::new(SECOND), handle);
    assert_eq!(rt; retrieved(ledger, handle), None);
    Ok(())
}

#[test]
fn last_donation_decides(rt: HostRuntime) -> Result<(), Fail> {
    let ledger = donated(&rt, rt.alloc())?;
    let data = Access::normal(Rights::Rw, false);
    let read_only = Access::normal(Rights::Ro, false);
    let pages = [
        (0x8_0000, SECOND, data),
        (0x8_0001, FIRST, read_only),
        (0x8_0002, SECOND, data),
        (0x8_0003, SECOND, data),
        (0x8_0004, FIRST, Access::normal(Rights::Rw, true)),
    ];
    settled(&rt, &ledger, &pages);
    assert_eq!(rt; ledger.owner(Page::new(0x8_fffe)), None);
    let left = [
        (run(&rt, 0x8_0000, 1), SECOND, data),
        (run(&rt, 0x8_0001, 1), FIRST, read_only),
        (run(&rt, 0x8_0002, 2), SECOND, data),
    ];
    has_left(&rt, rt.alloc(), &ledger, &left)?;
    assert_eq!(rt; ledger.live().len(), 0);
    Ok(())
}

#[test]
fn lend_covers_its_ranges(rt: HostRuntime) -> Result<(), Fail> {
    let ledger = lent(&rt, rt.alloc())?;
    let pages = [
        (0x8_0000, true, 0x8_0002),
        (0x8_0001, true, 0x8_0002),
        (0x8_0002, false, 0x8_0200),
        (0x8_01ff, false, 0x8_0200),
        (0x8_0200, true, 0x8_0201),
        (0x8_0201, false, 0x8_0400),
    ];
    segments(&rt, &ledger, &pages);
    assert_eq!(rt; ledger.live_of(PartitionId::new(FIRST)), 1);
    assert_eq!(rt; ledger.live_of(PartitionId::new(SECOND)), 0);
    Ok(())
}

#[test]
fn lend_comes_and_goes(rt: HostRuntime) -> Result<(), Fail> {
    let mut ledger = lent(&rt, rt.alloc())?;
    retrieve_and_relinquish(&rt, &mut ledger)?;
    ledger.close(handle_of(FIRST));
    assert!(rt; ledger.find(handle_of(FIRST)).is_none());
    settled(
        &rt,
        &ledger,
        &[(0x8_0000, FIRST, Access::normal(Rights::Rw, true))],
    );
    Ok(())
}

#[test]
fn page_that_came_back_is_as_those_that_stayed(rt: HostRuntime) -> Result<(), Fail> {
    let mut ledger = common_ledger(rt.alloc())?;
    let page = run(&rt, 0x8_0001, 1);
    let code = Access::normal(Rights::Rw, true);
    donate(&mut ledger, rt.alloc(), [FIRST, SECOND], page, code)?;
    segments(&rt, &ledger, &[(0x8_0000, false, 0x8_0001)]);
    has_left(&rt, rt.alloc(), &ledger, &[(page, SECOND, code)])?;
    donate(&mut ledger, rt.alloc(), [SECOND, FIRST], page, code)?;
    segments(&rt, &ledger, &[(0x8_0000, false, 0x8_0400)]);
    has_left(&rt, rt.alloc(), &ledger, &[])?;
    Ok(())
}

/// Transactions that are live end nothing of what is owned alike.
#[test]
fn owned_ends_where_pages_differ(rt: HostRuntime) -> Result<(), Fail> {
    let mut ledger = common_ledger(rt.alloc())?;
    let mut pages = Pages::new(rt.alloc())?;
    pages.compare(&rt, &ledger);
    pages.donate_drawn(&rt, rt.alloc(), &mut ledger)?;
    pages.compare(&rt, &ledger);
    lend_and_share(&rt, rt.alloc(), &mut ledger)?;
    assert_eq!(rt; ledger.live().len(), 2);
    pages.compare(&rt, &ledger);
    Ok(())
}

/// Pages that touch a region and are left with its owner, as they are to it, are one run of what is left.
#[test]
fn donations_over_a_border_are_one_run(rt: HostRuntime) -> Result<(), Fail> {
    let mut ledger = common_ledger(rt.alloc())?;
    let data = Access::normal(Rights::Rw, false);
    let pages = run(&rt, 0x8_03fe, 4);
    donate(&mut ledger, rt.alloc(), [FIRST, SECOND], pages, data)?;
    has_left(&rt, rt.alloc(), &ledger, &[(pages, SECOND, data)])?;
    Ok(())
}
