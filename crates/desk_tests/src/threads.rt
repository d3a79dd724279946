ghost use Rattle.std.specs.Prelude.{◌≡◌, ◌<◌};

use base::OutOfMemory;
use desk::{Book, Desk, Naming, Opened, Receipt, Seat};
use manifest::common_manifest;
use pool::ListPool;
use spm::{Call, Reply, run_calls};
use std::alloc::Global;
use std::marker::Brand;
use std::process::Abort;
use std::sync::Wait;
use std::sync::atomic::{AtomicU64, Ordering};
use std::test::Fail;
use std::thread;
use std::thread::{Threads, join};

/// How often a thread looks at the other's flag at most.
const TRIES: u32 = 100_000_000;

/// How often two threads wait for each other.
const TURNS: u64 = 3;

/// FFA_ID_GET.
const ID_GET: u64 = 0x8400_0069;

/// The functions of drawn calls without a descriptor: FFA_VERSION, FFA_FEATURES, FFA_RX_RELEASE,
/// FFA_RXTX_UNMAP, FFA_ID_GET, FFA_MEM_RETRIEVE_REQ, FFA_MEM_RELINQUISH and one that is unknown.
const PLAIN: [u64; 8] = [
    0x8400_0063,
    0x8400_0064,
    0x8400_0065,
    0x8400_0067,
    ID_GET,
    0x8400_0074,
    0x8400_0076,
    0x8400_0099,
];

/// FFA_MEM_DONATE, FFA_MEM_LEND and FFA_MEM_SHARE.
const SENDS: [u64; 3] = [0x8400_0071, 0x8400_0072, 0x8400_0073];

/// The descriptor by which 0x8001 sends page 0x80000 to 0x8002, read-write.
const DESCRIPTOR: [u8; 96] = [
    0x01, 0x80, 0x00, 0x00, 0x00, 0x00, 0x00, 0x00, 0x00, 0x00, 0x00, 0x00, 0x00, 0x00, 0x00, 0x00,
    0x00, 0x00, 0x00, 0x00, 0x00, 0x00, 0x00, 0x00, 0x10, 0x00, 0x00, 0x00, 0x01, 0x00, 0x00, 0x00,
    0x30, 0x00, 0x00, 0x00, 0x00, 0x00, 0x00, 0x00, 0x00, 0x00, 0x00, 0x00, 0x00, 0x00, 0x00, 0x00,
    0x02, 0x80, 0x02, 0x00, 0x40, 0x00, 0x00, 0x00, 0x00, 0x00, 0x00, 0x00, 0x00, 0x00, 0x00, 0x00,
    0x01, 0x00, 0x00, 0x00, 0x01, 0x00, 0x00, 0x00, 0x00, 0x00, 0x00, 0x00, 0x00, 0x00, 0x00, 0x00,
    0x00, 0x00, 0x00, 0x80, 0x00, 0x00, 0x00, 0x00, 0x01, 0x00, 0x00, 0x00, 0x00, 0x00, 0x00, 0x00,
];

/// Where the descriptor names its sender, its receiver and the number of its page.
const SENDER: usize = 0;

const RECEIVER: usize = 48;

const PAGE: usize = 81;

/// Numbers from a fixed seed, by a linear congruential generator.
#[derive(Drop)]
struct Draw {
    state: u64,
}

impl Draw {
    /// A number below a limit.
    fn below(&mut self, limit: u8) -> u8
        requires { 0 < limit }
        ensures { result < limit }
    {
        self.state = self
            .state
            .wrapping_mul(6_364_136_223_846_793_005)
            .wrapping_add(1_442_695_040_888_963_407);
        ((self.state >> 33) % u64::from(limit)) as u8
    }

    /// A caller: one of the three partitions.
    fn caller(&mut self) -> u16 {
        0x8001 + u16::from(self.below(3))
    }

    /// A call: one in three is a send, and one in nine a reclaim or a map.
    fn call(&mut self, alloc: Global) -> Result<Call, OutOfMemory> {
        match self.below(9) {
            0 => Ok(self.reclaim(alloc)),
            1 => Ok(self.map(alloc)),
            2 | 3 | 4 => self.send(alloc),
            _ => Ok(self.plain(alloc)),
        }
    }

    /// A call without a descriptor.
    fn plain(&mut self, alloc: Global) -> Call {
        let function = PLAIN[usize::from(self.below(8))];
        bare(alloc, self.caller(), [function, 0, 0])
    }

    /// A call of FFA_MEM_RECLAIM with one of the first handles.
    fn reclaim(&mut self, alloc: Global) -> Call {
        let caller = self.caller();
        let handle = u64::from(self.below(64));
        bare(alloc, caller, [0x8400_0077, handle, u64::from(caller)])
    }

    /// A call of FFA_RXTX_MAP with two pages of one's own.
    fn map(&mut self, alloc: Global) -> Call {
        let caller = self.caller();
        let page = 0x8000_0000 + 0x1000_0000 * u64::from(caller & 3);
        let mut call = bare(alloc, caller, [0x8400_0066, page, page + 0x1000]);
        call.regs[3] = 1;
        call
    }

    /// A send of one of the first pages.
    fn send(&mut self, alloc: Global) -> Result<Call, OutOfMemory> {
        let function = SENDS[usize::from(self.below(3))];
        let sender = 1 + self.below(3);
        let changes = [
            (SENDER, sender),
            (RECEIVER, 1 + self.below(3)),
            (PAGE, 0x10 * self.below(16)),
        ];
        let mut tx = Vec::from_slice(alloc, &DESCRIPTOR)?;
        for (at, byte) in changes {
            if let Some(place) = tx.get_mut(at) {
                *place = byte;
            }
        }
        let mut call = bare(alloc, 0x8000 + u16::from(sender), [function, 0x60, 0x60]);
        call.tx = tx;
        Ok(call)
    }
}

/// A call with registers 0 to 2 and an empty TX buffer.
fn bare(alloc: Global, caller: u16, words: [u64; 3]) -> Call {
    let [w0, w1, w2] = words;
    Call {
        caller,
        regs: [w0, w1, w2, 0, 0, 0, 0, 0],
        tx: Vec::new(alloc),
    }
}

/// Whether a flag comes to a number.
fn sees(flag: &AtomicU64, turn: u64) -> bool {
    for _ in 0..TRIES {
        if flag.load(Ordering::SeqCst) >= turn {
            return true;
        }
        thread::yield_now();
    }
    false
}

/// A flag of one's own and that of the other thread.
#[derive(Clone, Copy)]
struct Flags<'a> {
    mine: &'a AtomicU64,
    other: &'a AtomicU64,
}

/// Makes a call in each turn, after the other thread's or before it. False if the other's call does
/// not come.
fn take_turns<J: Naming, R: Wait>(
    rt: &R,
    alloc: Global,
    desk: &Desk<J>,
    seat: &mut Seat<J>,
    flags: Flags<'_>,
) -> Result<bool, OutOfMemory> {
    for turn in 1..=TURNS {
        if seat.number() == 1 && !sees(flags.other, turn) {
            return Ok(false);
        }
        desk.submit(rt, seat, bare(alloc, 0x8001, [ID_GET, 0, 0]))?;
        flags.mine.store(turn, Ordering::SeqCst);
        if seat.number() == 0 && !sees(flags.other, turn) {
            return Ok(false);
        }
    }
    Ok(true)
}

/// Makes so many drawn calls.
fn make_calls<J: Naming, R: Wait>(
    rt: &R,
    alloc: Global,
    desk: &Desk<J>,
    seat: &mut Seat<J>,
    count: u32,
) -> Result<(), OutOfMemory> {
    let mut draw = Draw {
        state: u64::from(seat.number()),
    };
    for _ in 0..count {
        let call = draw.call(alloc)?;
        desk.submit(rt, seat, call)?;
    }
    Ok(())
}

/// The turns of one thread, and then its drawn calls.
fn play<J: Naming, R: Wait>(
    rt: &R,
    alloc: Global,
    desk: &Desk<J>,
    mut seat: Seat<J>,
    flags: Flags<'_>,
) -> Result<(Seat<J>, bool), OutOfMemory> {
    let met = take_turns(rt, alloc, desk, &mut seat, flags)?;
    make_calls(rt, alloc, desk, &mut seat, 1000)?;
    Ok((seat, met))
}

/// The calls of a book, without their seats.
fn calls_of(alloc: Global, book: &Book) -> Result<Vec<Call>, OutOfMemory> {
    let mut calls = Vec::new(alloc);
    for entry in book.calls() {
        calls.push(Call {
            caller: entry.call.caller,
            regs: entry.call.regs,
            tx: entry.call.tx.clone()?,
        })?;
    }
    Ok(calls)
}

/// The receipts of a seat stand in ascending places, at calls of the seat, with the replies of the
/// run.
fn check_seat(rt: &impl Abort, book: &Book, replies: &[Reply], seat: u8, receipts: &[Receipt]) {
    let mut next = 0;
    for receipt in receipts {
        assert!(rt; next <= receipt.place && receipt.place < u64::MAX);
        next = receipt.place + 1;
        let entry = book
            .calls()
            .get(receipt.place as usize)
            .expect(rt, "a call");
        assert_eq!(rt; (entry.seat, entry.call.caller), (seat, receipt.caller));
        assert_eq!(rt; entry.call.regs, receipt.regs);
        let reply = replies.get(receipt.place as usize).expect(rt, "a reply");
        assert_eq!(rt; reply.regs, receipt.reply.regs);
        assert_eq!(rt; reply.rx, receipt.reply.rx);
    }
}

/// Whether some send was answered FFA_SUCCESS.
fn has_granted_send(calls: &[Call], replies: &[Reply]) -> bool {
    calls.iter().zip(replies).any(|(call, reply)| SENDS.contains(&call.regs[0])
        && reply.regs[0] == 0x8400_0061)
}

/// One thread that answers all calls of the book gives the replies of the receipts, of which there
/// are so many.
fn check(
    rt: &impl Abort,
    alloc: Global,
    book: &Book,
    receipts: &[Vec<Receipt>; 8],
    count: usize,
) -> Result<(), OutOfMemory> {
    let calls = calls_of(alloc, book)?;
    assert_eq!(rt; calls.len(), count);
    let (_spm, replies) = run_calls::<ListPool>(alloc, common_manifest(alloc)?, &calls)?;
    assert!(rt; has_granted_send(&calls, &replies), "some send is granted");
    let mut seat = 0u8;
    let mut found = 0usize;
    for receipts in receipts {
        check_seat(rt, book, &replies, seat, receipts);
        seat = seat.saturating_add(1);
        found = found.saturating_add(receipts.len());
    }
    assert_eq!(rt; found, count);
    Ok(())
}

/// Two threads that share a desk.
fn play_two<J: Naming + Send + Sync, R: Threads + Wait + Abort + Sync>(
    rt: &R,
    alloc: Global,
    opened: Opened,
) -> Result<(), OutOfMemory>
    requires table { opened.table ≡ J.table }
    requires manifest { opened.manifest ≡ J.manifest }
{
    let (desk, seats) = opened.named::<J>();
    let seats = sit_at_two(rt, alloc, &desk, seats)?;
    let (book, receipts) = desk.close(seats);
    check(rt, alloc, &book, &receipts, 2006)
}

/// A thread at each of the first two seats.
fn sit_at_two<J: Naming + Send + Sync, R: Threads + Wait + Abort + Sync>(
    rt: &R,
    alloc: Global,
    desk: &Desk<J>,
    seats: [Seat<J>; 8],
) -> Result<[Seat<J>; 8], OutOfMemory> {
    let mut seats = Vec::from_array(alloc, seats)?.into_iter();
    let (Some(a), Some(b)) = (seats.next(), seats.next()) else {
        return Err(OutOfMemory);
    };
    let (first, second) = (AtomicU64::new(0), AtomicU64::new(0));
    let left = Flags {
        mine: &first,
        other: &second,
    };
    let right = Flags {
        mine: &second,
        other: &first,
    };
    let (one, other) = join(
        rt,
        || play(rt, alloc, desk, a, left),
        || play(rt, alloc, desk, b, right),
    );
    let mut played = Vec::new(alloc);
    played.push(meet(rt, one))?;
    played.push(meet(rt, other))?;
    for seat in seats {
        played.push(Ok(seat))?;
    }
    eight(played).ok_or(OutOfMemory)
}

/// The seat of a thread that has waited in vain for nobody.
fn meet<J: Naming>(
    rt: &impl Abort,
    played: Result<(Seat<J>, bool), OutOfMemory>,
) -> Result<Seat<J>, OutOfMemory> {
    let (seat, met) = played?;
    assert!(rt; met, "a thread waits for the other's call");
    Ok(seat)
}

#[test]
fn two_threads_take_turns(rt: HostRuntime) -> Result<(), Fail> {
    let alloc = rt.alloc();
    let opened = Opened::new(alloc, common_manifest(alloc)?)?;
    play_two::<Brand, HostRuntime>(&rt, alloc, opened)?;
    Ok(())
}

/// Eight threads that share a desk, each at a seat of its own.
fn play_eight<J: Naming + Send + Sync, R: Threads + Wait + Abort + Sync>(
    rt: &R,
    alloc: Global,
    opened: Opened,
) -> Result<(), OutOfMemory>
    requires table { opened.table ≡ J.table }
    requires manifest { opened.manifest ≡ J.manifest }
{
    let (desk, seats) = opened.named::<J>();
    let seats = Vec::from_array(alloc, seats)?;
    let played = thread::map_vec(rt, seats, &|seat| sit(rt, alloc, &desk, seat))?;
    let Some(seats) = eight(played) else {
        return Err(OutOfMemory);
    };
    let (book, receipts) = desk.close(seats);
    check(rt, alloc, &book, &receipts, 16_000)
}

/// The calls of one of eight threads.
fn sit<J: Naming, R: Wait>(
    rt: &R,
    alloc: Global,
    desk: &Desk<J>,
    mut seat: Seat<J>,
) -> Result<Seat<J>, OutOfMemory> {
    make_calls(rt, alloc, desk, &mut seat, 2000)?;
    Ok(seat)
}

/// Eight seats, if all are there.
fn eight<J: Naming>(played: Vec<Result<Seat<J>, OutOfMemory>>) -> Option<[Seat<J>; 8]> {
    let mut seats = played.into_iter();
    Some([
        seats.next()?.ok()?,
        seats.next()?.ok()?,
        seats.next()?.ok()?,
        seats.next()?.ok()?,
        seats.next()?.ok()?,
        seats.next()?.ok()?,
        seats.next()?.ok()?,
        seats.next()?.ok()?,
    ])
}

#[test]
fn eight_threads_share_a_desk(rt: HostRuntime) -> Result<(), Fail> {
    let alloc = rt.alloc();
    let opened = Opened::new(alloc, common_manifest(alloc)?)?;
    play_eight::<Brand, HostRuntime>(&rt, alloc, opened)?;
    Ok(())
}
