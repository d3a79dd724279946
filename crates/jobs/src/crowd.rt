//! Calls beside much that is live: many partitions with many transactions of many ranges each.

use crate::calls::{ERROR, Sending, reclaim, release, relinquish, retrieve, send};
use crate::digest::Digest;
use crate::draw::Draw;
use crate::fault::Fault;
use crate::house::{House, booted, id_of, land};
use crate::part::Part;
use crate::shapes::spread;
use base::Kind;
use descw::RangeFields;
use pool::RawPool;
use spm::{Call, Spm};
use std::alloc::Global;

/// The pages that a transaction's ranges are drawn from: each partition has 32 such places.
const PLACE: u32 = 1_024;

/// The pages behind them that go to and fro as donations.
const GIFTS: u32 = 8_192;

/// How many partitions there are, how many transactions each has live, of how many ranges at most, and how
/// many rounds of calls are made beside them.
#[derive(Clone, Copy)]
struct Size {
    partitions: u16,
    each: u32,
    most: u32,
    rounds: u32,
}

const SIZES: [Size; 3] = [
    Size {
        partitions: 16,
        each: 24,
        most: 96,
        rounds: 16_000,
    },
    Size {
        partitions: 40,
        each: 28,
        most: 160,
        rounds: 6_000,
    },
    Size {
        partitions: 62,
        each: 31,
        most: 512,
        rounds: 1_600,
    },
];

/// A live transaction: its place among those of its sender, its handle, and its receiver.
#[derive(Clone, Copy)]
struct Open {
    place: u32,
    handle: u64,
    receiver: u16,
}

/// A manager with much that is live: the transactions of each partition, the oldest first.
#[derive(Drop)]
struct Crowd {
    alloc: Global,
    size: Size,
    house: House,
    spm: Spm<RawPool>,
    draw: Draw,
    digest: Digest,
    live: Vec<Vec<Open>>,
}

impl Crowd {
    /// Makes a call, and answers its handle, if it was not refused.
    fn make(&mut self, call: &Call) -> Result<Option<u64>, Fault> {
        let reply = self.spm.handle(call)?;
        self.digest.reply(&reply);
        self.digest.number(self.spm.made());
        if reply.regs[0] == ERROR {
            return Ok(None);
        }
        Ok(Some(
            reply.regs[3]
                .wrapping_mul(0x1_0000_0000)
                .wrapping_add(reply.regs[2]),
        ))
    }

    fn send(
        &mut self,
        kind: Kind,
        sender: u16,
        receiver: u16,
        ranges: Vec<RangeFields>,
    ) -> Result<Option<u64>, Fault> {
        let mut receivers = Vec::new(self.alloc);
        receivers.push(receiver)?;
        let sending = Sending {
            kind,
            sender,
            receivers,
            ranges,
            clears: false,
        };
        let call = send(self.alloc, &sending)?;
        self.make(&call)
    }

    /// The pages of a place of a partition, as drawn: each other one, or runs a little apart.
    fn ranges(&mut self, sender: u16, place: u32) -> Result<Vec<RangeFields>, Fault> {
        let first = land(sender).wrapping_add(u64::from(place).wrapping_mul(u64::from(PLACE)));
        let count = self.draw.between(1, self.size.most);
        let room = PLACE.checked_div(count).unwrap_or(2).clamp(2, 12);
        let step = self.draw.between(2, room);
        let most = step.saturating_sub(1);
        spread(self.alloc, &mut self.draw, first, count, step, most)
    }

    fn other(&mut self, who: u32) -> u16 {
        let others = u32::from(self.house.partitions).saturating_sub(1);
        let behind = self.draw.below(others);
        id_of(self.house, who.wrapping_add(behind).wrapping_add(1))
    }

    /// Sends the pages of a place.
    fn open(&mut self, who: u32, place: u32) -> Result<(), Fault> {
        let sender = id_of(self.house, who);
        let receiver = self.other(who);
        let ranges = self.ranges(sender, place)?;
        let kind = if self.draw.percent(70) {
            Kind::Lend
        } else {
            Kind::Share
        };
        let handle = self.send(kind, sender, receiver, ranges)?;
        if let (Some(handle), Some(live)) = (handle, self.live.get_mut(who as usize)) {
            live.push(Open {
                place,
                handle,
                receiver,
            })?;
        }
        Ok(())
    }

    fn fill(&mut self, each: u32) -> Result<(), Fault> {
        for who in 0..u32::from(self.house.partitions) {
            self.live.push(Vec::new(self.alloc))?;
            for place in 0..each {
                self.open(who, place)?;
            }
        }
        Ok(())
    }

    fn retrieve(&mut self, kind: Kind, sender: u16, id: u16, handle: u64) -> Result<bool, Fault> {
        let request = retrieve(self.alloc, kind, sender, id, handle)?;
        let retrieved = self.make(&request)?.is_some();
        self.make(&release(self.alloc, id))?;
        Ok(retrieved)
    }

    /// The newest transaction of a partition, the oldest, or any.
    fn taken(&mut self, who: u32) -> Option<Open> {
        let choice = self.draw.below(3);
        let any = self.draw.number() as usize;
        let live = self.live.get_mut(who as usize)?;
        let place = match choice {
            0 => 0,
            1 => live.len().saturating_sub(1),
            _ => any.checked_rem(live.len()).unwrap_or(0),
        };
        if place < live.len() {
            Some(live.remove(place))
        } else {
            None
        }
    }

    /// One transaction ends, and another of the same place begins. Now and then it was retrieved meanwhile.
    fn replace(&mut self, who: u32) -> Result<(), Fault> {
        let sender = id_of(self.house, who);
        let Some(open) = self.taken(who) else {
            return Ok(());
        };
        if self.draw.percent(30) {
            self.retrieve(Kind::Lend, sender, open.receiver, open.handle)?;
            self.make(&relinquish(self.alloc, open.receiver, open.handle)?)?;
        }
        self.make(&reclaim(self.alloc, sender, open.handle))?;
        self.open(who, open.place)
    }

    /// The life of a message of a partition.
    fn message(&mut self, who: u32) -> Result<(), Fault> {
        let sender = id_of(self.house, who);
        let receiver = self.other(who);
        let last = land(sender).wrapping_add(u64::from(PLACE).wrapping_mul(31));
        let page = last.wrapping_add(u64::from(self.draw.below(PLACE)));
        let ranges = spread(self.alloc, &mut self.draw, page, 1, 1, 1)?;
        if let Some(handle) = self.send(Kind::Lend, sender, receiver, ranges)? {
            self.retrieve(Kind::Lend, sender, receiver, handle)?;
            self.make(&relinquish(self.alloc, receiver, handle)?)?;
            self.make(&reclaim(self.alloc, sender, handle))?;
        }
        Ok(())
    }

    fn donate(&mut self, from: u16, to: u16, ranges: Vec<RangeFields>) -> Result<bool, Fault> {
        match self.send(Kind::Donate, from, to, ranges)? {
            Some(handle) => self.retrieve(Kind::Donate, from, to, handle),
            None => Ok(false),
        }
    }

    /// Pages are donated, and come back whole, or in two parts, or the first of them alone.
    fn give(&mut self, who: u32) -> Result<(), Fault> {
        let (from, to) = (id_of(self.house, who), self.other(who));
        let gifts = land(from).wrapping_add(u64::from(PLACE).wrapping_mul(32));
        let first = gifts.wrapping_add(u64::from(self.draw.below(GIFTS.saturating_sub(512))));
        let count = self.draw.between(2, 64);
        let step = self.draw.between(2, 8);
        let ranges = spread(self.alloc, &mut self.draw, first, count, step, 1)?;
        if !self.donate(from, to, ranges)? {
            return Ok(());
        }
        if self.draw.percent(50) {
            let whole = spread(self.alloc, &mut self.draw, first, count, step, 1)?;
            self.donate(to, from, whole)?;
            return Ok(());
        }
        let half = count / 2;
        let part = spread(self.alloc, &mut self.draw, first, half, step, 1)?;
        self.donate(to, from, part)?;
        if self.draw.percent(70) {
            let behind = u64::from(half).wrapping_mul(u64::from(step));
            let rest = count.saturating_sub(half);
            let part = spread(
                self.alloc,
                &mut self.draw,
                first.wrapping_add(behind),
                rest,
                step,
                1,
            )?;
            self.donate(to, from, part)?;
        }
        Ok(())
    }

    fn step(&mut self) -> Result<(), Fault> {
        let who = self.draw.below(u32::from(self.house.partitions));
        match self.draw.below(10) {
            0..=4 => self.replace(who),
            5..=8 => self.message(who),
            _ => self.give(who),
        }
    }
}

/// Calls beside what is live in houses of several sizes.
pub(crate) fn press(alloc: Global, seed: u64, part: Part) -> Result<u64, Fault> {
    let mut all = Digest::new();
    for size in SIZES {
        let house = House {
            partitions: size.partitions,
            pages: PLACE.saturating_mul(32).saturating_add(GIFTS),
            quota: 800,
        };
        let mut crowd = Crowd {
            alloc,
            size,
            house,
            spm: booted(alloc, house)?,
            draw: Draw::new(
                seed.wrapping_mul(64)
                    .wrapping_add(u64::from(size.partitions)),
            ),
            digest: Digest::new(),
            live: Vec::new(alloc),
        };
        crowd.fill(part.of(size.each))?;
        for _ in 0..part.of(size.rounds) {
            crowd.step()?;
        }
        all.number(crowd.digest.value());
    }
    Ok(all.value())
}
