//! Calls in service: lives of transactions of all shapes side by side, and wrong calls between them.

use crate::calls::{ERROR, Sending, call, reclaim, release, relinquish, retrieve, send};
use crate::digest::Digest;
use crate::draw::Draw;
use crate::fault::Fault;
use crate::house::{DEVICE, House, SHARED, address, booted, id_of};
use crate::part::Part;
use crate::shapes::{ALL_PAGES, Shape, drawn_shape, kind, ranges, receivers};
use base::Kind;
use descw::RangeFields;
use pool::RawPool;
use spm::{Call, Spm};
use std::alloc::Global;

/// How many steps are made in each house.
const STEPS: u32 = 60_000;

/// The houses: few partitions, and many.
const HOUSES: [u16; 3] = [3, 7, 16];

/// A transaction that was sent.
#[derive(Drop)]
struct Life {
    sending: Sending,
    handle: u64,
    /// How many of its calls were made: each receiver retrieves, each relinquishes, and then it is reclaimed.
    made: usize,
    /// Whether the pages are a donation that comes back.
    comes_back: bool,
}

/// A manager in service.
#[derive(Drop)]
struct Service {
    alloc: Global,
    house: House,
    spm: Spm<RawPool>,
    draw: Draw,
    digest: Digest,
    lives: Vec<Life>,
}

impl Service {
    /// Makes a call. Answers registers 2 and 3 of what was not refused.
    fn make(&mut self, call: &Call) -> Result<Option<u64>, Fault> {
        let reply = self.spm.handle(call)?;
        self.digest.reply(&reply);
        self.digest.number(self.spm.made());
        if reply.regs[0] == ERROR {
            return Ok(None);
        }
        Ok(Some(
            reply.regs[3]
                .wrapping_mul(0x1_0000_0000)
                .wrapping_add(reply.regs[2]),
        ))
    }

    fn any(&mut self) -> u16 {
        let place = self.draw.below(u32::from(self.house.partitions));
        id_of(self.house, place)
    }

    fn begin(&mut self, sending: Sending, comes_back: bool) -> Result<(), Fault> {
        let call = send(self.alloc, &sending)?;
        if let Some(handle) = self.make(&call)? {
            self.lives.push(Life {
                sending,
                handle,
                made: 0,
                comes_back,
            })?;
        }
        Ok(())
    }

    fn drawn(&mut self, sender: u16) -> Result<Sending, Fault> {
        let shape = drawn_shape(&mut self.draw);
        let kind = match shape {
            Shape::AllButAPage | Shape::PageInEach => Kind::Lend,
            _ => kind(&mut self.draw),
        };
        Ok(Sending {
            kind,
            sender,
            receivers: receivers(self.alloc, &mut self.draw, self.house, sender, kind)?,
            ranges: ranges(self.alloc, &mut self.draw, sender, shape)?,
            clears: matches!(kind, Kind::Lend) && self.draw.percent(4),
        })
    }

    fn begin_any(&mut self) -> Result<(), Fault> {
        let sender = self.any();
        let sending = self.drawn(sender)?;
        self.begin(sending, false)
    }

    /// A receiver retrieves, and mostly gives RX back at once.
    fn retrieve(&mut self, life: &Life, id: u16) -> Result<(), Fault> {
        let request = retrieve(
            self.alloc,
            life.sending.kind,
            life.sending.sender,
            id,
            life.handle,
        )?;
        if self.make(&request)?.is_none() || self.draw.percent(97) {
            self.make(&release(self.alloc, id))?;
        }
        Ok(())
    }

    /// The taker of a donation donates the pages back.
    fn give_back(&mut self, life: Life) -> Result<(), Fault> {
        let Some(taker) = life.sending.receivers.first().copied() else {
            return Ok(());
        };
        let mut receivers = Vec::new(self.alloc);
        receivers.push(life.sending.sender)?;
        let back = Sending {
            kind: Kind::Donate,
            sender: taker,
            receivers,
            ranges: life.sending.ranges,
            clears: false,
        };
        self.begin(back, true)
    }

    /// The next call of a life. Where it is not its last, it goes on.
    fn advance(&mut self, mut life: Life) -> Result<(), Fault> {
        let count = life.sending.receivers.len();
        let made = life.made;
        if let Some(id) = life.sending.receivers.get(made).copied() {
            self.retrieve(&life, id)?;
            if matches!(life.sending.kind, Kind::Donate) {
                return if life.comes_back {
                    Ok(())
                } else {
                    self.give_back(life)
                };
            }
        } else if let Some(id) = life
            .sending
            .receivers
            .get(made.saturating_sub(count))
            .copied()
        {
            self.make(&relinquish(self.alloc, id, life.handle)?)?;
        } else {
            let end = reclaim(self.alloc, life.sending.sender, life.handle);
            if self.make(&end)?.is_some() {
                return Ok(());
            }
            // Some receiver holds it still.
            life.made = count;
            self.lives.push(life)?;
            return Ok(());
        }
        life.made = made.saturating_add(1);
        self.lives.push(life)?;
        Ok(())
    }

    fn advance_any(&mut self) -> Result<(), Fault> {
        let place = self.draw.place(self.lives.len());
        if place < self.lives.len() {
            let life = self.lives.swap_remove(place);
            self.advance(life)?;
        }
        Ok(())
    }

    /// A send whose bytes or registers are changed somewhere.
    fn make_broken(&mut self) -> Result<(), Fault> {
        let sender = self.any();
        let sending = self.drawn(sender)?;
        let mut call = send(self.alloc, &sending)?;
        if self.draw.percent(30) {
            call.regs[1] = u64::from(self.draw.below(4_096));
        } else {
            let place = self.draw.place(call.tx.len());
            if let Some(byte) = call.tx.get_mut(place) {
                *byte ^= 1u8 << self.draw.below(8).min(7);
            }
        }
        self.make(&call)?;
        Ok(())
    }

    /// A send of pages that may not be sent.
    fn make_forbidden(&mut self) -> Result<(), Fault> {
        let sender = self.any();
        let page = match self.draw.below(3) {
            0 => SHARED.wrapping_add(u64::from(self.draw.below(64))),
            1 => DEVICE.wrapping_add(u64::from(self.draw.below(4))),
            _ => u64::from(self.draw.below(0x800_0000)),
        };
        let mut ranges = Vec::new(self.alloc);
        ranges.push(RangeFields {
            address: address(page),
            count: self.draw.between(1, 8),
        })?;
        let kind = kind(&mut self.draw);
        let sending = Sending {
            kind,
            sender,
            receivers: receivers(self.alloc, &mut self.draw, self.house, sender, kind)?,
            ranges,
            clears: false,
        };
        self.begin(sending, true)
    }

    /// A call on a transaction that is none, or is not the caller's.
    fn make_stray(&mut self) -> Result<(), Fault> {
        let id = self.any();
        let sender = self.any();
        let handle = u64::from(sender).wrapping_mul(0x1_0000_0000);
        let handle = handle.wrapping_add(u64::from(self.draw.below(STEPS)));
        let call = match self.draw.below(3) {
            0 => retrieve(self.alloc, Kind::Lend, sender, id, handle)?,
            1 => relinquish(self.alloc, id, handle)?,
            _ => reclaim(self.alloc, id, handle),
        };
        self.make(&call)?;
        if self.draw.percent(40) {
            self.make(&release(self.alloc, id))?;
        }
        Ok(())
    }

    /// A call of any function.
    fn make_any(&mut self) -> Result<(), Fault> {
        let id = self.any();
        let function = 0x8400_0060u64.wrapping_add(u64::from(self.draw.below(0x20)));
        // A version that was named once stays.
        if function == 0x8400_0063 {
            return Ok(());
        }
        let argument = self.draw.number();
        self.make(&call(self.alloc, id, [function, argument, 0, 0, 0, 0, 0, 0]))?;
        Ok(())
    }

    fn make_wrong(&mut self) -> Result<(), Fault> {
        match self.draw.below(8) {
            0..=3 => self.make_broken(),
            4 => self.make_forbidden(),
            5 | 6 => self.make_stray(),
            _ => self.make_any(),
        }
    }

    fn step(&mut self) -> Result<(), Fault> {
        let many = usize::from(self.house.partitions).saturating_mul(2);
        if self.draw.percent(8) {
            self.make_wrong()
        } else if self.lives.len() < many && self.draw.percent(50) {
            self.begin_any()
        } else {
            self.advance_any()
        }
    }
}

/// Calls in houses of several sizes.
pub(crate) fn serve(alloc: Global, seed: u64, part: Part) -> Result<u64, Fault> {
    let mut all = Digest::new();
    for partitions in HOUSES {
        let house = House {
            partitions,
            pages: ALL_PAGES,
            quota: 1_024,
        };
        let mut service = Service {
            alloc,
            house,
            spm: booted(alloc, house)?,
            draw: Draw::new(seed.wrapping_mul(64).wrapping_add(u64::from(partitions))),
            digest: Digest::new(),
            lives: Vec::new(alloc),
        };
        for _ in 0..part.of(STEPS) {
            service.step()?;
        }
        all.number(service.digest.value());
    }
    Ok(all.value())
}
