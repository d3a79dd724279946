//! States that drawn calls lead to.

use crate::calls::{Sending, granted, reclaim, release, relinquish, retrieve, send};
use crate::draw::Draw;
use crate::fault::Fault;
use crate::house::{House, booted, id_of};
use crate::shapes::{Span, drawn_kind, drawn_span, next_to, ranges, receivers};
use base::Kind;
use pool::RawPool;
use spm::{Call, Spm};
use std::alloc::Global;

/// How many transactions a manager has at a time.
const MOST: usize = 7;

/// A transaction that was sent.
#[derive(Drop)]
struct Life {
    sending: Sending,
    span: Span,
    handle: u64,
    /// How many of its calls were made: each receiver retrieves, each relinquishes, and then it is reclaimed.
    made: usize,
    /// Whether the pages are a donation that comes back.
    comes_back: bool,
}

/// A manager, and one to which the last call on a transaction was not made.
#[derive(Drop)]
pub(crate) struct Managers {
    spm: Spm<RawPool>,
    before: Spm<RawPool>,
    /// The calls that were not made to the manager before.
    late: Vec<Call>,
    calls: u32,
    served: u32,
}

/// Makes a call, and answers its handle, if it was not refused.
fn answered(spm: &mut Spm<RawPool>, call: &Call) -> Result<Option<u64>, Fault> {
    let reply = spm.handle(call)?;
    Ok(granted(&reply))
}

impl Managers {
    fn new(alloc: Global, house: House) -> Result<Self, Fault> {
        Ok(Managers {
            spm: booted(alloc, house)?,
            before: booted(alloc, house)?,
            late: Vec::new(alloc),
            calls: 0,
            served: 0,
        })
    }

    /// The manager.
    pub(crate) fn spm(&self) -> &Spm<RawPool> {
        &self.spm
    }

    /// The manager before the last call on a transaction.
    pub(crate) fn before(&self) -> &Spm<RawPool> {
        &self.before
    }

    /// How many calls on transactions were made.
    pub(crate) fn calls(&self) -> u32 {
        self.calls
    }

    /// How many of them were not refused.
    pub(crate) fn served(&self) -> u32 {
        self.served
    }

    /// Makes the calls to the manager before that it lacks.
    fn catch_up(&mut self) -> Result<(), Fault> {
        for call in &self.late {
            answered(&mut self.before, call)?;
        }
        self.late.clear();
        Ok(())
    }

    /// Makes a call on a transaction, and answers its handle, if it was not refused.
    fn make(&mut self, call: Call) -> Result<Option<u64>, Fault> {
        self.catch_up()?;
        let answer = answered(&mut self.spm, &call)?;
        self.late.push(call)?;
        self.calls = self.calls.wrapping_add(1);
        self.served = self.served.wrapping_add(u32::from(answer.is_some()));
        Ok(answer)
    }

    /// A receiver gives RX back.
    fn release(&mut self, call: Call) -> Result<(), Fault> {
        answered(&mut self.spm, &call)?;
        self.late.push(call)?;
        Ok(())
    }
}

/// Managers to which drawn calls are made, and the transactions that they have.
#[derive(Drop)]
pub(crate) struct Drawn {
    alloc: Global,
    house: House,
    managers: Managers,
    draw: Draw,
    lives: Vec<Life>,
}

fn drawn_house(draw: &mut Draw) -> House {
    House {
        partitions: if draw.percent(50) { 3 } else { 4 },
        before: draw.between(500, 1_700),
        behind: draw.between(500, 1_700),
        quota: draw.between(16, 24),
    }
}

impl Drawn {
    pub(crate) fn new(alloc: Global, seed: u64) -> Result<Self, Fault> {
        let mut draw = Draw::new(seed);
        let house = drawn_house(&mut draw);
        let managers = Managers::new(alloc, house)?;
        Ok(Drawn {
            alloc,
            house,
            managers,
            draw,
            lives: Vec::new(alloc),
        })
    }

    pub(crate) fn managers(&self) -> &Managers {
        &self.managers
    }

    /// Sends.
    fn begin(&mut self, sending: Sending, span: Span, comes_back: bool) -> Result<(), Fault> {
        let call = send(self.alloc, &sending)?;
        if let Some(handle) = self.managers.make(call)? {
            self.lives.push(Life {
                sending,
                span,
                handle,
                made: 0,
                comes_back,
            })?;
        }
        Ok(())
    }

    /// Pages of a partition, often right behind those of another transaction.
    fn drawn_pages(&mut self) -> (u16, Span) {
        let house = self.house;
        let place = self.draw.place(self.lives.len());
        match self.lives.get(place) {
            Some(life) if self.draw.percent(40) => {
                let sender = life.sending.sender;
                (sender, next_to(&mut self.draw, house, sender, life.span))
            }
            _ => {
                let sender = id_of(house, self.draw.below(u32::from(house.partitions)));
                (sender, drawn_span(&mut self.draw, house, sender))
            }
        }
    }

    /// What is sent of some pages.
    fn drawn_sending(&mut self, sender: u16, span: Span) -> Result<Sending, Fault> {
        let kind = drawn_kind(&mut self.draw);
        let receivers = receivers(self.alloc, &mut self.draw, self.house, sender, kind)?;
        Ok(Sending {
            kind,
            sender,
            receivers,
            ranges: ranges(self.alloc, span, self.draw.percent(25))?,
            writes: self.draw.percent(60),
        })
    }

    /// Begins a transaction of pages that no other has.
    fn begin_any(&mut self) -> Result<(), Fault> {
        let (sender, span) = self.drawn_pages();
        if self.lives.iter().any(|life| life.span.meets(span)) {
            return Ok(());
        }
        let sending = self.drawn_sending(sender, span)?;
        self.begin(sending, span, false)
    }

    /// A receiver retrieves, and gives RX back. Answers whether it has retrieved.
    fn retrieve(&mut self, life: &Life, id: u16) -> Result<bool, Fault> {
        let request = retrieve(self.alloc, &life.sending, id, life.handle)?;
        if self.managers.make(request)?.is_none() {
            return Ok(false);
        }
        self.managers.release(release(self.alloc, id))?;
        Ok(true)
    }

    /// The taker of a donation donates the pages back.
    fn give_back(&mut self, life: Life) -> Result<(), Fault> {
        let Life { sending, span, .. } = life;
        let Sending {
            sender,
            receivers,
            ranges,
            ..
        } = sending;
        let Some(taker) = receivers.first().copied() else {
            return Ok(());
        };
        let mut givers = Vec::new(self.alloc);
        givers.push(sender)?;
        let back = Sending {
            kind: Kind::Donate,
            sender: taker,
            receivers: givers,
            ranges,
            writes: true,
        };
        self.begin(back, span, true)
    }

    /// The next call on a donation: it is retrieved, and later given back. One that cannot be retrieved is
    /// reclaimed.
    fn advance_donation(&mut self, mut life: Life) -> Result<(), Fault> {
        if life.made > 0 {
            return self.give_back(life);
        }
        let Some(id) = life.sending.receivers.first().copied() else {
            return Ok(());
        };
        if !self.retrieve(&life, id)? {
            self.managers
                .make(reclaim(self.alloc, life.sending.sender, life.handle))?;
        } else if !life.comes_back {
            life.made = 1;
            self.lives.push(life)?;
        }
        Ok(())
    }

    /// The next call on a lend or a share.
    fn advance_loan(&mut self, mut life: Life) -> Result<(), Fault> {
        let count = life.sending.receivers.len();
        let behind = life.made.saturating_sub(count);
        if let Some(id) = life.sending.receivers.get(life.made).copied() {
            self.retrieve(&life, id)?;
        } else if let Some(id) = life.sending.receivers.get(behind).copied() {
            let call = relinquish(self.alloc, id, life.handle)?;
            self.managers.make(call)?;
        } else {
            self.managers
                .make(reclaim(self.alloc, life.sending.sender, life.handle))?;
            return Ok(());
        }
        life.made = life.made.saturating_add(1);
        self.lives.push(life)?;
        Ok(())
    }

    fn advance_any(&mut self) -> Result<(), Fault> {
        let place = self.draw.place(self.lives.len());
        if place >= self.lives.len() {
            return Ok(());
        }
        let life = self.lives.swap_remove(place);
        match life.sending.kind {
            Kind::Donate => self.advance_donation(life),
            Kind::Lend | Kind::Share => self.advance_loan(life),
        }
    }

    /// Makes a drawn call, if there is one to make. Answers whether it was not refused.
    pub(crate) fn step(&mut self) -> Result<bool, Fault> {
        let served = self.managers.served();
        if self.lives.len() < MOST && self.draw.percent(40) {
            self.begin_any()?;
        } else {
            self.advance_any()?;
        }
        Ok(self.managers.served() != served)
    }
}
