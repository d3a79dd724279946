//! Large states, and what is asked of them: the audit, and the texts of owners, views and tables.

use crate::calls::{ERROR, Sending, release, retrieve, send};
use crate::digest::Digest;
use crate::draw::Draw;
use crate::fault::Fault;
use crate::house::{GIGABYTE, House, booted, id_of, land};
use crate::part::Part;
use crate::shapes::spread;
use audit::{audit_text, maps_text, owners_text, tables_text};
use base::{Kind, PartitionId};
use descw::RangeFields;
use pool::RawPool;
use spm::Spm;
use std::alloc::Global;

/// How many ranges a state has, of how many a transaction has at most, and whether it is audited.
#[derive(Clone, Copy)]
struct Size {
    partitions: u16,
    ranges: u32,
    each: u32,
    audited: bool,
}

/// How many states there are of each size.
const ROUNDS: u64 = 5;

const SIZES: [Size; 12] = [
    Size {
        partitions: 4,
        ranges: 300,
        each: 40,
        audited: true,
    },
    Size {
        partitions: 6,
        ranges: 500,
        each: 64,
        audited: true,
    },
    Size {
        partitions: 16,
        ranges: 400,
        each: 16,
        audited: true,
    },
    Size {
        partitions: 8,
        ranges: 1_000,
        each: 128,
        audited: true,
    },
    Size {
        partitions: 12,
        ranges: 1_200,
        each: 100,
        audited: true,
    },
    Size {
        partitions: 7,
        ranges: 1_600,
        each: 256,
        audited: true,
    },
    Size {
        partitions: 5,
        ranges: 2_000,
        each: 300,
        audited: true,
    },
    Size {
        partitions: 16,
        ranges: 2_000,
        each: 300,
        audited: true,
    },
    Size {
        partitions: 10,
        ranges: 2_600,
        each: 400,
        audited: true,
    },
    Size {
        partitions: 8,
        ranges: 4_000,
        each: 512,
        audited: true,
    },
    Size {
        partitions: 6,
        ranges: 4_500,
        each: 512,
        audited: true,
    },
    Size {
        partitions: 16,
        ranges: 65_000,
        each: 512,
        audited: false,
    },
];

/// A manager, and the first page of each partition that was not sent yet, counted from its first.
#[derive(Drop)]
struct State {
    alloc: Global,
    house: House,
    spm: Spm<RawPool>,
    draw: Draw,
    digest: Digest,
    ends: Vec<u32>,
}

impl State {
    /// So many ranges behind all that a partition has sent, a little apart.
    fn ranges(&mut self, who: u32, count: u32) -> Result<Vec<RangeFields>, Fault> {
        let sender = id_of(self.house, who);
        let step = if self.draw.percent(60) {
            2
        } else {
            self.draw.between(3, 6)
        };
        let first = match self.ends.get_mut(who as usize) {
            Some(end) => {
                let first = *end;
                *end = first.wrapping_add(count.wrapping_mul(step)).wrapping_add(1);
                first
            }
            None => 0,
        };
        let most = self.draw.between(1, step.saturating_sub(1));
        spread(
            self.alloc,
            &mut self.draw,
            land(sender).wrapping_add(u64::from(first)),
            count,
            step,
            most,
        )
    }

    fn kind(&mut self) -> Kind {
        match self.draw.below(10) {
            0..=4 => Kind::Lend,
            5 | 6 => Kind::Share,
            _ => Kind::Donate,
        }
    }

    /// A partition sends so many ranges to another, which mostly retrieves them.
    fn send(&mut self, who: u32, count: u32) -> Result<(), Fault> {
        let others = u32::from(self.house.partitions).saturating_sub(1);
        let behind = self.draw.below(others).wrapping_add(1);
        let (sender, receiver) = (
            id_of(self.house, who),
            id_of(self.house, who.wrapping_add(behind)),
        );
        let kind = self.kind();
        let mut receivers = Vec::new(self.alloc);
        receivers.push(receiver)?;
        let sending = Sending {
            kind,
            sender,
            receivers,
            ranges: self.ranges(who, count)?,
            clears: false,
        };
        let reply = self.spm.handle(&send(self.alloc, &sending)?)?;
        self.digest.reply(&reply);
        let gives = matches!(kind, Kind::Donate);
        if reply.regs[0] != ERROR && (gives || self.draw.percent(60)) {
            let handle = reply.regs[3]
                .wrapping_mul(0x1_0000_0000)
                .wrapping_add(reply.regs[2]);
            let request = retrieve(self.alloc, kind, sender, receiver, handle)?;
            let reply = self.spm.handle(&request)?;
            self.digest.reply(&reply);
            let reply = self.spm.handle(&release(self.alloc, receiver))?;
            self.digest.reply(&reply);
        }
        Ok(())
    }

    fn fill(&mut self, size: Size) -> Result<(), Fault> {
        for _ in 0..self.house.partitions {
            self.ends.push(0)?;
        }
        let mut made = 0u32;
        for who in 0..size.ranges {
            if made >= size.ranges {
                break;
            }
            let count = self.draw.between(size.each / 2, size.each).max(1);
            self.send(
                who.checked_rem(u32::from(self.house.partitions))
                    .unwrap_or(0),
                count,
            )?;
            made = made.saturating_add(count);
        }
        Ok(())
    }

    fn show(&mut self, size: Size) -> Result<(), Fault> {
        let alloc = self.alloc;
        let (manifest, tables, ledger) = (
            self.spm.manifest(),
            self.spm.tables(),
            self.spm.ledger(),
        );
        if size.audited {
            let text = audit_text(alloc, manifest, tables, ledger)?;
            self.digest.bytes(text.as_bytes());
        }
        let text = owners_text(alloc, manifest, ledger)?;
        self.digest.bytes(text.as_bytes());
        for place in 0..u32::from(self.house.partitions) {
            let p = PartitionId::new(id_of(self.house, place));
            let maps = maps_text(alloc, manifest, tables, p)?;
            self.digest.bytes(maps.as_bytes());
            let entries = tables_text(alloc, manifest, tables, p)?;
            self.digest.bytes(entries.as_bytes());
        }
        Ok(())
    }
}

/// The texts of one state.
fn show_state(alloc: Global, size: Size, drawn: u64, part: Part) -> Result<u64, Fault> {
    let house = House {
        partitions: size.partitions,
        pages: u32::try_from(GIGABYTE).unwrap_or(0),
        quota: 900,
    };
    let mut state = State {
        alloc,
        house,
        spm: booted(alloc, house)?,
        draw: Draw::new(drawn),
        digest: Digest::new(),
        ends: Vec::new(alloc),
    };
    state.fill(Size {
        ranges: part.of(size.ranges),
        ..size
    })?;
    state.show(size)?;
    Ok(state.digest.value())
}

/// The texts of several states of each size.
pub(crate) fn show_states(alloc: Global, seed: u64, part: Part) -> Result<u64, Fault> {
    let mut all = Digest::new();
    for round in 0..ROUNDS {
        for size in SIZES {
            let drawn = seed
                .wrapping_mul(0x10_0000)
                .wrapping_add(u64::from(size.ranges))
                .wrapping_add(u64::from(size.partitions) << 32)
                .wrapping_add(round << 56);
            all.number(show_state(alloc, size, drawn, part)?);
        }
    }
    Ok(all.value())
}
