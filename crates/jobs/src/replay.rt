//! Replays of traces: scripts of lives of transactions in lines of all kinds, with looks at the state.

use crate::calls::{Sending, send_bytes};
use crate::digest::{Digest, DigestWriter};
use crate::draw::Draw;
use crate::fault::Fault;
use crate::house::{House, id_of, land, manifest_of, pair_registers};
use crate::part::Part;
use crate::shapes::{receivers, spread};
use base::Kind;
use descw::RangeFields;
use pool::RawPool;
use script::{Watched, run_script};
use std::alloc::Global;

/// The pages of a place of a partition, of which a life takes one.
const PLACE: u32 = 1_024;

/// How many places a partition has, and so how many lives at most.
const PLACES: u32 = 24;

/// How many lines or groups of lines are drawn, and for how many partitions.
#[derive(Clone, Copy)]
struct Size {
    partitions: u16,
    steps: u32,
}

const SIZES: [Size; 3] = [
    Size {
        partitions: 3,
        steps: 60_000,
    },
    Size {
        partitions: 8,
        steps: 90_000,
    },
    Size {
        partitions: 16,
        steps: 70_000,
    },
];

/// A transaction of the script.
#[derive(Drop)]
struct Life {
    sending: Sending,
    place: u32,
    handle: u64,
    made: usize,
}

/// What a partition has sent so far, and which of its places are free.
#[derive(Drop)]
struct Sender {
    count: u64,
    free: Vec<u32>,
}

/// A script on its way.
#[derive(Drop)]
struct Trace {
    alloc: Global,
    house: House,
    draw: Draw,
    text: String,
    senders: Vec<Sender>,
    lives: Vec<Life>,
}

impl Trace {
    fn new(alloc: Global, size: Size, seed: u64) -> Result<Self, Fault> {
        let house = House {
            partitions: size.partitions,
            pages: PLACES.saturating_mul(PLACE).saturating_add(0x4_0000),
            quota: 1_024,
        };
        let mut senders = Vec::new(alloc);
        for _ in 0..size.partitions {
            let mut free = Vec::new(alloc);
            for place in 0..PLACES {
                free.push(place)?;
            }
            senders.push(Sender { count: 0, free })?;
        }
        Ok(Trace {
            alloc,
            house,
            draw: Draw::new(seed),
            text: String::new(alloc),
            senders,
            lives: Vec::new(alloc),
        })
    }

    /// Each partition registers its pair.
    fn register(&mut self) -> Result<(), Fault> {
        for place in 0..u32::from(self.house.partitions) {
            let id = id_of(self.house, place);
            let [function, tx, rx, pages, ..] = pair_registers(self.house, id);
            writeln!(
                &mut self.text,
                "call {id:04x} {function:x} {tx:x} {rx:x} {pages}"
            )?;
        }
        Ok(())
    }

    /// The pages of a place: often one message, else a list, or chunks behind all places.
    fn ranges(&mut self, sender: u16, place: u32) -> Result<Vec<RangeFields>, Fault> {
        let first = land(sender).wrapping_add(u64::from(place).wrapping_mul(u64::from(PLACE)));
        let (count, step, most) = match self.draw.below(40) {
            0..=27 => (self.draw.between(1, 2), 16, 8),
            28..=35 => (self.draw.between(16, 128), 8, 7),
            36 => (self.draw.between(128, 512), 2, 1),
            _ => (1, 1, self.draw.between(1, 1_024)),
        };
        spread(self.alloc, &mut self.draw, first, count, step, most)
    }

    fn drawn(&mut self, sender: u16, place: u32) -> Result<Sending, Fault> {
        let kind = if self.draw.percent(70) {
            Kind::Lend
        } else {
            Kind::Share
        };
        Ok(Sending {
            kind,
            sender,
            receivers: receivers(self.alloc, &mut self.draw, self.house, sender, kind)?,
            ranges: self.ranges(sender, place)?,
            clears: false,
        })
    }

    /// A line that sends.
    fn push_send(&mut self, sending: &Sending) -> Result<(), Fault> {
        let word = match sending.kind {
            Kind::Lend => "lend",
            Kind::Share => "share",
            Kind::Donate => "donate",
        };
        write!(
            &mut self.text,
            "{word} {:04x} {:x} ",
            sending.sender,
            self.draw.below(1_000)
        )?;
        let mut comma = "";
        for id in &sending.receivers {
            write!(&mut self.text, "{comma}{id:04x}:02")?;
            comma = ",";
        }
        comma = " ";
        for range in &sending.ranges {
            write!(&mut self.text, "{comma}{:x}+{}", range.address, range.count)?;
            comma = ",";
        }
        self.text.push('\n')?;
        Ok(())
    }

    /// The same as bytes of TX and a call. One that is broken has a byte changed.
    fn push_raw(&mut self, sending: &Sending, broken: bool) -> Result<(), Fault> {
        let mut bytes = send_bytes(self.alloc, sending)?;
        let place = self.draw.place(bytes.len().min(48));
        if let (true, Some(byte)) = (broken, bytes.get_mut(place)) {
            *byte ^= 0x81;
        }
        let length = bytes.len();
        write!(&mut self.text, "tx {:04x} ", sending.sender)?;
        for byte in &bytes {
            write!(&mut self.text, "{byte:02x}")?;
        }
        let function = match sending.kind {
            Kind::Donate => 0x8400_0071u32,
            Kind::Lend => 0x8400_0072,
            Kind::Share => 0x8400_0073,
        };
        writeln!(
            &mut self.text,
            "\ncall {:04x} {function:x} {length:x} {length:x}",
            sending.sender
        )?;
        Ok(())
    }

    /// A partition sends from one of its free places.
    fn begin(&mut self) -> Result<(), Fault> {
        let who = self.draw.below(u32::from(self.house.partitions));
        let sender = id_of(self.house, who);
        let Some(place) = self
            .senders
            .get_mut(who as usize)
            .and_then(|s| s.free.pop())
        else {
            return Ok(());
        };
        let sending = self.drawn(sender, place)?;
        if self.draw.percent(10) {
            self.push_raw(&sending, false)?;
        } else {
            self.push_send(&sending)?;
        }
        let mut handle = 0;
        if let Some(all) = self.senders.get_mut(who as usize) {
            all.count = all.count.wrapping_add(1);
            handle = u64::from(sender)
                .wrapping_mul(0x1_0000_0000)
                .wrapping_add(all.count);
        }
        self.lives.push(Life {
            sending,
            place,
            handle,
            made: 0,
        })?;
        Ok(())
    }

    fn push_retrieve(&mut self, life: &Life, id: u16) -> Result<(), Fault> {
        let (handle, sender) = (life.handle, life.sending.sender);
        let kind = match life.sending.kind {
            Kind::Share => 1,
            Kind::Lend => 2,
            Kind::Donate => 3,
        };
        writeln!(
            &mut self.text,
            "retrieve {id:04x} {handle:x} {sender:04x} 0 {kind} 02 alone"
        )?;
        writeln!(&mut self.text, "call {id:04x} 84000065")?;
        Ok(())
    }

    /// The next lines of a life: each receiver retrieves, each relinquishes, and it is reclaimed.
    fn advance(&mut self) -> Result<(), Fault> {
        let place = self.draw.place(self.lives.len());
        if place >= self.lives.len() {
            return Ok(());
        }
        let mut life = self.lives.swap_remove(place);
        let count = life.sending.receivers.len();
        if let Some(id) = life.sending.receivers.get(life.made).copied() {
            self.push_retrieve(&life, id)?;
        } else if let Some(id) = life
            .sending
            .receivers
            .get(life.made.saturating_sub(count))
            .copied()
        {
            writeln!(&mut self.text, "relinquish {id:04x} {:x}", life.handle)?;
        } else {
            writeln!(
                &mut self.text,
                "reclaim {:04x} {:x}",
                life.sending.sender, life.handle
            )?;
            let who = life.sending.sender.wrapping_sub(0x8001);
            if let Some(sender) = self.senders.get_mut(usize::from(who)) {
                sender.free.push(life.place)?;
            }
            return Ok(());
        }
        life.made = life.made.saturating_add(1);
        self.lives.push(life)?;
        Ok(())
    }

    /// A send that is refused: a broken one, or one of pages of another.
    fn push_wrong(&mut self) -> Result<(), Fault> {
        let who = self.draw.below(u32::from(self.house.partitions));
        let (sender, other) = (
            id_of(self.house, who),
            id_of(self.house, who.wrapping_add(1)),
        );
        let mut sending = self.drawn(other, 0)?;
        sending.sender = sender;
        if self.draw.percent(50) {
            self.push_raw(&sending, true)
        } else {
            self.push_send(&sending)
        }
    }

    /// A look at the state.
    fn push_look(&mut self) -> Result<(), Fault> {
        let id = id_of(self.house, self.draw.below(64));
        match self.draw.below(800) {
            0..=599 => writeln!(&mut self.text, "ops")?,
            600..=699 => writeln!(&mut self.text, "maps {id:04x}")?,
            700..=759 => writeln!(&mut self.text, "tables {id:04x}")?,
            760..=797 => writeln!(&mut self.text, "owners")?,
            _ => writeln!(&mut self.text, "audit")?,
        }
        Ok(())
    }

    fn step(&mut self) -> Result<(), Fault> {
        let most = usize::from(self.house.partitions).saturating_mul(2);
        match self.draw.below(100) {
            0..=24 if self.lives.len() < most => self.begin(),
            25..=27 => self.push_wrong(),
            28..=30 => self.push_look(),
            31 => Ok(writeln!(&mut self.text, "# {:x}", self.draw.number())?),
            _ => self.advance(),
        }
    }
}

/// Runs scripts for several numbers of partitions.
pub(crate) fn replay(alloc: Global, seed: u64, part: Part) -> Result<u64, Fault> {
    let mut digest = Digest::new();
    for size in SIZES {
        let drawn = seed
            .wrapping_mul(64)
            .wrapping_add(u64::from(size.partitions));
        let mut trace = Trace::new(alloc, size, drawn)?;
        trace.register()?;
        for _ in 0..part.of(size.steps) {
            trace.step()?;
        }
        let mut reader = Watched::new(trace.text.as_bytes());
        let mut writer = Watched::new(DigestWriter {
            digest: &mut digest,
        });
        let manifest = manifest_of(alloc, trace.house)?;
        run_script::<RawPool, _, _>(alloc, manifest, &mut reader, &mut writer)?;
    }
    Ok(digest.value())
}
