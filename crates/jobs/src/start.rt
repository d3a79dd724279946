//! Starts: documents of manifests of many sizes are read, their needs are counted, and managers are booted.

use crate::digest::Digest;
use crate::draw::Draw;
use crate::fault::Fault;
use crate::part::Part;
use audit::check_text;
use base::limits::MOST_TABLE_PAGES;
use manifest::{Manifest, read};
use pool::RawPool;
use spm::Spm;
use std::alloc::Global;

/// The first page behind the table pool, from which regions follow one another.
const FIRST_PAGE: u32 = 0x8_0000;

/// The page behind the last.
const END: u32 = 0x800_0000;

/// How many documents there are of a size, how many partitions and regions they have, how many of its
/// partitions a region is granted to, in a hundred, and the least quota.
#[derive(Clone, Copy)]
struct Size {
    documents: u32,
    partitions: [u32; 2],
    regions: [u32; 2],
    granted: u32,
    quota: u32,
}

const SIZES: [Size; 5] = [
    Size {
        documents: 60,
        partitions: [3, 6],
        regions: [6, 16],
        granted: 20,
        quota: 16,
    },
    Size {
        documents: 30,
        partitions: [8, 24],
        regions: [12, 40],
        granted: 15,
        quota: 64,
    },
    Size {
        documents: 8,
        partitions: [48, 64],
        regions: [48, 64],
        granted: 10,
        quota: 256,
    },
    Size {
        documents: 6,
        partitions: [64, 64],
        regions: [64, 64],
        granted: 100,
        quota: 512,
    },
    Size {
        documents: 3,
        partitions: [62, 64],
        regions: [62, 64],
        granted: 3,
        quota: 1_024,
    },
];

/// A region, and whom it is granted to beside its owner.
#[derive(Drop)]
struct Room {
    first: u32,
    pages: u32,
    owner: u32,
    others: Vec<u32>,
}

/// How many table pages a grant of pages may need at most.
fn most_need(pages: u32) -> u32 {
    (pages / 262_144).saturating_add(4)
}

/// The pages of a region: a few MB mostly, up to 64 GB. It may end inside a chunk.
fn pages(draw: &mut Draw) -> u32 {
    match draw.below(20) {
        0..=9 => draw.between(512, 8_192),
        10..=15 => draw.between(1, 64).saturating_mul(512),
        16..=18 => draw.between(8_192, 262_144),
        _ => draw.between(1, 64).saturating_mul(262_144),
    }
}

/// Pages between two regions: none, some chunks, or a part of one.
fn gap(draw: &mut Draw) -> u32 {
    match draw.below(3) {
        0 => 0,
        1 => draw.below(64).saturating_mul(512),
        _ => draw.below(2_048),
    }
}

/// A region that begins behind so many pages, where its grants fit the partitions' quotas.
fn drawn_room(
    alloc: Global,
    draw: &mut Draw,
    size: Size,
    first: u32,
    needs: &mut [u32],
) -> Result<Room, Fault> {
    let mut room = Room {
        first,
        pages: pages(draw).min(END.saturating_sub(first)),
        owner: u32::MAX,
        others: Vec::new(alloc),
    };
    let more = most_need(room.pages);
    let begin = draw.place(needs.len());
    for i in 0..needs.len() {
        let place = begin.wrapping_add(i).checked_rem(needs.len()).unwrap_or(0);
        let id = u32::try_from(place).unwrap_or(0);
        if let Some(need) = needs.get_mut(place) {
            let fits = need.saturating_add(more) <= MOST_TABLE_PAGES;
            let is_owner = room.owner == u32::MAX;
            if fits && (is_owner || draw.percent(size.granted)) {
                *need = need.saturating_add(more);
                if is_owner {
                    room.owner = id;
                } else {
                    room.others.push(id)?;
                }
            }
        }
    }
    Ok(room)
}

fn push_grant(text: &mut String, draw: &mut Draw, place: u32) -> Result<(), Fault> {
    let id = place.wrapping_add(0x8001);
    let (data, exec) = match draw.below(4) {
        0 => ("ro", "true"),
        1 => ("ro", "false"),
        _ => ("rw", "false"),
    };
    writeln!(
        text,
        "  {{ id = {id:#x}, data = \"{data}\", exec = {exec} }},"
    )?;
    Ok(())
}

fn push_room(text: &mut String, draw: &mut Draw, room: &Room) -> Result<(), Fault> {
    let base = u64::from(room.first).wrapping_mul(0x1000);
    let (pages, owner) = (room.pages, room.owner.wrapping_add(0x8001));
    writeln!(text, "[[region]]\nbase = {base:#x}\npages = {pages}")?;
    writeln!(text, "kind = \"normal\"\nowner = {owner:#x}\ngrants = [")?;
    push_grant(text, draw, room.owner)?;
    for other in &room.others {
        push_grant(text, draw, *other)?;
    }
    writeln!(text, "]")?;
    Ok(())
}

/// The regions of a document. `needs` has the most table pages that each partition may need for them.
fn drawn_rooms(
    alloc: Global,
    draw: &mut Draw,
    size: Size,
    needs: &mut [u32],
) -> Result<Vec<Room>, Fault> {
    let mut rooms = Vec::new(alloc);
    let mut first = FIRST_PAGE;
    for _ in 0..draw.between(size.regions[0], size.regions[1]) {
        first = first.saturating_add(gap(draw));
        if first < END {
            let room = drawn_room(alloc, draw, size, first, needs)?;
            first = first.saturating_add(room.pages);
            if room.owner < u32::MAX {
                rooms.push(room)?;
            }
        }
    }
    Ok(rooms)
}

fn document(alloc: Global, draw: &mut Draw, size: Size) -> Result<String, Fault> {
    let mut needs = Vec::new(alloc);
    for _ in 0..draw.between(size.partitions[0], size.partitions[1]) {
        needs.push(0u32)?;
    }
    let rooms = drawn_rooms(alloc, draw, size, &mut needs)?;
    let mut text = String::from_str(alloc, "pool = 0x40000000\n")?;
    for (i, need) in needs.iter().enumerate() {
        let id = i.wrapping_add(0x8001);
        let quota = draw
            .between(size.quota, size.quota.saturating_mul(2))
            .max(*need)
            .min(MOST_TABLE_PAGES);
        writeln!(&mut text, "[[partition]]\nid = {id:#x}\nquota = {quota}")?;
    }
    for room in &rooms {
        push_room(&mut text, draw, room)?;
    }
    Ok(text)
}

/// Boots a manager, and looks at what its tables take.
fn boot(alloc: Global, digest: &mut Digest, manifest: Manifest) -> Result<(), Fault> {
    for row in manifest.partitions() {
        digest.number(u64::from(manifest.need(row.id)));
    }
    let spm: Spm<RawPool> = Spm::boot(alloc, manifest)?;
    digest.number(spm.made());
    for row in spm.manifest().partitions() {
        digest.number(u64::from(spm.tables().used(row.id)));
    }
    Ok(())
}

/// Reads and boots documents of several sizes.
pub(crate) fn start(alloc: Global, seed: u64, part: Part) -> Result<u64, Fault> {
    let mut digest = Digest::new();
    for (i, size) in SIZES.iter().enumerate() {
        let mut draw = Draw::new(seed.wrapping_mul(64).wrapping_add(i as u64));
        for _ in 0..part.of(size.documents) {
            let text = document(alloc, &mut draw, *size)?;
            let manifest = read(alloc, text.as_bytes())?;
            digest.bytes(check_text(alloc, &manifest)?.as_bytes());
            boot(alloc, &mut digest, manifest)?;
        }
    }
    Ok(digest.value())
}
