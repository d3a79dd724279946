//! Partitions, each with memory of its own, as a manifest and as a manager with their buffers registered.

use crate::calls::call;
use crate::fault::Fault;
use manifest::{Manifest, read};
use pool::RawPool;
use spm::Spm;
use std::alloc::Global;

/// The first partition. The others follow.
const FIRST: u16 = 0x8001;

/// The pages of a gigabyte.
pub(crate) const GIGABYTE: u64 = 0x4_0000;

/// The pages of the two buffers of a pair, behind the other pages of each partition.
const BUFFERS: u32 = 16;

/// The first page of a region of two grants, and of a device.
pub(crate) const SHARED: u64 = 0x1_0000;

pub(crate) const DEVICE: u64 = 0x9000;

/// So many partitions, each with so many pages of its own in 4 gigabytes, one behind another. Each second
/// one speaks FF-A 1.0.
#[derive(Clone, Copy)]
pub(crate) struct House {
    pub(crate) partitions: u16,
    pub(crate) pages: u32,
    pub(crate) quota: u32,
}

/// The identifier of the partition at a place, counted round.
pub(crate) fn id_of(house: House, place: u32) -> u16 {
    let count = u32::from(house.partitions).max(1);
    let within = u16::try_from(place.checked_rem(count).unwrap_or(0)).unwrap_or(0);
    FIRST.wrapping_add(within)
}

/// The place of a partition.
pub(crate) fn place_of(id: u16) -> u32 {
    u32::from(id.wrapping_sub(FIRST))
}

/// The first page of a partition.
pub(crate) fn land(id: u16) -> u64 {
    u64::from(place_of(id))
        .wrapping_mul(4)
        .wrapping_add(2)
        .wrapping_mul(GIGABYTE)
}

/// Whether a partition speaks FF-A 1.0.
pub(crate) fn is_old(id: u16) -> bool {
    id % 2 == 0
}

/// The address of a page.
pub(crate) fn address(page: u64) -> u64 {
    page.wrapping_mul(0x1000)
}

fn push_region(
    text: &mut String,
    first: u64,
    pages: u32,
    kind: &str,
    owner: u16,
) -> Result<(), Fault> {
    let base = address(first);
    writeln!(
        text,
        "[[region]]\nbase = {base}\npages = {pages}\nkind = \"{kind}\"\nowner = {owner}"
    )?;
    Ok(())
}

fn push_own(text: &mut String, house: House, id: u16) -> Result<(), Fault> {
    push_region(
        text,
        land(id),
        house.pages.saturating_add(BUFFERS),
        "normal",
        id,
    )?;
    writeln!(
        text,
        "grants = [ {{ id = {id}, data = \"rw\", exec = false }} ]"
    )?;
    Ok(())
}

/// The manifest's document.
fn text_of(alloc: Global, house: House) -> Result<String, Fault> {
    let mut text = String::from_str(alloc, "pool = 0x40000000\n")?;
    for i in 0..house.partitions {
        let id = FIRST.wrapping_add(i);
        writeln!(
            &mut text,
            "[[partition]]\nid = {id}\nquota = {}",
            house.quota
        )?;
    }
    for i in 0..house.partitions {
        push_own(&mut text, house, FIRST.wrapping_add(i))?;
    }
    push_region(&mut text, SHARED, 64, "normal", FIRST)?;
    let second = FIRST.wrapping_add(1);
    writeln!(
        &mut text,
        "grants = [ {{ id = {FIRST}, data = \"rw\", exec = false }},"
    )?;
    writeln!(
        &mut text,
        "  {{ id = {second}, data = \"ro\", exec = false }} ]"
    )?;
    push_region(&mut text, DEVICE, 4, "device", FIRST)?;
    writeln!(
        &mut text,
        "grants = [ {{ id = {FIRST}, data = \"rw\", exec = false }} ]"
    )?;
    Ok(text)
}

pub(crate) fn manifest_of(alloc: Global, house: House) -> Result<Manifest, Fault> {
    let text = text_of(alloc, house)?;
    Ok(read(alloc, text.as_bytes())?)
}

/// The registers by which a partition registers its pair: eight pages each, behind its other pages.
pub(crate) fn pair_registers(house: House, id: u16) -> [u64; 8] {
    let tx = address(land(id).wrapping_add(u64::from(house.pages)));
    [0xc400_0066, tx, tx.wrapping_add(0x8000), 8, 0, 0, 0, 0]
}

/// A manager of these partitions, of which each has a pair and has named its version.
pub(crate) fn booted(alloc: Global, house: House) -> Result<Spm<RawPool>, Fault> {
    let mut spm: Spm<RawPool> = Spm::boot(alloc, manifest_of(alloc, house)?)?;
    for i in 0..house.partitions {
        let id = FIRST.wrapping_add(i);
        if is_old(id) {
            let version = call(alloc, id, [0x8400_0063, 0x1_0000, 0, 0, 0, 0, 0, 0]);
            spm.handle(&version)?;
        }
        spm.handle(&call(alloc, id, pair_registers(house, id)))?;
    }
    Ok(spm)
}
