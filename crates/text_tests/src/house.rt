//! Managers of a few partitions, each with memory on both sides of a border of gigabytes.

use crate::calls::call;
use crate::fault::Fault;
use manifest::{Manifest, read};
use pool::RawPool;
use spm::Spm;
use std::alloc::Global;

/// The first partition. The others follow.
const FIRST: u16 = 0x8001;

/// The pages of a gigabyte.
const GIGABYTE: u32 = 0x4_0000;

/// The pages of a yard that are sent. The two behind them are the buffers.
pub(crate) const YARD: u32 = 12;

/// So many partitions. The land of each has so many pages before a border of gigabytes and behind it, and lies
/// in gigabytes of its own. A yard of few pages lies apart, on a border of chunks. Each second partition speaks
/// FF-A 1.0.
#[derive(Clone, Copy)]
pub(crate) struct House {
    pub(crate) partitions: u16,
    pub(crate) before: u32,
    pub(crate) behind: u32,
    pub(crate) quota: u32,
}

/// The identifier of the partition at a place, counted round.
pub(crate) fn id_of(house: House, place: u32) -> u16 {
    let count = u32::from(house.partitions).max(1);
    let within = u16::try_from(place.checked_rem(count).unwrap_or(0)).unwrap_or(0);
    FIRST.wrapping_add(within)
}

/// The place of a partition.
pub(crate) fn place_of(id: u16) -> u32 {
    u32::from(id.wrapping_sub(FIRST))
}

/// The page behind the border of gigabytes in a partition's land.
pub(crate) fn border(id: u16) -> u32 {
    place_of(id)
        .wrapping_mul(2)
        .wrapping_add(3)
        .wrapping_mul(GIGABYTE)
}

/// The first page of a partition's yard, seven before a border of chunks.
pub(crate) fn yard(id: u16) -> u32 {
    place_of(id)
        .wrapping_add(20)
        .wrapping_mul(GIGABYTE)
        .wrapping_add(505)
}

/// Whether a partition speaks FF-A 1.0.
pub(crate) fn is_old(id: u16) -> bool {
    id % 2 == 0
}

/// The address of a page.
pub(crate) fn address(page: u32) -> u64 {
    u64::from(page).wrapping_mul(0x1000)
}

fn push_region(
    text: &mut String,
    first: u32,
    pages: u32,
    kind: &str,
    owner: u16,
) -> Result<(), Fault> {
    let base = address(first);
    writeln!(
        text,
        "[[region]]\nbase = {base}\npages = {pages}\nkind = \"{kind}\"\nowner = {owner}"
    )?;
    Ok(())
}

/// The grant of a region to its owner alone.
fn push_own_grant(text: &mut String, id: u16, exec: bool) -> Result<(), Fault> {
    writeln!(
        text,
        "grants = [ {{ id = {id}, data = \"rw\", exec = {exec} }} ]"
    )?;
    Ok(())
}

/// The land and the yard of a partition. One of both is executable.
fn push_own(text: &mut String, house: House, id: u16) -> Result<(), Fault> {
    let land = border(id).wrapping_sub(house.before);
    push_region(
        text,
        land,
        house.before.wrapping_add(house.behind),
        "normal",
        id,
    )?;
    push_own_grant(text, id, is_old(id))?;
    push_region(text, yard(id), YARD.wrapping_add(2), "normal", id)?;
    push_own_grant(text, id, !is_old(id))
}

/// Pages of the first partition that the second may read, and a device.
fn push_common(text: &mut String) -> Result<(), Fault> {
    let second = FIRST.wrapping_add(1);
    push_region(text, 0x1_0000, 64, "normal", FIRST)?;
    writeln!(
        text,
        "grants = [ {{ id = {FIRST}, data = \"rw\", exec = false }},"
    )?;
    writeln!(text, "  {{ id = {second}, data = \"ro\", exec = true }} ]")?;
    push_region(text, 0x9000, 4, "device", FIRST)?;
    push_own_grant(text, FIRST, false)
}

/// The manifest's document.
fn document(alloc: Global, house: House) -> Result<String, Fault> {
    let mut text = String::from_str(alloc, "pool = 0x40000000\n")?;
    for i in 0..house.partitions {
        let id = FIRST.wrapping_add(i);
        let quota = house.quota;
        writeln!(&mut text, "[[partition]]\nid = {id}\nquota = {quota}")?;
    }
    for i in 0..house.partitions {
        push_own(&mut text, house, FIRST.wrapping_add(i))?;
    }
    push_common(&mut text)?;
    Ok(text)
}

fn manifest_of(alloc: Global, house: House) -> Result<Manifest, Fault> {
    let text = document(alloc, house)?;
    Ok(read(alloc, text.as_bytes())?)
}

/// The registers by which a partition registers its pair: a page each, the last ones of its yard.
fn pair_registers(id: u16) -> [u64; 8] {
    let tx = address(yard(id).wrapping_add(YARD));
    [0xc400_0066, tx, tx.wrapping_add(0x1000), 1, 0, 0, 0, 0]
}

/// A manager of these partitions, of which each has a pair and has named its version.
pub(crate) fn booted(alloc: Global, house: House) -> Result<Spm<RawPool>, Fault> {
    let mut spm: Spm<RawPool> = Spm::boot(alloc, manifest_of(alloc, house)?)?;
    for i in 0..house.partitions {
        let id = FIRST.wrapping_add(i);
        if is_old(id) {
            let version = call(alloc, id, [0x8400_0063, 0x1_0000, 0, 0, 0, 0, 0, 0]);
            spm.handle(&version)?;
        }
        spm.handle(&call(alloc, id, pair_registers(id)))?;
    }
    Ok(spm)
}
