//! The texts of a manager's state, and the plain forms of them.

use crate::fault::Fault;
use crate::plain;
use crate::same::is_same_manifest;
use crate::table_words::{Entry, TableWords};
use audit::{audit_text, maps_text, owners_text, tables_text};
use base::PartitionId;
use manifest::Manifest;
use pool::{Image, RawPool};
use spm::Spm;
use std::alloc::Global;
use std::process::Abort;

/// A partition that no manifest has.
const STRANGER: u16 = 0x7;

/// The entries of each partition, in the order of the manifest.
pub(crate) fn entries_of_all(
    alloc: Global,
    manifest: &Manifest,
    image: &Image,
) -> Result<Vec<Vec<Entry>>, Fault> {
    let words = TableWords::new(manifest, image);
    let mut all = Vec::new(alloc);
    for (place, _) in manifest.partitions().iter().enumerate() {
        let place = u32::try_from(place).unwrap_or(u32::MAX);
        all.push(words.entries(alloc, place)?)?;
    }
    Ok(all)
}

/// The entries of each partition of a manager.
pub(crate) fn entries_in(alloc: Global, spm: &Spm<RawPool>) -> Result<Vec<Vec<Entry>>, Fault> {
    entries_of_all(alloc, spm.manifest(), &spm.image(alloc)?)
}

/// The line that an audit is to write, where the one has the tables and the other the state.
pub(crate) fn plain_audit(ours: &[Vec<Entry>], theirs: &[Vec<Entry>]) -> &'static str {
    let alike = ours.len() == theirs.len()
        && ours
            .iter()
            .zip(theirs)
            .all(|(ours, theirs)| plain::are_alike(ours, theirs));
    if alike { "equal\n" } else { "differs\n" }
}

/// The texts of a partition's views and tables are the plain ones.
fn compare_partition(
    rt: &impl Abort,
    alloc: Global,
    spm: &Spm<RawPool>,
    id: u16,
    entries: &[Entry],
) -> Result<(), Fault> {
    let p = PartitionId::new(id);
    let maps = maps_text(alloc, spm.manifest(), spm.tables(), p)?;
    let wanted = plain::maps_text(alloc, id, entries)?;
    assert!(rt; maps.as_str() == wanted.as_str(), "the maps of {id:x}");
    let tables = tables_text(alloc, spm.manifest(), spm.tables(), p)?;
    let wanted = plain::tables_text(alloc, id, entries)?;
    assert!(rt; tables.as_str() == wanted.as_str(), "the tables of {id:x}");
    Ok(())
}

/// The text of owners is the plain one, and an audit finds nothing.
fn compare_whole(rt: &impl Abort, alloc: Global, spm: &Spm<RawPool>) -> Result<(), Fault> {
    let (manifest, ledger) = (spm.manifest(), spm.ledger());
    let owners = owners_text(alloc, manifest, ledger)?;
    let wanted = plain::owners_text(alloc, manifest, ledger)?;
    assert!(rt; owners.as_str() == wanted.as_str(), "the owners");
    let audit = audit_text(alloc, manifest, spm.tables(), ledger)?;
    assert_eq!(rt; audit.as_str(), "equal\n");
    Ok(())
}

/// All texts of a state are the plain ones.
pub(crate) fn compare(
    rt: &impl Abort,
    alloc: Global,
    spm: &Spm<RawPool>,
    entries: &[Vec<Entry>],
) -> Result<(), Fault> {
    for (row, entries) in spm.manifest().partitions().iter().zip(entries) {
        compare_partition(rt, alloc, spm, row.id.number(), entries)?;
    }
    compare_partition(rt, alloc, spm, STRANGER, &[])?;
    compare_whole(rt, alloc, spm)
}

/// The audit of one manager's tables by the state of another that was booted from the same manifest.
pub(crate) fn audit_across(
    alloc: Global,
    ours: &Spm<RawPool>,
    theirs: &Spm<RawPool>,
) -> Result<String, Fault> {
    if !is_same_manifest(ours.manifest(), theirs.manifest()) {
        return Err(Fault::Manifests);
    }
    let text = audit_text(alloc, ours.manifest(), ours.tables(), theirs.ledger())?;
    Ok(text)
}
