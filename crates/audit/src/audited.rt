//! Whether tables are those that a ledger gives.

ghost use Rattle.std.specs.Prelude.{◌≡◌, ◌++◌, ◌↔◌, ℕ, List, IsTrue, IfOk, OnOk, string_bytes};
ghost use Rattle.stage2.specs.Slot.{layout_of};
ghost use Rattle.stage2.specs.Tables.{view_of};
ghost use Rattle.audit.specs.Audit as spec;
ghost use Rattle.stage2.specs.Listing as listed;
ghost use Rattle.stage2.specs.Reading.{shown};
ghost use Rattle.audit.specs.Laws.{AreOfReached};

use crate::rebuilt::rebuild;
use crate::text::text_of;
use base::{OutOfMemory, PartitionId};
use ledger::Ledger;
use manifest::Manifest;
use pool::{RawPool, TableMem};
use stage2::{TableEntry, Tables};
use std::alloc::Global;

/// The line `equal` where, for every partition, the tables have the entries that the ledger gives, and
/// else the line `differs`. The tables are compared with tables that are made again from the lists of
/// the ledger, which are those of a state that some list of calls leads to.
pub fn audit_text<M: TableMem + Drop>(
    alloc: Global,
    manifest: &Manifest,
    tables: &Tables<M>,
    ledger: &Ledger,
) -> Result<String, OutOfMemory>
    requires placed { tables.now.layout ≡ layout_of manifest.now }
    requires reached { AreOfReached manifest.now ledger.now.donations ledger.now.live }
    ensures { IfOk result (λ text. spec.IsAuditText (string_bytes text)
        (spec.HaveEntriesOf manifest.now ledger.now.donations ledger.now.live tables.now)) }
{
    let mut text = Vec::new(alloc);
    append_audit(&mut text, alloc, manifest, tables, ledger)?;
    Ok(text_of(text))
}

/// Appends the text that `audit_text` makes. Without memory the bytes may end in a part of it.
pub fn append_audit<M: TableMem + Drop>(
    text: &mut Vec<u8>,
    alloc: Global,
    manifest: &Manifest,
    tables: &Tables<M>,
    ledger: &Ledger,
) -> Result<(), OutOfMemory>
    requires placed { tables.now.layout ≡ layout_of manifest.now }
    requires reached { AreOfReached manifest.now ledger.now.donations ledger.now.live }
    ensures { OnOk result ((line : List ℕ) × ((text.new.items ≡ text.old.items ++ line)
        × spec.IsAuditText line
        (spec.HaveEntriesOf manifest.now ledger.now.donations ledger.now.live tables.now))) }
{
    let donations = ledger.donations(alloc)?;
    let rebuilt = rebuild::<RawPool>(alloc, manifest, &donations, ledger.live())?;
    let line = if have_same_entries(manifest, tables, &rebuilt) {
        "equal\n"
    } else {
        "differs\n"
    };
    Ok(text.extend_from_slice(line.as_bytes())?)
}

/// Whether the tables of each partition have the same entries in both.
fn have_same_entries<M: TableMem + Drop>(
    manifest: &Manifest,
    tables: &Tables<M>,
    others: &Tables<RawPool>,
) -> bool
    ensures { spec.Tells result (spec.HaveSameEntries manifest.now tables.now others.now) }
{
    for partition in manifest.partitions() {
        if !has_same_entries(tables, others, partition.id) {
            return false;
        }
    }
    true
}

/// Whether the tables of a partition have the same entries in both. The entries of both come side by side,
/// as far as they are the same.
fn has_same_entries<M: TableMem + Drop>(
    tables: &Tables<M>,
    others: &Tables<RawPool>,
    p: PartitionId,
) -> bool
    ensures { IsTrue result
        ↔ (listed.entries (view_of tables.now p) ≡ listed.entries (view_of others.now p)) }
{
    let mut ours = tables.reader().entries(p);
    let mut theirs = others.reader().entries(p);
    while let Some(entry) = ours.next() {
        match theirs.next() {
            Some(other) if show_the_same(entry, other) => ours.pass_same(&mut theirs),
            _ => return false,
        }
    }
    theirs.next().is_none()
}

/// Whether two entries show the same: a table, or a block or page with one access.
fn show_the_same(ours: TableEntry, theirs: TableEntry) -> bool
    ensures { IsTrue result ↔ (shown ours ≡ shown theirs) }
{
    ours.level() == theirs.level()
        && ours.first() == theirs.first()
        && (ours.word() == theirs.word() || ours.access() == theirs.access())
}
