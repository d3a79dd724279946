ghost use Rattle.std.specs.Prelude.{◌≡◌, [], OnOk};
ghost use Rattle.stage2.specs.Slot.{layout_of};

use arrayvec::ArrayVec;
use audit::{audit_text, check_text, maps_text, owners_text, tables_text};
use base::{Access, Handle, Kind, OutOfMemory, Page, PartitionId, Rights, Run};
use ledger::{Ledger, Live, Terms};
use manifest::{Manifest, common_manifest};
use pool::ListPool;
use stage2::Tables;
use std::alloc::Global;
use std::test::Fail;

/// Of 0x8001 a level 3 table each for the device, the buffers and the page that it shares, and a level 2
/// table for each of three gigabytes. Its two blocks need none.
#[test]
fn writes_needs(rt: HostRuntime) -> Result<(), Fail> {
    let alloc = rt.alloc();
    let text = check_text(alloc, &common_manifest(alloc)?)?;
    let wanted = "8001 need 6 quota 16\n8002 need 4 quota 16\n8003 need 2 quota 16\n";
    assert_eq!(rt; text.as_str(), wanted);
    Ok(())
}

#[test]
fn writes_maps(rt: HostRuntime) -> Result<(), Fail> {
    let alloc = rt.alloc();
    let manifest = common_manifest(alloc)?;
    let tables: Tables<ListPool> = Tables::boot(alloc, &manifest)?;
    let text = maps_text(alloc, &manifest, &tables, PartitionId::new(0x8001))?;
    let wanted = "maps 8001 4\n\
        0009000000 1 rw- device\n\
        0080000000 1024 rwx normal\n\
        0090000000 2 rw- normal\n\
        00d0000000 1 rw- normal\n";
    assert_eq!(rt; text.as_str(), wanted);
    Ok(())
}

#[test]
fn writes_tables(rt: HostRuntime) -> Result<(), Fail> {
    let alloc = rt.alloc();
    let manifest = common_manifest(alloc)?;
    let tables: Tables<ListPool> = Tables::boot(alloc, &manifest)?;
    let text = tables_text(alloc, &manifest, &tables, PartitionId::new(0x8001))?;
    let wanted = "tables 8001 6\n\
        L1 0000000000 table\n\
        L2 0009000000 table\n\
        L3 0009000000 00400000090004c7\n\
        L1 0080000000 table\n\
        L2 0080000000 00000000800007fd\n\
        L2 0080200000 00000000802007fd\n\
        L2 0090000000 table\n\
        L3 0090000000 00400000900007ff\n\
        L3 0090001000 00400000900017ff\n\
        L1 00c0000000 table\n\
        L2 00d0000000 table\n\
        L3 00d0000000 00400000d00007ff\n";
    assert_eq!(rt; text.as_str(), wanted);
    Ok(())
}

#[test]
fn writes_owners(rt: HostRuntime) -> Result<(), Fail> {
    let alloc = rt.alloc();
    let manifest = common_manifest(alloc)?;
    let ledger = Ledger::new(alloc, common_manifest(alloc)?)?;
    let text = owners_text(alloc, &manifest, &ledger)?;
    let wanted = "owners 7\n\
        0009000000 1 8001 rw- device\n\
        0080000000 1024 8001 rwx normal\n\
        0090000000 2 8001 rw- normal\n\
        00a0000000 512 8002 rw- normal\n\
        00b0000000 2 8002 rw- normal\n\
        00c0000000 2 8003 rw- normal\n\
        00d0000000 1 8001 rw- normal\n";
    assert_eq!(rt; text.as_str(), wanted);
    Ok(())
}

/// Half of all pages, outside all regions, were donated together: they are one run, which few looks find. A look at
/// each page would take minutes here.
#[test]
fn writes_owners_outside_all_regions(rt: HostRuntime) -> Result<(), Fail> {
    let alloc = rt.alloc();
    let manifest = common_manifest(alloc)?;
    let mut ledger = Ledger::new(alloc, common_manifest(alloc)?)?;
    let half = Page::COUNT / 2;
    donate(&mut ledger, alloc, Run::new(Page::new(half), half))?;
    let wanted = "owners 8\n\
        0009000000 1 8001 rw- device\n\
        0080000000 1024 8001 rwx normal\n\
        0090000000 2 8001 rw- normal\n\
        00a0000000 512 8002 rw- normal\n\
        00b0000000 2 8002 rw- normal\n\
        00c0000000 2 8003 rw- normal\n\
        00d0000000 1 8001 rw- normal\n\
        4000000000 67108864 8002 rw- normal\n";
    for _ in 0..100 {
        let text = owners_text(alloc, &manifest, &ledger)?;
        assert_eq!(rt; text.as_str(), wanted);
    }
    Ok(())
}

/// Pages are given from 0x8001 to 0x8002, as data.
fn donate(ledger: &mut Ledger, alloc: Global, run: Run) -> Result<(), OutOfMemory>
    ensures { OnOk result (ledger.new.manifest ≡ ledger.old.manifest) }
{
    let data = Access::normal(Rights::Rw, false);
    let giver = PartitionId::new(0x8001);
    let handle = Handle::new(giver, 1);
    let terms = Terms {
        kind: Kind::Donate,
        sender: giver,
        tag: 0,
        ranges: vec![in alloc; run]?,
        receivers: ArrayVec::new(),
        home: data,
    };
    let terms = Box::new(alloc, terms)?;
    open(ledger, Live { handle, terms })?;
    ledger.retrieve(PartitionId::new(0x8002), handle, data)
}

/// Opens a transaction with a handle of its sender's, where none is live.
fn open(ledger: &mut Ledger, transaction: Live) -> Result<(), OutOfMemory>
    ensures { OnOk result (ledger.new.manifest ≡ ledger.old.manifest) }
{
    let named = transaction.handle.high() == u32::from(transaction.terms.sender.number());
    if named && ledger.live().is_empty() {
        ledger.open(transaction)?;
    }
    Ok(())
}

/// A partition that has no row reaches nothing, and has no tables.
#[test]
fn writes_headers_of_a_stranger(rt: HostRuntime) -> Result<(), Fail> {
    let alloc = rt.alloc();
    let manifest = common_manifest(alloc)?;
    let tables: Tables<ListPool> = Tables::boot(alloc, &manifest)?;
    let stranger = PartitionId::new(0x7);
    let maps = maps_text(alloc, &manifest, &tables, stranger)?;
    let entries = tables_text(alloc, &manifest, &tables, stranger)?;
    assert_eq!(rt; maps.as_str(), "maps 0007 0\n");
    assert_eq!(rt; entries.as_str(), "tables 0007 0\n");
    Ok(())
}

/// The tables of boot are those of the ledger before any call, and empty ones are not.
#[test]
fn audits_boot(rt: HostRuntime) -> Result<(), Fail> {
    let alloc = rt.alloc();
    let manifest = common_manifest(alloc)?;
    let ledger = Ledger::new(alloc, common_manifest(alloc)?)?;
    let booted: Tables<ListPool> = Tables::boot(alloc, &manifest)?;
    let empty: Tables<ListPool> = Tables::empty(alloc, &manifest)?;
    let equal = audit_boot(alloc, &manifest, &booted, &ledger)?;
    let differs = audit_boot(alloc, &manifest, &empty, &ledger)?;
    assert_eq!(rt; equal.as_str(), "equal\n");
    assert_eq!(rt; differs.as_str(), "differs\n");
    Ok(())
}

/// An audit against the ledger before any call.
fn audit_boot(
    alloc: Global,
    manifest: &Manifest,
    tables: &Tables<ListPool>,
    ledger: &Ledger,
) -> Result<String, OutOfMemory>
    requires placed { tables.now.layout ≡ layout_of manifest.now }
    requires donations { ledger.now.donations ≡ [] }
    requires live { ledger.now.live ≡ [] }
{
    let _ = manifest.pool();
    audit_text(alloc, manifest, tables, ledger)
}
