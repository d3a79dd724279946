//! A manifest for tests of the crates above.

ghost use Rattle.std.specs.Prelude.{◌≡◌, false, IfOk};
ghost use Rattle.manifest.specs.Common as rows;

use crate::draft::{Draft, PartitionDraft, RegionDraft};
use crate::manifest::{Manifest, Partition};
use crate::region::Grant;
use base::{MemoryKind, OutOfMemory, PartitionId, Rights};
use std::alloc::Global;

/// A partition of 16 table pages.
fn partition(number: usize, id: u16) -> PartitionDraft
    ensures { result ≡ rows.partition_row id }
{
    let id = PartitionId::new(id);
    PartitionDraft {
        number,
        partition: Partition { id, quota: 16 },
    }
}

/// A grant that cannot be executed.
fn data_grant(p: u16, rights: Rights) -> Grant
    ensures { result ≡ record { partition = p; rights = rights; exec = false } }
{
    Grant {
        partition: PartitionId::new(p),
        rights,
        exec: false,
    }
}

/// Normal memory that its owner alone is granted.
fn private_region(
    alloc: Global,
    first: u32,
    count: u32,
    owner: u16,
    exec: bool,
) -> Result<RegionDraft, OutOfMemory>
    ensures { IfOk result (λ r. r ≡ rows.private_row first count owner exec) }
{
    let owner = PartitionId::new(owner);
    let grant = Grant {
        partition: owner,
        rights: Rights::Rw,
        exec,
    };
    Ok(RegionDraft {
        number: 0,
        first,
        count,
        kind: MemoryKind::Normal,
        owner,
        grants: vec![in alloc; grant]?,
    })
}

/// A page of device memory.
fn device_region(alloc: Global) -> Result<RegionDraft, OutOfMemory>
    ensures { IfOk result (λ r. r ≡ rows.device_row) }
{
    Ok(RegionDraft {
        number: 0,
        first: 0x9000,
        count: 1,
        kind: MemoryKind::Device,
        owner: PartitionId::new(0x8001),
        grants: vec![in alloc; data_grant(0x8001, Rights::Rw)]?,
    })
}

/// A page that its owner writes and another partition reads.
fn shared_region(alloc: Global) -> Result<RegionDraft, OutOfMemory>
    ensures { IfOk result (λ r. r ≡ rows.shared_row) }
{
    let grants = vec![in alloc;
        data_grant(0x8001, Rights::Rw),
        data_grant(0x8002, Rights::Ro),
    ]?;
    Ok(RegionDraft {
        number: 0,
        first: 0xd_0000,
        count: 1,
        kind: MemoryKind::Normal,
        owner: PartitionId::new(0x8001),
        grants,
    })
}

/// The seven regions, in ascending order of address.
fn regions(alloc: Global) -> Result<Vec<RegionDraft>, OutOfMemory>
    ensures { IfOk result (λ regions. regions.items ≡ rows.common_rows.regions) }
{
    let regions = vec![in alloc;
        device_region(alloc)?,
        private_region(alloc, 0x8_0000, 1024, 0x8001, true)?,
        private_region(alloc, 0x9_0000, 2, 0x8001, false)?,
        private_region(alloc, 0xa_0000, 512, 0x8002, false)?,
        private_region(alloc, 0xb_0000, 2, 0x8002, false)?,
        private_region(alloc, 0xc_0000, 2, 0x8003, false)?,
        shared_region(alloc)?,
    ]?;
    Ok(regions)
}

/// The common manifest: partitions 0x8001, 0x8002 and 0x8003 of 16 table pages each, their private
/// memory, a device of 0x8001, and a page of 0x8001 that 0x8002 may read.
///
/// Its rows break no rule (shown by a test), so want of memory is the one error that comes.
pub fn common_manifest(alloc: Global) -> Result<Manifest, OutOfMemory>
    ensures { IfOk result (λ m. m ≡ rows.common_rows) }
{
    let partitions = vec![in alloc;
        partition(1, 0x8001),
        partition(2, 0x8002),
        partition(3, 0x8003),
    ]?;
    let draft = Draft {
        pool: 0x4_0000,
        partitions,
        regions: regions(alloc)?,
    };
    Manifest::new(alloc, &draft).map_err(|_| OutOfMemory)
}
