//! Where things lie in the table pool. Its first pages are the partitions' roots, in ascending order of
//! identifier; behind all roots lie their shares, in the same order, each of as many pages as its quota.

ghost use Rattle.std.specs.Prelude.{◌≡◌, ◌+◌, ◌-◌, ◌<◌, ◌≤◌, ◌^◌, ◌==◌, ◌&&◌, length, position, sum, Some, None, IfOk, nat_le, nat_lt, if◌then◌else◌};
ghost use Rattle.base.specs.Manifest.{ids_of, page_count};
ghost use Rattle.base.specs.Manifest as rows;
ghost use Rattle.pool.specs.Pool.{AreShareStarts};

use base::{OutOfMemory, Page, PartitionId};
use manifest::Partition;
use std::alloc::Global;

/// The quotas of partitions, in their order.
pub fn quotas_of(alloc: Global, partitions: &[Partition]) -> Result<Vec<u32>, OutOfMemory>
    ensures { IfOk result (λ quotas. quotas.items ≡ rows.quotas_of partitions.now) }
{
    Ok(partitions.iter().map(|row| row.quota).collect(alloc)?)
}

/// The row of a partition among these, which is also the pool page of its root.
pub fn row_of(ids: &[PartitionId], p: PartitionId) -> Option<usize>
    ensures { result ≡ position (λ id. id == p) ids.now }
{
    ids.iter().position(|id| *id == p)
}

/// The row of a partition among those of a manifest.
pub fn row_in(partitions: &[Partition], p: PartitionId) -> Option<usize>
    ensures { result ≡ position (λ id. id == p) (ids_of partitions.now) }
{
    place_of(partitions, p)
}

fn place_of(partitions: &[Partition], p: PartitionId) -> Option<usize>
    ensures { result ≡ position (λ row. row.id == p) partitions.now }
{
    partitions.iter().position(|row| row.id == p)
}

/// The sum of quotas.
pub(crate) fn total(quotas: &[u32]) -> u32
    requires { sum quotas.now < 2 ^ 32 }
    ensures { result ≡ sum quotas.now }
{
    quotas.iter().sum()
}

/// The first page of each row's share.
pub(crate) fn share_starts(alloc: Global, quotas: &[u32]) -> Result<Vec<u32>, OutOfMemory>
    requires { page_count quotas.now ≤ 2 ^ 27 }
    ensures { IfOk result (λ starts. AreShareStarts quotas.now starts.items) }
{
    let mut starts = Vec::with_capacity(alloc, quotas.len())?;
    let mut start = quotas.len() as u32;
    for quota in quotas {
        starts.push(start)?;
        start += quota;
    }
    Ok(starts)
}

/// The page of memory of a pool page, in a pool that begins at this page of memory.
pub fn address_of(base: u32, page: u32) -> Page
    requires { base + page < 2 ^ 27 }
    ensures { result ≡ base + page }
{
    Page::new(base + page)
}

/// The pool page that is this page of memory, in a pool of so many pages that begins at a page of memory.
pub fn page_at(base: u32, pages: u32, address: Page) -> Option<u32>
    requires { base + pages ≤ 2 ^ 27 }
    ensures { result ≡ (if nat_le base address && nat_lt address (base + pages)
        then Some (address - base) else None) }
{
    let number = address.number();
    if base <= number && number < base + pages {
        Some(number - base)
    } else {
        None
    }
}
