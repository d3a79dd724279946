ghost use Rattle.std.specs.Prelude.{◌≡◌, ℕ, ◌+◌, ◌<◌, ◌≤◌, ◌^◌, ◌==◌, IsTrue, MatchResult};
ghost use Rattle.std.specs.Option.{option_map};
ghost use Rattle.base.specs.Manifest as rows;
ghost use Rattle.manifest.specs.Valid.{is_valid, row_with, quota_of};
ghost use Rattle.manifest.specs.Numbers.{IsOfRows, AppliesTo};
ghost use Rattle.base.specs.Need as tables;

use crate::draft::{
    Draft, check_executable, check_grants, check_identifiers, check_limits, check_overlaps,
    check_owners, check_quotas, to_partitions, to_regions,
};
use crate::fault::ManifestFault;
use crate::region::Region;
use crate::{lookup, need};
use base::{Access, Page, PartitionId};
use std::alloc::Global;
use std::marker::Model;

/// A partition, and how many table pages it may have, its root apart.
#[derive(Clone, Copy, Debug, PartialEq, Eq)]
pub struct Partition {
    pub id: PartitionId,
    pub quota: u32,
}

impl Model for Partition {
    ghost use Rattle.base.specs.Manifest.{PartitionRow};

    ghost Value = { PartitionRow };

    ghost view = { λ p. record { id = p.id; quota = p.quota } };

    ghost inverse = { λ p. record { id = p.id; quota = p.quota } };
}

/// The partitions in ascending order of identifier, the regions in ascending order of address, and
/// where the table pool begins. Every value of the type keeps the rules of a manifest.
#[derive(Drop)]
pub struct Manifest {
    pool: Page,
    partitions: Vec<Partition>,
    regions: Vec<Region>,
}

impl Model for Manifest {
    ghost use Rattle.std.specs.Prelude.{IsTrue};
    ghost use Rattle.base.specs.Manifest.{ManifestRows};
    ghost use Rattle.manifest.specs.Valid.{is_valid};

    ghost Value = { ManifestRows };

    ghost view = { λ m. record {
      pool = m.pool;
      partitions = m.partitions.items;
      regions = m.regions.items;
    } };

    ghost invariant = { λ m. IsTrue (is_valid (record {
      pool = m.pool;
      partitions = m.partitions.items;
      regions = m.regions.items;
    })) };
}

impl Manifest {
    /// The manifest of these rows, or the first rule that they break.
    pub(crate) fn new(alloc: Global, draft: &Draft) -> Result<Self, ManifestFault>
        ensures { MatchResult result (IsOfRows draft.now) (AppliesTo draft.now) }
    {
        check_limits(draft)?;
        check_identifiers(draft)?;
        check_overlaps(draft)?;
        check_owners(&draft.regions)?;
        check_grants(&draft.regions)?;
        check_executable(&draft.regions)?;
        let regions = to_regions(alloc, &draft.regions)?;
        check_quotas(&draft.partitions, &regions)?;
        let partitions = to_partitions(alloc, &draft.partitions)?;
        Ok(Manifest {
            pool: Page::new(draft.pool),
            partitions,
            regions,
        })
    }

    /// The first page of the table pool.
    pub fn pool(&self) -> Page
        ensures same { result ≡ self.now.pool }
        ensures valid { IsTrue (is_valid self.now) }
    {
        self.pool
    }

    /// The partitions, in ascending order of identifier.
    pub fn partitions(&self) -> &[Partition]
        ensures same { result.now ≡ self.now.partitions }
        ensures valid { IsTrue (is_valid self.now) }
    {
        &self.partitions
    }

    /// The regions, in ascending order of address.
    pub fn regions(&self) -> &[Region]
        ensures same { result.now ≡ self.now.regions }
        ensures valid { IsTrue (is_valid self.now) }
    {
        &self.regions
    }

    /// How many table pages a partition may have, its root apart; 0 for one that has no row.
    pub fn quota(&self, p: PartitionId) -> u32
        ensures { result ≡ quota_of self.now p }
    {
        match self.row(p) {
            Some(row) => row.quota,
            None => 0,
        }
    }

    /// How many table pages the partition's grants need, its root apart: a level 3 table for each
    /// chunk of 512 pages that are not all granted alike, and a level 2 table for each gigabyte of
    /// which a page is granted (Arm ARM, VMSAv8-64, 4 KB granule).
    pub fn need(&self, p: PartitionId) -> u32
        ensures { result ≡ tables.need (rows.grant self.now p) }
    {
        need::need(&self.regions, p)
    }

    /// How many pages the table pool has: a root for each partition, and their quotas.
    pub fn table_pages(&self) -> u32
        ensures same { result ≡ rows.page_count (rows.quotas_of self.now.partitions) }
        ensures in_range { self.now.pool + result ≤ 2 ^ 27 }
    {
        page_count(self.partitions())
    }

    /// The row of a partition.
    fn row(&self, p: PartitionId) -> Option<&Partition>
        ensures { option_map (λ row. row.now) result ≡ row_with self.now.partitions p }
    {
        let rows = self.partitions();
        let place = rows.partition_point(|row| row.id.number() < p.number());
        let row = rows.get(place)?;
        if row.id == p { Some(row) } else { None }
    }

    /// The region of a page, if one covers it.
    pub fn region_at(&self, page: Page) -> Option<&Region>
        ensures { option_map (λ r. r.now) result ≡ rows.region_at self.now page }
    {
        lookup::region_at(&self.regions, page)
    }

    /// The number of a page up to which all pages from a page on have its region, or like it none. It is found by
    /// halving.
    pub fn region_until(&self, region: Option<&Region>, page: Page) -> u32
        requires { option_map (λ r. r.now) region ≡ rows.region_at self.now page }
        ensures behind { page < result }
        ensures in_range { result ≤ 2 ^ 27 }
        ensures same { (n : ℕ) → page ≤ n → n < result
            → rows.region_at self.now n ≡ rows.region_at self.now page }
    {
        let regions = self.regions();
        match region {
            Some(region) => region.pages().end(),
            None => lookup::gap_until(regions, page),
        }
    }

    /// What the manifest grants to a partition at a page.
    pub fn grant(&self, p: PartitionId, page: Page) -> Option<Access>
        ensures { result ≡ rows.grant self.now p page }
    {
        lookup::grant_at(&self.regions, p, page)
    }

    /// The partition that owns a page; None outside all regions.
    pub fn owner(&self, page: Page) -> Option<PartitionId>
        ensures { result ≡ option_map (λ r. r.owner) (rows.region_at self.now page) }
    {
        Some(self.region_at(page)?.owner())
    }
}

/// How many pages the table pool has for these partitions.
fn page_count(partitions: &[Partition]) -> u32
    requires { rows.page_count (rows.quotas_of partitions.now) ≤ 2 ^ 27 }
    ensures { result ≡ rows.page_count (rows.quotas_of partitions.now) }
{
    let mut pages = 0;
    for row in partitions {
        pages += 1 + row.quota;
    }
    pages
}
