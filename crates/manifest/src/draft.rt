//! The rows of a manifest before its rules are known to hold.

ghost use Rattle.std.specs.Prelude.{◌≡◌, ◌+◌, ◌^◌, ◌≤◌, ◌==◌, nat_le, length, true, IfOk, not, ◌&&◌};
ghost use Rattle.std.specs.List.{list_any, list_all};
ghost use Rattle.base.specs.Access.{is_normal};
ghost use Rattle.base.specs.Pages.{are_apart};
ghost use Rattle.base.specs.Manifest.{quotas_of, page_count};
ghost use Rattle.manifest.specs.Valid as rules;
ghost use Rattle.manifest.specs.Numbers.{Tests};

use crate::fault::{Key, ManifestFault, Place, Table};
use crate::manifest::Partition;
use crate::need::need;
use crate::region::{Grant, Region};
use base::{MemoryKind, OutOfMemory, Page, PartitionId, Run};
use std::alloc::Global;
use std::marker::Model;

/// A partition, and its number in the document.
#[derive(Drop)]
pub(crate) struct PartitionDraft {
    pub(crate) number: usize,
    pub(crate) partition: Partition,
}

impl Model for PartitionDraft {
    ghost use Rattle.base.specs.Manifest.{PartitionRow};

    ghost Value = { PartitionRow };

    ghost view = { λ d. record { id = d.partition.id; quota = d.partition.quota } };
}

/// A region, and its number in the document. Its first page is `Page::COUNT` where the document has
/// no page.
#[derive(Drop)]
pub(crate) struct RegionDraft {
    pub(crate) number: usize,
    pub(crate) first: u32,
    pub(crate) count: u32,
    pub(crate) kind: MemoryKind,
    pub(crate) owner: PartitionId,
    pub(crate) grants: Vec<Grant>,
}

impl Model for RegionDraft {
    ghost use Rattle.base.specs.Manifest.{RegionRow};

    ghost Value = { RegionRow };

    ghost view = { λ d. record {
      pages = record { first = d.first; count = d.count };
      kind = d.kind;
      owner = d.owner;
      grants = d.grants.items;
    } };
}

/// The rows of a manifest: partitions in ascending order of identifier, regions in ascending order
/// of address. The pool's first page is `Page::COUNT` where the document has no page.
#[derive(Drop)]
pub(crate) struct Draft {
    pub(crate) pool: u32,
    pub(crate) partitions: Vec<PartitionDraft>,
    pub(crate) regions: Vec<RegionDraft>,
}

impl Model for Draft {
    ghost use Rattle.base.specs.Manifest.{ManifestRows};

    ghost Value = { ManifestRows };

    ghost view = { λ d. record {
      pool = d.pool;
      partitions = d.partitions.items;
      regions = d.regions.items;
    } };
}

impl Draft {
    ghost use Rattle.manifest.specs.Document.{IsInOrder};

    /// The rows, partitions in ascending order of identifier and regions in ascending order of
    /// address.
    pub(crate) fn in_order(self) -> Draft
        ensures { IsInOrder self result }
    {
        let Draft {
            pool,
            mut partitions,
            mut regions,
        } = self;
        partitions.sort_unstable_by_key(|row| row.partition.id.number());
        regions.sort_unstable_by_key(|region| region.first);
        Draft {
            pool,
            partitions,
            regions,
        }
    }
}

impl PartitionDraft {
    /// A key of it in the document.
    fn at(&self, key: Key) -> Place {
        Table::Partition(self.number).at(key)
    }

    /// The key whose number is outside its limits, if one is.
    fn key_outside_limits(&self) -> Key {
        let id = self.partition.id.number();
        if 0x8001 <= id && id <= 0xfffe {
            Key::Quota
        } else {
            Key::Id
        }
    }

    /// Whether its identifier and its quota are within their limits.
    fn is_within_limits(&self) -> bool
        ensures { result ≡ rules.is_partition_row self.now }
    {
        let id = self.partition.id.number();
        let quota = self.partition.quota;
        0x8001 <= id && id <= 0xfffe && 1 <= quota && quota <= 1024
    }
}

impl RegionDraft {
    /// A key of it in the document.
    fn at(&self, key: Key) -> Place {
        Table::Region(self.number).at(key)
    }

    /// The grant at an index among its grants.
    fn at_grant(&self, index: Option<usize>) -> Place {
        let region = self.number;
        match index {
            Some(index) => {
                let grant = index.saturating_add(1);
                Table::Grant { region, grant }.whole()
            }
            None => Table::Region(region).whole(),
        }
    }

    /// The key whose value is outside its limits, if one is.
    fn key_outside_limits(&self) -> Key {
        if self.first >= Page::COUNT {
            Key::Base
        } else if self.count < 1 || self.end() > Page::COUNT as u64 {
            Key::Pages
        } else {
            Key::Grants
        }
    }

    /// Where it names no partition.
    fn unknown_name(&self, partitions: &[PartitionDraft]) -> Place {
        if !has_partition(partitions, self.owner) {
            return self.at(Key::Owner);
        }
        self.at_grant(
            self.grants
                .iter()
                .position(|grant| !has_partition(partitions, grant.partition)),
        )
    }

    /// The number after its last page's.
    fn end(&self) -> u64
        ensures { result ≡ self.now.pages.first + self.now.pages.count }
    {
        self.first as u64 + self.count as u64
    }

    /// Whether it has pages, all of them within input addresses of 39 bits, and 1 to 64 grants.
    fn is_within_limits(&self) -> bool
        ensures { result ≡ rules.is_region_row self.now }
    {
        let grants = self.grants.len();
        (1 <= self.count && self.end() <= Page::COUNT as u64) && (1 <= grants && grants <= 64)
    }

    /// The region, whose own rules hold.
    fn to_region(&self) -> Result<Region, OutOfMemory>
        requires { rules.is_region self.now ≡ true }
        ensures { IfOk result (λ r. r ≡ self.now) }
    {
        let grants = self.grants.clone()?;
        let pages = Run::new(Page::new(self.first), self.count);
        Ok(Region::new(pages, self.kind, self.owner, grants))
    }

    /// Whether the owner is among the grants.
    fn grants_owner(&self) -> bool
        ensures { result ≡ rules.grants_owner self.now }
    {
        self.grants
            .iter()
            .any(|grant| grant.partition == self.owner)
    }

    /// Whether only normal memory is executable.
    fn executes_normal(&self) -> bool
        ensures { result ≡ rules.executes_normal self.now }
    {
        let is_normal = matches!(self.kind, MemoryKind::Normal);
        self.grants.iter().all(|grant| is_normal || !grant.exec)
    }
}

/// Whether none of the grants is the partition's.
fn grants_nothing_to(grants: &[Grant], p: PartitionId) -> bool
    ensures { result ≡ list_all (λ g. not (g.partition == p)) grants.now }
{
    grants.iter().all(|grant| grant.partition != p)
}

/// Whether no partition stands in two of the grants.
fn are_distinct(grants: &[Grant]) -> bool
    ensures { result ≡ rules.are_distinct grants.now }
{
    match grants {
        [] => true,
        [grant, others @ ..] => {
            grants_nothing_to(others, grant.partition) && are_distinct(others)
        }
    }
}

/// The index of a grant whose partition stands in one before it.
fn second_grant(grants: &[Grant]) -> Option<usize> {
    for (i, grant) in grants.iter().enumerate() {
        if !grants_nothing_to(&grants[..i], grant.partition) {
            return Some(i);
        }
    }
    None
}

/// Whether one of the partitions has the identifier.
fn has_partition(partitions: &[PartitionDraft], id: PartitionId) -> bool
    ensures { result ≡ rules.has_row partitions.now id }
{
    partitions.iter().any(|row| row.partition.id == id)
}

/// Whether each grant names a partition.
fn are_named(partitions: &[PartitionDraft], grants: &[Grant]) -> bool
    ensures { result ≡ list_all (λ g. rules.has_row partitions.now g.partition) grants.now }
{
    grants
        .iter()
        .all(|grant| has_partition(partitions, grant.partition))
}

/// Whether the owner and the grants of a region name partitions.
fn names_partitions(partitions: &[PartitionDraft], region: &RegionDraft) -> bool
    ensures { result ≡ rules.names_partitions partitions.now region.now }
{
    has_partition(partitions, region.owner) && are_named(partitions, &region.grants)
}

/// Each partition is within its limits.
fn check_partitions(partitions: &[PartitionDraft]) -> Result<(), ManifestFault>
    ensures { Tests (list_all rules.is_partition_row partitions.now) 4 result }
{
    for row in partitions {
        if !row.is_within_limits() {
            return Err(ManifestFault::Limit(row.at(row.key_outside_limits())));
        }
    }
    Ok(())
}

/// Each region is within its limits.
fn check_regions(regions: &[RegionDraft]) -> Result<(), ManifestFault>
    ensures { Tests (list_all rules.is_region_row regions.now) 4 result }
{
    for region in regions {
        if !region.is_within_limits() {
            return Err(ManifestFault::Limit(region.at(region.key_outside_limits())));
        }
    }
    Ok(())
}

/// How many pages the table pool has for these partitions: a root for each, and their quotas.
fn table_pages(partitions: &[PartitionDraft]) -> u64
    requires { length partitions.now ≤ 64 }
    ensures same { result ≡ page_count (quotas_of partitions.now) }
    ensures in_range { result ≤ 2 ^ 40 }
{
    let mut pages = 0;
    for row in partitions {
        pages += 1 + row.partition.quota as u64;
    }
    pages
}

/// There are 1 to 64 partitions and as many regions.
fn check_counts(draft: &Draft) -> Result<(), ManifestFault>
    ensures { Tests (rules.is_few draft.now.partitions && rules.is_few draft.now.regions) 4 result }
{
    let (partitions, regions) = (draft.partitions.len(), draft.regions.len());
    if (1 <= partitions && partitions <= 64) && (1 <= regions && regions <= 64) {
        Ok(())
    } else {
        let key = if 1 <= partitions && partitions <= 64 {
            Key::Region
        } else {
            Key::Partition
        };
        Err(ManifestFault::Limit(Table::Document.at(key)))
    }
}

/// The pool ends within input addresses of 39 bits.
fn check_pool(draft: &Draft) -> Result<(), ManifestFault>
    requires { length draft.now.partitions ≤ 64 }
    ensures { Tests (rules.pool_ends draft.now) 4 result }
{
    if draft.pool as u64 + table_pages(&draft.partitions) <= Page::COUNT as u64 {
        Ok(())
    } else {
        Err(ManifestFault::Limit(Table::Document.at(Key::Pool)))
    }
}

/// Numbers are within their limits.
pub(crate) fn check_limits(draft: &Draft) -> Result<(), ManifestFault>
    ensures { Tests (rules.is_within_limits draft.now) 4 result }
{
    check_counts(draft)?;
    check_partitions(&draft.partitions)?;
    check_regions(&draft.regions)?;
    check_pool(draft)
}

/// Each identifier stands once.
fn check_rise(partitions: &[PartitionDraft]) -> Result<(), ManifestFault>
    ensures { Tests (rules.rise_from 0 partitions.now) 5 result }
{
    let mut least = 0;
    for row in partitions {
        let id = row.partition.id.number() as u32;
        if id < least {
            return Err(ManifestFault::Identifier(row.at(Key::Id)));
        }
        least = id + 1;
    }
    Ok(())
}

/// Owners and grants name partitions.
fn check_names(draft: &Draft) -> Result<(), ManifestFault>
    ensures { Tests (rules.regions_name_partitions draft.now) 5 result }
{
    for region in &draft.regions {
        if !names_partitions(&draft.partitions, region) {
            return Err(ManifestFault::Identifier(region.unknown_name(&draft.partitions)));
        }
    }
    Ok(())
}

/// Each identifier stands once, and owners and grants name partitions.
pub(crate) fn check_identifiers(draft: &Draft) -> Result<(), ManifestFault>
    ensures { Tests (rules.names_partitions_once draft.now) 5 result }
{
    check_rise(&draft.partitions)?;
    check_names(draft)
}

/// No two regions share a page.
fn check_order(regions: &[RegionDraft]) -> Result<(), ManifestFault>
    ensures { Tests (rules.begin_from 0 regions.now) 6 result }
{
    let mut end = 0;
    for region in regions {
        if (region.first as u64) < end {
            return Err(ManifestFault::Overlap(region.at(Key::Base)));
        }
        end = region.end();
    }
    Ok(())
}

/// No region shares a page with the pool.
fn check_pool_apart(draft: &Draft) -> Result<(), ManifestFault>
    requires { length draft.now.partitions ≤ 64 }
    ensures { Tests (rules.pool_is_apart draft.now) 6 result }
{
    let pool = draft.pool as u64;
    let end = pool + table_pages(&draft.partitions);
    for region in &draft.regions {
        if !(end <= region.first as u64 || region.end() <= pool) {
            return Err(ManifestFault::Overlap(region.at(Key::Base)));
        }
    }
    Ok(())
}

/// No two regions share a page, nor a region and the pool.
pub(crate) fn check_overlaps(draft: &Draft) -> Result<(), ManifestFault>
    requires { length draft.now.partitions ≤ 64 }
    ensures { Tests (rules.shares_no_page draft.now) 6 result }
{
    check_order(&draft.regions)?;
    check_pool_apart(draft)
}

/// Each owner has a grant.
pub(crate) fn check_owners(regions: &[RegionDraft]) -> Result<(), ManifestFault>
    ensures { Tests (list_all rules.grants_owner regions.now) 7 result }
{
    for region in regions {
        if !region.grants_owner() {
            return Err(ManifestFault::OwnerWithoutGrant(region.at(Key::Owner)));
        }
    }
    Ok(())
}

/// No partition has two grants in one region.
pub(crate) fn check_grants(regions: &[RegionDraft]) -> Result<(), ManifestFault>
    ensures { Tests (list_all (λ r. rules.are_distinct r.grants) regions.now) 8 result }
{
    for region in regions {
        if !are_distinct(&region.grants) {
            return Err(ManifestFault::SecondGrant(region.at_grant(second_grant(&region.grants))));
        }
    }
    Ok(())
}

/// Only normal memory is executable.
pub(crate) fn check_executable(regions: &[RegionDraft]) -> Result<(), ManifestFault>
    ensures { Tests (list_all rules.executes_normal regions.now) 9 result }
{
    for region in regions {
        if !region.executes_normal() {
            let executable = region.grants.iter().position(|grant| grant.exec);
            return Err(ManifestFault::ExecutableDevice(region.at_grant(executable)));
        }
    }
    Ok(())
}

/// Each quota is at least what the partition's grants need.
pub(crate) fn check_quotas(
    partitions: &[PartitionDraft],
    regions: &[Region],
) -> Result<(), ManifestFault>
    requires { rules.begin_from 0 regions.now ≡ true }
    ensures { Tests (list_all (rules.fits_quota regions.now) partitions.now) 10 result }
{
    for row in partitions {
        if row.partition.quota < need(regions, row.partition.id) {
            return Err(ManifestFault::Quota(row.at(Key::Quota)));
        }
    }
    Ok(())
}

/// Regions whose own rules hold.
pub(crate) fn to_regions(alloc: Global, drafts: &[RegionDraft]) -> Result<Vec<Region>, OutOfMemory>
    requires { list_all rules.is_region drafts.now ≡ true }
    ensures { IfOk result (λ regions. regions.items ≡ drafts.now) }
{
    let mut regions = Vec::with_capacity(alloc, drafts.len())?;
    for draft in drafts {
        regions.push(draft.to_region()?)?;
    }
    Ok(regions)
}

/// The partitions, without their numbers.
pub(crate) fn to_partitions(
    alloc: Global,
    drafts: &[PartitionDraft],
) -> Result<Vec<Partition>, OutOfMemory>
    ensures { IfOk result (λ partitions. partitions.items ≡ drafts.now) }
{
    let mut partitions = Vec::with_capacity(alloc, drafts.len())?;
    for draft in drafts {
        partitions.push(draft.partition)?;
    }
    Ok(partitions)
}
