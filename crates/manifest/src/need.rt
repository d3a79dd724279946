//! How many table pages the grants of a partition need (Arm ARM, VMSAv8-64, 4 KB granule).

ghost use Rattle.std.specs.Prelude.{◌≡◌, ◌+◌, ◌-◌, ◌/◌, ◌^◌, ◌<◌, ◌≤◌, true};
ghost use Rattle.base.specs.Counts.{count_below};
ghost use Rattle.base.specs.Need as tables;
ghost use Rattle.manifest.specs.Valid.{begin_from, granted_by};
ghost use Rattle.manifest.specs.Boundaries.{is_boundary, added, passed};

use crate::lookup::grant_at;
use crate::region::Region;
use base::limits::{CHUNK_PAGES, GIGABYTE_PAGES};
use base::{Page, PartitionId};
use std::marker::Model;

/// Places counted upward: those below `next` were looked at, and `count` of them need a table.
#[derive(Clone, Copy)]
struct Tally {
    count: u32,
    next: u32,
}

impl Model for Tally {
    ghost use Rattle.manifest.specs.Boundaries as boundaries;

    ghost Value = { boundaries.Tally };

    ghost view = { λ t. record { count = t.count; next = t.next } };

    ghost inverse = { λ t. record { count = t.count; next = t.next } };
}

impl Tally {
    /// Nothing was looked at.
    fn new() -> Self
        ensures { result ≡ record { count = 0; next = 0 } }
    {
        Tally { count: 0, next: 0 }
    }

    /// Counts the places from `first` to `end`, but for those that were looked at.
    fn add(&mut self, first: u32, end: u32)
        requires upward { self.old.next ≤ end }
        requires in_range { self.old.count ≤ self.old.next }
        requires run { first ≤ end }
        ensures { self.new ≡ added first end self.old }
    {
        self.count += end - first.max(self.next);
        self.next = end;
    }

    /// Counts the chunk that the page is in, where it needs a table by the views of the page and
    /// of the page before.
    fn pass(&mut self, regions: &[Region], p: PartitionId, page: u32)
        requires ascending { begin_from 0 regions.now ≡ true }
        requires page { page ≤ 2 ^ 27 }
        requires upward { self.old.next ≤ page / 512 + 1 }
        requires in_range { self.old.count ≤ self.old.next }
        ensures { self.new ≡ passed (granted_by regions.now p) page self.old }
    {
        if changes_inside_chunk(regions, p, page) {
            self.add(page / CHUNK_PAGES, page / CHUNK_PAGES + 1);
        }
    }
}

/// Whether a page begins inside a chunk, and its view is not that of the page before it.
fn changes_inside_chunk(regions: &[Region], p: PartitionId, page: u32) -> bool
    requires ascending { begin_from 0 regions.now ≡ true }
    requires page { page ≤ 2 ^ 27 }
    ensures { result ≡ is_boundary (granted_by regions.now p) page }
{
    page % CHUNK_PAGES != 0
        && grant_at(regions, p, Page::new(page - 1)) != grant_at(regions, p, Page::new(page))
}

/// The chunks whose 512 views are not all equal.
fn mixed_chunks(regions: &[Region], p: PartitionId) -> u32
    requires { begin_from 0 regions.now ≡ true }
    ensures same { result ≡ count_below (tables.is_mixed (granted_by regions.now p)) 262144 }
    ensures in_range { result ≤ 262144 }
{
    let mut tally = Tally::new();
    for region in regions {
        tally.pass(regions, p, region.pages().first().number());
        tally.pass(regions, p, region.pages().end());
    }
    tally.count
}

/// The gigabytes of which a page is reached.
fn reached_gigabytes(regions: &[Region], p: PartitionId) -> u32
    requires { begin_from 0 regions.now ≡ true }
    ensures same { result ≡ count_below (tables.is_reached (granted_by regions.now p)) 512 }
    ensures in_range { result ≤ 512 }
{
    let mut tally = Tally::new();
    for region in regions {
        let pages = region.pages();
        if region.access(p).is_some() {
            tally.add(
                pages.first().number() / GIGABYTE_PAGES,
                (pages.end() - 1) / GIGABYTE_PAGES + 1,
            );
        }
    }
    tally.count
}

/// How many table pages the grants of a partition need, the root apart: a level 3 table for each
/// chunk whose pages are not all granted alike, and a level 2 table for each gigabyte with a page
/// that is granted. The regions are in ascending order of address.
pub(crate) fn need(regions: &[Region], p: PartitionId) -> u32
    requires { begin_from 0 regions.now ≡ true }
    ensures { result ≡ tables.need (granted_by regions.now p) }
{
    reached_gigabytes(regions, p) + mixed_chunks(regions, p)
}
