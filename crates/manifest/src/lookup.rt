//! Look-ups by page in regions that stand in ascending order of address.

ghost use Rattle.std.specs.Prelude.{◌≡◌, ℕ, ◌<◌, ◌≤◌, ◌^◌, true, None};
ghost use Rattle.std.specs.List.{find};
ghost use Rattle.std.specs.Option.{option_map};
ghost use Rattle.base.specs.Pages.{in_run};
ghost use Rattle.manifest.specs.Valid.{begin_from, granted_by};

use crate::region::Region;
use base::{Access, Page, PartitionId};

/// The region of a page, if one covers it.
pub(crate) fn region_at(regions: &[Region], page: Page) -> Option<&Region>
    requires { begin_from 0 regions.now ≡ true }
    ensures { option_map (λ r. r.now) result ≡ find (λ r. in_run r.pages page) regions.now }
{
    let place = regions.partition_point(|region| region.pages().end() <= page.number());
    let region = regions.get(place)?;
    if region.pages().contains(page) {
        Some(region)
    } else {
        None
    }
}

/// The first page of the region behind a page that none covers, or where there is none the end of all pages.
pub(crate) fn gap_until(regions: &[Region], page: Page) -> u32
    requires begins { begin_from 0 regions.now ≡ true }
    requires gap { find (λ r. in_run r.pages page) regions.now ≡ None }
    ensures behind { page < result }
    ensures in_range { result ≤ 2 ^ 27 }
    ensures gap { (n : ℕ) → page ≤ n → n < result
        → find (λ r. in_run r.pages n) regions.now ≡ None }
{
    let place = regions.partition_point(|region| region.pages().end() <= page.number());
    match regions.get(place) {
        Some(region) => region.pages().first().number(),
        None => Page::COUNT,
    }
}

/// What the regions grant to a partition at a page.
pub(crate) fn grant_at(regions: &[Region], p: PartitionId, page: Page) -> Option<Access>
    requires { begin_from 0 regions.now ≡ true }
    ensures { result ≡ granted_by regions.now p page }
{
    region_at(regions, page)?.access(p)
}
