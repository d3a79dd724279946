//! Pages that are free for a partition, buffers apart, segment by segment.

ghost use Rattle.std.specs.Prelude.{◌≡◌, ◌==◌, ◌≤◌, ◌<◌, ◌^◌, ℕ, false};
ghost use Rattle.std.specs.Option.{option_map, option_map_or};
ghost use Rattle.base.specs.Ledger as rules;
ghost use Rattle.base.specs.Manifest as rows;
ghost use Rattle.ledger.specs.Free as spec;

use crate::ledger::{Ledger, home_by, owner_by};
use base::{Access, MemoryKind, Page, PartitionId, Segment};
use manifest::Region;

/// Who owns pages, and what they are to it.
#[derive(Clone, Copy, Debug, PartialEq, Eq)]
pub struct Owned {
    /// The partition that owns them; None where they have no owner.
    pub owner: Option<PartitionId>,
    /// What they are to their owner; None where they have none.
    pub home: Option<Access>,
}

/// What decides for whom pages are free, buffers apart.
#[derive(Clone, Copy, Debug, PartialEq, Eq)]
pub struct Standing {
    /// The partition that owns them; None outside all regions.
    pub owner: Option<PartitionId>,
    /// What they are to their owner; None outside all regions.
    pub home: Option<Access>,
    /// Whether a live transaction covers them.
    pub is_live: bool,
    /// Whether they are normal memory with exactly one grant in the manifest.
    pub is_sharable: bool,
}

impl Standing {
    /// The home of the pages, where they are free for a partition, buffers apart: it owns them, they are
    /// normal memory with exactly one grant, and no live transaction covers them.
    pub fn idle_home(&self, p: PartitionId) -> Option<Access>
        ensures { (m : _) → (donations : _) → (live : _) → (n : ℕ)
            → spec.IsAlike m donations live self.now n
            → spec.idle_home m donations live p n ≡ result }
    {
        if self.is_idle_for(p) { self.home } else { None }
    }

    fn is_idle_for(&self, p: PartitionId) -> bool
        ensures { result ≡ spec.is_idle_for self.now p }
    {
        is_owned_by(self.owner, p) && self.is_sharable && !self.is_live
    }
}

impl Ledger {
    /// Who owns a page and those behind it, whether or not they are live. It is found by halving.
    pub fn owned(&self, page: Page) -> Segment<Owned>
        ensures behind { page < result.end }
        ensures in_range { result.end ≤ 2 ^ 27 }
        ensures owner { (n : ℕ) → page ≤ n → n < result.end
            → rules.owner self.now.manifest self.now.donations n ≡ result.value.owner }
        ensures home { (n : ℕ) → page ≤ n → n < result.end
            → rules.home self.now.manifest self.now.donations n ≡ result.value.home }
    {
        let manifest = self.manifest();
        let given = self.given(page);
        let region = manifest.region_at(page);
        Segment {
            value: Owned {
                owner: owner_by(given.value, region),
                home: home_by(given.value, region),
            },
            end: given.end.min(manifest.region_until(region, page)),
        }
    }

    /// What a page and those behind it have in common. It is found by halving.
    pub fn segment(&self, page: Page) -> Segment<Standing>
        ensures behind { page < result.end }
        ensures in_range { result.end ≤ 2 ^ 27 }
        ensures alike { (n : ℕ) → page ≤ n → n < result.end
            → spec.IsAlike self.now.manifest self.now.donations self.now.live result.value n }
    {
        let manifest = self.manifest();
        let lists = self.listed(page);
        let listed = lists.value;
        let region = manifest.region_at(page);
        Segment {
            value: Standing {
                owner: owner_by(listed.gift, region),
                home: home_by(listed.gift, region),
                is_live: listed.is_live,
                is_sharable: is_sharable(region),
            },
            end: lists.end.min(manifest.region_until(region, page)),
        }
    }
}

fn is_owned_by(owner: Option<PartitionId>, p: PartitionId) -> bool
    ensures { result ≡ option_map_or (λ o. o == p) owner false }
{
    match owner {
        Some(owner) => owner == p,
        None => false,
    }
}

/// Whether there is a region, which is normal memory with exactly one grant.
pub(crate) fn is_sharable(region: Option<&Region>) -> bool
    ensures { result ≡ option_map_or rows.is_sharable (option_map (λ r. r.now) region.entry) false }
{
    match region {
        Some(region) => {
            matches!(region.kind(), MemoryKind::Normal) && region.grants().len() == 1
        }
        None => false,
    }
}
