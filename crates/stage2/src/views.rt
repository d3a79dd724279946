//! What partitions reach, as whoever fills tables is told it.

ghost use Rattle.base.specs.Manifest.{grant};
ghost use Rattle.std.specs.Prelude.{◌≡◌, ℕ, ◌<◌, ◌≤◌, ◌^◌};

use base::{Access, Page, PartitionId, Segment};
use manifest::Manifest;

/// What partitions reach of pages.
pub trait Views {
    ghost use Rattle.base.specs.Access.{View};

    /// What a partition reaches of a page.
    ghost view: { Self → ℕ → ℕ → View };

    /// What a partition reaches of a page, and up to which page it reaches all those behind it alike. It may
    /// reach more so.
    fn view_from(&self, p: PartitionId, page: Page) -> Segment<Option<Access>>
        ensures behind { page < result.end }
        ensures in_range { result.end ≤ 2 ^ 27 }
        ensures alike { (n : ℕ) → page ≤ n → n < result.end → view self.now p n ≡ result.value };
}

/// What a manifest grants.
#[derive(Drop)]
pub(crate) struct Grants<'a>(pub(crate) &'a Manifest);

impl<'a> Views for Grants<'a> {
    ghost view = { λ grants. grant grants.0.now };

    fn view_from(&self, p: PartitionId, page: Page) -> Segment<Option<Access>> {
        let region = self.0.region_at(page);
        let value = match region {
            Some(region) => region.access(p),
            None => None,
        };
        Segment {
            value,
            end: self.0.region_until(region, page),
        }
    }
}
