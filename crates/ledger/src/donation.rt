//! What completed donations have left, as a list.

ghost use Rattle.std.specs.Prelude.{◌≡◌, ℕ, ◌<◌, ◌≤◌, ◌^◌, true, IfOk, OnOk};
ghost use Rattle.std.specs.Option.{option_map};
ghost use Rattle.base.specs.Manifest as rows;
ghost use Rattle.base.specs.Runs as runs;
ghost use Rattle.base.specs.Transactions as transactions;
ghost use Rattle.ledger.specs.Gifts as spec;

use crate::gift::{Gift, is_granted_in};
use base::{Access, OutOfMemory, Page, PartitionId, Run, Segment};
use manifest::Manifest;
use spans::PageMap;
use std::alloc::Global;
use std::marker::Model;

/// Pages that donations have left with this owner, to which they are this.
#[derive(Clone, Copy, Debug, PartialEq, Eq)]
pub struct Donation {
    pub pages: Run,
    pub taker: PartitionId,
    pub access: Access,
}

impl Model for Donation {
    ghost use Rattle.base.specs.Transactions as transactions;

    ghost Value = { transactions.Donation };

    ghost view = { λ d. record { run = d.pages; value = record { taker = d.taker; access = d.access } } };

    ghost inverse = { λ d. record { pages = d.run; taker = d.value.taker; access = d.value.access } };
}

impl Donation {
    /// Whether the next pages begin where these end, with the same owner and access.
    fn is_followed_by(self, next: Self) -> bool
        ensures { result ≡ runs.is_followed_by transactions.is_same_gift self next }
    {
        self.pages.end() == next.pages.first().number()
            && self.taker == next.taker
            && self.access.is_same(next.access)
    }

    /// These pages and the next, which follow them.
    fn joined(self, next: Self) -> Self
        requires { runs.is_followed_by transactions.is_same_gift self next ≡ true }
        ensures { result ≡ runs.joined self next }
    {
        Donation {
            pages: Run::new(self.pages.first(), self.pages.count() + next.pages.count()),
            ..self
        }
    }
}

/// What donations have left, by the numbers that spell owners and what pages are to them.
pub(crate) fn donations_in(
    alloc: Global,
    manifest: &Manifest,
    given: &PageMap,
) -> Result<Vec<Donation>, OutOfMemory>
    ensures { IfOk result (λ found. found.items ≡ spec.left manifest.now given.now.spans) }
{
    let mut found = Vec::new(alloc);
    let last = given.end();
    let mut number = 0;
    while number < last {
        let page = Page::new(number);
        let Segment { value: gift, end } = left_from(manifest, given, page);
        push_left(&mut found, page, end, gift)?;
        number = end;
    }
    Ok(found)
}

/// What is left of a page and those behind it, up to where the number or the region is another.
fn left_from(manifest: &Manifest, given: &PageMap, page: Page) -> Segment<Option<Gift>>
    ensures behind { page < result.end }
    ensures in_range { result.end ≤ 2 ^ 27 }
    ensures alike { (n : ℕ) → page ≤ n → n < result.end
        → spec.left_at manifest.now given.now.spans n ≡ result.value }
{
    let segment = given.segment_at(page);
    let Some(number) = segment.value else {
        return Segment {
            value: None,
            end: segment.end,
        };
    };
    let gift = Gift::from_number(number);
    let region = manifest.region_at(page);
    Segment {
        value: if is_granted_in(region, gift) {
            None
        } else {
            Some(gift)
        },
        end: segment.end.min(manifest.region_until(region, page)),
    }
}

/// Appends the pages from one up to another, where something is left of them.
fn push_left(
    found: &mut Vec<Donation>,
    page: Page,
    end: u32,
    gift: Option<Gift>,
) -> Result<(), OutOfMemory>
    requires some { page < end }
    requires in_range { end ≤ 2 ^ 27 }
    ensures { OnOk result (found.new.items ≡ spec.with_left found.old.items page end gift) }
{
    match gift {
        Some(gift) => {
            let donation = Donation {
                pages: Run::new(page, end - page.number()),
                taker: gift.taker,
                access: gift.access,
            };
            push(found, donation)
        }
        None => Ok(()),
    }
}

/// Appends pages, to the last run where they follow it with the same owner and access.
fn push(found: &mut Vec<Donation>, next: Donation) -> Result<(), OutOfMemory>
    ensures { OnOk result
        (found.new.items ≡ runs.with_next transactions.is_same_gift found.old.items next) }
{
    match found.last() {
        Some(last) if last.is_followed_by(next) => {
            let both = last.joined(next);
            let place = found.len() - 1;
            found[place] = both;
        }
        _ => found.push(next)?,
    }
    Ok(())
}
