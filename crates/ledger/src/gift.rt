//! The owner of pages and what they are to it, spelled by the number that the pages have.

ghost use Rattle.std.specs.Prelude.{◌≡◌, ◌<◌, ℕ, None, Some, true, IfOk};
ghost use Rattle.std.specs.Option.{option_map};
ghost use Rattle.base.specs.Access.{is_reached_with};
ghost use Rattle.base.specs.Ledger as rules;
ghost use Rattle.base.specs.Pages.{in_run};
ghost use Rattle.ledger.specs.Gifts as spec;

use crate::free::is_sharable;
use base::{Access, MemoryKind, OutOfMemory, Page, PartitionId, Rights, Run};
use manifest::{Manifest, Region};
use spans::PageMap;
use std::alloc::Global;
use std::marker::Model;

/// What a donation gives, or the manifest says: who owns pages, and what they are to it.
#[derive(Clone, Copy, Debug, PartialEq, Eq)]
pub(crate) struct Gift {
    pub(crate) taker: PartitionId,
    pub(crate) access: Access,
}

impl Model for Gift {
    ghost use Rattle.base.specs.Transactions as transactions;

    ghost Value = { transactions.Gift };

    ghost view = { λ g. record { taker = g.taker; access = g.access } };

    ghost inverse = { λ g. record { taker = g.taker; access = g.access } };
}

impl Gift {
    /// The number that spells it: the taker in bits 18:3, the code of the access in bits 2:0.
    pub(crate) fn number(self) -> u64
        ensures { spec.gift_of result ≡ self }
    {
        u64::from(self.taker.number()) * 8 + code_of(self.access)
    }

    /// What a number spells.
    pub(crate) fn from_number(number: u64) -> Self
        ensures { result ≡ spec.gift_of number }
    {
        Gift {
            taker: PartitionId::new((number / 8 % 0x1_0000) as u16),
            access: access_of(number % 8),
        }
    }
}

/// The code of an access, one of the six that there are.
fn code_of(access: Access) -> u64
    ensures small { result < 8 }
    ensures spells { spec.access_of result ≡ access }
{
    match (access.kind(), access.rights(), access.is_executable()) {
        (MemoryKind::Normal, Rights::Ro, false) => 0,
        (MemoryKind::Normal, Rights::Ro, true) => 1,
        (MemoryKind::Normal, Rights::Rw, false) => 2,
        (MemoryKind::Normal, Rights::Rw, true) => 3,
        (MemoryKind::Device, Rights::Ro, _) => 4,
        (MemoryKind::Device, Rights::Rw, _) => 5,
    }
}

/// The access that has a code.
fn access_of(code: u64) -> Access
    ensures { result ≡ spec.access_of code }
{
    match code {
        0 => Access::normal(Rights::Ro, false),
        1 => Access::normal(Rights::Ro, true),
        2 => Access::normal(Rights::Rw, false),
        3 => Access::normal(Rights::Rw, true),
        4 => Access::device(Rights::Ro),
        _ => Access::device(Rights::Rw),
    }
}

/// Whether a region says the same of its pages: its owner alone reaches them, with this access.
#[tactic(auto, unfolding(base::specs::Ledger::is_granted_in))]
pub(crate) fn is_granted_in(region: Option<&Region>, gift: Gift) -> bool
    ensures { result ≡ rules.is_granted_in (option_map (λ r. r.now) region.entry) gift }
{
    match region {
        Some(region) => {
            is_sharable(Some(region))
                && region.owner() == gift.taker
                && is_reached_with(gift.access, region.access(region.owner()))
        }
        None => false,
    }
}

fn is_reached_with(access: Access, view: Option<Access>) -> bool
    ensures { result ≡ is_reached_with access view }
{
    match view {
        Some(view) => view.is_same(access),
        None => false,
    }
}

/// Pages that follow one another, and what the manifest says of them.
#[derive(Clone, Copy)]
struct Granted {
    run: Run,
    gift: Gift,
}

/// A map from the pages of regions that may be given away to the numbers that spell what the manifest says.
pub(crate) fn map_of_grants(alloc: Global, manifest: &Manifest) -> Result<PageMap, OutOfMemory>
    ensures { IfOk result (λ map. (n : ℕ) → spec.left_at manifest.now map.spans n ≡ None) }
{
    let mut map = PageMap::new(alloc);
    for region in manifest.regions() {
        if let Some(granted) = granted_from(manifest, region.pages().first()) {
            map.put_all(&[granted.run], granted.gift.number())?;
        }
    }
    Ok(map)
}

/// What the manifest says of a page and those behind it in its region, where they may be given away.
fn granted_from(manifest: &Manifest, page: Page) -> Option<Granted>
    ensures { (granted : _) → result ≡ Some granted → (n : ℕ) → in_run granted.run n ≡ true
        → rules.left_of manifest.now granted.gift n ≡ None }
{
    let region = manifest.region_at(page);
    let run = Run::new(page, manifest.region_until(region, page) - page.number());
    let region = region?;
    let gift = Gift {
        taker: region.owner(),
        access: region.access(region.owner())?,
    };
    if is_granted_in(Some(region), gift) {
        Some(Granted { run, gift })
    } else {
        None
    }
}
