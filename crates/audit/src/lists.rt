//! What a partition reaches of a page by the lists of a state, and how far it is the same behind the page. The
//! lists are gone over once: two maps tell of a page at which places of them it stands.

ghost use Rattle.std.specs.Prelude.{◌≡◌, ℕ, IfOk};
ghost use Rattle.std.specs.Option.{option_map};
ghost use Rattle.base.specs.Ledger as rules;
ghost use Rattle.rules.specs.Laws.OneOwner.{AreAllApart};
ghost use Rattle.spans.specs.Spans.{value_at};
ghost use Rattle.audit.specs.Alike as spec;

use base::{Access, OutOfMemory, Page, PartitionId, Segment};
use ledger::{Donation, Live};
use manifest::{Manifest, Region};
use spans::PageMap;
use stage2::Views;
use std::alloc::Global;

/// The lists of a state, and maps from a page to the place of the donation that has it, and of the live transaction
/// that covers it.
#[derive(Drop)]
pub(crate) struct Lists<'a> {
    manifest: &'a Manifest,
    donations: &'a [Donation],
    live: &'a [Live],
    given: PageMap,
    shared: PageMap,
    ghost donations_placed: { (n : ℕ) → rules.donation_at donations.now n
        ≡ spec.gift_at donations.now (value_at given.spans n) },
    ghost live_placed: { (n : ℕ) → rules.live_at live.now n
        ≡ spec.at_place live.now (value_at shared.spans n) },
}

/// A map from pages to the places of the donations that have them.
fn places_of_donations(alloc: Global, donations: &[Donation]) -> Result<PageMap, OutOfMemory>
    ensures { IfOk result (λ places. (n : ℕ) → rules.donation_at donations.now n
        ≡ spec.gift_at donations.now (value_at places.spans n)) }
{
    let mut places = PageMap::new(alloc);
    let mut left = donations.len();
    while 0 < left {
        left -= 1;
        let donation = donations[left];
        places.put_all(&[donation.pages], left as u64)?;
    }
    Ok(places)
}

/// A map from pages to the places of the live transactions that cover them.
fn places_of_live(alloc: Global, live: &[Live]) -> Result<PageMap, OutOfMemory>
    requires { AreAllApart live.now }
    ensures { IfOk result (λ places. (n : ℕ) → rules.live_at live.now n
        ≡ spec.at_place live.now (value_at places.spans n)) }
{
    let mut places = PageMap::new(alloc);
    for (place, transaction) in live.iter().enumerate() {
        places.put_all(&transaction.terms.ranges, place as u64)?;
    }
    Ok(places)
}

impl<'a> Lists<'a> {
    /// The lists of a state, no two of whose live transactions share a page.
    pub(crate) fn new(
        alloc: Global,
        manifest: &'a Manifest,
        donations: &'a [Donation],
        live: &'a [Live],
    ) -> Result<Self, OutOfMemory>
        requires { AreAllApart live.now }
        ensures manifest { IfOk result (λ lists. lists.manifest.now ≡ manifest.now) }
        ensures donations { IfOk result (λ lists. lists.donations.now ≡ donations.now) }
        ensures live { IfOk result (λ lists. lists.live.now ≡ live.now) }
    {
        let given = places_of_donations(alloc, donations)?;
        let shared = places_of_live(alloc, live)?;
        Ok(Lists {
            manifest,
            donations,
            live,
            given,
            shared,
        })
    }

    /// The donation at a place.
    fn donation(&self, place: Option<u64>) -> Option<&Donation>
        ensures { option_map (λ d. d.now.value) result ≡ spec.gift_at self.now.donations.now place }
    {
        self.donations.get(place? as usize)
    }

    /// The live transaction at a place.
    fn transaction(&self, place: Option<u64>) -> Option<&Live>
        ensures { option_map (λ t. t.now) result ≡ spec.at_place self.now.live.now place }
    {
        self.live.get(place? as usize)
    }
}

/// What partitions reach. One look in each map, by halving, tells of a page what covers it, and how far.
impl<'a> Views for Lists<'a> {
    ghost view = { λ lists. rules.view lists.manifest.now lists.donations.now lists.live.now };

    fn view_from(&self, p: PartitionId, page: Page) -> Segment<Option<Access>> {
        let region = self.manifest.region_at(page);
        let given = self.given.segment_at(page);
        let shared = self.shared.segment_at(page);
        let donation = self.donation(given.value);
        let transaction = self.transaction(shared.value);
        let end = self.manifest.region_until(region, page);
        Segment {
            value: view_by(p, region, donation, transaction),
            end: end.min(given.end).min(shared.end),
        }
    }
}

/// What a partition reaches of a page, by what covers it.
fn view_by(
    p: PartitionId,
    region: Option<&Region>,
    donation: Option<&Donation>,
    transaction: Option<&Live>,
) -> Option<Access>
    ensures { result ≡ spec.view_by p (option_map (λ r. r.now) region.entry)
        (option_map (λ d. d.now.value) donation.entry) (option_map (λ t. t.now) transaction.entry) }
{
    match transaction {
        Some(transaction) => transaction.view(home_by(region, donation), p),
        None => settled_by(p, region, donation),
    }
}

/// What a partition reaches of a page that no live transaction covers.
fn settled_by(
    p: PartitionId,
    region: Option<&Region>,
    donation: Option<&Donation>,
) -> Option<Access>
    ensures { result ≡ spec.settled_by p (option_map (λ r. r.now) region.entry)
        (option_map (λ d. d.now.value) donation.entry) }
{
    match donation {
        Some(donation) => (donation.taker == p).then_some(donation.access),
        None => region?.access(p),
    }
}

/// What a page is to its owner.
fn home_by(region: Option<&Region>, donation: Option<&Donation>) -> Option<Access>
    ensures { result ≡ spec.home_by (option_map (λ r. r.now) region.entry)
        (option_map (λ d. d.now.value) donation.entry) }
{
    match donation {
        Some(donation) => Some(donation.access),
        None => {
            let region = region?;
            region.access(region.owner())
        }
    }
}
