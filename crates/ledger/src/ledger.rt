ghost use Rattle.std.specs.Prelude.{◌≡◌, ◌==◌, [], ◌≤◌, ◌<◌, ◌^◌, ℕ, None, Some, true, is_some, length, filter, slice_index_or, vec_len, if◌then◌else◌, IfOk, OnOk, OnErr};
ghost use Rattle.std.specs.List.{remove};
ghost use Rattle.std.specs.Option.{option_map};
ghost use Rattle.base.specs.Pages.{covers};
ghost use Rattle.base.specs.Ledger as rules;
ghost use Rattle.base.specs.Manifest as rows;
ghost use Rattle.base.specs.declared.transaction.Kind.TheVariants.{Donate};
ghost use Rattle.spans.specs.Spans.{value_at};
ghost use Rattle.spans.specs.Taking.{has_number};
ghost use Rattle.ledger.specs.Ledger as spec;
ghost use Rattle.ledger.specs.Changes as changes;
ghost use Rattle.ledger.specs.Gifts as gifts;
ghost use Rattle.ledger.specs.Gifts.{Says};

use crate::donation::{Donation, donations_in};
use crate::gift::{Gift, map_of_grants};
use crate::live::{self, Live, place_of, put_in, set_retrieved};
use base::{Access, Handle, Kind, OutOfMemory, Page, PartitionId, Segment};
use manifest::{Manifest, Region};
use spans::PageMap;
use std::alloc::Global;
use std::marker::Model;

/// What the map of owners and the live transactions say of pages.
#[derive(Clone, Copy)]
pub(crate) struct Listed {
    /// What their number spells, if they have one.
    pub(crate) gift: Option<Gift>,
    /// Whether a live transaction covers them.
    pub(crate) is_live: bool,
}

/// The manifest, who owns the pages that may be given away, and the live transactions, in ascending order of
/// their handles. No two of these share a page or a handle, and each handle has its sender in its high half. A
/// page, a handle and a sender's transactions are looked up by halving. In `given` the number of a page spells its
/// owner and what it is to its owner; pages of other regions have none, and are as the manifest says.
#[derive(Drop)]
pub struct Ledger {
    manifest: Manifest,
    live: Vec<Live>,
    given: PageMap,
    shared: PageMap,
}

impl Model for Ledger {
    ghost use Rattle.ledger.specs.Gifts.{left};
    ghost use Rattle.ledger.specs.Ledger.{LedgerView};
    ghost use Rattle.ledger.specs.Intervals.{IsKept};

    ghost Value = { LedgerView };

    ghost view = { λ l. record {
      manifest = l.manifest;
      donations = left l.manifest l.given.spans;
      live = l.live.items;
    } };

    ghost invariant = { λ l. IsKept l.manifest (left l.manifest l.given.spans) l.live.items l.given.spans l.shared.spans };
}

impl Ledger {
    /// Nothing is shared, and nothing was given away. The map of owners gets an interval for each region at most.
    pub fn new(alloc: Global, manifest: Manifest) -> Result<Self, OutOfMemory>
        ensures manifest { IfOk result (λ l. l.manifest ≡ manifest) }
        ensures donations { IfOk result (λ l. l.donations ≡ []) }
        ensures live { IfOk result (λ l. l.live ≡ []) }
    {
        let given = map_of_grants(alloc, &manifest)?;
        Ok(Ledger {
            manifest,
            live: Vec::new(alloc),
            given,
            shared: PageMap::new(alloc),
        })
    }

    /// The manifest.
    pub fn manifest(&self) -> &Manifest
        ensures { result.now ≡ self.now.manifest }
    {
        &self.manifest
    }

    /// What completed donations have left: the pages whose owner, or what they are to it, is not as the manifest has
    /// it, upward, in maximal runs of one owner and one access. The list is made when it is asked for.
    pub fn donations(&self, alloc: Global) -> Result<Vec<Donation>, OutOfMemory>
        ensures { IfOk result (λ donations. donations.items ≡ self.now.donations) }
    {
        donations_in(alloc, &self.manifest, &self.given)
    }

    /// The live transactions, in ascending order of their handles.
    pub fn live(&self) -> &[Live]
        ensures { result.now ≡ self.now.live }
    {
        &self.live
    }

    /// What the number of a page spells, if it has one.
    fn gift_at(&self, page: Page) -> Option<Gift>
        ensures { Says self.now.manifest self.now.donations page result }
    {
        self.given.get(page).map(Gift::from_number)
    }

    /// The partition that owns a page: the taker of the last donation of it, else the manifest's owner; None
    /// outside all regions.
    pub fn owner(&self, page: Page) -> Option<PartitionId>
        ensures { result ≡ rules.owner self.now.manifest self.now.donations page }
    {
        owner_by(self.gift_at(page), self.manifest.region_at(page))
    }

    /// What a page is to its owner: the access of the last donation of it, else the owner's grant; None outside
    /// all regions.
    pub fn home(&self, page: Page) -> Option<Access>
        ensures { result ≡ rules.home self.now.manifest self.now.donations page }
    {
        home_by(self.gift_at(page), self.manifest.region_at(page))
    }

    /// What the number of a page spells, if it has one, and up to which page it is the same of those behind it.
    pub(crate) fn given(&self, page: Page) -> Segment<Option<Gift>>
        ensures behind { page < result.end }
        ensures in_range { result.end ≤ 2 ^ 27 }
        ensures gift { (n : ℕ) → page ≤ n → n < result.end
            → Says self.now.manifest self.now.donations n result.value }
    {
        let given = self.given.segment_at(page);
        Segment {
            value: given.value.map(Gift::from_number),
            end: given.end,
        }
    }

    /// What the map of owners and the live transactions say of a page, and up to which page they say the same
    /// of those behind it.
    pub(crate) fn listed(&self, page: Page) -> Segment<Listed>
        ensures behind { page < result.end }
        ensures in_range { result.end ≤ 2 ^ 27 }
        ensures gift { (n : ℕ) → page ≤ n → n < result.end
            → Says self.now.manifest self.now.donations n result.value.gift }
        ensures live { (n : ℕ) → page ≤ n → n < result.end
            → is_some (rules.live_at self.now.live n) ≡ result.value.is_live }
    {
        let given = self.given(page);
        let shared = self.shared.segment_at(page);
        Segment {
            value: Listed {
                gift: given.value,
                is_live: shared.value.is_some(),
            },
            end: given.end.min(shared.end),
        }
    }

    /// The live transaction of a handle.
    pub fn find(&self, handle: Handle) -> Option<&Live>
        ensures { option_map (λ t. t.now) result ≡ spec.found self.now.live handle }
    {
        live::find(&self.live, handle)
    }

    /// How many live transactions a partition has sent.
    pub fn live_of(&self, p: PartitionId) -> usize
        ensures { result ≡ length (filter (λ t. t.sender == p) self.now.live) }
    {
        live::live_of(&self.live, p)
    }

    /// Adds a live transaction, and makes room for it where its pages stand. Where there is no memory for that, the
    /// answer is `OutOfMemory`, and nothing has changed.
    pub fn open(&mut self, transaction: Live) -> Result<(), OutOfMemory>
        requires new { spec.found self.old.live transaction.handle ≡ None }
        requires named { spec.NamesItsSender transaction }
        requires apart { (n : ℕ) → covers transaction.ranges n ≡ true
            → rules.live_at self.old.live n ≡ None }
        ensures manifest { self.new.manifest ≡ self.old.manifest }
        ensures donations { self.new.donations ≡ self.old.donations }
        ensures live { OnOk result (self.new.live ≡ changes.with_live transaction self.old.live) }
        ensures err { OnErr result (self.new ≡ self.old) }
    {
        let number = transaction.handle.bits();
        self.shared.put_all(&transaction.terms.ranges, number)?;
        if self.live.reserve(1).is_err() {
            self.shared.take_out(&transaction.terms.ranges, number);
            return Err(OutOfMemory);
        }
        put_in(&mut self.live, transaction);
        Ok(())
    }

    /// Sets what a receiver has retrieved of the transaction of a handle.
    fn set_retrieval(&mut self, p: PartitionId, handle: Handle, retrieved: Option<Access>)
        ensures manifest { self.new.manifest ≡ self.old.manifest }
        ensures donations { self.new.donations ≡ self.old.donations }
        ensures live { self.new.live ≡ changes.with_retrieval_of handle p retrieved self.old.live }
    {
        if let Some(place) = place_of(&self.live, handle) {
            set_retrieved(&mut self.live[place], p, retrieved);
        }
    }

    /// Ends the transaction of a handle, if there is one, and hands it out. This takes no memory.
    pub fn close(&mut self, handle: Handle) -> Option<Live>
        ensures value { result ≡ spec.found self.old.live handle }
        ensures manifest { self.new.manifest ≡ self.old.manifest }
        ensures donations { self.new.donations ≡ self.old.donations }
        ensures live { self.new.live ≡ changes.without handle self.old.live }
    {
        let place = place_of(&self.live, handle)?;
        Some(take_at(&mut self.live, &mut self.shared, place))
    }

    /// Takes back what a receiver has retrieved of the transaction of a handle. This takes no memory.
    pub fn relinquish(&mut self, p: PartitionId, handle: Handle)
        ensures manifest { self.new.manifest ≡ self.old.manifest }
        ensures donations { self.new.donations ≡ self.old.donations }
        ensures live { self.new.live ≡ changes.with_retrieval_of handle p None self.old.live }
    {
        self.set_retrieval(p, handle, None);
    }

    /// The receiver has retrieved the transaction of a handle, with this access: a donation is completed and ends,
    /// and takes memory where its pages stand; a lend or a share takes none, and is never refused. Where there is none,
    /// the answer is `OutOfMemory`, and nothing has changed. Without such a transaction nothing changes either.
    pub fn retrieve(
        &mut self,
        p: PartitionId,
        handle: Handle,
        access: Access,
    ) -> Result<(), OutOfMemory>
        ensures manifest { self.new.manifest ≡ self.old.manifest }
        ensures donations { OnOk result (self.new.donations ≡ changes.donations_after self.old.manifest p access
            (spec.found self.old.live handle) self.old.donations) }
        ensures live { OnOk result (self.new.live
            ≡ changes.live_after handle p access (spec.found self.old.live handle) self.old.live) }
        ensures err { OnErr result (self.new ≡ self.old) }
        ensures donation { OnErr result (option_map (λ t. t.kind) (spec.found self.old.live handle) ≡ Some Donate) }
    {
        let Some(transaction) = self.find(handle) else {
            return Ok(());
        };
        match transaction.terms.kind {
            Kind::Share | Kind::Lend => {
                self.set_retrieval(p, handle, Some(access));
                Ok(())
            }
            Kind::Donate => self.complete(p, handle, access),
        }
    }

    /// The donation of a handle is completed. `OutOfMemory` leaves the ledger as it was.
    fn complete(
        &mut self,
        p: PartitionId,
        handle: Handle,
        access: Access,
    ) -> Result<(), OutOfMemory>
        ensures manifest { self.new.manifest ≡ self.old.manifest }
        ensures donations { OnOk result ((t : _) → spec.found self.old.live handle ≡ Some t → self.new.donations
            ≡ rules.with_donation_of self.old.manifest t.ranges (changes.gift p access) self.old.donations) }
        ensures live { OnOk result (self.new.live ≡ changes.without handle self.old.live) }
        ensures err { OnErr result (self.new ≡ self.old) }
    {
        let Some(place) = place_of(&self.live, handle) else {
            return Ok(());
        };
        let gift = Gift { taker: p, access };
        self.given
            .put_all(&self.live[place].terms.ranges, gift.number())?;
        take_at(&mut self.live, &mut self.shared, place);
        Ok(())
    }
}

/// Takes the transaction at a place out, and its handle from its pages. This takes no memory.
fn take_at(live: &mut Vec<Live>, shared: &mut PageMap, place: usize) -> Live
    requires inside { place < vec_len live.old }
    requires pages { (d : _) (n : ℕ) → has_number (slice_index_or live.old.items place d).handle shared.old.spans n
        ≡ covers (slice_index_or live.old.items place d).ranges n }
    ensures value { (d : _) → result ≡ slice_index_or live.old.items place d }
    ensures live { live.new.items ≡ remove live.old.items place }
    ensures shared { (n : ℕ) → value_at shared.new.spans n
        ≡ (if covers result.ranges n then None else value_at shared.old.spans n) }
{
    let transaction = live.remove(place);
    shared.take_out(&transaction.terms.ranges, transaction.handle.bits());
    transaction
}

/// The owner of a page, by what its number spells, if it has one, and by its region.
pub(crate) fn owner_by(gift: Option<Gift>, region: Option<&Region>) -> Option<PartitionId>
    ensures { result ≡ gifts.owner_by gift (option_map (λ r. r.now) region.entry) }
{
    match gift {
        Some(gift) => Some(gift.taker),
        None => Some(region?.owner()),
    }
}

/// What a page is to its owner, by what its number spells, if it has one, and by its region.
pub(crate) fn home_by(gift: Option<Gift>, region: Option<&Region>) -> Option<Access>
    ensures { result ≡ gifts.home_by gift (option_map (λ r. r.now) region.entry) }
{
    match gift {
        Some(gift) => Some(gift.access),
        None => {
            let region = region?;
            region.access(region.owner())
        }
    }
}
