//! The manager: the state, and the translation tables that agree with it.

ghost use Rattle.std.specs.Prelude.{◌≡◌, ◌<◌, Some, None, [], reverse, IfOk, OnOk, OnErr, IsSome, true};
ghost use Rattle.base.specs.Buffers.{pair_of};
ghost use Rattle.base.specs.Manifest as rows;
ghost use Rattle.base.specs.State as state;
ghost use Rattle.pool.specs.Pool.{emptied, image_of, words_of};
ghost use Rattle.stage2.specs.Slot.{layout_of};
ghost use Rattle.stage2.specs.Walk.{walked};
ghost use Rattle.wire.specs.Requests.{request_of};
ghost use Rattle.rules.specs.Run as rules;
ghost use Rattle.rules.specs.Laws.OneOwner.{IsOwnedOnce};
ghost use Rattle.spm.specs.Granted.{IsGrantedCall};
ghost use Rattle.spm.specs.Machine.{WalksAgree, ShowsCall, HasCleared, MayNeedMemory, translated, unchanged};

use crate::call::{Call, LentCall};
use crate::calls::check;
use crate::change::{Change, Stop};
use crate::commit::{commit, fits};
use crate::spare::Spare;
use crate::state::State;
use base::{Access, OutOfMemory, Page, PartitionId, Status, Version};
use ledger::Ledger;
use mailbox::Pair;
use manifest::Manifest;
use pool::{Image, Op, TableMem};
use stage2::Tables;
use std::alloc::Global;
use std::marker::Model;
use wire::{Reply, Request, decode};

/// The manager of the partitions of a manifest. In every value of the type the translation tables give
/// each partition, page by page, what the state says, and some list of calls leads to the state.
#[derive(Drop)]
pub struct Spm<M: TableMem + Drop> {
    state: State,
    tables: Tables<M>,
    spare: Spare,
}

impl<M: TableMem + Drop> Model for Spm<M> {
    ghost use Rattle.spm.specs.Machine.{Machine, IsConsistent};

    ghost Value = { Machine };

    ghost view = { λ a. record { state = a.state; pool = a.tables.pool } };

    ghost invariant = { λ a. IsConsistent a.state a.tables.layout a.tables.pool };
}

impl<M: TableMem + Drop> Spm<M> {
    /// The manager before any call: each partition reaches what the manifest grants it.
    pub fn boot(alloc: Global, manifest: Manifest) -> Result<Self, OutOfMemory>
        ensures state { IfOk result (λ m. m.state ≡ state.start manifest) }
        ensures operations { IfOk result (λ m. m.pool.operations ≡ []) }
        ensures agrees { IfOk result (λ m. WalksAgree m.state m.pool) }
        ensures reached { IfOk result (λ m. rules.IsReached m.state) }
    {
        let tables = Tables::boot(alloc, &manifest)?;
        let state = State::new(alloc, manifest)?;
        Ok(Spm {
            state,
            tables,
            spare: Spare::new(alloc),
        })
    }

    /// What a partition reaches of a page, by a walk of its translation tables.
    pub fn translate(&self, p: PartitionId, page: Page) -> Option<Access>
        ensures walk { translated self.now p page ≡ walked page result }
        ensures view { result ≡ state.sees self.now.state p page }
    {
        self.tables.walk(p, page)
    }

    /// The partition that owns a page; None outside all regions.
    pub fn owner(&self, page: Page) -> Option<PartitionId>
        ensures same { result ≡ state.owner_of self.now.state page }
        ensures once { IsOwnedOnce self.now.state }
    {
        self.state.ledger.owner(page)
    }

    /// The version of FF-A that a partition speaks: 1.1 at boot and for one that has no row, and else
    /// the one that it named last by FFA_VERSION.
    pub fn version(&self, p: PartitionId) -> Version
        ensures { result ≡ state.version_of self.now.state.partitions p }
    {
        self.state.row(p).version
    }

    /// The manifest that the manager was booted from.
    pub fn manifest(&self) -> &Manifest
        ensures { result.now ≡ self.now.state.manifest }
    {
        self.state.manifest()
    }

    /// The translation tables. What they give agrees with the state, and some list of calls leads to
    /// the state.
    pub fn tables(&self) -> &Tables<M>
        ensures layout { result.now.layout ≡ layout_of self.now.state.manifest }
        ensures pool { result.now.pool ≡ self.now.pool }
        ensures agrees { WalksAgree self.now.state self.now.pool }
        ensures reached { rules.IsReached self.now.state }
    {
        &self.tables
    }

    /// The live transactions, and what completed donations have left.
    pub fn ledger(&self) -> &Ledger
        ensures manifest { result.now.manifest ≡ self.now.state.manifest }
        ensures donations { result.now.donations ≡ self.now.state.donations }
        ensures live { result.now.live ≡ self.now.state.live }
        ensures agrees { WalksAgree self.now.state self.now.pool }
        ensures reached { rules.IsReached self.now.state }
        ensures once { IsOwnedOnce self.now.state }
    {
        &self.state.ledger
    }

    /// The operations on the tables during the last call, in order: none after boot, after a refusal, and after
    /// `forget_ops`.
    pub fn last_ops(&self) -> &[Op]
        ensures { result.now ≡ reverse self.now.pool.operations }
    {
        self.tables.memory().ops()
    }

    /// Empties the list of operations of the last call, so that nobody takes them for those of a call that was not
    /// answered. The state and the tables stay.
    pub fn forget_ops(&mut self)
        ensures { self.new ≡ unchanged self.old }
    {
        self.tables.begin()
    }

    /// Takes back what a reply said of RX, once it was read: its memory serves for the next response.
    pub fn give_back(&mut self, response: Vec<u8>)
        ensures { self.new ≡ self.old }
    {
        self.spare.response = response;
    }

    /// How many operations were made on the table memory, those of boot included, modulo 2^64.
    pub fn made(&self) -> u64
        ensures { result ≡ self.now.pool.made }
    {
        self.tables.memory().made()
    }

    /// The buffers that a partition has registered by FFA_RXTX_MAP, and whether it holds RX; None
    /// where it has registered none.
    pub fn buffers(&self, p: PartitionId) -> Option<Pair>
        ensures { result ≡ pair_of self.now.state.mailboxes p }
    {
        self.state.pairs.pair_of(p)
    }

    /// The word at an index of a page of the table pool.
    pub fn word(&self, page: u32, index: u32) -> u64
        requires page_in { page
            < rows.page_count (rows.quotas_of self.now.state.manifest.partitions) }
        requires index_in { index < 512 }
        ensures { result ≡ words_of self.now.pool.memory.words page index }
    {
        self.tables.memory().word(page, index)
    }

    /// A copy of the words of all tables.
    pub fn image(&self, alloc: Global) -> Result<Image, OutOfMemory>
        ensures { IfOk result (λ image. image ≡ image_of self.now.pool.memory) }
    {
        self.tables.memory().image(alloc)
    }

    /// Answers a call. A refused call, and one for which memory is wanting, leaves the state and the
    /// tables as they were; the list of operations of the tables is then empty.
    pub fn handle(&mut self, call: &Call) -> Result<Reply, OutOfMemory>
        // The reply is the definition's.
        ensures reply { IfOk result (λ reply. reply ≡ rules.answer self.old.state call.now) }

        // And so is the state after it.
        ensures state { OnOk result (self.new.state ≡ rules.step self.old.state call.now) }

        // A refusal changes nothing.
        ensures refused { IsSome (rules.refusal self.old.state call.now) →
            self.new ≡ unchanged self.old }

        // A call whose rule edits no view leaves all tables as they were.
        ensures moves_no_page { (rules.rule self.old.state call.now).edit ≡ None →
            self.new.pool ≡ emptied self.old.pool }

        // Want of memory changes nothing,
        ensures err { OnErr result (self.new ≡ unchanged self.old) }

        // and only a call on a transaction that passes its tests meets it.
        ensures memory_after_the_tests { OnErr result (MayNeedMemory self.old.state call.now) }

        // What walkers see at every write: the old translation, none, or the new one.
        ensures moments { ShowsCall self.old self.new }

        // What is cleared: the pages of the transaction where that is ordered, and else none.
        ensures clears { OnOk result
            (HasCleared (rules.clears self.old.state call.now) self.new) }
        ensures agrees { WalksAgree self.new.state self.new.pool }
        ensures reached { rules.IsReached self.new.state }
    {
        self.handle_lent(&call.lent())
    }

    /// The same, of a call whose bytes of TX are lent.
    #[tactic(auto, unfolding(rules::specs::Run::answer, rules::specs::Run::step, rules::specs::Run::refusal, rules::specs::Run::rule))]
    pub fn handle_lent(&mut self, call: &LentCall<'_>) -> Result<Reply, OutOfMemory>
        ensures reply { IfOk result (λ reply. reply ≡ rules.answer self.old.state call.now) }
        ensures state { OnOk result (self.new.state ≡ rules.step self.old.state call.now) }
        ensures refused { IsSome (rules.refusal self.old.state call.now) →
            self.new ≡ unchanged self.old }
        ensures moves_no_page { (rules.rule self.old.state call.now).edit ≡ None →
            self.new.pool ≡ emptied self.old.pool }
        ensures err { OnErr result (self.new ≡ unchanged self.old) }
        ensures memory_after_the_tests { OnErr result (MayNeedMemory self.old.state call.now) }
        ensures moments { ShowsCall self.old self.new }
        ensures clears { OnOk result
            (HasCleared (rules.clears self.old.state call.now) self.new) }
        ensures agrees { WalksAgree self.new.state self.new.pool }
        ensures reached { rules.IsReached self.new.state }
    {
        self.tables.begin();
        if !self.state.is_partition(call.partition()) {
            return Ok(Reply::error(Status::Denied));
        }
        match decode(call.regs) {
            Ok(request) => self.serve(call, request),
            Err(status) => Ok(Reply::error(status)),
        }
    }

    /// Answers what a partition asks for.
    fn serve(&mut self, call: &LentCall<'_>, request: Request) -> Result<Reply, OutOfMemory>
        requires begun { self.old.pool.operations ≡ [] }
        requires known { rows.is_partition self.old.state.manifest call.now.caller ≡ true }
        requires request_decoded { request_of call.now.regs ≡ Some request }
        ensures reply { IfOk result (λ reply. reply ≡ rules.answer self.old.state call.now) }
        ensures state { OnOk result (self.new.state ≡ rules.step self.old.state call.now) }
        ensures refused { IsSome (rules.refusal self.old.state call.now) → self.new ≡ self.old }
        ensures moves_no_page { (rules.rule self.old.state call.now).edit ≡ None →
            self.new.pool ≡ self.old.pool }
        ensures err { OnErr result (self.new ≡ self.old) }
        ensures memory_after_the_tests { OnErr result (MayNeedMemory self.old.state call.now) }
        ensures moments { ShowsCall self.old self.new }
        ensures clears { OnOk result
            (HasCleared (rules.clears self.old.state call.now) self.new) }
        ensures agrees { WalksAgree self.new.state self.new.pool }
        ensures reached { rules.IsReached self.new.state }
    {
        match check(&self.state, call, request, &mut self.spare) {
            Ok(change) => self.make(call, change),
            Err(Stop::Refused(status)) => Ok(Reply::error(status)),
            Err(Stop::NoMemory(error)) => Err(error),
        }
    }

    /// Makes the change of a request that has passed its own tests, where its edit fits.
    fn make(&mut self, call: &LentCall<'_>, change: Change) -> Result<Reply, OutOfMemory>
        requires begun { self.old.pool.operations ≡ [] }
        requires granted { IsGrantedCall self.old.state call.now change }
        ensures reply { IfOk result (λ reply. reply ≡ rules.answer self.old.state call.now) }
        ensures state { OnOk result (self.new.state ≡ rules.step self.old.state call.now) }
        ensures refused { IsSome (rules.refusal self.old.state call.now) → self.new ≡ self.old }
        ensures moves_no_page { (rules.rule self.old.state call.now).edit ≡ None →
            self.new.pool ≡ self.old.pool }
        ensures err { OnErr result (self.new ≡ self.old) }
        ensures memory_after_the_tests { OnErr result (MayNeedMemory self.old.state call.now) }
        ensures moments { ShowsCall self.old self.new }
        ensures clears { OnOk result
            (HasCleared (rules.clears self.old.state call.now) self.new) }
        ensures agrees { WalksAgree self.new.state self.new.pool }
        ensures reached { rules.IsReached self.new.state }
    {
        let p = call.partition();
        if fits(&self.tables, p, &change.edit) {
            commit(
                &mut self.state,
                &mut self.tables,
                &mut self.spare,
                p,
                change,
            )
        } else {
            Ok(Reply::error(Status::NoMemory))
        }
    }
}

/// Answers calls in order, from the manifest on.
pub fn run_calls<M: TableMem + Drop>(
    alloc: Global,
    manifest: Manifest,
    calls: &[Call],
) -> Result<(Spm<M>, Vec<Reply>), OutOfMemory>
    ensures replies { IfOk result (λ run. run.1.items
        ≡ rules.replies_from (state.start manifest) calls.now) }
    ensures state { IfOk result (λ run. run.0.state
        ≡ rules.state_from (state.start manifest) calls.now) }
    ensures agrees { IfOk result (λ run. WalksAgree run.0.state run.0.pool) }
    ensures reached { IfOk result (λ run. rules.IsReached run.0.state) }
{
    let mut spm = Spm::boot(alloc, manifest)?;
    let mut replies = Vec::new(alloc);
    for call in calls {
        let reply = spm.handle(call)?;
        replies.push(reply)?;
    }
    Ok((spm, replies))
}
