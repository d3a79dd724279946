ghost use Rattle.std.specs.Prelude.{◌≡◌, ◌==◌, ◌<◌, None, length, position, filter, vec_len, vec_capacity};
ghost use Rattle.std.specs.List.{AllByRecursion};
ghost use Rattle.std.specs.Option.{option_map};
ghost use Rattle.base.specs.Transactions.{AreAscending};
ghost use Rattle.ledger.specs.Changes as changes;
ghost use Rattle.ledger.specs.Ledger.{found, IsPoint, NamesItsSender};

use arrayvec::ArrayVec;
use base::limits::MOST_RECEIVERS;
use base::{Access, Handle, Kind, PartitionId, Rights, Run};
use std::marker::Model;

/// A receiver of a transaction, the most that it may retrieve, and what it has retrieved.
#[derive(Clone, Copy, Debug, PartialEq, Eq)]
pub struct Receiver {
    pub partition: PartitionId,
    pub cap: Rights,
    pub retrieved: Option<Access>,
}

impl Model for Receiver {
    ghost use Rattle.base.specs.Transactions as transactions;

    ghost Value = { transactions.Receiver };

    ghost view = { λ r. record { partition = r.partition; cap = r.cap; retrieved = r.retrieved } };

    ghost inverse = { λ r. record {
      partition = r.partition;
      cap = r.cap;
      retrieved = r.retrieved;
    } };
}

impl Default for Receiver {
    ghost use Rattle.base.specs.declared.access.Rights.TheVariants.{Ro};

    ghost is_default = { λ r. r ≡ record { partition = 0; cap = Ro; retrieved = None } };

    /// Partition 0, which may read and has retrieved nothing.
    fn default() -> Receiver {
        Receiver {
            partition: PartitionId::new(0),
            cap: Rights::Ro,
            retrieved: None,
        }
    }
}

/// What is kept of a transaction beside its handle. Its ranges stand in the order sent.
#[derive(Drop)]
pub struct Terms {
    pub kind: Kind,
    pub sender: PartitionId,
    pub tag: u64,
    pub ranges: Vec<Run>,
    pub receivers: ArrayVec<Receiver, MOST_RECEIVERS>,
    pub home: Access,
}

/// A transaction that was sent and has not ended. Its terms stand in a place of their own, so that a list of
/// transactions is short: one that is put in or taken out moves two words of each behind it.
#[derive(Drop)]
pub struct Live {
    pub handle: Handle,
    pub terms: Box<Terms>,
}

impl Model for Live {
    ghost use Rattle.base.specs.Transactions as transactions;

    ghost Value = { transactions.Live };

    ghost view = { λ t. record {
      handle = t.handle;
      kind = t.terms.value.kind;
      sender = t.terms.value.sender;
      tag = t.terms.value.tag;
      ranges = t.terms.value.ranges.items;
      receivers = t.terms.value.receivers.items;
      home = t.terms.value.home;
    } };
}

impl Live {
    ghost use Rattle.std.specs.List.{find};
    ghost use Rattle.base.specs.Ledger as rules;

    /// What is kept of a receiver; None for a partition that is none.
    pub fn receiver(&self, p: PartitionId) -> Option<&Receiver>
        ensures { option_map (λ r. r.now) result
            ≡ find (λ r. r.partition == p) self.now.receivers }
    {
        self.terms
            .receivers
            .iter()
            .find(|receiver| receiver.partition == p)
    }

    /// What a partition has retrieved as a receiver, and has not relinquished since.
    pub fn retrieved(&self, p: PartitionId) -> Option<Access>
        ensures { result ≡ rules.retrieved self.now.receivers p }
    {
        match self.receiver(p) {
            Some(receiver) => receiver.retrieved,
            None => None,
        }
    }

    /// What a partition reaches of pages that the transaction covers, by their home: a sender keeps it while it
    /// shares them, and a receiver has what it has retrieved.
    pub fn view(&self, home: Option<Access>, p: PartitionId) -> Option<Access>
        ensures { result ≡ rules.view_under self.now home p }
    {
        if self.terms.sender != p {
            return self.retrieved(p);
        }
        match self.terms.kind {
            Kind::Share => home,
            Kind::Lend | Kind::Donate => None,
        }
    }
}

/// What the receiver has retrieved is this now.
pub(crate) fn set_retrieved(transaction: &mut Live, p: PartitionId, retrieved: Option<Access>)
    ensures { transaction.new ≡ changes.with_retrieval p retrieved transaction.old }
{
    set_receiver(&mut transaction.terms.receivers, p, retrieved);
}

fn set_receiver(receivers: &mut [Receiver], p: PartitionId, retrieved: Option<Access>)
    ensures { receivers.new ≡ changes.with_retrieved p retrieved receivers.old }
{
    for receiver in receivers.iter_mut() {
        if receiver.partition == p {
            receiver.retrieved = retrieved;
            return;
        }
    }
}

/// Up to this number of transactions one is looked for one after another, which takes less than halving.
const FEW: usize = 8;

/// How many of them have lower handles: they stand before the others.
pub(crate) fn point_of(live: &[Live], handle: Handle) -> usize
    requires { AreAscending live.now }
    ensures { IsPoint handle live.now result }
{
    live.partition_point(|transaction| transaction.handle.bits() < handle.bits())
}

/// The place of the transaction with this handle, found by halving.
fn halved(live: &[Live], handle: Handle) -> Option<usize>
    requires { AreAscending live.now }
    ensures { result ≡ position (λ t. t.handle == handle) live.now }
{
    let point = point_of(live, handle);
    match live.get(point) {
        Some(transaction) => {
            if transaction.handle == handle {
                Some(point)
            } else {
                None
            }
        }
        None => None,
    }
}

/// The place of the transaction with this handle.
pub(crate) fn place_of(live: &[Live], handle: Handle) -> Option<usize>
    requires { AreAscending live.now }
    ensures { result ≡ position (λ t. t.handle == handle) live.now }
{
    if live.len() > FEW {
        return halved(live, handle);
    }
    live.iter()
        .position(|transaction| transaction.handle == handle)
}

/// The transaction with this handle.
pub(crate) fn find(live: &[Live], handle: Handle) -> Option<&Live>
    requires { AreAscending live.now }
    ensures { option_map (λ t. t.now) result ≡ found live.now handle }
{
    if live.len() > FEW {
        let place = halved(live, handle)?;
        return Some(&live[place]);
    }
    live.iter().find(|transaction| transaction.handle == handle)
}

/// Puts a transaction with a new handle among them, for which there is room.
pub(crate) fn put_in(live: &mut Vec<Live>, transaction: Live)
    requires ascending { AreAscending live.old.items }
    requires new { found live.old.items transaction.handle ≡ None }
    requires ready { vec_len live.old < vec_capacity live.old }
    ensures { live.new.items ≡ changes.with_live transaction live.old.items }
{
    let point = point_of(live, transaction.handle);
    if point == live.len() {
        live.push_reserved(transaction);
    } else {
        let _ = live.insert(point, transaction);
    }
}

/// How many of them a partition has sent, found by halving: their handles are those of its sends.
fn halved_of(live: &[Live], p: PartitionId) -> usize
    requires ascending { AreAscending live.now }
    requires named { AllByRecursion NamesItsSender live.now }
    ensures { result ≡ length (filter (λ t. t.sender == p) live.now) }
{
    let first = Handle::new(p, 0);
    let next = Handle::from_bits(first.bits() + 0x1_0000_0000);
    point_of(live, next) - point_of(live, first)
}

/// How many of them a partition has sent.
pub(crate) fn live_of(live: &[Live], p: PartitionId) -> usize
    requires ascending { AreAscending live.now }
    requires named { AllByRecursion NamesItsSender live.now }
    ensures { result ≡ length (filter (λ t. t.sender == p) live.now) }
{
    if live.len() > FEW {
        return halved_of(live, p);
    }
    live.iter()
        .filter(|transaction| transaction.terms.sender == p)
        .count()
}
