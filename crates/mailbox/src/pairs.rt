ghost use Rattle.std.specs.Prelude.{◌≡◌, ◌<◌, ◌≤◌, ◌==◌, None, Some, length, map, true, false, IfOk, IfErr, OnOk, OnErr};
ghost use Rattle.std.specs.List.{find};
ghost use Rattle.std.specs.Option.{option_map};
ghost use Rattle.base.specs.Alike.{IsAlikeUntil};
ghost use Rattle.base.specs.Buffers as spec;
ghost use Rattle.base.specs.Refusals.{NoneRefuses, RefusesWith};
ghost use Rattle.mailbox.specs.Buffers.{has_buffer_at, pair_fill_tests};

use crate::pair::{Pair, named_pair};
use arrayvec::ArrayVec;
use base::limits::MOST_PARTITIONS;
use base::{Page, PartitionId, Status};
use manifest::{Manifest, Partition};
use std::marker::Model;

/// A partition, and its pair where one is registered.
#[derive(Clone, Copy, Debug, PartialEq, Eq)]
struct Mailbox {
    partition: PartitionId,
    pair: Option<Pair>,
}

impl Model for Mailbox {
    ghost use Rattle.base.specs.Buffers as spec;

    ghost Value = { spec.Mailbox };

    ghost view = { λ b. record { partition = b.partition; pair = b.pair } };

    ghost inverse = { λ b. record { partition = b.partition; pair = b.pair } };
}

impl Default for Mailbox {
    fn default() -> Self {
        Mailbox {
            partition: PartitionId::new(0),
            pair: None,
        }
    }
}

/// The registered pairs of the partitions of a manifest.
#[derive(Drop)]
pub struct Pairs {
    mailboxes: ArrayVec<Mailbox, MOST_PARTITIONS>,
}

impl Model for Pairs {
    ghost use Rattle.std.specs.Prelude.{List};
    ghost use Rattle.base.specs.Buffers as spec;

    ghost Value = { List spec.Mailbox };

    ghost view = { λ a. a.mailboxes.items };
}

impl Pairs {
    /// The partitions of this manifest, with no pair registered.
    pub fn new(manifest: &Manifest) -> Self
        ensures { result ≡ map spec.first_mailbox manifest.now.partitions }
    {
        Pairs {
            mailboxes: first_mailboxes(manifest.partitions()),
        }
    }

    /// The pair that FFA_RXTX_MAP of partition `p` names: a TX and an RX area of so many pages of
    /// 4 KB, from these addresses in bytes, with RX not held.
    ///
    /// It changes nothing. It is refused as `Denied` where the partition has a pair already, and else
    /// as `InvalidParameters` where an area has no page or more than 8, begins inside a page or ends
    /// past input addresses of 39 bits, or where the areas share a page. Whether the pages may be
    /// buffers is not looked at.
    pub fn check(&self, p: PartitionId, tx: u64, rx: u64, pages: u32) -> Result<Pair, Status>
        ensures refused { IfErr result (RefusesWith (spec.pair_tests self.now p tx rx pages)) }
        ensures passed { IfOk result (spec.PassesWith self.now p tx rx pages) }
    {
        if self.has_pair(p) {
            return Err(Status::Denied);
        }
        named_pair(tx, rx, pages).ok_or(Status::InvalidParameters)
    }

    /// Registers the pair as that of partition `p` (FFA_RXTX_MAP), in place of one that it had. It
    /// changes nothing for a partition without a row.
    pub fn map(&mut self, p: PartitionId, pair: Pair)
        ensures { self.new ≡ spec.with_pair p (Some pair) self.old }
    {
        set_pair(&mut self.mailboxes, p, Some(pair));
    }

    /// Ends the registration of the pair of partition `p` (FFA_RXTX_UNMAP), whether it holds RX or
    /// not. It is refused as `InvalidParameters` where the partition has no pair, and changes nothing
    /// then.
    pub fn unmap(&mut self, p: PartitionId) -> Result<(), Status>
        ensures refused { IfErr result (RefusesWith (spec.unmap_tests self.old p)) }
        ensures err { OnErr result (self.new ≡ self.old) }
        ensures passed { OnOk result (NoneRefuses (spec.unmap_tests self.old p)) }
        ensures ok { OnOk result (self.new ≡ spec.with_pair p None self.old) }
    {
        if !self.has_pair(p) {
            return Err(Status::InvalidParameters);
        }
        set_pair(&mut self.mailboxes, p, None);
        Ok(())
    }

    /// Takes RX back from partition `p` (FFA_RX_RELEASE): it may be filled again. It is refused as
    /// `Denied` where the partition does not hold RX, also for want of a pair, and changes nothing
    /// then.
    pub fn release(&mut self, p: PartitionId) -> Result<(), Status>
        ensures refused { IfErr result (RefusesWith (spec.release_tests self.old p)) }
        ensures err { OnErr result (self.new ≡ self.old) }
        ensures passed { OnOk result (NoneRefuses (spec.release_tests self.old p)) }
        ensures ok { OnOk result (self.new ≡ spec.with_rx p false self.old) }
    {
        if !self.holds_rx(p) {
            return Err(Status::Denied);
        }
        set_held(&mut self.mailboxes, p, false);
        Ok(())
    }

    /// Gives RX to partition `p`, as a call that fills it does: the partition holds it from now on.
    /// It is refused as `InvalidParameters` where the partition has no pair, and as `Busy` where it
    /// holds RX already, and changes nothing then.
    pub fn fill(&mut self, p: PartitionId) -> Result<(), Status>
        ensures refused { IfErr result (RefusesWith (spec.fill_tests self.old p)) }
        ensures err { OnErr result (self.new ≡ self.old) }
        ensures passed { OnOk result (NoneRefuses (spec.fill_tests self.old p)) }
        ensures ok { OnOk result (self.new ≡ spec.with_rx p true self.old) }
    {
        fill_rx(&mut self.mailboxes, p)
    }

    /// The pair of partition `p`, where one is registered.
    pub fn pair_of(&self, p: PartitionId) -> Option<Pair>
        ensures { result ≡ spec.pair_of self.now p }
    {
        self.mailbox(p)?.pair
    }

    /// Whether a pair of partition `p` is registered.
    #[tactic(auto, unfolding(base::specs::Buffers::has_pair))]
    pub fn has_pair(&self, p: PartitionId) -> bool
        ensures { result ≡ spec.has_pair self.now p }
    {
        self.pair_of(p).is_some()
    }

    /// Whether partition `p` holds its RX buffer; a partition without a pair does not.
    #[tactic(auto, unfolding(base::specs::Buffers::holds_rx))]
    pub fn holds_rx(&self, p: PartitionId) -> bool
        ensures { result ≡ spec.holds_rx self.now p }
    {
        self.pair_of(p).is_some_and(|pair| pair.held)
    }

    /// Whether the page lies in a registered buffer, of whichever partition.
    pub fn holds_page(&self, page: Page) -> bool
        ensures { result ≡ spec.is_buffer self.now page }
    {
        self.mailboxes.iter().any(|mailbox| match &mailbox.pair {
            Some(pair) => pair.contains(page),
            None => false,
        })
    }

    /// The number of a page behind this one, up to a limit, before which no registered buffer begins or
    /// ends.
    pub fn until(&self, page: Page, limit: u32) -> u32
        requires { page < limit }
        ensures { IsAlikeUntil (spec.is_buffer self.now) page limit result }
    {
        buffers_until(&self.mailboxes, page, limit)
    }

    fn mailbox(&self, p: PartitionId) -> Option<&Mailbox>
        ensures { option_map (λ b. b.now) result ≡ find (λ b. b.partition == p) self.now }
    {
        self.mailboxes.iter().find(|mailbox| mailbox.partition == p)
    }
}

/// The partitions of these rows, with no pair registered.
fn first_mailboxes(partitions: &[Partition]) -> ArrayVec<Mailbox, MOST_PARTITIONS>
    requires { length partitions.now ≤ 64 }
    ensures { result.items ≡ map spec.first_mailbox partitions.now }
{
    let mut mailboxes = ArrayVec::new();
    for row in partitions {
        mailboxes.push(Mailbox {
            partition: row.id,
            pair: None,
        });
    }
    mailboxes
}

/// Makes this the pair of a partition, or leaves it without one.
fn set_pair(mailboxes: &mut [Mailbox], p: PartitionId, pair: Option<Pair>)
    ensures { mailboxes.new ≡ spec.with_pair p pair mailboxes.old }
{
    for mailbox in mailboxes.iter_mut() {
        if mailbox.partition == p {
            mailbox.pair = pair;
            return;
        }
    }
}

/// Makes RX held or not, where the partition has a pair.
fn set_held(mailboxes: &mut [Mailbox], p: PartitionId, held: bool)
    ensures { mailboxes.new ≡ spec.with_rx p held mailboxes.old }
{
    for mailbox in mailboxes.iter_mut() {
        if mailbox.partition == p {
            mailbox.pair = with_held(mailbox.pair, held);
            return;
        }
    }
}

/// Gives RX to a partition, where it has a pair and does not hold it.
#[tactic(auto, unfolding(base::specs::Buffers::has_pair, base::specs::Buffers::holds_rx))]
fn fill_rx(mailboxes: &mut [Mailbox], p: PartitionId) -> Result<(), Status>
    ensures refused { IfErr result (RefusesWith (spec.fill_tests mailboxes.old p)) }
    ensures err { OnErr result (mailboxes.new ≡ mailboxes.old) }
    ensures passed { OnOk result (NoneRefuses (spec.fill_tests mailboxes.old p)) }
    ensures ok { OnOk result (mailboxes.new ≡ spec.with_rx p true mailboxes.old) }
{
    for mailbox in mailboxes.iter_mut() {
        if mailbox.partition == p {
            return match filled(mailbox.pair) {
                Ok(pair) => {
                    mailbox.pair = Some(pair);
                    Ok(())
                }
                Err(status) => Err(status),
            };
        }
    }
    Err(Status::InvalidParameters)
}

/// The pair with RX held, where there is one whose RX is not held yet.
fn filled(pair: Option<Pair>) -> Result<Pair, Status>
    ensures refused { IfErr result (RefusesWith (pair_fill_tests pair)) }
    ensures passed { OnOk result (NoneRefuses (pair_fill_tests pair)) }
    ensures held { IfOk result (λ filled. Some filled ≡ option_map (spec.holding true) pair) }
{
    match pair {
        None => Err(Status::InvalidParameters),
        Some(pair) => {
            if pair.held {
                Err(Status::Busy)
            } else {
                Ok(pair.holding(true))
            }
        }
    }
}

fn with_held(pair: Option<Pair>, held: bool) -> Option<Pair>
    ensures { result ≡ option_map (spec.holding held) pair }
{
    pair.map(|pair| pair.holding(held))
}

fn buffers_until(mailboxes: &[Mailbox], page: Page, limit: u32) -> u32
    requires { page < limit }
    ensures { IsAlikeUntil (spec.is_buffer mailboxes.now) page limit result }
{
    let mut until = limit;
    for mailbox in mailboxes {
        until = buffer_until(mailbox, page, until);
    }
    until
}

fn buffer_until(mailbox: &Mailbox, page: Page, limit: u32) -> u32
    requires { page < limit }
    ensures { IsAlikeUntil (has_buffer_at mailbox.now) page limit result }
{
    match &mailbox.pair {
        Some(pair) => pair.until(page, limit),
        None => limit,
    }
}
