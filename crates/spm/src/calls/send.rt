//! FFA_MEM_DONATE, FFA_MEM_LEND and FFA_MEM_SHARE.

ghost use Rattle.std.specs.Prelude.{◌≡◌, ◌+◌, ◌-◌, ◌*◌, ◌/◌, ◌%◌, ◌<◌, ◌≤◌, ◌^◌, ◌==◌, not, map, length, true, None, Some, IfOk, IfErr, OnOk, OnErr, IsTrue, if◌then◌else◌};
ghost use Rattle.std.specs.List.{list_all};
ghost use Rattle.base.specs.Pages.{are_disjoint};
ghost use Rattle.base.specs.Descriptors.Permissions.{not_specified, normal_write_back};
ghost use Rattle.base.specs.State as spec;
ghost use Rattle.base.specs.Refusals.{first_refusal};
ghost use Rattle.rules.specs.Calls.Send as rules;
ghost use Rattle.rules.specs.Run.{IsReached};
ghost use Rattle.spm.specs.Granted.{IsGranted, IsStopped, AreSameEdits, AreOrderly, CanOpen};
ghost use Rattle.spm.specs.Checked.{IsChecked};

use crate::call::LentCall;
use crate::calls::clearing::may_clear_sent;
use crate::calls::transfer::{are_lengths, names_tx};
use crate::change::{Answer, Change, Edit, Reach, Stop, Update};
use crate::partitions::PartitionState;
use crate::spare::Spare;
use crate::state::State;
use arrayvec::ArrayVec;
use base::limits::{MOST_LIVE, MOST_RECEIVERS};
use base::{
    Access, Handle, Kind, MemoryAttributes, OutOfMemory, PartitionId, Permissions, Rights, Run,
    Status,
};
use descr::{Endpoint, SendDesc, read_send};
use ledger::{Live, Receiver, Terms};
use std::alloc::Global;
use wire::Transfer;

/// What the tests of a send found: what its descriptor says, the home of its pages, and how many of its
/// sender's sends were accepted.
#[derive(Drop)]
pub(crate) struct Checked<'a> {
    pub(crate) desc: SendDesc<'a>,
    pub(crate) home: Access,
    pub(crate) sends: u32,
}

/// The caller sends the memory that its descriptor in TX names.
pub(crate) fn send(
    state: &State,
    call: &LentCall<'_>,
    kind: Kind,
    transfer: Transfer,
    spare: &mut Spare,
) -> Result<Change, Stop>
    requires { IsReached state.now }
    ensures granted { IfOk result (λ change. IsGranted state.now call.now.caller
        (rules.send_rule state.now call.now kind transfer) true change) }
    ensures stopped { IfErr result (λ stop. IsStopped
        (rules.send_rule state.now call.now kind transfer) true stop) }
{
    match check(state, call, kind, transfer) {
        Ok(checked) => match change(state, call, kind, &checked, spare) {
            Ok(change) => Ok(change),
            Err(error) => Err(Stop::NoMemory(error)),
        },
        Err(status) => Err(Stop::Refused(status)),
    }
}

// ---- the tests

/// The tests of a send, in order.
#[tactic(auto, unfolding(base::specs::Buffers::has_pair))]
fn check<'a>(
    state: &State,
    call: &'a LentCall<'a>,
    kind: Kind,
    transfer: Transfer,
) -> Result<Checked<'a>, Status>
    requires { IsReached state.now }
    ensures refused { IfErr result (λ status. first_refusal
        (rules.send_tests state.now call.now kind transfer) ≡ Some status) }
    ensures passed { IfOk result (λ checked. IsChecked state.now call.now kind transfer
        checked.desc checked.home checked.sends) }
{
    let p = call.partition();
    let row = state.row(p);
    let owner = state.owner(p);
    let Some(pair) = owner.pair else {
        return Err(Status::InvalidParameters);
    };
    if !names_tx(transfer) || !are_lengths(transfer, pair, call) {
        return Err(Status::InvalidParameters);
    }
    let bytes = &call.tx[..transfer.total as usize];
    let Some(desc) = read_send(bytes, row.version) else {
        return Err(Status::InvalidParameters);
    };
    if !are_parties(state, p, &desc) || !suits(kind, &desc) {
        return Err(Status::InvalidParameters);
    }
    let Some(home) = state.common_home(&owner, &desc) else {
        return Err(Status::Denied);
    };
    if !are_capped(kind, home, &desc.receivers) || !may_clear_sent(desc.clears, home) {
        return Err(Status::Denied);
    }
    if !has_room(state, p, row.sends) {
        return Err(Status::NoMemory);
    }
    Ok(Checked {
        desc,
        home,
        sends: row.sends,
    })
}

/// Whether a send names its sender and its receivers rightly.
#[tactic(auto, unfolding(rules::specs::Calls::Send::are_parties))]
fn are_parties(state: &State, p: PartitionId, desc: &SendDesc<'_>) -> bool
    ensures { result ≡ rules.are_parties state.now p desc.now }
{
    desc.sender == p && are_receivers(state, p, &desc.receivers) && are_distinct(&desc.receivers)
}

fn are_receivers(state: &State, p: PartitionId, endpoints: &[Endpoint]) -> bool
    ensures { result ≡ list_all (rules.is_receiver state.now p) endpoints.now }
{
    for endpoint in endpoints {
        if endpoint.partition == p || !state.is_partition(endpoint.partition) {
            return false;
        }
    }
    true
}

/// Whether no partition stands twice among the receivers.
fn are_distinct(endpoints: &[Endpoint]) -> bool
    ensures { result ≡ rules.are_distinct endpoints.now }
{
    match endpoints {
        [] => true,
        [endpoint, rest @ ..] => is_apart_from(endpoint, rest) && are_distinct(rest),
    }
}

fn is_apart_from(endpoint: &Endpoint, others: &[Endpoint]) -> bool
    ensures { result ≡ list_all (λ f. not (f.partition == endpoint.now.partition)) others.now }
{
    others
        .iter()
        .all(|other| other.partition != endpoint.partition)
}

/// Whether the receivers' count, their permissions and the attributes suit the kind of the send.
#[tactic(auto, unfolding(rules::specs::Calls::Send::suits))]
fn suits(kind: Kind, desc: &SendDesc<'_>) -> bool
    ensures { result ≡ rules.suits kind desc.now }
{
    let receivers = &desc.receivers;
    match kind {
        Kind::Donate => {
            receivers.len() == 1
                && give_nothing(receivers)
                && desc.attributes == MemoryAttributes::not_specified()
        }
        Kind::Lend => give_data(receivers) && desc.attributes == lend_attributes(receivers),
        Kind::Share => {
            !desc.clears
                && give_data(receivers)
                && desc.attributes == MemoryAttributes::normal_write_back()
        }
    }
}

/// Whether neither data access nor instruction access is specified.
fn give_nothing(receivers: &[Endpoint]) -> bool
    ensures { result ≡ list_all rules.gives_nothing receivers.now }
{
    let nothing = Permissions::default();
    receivers
        .iter()
        .all(|endpoint| endpoint.permissions == nothing)
}

/// Whether data access is read-only or read-write, and instruction access is not specified.
fn give_data(receivers: &[Endpoint]) -> bool
    ensures { result ≡ list_all rules.gives_data receivers.now }
{
    let (read_only, read_write) = (Permissions::read_only(), Permissions::read_write());
    receivers.iter().all(|endpoint| endpoint.permissions == read_only
        || endpoint.permissions == read_write)
}

/// The memory attributes that a lend specifies.
fn lend_attributes(receivers: &[Endpoint]) -> MemoryAttributes
    ensures { result ≡ (if length receivers.now == 1 then not_specified else normal_write_back) }
{
    if receivers.len() == 1 {
        MemoryAttributes::not_specified()
    } else {
        MemoryAttributes::normal_write_back()
    }
}

/// The most that a receiver may retrieve.
fn cap_of(kind: Kind, home: Access, endpoint: &Endpoint) -> Rights
    ensures { result ≡ rules.cap kind home endpoint.now }
{
    match kind {
        Kind::Donate => home.rights(),
        Kind::Lend | Kind::Share => {
            if endpoint.permissions == Permissions::read_write() {
                Rights::Rw
            } else {
                Rights::Ro
            }
        }
    }
}

fn is_within(cap: Rights, home: Rights) -> bool
    ensures { result ≡ rules.is_within cap home }
{
    cap == Rights::Ro || home == Rights::Rw
}

/// Whether no receiver may retrieve more than the home.
#[tactic(auto, unfolding(rules::specs::Calls::Send::are_capped))]
fn are_capped(kind: Kind, home: Access, endpoints: &[Endpoint]) -> bool
    ensures { result ≡ rules.are_capped kind (Some home) endpoints.now }
{
    endpoints.iter().all(|endpoint| is_within(cap_of(kind, home, endpoint), home.rights()))
}

/// Whether a partition may have one more live transaction and one more handle.
#[tactic(auto, unfolding(rules::specs::Calls::Send::has_room))]
fn has_room(state: &State, p: PartitionId, sends: u32) -> bool
    requires { sends ≡ spec.sends_of state.now.partitions p }
    ensures value { result ≡ rules.has_room state.now p }
    ensures room { result ≡ true → sends < 2 ^ 32 - 1 }
{
    state.ledger.live_of(p) < MOST_LIVE && sends < u32::MAX
}

// ---- the change

/// What a send changes that has passed its tests.
fn change(
    state: &State,
    call: &LentCall<'_>,
    kind: Kind,
    checked: &Checked<'_>,
    spare: &mut Spare,
) -> Result<Change, OutOfMemory>
    requires reached { IsReached state.now }
    requires checked { (transfer : Transfer) × IsChecked state.now call.now kind transfer
        checked.now.desc checked.now.home checked.now.sends }
    ensures { IfOk result (λ change. (transfer : Transfer) → IsChecked state.now call.now kind transfer
        checked.now.desc checked.now.home checked.now.sends
        → IsGranted state.now call.now.caller (rules.send_rule state.now call.now kind transfer) true change) }
{
    let p = call.partition();
    let transaction = transaction(state, p, kind, checked, spare)?;
    let handle = transaction.handle;
    let edit = sender_edit(
        state.alloc,
        &mut spare.runs,
        &transaction,
        checked.desc.clears,
    )?;
    Ok(Change {
        edit,
        update: Update::Open(transaction),
        answer: Answer::Success(handle.low(), handle.high()),
    })
}

/// The transaction that a send opens.
fn transaction(
    state: &State,
    p: PartitionId,
    kind: Kind,
    checked: &Checked<'_>,
    spare: &mut Spare,
) -> Result<Live, OutOfMemory>
    requires counted { checked.now.sends ≡ spec.sends_of state.now.partitions p }
    requires room { checked.now.sends < 2 ^ 32 - 1 }
    ensures opened { IfOk result (λ t. t
        ≡ rules.opened state.now p kind checked.now.desc checked.now.home) }
    ensures at_most_512 { IfOk result (λ t. length t.ranges ≤ 512) }
{
    let terms = Terms {
        kind,
        sender: p,
        tag: checked.desc.tag,
        ranges: ranges_of(state.alloc, &checked.desc, spare)?,
        receivers: receivers_of(kind, checked.home, &checked.desc.receivers),
        home: checked.home,
    };
    Ok(Live {
        handle: Handle::new(p, checked.sends + 1),
        terms: spare.place(state.alloc, terms)?,
    })
}

/// A copy of the ranges of a send, in as much memory as they need.
fn ranges_of(alloc: Global, desc: &SendDesc<'_>, spare: &mut Spare) -> Result<Vec<Run>, OutOfMemory>
    ensures same { IfOk result (λ ranges. ranges.items ≡ desc.now.ranges) }
    ensures few { IfOk result (λ ranges. length ranges.items ≤ 512) }
{
    let mut ranges = spare.ranges(alloc, desc.ranges().count())?;
    for run in desc.ranges() {
        ranges.push_reserved(run);
    }
    Ok(ranges)
}

/// The receivers of a transaction that nobody has retrieved.
fn receivers_of(
    kind: Kind,
    home: Access,
    endpoints: &[Endpoint],
) -> ArrayVec<Receiver, MOST_RECEIVERS>
    requires { length endpoints.now ≤ 8 }
    ensures { result.items ≡ map (rules.receiver kind home) endpoints.now }
{
    let mut receivers = ArrayVec::new();
    for endpoint in endpoints {
        receivers.push(Receiver {
            partition: endpoint.partition,
            cap: cap_of(kind, home, endpoint),
            retrieved: None,
        });
    }
    receivers
}

/// What the sender reaches no more: all of what it lends or gives away, and nothing of a share.
fn sender_edit(
    alloc: Global,
    spare: &mut Vec<Run>,
    transaction: &Live,
    clears: bool,
) -> Result<Option<Edit>, OutOfMemory>
    requires apart { are_disjoint transaction.now.ranges ≡ true }
    ensures same { IfOk result (AreSameEdits (rules.sender_edit transaction.now.kind
        transaction.now.sender transaction.now.ranges clears)) }
    ensures orderly { IfOk result (AreOrderly transaction.now.sender) }
{
    match transaction.terms.kind {
        Kind::Share => Ok(None),
        Kind::Lend | Kind::Donate => {
            let reach = Reach {
                who: transaction.terms.sender,
                to: None,
                clears,
            };
            Ok(Some(Edit::of(alloc, spare, transaction, reach)?))
        }
    }
}

/// Opens a transaction, and counts the send.
#[tactic(auto, unfolding(rules::specs::Calls::Send::with_transaction))]
pub(crate) fn open(state: &mut State, transaction: Live) -> Result<(), OutOfMemory>
    requires { CanOpen state.old transaction }
    ensures ok { OnOk result (state.new ≡ rules.with_transaction state.old transaction) }
    ensures err { OnErr result (state.new ≡ state.old) }
{
    let p = transaction.terms.sender;
    state.ledger.open(transaction)?;
    count_send(&mut state.partitions, p);
    Ok(())
}

/// Counts one more accepted send of a partition.
fn count_send(partitions: &mut [PartitionState], p: PartitionId)
    requires { spec.sends_of partitions.old p < 2 ^ 32 - 1 }
    ensures { partitions.new ≡ spec.with_partition p rules.counting partitions.old }
{
    for row in partitions.iter_mut() {
        if row.partition == p {
            row.sends += 1;
            return;
        }
    }
}
