//! FFA_MEM_RETRIEVE_REQ.

ghost use Rattle.std.specs.Prelude.{◌≡◌, ℕ, ◌≤◌, ◌<◌, ◌+◌, ◌*◌, true, length, Some, None, IfOk, IfErr, OnOk, OnErr};
ghost use Rattle.base.specs.Refusals.{NoneRefuses, RefusesWith};
ghost use Rattle.base.specs.State as spec;
ghost use Rattle.rules.specs.Calls.Retrieve as rules;
ghost use Rattle.rules.specs.Laws.SentPages.{IsWithinLimits};
ghost use Rattle.rules.specs.Run.{IsReached};
ghost use Rattle.rules.specs.Transfers.{caller_version};
ghost use Rattle.spm.specs.Checked.{IsCaller, IsNamed, IsRetrieved};
ghost use Rattle.spm.specs.Granted.{IsGranted, IsStopped, CanRetrieve, after_retrieval, replied};

use crate::call::{Caller, LentCall};
use crate::calls::receiver::received_with;
use crate::calls::transfer::{are_lengths, names_tx};
use crate::change::{Answer, Change, Edit, Reach, Stop, Update};
use crate::spare::Spare;
use crate::state::State;
use base::limits::PAGE_SIZE;
use base::{
    Access, DataAccess, Handle, InstructionAccess, Kind, OutOfMemory, PartitionId, Permissions,
    Rights, Status, Version,
};
use descr::{Endpoint, RetrieveDesc, read_retrieve};
use descw::{ResponseFields, write_response};
use ledger::Live;
use std::mem::replace;
use wire::Transfer;

/// Who asks, what its request says, and the transaction that it names.
#[derive(Clone, Copy)]
struct Named<'a> {
    caller: Caller,
    request: RetrieveDesc,
    transaction: &'a Live,
}

/// The transaction that passes all tests, what is granted of it, and the version in which the response is written.
#[derive(Clone, Copy)]
struct Retrieval<'a> {
    transaction: &'a Live,
    access: Access,
    version: Version,
}

/// The caller retrieves the transaction that its descriptor in TX names. It reaches the pages with what
/// it is granted, and RX says so. A donation is complete then.
pub(crate) fn retrieve(
    state: &State,
    call: &LentCall<'_>,
    transfer: Transfer,
    spare: &mut Spare,
) -> Result<Change, Stop>
    requires { IsReached state.now }
    ensures granted { IfOk result (λ change. IsGranted state.now call.now.caller
        (rules.retrieve_rule state.now call.now transfer) true change) }
    ensures stopped { IfErr result (λ stop. IsStopped
        (rules.retrieve_rule state.now call.now transfer) true stop) }
{
    match check(state, call, transfer) {
        Ok(granted) => match change(state, call, granted, spare) {
            Ok(change) => Ok(change),
            Err(error) => Err(Stop::NoMemory(error)),
        },
        Err(status) => Err(Stop::Refused(status)),
    }
}

// ---- the tests

/// The tests of a retrieve, in order: they find the transaction, and what the caller is granted of it.
fn check<'a>(
    state: &'a State,
    call: &LentCall<'_>,
    transfer: Transfer,
) -> Result<Retrieval<'a>, Status>
    requires { IsReached state.now }
    ensures refused { IfErr result (RefusesWith
        (rules.retrieve_tests state.now call.now transfer)) }
    ensures passed { IfOk result (λ r. IsRetrieved state.now call.now transfer
        r.transaction.now r.access) }
    ensures version { IfOk result (λ r. r.version
        ≡ caller_version state.now call.now) }
{
    match check_request(state, call, transfer) {
        Ok(named) => match check_transaction(&named.caller, &named.request, named.transaction) {
            Ok(access) => Ok(Retrieval {
                transaction: named.transaction,
                access,
                version: named.caller.version,
            }),
            Err(status) => Err(status),
        },
        Err(status) => Err(status),
    }
}

/// The tests of the request itself, in order: they find what it says, and the transaction that it names.
#[tactic(auto, unfolding(base::specs::Buffers::has_pair))]
fn check_request<'a>(
    state: &'a State,
    call: &LentCall<'_>,
    transfer: Transfer,
) -> Result<Named<'a>, Status>
    requires { IsReached state.now }
    ensures refused { IfErr result (RefusesWith
        (rules.request_tests state.now call.now transfer)) }
    ensures passed { IfOk result (λ named. IsNamed state.now call.now transfer
        named.request named.transaction.now) }
    ensures caller { IfOk result (λ named. IsCaller state.now call.now.caller named.caller) }
{
    let p = call.partition();
    let Some(pair) = state.pairs.pair_of(p) else {
        return Err(Status::InvalidParameters);
    };
    if !names_tx(transfer) || !are_lengths(transfer, pair, call) {
        return Err(Status::InvalidParameters);
    }
    let bytes = &call.tx[..transfer.total as usize];
    let version = state.row(p).version;
    let Some(request) = read_retrieve(bytes, version) else {
        return Err(Status::InvalidParameters);
    };
    if request.endpoint.partition != p {
        return Err(Status::InvalidParameters);
    }
    let Some(transaction) = received_with(state, p, request.handle) else {
        return Err(Status::InvalidParameters);
    };
    Ok(Named {
        caller: Caller {
            partition: p,
            version,
            pair,
        },
        request,
        transaction,
    })
}

/// The tests of the transaction that a request names, in order, and what they grant.
#[tactic(auto, unfolding(base::specs::Buffers::holds_rx))]
fn check_transaction(
    caller: &Caller,
    request: &RetrieveDesc,
    transaction: &Live,
) -> Result<Access, Status>
    requires { IsWithinLimits transaction.now }
    ensures refused { IfErr result (λ status. (s : spec.State) → (p : ℕ) → IsCaller s p caller.now
        → RefusesWith (rules.transaction_tests s p request.now transaction.now) status) }
    ensures passed { IfOk result (λ access. (s : spec.State) → (p : ℕ) → IsCaller s p caller.now
        → NoneRefuses (rules.transaction_tests s p request.now transaction.now)) }
    ensures granted { IfOk result (λ access. rules.granted request.now.endpoint.permissions
        caller.now.partition transaction.now ≡ Some access) }
{
    let p = caller.partition;
    if !is_asked_rightly(request, transaction) {
        return Err(Status::InvalidParameters);
    }
    if transaction.retrieved(p).is_some() {
        return Err(Status::Denied);
    }
    let Some(access) = granted(request.endpoint.permissions, p, transaction) else {
        return Err(Status::Denied);
    };
    if caller.pair.held {
        return Err(Status::Busy);
    }
    if !fits_rx(caller, transaction) {
        return Err(Status::NoMemory);
    }
    Ok(access)
}

/// Whether a request names the sender, the tag and the kind of a transaction, and all its borrowers or
/// bypasses the check of them.
#[tactic(auto, unfolding(rules::specs::Calls::Retrieve::is_asked_rightly))]
fn is_asked_rightly(request: &RetrieveDesc, transaction: &Live) -> bool
    ensures { result ≡ rules.is_asked_rightly request.now transaction.now }
{
    request.sender == transaction.terms.sender
        && request.tag == transaction.terms.tag
        && is_kind(transaction.terms.kind, request.kind)
        && (transaction.terms.receivers.len() == 1 || request.bypass)
}

/// Whether a transaction is of the kind that is asked for, if one is.
fn is_kind(kind: Kind, asked: Option<Kind>) -> bool
    ensures { result ≡ rules.is_kind kind asked }
{
    match asked {
        None => true,
        Some(asked) => kind == asked,
    }
}

// ---- what is granted

/// What the permissions that a receiver asks for come to, where they are granted.
#[tactic(auto, unfolding(rules::specs::Calls::Retrieve::granted))]
fn granted(permissions: Permissions, p: PartitionId, transaction: &Live) -> Option<Access>
    ensures { result ≡ rules.granted permissions p transaction.now }
{
    let cap = cap_of(transaction, p)?;
    let rights = granted_rights(permissions.data(), cap)?;
    let may = may_execute(transaction, rights);
    let exec = granted_execution(permissions.instruction(), may)?;
    Some(transaction.terms.home.narrowed(rights, exec))
}

/// The most that a receiver may retrieve.
fn cap_of(transaction: &Live, p: PartitionId) -> Option<Rights>
    ensures { result ≡ rules.cap_of p transaction.now }
{
    match transaction.receiver(p) {
        Some(receiver) => Some(receiver.cap),
        None => None,
    }
}

fn granted_rights(asked: DataAccess, cap: Rights) -> Option<Rights>
    ensures { result ≡ rules.granted_rights asked cap }
{
    match (asked, cap) {
        (DataAccess::NotSpecified, cap) => Some(cap),
        (DataAccess::ReadOnly, _) => Some(Rights::Ro),
        (DataAccess::ReadWrite, Rights::Rw) => Some(Rights::Rw),
        (DataAccess::ReadWrite, Rights::Ro) | (DataAccess::Reserved, _) => None,
    }
}

/// Whether the pages may be executed by a receiver with this data access.
fn may_execute(transaction: &Live, rights: Rights) -> bool
    ensures value { result ≡ rules.may_execute transaction.now rights }
    ensures home { result ≡ true → transaction.now.home.exec ≡ true }
{
    let for_one = match transaction.terms.kind {
        Kind::Share => false,
        Kind::Lend => transaction.terms.receivers.len() == 1,
        Kind::Donate => true,
    };
    rights == Rights::Ro && for_one && transaction.terms.home.is_executable()
}

fn granted_execution(instruction: InstructionAccess, may: bool) -> Option<bool>
    ensures value { result ≡ rules.granted_execution instruction may }
    ensures only { result ≡ Some true → may ≡ true }
{
    match instruction {
        InstructionAccess::NotSpecified | InstructionAccess::NotExecutable => Some(false),
        InstructionAccess::Executable => { if may { Some(true) } else { None } }
        InstructionAccess::Reserved => None,
    }
}

// ---- the response

/// The length of the response in bytes.
fn response_length(version: Version, transaction: &Live) -> u32
    requires { length transaction.now.ranges ≤ 512 }
    ensures { result ≡ rules.response_length version transaction.now }
{
    let header = match version {
        Version::V10 => 32,
        Version::V11 => 48,
    };
    header + 32 + 16 * transaction.terms.ranges.len() as u32
}

/// Whether the response is not longer than the RX buffer.
#[tactic(auto, unfolding(rules::specs::Calls::Retrieve::fits_rx))]
fn fits_rx(caller: &Caller, transaction: &Live) -> bool
    requires { length transaction.now.ranges ≤ 512 }
    ensures { (s : spec.State) → (p : ℕ) → IsCaller s p caller.now
        → result ≡ rules.fits_rx s p transaction.now }
{
    let length = response_length(caller.version, transaction);
    u64::from(length) <= PAGE_SIZE * u64::from(caller.pair.rx.count())
}

/// The permissions that a response tells of.
fn permissions_of(access: Access) -> Permissions
    ensures { result ≡ rules.permissions_of access }
{
    let data = match access.rights() {
        Rights::Ro => 1,
        Rights::Rw => 2,
    };
    let instruction = if access.is_executable() { 2 } else { 1 };
    Permissions::new(data + 4 * instruction)
}

/// The response, and its length.
fn respond(
    room: Vec<u8>,
    version: Version,
    p: PartitionId,
    transaction: &Live,
    access: Access,
) -> Result<Answer, OutOfMemory>
    requires { IsWithinLimits transaction.now }
    ensures { IfOk result (λ answer. replied answer ≡ rules.responding version p
        (record { transaction = transaction.now; access = access })) }
{
    let fields = ResponseFields {
        sender: transaction.terms.sender,
        kind: transaction.terms.kind,
        handle: transaction.handle,
        tag: transaction.terms.tag,
        endpoint: Endpoint {
            partition: p,
            permissions: permissions_of(access),
        },
        ranges: &transaction.terms.ranges,
    };
    let bytes = write_response(room, version, &fields)?;
    Ok(Answer::Response(response_length(version, transaction), bytes))
}

// ---- the change

/// What a retrieve of this transaction changes that has passed its tests, and is granted this.
fn change(
    state: &State,
    call: &LentCall<'_>,
    granted: Retrieval<'_>,
    spare: &mut Spare,
) -> Result<Change, OutOfMemory>
    requires reached { IsReached state.now }
    requires retrieved { (transfer : Transfer) × IsRetrieved state.now call.now transfer
        granted.transaction.now granted.access }
    requires version { granted.version ≡ caller_version state.now call.now }
    ensures { IfOk result (λ change. (transfer : Transfer) → IsRetrieved state.now call.now transfer
        granted.entry.transaction.now granted.entry.access
        → IsGranted state.now call.now.caller (rules.retrieve_rule state.now call.now transfer) true change) }
{
    let Retrieval {
        transaction,
        access,
        version,
    } = granted;
    let p = call.partition();
    let room = replace(&mut spare.response, Vec::new(state.alloc));
    let answer = respond(room, version, p, transaction, access)?;
    let reach = Reach {
        who: p,
        to: Some(access),
        clears: false,
    };
    let edit = Edit::of(state.alloc, &mut spare.runs, transaction, reach)?;
    Ok(Change {
        edit: Some(edit),
        update: Update::Retrieve(transaction.handle, access),
        answer,
    })
}

/// The partition has retrieved the transaction of a handle, and holds RX.
pub(crate) fn complete(
    state: &mut State,
    p: PartitionId,
    handle: Handle,
    access: Access,
) -> Result<(), OutOfMemory>
    requires { CanRetrieve state.old p handle }
    ensures ok { OnOk result (state.new ≡ after_retrieval state.old p handle access) }
    ensures err { OnErr result (state.new ≡ state.old) }
{
    state.ledger.retrieve(p, handle, access)?;
    let _ = state.pairs.fill(p);
    Ok(())
}
