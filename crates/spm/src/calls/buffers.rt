//! FFA_RXTX_MAP, FFA_RXTX_UNMAP and FFA_RX_RELEASE.

ghost use Rattle.std.specs.Prelude.{◌≡◌, false, Some, None, IfOk, IfErr};
ghost use Rattle.std.specs.Option.{option_map_or};
ghost use Rattle.base.specs.Access.{is_rw};
ghost use Rattle.base.specs.Refusals.{first_refusal};
ghost use Rattle.base.specs.Buffers as pairs;
ghost use Rattle.rules.specs.Calls.Buffers as rules;
ghost use Rattle.rules.specs.Run.{IsReached};
ghost use Rattle.spm.specs.Granted.{IsGranted, IsStopped};

use crate::call::LentCall;
use crate::change::{Answer, Change, Stop, Update};
use crate::state::State;
use base::{Access, Page, PartitionId, Rights, Run, Status};
use mailbox::Pair;

// ---- FFA_RXTX_MAP

/// The caller registers TX and RX at these addresses in bytes, with so many pages each.
pub(crate) fn map(
    state: &State,
    call: &LentCall<'_>,
    tx: u64,
    rx: u64,
    pages: u32,
) -> Result<Change, Stop>
    requires { IsReached state.now }
    ensures granted { IfOk result (λ change. IsGranted state.now call.now.caller
        (rules.map_rule state.now call.now tx rx pages) false change) }
    ensures stopped { IfErr result (λ stop. IsStopped
        (rules.map_rule state.now call.now tx rx pages) false stop) }
{
    match check_map(state, call.partition(), tx, rx, pages) {
        Ok(pair) => Ok(Change::of_state(Update::MapBuffers(pair), Answer::Success(0, 0))),
        Err(status) => Err(Stop::Refused(status)),
    }
}

/// The tests of FFA_RXTX_MAP, in order. Gives the pair that the call names.
fn check_map(state: &State, p: PartitionId, tx: u64, rx: u64, pages: u32) -> Result<Pair, Status>
    requires { IsReached state.now }
    ensures refused { IfErr result (λ status. first_refusal
        (rules.map_tests state.now p tx rx pages) ≡ Some status) }
    ensures passed { IfOk result (λ pair. (first_refusal (rules.map_tests state.now p tx rx pages)
        ≡ None) × (pair ≡ pairs.named_pair tx rx pages)) }
{
    let pair = state.pairs.check(p, tx, rx, pages)?;
    if !may_be_buffers(state, p, pair.tx) || !may_be_buffers(state, p, pair.rx) {
        return Err(Status::Denied);
    }
    Ok(pair)
}

/// Whether each page of a run may be a buffer of a partition.
fn may_be_buffers(state: &State, p: PartitionId, run: Run) -> bool
    requires { IsReached state.now }
    ensures { result ≡ rules.may_be_buffers state.now p run }
{
    let owner = state.owner(p);
    let mut number = run.first().number();
    while number < run.end() {
        let segment = state.free_segment(&owner, Page::new(number), run.end());
        if !is_read_write(segment.value) {
            return false;
        }
        number = segment.end;
    }
    true
}

fn is_read_write(home: Option<Access>) -> bool
    ensures { result ≡ option_map_or (λ access. is_rw access.rights) home false }
{
    match home {
        Some(access) => access.rights() == Rights::Rw,
        None => false,
    }
}

/// Registers a pair.
#[tactic(auto, unfolding(rules::specs::Calls::Buffers::with_pair))]
pub(crate) fn register(state: &mut State, p: PartitionId, pair: Pair)
    ensures { state.new ≡ rules.with_pair state.old p (Some pair) }
{
    state.pairs.map(p, pair);
}

// ---- FFA_RXTX_UNMAP

/// The caller ends the registration of its pair, with this word in register 1.
pub(crate) fn unmap(state: &State, call: &LentCall<'_>, word: u32) -> Result<Change, Stop>
    ensures granted { IfOk result (λ change. IsGranted state.now call.now.caller
        (rules.unmap_rule state.now call.now word) false change) }
    ensures stopped { IfErr result (λ stop. IsStopped
        (rules.unmap_rule state.now call.now word) false stop) }
{
    if word == 0 && state.pairs.has_pair(call.partition()) {
        Ok(Change::of_state(Update::UnmapBuffers, Answer::Success(0, 0)))
    } else {
        Err(Stop::Refused(Status::InvalidParameters))
    }
}

/// Ends the registration of a pair.
#[tactic(auto, unfolding(rules::specs::Calls::Buffers::with_pair))]
pub(crate) fn unregister(state: &mut State, p: PartitionId)
    requires { first_refusal (pairs.unmap_tests state.old.mailboxes p) ≡ None }
    ensures { state.new ≡ rules.with_pair state.old p None }
{
    let _ = state.pairs.unmap(p);
}

// ---- FFA_RX_RELEASE

/// The caller gives RX back.
pub(crate) fn release_rx(state: &State, call: &LentCall<'_>) -> Result<Change, Stop>
    ensures granted { IfOk result (λ change. IsGranted state.now call.now.caller
        (rules.release_rule state.now call.now) false change) }
    ensures stopped { IfErr result (λ stop. IsStopped
        (rules.release_rule state.now call.now) false stop) }
{
    if state.pairs.holds_rx(call.partition()) {
        Ok(Change::of_state(Update::ReleaseRx, Answer::Success(0, 0)))
    } else {
        Err(Stop::Refused(Status::Denied))
    }
}

/// Takes RX back from a partition.
#[tactic(auto, unfolding(rules::specs::Calls::Buffers::with_rx_released))]
pub(crate) fn take_rx_back(state: &mut State, p: PartitionId)
    requires { first_refusal (pairs.release_tests state.old.mailboxes p) ≡ None }
    ensures { state.new ≡ rules.with_rx_released state.old p }
{
    let _ = state.pairs.release(p);
}
