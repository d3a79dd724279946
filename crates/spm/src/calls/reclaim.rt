//! FFA_MEM_RECLAIM.

ghost use Rattle.std.specs.Prelude.{◌≡◌, true, None, Some, is_some, not, IfOk, IfErr, OnOk, OnErr};
ghost use Rattle.std.specs.List.{list_all};
ghost use Rattle.std.specs.Option.{option_map};
ghost use Rattle.base.specs.Pages.{are_disjoint};
ghost use Rattle.base.specs.Refusals.{NoneRefuses, RefusesWith};
ghost use Rattle.rules.specs.Calls.Reclaim as rules;
ghost use Rattle.rules.specs.Run.{IsReached};
ghost use Rattle.spm.specs.Checked.{IsReclaimed};
ghost use Rattle.spm.specs.Granted.{IsGranted, IsStopped, AreSameEdits, AreOrderly};

use crate::call::LentCall;
use crate::calls::clearing::may_clear_returned;
use crate::change::{Answer, Change, Edit, Reach, Stop, Update};
use crate::spare::Spare;
use crate::state::State;
use base::{Handle, Kind, OutOfMemory, PartitionId, Run, Status};
use descr::{are_clear_flags, orders_clear};
use ledger::Live;
use std::alloc::Global;

/// The caller ends a transaction that it has sent and that no receiver has any more, and reaches its
/// pages as before.
pub(crate) fn reclaim(
    state: &State,
    call: &LentCall<'_>,
    handle: Handle,
    flags: u32,
    spare: &mut Vec<Run>,
) -> Result<Change, Stop>
    requires { IsReached state.now }
    ensures granted { IfOk result (λ change. IsGranted state.now call.now.caller
        (rules.reclaim_rule state.now call.now handle flags) true change) }
    ensures stopped { IfErr result (λ stop. IsStopped
        (rules.reclaim_rule state.now call.now handle flags) true stop) }
{
    let p = call.partition();
    match check(state, p, handle, flags) {
        Ok(transaction) => match returned_by(
            state.alloc,
            spare,
            p,
            transaction,
            orders_clear(flags),
        ) {
            Ok(edit) => Ok(Change {
                edit,
                update: Update::Close(handle),
                answer: Answer::Success(0, 0),
            }),
            Err(error) => Err(Stop::NoMemory(error)),
        },
        Err(status) => Err(Stop::Refused(status)),
    }
}

/// The tests of a reclaim, in order.
fn check(state: &State, p: PartitionId, handle: Handle, flags: u32) -> Result<&Live, Status>
    requires { IsReached state.now }
    ensures refused { IfErr result (RefusesWith (rules.reclaim_tests state.now p handle flags)) }
    ensures passed { IfOk result (λ t. IsReclaimed state.now p handle flags t.now) }
{
    if !are_clear_flags(flags) {
        return Err(Status::InvalidParameters);
    }
    let Some(transaction) = sent_with(state, p, handle) else {
        return Err(Status::InvalidParameters);
    };
    if !is_given_back(transaction) || !may_clear_returned(orders_clear(flags), transaction) {
        return Err(Status::Denied);
    }
    Ok(transaction)
}

/// The live transaction of a handle that a partition has sent.
fn sent_with(state: &State, p: PartitionId, handle: Handle) -> Option<&Live>
    requires { IsReached state.now }
    ensures { option_map (λ t. t.now) result ≡ rules.sent_with state.now p handle }
{
    let transaction = state.ledger.find(handle)?;
    if transaction.terms.sender == p {
        Some(transaction)
    } else {
        None
    }
}

/// Whether each receiver that has retrieved it has relinquished it.
fn is_given_back(transaction: &Live) -> bool
    ensures { result ≡ rules.is_given_back transaction.now }
{
    transaction
        .terms
        .receivers
        .iter()
        .all(|receiver| receiver.retrieved.is_none())
}

/// What the sender reaches again: all of what it lent or gave away, and nothing more of a share.
fn returned_by(
    alloc: Global,
    spare: &mut Vec<Run>,
    p: PartitionId,
    transaction: &Live,
    clears: bool,
) -> Result<Option<Edit>, OutOfMemory>
    requires sender { transaction.now.sender ≡ p }
    requires apart { are_disjoint transaction.now.ranges ≡ true }
    ensures same { IfOk result (AreSameEdits (rules.returned_by clears transaction.now)) }
    ensures orderly { IfOk result (AreOrderly p) }
{
    match transaction.terms.kind {
        Kind::Share => Ok(None),
        Kind::Lend | Kind::Donate => {
            let reach = Reach {
                who: p,
                to: Some(transaction.terms.home),
                clears,
            };
            Ok(Some(Edit::of(alloc, spare, transaction, reach)?))
        }
    }
}

/// Ends the transaction of a handle, and keeps the place of its terms and ranges. This takes no memory.
#[tactic(auto, unfolding(rules::specs::Calls::Reclaim::ended))]
pub(crate) fn close(state: &mut State, spare: &mut Spare, handle: Handle)
    ensures { state.new ≡ rules.ended state.old handle }
{
    if let Some(ended) = state.ledger.close(handle) {
        spare.keep(ended);
    }
}
