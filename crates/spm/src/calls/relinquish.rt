//! FFA_MEM_RELINQUISH.

ghost use Rattle.std.specs.Prelude.{◌≡◌, true, None, IfOk, IfErr};
ghost use Rattle.base.specs.Refusals.{RefusesWith};
ghost use Rattle.rules.specs.Calls.Relinquish as rules;
ghost use Rattle.rules.specs.Receivers.{with_retrieval_by};
ghost use Rattle.rules.specs.Run.{IsReached};
ghost use Rattle.spm.specs.Checked.{IsRelinquished};
ghost use Rattle.spm.specs.Granted.{IsGranted, IsStopped};

use crate::call::LentCall;
use crate::calls::clearing::may_clear_lent;
use crate::calls::receiver::received_with;
use crate::change::{Answer, Change, Edit, Reach, Stop, Update};
use crate::state::State;
use base::{Handle, PartitionId, Run, Status};
use descr::read_relinquish;
use ledger::Live;

/// What the tests of a relinquish found: the transaction, and whether its pages are to be cleared.
#[derive(Clone, Copy)]
struct Given<'a> {
    transaction: &'a Live,
    clears: bool,
}

/// The caller gives up what it has retrieved of the transaction that its descriptor in TX names, and
/// reaches its pages no more.
pub(crate) fn relinquish(
    state: &State,
    call: &LentCall<'_>,
    spare: &mut Vec<Run>,
) -> Result<Change, Stop>
    requires { IsReached state.now }
    ensures granted { IfOk result (λ change. IsGranted state.now call.now.caller
        (rules.relinquish_rule state.now call.now) true change) }
    ensures stopped { IfErr result (λ stop. IsStopped
        (rules.relinquish_rule state.now call.now) true stop) }
{
    match check(state, call) {
        Ok(given) => {
            let transaction = given.transaction;
            let reach = Reach {
                who: call.partition(),
                to: None,
                clears: given.clears,
            };
            match Edit::of(state.alloc, spare, transaction, reach) {
                Ok(edit) => Ok(Change {
                    edit: Some(edit),
                    update: Update::Relinquish(transaction.handle),
                    answer: Answer::Success(0, 0),
                }),
                Err(error) => Err(Stop::NoMemory(error)),
            }
        }
        Err(status) => Err(Stop::Refused(status)),
    }
}

/// The tests of a relinquish, in order.
fn check<'a>(state: &'a State, call: &LentCall<'_>) -> Result<Given<'a>, Status>
    requires { IsReached state.now }
    ensures refused { IfErr result (RefusesWith (rules.relinquish_tests state.now call.now)) }
    ensures passed { IfOk result (λ given. IsRelinquished state.now call.now
        given.transaction.now given.clears) }
{
    let p = call.partition();
    if !state.pairs.has_pair(p) {
        return Err(Status::InvalidParameters);
    }
    let Some(desc) = read_relinquish(call.tx) else {
        return Err(Status::InvalidParameters);
    };
    if desc.endpoint != p {
        return Err(Status::InvalidParameters);
    }
    let Some(transaction) = received_with(state, p, desc.handle) else {
        return Err(Status::InvalidParameters);
    };
    if transaction.retrieved(p).is_none() || !may_clear_lent(desc.clears, p, transaction) {
        return Err(Status::Denied);
    }
    Ok(Given {
        transaction,
        clears: desc.clears,
    })
}

/// The partition has retrieved nothing of the transaction of a handle.
#[tactic(auto, unfolding(rules::specs::Receivers::with_retrieval_by))]
pub(crate) fn give_up(state: &mut State, p: PartitionId, handle: Handle)
    ensures { state.new ≡ with_retrieval_by state.old p handle None }
{
    state.ledger.relinquish(p, handle);
}
