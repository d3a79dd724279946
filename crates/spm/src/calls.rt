//! The calls, a file each: the tests in order, and what the call changes.

ghost use Rattle.std.specs.Prelude.{IfOk, IfErr};
ghost use Rattle.rules.specs.Run.{rule_of, IsReached};
ghost use Rattle.spm.specs.Granted.{IsGranted, IsStopped};
ghost use Rattle.spm.specs.Machine.{takes_memory};

pub(crate) mod buffers;
pub(crate) mod clearing;
pub(crate) mod features;
pub(crate) mod id_get;
pub(crate) mod receiver;
pub(crate) mod reclaim;
pub(crate) mod relinquish;
pub(crate) mod retrieve;
pub(crate) mod send;
pub(crate) mod transfer;
pub(crate) mod version;

use crate::call::LentCall;
use crate::change::{Change, Stop};
use crate::spare::Spare;
use crate::state::State;
use wire::Request;

/// Tests what a partition asks for, and says what it changes. It changes nothing itself. The runs of an edit, the terms of a
/// transaction and a response may stand in spare memory.
pub(crate) fn check(
    state: &State,
    call: &LentCall<'_>,
    request: Request,
    spare: &mut Spare,
) -> Result<Change, Stop>
    requires { IsReached state.now }
    ensures granted { IfOk result (λ change. IsGranted state.now call.now.caller
        (rule_of state.now call.now request) (takes_memory request) change) }
    ensures stopped { IfErr result (λ stop. IsStopped
        (rule_of state.now call.now request) (takes_memory request) stop) }
{
    match request {
        Request::Version(word) => Ok(version::version(word)),
        Request::Features(identifier) => features::features(identifier),
        Request::RxRelease => buffers::release_rx(state, call),
        Request::RxtxMap { tx, rx, pages } => buffers::map(state, call, tx, rx, pages),
        Request::RxtxUnmap(word) => buffers::unmap(state, call, word),
        Request::IdGet => Ok(id_get::id_get(call)),
        Request::Send(kind, transfer) => send::send(state, call, kind, transfer, spare),
        Request::Retrieve(transfer) => retrieve::retrieve(state, call, transfer, spare),
        Request::Relinquish => relinquish::relinquish(state, call, &mut spare.runs),
        Request::Reclaim { handle, flags } => {
            reclaim::reclaim(state, call, handle, flags, &mut spare.runs)
        }
    }
}
