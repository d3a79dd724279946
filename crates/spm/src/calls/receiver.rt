//! The transaction that a receiver names.

ghost use Rattle.std.specs.Prelude.{◌≡◌};
ghost use Rattle.std.specs.Option.{option_map};
ghost use Rattle.rules.specs.Receivers as rules;
ghost use Rattle.rules.specs.Run.{IsReached};

use crate::state::State;
use base::{Handle, PartitionId};
use ledger::Live;

/// The live transaction of a handle of which a partition is a receiver.
pub(crate) fn received_with(state: &State, p: PartitionId, handle: Handle) -> Option<&Live>
    requires { IsReached state.now }
    ensures { option_map (λ t. t.now) result ≡ rules.received_with state.now p handle }
{
    let transaction = state.ledger.find(handle)?;
    if is_received_by(transaction, p) {
        Some(transaction)
    } else {
        None
    }
}

/// Whether a partition is one of the receivers.
fn is_received_by(transaction: &Live, p: PartitionId) -> bool
    ensures { result ≡ rules.is_received_by p transaction.now }
{
    transaction
        .terms
        .receivers
        .iter()
        .any(|receiver| receiver.partition == p)
}
