//! How a call hands over a descriptor in the TX buffer.

ghost use Rattle.std.specs.Prelude.{◌≡◌, ◌*◌, ◌≤◌, length, IsTrue};
ghost use Rattle.rules.specs.Transfers as rules;

use crate::call::LentCall;
use base::limits::PAGE_SIZE;
use mailbox::Pair;
use wire::Transfer;

/// Whether registers 3 and 4 name no other buffer.
#[tactic(auto, unfolding(rules::specs::Transfers::names_tx))]
pub(crate) fn names_tx(transfer: Transfer) -> bool
    ensures { result ≡ rules.names_tx transfer }
{
    transfer.address == 0 && transfer.pages == 0
}

/// Whether the lengths that the call gives agree, and its bytes and the TX buffer are as long.
#[tactic(auto, unfolding(rules::specs::Transfers::are_lengths))]
pub(crate) fn are_lengths(transfer: Transfer, pair: Pair, call: &LentCall<'_>) -> bool
    ensures value { result
        ≡ rules.are_lengths transfer (4096 * pair.tx.count) (length call.now.tx) }
    ensures inside { IsTrue result → length (rules.bytes_of call.now transfer) ≡ transfer.total }
{
    transfer.total == transfer.fragment
        && u64::from(transfer.total) <= PAGE_SIZE * u64::from(pair.tx.count())
        && transfer.total as usize <= call.tx.len()
}
