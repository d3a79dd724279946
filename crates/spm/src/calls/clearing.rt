//! Who may order that pages are cleared.

ghost use Rattle.std.specs.Prelude.{◌≡◌, Some};
ghost use Rattle.rules.specs.Clearing as rules;

use base::{Access, Kind, PartitionId, Rights};
use ledger::Live;

/// Whether the sender of pages with this home may: their home is read-write.
#[tactic(auto, unfolding(rules::specs::Clearing::may_clear_sent))]
pub(crate) fn may_clear_sent(clears: bool, home: Access) -> bool
    ensures { result ≡ rules.may_clear_sent clears (Some home) }
{
    !clears || is_writable(Some(home))
}

/// Whether a receiver may: it is the only one of a lend, and has retrieved it read-write.
#[tactic(auto, unfolding(rules::specs::Clearing::may_clear_lent))]
pub(crate) fn may_clear_lent(clears: bool, p: PartitionId, transaction: &Live) -> bool
    ensures { result ≡ rules.may_clear_lent clears p transaction.now }
{
    !clears || (is_lent_to_one(transaction) && is_writable(transaction.retrieved(p)))
}

/// Whether the sender that reclaims may: it shared nothing, and the home is read-write.
#[tactic(auto, unfolding(rules::specs::Clearing::may_clear_returned))]
pub(crate) fn may_clear_returned(clears: bool, transaction: &Live) -> bool
    ensures { result ≡ rules.may_clear_returned clears transaction.now }
{
    !clears || (!is_share(transaction.terms.kind) && is_writable(Some(transaction.terms.home)))
}

fn is_writable(view: Option<Access>) -> bool
    ensures { result ≡ rules.is_writable view }
{
    match view {
        Some(access) => access.rights() == Rights::Rw,
        None => false,
    }
}

fn is_share(kind: Kind) -> bool
    ensures { result ≡ rules.is_share kind }
{
    matches!(kind, Kind::Share)
}

fn is_lent_to_one(transaction: &Live) -> bool
    ensures { result ≡ rules.is_lent_to_one transaction.now.kind transaction.now.receivers }
{
    match transaction.terms.kind {
        Kind::Lend => transaction.terms.receivers.len() == 1,
        Kind::Share | Kind::Donate => false,
    }
}
