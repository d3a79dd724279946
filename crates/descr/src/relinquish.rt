//! Reads the descriptor of a relinquish.

ghost use Rattle.std.specs.Prelude.{◌≡◌, ◌≤◌, false, length, IfSome, IfNone, IsTrue};
ghost use Rattle.base.specs.Descriptors.Relinquish as spec;

use crate::flags::{are_clear_flags, orders_clear};
use crate::numbers::{u16_at, u32_at, u64_at};
use base::{Handle, PartitionId};
use std::marker::Model;

/// What a relinquish says (FF-A 1.1, "Descriptor to relinquish a memory region").
#[derive(Clone, Copy, Debug, PartialEq, Eq)]
pub struct RelinquishDesc {
    /// The handle of the transaction, from bytes 0 to 7.
    pub handle: Handle,
    /// Whether the pages are to be cleared: bit 0 of the flags, bytes 8 to 11.
    pub clears: bool,
    /// The one borrower that gives its access up, from bytes 16 and 17.
    pub endpoint: PartitionId,
}

impl Model for RelinquishDesc {
    ghost use Rattle.base.specs.Descriptors.Relinquish.{Relinquish};

    ghost Value = { Relinquish };

    ghost view = { λ d. record { handle = d.handle; clears = d.clears; endpoint = d.endpoint } };

    ghost inverse = { λ v. record { handle = v.handle; clears = v.clears; endpoint = v.endpoint } };
}

/// The size of the descriptor with one endpoint, in bytes.
const RELINQUISH_SIZE: usize = 18;

/// Whether the bytes begin with the descriptor of a relinquish.
#[tactic(auto, unfolding(base::specs::Descriptors::Relinquish::is_relinquish))]
fn is_relinquish(bytes: &[u8]) -> bool
    ensures value { result ≡ spec.is_relinquish bytes.now }
    ensures inside { IsTrue result → 18 ≤ length bytes.now }
{
    bytes.len() >= RELINQUISH_SIZE && are_clear_flags(u32_at(bytes, 8)) && u32_at(bytes, 12) == 1
}

/// What the first 18 bytes say. `None` means that there are fewer, a flag other than bit 0 is set,
/// or more endpoints than one are named.
#[tactic(auto, unfolding(base::specs::Descriptors::Relinquish::relinquish_of))]
pub fn read_relinquish(bytes: &[u8]) -> Option<RelinquishDesc>
    // What is read is spelled so.
    ensures some { IfSome result (spec.SpellsRelinquish bytes.now) }

    // Nothing is read only where no relinquish is spelled.
    ensures none { IfNone result (spec.is_relinquish bytes.now ≡ false) }
{
    if !is_relinquish(bytes) {
        return None;
    }
    Some(RelinquishDesc {
        handle: Handle::from_bits(u64_at(bytes, 0)),
        clears: orders_clear(u32_at(bytes, 8)),
        endpoint: PartitionId::new(u16_at(bytes, 16)),
    })
}
