ghost use Rattle.std.specs.Prelude.{◌≡◌, ◌<◌, ◌^◌};
ghost use Rattle.base.specs.Handles as spec;

use crate::partition::PartitionId;
use std::marker::Model;

/// The handle of a memory transaction, 64 bits (FF-A 1.1, "Memory region handle"): the sender's
/// identifier in bits 47:32, and in bits 31:0 how many of that sender's sends were accepted, this one
/// with them. Bit 63 is 0, as the manager has allocated it.
#[derive(Clone, Copy, Debug, PartialEq, Eq)]
pub struct Handle(u64);

impl Model for Handle {
    ghost use Rattle.std.specs.Prelude.{ℕ};

    ghost Value = { ℕ };

    ghost view = { λ h. h.0 };

    ghost inverse = { λ n. record { 0 = n } };
}

impl Handle {
    /// The handle of a sender's accepted send with this number, counted from 1.
    pub fn new(sender: PartitionId, count: u32) -> Self
        ensures { result ≡ spec.handle_of sender count }
    {
        Handle(u64::from(sender.number()) * 0x1_0000_0000 + u64::from(count))
    }

    /// The handle that 64 bits spell, whether or not it was given out.
    pub fn from_bits(bits: u64) -> Self
        ensures { result ≡ bits }
    {
        Handle(bits)
    }

    /// The handle whose halves two registers have.
    pub fn from_halves(low: u32, high: u32) -> Self
        ensures { result ≡ spec.of_halves low high }
    {
        Handle(u64::from(low) + 0x1_0000_0000 * u64::from(high))
    }

    /// Its 64 bits.
    pub fn bits(self) -> u64
        ensures same { result ≡ self }
        ensures in_range { self < 2 ^ 64 }
    {
        self.0
    }

    /// Its bits 31:0.
    pub fn low(self) -> u32
        ensures { result ≡ spec.low_half self }
    {
        (self.0 % 0x1_0000_0000) as u32
    }

    /// Its bits 63:32.
    pub fn high(self) -> u32
        ensures { result ≡ spec.high_half self }
    {
        (self.0 >> 32) as u32
    }
}
