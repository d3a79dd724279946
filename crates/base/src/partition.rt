ghost use Rattle.std.specs.Prelude.{◌≡◌};

use std::marker::Model;

/// The identifier of a partition (FF-A 1.1, "Partition identification and discovery").
#[derive(Clone, Copy, Debug, PartialEq, Eq)]
pub struct PartitionId(u16);

impl Model for PartitionId {
    ghost use Rattle.std.specs.Prelude.{ℕ};

    ghost Value = { ℕ };

    ghost view = { λ id. id.0 };

    ghost inverse = { λ n. record { 0 = n } };
}

impl PartitionId {
    /// The identifier with this number.
    pub fn new(number: u16) -> Self
        ensures { result ≡ number }
    {
        PartitionId(number)
    }

    /// The number of the identifier.
    pub fn number(self) -> u16
        ensures { result ≡ self }
    {
        self.0
    }
}

/// The version of FF-A that a partition speaks: it decides the layout of its descriptors.
#[derive(Clone, Copy, Debug, PartialEq, Eq)]
pub enum Version {
    /// FF-A 1.0: the header of a memory transaction descriptor has 32 bytes.
    V10,
    /// FF-A 1.1: that header has 48 bytes.
    V11,
}
