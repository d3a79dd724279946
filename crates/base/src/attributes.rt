ghost use Rattle.std.specs.Prelude.{◌≡◌};
ghost use Rattle.base.specs.Descriptors.Permissions as spec;

use std::marker::Model;

/// The memory region attributes of a transaction descriptor (FF-A 1.1, "Memory region attributes
/// descriptor"). A value may be any 16 bits.
#[derive(Clone, Copy, Debug, PartialEq, Eq)]
pub struct MemoryAttributes(u16);

impl Model for MemoryAttributes {
    ghost use Rattle.std.specs.Prelude.{ℕ};

    ghost Value = { ℕ };

    ghost view = { λ a. a.0 };

    ghost inverse = { λ n. record { 0 = n } };
}

impl MemoryAttributes {
    /// The attributes that 16 bits spell.
    pub fn new(bits: u16) -> Self
        ensures { result ≡ bits }
    {
        MemoryAttributes(bits)
    }

    /// The sender does not specify them: 0.
    pub fn not_specified() -> Self
        ensures { result ≡ spec.not_specified }
    {
        MemoryAttributes(0)
    }

    /// Normal memory, write-back, inner shareable: 0x2f.
    pub fn normal_write_back() -> Self
        ensures { result ≡ spec.normal_write_back }
    {
        MemoryAttributes(0x2f)
    }

    /// The bits that spell them.
    pub fn bits(self) -> u16
        ensures { result ≡ self }
    {
        self.0
    }

    /// Whether a send or a retrieve request may have them.
    pub fn are_legal(self) -> bool
        ensures { result ≡ spec.are_attributes self }
    {
        self.0 == 0 || self.0 == 0x2f
    }
}
