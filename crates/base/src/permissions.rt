ghost use Rattle.std.specs.Prelude.{◌≡◌};
ghost use Rattle.base.specs.Descriptors.Permissions as spec;

use std::marker::Model;

/// The data access permission of a descriptor, bits 1:0 of the permissions byte (FF-A 1.1, "Memory
/// access permissions descriptor").
#[derive(Clone, Copy, Debug, PartialEq, Eq)]
pub enum DataAccess {
    /// 0: the sender or the borrower leaves it open.
    NotSpecified,
    /// 1: read-only.
    ReadOnly,
    /// 2: read and write.
    ReadWrite,
    /// 3: no descriptor may have it.
    Reserved,
}

/// The instruction access permission of a descriptor, bits 3:2 of the permissions byte (FF-A 1.1,
/// "Memory access permissions descriptor").
#[derive(Clone, Copy, Debug, PartialEq, Eq)]
pub enum InstructionAccess {
    /// 0: the sender or the borrower leaves it open.
    NotSpecified,
    /// 1: not executable.
    NotExecutable,
    /// 2: executable.
    Executable,
    /// 3: no descriptor may have it.
    Reserved,
}

/// The permissions byte of an access descriptor: data access in bits 1:0, instruction access in bits
/// 3:2 (FF-A 1.1, "Memory access permissions descriptor"). A value may be any byte.
#[derive(Clone, Copy, Debug, PartialEq, Eq)]
pub struct Permissions(u8);

impl Model for Permissions {
    ghost use Rattle.std.specs.Prelude.{ℕ};

    ghost Value = { ℕ };

    ghost view = { λ p. p.0 };

    ghost inverse = { λ n. record { 0 = n } };
}

impl Permissions {
    /// The permissions that a byte spells.
    pub fn new(byte: u8) -> Self
        ensures { result ≡ byte }
    {
        Permissions(byte)
    }

    /// Data access is read-only, and instruction access is not specified.
    pub fn read_only() -> Self
        ensures { result ≡ spec.read_only }
    {
        Permissions(1)
    }

    /// Data access is read-write, and instruction access is not specified.
    pub fn read_write() -> Self
        ensures { result ≡ spec.read_write }
    {
        Permissions(2)
    }

    /// The byte that spells them.
    pub fn byte(self) -> u8
        ensures { result ≡ self }
    {
        self.0
    }

    /// The data access.
    pub fn data(self) -> DataAccess
        ensures { result ≡ spec.data_in self }
    {
        match self.0 % 4 {
            0 => DataAccess::NotSpecified,
            1 => DataAccess::ReadOnly,
            2 => DataAccess::ReadWrite,
            _ => DataAccess::Reserved,
        }
    }

    /// The instruction access.
    pub fn instruction(self) -> InstructionAccess
        ensures { result ≡ spec.instruction_in self }
    {
        match self.0 / 4 % 4 {
            0 => InstructionAccess::NotSpecified,
            1 => InstructionAccess::NotExecutable,
            2 => InstructionAccess::Executable,
            _ => InstructionAccess::Reserved,
        }
    }

    /// Whether a descriptor may have them: neither part is reserved, and bits 7:4 are 0.
    pub fn are_legal(self) -> bool
        ensures { result ≡ spec.are_permissions self }
    {
        self.0 % 4 < 3 && self.0 / 4 < 3
    }
}

impl Default for Permissions {
    ghost is_default = { λ p. p ≡ 0 };

    /// Neither data access nor instruction access is specified.
    fn default() -> Permissions {
        Permissions(0)
    }
}
