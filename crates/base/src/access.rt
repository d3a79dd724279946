ghost use Rattle.std.specs.Prelude.{◌≡◌, true, false};

use std::marker::Model;

/// The data access that a page is mapped with (Arm ARM, stage 2 descriptors, S2AP).
#[derive(Clone, Copy, Debug, PartialEq, Eq)]
pub enum Rights {
    /// Read-only.
    Ro,
    /// Read and write.
    Rw,
}

/// The kind of memory (Arm ARM, stage 2 descriptors, MemAttr).
#[derive(Clone, Copy, Debug, PartialEq, Eq)]
pub enum MemoryKind {
    /// Normal memory, write-back, inner shareable.
    Normal,
    /// Device memory, nGnRE.
    Device,
}

/// What a partition may do with a page. Only normal memory is executable.
#[derive(Clone, Copy, Debug, PartialEq, Eq)]
pub struct Access {
    rights: Rights,
    exec: bool,
    kind: MemoryKind,
}

impl Model for Access {
    ghost use Rattle.base.specs.Access as access;
    ghost use Rattle.base.specs.Access.{IsLegal};

    ghost Value = { access.Access };

    ghost view = { λ a. record { rights = a.rights; exec = a.exec; kind = a.kind } };

    ghost invariant = { λ a. IsLegal (record { rights = a.rights; exec = a.exec; kind = a.kind }) };

    ghost inverse = { λ a. record { rights = a.rights; exec = a.exec; kind = a.kind } };
}

impl Access {
    ghost use Rattle.base.specs.Access.{IsLegal, is_same};

    /// Access to normal memory.
    pub fn normal(rights: Rights, exec: bool) -> Self
        ensures { result ≡ record { rights = rights; exec = exec; kind = MemoryKind.Normal } }
    {
        Access {
            rights,
            exec,
            kind: MemoryKind::Normal,
        }
    }

    /// Access to device memory.
    pub fn device(rights: Rights) -> Self
        ensures { result ≡ record { rights = rights; exec = false; kind = MemoryKind.Device } }
    {
        Access {
            rights,
            exec: false,
            kind: MemoryKind::Device,
        }
    }

    /// The data access.
    pub fn rights(self) -> Rights
        ensures same { result ≡ self.rights }
        ensures legal { IsLegal self }
    {
        self.rights
    }

    /// Whether instructions may be fetched.
    pub fn is_executable(self) -> bool
        ensures same { result ≡ self.exec }
        ensures legal { IsLegal self }
    {
        self.exec
    }

    /// The kind of memory.
    pub fn kind(self) -> MemoryKind
        ensures same { result ≡ self.kind }
        ensures legal { IsLegal self }
    {
        self.kind
    }

    /// Whether the two are alike in data access, instruction access and kind.
    pub fn is_same(self, other: Self) -> bool
        ensures { result ≡ is_same self other }
    {
        let rights = self.rights == other.rights;
        rights && self.exec == other.exec && self.kind == other.kind
    }

    /// The same kind of memory with this data access, where instructions may be fetched or not. They
    /// may be fetched only where they may be by this access.
    pub fn narrowed(self, rights: Rights, exec: bool) -> Self
        requires { exec ≡ true → self.exec ≡ true }
        ensures { result ≡ record { rights = rights; exec = exec; kind = self.kind } }
    {
        Access {
            rights,
            exec,
            kind: self.kind,
        }
    }
}
