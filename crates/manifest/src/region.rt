ghost use Rattle.std.specs.Prelude.{◌≡◌, IsTrue, IfSome};
ghost use Rattle.std.specs.Option.{option_map};
ghost use Rattle.base.specs.Manifest.{granted_in};
ghost use Rattle.manifest.specs.Valid as rows;
ghost use Rattle.manifest.specs.Valid.{is_region, grant_to, suits_kind};

use base::{Access, MemoryKind, PartitionId, Rights, Run};
use std::marker::Model;

/// What a region grants to one partition.
#[derive(Clone, Copy, Debug, PartialEq, Eq)]
pub struct Grant {
    pub partition: PartitionId,
    pub rights: Rights,
    pub exec: bool,
}

impl Model for Grant {
    ghost use Rattle.base.specs.Manifest.{GrantRow};

    ghost Value = { GrantRow };

    ghost view = { λ g. record { partition = g.partition; rights = g.rights; exec = g.exec } };

    ghost inverse = { λ g. record { partition = g.partition; rights = g.rights; exec = g.exec } };
}

/// Pages of one kind of memory and one owner that are granted alike. The owner is among the grants,
/// no partition stands in them twice, and only normal memory is granted to be executed.
#[derive(Drop)]
pub struct Region {
    pages: Run,
    kind: MemoryKind,
    owner: PartitionId,
    grants: Vec<Grant>,
}

impl Model for Region {
    ghost use Rattle.std.specs.Prelude.{IsTrue};
    ghost use Rattle.base.specs.Manifest.{RegionRow};
    ghost use Rattle.manifest.specs.Valid.{is_region};

    ghost Value = { RegionRow };

    ghost view = { λ r. record {
      pages = r.pages;
      kind = r.kind;
      owner = r.owner;
      grants = r.grants.items;
    } };

    ghost invariant = { λ r. IsTrue (is_region (record {
      pages = r.pages;
      kind = r.kind;
      owner = r.owner;
      grants = r.grants.items;
    })) };
}

impl Region {
    /// A region of these parts.
    pub fn new(pages: Run, kind: MemoryKind, owner: PartitionId, grants: Vec<Grant>) -> Self
        requires { IsTrue (is_region (rows.region pages kind owner grants.items)) }
        ensures { result ≡ rows.region pages kind owner grants.items }
    {
        Region {
            pages,
            kind,
            owner,
            grants,
        }
    }

    /// Its pages.
    pub fn pages(&self) -> Run
        ensures same { result ≡ self.now.pages }
        ensures legal { IsTrue (is_region self.now) }
    {
        self.pages
    }

    /// The kind of its memory.
    pub fn kind(&self) -> MemoryKind
        ensures { result ≡ self.now.kind }
    {
        self.kind
    }

    /// The partition that owns its pages.
    pub fn owner(&self) -> PartitionId
        ensures { result ≡ self.now.owner }
    {
        self.owner
    }

    /// What it grants.
    pub fn grants(&self) -> &[Grant]
        ensures { result.now ≡ self.now.grants }
    {
        &self.grants
    }

    /// Its grant to a partition.
    fn grant(&self, p: PartitionId) -> Option<&Grant>
        ensures same { option_map (λ g. g.now) result ≡ grant_to self.now p }
        ensures legal { IfSome result (λ g. IsTrue (suits_kind self.now.kind g.now)) }
    {
        self.grants.iter().find(|grant| grant.partition == p)
    }

    /// What it grants to a partition.
    pub fn access(&self, p: PartitionId) -> Option<Access>
        ensures { result ≡ granted_in self.now p }
    {
        let grant = self.grant(p)?;
        match self.kind {
            MemoryKind::Normal => Some(Access::normal(grant.rights, grant.exec)),
            MemoryKind::Device => Some(Access::device(grant.rights)),
        }
    }
}
