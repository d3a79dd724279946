//! What is wrong with a manifest.

ghost use Rattle.std.specs.Prelude.{◌≡◌};
ghost use Rattle.manifest.specs.Numbers.{number_of};
ghost use Rattle.manifest.specs.declared.fault.ManifestFault.TheVariants.{OutOfMemory as NoMemory};

use base::OutOfMemory;
use std::alloc::{AllocError, AllocFailed};
use std::error::Error;
use std::fmt;

/// A key of a manifest.
#[derive(Clone, Copy, Debug, PartialEq, Eq)]
pub enum Key {
    Pool,
    Partition,
    Region,
    Id,
    Quota,
    Base,
    Pages,
    Kind,
    Owner,
    Grants,
    Data,
    Exec,
}

/// A table of a manifest. Partitions, regions and the grants of a region are counted from 1, in the
/// order of the document.
#[derive(Clone, Copy, Debug, PartialEq, Eq)]
pub enum Table {
    /// The document as a whole.
    Document,
    /// A partition.
    Partition(usize),
    /// A region.
    Region(usize),
    /// A grant of a region.
    Grant { region: usize, grant: usize },
}

/// Where a rule is broken: in which table, and at which key of it, if it is one.
#[derive(Clone, Copy, Debug, PartialEq, Eq)]
pub struct Place {
    pub table: Table,
    pub key: Option<Key>,
}

impl Key {
    /// The key as it stands in a document.
    pub fn name(self) -> &'static str {
        match self {
            Key::Pool => "pool",
            Key::Partition => "partition",
            Key::Region => "region",
            Key::Id => "id",
            Key::Quota => "quota",
            Key::Base => "base",
            Key::Pages => "pages",
            Key::Kind => "kind",
            Key::Owner => "owner",
            Key::Grants => "grants",
            Key::Data => "data",
            Key::Exec => "exec",
        }
    }
}

impl Table {
    /// The table as a whole.
    pub(crate) fn whole(self) -> Place {
        Place {
            table: self,
            key: None,
        }
    }

    /// A key of the table.
    pub(crate) fn at(self, key: Key) -> Place {
        Place {
            table: self,
            key: Some(key),
        }
    }
}

impl fmt::Display for Table {
    fn fmt<W: fmt::Write>(&self, f: &mut fmt::Formatter<W>) -> fmt::Result {
        match self {
            Table::Document => write!(f, "document"),
            Table::Partition(number) => write!(f, "partition {number}"),
            Table::Region(number) => write!(f, "region {number}"),
            Table::Grant { region, grant } => write!(f, "region {region}, grant {grant}"),
        }
    }
}

impl fmt::Display for Place {
    fn fmt<W: fmt::Write>(&self, f: &mut fmt::Formatter<W>) -> fmt::Result {
        let table = self.table;
        match self.key {
            Some(key) => {
                let name = key.name();
                write!(f, "{table}, {name}")
            }
            None => write!(f, "{table}"),
        }
    }
}

/// The first rule that a manifest breaks, and where.
#[derive(Clone, Copy, Debug, PartialEq, Eq)]
pub enum ManifestFault {
    /// The bytes are no TOML document.
    NotToml,
    /// A key is missing, or is none of those that stand there.
    Key(Place),
    /// A value is of another type, or another text than those that stand there.
    Value(Place),
    /// A number is outside its limits.
    Limit(Place),
    /// A partition identifier stands twice, or an owner or a grant names no partition.
    Identifier(Place),
    /// Two regions, or a region and the pool, share a page.
    Overlap(Place),
    /// A region grants its owner nothing.
    OwnerWithoutGrant(Place),
    /// A region has two grants of one partition.
    SecondGrant(Place),
    /// A device region is granted to be executed.
    ExecutableDevice(Place),
    /// A quota is below the table pages that the partition's grants need.
    Quota(Place),
    /// The heap had no room.
    OutOfMemory,
}

impl ManifestFault {
    /// The number of the fault, 1 to 11: the rules are looked at in this order.
    pub fn number(&self) -> u8
        ensures { result ≡ number_of self.now }
    {
        match self {
            ManifestFault::NotToml => 1,
            ManifestFault::Key(_) => 2,
            ManifestFault::Value(_) => 3,
            ManifestFault::Limit(_) => 4,
            ManifestFault::Identifier(_) => 5,
            ManifestFault::Overlap(_) => 6,
            ManifestFault::OwnerWithoutGrant(_) => 7,
            ManifestFault::SecondGrant(_) => 8,
            ManifestFault::ExecutableDevice(_) => 9,
            ManifestFault::Quota(_) => 10,
            ManifestFault::OutOfMemory => 11,
        }
    }
}

/// The place and the rule: `region 5, grant 1: only normal memory is executable`.
impl fmt::Display for ManifestFault {
    fn fmt<W: fmt::Write>(&self, f: &mut fmt::Formatter<W>) -> fmt::Result {
        match self {
            ManifestFault::NotToml => write!(f, "document: no TOML"),
            ManifestFault::Key(place) => write!(f, "{place}: an unknown or a missing key"),
            ManifestFault::Value(place) => write!(f, "{place}: a value of another kind"),
            ManifestFault::Limit(place) => write!(f, "{place}: outside its limits"),
            ManifestFault::Identifier(place) => {
                write!(
                    f,
                    "{place}: an identifier that stands twice or names no partition"
                )
            }
            ManifestFault::Overlap(place) => {
                write!(f, "{place}: a page of another region or of the pool")
            }
            ManifestFault::OwnerWithoutGrant(place) => write!(f, "{place}: the owner has no grant"),
            ManifestFault::SecondGrant(place) => {
                write!(f, "{place}: a second grant of one partition")
            }
            ManifestFault::ExecutableDevice(place) => {
                write!(f, "{place}: only normal memory is executable")
            }
            ManifestFault::Quota(place) => {
                write!(f, "{place}: fewer table pages than the grants need")
            }
            ManifestFault::OutOfMemory => write!(f, "out of memory"),
        }
    }
}

impl Error for ManifestFault {}

impl From<OutOfMemory> for ManifestFault {
    ghost from_gives = { λ _ fault. fault ≡ NoMemory };

    fn from(_error: OutOfMemory) -> ManifestFault {
        ManifestFault::OutOfMemory
    }
}

impl From<AllocError> for ManifestFault {
    ghost from_gives = { λ _ fault. fault ≡ NoMemory };

    fn from(_error: AllocError) -> ManifestFault {
        ManifestFault::OutOfMemory
    }
}

impl<T: Drop> From<AllocFailed<T>> for ManifestFault {
    ghost from_gives = { λ _ fault. fault ≡ NoMemory };

    fn from(_error: AllocFailed<T>) -> ManifestFault {
        ManifestFault::OutOfMemory
    }
}
