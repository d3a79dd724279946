//! Whether two manifests are the same.

ghost use Rattle.std.specs.Prelude.{◌≡◌, ◌↔◌, IsTrue};

use manifest::{Grant, Manifest, Partition, Region};

fn is_same_grant(ours: &Grant, theirs: &Grant) -> bool
    ensures { IsTrue result ↔ (ours.now ≡ theirs.now) }
{
    ours.partition == theirs.partition && ours.rights == theirs.rights && ours.exec == theirs.exec
}

fn are_same_grants(ours: &[Grant], theirs: &[Grant]) -> bool
    ensures { IsTrue result ↔ (ours.now ≡ theirs.now) }
{
    ours.len() == theirs.len() && ours.iter().zip(theirs).all(|(a, b)| is_same_grant(a, b))
}

fn is_same_region(ours: &Region, theirs: &Region) -> bool
    ensures { IsTrue result ↔ (ours.now ≡ theirs.now) }
{
    ours.pages() == theirs.pages()
        && ours.kind() == theirs.kind()
        && ours.owner() == theirs.owner()
        && are_same_grants(ours.grants(), theirs.grants())
}

fn are_same_regions(ours: &[Region], theirs: &[Region]) -> bool
    ensures { IsTrue result ↔ (ours.now ≡ theirs.now) }
{
    ours.len() == theirs.len() && ours.iter().zip(theirs).all(|(a, b)| is_same_region(a, b))
}

fn is_same_partition(ours: &Partition, theirs: &Partition) -> bool
    ensures { IsTrue result ↔ (ours.now ≡ theirs.now) }
{
    ours.id == theirs.id && ours.quota == theirs.quota
}

fn are_same_partitions(ours: &[Partition], theirs: &[Partition]) -> bool
    ensures { IsTrue result ↔ (ours.now ≡ theirs.now) }
{
    ours.len() == theirs.len()
        && ours
            .iter()
            .zip(theirs)
            .all(|(a, b)| is_same_partition(a, b))
}

/// Whether the two have the same rows.
pub(crate) fn is_same_manifest(ours: &Manifest, theirs: &Manifest) -> bool
    ensures { IsTrue result → ours.now ≡ theirs.now }
{
    ours.pool() == theirs.pool()
        && are_same_partitions(ours.partitions(), theirs.partitions())
        && are_same_regions(ours.regions(), theirs.regions())
}
