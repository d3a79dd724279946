ghost use Rattle.std.specs.Prelude.{◌≡◌, ◌==◌, position, IfOk};
ghost use Rattle.base.specs.Manifest as rows;

use crate::places::row_of;
use base::{OutOfMemory, PartitionId};
use manifest::{Manifest, Partition};
use std::alloc::Global;
use std::marker::Model;

/// The identifiers of a manifest's partitions, in their order. None stands twice.
#[derive(Drop)]
pub struct Identifiers(Vec<PartitionId>);

impl Model for Identifiers {
    ghost use Rattle.std.specs.Prelude.{ℕ, List};
    ghost use Rattle.pool.specs.Pool.{StandOnce};

    ghost Value = { List ℕ };

    ghost view = { λ ids. ids.0.items };

    ghost invariant = { λ ids. StandOnce ids.0.items };
}

fn ids_of(alloc: Global, partitions: &[Partition]) -> Result<Vec<PartitionId>, OutOfMemory>
    ensures { IfOk result (λ ids. ids.items ≡ rows.ids_of partitions.now) }
{
    Ok(partitions.iter().map(|row| row.id).collect(alloc)?)
}

impl Identifiers {
    /// Those of a manifest.
    pub fn of(alloc: Global, manifest: &Manifest) -> Result<Self, OutOfMemory>
        ensures { IfOk result (λ ids. ids ≡ rows.ids_of manifest.now.partitions) }
    {
        Ok(Identifiers(ids_of(alloc, manifest.partitions())?))
    }

    /// The row of a partition, which is also the pool page of its root. Identifiers mostly follow one another: the first tells then
    /// where one stands, and no other is looked at.
    pub fn row(&self, p: PartitionId) -> Option<usize>
        ensures { result ≡ position (λ id. id == p) self.now }
    {
        let ids = self.0.as_slice();
        if let Some(first) = ids.first() {
            let place = usize::from(p.number().wrapping_sub(first.number()));
            if place < ids.len() && ids[place] == p {
                return Some(place);
            }
        }
        row_of(ids, p)
    }
}
