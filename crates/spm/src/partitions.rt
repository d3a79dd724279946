//! What is kept for each partition beside its buffers.

ghost use Rattle.std.specs.Prelude.{◌≡◌, map, IfOk};
ghost use Rattle.base.specs.State as spec;

use base::{OutOfMemory, PartitionId, Version};
use manifest::Partition;
use std::alloc::Global;
use std::marker::Model;

/// A partition's version of FF-A, and how many of its sends were accepted.
#[derive(Clone, Copy, Debug, PartialEq, Eq)]
pub(crate) struct PartitionState {
    pub(crate) partition: PartitionId,
    pub(crate) version: Version,
    pub(crate) sends: u32,
}

impl Model for PartitionState {
    ghost use Rattle.base.specs.State as spec;

    ghost Value = { spec.PartitionState };

    ghost view = { λ s. record { partition = s.partition; version = s.version; sends = s.sends } };

    ghost inverse = { λ s. record {
      partition = s.partition;
      version = s.version;
      sends = s.sends;
    } };
}

/// The states of the partitions before any call.
pub(crate) fn first_states(
    alloc: Global,
    partitions: &[Partition],
) -> Result<Vec<PartitionState>, OutOfMemory>
    ensures { IfOk result (λ states. states.items ≡ map spec.first_state partitions.now) }
{
    let states = partitions
        .iter()
        .map(|row| PartitionState {
            partition: row.id,
            version: Version::V11,
            sends: 0,
        })
        .collect(alloc)?;
    Ok(states)
}

/// The state of a partition.
pub(crate) fn state_of(partitions: &[PartitionState], p: PartitionId) -> Option<PartitionState>
    ensures { result ≡ spec.state_of partitions.now p }
{
    for state in partitions {
        if state.partition == p {
            return Some(*state);
        }
    }
    None
}
