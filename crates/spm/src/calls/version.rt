//! FFA_VERSION.

ghost use Rattle.std.specs.Prelude.{◌≡◌, ℕ, false};
ghost use Rattle.base.specs.State as spec;
ghost use Rattle.rules.specs.Call.{CallWords};
ghost use Rattle.rules.specs.Calls.Version as rules;
ghost use Rattle.spm.specs.Granted.{IsGranted};

use crate::change::{Answer, Change, Update};
use crate::partitions::PartitionState;
use crate::state::State;
use base::{PartitionId, Version};

/// Version 1.1 of FF-A, which the manager speaks.
const VERSION_1_1: u32 = 0x1_0001;

/// What FFA_VERSION answers to a version that is not supported.
const NOT_SUPPORTED: u32 = 0xffff_ffff;

/// The caller names the version in this word. One that is not supported changes nothing.
#[tactic(auto, unfolding(rules::specs::Calls::Version::is_version))]
pub(crate) fn version(word: u32) -> Change
    ensures { (s : spec.State) → (c : CallWords) → IsGranted s c.caller
        (rules.version_rule s c word) false result }
{
    let reply = if is_version(word) {
        VERSION_1_1
    } else {
        NOT_SUPPORTED
    };
    Change::of_state(Update::SetVersion(word), Answer::Version(reply))
}

/// Keeps the version that a partition named.
#[tactic(auto, unfolding(rules::specs::Calls::Version::with_version))]
pub(crate) fn set_version(state: &mut State, p: PartitionId, word: u32)
    ensures { state.new ≡ rules.with_version state.old p word }
{
    name_version(&mut state.partitions, p, word);
}

fn name_version(partitions: &mut [PartitionState], p: PartitionId, word: u32)
    ensures { partitions.new ≡ spec.with_partition p (rules.naming word) partitions.old }
{
    for row in partitions.iter_mut() {
        if row.partition == p {
            row.version = version_after(word, row.version);
            return;
        }
    }
}

/// Whether a word names version 1 with some minor version.
#[tactic(auto, unfolding(rules::specs::Calls::Version::is_version))]
fn is_version(word: u32) -> bool
    ensures { result ≡ rules.is_version word }
{
    word >> 16 == 1
}

/// The version of a partition that has named one.
fn version_after(word: u32, now: Version) -> Version
    ensures { result ≡ rules.version_after word now }
{
    if !is_version(word) {
        now
    } else if word % 0x1_0000 == 0 {
        Version::V10
    } else {
        Version::V11
    }
}
