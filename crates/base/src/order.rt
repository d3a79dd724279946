//! Puts runs in ascending order.

ghost use Rattle.std.specs.Prelude.{◌≡◌, ◌≤◌, ◌<◌, ℕ, true, length, vec_capacity};
ghost use Rattle.base.specs.Descriptors.Send.{pages_in};
ghost use Rattle.base.specs.Pages.{are_disjoint, are_normal, covers, rise};

use crate::page::Run;
use crate::runs::are_normal;

/// Makes maximal runs of these, in ascending order: those that touch or share pages become one. This
/// takes no memory.
pub fn gather(runs: &mut Vec<Run>)
    ensures normal { are_normal runs.new.items ≡ true }
    ensures ascending { rise 0 runs.new.items ≡ true }
    ensures same { (n : ℕ) → covers runs.new.items n ≡ covers runs.old.items n }
    ensures fewer { length runs.new.items ≤ length runs.old.items }
    ensures sum { are_disjoint runs.old.items ≡ true → pages_in runs.new.items ≡ pages_in runs.old.items }
    ensures some { 0 < length runs.old.items → 0 < length runs.new.items }
    ensures capacity { vec_capacity runs.old ≤ vec_capacity runs.new }
{
    if are_normal(runs) {
        return;
    }
    runs.sort_unstable_by_key(|run| run.first().number());
    runs.dedup_by(|next, run| run.takes_in(*next));
}
