//! Takes the intervals of one number out of the blocks that have pages of runs.

ghost use Rattle.std.specs.Prelude.{◌≡◌, ◌<◌, ℕ, ◌^◌, true, false};
ghost use Rattle.base.specs.Pages.{covers};
ghost use Rattle.spans.specs.Spans as spec;
ghost use Rattle.spans.specs.Spans.{are_joined};
ghost use Rattle.spans.specs.Blocks.{all_spans, AreTidy, AreTidyBut};
ghost use Rattle.spans.specs.Taking.{has_number, others, IsTakenIn};

use crate::blocks::Blocks;
use crate::find::place_near_end;
use crate::place::blocks_before;
use crate::span::Span;
use base::Run;

impl Blocks {
    /// Takes the block at a place out if it has no interval. It, the next and the one before are joined if they are short.
    fn tidy(&mut self, place: usize)
        requires { AreTidyBut place self.old.list }
        ensures spans { all_spans self.new.list ≡ all_spans self.old.list }
        ensures tidy { AreTidy self.new.list }
    {
        if self.block(place).spans().is_empty() {
            self.retire(place);
        } else {
            self.join(place + 1);
        }
        if 0 < place {
            self.join(place);
        }
    }

    /// Takes the intervals of a number out of the block of a page, if the page has it. No page from the first that is answered
    /// up to the second has the number then.
    fn take_at(&mut self, page: u32, value: u64) -> (u32, u32)
        requires page { page < 2 ^ 27 }
        requires tidy { AreTidy self.old.list }
        ensures taken { IsTakenIn result.0 result.1 value (all_spans self.old.list) (all_spans self.new.list) }
        ensures gone { has_number value (all_spans self.new.list) page ≡ false }
        ensures tidy { AreTidy self.new.list }
    {
        let count = blocks_before(self, page + 1);
        if count == 0 {
            return (0, 0);
        }
        let place = count - 1;
        if !has_value(self.block(place).spans(), page, value) {
            return (0, 0);
        }
        let zone = (self.begin_at(place), self.begin_at(count));
        self.list[place].take_out(value);
        self.tidy(place);
        zone
    }
}

/// Whether a page has a number.
fn has_value(spans: &[Span], page: u32, value: u64) -> bool
    requires { spec.ascend 0 spans.now ≡ true }
    ensures { result ≡ has_number value spans.now page }
{
    let place = place_near_end(spans, page);
    if place == spans.len() {
        return false;
    }
    let span = spans[place];
    span.value == value && span.run.first().number() <= page
}

/// Takes the intervals of a number out, whose pages are those of the runs. Each of them begins where a run does, so that it
/// is enough to go to the blocks where runs begin.
pub(crate) fn take_runs(blocks: &mut Blocks, runs: &[Run], value: u64)
    requires tidy { AreTidy blocks.old.list }
    requires joined { are_joined (all_spans blocks.old.list) ≡ true }
    requires pages { (n : ℕ) → has_number value (all_spans blocks.old.list) n ≡ covers runs.now n }
    ensures spans { all_spans blocks.new.list ≡ others value (all_spans blocks.old.list) }
    ensures tidy { AreTidy blocks.new.list }
{
    let mut from = 0;
    let mut end = 0;
    for run in runs {
        let page = run.first().number();
        if page < from || end <= page {
            (from, end) = blocks.take_at(page, value);
        }
    }
}
