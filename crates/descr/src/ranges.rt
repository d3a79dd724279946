//! The ranges of a send (FF-A 1.1 and 1.0, "Composite memory region descriptor", "Constituent memory
//! region descriptor").

ghost use Rattle.std.specs.Prelude.{◌≡◌, ◌+◌, ◌*◌, ◌/◌, ◌≤◌, true, false, length, IfSome, IfNone, IsTrue};
ghost use Rattle.base.specs.Descriptors.Send as spec;
ghost use Rattle.descr.specs.Parts.{is_composite_of, AreRanges};

use crate::layout::PART_SIZE;
use crate::numbers::{u32_at, u64_at};
use base::limits::{MOST_PAGES, PAGE_SIZE};
use base::{Page, Run};
use std::marker::Model;

/// The ranges of a send that are still to come, in the order of the descriptor. Each is read from the
/// borrowed bytes as it comes.
#[derive(Drop)]
pub struct Ranges<'a> {
    bytes: &'a [u8],
    at: usize,
    count: usize,
}

impl<'a> Model for Ranges<'a> {
    ghost use Rattle.std.specs.Prelude.{List};
    ghost use Rattle.base.specs.Pages.{PageRun};
    ghost use Rattle.base.specs.Descriptors.Send.{ranges_at};
    ghost use Rattle.descr.specs.Spelled.{SpellsRanges};

    ghost Value = { List PageRun };

    ghost view = { λ r. ranges_at r.count r.bytes.now r.at };

    ghost invariant = { λ r. SpellsRanges r.count r.bytes.now r.at };
}

impl<'a> Ranges<'a> {
    ghost use Rattle.descr.specs.Order.{AreAllSome};

    /// The same ranges once more.
    pub(crate) fn again(&self) -> Ranges<'a>
        ensures same { result ≡ self.now }
        ensures few { length result ≤ 512 }
        ensures pages { AreAllSome result }
    {
        Ranges {
            bytes: self.bytes,
            at: self.at,
            count: self.count,
        }
    }
}

impl<'a> Iterator for Ranges<'a> {
    ghost use Rattle.std.specs.Iterator.{YieldsFirst, item_count};

    type Item = Run;

    ghost next_gives = { YieldsFirst (λ ranges. ranges) };

    ghost remaining = { item_count (λ ranges. ranges) };

    fn next(&mut self) -> Option<Run> {
        if self.count == 0 {
            return None;
        }
        let run = range_at(self.bytes, self.at);
        self.at += PART_SIZE;
        self.count -= 1;
        Some(run)
    }
}

/// Whether a range keeps its rules.
#[tactic(auto, unfolding(base::specs::Descriptors::Send::is_range))]
fn is_range(bytes: &[u8], at: usize) -> bool
    requires { at + 16 ≤ length bytes.now }
    ensures { result ≡ spec.is_range bytes.now at }
{
    let address = u64_at(bytes, at);
    let count = u32_at(bytes, at + 8);
    address % PAGE_SIZE == 0
        && 1 <= count
        && address / PAGE_SIZE + u64::from(count) <= u64::from(Page::COUNT)
        && u32_at(bytes, at + 12) == 0
}

/// The pages of a range.
#[tactic(auto, unfolding(base::specs::Descriptors::Send::is_range))]
fn range_at(bytes: &[u8], at: usize) -> Run
    requires inside { at + 16 ≤ length bytes.now }
    requires range { IsTrue (spec.is_range bytes.now at) }
    ensures { result ≡ spec.range_at bytes.now at }
{
    let first = u64_at(bytes, at) / PAGE_SIZE;
    let count = u32_at(bytes, at + 8);
    Run::new(Page::new(first as u32), count)
}

/// So many ranges from an offset on, if each keeps its rules.
pub(crate) fn read_ranges(bytes: &[u8], first: usize, count: usize) -> Option<Ranges<'_>>
    requires few { count ≤ 512 }
    requires inside { first + 16 * count ≤ length bytes.now }
    ensures some { IfSome result (AreRanges count bytes.now first) }
    ensures none { IfNone result (spec.are_ranges count bytes.now first ≡ false) }
{
    let mut at = first;
    for _i in 0..count {
        if !is_range(bytes, at) {
            return None;
        }
        at += PART_SIZE;
    }
    Some(Ranges {
        bytes,
        at: first,
        count,
    })
}

/// How many pages the ranges have together.
fn page_count(ranges: &Ranges<'_>) -> u64
    ensures { result ≡ spec.pages_in ranges.now }
{
    let mut sum = 0;
    for run in ranges.again() {
        sum += u64::from(run.count());
    }
    sum
}

/// Whether the composite descriptor at an offset keeps its rules with these ranges.
pub(crate) fn is_composite(bytes: &[u8], at: usize, ranges: &Ranges<'_>) -> bool
    requires { at + 16 ≤ length bytes.now }
    ensures { result ≡ is_composite_of bytes.now at ranges.now }
{
    let total = page_count(ranges);
    at % 16 == 0
        && u64_at(bytes, at + 8) == 0
        && total == u64::from(u32_at(bytes, at))
        && total <= u64::from(MOST_PAGES)
}
