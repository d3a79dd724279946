//! Blocks: intervals that follow one another, in memory that has places for so many as a block may have.

ghost use Rattle.std.specs.Prelude.{◌≡◌, ◌+◌, ◌≤◌, ◌^◌, ◌++◌, [], true, length, take, IfOk};
ghost use Rattle.spans.specs.Spans as spec;
ghost use Rattle.spans.specs.Search.{begins_at};
ghost use Rattle.spans.specs.Taking.{others};

use crate::span::Span;
use base::{OutOfMemory, Page};
use std::alloc::Global;
use std::marker::Model;

/// So many intervals a block has at most: 2 KB.
pub(crate) const LIMIT: usize = 128;

/// Intervals in ascending order, and where the first of them begins.
#[derive(Drop)]
pub(crate) struct Block {
    begin: u32,
    spans: Vec<Span>,
}

impl Model for Block {
    ghost use Rattle.std.specs.Prelude.{List, vec_capacity};
    ghost use Rattle.spans.specs.Spans.{Span};
    ghost use Rattle.spans.specs.Blocks.{IsBlock};

    ghost Value = { List Span };

    ghost view = { λ b. b.spans.items };

    ghost invariant = { λ b. IsBlock b.begin b.spans.items (vec_capacity b.spans) };
}

/// Where the first of the intervals begins; without one, the number of pages.
fn begin_of(spans: &[Span]) -> u32
    ensures same { result ≡ begins_at spans.now }
    ensures in_range { result ≤ 2 ^ 27 }
{
    match spans.first() {
        Some(span) => span.run.first().number(),
        None => Page::COUNT,
    }
}

impl Block {
    /// A block without an interval.
    pub(crate) fn new(alloc: Global) -> Result<Self, OutOfMemory>
        ensures { IfOk result (λ block. block ≡ []) }
    {
        let mut spans = Vec::new(alloc);
        spans.reserve_exact(LIMIT)?;
        Ok(Block {
            begin: Page::COUNT,
            spans,
        })
    }

    /// Where its first interval begins; without one, the number of pages.
    pub(crate) fn begin(&self) -> u32
        ensures same { result ≡ begins_at self.now }
        ensures in_range { result ≤ 2 ^ 27 }
    {
        self.begin
    }

    /// Its intervals.
    pub(crate) fn spans(&self) -> &[Span]
        ensures same { result.now ≡ self.now }
        ensures short { length self.now ≤ 128 }
        ensures ascending { spec.ascend 0 self.now ≡ true }
    {
        &self.spans
    }

    /// Takes the intervals of a number out.
    pub(crate) fn take_out(&mut self, value: u64)
        ensures { self.new ≡ others value self.old }
    {
        self.spans.retain(|span| span.value != value);
        self.begin = begin_of(&self.spans);
    }

    /// Has these intervals behind the first of its own.
    pub(crate) fn set_from(&mut self, kept: usize, spans: &[Span])
        requires inside { kept ≤ length self.old }
        requires short { kept + length spans.now ≤ 128 }
        requires ascending { spec.ascend 0 (take kept self.old ++ spans.now) ≡ true }
        ensures { self.new ≡ take kept self.old ++ spans.now }
    {
        self.spans.truncate(kept);
        let _ = self.spans.extend_from_slice(spans);
        self.begin = begin_of(&self.spans);
    }
}
