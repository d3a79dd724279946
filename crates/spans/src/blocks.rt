//! Blocks upward, and spare ones.

ghost use Rattle.std.specs.Prelude.{◌≡◌, ◌≤◌, ◌<◌, ◌+◌, ◌-◌, ◌^◌, ◌++◌, ◌∷◌, [], true, length, take, drop, slice_index_or, max, vec_len, vec_capacity, OnOk, OnErr, ℕ};
ghost use Rattle.spans.specs.Spans as spec;
ghost use Rattle.spans.specs.Search.{begins_at};
ghost use Rattle.spans.specs.Blocks.{all_spans, needed, AreJoinedAt, AreStacked};

use crate::block::{Block, LIMIT};
use crate::span::Span;
use base::{OutOfMemory, Page};
use std::alloc::Global;
use std::marker::Model;

/// Two blocks side by side that have no more together become one, far from being parted again.
const SHORT: usize = LIMIT / 8 * 7;

/// The blocks of a map, and spare ones. Each list has places for all blocks, so that they come and go without memory.
#[derive(Drop)]
pub(crate) struct Blocks {
    pub(crate) list: Vec<Block>,
    pub(crate) spare: Vec<Block>,
}

impl Model for Blocks {
    ghost use Rattle.std.specs.Prelude.{◌+◌, vec_len, vec_capacity};
    ghost use Rattle.spans.specs.Blocks.{BlocksView, HavePlaces};

    ghost Value = { BlocksView };

    ghost view = { λ b. record { list = b.list.items; spare = vec_len b.spare } };

    ghost invariant = { λ b. HavePlaces (vec_len b.list + vec_len b.spare) (vec_capacity b.list) (vec_capacity b.spare) };
}

impl Blocks {
    /// There is none. This takes no memory.
    pub(crate) fn new(alloc: Global) -> Self
        ensures list { result.list ≡ [] }
        ensures spare { result.spare ≡ 0 }
    {
        Blocks {
            list: Vec::new(alloc),
            spare: Vec::new(alloc),
        }
    }

    /// How many there are, without the spare ones.
    pub(crate) fn len(&self) -> usize
        ensures { result ≡ length self.now.list }
    {
        self.list.len()
    }

    /// The block at a place.
    pub(crate) fn block(&self, place: usize) -> &Block
        requires { place < length self.now.list }
        ensures block { (d : _) → result.now ≡ slice_index_or self.now.list place d }
        ensures in_range { place + 1 < 2 ^ 64 }
    {
        &self.list[place]
    }

    /// Where the block at a place begins; without one, the number of pages.
    pub(crate) fn begin_at(&self, place: usize) -> u32
        ensures same { result ≡ begins_at (slice_index_or self.now.list place []) }
        ensures in_range { result ≤ 2 ^ 27 }
    {
        if place < self.list.len() {
            self.list[place].begin()
        } else {
            Page::COUNT
        }
    }

    /// Makes so many blocks spare. Where one is refused, there are as many as before.
    pub(crate) fn ready(&mut self, spare: usize) -> Result<(), OutOfMemory>
        ensures list { self.new.list ≡ self.old.list }
        ensures enough { OnOk result (self.new.spare ≡ max spare self.old.spare) }
        ensures refused { OnErr result (self.new.spare ≡ self.old.spare) }
    {
        let had = self.spare.len();
        let more = spare.saturating_sub(had);
        self.spare.reserve(more.saturating_add(self.list.len()))?;
        self.list.reserve(had.saturating_add(more))?;
        let alloc = *self.spare.allocator();
        for _ in 0..more {
            match Block::new(alloc) {
                Ok(block) => self.spare.push_reserved(block),
                Err(error) => {
                    self.spare.truncate(had);
                    return Err(error);
                }
            }
        }
        Ok(())
    }

    /// Gives the spare blocks back but for one: so that what a call reckoned with and did not take is there for others, and
    /// what comes and goes behind a full block asks for no memory each time.
    pub(crate) fn trim(&mut self)
        ensures list { self.new.list ≡ self.old.list }
        ensures spare { self.new.spare ≤ 1 }
    {
        self.spare.truncate(1);
    }

    /// The block at a place becomes spare.
    pub(crate) fn retire(&mut self, place: usize)
        requires { place < length self.old.list }
        ensures list { self.new.list ≡ take place self.old.list ++ drop (place + 1) self.old.list }
        ensures spare { self.new.spare ≡ self.old.spare + 1 }
    {
        // No other moves.
        if place + 1 == self.list.len()
            && let Some(last) = self.list.pop()
        {
            self.spare.push_reserved(last);
            return;
        }
        let block = self.list.remove(place);
        self.spare.push_reserved(block);
    }

    /// A spare block with these intervals stands at a place then.
    pub(crate) fn insert(&mut self, place: usize, spans: &[Span])
        requires inside { place ≤ length self.old.list }
        requires spare { 0 < self.old.spare }
        requires short { length spans.now ≤ 128 }
        requires ascending { spec.ascend 0 spans.now ≡ true }
        ensures list { self.new.list ≡ take place self.old.list ++ spans.now ∷ drop place self.old.list }
        ensures spare { self.new.spare + 1 ≡ self.old.spare }
        ensures in_range { place + 1 < 2 ^ 64 }
    {
        if let Some(block) = self.spare.pop() {
            let mut block = block;
            block.set_from(0, spans);
            let _ = self.list.insert(place, block);
        }
    }

    /// Makes one block of those before and behind a place, if both are short.
    pub(crate) fn join(&mut self, at: usize)
        requires some { 0 < at }
        requires ascending { spec.ascend 0 (all_spans (drop (at - 1) self.old.list)) ≡ true }
        ensures joined { AreJoinedAt at self.old.list self.new.list }
        ensures needs { AreStacked self.old.list → (runs : _) →
            needed self.new.list runs + self.old.spare ≤ needed self.old.list runs + self.new.spare }
        ensures spare { self.old.spare ≤ self.new.spare }
    {
        if self.len() <= at
            || SHORT < self.block(at - 1).spans().len() + self.block(at).spans().len()
        {
            return;
        }
        let next = self.list.remove(at);
        let here = &mut self.list[at - 1];
        here.set_from(here.spans().len(), next.spans());
        self.spare.push_reserved(next);
    }
}
