//! Memory that serves again.

ghost use Rattle.std.specs.Prelude.{◌≡◌, ◌≤◌, [], vec_capacity, IfOk};

use base::{OutOfMemory, Run};
use ledger::{Live, Terms};
use std::alloc::Global;
use std::mem::replace;

/// The memory of what calls have made and nobody needs any more, for what the next ones make.
#[derive(Drop)]
pub(crate) struct Spare {
    /// That of the last edit's runs.
    pub(crate) runs: Vec<Run>,
    /// That of a response which was given back.
    pub(crate) response: Vec<u8>,
    /// The terms of the last transaction that was reclaimed, for their place and that of their ranges.
    terms: Option<Box<Terms>>,
}

impl Spare {
    /// None yet.
    pub(crate) fn new(alloc: Global) -> Self {
        Spare {
            runs: Vec::new(alloc),
            response: Vec::new(alloc),
            terms: None,
        }
    }

    /// An empty list with room for so many ranges, and no more: that of the terms which are kept, if it has as much.
    pub(crate) fn ranges(&mut self, alloc: Global, count: usize) -> Result<Vec<Run>, OutOfMemory>
        ensures empty { IfOk result (λ ranges. ranges.items ≡ []) }
        ensures room { IfOk result (λ ranges. count ≤ vec_capacity ranges) }
    {
        if let Some(kept) = &mut self.terms
            && kept.ranges.capacity() == count
        {
            let mut ranges = replace(&mut kept.ranges, Vec::new(alloc));
            ranges.clear();
            return Ok(ranges);
        }
        Ok(Vec::with_capacity(alloc, count)?)
    }

    /// These terms in a place of their own: in that of the terms which are kept, if there are some.
    pub(crate) fn place(&mut self, alloc: Global, terms: Terms) -> Result<Box<Terms>, OutOfMemory>
        ensures { IfOk result (λ place. place.value ≡ terms) }
    {
        match self.terms.take() {
            Some(mut place) => {
                *place = terms;
                Ok(place)
            }
            None => Ok(Box::new(alloc, terms)?),
        }
    }

    /// Keeps the terms of a transaction that has ended.
    pub(crate) fn keep(&mut self, ended: Live) {
        self.terms = Some(ended.terms);
    }
}
