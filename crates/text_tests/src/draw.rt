//! Drawn numbers.

use rand_xoshiro::SplitMix64;
use rand_xoshiro::rand_core::{Rng, SeedableRng};

/// A source of numbers, the same for the same seed.
#[derive(Drop)]
pub(crate) struct Draw {
    source: SplitMix64,
}

impl Draw {
    pub(crate) fn new(seed: u64) -> Self {
        Draw {
            source: SplitMix64::seed_from_u64(seed),
        }
    }

    /// Any number of 64 bits.
    pub(crate) fn number(&mut self) -> u64 {
        self.source.next_u64()
    }

    /// A number below this one; 0 below 0.
    pub(crate) fn below(&mut self, end: u32) -> u32 {
        let wide = (self.number() >> 32).wrapping_mul(u64::from(end));
        u32::try_from(wide >> 32).unwrap_or(0)
    }

    /// A number from the first to the second, both included.
    pub(crate) fn between(&mut self, least: u32, most: u32) -> u32 {
        let choices = most.saturating_sub(least).saturating_add(1);
        least.saturating_add(self.below(choices))
    }

    /// True so many times in a hundred.
    pub(crate) fn percent(&mut self, chance: u32) -> bool {
        self.below(100) < chance
    }

    /// A place in a list of this length.
    pub(crate) fn place(&mut self, length: usize) -> usize {
        self.below(u32::try_from(length).unwrap_or(u32::MAX)) as usize
    }
}
