ghost use Rattle.std.specs.Prelude.{◌≡◌, ℕ, ◌+◌, ◌*◌, ◌<◌, ◌≤◌, ◌^◌, ◌++◌, suc, length, replicate, slice_index_or, slice_set, true, false, IfOk, MatchOption};
ghost use Rattle.marks.specs.Tree.{BeginLevel};
ghost use Rattle.marks.specs.Marks.{IsFirstUnmarked, AllMarkedFrom};

use crate::tree::{first_from, write};
use crate::word::{BITS, lowest_from};
use base::OutOfMemory;
use std::alloc::Global;
use std::marker::Model;

/// A mark, or none, for each number below a count of at most 2^27.
///
/// The words are a tree (`tree.rt`), levels of words that tell where others are not 0, and then from the bit
/// `start` on the bits of the numbers: a bit that is set is a number without a mark.
#[derive(Drop)]
pub struct Marks {
    count: u32,
    start: usize,
    words: Vec<u64>,
}

impl Model for Marks {
    ghost use Rattle.std.specs.Prelude.{List, Bool};
    ghost use Rattle.marks.specs.Tree.{marks_in, IsTree};

    ghost Value = { List Bool };

    ghost view = { λ m. marks_in m.start m.count m.words.items };

    ghost invariant = { λ m. IsTree m.start m.count m.words.items };
}

/// The first bit of the level that has those of so many numbers: 64 times the number of words of all levels above it.
#[tactic(auto, unfolding(crate::specs::Tree::level_start))]
fn start_for(count: u32) -> usize
    requires { count ≤ 2 ^ 27 }
    ensures level { BeginLevel result count }
    ensures small { result ≤ 17043520 }
{
    match count {
        0..=64 => 0,
        65..=4_096 => 64,
        4_097..=262_144 => 4_160,
        262_145..=16_777_216 => 266_304,
        _ => 17_043_520,
    }
}

/// So many words, all of them 0.
fn zeros(alloc: Global, words: usize) -> Result<Vec<u64>, OutOfMemory>
    ensures { IfOk result (λ zeros. zeros.items ≡ replicate words 0) }
{
    Ok(vec![in alloc; 0; words]?)
}

impl Marks {
    /// Numbers of which the first have marks and the others, behind them, have none.
    pub fn new(alloc: Global, marked: u32, unmarked: u32) -> Result<Self, OutOfMemory>
        requires { marked + unmarked ≤ 2 ^ 27 }
        ensures { IfOk result (λ marks. marks ≡ replicate marked true ++ replicate unmarked false) }
    {
        let mut marks = Marks::full(alloc, marked + unmarked)?;
        for n in marked..marked + unmarked {
            marks.unmark(n);
        }
        Ok(marks)
    }

    /// Numbers that all have marks.
    fn full(alloc: Global, count: u32) -> Result<Self, OutOfMemory>
        requires { count ≤ 2 ^ 27 }
        ensures { IfOk result (λ marks. marks ≡ replicate count true) }
    {
        let start = start_for(count);
        let words = start / BITS + (count as usize).div_ceil(BITS);
        Ok(Marks {
            count,
            start,
            words: zeros(alloc, words)?,
        })
    }

    /// Gives a number a mark.
    pub fn mark(&mut self, n: u32)
        requires { n < length self.old }
        ensures { self.new ≡ slice_set self.old n true }
    {
        let bit = self.start + n as usize;
        write(&mut self.words, bit, false);
    }

    /// Takes the mark of a number away.
    pub fn unmark(&mut self, n: u32)
        requires { n < length self.old }
        ensures { self.new ≡ slice_set self.old n false }
    {
        let bit = self.start + n as usize;
        write(&mut self.words, bit, true);
    }

    /// Whether a number has a mark.
    pub fn is_marked(&self, n: u32) -> bool
        requires { n < length self.now }
        ensures { result ≡ slice_index_or self.now n false }
    {
        let bit = self.start + n as usize;
        self.words[bit / BITS] >> (bit % BITS) & 1 == 0
    }

    /// The lowest number at or above this one that has no mark, if there is one. It looks at no more words
    /// than twice the levels of the tree, which are five at most.
    pub fn first_unmarked_from(&self, n: u32) -> Option<u32>
        ensures { MatchOption result (AllMarkedFrom self.now n)
            (λ found. IsFirstUnmarked self.now n found) }
    {
        if n >= self.count {
            return None;
        }
        let bit = self.start + n as usize;
        let found = first_from(&self.words, self.start, bit / BITS, (bit % BITS) as u32)?;
        Some((found - self.start) as u32)
    }

    /// The lowest number at or above this one that has no mark, where there is one. Mostly its bit stands in the word
    /// of this one: then no other is looked at.
    #[inline(always)]
    pub fn next_unmarked(&self, n: u32) -> u32
        requires { ¬ AllMarkedFrom self.now n }
        ensures { IsFirstUnmarked self.now n result }
    {
        let bit = self.start + n as usize;
        let place = (bit % BITS) as u32;
        match lowest_from(self.words[bit / BITS], place) {
            Some(lowest) => n + (lowest - place),
            None => self.first_unmarked_from(n).unwrap(),
        }
    }
}
