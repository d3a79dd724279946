ghost use Rattle.base.specs.Pages.{are_disjoint, are_normal, covers};
ghost use Rattle.base.specs.Descriptors.Send.{pages_in};
ghost use Rattle.std.specs.Prelude.{◌≡◌, ◌∷◌, [], true, ℕ, ◌≤◌, ◌<◌, length, reverse, vec_capacity, IfOk};

use crate::order::gather;
use crate::page::Run;
use crate::status::OutOfMemory;
use std::alloc::Global;
use std::marker::Model;
use std::mem::replace;

/// Runs that are maximal, in ascending order: a page lies between any two of them.
#[derive(Drop)]
pub struct Runs<'a>(&'a [Run]);

impl<'a> Model for Runs<'a> {
    ghost use Rattle.base.specs.Pages.{PageRun, are_normal};
    ghost use Rattle.std.specs.Prelude.{◌≡◌, List, true};

    ghost Value = { List PageRun };

    ghost view = { λ runs. runs.0.now };

    ghost invariant = { λ runs. are_normal runs.0.now ≡ true };
}

impl<'a> Runs<'a> {
    /// The runs of a list.
    #[inline(always)]
    pub fn of(list: &'a [Run]) -> Self
        requires { are_normal list.now ≡ true }
        ensures { result ≡ list.now }
    {
        Runs(list)
    }

    /// The list.
    #[inline(always)]
    pub fn list(&self) -> &'a [Run]
        ensures same { result.now ≡ self.now }
        ensures normal { are_normal result.now ≡ true }
    {
        self.0
    }

    /// The same runs once more.
    #[inline(always)]
    pub fn again(&self) -> Runs<'a>
        ensures { result ≡ self.now }
    {
        Runs(self.0)
    }
}

/// The maximal runs of the pages that the runs cover, in ascending order, in the memory of the spare list, which is
/// empty then. Where memory runs out, the spare list alone has changed.
#[inline(always)]
pub fn normal(alloc: Global, spare: &mut Vec<Run>, runs: &[Run]) -> Result<Vec<Run>, OutOfMemory>
    requires disjoint { are_disjoint runs.now ≡ true }
    ensures normal { IfOk result (λ normal. are_normal normal.items ≡ true) }
    ensures same { IfOk result (λ normal. (n : ℕ) → covers normal.items n ≡ covers runs.now n) }
    ensures fewer { IfOk result (λ normal. length normal.items ≤ length runs.now) }
    ensures sum { IfOk result (λ normal. pages_in normal.items ≡ pages_in runs.now) }
{
    if let [run] = runs {
        if spare.capacity() > 0 {
            return Ok(one(replace(spare, Vec::new(alloc)), *run));
        }
    }
    normal_of_many(alloc, spare, runs)
}

/// A run alone, in the memory of a list that has some.
#[inline(always)]
fn one(list: Vec<Run>, run: Run) -> Vec<Run>
    requires { 0 < vec_capacity list }
    ensures { result.items ≡ run ∷ [] }
{
    let mut one = list;
    one.clear();
    one.push_reserved(run);
    one
}

/// The maximal runs, in the general case.
fn normal_of_many(
    alloc: Global,
    spare: &mut Vec<Run>,
    runs: &[Run],
) -> Result<Vec<Run>, OutOfMemory>
    requires disjoint { are_disjoint runs.now ≡ true }
    ensures normal { IfOk result (λ normal. are_normal normal.items ≡ true) }
    ensures same { IfOk result (λ normal. (n : ℕ) → covers normal.items n ≡ covers runs.now n) }
    ensures fewer { IfOk result (λ normal. length normal.items ≤ length runs.now) }
    ensures sum { IfOk result (λ normal. pages_in normal.items ≡ pages_in runs.now) }
{
    let mut list = replace(spare, Vec::new(alloc));
    list.clear();
    list.extend_from_slice(runs)?;
    if fall(runs) {
        list.reverse();
    } else {
        gather(&mut list);
    }
    Ok(list)
}

/// Whether the runs are maximal already, and in ascending order.
pub(crate) fn are_normal(runs: &[Run]) -> bool
    ensures { result ≡ are_normal runs.now }
{
    let Some((first, others)) = runs.split_first() else {
        return true;
    };
    let mut end = first.end();
    for run in others {
        if run.first().number() <= end {
            return false;
        }
        end = run.end();
    }
    true
}

/// Whether the runs are maximal already, and in descending order.
fn fall(runs: &[Run]) -> bool
    ensures { result ≡ true → are_normal (reverse runs.now) ≡ true }
{
    for index in 1..runs.len() {
        if runs[index - 1].first().number() <= runs[index].end() {
            return false;
        }
    }
    true
}
