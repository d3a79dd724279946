//! The lines of maximal runs of pages that have one value.

ghost use Rattle.std.specs.Prelude.{◌≡◌, ◌++◌, ◌≤◌, ℕ, Bool, List, true, length, Option, None, IfOk, OnOk};
ghost use Rattle.std.specs.List.{flat_map};
ghost use Rattle.base.specs.Runs as maximal;
ghost use Rattle.base.specs.Runs.{ValuedRun};
ghost use Rattle.audit.specs.Runs.{AreLined, line_of};

use crate::text::append_access;
use base::{Access, OutOfMemory, Run};
use digits::append_extent;
use std::marker::Model;

/// What pages can have in common.
pub(crate) trait Common: Copy {
    /// Whether two are the same.
    ghost same: { Self → Self → Bool };

    /// What stands behind the pages in a line, and ends it.
    ghost rest: { Self → List ℕ };

    fn is_same(self, other: Self) -> bool
        ensures { result ≡ same self other };

    /// Appends what stands behind the pages in a line, and ends it.
    fn append(self, text: &mut Vec<u8>) -> Result<(), OutOfMemory>
        ensures { OnOk result (text.new.items ≡ text.old.items ++ rest self) };
}

impl Common for Access {
    ghost use Rattle.base.specs.Access.{is_same};
    ghost use Rattle.audit.specs.Texts.{access_end};

    ghost same = { is_same };

    ghost rest = { access_end };

    fn is_same(self, other: Self) -> bool {
        Access::is_same(self, other)
    }

    fn append(self, text: &mut Vec<u8>) -> Result<(), OutOfMemory> {
        append_access(text, self)
    }
}

/// Pages in a row that have one value.
#[derive(Drop)]
pub(crate) struct Valued<V: Common> {
    pub(crate) run: Run,
    pub(crate) value: V,
}

impl<V: Common> Model for Valued<V> {
    ghost use Rattle.base.specs.Runs.{ValuedRun};

    ghost Value = { ValuedRun V };

    ghost view = { λ v. record { run = v.run; value = v.value } };
}

impl<V: Common> Valued<V> {
    /// Whether the next pages begin where these end, and have the same value.
    fn is_followed_by(&self, next: &Self) -> bool
        ensures { result ≡ maximal.is_followed_by V.same self.now next.now }
    {
        self.run.end() == next.run.first().number() && self.value.is_same(next.value)
    }

    /// These pages and the next, which follow them.
    fn joined(&self, next: &Self) -> Self
        requires { maximal.is_followed_by V.same self.now next.now ≡ true }
        ensures { result ≡ maximal.joined self.now next.now }
    {
        Valued {
            run: Run::new(self.run.first(), self.run.count() + next.run.count()),
            value: self.value,
        }
    }

    /// Appends `ADDRESS COUNT`, and what the value says.
    fn append(&self, text: &mut Vec<u8>) -> Result<(), OutOfMemory>
        ensures { OnOk result (text.new.items ≡ text.old.items ++ line_of V.rest self.now) }
    {
        append_extent(text, self.run)?;
        self.value.append(text)
    }
}

/// How many lines are appended, and the run that waits for the next one, which may join it.
#[derive(Drop)]
pub(crate) struct RunLines<V: Common> {
    last: Option<Valued<V>>,
    count: usize,
}

impl<V: Common> RunLines<V> {
    /// Before the first run.
    pub(crate) fn new() -> Self
        ensures last { result.last ≡ None }
        ensures count { result.count ≡ 0 }
    {
        RunLines {
            last: None,
            count: 0,
        }
    }

    /// Takes the next run. It joins the one that waits, or the line of that one is appended, since it is complete.
    pub(crate) fn push(&mut self, text: &mut Vec<u8>, next: Valued<V>) -> Result<(), OutOfMemory>
        requires { self.old.count ≤ length text.old.items }
        ensures few { OnOk result (self.new.count ≤ length text.new.items) }
        ensures lined { OnOk result ((before : List ℕ) → (runs : List (ValuedRun V))
            → AreLined V.rest before text.old.items self.old.count self.old.last runs
            → AreLined V.rest before text.new.items self.new.count self.new.last
            (maximal.with_next V.same runs next)) }
    {
        let waits = match self.last.take() {
            Some(last) => {
                if last.is_followed_by(&next) {
                    last.joined(&next)
                } else {
                    last.append(text)?;
                    self.count += 1;
                    next
                }
            }
            None => next,
        };
        self.last = Some(waits);
        Ok(())
    }

    /// Appends the line of the last run, and says how many lines there are.
    pub(crate) fn finish(self, text: &mut Vec<u8>) -> Result<usize, OutOfMemory>
        requires { self.count ≤ length text.old.items }
        ensures count { IfOk result (λ count. (before : List ℕ) → (runs : List (ValuedRun V))
            → AreLined V.rest before text.old.items self.count self.last runs
            → count ≡ length runs) }
        ensures lines { OnOk result ((before : List ℕ) → (runs : List (ValuedRun V))
            → AreLined V.rest before text.old.items self.count self.last runs
            → text.new.items ≡ before ++ flat_map (line_of V.rest) runs) }
    {
        let RunLines { last, count } = self;
        match last {
            Some(last) => {
                last.append(text)?;
                Ok(count + 1)
            }
            None => Ok(count),
        }
    }
}
