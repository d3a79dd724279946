//! An interval of pages that have one number, and what it has on each side of a page.

ghost use Rattle.std.specs.Prelude.{◌≡◌, ◌^◌, ◌≤◌, Some};
ghost use Rattle.spans.specs.Edits as edits;
ghost use Rattle.spans.specs.Edits.{left_of, right_of};

use base::{Page, Run};
use std::marker::Model;

/// The pages of a run, and the number that each of them has.
#[derive(Clone, Copy)]
pub(crate) struct Span {
    pub(crate) run: Run,
    pub(crate) value: u64,
}

impl Model for Span {
    ghost use Rattle.spans.specs.Spans as spec;

    ghost Value = { spec.Span };

    ghost view = { λ s. record { run = s.run; value = s.value } };

    ghost inverse = { λ s. record { run = s.run; value = s.value } };
}

impl Span {
    /// Its pages before this one.
    pub(crate) fn before(self, page: u32) -> Option<Span>
        requires { page ≤ 2 ^ 27 }
        ensures { result ≡ left_of page self }
    {
        let first = self.run.first();
        if page <= first.number() {
            return None;
        }
        let end = self.run.end().min(page);
        let run = Run::new(first, end - first.number());
        Some(Span { run, ..self })
    }

    /// Its pages from this one on.
    fn from(self, page: u32) -> Option<Span>
        ensures { result ≡ right_of page self }
    {
        let end = self.run.end();
        if end <= page {
            return None;
        }
        let first = self.run.first().number().max(page);
        let run = Run::new(Page::new(first), end - first);
        Some(Span { run, ..self })
    }

    /// Its pages from one page on, and before another.
    pub(crate) fn within(self, from: u32, to: u32) -> Option<Span>
        requires { to ≤ 2 ^ 27 }
        ensures { (part : _) → right_of from self ≡ Some part → result ≡ left_of to part }
    {
        self.from(from)?.before(to)
    }

    /// It and the next as one, where they touch and have one number.
    pub(crate) fn joined(self, next: Span) -> Option<Span>
        ensures { result ≡ edits.joined self next }
    {
        if self.value == next.value && self.run.end() == next.run.first().number() {
            let run = Run::new(self.run.first(), self.run.count() + next.run.count());
            Some(Span { run, ..self })
        } else {
            None
        }
    }
}
