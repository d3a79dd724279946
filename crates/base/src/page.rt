ghost use Rattle.std.specs.Prelude.{◌≡◌, ◌+◌, ◌^◌, ◌<◌, ◌≤◌, nat_le, if◌then◌else◌};
ghost use Rattle.base.specs.Pages.{in_run, with_run};

use std::marker::Model;

/// The number of a page of 4 KB: its address divided by 4,096, below 2^27 (Arm ARM, VMSAv8-64, 4 KB
/// granule, input addresses of 39 bits).
#[derive(Clone, Copy, Debug, PartialEq, Eq)]
pub struct Page(u32);

impl Model for Page {
    ghost use Rattle.std.specs.Prelude.{ℕ, ◌<◌, ◌^◌};

    ghost Value = { ℕ };

    ghost view = { λ page. page.0 };

    ghost invariant = { λ page. page.0 < 2 ^ 27 };

    ghost inverse = { λ n. record { 0 = n } };
}

impl Page {
    /// How many pages there are.
    pub const COUNT: u32 = 0x800_0000;

    /// The page with this number.
    pub fn new(number: u32) -> Self
        requires { number < 2 ^ 27 }
        ensures { result ≡ number }
    {
        Page(number)
    }

    /// The number of the page.
    pub fn number(self) -> u32
        ensures same { result ≡ self }
        ensures in_range { self < 2 ^ 27 }
    {
        self.0
    }
}

/// Pages that follow one another: at least one, the last below 2^27.
#[derive(Clone, Copy, Debug, PartialEq, Eq)]
pub struct Run {
    first: Page,
    count: u32,
}

impl Model for Run {
    ghost use Rattle.base.specs.Pages.{PageRun, IsRun};

    ghost Value = { PageRun };

    ghost view = { λ run. record { first = run.first; count = run.count } };

    ghost invariant = { λ run. IsRun (record { first = run.first; count = run.count }) };

    ghost inverse = { λ run. record { first = run.first; count = run.count } };
}

impl Default for Run {
    ghost is_default = { λ run. run ≡ record { first = 0; count = 1 } };

    /// The first page alone.
    fn default() -> Run {
        Run {
            first: Page(0),
            count: 1,
        }
    }
}

impl Run {
    ghost use Rattle.base.specs.Pages.{IsRun};

    /// `count` pages from `first` on.
    pub fn new(first: Page, count: u32) -> Self
        requires some { 0 < count }
        requires in_range { first + count ≤ 2 ^ 27 }
        ensures { result ≡ record { first = first; count = count } }
    {
        Run { first, count }
    }

    /// The first page.
    pub fn first(self) -> Page
        ensures same { result ≡ self.first }
        ensures in_range { IsRun self }
    {
        self.first
    }

    /// How many pages there are.
    pub fn count(self) -> u32
        ensures same { result ≡ self.count }
        ensures in_range { IsRun self }
    {
        self.count
    }

    /// The number after the last page's.
    pub fn end(self) -> u32
        ensures same { result ≡ self.first + self.count }
        ensures in_range { IsRun self }
    {
        self.first.number() + self.count
    }

    /// Whether the page is in the run.
    pub fn contains(self, page: Page) -> bool
        ensures { result ≡ in_run self page }
    {
        self.first.number() <= page.number() && page.number() < self.end()
    }

    /// Takes in the pages of a run that begins at no lower page, if it begins in this one or where this
    /// one ends, and answers whether it does.
    pub(crate) fn takes_in(&mut self, next: Run) -> bool
        ensures whether { result ≡ nat_le next.first (self.old.first + self.old.count) }
        ensures pages { self.new ≡ (if result then with_run self.old next else self.old) }
    {
        if self.end() < next.first().number() {
            return false;
        }
        let end = self.end().max(next.end());
        *self = Run::new(self.first, end - self.first.number());
        true
    }
}
