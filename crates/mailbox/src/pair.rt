ghost use Rattle.std.specs.Prelude.{◌≡◌, false, ◌<◌, IfSome, IfNone};
ghost use Rattle.base.specs.Alike.{IsAlikeUntil};
ghost use Rattle.base.specs.Buffers as spec;

use base::limits::{MOST_BUFFER_PAGES, PAGE_SIZE};
use base::{Page, Run, run_until};
use std::marker::Model;

/// The TX and the RX buffer of a partition, and whether the partition holds RX (FF-A 1.1, "RX/TX
/// buffers").
#[derive(Clone, Copy, Debug, PartialEq, Eq)]
pub struct Pair {
    /// The pages that the partition sends from.
    pub tx: Run,
    /// The pages that the partition receives in.
    pub rx: Run,
    /// Whether RX was filled and is not yet released: it is not to be filled meanwhile.
    pub held: bool,
}

impl Model for Pair {
    ghost use Rattle.base.specs.Buffers as spec;

    ghost Value = { spec.Pair };

    ghost view = { λ a. record { tx = a.tx; rx = a.rx; held = a.held } };

    ghost inverse = { λ a. record { tx = a.tx; rx = a.rx; held = a.held } };
}

impl Pair {
    /// Whether the page lies in one of the two buffers.
    pub fn contains(&self, page: Page) -> bool
        ensures { result ≡ spec.in_pair self.now page }
    {
        self.tx.contains(page) || self.rx.contains(page)
    }

    /// The number of a page behind this one, up to a limit, before which neither buffer begins or ends.
    pub fn until(&self, page: Page, limit: u32) -> u32
        requires { page < limit }
        ensures { IsAlikeUntil (spec.in_pair self.now) page limit result }
    {
        run_until(self.rx, page, run_until(self.tx, page, limit))
    }

    /// This pair, with RX held or not.
    pub(crate) fn holding(self, held: bool) -> Pair
        ensures { result ≡ spec.holding held self }
    {
        Pair {
            tx: self.tx,
            rx: self.rx,
            held,
        }
    }
}

/// The pair whose areas have so many pages from these addresses in bytes, with RX not held, where
/// they are a pair's.
#[tactic(auto, unfolding(base::specs::Buffers::are_areas, base::specs::Buffers::is_pair))]
pub(crate) fn named_pair(tx: u64, rx: u64, pages: u32) -> Option<Pair>
    ensures some { IfSome result (spec.IsNamedPair tx rx pages) }
    ensures none { IfNone result (spec.names_pair tx rx pages ≡ false) }
{
    if pages < 1 || pages > MOST_BUFFER_PAGES || tx % PAGE_SIZE != 0 || rx % PAGE_SIZE != 0 {
        return None;
    }
    let tx = area(tx, pages)?;
    let rx = area(rx, pages)?;
    if tx.end() <= rx.first().number() || rx.end() <= tx.first().number() {
        Some(Pair {
            tx,
            rx,
            held: false,
        })
    } else {
        None
    }
}

/// So many pages from an address in bytes, where they end within input addresses of 39 bits.
fn area(address: u64, pages: u32) -> Option<Run>
    requires { 0 < pages }
    ensures some { IfSome result (spec.IsArea address pages) }
    ensures none { IfNone result (spec.ends_in_space (spec.area address pages) ≡ false) }
{
    let first = address / PAGE_SIZE;
    if first + u64::from(pages) <= u64::from(Page::COUNT) {
        Some(Run::new(Page::new(first as u32), pages))
    } else {
        None
    }
}
