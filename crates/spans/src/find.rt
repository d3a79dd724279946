//! Looks pages up among intervals, by halving.

ghost use Rattle.std.specs.Prelude.{◌≡◌, ◌+◌, ◌-◌, ◌*◌, ◌^◌, ◌<◌, ◌≤◌, [], ◌∷◌, true, length};
ghost use Rattle.spans.specs.Spans as spec;
ghost use Rattle.spans.specs.Edits.{IsPlaceOf};
ghost use Rattle.spans.specs.Search.{IsSegment};

use crate::probes::Probes;
use crate::span::Span;
use base::{Page, Segment};
use std::sync::ledger::Ledger;

/// What an interval says of a page before its end.
fn segment_of(span: Span, page: u32) -> Segment<Option<u64>>
    requires { page < spec.end_of span.run }
    ensures segment { IsSegment (span ∷ []) page result }
    ensures inside { result.end ≤ spec.end_of span.run }
{
    let first = span.run.first().number();
    if page < first {
        return Segment {
            value: None,
            end: first,
        };
    }
    Segment {
        value: Some(span.value),
        end: span.run.end(),
    }
}

/// The number of a page, and how far the pages behind it have the same. It looks at no more intervals than their count has
/// binary digits.
pub(crate) fn segment_in<L: Ledger>(
    spans: &[Span],
    page: Page,
    probes: &mut Probes<L>,
) -> Segment<Option<u64>>
    requires { spec.ascend 0 spans.now ≡ true }
    ensures segment { IsSegment spans.now page result }
    ensures cost { 2 ^ (probes.new - probes.old) ≤ 2 * length spans.now + 1 }
    ensures counts { probes.old ≤ probes.new }
{
    let mut segment = Segment {
        value: None,
        end: Page::COUNT,
    };
    let mut low = 0;
    let mut high = spans.len();
    while low < high {
        let middle = low + (high - low) / 2;
        probes.count();
        let span = spans[middle];
        if span.run.end() <= page.number() {
            low = middle + 1;
        } else {
            high = middle;
            segment = segment_of(span, page.number());
        }
    }
    segment
}

/// Where the last of the intervals ends; without one, the first page.
pub(crate) fn end_of(spans: &[Span]) -> u32
    ensures same { result ≡ spec.end_from 0 spans.now }
    ensures in_range { result ≤ 2 ^ 27 }
{
    if spans.is_empty() {
        return 0;
    }
    let last = spans[spans.len() - 1];
    last.run.end()
}

/// The place of the first interval that ends behind a page. Mostly it is near an end of the list, and so is found
/// without a search.
pub(crate) fn place_near_end(spans: &[Span], page: u32) -> usize
    requires { spec.ascend 0 spans.now ≡ true }
    ensures place { IsPlaceOf spans.now page result }
    ensures in_range { spec.end_from 0 spans.now ≤ 2 ^ 27 }
{
    let len = spans.len();
    if end_of(spans) <= page {
        len
    } else if end_of(&spans[..len - 1]) <= page {
        len - 1
    } else if page < end_of(&spans[..1]) {
        0
    } else if page < end_of(&spans[..2]) {
        1
    } else {
        spans.partition_point(|span| span.run.end() <= page)
    }
}
