//! Which pages are sent, and to whom.

use crate::draw::Draw;
use crate::fault::Fault;
use crate::house::{House, YARD, address, border, id_of, place_of, yard};
use base::Kind;
use descw::RangeFields;
use std::alloc::Global;

/// The pages of a chunk of 2 MB.
const CHUNK: u32 = 512;

/// Pages that follow one another.
#[derive(Clone, Copy)]
pub(crate) struct Span {
    pub(crate) first: u32,
    pub(crate) count: u32,
}

impl Span {
    pub(crate) fn new(first: u32, count: u32) -> Self {
        Span { first, count }
    }

    fn end(self) -> u32 {
        self.first.wrapping_add(self.count)
    }

    /// Whether the two have a page in common.
    pub(crate) fn meets(self, other: Self) -> bool {
        self.first < other.end() && other.first < self.end()
    }

    /// Its pages that lie in another, and the first of that if none does.
    fn within(self, whole: Self) -> Self {
        let first = self.first.max(whole.first);
        let end = self.end().min(whole.end());
        if first < end {
            Span::new(first, end.wrapping_sub(first))
        } else {
            Span::new(whole.first, 1)
        }
    }
}

/// Any page of a span.
fn any_page(draw: &mut Draw, whole: Span) -> u32 {
    whole.first.wrapping_add(draw.below(whole.count))
}

/// The first page of a chunk of which the span has a page.
fn any_chunk(draw: &mut Draw, whole: Span) -> u32 {
    let page = any_page(draw, whole);
    page.wrapping_sub(page % CHUNK)
}

/// Pages of a land, which has pages on both sides of a border: one or some, the first or the last of a chunk,
/// whole chunks, all of a chunk but one, or pages on both sides of a border of chunks or of gigabytes.
fn drawn_in_land(draw: &mut Draw, land: Span, middle: u32) -> Span {
    let page = any_page(draw, land);
    let chunk = any_chunk(draw, land);
    match draw.below(20) {
        0..=3 => Span::new(page, 1),
        4..=6 => Span::new(page, draw.between(2, 64)),
        7 | 8 => Span::new(chunk, 1),
        9 | 10 => Span::new(chunk.wrapping_add(511), 1),
        11..=13 => Span::new(chunk, draw.between(1, 2).wrapping_mul(CHUNK)),
        14 => Span::new(chunk, 511),
        15 => Span::new(chunk.wrapping_add(1), 511),
        16 | 17 => Span::new(chunk.wrapping_sub(draw.between(1, 40)), draw.between(2, 80)),
        18 => Span::new(
            middle.wrapping_sub(draw.between(1, 700)),
            draw.between(2, 1_400),
        ),
        _ => Span::new(middle.wrapping_sub(CHUNK), CHUNK.wrapping_mul(2)),
    }
}

/// The pages of a partition's land, and those of its yard that are sent.
fn land_of(house: House, id: u16) -> Span {
    Span::new(
        border(id).wrapping_sub(house.before),
        house.before.wrapping_add(house.behind),
    )
}

fn yard_of(id: u16) -> Span {
    Span::new(yard(id), YARD)
}

/// Pages of a partition's own, from its land or its yard.
pub(crate) fn drawn_span(draw: &mut Draw, house: House, id: u16) -> Span {
    if draw.percent(15) {
        let place = yard_of(id);
        return Span::new(any_page(draw, place), draw.between(1, YARD)).within(place);
    }
    let land = land_of(house, id);
    drawn_in_land(draw, land, border(id)).within(land)
}

/// Pages of a partition's own right behind others of it.
pub(crate) fn next_to(draw: &mut Draw, house: House, id: u16, other: Span) -> Span {
    let place = if other.meets(yard_of(id)) {
        yard_of(id)
    } else {
        land_of(house, id)
    };
    Span::new(other.end(), draw.between(1, 20)).within(place)
}

fn range(first: u32, count: u32) -> RangeFields {
    RangeFields {
        address: address(first),
        count,
    }
}

/// The ranges of a span: all its pages, or all but its second one.
pub(crate) fn ranges(alloc: Global, span: Span, holed: bool) -> Result<Vec<RangeFields>, Fault> {
    let mut ranges = Vec::new(alloc);
    if holed && span.count > 2 {
        ranges.push(range(span.first, 1))?;
        ranges.push(range(span.first.wrapping_add(2), span.count.wrapping_sub(2)))?;
    } else {
        ranges.push(range(span.first, span.count))?;
    }
    Ok(ranges)
}

/// One receiver mostly, else all others.
pub(crate) fn receivers(
    alloc: Global,
    draw: &mut Draw,
    house: House,
    sender: u16,
    kind: Kind,
) -> Result<Vec<u16>, Fault> {
    let others = u32::from(house.partitions).saturating_sub(1);
    let count = match kind {
        Kind::Donate => 1,
        Kind::Lend | Kind::Share if draw.percent(75) => 1,
        Kind::Lend | Kind::Share => others,
    };
    let begin = draw.below(others);
    let mut receivers = Vec::new(alloc);
    for i in 0..count {
        let behind = begin.wrapping_add(i).checked_rem(others).unwrap_or(0);
        let place = place_of(sender).wrapping_add(behind).wrapping_add(1);
        receivers.push(id_of(house, place))?;
    }
    Ok(receivers)
}

/// Lends, shares and donations.
pub(crate) fn drawn_kind(draw: &mut Draw) -> Kind {
    match draw.below(10) {
        0..=3 => Kind::Lend,
        4..=6 => Kind::Share,
        _ => Kind::Donate,
    }
}
