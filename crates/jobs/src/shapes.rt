//! Which pages are sent, and to whom.

use crate::draw::Draw;
use crate::fault::Fault;
use crate::house::{GIGABYTE, House, address, id_of, land, place_of};
use base::Kind;
use descw::RangeFields;
use std::alloc::Global;

/// The pages of a chunk of 2 MB.
const CHUNK: u64 = 512;

/// The pages that a partition sends messages from, and those of its scatter lists. They lie behind two
/// gigabytes of chunks.
const MESSAGES: u64 = 16 * CHUNK;

const LISTS: u64 = 128 * CHUNK;

/// The pages of a partition that sends in all these shapes.
pub(crate) const ALL_PAGES: u32 = 598_016;

/// What is sent.
#[derive(Clone, Copy)]
pub(crate) enum Shape {
    /// One to eight pages in one range or two.
    Message,
    /// 16 to 512 pages apart, upward, downward, or in short runs.
    List { downward: bool, most: u32 },
    /// Whole chunks of 2 MB.
    Chunks,
    /// 512 chunks, of which one page stays.
    AllButAPage,
    /// A page in each of 512 chunks.
    PageInEach,
}

/// A shape, as often as it is seen in service.
pub(crate) fn drawn_shape(draw: &mut Draw) -> Shape {
    match draw.below(200) {
        0..=124 => Shape::Message,
        125..=152 => Shape::List {
            downward: false,
            most: 1,
        },
        153..=170 => Shape::List {
            downward: false,
            most: 8,
        },
        171..=174 => Shape::List {
            downward: true,
            most: 1,
        },
        175..=195 => Shape::Chunks,
        196 | 197 => Shape::AllButAPage,
        _ => Shape::PageInEach,
    }
}

fn range(page: u64, count: u32) -> RangeFields {
    RangeFields {
        address: address(page),
        count,
    }
}

/// So many runs of at most so many pages, a step apart.
pub(crate) fn spread(
    alloc: Global,
    draw: &mut Draw,
    first: u64,
    count: u32,
    step: u32,
    most: u32,
) -> Result<Vec<RangeFields>, Fault> {
    let mut ranges = Vec::new(alloc);
    for i in 0..count {
        let behind = u64::from(i).wrapping_mul(u64::from(step));
        ranges.push(range(first.wrapping_add(behind), draw.between(1, most)))?;
    }
    Ok(ranges)
}

/// A scatter list in an area of so many pages.
fn list(
    alloc: Global,
    draw: &mut Draw,
    first: u64,
    downward: bool,
    most: u32,
) -> Result<Vec<RangeFields>, Fault> {
    let count = draw.between(16, 512);
    let step = most.saturating_add(draw.between(1, 24));
    let taken = u64::from(count).wrapping_mul(u64::from(step));
    let room = u32::try_from(LISTS.saturating_sub(taken)).unwrap_or(0);
    let begin = first.wrapping_add(u64::from(draw.below(room)));
    let mut ranges = spread(alloc, draw, begin, count, step, most)?;
    if downward {
        ranges.reverse();
    }
    Ok(ranges)
}

/// One or two messages that do not touch.
fn message(alloc: Global, draw: &mut Draw, first: u64) -> Result<Vec<RangeFields>, Fault> {
    let begin = first.wrapping_add(u64::from(draw.below(1_000)).wrapping_mul(8));
    let mut ranges = Vec::new(alloc);
    if draw.percent(20) {
        ranges.push(range(begin, draw.between(1, 3)))?;
        ranges.push(range(begin.wrapping_add(4), draw.between(1, 4)))?;
    } else {
        ranges.push(range(begin, draw.between(1, 8)))?;
    }
    Ok(ranges)
}

/// Chunks that follow one another: often few, seldom all of a gigabyte.
fn chunks(alloc: Global, draw: &mut Draw, first: u64) -> Result<Vec<RangeFields>, Fault> {
    let most = 1u32 << draw.below(10).min(9);
    let count = draw.between(1, most).min(512);
    let place = draw.below(513u32.saturating_sub(count));
    let begin = first.wrapping_add(u64::from(place).wrapping_mul(CHUNK));
    let mut ranges = Vec::new(alloc);
    ranges.push(range(begin, count.saturating_mul(512)))?;
    Ok(ranges)
}

/// A gigabyte without one of its pages.
fn all_but_a_page(alloc: Global, draw: &mut Draw, first: u64) -> Result<Vec<RangeFields>, Fault> {
    let hole = draw.between(1, 262_142);
    let mut ranges = Vec::new(alloc);
    ranges.push(range(first, hole))?;
    let behind = first.wrapping_add(u64::from(hole)).wrapping_add(1);
    ranges.push(range(behind, 262_143u32.saturating_sub(hole)))?;
    Ok(ranges)
}

/// Pages of a partition in a shape.
pub(crate) fn ranges(
    alloc: Global,
    draw: &mut Draw,
    sender: u16,
    shape: Shape,
) -> Result<Vec<RangeFields>, Fault> {
    let first = land(sender);
    let second = first.wrapping_add(GIGABYTE);
    let messages = second.wrapping_add(GIGABYTE);
    match shape {
        Shape::Message => message(alloc, draw, messages),
        Shape::List { downward, most } => {
            list(alloc, draw, messages.wrapping_add(MESSAGES), downward, most)
        }
        Shape::Chunks => chunks(alloc, draw, first),
        Shape::AllButAPage => all_but_a_page(alloc, draw, second),
        Shape::PageInEach => {
            let page = second.wrapping_add(u64::from(draw.below(512)));
            spread(alloc, draw, page, 512, 512, 1)
        }
    }
}

/// One receiver mostly, else two to eight, that follow one another.
pub(crate) fn receivers(
    alloc: Global,
    draw: &mut Draw,
    house: House,
    sender: u16,
    kind: Kind,
) -> Result<Vec<u16>, Fault> {
    let others = u32::from(house.partitions).saturating_sub(1);
    let count = match kind {
        Kind::Donate => 1,
        Kind::Lend | Kind::Share if draw.percent(75) => 1,
        Kind::Lend | Kind::Share => draw.between(2, 8).min(others),
    };
    let begin = draw.below(others);
    let mut receivers = Vec::new(alloc);
    for i in 0..count {
        let behind = begin.wrapping_add(i).checked_rem(others).unwrap_or(0);
        let place = place_of(sender).wrapping_add(behind).wrapping_add(1);
        receivers.push(id_of(house, place))?;
    }
    Ok(receivers)
}

/// Lends mostly, shares often, donations now and then.
pub(crate) fn kind(draw: &mut Draw) -> Kind {
    match draw.below(20) {
        0..=11 => Kind::Lend,
        12..=18 => Kind::Share,
        _ => Kind::Donate,
    }
}
