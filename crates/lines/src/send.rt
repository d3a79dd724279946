//! Lines of senders.

ghost use Rattle.std.specs.Prelude.{◌≡◌, ◌≤◌, length, option_map, IfSome, IfOk};
ghost use Rattle.lines.specs.Lines.{texts, IsWhole};
ghost use Rattle.lines.specs.Said.{said_send};
ghost use Rattle.lines.specs.Grammar as grammar;
ghost use Rattle.lines.specs.Grammar.{receiver_of, receivers_of, range_of, ranges_of, total_of, send_with, reclaim_of};

use crate::words::{
    first_part, halves, read_count, read_id, read_last_word, read_number, read_permissions,
};
use arrayvec::ArrayVec;
use base::limits::MOST_RANGES;
use base::{Handle, OutOfMemory, PartitionId};
use descr::Endpoint;
use descw::RangeFields;
use std::alloc::Global;

/// What a line says of a send.
#[derive(Debug, Drop, PartialEq, Eq)]
pub struct SendLine {
    /// The partition that sends.
    pub sender: PartitionId,
    /// Whether the pages are to be cleared.
    pub clears: bool,
    /// The tag.
    pub tag: u64,
    /// The receivers, 1 to 8, in the order of the line.
    pub receivers: ArrayVec<Endpoint, 8>,
    /// The ranges, 1 to 512, in the order of the line.
    pub ranges: Vec<RangeFields>,
    /// The sum of their counts of pages.
    pub total: u32,
}

/// What a line says of a reclaim.
#[derive(Clone, Copy, Debug, PartialEq, Eq)]
pub struct ReclaimLine {
    /// The partition that reclaims.
    pub caller: PartitionId,
    /// The handle of the transaction.
    pub handle: Handle,
    /// Whether its pages are to be cleared.
    pub clears: bool,
}

/// The send that the words `ID NUM RECEIVERS RANGES` say; where the pages are to be cleared, with a last
/// word `zero`.
pub(crate) fn read_send(alloc: Global, words: &[&[u8]]) -> Result<Option<SendLine>, OutOfMemory>
    ensures send { IfOk result (λ line. option_map said_send line ≡ grammar.send_of (texts words.now)) }
    ensures whole { IfOk result (λ line. IfSome line IsWhole) }
{
    let [id, tag, receivers, ranges, last @ ..] = words else {
        return Ok(None);
    };
    let Some(ranges) = read_ranges(alloc, ranges)? else {
        return Ok(None);
    };
    Ok(send_of(id, tag, receivers, ranges, last))
}

/// The send of these ranges that the other words say.
fn send_of(
    id: &[u8],
    tag: &[u8],
    receivers: &[u8],
    ranges: Vec<RangeFields>,
    last: &[&[u8]],
) -> Option<SendLine>
    requires { length ranges.items ≤ 512 }
    ensures send { option_map said_send result
        ≡ send_with id.now tag.now receivers.now ranges.items (texts last.now) }
    ensures whole { IfSome result IsWhole }
{
    let total = page_count(&ranges)?;
    Some(SendLine {
        sender: read_id(id)?,
        clears: read_last_word("zero", last)?,
        tag: read_number(tag)?,
        receivers: read_receivers(receivers)?,
        ranges,
        total,
    })
}

/// The receivers `ID:PERM`, parted by commas, where they are not too many.
fn read_receivers(text: &[u8]) -> Option<ArrayVec<Endpoint, 8>>
    ensures { option_map (λ receivers. receivers.items) result ≡ receivers_of text.now }
{
    let mut receivers = ArrayVec::new();
    let mut left = Some(text);
    while let Some(parts) = left {
        let (word, behind) = first_part(parts, b',');
        left = behind;
        if receivers.is_full() {
            return None;
        }
        receivers.push(read_receiver(word)?);
    }
    Some(receivers)
}

fn read_receiver(word: &[u8]) -> Option<Endpoint>
    ensures { result ≡ receiver_of word.now }
{
    let (id, permissions) = halves(word, b':')?;
    Some(Endpoint {
        partition: read_id(id)?,
        permissions: read_permissions(permissions)?,
    })
}

/// The ranges `NUM+COUNT`, parted by commas, where they are not too many.
fn read_ranges(alloc: Global, text: &[u8]) -> Result<Option<Vec<RangeFields>>, OutOfMemory>
    ensures ranges { IfOk result (λ found.
        option_map (λ ranges. ranges.items) found ≡ ranges_of text.now) }
    ensures few { IfOk result (λ found. IfSome found (λ ranges. length ranges.items ≤ 512)) }
{
    let mut ranges = Vec::new(alloc);
    let mut left = Some(text);
    while let Some(parts) = left {
        let (word, behind) = first_part(parts, b',');
        left = behind;
        if ranges.len() == MOST_RANGES {
            return Ok(None);
        }
        let Some(range) = read_range(word) else {
            return Ok(None);
        };
        ranges.push(range)?;
    }
    Ok(Some(ranges))
}

fn read_range(word: &[u8]) -> Option<RangeFields>
    ensures { result ≡ range_of word.now }
{
    let (address, count) = halves(word, b'+')?;
    Some(RangeFields {
        address: read_number(address)?,
        count: read_count(count)?,
    })
}

/// The reclaim that the words `ID NUM` say: who reclaims, and the handle; where the pages are to be
/// cleared, with a last word `zero`.
pub(crate) fn read_reclaim(words: &[&[u8]]) -> Option<ReclaimLine>
    ensures { result ≡ reclaim_of (texts words.now) }
{
    let [id, handle, last @ ..] = words else {
        return None;
    };
    Some(ReclaimLine {
        caller: read_id(id)?,
        handle: Handle::from_bits(read_number(handle)?),
        clears: read_last_word("zero", last)?,
    })
}

/// How many pages the ranges have together, where that is below 2^32.
fn page_count(ranges: &[RangeFields]) -> Option<u32>
    ensures { result ≡ total_of ranges.now }
{
    let mut total = 0u32;
    for range in ranges {
        total = total.checked_add(range.count)?;
    }
    Some(total)
}
