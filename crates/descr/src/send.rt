//! Reads the memory transaction descriptor of a send.

ghost use Rattle.std.specs.Prelude.{◌≡◌, ◌≤◌, true, false, length, IfSome, IfNone, IsTrue};
ghost use Rattle.base.specs.Descriptors.Send as spec;
ghost use Rattle.descr.specs.Inside.{IsInside};
ghost use Rattle.descr.specs.Parts.{has_receivers, SpellsReceivers, has_memory, SpellsMemory, YieldsRanges};

use crate::access::{Endpoint, read_endpoints};
use crate::apart::are_disjoint;
use crate::flags::orders_clear;
use crate::layout::{PART_SIZE, array_at, attributes_of, composite_at, has_layout, is_header};
use crate::numbers::{u16_at, u32_at, u64_at};
use crate::ranges::{Ranges, is_composite, read_ranges};
use arrayvec::ArrayVec;
use base::{MemoryAttributes, PartitionId, Version};
use std::marker::Model;

/// What a send says (FF-A 1.1 and 1.0, "Memory transaction descriptor"). Its ranges stay in the
/// borrowed bytes.
#[derive(Drop)]
pub struct SendDesc<'a> {
    /// The sender, from bytes 0 and 1.
    pub sender: PartitionId,
    /// The memory region attributes, from bytes 2 and 3: 0 or 0x2f.
    pub attributes: MemoryAttributes,
    /// Whether the pages are to be cleared: bit 0 of the flags, bytes 4 to 7.
    pub clears: bool,
    /// The tag, from bytes 16 to 23.
    pub tag: u64,
    /// The receivers, 1 to 8, in the order of the access descriptors.
    pub receivers: ArrayVec<Endpoint, 8>,
    ranges: Ranges<'a>,
}

impl<'a> Model for SendDesc<'a> {
    ghost use Rattle.base.specs.Descriptors.Send.{Send};

    ghost Value = { Send };

    ghost view = { λ d. record {
      sender = d.sender;
      attributes = d.attributes;
      clears = d.clears;
      tag = d.tag;
      receivers = d.receivers.items;
      ranges = d.ranges;
    } };
}

impl<'a> SendDesc<'a> {
    /// The ranges, in the order of the descriptor.
    pub fn ranges(&self) -> Ranges<'a>
        ensures same { result ≡ self.now.ranges }
        ensures few { length result ≤ 512 }
        ensures runs { YieldsRanges }
    {
        self.ranges.again()
    }
}

/// The receivers that the access descriptors name, if these keep their rules.
fn read_receivers(version: Version, bytes: &[u8]) -> Option<ArrayVec<Endpoint, 8>>
    requires { IsInside version bytes.now }
    ensures some { IfSome result (λ v. SpellsReceivers version bytes.now v.items) }
    ensures none { IfNone result (has_receivers version bytes.now ≡ false) }
{
    let composite = composite_at(version, bytes);
    let count = u32_at(bytes, 28) as usize;
    read_endpoints(bytes, composite, array_at(version, bytes), count)
}

/// The ranges behind the composite descriptor, if it and they keep their rules.
fn read_memory(version: Version, bytes: &[u8]) -> Option<Ranges<'_>>
    requires { IsInside version bytes.now }
    ensures some { IfSome result (SpellsMemory version bytes.now) }
    ensures none { IfNone result (has_memory version bytes.now ≡ false) }
{
    let composite = composite_at(version, bytes) as usize;
    let count = u32_at(bytes, composite + 4) as usize;
    let ranges = read_ranges(bytes, composite + PART_SIZE, count)?;
    if is_composite(bytes, composite, &ranges) && are_disjoint(&ranges) {
        Some(ranges)
    } else {
        None
    }
}

/// What the bytes of a send say, in the layout of this version. `None` means that the bytes are no
/// such descriptor: a part lies outside them or bytes are left over, a field breaks its rule, two
/// ranges share a page, or the total is not the sum of the ranges' pages.
pub fn read_send(bytes: &[u8], version: Version) -> Option<SendDesc<'_>>
    // What is read is spelled so.
    ensures some { IfSome result (spec.SpellsSend version bytes.now) }

    // Nothing is read only where no send is spelled.
    ensures none { IfNone result (spec.is_send version bytes.now ≡ false) }
{
    if !has_layout(version, bytes) || !is_header(version, bytes) {
        return None;
    }
    let receivers = read_receivers(version, bytes)?;
    let ranges = read_memory(version, bytes)?;
    Some(SendDesc {
        sender: PartitionId::new(u16_at(bytes, 0)),
        attributes: attributes_of(bytes),
        clears: orders_clear(u32_at(bytes, 4)),
        tag: u64_at(bytes, 16),
        receivers,
        ranges,
    })
}
